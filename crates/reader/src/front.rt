// The sections front to back: refusals 1 to 4 as they are met, then 5.
// A section has at most 2 + 7 * 1,024 = 7,170 bytes, so the sections start and end within multiples of that, and every place fits.
ghost use Rattle.std.specs.Prelude.{◌≡◌, ◌≤◌, length};
ghost use Rattle.rules.specs.Calls.{says};
ghost use Rattle.rules.specs.Reading.{row_bytes, fewest, most, sections, reading};
ghost use Rattle.laws.specs.WellRead.{Placed};
ghost use Rattle.reader.specs.Steps.{Sighted, RowsRead, SectionRead, from_cells, from_values};

use super::range::row_good;
use rules::{Fault, Refusal, Section, Starts};
use view::{half_at, home_place};

// How a section is passed: the place behind it, and its count of rows.
#[derive(Clone, Copy)]
pub struct Passed {
    pub end: usize,
    pub rows: usize,
}

// The bytes of a row.
fn bytes_of(part: Section) -> usize
    ensures means { result ≡ row_bytes part }
    ensures few { result ≤ 8 }
{
    match part {
        Section::Types => 2,
        Section::Homes(_) => 4,
        Section::Exprs(..) => 5,
        Section::Commands(_) => 7,
        Section::Values(_) => 8,
    }
}

// The fewest rows that a section may have.
fn fewest_of(part: Section) -> usize
    ensures { result ≡ fewest part }
{
    match part {
        Section::Commands(_) => 1,
        Section::Types | Section::Homes(_) | Section::Exprs(..) | Section::Values(_) => 0,
    }
}

// The most rows that a section may have.
fn most_of(part: Section) -> usize
    ensures means { result ≡ most part }
    ensures few { result ≤ 1024 }
{
    match part {
        Section::Types => 255,
        Section::Homes(_) => 64,
        Section::Exprs(..) | Section::Commands(_) => 1024,
        Section::Values(_) => 256,
    }
}

// The `n` rows of a section, from `place` on.
fn rows(file: &[u8], part: Section, place: usize, n: usize) -> Result<Passed, Refusal>
    requires early { place ≤ 21512 }
    requires few { n ≤ 1024 }
    requires inside { place ≤ length file.now }
    requires sighted { Sighted file.now part }
    ensures { RowsRead file.now part place n result }
{
    let width = bytes_of(part);
    // A sum: with `place + width * i` reading took a quarter longer.
    let mut at = place;
    for i in 0..n {
        if file.len() < at + width {
            return Err(Refusal::new(Fault::Short, at));
        }
        if !row_good(file, part, i, at) {
            return Err(Refusal::new(Fault::Row, at));
        }
        at += width;
    }
    Ok(Passed { end: at, rows: n })
}

// The section whose count stands at `place`.
#[tactic(auto, unfolding(rules::specs::Reading::section))]
fn section(file: &[u8], part: Section, place: usize) -> Result<Passed, Refusal>
    requires early { place ≤ 21510 }
    requires sighted { Sighted file.now part }
    ensures { SectionRead file.now part place result }
{
    if file.len() < place + 2 {
        return Err(Refusal::new(Fault::Short, place));
    }
    let n = half_at(file, place) as usize;
    if !(fewest_of(part)..=most_of(part)).contains(&n) {
        return Err(Refusal::new(Fault::Count, place));
    }
    rows(file, part, place + 2, n)
}

// The four sections that every file has.
#[tactic(auto, unfolding(rules::specs::Reading::sections))]
fn four(file: &[u8]) -> Result<Starts, Refusal>
    ensures { says result ≡ sections file.now }
{
    let types = section(file, Section::Types, 0)?;
    let homes = section(file, Section::Homes(types.rows), types.end)?;
    let exprs = section(file, Section::Exprs(types.rows, homes.rows), homes.end)?;
    let commands = section(file, Section::Commands(exprs.rows), exprs.end)?;
    Ok(Starts {
        types: 0,
        homes: types.end as u32,
        exprs: homes.end as u32,
        commands: exprs.end as u32,
        values: commands.end as u32,
    })
}

// The cells of the homes: the answer for a file whose five sections are read.
#[tactic(auto, unfolding(rules::specs::Reading::cells))]
fn cells(file: &[u8], at: Starts) -> Result<Starts, Refusal>
    requires { Placed file.now at }
    ensures { says result ≡ from_cells file.now at }
{
    let n = half_at(file, at.homes as usize) as usize;
    let mut total = 0;
    // Of `1..=n` the proof did not close: see `runner`.
    for g in 1..n + 1 {
        let place = home_place(at, g);
        let size = half_at(file, place + 2) as usize;
        if 4096 < total + size {
            return Err(Refusal::new(Fault::Cells, place));
        }
        total += size;
    }
    Ok(at)
}

// Behind the commands: the start values, if a byte follows; then no spare byte, and the cells.
#[tactic(auto, unfolding(rules::specs::Reading::fifth))]
fn from_values(file: &[u8], at: Starts) -> Result<Starts, Refusal>
    requires { Placed file.now at }
    ensures { says result ≡ from_values file.now at }
{
    let values = at.values as usize;
    if values == file.len() {
        return cells(file, at);
    }
    let end = section(file, Section::Values(at.homes as usize), values)?.end;
    if end != file.len() {
        return Err(Refusal::new(Fault::Spare, end));
    }
    cells(file, at)
}

// The whole file.
#[tactic(auto, unfolding(rules::specs::Reading::reading))]
pub fn whole(file: &[u8]) -> Result<Starts, Refusal>
    ensures { says result ≡ reading file.now }
{
    let at = four(file)?;
    from_values(file, at)
}
