// The starting memory: each cell's own starting value, then the start values over them.
#![tactic(auto)]

ghost use Rattle.std.specs.Prelude.{◌≡◌, ◌+◌, ◌-◌, ◌≤◌, ◌<◌, length};
ghost use Rattle.rules.specs.Memory.{encode};
ghost use Rattle.rules.specs.Values.{null_value};
ghost use Rattle.rules.specs.Start.{fresh_value, given_value, start_address, given_in, cleared, given};
ghost use Rattle.rules.specs.Calls.{cell_count};
ghost use Rattle.view.specs.Files.{routine_of};
ghost use Rattle.words.specs.Words.{Homes};
ghost use Rattle.starting.specs.Starting.{spread, entry_in};

use filling::AcceptedFile;
use needs::kind_of;
use rules::{Kind, Value};
use values::encode;
use view::View;
use words::{WORDS, start_of};

// ---- cells of their own

// Null, by the kind of its type.
fn null_value(k: Kind) -> Value
    ensures { result ≡ null_value k }
{
    match k {
        Kind::int | Kind::SAFE => Value::Number(0),
        Kind::SEQ | Kind::DYNAMIC => Value::Pair(0, 0),
    }
}

// What a cell starts as, by the kind of its home's type and of its own. A home's type is no int.
fn fresh_value(k: Kind, target: Kind) -> Value
    ensures { result ≡ fresh_value k target }
{
    match k {
        Kind::int => Value::Number(0),
        Kind::SAFE | Kind::SEQ => null_value(target),
        Kind::DYNAMIC => Value::Pair(0, 0),
    }
}

// The entry of each cell of a home of type `t`.
fn home_entry(view: &View, marking: &[u8], t: u16) -> u64
    requires type_in { t ≤ (routine_of view.now).types }
    requires kind { t ≤ length marking.now }
    requires target_kind { (routine_of view.now).target t ≤ length marking.now }
    ensures { result ≡ entry_in (routine_of view.now) marking.now t }
{
    let target = view.type_row(t as usize).target;
    encode(fresh_value(kind_of(marking, t), kind_of(marking, target)))
}

// Writes the starting value of a home of type `t` over its `n` cells, from place `from` on.
pub fn fresh(view: &View, marking: &[u8], t: u16, memory: &mut [u64], from: usize, n: usize)
    requires type_in { t ≤ (routine_of view.now).types }
    requires kind { t ≤ length marking.now }
    requires target_kind { (routine_of view.now).target t ≤ length marking.now }
    requires room { from + n ≤ length memory.old }
    ensures { memory.new ≡ spread memory.old from n (entry_in (routine_of view.now) marking.now t) }
{
    let entry = home_entry(view, marking, t);
    memory[from..from + n].fill(entry);
}

// Writes the cells' own starting values over the lent cells.
pub fn clear(file: &AcceptedFile, memory: &mut [u64])
    requires { cell_count (routine_of file.now.formed.view) ≤ length memory.old }
    ensures { memory.new ≡ cleared (routine_of file.now.formed.view) file.now.marking.now memory.old }
{
    let view = &file.formed.view;
    let n = usize::from(view.counts().homes);
    let mut from = 0;
    // Of `1..=n` the proof did not close: see `runner`.
    for g in 1..n + 1 {
        let row = view.home_row(g);
        let size = usize::from(row.size);
        fresh(view, file.marking, row.ty, memory, from, size);
        from += size;
    }
}

// ---- start values

// What a start value is, by its home's kind.
fn given_value(k: Kind, value: u32) -> Value
    ensures { result ≡ given_value k value }
{
    match k {
        Kind::int | Kind::SAFE | Kind::SEQ => Value::Number(value),
        Kind::DYNAMIC => Value::Pair(0, value),
    }
}

// The entry of start row `i`.
#[tactic(auto, using(view::specs::Means::value_home, crate::proofs::Given::start_entry_is))]
fn start_entry(file: &AcceptedFile, i: usize) -> u64
    requires { i < (routine_of file.now.formed.view).values }
    ensures { result ≡ encode (given_in (routine_of file.now.formed.view) file.now.marking.now ((routine_of file.now.formed.view).value i)) }
{
    let row = file.formed.view.start_row(i);
    let home = file.formed.view.home_row(usize::from(row.home));
    encode(given_value(file.kind(home.ty), row.value))
}

// The place in memory of start row `i`'s cell.
#[tactic(auto, using(crate::proofs::Given::first_address))]
fn start_cell(file: &AcceptedFile, table: &[u64; WORDS], i: usize) -> usize
    requires homes { Homes (routine_of file.now.formed.view).homes table.now }
    requires row { i < (routine_of file.now.formed.view).values }
    ensures { result ≡ start_address (routine_of file.now.formed.view) ((routine_of file.now.formed.view).value i) - 1 }
{
    let row = file.formed.view.start_row(i);
    let start = start_of(table, u32::from(row.home));
    start as usize + usize::from(row.cell) - 1
}

// Writes the start values over the cells. `Homes` and the room tie what is lent to this file, so they stay clauses.
pub fn give(file: &AcceptedFile, table: &[u64; WORDS], memory: &mut [u64])
    requires homes { Homes (routine_of file.now.formed.view).homes table.now }
    requires room { cell_count (routine_of file.now.formed.view) ≤ length memory.old }
    ensures { memory.new ≡ given (routine_of file.now.formed.view) file.now.marking.now (routine_of file.now.formed.view).values memory.old }
{
    let n = usize::from(file.formed.view.counts().values);
    for i in 0..n {
        memory[start_cell(file, table, i)] = start_entry(file, i);
    }
}
