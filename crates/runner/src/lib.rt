// The run of a file under a marking: refusals, the table, the starting memory, the body, and the report.
#![tactic(auto)]

ghost use Rattle.std.specs.Prelude.{◌≡◌, ◌≤◌, ◌<◌, length, Ok};
ghost use Rattle.rules.specs.Run.{run};
ghost use Rattle.rules.specs.Calls.{cell_count, run_says, reported, running, Left, Ended};
ghost use Rattle.view.specs.Files.{routine_of};
ghost use Rattle.runner.specs.Whole.{place_at, report_of, Reportable};

use evaluate::{Cause, Stop};
use filling::AcceptedFile;
use rules::{Fault, Outcome, Refusal, Report, Starts};
use view::View;
use words::WORDS;

// The cells of a file's homes. Here as in all loops from 1, `1..=n` leaves a second way out, whose proof did not close.
fn count(view: &View) -> usize
    ensures { result ≡ cell_count (routine_of view.now) }
{
    let n = view.counts().homes as usize;
    let mut cells = 0;
    for g in 1..n + 1 {
        cells += view.home_row(g).size as usize;
    }
    cells
}

// ---- the report

// A row's place: its number in the table tells its section.
fn place(at: Starts, row: u32) -> u32
    requires { place_at at row < 4294967296 }
    ensures { result ≡ place_at at row }
{
    if row < 1024 {
        return view::expr_place(at, row as usize) as u32;
    }
    view::command_place(at, row as usize - 1024) as u32
}

fn report(at: Starts, ran: Result<u32, Stop>, fuel: u32) -> Report
    requires { Reportable at ran fuel }
    ensures { result ≡ report_of at ran fuel }
{
    match ran {
        Ok(left) => Report {
            outcome: Outcome::Done,
            units: fuel - left,
        },
        Err(stop) => match stop.cause {
            Cause::Fuel => Report {
                outcome: Outcome::Fuel(place(at, stop.row)),
                units: fuel,
            },
            Cause::Check(check, left) => Report {
                outcome: Outcome::Check(check, place(at, stop.row)),
                units: fuel - left,
            },
        },
    }
}

// ---- the run

// A run of a file and a marking that earn no refusal, in memory that has room for its cells, which ties the memory to the file and so stays a clause.
pub fn run_checked(file: &AcceptedFile, fuel: u32, memory: &mut [u64]) -> Report
    requires { cell_count (routine_of file.now.formed.view) ≤ length memory.old }
    ensures { ◌≡◌ {A = Left Ended} (record { answer = run_says (Ok result); lent = memory.new }) (reported (run (routine_of file.now.formed.view) file.now.marking.now memory.old fuel)) }
{
    let view = &file.formed.view;
    let mut table = [0u64; WORDS];
    filling::fill(file, &mut table);
    starting::clear(file, memory);
    starting::give(file, &table, memory);
    let body = view.counts().commands as u32 - 1;
    let ran = execute::exec(&table, memory, body, fuel);
    report(view.at, ran, fuel)
}

// The same in memory of any length: refusal 9.
#[tactic(auto, using(crate::proofs::Calls::run_short), unfolding(rules::specs::Calls::running, rules::specs::Calls::runnable))]
fn run_accepted(file: &AcceptedFile, fuel: u32, memory: &mut [u64]) -> Result<Report, Refusal>
    ensures { ◌≡◌ {A = Left Ended} (record { answer = run_says result; lent = memory.new }) (running file.now.formed.view.bytes.now file.now.marking.now fuel memory.old) }
{
    let needed = count(&file.formed.view);
    if memory.len() < needed {
        return Err(Refusal::new(Fault::Lent, needed));
    }
    Ok(run_checked(file, fuel, memory))
}

// A file is run under a marking, with this fuel, in lent memory. A refused call writes nothing.
pub fn run(file: &[u8], marking: &[u8], fuel: u32, memory: &mut [u64]) -> Result<Report, Refusal>
    ensures { ◌≡◌ {A = Left Ended} (record { answer = run_says result; lent = memory.new }) (running file.now marking.now fuel memory.old) }
{
    let mut types = [0u16; 1024];
    let at = checker::check_typed(file, marking, &mut types)?;
    let accepted = AcceptedFile::new(file, at, &types, marking);
    run_accepted(&accepted, fuel, memory)
}
