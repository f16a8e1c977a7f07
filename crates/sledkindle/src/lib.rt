// The calls that a host embeds: include/sledkindle.h describes them. Each has the contract of the call under it.
#![tactic(auto)]

ghost use Rattle.std.specs.Prelude.{◌≡◌};
ghost use Rattle.rules.specs.Calls.{formed, checking, running, outcome_says};
ghost use Rattle.sledkindle.specs.Exports.{plain, ending_number, ending_place, InferredAs, RanAs};

use rules::{Outcome, Refusal, Report};

// What was refused, and where; number 0 where nothing was: C has no Result, and reads numbers.
#[repr(C)]
#[derive(Clone, Copy)]
pub struct Answer {
    pub number: u32,
    pub place: u32,
}

// The same, with a run's outcome and units.
#[repr(C)]
#[derive(Clone, Copy)]
pub struct Ran {
    pub number: u32,
    pub place: u32,
    pub outcome: u32,
    pub units: u32,
}

impl<T: Copy> From<Result<T, Refusal>> for Answer {
    ghost use Rattle.std.specs.Prelude.{◌≡◌};
    ghost use Rattle.rules.specs.Calls.{says};
    ghost use Rattle.sledkindle.specs.Exports.{plain};

    ghost from_gives = { λ r answer. answer ≡ plain (says r) };

    fn from(answer: Result<T, Refusal>) -> Self {
        match answer {
            Ok(_) => Answer {
                number: 0,
                place: 0,
            },
            Err(refusal) => Answer {
                number: u32::from(refusal.fault),
                place: refusal.place,
            },
        }
    }
}

// An outcome's number and place.
fn ending(outcome: Outcome) -> (u32, u32)
    ensures number { result.0 ≡ ending_number (outcome_says outcome) }
    ensures place { result.1 ≡ ending_place (outcome_says outcome) }
{
    match outcome {
        Outcome::Done => (0, 0),
        Outcome::Fuel(place) => (5, place),
        Outcome::Check(check, place) => (u32::from(check), place),
    }
}

impl From<Result<Report, Refusal>> for Ran {
    ghost use Rattle.std.specs.Prelude.{◌≡◌};
    ghost use Rattle.rules.specs.Calls.{run_says};
    ghost use Rattle.sledkindle.specs.Exports.{plain_ran};

    ghost from_gives = { λ r ran. ran ≡ plain_ran (run_says r) };

    fn from(answer: Result<Report, Refusal>) -> Self {
        match answer {
            Ok(report) => {
                let (outcome, place) = ending(report.outcome);
                Ran {
                    number: 0,
                    place,
                    outcome,
                    units: report.units,
                }
            }
            Err(refusal) => Ran {
                number: u32::from(refusal.fault),
                place: refusal.place,
                outcome: 0,
                units: 0,
            },
        }
    }
}

#[unsafe(no_mangle)]
pub extern "C" fn sledkindle_read(file: &[u8]) -> Answer
    ensures { result ≡ plain (formed file.now) }
{
    Answer::from(reader::read(file))
}

#[unsafe(no_mangle)]
pub extern "C" fn sledkindle_check(file: &[u8], marking: &[u8]) -> Answer
    ensures { result ≡ plain (checking file.now marking.now) }
{
    Answer::from(checker::check(file, marking))
}

#[unsafe(no_mangle)]
pub extern "C" fn sledkindle_infer(file: &[u8], marking: &mut [u8]) -> Answer
    ensures { InferredAs file.now marking.old marking.new result }
{
    Answer::from(infer::infer(file, marking))
}

#[unsafe(no_mangle)]
pub extern "C" fn sledkindle_run(file: &[u8], marking: &[u8], fuel: u32, memory: &mut [u64]) -> Ran
    ensures { RanAs (running file.now marking.now fuel memory.old) memory.new result }
{
    Ran::from(runner::run(file, marking, fuel, memory))
}
