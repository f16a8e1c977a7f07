// Reads one routine file on standard input and runs it under its inferred marking with fuel 1,000,000.
// It prints a line for each type, number and kind, then outcome, place and units; or only a refusal, number and place.
#![tactic(auto)]

ghost use Rattle.std.specs.Prelude.{◌≤◌};

use rules::{Kind, Refusal, Report};
use std::io;
use std::io::Print;
use streams::read_full;

// A well-formed file begins with its number of types, at most 255.
fn types_of(file: &[u8]) -> usize
    ensures { result ≤ 255 }
{
    file.first().map_or(0, |&count| usize::from(count))
}

// What a run of the file reports under its least marking, which is written into the lent one.
fn mark_and_run(file: &[u8], marking: &mut [u8; 255]) -> Result<Report, Refusal> {
    infer::infer(file, marking)?;
    let mut memory = [0u64; 4096];
    runner::run(file, &marking[..types_of(file)], 1_000_000, &mut memory)
}

// A line for each type.
fn print_kinds(rt: &impl Print, marking: &[u8]) -> io::Result<()> {
    for (i, &byte) in marking.iter().enumerate() {
        println!(rt; "{} {}", i + 1, Kind::from(byte))?;
    }
    Ok(())
}

fn answer(rt: &impl Print, file: &[u8]) -> io::Result<()> {
    let mut marking = [0u8; 255];
    match mark_and_run(file, &mut marking) {
        Ok(report) => {
            print_kinds(rt, &marking[..types_of(file)])?;
            println!(rt; "{report}")
        }
        Err(refusal) => println!(rt; "{refusal}"),
    }
}

fn main(rt: HostRuntime) -> io::Result<()> {
    // The first 15,113 bytes decide every answer: `FirstBytesDecide` of the laws.
    let mut file = [0u8; 15113];
    let got = read_full(&mut rt.reader(), &mut file)?;
    answer(&rt, &file[..got])
}
