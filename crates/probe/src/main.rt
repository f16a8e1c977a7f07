// Answers a stream of requests on standard input, a line each. docs/PROBE.md has the protocol.
#![tactic(auto)]

mod answers;
mod input;
mod lines;
mod requests;

use input::{Failure, Input};
use lines::Lines;
use requests::Space;
use std::io;
use std::io::Write;

fn main(rt: HostRuntime) -> io::Result<()> {
    let mut space = Space::default();
    let mut input = Input::new(rt.reader());
    let mut out = Lines::new(io::writer(&rt));
    // At most so many requests, so that the program ends on any input.
    for _ in 0..1_000_000_000_000u64 {
        let offset = input.offset();
        match space.request(&mut input) {
            Ok(Some(request)) => request.answer(&mut out)?,
            Ok(None) => break,
            Err(Failure::Bad) => {
                writeln!(out, "bad request {offset}")?;
                break;
            }
            Err(Failure::Lost(error)) => {
                // The answers so far go out before the program ends.
                out.flush()?;
                return Err(error);
            }
        }
    }
    out.flush()
}
