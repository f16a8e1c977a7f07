// The line that answers a request: what the call says, then every entry of what was lent.
ghost use Rattle.std.specs.Prelude.{Some};

use crate::requests::Request;
use rules::{Refusal, Starts};
use std::fmt::Display;
use std::io::Write;
use std::{fmt, io};

// The places of a file's five counts, as they are told.
#[derive(Clone, Copy)]
struct Places(Starts);

impl Display for Places {
    ghost use Rattle.probe.specs.Answers.{places_text};

    ghost output = { λ places. Some (places_text places.0) };

    fn fmt<W: fmt::Write>(&self, f: &mut fmt::Formatter<W>) -> fmt::Result {
        let s = &self.0;
        write!(
            f,
            "read {} {} {} {} {}",
            s.types, s.homes, s.exprs, s.commands, s.values
        )
    }
}

// What a call says: what it gives, or its refusal.
fn put_said<T: Display + Drop>(out: &mut impl Write, said: Result<T, Refusal>) -> io::Result<()> {
    match said {
        Ok(given) => write!(out, "{given}"),
        Err(refusal) => write!(out, "{refusal}"),
    }
}

// ` :` and every entry of what was lent.
fn put_lent<T: Display + Copy>(out: &mut impl Write, lent: &[T]) -> io::Result<()> {
    write!(out, " :")?;
    for entry in lent {
        write!(out, " {entry}")?;
    }
    Ok(())
}

impl Request<'_> {
    // Makes the call, and puts its line. It has no contract: what a program writes out no clause can say (docs/DECISIONS.md, Forms).
    pub fn answer(self, out: &mut impl Write) -> io::Result<()> {
        match self {
            Request::Read { file } => put_said(out, reader::read(file).map(Places))?,
            Request::Check { file, marking } => {
                put_said(out, checker::check(file, marking).map(|()| "accepted"))?;
            }
            Request::Infer { file, marking } => {
                put_said(out, infer::infer(file, marking).map(|()| "marked"))?;
                put_lent(out, marking)?;
            }
            Request::Run {
                file,
                marking,
                fuel,
                memory,
            } => {
                put_said(out, runner::run(file, marking, fuel, memory))?;
                put_lent(out, memory)?;
            }
        }
        writeln!(out)
    }
}
