// How kinds, refusals and outcomes read as text (RULES 8).
ghost use Rattle.std.specs.Prelude.{Some};
ghost use Rattle.rules.specs.Text.{kind_text, refusal_text, outcome_text, report_text};

use super::{Kind, Outcome, Refusal, Report};
use std::fmt;

impl fmt::Display for Kind {
    ghost output = { λ x. Some (kind_text x) };

    fn fmt<W: fmt::Write>(&self, f: &mut fmt::Formatter<W>) -> fmt::Result {
        f.write_str(match self {
            Kind::int => "int",
            Kind::SAFE => "SAFE",
            Kind::SEQ => "SEQ",
            Kind::DYNAMIC => "DYNAMIC",
        })
    }
}

impl fmt::Display for Refusal {
    ghost output = { λ x. Some (refusal_text x) };

    fn fmt<W: fmt::Write>(&self, f: &mut fmt::Formatter<W>) -> fmt::Result {
        write!(f, "refused {} {}", u32::from(self.fault), self.place)
    }
}

impl fmt::Display for Outcome {
    ghost output = { λ x. Some (outcome_text x) };

    fn fmt<W: fmt::Write>(&self, f: &mut fmt::Formatter<W>) -> fmt::Result {
        match self {
            Outcome::Done => write!(f, "done 0"),
            Outcome::Fuel(place) => write!(f, "fuel {place}"),
            Outcome::Check(check, place) => write!(f, "check-{} {place}", u32::from(*check)),
        }
    }
}

impl fmt::Display for Report {
    ghost output = { λ x. Some (report_text x) };

    fn fmt<W: fmt::Write>(&self, f: &mut fmt::Formatter<W>) -> fmt::Result {
        write!(f, "{} {}", self.outcome, self.units)
    }
}
