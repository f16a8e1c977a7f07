// The types that code and definitions share: run-time values, kinds, what rows ask of them, sections, and what the calls answer.
#![tactic(auto)]

ghost use Rattle.std.specs.Prelude.{◌≡◌, ◌<◌, ◌^◌};
ghost use Rattle.rules.specs.Ruled.{check_number};
ghost use Rattle.rules.specs.Calls.{fault_number};
ghost use Rattle.rules.specs.Kinds.{kind_of};

mod text; // text.rt: how answers read as text (RULES 8)

// A run-time value: a plain number, or the pair of a home number and an offset.
#[derive(Clone, Copy, Debug, PartialEq, Eq)]
pub enum Value {
    Number(u32),
    Pair(u32, u32),
}

// A reference's kind, or `int` for the type that has none.
#[derive(Clone, Copy, Debug, PartialEq, Eq)]
pub enum Kind {
    int,
    SAFE,
    SEQ,
    DYNAMIC,
}

// A marking's byte (RULES 4.1).
impl From<u8> for Kind {
    ghost from_gives = { λ b k. k ≡ kind_of b };

    fn from(byte: u8) -> Self {
        match byte {
            0 => Kind::SAFE,
            1 => Kind::SEQ,
            _ => Kind::DYNAMIC,
        }
    }
}

// What a row asks of kinds: nothing; that this type is not SAFE; that the first type converts to the second.
#[derive(Clone, Copy, Debug, PartialEq, Eq)]
pub enum Need {
    Nothing,
    Moving(u8),
    Converting(u8, u8),
}

// A section of the file, with what its rows are judged by: the counts of types, then homes, and of expressions; the place of the homes' count.
#[derive(Clone, Copy, Debug, PartialEq, Eq)]
pub enum Section {
    Types,
    Homes(usize),
    Exprs(usize, usize),
    Commands(usize),
    Values(usize),
}

// The places of the five sections' counts. `values` is the file's end where it has no start values.
#[derive(Clone, Copy, Debug, PartialEq, Eq)]
pub struct Starts {
    pub types: u32,
    pub homes: u32,
    pub exprs: u32,
    pub commands: u32,
    pub values: u32,
}

// Why a call is refused, by the numbers of RULES 2.1.
#[derive(Clone, Copy, Debug, PartialEq, Eq)]
pub enum Fault {
    Short = 1,
    Count = 2,
    Row = 3,
    Spare = 4,
    Cells = 5,
    Shape = 6,
    Marking = 7,
    Kinds = 8,
    Lent = 9,
    Order = 10,
}

impl From<Fault> for u32 {
    ghost from_gives = { λ fault number. number ≡ fault_number fault };

    fn from(fault: Fault) -> Self {
        fault as u32
    }
}

// A refusal, and its place. Each call answers `Err` with one, or `Ok`.
#[derive(Clone, Copy, Debug, PartialEq, Eq)]
pub struct Refusal {
    pub fault: Fault,
    pub place: u32,
}

impl Refusal {
    pub fn new(fault: Fault, place: usize) -> Self
        requires { place < 2 ^ 32 }
        ensures { result ≡ record { fault = fault; place = place } }
    {
        Refusal {
            fault,
            place: place as u32,
        }
    }
}

// A check that a run makes, by the numbers of RULES 6.4: an access at address 0; an offset at or past the home's size;
// an access by a pair of home 0; a quotient or rest by zero.
#[derive(Clone, Copy, Debug, PartialEq, Eq)]
pub enum Check {
    Null = 1,
    Bounds = 2,
    NoHome = 3,
    ByZero = 4,
}

impl From<Check> for u32 {
    ghost from_gives = { λ check number. number ≡ check_number check };

    fn from(check: Check) -> Self {
        check as u32
    }
}

// How a run ends: done; no fuel for the row at a place; a check, and the place of the row that made it.
#[derive(Clone, Copy, Debug, PartialEq, Eq)]
pub enum Outcome {
    Done,
    Fuel(u32),
    Check(Check, u32),
}

// A run's outcome and the units that it spent.
#[derive(Clone, Copy, Debug, PartialEq, Eq)]
pub struct Report {
    pub outcome: Outcome,
    pub units: u32,
}
