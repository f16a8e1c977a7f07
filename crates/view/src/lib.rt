// The view of a file that was read: its bytes and its five section starts, with a question for the counts and one for the rows of each section.
#![tactic(auto)]

ghost use Rattle.std.specs.Prelude.{◌≡◌, ◌+◌, ◌≤◌, ◌<◌, length};
ghost use Rattle.rules.specs.Basic.{half, word};
ghost use Rattle.laws.specs.WellRead.{WellRead};
ghost use Rattle.laws.specs.Props.{WellRead_prop};
ghost use Rattle.rules.specs.Table.{type_place, home_place, expr_place, command_place, value_place};

use rules::Starts;

pub mod first; // first.rt: the first row that fails a test

// A type row: the type that a reference of this type points to.
#[derive(Clone, Copy, Debug, PartialEq, Eq)]
pub struct TypeRow {
    pub target: u16,
}

// A home row: the home's type and its number of cells.
#[derive(Clone, Copy, Debug, PartialEq, Eq)]
pub struct HomeRow {
    pub ty: u16,
    pub size: u16,
}

// An expression row's bytes.
#[derive(Clone, Copy, Debug, PartialEq, Eq)]
pub struct ExprRow {
    pub tag: u8,
    pub a: u16,
    pub b: u16,
}

// A command row's bytes.
#[derive(Clone, Copy, Debug, PartialEq, Eq)]
pub struct CommandRow {
    pub tag: u8,
    pub a: u16,
    pub b: u16,
    pub c: u16,
}

// An expression row by its form. An operator is told by its number among the nine, from 0: an enum would be made here and made a number again in the word.
#[derive(Clone, Copy, Debug, PartialEq, Eq)]
pub enum Expr {
    Literal(u32),
    Home(u16),
    Cast(u16, u16),
    Null(u16),
    Sum(u16, u16),
    Read(u16),
    Op(u8, u16, u16),
}

// A command row by its form.
#[derive(Clone, Copy, Debug, PartialEq, Eq)]
pub enum Command {
    Skip,
    Then(u16, u16),
    Store(u16, u16),
    If(u16, u16, u16),
    While(u16, u16),
}

// A start row: a cell of a home, and the number that it starts as.
#[derive(Clone, Copy, Debug, PartialEq, Eq)]
pub struct StartRow {
    pub home: u16,
    pub cell: u16,
    pub value: u32,
}

// How many rows each section has.
#[derive(Clone, Copy, Debug, PartialEq, Eq)]
pub struct Counts {
    pub types: u16,
    pub homes: u16,
    pub exprs: u16,
    pub commands: u16,
    pub values: u16,
}

// A number that is to be an index becomes one by `as`: `usize::from` would put a call between a field and its index, and name it in proofs.
// So in every crate; and where a number is narrowed by `as`, the proof shows that it fits.

// ---- the places of rows. Each is its definition: a helper over the bytes of a row would be no plainer

// Of type row `t`, from 1; for 0, that of the count.
pub fn type_place(at: Starts, t: usize) -> usize
    requires { t < 4294967296 }
    ensures { result ≡ type_place at t }
{
    at.types as usize + 2 * t
}

// Of home row `g`, from 1.
pub fn home_place(at: Starts, g: usize) -> usize
    requires { (1 ≤ g) × (g < 4294967296) }
    ensures { result ≡ home_place at g }
{
    at.homes as usize + 2 + 4 * (g - 1)
}

// Of expression row `e`.
pub fn expr_place(at: Starts, e: usize) -> usize
    requires { e < 4294967296 }
    ensures { result ≡ expr_place at e }
{
    at.exprs as usize + 2 + 5 * e
}

// Of command row `c`.
pub fn command_place(at: Starts, c: usize) -> usize
    requires { c < 4294967296 }
    ensures { result ≡ command_place at c }
{
    at.commands as usize + 2 + 7 * c
}

// Of start row `i`.
pub fn start_place(at: Starts, i: usize) -> usize
    requires { i < 4294967296 }
    ensures { result ≡ value_place at i }
{
    at.values as usize + 2 + 8 * i
}

// ---- numbers in the bytes

// The 16-bit number at place `i`.
pub fn half_at(s: &[u8], i: usize) -> u16
    requires { i + 2 ≤ length s.now }
    ensures { result ≡ half s.now i }
{
    u16::from_le_bytes([s[i], s[i + 1]])
}

// The 32-bit number at place `i`.
fn word_at(s: &[u8], i: usize) -> u32
    requires { i + 4 ≤ length s.now }
    ensures { result ≡ word s.now i }
{
    u32::from_le_bytes([s[i], s[i + 1], s[i + 2], s[i + 3]])
}

// ---- rows at their places, whether they are in range or not

impl TypeRow {
    ghost use Rattle.view.specs.Rows.{type_row_at};

    pub fn at(bytes: &[u8], place: usize) -> Self
        requires { place + 2 ≤ length bytes.now }
        ensures { result ≡ type_row_at bytes.now place }
    {
        TypeRow {
            target: half_at(bytes, place),
        }
    }
}

impl HomeRow {
    ghost use Rattle.view.specs.Rows.{home_row_at};

    pub fn at(bytes: &[u8], place: usize) -> Self
        requires { place + 4 ≤ length bytes.now }
        ensures { result ≡ home_row_at bytes.now place }
    {
        HomeRow {
            ty: half_at(bytes, place),
            size: half_at(bytes, place + 2),
        }
    }
}

impl ExprRow {
    ghost use Rattle.view.specs.Rows.{expr_row_at};

    pub fn at(bytes: &[u8], place: usize) -> Self
        requires { place + 5 ≤ length bytes.now }
        ensures { result ≡ expr_row_at bytes.now place }
    {
        ExprRow {
            tag: bytes[place],
            a: half_at(bytes, place + 1),
            b: half_at(bytes, place + 3),
        }
    }
}

impl CommandRow {
    ghost use Rattle.view.specs.Rows.{command_row_at};

    pub fn at(bytes: &[u8], place: usize) -> Self
        requires { place + 7 ≤ length bytes.now }
        ensures { result ≡ command_row_at bytes.now place }
    {
        CommandRow {
            tag: bytes[place],
            a: half_at(bytes, place + 1),
            b: half_at(bytes, place + 3),
            c: half_at(bytes, place + 5),
        }
    }
}

impl StartRow {
    ghost use Rattle.view.specs.Rows.{start_row_at};

    pub fn at(bytes: &[u8], place: usize) -> Self
        requires { place + 8 ≤ length bytes.now }
        ensures { result ≡ start_row_at bytes.now place }
    {
        StartRow {
            home: half_at(bytes, place),
            cell: half_at(bytes, place + 2),
            value: word_at(bytes, place + 4),
        }
    }
}

// ---- the view

// A file's bytes beside places for its section starts. Nothing is said of them yet: of a file that was read they are its view.
#[derive(Clone, Copy)]
pub struct Sections<'a> {
    pub bytes: &'a [u8],
    pub at: Starts,
}

// The two as they are given.
pub fn view_of<'a>(bytes: &'a [u8], at: Starts) -> Sections<'a>
    ensures { (result.bytes ≡ bytes.entry) × (result.at ≡ at) }
{
    Sections { bytes, at }
}

impl<'a> Sections<'a> {
    // The view of a file that was read.
    pub fn known(self) -> View<'a>
        requires { WellRead self.bytes.now self.at }
        ensures { (result.bytes ≡ self.entry.bytes) × (result.at ≡ self.entry.at) }
    {
        View {
            bytes: self.bytes,
            at: self.at,
        }
    }
}

// The bytes of a file that was read, and its five section starts.
#[derive(Clone, Copy)]
pub struct View<'a> {
    pub bytes: &'a [u8],
    pub at: Starts,
    pub ghost read: { WellRead bytes.now at } by { WellRead_prop bytes.now at },
}

impl<'a> View<'a> {
    ghost use Rattle.view.specs.Rows.{type_row, home_row, expr_row, command_row, start_row, counts_of};
    ghost use Rattle.view.specs.Files.{routine_of};
    ghost use Rattle.view.specs.Forms.{expr_says, command_says, ExprNames, CommandNames};

    // How many start rows there are: none where the file stops after the commands.
    fn start_count(&self) -> u16
        ensures { result ≡ half self.now.bytes.now self.now.at.values }
    {
        let q = self.at.values as usize;
        if q == self.bytes.len() {
            return 0;
        }
        half_at(self.bytes, q)
    }

    // How many rows each section has.
    pub fn counts(&self) -> Counts
        ensures { result ≡ counts_of self.now.bytes.now self.now.at }
    {
        Counts {
            types: half_at(self.bytes, self.at.types as usize),
            homes: half_at(self.bytes, self.at.homes as usize),
            exprs: half_at(self.bytes, self.at.exprs as usize),
            commands: half_at(self.bytes, self.at.commands as usize),
            values: self.start_count(),
        }
    }

    // Type row `t`, from 1; row 0 stands for the count.
    pub fn type_row(&self, t: usize) -> TypeRow
        requires { t ≤ half self.now.bytes.now self.now.at.types }
        ensures { result ≡ type_row self.now.bytes.now self.now.at t }
    {
        TypeRow::at(self.bytes, type_place(self.at, t))
    }

    // Home row `g`, from 1.
    pub fn home_row(&self, g: usize) -> HomeRow
        requires first { 1 ≤ g }
        requires row { g ≤ half self.now.bytes.now self.now.at.homes }
        ensures { result ≡ home_row self.now.bytes.now self.now.at g }
    {
        HomeRow::at(self.bytes, home_place(self.at, g))
    }

    // The tag and the fields of expression row `e`.
    fn expr_row(&self, e: usize) -> ExprRow
        requires { e < half self.now.bytes.now self.now.at.exprs }
        ensures { result ≡ expr_row self.now.bytes.now self.now.at e }
    {
        ExprRow::at(self.bytes, expr_place(self.at, e))
    }

    // Expression row `e`. A row of a file that was read has a tag of some form, so the last arm has the operators' tags alone.
    // A row's number stays a clause of each question: a type for it would have to name the file.
    #[inline]
    pub fn expr(&self, e: usize) -> Expr
        requires { e < (routine_of self.now).exprs }
        ensures says { expr_says result ≡ (routine_of self.now).expr e }
        ensures names { ExprNames (routine_of self.now).types (half self.now.bytes.now self.now.at.homes) e result }
    {
        let row = self.expr_row(e);
        match row.tag {
            0 => Expr::Literal(u32::from(row.a) + 65536 * u32::from(row.b)),
            1 => Expr::Home(row.a),
            3 => Expr::Cast(row.a, row.b),
            4 => Expr::Null(row.a),
            5 => Expr::Sum(row.a, row.b),
            6 => Expr::Read(row.a),
            tag => Expr::Op(tag - 16, row.a, row.b),
        }
    }

    // The tag and the fields of command row `c`.
    fn command_row(&self, c: usize) -> CommandRow
        requires { c < half self.now.bytes.now self.now.at.commands }
        ensures { result ≡ command_row self.now.bytes.now self.now.at c }
    {
        CommandRow::at(self.bytes, command_place(self.at, c))
    }

    // Command row `c`. The last arm has the tag of a while alone.
    #[inline]
    pub fn command(&self, c: usize) -> Command
        requires { c < (routine_of self.now).commands }
        ensures says { command_says result ≡ (routine_of self.now).command c }
        ensures names { CommandNames (routine_of self.now).exprs c result }
    {
        let row = self.command_row(c);
        match row.tag {
            0 => Command::Skip,
            1 => Command::Then(row.a, row.b),
            2 => Command::Store(row.a, row.b),
            3 => Command::If(row.a, row.b, row.c),
            _ => Command::While(row.a, row.b),
        }
    }

    // Start row `i`.
    #[tactic(auto, using(laws::specs::Known::values_fit))]
    pub fn start_row(&self, i: usize) -> StartRow
        requires { i < half self.now.bytes.now self.now.at.values }
        ensures { result ≡ start_row self.now.bytes.now self.now.at i }
    {
        StartRow::at(self.bytes, start_place(self.at, i))
    }
}
