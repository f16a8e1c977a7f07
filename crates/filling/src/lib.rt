// The filling of the table: the word of each row of a file under a marking, and of each home.
#![tactic(auto)]

ghost use Rattle.std.specs.Prelude.{◌≡◌, ℕ, ◌≤◌, ◌<◌, get_or};
ghost use Rattle.rules.specs.Basic.{half};
ghost use Rattle.words.specs.Words.{home_op, null_op, cast_op, read_op, access_of, convert_of, keep_of};
ghost use Rattle.view.specs.Files.{routine_of};
ghost use Rattle.filling.specs.Filling.{home_field_in, Accepted, Accepted_prop, HomesDone, CommandsDone};

use needs::{WellFormed, kind_of};
use rules::{Kind, Starts};
use view::{Command, Expr, View};
use words::{COMMANDS, HOMES, WORDS, command_word, of_halves, ops, start_of, word};

// ---- operations by kinds: a table each, as the definitions have them. One for two of them would have to be told which, and is no plainer.
// `small` stands at each: a word has 8 bits for it, and the proof of a word needs that bound beside the value.
// A home's type, a null's and a pointer's are no int: no rule covers `int` there, which answers as the definitions do.

fn home_op(k: Kind) -> u64
    ensures value { result ≡ home_op k }
    ensures small { result < 256 }
{
    match k {
        Kind::SAFE => ops::NUMBER,
        Kind::int | Kind::SEQ | Kind::DYNAMIC => ops::PAIR,
    }
}

fn null_op(k: Kind) -> u64
    ensures value { result ≡ null_op k }
    ensures small { result < 256 }
{
    match k {
        Kind::int | Kind::SAFE => ops::NUMBER,
        Kind::SEQ | Kind::DYNAMIC => ops::PAIR,
    }
}

fn cast_op(k: Kind) -> u64
    ensures value { result ≡ cast_op k }
    ensures small { result < 256 }
{
    match k {
        Kind::int => ops::TO_INT,
        Kind::SAFE => ops::TO_SAFE,
        Kind::SEQ | Kind::DYNAMIC => ops::TO_PAIR,
    }
}

fn read_op(k: Kind, target: Kind) -> u64
    ensures value { result ≡ read_op k target }
    ensures small { result < 256 }
{
    match (k, target) {
        (Kind::int | Kind::SAFE, _) => ops::READ_SAFE,
        (Kind::SEQ, _) => ops::READ_SEQ,
        (Kind::DYNAMIC, Kind::int) => ops::READ_INT,
        (Kind::DYNAMIC, Kind::SAFE | Kind::SEQ | Kind::DYNAMIC) => ops::READ_DYNAMIC,
    }
}

fn access(k: Kind) -> u32
    ensures value { result ≡ access_of k }
    ensures small { result < 256 }
{
    match k {
        Kind::int | Kind::SAFE => ops::BY_SAFE,
        Kind::SEQ => ops::BY_SEQ,
        Kind::DYNAMIC => ops::BY_DYNAMIC,
    }
}

// Numbers of a store: a table of its own beside `cast_op`, whose numbers are operations.
fn convert(target: Kind) -> u32
    ensures value { result ≡ convert_of target }
    ensures small { result < 256 }
{
    match target {
        Kind::int => ops::KEEP_INT,
        Kind::SAFE => ops::KEEP_SAFE,
        Kind::SEQ | Kind::DYNAMIC => ops::KEEP_PAIR,
    }
}

fn keep(k: Kind, target: Kind) -> u32
    ensures value { result ≡ keep_of k target }
    ensures small { result < 256 }
{
    match (k, target) {
        (Kind::DYNAMIC, Kind::int) => ops::KEEP_INT_PAIR,
        _ => convert(target),
    }
}

// A SAFE home is its address.
fn home_field(table: &[u64; WORDS], k: Kind, g: u32) -> u32
    requires { g < 256 }
    ensures { result ≡ home_field_in table.now k g }
{
    match k {
        Kind::SAFE => start_of(table, g),
        Kind::int | Kind::SEQ | Kind::DYNAMIC => g,
    }
}

// ---- the file, its kinds and its words

// A well-formed file, and a marking of it that earns no refusal.
#[derive(Clone, Copy)]
pub struct AcceptedFile<'a> {
    pub formed: WellFormed<'a>,
    pub marking: &'a [u8],
    pub ghost accepted: { Accepted formed.view.bytes.now formed.view.at marking.now formed.types.now } by { Accepted_prop formed.view.bytes.now formed.view.at marking.now formed.types.now },
}

impl<'a> AcceptedFile<'a> {
    ghost use Rattle.rules.specs.Kinds.{kind};
    ghost use Rattle.rules.specs.Table.{home, read, store};
    ghost use Rattle.words.specs.Words.{Homes, ExprWord, CommandWord};

    // The file of these bytes, whose sections start at `at`, under a marking. What is asked is all that the fields keep.
    pub fn new(bytes: &'a [u8], at: Starts, types: &'a [u16; 1024], marking: &'a [u8]) -> Self
        requires { Accepted bytes.now at marking.now types.now }
        ensures view { (result.formed.view.bytes ≡ bytes.entry) × (result.formed.view.at ≡ at) }
        ensures types { result.formed.types ≡ types.entry }
        ensures marking { result.marking ≡ marking.entry }
    {
        let formed = WellFormed::new(bytes, at, types);
        AcceptedFile { formed, marking }
    }

    // The kind of type `t`.
    pub fn kind(&self, t: u16) -> Kind
        requires { t ≤ (routine_of self.now.formed.view).types }
        ensures { result ≡ kind self.now.marking.now t }
    {
        kind_of(self.marking, t)
    }

    // The kind of the target of type `t`.
    #[tactic(auto, using(view::specs::Typed::target_type))]
    fn target_kind(&self, t: u16) -> Kind
        requires { t ≤ (routine_of self.now.formed.view).types }
        ensures { result ≡ kind self.now.marking.now ((routine_of self.now.formed.view).target t) }
    {
        let row = self.formed.view.type_row(t as usize);
        self.kind(row.target)
    }

    // The word of a row that names home `g`. `Homes` ties the lent table to this file, so it stays a clause wherever both go.
    fn home_word(&self, table: &[u64; WORDS], g: u16) -> u64
        requires homes { Homes (routine_of self.now.formed.view).homes table.now }
        requires first { 1 ≤ g }
        requires last { g ≤ half self.now.formed.view.bytes.now self.now.formed.view.at.homes }
        ensures { ExprWord (routine_of self.now.formed.view) self.now.marking.now (home g) result }
    {
        let row = self.formed.view.home_row(g as usize);
        let k = self.kind(row.ty);
        word(home_op(k), 0, home_field(table, k, u32::from(g)))
    }

    // The word of a read through expression row `a`.
    fn read_word(&self, a: u16) -> u64
        requires { a < (routine_of self.now.formed.view).exprs }
        ensures { ExprWord (routine_of self.now.formed.view) self.now.marking.now (read a) result }
    {
        let pointer = u16::from(self.formed.type_of(a));
        let op = read_op(self.kind(pointer), self.target_kind(pointer));
        word(op, u32::from(a), 0)
    }

    // The word of expression row `e`, in a table that has the words of the homes.
    fn expr_word(&self, table: &[u64; WORDS], e: usize) -> u64
        requires homes { Homes (routine_of self.now.formed.view).homes table.now }
        requires row { e < (routine_of self.now.formed.view).exprs }
        ensures { ExprWord (routine_of self.now.formed.view) self.now.marking.now ((routine_of self.now.formed.view).expr e) result }
    {
        match self.formed.view.expr(e) {
            Expr::Literal(n) => word(ops::NUMBER, 0, n),
            Expr::Home(g) => self.home_word(table, g),
            Expr::Cast(a, t) => word(cast_op(self.kind(t)), u32::from(a), 0),
            Expr::Null(t) => word(null_op(self.kind(t)), 0, 0),
            Expr::Sum(a, b) => word(ops::SUM, u32::from(a), u32::from(b)),
            Expr::Read(a) => self.read_word(a),
            Expr::Op(k, a, b) => word(u64::from(k) + ops::OPERATORS, u32::from(a), u32::from(b)),
        }
    }

    // The word of a store through expression row `a` of the value of row `b`.
    fn store_word(&self, a: u16, b: u16) -> u64
        requires { a < (routine_of self.now.formed.view).exprs }
        ensures { CommandWord (routine_of self.now.formed.view) self.now.marking.now (store a b) result }
    {
        let pointer = u16::from(self.formed.type_of(a));
        let k = self.kind(pointer);
        let kept = keep(k, self.target_kind(pointer));
        command_word(ops::STORE, u32::from(a), u32::from(b), access(k), kept)
    }

    // The word of command row `c`.
    fn command_word(&self, c: usize) -> u64
        requires { c < (routine_of self.now.formed.view).commands }
        ensures { CommandWord (routine_of self.now.formed.view) self.now.marking.now ((routine_of self.now.formed.view).command c) result }
    {
        match self.formed.view.command(c) {
            Command::Skip => command_word(ops::SKIP, 0, 0, 0, 0),
            Command::Then(a, b) => command_word(ops::THEN, u32::from(a), u32::from(b), 0, 0),
            Command::Store(a, b) => self.store_word(a, b),
            Command::If(a, b, c) => command_word(
                ops::IF,
                u32::from(a),
                u32::from(b),
                u32::from(c),
                0,
            ),
            Command::While(a, b) => command_word(ops::WHILE, u32::from(a), u32::from(b), 0, 0),
        }
    }
}

// ---- the table

// The words of the homes, home 0 first.
fn fill_homes(view: &View, table: &mut [u64; WORDS])
    requires { (k : ℕ) → get_or table.old k 0 ≡ 0 }
    ensures { HomesDone (routine_of view.now) table.new }
{
    let n = usize::from(view.counts().homes);
    table[HOMES] = of_halves(0, 1);
    let mut from = 1;
    // Of `1..=n` the proof did not close: see `runner`.
    for g in 1..n + 1 {
        let size = u32::from(view.home_row(g).size);
        table[HOMES + g] = of_halves(from, size);
        from += size;
    }
}

// The whole table of a file under its marking: homes first, since an expression's word may hold the address of one.
pub fn fill(file: &AcceptedFile, table: &mut [u64; WORDS])
    requires { (k : ℕ) → get_or table.old k 0 ≡ 0 }
    ensures { CommandsDone (routine_of file.now.formed.view) file.now.marking.now (routine_of file.now.formed.view).commands table.new }
{
    // One function over a closure would be no plainer than these two loops: an expression's word reads the table that is written.
    let n = file.formed.view.counts();
    fill_homes(&file.formed.view, table);
    for e in 0..usize::from(n.exprs) {
        table[e] = file.expr_word(table, e);
    }
    for c in 0..usize::from(n.commands) {
        table[COMMANDS + c] = file.command_word(c);
    }
}
