// A well-formed file under a marking, and refusals 7 and 8.
ghost use Rattle.std.specs.Prelude.{◌≡◌, ◌≤◌, ◌<◌, length, get_or};
ghost use Rattle.rules.specs.declared.Kind.TheVariants.{int};
ghost use Rattle.rules.specs.Table.{routine};
ghost use Rattle.rules.specs.Kinds.{kinds};
ghost use Rattle.rules.specs.Basic.{fine};
ghost use Rattle.rules.specs.Calls.{says};
ghost use Rattle.view.specs.Files.{routine_of};
ghost use Rattle.checker.specs.Tables.{KindsOf, TypeTables, TypeTables_prop};

use super::kinds::{kinds_convert, spreads, targets_matter};
use needs::WellFormed;
use rules::{Fault, Kind, Need, Refusal, Starts};
use view::first::first_bad;
use view::{command_place, expr_place, type_place};

// A well-formed file under a marking of its types, each a kind. The tables have each type's target and its kind at its number.
// They stay two, since inference fills targets alone.
#[derive(Clone, Copy)]
pub struct MarkedFile<'a> {
    pub formed: WellFormed<'a>,
    pub marking: &'a [u8],
    pub targets: &'a [u8; 256],
    pub kinds: &'a [Kind; 256],
    pub ghost tables: { TypeTables (routine formed.view.bytes.now formed.view.at) marking.now targets.now kinds.now } by { TypeTables_prop (routine formed.view.bytes.now formed.view.at) marking.now targets.now kinds.now },
}

impl<'a> MarkedFile<'a> {
    ghost use Rattle.rules.specs.Kinds.{same, converts, need_met, type_kind, expr_kind, command_kind};
    ghost use Rattle.laws.specs.Needs.{NeedFits};
    ghost use Rattle.checker.specs.Judge.{breaking};

    // Whether types t and u are equal. Their targets are compared by this function again: targets fall.
    fn same(&self, t: u8, u: u8) -> bool
        requires first { t ≤ (routine_of self.now.formed.view).types }
        requires second { u ≤ (routine_of self.now.formed.view).types }
        ensures { result ≡ same (routine_of self.now.formed.view) self.now.marking.now t u }
    {
        if t == u {
            return true;
        }
        let k = self.kinds[t as usize];
        let l = self.kinds[u as usize];
        if k != l {
            return false;
        }
        match k {
            Kind::int | Kind::DYNAMIC => true,
            Kind::SAFE | Kind::SEQ => {
                self.same(self.targets[t as usize], self.targets[u as usize])
            }
        }
    }

    // Whether a value of the first type converts to the second.
    fn converts(&self, from: u8, to: u8) -> bool
        requires first { from ≤ (routine_of self.now.formed.view).types }
        requires second { to ≤ (routine_of self.now.formed.view).types }
        ensures { result ≡ converts (routine_of self.now.formed.view) self.now.marking.now from to }
    {
        let a = self.kinds[from as usize];
        let b = self.kinds[to as usize];
        if !kinds_convert(a, b) {
            return false;
        }
        if !targets_matter(a, b) {
            return true;
        }
        self.same(self.targets[from as usize], self.targets[to as usize])
    }

    // Whether the marking gives what a row asks.
    fn met(&self, need: Need) -> bool
        requires { NeedFits (routine_of self.now.formed.view).types need }
        ensures { result ≡ need_met (routine_of self.now.formed.view) self.now.marking.now need }
    {
        match need {
            Need::Nothing => true,
            Need::Moving(t) => matches!(self.kinds[t as usize], Kind::SEQ | Kind::DYNAMIC),
            Need::Converting(s, t) => self.converts(s, t),
        }
    }

    // Whether type t keeps the rule for type rows.
    fn type_ok(&self, t: usize) -> bool
        requires first { 1 ≤ t }
        requires last { t ≤ (routine_of self.now.formed.view).types }
        ensures { result ≡ type_kind (routine_of self.now.formed.view) self.now.marking.now t }
    {
        spreads(self.kinds[t], self.kinds[self.targets[t] as usize])
    }

    // Whether expression row e keeps its rule, and whether command row c does.
    fn expr_ok(&self, e: usize) -> bool
        requires { e < (routine_of self.now.formed.view).exprs }
        ensures { result ≡ expr_kind (routine_of self.now.formed.view) self.now.marking.now ((routine_of self.now.formed.view).expr e) }
    {
        self.met(self.formed.expr_need(e))
    }

    fn command_ok(&self, c: usize) -> bool
        requires { c < (routine_of self.now.formed.view).commands }
        ensures { result ≡ command_kind (routine_of self.now.formed.view) self.now.marking.now ((routine_of self.now.formed.view).command c) }
    {
        self.met(self.formed.command_need(c))
    }

    // Refusal 8, over types, expressions, commands. Each search names its own test and place: one function over two closures would be no plainer.
    fn judge(&self) -> Result<Starts, Refusal>
        ensures { says result ≡ breaking (routine_of self.now.formed.view) self.now.marking.now self.now.formed.view.at }
    {
        let at = self.formed.view.at;
        let n = self.formed.view.counts();
        if let Some(i) = first_bad(n.types as usize, |i| self.type_ok(i + 1)) {
            return Err(Refusal::new(Fault::Kinds, type_place(at, i + 1)));
        }
        if let Some(e) = first_bad(n.exprs as usize, |e| self.expr_ok(e)) {
            return Err(Refusal::new(Fault::Kinds, expr_place(at, e)));
        }
        if let Some(c) = first_bad(n.commands as usize, |c| self.command_ok(c)) {
            return Err(Refusal::new(Fault::Kinds, command_place(at, c)));
        }
        Ok(at)
    }
}

// The kinds of a marking's types, each at its type's number; int has number 0. The table is lent: as a result it would be copied, by a function of C.
fn fill_kinds(marking: &[u8], kinds: &mut [Kind; 256])
    requires few { length marking.now ≤ 255 }
    requires none { get_or kinds.old 0 int ≡ int }
    ensures { KindsOf marking.now (length marking.now) kinds.new }
{
    for (i, &byte) in marking.iter().enumerate() {
        kinds[i + 1] = Kind::from(byte);
    }
}

// Refusals 7 and 8 of a well-formed file.
pub fn judge(formed: &WellFormed, marking: &[u8]) -> Result<Starts, Refusal>
    ensures { says result ≡ kinds (routine_of formed.now.view) marking.now (λ _. fine formed.now.view.at) }
{
    let n = formed.view.counts().types as usize;
    if marking.len() != n {
        return Err(Refusal::new(Fault::Marking, marking.len().min(n)));
    }
    // As refusal 7 says it: the rules give a byte above 2 a kind too, so `Kind::from` refuses none.
    if let Some(i) = first_bad(n, |i| marking[i] <= 2) {
        return Err(Refusal::new(Fault::Marking, i));
    }
    let mut targets = [0u8; 256];
    targets::fill(&formed.view, &mut targets);
    let mut kinds = [Kind::int; 256];
    fill_kinds(marking, &mut kinds);
    let marked = MarkedFile {
        formed: *formed,
        marking,
        targets: &targets,
        kinds: &kinds,
    };
    marked.judge()
}
