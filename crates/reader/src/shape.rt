// The types of expression rows, refusal 10, and refusal 6 by the types.
ghost use Rattle.std.specs.Prelude.{◌≡◌, ◌<◌};
ghost use Rattle.rules.specs.Reading.{rises};
ghost use Rattle.rules.specs.Shape.{type_of, expr_shaped, command_shaped, value_shaped};
ghost use Rattle.rules.specs.Calls.{says};
ghost use Rattle.rules.specs.Table.{routine};
ghost use Rattle.view.specs.Files.{routine_of};
ghost use Rattle.reader.specs.Tables.{TypedTo, TypedTo_prop, TypeTable, formed_behind};

use rules::{Fault, Refusal, Starts};
use view::first::first_bad;
use view::{Command, Expr, View, command_place, expr_place, start_place};

// The type of expression row `e`, where `types` has those of earlier rows.
fn row_type(view: &View, types: &[u16; 1024], e: usize) -> u16
    requires typed { TypedTo view.now.bytes.now view.now.at e types.now }
    requires row { e < (routine_of view.now).exprs }
    ensures { result ≡ type_of (routine_of view.now) e }
{
    match view.expr(e) {
        Expr::Literal(_) | Expr::Op(..) => 0,
        Expr::Home(g) => view.home_row(g as usize).ty,
        Expr::Cast(_, t) => t,
        Expr::Null(t) => t,
        Expr::Sum(a, _) => types[a as usize],
        Expr::Read(a) => view.type_row(types[a as usize] as usize).target,
    }
}

// The types of all expression rows, in one pass.
pub fn type_table(view: &View, types: &mut [u16; 1024])
    ensures { TypeTable (routine_of view.now) types.old types.new }
{
    for e in 0..view.counts().exprs as usize {
        types[e] = row_type(view, types, e);
    }
}

// Whether start row `i` comes after the row before it.
fn row_rises(view: &View, i: usize) -> bool
    requires { i < (routine_of view.now).values }
    ensures { result ≡ rises (routine_of view.now) i }
{
    if i == 0 {
        return true;
    }
    let x = view.start_row(i - 1);
    let y = view.start_row(i);
    (x.home, x.cell) < (y.home, y.cell)
}

// Whether start row `i` stands in a cell of int type.
fn value_shaped(view: &View, i: usize) -> bool
    requires { i < (routine_of view.now).values }
    ensures { result ≡ value_shaped (routine_of view.now) ((routine_of view.now).value i) }
{
    let home = view.home_row(view.start_row(i).home as usize);
    view.type_row(home.ty as usize).target == 0
}

// A file that was read, with the types of its expression rows: `needs::WellFormed` before 10 and 6 are judged, so that neither can stand for the other.
#[derive(Clone, Copy)]
pub struct TypedRows<'a> {
    pub view: View<'a>,
    pub types: &'a [u16; 1024],
    pub ghost typed: { TypedTo view.bytes.now view.at (routine view.bytes.now view.at).exprs types.now } by { TypedTo_prop view.bytes.now view.at (routine view.bytes.now view.at).exprs types.now },
}

impl<'a> TypedRows<'a> {
    // Whether the operands of expression row `e` are int or references as it needs.
    fn expr_shaped(&self, e: usize) -> bool
        requires { e < (routine_of self.now.view).exprs }
        ensures { result ≡ expr_shaped (routine_of self.now.view) ((routine_of self.now.view).expr e) }
    {
        match self.view.expr(e) {
            Expr::Literal(_) | Expr::Home(_) | Expr::Cast(..) | Expr::Null(_) => true,
            Expr::Sum(a, b) => 0 < self.types[a as usize] && self.types[b as usize] == 0,
            Expr::Read(a) => 0 < self.types[a as usize],
            Expr::Op(_, a, b) => self.types[a as usize] == 0 && self.types[b as usize] == 0,
        }
    }

    // The same of command row `c`.
    fn command_shaped(&self, c: usize) -> bool
        requires { c < (routine_of self.now.view).commands }
        ensures { result ≡ command_shaped (routine_of self.now.view) ((routine_of self.now.view).command c) }
    {
        match self.view.command(c) {
            Command::Skip | Command::Then(..) => true,
            Command::Store(a, _) => 0 < self.types[a as usize],
            Command::If(a, ..) | Command::While(a, _) => self.types[a as usize] == 0,
        }
    }

    // Whether start rows rise; then the shape of expressions, then commands, then start values. Each search names its own test and place: one function over two
    // closures would be no plainer.
    pub fn judge(&self) -> Result<Starts, Refusal>
        ensures { says result ≡ formed_behind self.now.view.bytes.now self.now.view.at }
    {
        let view = &self.view;
        let at = view.at;
        let n = view.counts();
        if let Some(i) = first_bad(n.values as usize, |i| row_rises(view, i)) {
            return Err(Refusal::new(Fault::Order, start_place(at, i)));
        }
        if let Some(e) = first_bad(n.exprs as usize, |e| self.expr_shaped(e)) {
            return Err(Refusal::new(Fault::Shape, expr_place(at, e)));
        }
        if let Some(c) = first_bad(n.commands as usize, |c| self.command_shaped(c)) {
            return Err(Refusal::new(Fault::Shape, command_place(at, c)));
        }
        if let Some(v) = first_bad(n.values as usize, |v| value_shaped(view, v)) {
            return Err(Refusal::new(Fault::Shape, start_place(at, v)));
        }
        Ok(at)
    }
}
