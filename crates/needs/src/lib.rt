// What each row of a well-formed file asks of kinds, and the kind of a type under a marking.
#![tactic(auto)]

ghost use Rattle.std.specs.Prelude.{◌≡◌, ◌≤◌, ◌<◌, length};
ghost use Rattle.rules.specs.Kinds.{kind};
ghost use Rattle.needs.specs.Typed.{Typed, Typed_prop};

use rules::{Kind, Need, Starts};
use view::{Command, Expr, View};

// The kind of type `t` under a marking.
#[tactic(auto, using(laws::specs::Convert::kind_up))]
pub fn kind_of(marking: &[u8], t: u16) -> Kind
    requires { t ≤ length marking.now }
    ensures { result ≡ kind marking.now t }
{
    match t {
        0 => Kind::int,
        _ => Kind::from(marking[t as usize - 1]),
    }
}

// A well-formed file, with the types of its expression rows.
#[derive(Clone, Copy)]
pub struct WellFormed<'a> {
    pub view: View<'a>,
    pub types: &'a [u16; 1024],
    pub ghost typed: { Typed view.bytes.now view.at types.now } by { Typed_prop view.bytes.now view.at types.now },
}

impl<'a> WellFormed<'a> {
    ghost use Rattle.rules.specs.Shape.{type_of};
    ghost use Rattle.rules.specs.Kinds.{expr_need, command_need};
    ghost use Rattle.view.specs.Files.{routine_of};

    // The file of these bytes, whose sections start at `at`.
    pub fn new(bytes: &'a [u8], at: Starts, types: &'a [u16; 1024]) -> Self
        requires { Typed bytes.now at types.now }
        ensures view { (result.view.bytes ≡ bytes.entry) × (result.view.at ≡ at) }
        ensures types { result.types ≡ types.entry }
    {
        let view = View { bytes, at };
        WellFormed { view, types }
    }

    // The type of expression row `e`.
    pub fn type_of(&self, e: u16) -> u8
        requires { e < (routine_of self.now.view).exprs }
        ensures value { result ≡ type_of (routine_of self.now.view) e }
        ensures in_range { result ≤ (routine_of self.now.view).types }
    {
        self.types[e as usize] as u8
    }

    // What expression row `e` asks: a cast its conversion, a pointer sum that its pointer is not SAFE.
    pub fn expr_need(&self, e: usize) -> Need
        requires { e < (routine_of self.now.view).exprs }
        ensures { result ≡ expr_need (routine_of self.now.view) ((routine_of self.now.view).expr e) }
    {
        match self.view.expr(e) {
            Expr::Cast(a, t) => Need::Converting(self.type_of(a), t as u8),
            Expr::Sum(a, _) => Need::Moving(self.type_of(a)),
            Expr::Literal(_) | Expr::Home(_) | Expr::Null(_) | Expr::Read(_) | Expr::Op(..) =>
                Need::Nothing,
        }
    }

    // What command row `c` asks: a store the conversion of its value to the target of its pointer's type.
    #[tactic(auto, using(view::specs::Typed::target_type))]
    pub fn command_need(&self, c: usize) -> Need
        requires { c < (routine_of self.now.view).commands }
        ensures { result ≡ command_need (routine_of self.now.view) ((routine_of self.now.view).command c) }
    {
        match self.view.command(c) {
            Command::Store(a, b) => {
                let pointer = self.type_of(a);
                let reached = self.view.type_row(usize::from(pointer));
                Need::Converting(self.type_of(b), reached.target as u8)
            }
            Command::Skip | Command::Then(..) | Command::If(..) | Command::While(..) =>
                Need::Nothing,
        }
    }
}
