// What a file's rows ask of kinds: conversions listed, seeds marked.
#![tactic(auto)]

ghost use Rattle.std.specs.Prelude.{◌≡◌, ℕ, ◌<◌, length, replicate};
ghost use Rattle.arrayvec.specs.ArrayVec.{array_vec_len};
ghost use Rattle.laws.specs.Needs.{NeedFits};
ghost use Rattle.view.specs.Files.{routine_of};
ghost use Rattle.gather.specs.Notes.{Noted};
ghost use Rattle.gather.specs.Gathering.{Noting};

use arrayvec::ArrayVec;
use needs::WellFormed;
use raise::{Conversion, SEQ, at_least};
use rules::Need;

// All SAFE.
pub fn clear(m: &mut [u8])
    ensures { m.new ≡ replicate (length m.old) 0 }
{
    m.fill(0);
}

// Notes what a row asks: a conversion between references in the list, and a type that may not stay SAFE in the marking.
fn note(list: &mut ArrayVec<Conversion, 2048>, m: &mut [u8], need: Need)
    requires room { array_vec_len list.old < 2048 }
    requires fits { NeedFits (length m.old) need }
    ensures { Noted list.old.items m.old need list.new.items m.new }
{
    match need {
        Need::Nothing => {}
        Need::Moving(t) => at_least(m, t, SEQ),
        Need::Converting(_, 0) => {}
        Need::Converting(0, t) => at_least(m, t, SEQ),
        Need::Converting(from, to) => list.push(Conversion { from, to }),
    }
}

// Notes what every row asks, beside a marking that is all SAFE. One function over a closure would be no plainer than two loops of one line.
pub fn rows(file: &WellFormed, list: &mut ArrayVec<Conversion, 2048>, m: &mut [u8])
    requires { Noting (routine_of file.now.view) 0 0 list.old.items m.old }
    ensures { Noting (routine_of file.now.view) (routine_of file.now.view).exprs (routine_of file.now.view).commands list.new.items m.new }
{
    let counts = file.view.counts();
    for e in 0..usize::from(counts.exprs) {
        note(list, m, file.expr_need(e));
    }
    for c in 0..usize::from(counts.commands) {
        note(list, m, file.command_need(c));
    }
}
