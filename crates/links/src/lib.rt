// Types that conversions make equal, linked level by level.
#![tactic(auto)]

ghost use Rattle.std.specs.Prelude.{◌≡◌, ℕ, ◌≤◌, ◌<◌, length};
ghost use Rattle.std.specs.List.{All};
ghost use Rattle.raise.specs.Marks.{at};
ghost use Rattle.raise.specs.Demands.{Falls, Ref, Between, Tables};
ghost use Rattle.links.specs.Links.{Stepped, Linked, Joined};

use raise::{Conversion, DYNAMIC, at_least};

// The targets of s and t, to be linked next; where only one is int, s and t are DYNAMIC. Two of int, type 0, are equal: nothing is left to link.
fn step(targets: &[u8], m: &mut [u8], s: u8, t: u8) -> (u8, u8)
    requires first { Ref (length m.old) s }
    requires second { Ref (length m.old) t }
    requires size { length m.old < length targets.now }
    requires falls { Falls targets.now }
    ensures { Stepped (length m.old) targets.now m.old s t m.new result.0 result.1 }
{
    match (targets[usize::from(s)], targets[usize::from(t)]) {
        (0, 0) => (0, 0),
        (0, _) | (_, 0) => {
            at_least(m, s, DYNAMIC);
            at_least(m, t, DYNAMIC);
            (0, 0)
        }
        next => next,
    }
}

// The lent tables stay parameters, and the types' numbers clauses: as fields of a struct, each step would have to promise that they are still those that were lent.

// Links two types, and their targets level by level: each turn links the higher of the two to the lower, or goes on with what it is linked to already.
fn link(targets: &[u8], p: &mut [u8], m: &mut [u8], from: u8, to: u8)
    requires first { from ≤ length m.old }
    requires second { to ≤ length m.old }
    requires references { (from ≡ to → ⊥) → (1 ≤ from) × (1 ≤ to) }
    requires tables { Tables (length m.old) targets.now p.old }
    ensures { Linked (length m.old) targets.now p.old m.old from to p.new m.new 0 0 }
{
    let (mut a, mut b) = (from, to);
    while a != b {
        let (high, low) = (a.max(b), a.min(b));
        let i = usize::from(high);
        if p[i] == 0 {
            p[i] = low;
            (a, b) = step(targets, m, high, low);
        } else {
            (a, b) = (p[i], low);
        }
    }
}

// Links the targets of each conversion's two types.
pub fn join(targets: &[u8], conversions: &[Conversion], p: &mut [u8], m: &mut [u8])
    requires tables { Tables (length m.old) targets.now p.old }
    requires listed { All (Between (length m.old)) conversions.now }
    requires none { (x : ℕ) → at p.old x ≡ 0 }
    ensures joined { Joined targets.now conversions.now m.old p.new m.new }
    ensures links { length p.new ≡ length p.old }
{
    for c in conversions {
        let (a, b) = step(targets, m, c.from, c.to);
        link(targets, p, m, a, b);
    }
}
