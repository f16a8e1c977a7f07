// Kinds raised along links, targets and conversions, until they rest.
#![tactic(auto)]

ghost use Rattle.std.specs.Prelude.{◌≡◌, ℕ, ◌≤◌, ◌<◌, length, false};
ghost use Rattle.std.specs.List.{All};
ghost use Rattle.raise.specs.Marks.{Raised};
ghost use Rattle.raise.specs.Demands.{Ref, Between, Edge, Upward, Level, Row, Outer, Rows, Outers, Whole, Tables};
ghost use Rattle.raise.specs.Moves.{Meets, Rests};

// The kinds above SAFE as bytes of a marking. Hosts in C lend it, so that the C interface needs numbers here and no enum.
pub const SEQ: u8 = 1;

pub const DYNAMIC: u8 = 2;

// A conversion of a reference type to another, by their numbers.
#[derive(Clone, Copy, Debug, Default, PartialEq, Eq)]
pub struct Conversion {
    pub from: u8,
    pub to: u8,
}

// What kinds are raised along: each type's target and link, and the conversions. 0 is no target and no link: it is int, which has
// neither, so an `Option` would say the same twice. The tables stay two, since the checker wants targets alone.
#[derive(Clone, Copy)]
pub struct Graph<'a> {
    pub types: u8,
    pub targets: &'a [u8],
    pub links: &'a [u8],
    pub conversions: &'a [Conversion],
    pub ghost tables: { Tables types targets.now links.now },
    pub ghost listed: { All (Between types) conversions.now },
}

// Type t is made k at least.
pub fn at_least(m: &mut [u8], t: u8, k: u8)
    requires { Ref (length m.old) t }
    ensures { Raised m.old m.new t k }
{
    let i = usize::from(t) - 1;
    if m[i] < k {
        m[i] = k;
    }
}

// A marking while its kinds are raised, and whether any has moved: with a flag that each step answers, it took half as long again.
// What ties type numbers and a graph to the marking stays a `requires`: were the graph a field too, each step would have to promise that it stays.
#[derive(Drop)]
struct Raising<'a> {
    kinds: &'a mut [u8],
    moved: bool,
}

impl<'a> Raising<'a> {
    ghost use Rattle.raise.specs.Raising.{Sees};

    // If s is k at least, t is raised to k.
    fn flow(&mut self, s: u8, t: u8, k: u8)
        requires source { Ref (length self.old.kinds.now) s }
        requires target { Ref (length self.old.kinds.now) t }
        requires kind { k ≤ 2 }
        ensures { Sees (λ w. Edge w s t k) self.old self.new }
    {
        let i = usize::from(s) - 1;
        let j = usize::from(t) - 1;
        if k <= self.kinds[i] && self.kinds[j] < k {
            self.kinds[j] = k;
            self.moved = true;
        }
    }

    // t is raised to the kind of s.
    fn upward(&mut self, s: u8, t: u8)
        requires source { Ref (length self.old.kinds.now) s }
        requires target { Ref (length self.old.kinds.now) t }
        ensures { Sees (λ w. Upward w s t) self.old self.new }
    {
        self.flow(s, t, SEQ);
        self.flow(s, t, DYNAMIC);
    }

    // s and its link t, where it has one, are raised to one kind.
    fn level(&mut self, s: u8, t: u8)
        requires source { Ref (length self.old.kinds.now) s }
        requires link { t ≤ length self.old.kinds.now }
        ensures { Sees (λ w. Level w s t) self.old self.new }
    {
        if t != 0 {
            self.upward(s, t);
            self.upward(t, s);
        }
    }

    // DYNAMIC goes down from s to its target t, where that is a reference.
    fn down(&mut self, s: u8, t: u8)
        requires source { Ref (length self.old.kinds.now) s }
        requires target { t ≤ length self.old.kinds.now }
        ensures { Sees (λ w. Edge w s t 2) self.old self.new }
    {
        if t != 0 {
            self.flow(s, t, DYNAMIC);
        }
    }

    // One conversion, as far as its own two kinds go. SEQ goes back to the source only. Most have one kind already, and are passed by first.
    fn outer(&mut self, c: Conversion)
        requires { Between (length self.old.kinds.now) c }
        ensures { Sees (λ w. Outer w c) self.old self.new }
    {
        if self.kinds[usize::from(c.from) - 1] == self.kinds[usize::from(c.to) - 1] {
            return;
        }
        self.upward(c.to, c.from);
        self.flow(c.from, c.to, DYNAMIC);
    }
}

impl<'a> Graph<'a> {
    ghost use Rattle.raise.specs.Raising.{Sees};

    // One type: its link and its target.
    fn row(&self, r: &mut Raising, x: u8)
        requires reference { Ref self.now.types x }
        requires entries { length r.old.kinds.now ≡ self.now.types }
        ensures { Sees (λ w. Row self.now.targets.now self.now.links.now w x) r.old r.new }
    {
        let i = usize::from(x);
        r.level(x, self.links[i]);
        r.down(x, self.targets[i]);
    }

    // Every type: from the top down, and in step from the bottom up.
    fn rows(&self, r: &mut Raising)
        requires { length r.old.kinds.now ≡ self.now.types }
        ensures { Sees (Rows self.now.types self.now.targets.now self.now.links.now) r.old r.new }
    {
        for i in 0..self.types {
            self.row(r, self.types - i);
            self.row(r, i + 1);
        }
    }

    // Every conversion.
    fn outers(&self, r: &mut Raising)
        requires { length r.old.kinds.now ≡ self.now.types }
        ensures { Sees (Outers self.now.conversions.now) r.old r.new }
    {
        for c in self.conversions {
            r.outer(*c);
        }
    }

    // Everything once. Tells whether any kind rose.
    fn pass(&self, m: &mut [u8]) -> bool
        requires { length m.old ≡ self.now.types }
        ensures { Meets (Whole self.now.types self.now.targets.now self.now.links.now self.now.conversions.now) m.old m.new false result }
    {
        let mut r = Raising {
            kinds: m,
            moved: false,
        };
        self.rows(&mut r);
        self.outers(&mut r);
        r.moved
    }

    // Until nothing moves.
    pub fn settle(&self, m: &mut [u8])
        requires { length m.old ≡ self.now.types }
        ensures { Rests self.now.types self.now.targets.now self.now.links.now self.now.conversions.now m.old m.new }
    {
        while self.pass(m) {}
    }
}
