// What the kinds of two types decide.
ghost use Rattle.std.specs.Prelude.{◌≡◌};
ghost use Rattle.rules.specs.Kinds.{kind_converts, targets_matter, spreads};

use rules::Kind;

// Whether a reference or int of the first kind converts to the second, by the kinds alone.
pub fn kinds_convert(a: Kind, b: Kind) -> bool
    ensures { result ≡ kind_converts a b }
{
    match (a, b) {
        (_, Kind::int) => true,
        (Kind::int, Kind::SAFE) => false,
        (Kind::int, _) => true,
        (Kind::SEQ, Kind::SAFE) => true,
        _ => a == b,
    }
}

// Whether a conversion between these kinds asks equal targets.
pub fn targets_matter(a: Kind, b: Kind) -> bool
    ensures { result ≡ targets_matter a b }
{
    a != Kind::int && matches!(b, Kind::SAFE | Kind::SEQ)
}

// Whether a type of the first kind may have a target of the second: DYNAMIC goes down.
pub fn spreads(a: Kind, b: Kind) -> bool
    ensures { result ≡ spreads a b }
{
    a != Kind::DYNAMIC || matches!(b, Kind::int | Kind::DYNAMIC)
}
