// The least marking of a file.
#![tactic(auto)]

ghost use Rattle.std.specs.Prelude.{◌≡◌, ℕ, ◌≤◌, ◌<◌, length};
ghost use Rattle.std.specs.List.{All};
ghost use Rattle.rules.specs.Least.{Least};
ghost use Rattle.rules.specs.Calls.{says, Inferred};
ghost use Rattle.view.specs.Files.{routine_of};
ghost use Rattle.raise.specs.Demands.{Falls, Between};
ghost use Rattle.infer.specs.Tables.{LeastAbove};

use arrayvec::ArrayVec;
use needs::WellFormed;
use raise::{Conversion, Graph};
use rules::{Fault, Refusal};

// The least marking, at or above the one given, that suits the targets and the conversions.
fn least_above(targets: &[u8], conversions: &[Conversion], m: &mut [u8])
    requires few { length m.old ≤ 255 }
    requires size { length m.old < length targets.now }
    requires falls { Falls targets.now }
    requires listed { All (Between (length m.old)) conversions.now }
    ensures { LeastAbove targets.now conversions.now m.old m.new }
{
    let mut links = [0u8; 256];
    links::join(targets, conversions, &mut links, m);
    let graph = Graph {
        types: m.len() as u8,
        targets,
        links: &links,
        conversions,
    };
    graph.settle(m);
}

// Fills a marking, which has one entry for each type, with the least one of a well-formed file.
pub fn mark(file: &WellFormed, m: &mut [u8])
    requires { length m.old ≡ (routine_of file.now.view).types }
    ensures { Least (routine_of file.now.view) m.new }
{
    let mut targets = [0u8; 256];
    let mut conversions = ArrayVec::new();
    gather::clear(m);
    targets::fill(&file.view, &mut targets);
    gather::rows(file, &mut conversions, m);
    least_above(&targets, conversions.as_slice(), m);
}

// Infers a file's marking into a lent one: its first entries, one for each type, are then the least marking.
// Refused where the file is not well-formed, or fewer entries are lent than it has types; nothing is written then.
pub fn infer(file: &[u8], marking: &mut [u8]) -> Result<(), Refusal>
    ensures { Inferred file.now marking.old (record { answer = says result; lent = marking.new }) }
{
    let mut types = [0u16; 1024];
    // A `match` and no `?`: what a refused file is answered is a place of its own, where `refused_marked` goes wrong and nothing else moves.
    let at = match reader::read_typed(file, &mut types) {
        Ok(at) => at,
        Err(refusal) => return Err(refusal),
    };
    let formed = WellFormed::new(file, at, &types);
    let needed = usize::from(formed.view.counts().types);
    if marking.len() < needed {
        return Err(Refusal::new(Fault::Lent, needed));
    }
    mark(&formed, &mut marking[..needed]);
    Ok(())
}
