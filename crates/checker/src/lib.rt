// The checker: whether a marking is acceptable, refusals 7 and 8.
#![tactic(auto)]

ghost use Rattle.std.specs.Prelude.{◌≡◌};
ghost use Rattle.rules.specs.Calls.{says, checking};
ghost use Rattle.checker.specs.Judge.{CheckedTyped};

mod kinds; // kinds.rt: what the kinds of two types decide
mod marked; // marked.rt: a marked file, and refusals 7 and 8

use needs::WellFormed;
use rules::{Refusal, Starts};

// Refusals 1 to 8 and 10; and in `types` the types of the expression rows of a file that earns none of 1 to 5.
pub fn check_typed(file: &[u8], marking: &[u8], types: &mut [u16; 1024]) -> Result<Starts, Refusal>
    ensures { CheckedTyped file.now marking.now types.old types.new result }
{
    let at = reader::read_typed(file, types)?;
    let formed = WellFormed::new(file, at, types);
    marked::judge(&formed, marking)
}

// Whether a file accepts a marking, or its first refusal.
#[tactic(auto, unfolding(rules::specs::Calls::checking))]
pub fn check(file: &[u8], marking: &[u8]) -> Result<(), Refusal>
    ensures { says result ≡ checking file.now marking.now }
{
    let mut types = [0u16; 1024];
    check_typed(file, marking, &mut types)?;
    Ok(())
}
