// The reader: refusals 1 to 6 and 10 for every slice of bytes, and the types of a well-formed file's expression rows.
#![tactic(auto)]

ghost use Rattle.std.specs.Prelude.{◌≡◌};
ghost use Rattle.rules.specs.Calls.{says, formed};
ghost use Rattle.reader.specs.Tables.{ReadTyped};

use rules::{Refusal, Starts};
use view::View;

mod range; // range.rt: whether a row is in range, refusal 3
mod front; // front.rt: the sections front to back, refusals 1 to 5
mod shape; // shape.rt: the table of types, and refusals 10 and 6

use shape::TypedRows;

// What the rules say of a file: where its sections start, or its first refusal.
pub fn read(file: &[u8]) -> Result<Starts, Refusal>
    ensures { says result ≡ formed file.now }
{
    let mut types = [0u16; 1024];
    read_typed(file, &mut types)
}

// The same, and in `types` the types of the expression rows of a file that earns none of 1 to 5.
pub fn read_typed(file: &[u8], types: &mut [u16; 1024]) -> Result<Starts, Refusal>
    ensures { ReadTyped file.now types.old types.new result }
{
    let at = front::whole(file)?;
    let view = View { bytes: file, at };
    shape::type_table(&view, types);
    TypedRows { view, types }.judge()
}
