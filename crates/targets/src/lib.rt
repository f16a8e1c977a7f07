// The table of a file's targets, each at its type's number: what comparing types and inference go by.
#![tactic(auto)]

ghost use Rattle.std.specs.Prelude.{◌≡◌};
ghost use Rattle.view.specs.Files.{routine_of};
ghost use Rattle.targets.specs.Filled.{TargetTable};

use view::View;

// Fills the table's entries of the file's types; the others stay.
pub fn fill(view: &View, table: &mut [u8; 256])
    ensures { TargetTable (routine_of view.now) (routine_of view.now).types table.old table.new }
{
    let n = view.counts().types as usize;
    // Of `1..=n` the proof did not close: see `runner`.
    for t in 1..n + 1 {
        table[t] = view.type_row(t).target as u8;
    }
}
