//! The spaces that a line names.

ghost use Rattle.std.specs.Prelude.{◌≡◌, ◌<◌, IfSome, length};
ghost use Rattle.std.specs.Option.{option_map};
ghost use Rattle.ol_core.specs.Archivers.{spaces_named};
ghost use Rattle.ol_values.specs.Config.{space_named};
ghost use Rattle.ol_chunks.specs.Limits.{IsConfig};
ghost use Rattle.ol_core.specs.Filled.{marked, no_marks};

use ol_chunks::{ChunkTable, Name};
use ol_values::{Label, Labels};

/// The space of this name; None where no space has it.
pub(crate) fn find(table: &ChunkTable, label: &Label) -> Option<u8>
    requires { IsConfig table.now }
    ensures value { result ≡ space_named table.now label.now }
    ensures there { IfSome result (λ space. space < length table.now.spaces) }
{
    match Name::new(label.as_slice()) {
        Some(name) => table.find(&name),
        None => None,
    }
}

/// Marks for the spaces of these names; None where one of them is no space.
pub(crate) fn choose(table: &ChunkTable, names: &Labels) -> Option<[bool; 16]>
    requires { IsConfig table.now }
    ensures { result ≡ option_map (marked no_marks) (spaces_named table.now names.now) }
{
    let mut marks = [false; 16];
    for name in names.as_slice() {
        let space = find(table, name)?;
        marks[space as usize] = true;
    }
    Some(marks)
}
