//! The first anchor of an installation, and the sizes that it asks for.

ghost use Rattle.std.specs.Prelude.{◌≡◌, ◌≤◌, ◌++◌, ◌-◌, IfNone, IfSome, length, replicate};
ghost use Rattle.ol_chunks.specs.Limits.{IsConfig};
ghost use Rattle.ol_values.specs.Config.{config_text};
ghost use Rattle.ol_reserve.specs.Anchor.{IsAnchor};
ghost use Rattle.ol_format.specs.First.{AreLarge, IsFirstSmall, chunks_of, first_anchor};

use ol_chunks::ChunkTable;
use ol_ports::Disk;
use ol_reserve::{Anchor, ConfigText, SPACES, TEXT_LIMIT};

/// The state of an installation on line, and of a space that is up.
const ONLINE: u8 = 1;

const UP: u8 = 1;

/// The first chunk of the table, the temporary one last, that has fewer pages on the disk than the table says.
pub fn first_small<D: Disk>(disk: &D, table: &ChunkTable) -> Option<u8>
    ensures some { IfSome result (IsFirstSmall (D.sizes disk.now) table.now) }
    ensures none { IfNone result (AreLarge (D.sizes disk.now) table.now (chunks_of table.now)) }
{
    for chunk in 0..table.chunks() {
        if disk.size(chunk) < table.chunk_pages(chunk) {
            return Some(chunk);
        }
    }
    None
}

/// The anchor of a newly formatted installation.
pub(crate) fn make_first(table: &ChunkTable) -> Anchor
    ensures value { result ≡ first_anchor table.now }
    ensures grammar { IsAnchor result }
    ensures config { IsConfig table.now }
{
    Anchor {
        state: ONLINE,
        serial: 1,
        incarnation: 1,
        position: 0,
        generation: 1,
        next_archive: 1,
        backed: 0,
        uniq: 1,
        need: 1,
        states: all_up(table.spaces()),
        down_at: [0; SPACES],
        zero: [(0, 0); SPACES],
        one: [(0, 0); SPACES],
        text: text_of(table),
    }
}

/// The states of so many spaces, all of them up.
fn all_up(spaces: u8) -> [u8; SPACES]
    requires { spaces ≤ 16 }
    ensures { result ≡ replicate spaces 1 ++ replicate (16 - spaces) 0 }
{
    let mut states = [0; SPACES];
    let (there, _) = states.split_at_mut(spaces as usize);
    there.fill(UP);
    states
}

/// The text of the table, as an anchor holds it.
fn text_of(table: &ChunkTable) -> ConfigText
    ensures { result ≡ config_text table.now }
{
    let mut text = [0; TEXT_LIMIT];
    let count = table.text(&mut text);
    let (text, _) = text.split_at(count);
    ConfigText::new(text).unwrap()
}
