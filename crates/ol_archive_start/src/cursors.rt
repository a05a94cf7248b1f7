//! The cursor of an archive that starts.

ghost use Rattle.std.specs.Prelude.{◌≡◌, ◌<◌, ◌==◌};
ghost use Rattle.std.specs.List.{list_any};
ghost use Rattle.ol_archive_start.specs.Refusing.{parent_of};
ghost use Rattle.ol_archive_start.specs.Starting.{bases_of, cursor_begun, named_of};

use crate::refusals::parent_of;
use ol_cursor::Cursor;
use ol_ports::Disk;
use ol_reserve::{Anchor, SPACES};
use ol_storage::Storage;
use ol_txn::Locks;

/// The cursor of an archive of a level of these spaces that starts now, before its pages are counted: it stands at the first place, and
/// is cut at the last position. The base of a space is the cut of the archive from which this one goes on there.
pub fn cursor_of<D: Disk>(storage: &Storage<D>, locks: &Locks, level: u8, spaces: &[u8]) -> Cursor
    ensures { result ≡ cursor_begun storage.now.now locks.now level spaces.now 0 }
{
    let anchor = storage.anchor();
    let next = storage.log().next_position();
    Cursor {
        number: anchor.next_archive,
        level,
        cut: next - 1,
        low: locks.low().unwrap_or(next),
        spaces: named(spaces),
        bases: bases(anchor, level),
        next: (0, 0),
        left: 0,
    }
}

// Whether each space is among these.
fn named(spaces: &[u8]) -> [bool; SPACES]
    ensures { result ≡ named_of spaces.now }
{
    let mut named = [false; SPACES];
    for space in 0..SPACES {
        named[space] = is_among(spaces, space as u8);
    }
    named
}

// Whether a space is among these.
fn is_among(spaces: &[u8], space: u8) -> bool
    ensures { result ≡ list_any (λ s. s == space) spaces.now }
{
    spaces.contains(&space)
}

// The base of each space for an archive of a level.
fn bases(anchor: &Anchor, level: u8) -> [u64; SPACES]
    ensures { result ≡ bases_of anchor.now level }
{
    let mut bases = [0; SPACES];
    for space in 0..SPACES {
        bases[space] = base_of(anchor, level, space as u8);
    }
    bases
}

// The base of one space: the cut of its parent, or 0 at level 0.
fn base_of(anchor: &Anchor, level: u8, space: u8) -> u64
    requires { space < 16 }
    ensures { result ≡ (parent_of anchor.now level space).1 }
{
    let (_, cut) = parent_of(anchor, level, space);
    cut
}
