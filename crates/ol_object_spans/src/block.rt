//! A block as it was read: its head, and what its payload holds.

ghost use Rattle.std.specs.Prelude.{◌≡◌, ◌≤◌, bytes_eq, map};
ghost use Rattle.ol_rules.specs.Shelf.{same_saved};
ghost use Rattle.ol_object.specs.Spaces.{saved_of};
ghost use Rattle.ol_object_spans.specs.Told.{is_readable, same_held, same_object, stamp_in};

use ol_chunks::ChunkTable;
use ol_object::ArchiveHead;

/// The greatest incarnation, and the greatest number, of a block that counts: 2^60.
const MOST: u64 = 1152921504606846976;

/// The fields of a block's head.
#[derive(Clone, Copy, Debug, PartialEq, Eq)]
pub struct BlockHead {
    /// What the block is: 1 a header, 2 a page, 3 records, 4 a trailer, 5 a mark.
    pub kind: u8,
    /// What its object is: 1 an archive, 2 a log, 3 a mark.
    pub object: u8,
    /// The incarnation of the installation that wrote the block.
    pub incarnation: u64,
    /// The number of the archive, or the unique number of the log file; of a mark the new incarnation.
    pub number: u64,
    /// The block's place in its object, from 0.
    pub index: u32,
    /// The cut, the space of a page, the first position of a log or of records, or the end that a mark names.
    pub a: u64,
    /// The low, the page, the last position of a log, or how many records there are.
    pub b: u64,
    /// The level, or the page's stamp.
    pub c: u64,
}

/// What the payload of a block holds.
#[derive(Drop)]
pub enum Held {
    /// Nothing.
    Nothing,
    /// The head of an archive, and the configuration of its text.
    Archive(ArchiveHead, ChunkTable),
    /// A data page, of which the stamp is told.
    Page { stamp: u64 },
    /// A log page: the unique number of its file, its first position, and how many records it has.
    Log { uniq: u64, first: u64, count: u32 },
}

/// A block that was read.
#[derive(Drop)]
pub struct ReadBlock {
    /// The fields of its head.
    pub head: BlockHead,
    /// What its payload holds.
    pub held: Held,
}

/// Whether a block counts as one: its incarnation and its number are at most 2^60.
pub(crate) fn is_readable(head: &BlockHead) -> bool
    ensures { result ≡ is_readable head.now }
{
    head.incarnation <= MOST && head.number <= MOST
}

/// Whether two blocks are of one object, by kind, incarnation and number.
pub(crate) fn is_same_object(one: &BlockHead, other: &BlockHead) -> bool
    ensures { result ≡ same_object one.now other.now }
{
    one.object == other.object && one.incarnation == other.incarnation && one.number == other.number
}

/// Whether two payloads hold one archive head, or both nothing.
pub(crate) fn is_same_end(one: &Held, other: &Held) -> bool
    ensures { result ≡ same_held one.now other.now }
{
    match (one, other) {
        (Held::Nothing, Held::Nothing) => true,
        (Held::Archive(one, _), Held::Archive(other, _)) => {
            are_same_spaces(one.spaces(), other.spaces()) && one.text() == other.text()
        }
        _ => false,
    }
}

/// Whether two lists of spaces are one.
fn are_same_spaces(one: &[(u8, u64, u64)], other: &[(u8, u64, u64)]) -> bool
    ensures { result ≡ same_saved (map saved_of one.now) (map saved_of other.now) }
{
    one == other
}

/// Whether a payload holds a data page of this stamp.
pub(crate) fn has_stamp(held: &Held, stamp: u64) -> bool
    ensures { result ≡ stamp_in held.now stamp }
{
    match held {
        Held::Page { stamp: own } => *own == stamp,
        _ => false,
    }
}
