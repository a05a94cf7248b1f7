//! The headers of a stream, each with the span that began there.

ghost use Rattle.std.specs.Prelude.{◌≡◌, ◌+◌, None, Some, if◌then◌else◌, nat_le, option_map};
ghost use Rattle.ol_rules.specs.Shelf.{saved_in};
ghost use Rattle.ol_values.specs.Config.{has_page};
ghost use Rattle.ol_values.specs.Blocks.{Saved};
ghost use Rattle.ol_object_spans.specs.Follows.{advanced, ends_as, follows, has_come, inner_follows, is_behind, page_follows, records_follow};

use crate::block::{BlockHead, Held, ReadBlock, has_stamp, is_same_end, is_same_object};
use crate::place::Place;
use ol_chunks::ChunkTable;
use ol_object::ArchiveHead;

/// The kind of a header.
pub(crate) const HEADER: u8 = 1;

/// The kind of a page.
const PAGE: u8 = 2;

/// The kind of records.
const RECORDS: u8 = 3;

/// The kind of a trailer.
pub(crate) const TRAILER: u8 = 4;

/// The kind of an archive as an object.
const ARCHIVE_OBJECT: u8 = 1;

/// The kind of a log as an object.
const LOG_OBJECT: u8 = 2;

/// A header: its index in the stream, and what it says.
#[derive(Drop)]
pub(crate) struct Header {
    pub start: u64,
    pub head: BlockHead,
    pub held: Held,
}

/// How far a span has come in which each block belongs.
#[derive(Clone, Copy)]
pub(crate) struct Progress {
    /// The space and the page of the last page, if there is one.
    pub last: Option<(u64, u64)>,
    /// The position behind the last record.
    pub position: u128,
}

/// A header with the span that goes on from it.
#[derive(Drop)]
pub(crate) struct Live {
    pub header: Header,
    pub progress: Progress,
}

/// A header whose span has come to a block that does not belong, and the place of the first.
#[derive(Drop)]
pub(crate) struct Stopped {
    pub header: Header,
    pub bad: Place,
}

/// Whether the trailer, or the whole of an object, has the fields and the payload of a header.
pub(crate) fn ends_as(header: &Header, block: &ReadBlock) -> bool
    ensures { result ≡ ends_as header.now block.now }
{
    let (one, other) = (&header.head, &block.head);
    is_same_object(one, other)
        && one.a == other.a
        && one.b == other.b
        && one.c == other.c
        && is_same_end(&header.held, &block.held)
}

/// Whether the span of a log has come to the last position that its header names.
pub(crate) fn has_come(live: &Live) -> bool
    ensures { result ≡ has_come live.now.header.head live.now.progress }
{
    live.header.head.object != LOG_OBJECT
        || live.progress.position == u128::from(live.header.head.b) + 1
}

/// How far a span has come behind a block of this index in it, at least 1; none where the block does not belong.
pub(crate) fn passed(live: &Live, index: u64, block: &ReadBlock) -> Option<Progress>
    ensures { result ≡ (if follows live.now.header live.now.progress index block.now then Some (advanced live.now.progress block.now.head) else None) }
{
    if !follows(live, index, block) {
        return None;
    }
    Some(advanced(&live.progress, &block.head))
}

/// Whether a block of this index in the span, at least 1, belongs there, and is not its last.
fn follows(live: &Live, index: u64, block: &ReadBlock) -> bool
    ensures { result ≡ follows live.now.header live.now.progress index block.now }
{
    is_same_object(&block.head, &live.header.head)
        && u64::from(block.head.index) == index
        && inner_follows(live, block)
}

/// Whether a block is a page or records, by the object, and follows what came before.
fn inner_follows(live: &Live, block: &ReadBlock) -> bool
    ensures { result ≡ inner_follows live.now.header live.now.progress block.now }
{
    if live.header.head.object == ARCHIVE_OBJECT {
        block.head.kind == PAGE && page_follows(live, block)
    } else {
        block.head.kind == RECORDS && records_follow(live, block)
    }
}

/// Whether a page is one of the archive's, behind the last one, with a stamp above the base of its space and at most the cut.
fn page_follows(live: &Live, block: &ReadBlock) -> bool
    ensures { result ≡ page_follows live.now.header live.now.progress block.now }
{
    let Held::Archive(archive, table) = &live.header.held else {
        return false;
    };
    let Some(base) = base_of(archive, block.head.a) else {
        return false;
    };
    let (space, page, stamp) = (block.head.a, block.head.b, block.head.c);
    is_behind(live.progress.last, space, page)
        && has_page(table, space, page)
        && base < stamp
        && stamp <= live.header.head.a
        && has_stamp(&block.held, stamp)
}

/// Whether a page comes behind the last one, in order of space and page.
fn is_behind(last: Option<(u64, u64)>, space: u64, page: u64) -> bool
    ensures { result ≡ is_behind last space page }
{
    match last {
        None => true,
        Some((last_space, last_page)) => {
            last_space < space || (last_space == space && last_page < page)
        }
    }
}

/// Whether the configuration has a page.
fn has_page(table: &ChunkTable, space: u64, page: u64) -> bool
    ensures { result ≡ has_page table.now space page }
{
    space < u64::from(table.spaces()) && page < u64::from(table.pages(space as u8))
}

/// The base of a space of an archive; none where the archive does not hold the space.
fn base_of(archive: &ArchiveHead, space: u64) -> Option<u64>
    ensures { result ≡ option_map (λ (s : Saved). s.base) (saved_in space archive.now.spaces) }
{
    for saved in archive.spaces() {
        if u64::from(saved.0) == space {
            return Some(saved.2);
        }
    }
    None
}

/// Whether records follow the last position without a gap, and end within the log.
fn records_follow(live: &Live, block: &ReadBlock) -> bool
    ensures { result ≡ records_follow live.now.header live.now.progress block.now }
{
    let Held::Log { uniq, first, count } = block.held else {
        return false;
    };
    let head = &block.head;
    u128::from(head.a) == live.progress.position
        && uniq == live.header.head.number
        && first == head.a
        && u64::from(count) == head.b
        && is_within(head, live.header.head.b)
}

/// Whether records end at a position, or before it.
fn is_within(records: &BlockHead, last: u64) -> bool
    ensures { result ≡ nat_le (records.now.a + records.now.b) (last + 1) }
{
    let behind = u128::from(records.a) + u128::from(records.b);
    behind <= u128::from(last) + 1
}

/// How far a span has come behind a block that belongs.
fn advanced(progress: &Progress, head: &BlockHead) -> Progress
    ensures { result ≡ advanced progress.now head.now }
{
    if head.kind == PAGE {
        Progress {
            last: Some((head.a, head.b)),
            position: progress.position,
        }
    } else if head.kind == RECORDS {
        Progress {
            last: progress.last,
            position: u128::from(head.a) + u128::from(head.b),
        }
    } else {
        *progress
    }
}
