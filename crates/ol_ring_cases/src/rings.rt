//! A ring of three files of four pages: pages 28 to 39 of chunk 0.

ghost use Rattle.std.specs.Prelude.{◌≤◌, ◌<◌, ◌+◌, ◌*◌, ◌^◌, IsTrue};
ghost use Rattle.ol_log_places.specs.Places.{HasLog};
ghost use Rattle.ol_loglog.specs.RingValue.{HasRoom};

use ol_chunks::{Area, ChunkTable, parse_config};
use ol_log_places::{ScanFault, Stood, scan};
use ol_loglog::{LogRing, RingStart};
use ol_outside::Disk;
use ol_values::Record;
use std::alloc::Global;

const CONFIG: &[u8] = b"space root 100\nspace data1 8\nphyslog root 8\nlogs root 3 4\nbefore 2\n";

/// The pages of its chunks.
pub const SIZES: [u32; 3] = [100, 8, 2];

/// No use is backed up, and no position below 5 is needed.
pub const START: RingStart = RingStart {
    incarnation: 1,
    uniq: 1,
    backed: 0,
    need: 5,
    next: 1,
};

/// What the number of a use and a position have to be below: 2^62.
const LIMIT: u64 = 4611686018427387904;

/// Whether a disk has all pages of an area.
fn has_pages<D: Disk>(disk: &D, area: Area) -> bool
    ensures { IsTrue result → area.first + area.count * area.pages ≤ D.sizes disk.now area.chunk }
{
    match area.count.checked_mul(area.pages) {
        Some(pages) => match area.first.checked_add(pages) {
            Some(end) => end <= disk.size(area.chunk),
            None => false,
        },
        None => false,
    }
}

/// Whether a disk has all pages of the log.
fn has_log<D: Disk>(disk: &D, table: &ChunkTable) -> bool
    ensures { IsTrue result → HasLog table.now (D.sizes disk.now) }
{
    has_pages(disk, table.logs())
}

/// The first and the last position of pages, which are in order; 0 and 0 where there is none.
fn ends_of(pages: &[Stood]) -> (u64, u64) {
    match (pages.first(), pages.last()) {
        (Some(first), Some(last)) => (
            first.head.first,
            last.head
                .first
                .saturating_add(u64::from(last.head.count))
                .saturating_sub(1),
        ),
        _ => (0, 0),
    }
}

/// The first and the last position of the run that a scan finds, or the page that it names; None where it can't be made.
pub fn run_on<D: Disk>(alloc: Global, disk: &mut D) -> Option<Result<(u64, u64), u32>> {
    let table = parse_config(CONFIG).ok()?;
    if !has_log(disk, &table) {
        return None;
    }
    match scan(alloc, disk, &table) {
        Ok(standing) => Some(Ok(ends_of(standing.as_slice()))),
        Err(ScanFault::BadDisk { chunk: _, page }) => Some(Err(page)),
        Err(_) => None,
    }
}

/// A ring over what a scan finds.
pub fn ring_on<D: Disk>(alloc: Global, disk: &mut D) -> Option<LogRing> {
    let table = parse_config(CONFIG).ok()?;
    if !has_log(disk, &table) {
        return None;
    }
    match scan(alloc, disk, &table) {
        Ok(standing) => LogRing::new(alloc, table, standing, START).ok(),
        Err(_) => None,
    }
}

/// Whether a page more may be written.
fn is_fit<D: Disk>(ring: &LogRing, disk: &D) -> bool
    ensures log { IsTrue result → HasLog ring.now.config (D.sizes disk.now) }
    ensures room { IsTrue result → HasRoom ring.now.config ring.now.state }
    ensures low { IsTrue result → (ring.now.state.files.uniq < 2 ^ 62) × (ring.now.state.next < 2 ^ 62) }
{
    has_pages(disk, ring.area())
        && ring.free_pages() > 0
        && ring.uniq() < LIMIT
        && ring.next_position() < LIMIT
}

/// Whether a record is buffered.
fn append<D: Disk>(ring: &mut LogRing, disk: &mut D) -> bool {
    let record = Record::Begin {
        txn: ring.next_position(),
    };
    is_fit(ring, disk) && ring.append(disk, &record).is_ok()
}

/// Whether the buffered page is written.
fn flush<D: Disk>(ring: &mut LogRing, disk: &mut D) -> bool {
    is_fit(ring, disk) && ring.flush(disk).is_ok()
}

/// Whether so many pages are written, each with one record.
pub fn put<D: Disk>(ring: &mut LogRing, disk: &mut D, count: u32) -> bool {
    for _ in 0..count {
        if !append(ring, disk) || !flush(ring, disk) {
            return false;
        }
    }
    true
}

/// The unique number of the use that is backed up, 0 where there is none.
pub fn back_up(ring: &mut LogRing) -> u64 {
    match ring.unbacked() {
        Some(closed) => {
            ring.mark_backed(closed.uniq);
            closed.uniq
        }
        None => 0,
    }
}

/// Closes the current file, where no record is buffered.
pub fn switch(ring: &mut LogRing) -> bool {
    if ring.held() {
        return false;
    }
    ring.switch();
    true
}
