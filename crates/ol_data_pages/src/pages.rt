//! The reading and writing of data pages, and the syncing of their chunks.

ghost use Rattle.std.specs.Prelude.{◌≡◌, ◌≤◌, ◌<◌, ℕ, IsErrOf, MatchBool, Ok, OnErr, OnOk, false, length, replicate, slice_index_or, true};
ghost use Rattle.ol_values.specs.Config.{has_page};
ghost use Rattle.ol_chunks.specs.Limits.{chunk_count};
ghost use Rattle.ol_chunks.specs.Places.{chunk_pages};
ghost use Rattle.ol_ports.specs.Causes.{HasChunkCause};
ghost use Rattle.ol_ports.specs.Disk.{Rest, Syncs, seen};
ghost use Rattle.ol_ports.specs.Frames.{FramedIn, ReadsOutside};
ghost use Rattle.ol_ports.specs.Stops.{Stops};
ghost use Rattle.ol_data_pages.specs.Places.{HasNoMark, HasPageCause, HasSpaceCause, HasSpaces, IsGood, IsSynced, IsWrong, MarkSpaces, is_place, standing_bytes, place_of};

use ol_chunks::ChunkTable;
use ol_page::{check, stamp};
use ol_ports::{Disk, Failed, PAGE_LENGTH};

/// The most chunks of spaces.
pub const CHUNKS: usize = 31;

/// Why a data page was not read.
#[derive(Clone, Copy, Debug, PartialEq, Eq)]
pub enum PageFault {
    /// A call of the disk failed.
    Failed,
    /// What stands at this place is no data page, or one with a stamp above the limit.
    Bad { chunk: u8, page: u32 },
}

/// Reads a data page from its place.
///
/// `Bad` names the place, where what stands there is no data page, or one with a stamp above `limit`. `Failed` comes only
/// where the count of faults of the place's chunk rose; `buf` may then hold anything.
pub fn read_page<D: Disk>(
    disk: &mut D,
    table: &ChunkTable,
    space: u8,
    page: u16,
    limit: u64,
    buf: &mut [u8; PAGE_LENGTH],
) -> Result<(), PageFault>
    requires page { has_page table.now space page ≡ true }
    requires sizes { HasSpaces table.now (D.sizes disk.old) }
    ensures bytes { D.tells → (IsErrOf result PageFault.Failed → ⊥) → buf.new ≡ standing_bytes table.now (seen (D.past disk.old)) space page }
    ensures good { OnOk result (IsGood limit buf.new) }
    ensures bad { (chunk at : ℕ) → IsErrOf result (PageFault.Bad chunk at) → (place_of table.now space page ≡ (chunk, at)) × IsWrong limit buf.new }
    ensures past { D.tells → D.past disk.new ≡ D.past disk.old }
    ensures sizes { D.sizes disk.new ≡ D.sizes disk.old }
    ensures cause { HasPageCause (place_of table.now space page).0 (D.fault_counts disk.old) (D.fault_counts disk.new) result }
{
    let (chunk, at) = place(table, space, page);
    match disk.read(chunk, at, buf) {
        Ok(()) => judge(chunk, at, limit, buf),
        Err(_) => Err(PageFault::Failed),
    }
}

/// Whether the bytes that were read at a place are those of a data page, with a stamp of at most `limit`.
fn judge(chunk: u8, at: u32, limit: u64, bytes: &[u8; PAGE_LENGTH]) -> Result<(), PageFault>
    ensures good { OnOk result (IsGood limit bytes.now) }
    ensures bad { (k p : ℕ) → IsErrOf result (PageFault.Bad k p) → (chunk ≡ k) × (at ≡ p) × IsWrong limit bytes.now }
    ensures called { IsErrOf result PageFault.Failed → ⊥ }
{
    if is_good(limit, bytes) {
        Ok(())
    } else {
        Err(PageFault::Bad { chunk, page: at })
    }
}

/// Whether bytes are those of a data page, with a stamp of at most `limit`.
fn is_good(limit: u64, bytes: &[u8; PAGE_LENGTH]) -> bool
    ensures { MatchBool result (IsGood limit bytes.now) (IsWrong limit bytes.now) }
{
    check(bytes).is_ok() && stamp(bytes) <= limit
}

/// Writes a data page to its place. It is not synced.
///
/// `Failed` comes only where the count of faults of the place's chunk rose. The place may then hold anything.
pub fn write_page<D: Disk>(
    disk: &mut D,
    table: &ChunkTable,
    space: u8,
    page: u16,
    image: &[u8; PAGE_LENGTH],
) -> Result<(), Failed>
    requires page { has_page table.now space page ≡ true }
    requires sizes { HasSpaces table.now (D.sizes disk.old) }
    ensures stops { D.tells → Stops (D.past disk.old) (D.past disk.new) (FramedIn (D.past disk.old) (is_place table.now space page)) }
    ensures ok { D.tells → OnOk result (standing_bytes table.now (seen (D.past disk.new)) space page ≡ image.now) }
    ensures reads { D.tells → OnOk result (ReadsOutside (D.past disk.old) (D.past disk.new) (is_place table.now space page)) }
    ensures sizes { D.sizes disk.new ≡ D.sizes disk.old }
    ensures cause { HasChunkCause (place_of table.now space page).0 (D.fault_counts disk.old) (D.fault_counts disk.new) result }
{
    let (chunk, at) = place(table, space, page);
    disk.write_at(chunk, at, 0, image)
}

/// The chunk of a data page and the page in it.
fn place(table: &ChunkTable, space: u8, page: u16) -> (u8, u32)
    requires { has_page table.now space page ≡ true }
    ensures value { result ≡ place_of table.now space page }
    ensures chunk { result.0 < chunk_count table.now.spaces }
    ensures inside { result.1 < chunk_pages table.now result.0 }
{
    table.place(space, page).unwrap_or((0, 0))
}

/// Syncs each chunk that is marked, in order of number, and takes all marks away. Where no chunk is marked, nothing is
/// asked of the disk.
///
/// `Failed` comes only where the count of faults of one of these chunks rose. All marks stay then.
pub fn sync_chunks<D: Disk>(
    disk: &mut D,
    table: &ChunkTable,
    written: &mut [bool; CHUNKS],
) -> Result<(), Failed>
    requires sizes { HasSpaces table.now (D.sizes disk.old) }
    requires marks { MarkSpaces table.now written.old }
    // A sync leaves nothing that a stop before might not have left.
    ensures stops { D.tells → Stops (D.past disk.old) (D.past disk.new) (Rest (D.past disk.old)) }
    ensures ok { D.tells → OnOk result (IsSynced (D.past disk.old) (D.past disk.new) written.old) }
    ensures marks { OnOk result (written.new ≡ replicate 31 false) }
    ensures kept { OnErr result (written.new ≡ written.old) }
    ensures idle { HasNoMark written.old → (disk.new ≡ disk.old) × (result ≡ Ok tt) }
    ensures sizes { D.sizes disk.new ≡ D.sizes disk.old }
    ensures cause { HasSpaceCause table.now (D.fault_counts disk.old) (D.fault_counts disk.new) result }
{
    match sync_marked(disk, table, written) {
        Ok(()) => {}
        Err(failed) => return Err(failed),
    }
    written.fill(false);
    Ok(())
}

/// Syncs each chunk that is marked, in order of number.
fn sync_marked<D: Disk>(
    disk: &mut D,
    table: &ChunkTable,
    written: &[bool; CHUNKS],
) -> Result<(), Failed>
    requires sizes { HasSpaces table.now (D.sizes disk.old) }
    requires marks { MarkSpaces table.now written.now }
    ensures stops { D.tells → Stops (D.past disk.old) (D.past disk.new) (Rest (D.past disk.old)) }
    ensures ok { D.tells → OnOk result (IsSynced (D.past disk.old) (D.past disk.new) written.now) }
    ensures idle { HasNoMark written.now → (disk.new ≡ disk.old) × (result ≡ Ok tt) }
    ensures sizes { D.sizes disk.new ≡ D.sizes disk.old }
    ensures cause { HasSpaceCause table.now (D.fault_counts disk.old) (D.fault_counts disk.new) result }
{
    for chunk in 0..CHUNKS as u8 {
        if !written[usize::from(chunk)] {
            continue;
        }
        match sync_chunk(disk, table, chunk) {
            Ok(()) => {}
            Err(failed) => return Err(failed),
        }
    }
    Ok(())
}

/// Syncs a chunk of a space.
fn sync_chunk<D: Disk>(disk: &mut D, table: &ChunkTable, chunk: u8) -> Result<(), Failed>
    requires sizes { HasSpaces table.now (D.sizes disk.old) }
    requires chunk { chunk < chunk_count table.now.spaces }
    ensures past { D.tells → Syncs (D.past disk.old) (D.past disk.new) chunk result }
    ensures sizes { D.sizes disk.new ≡ D.sizes disk.old }
    ensures cause { HasChunkCause chunk (D.fault_counts disk.old) (D.fault_counts disk.new) result }
{
    let _pages = table.chunk_pages(chunk);
    disk.sync(chunk)
}
