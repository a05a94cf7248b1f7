//! The counting entries of the physical log, their images at the places of their pages, and the store over these.

ghost use Rattle.std.specs.Prelude.{◌≡◌, ◌<◌, ◌+◌, IfErr, IfOk, IfSome, IsErrOf, MatchBool, None, OnErr, OnOk, length, slice_index, ℕ};
ghost use Rattle.ol_chunks.specs.Limits.{IsConfig};
ghost use Rattle.ol_chunks.specs.Places.{is_in, physical_area};
ghost use Rattle.ol_chunks.specs.Places.Part.{Data};
ghost use Rattle.ol_ports.specs.Disk.{Past, seen};
ghost use Rattle.ol_ports.specs.Frames.{FramedIn, IsQuiet, IsSettledIn, ReadsOutside};
ghost use Rattle.ol_ports.specs.Stops.{Stops};
ghost use Rattle.ol_physlog.specs.Places.{head_page, in_physical};
ghost use Rattle.ol_physlog.specs.Reading.{IsFound, Tells, log_of};
ghost use Rattle.ol_physlog.specs.States.{IsLaid, NoneLater, image_at};
ghost use Rattle.ol_data_pages.specs.Places.{HasSpaces};
ghost use Rattle.ol_store.specs.Holding.{HoldsPages, IsFresh, IsOnDisk};
ghost use Rattle.ol_store.specs.Pages.{Pages};
ghost use Rattle.ol_store.specs.Stores.{IsImage};
ghost use Rattle.ol_page_opening.specs.Opening.{AreGood, AreImages, AreSaved, HasPageOpenCause, IsBad, IsNoImage, IsOpened};

use ol_before::Before;
use ol_chunks::ChunkTable;
use ol_page::check;
use ol_physical_restore::restore_pages;
use ol_physlog::{Entries, PhysFault, PhysLog, read_entries};
use ol_ports::{Disk, PAGE_LENGTH};
use ol_store::Store;
use std::alloc::Global;

/// Why the pages of a disk were not opened.
#[derive(Clone, Copy, Debug, PartialEq, Eq)]
pub enum PageOpenFault {
    /// The page of the head of the first entry that is off the grammar or of the page of an earlier one; where there is none, the
    /// page of the image of a counting entry that is no data page's.
    BadDisk { chunk: u8, page: u32 },
    /// A read of the physical log, in this chunk, failed.
    DiskFault { chunk: u8 },
    /// A write or a sync of data pages failed.
    Failed,
    /// Memory was refused.
    NoMemory,
}

/// Puts each data page of a disk back to what it was at the last checkpoint, by the entries of the physical log that count for a
/// generation, syncs these pages, and gives the store over them.
///
/// All that the store needs is read, and its memory taken, before anything is written: `BadDisk`, `DiskFault` and `NoMemory` leave
/// the disk as it was. `Failed` comes only where the count of faults of a chunk of a space rose; what a stop leaves then has each
/// page under its counting entry as before, so that the disk can be opened again.
pub fn read_pages<D: Disk>(
    alloc: Global,
    disk: &mut D,
    table: &ChunkTable,
    generation: u64,
) -> Result<Store, PageOpenFault>
    requires sizes { HasSpaces table.now (D.sizes disk.old) }
    ensures value { IfOk result (IsOpened table.now generation) }
    ensures stored { D.tells → IsQuiet (D.past disk.old) → (v : Pages) → AreSaved table.now v → HoldsPages table.now generation v (seen (D.past disk.old)) → IfOk result (λ s. IsOnDisk (D.past disk.new) s v) }
    ensures stops { D.tells → IsQuiet (D.past disk.old) → (v : Pages) → HoldsPages table.now generation v (seen (D.past disk.old)) → Stops (D.past disk.old) (D.past disk.new) (HoldsPages table.now generation v) }
    ensures good { D.tells → OnOk result (AreGood table.now generation (seen (D.past disk.old))) }
    ensures bad { D.tells → (chunk page : ℕ) → IsErrOf result (PageOpenFault.BadDisk chunk page) → IsBad table.now generation (seen (D.past disk.old)) chunk page }
    ensures unwritten { D.tells → (IsErrOf result PageOpenFault.Failed → ⊥) → OnErr result (D.past disk.new ≡ D.past disk.old) }
    ensures frame { D.tells → Stops (D.past disk.old) (D.past disk.new) (FramedIn (D.past disk.old) (is_in table.now Data)) }
    ensures reads { D.tells → OnOk result (ReadsOutside (D.past disk.old) (D.past disk.new) (is_in table.now Data)) }
    ensures sizes { D.sizes disk.new ≡ D.sizes disk.old }
    ensures cause { HasPageOpenCause table.now (D.fault_counts disk.old) (D.fault_counts disk.new) result }
{
    let entries = match read_images(alloc, disk, table, generation) {
        Ok(entries) => entries,
        Err(fault) => return Err(fault),
    };
    let store = match store_over(alloc, table, generation, &entries) {
        Ok(store) => store,
        Err(fault) => return Err(fault),
    };
    match restore_pages(disk, table, &entries) {
        Ok(()) => Ok(store),
        Err(_) => Err(PageOpenFault::Failed),
    }
}

/// Reads the entries of the physical log. Each that counts has the image of a data page.
fn read_images<D: Disk>(
    alloc: Global,
    disk: &mut D,
    table: &ChunkTable,
    generation: u64,
) -> Result<Entries, PageOpenFault>
    requires sizes { HasSpaces table.now (D.sizes disk.old) }
    ensures config { IsConfig table.now }
    ensures tells { D.tells → IfOk result (Tells table.now (physical_area table.now) generation (seen (D.past disk.old))) }
    ensures found { IfOk result IsFound }
    ensures gates { IfOk result (λ found. length found.gates ≡ (physical_area table.now).count) }
    ensures good { D.tells → OnOk result (AreGood table.now generation (seen (D.past disk.old))) }
    ensures bad { D.tells → (chunk page : ℕ) → IsErrOf result (PageOpenFault.BadDisk chunk page) → IsBad table.now generation (seen (D.past disk.old)) chunk page }
    ensures past { D.tells → D.past disk.new ≡ D.past disk.old }
    ensures sizes { D.sizes disk.new ≡ D.sizes disk.old }
    ensures cause { HasPageOpenCause table.now (D.fault_counts disk.old) (D.fault_counts disk.new) result }
    ensures read { IsErrOf result PageOpenFault.Failed → ⊥ }
{
    // Asked for its clause `config`: that the configuration is within its limits.
    let _spaces = table.spaces();
    match read_entries(alloc, disk, table, generation) {
        Ok(entries) => judge(table, entries),
        Err(PhysFault::BadDisk { chunk, page }) => Err(PageOpenFault::BadDisk { chunk, page }),
        Err(PhysFault::DiskFault { chunk }) => Err(PageOpenFault::DiskFault { chunk }),
        Err(PhysFault::NoMemory) => Err(PageOpenFault::NoMemory),
    }
}

/// Gives the entries back, where each that counts has the image of a data page.
fn judge(table: &ChunkTable, entries: Entries) -> Result<Entries, PageOpenFault>
    requires gates { length entries.gates ≡ (physical_area table.now).count }
    ensures same { IfOk result (λ found. found ≡ entries) }
    ensures images { OnOk result (AreImages entries (length entries.numbers)) }
    ensures bad { IfErr result (λ fault. (i : ℕ) × (i < length entries.numbers) × (fault ≡ PageOpenFault.BadDisk (physical_area table.now).chunk (head_page (physical_area table.now) (slice_index entries.numbers i) + 1)) × IsNoImage (image_at entries.images i)) }
{
    match without_image(&entries) {
        None => Ok(entries),
        Some(number) => Err(bad_image(table, number)),
    }
}

/// The number of the first counting entry with bytes that are the image of no data page.
fn without_image(entries: &Entries) -> Option<u32>
    ensures all { result ≡ None → AreImages entries.now (length entries.now.numbers) }
    ensures some { IfSome result (λ number. (i : ℕ) × (i < length entries.now.numbers) × (number ≡ slice_index entries.now.numbers i) × IsNoImage (image_at entries.now.images i)) }
    ensures there { IfSome result (λ number. number < length entries.now.gates) }
{
    for index in 0..entries.count() {
        if !is_image(entries.image(index)) {
            return Some(entries.number(index));
        }
    }
    None
}

/// Whether bytes are the image of a data page.
fn is_image(bytes: &[u8; PAGE_LENGTH]) -> bool
    ensures { MatchBool result (IsImage bytes.now) (IsNoImage bytes.now) }
{
    check(bytes).is_ok()
}

/// That the image of an entry is bad.
fn bad_image(table: &ChunkTable, number: u32) -> PageOpenFault
    requires { number < (physical_area table.now).count }
    ensures { result ≡ PageOpenFault.BadDisk (physical_area table.now).chunk (head_page (physical_area table.now) number + 1) }
{
    let area = table.physical();
    let _pages = table.chunk_pages(area.chunk);
    PageOpenFault::BadDisk {
        chunk: area.chunk,
        page: area.first + 2 * number + 1,
    }
}

/// The store with these entries as added and settled ones, over a disk where each page stands at its place as at the last
/// checkpoint. `NoMemory` comes where memory was refused.
fn store_over(
    alloc: Global,
    table: &ChunkTable,
    generation: u64,
    entries: &Entries,
) -> Result<Store, PageOpenFault>
    requires { length entries.now.gates ≡ (physical_area table.now).count }
    ensures value { IfOk result (IsOpened table.now generation) }
    ensures laid { (past : Past) → Tells table.now (physical_area table.now) generation (seen past) entries.now → IsSettledIn past (in_physical table.now) → NoneLater (physical_area table.now) (seen past) generation → OnOk result (IsLaid table.now past (log_of table.now generation entries.now) entries.now.images) }
    ensures stored { (past : Past) (v : Pages) → IsFresh past table.now (log_of table.now generation entries.now) v → IfOk result (λ s. IsOnDisk past s v) }
    ensures memory { IfErr result (λ fault. fault ≡ PageOpenFault.NoMemory) }
{
    let log = match PhysLog::new(alloc, table, generation, entries) {
        Ok(log) => log,
        Err(_) => return Err(PageOpenFault::NoMemory),
    };
    let before = match Before::new(alloc, table) {
        Ok(before) => before,
        Err(_) => return Err(PageOpenFault::NoMemory),
    };
    match Store::new(alloc, table, log, before) {
        Ok(store) => Ok(store),
        Err(_) => Err(PageOpenFault::NoMemory),
    }
}
