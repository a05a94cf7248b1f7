//! The images of the physical log go to the places of their pages.

ghost use Rattle.std.specs.Prelude.{◌≡◌, ◌<◌, [], Ok, OnOk, length, true, ℕ};
ghost use Rattle.ol_values.specs.Config.{has_page};
ghost use Rattle.ol_chunks.specs.Limits.{IsConfig};
ghost use Rattle.ol_chunks.specs.Places.{is_in};
ghost use Rattle.ol_chunks.specs.Places.Part.{Data};
ghost use Rattle.ol_ports.specs.Disk.{Bytes, Rest, seen};
ghost use Rattle.ol_ports.specs.Frames.{FramedIn, ReadsOutside};
ghost use Rattle.ol_ports.specs.Stops.{Stops};
ghost use Rattle.ol_physlog.specs.Reading.{IsFound};
ghost use Rattle.ol_data_pages.specs.Places.{HasSpaceCause, HasSpaces, IsMarked, MarkSpaces, place_of, standing_bytes};
ghost use Rattle.ol_physical_restore.specs.Restores.{AreMarked, ArePut, KeepsPages, StandOverlaid, WereRead, is_place_of, is_restored};

use ol_chunks::ChunkTable;
use ol_data_pages::{CHUNKS, sync_chunks, write_page};
use ol_physlog::{Entries, Place};
use ol_ports::{Disk, Failed, PAGE_LENGTH};

/// Writes the image of each counting entry of the physical log to the place of its page, and syncs the chunks that it
/// wrote. So each data page stands at its place as it was at the last checkpoint, if it was so under its entry.
///
/// The entries stay as they are, so after a stop within the call it can be run again. Where no entry counts, nothing is
/// asked of the disk. An entry of a page that the configuration lacks is passed over; over a disk that tells its bytes none
/// counts.
///
/// `Failed` comes only where the count of faults of a chunk rose. What a stop leaves then has each page under its entry as
/// before.
pub fn restore_pages<D: Disk>(
    disk: &mut D,
    table: &ChunkTable,
    entries: &Entries,
) -> Result<(), Failed>
    requires sizes { HasSpaces table.now (D.sizes disk.old) }
    // A stop within the call or behind it leaves each page, under its counting entry, as it was.
    ensures stops { D.tells → (generation : ℕ) → WereRead table.now generation (D.past disk.old) entries.now → Stops (D.past disk.old) (D.past disk.new) (KeepsPages table.now generation (seen (D.past disk.old))) }
    // Behind it each page stands so at its place, whatever a stop leaves.
    ensures ok { D.tells → (generation : ℕ) → WereRead table.now generation (D.past disk.old) entries.now → OnOk result ((d : Bytes) → Rest (D.past disk.new) d → StandOverlaid table.now generation (seen (D.past disk.old)) d) }
    ensures frame { D.tells → Stops (D.past disk.old) (D.past disk.new) (FramedIn (D.past disk.old) (is_in table.now Data)) }
    ensures reads { D.tells → OnOk result (ReadsOutside (D.past disk.old) (D.past disk.new) (is_in table.now Data)) }
    ensures idle { entries.now.numbers ≡ [] → (disk.new ≡ disk.old) × (result ≡ Ok tt) }
    ensures sizes { D.sizes disk.new ≡ D.sizes disk.old }
    ensures cause { HasSpaceCause table.now (D.fault_counts disk.old) (D.fault_counts disk.new) result }
{
    let mut written = [false; CHUNKS];
    match put_images(disk, table, entries, &mut written) {
        Ok(()) => sync_chunks(disk, table, &mut written),
        Err(failed) => Err(failed),
    }
}

/// Writes the image of each entry to the place of its page, and marks the chunks that it writes.
fn put_images<D: Disk>(
    disk: &mut D,
    table: &ChunkTable,
    entries: &Entries,
    written: &mut [bool; CHUNKS],
) -> Result<(), Failed>
    requires sizes { HasSpaces table.now (D.sizes disk.old) }
    requires marks { MarkSpaces table.now written.old }
    ensures config { IsConfig table.now }
    ensures found { IsFound entries.now }
    ensures stops { D.tells → Stops (D.past disk.old) (D.past disk.new) (FramedIn (D.past disk.old) (is_restored table.now entries.now)) }
    ensures put { D.tells → OnOk result (ArePut table.now entries.now (length entries.now.numbers) (seen (D.past disk.new))) }
    ensures reads { D.tells → OnOk result (ReadsOutside (D.past disk.old) (D.past disk.new) (is_restored table.now entries.now)) }
    ensures marks { MarkSpaces table.now written.new }
    ensures marked { OnOk result (AreMarked table.now entries.now (length entries.now.numbers) written.new) }
    ensures idle { entries.now.numbers ≡ [] → (disk.new ≡ disk.old) × (written.new ≡ written.old) × (result ≡ Ok tt) }
    ensures sizes { D.sizes disk.new ≡ D.sizes disk.old }
    ensures cause { HasSpaceCause table.now (D.fault_counts disk.old) (D.fault_counts disk.new) result }
{
    // Asked for its clause `config`: that the configuration is within its limits.
    let _spaces = table.spaces();
    for index in 0..entries.count() {
        match restore_page(
            disk,
            table,
            entries.place(index),
            entries.image(index),
            written,
        ) {
            Ok(()) => {}
            Err(failed) => return Err(failed),
        }
    }
    Ok(())
}

/// Writes an image to the place of its page, and marks the chunk. A page that the configuration lacks is passed over.
fn restore_page<D: Disk>(
    disk: &mut D,
    table: &ChunkTable,
    place: Place,
    image: &[u8; PAGE_LENGTH],
    written: &mut [bool; CHUNKS],
) -> Result<(), Failed>
    requires sizes { HasSpaces table.now (D.sizes disk.old) }
    ensures stops { D.tells → Stops (D.past disk.old) (D.past disk.new) (FramedIn (D.past disk.old) (is_place_of table.now place)) }
    ensures put { D.tells → has_page table.now place.space place.page ≡ true → OnOk result (standing_bytes table.now (seen (D.past disk.new)) place.space place.page ≡ image.now) }
    ensures reads { D.tells → OnOk result (ReadsOutside (D.past disk.old) (D.past disk.new) (is_place_of table.now place)) }
    ensures marks { MarkSpaces table.now written.old → MarkSpaces table.now written.new }
    ensures marked { has_page table.now place.space place.page ≡ true → IsMarked written.new (place_of table.now place.space place.page).0 }
    ensures kept { (chunk : ℕ) → IsMarked written.old chunk → IsMarked written.new chunk }
    ensures sizes { D.sizes disk.new ≡ D.sizes disk.old }
    ensures cause { HasSpaceCause table.now (D.fault_counts disk.old) (D.fault_counts disk.new) result }
{
    let Some((chunk, _)) = table.place(place.space, place.page) else {
        return Ok(());
    };
    written[usize::from(chunk)] = true;
    write_page(disk, table, place.space, place.page, image)
}
