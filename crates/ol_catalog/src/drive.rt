//! The complete objects of one drive.

ghost use Rattle.std.specs.Prelude.{◌≡◌, ◌<◌, IfOk, IsErrOf, OnOk, map, option_map};
ghost use Rattle.ol_rules.specs.Shelf.{objects_of};
ghost use Rattle.ol_object_spans.specs.declared.place.Place.{Place as PlaceValue};
ghost use Rattle.ol_object_spans.specs.Objects.{object_told, place_told};
ghost use Rattle.ol_object_spans.specs.Scans.{first_outside};
ghost use Rattle.ol_shelf_reader.specs.Steps.{Steps};
ghost use Rattle.ol_catalog.specs.Streams.{HasFaults, IsFed, drive_blocks};

use crate::CatalogFault;
use ol_block_values::read_block;
use ol_object::PAYLOAD_LENGTH;
use ol_object_spans::{Object, Place, StreamScan};
use ol_ports::{BLOCK_LENGTH, DRIVES, Shelf};
use ol_shelf_reader::Reader;
use std::alloc::Global;

/// The complete objects and marks of a drive in order of place, and the place of its first block that is none and that no
/// object covers. It reads each block once, and computes one digest for each.
///
/// `ShelfFault` comes only where the shelf's count of faults rose, and `NoMemory` where memory was refused. No `DamagedVolume`
/// comes.
pub(crate) fn read_drive<F: Shelf>(
    alloc: Global,
    shelf: &mut F,
    drive: u8,
) -> Result<(Vec<Object>, Option<Place>), CatalogFault>
    requires { drive < DRIVES }
    ensures objects { F.tells → IfOk result (λ found. found.0.items ≡ map object_told (objects_of (drive_blocks (F.tapes shelf.old) drive))) }
    ensures outside { F.tells → IfOk result (λ found. found.1 ≡ option_map place_told (first_outside (drive_blocks (F.tapes shelf.old) drive))) }
    ensures shape { F.shape shelf.new ≡ F.shape shelf.old }
    ensures tapes { F.tells → F.tapes shelf.new ≡ F.tapes shelf.old }
    ensures given { (p : PlaceValue) → IsErrOf result (CatalogFault.DamagedVolume p) → ⊥ }
    ensures cause { HasFaults (F.fault_count shelf.old) (F.fault_count shelf.new) result }
{
    let mut reader = Reader::new(drive);
    let mut scan = StreamScan::new(alloc);
    while feed_next(alloc, shelf, drive, &mut reader, &mut scan)? {}
    Ok(scan.finish())
}

/// Feeds the scan with the drive's next block, if there is one; false at the end of the drive.
fn feed_next<F: Shelf>(
    alloc: Global,
    shelf: &mut F,
    drive: u8,
    reader: &mut Reader,
    scan: &mut StreamScan,
) -> Result<bool, CatalogFault>
    requires number { drive < DRIVES }
    requires drive { reader.old.drive ≡ drive }
    ensures step { IfOk result (Steps (F.shape shelf.old) reader.old reader.new) }
    ensures fed { F.tells → IsFed (F.tapes shelf.old) reader.old scan.old → OnOk result (IsFed (F.tapes shelf.old) reader.new scan.new) }
    ensures drive { reader.new.drive ≡ reader.old.drive }
    ensures shape { F.shape shelf.new ≡ F.shape shelf.old }
    ensures tapes { F.tells → F.tapes shelf.new ≡ F.tapes shelf.old }
    ensures given { (p : PlaceValue) → IsErrOf result (CatalogFault.DamagedVolume p) → ⊥ }
    ensures cause { HasFaults (F.fault_count shelf.old) (F.fault_count shelf.new) result }
{
    let mut bytes = [0; BLOCK_LENGTH];
    let mut payload = [0; PAYLOAD_LENGTH];
    if !reader.next(shelf, &mut bytes)? {
        return Ok(false);
    }
    let item = read_block(alloc, &bytes, &mut payload)?;
    let (volume, block) = reader.place();
    let place = Place {
        drive,
        volume,
        block,
    };
    scan.feed(place, item)?;
    Ok(true)
}
