//! The complete objects of a shelf.

ghost use Rattle.std.specs.Prelude.{◌≡◌, ◌<◌, ◌∷◌, [], IfOk, IsErrOf, None, OnOk, Some, filter, map, option_map, ℕ};
ghost use Rattle.ol_rules.specs.Plan.{bad_outside};
ghost use Rattle.ol_rules.specs.Shelf.{objects};
ghost use Rattle.ol_object_spans.specs.declared.place.Place.{Place as PlaceValue};
ghost use Rattle.ol_object_spans.specs.Objects.{object_told, place_told};
ghost use Rattle.ol_catalog.specs.Streams.{HasFaults, shelf_value};
ghost use Rattle.ol_catalog.specs.Written.{Archived, IsArchived, IsOnDrive, archive_told, is_of_drive};

use crate::CatalogFault;
use crate::drive::read_drive;
use ol_object_spans::Object;
use ol_ports::{DRIVES, Shelf};
use std::alloc::Global;

/// The complete objects and marks of a shelf in order of place, each with its first bad block. It reads each block once, and
/// keeps what volumes, headers and objects need, but no block.
///
/// `ShelfFault` comes only where the shelf's count of faults rose, and ends the reading. `DamagedVolume` names the first place
/// of all whose bytes are no block and that no object covers; it comes after all drives were read. `NoMemory` comes only where
/// memory was refused, or behind 2^64 - 1 blocks of a drive.
///
/// Where the blocks of a drive are those of an archive as the archiver writes it, over however many volumes, the objects of
/// that drive are one, whole and without a bad block, whatever stands on the other drives; and no block of that drive is named
/// as damaged.
pub fn read<F: Shelf>(alloc: Global, shelf: &mut F) -> Result<Vec<Object>, CatalogFault>
    ensures objects { F.tells → IfOk result (λ v. v.items ≡ map object_told (objects (shelf_value (F.tapes shelf.old)))) }
    ensures whole { F.tells → OnOk result (bad_outside (shelf_value (F.tapes shelf.old)) ≡ None) }
    ensures damaged { F.tells → (p : PlaceValue) → IsErrOf result (CatalogFault.DamagedVolume p) → option_map place_told (bad_outside (shelf_value (F.tapes shelf.old))) ≡ Some p }
    ensures archive { F.tells → (drive : ℕ) (x : Archived) → drive < 5 → IsArchived x → IsOnDrive (F.tapes shelf.old) drive x
        → IfOk result (λ v. filter (is_of_drive drive) v.items ≡ archive_told (F.tapes shelf.old) drive x ∷ []) }
    ensures spared { F.tells → (drive : ℕ) (x : Archived) → IsArchived x → IsOnDrive (F.tapes shelf.old) drive x → (p : PlaceValue) → IsErrOf result (CatalogFault.DamagedVolume p) → p.drive ≡ drive → ⊥ }
    ensures shape { F.shape shelf.new ≡ F.shape shelf.old }
    ensures tapes { F.tells → F.tapes shelf.new ≡ F.tapes shelf.old }
    ensures cause { HasFaults (F.fault_count shelf.old) (F.fault_count shelf.new) result }
{
    let mut all = Vec::new(alloc);
    let mut outside = None;
    for drive in 0..DRIVES {
        let (mut objects, first) = read_drive(alloc, shelf, drive)?;
        all.append(&mut objects)?;
        outside = outside.or(first);
    }
    match outside {
        Some(place) => Err(CatalogFault::DamagedVolume(place)),
        None => Ok(all),
    }
}
