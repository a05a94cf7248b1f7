//! The anchor, the log and the pages of a disk, read in this order, and the storage on them.

ghost use Rattle.std.specs.Prelude.{◌≡◌, IfErr, IfOk, IsErrOf, OnErr, ℕ, Some};
ghost use Rattle.ol_values.specs.Config.{Config, config_text};
ghost use Rattle.ol_anchor_opening.specs.Opening.{IsNewestRead};
ghost use Rattle.ol_chunks.specs.Limits.{IsConfig};
ghost use Rattle.ol_chunks.specs.Places.{is_in};
ghost use Rattle.ol_chunks.specs.Places.Part.{Data};
ghost use Rattle.ol_ports.specs.Disk.{seen};
ghost use Rattle.ol_ports.specs.Frames.{FramedIn, IsQuiet};
ghost use Rattle.ol_ports.specs.Stops.{Stops};
ghost use Rattle.ol_reserve.specs.Pair.{Newest, there};
ghost use Rattle.ol_reserve.specs.declared.anchor.Anchor.{Anchor as AnchorValue};
ghost use Rattle.ol_storage.specs.Behind.{Behind};
ghost use Rattle.ol_storage.specs.Standing.{Stands};
ghost use Rattle.ol_opening.specs.Faults.{HasOpenCause, IsFaultOf, IsRefusedFor, MayRefuse};
ghost use Rattle.ol_opening.specs.Opening.{IsLeft, IsOpenedOn, IsSound, IsStoredOf, answer_of, begun, begun_of, disk_behind};

use crate::fault::{OpenFault, of_anchor, of_log, of_pages};
use ol_anchor_opening::read_anchor;
use ol_log_opening::read_log;
use ol_loglog::LogRing;
use ol_page_opening::read_pages;
use ol_ports::Disk;
use ol_reserve::Anchor;
use ol_storage::Storage;
use ol_store::Store;
use std::alloc::Global;

/// How an anchor without an incarnation or a unique number is told: as the first page of its pair.
const UNNUMBERED: OpenFault = OpenFault::BadDisk { chunk: 0, page: 0 };

/// What is read of a disk.
struct Parts {
    anchor: Anchor,
    ring: LogRing,
    store: Store,
}

/// Opens a disk: reads its newest anchor, its log and its physical log, puts the images of the physical log to their places, and
/// gives the storage that stands on it, with the pages as at the checkpoint. Nothing is written before all is read.
///
/// - `NotReady` comes where neither page of the anchor pair is open, or the newest anchor is of an installation that is being
///   restored.
/// - `TooSmall` names the first chunk, the temporary one last, that has fewer pages than the configuration says.
/// - `BadDisk` names a page of the anchor pair, the log or the physical log that is refused. An anchor with incarnation or unique
///   number 0, which no installation writes, is told as page 0 of chunk 0.
/// - `DiskFault` comes only where a read failed and the count of faults of its chunk rose.
/// - `Failed` comes only where a write or a sync of data pages failed and the count of faults of a chunk rose. The disk may be
///   opened again. All other refusals leave the disk as it was.
/// - `NoMemory` comes where memory was refused.
pub fn open_storage<D: Disk>(alloc: Global, disk: D) -> Result<Storage<D>, (D, OpenFault)>
    ensures opened { IfOk (answer_of result) (IsOpenedOn (D.sizes disk)) }
    ensures newest { D.tells → IfOk (answer_of result) (λ v. IsNewestRead (there (D.sizes disk) (seen (D.past disk))) (seen (D.past disk)) v.anchor) }
    ensures stored { D.tells → IsQuiet (D.past disk) → (c : Config) (g : Behind) (a : AnchorValue) → IsLeft c g a (seen (D.past disk)) → IfOk (answer_of result) (IsStoredOf c a (D.past (disk_behind result)) g) }
    ensures stops { D.tells → IsQuiet (D.past disk) → (c : Config) (g : Behind) (a : AnchorValue) (last : ℕ) → IsConfig c → Stands c g a last (seen (D.past disk)) → Stops (D.past disk) (D.past (disk_behind result)) (Stands c g a last) }
    ensures frame { D.tells → (c : Config) (a : AnchorValue) → IsConfig c → Newest (seen (D.past disk)) (Some a) → a.text ≡ config_text c → Stops (D.past disk) (D.past (disk_behind result)) (FramedIn (D.past disk) (is_in c Data)) }
    ensures why { D.tells → IfErr (answer_of result) (IsRefusedFor (D.sizes disk) (seen (D.past disk))) }
    ensures small { IfErr (answer_of result) (IsFaultOf (D.sizes disk)) }
    ensures whole { D.tells → IsQuiet (D.past disk) → (c : Config) (g : Behind) (a : AnchorValue) → IsSound (D.sizes disk) c g a (seen (D.past disk)) → IfErr (answer_of result) (MayRefuse c) }
    ensures unwritten { D.tells → (IsErrOf (answer_of result) OpenFault.Failed → ⊥) → OnErr (answer_of result) (D.past (disk_behind result) ≡ D.past disk) }
    ensures sizes { D.sizes (disk_behind result) ≡ D.sizes disk }
    ensures cause { HasOpenCause (D.fault_counts disk) (D.fault_counts (disk_behind result)) (answer_of result) }
{
    let mut disk = disk;
    match read_parts(alloc, &mut disk) {
        Ok(parts) => Ok(storage_of(disk, parts)),
        Err(fault) => Err((disk, fault)),
    }
}

/// The storage of the parts that were read of a disk.
fn storage_of<D: Disk>(disk: D, parts: Parts) -> Storage<D>
    requires opened { IsOpenedOn (D.sizes disk) (begun parts) }
    requires fresh { parts.store.flushed ≡ 0 }
    ensures disk { result.disk ≡ disk }
    ensures now { result.now ≡ begun parts }
{
    let Parts {
        anchor,
        ring,
        mut store,
    } = parts;
    store.flushed_to(ring.next_position() - 1);
    let position = anchor.position;
    Storage::new(disk, ring, store, anchor, position)
}

/// Reads the parts of a disk, and puts its pages back to the checkpoint.
fn read_parts<D: Disk>(alloc: Global, disk: &mut D) -> Result<Parts, OpenFault>
    ensures opened { IfOk (begun_of result) (IsOpenedOn (D.sizes disk.old)) }
    ensures fresh { IfOk result (λ p. p.store.flushed ≡ 0) }
    ensures newest { D.tells → IfOk (begun_of result) (λ v. IsNewestRead (there (D.sizes disk.old) (seen (D.past disk.old))) (seen (D.past disk.old)) v.anchor) }
    ensures stored { D.tells → IsQuiet (D.past disk.old) → (c : Config) (g : Behind) (a : AnchorValue) → IsLeft c g a (seen (D.past disk.old)) → IfOk (begun_of result) (IsStoredOf c a (D.past disk.new) g) }
    ensures stops { D.tells → IsQuiet (D.past disk.old) → (c : Config) (g : Behind) (a : AnchorValue) (last : ℕ) → IsConfig c → Stands c g a last (seen (D.past disk.old)) → Stops (D.past disk.old) (D.past disk.new) (Stands c g a last) }
    ensures frame { D.tells → (c : Config) (a : AnchorValue) → IsConfig c → Newest (seen (D.past disk.old)) (Some a) → a.text ≡ config_text c → Stops (D.past disk.old) (D.past disk.new) (FramedIn (D.past disk.old) (is_in c Data)) }
    ensures why { D.tells → IfErr (begun_of result) (IsRefusedFor (D.sizes disk.old) (seen (D.past disk.old))) }
    ensures small { IfErr (begun_of result) (IsFaultOf (D.sizes disk.old)) }
    ensures whole { D.tells → IsQuiet (D.past disk.old) → (c : Config) (g : Behind) (a : AnchorValue) → IsSound (D.sizes disk.old) c g a (seen (D.past disk.old)) → IfErr (begun_of result) (MayRefuse c) }
    ensures unwritten { D.tells → (IsErrOf (begun_of result) OpenFault.Failed → ⊥) → OnErr (begun_of result) (D.past disk.new ≡ D.past disk.old) }
    ensures sizes { D.sizes disk.new ≡ D.sizes disk.old }
    ensures cause { HasOpenCause (D.fault_counts disk.old) (D.fault_counts disk.new) (begun_of result) }
{
    let (anchor, table) = match read_anchor(disk) {
        Ok(read) => read,
        Err(fault) => return Err(of_anchor(fault)),
    };
    if anchor.incarnation == 0 || anchor.uniq == 0 {
        return Err(UNNUMBERED);
    }
    let ring = match read_log(alloc, disk, &table, &anchor) {
        Ok(ring) => ring,
        Err(fault) => return Err(of_log(fault)),
    };
    match read_pages(alloc, disk, &table, anchor.generation) {
        Ok(store) => Ok(Parts {
            anchor,
            ring,
            store,
        }),
        Err(fault) => Err(of_pages(fault)),
    }
}
