//! The images of running archives beside a row that changes.

ghost use Rattle.std.specs.Prelude.{◌≡◌, ◌≤◌, ◌<◌, ◌^◌, ◌⊎◌, IfErr, IfOk, IsErrOf, List, None, Ok, OnErr, OnOk, Option, Some, false, length, slice_index_or, true, ℕ};
ghost use Rattle.ol_values.specs.declared.record.Record.{Record as RecordValue};
ghost use Rattle.ol_values.specs.Config.{has_page, has_place};
ghost use Rattle.ol_values.specs.Image.{page_bytes};
ghost use Rattle.ol_values.specs.LogPages.{log_room, record_length};
ghost use Rattle.ol_values.specs.Spelling.{KeepsRules};
ghost use Rattle.ol_rules.specs.Start.{page_behind};
ghost use Rattle.ol_model.specs.Machine.{Machine, stamp_in};
ghost use Rattle.ol_model.specs.Steps.{append, change_row as row_changed};
ghost use Rattle.ol_before.specs.Images.{Captures, image_of, without};
ghost use Rattle.ol_pool.specs.Frames.{frame_of};
ghost use Rattle.ol_ports.specs.Stops.{Stops};
ghost use Rattle.ol_running.specs.declared.running.Running.{Running as RunningValue};
ghost use Rattle.ol_running.specs.Running.{ChangesOnly, ShowsArchives, keeps_of};
ghost use Rattle.ol_storage.specs.Behind.{Behind, Moves, is_up, pages_of};
ghost use Rattle.ol_storage.specs.Causes.{HasStorageCause};
ghost use Rattle.ol_storage.specs.Installation.{config_of, with_store};
ghost use Rattle.ol_storage.specs.Storing.{IsStored};
ghost use Rattle.ol_store.specs.Stores.{CanCapture, image_with, with_before};
ghost use Rattle.ol_turn_laws.specs.Room.{Regular};
ghost use Rattle.ol_txn.specs.Seats.{Seat};
ghost use Rattle.ol_engine.specs.Parts.{GoesOn, HasRisen, HasTurns, MayFollow, MayRise, Registers, Shows, ShowsStorage, anchor_made, behind_of, free_of};
ghost use Rattle.ol_engine.specs.Turns.{StandsWithinEither};
ghost use Rattle.ol_row_turns.specs.Turns.{SameCursors};
ghost use Rattle.ol_row_turns.specs.Images.{archives_behind, images_asked, images_behind, images_dropped, keeper};

use ol_captures::drop_images_of;
use ol_engine::change_row;
use ol_ports::Disk;
use ol_running::Running;
use ol_storage::{Storage, StorageFault};
use ol_store::Store;
use ol_txn::Locks;
use ol_values::{Record, Rid, Row};

/// The archives of the four archivers.
pub type Archives = [Option<Running>; 4];

/// What a change of a page does to the images that are kept for archives.
#[derive(Clone, Copy, Debug, PartialEq, Eq)]
pub enum Images {
    /// No archive wants the page's image.
    Stay,
    /// One wants it, and there is memory and place for it.
    Capture,
    /// One wants it, and as many are held as may be: the archive at this place is broken.
    Break { place: usize },
}

// Whether an archive wants the image of a page, which has this stamp now.
fn keeps(running: &Option<Running>, space: u8, page: u16, stamp: u64) -> bool
    ensures { result ≡ keeps_of running.now space page stamp }
{
    match running {
        Some(running) => running.keeps_image(space, page, stamp),
        None => false,
    }
}

// The place of the first archive that does.
fn keeper(archives: &Archives, space: u8, page: u16, stamp: u64) -> Option<usize>
    ensures value { result ≡ keeper archives.now space page stamp }
    ensures there { (place : ℕ) → result ≡ Some place → place < 4 }
{
    archives
        .iter()
        .position(|running| keeps(running, space, page, stamp))
}

// What a change of a page does, beside these images that are held.
fn images_beside(pages: &Store, archives: &Archives, rid: Rid, stamp: u64) -> Images
    ensures value { result ≡ images_asked archives.now pages.now.before rid.space rid.page stamp }
    ensures there { (place : ℕ) → result ≡ Images.Break place → place < 4 }
{
    match keeper(archives, rid.space, rid.page, stamp) {
        None => Images::Stay,
        // It can't be held where the archives and the images tell of one state.
        Some(_) if pages.held(rid.space, rid.page) => Images::Stay,
        Some(_) if pages.can_capture() => Images::Capture,
        Some(place) => Images::Break { place },
    }
}

/// What a change of a page that is in memory does to the images that are kept for archives; memory is made for one that is captured.
///
/// `NoMemory` comes only where memory for an image was refused; `Failed` only where the count of faults of a chunk rose.
pub fn ask_images<D: Disk>(
    storage: &mut Storage<D>,
    archives: &Archives,
    rid: Rid,
) -> Result<Images, StorageFault>
    requires going { storage.old.now.stopped ≡ false }
    requires place { has_place (config_of storage.old.now) rid ≡ true }
    requires up { is_up storage.old.now.anchor rid.space ≡ true }
    requires frame { (bytes : List ℕ) × (frame_of storage.old.now.store.pool rid.space rid.page ≡ Some bytes) }
    ensures value { D.tells → (g : Behind) → IsStored (D.past storage.old.disk) storage.old.now g → IfOk result (λ images. images ≡ images_asked archives.now storage.old.now.store.before rid.space rid.page ((pages_of storage.old.now.anchor g).now rid.space rid.page).stamp) }
    ensures step { (IsErrOf result StorageFault.Failed → ⊥) → storage.new.now ≡ with_store storage.old.now storage.new.now.store }
    ensures log { (IsErrOf result StorageFault.Failed → ⊥) → storage.new.now.store.log ≡ storage.old.now.store.log }
    ensures held { (IsErrOf result StorageFault.Failed → ⊥) → storage.new.now.store.before.held ≡ storage.old.now.store.before.held }
    ensures limit { (IsErrOf result StorageFault.Failed → ⊥) → storage.new.now.store.before.limit ≡ storage.old.now.store.before.limit }
    ensures frame { OnOk result ((bytes : List ℕ) × (frame_of storage.new.now.store.pool rid.space rid.page ≡ Some bytes)) }
    ensures capture { result ≡ Ok Images.Capture → CanCapture storage.new.now.store.before rid.space rid.page }
    ensures broken { (place : ℕ) → result ≡ Ok (Images.Break place) → place < 4 }
    ensures past { D.tells → D.past storage.new.disk ≡ D.past storage.old.disk }
    ensures stored { D.tells → (g : Behind) → IsStored (D.past storage.old.disk) storage.old.now g → (IsErrOf result StorageFault.Failed → ⊥) → IsStored (D.past storage.new.disk) storage.new.now g }
    ensures stopped { IsErrOf result StorageFault.Failed → storage.new.now.stopped ≡ true }
    ensures only { IfErr result (λ fault. (fault ≡ StorageFault.Failed) ⊎ (fault ≡ StorageFault.NoMemory)) }
    ensures cause { HasStorageCause (config_of storage.old.now) (D.fault_counts storage.old.disk) (D.fault_counts storage.new.disk) result }
{
    let stamp = match storage.stamp(rid.space, rid.page) {
        Ok(stamp) => stamp,
        Err(fault) => return Err(fault),
    };
    let images = images_beside(storage.pages(), archives, rid, stamp);
    if images == Images::Capture && storage.make_room().is_err() {
        return Err(StorageFault::NoMemory);
    }
    Ok(images)
}

// Breaks the archive at a place by an entry, if one is there, and drops its images.
fn break_archive<D: Disk>(
    storage: &mut Storage<D>,
    archives: &mut Archives,
    place: usize,
    entry: u64,
)
    requires { place < 4 }
    ensures archives { archives.new ≡ archives_behind (Images.Break place) entry archives.old }
    ensures step { storage.new.now ≡ with_store storage.old.now (with_before storage.old.now.store (images_dropped (slice_index_or archives.old place None) storage.old.now.store.before)) }
    ensures disk { storage.new.disk ≡ storage.old.disk }
    ensures stored { D.tells → (g : Behind) → IsStored (D.past storage.old.disk) storage.old.now g → IsStored (D.past storage.new.disk) storage.new.now g }
{
    if let Some(running) = &mut archives[place] {
        running.break_by(entry);
        drop_images_of(storage, &running.cursor);
    }
}

/// Changes a row of a page that is in memory, by its record, as `ol_engine::change_row` does, and does to the images of archives what was
/// asked: the page's image as it is now is captured, or the archive at a place is broken by this entry, and its images are dropped.
///
/// `Failed` comes only where the count of faults of a chunk rose, and is the only refusal.
pub fn change_with_images<D: Disk>(
    storage: &mut Storage<D>,
    locks: &Locks,
    archives: &mut Archives,
    entry: u64,
    rec: &Record,
    rid: Rid,
    row: Option<Row>,
    images: Images,
) -> Result<(), StorageFault>
    requires going { storage.old.now.stopped ≡ false }
    requires turns { (opened : ℕ) × HasTurns opened storage.old.now locks.now }
    requires rise { MayRise 2 storage.old.now }
    requires rules { KeepsRules rec.now }
    requires small { record_length rec.now ≤ log_room }
    requires free { 1 ≤ free_of storage.old.now }
    requires low { storage.old.now.ring.state.next < 2 ^ 62 }
    requires moves { Moves rec.now rid row }
    requires place { has_place (config_of storage.old.now) rid ≡ true }
    requires up { is_up storage.old.now.anchor rid.space ≡ true }
    requires frame { (bytes : List ℕ) × (frame_of storage.old.now.store.pool rid.space rid.page ≡ Some bytes) }
    requires capture { images ≡ Images.Capture → CanCapture storage.old.now.store.before rid.space rid.page }
    requires broken { (at : ℕ) → images ≡ Images.Break at → at < 4 }
    ensures shows { (opened n : ℕ) (m : Machine) (registers : Registers) → Shows opened storage.old.now locks.now registers m → Regular m → OnOk result (ShowsStorage storage.new.now (row_changed n rid rec.now m)) }
    ensures turns { (opened : ℕ) (now : List Seat) → HasTurns opened storage.old.now locks.now → MayFollow opened storage.old.now locks.now now → OnOk result (HasTurns opened storage.new.now now) }
    ensures risen { OnOk result (HasRisen 2 storage.old.now storage.new.now) }
    ensures goes { OnOk result (GoesOn storage.old.now storage.new.now) }
    ensures cursors { SameCursors archives.old archives.new }
    ensures archives { OnOk result (archives.new ≡ archives_behind images entry archives.old) }
    ensures images { D.tells → (opened : ℕ) (m : Machine) (registers : Registers) (before : ℕ → RecordValue) → Shows opened storage.old.now locks.now registers m → Regular m → IsStored (D.past storage.old.disk) storage.old.now (behind_of before m)
        → OnOk result (storage.new.now.store.before ≡ images_behind images (image_with rid.space rid.page (page_bytes (page_behind m.work.start m.work.records rid.space rid.page))) archives.old storage.old.now.store.before) }
    ensures stops { D.tells → (opened : ℕ) (m : Machine) (registers : Registers) (before : ℕ → RecordValue) → Shows opened storage.old.now locks.now registers m → Regular m → IsStored (D.past storage.old.disk) storage.old.now (behind_of before m)
        → Stops (D.past storage.old.disk) (D.past storage.new.disk) (StandsWithinEither storage.old.now (anchor_made storage.old.now locks.now) before (append rec.now m)) }
    ensures stored { D.tells → (opened : ℕ) (m : Machine) (registers : Registers) (before : ℕ → RecordValue) → Shows opened storage.old.now locks.now registers m → Regular m → IsStored (D.past storage.old.disk) storage.old.now (behind_of before m)
        → OnOk result (IsStored (D.past storage.new.disk) storage.new.now (behind_of before (append rec.now m))) }
    ensures stopped { OnErr result (storage.new.now.stopped ≡ true) }
    ensures only { IfErr result (λ fault. fault ≡ StorageFault.Failed) }
    ensures cause { HasStorageCause (config_of storage.old.now) (D.fault_counts storage.old.disk) (D.fault_counts storage.new.disk) result }
{
    match change_row(storage, locks, rec, rid, row, images == Images::Capture) {
        Ok(()) => {}
        Err(fault) => return Err(fault),
    }
    match images {
        Images::Stay => {}
        Images::Capture => {}
        Images::Break { place } => break_archive(storage, archives, place, entry),
    }
    Ok(())
}
