//! A row that changes, with its record.

ghost use Rattle.std.specs.Bool.{OnFalse, OnTrue};
ghost use Rattle.std.specs.Prelude.{◌≡◌, ◌≤◌, ◌<◌, ◌^◌, IfErr, List, OnErr, OnOk, Some, false, true, ℕ};
ghost use Rattle.ol_values.specs.declared.record.Record.{Record as RecordValue};
ghost use Rattle.ol_values.specs.Config.{has_place};
ghost use Rattle.ol_values.specs.Image.{page_bytes};
ghost use Rattle.ol_values.specs.LogPages.{log_room, record_length};
ghost use Rattle.ol_values.specs.Spelling.{KeepsRules};
ghost use Rattle.ol_rules.specs.Start.{page_behind};
ghost use Rattle.ol_model.specs.Machine.{Machine};
ghost use Rattle.ol_model.specs.Steps.{append, change_row as row_changed};
ghost use Rattle.ol_before.specs.Images.{captured};
ghost use Rattle.ol_pool.specs.Frames.{frame_of};
ghost use Rattle.ol_storage.specs.Behind.{Moves, is_up};
ghost use Rattle.ol_ports.specs.Stops.{Stops};
ghost use Rattle.ol_storage.specs.Causes.{HasStorageCause};
ghost use Rattle.ol_storage.specs.Installation.{config_of};
ghost use Rattle.ol_storage.specs.Storing.{IsStored};
ghost use Rattle.ol_store.specs.Stores.{CanCapture, IsStore, image_with};
ghost use Rattle.ol_turn_laws.specs.Room.{Regular};
ghost use Rattle.ol_txn.specs.Seats.{Seat};
ghost use Rattle.ol_engine.specs.Parts.{GoesOn, HasEntry, HasNoEntry, HasRisen, HasTurns, IsBeside, IsEither, MayFollow, MayRise, Registers, Shows, ShowsStorage, anchor_made, behind_of, free_of, ready_for};
ghost use Rattle.ol_engine.specs.Turns.{StandsWithinEither};

use crate::checkpoint::make_checkpoint;
use ol_ports::Disk;
use ol_storage::{Storage, StorageFault};
use ol_store::Store;
use ol_txn::Locks;
use ol_values::{Record, Rid, Row};

/// Sees to it that a page has an entry of the physical log, or that one is unused: where neither is so a checkpoint is made, which
/// empties them all.
///
/// `Failed` comes only where the count of faults of a chunk rose, and is the only refusal.
pub fn make_entry<D: Disk>(
    storage: &mut Storage<D>,
    locks: &Locks,
    space: u8,
    page: u16,
) -> Result<(), StorageFault>
    requires going { storage.old.now.stopped ≡ false }
    requires turns { (opened : ℕ) × HasTurns opened storage.old.now locks.now }
    requires rise { MayRise 1 storage.old.now }
    ensures entry { OnOk result (HasEntry storage.new.now.store space page) }
    ensures beside { OnOk result (IsBeside storage.old.now storage.new.now) }
    ensures anchor { OnOk result (IsEither storage.old.now locks.now storage.new.now.anchor) }
    ensures going { OnOk result (storage.new.now.stopped ≡ false) }
    ensures shows { (opened : ℕ) (m : Machine) (registers : Registers) → Shows opened storage.old.now locks.now registers m → Regular m → OnOk result (Shows opened storage.new.now locks.now registers (ready_for (space, page) m)) }
    ensures turns { (opened : ℕ) → HasTurns opened storage.old.now locks.now → OnOk result (HasTurns opened storage.new.now locks.now) }
    ensures risen { OnOk result (HasRisen 1 storage.old.now storage.new.now) }
    ensures stops { D.tells → (opened : ℕ) (m : Machine) (registers : Registers) (before : ℕ → RecordValue) → Shows opened storage.old.now locks.now registers m → Regular m → IsStored (D.past storage.old.disk) storage.old.now (behind_of before m)
        → Stops (D.past storage.old.disk) (D.past storage.new.disk) (StandsWithinEither storage.old.now (anchor_made storage.old.now locks.now) before m) }
    ensures stored { D.tells → (opened : ℕ) (m : Machine) (registers : Registers) (before : ℕ → RecordValue) → Shows opened storage.old.now locks.now registers m → Regular m → IsStored (D.past storage.old.disk) storage.old.now (behind_of before m)
        → OnOk result (IsStored (D.past storage.new.disk) storage.new.now (behind_of before m)) }
    ensures stopped { OnErr result (storage.new.now.stopped ≡ true) }
    ensures only { IfErr result (λ fault. fault ≡ StorageFault.Failed) }
    ensures cause { HasStorageCause (config_of storage.old.now) (D.fault_counts storage.old.disk) (D.fault_counts storage.new.disk) result }
{
    // It tells what a stop leaves where nothing is asked of the disk.
    let _stands = storage.is_stopped();
    if may_touch(storage.pages(), space, page) {
        return Ok(());
    }
    make_checkpoint(storage, locks)
}

// Whether a page has an entry, or one is unused.
fn may_touch(pages: &Store, space: u8, page: u16) -> bool
    ensures there { OnTrue result (HasEntry pages.now space page) }
    ensures none { OnFalse result (HasNoEntry pages.now space page) }
    ensures store { IsStore pages.now }
{
    pages.touched(space, page) || pages.spare() > 0
}

/// Changes a row of a page that is in memory, by its record; where the page has no entry of the physical log and none is unused, a
/// checkpoint is made first. With `capture` the page's image is kept for archives, in memory that was made for it.
///
/// `Failed` comes only where the count of faults of a chunk rose, and is the only refusal.
pub fn change_row<D: Disk>(
    storage: &mut Storage<D>,
    locks: &Locks,
    rec: &Record,
    rid: Rid,
    row: Option<Row>,
    capture: bool,
) -> Result<(), StorageFault>
    requires going { storage.old.now.stopped ≡ false }
    requires turns { (opened : ℕ) × HasTurns opened storage.old.now locks.now }
    requires rise { MayRise 2 storage.old.now }
    requires rules { KeepsRules rec.now }
    requires small { record_length rec.now ≤ log_room }
    requires free { 1 ≤ free_of storage.old.now }
    requires low { storage.old.now.ring.state.next < 2 ^ 62 }
    requires moves { Moves rec.now rid row }
    requires place { has_place (config_of storage.old.now) rid ≡ true }
    requires up { is_up storage.old.now.anchor rid.space ≡ true }
    requires frame { (bytes : List ℕ) × (frame_of storage.old.now.store.pool rid.space rid.page ≡ Some bytes) }
    requires capture { capture ≡ true → CanCapture storage.old.now.store.before rid.space rid.page }
    ensures shows { (opened n : ℕ) (m : Machine) (registers : Registers) → Shows opened storage.old.now locks.now registers m → Regular m → OnOk result (ShowsStorage storage.new.now (row_changed n rid rec.now m)) }
    ensures turns { (opened : ℕ) (now : List Seat) → HasTurns opened storage.old.now locks.now → MayFollow opened storage.old.now locks.now now → OnOk result (HasTurns opened storage.new.now now) }
    ensures risen { OnOk result (HasRisen 2 storage.old.now storage.new.now) }
    ensures goes { OnOk result (GoesOn storage.old.now storage.new.now) }
    ensures kept { capture ≡ false → OnOk result (storage.new.now.store.before ≡ storage.old.now.store.before) }
    ensures captured { D.tells → (opened : ℕ) (m : Machine) (registers : Registers) (before : ℕ → RecordValue) → Shows opened storage.old.now locks.now registers m → Regular m → IsStored (D.past storage.old.disk) storage.old.now (behind_of before m) → capture ≡ true
        → OnOk result (storage.new.now.store.before ≡ captured (image_with rid.space rid.page (page_bytes (page_behind m.work.start m.work.records rid.space rid.page))) storage.old.now.store.before) }
    ensures stops { D.tells → (opened : ℕ) (m : Machine) (registers : Registers) (before : ℕ → RecordValue) → Shows opened storage.old.now locks.now registers m → Regular m → IsStored (D.past storage.old.disk) storage.old.now (behind_of before m)
        → Stops (D.past storage.old.disk) (D.past storage.new.disk) (StandsWithinEither storage.old.now (anchor_made storage.old.now locks.now) before (append rec.now m)) }
    ensures stored { D.tells → (opened : ℕ) (m : Machine) (registers : Registers) (before : ℕ → RecordValue) → Shows opened storage.old.now locks.now registers m → Regular m → IsStored (D.past storage.old.disk) storage.old.now (behind_of before m)
        → OnOk result (IsStored (D.past storage.new.disk) storage.new.now (behind_of before (append rec.now m))) }
    ensures stopped { OnErr result (storage.new.now.stopped ≡ true) }
    ensures only { IfErr result (λ fault. fault ≡ StorageFault.Failed) }
    ensures cause { HasStorageCause (config_of storage.old.now) (D.fault_counts storage.old.disk) (D.fault_counts storage.new.disk) result }
{
    match make_entry(storage, locks, rid.space, rid.page) {
        Ok(()) => {}
        Err(fault) => return Err(fault),
    }
    // It tells that the log is whole.
    let _whole = storage.is_stopped();
    match storage.change(rec, rid, row, capture) {
        Ok(()) => Ok(()),
        Err(fault) => Err(fault),
    }
}
