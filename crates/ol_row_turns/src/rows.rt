//! A row changes: it gets another value, or is deleted.

ghost use Rattle.std.specs.Prelude.{◌≡◌, ◌≤◌, ◌<◌, ◌+◌, ◌^◌, ◌⊎◌, Bool, IfErr, IfOk, IsErrOf, List, None, OnErr, OnOk, Some, false, true, ℕ};
ghost use Rattle.ol_values.specs.declared.record.Record.{Record as RecordValue};
ghost use Rattle.ol_values.specs.declared.record.Record.TheVariants.{Change as ChangeRecord};
ghost use Rattle.ol_values.specs.declared.record.Rid.{Rid as RidValue};
ghost use Rattle.ol_values.specs.Config.{has_place};
ghost use Rattle.ol_values.specs.Spelling.{IsChange};
ghost use Rattle.ol_rules.specs.Locks.{holder_of};
ghost use Rattle.ol_rules.specs.Sound.{is_value};
ghost use Rattle.ol_rules.specs.Start.{page_behind};
ghost use Rattle.ol_model.specs.Machine.{Machine, stamp_in};
ghost use Rattle.ol_model.specs.Turns.{comes_first};
ghost use Rattle.ol_model.specs.Steps.{append, change_row as row_changed};
ghost use Rattle.ol_pool.specs.Frames.{frame_of};
ghost use Rattle.ol_ports.specs.Stops.{Stops};
ghost use Rattle.ol_storage.specs.Behind.{is_up};
ghost use Rattle.ol_storage.specs.Causes.{HasStorageCause};
ghost use Rattle.ol_storage.specs.Installation.{config_of, with_store};
ghost use Rattle.ol_storage.specs.Storing.{IsStored};
ghost use Rattle.ol_store.specs.Stores.{CanCapture, image_with};
ghost use Rattle.ol_turn_laws.specs.Room.{Regular};
ghost use Rattle.ol_txn.specs.Seats.{IsSession, seat_of as locks_of, table_of};
ghost use Rattle.ol_engine.specs.Parts.{GoesOn, HasRisen, HasTurns, MayRise, Registers, Shows, anchor_made, behind_of, number_in};
ghost use Rattle.ol_engine.specs.Turns.{Answers, HasMore, StandsWithinEither};
ghost use Rattle.ol_running.specs.Running.{ShowsArchives};
ghost use Rattle.ol_session_turns.specs.Pending.{ArePending};
ghost use Rattle.ol_row_turns.specs.Images.{archives_behind, images_asked, images_behind};
ghost use Rattle.ol_row_turns.specs.Turns.{Leaves, SameCursors, row_turn, written_turn};
ghost use Rattle.ol_storage.specs.declared.storage.StorageFault.{StorageFault as StorageFaultValue};

use crate::images::{Archives, Images, ask_images, change_with_images};
use crate::owner::Owner;
use crate::values::{copy_of, is_short};
use ol_engine::no_room;
use ol_ports::Disk;
use ol_storage::{Storage, StorageFault};
use ol_txn::Locks;
use ol_values::{Record, Reply, Rid, Row};

/// Changes the row at a place for the transaction of a session: `after` takes the place of the row there, or none does, as a delete leaves
/// it. The place is one of a space that is up. The page's image is kept first, where a running archive wants it; where as many are held as
/// may be, the change breaks that archive by its entry.
///
/// Refusals, in this order: `RowLocked` exactly where another session holds the slot, with the least such; `NoRow` exactly where the slot holds no
/// row; `JournalFull` and `LogsFull` exactly where the journal or the log has no room for the record and what it owes. `Failed`
/// comes only where the count of faults of a chunk rose; `Bad` and `NoMemory` change nothing, and `Bad` never comes over a disk that tells
/// its bytes.
pub fn change<D: Disk>(
    storage: &mut Storage<D>,
    locks: &mut Locks,
    archives: &mut Archives,
    opened: u64,
    owner: Owner,
    rid: Rid,
    after: Option<Row>,
) -> Result<Reply, StorageFault>
    requires session { IsSession owner.session }
    requires open { number_in (locks_of locks.old owner.session).holding ≡ Some owner.txn }
    requires going { storage.old.now.stopped ≡ false }
    requires turns { HasTurns opened storage.old.now locks.old }
    requires rise { MayRise 2 storage.old.now }
    requires place { has_place (config_of storage.old.now) rid ≡ true }
    requires up { is_up storage.old.now.anchor rid.space ≡ true }
    ensures answer { D.tells → (m : Machine) (registers : Registers) (earlier : ℕ → RecordValue) → Shows opened storage.old.now locks.old registers m → Regular m → IsStored (D.past storage.old.disk) storage.old.now (behind_of earlier m)
        → Answers m (Shows opened storage.new.now locks.new registers) (row_turn m owner rid after) result }
    ensures turns { (IsErrOf result StorageFault.Failed → ⊥) → HasTurns opened storage.new.now locks.new }
    ensures risen { OnOk result (HasRisen 2 storage.old.now storage.new.now) }
    ensures goes { (IsErrOf result StorageFault.Failed → ⊥) → GoesOn storage.old.now storage.new.now }
    ensures unwritten { OnErr result ((IsErrOf result StorageFault.Failed → ⊥) → storage.new.now ≡ with_store storage.old.now storage.new.now.store) }
    ensures untouched { OnErr result ((IsErrOf result StorageFault.Failed → ⊥) → (locks.new ≡ locks.old) × (archives.new ≡ archives.old)) }
    ensures cursors { SameCursors archives.old archives.new }
    ensures places { (test : RidValue → Bool) → ArePending test locks.old → test rid ≡ true → (IsErrOf result StorageFault.Failed → ⊥) → ArePending test locks.new }
    ensures archives { D.tells → (m : Machine) (registers : Registers) (earlier : ℕ → RecordValue) → Shows opened storage.old.now locks.old registers m → Regular m → IsStored (D.past storage.old.disk) storage.old.now (behind_of earlier m) → ShowsArchives archives.old storage.old.now.store.before m
        → Leaves m (λ n. ShowsArchives archives.new storage.new.now.store.before n) (row_turn m owner rid after).1 result }
    ensures stops { D.tells → (m : Machine) (registers : Registers) (earlier : ℕ → RecordValue) → Shows opened storage.old.now locks.old registers m → Regular m → IsStored (D.past storage.old.disk) storage.old.now (behind_of earlier m)
        → Stops (D.past storage.old.disk) (D.past storage.new.disk) (StandsWithinEither storage.old.now (anchor_made storage.old.now locks.old) earlier (row_turn m owner rid after).1) }
    ensures stored { D.tells → (m : Machine) (registers : Registers) (earlier : ℕ → RecordValue) → Shows opened storage.old.now locks.old registers m → Regular m → IsStored (D.past storage.old.disk) storage.old.now (behind_of earlier m)
        → OnOk result (IsStored (D.past storage.new.disk) storage.new.now (behind_of earlier (row_turn m owner rid after).1)) }
    ensures still { D.tells → (m : Machine) (earlier : ℕ → RecordValue) → IsStored (D.past storage.old.disk) storage.old.now (behind_of earlier m) → IsErrOf result StorageFault.NoMemory → IsStored (D.past storage.new.disk) storage.new.now (behind_of earlier m) }
    ensures stopped { IsErrOf result StorageFault.Failed → storage.new.now.stopped ≡ true }
    ensures only { IsErrOf result StorageFault.Stopped → ⊥ }
    ensures good { D.tells → (m : Machine) (earlier : ℕ → RecordValue) → IsStored (D.past storage.old.disk) storage.old.now (behind_of earlier m) → (chunk page : ℕ) → IsErrOf result (StorageFault.Bad chunk page) → ⊥ }
    ensures cause { HasStorageCause (config_of storage.old.now) (D.fault_counts storage.old.disk) (D.fault_counts storage.new.disk) result }
{
    // It tells what a stop leaves where nothing is written.
    let _stands = storage.is_stopped();
    if let Some(holder) = locks.holder(owner.session, rid, true) {
        return Ok(Reply::RowLocked { holder });
    }
    match storage.read(rid) {
        Ok(Some(before)) => write_row(
            storage,
            locks,
            archives,
            opened,
            owner,
            rid,
            Some(before),
            after,
            Reply::Changed { rid },
        ),
        Ok(None) => Ok(Reply::NoRow),
        Err(fault) => Err(fault),
    }
}

/// Gives a slot of a page that is in memory another row, or none, where the log and the journal have room for the record: for a session
/// that no other is in the way of. It answers `done`. The page's image is kept first, where a running archive wants it.
///
/// `JournalFull` and `LogsFull` come exactly where the journal or the log has no room for the record and what it owes. `Failed` comes
/// only where the count of faults of a chunk rose; `NoMemory` changes nothing.
pub fn write_row<D: Disk>(
    storage: &mut Storage<D>,
    locks: &mut Locks,
    archives: &mut Archives,
    opened: u64,
    owner: Owner,
    rid: Rid,
    before: Option<Row>,
    after: Option<Row>,
    done: Reply,
) -> Result<Reply, StorageFault>
    requires session { IsSession owner.session }
    requires open { number_in (locks_of locks.old owner.session).holding ≡ Some owner.txn }
    requires alone { holder_of (table_of locks.old) owner.session rid true ≡ None }
    requires change { IsChange before after }
    requires done { comes_first done ≡ false }
    requires going { storage.old.now.stopped ≡ false }
    requires turns { HasTurns opened storage.old.now locks.old }
    requires rise { MayRise 2 storage.old.now }
    requires place { has_place (config_of storage.old.now) rid ≡ true }
    requires up { is_up storage.old.now.anchor rid.space ≡ true }
    requires frame { (bytes : List ℕ) × (frame_of storage.old.now.store.pool rid.space rid.page ≡ Some bytes) }
    ensures answer { (m : Machine) (registers : Registers) → Shows opened storage.old.now locks.old registers m → Regular m
        → Answers m (Shows opened storage.new.now locks.new registers) (written_turn m owner rid before after done) result }
    ensures turns { (IsErrOf result StorageFault.Failed → ⊥) → HasTurns opened storage.new.now locks.new }
    ensures risen { OnOk result (HasRisen 2 storage.old.now storage.new.now) }
    ensures goes { (IsErrOf result StorageFault.Failed → ⊥) → GoesOn storage.old.now storage.new.now }
    ensures unwritten { OnErr result ((IsErrOf result StorageFault.Failed → ⊥) → storage.new.now ≡ with_store storage.old.now storage.new.now.store) }
    ensures untouched { OnErr result ((IsErrOf result StorageFault.Failed → ⊥) → (locks.new ≡ locks.old) × (archives.new ≡ archives.old)) }
    ensures cursors { SameCursors archives.old archives.new }
    ensures places { (test : RidValue → Bool) → ArePending test locks.old → test rid ≡ true → (IsErrOf result StorageFault.Failed → ⊥) → ArePending test locks.new }
    ensures archives { D.tells → (m : Machine) (registers : Registers) (earlier : ℕ → RecordValue) → Shows opened storage.old.now locks.old registers m → Regular m → IsStored (D.past storage.old.disk) storage.old.now (behind_of earlier m)
        → ShowsArchives archives.old storage.old.now.store.before m → Leaves m (λ n. ShowsArchives archives.new storage.new.now.store.before n) (written_turn m owner rid before after done).1 result }
    ensures stops { D.tells → (m : Machine) (registers : Registers) (earlier : ℕ → RecordValue) → Shows opened storage.old.now locks.old registers m → Regular m → IsStored (D.past storage.old.disk) storage.old.now (behind_of earlier m)
        → Stops (D.past storage.old.disk) (D.past storage.new.disk) (StandsWithinEither storage.old.now (anchor_made storage.old.now locks.old) earlier (written_turn m owner rid before after done).1) }
    ensures stored { D.tells → (m : Machine) (registers : Registers) (earlier : ℕ → RecordValue) → Shows opened storage.old.now locks.old registers m → Regular m → IsStored (D.past storage.old.disk) storage.old.now (behind_of earlier m)
        → OnOk result (IsStored (D.past storage.new.disk) storage.new.now (behind_of earlier (written_turn m owner rid before after done).1)) }
    ensures still { D.tells → (m : Machine) (earlier : ℕ → RecordValue) → IsStored (D.past storage.old.disk) storage.old.now (behind_of earlier m) → IsErrOf result StorageFault.NoMemory → IsStored (D.past storage.new.disk) storage.new.now (behind_of earlier m) }
    ensures stopped { IsErrOf result StorageFault.Failed → storage.new.now.stopped ≡ true }
    ensures only { (fault : StorageFaultValue) → IsErrOf result fault → (fault ≡ StorageFault.Failed) ⊎ (fault ≡ StorageFault.NoMemory) }
    ensures cause { HasStorageCause (config_of storage.old.now) (D.fault_counts storage.old.disk) (D.fault_counts storage.new.disk) result }
{
    // It tells what a stop leaves where nothing is asked of the disk, and that the sessions are 16.
    let _stands = (storage.is_stopped(), locks.is_open(owner.session));
    match no_room(storage, locks, opened) {
        Some(refusal) => return Ok(refusal),
        None => {}
    }
    let images = match ask_images(storage, archives, rid) {
        Ok(images) => images,
        Err(fault) => return Err(fault),
    };
    match locks.reserve(owner.session, 2) {
        Ok(()) => {}
        Err(_) => return Err(StorageFault::NoMemory),
    }
    match put(storage, locks, archives, owner, rid, before, after, images) {
        Ok(()) => Ok(done),
        Err(fault) => Err(fault),
    }
}

/// Gives a slot of a page that is in memory another row, or none, for a session that no other is in the way of, and that has memory for a lock
/// and a change.
pub fn put<D: Disk>(
    storage: &mut Storage<D>,
    locks: &mut Locks,
    archives: &mut Archives,
    owner: Owner,
    rid: Rid,
    before: Option<Row>,
    after: Option<Row>,
    images: Images,
) -> Result<(), StorageFault>
    requires session { IsSession owner.session }
    requires open { number_in (locks_of locks.old owner.session).holding ≡ Some owner.txn }
    requires spare { 2 ≤ (locks_of locks.old owner.session).spare }
    requires alone { holder_of (table_of locks.old) owner.session rid true ≡ None }
    requires change { IsChange before after }
    requires going { storage.old.now.stopped ≡ false }
    requires turns { (opened : ℕ) × HasTurns opened storage.old.now locks.old × HasMore opened storage.old.now locks.old }
    requires rise { MayRise 2 storage.old.now }
    requires place { has_place (config_of storage.old.now) rid ≡ true }
    requires up { is_up storage.old.now.anchor rid.space ≡ true }
    requires frame { (bytes : List ℕ) × (frame_of storage.old.now.store.pool rid.space rid.page ≡ Some bytes) }
    requires capture { images ≡ Images.Capture → CanCapture storage.old.now.store.before rid.space rid.page }
    requires broken { (at : ℕ) → images ≡ Images.Break at → at < 4 }
    ensures shows { (opened : ℕ) (m : Machine) (registers : Registers) → Shows opened storage.old.now locks.old registers m → Regular m → OnOk result (Shows opened storage.new.now locks.new registers (row_changed owner.entry rid (ChangeRecord owner.txn rid before after) m)) }
    ensures turns { (opened : ℕ) → HasTurns opened storage.old.now locks.old → HasMore opened storage.old.now locks.old → OnOk result (HasTurns opened storage.new.now locks.new) }
    ensures risen { OnOk result (HasRisen 2 storage.old.now storage.new.now) }
    ensures goes { OnOk result (GoesOn storage.old.now storage.new.now) }
    ensures cursors { SameCursors archives.old archives.new }
    ensures places { (test : RidValue → Bool) → ArePending test locks.old → test rid ≡ true → OnOk result (ArePending test locks.new) }
    ensures archives { D.tells → (opened : ℕ) (m : Machine) (registers : Registers) (earlier : ℕ → RecordValue) → Shows opened storage.old.now locks.old registers m → Regular m → IsStored (D.past storage.old.disk) storage.old.now (behind_of earlier m)
        → images ≡ images_asked archives.old storage.old.now.store.before rid.space rid.page (stamp_in m rid.space rid.page) → ShowsArchives archives.old storage.old.now.store.before m
        → OnOk result (ShowsArchives archives.new storage.new.now.store.before (row_changed owner.entry rid (ChangeRecord owner.txn rid before after) m)) }
    ensures stops { D.tells → (opened : ℕ) (m : Machine) (registers : Registers) (earlier : ℕ → RecordValue) → Shows opened storage.old.now locks.old registers m → Regular m → IsStored (D.past storage.old.disk) storage.old.now (behind_of earlier m)
        → Stops (D.past storage.old.disk) (D.past storage.new.disk) (StandsWithinEither storage.old.now (anchor_made storage.old.now locks.old) earlier (append (ChangeRecord owner.txn rid before after) m)) }
    ensures stored { D.tells → (opened : ℕ) (m : Machine) (registers : Registers) (earlier : ℕ → RecordValue) → Shows opened storage.old.now locks.old registers m → Regular m → IsStored (D.past storage.old.disk) storage.old.now (behind_of earlier m)
        → OnOk result (IsStored (D.past storage.new.disk) storage.new.now (behind_of earlier (append (ChangeRecord owner.txn rid before after) m))) }
    ensures stopped { OnErr result (storage.new.now.stopped ≡ true) }
    ensures only { IfErr result (λ fault. fault ≡ StorageFault.Failed) }
    ensures cause { HasStorageCause (config_of storage.old.now) (D.fault_counts storage.old.disk) (D.fault_counts storage.new.disk) result }
{
    // These tell that the sessions are 16, that the log is whole, and that the record fits a page.
    let _whole = (locks.is_open(owner.session), storage.is_stopped());
    let _short = (is_short(&before), is_short(&after));
    let record = Record::Change {
        txn: owner.txn,
        rid,
        before: copy_of(&before),
        after: copy_of(&after),
    };
    match change_with_images(
        storage,
        locks,
        archives,
        owner.entry,
        &record,
        rid,
        after,
        images,
    ) {
        Ok(()) => {}
        Err(fault) => return Err(fault),
    }
    // Neither can be refused: no other session is in the way, and there is memory for both.
    let _owned = locks.try_own(owner.session, rid);
    let _noted = locks.note(owner.session, rid, before);
    Ok(())
}
