//! A change is taken back.

ghost use Rattle.std.specs.Prelude.{◌≡◌, ◌≤◌, ◌<◌, ◌^◌, Bool, IfErr, IsErrOf, List, None, OnErr, OnOk, Option, Some, false, true, ℕ};
ghost use Rattle.ol_values.specs.declared.event.Reply.TheVariants.{Undone as UndoneReply};
ghost use Rattle.ol_values.specs.declared.record.Record.{Record as RecordValue};
ghost use Rattle.ol_values.specs.declared.record.Record.TheVariants.{Undo as UndoRecord};
ghost use Rattle.ol_values.specs.declared.record.Rid.{Rid as RidValue};
ghost use Rattle.ol_values.specs.declared.row.Row.{Row as RowValue};
ghost use Rattle.ol_values.specs.Config.{has_place};
ghost use Rattle.ol_model.specs.Machine.{Machine, stamp_in};
ghost use Rattle.ol_model.specs.Steps.{append, change_row as row_changed};
ghost use Rattle.ol_pool.specs.Frames.{frame_of};
ghost use Rattle.ol_ports.specs.Stops.{Stops};
ghost use Rattle.ol_running.specs.Running.{ShowsArchives};
ghost use Rattle.ol_storage.specs.declared.storage.StorageFault.{StorageFault as StorageFaultValue};
ghost use Rattle.ol_storage.specs.Behind.{is_up};
ghost use Rattle.ol_storage.specs.Causes.{HasStorageCause};
ghost use Rattle.ol_storage.specs.Installation.{config_of, with_store};
ghost use Rattle.ol_storage.specs.Storing.{IsStored};
ghost use Rattle.ol_store.specs.Stores.{CanCapture};
ghost use Rattle.ol_turn_laws.specs.Room.{Regular};
ghost use Rattle.ol_txn.specs.Seats.{IsSession, last_of, seat_of as locks_of};
ghost use Rattle.ol_engine.specs.Parts.{GoesOn, HasRisen, HasTurns, MayRise, Registers, Shows, anchor_made, behind_of, number_in};
ghost use Rattle.ol_engine.specs.Turns.{Answers, StandsWithinEither};
ghost use Rattle.ol_session_turns.specs.Pending.{ArePending};
ghost use Rattle.ol_row_turns.specs.Images.{images_asked};
ghost use Rattle.ol_row_turns.specs.Turns.{IsUndoable, Leaves, SameCursors, undone_turn};

use crate::images::{Archives, Images, ask_images, change_with_images};
use crate::owner::Owner;
use crate::values::{copy_of, is_short};
use ol_ports::Disk;
use ol_storage::{Storage, StorageFault};
use ol_txn::Locks;
use ol_values::{Record, Reply, Rid, Row};

// Takes a session's newest change back, of a page that is in memory.
fn put_back<D: Disk>(
    storage: &mut Storage<D>,
    locks: &mut Locks,
    archives: &mut Archives,
    owner: Owner,
    rid: Rid,
    value: Option<Row>,
    images: Images,
) -> Result<Reply, StorageFault>
    requires session { IsSession owner.session }
    requires open { number_in (locks_of locks.old owner.session).holding ≡ Some owner.txn }
    requires last { last_of (locks_of locks.old owner.session) ≡ Some (rid, value) }
    requires going { storage.old.now.stopped ≡ false }
    requires turns { (opened : ℕ) × HasTurns opened storage.old.now locks.old }
    requires rise { MayRise 2 storage.old.now }
    requires place { has_place (config_of storage.old.now) rid ≡ true }
    requires up { is_up storage.old.now.anchor rid.space ≡ true }
    requires frame { (bytes : List ℕ) × (frame_of storage.old.now.store.pool rid.space rid.page ≡ Some bytes) }
    requires capture { images ≡ Images.Capture → CanCapture storage.old.now.store.before rid.space rid.page }
    requires broken { (at : ℕ) → images ≡ Images.Break at → at < 4 }
    ensures answer { (opened : ℕ) (m : Machine) (registers : Registers) → Shows opened storage.old.now locks.old registers m → Regular m
        → Answers m (Shows opened storage.new.now locks.new registers) (UndoneReply rid, row_changed owner.entry rid (UndoRecord owner.txn rid value) m) result }
    ensures turns { (opened : ℕ) → HasTurns opened storage.old.now locks.old → OnOk result (HasTurns opened storage.new.now locks.new) }
    ensures risen { OnOk result (HasRisen 2 storage.old.now storage.new.now) }
    ensures goes { OnOk result (GoesOn storage.old.now storage.new.now) }
    ensures cursors { SameCursors archives.old archives.new }
    ensures places { (test : RidValue → Bool) → ArePending test locks.old → OnOk result (ArePending test locks.new) }
    ensures archives { D.tells → (opened : ℕ) (m : Machine) (registers : Registers) (earlier : ℕ → RecordValue) → Shows opened storage.old.now locks.old registers m → Regular m → IsStored (D.past storage.old.disk) storage.old.now (behind_of earlier m)
        → images ≡ images_asked archives.old storage.old.now.store.before rid.space rid.page (stamp_in m rid.space rid.page) → ShowsArchives archives.old storage.old.now.store.before m
        → OnOk result (ShowsArchives archives.new storage.new.now.store.before (row_changed owner.entry rid (UndoRecord owner.txn rid value) m)) }
    ensures stops { D.tells → (opened : ℕ) (m : Machine) (registers : Registers) (earlier : ℕ → RecordValue) → Shows opened storage.old.now locks.old registers m → Regular m → IsStored (D.past storage.old.disk) storage.old.now (behind_of earlier m)
        → Stops (D.past storage.old.disk) (D.past storage.new.disk) (StandsWithinEither storage.old.now (anchor_made storage.old.now locks.old) earlier (append (UndoRecord owner.txn rid value) m)) }
    ensures stored { D.tells → (opened : ℕ) (m : Machine) (registers : Registers) (earlier : ℕ → RecordValue) → Shows opened storage.old.now locks.old registers m → Regular m → IsStored (D.past storage.old.disk) storage.old.now (behind_of earlier m)
        → OnOk result (IsStored (D.past storage.new.disk) storage.new.now (behind_of earlier (append (UndoRecord owner.txn rid value) m))) }
    ensures stopped { OnErr result (storage.new.now.stopped ≡ true) }
    ensures only { IfErr result (λ fault. fault ≡ StorageFault.Failed) }
    ensures cause { HasStorageCause (config_of storage.old.now) (D.fault_counts storage.old.disk) (D.fault_counts storage.new.disk) result }
{
    // These tell that the sessions are 16, that the log is whole, and that the record fits a page.
    let _whole = (
        locks.is_open(owner.session),
        storage.is_stopped(),
        is_short(&value),
    );
    let record = Record::Undo {
        txn: owner.txn,
        rid,
        value: copy_of(&value),
    };
    match change_with_images(
        storage,
        locks,
        archives,
        owner.entry,
        &record,
        rid,
        value,
        images,
    ) {
        Ok(()) => {}
        Err(fault) => return Err(fault),
    }
    locks.undone(owner.session);
    Ok(Reply::Undone { rid })
}

// Takes a session's newest change back.
fn undo_last<D: Disk>(
    storage: &mut Storage<D>,
    locks: &mut Locks,
    archives: &mut Archives,
    owner: Owner,
    rid: Rid,
    value: Option<Row>,
) -> Result<Reply, StorageFault>
    requires session { IsSession owner.session }
    requires open { number_in (locks_of locks.old owner.session).holding ≡ Some owner.txn }
    requires last { last_of (locks_of locks.old owner.session) ≡ Some (rid, value) }
    requires going { storage.old.now.stopped ≡ false }
    requires turns { (opened : ℕ) × HasTurns opened storage.old.now locks.old }
    requires rise { MayRise 2 storage.old.now }
    requires place { has_place (config_of storage.old.now) rid ≡ true }
    requires up { is_up storage.old.now.anchor rid.space ≡ true }
    ensures answer { (opened : ℕ) (m : Machine) (registers : Registers) → Shows opened storage.old.now locks.old registers m → Regular m
        → Answers m (Shows opened storage.new.now locks.new registers) (UndoneReply rid, row_changed owner.entry rid (UndoRecord owner.txn rid value) m) result }
    ensures turns { (opened : ℕ) → HasTurns opened storage.old.now locks.old → (IsErrOf result StorageFault.Failed → ⊥) → HasTurns opened storage.new.now locks.new }
    ensures risen { OnOk result (HasRisen 2 storage.old.now storage.new.now) }
    ensures goes { (IsErrOf result StorageFault.Failed → ⊥) → GoesOn storage.old.now storage.new.now }
    ensures unwritten { OnErr result ((IsErrOf result StorageFault.Failed → ⊥) → storage.new.now ≡ with_store storage.old.now storage.new.now.store) }
    ensures untouched { OnErr result ((IsErrOf result StorageFault.Failed → ⊥) → (locks.new ≡ locks.old) × (archives.new ≡ archives.old)) }
    ensures cursors { SameCursors archives.old archives.new }
    ensures places { (test : RidValue → Bool) → ArePending test locks.old → (IsErrOf result StorageFault.Failed → ⊥) → ArePending test locks.new }
    ensures archives { D.tells → (opened : ℕ) (m : Machine) (registers : Registers) (earlier : ℕ → RecordValue) → Shows opened storage.old.now locks.old registers m → Regular m → IsStored (D.past storage.old.disk) storage.old.now (behind_of earlier m) → ShowsArchives archives.old storage.old.now.store.before m
        → Leaves m (λ n. ShowsArchives archives.new storage.new.now.store.before n) (row_changed owner.entry rid (UndoRecord owner.txn rid value) m) result }
    ensures stops { D.tells → (opened : ℕ) (m : Machine) (registers : Registers) (earlier : ℕ → RecordValue) → Shows opened storage.old.now locks.old registers m → Regular m → IsStored (D.past storage.old.disk) storage.old.now (behind_of earlier m)
        → Stops (D.past storage.old.disk) (D.past storage.new.disk) (StandsWithinEither storage.old.now (anchor_made storage.old.now locks.old) earlier (append (UndoRecord owner.txn rid value) m)) }
    ensures stored { D.tells → (opened : ℕ) (m : Machine) (registers : Registers) (earlier : ℕ → RecordValue) → Shows opened storage.old.now locks.old registers m → Regular m → IsStored (D.past storage.old.disk) storage.old.now (behind_of earlier m)
        → OnOk result (IsStored (D.past storage.new.disk) storage.new.now (behind_of earlier (append (UndoRecord owner.txn rid value) m))) }
    ensures still { D.tells → (m : Machine) (earlier : ℕ → RecordValue) → IsStored (D.past storage.old.disk) storage.old.now (behind_of earlier m) → IsErrOf result StorageFault.NoMemory → IsStored (D.past storage.new.disk) storage.new.now (behind_of earlier m) }
    ensures stopped { IsErrOf result StorageFault.Failed → storage.new.now.stopped ≡ true }
    ensures only { IsErrOf result StorageFault.Stopped → ⊥ }
    ensures good { D.tells → (m : Machine) (earlier : ℕ → RecordValue) → IsStored (D.past storage.old.disk) storage.old.now (behind_of earlier m) → (chunk page : ℕ) → IsErrOf result (StorageFault.Bad chunk page) → ⊥ }
    ensures cause { HasStorageCause (config_of storage.old.now) (D.fault_counts storage.old.disk) (D.fault_counts storage.new.disk) result }
{
    // It tells what a stop leaves where nothing is written.
    let _stands = storage.is_stopped();
    // The page comes into memory.
    match storage.read(rid) {
        Ok(_) => {}
        Err(fault) => return Err(fault),
    }
    match ask_images(storage, archives, rid) {
        Ok(images) => put_back(storage, locks, archives, owner, rid, value, images),
        Err(fault) => Err(fault),
    }
}

/// Takes back the newest change of a session's open transaction that is not taken back yet: the place holds again what it held before. The
/// page's image is kept first, where a running archive wants it, as `change` does. Sessions count from 1 to 16; `entry` is the number of
/// the entry that the turn becomes.
///
/// `NoTxn` comes exactly where the session has no open transaction, or no such change. `Failed` comes only where the count of faults of a
/// chunk rose; `Bad` and `NoMemory` change nothing, and `Bad` never comes over a disk that tells its bytes.
pub fn undo<D: Disk>(
    storage: &mut Storage<D>,
    locks: &mut Locks,
    archives: &mut Archives,
    session: u8,
    entry: u64,
) -> Result<Reply, StorageFault>
    requires session { IsSession session }
    requires going { storage.old.now.stopped ≡ false }
    requires turns { (opened : ℕ) × HasTurns opened storage.old.now locks.old }
    requires rise { MayRise 2 storage.old.now }
    requires there { IsUndoable storage.old.now (last_of (locks_of locks.old session)) }
    ensures answer { (opened : ℕ) (m : Machine) (registers : Registers) → Shows opened storage.old.now locks.old registers m → Regular m → Answers m (Shows opened storage.new.now locks.new registers) (undone_turn m entry session) result }
    ensures turns { (opened : ℕ) → HasTurns opened storage.old.now locks.old → (IsErrOf result StorageFault.Failed → ⊥) → HasTurns opened storage.new.now locks.new }
    ensures risen { OnOk result (HasRisen 2 storage.old.now storage.new.now) }
    ensures goes { (IsErrOf result StorageFault.Failed → ⊥) → GoesOn storage.old.now storage.new.now }
    ensures unwritten { OnErr result ((IsErrOf result StorageFault.Failed → ⊥) → storage.new.now ≡ with_store storage.old.now storage.new.now.store) }
    ensures untouched { OnErr result ((IsErrOf result StorageFault.Failed → ⊥) → (locks.new ≡ locks.old) × (archives.new ≡ archives.old)) }
    ensures cursors { SameCursors archives.old archives.new }
    ensures places { (test : RidValue → Bool) → ArePending test locks.old → (IsErrOf result StorageFault.Failed → ⊥) → ArePending test locks.new }
    ensures archives { D.tells → (opened : ℕ) (m : Machine) (registers : Registers) (earlier : ℕ → RecordValue) → Shows opened storage.old.now locks.old registers m → Regular m → IsStored (D.past storage.old.disk) storage.old.now (behind_of earlier m) → ShowsArchives archives.old storage.old.now.store.before m
        → Leaves m (λ n. ShowsArchives archives.new storage.new.now.store.before n) (undone_turn m entry session).1 result }
    ensures stops { D.tells → (opened : ℕ) (m : Machine) (registers : Registers) (earlier : ℕ → RecordValue) → Shows opened storage.old.now locks.old registers m → Regular m → IsStored (D.past storage.old.disk) storage.old.now (behind_of earlier m)
        → Stops (D.past storage.old.disk) (D.past storage.new.disk) (StandsWithinEither storage.old.now (anchor_made storage.old.now locks.old) earlier (undone_turn m entry session).1) }
    ensures stored { D.tells → (opened : ℕ) (m : Machine) (registers : Registers) (earlier : ℕ → RecordValue) → Shows opened storage.old.now locks.old registers m → Regular m → IsStored (D.past storage.old.disk) storage.old.now (behind_of earlier m)
        → OnOk result (IsStored (D.past storage.new.disk) storage.new.now (behind_of earlier (undone_turn m entry session).1)) }
    ensures still { D.tells → (m : Machine) (earlier : ℕ → RecordValue) → IsStored (D.past storage.old.disk) storage.old.now (behind_of earlier m) → IsErrOf result StorageFault.NoMemory → IsStored (D.past storage.new.disk) storage.new.now (behind_of earlier m) }
    ensures stopped { IsErrOf result StorageFault.Failed → storage.new.now.stopped ≡ true }
    ensures only { IsErrOf result StorageFault.Stopped → ⊥ }
    ensures good { D.tells → (m : Machine) (earlier : ℕ → RecordValue) → IsStored (D.past storage.old.disk) storage.old.now (behind_of earlier m) → (chunk page : ℕ) → IsErrOf result (StorageFault.Bad chunk page) → ⊥ }
    ensures cause { HasStorageCause (config_of storage.old.now) (D.fault_counts storage.old.disk) (D.fault_counts storage.new.disk) result }
{
    // It tells what a stop leaves where nothing is asked of the disk.
    let _stands = storage.is_stopped();
    let txn = match locks.txn(session) {
        Some(txn) => txn,
        None => return Ok(Reply::NoTxn),
    };
    let (rid, value) = match locks.last(session) {
        Some(last) => last,
        None => return Ok(Reply::NoTxn),
    };
    let owner = Owner {
        session,
        txn,
        entry,
    };
    undo_last(storage, locks, archives, owner, rid, value)
}
