//! A row is read.

ghost use Rattle.std.specs.Prelude.{◌≡◌, ◌⊎◌, Bool, IfErr, IfOk, IsErrOf, None, Ok, OnErr, OnOk, false, length, true, ℕ};
ghost use Rattle.ol_values.specs.declared.record.Record.{Record as RecordValue};
ghost use Rattle.ol_values.specs.declared.record.Rid.{Rid as RidValue};
ghost use Rattle.ol_values.specs.declared.event.Reply.TheVariants.{RowIs as RowReply};
ghost use Rattle.ol_values.specs.Config.{has_place};
ghost use Rattle.ol_rules.specs.Locks.{holder_of};
ghost use Rattle.ol_model.specs.Machine.{Machine, seat_of};
ghost use Rattle.ol_model.specs.SessionTurns.{read_at};
ghost use Rattle.ol_pool.specs.Frames.{frame_of};
ghost use Rattle.ol_session_turns.specs.Pending.{ArePending};
ghost use Rattle.ol_storage.specs.Behind.{Behind, is_up};
ghost use Rattle.ol_storage.specs.Causes.{HasStorageCause};
ghost use Rattle.ol_storage.specs.Installation.{config_of, with_store};
ghost use Rattle.ol_storage.specs.Storing.{IsStored};
ghost use Rattle.ol_turn_laws.specs.Room.{Regular};
ghost use Rattle.ol_txn.specs.Seats.{HasTxn, IsSession, seat_of as locks_of, shared_more, table_of, with_seat as with_locks};
ghost use Rattle.ol_engine.specs.Parts.{HasTurns, Registers, Shows, behind_of};
ghost use Rattle.ol_engine.specs.Turns.{Answers};

use ol_ports::Disk;
use ol_storage::{Storage, StorageFault};
use ol_txn::Locks;
use ol_values::{Reply, Rid, Row};

/// Reads the row at a place for the open transaction of a session, which shares the slot from then on. Sessions count from 1 to 16; the
/// place is one of a space that is up. Nothing is written.
///
/// Refusals, in this order: `RowLocked` exactly where another session owns the slot, with the least such; `NoRow` exactly where the slot
/// holds no row. `Failed` comes only where the count of faults of a chunk rose, and stops the storage. `NoMemory` comes only where the page
/// is not in memory, or the session has no place for a lock more; it changes no lock. `Bad` never comes over a disk that tells its bytes.
pub fn read<D: Disk>(
    storage: &mut Storage<D>,
    locks: &mut Locks,
    session: u8,
    rid: Rid,
) -> Result<Reply, StorageFault>
    requires session { IsSession session }
    requires open { HasTxn locks.old session }
    requires going { storage.old.now.stopped ≡ false }
    requires place { has_place (config_of storage.old.now) rid ≡ true }
    requires up { is_up storage.old.now.anchor rid.space ≡ true }
    ensures answer { D.tells → (opened : ℕ) (m : Machine) (registers : Registers) (earlier : ℕ → RecordValue) → Shows opened storage.old.now locks.old registers m → Regular m → IsStored (D.past storage.old.disk) storage.old.now (behind_of earlier m)
        → Answers m (Shows opened storage.new.now locks.new registers) (read_at m session (seat_of m session) (Ok rid)) result }
    ensures turns { (opened : ℕ) → HasTurns opened storage.old.now locks.old → (IsErrOf result StorageFault.Failed → ⊥) → HasTurns opened storage.new.now locks.new }
    ensures step { (IsErrOf result StorageFault.Failed → ⊥) → storage.new.now ≡ with_store storage.old.now storage.new.now.store }
    ensures images { (IsErrOf result StorageFault.Failed → ⊥) → storage.new.now.store.before ≡ storage.old.now.store.before }
    ensures past { D.tells → D.past storage.new.disk ≡ D.past storage.old.disk }
    ensures stored { D.tells → (g : Behind) → IsStored (D.past storage.old.disk) storage.old.now g → (IsErrOf result StorageFault.Failed → ⊥) → IsStored (D.past storage.new.disk) storage.new.now g }
    ensures unlocked { OnErr result (locks.new ≡ locks.old) }
    ensures places { (test : RidValue → Bool) → ArePending test locks.old → ArePending test locks.new }
    ensures memory { IsErrOf result StorageFault.NoMemory → (frame_of storage.old.now.store.pool rid.space rid.page ≡ None) ⊎ ((locks_of locks.old session).spare ≡ 0) }
    ensures stopped { IsErrOf result StorageFault.Failed → storage.new.now.stopped ≡ true }
    ensures only { IsErrOf result StorageFault.Stopped → ⊥ }
    ensures good { D.tells → (g : Behind) → IsStored (D.past storage.old.disk) storage.old.now g → (chunk page : ℕ) → IsErrOf result (StorageFault.Bad chunk page) → ⊥ }
    ensures cause { HasStorageCause (config_of storage.old.now) (D.fault_counts storage.old.disk) (D.fault_counts storage.new.disk) result }
{
    if let Some(holder) = locks.holder(session, rid, false) {
        return Ok(Reply::RowLocked { holder });
    }
    match storage.read(rid) {
        Ok(Some(row)) => share_read(locks, session, rid, row),
        Ok(None) => Ok(Reply::NoRow),
        Err(fault) => Err(fault),
    }
}

// Shares a slot whose row was read, for a session that no owner is in the way of.
fn share_read(locks: &mut Locks, session: u8, rid: Rid, row: Row) -> Result<Reply, StorageFault>
    requires session { IsSession session }
    requires open { HasTxn locks.old session }
    requires alone { holder_of (table_of locks.old) session rid false ≡ None }
    ensures answer { IfOk result (λ reply. reply ≡ RowReply row) }
    ensures sessions { length locks.old ≡ 16 }
    ensures ok { OnOk result (locks.new ≡ with_locks locks.old session (shared_more rid (locks_of locks.old session))) }
    ensures unchanged { OnErr result (locks.new ≡ locks.old) }
    ensures memory { OnErr result ((locks_of locks.old session).spare ≡ 0) }
    ensures only { IfErr result (λ fault. fault ≡ StorageFault.NoMemory) }
{
    // It tells that the sessions are 16.
    let _sessions = locks.is_open(session);
    match locks.try_share(session, rid) {
        Ok(()) => Ok(Reply::RowIs { row }),
        Err(_) => Err(StorageFault::NoMemory),
    }
}
