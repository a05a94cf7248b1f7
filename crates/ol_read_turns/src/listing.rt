//! The rows of a page are listed.

ghost use Rattle.std.specs.Prelude.{◌≡◌, ◌<◌, ◌⊎◌, Bool, IsErrOf, None, OnErr, Some, false, true, ℕ};
ghost use Rattle.ol_values.specs.declared.record.Record.{Record as RecordValue};
ghost use Rattle.ol_values.specs.declared.record.Rid.{Rid as RidValue};
ghost use Rattle.ol_values.specs.Config.{has_page};
ghost use Rattle.ol_model.specs.Machine.{Machine, seat_of};
ghost use Rattle.ol_model.specs.SessionTurns.{list_at};
ghost use Rattle.ol_pool.specs.Frames.{frame_of};
ghost use Rattle.ol_session_turns.specs.Pending.{ArePending};
ghost use Rattle.ol_storage.specs.Behind.{Behind, is_up};
ghost use Rattle.ol_storage.specs.Causes.{HasStorageCause};
ghost use Rattle.ol_storage.specs.Installation.{config_of, with_store};
ghost use Rattle.ol_storage.specs.Storing.{IsStored};
ghost use Rattle.ol_turn_laws.specs.Room.{Regular};
ghost use Rattle.ol_txn.specs.Seats.{HasTxn, IsSession, seat_of as locks_of};
ghost use Rattle.ol_engine.specs.Parts.{HasTurns, Registers, Shows, behind_of};
ghost use Rattle.ol_engine.specs.Turns.{Answers};

use crate::owners::page_owner;
use crate::page::full_slots;
use crate::sharing::share_slots;
use ol_ports::Disk;
use ol_storage::{Storage, StorageFault};
use ol_txn::Locks;
use ol_values::Reply;

/// Lists the slots of a page that hold a row, for the open transaction of a session, which shares them all from then on: bit i of the
/// answer is set where slot i, from 0 to 30, holds one. Sessions count from 1 to 16; the page is one of a space that is up. Nothing is
/// written.
///
/// Refusal: `RowLocked` exactly where another session owns a slot of the page, with the least such; it comes before anything is read.
/// `Failed` comes only where the count of faults of a chunk rose, and stops the storage. `NoMemory` comes only where the page is not in
/// memory, or the session has not places for 31 locks more; it changes no lock. `Bad` never comes over a disk that tells its bytes.
pub fn list<D: Disk>(
    storage: &mut Storage<D>,
    locks: &mut Locks,
    session: u8,
    space: u8,
    page: u16,
) -> Result<Reply, StorageFault>
    requires session { IsSession session }
    requires open { HasTxn locks.old session }
    requires going { storage.old.now.stopped ≡ false }
    requires page { has_page (config_of storage.old.now) space page ≡ true }
    requires up { is_up storage.old.now.anchor space ≡ true }
    ensures answer { D.tells → (opened : ℕ) (m : Machine) (registers : Registers) (earlier : ℕ → RecordValue) → Shows opened storage.old.now locks.old registers m → Regular m → IsStored (D.past storage.old.disk) storage.old.now (behind_of earlier m)
        → Answers m (Shows opened storage.new.now locks.new registers) (list_at m session (seat_of m session) page (Some space)) result }
    ensures turns { (opened : ℕ) → HasTurns opened storage.old.now locks.old → (IsErrOf result StorageFault.Failed → ⊥) → HasTurns opened storage.new.now locks.new }
    ensures step { (IsErrOf result StorageFault.Failed → ⊥) → storage.new.now ≡ with_store storage.old.now storage.new.now.store }
    ensures images { (IsErrOf result StorageFault.Failed → ⊥) → storage.new.now.store.before ≡ storage.old.now.store.before }
    ensures past { D.tells → D.past storage.new.disk ≡ D.past storage.old.disk }
    ensures stored { D.tells → (g : Behind) → IsStored (D.past storage.old.disk) storage.old.now g → (IsErrOf result StorageFault.Failed → ⊥) → IsStored (D.past storage.new.disk) storage.new.now g }
    ensures unlocked { OnErr result (locks.new ≡ locks.old) }
    ensures places { (test : RidValue → Bool) → ArePending test locks.old → ArePending test locks.new }
    ensures memory { IsErrOf result StorageFault.NoMemory → (frame_of storage.old.now.store.pool space page ≡ None) ⊎ ((locks_of locks.old session).spare < 31) }
    ensures stopped { IsErrOf result StorageFault.Failed → storage.new.now.stopped ≡ true }
    ensures only { IsErrOf result StorageFault.Stopped → ⊥ }
    ensures good { D.tells → (g : Behind) → IsStored (D.past storage.old.disk) storage.old.now g → (chunk at : ℕ) → IsErrOf result (StorageFault.Bad chunk at) → ⊥ }
    ensures cause { HasStorageCause (config_of storage.old.now) (D.fault_counts storage.old.disk) (D.fault_counts storage.new.disk) result }
{
    if let Some(holder) = page_owner(locks, session, space, page) {
        return Ok(Reply::RowLocked { holder });
    }
    match full_slots(storage, space, page) {
        Ok(bits) => share_slots(locks, session, space, page, bits),
        Err(fault) => Err(fault),
    }
}
