//! A row is inserted.

ghost use Rattle.std.specs.Prelude.{◌≡◌, ◌⊎◌, Bool, IfErr, IsErrOf, List, None, OnErr, OnOk, Some, false, length, true, ℕ};
ghost use Rattle.ol_values.specs.declared.record.Record.{Record as RecordValue};
ghost use Rattle.ol_values.specs.declared.record.Rid.{Rid as RidValue};
ghost use Rattle.ol_values.specs.Config.{has_place};
ghost use Rattle.ol_rules.specs.Locks.{holder_of};
ghost use Rattle.ol_model.specs.Machine.{Machine};
ghost use Rattle.ol_pool.specs.Frames.{frame_of};
ghost use Rattle.ol_ports.specs.Stops.{Stops};
ghost use Rattle.ol_running.specs.Running.{ShowsArchives};
ghost use Rattle.ol_storage.specs.Behind.{is_up};
ghost use Rattle.ol_storage.specs.Causes.{HasStorageCause};
ghost use Rattle.ol_storage.specs.Installation.{config_of, with_store};
ghost use Rattle.ol_storage.specs.Storing.{IsStored};
ghost use Rattle.ol_turn_laws.specs.Room.{Regular};
ghost use Rattle.ol_txn.specs.Seats.{IsSession, seat_of as locks_of, table_of};
ghost use Rattle.ol_engine.specs.Parts.{GoesOn, HasRisen, HasTurns, MayRise, Registers, Shows, anchor_made, behind_of, number_in};
ghost use Rattle.ol_engine.specs.Turns.{Answers, StandsWithinEither};
ghost use Rattle.ol_session_turns.specs.Pending.{ArePending};
ghost use Rattle.ol_row_turns.specs.Turns.{Leaves, SameCursors, inserted_turn, with_register};

use crate::images::Archives;
use crate::owner::Owner;
use crate::rows::write_row;
use ol_ports::Disk;
use ol_storage::{Storage, StorageFault};
use ol_txn::Locks;
use ol_values::{Reply, Rid, Row};

/// Inserts a row for the transaction of a session, into a slot of a page that is in memory, which is empty and carries no lock of another:
/// the least such of its space, as the search of `ol_free_slots` finds it. The place is the session's register `register`, from 0 to 9,
/// from then on; the caller sets it there. The page's image is kept first, where a running archive wants it, as `change` does.
///
/// `JournalFull` and `LogsFull` come exactly where the journal or the log has no room for the record and what it owes. `Failed` comes
/// only where the count of faults of a chunk rose; `NoMemory` changes nothing.
pub fn insert<D: Disk>(
    storage: &mut Storage<D>,
    locks: &mut Locks,
    archives: &mut Archives,
    opened: u64,
    owner: Owner,
    rid: Rid,
    row: Row,
) -> Result<Reply, StorageFault>
    requires session { IsSession owner.session }
    requires open { number_in (locks_of locks.old owner.session).holding ≡ Some owner.txn }
    requires alone { holder_of (table_of locks.old) owner.session rid true ≡ None }
    requires going { storage.old.now.stopped ≡ false }
    requires turns { HasTurns opened storage.old.now locks.old }
    requires rise { MayRise 2 storage.old.now }
    requires place { has_place (config_of storage.old.now) rid ≡ true }
    requires up { is_up storage.old.now.anchor rid.space ≡ true }
    requires frame { (bytes : List ℕ) × (frame_of storage.old.now.store.pool rid.space rid.page ≡ Some bytes) }
    ensures answer { (register : ℕ) (m : Machine) (registers : Registers) → length registers ≡ 16 → Shows opened storage.old.now locks.old registers m → Regular m
        → Answers m (Shows opened storage.new.now locks.new (with_register owner.session register registers result)) (inserted_turn m owner register rid row) result }
    ensures turns { (IsErrOf result StorageFault.Failed → ⊥) → HasTurns opened storage.new.now locks.new }
    ensures risen { OnOk result (HasRisen 2 storage.old.now storage.new.now) }
    ensures goes { (IsErrOf result StorageFault.Failed → ⊥) → GoesOn storage.old.now storage.new.now }
    ensures unwritten { OnErr result ((IsErrOf result StorageFault.Failed → ⊥) → storage.new.now ≡ with_store storage.old.now storage.new.now.store) }
    ensures untouched { OnErr result ((IsErrOf result StorageFault.Failed → ⊥) → (locks.new ≡ locks.old) × (archives.new ≡ archives.old)) }
    ensures cursors { SameCursors archives.old archives.new }
    ensures places { (test : RidValue → Bool) → ArePending test locks.old → test rid ≡ true → (IsErrOf result StorageFault.Failed → ⊥) → ArePending test locks.new }
    ensures archives { D.tells → (register : ℕ) (m : Machine) (registers : Registers) (earlier : ℕ → RecordValue) → Shows opened storage.old.now locks.old registers m → Regular m → IsStored (D.past storage.old.disk) storage.old.now (behind_of earlier m) → ShowsArchives archives.old storage.old.now.store.before m
        → Leaves m (λ n. ShowsArchives archives.new storage.new.now.store.before n) (inserted_turn m owner register rid row).1 result }
    ensures stops { D.tells → (register : ℕ) (m : Machine) (registers : Registers) (earlier : ℕ → RecordValue) → Shows opened storage.old.now locks.old registers m → Regular m → IsStored (D.past storage.old.disk) storage.old.now (behind_of earlier m)
        → Stops (D.past storage.old.disk) (D.past storage.new.disk) (StandsWithinEither storage.old.now (anchor_made storage.old.now locks.old) earlier (inserted_turn m owner register rid row).1) }
    ensures stored { D.tells → (register : ℕ) (m : Machine) (registers : Registers) (earlier : ℕ → RecordValue) → Shows opened storage.old.now locks.old registers m → Regular m → IsStored (D.past storage.old.disk) storage.old.now (behind_of earlier m)
        → OnOk result (IsStored (D.past storage.new.disk) storage.new.now (behind_of earlier (inserted_turn m owner register rid row).1)) }
    ensures still { D.tells → (m : Machine) (earlier : ℕ → RecordValue) → IsStored (D.past storage.old.disk) storage.old.now (behind_of earlier m) → IsErrOf result StorageFault.NoMemory → IsStored (D.past storage.new.disk) storage.new.now (behind_of earlier m) }
    ensures stopped { IsErrOf result StorageFault.Failed → storage.new.now.stopped ≡ true }
    ensures only { IfErr result (λ fault. (fault ≡ StorageFault.Failed) ⊎ (fault ≡ StorageFault.NoMemory)) }
    ensures cause { HasStorageCause (config_of storage.old.now) (D.fault_counts storage.old.disk) (D.fault_counts storage.new.disk) result }
{
    write_row(
        storage,
        locks,
        archives,
        opened,
        owner,
        rid,
        None,
        Some(row),
        Reply::At { rid },
    )
}
