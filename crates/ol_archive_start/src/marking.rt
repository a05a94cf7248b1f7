//! The checkpoint at which an archive starts.

ghost use Rattle.std.specs.Prelude.{◌≡◌, ◌≤◌, ◌<◌, ◌+◌, ◌^◌, IfErr, OnErr, OnOk, false, true, ℕ};
ghost use Rattle.ol_values.specs.declared.record.Record.{Record};
ghost use Rattle.ol_model.specs.Machine.{Machine};
ghost use Rattle.ol_ports.specs.Stops.{Stops};
ghost use Rattle.ol_storage.specs.Causes.{HasStorageCause};
ghost use Rattle.ol_storage.specs.Installation.{checkpointed, config_of};
ghost use Rattle.ol_storage.specs.Storing.{IsStored};
ghost use Rattle.ol_turn_laws.specs.Room.{Regular};
ghost use Rattle.ol_engine.specs.Parts.{HasRisen, HasTurns, MayRise, Registers, Shows, behind_of, need_of};
ghost use Rattle.ol_engine.specs.Turns.{StandsWithinEither};
ghost use Rattle.ol_archive_start.specs.Starting.{anchor_started, checkpoint_started};

use ol_ports::Disk;
use ol_storage::{Storage, StorageFault};
use ol_txn::Locks;

/// Makes a checkpoint at the last position, by which the next archive gets the next number: its need is the least number of an open
/// transaction, else the position behind it.
///
/// `Failed` comes only where the count of faults of a chunk rose, and is the only refusal.
pub fn mark_start<D: Disk>(storage: &mut Storage<D>, locks: &Locks) -> Result<(), StorageFault>
    requires going { storage.old.now.stopped ≡ false }
    requires turns { (opened : ℕ) × HasTurns opened storage.old.now locks.now }
    requires rise { MayRise 1 storage.old.now }
    ensures step { OnOk result (storage.new.now ≡ checkpointed storage.old.now (need_of storage.old.now locks.now) (storage.old.now.anchor.next_archive + 1) storage.new.now.ring.gates) }
    ensures shows { (opened : ℕ) (m : Machine) (registers : Registers) → Shows opened storage.old.now locks.now registers m → Regular m → OnOk result (Shows opened storage.new.now locks.now registers (checkpoint_started m)) }
    ensures turns { (opened : ℕ) → HasTurns opened storage.old.now locks.now → OnOk result (HasTurns opened storage.new.now locks.now) }
    ensures risen { OnOk result (HasRisen 1 storage.old.now storage.new.now) }
    ensures stops { D.tells → (opened : ℕ) (m : Machine) (registers : Registers) (before : ℕ → Record) → Shows opened storage.old.now locks.now registers m → Regular m → IsStored (D.past storage.old.disk) storage.old.now (behind_of before m)
        → Stops (D.past storage.old.disk) (D.past storage.new.disk) (StandsWithinEither storage.old.now (anchor_started storage.old.now locks.now) before m) }
    ensures stored { D.tells → (opened : ℕ) (m : Machine) (registers : Registers) (before : ℕ → Record) → Shows opened storage.old.now locks.now registers m → Regular m → IsStored (D.past storage.old.disk) storage.old.now (behind_of before m)
        → OnOk result (IsStored (D.past storage.new.disk) storage.new.now (behind_of before m)) }
    ensures stopped { OnErr result (storage.new.now.stopped ≡ true) }
    ensures only { IfErr result (λ fault. fault ≡ StorageFault.Failed) }
    ensures cause { HasStorageCause (config_of storage.old.now) (D.fault_counts storage.old.disk) (D.fault_counts storage.new.disk) result }
{
    // It tells that the anchor and the log go together.
    let _going = storage.is_stopped();
    let next = storage.log().next_position();
    let need = locks.low().unwrap_or(next);
    let archive = storage.anchor().next_archive;
    storage.checkpoint(need, archive + 1)
}
