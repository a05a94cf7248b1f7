//! A checkpoint, and a page that is cleaned.

ghost use Rattle.std.specs.Prelude.{◌≡◌, IfErr, List, OnErr, OnOk, false, slice_get, true, ℕ};
ghost use Rattle.ol_values.specs.declared.record.Record.{Record as RecordValue};
ghost use Rattle.ol_model.specs.LogTurns.{checkpoint_turn, clean_at, switch_turn};
ghost use Rattle.ol_model.specs.Machine.{Machine};
ghost use Rattle.ol_ports.specs.Stops.{Stops};
ghost use Rattle.ol_storage.specs.Causes.{HasStorageCause};
ghost use Rattle.ol_storage.specs.Installation.{config_of};
ghost use Rattle.ol_storage.specs.Storing.{IsStored};
ghost use Rattle.ol_loglog.specs.RingValue.{HasRoom};
ghost use Rattle.ol_turn_laws.specs.Room.{Regular};
ghost use Rattle.ol_txn.specs.Seats.{Seat};
ghost use Rattle.ol_engine.specs.Parts.{GoesOn, HasRisen, HasTurns, MayRise, Registers, Shows, anchor_made, behind_of};
ghost use Rattle.ol_log_turns.specs.Closing.{may_close};
ghost use Rattle.ol_engine.specs.Turns.{Answers, StandsWithinEither, StandsWithinTurn};

use ol_engine::make_checkpoint;
use ol_loglog::LogRing;
use ol_ports::Disk;
use ol_storage::{Storage, StorageFault};
use ol_txn::Locks;
use ol_values::Reply;

/// Makes a checkpoint at the last position, and answers it.
///
/// `Failed` comes only where the count of faults of a chunk rose, and is the only refusal.
pub fn checkpoint<D: Disk>(storage: &mut Storage<D>, locks: &Locks) -> Result<Reply, StorageFault>
    requires going { storage.old.now.stopped ≡ false }
    requires turns { (opened : ℕ) × HasTurns opened storage.old.now locks.now }
    requires rise { MayRise 1 storage.old.now }
    ensures answer { (opened : ℕ) (m : Machine) (registers : Registers) → Shows opened storage.old.now locks.now registers m → Regular m → Answers m (Shows opened storage.new.now locks.now registers) (checkpoint_turn m) result }
    ensures turns { (opened : ℕ) → HasTurns opened storage.old.now locks.now → OnOk result (HasTurns opened storage.new.now locks.now) }
    ensures risen { OnOk result (HasRisen 1 storage.old.now storage.new.now) }
    ensures images { OnOk result (storage.new.now.store.before ≡ storage.old.now.store.before) }
    ensures goes { OnOk result (GoesOn storage.old.now storage.new.now) }
    ensures stops { D.tells → (opened : ℕ) (m : Machine) (registers : Registers) (before : ℕ → RecordValue) → Shows opened storage.old.now locks.now registers m → Regular m → IsStored (D.past storage.old.disk) storage.old.now (behind_of before m)
        → Stops (D.past storage.old.disk) (D.past storage.new.disk) (StandsWithinEither storage.old.now (anchor_made storage.old.now locks.now) before m) }
    ensures stored { D.tells → (opened : ℕ) (m : Machine) (registers : Registers) (before : ℕ → RecordValue) → Shows opened storage.old.now locks.now registers m → Regular m → IsStored (D.past storage.old.disk) storage.old.now (behind_of before m)
        → OnOk result (IsStored (D.past storage.new.disk) storage.new.now (behind_of before m)) }
    ensures stopped { OnErr result (storage.new.now.stopped ≡ true) }
    ensures only { IfErr result (λ fault. fault ≡ StorageFault.Failed) }
    ensures cause { HasStorageCause (config_of storage.old.now) (D.fault_counts storage.old.disk) (D.fault_counts storage.new.disk) result }
{
    let position = storage.log().next_position() - 1;
    match make_checkpoint(storage, locks) {
        Ok(()) => Ok(Reply::Checkpointed { position }),
        Err(fault) => Err(fault),
    }
}

/// Writes the page that is longest dirty to its place, behind the flushed log, and answers it.
///
/// `NothingDirty` comes exactly where no page is dirty, and then nothing is asked of the disk. `Failed` comes only where the count of
/// faults of a chunk rose.
pub fn clean<D: Disk>(storage: &mut Storage<D>) -> Result<Reply, StorageFault>
    requires going { storage.old.now.stopped ≡ false }
    requires room { HasRoom storage.old.now.ring.config storage.old.now.ring.state }
    requires rise { MayRise 1 storage.old.now }
    ensures answer { (opened : ℕ) (seats : List Seat) (m : Machine) (registers : Registers) → Shows opened storage.old.now seats registers m → Answers m (Shows opened storage.new.now seats registers) (clean_at m (slice_get storage.old.now.store.pool.dirty 0)) result }
    ensures turns { (opened : ℕ) (seats : List Seat) → HasTurns opened storage.old.now seats → OnOk result (HasTurns opened storage.new.now seats) }
    ensures risen { OnOk result (HasRisen 1 storage.old.now storage.new.now) }
    ensures images { OnOk result (storage.new.now.store.before ≡ storage.old.now.store.before) }
    ensures goes { OnOk result (GoesOn storage.old.now storage.new.now) }
    ensures stops { D.tells → (m : Machine) (before : ℕ → RecordValue) → IsStored (D.past storage.old.disk) storage.old.now (behind_of before m)
        → Stops (D.past storage.old.disk) (D.past storage.new.disk) (StandsWithinTurn storage.old.now before m) }
    ensures stored { D.tells → (m : Machine) (before : ℕ → RecordValue) → IsStored (D.past storage.old.disk) storage.old.now (behind_of before m) → OnOk result (IsStored (D.past storage.new.disk) storage.new.now (behind_of before m)) }
    ensures stopped { OnErr result (storage.new.now.stopped ≡ true) }
    ensures only { IfErr result (λ fault. fault ≡ StorageFault.Failed) }
    ensures cause { HasStorageCause (config_of storage.old.now) (D.fault_counts storage.old.disk) (D.fault_counts storage.new.disk) result }
{
    match storage.clean_one() {
        Ok(Some((space, page))) => Ok(Reply::Cleaned { space, page }),
        Ok(None) => Ok(Reply::NothingDirty),
        Err(fault) => Err(fault),
    }
}

/// Closes the current log file behind a flush, and answers its unique number: the next page begins the next file.
///
/// Refusals, in this order: `NothingToBack` exactly where the current file is closed, or no page of it is written and no record is
/// buffered; `LogsFull` exactly where fewer pages than are owed would be free after it. `Failed` comes only where the count of faults
/// of a chunk rose.
pub fn switch<D: Disk>(storage: &mut Storage<D>, locks: &Locks) -> Result<Reply, StorageFault>
    requires going { storage.old.now.stopped ≡ false }
    requires turns { (opened : ℕ) × HasTurns opened storage.old.now locks.now }
    requires rise { MayRise 1 storage.old.now }
    ensures answer { (opened : ℕ) (m : Machine) (registers : Registers) → Shows opened storage.old.now locks.now registers m → Answers m (Shows opened storage.new.now locks.now registers) (switch_turn m) result }
    ensures turns { (opened : ℕ) → HasTurns opened storage.old.now locks.now → OnOk result (HasTurns opened storage.new.now locks.now) }
    ensures risen { OnOk result (HasRisen 1 storage.old.now storage.new.now) }
    ensures images { OnOk result (storage.new.now.store.before ≡ storage.old.now.store.before) }
    ensures goes { OnOk result (GoesOn storage.old.now storage.new.now) }
    ensures stops { D.tells → (m : Machine) (before : ℕ → RecordValue) → IsStored (D.past storage.old.disk) storage.old.now (behind_of before m)
        → Stops (D.past storage.old.disk) (D.past storage.new.disk) (StandsWithinTurn storage.old.now before m) }
    ensures stored { D.tells → (m : Machine) (before : ℕ → RecordValue) → IsStored (D.past storage.old.disk) storage.old.now (behind_of before m) → OnOk result (IsStored (D.past storage.new.disk) storage.new.now (behind_of before m)) }
    ensures stopped { OnErr result (storage.new.now.stopped ≡ true) }
    ensures only { IfErr result (λ fault. fault ≡ StorageFault.Failed) }
    ensures cause { HasStorageCause (config_of storage.old.now) (D.fault_counts storage.old.disk) (D.fault_counts storage.new.disk) result }
{
    // It tells what a stop leaves where nothing is asked of the disk, and that the anchor and the log go together.
    let _stands = storage.is_stopped();
    let log = storage.log();
    if !may_close(log) {
        return Ok(Reply::NothingToBack);
    }
    if u64::from(log.free_after_switch()) < locks.owed() {
        return Ok(Reply::LogsFull {
            uniq: log.blocker(),
        });
    }
    let uniq = log.uniq();
    match storage.switch() {
        Ok(()) => Ok(Reply::Switched { uniq }),
        Err(fault) => Err(fault),
    }
}

// Whether the current file is open, and a page of it is written or a record is buffered.
fn may_close(log: &LogRing) -> bool
    ensures { result ≡ may_close log.now }
{
    if log.written() {
        !log.closed()
    } else {
        log.held()
    }
}
