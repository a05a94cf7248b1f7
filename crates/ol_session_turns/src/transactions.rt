//! A transaction begins, and ends.

ghost use Rattle.std.specs.Prelude.{◌≡◌, ◌<◌, ◌+◌, ◌^◌, IfErr, None, OnErr, OnOk, Some, false, true, ℕ, []};
ghost use Rattle.ol_values.specs.declared.record.Record.{Record as RecordValue};
ghost use Rattle.ol_model.specs.Machine.{Machine};
ghost use Rattle.ol_ports.specs.Stops.{Stops};
ghost use Rattle.ol_rules.specs.Locks.{Holding};
ghost use Rattle.ol_storage.specs.Causes.{HasStorageCause};
ghost use Rattle.ol_storage.specs.Installation.{config_of};
ghost use Rattle.ol_storage.specs.Storing.{IsStored};
ghost use Rattle.ol_turn_laws.specs.Room.{Regular};
ghost use Rattle.ol_txn.specs.Seats.{IsSession, seat_of as locks_of};
ghost use Rattle.ol_engine.specs.Parts.{GoesOn, HasRisen, HasTurns, MayRise, Registers, Shows, behind_of, number_in};
ghost use Rattle.ol_engine.specs.Turns.{Answers, StandsWithinTurn, no_room_of};
ghost use Rattle.ol_session_turns.specs.Pending.{HoldsNoMore};
ghost use Rattle.ol_session_turns.specs.Turns.{begin_turn, commit_turn, rolled_turn};

use ol_engine::no_room;
use ol_ports::Disk;
use ol_storage::{Storage, StorageFault};
use ol_txn::Locks;
use ol_values::{Record, Reply};

/// Begins a transaction of a session, from 1 to 16. Its number is the position of its first record.
///
/// Refusals, in this order: `TxnOpen` exactly where the session has an open transaction; `JournalFull` and `LogsFull` exactly where the
/// journal or the log has no room for the record and what it owes. `opened` is the journal's length as the opening ended. `Failed`
/// comes only where the count of faults of a chunk rose.
pub fn begin<D: Disk>(
    storage: &mut Storage<D>,
    locks: &mut Locks,
    opened: u64,
    session: u8,
) -> Result<Reply, StorageFault>
    requires session { IsSession session }
    requires going { storage.old.now.stopped ≡ false }
    requires turns { HasTurns opened storage.old.now locks.old }
    requires rise { MayRise 1 storage.old.now }
    ensures answer { (m : Machine) (registers : Registers) → Shows opened storage.old.now locks.old registers m → Regular m → Answers m (Shows opened storage.new.now locks.new registers) (begin_turn m session) result }
    ensures turns { OnOk result (HasTurns opened storage.new.now locks.new) }
    ensures risen { OnOk result (HasRisen 1 storage.old.now storage.new.now) }
    ensures images { OnOk result (storage.new.now.store.before ≡ storage.old.now.store.before) }
    ensures goes { OnOk result (GoesOn storage.old.now storage.new.now) }
    ensures places { OnOk result (HoldsNoMore locks.old locks.new) }
    ensures stops { D.tells → (m : Machine) (registers : Registers) (before : ℕ → RecordValue) → Shows opened storage.old.now locks.old registers m → Regular m → IsStored (D.past storage.old.disk) storage.old.now (behind_of before m)
        → Stops (D.past storage.old.disk) (D.past storage.new.disk) (StandsWithinTurn storage.old.now before (begin_turn m session).1) }
    ensures stored { D.tells → (m : Machine) (registers : Registers) (before : ℕ → RecordValue) → Shows opened storage.old.now locks.old registers m → Regular m → IsStored (D.past storage.old.disk) storage.old.now (behind_of before m)
        → OnOk result (IsStored (D.past storage.new.disk) storage.new.now (behind_of before (begin_turn m session).1)) }
    ensures stopped { OnErr result (storage.new.now.stopped ≡ true) }
    ensures only { IfErr result (λ fault. fault ≡ StorageFault.Failed) }
    ensures cause { HasStorageCause (config_of storage.old.now) (D.fault_counts storage.old.disk) (D.fault_counts storage.new.disk) result }
{
    // It tells what a stop leaves where nothing is asked of the disk.
    let _stands = storage.is_stopped();
    if locks.is_open(session) {
        return Ok(Reply::TxnOpen);
    }
    match no_room(storage, locks, opened) {
        Some(refusal) => Ok(refusal),
        None => begin_next(storage, locks, opened, session),
    }
}

// Begins a transaction where nothing is in the way.
fn begin_next<D: Disk>(
    storage: &mut Storage<D>,
    locks: &mut Locks,
    opened: u64,
    session: u8,
) -> Result<Reply, StorageFault>
    requires session { IsSession session }
    requires going { storage.old.now.stopped ≡ false }
    requires turns { HasTurns opened storage.old.now locks.old }
    requires rise { MayRise 1 storage.old.now }
    requires idle { (locks_of locks.old session).holding ≡ None }
    requires room { no_room_of opened storage.old.now locks.old ≡ None }
    ensures answer { (m : Machine) (registers : Registers) → Shows opened storage.old.now locks.old registers m → Regular m → Answers m (Shows opened storage.new.now locks.new registers) (begin_turn m session) result }
    ensures turns { OnOk result (HasTurns opened storage.new.now locks.new) }
    ensures risen { OnOk result (HasRisen 1 storage.old.now storage.new.now) }
    ensures images { OnOk result (storage.new.now.store.before ≡ storage.old.now.store.before) }
    ensures goes { OnOk result (GoesOn storage.old.now storage.new.now) }
    ensures places { OnOk result (HoldsNoMore locks.old locks.new) }
    ensures stops { D.tells → (m : Machine) (registers : Registers) (before : ℕ → RecordValue) → Shows opened storage.old.now locks.old registers m → Regular m → IsStored (D.past storage.old.disk) storage.old.now (behind_of before m)
        → Stops (D.past storage.old.disk) (D.past storage.new.disk) (StandsWithinTurn storage.old.now before (begin_turn m session).1) }
    ensures stored { D.tells → (m : Machine) (registers : Registers) (before : ℕ → RecordValue) → Shows opened storage.old.now locks.old registers m → Regular m → IsStored (D.past storage.old.disk) storage.old.now (behind_of before m)
        → OnOk result (IsStored (D.past storage.new.disk) storage.new.now (behind_of before (begin_turn m session).1)) }
    ensures stopped { OnErr result (storage.new.now.stopped ≡ true) }
    ensures only { IfErr result (λ fault. fault ≡ StorageFault.Failed) }
    ensures cause { HasStorageCause (config_of storage.old.now) (D.fault_counts storage.old.disk) (D.fault_counts storage.new.disk) result }
{
    // These tell that the log is whole, and that the sessions are 16.
    let _whole = (storage.is_stopped(), locks.is_open(session));
    let txn = storage.log().next_position();
    match storage.append(&Record::Begin { txn }) {
        Ok(()) => {
            // It always succeeds.
            let _begun = locks.begin(session, txn);
            Ok(Reply::Begun { txn })
        }
        Err(fault) => Err(fault),
    }
}

/// Commits the transaction of a session, from 1 to 16: its record is appended and the log flushed before the answer, and all its locks
/// are gone.
///
/// `NoTxn` comes exactly where the session has no open transaction. `Failed` comes only where the count of faults of a chunk rose.
pub fn commit<D: Disk>(
    storage: &mut Storage<D>,
    locks: &mut Locks,
    session: u8,
) -> Result<Reply, StorageFault>
    requires session { IsSession session }
    requires going { storage.old.now.stopped ≡ false }
    requires turns { (opened : ℕ) × HasTurns opened storage.old.now locks.old }
    requires rise { MayRise 2 storage.old.now }
    ensures answer { (opened : ℕ) (m : Machine) (registers : Registers) → Shows opened storage.old.now locks.old registers m → Regular m → Answers m (Shows opened storage.new.now locks.new registers) (commit_turn m session) result }
    ensures turns { (opened : ℕ) → HasTurns opened storage.old.now locks.old → OnOk result (HasTurns opened storage.new.now locks.new) }
    ensures risen { OnOk result (HasRisen 2 storage.old.now storage.new.now) }
    ensures images { OnOk result (storage.new.now.store.before ≡ storage.old.now.store.before) }
    ensures goes { OnOk result (GoesOn storage.old.now storage.new.now) }
    ensures places { OnOk result (HoldsNoMore locks.old locks.new) }
    ensures stops { D.tells → (opened : ℕ) (m : Machine) (registers : Registers) (before : ℕ → RecordValue) → Shows opened storage.old.now locks.old registers m → Regular m → IsStored (D.past storage.old.disk) storage.old.now (behind_of before m)
        → Stops (D.past storage.old.disk) (D.past storage.new.disk) (StandsWithinTurn storage.old.now before (commit_turn m session).1) }
    ensures stored { D.tells → (opened : ℕ) (m : Machine) (registers : Registers) (before : ℕ → RecordValue) → Shows opened storage.old.now locks.old registers m → Regular m → IsStored (D.past storage.old.disk) storage.old.now (behind_of before m)
        → OnOk result (IsStored (D.past storage.new.disk) storage.new.now (behind_of before (commit_turn m session).1)) }
    ensures stopped { OnErr result (storage.new.now.stopped ≡ true) }
    ensures only { IfErr result (λ fault. fault ≡ StorageFault.Failed) }
    ensures cause { HasStorageCause (config_of storage.old.now) (D.fault_counts storage.old.disk) (D.fault_counts storage.new.disk) result }
{
    // It tells what a stop leaves where nothing is asked of the disk.
    let _stands = storage.is_stopped();
    match locks.txn(session) {
        Some(txn) => commit_open(storage, locks, session, txn),
        None => Ok(Reply::NoTxn),
    }
}

// Commits the open transaction of a session.
fn commit_open<D: Disk>(
    storage: &mut Storage<D>,
    locks: &mut Locks,
    session: u8,
    txn: u64,
) -> Result<Reply, StorageFault>
    requires session { IsSession session }
    requires going { storage.old.now.stopped ≡ false }
    requires turns { (opened : ℕ) × HasTurns opened storage.old.now locks.old }
    requires rise { MayRise 2 storage.old.now }
    requires open { number_in (locks_of locks.old session).holding ≡ Some txn }
    ensures answer { (opened : ℕ) (m : Machine) (registers : Registers) → Shows opened storage.old.now locks.old registers m → Regular m → Answers m (Shows opened storage.new.now locks.new registers) (commit_turn m session) result }
    ensures turns { (opened : ℕ) → HasTurns opened storage.old.now locks.old → OnOk result (HasTurns opened storage.new.now locks.new) }
    ensures risen { OnOk result (HasRisen 2 storage.old.now storage.new.now) }
    ensures images { OnOk result (storage.new.now.store.before ≡ storage.old.now.store.before) }
    ensures goes { OnOk result (GoesOn storage.old.now storage.new.now) }
    ensures places { OnOk result (HoldsNoMore locks.old locks.new) }
    ensures stops { D.tells → (opened : ℕ) (m : Machine) (registers : Registers) (before : ℕ → RecordValue) → Shows opened storage.old.now locks.old registers m → Regular m → IsStored (D.past storage.old.disk) storage.old.now (behind_of before m)
        → Stops (D.past storage.old.disk) (D.past storage.new.disk) (StandsWithinTurn storage.old.now before (commit_turn m session).1) }
    ensures stored { D.tells → (opened : ℕ) (m : Machine) (registers : Registers) (before : ℕ → RecordValue) → Shows opened storage.old.now locks.old registers m → Regular m → IsStored (D.past storage.old.disk) storage.old.now (behind_of before m)
        → OnOk result (IsStored (D.past storage.new.disk) storage.new.now (behind_of before (commit_turn m session).1)) }
    ensures stopped { OnErr result (storage.new.now.stopped ≡ true) }
    ensures only { IfErr result (λ fault. fault ≡ StorageFault.Failed) }
    ensures cause { HasStorageCause (config_of storage.old.now) (D.fault_counts storage.old.disk) (D.fault_counts storage.new.disk) result }
{
    // These tell that the log is whole, and that the sessions are 16.
    let _whole = (storage.is_stopped(), locks.is_open(session));
    let position = storage.log().next_position();
    match storage.append(&Record::Commit { txn }) {
        Ok(()) => {}
        Err(fault) => return Err(fault),
    }
    match storage.flush() {
        Ok(()) => {
            locks.forget(session);
            Ok(Reply::Committed { position })
        }
        Err(fault) => Err(fault),
    }
}

/// Ends the roll back of a session's transaction, of which all changes are taken back: its record is appended, and all its locks are
/// gone. Sessions count from 1 to 16.
///
/// `NoTxn` comes exactly where the session has no open transaction. `Failed` comes only where the count of faults of a chunk rose.
pub fn rolled<D: Disk>(
    storage: &mut Storage<D>,
    locks: &mut Locks,
    session: u8,
) -> Result<Reply, StorageFault>
    requires session { IsSession session }
    requires going { storage.old.now.stopped ≡ false }
    requires turns { (opened : ℕ) × HasTurns opened storage.old.now locks.old }
    requires rise { MayRise 1 storage.old.now }
    ensures answer { (opened : ℕ) (m : Machine) (registers : Registers) → Shows opened storage.old.now locks.old registers m → Regular m → Answers m (Shows opened storage.new.now locks.new registers) (rolled_turn m session) result }
    ensures turns { (opened : ℕ) → HasTurns opened storage.old.now locks.old → OnOk result (HasTurns opened storage.new.now locks.new) }
    ensures risen { OnOk result (HasRisen 1 storage.old.now storage.new.now) }
    ensures images { OnOk result (storage.new.now.store.before ≡ storage.old.now.store.before) }
    ensures goes { OnOk result (GoesOn storage.old.now storage.new.now) }
    ensures places { OnOk result (HoldsNoMore locks.old locks.new) }
    ensures stops { D.tells → (opened : ℕ) (m : Machine) (registers : Registers) (before : ℕ → RecordValue) → Shows opened storage.old.now locks.old registers m → Regular m → IsStored (D.past storage.old.disk) storage.old.now (behind_of before m)
        → Stops (D.past storage.old.disk) (D.past storage.new.disk) (StandsWithinTurn storage.old.now before (rolled_turn m session).1) }
    ensures stored { D.tells → (opened : ℕ) (m : Machine) (registers : Registers) (before : ℕ → RecordValue) → Shows opened storage.old.now locks.old registers m → Regular m → IsStored (D.past storage.old.disk) storage.old.now (behind_of before m)
        → OnOk result (IsStored (D.past storage.new.disk) storage.new.now (behind_of before (rolled_turn m session).1)) }
    ensures stopped { OnErr result (storage.new.now.stopped ≡ true) }
    ensures only { IfErr result (λ fault. fault ≡ StorageFault.Failed) }
    ensures cause { HasStorageCause (config_of storage.old.now) (D.fault_counts storage.old.disk) (D.fault_counts storage.new.disk) result }
{
    // It tells what a stop leaves where nothing is asked of the disk.
    let _stands = storage.is_stopped();
    match locks.txn(session) {
        Some(txn) => end_rolled(storage, locks, session, txn),
        None => Ok(Reply::NoTxn),
    }
}

// Ends the roll back of the open transaction of a session.
fn end_rolled<D: Disk>(
    storage: &mut Storage<D>,
    locks: &mut Locks,
    session: u8,
    txn: u64,
) -> Result<Reply, StorageFault>
    requires session { IsSession session }
    requires going { storage.old.now.stopped ≡ false }
    requires turns { (opened : ℕ) × HasTurns opened storage.old.now locks.old }
    requires rise { MayRise 1 storage.old.now }
    requires open { number_in (locks_of locks.old session).holding ≡ Some txn }
    ensures answer { (opened : ℕ) (m : Machine) (registers : Registers) → Shows opened storage.old.now locks.old registers m → Regular m → Answers m (Shows opened storage.new.now locks.new registers) (rolled_turn m session) result }
    ensures turns { (opened : ℕ) → HasTurns opened storage.old.now locks.old → OnOk result (HasTurns opened storage.new.now locks.new) }
    ensures risen { OnOk result (HasRisen 1 storage.old.now storage.new.now) }
    ensures images { OnOk result (storage.new.now.store.before ≡ storage.old.now.store.before) }
    ensures goes { OnOk result (GoesOn storage.old.now storage.new.now) }
    ensures places { OnOk result (HoldsNoMore locks.old locks.new) }
    ensures stops { D.tells → (opened : ℕ) (m : Machine) (registers : Registers) (before : ℕ → RecordValue) → Shows opened storage.old.now locks.old registers m → Regular m → IsStored (D.past storage.old.disk) storage.old.now (behind_of before m)
        → Stops (D.past storage.old.disk) (D.past storage.new.disk) (StandsWithinTurn storage.old.now before (rolled_turn m session).1) }
    ensures stored { D.tells → (opened : ℕ) (m : Machine) (registers : Registers) (before : ℕ → RecordValue) → Shows opened storage.old.now locks.old registers m → Regular m → IsStored (D.past storage.old.disk) storage.old.now (behind_of before m)
        → OnOk result (IsStored (D.past storage.new.disk) storage.new.now (behind_of before (rolled_turn m session).1)) }
    ensures stopped { OnErr result (storage.new.now.stopped ≡ true) }
    ensures only { IfErr result (λ fault. fault ≡ StorageFault.Failed) }
    ensures cause { HasStorageCause (config_of storage.old.now) (D.fault_counts storage.old.disk) (D.fault_counts storage.new.disk) result }
{
    // These tell that the log is whole, and that the sessions are 16.
    let _whole = (storage.is_stopped(), locks.is_open(session));
    let position = storage.log().next_position();
    match storage.append(&Record::Rolled { txn }) {
        Ok(()) => {
            locks.forget(session);
            Ok(Reply::RolledBack { position })
        }
        Err(fault) => Err(fault),
    }
}
