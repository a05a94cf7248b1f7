//! The turns of sessions that change rows.

ghost use Rattle.std.specs.Prelude.{◌≡◌, ◌<◌, ◌≤◌, ◌+◌, ◌++◌, ◌∷◌, ◌^◌, [], IfOk, IfSome, IsErrOf, List, None, OnErr, OnOk, Some, length, true, ℕ};
ghost use Rattle.ol_values.specs.declared.event.Event.TheVariants.{Delete as DeleteEvent, Insert as InsertEvent, UndoOne as UndoEvent, Update as UpdateEvent};
ghost use Rattle.ol_values.specs.declared.history.Actor.TheVariants.{Session as SessionValue};
ghost use Rattle.ol_values.specs.declared.record.Record.{Record as RecordValue};
ghost use Rattle.ol_values.specs.Config.{has_place};
ghost use Rattle.ol_rules.specs.Locks.{holder_of};
ghost use Rattle.ol_model.specs.Machine.{Machine, first_free, seat_of};
ghost use Rattle.ol_model.specs.SessionTurns.{change_turn, insert_at, insert_turn};
ghost use Rattle.ol_engine.specs.Parts.{number_in};
ghost use Rattle.ol_pool.specs.Frames.{frame_of};
ghost use Rattle.ol_row_turns.specs.Turns.{inserted_turn, with_register};
ghost use Rattle.ol_storage.specs.Behind.{is_up};
ghost use Rattle.ol_engine.specs.Turns.{Answers};
ghost use Rattle.ol_storage.specs.Causes.{HasStorageCause};
ghost use Rattle.ol_storage.specs.Installation.{config_of};
ghost use Rattle.ol_targets.specs.Naming.{IsTarget};
ghost use Rattle.ol_txn.specs.Seats.{IsSession, last_of, seat_of as locks_of, table_of};
ghost use Rattle.ol_turns.specs.Cores.{HasReplyCause, IsGoing, IsOfSession, IsShown, IsTold, IsWhole, Runs, entry_of, history_of};
ghost use Rattle.ol_turns.specs.RowTurns.{hints_behind, hints_opened};

use crate::NoMemory;
use crate::engine::Core;
use crate::registers::Registers;
use crate::state::State;
use ol_free_slots::{Hints, find_free};
use ol_ports::Disk;
use ol_row_turns::{Owner, change, insert, undo};
use ol_storage::{Storage, StorageFault};
use ol_targets::{find_space, find_target};
use ol_txn::Locks;
use ol_values::{Actor, By, Event, Label, Reply, Rid, Row, Target};

impl<D: Disk> Core<D> {
    /// Takes back the newest change of the transaction of a session, from 1 to 16, that is not taken back yet.
    ///
    /// Refusals, in this order: `Stopped` exactly where an entry has stopped the engine, with that entry; `NoTxn` exactly where the session
    /// has no open transaction, or no such change; `DiskFault` only where the chunk's count of faults rose, and `BadRead`, never over a disk
    /// that tells its bytes: both stop the engine. At `NoMemory` the history has not changed.
    pub fn undo_one(&mut self, by: By) -> Result<Reply, NoMemory>
        requires by { IsOfSession by.actor }
        requires whole { IsWhole (D.fault_counts self.old.storage.disk) self.old.storage.now self.old.state }
        ensures whole { IsWhole (D.fault_counts self.new.storage.disk) self.new.storage.now self.new.state }
        ensures runs { D.tells → (earlier : ℕ → RecordValue) (begun : Machine) → Runs earlier begun (D.past self.old.storage.disk) self.old.storage.now self.old.state → Runs earlier begun (D.past self.new.storage.disk) self.new.storage.now self.new.state }
        ensures entry { IfOk result (λ reply. history_of self.new.state ≡ history_of self.old.state ++ entry_of self.old.state by UndoEvent (D.moment self.old.storage.disk) (D.moment self.new.storage.disk) reply ∷ []) }
        ensures memory { OnErr result (history_of self.new.state ≡ history_of self.old.state) }
        ensures counts { self.new.state.stopped ≡ None → D.fault_counts self.new.storage.disk ≡ D.fault_counts self.old.storage.disk }
        ensures cause { D.tells → (earlier : ℕ → RecordValue) (begun : Machine) → Runs earlier begun (D.past self.old.storage.disk) self.old.storage.now self.old.state → IfOk result (HasReplyCause (D.fault_counts self.old.storage.disk) (D.fault_counts self.new.storage.disk)) }
    {
        match self.state.entries.reserve(1) {
            Ok(()) => {}
            Err(fault) => return Err(fault),
        }
        // It tells that the configuration is whole.
        let _whole = self.storage.is_stopped();
        let start = self.storage.disk().calls();
        if let Some(entry) = self.state.stopped {
            return Ok(self.state.refuse(by, Event::UndoOne, start, entry));
        }
        let session = session_in(by.actor);
        // The slot may be empty behind the undo.
        open_hint(&mut self.state.hints, &self.state.locks, session);
        let entry = self.state.next_entry();
        let answered = undo(
            &mut self.storage,
            &mut self.state.locks,
            &mut self.state.archives,
            session,
            entry,
        );
        self.state
            .finish(self.storage.disk(), by, Event::UndoOne, start, answered)
    }

    /// Inserts a row into a space, for the transaction of a session, from 1 to 16: into the least slot that is empty and carries no lock. The
    /// place is the session's register `reg`, from 0 to 9, from then on.
    ///
    /// Refusals, in this order: `Stopped` exactly where an entry has stopped the engine, with that entry; `NoTxn` exactly where the session
    /// has no open transaction; `NoSpace` and `SpaceDown` as `ol_targets::find_space` tells them; `SpaceFull` exactly where the space has no
    /// such slot; `JournalFull` and `LogsFull` as `ol_row_turns::insert` tells them; `DiskFault` only where the chunk's count of faults rose,
    /// and `BadRead`, never over a disk that tells its bytes: both stop the engine. At `NoMemory` the history has not changed.
    pub fn insert(&mut self, by: By, reg: u8, space: Label, row: Row) -> Result<Reply, NoMemory>
        requires by { IsOfSession by.actor }
        requires register { reg ≤ 9 }
        requires whole { IsWhole (D.fault_counts self.old.storage.disk) self.old.storage.now self.old.state }
        ensures whole { IsWhole (D.fault_counts self.new.storage.disk) self.new.storage.now self.new.state }
        ensures runs { D.tells → (earlier : ℕ → RecordValue) (begun : Machine) → Runs earlier begun (D.past self.old.storage.disk) self.old.storage.now self.old.state → Runs earlier begun (D.past self.new.storage.disk) self.new.storage.now self.new.state }
        ensures entry { IfOk result (λ reply. history_of self.new.state ≡ history_of self.old.state ++ entry_of self.old.state by (InsertEvent reg space row) (D.moment self.old.storage.disk) (D.moment self.new.storage.disk) reply ∷ []) }
        ensures memory { OnErr result (history_of self.new.state ≡ history_of self.old.state) }
        ensures counts { self.new.state.stopped ≡ None → D.fault_counts self.new.storage.disk ≡ D.fault_counts self.old.storage.disk }
        ensures cause { D.tells → (earlier : ℕ → RecordValue) (begun : Machine) → Runs earlier begun (D.past self.old.storage.disk) self.old.storage.now self.old.state → IfOk result (HasReplyCause (D.fault_counts self.old.storage.disk) (D.fault_counts self.new.storage.disk)) }
    {
        match self.state.entries.reserve(1) {
            Ok(()) => {}
            Err(fault) => return Err(fault),
        }
        // These tell that the configuration is whole, and the row is short.
        let _whole = (self.storage.is_stopped(), row.as_slice().len());
        let start = self.storage.disk().calls();
        let event = Event::Insert {
            reg,
            space,
            row: row.copy(),
        };
        if let Some(entry) = self.state.stopped {
            return Ok(self.state.refuse(by, event, start, entry));
        }
        let session = session_in(by.actor);
        let answered = insert_named(
            &mut self.storage,
            &mut self.state,
            session,
            reg,
            &space,
            row,
        );
        self.state
            .finish(self.storage.disk(), by, event, start, answered)
    }

    /// Gives the row that a target names another value, for the transaction of a session, from 1 to 16. A register of the target is one from
    /// 0 to 9. Refusals are those of `delete`.
    pub fn update(&mut self, by: By, target: Target, row: Row) -> Result<Reply, NoMemory>
        requires by { IsOfSession by.actor }
        requires target { IsTarget target }
        requires whole { IsWhole (D.fault_counts self.old.storage.disk) self.old.storage.now self.old.state }
        ensures whole { IsWhole (D.fault_counts self.new.storage.disk) self.new.storage.now self.new.state }
        ensures runs { D.tells → (earlier : ℕ → RecordValue) (begun : Machine) → Runs earlier begun (D.past self.old.storage.disk) self.old.storage.now self.old.state → Runs earlier begun (D.past self.new.storage.disk) self.new.storage.now self.new.state }
        ensures entry { IfOk result (λ reply. history_of self.new.state ≡ history_of self.old.state ++ entry_of self.old.state by (UpdateEvent target row) (D.moment self.old.storage.disk) (D.moment self.new.storage.disk) reply ∷ []) }
        ensures memory { OnErr result (history_of self.new.state ≡ history_of self.old.state) }
        ensures counts { self.new.state.stopped ≡ None → D.fault_counts self.new.storage.disk ≡ D.fault_counts self.old.storage.disk }
        ensures cause { D.tells → (earlier : ℕ → RecordValue) (begun : Machine) → Runs earlier begun (D.past self.old.storage.disk) self.old.storage.now self.old.state → IfOk result (HasReplyCause (D.fault_counts self.old.storage.disk) (D.fault_counts self.new.storage.disk)) }
    {
        match self.state.entries.reserve(1) {
            Ok(()) => {}
            Err(fault) => return Err(fault),
        }
        // These tell that the configuration is whole, and the row is short.
        let _whole = (self.storage.is_stopped(), row.as_slice().len());
        let start = self.storage.disk().calls();
        let event = Event::Update {
            target,
            row: row.copy(),
        };
        if let Some(entry) = self.state.stopped {
            return Ok(self.state.refuse(by, event, start, entry));
        }
        let session = session_in(by.actor);
        let answered = change_target(
            &mut self.storage,
            &mut self.state,
            session,
            &target,
            Some(row),
        );
        self.state
            .finish(self.storage.disk(), by, event, start, answered)
    }

    /// Deletes the row that a target names, for the transaction of a session, from 1 to 16. A register of the target is one from 0 to 9.
    ///
    /// Refusals, in this order: `Stopped` exactly where an entry has stopped the engine, with that entry; `NoTxn` exactly where the session
    /// has no open transaction; `Unbound`, `NoSpace`, `BadRid` and `SpaceDown` as `ol_targets::find_target` tells them; `RowLocked`, `NoRow`,
    /// `JournalFull` and `LogsFull` as `ol_row_turns::change` tells them; `DiskFault` only where the chunk's count of faults rose, and
    /// `BadRead`, never over a disk that tells its bytes: both stop the engine. At `NoMemory` the history has not changed.
    pub fn delete(&mut self, by: By, target: Target) -> Result<Reply, NoMemory>
        requires by { IsOfSession by.actor }
        requires target { IsTarget target }
        requires whole { IsWhole (D.fault_counts self.old.storage.disk) self.old.storage.now self.old.state }
        ensures whole { IsWhole (D.fault_counts self.new.storage.disk) self.new.storage.now self.new.state }
        ensures runs { D.tells → (earlier : ℕ → RecordValue) (begun : Machine) → Runs earlier begun (D.past self.old.storage.disk) self.old.storage.now self.old.state → Runs earlier begun (D.past self.new.storage.disk) self.new.storage.now self.new.state }
        ensures entry { IfOk result (λ reply. history_of self.new.state ≡ history_of self.old.state ++ entry_of self.old.state by (DeleteEvent target) (D.moment self.old.storage.disk) (D.moment self.new.storage.disk) reply ∷ []) }
        ensures memory { OnErr result (history_of self.new.state ≡ history_of self.old.state) }
        ensures counts { self.new.state.stopped ≡ None → D.fault_counts self.new.storage.disk ≡ D.fault_counts self.old.storage.disk }
        ensures cause { D.tells → (earlier : ℕ → RecordValue) (begun : Machine) → Runs earlier begun (D.past self.old.storage.disk) self.old.storage.now self.old.state → IfOk result (HasReplyCause (D.fault_counts self.old.storage.disk) (D.fault_counts self.new.storage.disk)) }
    {
        match self.state.entries.reserve(1) {
            Ok(()) => {}
            Err(fault) => return Err(fault),
        }
        // It tells that the configuration is whole.
        let _whole = self.storage.is_stopped();
        let start = self.storage.disk().calls();
        let event = Event::Delete { target };
        if let Some(entry) = self.state.stopped {
            return Ok(self.state.refuse(by, event, start, entry));
        }
        let session = session_in(by.actor);
        let answered = change_target(&mut self.storage, &mut self.state, session, &target, None);
        self.state
            .finish(self.storage.disk(), by, event, start, answered)
    }
}

impl State {
    // The number of the next entry.
    fn next_entry(&self) -> u64
        ensures { result ≡ length (history_of self.now) + 1 }
    {
        self.entries.as_slice().len() as u64 + 1
    }
}

// Gives the row that a target names another value, or none, for the transaction of a session.
fn change_target<D: Disk>(
    storage: &mut Storage<D>,
    state: &mut State,
    session: u8,
    target: &Target,
    after: Option<Row>,
) -> Result<Reply, StorageFault>
    requires session { IsSession session }
    requires target { IsTarget target.now }
    requires few { length (history_of state.old) < 2 ^ 59 }
    requires going { IsGoing (length (history_of state.old)) (D.fault_counts storage.old.disk) storage.old.now state.old }
    ensures going { OnOk result (IsGoing (length (history_of state.old) + 1) (D.fault_counts storage.new.disk) storage.new.now state.new) }
    ensures starved { IsErrOf result StorageFault.NoMemory → IsGoing (length (history_of state.old)) (D.fault_counts storage.new.disk) storage.new.now state.new }
    ensures answer { D.tells → (earlier : ℕ → RecordValue) (m : Machine) → IsTold earlier (D.past storage.old.disk) storage.old.now state.old m
        → Answers m (λ n. IsShown earlier (D.past storage.new.disk) storage.new.now state.new n) (change_turn m (length (history_of state.old) + 1) session (seat_of m session) (seat_of m session).txn target.now after) result }
    ensures entries { state.new.entries ≡ state.old.entries }
    ensures stopped { state.new.stopped ≡ state.old.stopped }
    ensures counts { state.new.counts ≡ state.old.counts }
    ensures only { IsErrOf result StorageFault.Stopped → ⊥ }
    ensures cause { HasStorageCause (config_of storage.old.now) (D.fault_counts storage.old.disk) (D.fault_counts storage.new.disk) result }
{
    // It tells that the configuration is whole.
    let _whole = storage.is_stopped();
    let txn = match state.locks.txn(session) {
        Some(txn) => txn,
        None => return Ok(Reply::NoTxn),
    };
    let rid = match find_target(storage, &state.table, state.registers.of(session), target) {
        Ok(rid) => rid,
        Err(refusal) => return Ok(refusal),
    };
    let owner = Owner {
        session,
        txn,
        entry: state.next_entry(),
    };
    note_change(&mut state.hints, rid, &after);
    change(
        storage,
        &mut state.locks,
        &mut state.archives,
        state.opened,
        owner,
        rid,
        after,
    )
}

// Tells the hints of a slot that may be emptied.
fn note_change(hints: &mut Hints, rid: Rid, after: &Option<Row>)
    requires { rid.space < 16 }
    ensures { hints.new ≡ hints_behind after.now rid hints.old }
{
    match after {
        Some(_) => {}
        None => hints.emptied(rid.space, rid.page),
    }
}

// Inserts a row into the space of that name, for the transaction of a session.
fn insert_named<D: Disk>(
    storage: &mut Storage<D>,
    state: &mut State,
    session: u8,
    register: u8,
    name: &Label,
    row: Row,
) -> Result<Reply, StorageFault>
    requires session { IsSession session }
    requires register { register ≤ 9 }
    requires few { length (history_of state.old) < 2 ^ 59 }
    requires going { IsGoing (length (history_of state.old)) (D.fault_counts storage.old.disk) storage.old.now state.old }
    ensures going { OnOk result (IsGoing (length (history_of state.old) + 1) (D.fault_counts storage.new.disk) storage.new.now state.new) }
    ensures starved { IsErrOf result StorageFault.NoMemory → IsGoing (length (history_of state.old)) (D.fault_counts storage.new.disk) storage.new.now state.new }
    ensures answer { D.tells → (earlier : ℕ → RecordValue) (m : Machine) → IsTold earlier (D.past storage.old.disk) storage.old.now state.old m
        → Answers m (λ n. IsShown earlier (D.past storage.new.disk) storage.new.now state.new n) (insert_turn m (length (history_of state.old) + 1) session (seat_of m session) (seat_of m session).txn register name.now row) result }
    ensures entries { state.new.entries ≡ state.old.entries }
    ensures stopped { state.new.stopped ≡ state.old.stopped }
    ensures counts { state.new.counts ≡ state.old.counts }
    ensures only { IsErrOf result StorageFault.Stopped → ⊥ }
    ensures cause { HasStorageCause (config_of storage.old.now) (D.fault_counts storage.old.disk) (D.fault_counts storage.new.disk) result }
{
    let txn = match state.locks.txn(session) {
        Some(txn) => txn,
        None => return Ok(Reply::NoTxn),
    };
    let space = match find_space(storage, &state.table, name) {
        Ok(space) => space,
        Err(refusal) => return Ok(refusal),
    };
    let owner = Owner {
        session,
        txn,
        entry: state.next_entry(),
    };
    insert_into(storage, state, owner, register, space, row)
}

// Inserts a row into a space that is up, for an open transaction.
fn insert_into<D: Disk>(
    storage: &mut Storage<D>,
    state: &mut State,
    owner: Owner,
    register: u8,
    space: u8,
    row: Row,
) -> Result<Reply, StorageFault>
    requires session { IsSession owner.session }
    requires open { number_in (locks_of state.old.locks owner.session).holding ≡ Some owner.txn }
    requires register { register ≤ 9 }
    requires space { space < length (config_of storage.old.now).spaces }
    requires up { is_up storage.old.now.anchor space ≡ true }
    requires few { length (history_of state.old) < 2 ^ 59 }
    requires going { IsGoing (length (history_of state.old)) (D.fault_counts storage.old.disk) storage.old.now state.old }
    ensures going { OnOk result (IsGoing (length (history_of state.old) + 1) (D.fault_counts storage.new.disk) storage.new.now state.new) }
    ensures starved { IsErrOf result StorageFault.NoMemory → IsGoing (length (history_of state.old)) (D.fault_counts storage.new.disk) storage.new.now state.new }
    ensures answer { D.tells → (earlier : ℕ → RecordValue) (m : Machine) → IsTold earlier (D.past storage.old.disk) storage.old.now state.old m
        → Answers m (λ n. IsShown earlier (D.past storage.new.disk) storage.new.now state.new n) (insert_at m owner.entry owner.session (seat_of m owner.session) owner.txn register row space (first_free m space)) result }
    ensures entries { state.new.entries ≡ state.old.entries }
    ensures stopped { state.new.stopped ≡ state.old.stopped }
    ensures counts { state.new.counts ≡ state.old.counts }
    ensures only { IsErrOf result StorageFault.Stopped → ⊥ }
    ensures cause { HasStorageCause (config_of storage.old.now) (D.fault_counts storage.old.disk) (D.fault_counts storage.new.disk) result }
{
    let rid = match find_free(storage, &state.locks, &mut state.hints, space) {
        Ok(Some(rid)) => rid,
        Ok(None) => return Ok(Reply::SpaceFull { space }),
        Err(fault) => return Err(fault),
    };
    // A free slot carries no lock; over a disk that does not tell its bytes this test alone says so.
    if let Some(holder) = state.locks.holder(owner.session, rid, true) {
        return Ok(Reply::RowLocked { holder });
    }
    insert_placed(storage, state, owner, register, rid, row)
}

// Inserts a row into an empty slot of a page that is in memory, which no other session is in the way of, for an open transaction.
fn insert_placed<D: Disk>(
    storage: &mut Storage<D>,
    state: &mut State,
    owner: Owner,
    register: u8,
    rid: Rid,
    row: Row,
) -> Result<Reply, StorageFault>
    requires session { IsSession owner.session }
    requires open { number_in (locks_of state.old.locks owner.session).holding ≡ Some owner.txn }
    requires alone { holder_of (table_of state.old.locks) owner.session rid true ≡ None }
    requires register { register ≤ 9 }
    requires place { has_place (config_of storage.old.now) rid ≡ true }
    requires up { is_up storage.old.now.anchor rid.space ≡ true }
    requires frame { (bytes : List ℕ) × (frame_of storage.old.now.store.pool rid.space rid.page ≡ Some bytes) }
    requires few { length (history_of state.old) < 2 ^ 59 }
    requires going { IsGoing (length (history_of state.old)) (D.fault_counts storage.old.disk) storage.old.now state.old }
    ensures going { OnOk result (IsGoing (length (history_of state.old) + 1) (D.fault_counts storage.new.disk) storage.new.now state.new) }
    ensures starved { IsErrOf result StorageFault.NoMemory → IsGoing (length (history_of state.old)) (D.fault_counts storage.new.disk) storage.new.now state.new }
    ensures answer { D.tells → (earlier : ℕ → RecordValue) (m : Machine) → IsTold earlier (D.past storage.old.disk) storage.old.now state.old m
        → Answers m (λ n. IsShown earlier (D.past storage.new.disk) storage.new.now state.new n) (inserted_turn m owner register rid row) result }
    ensures entries { state.new.entries ≡ state.old.entries }
    ensures stopped { state.new.stopped ≡ state.old.stopped }
    ensures counts { state.new.counts ≡ state.old.counts }
    ensures only { IsErrOf result StorageFault.Stopped → ⊥ }
    ensures cause { HasStorageCause (config_of storage.old.now) (D.fault_counts storage.old.disk) (D.fault_counts storage.new.disk) result }
{
    // It tells that the sessions are 16.
    let _sessions = state.registers.of(owner.session);
    let answered = insert(
        storage,
        &mut state.locks,
        &mut state.archives,
        state.opened,
        owner,
        rid,
        row,
    );
    note_place(&mut state.registers, owner.session, register, &answered);
    answered
}

// The place that an insert answered is a session's register from now on.
fn note_place(
    registers: &mut Registers,
    session: u8,
    register: u8,
    answered: &Result<Reply, StorageFault>,
)
    requires session { IsSession session }
    requires register { register ≤ 9 }
    ensures { registers.new ≡ with_register session register registers.old answered.now }
{
    match answered {
        Ok(Reply::At { rid }) => registers.set(session, register, *rid),
        _ => {}
    }
}

// Tells the hints that the slot of a session's newest change may be emptied.
fn open_hint(hints: &mut Hints, locks: &Locks, session: u8)
    requires session { IsSession session }
    requires space { IfSome (last_of (locks_of locks.now session)) (λ last. last.0.space < 16) }
    ensures { hints.new ≡ hints_opened (last_of (locks_of locks.now session)) hints.old }
{
    match locks.last(session) {
        Some((rid, _)) => hints.emptied(rid.space, rid.page),
        None => {}
    }
}

// The number of a session.
fn session_in(actor: Actor) -> u8
    requires { IsOfSession actor }
    ensures actor { actor ≡ SessionValue result }
    ensures session { IsSession result }
{
    match actor {
        Actor::Session(session) => session,
        Actor::Archiver(_) => unreachable!(),
        Actor::Backer => unreachable!(),
        Actor::Flusher => unreachable!(),
        Actor::Checkpointer => unreachable!(),
        Actor::Warmer => unreachable!(),
    }
}
