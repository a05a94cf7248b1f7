//! The turns of sessions.

ghost use Rattle.std.specs.Prelude.{◌≡◌, ◌<◌, ◌++◌, ◌∷◌, [], IfOk, None, OnErr, ℕ};
ghost use Rattle.ol_values.specs.declared.event.Event.TheVariants.{Begin as BeginEvent, Commit as CommitEvent, EndRollback as EndEvent};
ghost use Rattle.ol_values.specs.declared.history.Actor.TheVariants.{Session as SessionValue};
ghost use Rattle.ol_values.specs.declared.record.Record.{Record as RecordValue};
ghost use Rattle.ol_model.specs.Machine.{Machine};
ghost use Rattle.ol_txn.specs.Seats.{IsSession};
ghost use Rattle.ol_turns.specs.Cores.{HasReplyCause, IsOfSession, IsWhole, Runs, entry_of, history_of};

use crate::NoMemory;
use crate::engine::Core;
use ol_ports::Disk;
use ol_session_turns::{begin, commit, rolled};
use ol_values::{Actor, By, Event, Reply};

impl<D: Disk> Core<D> {
    /// Begins a transaction of a session, from 1 to 16.
    ///
    /// Refusals, in this order: `Stopped` exactly where an entry has stopped the engine, with that entry; `TxnOpen` exactly where the session
    /// has an open transaction; `JournalFull` and `LogsFull` exactly where the journal or the log has no room for the record and what it
    /// owes; `DiskFault` only where the chunk's count of faults rose, and it stops the engine. At `NoMemory` nothing has changed.
    pub fn begin(&mut self, by: By) -> Result<Reply, NoMemory>
        requires by { IsOfSession by.actor }
        requires whole { IsWhole (D.fault_counts self.old.storage.disk) self.old.storage.now self.old.state }
        ensures whole { IsWhole (D.fault_counts self.new.storage.disk) self.new.storage.now self.new.state }
        ensures runs { D.tells → (earlier : ℕ → RecordValue) (begun : Machine) → Runs earlier begun (D.past self.old.storage.disk) self.old.storage.now self.old.state → Runs earlier begun (D.past self.new.storage.disk) self.new.storage.now self.new.state }
        ensures entry { IfOk result (λ reply. history_of self.new.state ≡ history_of self.old.state ++ entry_of self.old.state by BeginEvent (D.moment self.old.storage.disk) (D.moment self.new.storage.disk) reply ∷ []) }
        ensures memory { OnErr result (history_of self.new.state ≡ history_of self.old.state) }
        ensures counts { self.new.state.stopped ≡ None → D.fault_counts self.new.storage.disk ≡ D.fault_counts self.old.storage.disk }
        ensures cause { D.tells → (earlier : ℕ → RecordValue) (begun : Machine) → Runs earlier begun (D.past self.old.storage.disk) self.old.storage.now self.old.state → IfOk result (HasReplyCause (D.fault_counts self.old.storage.disk) (D.fault_counts self.new.storage.disk)) }
    {
        match self.state.entries.reserve(1) {
            Ok(()) => {}
            Err(fault) => return Err(fault),
        }
        // It tells that the configuration is whole.
        let _whole = self.storage.is_stopped();
        let start = self.storage.disk().calls();
        if let Some(entry) = self.state.stopped {
            return Ok(self.state.refuse(by, Event::Begin, start, entry));
        }
        let answered = begin(
            &mut self.storage,
            &mut self.state.locks,
            self.state.opened,
            session_of(by.actor),
        );
        self.state
            .finish(self.storage.disk(), by, Event::Begin, start, answered)
    }

    /// Commits the transaction of a session, from 1 to 16; the log is flushed before the answer. There is room for an entry.
    ///
    /// Refusals, in this order: `Stopped` exactly where an entry has stopped the engine; `NoTxn` exactly where the session has no open
    /// transaction; `DiskFault` only where the chunk's count of faults rose, and it stops the engine.
    pub fn commit(&mut self, by: By) -> Reply
        requires by { IsOfSession by.actor }
        requires room { 0 < self.old.state.entries.spare }
        requires whole { IsWhole (D.fault_counts self.old.storage.disk) self.old.storage.now self.old.state }
        ensures whole { IsWhole (D.fault_counts self.new.storage.disk) self.new.storage.now self.new.state }
        ensures runs { D.tells → (earlier : ℕ → RecordValue) (begun : Machine) → Runs earlier begun (D.past self.old.storage.disk) self.old.storage.now self.old.state → Runs earlier begun (D.past self.new.storage.disk) self.new.storage.now self.new.state }
        ensures entry { history_of self.new.state ≡ history_of self.old.state ++ entry_of self.old.state by CommitEvent (D.moment self.old.storage.disk) (D.moment self.new.storage.disk) result ∷ [] }
        ensures counts { self.new.state.stopped ≡ None → D.fault_counts self.new.storage.disk ≡ D.fault_counts self.old.storage.disk }
        ensures cause { D.tells → (earlier : ℕ → RecordValue) (begun : Machine) → Runs earlier begun (D.past self.old.storage.disk) self.old.storage.now self.old.state → HasReplyCause (D.fault_counts self.old.storage.disk) (D.fault_counts self.new.storage.disk) result }
    {
        // These tell that the configuration is whole, and the entries are few.
        let _whole = (self.storage.is_stopped(), self.state.entries.room());
        let start = self.storage.disk().calls();
        if let Some(entry) = self.state.stopped {
            return self.state.refuse(by, Event::Commit, start, entry);
        }
        let answered = commit(
            &mut self.storage,
            &mut self.state.locks,
            session_of(by.actor),
        );
        self.state
            .finish_surely(self.storage.disk(), by, Event::Commit, start, answered)
    }

    /// Ends the roll back of a session's transaction, of which all changes are taken back. There is room for an entry. Refusals are those
    /// of `commit`.
    pub fn rolled(&mut self, by: By) -> Reply
        requires by { IsOfSession by.actor }
        requires room { 0 < self.old.state.entries.spare }
        requires whole { IsWhole (D.fault_counts self.old.storage.disk) self.old.storage.now self.old.state }
        ensures whole { IsWhole (D.fault_counts self.new.storage.disk) self.new.storage.now self.new.state }
        ensures runs { D.tells → (earlier : ℕ → RecordValue) (begun : Machine) → Runs earlier begun (D.past self.old.storage.disk) self.old.storage.now self.old.state → Runs earlier begun (D.past self.new.storage.disk) self.new.storage.now self.new.state }
        ensures entry { history_of self.new.state ≡ history_of self.old.state ++ entry_of self.old.state by EndEvent (D.moment self.old.storage.disk) (D.moment self.new.storage.disk) result ∷ [] }
        ensures counts { self.new.state.stopped ≡ None → D.fault_counts self.new.storage.disk ≡ D.fault_counts self.old.storage.disk }
        ensures cause { D.tells → (earlier : ℕ → RecordValue) (begun : Machine) → Runs earlier begun (D.past self.old.storage.disk) self.old.storage.now self.old.state → HasReplyCause (D.fault_counts self.old.storage.disk) (D.fault_counts self.new.storage.disk) result }
    {
        // These tell that the configuration is whole, and the entries are few.
        let _whole = (self.storage.is_stopped(), self.state.entries.room());
        let start = self.storage.disk().calls();
        if let Some(entry) = self.state.stopped {
            return self.state.refuse(by, Event::EndRollback, start, entry);
        }
        let answered = rolled(
            &mut self.storage,
            &mut self.state.locks,
            session_of(by.actor),
        );
        self.state.finish_surely(self.storage.disk(), by, Event::EndRollback, start, answered)
    }
}

// The number of a session.
pub(crate) fn session_of(actor: Actor) -> u8
    requires { IsOfSession actor }
    ensures actor { actor ≡ SessionValue result }
    ensures session { IsSession result }
{
    match actor {
        Actor::Session(session) => session,
        Actor::Archiver(_) => unreachable!(),
        Actor::Backer => unreachable!(),
        Actor::Flusher => unreachable!(),
        Actor::Checkpointer => unreachable!(),
        Actor::Warmer => unreachable!(),
    }
}
