//! The turns of the checkpointer and the flusher.

ghost use Rattle.std.specs.Prelude.{◌≡◌, ◌<◌, ◌++◌, ◌∷◌, [], None, ℕ};
ghost use Rattle.ol_values.specs.declared.event.Event.TheVariants.{Checkpoint as CheckpointEvent, Clean as CleanEvent};
ghost use Rattle.ol_values.specs.declared.record.Record.{Record as RecordValue};
ghost use Rattle.ol_model.specs.Machine.{Machine};
ghost use Rattle.ol_turns.specs.Cores.{HasReplyCause, IsWhole, Runs, entry_of, history_of};

use crate::engine::Core;
use ol_log_turns::{checkpoint, clean};
use ol_ports::Disk;
use ol_values::{By, Event, Reply};

impl<D: Disk> Core<D> {
    /// Makes a checkpoint. There is room for an entry.
    ///
    /// Refusals, in this order: `Stopped` exactly where an entry has stopped the engine; `DiskFault` only where the chunk's count of faults
    /// rose, and it stops the engine.
    pub fn checkpoint(&mut self, by: By) -> Reply
        requires room { 0 < self.old.state.entries.spare }
        requires whole { IsWhole (D.fault_counts self.old.storage.disk) self.old.storage.now self.old.state }
        ensures whole { IsWhole (D.fault_counts self.new.storage.disk) self.new.storage.now self.new.state }
        ensures runs { D.tells → (earlier : ℕ → RecordValue) (begun : Machine) → Runs earlier begun (D.past self.old.storage.disk) self.old.storage.now self.old.state → Runs earlier begun (D.past self.new.storage.disk) self.new.storage.now self.new.state }
        ensures entry { history_of self.new.state ≡ history_of self.old.state ++ entry_of self.old.state by CheckpointEvent (D.moment self.old.storage.disk) (D.moment self.new.storage.disk) result ∷ [] }
        ensures counts { self.new.state.stopped ≡ None → D.fault_counts self.new.storage.disk ≡ D.fault_counts self.old.storage.disk }
        ensures cause { D.tells → (earlier : ℕ → RecordValue) (begun : Machine) → Runs earlier begun (D.past self.old.storage.disk) self.old.storage.now self.old.state → HasReplyCause (D.fault_counts self.old.storage.disk) (D.fault_counts self.new.storage.disk) result }
    {
        // These tell that the configuration is whole, and the entries are few.
        let _whole = (self.storage.is_stopped(), self.state.entries.room());
        let start = self.storage.disk().calls();
        if let Some(entry) = self.state.stopped {
            return self.state.refuse(by, Event::Checkpoint, start, entry);
        }
        let answered = checkpoint(&mut self.storage, &self.state.locks);
        self.state.finish_surely(self.storage.disk(), by, Event::Checkpoint, start, answered)
    }

    /// Writes the page that is longest dirty to its place, behind the flushed log. There is room for an entry.
    ///
    /// Refusals, in this order: `Stopped` exactly where an entry has stopped the engine; `NothingDirty` exactly where no page is dirty;
    /// `DiskFault` only where the chunk's count of faults rose, and it stops the engine.
    pub fn clean(&mut self, by: By) -> Reply
        requires room { 0 < self.old.state.entries.spare }
        requires whole { IsWhole (D.fault_counts self.old.storage.disk) self.old.storage.now self.old.state }
        ensures whole { IsWhole (D.fault_counts self.new.storage.disk) self.new.storage.now self.new.state }
        ensures runs { D.tells → (earlier : ℕ → RecordValue) (begun : Machine) → Runs earlier begun (D.past self.old.storage.disk) self.old.storage.now self.old.state → Runs earlier begun (D.past self.new.storage.disk) self.new.storage.now self.new.state }
        ensures entry { history_of self.new.state ≡ history_of self.old.state ++ entry_of self.old.state by CleanEvent (D.moment self.old.storage.disk) (D.moment self.new.storage.disk) result ∷ [] }
        ensures counts { self.new.state.stopped ≡ None → D.fault_counts self.new.storage.disk ≡ D.fault_counts self.old.storage.disk }
        ensures cause { D.tells → (earlier : ℕ → RecordValue) (begun : Machine) → Runs earlier begun (D.past self.old.storage.disk) self.old.storage.now self.old.state → HasReplyCause (D.fault_counts self.old.storage.disk) (D.fault_counts self.new.storage.disk) result }
    {
        // These tell that the configuration is whole, and the entries are few.
        let _whole = (self.storage.is_stopped(), self.state.entries.room());
        let start = self.storage.disk().calls();
        if let Some(entry) = self.state.stopped {
            return self.state.refuse(by, Event::Clean, start, entry);
        }
        let answered = clean(&mut self.storage);
        self.state
            .finish_surely(self.storage.disk(), by, Event::Clean, start, answered)
    }
}
