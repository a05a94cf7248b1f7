//! The start of an archive, by the names of its spaces.

ghost use Rattle.std.specs.Prelude.{◌≡◌, ◌≤◌, ◌<◌, ◌++◌, ◌∷◌, [], IfOk, IsErrOf, None, OnErr, OnOk, false, ℕ};
ghost use Rattle.ol_values.specs.declared.event.Event.TheVariants.{ArchiveStart as StartEvent};
ghost use Rattle.ol_values.specs.declared.record.Record.{Record as RecordValue};
ghost use Rattle.ol_archive_turns.specs.Ending.{AreNumbered};
ghost use Rattle.ol_archive_turns.specs.Turns.{AreAllUp, IsArchiver, Tells};
ghost use Rattle.ol_engine.specs.Parts.{GoesOn, HasRisen, HasTurns, MayRise, Registers, behind_of};
ghost use Rattle.ol_engine.specs.Turns.{Answers};
ghost use Rattle.ol_free_slots.specs.Slots.{IsRead};
ghost use Rattle.ol_model.specs.ArchiveTurns.{start_at};
ghost use Rattle.ol_model.specs.Machine.{Machine, archive_of};
ghost use Rattle.ol_storage.specs.Causes.{HasStorageCause};
ghost use Rattle.ol_storage.specs.Installation.{config_of};
ghost use Rattle.ol_storage.specs.Storing.{IsStored};
ghost use Rattle.ol_turn_laws.specs.Room.{Regular};
ghost use Rattle.ol_turns.specs.Actors.{IsOfArchiver};
ghost use Rattle.ol_turns.specs.Cores.{HasReplyCause, IsWhole, Runs, entry_of, history_of};

use crate::NoMemory;
use crate::archive_turns::archiver_of;
use crate::engine::Core;
use ol_archive_start::start;
use ol_archive_turns::Archives;
use ol_chunks::ChunkTable;
use ol_ports::Disk;
use ol_storage::{Storage, StorageFault};
use ol_targets::find_spaces;
use ol_txn::Locks;
use ol_values::{By, Event, Labels, Reply};

impl<D: Disk> Core<D> {
    /// Starts an archive of a level, from 0 to 2, of the spaces of these names, for an archiver, from 1 to 4. It makes a checkpoint.
    ///
    /// Refusals, in this order: `Stopped` exactly where an entry has stopped the engine; `Archiving` with the archiver itself exactly where
    /// it has a running archive; `NoSpace` exactly where one of the names is no space's; `SpaceDown`, `Archiving` and `NoParent` as
    /// `ol_archive_start::start` tells them; `DiskFault` only where the chunk's count of faults rose, and `BadRead`, never over a disk that
    /// tells its bytes: both stop the engine. At `NoMemory` the parts show the machine as it was.
    pub fn archive_start(&mut self, by: By, level: u8, spaces: Labels) -> Result<Reply, NoMemory>
        requires by { IsOfArchiver by.actor }
        requires level { level ≤ 2 }
        requires whole { IsWhole (D.fault_counts self.old.storage.disk) self.old.storage.now self.old.state }
        ensures whole { IsWhole (D.fault_counts self.new.storage.disk) self.new.storage.now self.new.state }
        ensures runs { D.tells → (earlier : ℕ → RecordValue) (begun : Machine) → Runs earlier begun (D.past self.old.storage.disk) self.old.storage.now self.old.state → Runs earlier begun (D.past self.new.storage.disk) self.new.storage.now self.new.state }
        ensures entry { IfOk result (λ reply. history_of self.new.state ≡ history_of self.old.state ++ entry_of self.old.state by (StartEvent level spaces) (D.moment self.old.storage.disk) (D.moment self.new.storage.disk) reply ∷ []) }
        ensures memory { OnErr result (history_of self.new.state ≡ history_of self.old.state) }
        ensures counts { self.new.state.stopped ≡ None → D.fault_counts self.new.storage.disk ≡ D.fault_counts self.old.storage.disk }
        ensures cause { D.tells → (earlier : ℕ → RecordValue) (begun : Machine) → Runs earlier begun (D.past self.old.storage.disk) self.old.storage.now self.old.state → IfOk result (HasReplyCause (D.fault_counts self.old.storage.disk) (D.fault_counts self.new.storage.disk)) }
    {
        match self.state.entries.reserve(1) {
            Ok(()) => {}
            Err(fault) => return Err(fault),
        }
        // It tells that the configuration is whole.
        let _whole = self.storage.is_stopped();
        let calls = self.storage.disk().calls();
        let event = Event::ArchiveStart { level, spaces };
        if let Some(entry) = self.state.stopped {
            return Ok(self.state.refuse(by, event, calls, entry));
        }
        let answered = start_named(
            &mut self.storage,
            &self.state.table,
            &self.state.locks,
            &mut self.state.archives,
            archiver_of(by.actor),
            level,
            &spaces,
        );
        self.state
            .finish(self.storage.disk(), by, event, calls, answered)
    }
}

// Starts an archive of the spaces of these names, where the archiver has none and each name is a space's.
fn start_named<D: Disk>(
    storage: &mut Storage<D>,
    table: &ChunkTable,
    locks: &Locks,
    archives: &mut Archives,
    archiver: u8,
    level: u8,
    names: &Labels,
) -> Result<Reply, StorageFault>
    requires archiver { IsArchiver archiver }
    requires level { level ≤ 2 }
    requires table { table.now ≡ config_of storage.old.now }
    requires going { storage.old.now.stopped ≡ false }
    requires turns { (opened : ℕ) × HasTurns opened storage.old.now locks.now }
    requires rise { MayRise 1 storage.old.now }
    ensures answer { D.tells → (opened : ℕ) (m : Machine) (registers : Registers) (before : ℕ → RecordValue) → Tells opened storage.old.now locks.now registers archives.old m → Regular m → IsStored (D.past storage.old.disk) storage.old.now (behind_of before m)
        → Answers m (Tells opened storage.new.now locks.now registers archives.new) (start_at m archiver level names.now (archive_of m archiver)) result }
    ensures turns { (opened : ℕ) → HasTurns opened storage.old.now locks.now → (IsErrOf result StorageFault.Failed → ⊥) → HasTurns opened storage.new.now locks.now }
    ensures risen { OnOk result (HasRisen 1 storage.old.now storage.new.now) }
    ensures goes { OnOk result (GoesOn storage.old.now storage.new.now) }
    ensures up { AreAllUp storage.old.now.anchor archives.old → OnOk result (AreAllUp storage.new.now.anchor archives.new) }
    ensures numbers { AreNumbered archives.old → OnOk result (AreNumbered archives.new) }
    ensures kept { OnErr result (archives.new ≡ archives.old) }
    ensures still { OnErr result ((IsErrOf result StorageFault.Failed → ⊥) → IsRead storage.old.now storage.new.now) }
    ensures stored { D.tells → (opened : ℕ) (m : Machine) (registers : Registers) (before : ℕ → RecordValue) → Tells opened storage.old.now locks.now registers archives.old m → Regular m → IsStored (D.past storage.old.disk) storage.old.now (behind_of before m)
        → (IsErrOf result StorageFault.Failed → ⊥) → IsStored (D.past storage.new.disk) storage.new.now (behind_of before m) }
    ensures only { IsErrOf result StorageFault.Stopped → ⊥ }
    ensures cause { HasStorageCause (config_of storage.old.now) (D.fault_counts storage.old.disk) (D.fault_counts storage.new.disk) result }
{
    if archives[usize::from(archiver) - 1].is_some() {
        return Ok(Reply::Archiving { archiver });
    }
    match find_spaces(table, names) {
        Some(spaces) => start(storage, locks, archives, archiver, level, spaces.as_slice()),
        None => Ok(Reply::NoSpace),
    }
}
