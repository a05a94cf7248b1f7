//! The engine's core, and what it is asked without a turn.

ghost use Rattle.std.specs.Prelude.{◌≡◌, ◌<◌, ◌≤◌, IfOk, IsErrOf, None, OnErr, OnOk, [], false, length, true, ℕ};
ghost use Rattle.ol_values.specs.declared.record.Record.{Record as RecordValue};
ghost use Rattle.ol_values.specs.Config.{has_place};
ghost use Rattle.ol_model.specs.Machine.{Machine, row_in};
ghost use Rattle.ol_engine.specs.Parts.{HasTurns, Shows, behind_of, last_in};
ghost use Rattle.ol_running.specs.Running.{ShowsArchives, none_running};
ghost use Rattle.ol_storage.specs.Behind.{is_up};
ghost use Rattle.ol_storage.specs.Causes.{HasStorageCause};
ghost use Rattle.ol_storage.specs.Installation.{config_of};
ghost use Rattle.ol_storage.specs.Storing.{IsStored};
ghost use Rattle.ol_turn_laws.specs.Room.{Regular, Roomy};
ghost use Rattle.ol_txn.specs.Seats.{IsSession, no_locks, pending_of, seat_of as locks_of};
ghost use Rattle.ol_turns.specs.Cores.{AreCounts, IsLow, IsWhole, Runs, history_of, machine_of, no_registers};

use crate::NoMemory;
use crate::entries::Entries;
use crate::registers::Registers;
use crate::state::State;
use ol_chunks::ChunkTable;
use ol_free_slots::Hints;
use ol_ports::Disk;
use ol_storage::{Storage, StorageFault};
use ol_txn::Locks;
use ol_values::{Rid, Row};
use std::alloc::Global;

/// The engine's core over a disk: its storage, and what it keeps beside it.
#[derive(Drop)]
pub struct Core<D: Disk> {
    pub(crate) storage: Storage<D>,
    pub(crate) state: State,
}

impl<D: Disk> Core<D> {
    /// The core over a storage as an opening ended, with its configuration's table: no transaction is open, no archive runs, all registers
    /// are empty, and the history has no entry. It takes no memory.
    pub fn new(alloc: Global, storage: Storage<D>, table: ChunkTable) -> Core<D>
        requires going { storage.now.stopped ≡ false }
        requires turns { HasTurns (last_in storage.now) storage.now no_locks }
        requires low { IsLow 0 storage.now }
        requires table { table ≡ config_of storage.now }
        ensures storage { result.storage ≡ storage }
        ensures history { history_of result.state ≡ [] }
        ensures going { result.state.stopped ≡ None }
        ensures whole { IsWhole (D.fault_counts storage.disk) storage.now result.state }
        ensures runs { D.tells → (earlier : ℕ → RecordValue) (m : Machine) → Shows (last_in storage.now) storage.now no_locks no_registers m → ShowsArchives none_running storage.now.store.before m → IsStored (D.past storage.disk) storage.now (behind_of earlier m) → Regular m → Roomy m → m.stopped ≡ None
            → Runs earlier m (D.past storage.disk) storage.now result.state }
    {
        // It tells that positions count from 1.
        let _whole = storage.is_stopped();
        let opened = storage.log().next_position() - 1;
        let counts = fault_counts(storage.disk());
        let state = State {
            table,
            locks: Locks::new(alloc),
            registers: Registers::new(),
            archives: [None; 4],
            hints: Hints::new(),
            opened,
            stopped: None,
            entries: Entries::new(alloc),
            counts,
        };
        Core { storage, state }
    }

    /// Makes room for `n` entries more. An error comes only where there was less room than that, and changes nothing.
    pub fn make_room(&mut self, n: u64) -> Result<(), NoMemory>
        requires whole { IsWhole (D.fault_counts self.old.storage.disk) self.old.storage.now self.old.state }
        ensures ok { OnOk result (n ≤ self.new.state.entries.spare) }
        ensures err { OnErr result (self.old.state.entries.spare < n) }
        ensures history { history_of self.new.state ≡ history_of self.old.state }
        ensures storage { self.new.storage ≡ self.old.storage }
        ensures whole { IsWhole (D.fault_counts self.new.storage.disk) self.new.storage.now self.new.state }
        ensures runs { D.tells → (earlier : ℕ → RecordValue) (begun : Machine) → Runs earlier begun (D.past self.old.storage.disk) self.old.storage.now self.old.state → Runs earlier begun (D.past self.new.storage.disk) self.new.storage.now self.new.state }
    {
        self.state.entries.reserve(n)
    }

    /// How many entries there is room for.
    pub fn room(&self) -> u64
        ensures { result ≡ self.now.state.entries.spare }
    {
        self.state.entries.room()
    }

    /// The history so far.
    pub fn history(&self) -> &Entries
        ensures { result.now ≡ self.now.state.entries }
    {
        &self.state.entries
    }

    /// The table of the configuration.
    pub fn table(&self) -> &ChunkTable
        ensures { result.now ≡ self.now.state.table }
    {
        &self.state.table
    }

    /// How many changes of a session's transaction are not taken back; none where it has no open transaction. Sessions count from 1 to 16.
    pub fn pending(&self, session: u8) -> usize
        requires { IsSession session }
        ensures { result ≡ length (pending_of (locks_of self.now.state.locks session).holding) }
    {
        self.state.locks.pending(session)
    }

    /// Whether a space is up.
    pub fn is_up(&self, space: u8) -> bool
        requires { space < 16 }
        ensures { result ≡ is_up self.now.storage.now.anchor space }
    {
        self.storage.anchor().states[usize::from(space)] == 1
    }

    /// The incarnation of the installation.
    pub fn incarnation(&self) -> u64
        ensures { result ≡ self.now.storage.now.anchor.incarnation }
    {
        self.storage.anchor().incarnation
    }

    /// The row at a place of a space that is up. It is no turn.
    ///
    /// `Failed` comes only where the count of faults of a chunk rose, and no turn may follow it; `NoMemory` and `Bad` come only where the page
    /// is not in memory, and change nothing; `Bad` never comes over a disk that tells its bytes.
    pub fn row(&mut self, rid: Rid) -> Result<Option<Row>, StorageFault>
        requires going { self.old.state.stopped ≡ None }
        requires whole { IsWhole (D.fault_counts self.old.storage.disk) self.old.storage.now self.old.state }
        requires place { has_place (config_of self.old.storage.now) rid ≡ true }
        requires up { is_up self.old.storage.now.anchor rid.space ≡ true }
        ensures row { D.tells → (earlier : ℕ → RecordValue) (begun : Machine) → Runs earlier begun (D.past self.old.storage.disk) self.old.storage.now self.old.state → IfOk result (λ row. row ≡ row_in (machine_of begun self.old.state) rid) }
        ensures history { history_of self.new.state ≡ history_of self.old.state }
        ensures whole { (IsErrOf result StorageFault.Failed → ⊥) → IsWhole (D.fault_counts self.new.storage.disk) self.new.storage.now self.new.state }
        ensures runs { D.tells → (earlier : ℕ → RecordValue) (begun : Machine) → Runs earlier begun (D.past self.old.storage.disk) self.old.storage.now self.old.state → (IsErrOf result StorageFault.Failed → ⊥) → Runs earlier begun (D.past self.new.storage.disk) self.new.storage.now self.new.state }
        ensures good { D.tells → (earlier : ℕ → RecordValue) (begun : Machine) → Runs earlier begun (D.past self.old.storage.disk) self.old.storage.now self.old.state → (chunk page : ℕ) → IsErrOf result (StorageFault.Bad chunk page) → ⊥ }
        ensures only { IsErrOf result StorageFault.Stopped → ⊥ }
        ensures cause { HasStorageCause (config_of self.old.storage.now) (D.fault_counts self.old.storage.disk) (D.fault_counts self.new.storage.disk) result }
    {
        self.storage.read(rid)
    }

    /// Hands back the disk and the history. It makes no call of the disk.
    pub fn close(self) -> (D, Entries)
        ensures disk { result.0 ≡ self.storage.disk }
        ensures history { result.1 ≡ self.state.entries }
    {
        let Core { storage, state } = self;
        let State {
            table: _,
            locks: _,
            registers: _,
            archives: _,
            hints: _,
            opened: _,
            stopped: _,
            entries,
            counts: _,
        } = state;
        (storage.close(), entries)
    }
}

// The counts of faults of the chunks.
fn fault_counts<D: Disk>(disk: &D) -> [u64; 32]
    ensures { AreCounts (D.fault_counts disk.now) result }
{
    let mut counts = [0; 32];
    for chunk in 0..32u8 {
        counts[usize::from(chunk)] = disk.faults(chunk);
    }
    counts
}
