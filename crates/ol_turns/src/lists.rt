//! The turn of sessions that lists a page.

ghost use Rattle.std.specs.Prelude.{◌≡◌, ◌++◌, ◌∷◌, [], Bool, IfOk, IsErrOf, None, OnErr, OnOk, false, ℕ};
ghost use Rattle.ol_values.specs.declared.event.Event.TheVariants.{ListPage as ListEvent};
ghost use Rattle.ol_values.specs.declared.record.Record.{Record as RecordValue};
ghost use Rattle.ol_values.specs.declared.record.Rid.{Rid as RidValue};
ghost use Rattle.ol_engine.specs.Parts.{HasTurns, Registers, Shows, behind_of};
ghost use Rattle.ol_engine.specs.Turns.{Answers};
ghost use Rattle.ol_model.specs.Machine.{Machine, seat_of};
ghost use Rattle.ol_model.specs.SessionTurns.{list_turn};
ghost use Rattle.ol_session_turns.specs.Pending.{ArePending};
ghost use Rattle.ol_storage.specs.Behind.{Behind};
ghost use Rattle.ol_storage.specs.Causes.{HasStorageCause};
ghost use Rattle.ol_storage.specs.Installation.{config_of, with_store};
ghost use Rattle.ol_storage.specs.Storing.{IsStored};
ghost use Rattle.ol_turn_laws.specs.Room.{Regular};
ghost use Rattle.ol_txn.specs.Seats.{IsSession};
ghost use Rattle.ol_turns.specs.Cores.{HasReplyCause, IsOfSession, IsWhole, Runs, entry_of, history_of};

use crate::NoMemory;
use crate::engine::Core;
use crate::session_turns::session_of;
use ol_chunks::ChunkTable;
use ol_ports::Disk;
use ol_read_turns::list;
use ol_storage::{Storage, StorageFault};
use ol_targets::find_page;
use ol_txn::Locks;
use ol_values::{By, Event, Label, Reply};

impl<D: Disk> Core<D> {
    /// Lists which slots of a page hold a row, for the transaction of a session, from 1 to 16, which shares these slots from then on. The page
    /// is one of the space of that name, and counts from 0.
    ///
    /// Refusals, in this order: `Stopped` exactly where an entry has stopped the engine; `NoTxn` exactly where the session has no open
    /// transaction; `NoSpace`, `BadRid` and `SpaceDown` as `ol_targets::find_page` tells them; `RowLocked` exactly where another session owns
    /// a slot of the page, with the least such; `DiskFault` only where the chunk's count of faults rose, and `BadRead`, never over a disk
    /// that tells its bytes: both stop the engine. At `NoMemory` the parts show the machine as it was.
    pub fn list(&mut self, by: By, space: Label, page: u32) -> Result<Reply, NoMemory>
        requires by { IsOfSession by.actor }
        requires whole { IsWhole (D.fault_counts self.old.storage.disk) self.old.storage.now self.old.state }
        ensures whole { IsWhole (D.fault_counts self.new.storage.disk) self.new.storage.now self.new.state }
        ensures runs { D.tells → (earlier : ℕ → RecordValue) (begun : Machine) → Runs earlier begun (D.past self.old.storage.disk) self.old.storage.now self.old.state → Runs earlier begun (D.past self.new.storage.disk) self.new.storage.now self.new.state }
        ensures entry { IfOk result (λ reply. history_of self.new.state ≡ history_of self.old.state ++ entry_of self.old.state by (ListEvent space page) (D.moment self.old.storage.disk) (D.moment self.new.storage.disk) reply ∷ []) }
        ensures memory { OnErr result (history_of self.new.state ≡ history_of self.old.state) }
        ensures counts { self.new.state.stopped ≡ None → D.fault_counts self.new.storage.disk ≡ D.fault_counts self.old.storage.disk }
        ensures cause { D.tells → (earlier : ℕ → RecordValue) (begun : Machine) → Runs earlier begun (D.past self.old.storage.disk) self.old.storage.now self.old.state → IfOk result (HasReplyCause (D.fault_counts self.old.storage.disk) (D.fault_counts self.new.storage.disk)) }
    {
        match self.state.entries.reserve(1) {
            Ok(()) => {}
            Err(fault) => return Err(fault),
        }
        // It tells that the configuration is whole.
        let _whole = self.storage.is_stopped();
        let start = self.storage.disk().calls();
        let event = Event::ListPage { space, page };
        if let Some(entry) = self.state.stopped {
            return Ok(self.state.refuse(by, event, start, entry));
        }
        let answered = list_page(
            &mut self.storage,
            &self.state.table,
            &mut self.state.locks,
            session_of(by.actor),
            &space,
            page,
        );
        self.state
            .finish(self.storage.disk(), by, event, start, answered)
    }
}

// Lists a page of the space of a name, for the open transaction of a session.
fn list_page<D: Disk>(
    storage: &mut Storage<D>,
    table: &ChunkTable,
    locks: &mut Locks,
    session: u8,
    space: &Label,
    page: u32,
) -> Result<Reply, StorageFault>
    requires session { IsSession session }
    requires table { table.now ≡ config_of storage.old.now }
    requires going { storage.old.now.stopped ≡ false }
    ensures answer { D.tells → (opened : ℕ) (m : Machine) (registers : Registers) (earlier : ℕ → RecordValue) → Shows opened storage.old.now locks.old registers m → Regular m → IsStored (D.past storage.old.disk) storage.old.now (behind_of earlier m)
        → Answers m (Shows opened storage.new.now locks.new registers) (list_turn m session (seat_of m session) (seat_of m session).txn space.now page) result }
    ensures turns { (opened : ℕ) → HasTurns opened storage.old.now locks.old → (IsErrOf result StorageFault.Failed → ⊥) → HasTurns opened storage.new.now locks.new }
    ensures step { (IsErrOf result StorageFault.Failed → ⊥) → storage.new.now ≡ with_store storage.old.now storage.new.now.store }
    ensures images { (IsErrOf result StorageFault.Failed → ⊥) → storage.new.now.store.before ≡ storage.old.now.store.before }
    ensures stored { D.tells → (g : Behind) → IsStored (D.past storage.old.disk) storage.old.now g → (IsErrOf result StorageFault.Failed → ⊥) → IsStored (D.past storage.new.disk) storage.new.now g }
    ensures unlocked { OnErr result (locks.new ≡ locks.old) }
    ensures places { (test : RidValue → Bool) → ArePending test locks.old → ArePending test locks.new }
    ensures only { IsErrOf result StorageFault.Stopped → ⊥ }
    ensures cause { HasStorageCause (config_of storage.old.now) (D.fault_counts storage.old.disk) (D.fault_counts storage.new.disk) result }
{
    if !locks.is_open(session) {
        return Ok(Reply::NoTxn);
    }
    match find_page(storage, table, space, page) {
        Ok((space, page)) => list(storage, locks, session, space, page),
        Err(refusal) => Ok(refusal),
    }
}
