//! The redo of an opening: pages get the records that the log has.

ghost use Rattle.std.specs.Prelude.{◌≡◌, ◌<◌, ◌+◌, ◌⊎◌, IsErrOf, None, OnErr, OnOk, false, length, true, ℕ};
ghost use Rattle.ol_values.specs.Config.{has_place};
ghost use Rattle.ol_ports.specs.Stops.{Stops};
ghost use Rattle.ol_pool.specs.Frames.{frame_of};
ghost use Rattle.ol_store.specs.Stores.{IsBadAt, IsChanged, is_touched};
ghost use Rattle.ol_storage.specs.Behind.{Behind, Moves, TouchesNone, is_up, record_at, with_redone};
ghost use Rattle.ol_storage.specs.Causes.{HasStorageCause};
ghost use Rattle.ol_storage.specs.Installation.{config_of, flushed_of, last_of, with_reached, with_store};
ghost use Rattle.ol_storage.specs.Standing.{StandsFrom};
ghost use Rattle.ol_storage.specs.Storing.{IsStored};

use crate::storage::{Storage, StorageFault};
use ol_ports::Disk;
use ol_store::StoreFault;
use ol_values::{Rid, Row};

impl<D: Disk> Storage<D> {
    /// Changes a page by a record that the log has, as an opening does: the pages have one record more. An entry of the
    /// physical log is unused where it has to be.
    ///
    /// `Bad`, `NoMemory` and `Failed` come as those of `change`.
    pub fn redo(&mut self, rid: Rid, row: Option<Row>) -> Result<(), StorageFault>
        requires going { self.old.now.stopped ≡ false }
        requires place { has_place (config_of self.old.now) rid ≡ true }
        requires up { is_up self.old.now.anchor rid.space ≡ true }
        requires spare { (is_touched self.old.now.store.log rid.space rid.page ≡ true) ⊎ (length self.old.now.store.log.places < self.old.now.store.log.area.count) }
        requires behind { self.old.now.reached + 1 < self.old.now.ring.state.next }
        ensures step { OnOk result (self.new.now ≡ with_reached (with_store self.old.now self.new.now.store) (self.old.now.reached + 1)) }
        ensures changed { OnOk result (IsChanged self.old.now.store self.new.now.store rid.space rid.page (self.old.now.reached + 1)) }
        ensures stops { D.tells → (g : Behind) → IsStored (D.past self.old.disk) self.old.now g → Stops (D.past self.old.disk) (D.past self.new.disk) (StandsFrom (config_of self.old.now) g self.old.now.anchor (flushed_of self.old.now) (last_of self.old.now)) }
        ensures stored { D.tells → (g : Behind) → IsStored (D.past self.old.disk) self.old.now g → Moves (record_at g (self.old.now.reached + 1)) rid row → OnOk result (IsStored (D.past self.new.disk) self.new.now (with_redone g)) }
        ensures unchanged { OnErr result ((IsErrOf result StorageFault.Failed → ⊥) → (self.new.now ≡ self.old.now) × (D.tells → D.past self.new.disk ≡ D.past self.old.disk)) }
        ensures bad { (chunk at : ℕ) → IsErrOf result (StorageFault.Bad chunk at) → IsBadAt self.old.now.store rid.space rid.page chunk at }
        ensures memory { IsErrOf result StorageFault.NoMemory → frame_of self.old.now.store.pool rid.space rid.page ≡ None }
        ensures stopped { IsErrOf result StorageFault.Failed → self.new.now.stopped ≡ true }
        ensures only { IsErrOf result StorageFault.Stopped → ⊥ }
        ensures cause { HasStorageCause (config_of self.old.now) (D.fault_counts self.old.disk) (D.fault_counts self.new.disk) result }
    {
        // These tell that the ring and the store are whole.
        let _whole = (self.ring.reusable(self.anchor.uniq), self.store.spare());
        let stamp = self.reached + 1;
        match self.store.change(&mut self.disk, rid, row, stamp, false) {
            Ok(()) => {
                self.reached = stamp;
                Ok(())
            }
            Err(StoreFault::Bad { chunk, page }) => Err(StorageFault::Bad { chunk, page }),
            Err(StoreFault::NoMemory) => Err(StorageFault::NoMemory),
            Err(StoreFault::Failed) => {
                self.stopped = true;
                Err(StorageFault::Failed)
            }
        }
    }

    /// Passes over a record that the log has and that changes no page of a space that is up.
    pub fn pass(&mut self)
        requires going { self.old.now.stopped ≡ false }
        requires behind { self.old.now.reached + 1 < self.old.now.ring.state.next }
        ensures disk { self.new.disk ≡ self.old.disk }
        ensures step { self.new.now ≡ with_reached self.old.now (self.old.now.reached + 1) }
        ensures stored { D.tells → (g : Behind) → IsStored (D.past self.old.disk) self.old.now g → TouchesNone (config_of self.old.now) self.old.now.anchor (record_at g (self.old.now.reached + 1)) → IsStored (D.past self.new.disk) self.new.now (with_redone g) }
    {
        // These tell that the ring and the store are whole, and that positions fit.
        let _whole = (
            self.ring.reusable(self.anchor.uniq),
            self.store.spare(),
            self.ring.next_position(),
        );
        self.reached += 1;
    }
}
