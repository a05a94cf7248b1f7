//! The pages of a storage: records with their pages.

ghost use Rattle.std.specs.Prelude.{◌≡◌, ◌<◌, ◌+◌, ◌^◌, ◌⊎◌, IsErrOf, None, OnErr, OnOk, false, length, true, ℕ};
ghost use Rattle.ol_values.specs.Config.{has_place};
ghost use Rattle.ol_values.specs.Image.{page_bytes};
ghost use Rattle.ol_values.specs.Spelling.{KeepsRules};
ghost use Rattle.ol_before.specs.Images.{captured};
ghost use Rattle.ol_ports.specs.Stops.{Stops};
ghost use Rattle.ol_pool.specs.Frames.{frame_of};
ghost use Rattle.ol_rules.specs.Ring.{logged};
ghost use Rattle.ol_log_state.specs.RingState.{ring_of};
ghost use Rattle.ol_loglog.specs.RingValue.{HasRoom};
ghost use Rattle.ol_store.specs.Stores.{CanCapture, IsBadAt, IsChanged, image_with, is_touched};
ghost use Rattle.ol_storage.specs.Behind.{Behind, Moves, is_up, pages_of, with_record};
ghost use Rattle.ol_storage.specs.Causes.{HasStorageCause};
ghost use Rattle.ol_storage.specs.Installation.{appended, config_of, flushed_of, last_of, with_store};
ghost use Rattle.ol_storage.specs.Standing.{StandsFrom};
ghost use Rattle.ol_storage.specs.Storing.{IsStored};

use crate::storage::{Storage, StorageFault};
use ol_ports::Disk;
use ol_store::StoreFault;
use ol_values::{Record, Rid, Row};

impl<D: Disk> Storage<D> {
    /// Appends a record that changes a page of a space that is up, and changes the page. Where `capture` is set, the page's
    /// image is kept for archives first; where the page was not changed since the last checkpoint, it is added to the physical
    /// log. An entry of that is unused where it has to be.
    ///
    /// `Bad` and `NoMemory` come only where the page is not in memory, and change nothing. `Failed` comes only where the count
    /// of faults of a chunk rose.
    pub fn change(
        &mut self,
        rec: &Record,
        rid: Rid,
        row: Option<Row>,
        capture: bool,
    ) -> Result<(), StorageFault>
        requires going { self.old.now.stopped ≡ false }
        requires rules { KeepsRules rec.now }
        requires moves { Moves rec.now rid row }
        requires place { has_place (config_of self.old.now) rid ≡ true }
        requires up { is_up self.old.now.anchor rid.space ≡ true }
        requires spare { (is_touched self.old.now.store.log rid.space rid.page ≡ true) ⊎ (length self.old.now.store.log.places < self.old.now.store.log.area.count) }
        requires capture { capture ≡ true → CanCapture self.old.now.store.before rid.space rid.page }
        requires room { HasRoom self.old.now.ring.config self.old.now.ring.state }
        requires low { (self.old.now.ring.state.files.uniq < 2 ^ 62) × (self.old.now.ring.state.next < 2 ^ 62) }
        requires at_end { self.old.now.reached + 1 ≡ self.old.now.ring.state.next }
        ensures step { OnOk result (self.new.now ≡ with_store (appended self.old.now rec.now self.new.now.ring.gates) self.new.now.store) }
        ensures ring { OnOk result (ring_of self.new.now.ring.state ≡ logged (config_of self.old.now) (ring_of self.old.now.ring.state) (last_of self.old.now) rec.now) }
        ensures changed { OnOk result (IsChanged self.old.now.store self.new.now.store rid.space rid.page self.old.now.ring.state.next) }
        ensures kept { capture ≡ false → OnOk result (self.new.now.store.before ≡ self.old.now.store.before) }
        ensures captured { D.tells → (g : Behind) → IsStored (D.past self.old.disk) self.old.now g → capture ≡ true → OnOk result (self.new.now.store.before ≡ captured (image_with rid.space rid.page (page_bytes ((pages_of self.old.now.anchor g).now rid.space rid.page))) self.old.now.store.before) }
        ensures stops { D.tells → (g : Behind) → IsStored (D.past self.old.disk) self.old.now g → Stops (D.past self.old.disk) (D.past self.new.disk) (StandsFrom (config_of self.old.now) g self.old.now.anchor (flushed_of self.old.now) (last_of self.old.now)) }
        ensures stored { D.tells → (g : Behind) → IsStored (D.past self.old.disk) self.old.now g → OnOk result (IsStored (D.past self.new.disk) self.new.now (with_record rec.now g)) }
        ensures unchanged { OnErr result ((IsErrOf result StorageFault.Failed → ⊥) → (self.new.now ≡ self.old.now) × (D.tells → D.past self.new.disk ≡ D.past self.old.disk)) }
        ensures bad { (chunk at : ℕ) → IsErrOf result (StorageFault.Bad chunk at) → IsBadAt self.old.now.store rid.space rid.page chunk at }
        ensures good { D.tells → (g : Behind) → IsStored (D.past self.old.disk) self.old.now g → (chunk at : ℕ) → IsErrOf result (StorageFault.Bad chunk at) → ⊥ }
        ensures memory { IsErrOf result StorageFault.NoMemory → frame_of self.old.now.store.pool rid.space rid.page ≡ None }
        ensures stopped { IsErrOf result StorageFault.Failed → self.new.now.stopped ≡ true }
        ensures only { IsErrOf result StorageFault.Stopped → ⊥ }
        ensures cause { HasStorageCause (config_of self.old.now) (D.fault_counts self.old.disk) (D.fault_counts self.new.disk) result }
    {
        // These tell that the ring and the store are whole.
        let _whole = (self.ring.reusable(self.anchor.uniq), self.store.spare());
        let stamp = self.ring.next_position();
        match self.store.change(&mut self.disk, rid, row, stamp, capture) {
            Ok(()) => {}
            Err(StoreFault::Bad { chunk, page }) => return Err(StorageFault::Bad { chunk, page }),
            Err(StoreFault::NoMemory) => return Err(StorageFault::NoMemory),
            Err(StoreFault::Failed) => {
                self.stopped = true;
                return Err(StorageFault::Failed);
            }
        }
        match self.ring.append(&mut self.disk, rec) {
            Ok(()) => {
                self.reached += 1;
                Ok(())
            }
            Err(_) => {
                self.stopped = true;
                Err(StorageFault::Failed)
            }
        }
    }
}
