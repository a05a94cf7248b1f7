//! The checkpoint of a storage.

ghost use Rattle.std.specs.Prelude.{◌≡◌, ◌<◌, ◌≤◌, ◌+◌, ◌^◌, [], IfErr, OnErr, OnOk, false, true, ℕ};
ghost use Rattle.ol_rules.specs.Ring.{flushed as flushed_ring};
ghost use Rattle.ol_rules.specs.Start.{low_behind, upto};
ghost use Rattle.ol_log_state.specs.RingState.{ring_of};
ghost use Rattle.ol_ports.specs.Stops.{Stops};
ghost use Rattle.ol_data_pages.specs.Places.{HasNoMark};
ghost use Rattle.ol_loglog.specs.RingValue.{HasRoom};
ghost use Rattle.ol_store.specs.Stores.{AreFlushed, checkpointed_of};
ghost use Rattle.ol_storage.specs.Behind.{Behind};
ghost use Rattle.ol_storage.specs.Causes.{HasStorageCause};
ghost use Rattle.ol_storage.specs.Installation.{checkpoint_anchor, checkpointed, config_of, flushed_of, last_of, moved, with_store};
ghost use Rattle.ol_storage.specs.Standing.{StandsBetween, StandsFrom};
ghost use Rattle.ol_storage.specs.Storing.{IsStored};

use crate::storage::{Storage, StorageFault};
use ol_ports::Disk;
use ol_reserve::Pair;

impl<D: Disk> Storage<D> {
    /// Makes a checkpoint: flushes the log, writes and syncs all changed pages, writes the anchor with the position up to which
    /// the pages have the records and the next generation of the physical log, and closes the gates of its entries. `need` is
    /// the least number of a transaction that is open at that position, else the one behind it. `next_archive` is the number of
    /// the next archive from then on, which an archive raises as it begins.
    ///
    /// `Failed` comes only where the count of faults of a chunk rose, and is the only refusal.
    pub fn checkpoint(&mut self, need: u64, next_archive: u64) -> Result<(), StorageFault>
        requires going { self.old.now.stopped ≡ false }
        requires need { (self.old.now.anchor.need ≤ need) × (need ≤ self.old.now.reached + 1) }
        requires room { HasRoom self.old.now.ring.config self.old.now.ring.state }
        requires low { (self.old.now.ring.state.files.uniq < 2 ^ 62) × (self.old.now.anchor.serial < 2 ^ 62) × (self.old.now.anchor.generation < 2 ^ 62) }
        requires archive { next_archive ≤ 2 ^ 62 }
        ensures step { OnOk result (self.new.now ≡ checkpointed self.old.now need next_archive self.new.now.ring.gates) }
        ensures ring { OnOk result (ring_of self.new.now.ring.state ≡ flushed_ring (config_of self.old.now) (ring_of self.old.now.ring.state) (last_of self.old.now)) }
        ensures stops { D.tells → (g : Behind) → IsStored (D.past self.old.disk) self.old.now g → need ≡ low_behind g.start (upto g.start g.records g.reached)
            → Stops (D.past self.old.disk) (D.past self.new.disk) (StandsBetween (config_of self.old.now) g self.old.now.anchor (checkpointed self.old.now need next_archive []).anchor (flushed_of self.old.now) (last_of self.old.now)) }
        ensures stored { D.tells → (g : Behind) → IsStored (D.past self.old.disk) self.old.now g → need ≡ low_behind g.start (upto g.start g.records g.reached) → OnOk result (IsStored (D.past self.new.disk) self.new.now g) }
        ensures stopped { OnErr result (self.new.now.stopped ≡ true) }
        ensures only { IfErr result (λ fault. fault ≡ StorageFault.Failed) }
        ensures cause { HasStorageCause (config_of self.old.now) (D.fault_counts self.old.disk) (D.fault_counts self.new.disk) result }
    {
        match self.flush() {
            Ok(()) => {}
            Err(fault) => return Err(fault),
        }
        match self.write_pages() {
            Ok(()) => self.move_checkpoint(need, next_archive),
            Err(fault) => Err(fault),
        }
    }

    // Writes and syncs all changed pages. No page is ahead of the log.
    fn write_pages(&mut self) -> Result<(), StorageFault>
        requires going { self.old.now.stopped ≡ false }
        requires ahead { AreFlushed self.old.now.store }
        ensures step { OnOk result (self.new.now ≡ with_store self.old.now (checkpointed_of self.old.now.store)) }
        ensures stops { D.tells → (g : Behind) → IsStored (D.past self.old.disk) self.old.now g → Stops (D.past self.old.disk) (D.past self.new.disk) (StandsFrom (config_of self.old.now) g self.old.now.anchor (flushed_of self.old.now) (last_of self.old.now)) }
        ensures stored { D.tells → (g : Behind) → IsStored (D.past self.old.disk) self.old.now g → OnOk result (IsStored (D.past self.new.disk) self.new.now g) }
        ensures stopped { OnErr result (self.new.now.stopped ≡ true) }
        ensures only { IfErr result (λ fault. fault ≡ StorageFault.Failed) }
        ensures cause { HasStorageCause (config_of self.old.now) (D.fault_counts self.old.disk) (D.fault_counts self.new.disk) result }
    {
        // These tell that the ring and the store are whole.
        let _whole = (self.ring.reusable(self.anchor.uniq), self.store.spare());
        match self.store.checkpoint(&mut self.disk) {
            Ok(()) => Ok(()),
            Err(_) => {
                self.stopped = true;
                Err(StorageFault::Failed)
            }
        }
    }

    // Writes the anchor of a checkpoint, and begins a new generation of the physical log. All records are flushed, no page is
    // dirty, and all that was written is synced.
    fn move_checkpoint(&mut self, need: u64, next_archive: u64) -> Result<(), StorageFault>
        requires going { self.old.now.stopped ≡ false }
        requires need { (self.old.now.anchor.need ≤ need) × (need ≤ self.old.now.reached + 1) }
        requires flushed { self.old.now.ring.state.buffer ≡ [] }
        requires clean { self.old.now.store.pool.dirty ≡ [] }
        requires synced { HasNoMark self.old.now.store.written }
        requires low { (self.old.now.anchor.serial < 2 ^ 62) × (self.old.now.anchor.generation < 2 ^ 62) }
        requires archive { next_archive ≤ 2 ^ 62 }
        ensures step { OnOk result (self.new.now ≡ moved self.old.now need next_archive) }
        ensures stops { D.tells → (g : Behind) → IsStored (D.past self.old.disk) self.old.now g → need ≡ low_behind g.start (upto g.start g.records g.reached)
            → Stops (D.past self.old.disk) (D.past self.new.disk) (StandsBetween (config_of self.old.now) g self.old.now.anchor (moved self.old.now need next_archive).anchor (flushed_of self.old.now) (flushed_of self.old.now)) }
        ensures stored { D.tells → (g : Behind) → IsStored (D.past self.old.disk) self.old.now g → need ≡ low_behind g.start (upto g.start g.records g.reached) → OnOk result (IsStored (D.past self.new.disk) self.new.now g) }
        ensures stopped { OnErr result (self.new.now.stopped ≡ true) }
        ensures only { IfErr result (λ fault. fault ≡ StorageFault.Failed) }
        ensures cause { HasStorageCause (config_of self.old.now) (D.fault_counts self.old.disk) (D.fault_counts self.new.disk) result }
    {
        // These tell that the ring and the store are whole, and that positions fit.
        let _whole = (
            self.ring.reusable(self.anchor.uniq),
            self.store.spare(),
            self.ring.next_position(),
        );
        self.anchor.serial += 1;
        self.anchor.generation += 1;
        self.anchor.position = self.reached;
        self.anchor.need = need;
        self.anchor.next_archive = next_archive;
        self.anchor.uniq = self.ring.uniq();
        match Pair::write(&mut self.disk, &self.anchor) {
            Ok(()) => {}
            Err(_) => {
                self.stopped = true;
                return Err(StorageFault::Failed);
            }
        }
        match self.store.empty(&mut self.disk, self.anchor.generation) {
            Ok(()) => {
                self.ring.keep_from(need);
                Ok(())
            }
            Err(_) => {
                self.stopped = true;
                Err(StorageFault::Failed)
            }
        }
    }
}
