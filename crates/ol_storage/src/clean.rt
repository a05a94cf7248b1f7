//! Cleaning: dirty pages are written to their places, behind the log.

ghost use Rattle.std.specs.Prelude.{◌≡◌, ◌<◌, ◌^◌, IfErr, IfOk, None, Ok, OnErr, OnOk, false, slice_get, true, ℕ};
ghost use Rattle.ol_ports.specs.Stops.{Stops};
ghost use Rattle.ol_rules.specs.Ring.{flushed as flushed_ring};
ghost use Rattle.ol_log_state.specs.RingState.{ring_of};
ghost use Rattle.ol_loglog.specs.RingValue.{HasRoom};
ghost use Rattle.ol_storage.specs.Behind.{Behind};
ghost use Rattle.ol_storage.specs.Causes.{HasStorageCause};
ghost use Rattle.ol_storage.specs.Installation.{cleaned, cleaned_ring, config_of, flushed_and_cleaned, flushed_of, last_of};
ghost use Rattle.ol_storage.specs.Standing.{StandsFrom};
ghost use Rattle.ol_storage.specs.Storing.{IsStored};

use crate::storage::{Storage, StorageFault};
use ol_ports::Disk;

impl<D: Disk> Storage<D> {
    /// Writes the page that is longest dirty to its place, behind the flushed log and its settled entry; the write is not
    /// synced. None comes exactly where no page is dirty, and then nothing is asked of the disk.
    ///
    /// `Failed` comes only where the count of faults of a chunk rose, and is the only refusal.
    pub fn clean_one(&mut self) -> Result<Option<(u8, u16)>, StorageFault>
        requires going { self.old.now.stopped ≡ false }
        requires room { HasRoom self.old.now.ring.config self.old.now.ring.state }
        requires low { self.old.now.ring.state.files.uniq < 2 ^ 62 }
        ensures answer { IfOk result (λ place. place ≡ slice_get self.old.now.store.pool.dirty 0) }
        ensures step { IfOk result (λ place. self.new.now ≡ cleaned self.old.now self.new.now.ring.gates place) }
        ensures ring { IfOk result (λ place. ring_of self.new.now.ring.state ≡ cleaned_ring self.old.now place) }
        ensures idle { slice_get self.old.now.store.pool.dirty 0 ≡ None → (self.new.disk ≡ self.old.disk) × (result ≡ Ok None) }
        ensures stops { D.tells → (g : Behind) → IsStored (D.past self.old.disk) self.old.now g → Stops (D.past self.old.disk) (D.past self.new.disk) (StandsFrom (config_of self.old.now) g self.old.now.anchor (flushed_of self.old.now) (last_of self.old.now)) }
        ensures stored { D.tells → (g : Behind) → IsStored (D.past self.old.disk) self.old.now g → OnOk result (IsStored (D.past self.new.disk) self.new.now g) }
        ensures stopped { OnErr result (self.new.now.stopped ≡ true) }
        ensures only { IfErr result (λ fault. fault ≡ StorageFault.Failed) }
        ensures cause { HasStorageCause (config_of self.old.now) (D.fault_counts self.old.disk) (D.fault_counts self.new.disk) result }
    {
        match self.pages().oldest_dirty() {
            None => {
                // It tells what a stop leaves, since nothing is asked of the disk.
                let _between = self.is_stopped();
                Ok(None)
            }
            Some(_) => self.clean_behind_flush(),
        }
    }

    // Flushes the log, and writes the page that is longest dirty, where one is.
    fn clean_behind_flush(&mut self) -> Result<Option<(u8, u16)>, StorageFault>
        requires going { self.old.now.stopped ≡ false }
        requires room { HasRoom self.old.now.ring.config self.old.now.ring.state }
        requires low { self.old.now.ring.state.files.uniq < 2 ^ 62 }
        ensures answer { IfOk result (λ place. place ≡ slice_get self.old.now.store.pool.dirty 0) }
        ensures step { IfOk result (λ place. self.new.now ≡ flushed_and_cleaned self.old.now self.new.now.ring.gates place) }
        ensures ring { OnOk result (ring_of self.new.now.ring.state ≡ flushed_ring (config_of self.old.now) (ring_of self.old.now.ring.state) (last_of self.old.now)) }
        ensures stops { D.tells → (g : Behind) → IsStored (D.past self.old.disk) self.old.now g → Stops (D.past self.old.disk) (D.past self.new.disk) (StandsFrom (config_of self.old.now) g self.old.now.anchor (flushed_of self.old.now) (last_of self.old.now)) }
        ensures stored { D.tells → (g : Behind) → IsStored (D.past self.old.disk) self.old.now g → OnOk result (IsStored (D.past self.new.disk) self.new.now g) }
        ensures stopped { OnErr result (self.new.now.stopped ≡ true) }
        ensures only { IfErr result (λ fault. fault ≡ StorageFault.Failed) }
        ensures cause { HasStorageCause (config_of self.old.now) (D.fault_counts self.old.disk) (D.fault_counts self.new.disk) result }
    {
        match self.flush() {
            Ok(()) => {}
            Err(fault) => return Err(fault),
        }
        // These tell that the ring and the store are whole.
        let _whole = (self.ring.reusable(self.anchor.uniq), self.store.spare());
        match self.store.clean_one(&mut self.disk) {
            Ok(place) => Ok(place),
            Err(_) => {
                self.stopped = true;
                Err(StorageFault::Failed)
            }
        }
    }
}
