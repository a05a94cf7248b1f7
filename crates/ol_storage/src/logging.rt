//! The log of a storage: records are appended and flushed.

ghost use Rattle.std.specs.Prelude.{◌≡◌, ◌<◌, ◌+◌, ◌^◌, [], OnOk, IfErr, OnErr, true, false, ℕ};
ghost use Rattle.ol_values.specs.Spelling.{KeepsRules};
ghost use Rattle.ol_rules.specs.Ring.{flushed as flushed_ring, logged, switched_off};
ghost use Rattle.ol_log_state.specs.RingState.{ring_of, switched};
ghost use Rattle.ol_ports.specs.Stops.{Stops};
ghost use Rattle.ol_loglog.specs.RingValue.{HasRoom};
ghost use Rattle.ol_store.specs.Stores.{AreFlushed};
ghost use Rattle.ol_storage.specs.Behind.{Behind, TouchesNone, with_record};
ghost use Rattle.ol_storage.specs.Behind.{last_of as last_behind};
ghost use Rattle.ol_storage.specs.Causes.{HasStorageCause};
ghost use Rattle.ol_storage.specs.Installation.{appended, closed, config_of, flushed, flushed_of, last_of, with_ring};
ghost use Rattle.ol_storage.specs.Standing.{StandsFrom};
ghost use Rattle.ol_storage.specs.Storing.{IsStored};

use crate::storage::{Storage, StorageFault};
use ol_ports::Disk;
use ol_values::Record;

impl<D: Disk> Storage<D> {
    /// Appends a record that changes no page of a space that is up. It is buffered; where the buffered page has no room for it,
    /// that is written first.
    ///
    /// `Failed` comes only where the count of faults of a chunk rose, and is the only refusal.
    pub fn append(&mut self, rec: &Record) -> Result<(), StorageFault>
        requires going { self.old.now.stopped ≡ false }
        requires rules { KeepsRules rec.now }
        requires room { HasRoom self.old.now.ring.config self.old.now.ring.state }
        requires low { (self.old.now.ring.state.files.uniq < 2 ^ 62) × (self.old.now.ring.state.next < 2 ^ 62) }
        requires at_end { self.old.now.reached + 1 ≡ self.old.now.ring.state.next }
        ensures step { OnOk result (self.new.now ≡ appended self.old.now rec.now self.new.now.ring.gates) }
        ensures ring { OnOk result (ring_of self.new.now.ring.state ≡ logged (config_of self.old.now) (ring_of self.old.now.ring.state) (last_of self.old.now) rec.now) }
        ensures stops { D.tells → (g : Behind) → IsStored (D.past self.old.disk) self.old.now g → Stops (D.past self.old.disk) (D.past self.new.disk) (StandsFrom (config_of self.old.now) g self.old.now.anchor (flushed_of self.old.now) (last_of self.old.now)) }
        ensures stored { D.tells → (g : Behind) → IsStored (D.past self.old.disk) self.old.now g → TouchesNone (config_of self.old.now) self.old.now.anchor rec.now → OnOk result (IsStored (D.past self.new.disk) self.new.now (with_record rec.now g)) }
        ensures stopped { OnErr result (self.new.now.stopped ≡ true) }
        ensures only { IfErr result (λ fault. fault ≡ StorageFault.Failed) }
        ensures cause { HasStorageCause (config_of self.old.now) (D.fault_counts self.old.disk) (D.fault_counts self.new.disk) result }
    {
        // These tell that the ring and the store are whole.
        let _whole = (self.ring.reusable(self.anchor.uniq), self.store.spare());
        match self.ring.append(&mut self.disk, rec) {
            Ok(()) => {
                self.reached += 1;
                Ok(())
            }
            Err(_) => {
                self.stopped = true;
                Err(StorageFault::Failed)
            }
        }
    }

    /// Writes the buffered records, where there are some, so that all records are flushed.
    ///
    /// `Failed` comes only where the count of faults of a chunk rose, and is the only refusal.
    pub fn flush(&mut self) -> Result<(), StorageFault>
        requires going { self.old.now.stopped ≡ false }
        requires room { HasRoom self.old.now.ring.config self.old.now.ring.state }
        requires low { self.old.now.ring.state.files.uniq < 2 ^ 62 }
        ensures step { OnOk result (self.new.now ≡ flushed self.old.now self.new.now.ring.gates) }
        ensures ring { OnOk result (ring_of self.new.now.ring.state ≡ flushed_ring (config_of self.old.now) (ring_of self.old.now.ring.state) (last_of self.old.now)) }
        // No page is ahead of the log then.
        ensures ahead { OnOk result (AreFlushed self.new.now.store) }
        ensures stops { D.tells → (g : Behind) → IsStored (D.past self.old.disk) self.old.now g → Stops (D.past self.old.disk) (D.past self.new.disk) (StandsFrom (config_of self.old.now) g self.old.now.anchor (flushed_of self.old.now) (last_of self.old.now)) }
        ensures stored { D.tells → (g : Behind) → IsStored (D.past self.old.disk) self.old.now g → OnOk result (IsStored (D.past self.new.disk) self.new.now g) }
        ensures stopped { OnErr result (self.new.now.stopped ≡ true) }
        ensures only { IfErr result (λ fault. fault ≡ StorageFault.Failed) }
        ensures cause { HasStorageCause (config_of self.old.now) (D.fault_counts self.old.disk) (D.fault_counts self.new.disk) result }
    {
        // These tell that the ring and the store are whole.
        let _whole = (self.ring.reusable(self.anchor.uniq), self.store.spare());
        match self.ring.flush(&mut self.disk) {
            Ok(()) => {
                let last = self.ring.next_position() - 1;
                self.store.flushed_to(last);
                Ok(())
            }
            Err(_) => {
                self.stopped = true;
                Err(StorageFault::Failed)
            }
        }
    }

    /// Writes the buffered records, and closes the current log file: the next page begins the next file.
    ///
    /// `Failed` comes only where the count of faults of a chunk rose, and is the only refusal.
    pub fn switch(&mut self) -> Result<(), StorageFault>
        requires going { self.old.now.stopped ≡ false }
        requires room { HasRoom self.old.now.ring.config self.old.now.ring.state }
        requires low { self.old.now.ring.state.files.uniq < 2 ^ 62 }
        ensures step { OnOk result (self.new.now ≡ closed self.old.now self.new.now.ring.gates) }
        ensures ring { OnOk result (ring_of self.new.now.ring.state ≡ switched_off (flushed_ring (config_of self.old.now) (ring_of self.old.now.ring.state) (last_of self.old.now))) }
        ensures stops { D.tells → (g : Behind) → IsStored (D.past self.old.disk) self.old.now g → Stops (D.past self.old.disk) (D.past self.new.disk) (StandsFrom (config_of self.old.now) g self.old.now.anchor (flushed_of self.old.now) (last_of self.old.now)) }
        ensures stored { D.tells → (g : Behind) → IsStored (D.past self.old.disk) self.old.now g → OnOk result (IsStored (D.past self.new.disk) self.new.now g) }
        ensures stopped { OnErr result (self.new.now.stopped ≡ true) }
        ensures only { IfErr result (λ fault. fault ≡ StorageFault.Failed) }
        ensures cause { HasStorageCause (config_of self.old.now) (D.fault_counts self.old.disk) (D.fault_counts self.new.disk) result }
    {
        match self.flush() {
            Ok(()) => {
                self.close_file();
                Ok(())
            }
            Err(fault) => Err(fault),
        }
    }

    // Closes the current log file. No record is buffered.
    fn close_file(&mut self)
        requires going { self.old.now.stopped ≡ false }
        requires flushed { self.old.now.ring.state.buffer ≡ [] }
        ensures disk { self.new.disk ≡ self.old.disk }
        ensures step { self.new.now ≡ with_ring self.old.now (switched self.old.now.ring.state) self.old.now.ring.gates }
        ensures ring { ring_of self.new.now.ring.state ≡ switched_off (ring_of self.old.now.ring.state) }
        ensures stored { D.tells → (g : Behind) → IsStored (D.past self.old.disk) self.old.now g → IsStored (D.past self.new.disk) self.new.now g }
    {
        self.ring.switch();
    }
}
