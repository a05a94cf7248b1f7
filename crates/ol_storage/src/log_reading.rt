//! What is read of the log: pages that stand in it, for a backup.

ghost use Rattle.std.specs.Prelude.{◌≡◌, IfOk, IfSome, IsErrOf, false, true, ℕ};
ghost use Rattle.ol_ports.specs.Disk.{page_list, seen};
ghost use Rattle.ol_ports.specs.Stops.{Stops};
ghost use Rattle.ol_log_state.specs.RingState.{stood_holding};
ghost use Rattle.ol_loglog.specs.PageReads.{IsBadAt, IsPageOf};
ghost use Rattle.ol_storage.specs.Behind.{Behind};
ghost use Rattle.ol_storage.specs.Causes.{HasStorageCause};
ghost use Rattle.ol_storage.specs.Installation.{config_of, flushed_of};
ghost use Rattle.ol_storage.specs.LogReads.{HoldsRecords};
ghost use Rattle.ol_storage.specs.Standing.{StandsFrom};
ghost use Rattle.ol_storage.specs.Storing.{IsStored};

use crate::storage::{Storage, StorageFault};
use ol_loglog::{LogReadFault, Stood};
use ol_ports::{Disk, PAGE_LENGTH};

impl<D: Disk> Storage<D> {
    /// Reads the written log page that holds a position into the buffer. `None` comes exactly where no written page of a use
    /// that stands in the ring holds it. It takes no memory.
    ///
    /// `Bad` names that page where its bytes are no log page, or one with another unique number, index, first position or count
    /// than the ring has there. It changes nothing, and never comes where the installation is stored on the disk. `Failed` comes
    /// only where the count of faults of a chunk rose; the buffer may then hold anything. There is no other refusal.
    pub fn read_log_page(
        &mut self,
        position: u64,
        buf: &mut [u8; PAGE_LENGTH],
    ) -> Result<Option<Stood>, StorageFault>
        requires { self.old.now.stopped ≡ false }
        ensures answer { IfOk result (λ found. found ≡ stood_holding self.old.now.ring.state position) }
        ensures page { IfOk result (λ found. IfSome found (λ s. IsPageOf s.head buf.new)) }
        ensures bytes { D.tells → IfOk result (λ found. IfSome found (λ s. buf.new ≡ page_list (seen (D.past self.old.disk)) s.chunk s.page)) }
        ensures content { D.tells → (g : Behind) → IsStored (D.past self.old.disk) self.old.now g → IfOk result (λ found. IfSome found (λ s. HoldsRecords g s.head buf.new)) }
        ensures good { D.tells → (g : Behind) → IsStored (D.past self.old.disk) self.old.now g → (chunk page : ℕ) → IsErrOf result (StorageFault.Bad chunk page) → ⊥ }
        ensures bad { (chunk page : ℕ) → IsErrOf result (StorageFault.Bad chunk page) → IsBadAt self.old.now.ring.state position chunk page buf.new × (D.tells → buf.new ≡ page_list (seen (D.past self.old.disk)) chunk page) }
        ensures only { (IsErrOf result StorageFault.NoMemory → ⊥) × (IsErrOf result StorageFault.Stopped → ⊥) }
        ensures unchanged { (IsErrOf result StorageFault.Failed → ⊥) → self.new.now ≡ self.old.now }
        ensures past { D.tells → D.past self.new.disk ≡ D.past self.old.disk }
        ensures stored { D.tells → (g : Behind) → IsStored (D.past self.old.disk) self.old.now g → (IsErrOf result StorageFault.Failed → ⊥) → IsStored (D.past self.new.disk) self.new.now g }
        ensures stops { D.tells → (g : Behind) → IsStored (D.past self.old.disk) self.old.now g → Stops (D.past self.old.disk) (D.past self.new.disk) (StandsFrom (config_of self.old.now) g self.old.now.anchor (flushed_of self.old.now) (flushed_of self.old.now)) }
        ensures stopped { IsErrOf result StorageFault.Failed → self.new.now.stopped ≡ true }
        ensures cause { HasStorageCause (config_of self.old.now) (D.fault_counts self.old.disk) (D.fault_counts self.new.disk) result }
    {
        // These tell that the ring and the store are whole.
        let _whole = (self.ring.reusable(self.anchor.uniq), self.store.spare());
        match self.ring.read(&mut self.disk, position, buf) {
            Ok(found) => Ok(found),
            Err(LogReadFault::Bad { chunk, page }) => Err(StorageFault::Bad { chunk, page }),
            Err(LogReadFault::Failed) => {
                self.stopped = true;
                Err(StorageFault::Failed)
            }
        }
    }
}
