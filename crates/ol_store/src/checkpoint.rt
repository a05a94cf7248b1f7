//! Checkpoints: all dirty pages are written, and a new generation of the physical log begins.

ghost use Rattle.std.specs.Prelude.{◌≡◌, ◌<◌, [], OnErr, OnOk, Ok, Some};
ghost use Rattle.ol_ports.specs.Frames.{FramedIn, ReadsOutside};
ghost use Rattle.ol_ports.specs.Stops.{Stops};
ghost use Rattle.ol_physlog.specs.States.{emptied};
ghost use Rattle.ol_data_pages.specs.Places.{HasNoMark, HasSpaceCause, HasSpaces};
ghost use Rattle.ol_store.specs.Holding.{CleanAreFlushed, HoldsPages, IsOnDisk, in_store};
ghost use Rattle.ol_store.specs.Pages.{Pages, checkpointed};
ghost use Rattle.ol_store.specs.Stores.{AreFlushed, AreSettled, IsStore, checkpointed_of, no_marks, with_log, with_none_dirty, with_written};

use crate::store::Store;
use ol_data_pages::sync_chunks;
use ol_ports::{Disk, Failed};

impl Store {
    /// Writes all dirty pages to their places, behind their settled entries, and syncs each chunk that has a data page
    /// written since its last sync. The logical log is flushed to the stamps of these pages. Behind it all pages stand at their
    /// places as they are now, whatever a stop leaves; `empty` is to follow, once an anchor says that this is a checkpoint.
    ///
    /// `Failed` comes only where the count of faults of a chunk rose. The store is not to be used then, but what a stop
    /// leaves has all pages as at the last checkpoint.
    pub fn checkpoint<D: Disk>(&mut self, disk: &mut D) -> Result<(), Failed>
        requires sizes { HasSpaces self.old.config (D.sizes disk.old) }
        requires flushed { AreFlushed self.old }
        ensures value { OnOk result (self.new ≡ checkpointed_of self.old) }
        ensures stops { D.tells → (v : Pages) → IsOnDisk (D.past disk.old) self.old v → Stops (D.past disk.old) (D.past disk.new) (HoldsPages self.old.config self.old.log.generation v) }
        ensures stored { D.tells → (v : Pages) → IsOnDisk (D.past disk.old) self.old v → OnOk result (IsOnDisk (D.past disk.new) self.new v) }
        ensures logged { D.tells → (v : Pages) → IsOnDisk (D.past disk.old) self.old v → CleanAreFlushed self.old v → OnOk result (CleanAreFlushed self.new v) }
        ensures frame { D.tells → Stops (D.past disk.old) (D.past disk.new) (FramedIn (D.past disk.old) (in_store self.old.config)) }
        ensures reads { D.tells → OnOk result (ReadsOutside (D.past disk.old) (D.past disk.new) (in_store self.old.config)) }
        ensures sizes { D.sizes disk.new ≡ D.sizes disk.old }
        ensures cause { HasSpaceCause self.old.config (D.fault_counts disk.old) (D.fault_counts disk.new) result }
    {
        match self.settle(disk) {
            Ok(()) => {}
            Err(failed) => return Err(failed),
        }
        match self.write_all_dirty(disk) {
            Ok(()) => self.sync_written(disk),
            Err(failed) => Err(failed),
        }
    }

    /// Begins a new generation of the physical log, which has no entry, and closes every gate that is open, followed by one
    /// sync. All pages are then as at the last checkpoint. No page is dirty, and all that was written is synced: it comes
    /// behind `checkpoint` and the anchor with the new generation.
    ///
    /// `Failed` comes only where the count of faults of the log's chunk rose. What a stop leaves has all pages as they are now,
    /// for the new generation.
    pub fn empty<D: Disk>(&mut self, disk: &mut D, generation: u64) -> Result<(), Failed>
        requires sizes { HasSpaces self.old.config (D.sizes disk.old) }
        requires newer { self.old.log.generation < generation }
        requires clean { self.old.pool.dirty ≡ [] }
        requires synced { HasNoMark self.old.written }
        ensures value { OnOk result (self.new ≡ with_log self.old (emptied self.old.log generation)) }
        ensures kept { OnErr result (self.new ≡ self.old) }
        ensures stops { D.tells → (v : Pages) → IsOnDisk (D.past disk.old) self.old v → Stops (D.past disk.old) (D.past disk.new) (HoldsPages self.old.config generation (checkpointed v)) }
        ensures stored { D.tells → (v : Pages) → IsOnDisk (D.past disk.old) self.old v → OnOk result (IsOnDisk (D.past disk.new) self.new (checkpointed v)) }
        ensures frame { D.tells → Stops (D.past disk.old) (D.past disk.new) (FramedIn (D.past disk.old) (in_store self.old.config)) }
        ensures reads { D.tells → OnOk result (ReadsOutside (D.past disk.old) (D.past disk.new) (in_store self.old.config)) }
        ensures sizes { D.sizes disk.new ≡ D.sizes disk.old }
        ensures cause { HasSpaceCause self.old.config (D.fault_counts disk.old) (D.fault_counts disk.new) result }
    {
        self.log.empty(disk, generation)
    }

    // Writes all dirty pages to their places. All entries are settled.
    fn write_all_dirty<D: Disk>(&mut self, disk: &mut D) -> Result<(), Failed>
        requires sizes { HasSpaces self.old.config (D.sizes disk.old) }
        requires flushed { AreFlushed self.old }
        requires store { IsStore self.old }
        ensures value { OnOk result (self.new ≡ with_none_dirty self.old self.new.written) }
        ensures stops { D.tells → (v : Pages) → IsOnDisk (D.past disk.old) self.old v → AreSettled self.old.log → Stops (D.past disk.old) (D.past disk.new) (HoldsPages self.old.config self.old.log.generation v) }
        ensures stored { D.tells → (v : Pages) → IsOnDisk (D.past disk.old) self.old v → AreSettled self.old.log → OnOk result (IsOnDisk (D.past disk.new) self.new v) }
        ensures logged { D.tells → (v : Pages) → IsOnDisk (D.past disk.old) self.old v → AreSettled self.old.log → CleanAreFlushed self.old v → OnOk result (CleanAreFlushed self.new v) }
        ensures frame { D.tells → Stops (D.past disk.old) (D.past disk.new) (FramedIn (D.past disk.old) (in_store self.old.config)) }
        ensures reads { D.tells → OnOk result (ReadsOutside (D.past disk.old) (D.past disk.new) (in_store self.old.config)) }
        ensures sizes { D.sizes disk.new ≡ D.sizes disk.old }
        ensures cause { HasSpaceCause self.old.config (D.fault_counts disk.old) (D.fault_counts disk.new) result }
    {
        while let Some((space, page)) = self.oldest_dirty() {
            match self.write_dirty(disk, space, page) {
                Ok(()) => {}
                Err(failed) => return Err(failed),
            }
        }
        Ok(())
    }

    // Syncs each chunk that has a data page written since its last sync.
    fn sync_written<D: Disk>(&mut self, disk: &mut D) -> Result<(), Failed>
        requires sizes { HasSpaces self.old.config (D.sizes disk.old) }
        ensures value { OnOk result (self.new ≡ with_written self.old no_marks) }
        ensures stops { D.tells → (v : Pages) → IsOnDisk (D.past disk.old) self.old v → Stops (D.past disk.old) (D.past disk.new) (HoldsPages self.old.config self.old.log.generation v) }
        ensures stored { D.tells → (v : Pages) → IsOnDisk (D.past disk.old) self.old v → OnOk result (IsOnDisk (D.past disk.new) self.new v) }
        ensures frame { D.tells → Stops (D.past disk.old) (D.past disk.new) (FramedIn (D.past disk.old) (in_store self.old.config)) }
        ensures reads { D.tells → OnOk result (ReadsOutside (D.past disk.old) (D.past disk.new) (in_store self.old.config)) }
        ensures sizes { D.sizes disk.new ≡ D.sizes disk.old }
        ensures cause { HasSpaceCause self.old.config (D.fault_counts disk.old) (D.fault_counts disk.new) result }
    {
        sync_chunks(disk, &self.table, &mut self.written)
    }
}
