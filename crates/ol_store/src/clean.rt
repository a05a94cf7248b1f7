//! Dirty pages are written to their places, one at a time.

ghost use Rattle.std.specs.Prelude.{◌≡◌, ◌<◌, [], IfOk, IfSome, List, None, OnOk, Ok, Option, Some, false, slice_get, true, ℕ};
ghost use Rattle.ol_values.specs.Config.{has_page};
ghost use Rattle.ol_ports.specs.Disk.{seen};
ghost use Rattle.ol_ports.specs.Frames.{FramedIn, ReadsOutside};
ghost use Rattle.ol_ports.specs.Stops.{Stops};
ghost use Rattle.ol_physlog.specs.States.{with_settled};
ghost use Rattle.ol_pool.specs.Frames.{frame_of, is_dirty};
ghost use Rattle.ol_data_pages.specs.Places.{HasSpaceCause, HasSpaces, is_place, standing_bytes};
ghost use Rattle.ol_store.specs.Holding.{CleanAreFlushed, HoldsPages, IsOnDisk, in_store};
ghost use Rattle.ol_store.specs.Pages.{Pages};
ghost use Rattle.ol_store.specs.Stores.{AreSettled, IsFlushedAt, IsStore, cleaned_of, with_clean, with_log};

use crate::store::Store;
use ol_data_pages::write_page;
use ol_ports::{Disk, Failed};

impl Store {
    /// Writes the page that is longest dirty to its place, behind its settled entry; the write is not synced. None comes
    /// exactly where no page is dirty, and then nothing is asked of the disk. The logical log is flushed to the page's stamp.
    ///
    /// `Failed` comes only where the count of faults of a chunk rose. The store is not to be used then, but what a stop
    /// leaves has all pages as at the last checkpoint.
    pub fn clean_one<D: Disk>(&mut self, disk: &mut D) -> Result<Option<(u8, u16)>, Failed>
        requires sizes { HasSpaces self.old.config (D.sizes disk.old) }
        requires flushed { IfSome (slice_get self.old.pool.dirty 0) (λ place. IsFlushedAt self.old place.0 place.1) }
        ensures answer { IfOk result (λ place. place ≡ slice_get self.old.pool.dirty 0) }
        ensures value { IfOk result (λ place. self.new ≡ cleaned_of self.old place) }
        ensures stops { D.tells → (v : Pages) → IsOnDisk (D.past disk.old) self.old v → Stops (D.past disk.old) (D.past disk.new) (HoldsPages self.old.config self.old.log.generation v) }
        ensures stored { D.tells → (v : Pages) → IsOnDisk (D.past disk.old) self.old v → OnOk result (IsOnDisk (D.past disk.new) self.new v) }
        ensures logged { D.tells → (v : Pages) → IsOnDisk (D.past disk.old) self.old v → CleanAreFlushed self.old v → OnOk result (CleanAreFlushed self.new v) }
        ensures idle { self.old.pool.dirty ≡ [] → (disk.new ≡ disk.old) × (result ≡ Ok None) }
        ensures frame { D.tells → Stops (D.past disk.old) (D.past disk.new) (FramedIn (D.past disk.old) (in_store self.old.config)) }
        ensures reads { D.tells → OnOk result (ReadsOutside (D.past disk.old) (D.past disk.new) (in_store self.old.config)) }
        ensures sizes { D.sizes disk.new ≡ D.sizes disk.old }
        ensures cause { HasSpaceCause self.old.config (D.fault_counts disk.old) (D.fault_counts disk.new) result }
    {
        let Some((space, page)) = self.oldest_dirty() else {
            return Ok(None);
        };
        match self.settle(disk) {
            Ok(()) => {}
            Err(failed) => return Err(failed),
        }
        match self.write_dirty(disk, space, page) {
            Ok(()) => Ok(Some((space, page))),
            Err(failed) => Err(failed),
        }
    }

    /// The page that is longest dirty, by space and page; `None` exactly where none is.
    pub fn oldest_dirty(&self) -> Option<(u8, u16)>
        ensures value { result ≡ slice_get self.now.pool.dirty 0 }
        ensures page { IfSome result (λ place. (has_page self.now.config place.0 place.1 ≡ true) × (is_dirty self.now.pool place.0 place.1 ≡ true)) }
        ensures store { IsStore self.now }
    {
        self.pool.oldest_dirty()
    }

    // Settles all entries of the physical log.
    pub(crate) fn settle<D: Disk>(&mut self, disk: &mut D) -> Result<(), Failed>
        requires sizes { HasSpaces self.old.config (D.sizes disk.old) }
        ensures value { OnOk result (self.new ≡ with_log self.old (with_settled self.old.log)) }
        ensures store { IsStore self.new }
        ensures stops { D.tells → (v : Pages) → IsOnDisk (D.past disk.old) self.old v → Stops (D.past disk.old) (D.past disk.new) (HoldsPages self.old.config self.old.log.generation v) }
        ensures stored { D.tells → (v : Pages) → IsOnDisk (D.past disk.old) self.old v → OnOk result (IsOnDisk (D.past disk.new) self.new v) }
        ensures frame { D.tells → Stops (D.past disk.old) (D.past disk.new) (FramedIn (D.past disk.old) (in_store self.old.config)) }
        ensures reads { D.tells → OnOk result (ReadsOutside (D.past disk.old) (D.past disk.new) (in_store self.old.config)) }
        ensures sizes { D.sizes disk.new ≡ D.sizes disk.old }
        ensures cause { HasSpaceCause self.old.config (D.fault_counts disk.old) (D.fault_counts disk.new) result }
    {
        self.log.settle(disk)
    }

    // Writes a dirty page to its place, and notes it as clean and its chunk as written. All entries are settled.
    pub(crate) fn write_dirty<D: Disk>(
        &mut self,
        disk: &mut D,
        space: u8,
        page: u16,
    ) -> Result<(), Failed>
        requires sizes { HasSpaces self.old.config (D.sizes disk.old) }
        requires page { has_page self.old.config space page ≡ true }
        requires dirty { is_dirty self.old.pool space page ≡ true }
        requires flushed { IsFlushedAt self.old space page }
        ensures value { OnOk result (self.new ≡ with_clean self.old space page) }
        ensures stops { D.tells → (v : Pages) → IsOnDisk (D.past disk.old) self.old v → AreSettled self.old.log → Stops (D.past disk.old) (D.past disk.new) (HoldsPages self.old.config self.old.log.generation v) }
        ensures stored { D.tells → (v : Pages) → IsOnDisk (D.past disk.old) self.old v → AreSettled self.old.log → OnOk result (IsOnDisk (D.past disk.new) self.new v) }
        ensures logged { D.tells → (v : Pages) → IsOnDisk (D.past disk.old) self.old v → CleanAreFlushed self.old v → OnOk result (CleanAreFlushed self.new v) }
        ensures frame { D.tells → Stops (D.past disk.old) (D.past disk.new) (FramedIn (D.past disk.old) (in_store self.old.config)) }
        ensures reads { D.tells → OnOk result (ReadsOutside (D.past disk.old) (D.past disk.new) (in_store self.old.config)) }
        ensures sizes { D.sizes disk.new ≡ D.sizes disk.old }
        ensures cause { HasSpaceCause self.old.config (D.fault_counts disk.old) (D.fault_counts disk.new) result }
    {
        match self.write_to_place(disk, space, page) {
            Ok(()) => {}
            Err(failed) => return Err(failed),
        }
        self.note_clean(space, page);
        Ok(())
    }

    // Writes a dirty page to its place.
    fn write_to_place<D: Disk>(&self, disk: &mut D, space: u8, page: u16) -> Result<(), Failed>
        requires sizes { HasSpaces self.now.config (D.sizes disk.old) }
        requires page { has_page self.now.config space page ≡ true }
        requires dirty { is_dirty self.now.pool space page ≡ true }
        ensures store { IsStore self.now }
        ensures stops { D.tells → Stops (D.past disk.old) (D.past disk.new) (FramedIn (D.past disk.old) (is_place self.now.config space page)) }
        ensures ok { D.tells → (bytes : List ℕ) → frame_of self.now.pool space page ≡ Some bytes → OnOk result (standing_bytes self.now.config (seen (D.past disk.new)) space page ≡ bytes) }
        ensures reads { D.tells → OnOk result (ReadsOutside (D.past disk.old) (D.past disk.new) (is_place self.now.config space page)) }
        ensures sizes { D.sizes disk.new ≡ D.sizes disk.old }
        ensures cause { HasSpaceCause self.now.config (D.fault_counts disk.old) (D.fault_counts disk.new) result }
    {
        let image = self.pool.get(space, page).unwrap();
        write_page(disk, &self.table, space, page, image)
    }

    // Notes that a page was written to its place.
    fn note_clean(&mut self, space: u8, page: u16)
        requires page { has_page self.old.config space page ≡ true }
        requires dirty { is_dirty self.old.pool space page ≡ true }
        ensures { self.new ≡ with_clean self.old space page }
    {
        let (chunk, _) = self.table.place(space, page).unwrap_or((0, 0));
        self.written[usize::from(chunk)] = true;
        self.pool.set_dirty(space, page, false);
    }
}
