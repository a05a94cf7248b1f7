//! Changes of pages, each behind what is kept of the page before.

ghost use Rattle.std.specs.Prelude.{IfErr, ◌≡◌, ◌<◌, ◌≤◌, ◌^◌, ◌⊎◌, ◌∷◌, ◌++◌, [], Bool, IfSome, IsErrOf, List, None, OnErr, OnOk, Option, Some, false, is_some, length, slice_index_or, true, ℕ};
ghost use Rattle.ol_values.specs.declared.row.Row.{Row as RowValue};
ghost use Rattle.ol_values.specs.Config.{Config, has_page, has_place};
ghost use Rattle.ol_values.specs.Image.{IsPage, page_bytes, page_in, with_slot};
ghost use Rattle.ol_values.specs.Pages.{Page};
ghost use Rattle.ol_chunks.specs.Places.{lies_in};
ghost use Rattle.ol_ports.specs.Causes.{HasChunkCause};
ghost use Rattle.ol_ports.specs.Disk.{seen};
ghost use Rattle.ol_ports.specs.Frames.{FramedIn, ReadsOutside};
ghost use Rattle.ol_ports.specs.Stops.{Stops};
ghost use Rattle.ol_physlog.specs.States.{HoldsEntries, IsLaid, with_added};
ghost use Rattle.ol_before.specs.Images.{captured};
ghost use Rattle.ol_pool.specs.Frames.{frame_of, with_dirty, with_frame};
ghost use Rattle.ol_data_pages.specs.Places.{HasSpaceCause, HasSpaces};
ghost use Rattle.ol_store.specs.Causes.{HasStoreCause};
ghost use Rattle.ol_store.specs.Holding.{HoldsPages, CleanAreFlushed, IsOnDisk, in_store};
ghost use Rattle.ol_store.specs.Pages.{Pages, changed};
ghost use Rattle.ol_store.specs.Stores.{CanCapture, IsBadAt, IsChanged, IsStore, image_with, is_touched, place_of_entry, with_before, with_entry, with_image, with_log};

use crate::store::{Store, StoreFault};
use ol_page::set_slot;
use ol_pool::Pool;
use ol_ports::{Disk, Failed};
use ol_values::{Rid, Row};

impl Store {
    /// Changes a slot of a page, and gives the page this stamp. First the page's image is captured for an archive, where
    /// `capture` is set; then it is added to the physical log, where the page was not changed since the last checkpoint; then
    /// the page is changed in memory, and is dirty. The entry is not settled.
    ///
    /// `Bad` and `NoMemory` come as those of `read`, and change nothing. Behind `Failed` the store is not to be used, but what a
    /// stop leaves has all pages as at the last checkpoint.
    pub fn change<D: Disk>(
        &mut self,
        disk: &mut D,
        rid: Rid,
        row: Option<Row>,
        stamp: u64,
        capture: bool,
    ) -> Result<(), StoreFault>
        requires sizes { HasSpaces self.old.config (D.sizes disk.old) }
        requires place { has_place self.old.config rid ≡ true }
        requires stamp { (0 < stamp) × (stamp ≤ 2 ^ 62) }
        requires spare { (is_touched self.old.log rid.space rid.page ≡ true) ⊎ (length self.old.log.places < self.old.log.area.count) }
        requires capture { capture ≡ true → CanCapture self.old.before rid.space rid.page }
        ensures stops { D.tells → (v : Pages) → IsOnDisk (D.past disk.old) self.old v → v.is_up rid.space ≡ true → Stops (D.past disk.old) (D.past disk.new) (HoldsPages self.old.config self.old.log.generation v) }
        ensures stored { D.tells → (v : Pages) → IsOnDisk (D.past disk.old) self.old v → v.is_up rid.space ≡ true → OnOk result (IsOnDisk (D.past disk.new) self.new (changed v rid row stamp)) }
        ensures logged { (v : Pages) → CleanAreFlushed self.old v → OnOk result (CleanAreFlushed self.new (changed v rid row stamp)) }
        ensures changed { OnOk result (IsChanged self.old self.new rid.space rid.page stamp) }
        ensures kept { capture ≡ false → OnOk result (self.new.before ≡ self.old.before) }
        ensures captured { capture ≡ true → OnOk result ((image : List ℕ) × (self.new.before ≡ captured (image_with rid.space rid.page image) self.old.before)) }
        ensures image { D.tells → (v : Pages) → IsOnDisk (D.past disk.old) self.old v → v.is_up rid.space ≡ true → capture ≡ true → OnOk result (self.new.before ≡ captured (image_with rid.space rid.page (page_bytes (v.now rid.space rid.page))) self.old.before) }
        ensures unchanged { OnErr result ((IsErrOf result StoreFault.Failed → ⊥) → (self.new ≡ self.old) × (D.tells → D.past disk.new ≡ D.past disk.old)) }
        ensures bad { (chunk at : ℕ) → IsErrOf result (StoreFault.Bad chunk at) → IsBadAt self.old rid.space rid.page chunk at }
        ensures good { D.tells → (v : Pages) → IsOnDisk (D.past disk.old) self.old v → CleanAreFlushed self.old v → v.is_up rid.space ≡ true → (chunk at : ℕ) → IsErrOf result (StoreFault.Bad chunk at) → ⊥ }
        ensures memory { IsErrOf result StoreFault.NoMemory → frame_of self.old.pool rid.space rid.page ≡ None }
        ensures frame { D.tells → Stops (D.past disk.old) (D.past disk.new) (FramedIn (D.past disk.old) (in_store self.old.config)) }
        ensures reads { D.tells → OnOk result (ReadsOutside (D.past disk.old) (D.past disk.new) (in_store self.old.config)) }
        ensures sizes { D.sizes disk.new ≡ D.sizes disk.old }
        ensures cause { HasStoreCause self.old.config (D.fault_counts disk.old) (D.fault_counts disk.new) result }
    {
        match self.load(disk, rid.space, rid.page) {
            Ok(()) => self.change_in_memory(disk, rid, row, stamp, capture),
            Err(fault) => Err(fault),
        }
    }

    // Changes a page that is in memory.
    fn change_in_memory<D: Disk>(
        &mut self,
        disk: &mut D,
        rid: Rid,
        row: Option<Row>,
        stamp: u64,
        capture: bool,
    ) -> Result<(), StoreFault>
        requires sizes { HasSpaces self.old.config (D.sizes disk.old) }
        requires place { has_place self.old.config rid ≡ true }
        requires stamp { (0 < stamp) × (stamp ≤ 2 ^ 62) }
        requires spare { (is_touched self.old.log rid.space rid.page ≡ true) ⊎ (length self.old.log.places < self.old.log.area.count) }
        requires capture { capture ≡ true → CanCapture self.old.before rid.space rid.page }
        requires there { (bytes : List ℕ) × (frame_of self.old.pool rid.space rid.page ≡ Some bytes) }
        ensures stops { D.tells → (v : Pages) → IsOnDisk (D.past disk.old) self.old v → v.is_up rid.space ≡ true → Stops (D.past disk.old) (D.past disk.new) (HoldsPages self.old.config self.old.log.generation v) }
        ensures stored { D.tells → (v : Pages) → IsOnDisk (D.past disk.old) self.old v → v.is_up rid.space ≡ true → OnOk result (IsOnDisk (D.past disk.new) self.new (changed v rid row stamp)) }
        ensures changed { OnOk result (IsChanged self.old self.new rid.space rid.page stamp) }
        ensures kept { capture ≡ false → OnOk result (self.new.before ≡ self.old.before) }
        ensures captured { capture ≡ true → OnOk result ((image : List ℕ) × (frame_of self.old.pool rid.space rid.page ≡ Some image) × (self.new.before ≡ captured (image_with rid.space rid.page image) self.old.before)) }
        ensures failed { IfErr result (λ fault. fault ≡ StoreFault.Failed) }
        ensures frame { D.tells → Stops (D.past disk.old) (D.past disk.new) (FramedIn (D.past disk.old) (in_store self.old.config)) }
        ensures reads { D.tells → OnOk result (ReadsOutside (D.past disk.old) (D.past disk.new) (in_store self.old.config)) }
        ensures sizes { D.sizes disk.new ≡ D.sizes disk.old }
        ensures cause { HasStoreCause self.old.config (D.fault_counts disk.old) (D.fault_counts disk.new) result }
    {
        self.capture_where(capture, rid.space, rid.page);
        match self.touch(disk, rid.space, rid.page) {
            Ok(()) => {}
            Err(_) => return Err(StoreFault::Failed),
        }
        self.set_row(rid, row, stamp);
        Ok(())
    }

    // Captures the image of a page in memory, where it is asked for.
    fn capture_where(&mut self, capture: bool, space: u8, page: u16)
        requires can { capture ≡ true → CanCapture self.old.before space page }
        requires there { (bytes : List ℕ) × (frame_of self.old.pool space page ≡ Some bytes) }
        ensures rest { self.new ≡ with_before self.old self.new.before }
        ensures kept { capture ≡ false → self.new.before ≡ self.old.before }
        ensures captured { capture ≡ true → (bytes : List ℕ) → frame_of self.old.pool space page ≡ Some bytes → self.new.before ≡ captured (image_with space page bytes) self.old.before }
    {
        if capture {
            self.capture(space, page);
        }
    }

    // Captures the image of a page in memory.
    fn capture(&mut self, space: u8, page: u16)
        requires can { CanCapture self.old.before space page }
        requires there { (bytes : List ℕ) × (frame_of self.old.pool space page ≡ Some bytes) }
        ensures { (bytes : List ℕ) → frame_of self.old.pool space page ≡ Some bytes → self.new ≡ with_before self.old (captured (image_with space page bytes) self.old.before) }
    {
        let image = self.pool.get(space, page).unwrap();
        self.before.capture(space, page, image);
    }

    // Adds the image of a page in memory to the physical log, where the page has no entry.
    fn touch<D: Disk>(&mut self, disk: &mut D, space: u8, page: u16) -> Result<(), Failed>
        requires sizes { HasSpaces self.old.config (D.sizes disk.old) }
        requires page { has_page self.old.config space page ≡ true }
        requires spare { (is_touched self.old.log space page ≡ true) ⊎ (length self.old.log.places < self.old.log.area.count) }
        requires there { (bytes : List ℕ) × (frame_of self.old.pool space page ≡ Some bytes) }
        ensures stops { D.tells → (v : Pages) → IsOnDisk (D.past disk.old) self.old v → v.is_up space ≡ true → Stops (D.past disk.old) (D.past disk.new) (HoldsPages self.old.config self.old.log.generation v) }
        ensures stored { D.tells → (v : Pages) → IsOnDisk (D.past disk.old) self.old v → v.is_up space ≡ true → OnOk result (IsOnDisk (D.past disk.new) self.new v) }
        ensures value { OnOk result (self.new ≡ with_log self.old (with_entry self.old.log space page)) }
        ensures frame { D.tells → Stops (D.past disk.old) (D.past disk.new) (FramedIn (D.past disk.old) (in_store self.old.config)) }
        ensures reads { D.tells → OnOk result (ReadsOutside (D.past disk.old) (D.past disk.new) (in_store self.old.config)) }
        ensures sizes { D.sizes disk.new ≡ D.sizes disk.old }
        ensures cause { HasSpaceCause self.old.config (D.fault_counts disk.old) (D.fault_counts disk.new) result }
    {
        if self.touched(space, page) {
            return Ok(());
        }
        self.add_entry(disk, space, page)
    }

    // Adds the image of a page in memory to the physical log.
    fn add_entry<D: Disk>(&mut self, disk: &mut D, space: u8, page: u16) -> Result<(), Failed>
        requires sizes { HasSpaces self.old.config (D.sizes disk.old) }
        requires spare { length self.old.log.places < self.old.log.area.count }
        requires fresh { is_touched self.old.log space page ≡ false }
        requires there { (bytes : List ℕ) × (frame_of self.old.pool space page ≡ Some bytes) }
        ensures stops { D.tells → (c : Config) (images : List (List ℕ)) → IsLaid c (D.past disk.old) self.old.log images → Stops (D.past disk.old) (D.past disk.new) (HoldsEntries c self.old.log images) }
        ensures ok { D.tells → (c : Config) (images : List (List ℕ)) (image : List ℕ) → IsLaid c (D.past disk.old) self.old.log images → has_page c space page ≡ true → frame_of self.old.pool space page ≡ Some image → OnOk result (IsLaid c (D.past disk.new) self.new.log (images ++ image ∷ [])) }
        ensures value { OnOk result (self.new ≡ with_log self.old (with_added self.old.log (place_of_entry space page))) }
        ensures frame { D.tells → Stops (D.past disk.old) (D.past disk.new) (FramedIn (D.past disk.old) (lies_in self.old.log.area)) }
        ensures reads { D.tells → OnOk result (ReadsOutside (D.past disk.old) (D.past disk.new) (lies_in self.old.log.area)) }
        ensures sizes { D.sizes disk.new ≡ D.sizes disk.old }
        ensures cause { HasChunkCause self.old.log.area.chunk (D.fault_counts disk.old) (D.fault_counts disk.new) result }
    {
        let image = self.pool.get(space, page).unwrap();
        self.log.add(disk, space, page, image)
    }

    // Changes a slot of a page in memory that has its entry, and notes the page as dirty.
    fn set_row(&mut self, rid: Rid, row: Option<Row>, stamp: u64)
        requires place { has_place self.old.config rid ≡ true }
        requires stamp { (0 < stamp) × (stamp ≤ 2 ^ 62) }
        requires touched { is_touched self.old.log rid.space rid.page ≡ true }
        requires there { (bytes : List ℕ) × (frame_of self.old.pool rid.space rid.page ≡ Some bytes) }
        ensures value { (p : Page) → IsPage p → frame_of self.old.pool rid.space rid.page ≡ Some (page_bytes p) → self.new ≡ with_image self.old rid.space rid.page (page_bytes (with_slot p rid.slot row stamp)) stamp }
        ensures image { (image : List ℕ) × (self.new ≡ with_image self.old rid.space rid.page image stamp) }
        ensures fits { IfSome row (λ r. length r ≤ 63) }
    {
        put_row(&mut self.pool, rid, row, stamp);
        self.last = self.last.max(stamp);
    }
}

// Changes a slot of a page in memory, and notes the page as dirty.
fn put_row(pool: &mut Pool, rid: Rid, row: Option<Row>, stamp: u64)
    requires there { is_some (frame_of pool.old rid.space rid.page) ≡ true }
    requires slot { rid.slot < 31 }
    ensures value { (p : Page) → IsPage p → frame_of pool.old rid.space rid.page ≡ Some (page_bytes p) → pool.new ≡ with_dirty (with_frame pool.old rid.space rid.page (page_bytes (with_slot p rid.slot row stamp))) rid.space rid.page }
    ensures fits { IfSome row (λ r. length r ≤ 63) }
{
    if let Some(page) = pool.fix(rid.space, rid.page) {
        set_slot(page, rid.slot, row, stamp);
    }
    pool.set_dirty(rid.space, rid.page, true);
}
