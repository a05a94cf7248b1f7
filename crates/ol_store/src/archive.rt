//! The pages of an archive, each as it was at its cut.

ghost use Rattle.std.specs.Prelude.{◌≡◌, ◌<◌, ◌≤◌, IfOk, IsErrOf, None, Ok, OnErr, Some, if◌then◌else◌, length, nat_lt, true, ℕ};
ghost use Rattle.ol_values.specs.Config.{has_page};
ghost use Rattle.ol_values.specs.Image.{IsPage, page_bytes};
ghost use Rattle.ol_values.specs.Pages.{Page};
ghost use Rattle.ol_cursor.specs.Order.{archives, is_wanted, precedes};
ghost use Rattle.ol_data_pages.specs.Places.{HasSpaces};
ghost use Rattle.ol_store.specs.Archives.{AreUp, IsGiven, IsGivenIn, NoneBefore, image_at_cut, taken, with_passed};
ghost use Rattle.ol_store.specs.Causes.{HasStoreCause};
ghost use Rattle.ol_store.specs.Holding.{CleanAreFlushed, IsOnDisk};
ghost use Rattle.ol_store.specs.Pages.{Pages};
ghost use Rattle.ol_store.specs.Stores.{IsBadAt};

use crate::store::{Store, StoreFault};
use ol_cursor::Cursor;
use ol_page::stamp;
use ol_ports::{Disk, PAGE_LENGTH};

impl Store {
    /// The next page of an archive, from the cursor on in order of space and page, with its image as at the archive's cut written
    /// to the buffer: the captured one, where one is held, or the page as it is now, where the cursor wants its stamp. An image
    /// that was held is dropped: the page passes. None comes where no page is left.
    ///
    /// A page that is not in memory is read straight to the buffer. `Bad` comes only where what the disk gave there is no data page,
    /// or one with a stamp above the flushed position; `NoMemory` never.
    pub fn image_at_cut<D: Disk>(
        &mut self,
        disk: &mut D,
        cursor: &Cursor,
        buf: &mut [u8; PAGE_LENGTH],
    ) -> Result<Option<(u8, u16)>, StoreFault>
        requires sizes { HasSpaces self.old.config (D.sizes disk.old) }
        ensures next { D.tells → (v : Pages) → IsOnDisk (D.past disk.old) self.old v → AreUp cursor.now v → 0 < cursor.now.left → IfOk result (λ place. IsGiven self.old.config cursor.now self.old.before v place buf.new) }
        ensures done { cursor.now.left ≡ 0 → (result ≡ Ok None) × (disk.new ≡ disk.old) }
        ensures value { IfOk result (λ place. self.new ≡ with_passed self.old place) }
        ensures unchanged { OnErr result (self.new ≡ self.old) }
        ensures bad { (chunk at : ℕ) → IsErrOf result (StoreFault.Bad chunk at) → (space : ℕ) × (page : ℕ) × (has_page self.old.config space page ≡ true) × (archives cursor.now space ≡ true) × IsBadAt self.old space page chunk at }
        ensures good { D.tells → (v : Pages) → IsOnDisk (D.past disk.old) self.old v → CleanAreFlushed self.old v → AreUp cursor.now v → (chunk at : ℕ) → IsErrOf result (StoreFault.Bad chunk at) → ⊥ }
        ensures memory { IsErrOf result StoreFault.NoMemory → ⊥ }
        ensures past { D.tells → D.past disk.new ≡ D.past disk.old }
        ensures sizes { D.sizes disk.new ≡ D.sizes disk.old }
        ensures cause { HasStoreCause self.old.config (D.fault_counts disk.old) (D.fault_counts disk.new) result }
    {
        if cursor.left == 0 {
            return Ok(None);
        }
        match self.find_next(disk, cursor, buf) {
            Ok(Some((space, page))) => {
                self.before.take(space, page);
                Ok(Some((space, page)))
            }
            Ok(None) => Ok(None),
            Err(fault) => Err(fault),
        }
    }

    /// The first page from the cursor on that the archive takes, with its image written to the buffer.
    fn find_next<D: Disk>(
        &self,
        disk: &mut D,
        cursor: &Cursor,
        buf: &mut [u8; PAGE_LENGTH],
    ) -> Result<Option<(u8, u16)>, StoreFault>
        requires sizes { HasSpaces self.now.config (D.sizes disk.old) }
        ensures given { D.tells → (v : Pages) → IsOnDisk (D.past disk.old) self.now v → AreUp cursor.now v → IfOk result (λ place. IsGiven self.now.config cursor.now self.now.before v place buf.new) }
        ensures bad { (chunk at : ℕ) → IsErrOf result (StoreFault.Bad chunk at) → (space : ℕ) × (page : ℕ) × (has_page self.now.config space page ≡ true) × (archives cursor.now space ≡ true) × IsBadAt self.now space page chunk at }
        ensures good { D.tells → (v : Pages) → IsOnDisk (D.past disk.old) self.now v → CleanAreFlushed self.now v → AreUp cursor.now v → (chunk at : ℕ) → IsErrOf result (StoreFault.Bad chunk at) → ⊥ }
        ensures memory { IsErrOf result StoreFault.NoMemory → ⊥ }
        ensures past { D.tells → D.past disk.new ≡ D.past disk.old }
        ensures sizes { D.sizes disk.new ≡ D.sizes disk.old }
        ensures cause { HasStoreCause self.now.config (D.fault_counts disk.old) (D.fault_counts disk.new) result }
    {
        for space in cursor.next.0..self.table.spaces() {
            if !cursor.archives(space) {
                continue;
            }
            match self.find_in_space(disk, cursor, space, buf) {
                Ok(Some(page)) => return Ok(Some((space, page))),
                Ok(None) => {}
                Err(fault) => return Err(fault),
            }
        }
        Ok(None)
    }

    /// The first page of one of the archive's spaces, from the cursor on, that the archive takes, with its image written to the
    /// buffer. None where it takes none of the space.
    fn find_in_space<D: Disk>(
        &self,
        disk: &mut D,
        cursor: &Cursor,
        space: u8,
        buf: &mut [u8; PAGE_LENGTH],
    ) -> Result<Option<u16>, StoreFault>
        requires sizes { HasSpaces self.now.config (D.sizes disk.old) }
        requires space { space < length self.now.config.spaces }
        requires ahead { cursor.now.next.0 ≤ space }
        requires archived { archives cursor.now space ≡ true }
        ensures given { D.tells → (v : Pages) → IsOnDisk (D.past disk.old) self.now v → AreUp cursor.now v → NoneBefore self.now.config cursor.now self.now.before v (space, 0) → IfOk result (λ page. IsGivenIn self.now.config cursor.now self.now.before v space page buf.new) }
        ensures bad { (chunk at : ℕ) → IsErrOf result (StoreFault.Bad chunk at) → (page : ℕ) × (has_page self.now.config space page ≡ true) × IsBadAt self.now space page chunk at }
        ensures good { D.tells → (v : Pages) → IsOnDisk (D.past disk.old) self.now v → CleanAreFlushed self.now v → AreUp cursor.now v → (chunk at : ℕ) → IsErrOf result (StoreFault.Bad chunk at) → ⊥ }
        ensures memory { IsErrOf result StoreFault.NoMemory → ⊥ }
        ensures past { D.tells → D.past disk.new ≡ D.past disk.old }
        ensures sizes { D.sizes disk.new ≡ D.sizes disk.old }
        ensures cause { HasStoreCause self.now.config (D.fault_counts disk.old) (D.fault_counts disk.new) result }
    {
        for page in first_page(cursor, space)..self.page_count(space) {
            match self.take_page(disk, cursor, space, page, buf) {
                Ok(true) => return Ok(Some(page)),
                Ok(false) => {}
                Err(fault) => return Err(fault),
            }
        }
        Ok(None)
    }

    /// How many data pages a space has, which is at most 65,535.
    fn page_count(&self, space: u8) -> u16
        requires { space < length self.now.config.spaces }
        ensures { (page : ℕ) → has_page self.now.config space page ≡ nat_lt page result }
    {
        self.table.pages(space) as u16
    }

    /// Writes the image that the archive takes of a page of one of its spaces to the buffer: the captured one, or the page as it is
    /// now. False where it takes none; the buffer may then hold anything.
    fn take_page<D: Disk>(
        &self,
        disk: &mut D,
        cursor: &Cursor,
        space: u8,
        page: u16,
        buf: &mut [u8; PAGE_LENGTH],
    ) -> Result<bool, StoreFault>
        requires sizes { HasSpaces self.now.config (D.sizes disk.old) }
        requires page { has_page self.now.config space page ≡ true }
        requires archived { archives cursor.now space ≡ true }
        ensures image { D.tells → (v : Pages) → IsOnDisk (D.past disk.old) self.now v → AreUp cursor.now v → IfOk result (λ is. image_at_cut cursor.now self.now.before v space page ≡ taken is buf.new) }
        ensures bad { (chunk at : ℕ) → IsErrOf result (StoreFault.Bad chunk at) → IsBadAt self.now space page chunk at }
        ensures good { D.tells → (v : Pages) → IsOnDisk (D.past disk.old) self.now v → CleanAreFlushed self.now v → AreUp cursor.now v → (chunk at : ℕ) → IsErrOf result (StoreFault.Bad chunk at) → ⊥ }
        ensures memory { IsErrOf result StoreFault.NoMemory → ⊥ }
        ensures past { D.tells → D.past disk.new ≡ D.past disk.old }
        ensures sizes { D.sizes disk.new ≡ D.sizes disk.old }
        ensures cause { HasStoreCause self.now.config (D.fault_counts disk.old) (D.fault_counts disk.new) result }
    {
        if self.before.get(space, page, buf) {
            return Ok(true);
        }
        if let Some(image) = self.pool.get(space, page) {
            return Ok(copy_wanted(cursor, space, page, image, buf));
        }
        match self.read_place(disk, space, page, buf) {
            Ok(()) => Ok(cursor.wants(space, page, stamp(buf))),
            Err(fault) => Err(fault),
        }
    }
}

/// The first page of a space that has not passed.
fn first_page(cursor: &Cursor, space: u8) -> u16
    requires { cursor.now.next.0 ≤ space }
    ensures { (page : ℕ) → precedes (space, page) cursor.now.next ≡ nat_lt page result }
{
    if space == cursor.next.0 {
        cursor.next.1
    } else {
        0
    }
}

/// Copies an image to the buffer, where the archive wants it by its stamp.
fn copy_wanted(
    cursor: &Cursor,
    space: u8,
    page: u16,
    image: &[u8; PAGE_LENGTH],
    buf: &mut [u8; PAGE_LENGTH],
) -> bool
    ensures { (p : Page) → IsPage p → image.now ≡ page_bytes p → (if is_wanted cursor.now space p.stamp then Some (page_bytes p) else None) ≡ taken result buf.new }
{
    if !cursor.wants(space, page, stamp(image)) {
        return false;
    }
    *buf = *image;
    true
}
