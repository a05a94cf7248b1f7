//! What is read of the pages: rows, stamps, and images for archives.

ghost use Rattle.std.specs.Prelude.{◌≡◌, ◌<◌, IfOk, IsErrOf, None, Ok, OnErr, OnOk, false, slice_index_or, true, ℕ};
ghost use Rattle.ol_values.specs.Config.{has_page, has_place};
ghost use Rattle.ol_before.specs.Images.{is_in_space, with_room, without};
ghost use Rattle.ol_cursor.specs.Order.{archives};
ghost use Rattle.ol_pool.specs.Frames.{frame_of};
ghost use Rattle.ol_store.specs.Archives.{AreUp, IsGiven, with_passed};
ghost use Rattle.ol_store.specs.Stores.{IsBadAt, IsLoaded, with_before};
ghost use Rattle.ol_storage.specs.Behind.{Behind, is_up, pages_of};
ghost use Rattle.ol_storage.specs.Causes.{HasStorageCause};
ghost use Rattle.ol_storage.specs.Installation.{config_of, with_store};
ghost use Rattle.ol_storage.specs.Storing.{IsStored};

use crate::storage::{Storage, StorageFault};
use ol_cursor::Cursor;
use ol_ports::{Disk, NoMemory, PAGE_LENGTH};
use ol_store::StoreFault;
use ol_values::{Rid, Row};

impl<D: Disk> Storage<D> {
    /// What a slot of a page holds.
    ///
    /// `Bad` and `NoMemory` come only where the page is not in memory, and change nothing. `Failed` comes only where the count
    /// of faults of a chunk rose.
    pub fn read(&mut self, rid: Rid) -> Result<Option<Row>, StorageFault>
        requires going { self.old.now.stopped ≡ false }
        requires place { has_place (config_of self.old.now) rid ≡ true }
        ensures row { D.tells → (g : Behind) → IsStored (D.past self.old.disk) self.old.now g → is_up self.old.now.anchor rid.space ≡ true → IfOk result (λ row. row ≡ slice_index_or ((pages_of self.old.now.anchor g).now rid.space rid.page).slots rid.slot None) }
        ensures step { OnOk result (self.new.now ≡ with_store self.old.now self.new.now.store) }
        ensures loaded { OnOk result (IsLoaded self.old.now.store self.new.now.store rid.space rid.page) }
        ensures past { D.tells → D.past self.new.disk ≡ D.past self.old.disk }
        ensures stored { D.tells → (g : Behind) → IsStored (D.past self.old.disk) self.old.now g → is_up self.old.now.anchor rid.space ≡ true → OnOk result (IsStored (D.past self.new.disk) self.new.now g) }
        ensures unchanged { OnErr result ((IsErrOf result StorageFault.Failed → ⊥) → self.new.now ≡ self.old.now) }
        ensures bad { (chunk at : ℕ) → IsErrOf result (StorageFault.Bad chunk at) → IsBadAt self.old.now.store rid.space rid.page chunk at }
        ensures good { D.tells → (g : Behind) → IsStored (D.past self.old.disk) self.old.now g → is_up self.old.now.anchor rid.space ≡ true → (chunk at : ℕ) → IsErrOf result (StorageFault.Bad chunk at) → ⊥ }
        ensures memory { IsErrOf result StorageFault.NoMemory → frame_of self.old.now.store.pool rid.space rid.page ≡ None }
        ensures stopped { IsErrOf result StorageFault.Failed → self.new.now.stopped ≡ true }
        ensures only { IsErrOf result StorageFault.Stopped → ⊥ }
        ensures cause { HasStorageCause (config_of self.old.now) (D.fault_counts self.old.disk) (D.fault_counts self.new.disk) result }
    {
        // These tell that the ring and the store are whole.
        let _whole = (self.ring.reusable(self.anchor.uniq), self.store.spare());
        match self.store.read(&mut self.disk, rid) {
            Ok(row) => Ok(row),
            Err(StoreFault::Bad { chunk, page }) => Err(StorageFault::Bad { chunk, page }),
            Err(StoreFault::NoMemory) => Err(StorageFault::NoMemory),
            Err(StoreFault::Failed) => {
                self.stopped = true;
                Err(StorageFault::Failed)
            }
        }
    }

    /// The stamp of a page, with refusals as those of `read`.
    pub fn stamp(&mut self, space: u8, page: u16) -> Result<u64, StorageFault>
        requires going { self.old.now.stopped ≡ false }
        requires page { has_page (config_of self.old.now) space page ≡ true }
        ensures stamp { D.tells → (g : Behind) → IsStored (D.past self.old.disk) self.old.now g → is_up self.old.now.anchor space ≡ true → IfOk result (λ stamp. stamp ≡ ((pages_of self.old.now.anchor g).now space page).stamp) }
        ensures step { OnOk result (self.new.now ≡ with_store self.old.now self.new.now.store) }
        ensures loaded { OnOk result (IsLoaded self.old.now.store self.new.now.store space page) }
        ensures past { D.tells → D.past self.new.disk ≡ D.past self.old.disk }
        ensures stored { D.tells → (g : Behind) → IsStored (D.past self.old.disk) self.old.now g → is_up self.old.now.anchor space ≡ true → OnOk result (IsStored (D.past self.new.disk) self.new.now g) }
        ensures unchanged { OnErr result ((IsErrOf result StorageFault.Failed → ⊥) → self.new.now ≡ self.old.now) }
        ensures bad { (chunk at : ℕ) → IsErrOf result (StorageFault.Bad chunk at) → IsBadAt self.old.now.store space page chunk at }
        ensures good { D.tells → (g : Behind) → IsStored (D.past self.old.disk) self.old.now g → is_up self.old.now.anchor space ≡ true → (chunk at : ℕ) → IsErrOf result (StorageFault.Bad chunk at) → ⊥ }
        ensures memory { IsErrOf result StorageFault.NoMemory → frame_of self.old.now.store.pool space page ≡ None }
        ensures stopped { IsErrOf result StorageFault.Failed → self.new.now.stopped ≡ true }
        ensures only { IsErrOf result StorageFault.Stopped → ⊥ }
        ensures cause { HasStorageCause (config_of self.old.now) (D.fault_counts self.old.disk) (D.fault_counts self.new.disk) result }
    {
        // These tell that the ring and the store are whole.
        let _whole = (self.ring.reusable(self.anchor.uniq), self.store.spare());
        match self.store.stamp(&mut self.disk, space, page) {
            Ok(stamp) => Ok(stamp),
            Err(StoreFault::Bad { chunk, page }) => Err(StorageFault::Bad { chunk, page }),
            Err(StoreFault::NoMemory) => Err(StorageFault::NoMemory),
            Err(StoreFault::Failed) => {
                self.stopped = true;
                Err(StorageFault::Failed)
            }
        }
    }

    /// The next page of an archive of spaces that are up, from the cursor on, with its image as at the archive's cut written to
    /// the buffer. A captured image of it is dropped: the page passes. None comes where no page is left.
    ///
    /// `Bad` comes only where a page of the archive is not in memory, and changes nothing; `NoMemory` never. `Failed` comes only
    /// where the count of faults of a chunk rose.
    pub fn image_at_cut(
        &mut self,
        cursor: &Cursor,
        buf: &mut [u8; PAGE_LENGTH],
    ) -> Result<Option<(u8, u16)>, StorageFault>
        requires going { self.old.now.stopped ≡ false }
        ensures next { D.tells → (g : Behind) → IsStored (D.past self.old.disk) self.old.now g → AreUp cursor.now (pages_of self.old.now.anchor g) → 0 < cursor.now.left
            → IfOk result (λ place. IsGiven (config_of self.old.now) cursor.now self.old.now.store.before (pages_of self.old.now.anchor g) place buf.new) }
        ensures done { cursor.now.left ≡ 0 → result ≡ Ok None }
        ensures step { IfOk result (λ place. self.new.now ≡ with_store self.old.now (with_passed self.old.now.store place)) }
        ensures past { D.tells → D.past self.new.disk ≡ D.past self.old.disk }
        ensures stored { D.tells → (g : Behind) → IsStored (D.past self.old.disk) self.old.now g → OnOk result (IsStored (D.past self.new.disk) self.new.now g) }
        ensures unchanged { OnErr result ((IsErrOf result StorageFault.Failed → ⊥) → self.new.now ≡ self.old.now) }
        ensures bad { (chunk at : ℕ) → IsErrOf result (StorageFault.Bad chunk at) → (space : ℕ) × (page : ℕ) × (has_page (config_of self.old.now) space page ≡ true) × (archives cursor.now space ≡ true) × IsBadAt self.old.now.store space page chunk at }
        ensures good { D.tells → (g : Behind) → IsStored (D.past self.old.disk) self.old.now g → AreUp cursor.now (pages_of self.old.now.anchor g) → (chunk at : ℕ) → IsErrOf result (StorageFault.Bad chunk at) → ⊥ }
        ensures memory { IsErrOf result StorageFault.NoMemory → ⊥ }
        ensures stopped { IsErrOf result StorageFault.Failed → self.new.now.stopped ≡ true }
        ensures only { IsErrOf result StorageFault.Stopped → ⊥ }
        ensures cause { HasStorageCause (config_of self.old.now) (D.fault_counts self.old.disk) (D.fault_counts self.new.disk) result }
    {
        // These tell that the ring and the store are whole.
        let _whole = (self.ring.reusable(self.anchor.uniq), self.store.spare());
        match self.store.image_at_cut(&mut self.disk, cursor, buf) {
            Ok(place) => Ok(place),
            Err(StoreFault::Bad { chunk, page }) => Err(StorageFault::Bad { chunk, page }),
            Err(StoreFault::NoMemory) => Err(StorageFault::NoMemory),
            Err(StoreFault::Failed) => {
                self.stopped = true;
                Err(StorageFault::Failed)
            }
        }
    }

    /// Makes memory for one more captured image. `NoMemory` comes only where none was spare, and changes nothing.
    pub fn make_room(&mut self) -> Result<(), NoMemory>
        ensures step { OnOk result (self.new.now ≡ with_store self.old.now (with_before self.old.now.store (with_room self.old.now.store.before))) }
        ensures disk { self.new.disk ≡ self.old.disk }
        ensures stored { D.tells → (g : Behind) → IsStored (D.past self.old.disk) self.old.now g → IsStored (D.past self.new.disk) self.new.now g }
        ensures memory { OnErr result (self.old.now.store.before.spare ≡ 0) }
        ensures unchanged { OnErr result (self.new.now ≡ self.old.now) }
    {
        self.store.make_room()
    }

    /// Drops the captured images of a space's pages.
    pub fn drop_images(&mut self, space: u8)
        ensures step { self.new.now ≡ with_store self.old.now (with_before self.old.now.store (without (is_in_space space) self.old.now.store.before)) }
        ensures disk { self.new.disk ≡ self.old.disk }
        ensures stored { D.tells → (g : Behind) → IsStored (D.past self.old.disk) self.old.now g → IsStored (D.past self.new.disk) self.new.now g }
    {
        self.store.drop_images(space);
    }
}
