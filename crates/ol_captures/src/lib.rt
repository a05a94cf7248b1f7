//! The captured images of running archives, in the storage that holds them.
#![tactic(auto)]

ghost use Rattle.std.specs.Prelude.{◌≡◌, length, ℕ};
ghost use Rattle.ol_before.specs.Images.{without};
ghost use Rattle.ol_running.specs.Running.{is_of_archive};
ghost use Rattle.ol_storage.specs.Behind.{Behind};
ghost use Rattle.ol_storage.specs.Installation.{with_store};
ghost use Rattle.ol_storage.specs.Storing.{IsStored};
ghost use Rattle.ol_store.specs.Stores.{with_before};

use ol_cursor::Cursor;
use ol_ports::Disk;
use ol_storage::Storage;

// How many spaces there are at most.
fn count_of(cursor: &Cursor) -> usize
    ensures { length cursor.now.spaces ≡ 16 }
{
    let spaces: &[bool] = &cursor.spaces;
    spaces.len()
}

/// Drops the captured images of all spaces of an archive. Nothing is asked of the disk.
pub fn drop_images_of<D: Disk>(storage: &mut Storage<D>, cursor: &Cursor)
    ensures step { storage.new.now ≡ with_store storage.old.now (with_before storage.old.now.store (without (is_of_archive cursor.now) storage.old.now.store.before)) }
    ensures disk { storage.new.disk ≡ storage.old.disk }
    ensures stored { D.tells → (g : Behind) → IsStored (D.past storage.old.disk) storage.old.now g → IsStored (D.past storage.new.disk) storage.new.now g }
{
    // It tells that they are 16.
    let _count = count_of(cursor);
    for space in 0..16 {
        if cursor.archives(space) {
            storage.drop_images(space);
        }
    }
}
