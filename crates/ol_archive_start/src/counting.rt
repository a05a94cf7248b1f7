//! How many pages an archive has.

ghost use Rattle.std.specs.Prelude.{◌≡◌, ◌<◌, ◌≤◌, ◌+◌, ◌^◌, IfOk, IsErrOf, false, if◌then◌else◌, length, true, ℕ};
ghost use Rattle.ol_values.specs.Config.{Config, data_pages};
ghost use Rattle.ol_cursor.specs.Order.{archives};
ghost use Rattle.ol_free_slots.specs.Slots.{IsRead};
ghost use Rattle.ol_storage.specs.Behind.{Behind, is_up, pages_of};
ghost use Rattle.ol_storage.specs.Causes.{HasStorageCause};
ghost use Rattle.ol_storage.specs.Installation.{config_of};
ghost use Rattle.ol_storage.specs.Storing.{IsStored};
ghost use Rattle.ol_archive_start.specs.Starting.{AreThere, HasUnread, IsBadIn, changed_in, changed_of, changed_upto};

use ol_cursor::Cursor;
use ol_ports::Disk;
use ol_storage::{Storage, StorageFault};

/// How many pages an archive with this cursor has, whose spaces are up: those of each of its spaces that were changed above the base of
/// the space. Refusals are those of `Storage::stamp`.
pub fn count_pages<D: Disk>(storage: &mut Storage<D>, cursor: &Cursor) -> Result<u32, StorageFault>
    requires going { storage.old.now.stopped ≡ false }
    requires there { AreThere storage.old.now cursor.now }
    ensures value { D.tells → (g : Behind) → IsStored (D.past storage.old.disk) storage.old.now g → IfOk result (λ count. count ≡ changed_of (pages_of storage.old.now.anchor g) (config_of storage.old.now) cursor.now (length (config_of storage.old.now).spaces)) }
    ensures limit { IfOk result (λ count. count < 2 ^ 32) }
    ensures still { (IsErrOf result StorageFault.Failed → ⊥) → IsRead storage.old.now storage.new.now }
    ensures past { D.tells → D.past storage.new.disk ≡ D.past storage.old.disk }
    ensures stored { D.tells → (g : Behind) → IsStored (D.past storage.old.disk) storage.old.now g → (IsErrOf result StorageFault.Failed → ⊥) → IsStored (D.past storage.new.disk) storage.new.now g }
    ensures bad { (chunk at : ℕ) → IsErrOf result (StorageFault.Bad chunk at) → IsBadIn storage.old.now chunk at }
    ensures memory { IsErrOf result StorageFault.NoMemory → HasUnread storage.old.now }
    ensures stopped { IsErrOf result StorageFault.Failed → storage.new.now.stopped ≡ true }
    ensures only { IsErrOf result StorageFault.Stopped → ⊥ }
    ensures good { D.tells → (g : Behind) → IsStored (D.past storage.old.disk) storage.old.now g → (chunk at : ℕ) → IsErrOf result (StorageFault.Bad chunk at) → ⊥ }
    ensures cause { HasStorageCause (config_of storage.old.now) (D.fault_counts storage.old.disk) (D.fault_counts storage.new.disk) result }
{
    let spaces = storage.log().table().spaces();
    let mut count = 0;
    for space in 0..spaces {
        match count_in(storage, cursor, space) {
            Ok(changed) => count += changed,
            Err(fault) => return Err(fault),
        }
    }
    Ok(count)
}

// How many pages of a space such an archive has: none where the space is not one of the archive's.
fn count_in<D: Disk>(
    storage: &mut Storage<D>,
    cursor: &Cursor,
    space: u8,
) -> Result<u32, StorageFault>
    requires going { storage.old.now.stopped ≡ false }
    requires there { AreThere storage.old.now cursor.now }
    ensures value { D.tells → (g : Behind) → IsStored (D.past storage.old.disk) storage.old.now g → IfOk result (λ count. count ≡ changed_in (pages_of storage.old.now.anchor g) (config_of storage.old.now) cursor.now space) }
    ensures limit { IfOk result (λ count. count ≤ 65535) }
    ensures still { (IsErrOf result StorageFault.Failed → ⊥) → IsRead storage.old.now storage.new.now }
    ensures past { D.tells → D.past storage.new.disk ≡ D.past storage.old.disk }
    ensures stored { D.tells → (g : Behind) → IsStored (D.past storage.old.disk) storage.old.now g → (IsErrOf result StorageFault.Failed → ⊥) → IsStored (D.past storage.new.disk) storage.new.now g }
    ensures bad { (chunk at : ℕ) → IsErrOf result (StorageFault.Bad chunk at) → IsBadIn storage.old.now chunk at }
    ensures memory { IsErrOf result StorageFault.NoMemory → HasUnread storage.old.now }
    ensures stopped { IsErrOf result StorageFault.Failed → storage.new.now.stopped ≡ true }
    ensures only { IsErrOf result StorageFault.Stopped → ⊥ }
    ensures good { D.tells → (g : Behind) → IsStored (D.past storage.old.disk) storage.old.now g → (chunk at : ℕ) → IsErrOf result (StorageFault.Bad chunk at) → ⊥ }
    ensures cause { HasStorageCause (config_of storage.old.now) (D.fault_counts storage.old.disk) (D.fault_counts storage.new.disk) result }
{
    if !cursor.archives(space) {
        return Ok(0);
    }
    count_changed(storage, space, cursor.bases[usize::from(space)])
}

// How many pages of a space that is up were changed above a base.
fn count_changed<D: Disk>(
    storage: &mut Storage<D>,
    space: u8,
    base: u64,
) -> Result<u32, StorageFault>
    requires going { storage.old.now.stopped ≡ false }
    requires space { space < length (config_of storage.old.now).spaces }
    requires up { is_up storage.old.now.anchor space ≡ true }
    ensures value { D.tells → (g : Behind) → IsStored (D.past storage.old.disk) storage.old.now g → IfOk result (λ count. count ≡ changed_upto (pages_of storage.old.now.anchor g) space base (data_pages (config_of storage.old.now) space)) }
    ensures limit { IfOk result (λ count. count ≤ 65535) }
    ensures still { (IsErrOf result StorageFault.Failed → ⊥) → IsRead storage.old.now storage.new.now }
    ensures past { D.tells → D.past storage.new.disk ≡ D.past storage.old.disk }
    ensures stored { D.tells → (g : Behind) → IsStored (D.past storage.old.disk) storage.old.now g → (IsErrOf result StorageFault.Failed → ⊥) → IsStored (D.past storage.new.disk) storage.new.now g }
    ensures bad { (chunk at : ℕ) → IsErrOf result (StorageFault.Bad chunk at) → IsBadIn storage.old.now chunk at }
    ensures memory { IsErrOf result StorageFault.NoMemory → HasUnread storage.old.now }
    ensures stopped { IsErrOf result StorageFault.Failed → storage.new.now.stopped ≡ true }
    ensures only { IsErrOf result StorageFault.Stopped → ⊥ }
    ensures good { D.tells → (g : Behind) → IsStored (D.past storage.old.disk) storage.old.now g → (chunk at : ℕ) → IsErrOf result (StorageFault.Bad chunk at) → ⊥ }
    ensures cause { HasStorageCause (config_of storage.old.now) (D.fault_counts storage.old.disk) (D.fault_counts storage.new.disk) result }
{
    let pages = page_count(storage, space);
    let mut count = 0;
    for page in 0..pages {
        match storage.stamp(space, page as u16) {
            Ok(stamp) => count = one_more(count, base < stamp),
            Err(fault) => return Err(fault),
        }
    }
    Ok(count)
}

// How many data pages a space has.
fn page_count<D: Disk>(storage: &Storage<D>, space: u8) -> u32
    requires { space < length (config_of storage.now.now).spaces }
    ensures value { result ≡ data_pages (config_of storage.now.now) space }
    ensures limit { result ≤ 65535 }
{
    storage.log().table().pages(space)
}

// A count with one more page, where that was changed.
fn one_more(count: u32, is_changed: bool) -> u32
    requires { count < 65535 }
    ensures { result ≡ (if is_changed then count + 1 else count) }
{
    if is_changed { count + 1 } else { count }
}
