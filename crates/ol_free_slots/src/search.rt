//! The search through a space.

ghost use Rattle.std.specs.Prelude.{◌≡◌, ◌<◌, ◌≤◌, IfOk, IsErrOf, IfSome, List, None, Some, false, length, true, ℕ};
ghost use Rattle.ol_values.specs.declared.record.Record.{Record as RecordValue};
ghost use Rattle.ol_values.specs.Config.{data_pages, has_page};
ghost use Rattle.ol_model.specs.Machine.{Machine, first_free, row_in};
ghost use Rattle.ol_pool.specs.Frames.{frame_of};
ghost use Rattle.ol_storage.specs.Behind.{Behind, is_up};
ghost use Rattle.ol_storage.specs.Causes.{HasStorageCause};
ghost use Rattle.ol_storage.specs.Installation.{config_of, with_store};
ghost use Rattle.ol_storage.specs.Storing.{IsStored};
ghost use Rattle.ol_store.specs.Stores.{IsBadAt};
ghost use Rattle.ol_turn_laws.specs.Room.{Regular};
ghost use Rattle.ol_engine.specs.Parts.{Registers, Shows, behind_of};
ghost use Rattle.ol_free_slots.specs.Filled.{AreFull, HasRisenFor, hint_of};
ghost use Rattle.ol_free_slots.specs.Slots.{HasEmpty, IsPlaced};

use crate::hints::Hints;
use crate::look::look_at;
use ol_ports::Disk;
use ol_storage::{Storage, StorageFault};
use ol_txn::Locks;
use ol_values::Rid;

// How many data pages a space has.
fn page_count<D: Disk>(storage: &Storage<D>, space: u8) -> u32
    requires { space < length (config_of storage.now.now).spaces }
    ensures value { result ≡ data_pages (config_of storage.now.now) space }
    ensures limit { result ≤ 65535 }
    ensures spaces { length (config_of storage.now.now).spaces ≤ 16 }
{
    let table = storage.log().table();
    // It tells how many spaces there are at most.
    let _spaces = table.spaces();
    table.pages(space)
}

/// The least slot of a space that is empty and carries no lock of any session; `None` where there is none. The space is up. Pages that the
/// hints tell full are not looked at, and full pages that adjoin them are told so from now on: behind an answer the page that the hint
/// of the space names is not full, where there is one.
///
/// `Failed` comes only where the count of faults of a chunk rose. `NoMemory` and `Bad` come only where a page is not in memory, and `Bad`
/// never over a disk that tells its bytes; both leave all but the pages in memory as it was.
pub fn find_free<D: Disk>(
    storage: &mut Storage<D>,
    locks: &Locks,
    hints: &mut Hints,
    space: u8,
) -> Result<Option<Rid>, StorageFault>
    requires going { storage.old.now.stopped ≡ false }
    requires space { space < length (config_of storage.old.now).spaces }
    requires up { is_up storage.old.now.anchor space ≡ true }
    ensures found { D.tells → (opened : ℕ) (m : Machine) (registers : Registers) (earlier : ℕ → RecordValue) → Shows opened storage.old.now locks.now registers m → Regular m → IsStored (D.past storage.old.disk) storage.old.now (behind_of earlier m)
        → AreFull hints.old m → IfOk result (λ free. free ≡ first_free m space) }
    ensures full { D.tells → (opened : ℕ) (m : Machine) (registers : Registers) (earlier : ℕ → RecordValue) → Shows opened storage.old.now locks.now registers m → IsStored (D.past storage.old.disk) storage.old.now (behind_of earlier m)
        → AreFull hints.old m → AreFull hints.new m }
    ensures first { D.tells → (opened : ℕ) (m : Machine) (registers : Registers) (earlier : ℕ → RecordValue) → Shows opened storage.old.now locks.now registers m → IsStored (D.past storage.old.disk) storage.old.now (behind_of earlier m)
        → IfOk result (λ free. has_page (config_of storage.old.now) space (hint_of hints.new space) ≡ true → HasEmpty (row_in m) space (hint_of hints.new space) 31) }
    ensures risen { HasRisenFor space hints.old hints.new }
    ensures shows { (opened : ℕ) (m : Machine) (registers : Registers) → Shows opened storage.old.now locks.now registers m → (IsErrOf result StorageFault.Failed → ⊥) → Shows opened storage.new.now locks.now registers m }
    ensures there { IfOk result (λ free. IfSome free (IsPlaced (config_of storage.old.now) storage.new.now.store.pool space)) }
    ensures step { (IsErrOf result StorageFault.Failed → ⊥) → storage.new.now ≡ with_store storage.old.now storage.new.now.store }
    ensures images { (IsErrOf result StorageFault.Failed → ⊥) → storage.new.now.store.before ≡ storage.old.now.store.before }
    ensures past { D.tells → D.past storage.new.disk ≡ D.past storage.old.disk }
    ensures stored { D.tells → (g : Behind) → IsStored (D.past storage.old.disk) storage.old.now g → (IsErrOf result StorageFault.Failed → ⊥) → IsStored (D.past storage.new.disk) storage.new.now g }
    ensures bad { (chunk at : ℕ) → IsErrOf result (StorageFault.Bad chunk at) → (page : ℕ) × (has_page (config_of storage.old.now) space page ≡ true) × IsBadAt storage.old.now.store space page chunk at }
    ensures memory { IsErrOf result StorageFault.NoMemory → (page : ℕ) × (has_page (config_of storage.old.now) space page ≡ true) × (frame_of storage.old.now.store.pool space page ≡ None) }
    ensures stopped { IsErrOf result StorageFault.Failed → storage.new.now.stopped ≡ true }
    ensures only { IsErrOf result StorageFault.Stopped → ⊥ }
    ensures good { D.tells → (g : Behind) → IsStored (D.past storage.old.disk) storage.old.now g → (chunk at : ℕ) → IsErrOf result (StorageFault.Bad chunk at) → ⊥ }
    ensures cause { HasStorageCause (config_of storage.old.now) (D.fault_counts storage.old.disk) (D.fault_counts storage.new.disk) result }
{
    let pages = page_count(storage, space);
    let begin = hints.first(space);
    for page in begin..pages {
        let look = match look_at(storage, locks, space, page as u16) {
            Ok(look) => look,
            Err(fault) => return Err(fault),
        };
        match look.free() {
            Some(slot) => return Ok(Some(Rid {
                space,
                page: page as u16,
                slot,
            })),
            None => {}
        }
        hints.pass(space, page, look);
    }
    Ok(None)
}
