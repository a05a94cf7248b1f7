//! One page is looked at.

ghost use Rattle.std.specs.Prelude.{◌≡◌, ◌<◌, Bool, IfOk, IfSome, IsErrOf, List, None, OnOk, Some, false, true, ℕ};
ghost use Rattle.ol_values.specs.Config.{has_page};
ghost use Rattle.ol_pool.specs.Frames.{frame_of};
ghost use Rattle.ol_storage.specs.Behind.{Behind, is_up};
ghost use Rattle.ol_storage.specs.Causes.{HasStorageCause};
ghost use Rattle.ol_storage.specs.Installation.{config_of};
ghost use Rattle.ol_storage.specs.Storing.{IsStored};
ghost use Rattle.ol_store.specs.Stores.{IsBadAt};
ghost use Rattle.ol_txn.specs.Seats.{table_of};
ghost use Rattle.ol_free_slots.specs.Slots.{IsRead, IsTold, free_slot, look_of, rows_of};

use crate::slots::slot_at;
use ol_ports::Disk;
use ol_storage::{Storage, StorageFault};
use ol_txn::Locks;
use ol_values::Rid;

// How many slots a page has.
const SLOTS: u8 = 31;

/// What a page shows that is looked at for an empty slot.
#[derive(Clone, Copy, Debug, PartialEq, Eq)]
pub enum Look {
    /// The least slot that is empty and carries no lock.
    Free(u8),
    /// Each slot holds a row.
    Full,
    /// There are empty slots, and each carries a lock.
    Locked,
}

impl Look {
    // Of a page without a slot that is empty and carries no lock.
    fn of(full: bool) -> Look
        ensures { result ≡ look_of full }
    {
        if full { Look::Full } else { Look::Locked }
    }

    /// The slot that is free, if one is.
    pub fn free(self) -> Option<u8>
        ensures { result ≡ free_slot self }
    {
        match self {
            Look::Free(slot) => Some(slot),
            Look::Full => None,
            Look::Locked => None,
        }
    }
}

/// Looks at a page of a space that is up for its least slot that is empty and carries no lock of any session. Refusals are those of
/// `Storage::read`.
pub fn look_at<D: Disk>(
    storage: &mut Storage<D>,
    locks: &Locks,
    space: u8,
    page: u16,
) -> Result<Look, StorageFault>
    requires going { storage.old.now.stopped ≡ false }
    requires page { has_page (config_of storage.old.now) space page ≡ true }
    requires up { is_up storage.old.now.anchor space ≡ true }
    ensures told { D.tells → (g : Behind) → IsStored (D.past storage.old.disk) storage.old.now g → IfOk result (IsTold (rows_of g) (table_of locks.now) space page) }
    ensures small { IfOk result (λ look. IfSome (free_slot look) (λ slot. slot < 31)) }
    ensures still { (IsErrOf result StorageFault.Failed → ⊥) → IsRead storage.old.now storage.new.now }
    ensures there { OnOk result ((bytes : List ℕ) × (frame_of storage.new.now.store.pool space page ≡ Some bytes)) }
    ensures past { D.tells → D.past storage.new.disk ≡ D.past storage.old.disk }
    ensures stored { D.tells → (g : Behind) → IsStored (D.past storage.old.disk) storage.old.now g → (IsErrOf result StorageFault.Failed → ⊥) → IsStored (D.past storage.new.disk) storage.new.now g }
    ensures bad { (chunk at : ℕ) → IsErrOf result (StorageFault.Bad chunk at) → IsBadAt storage.old.now.store space page chunk at }
    ensures memory { IsErrOf result StorageFault.NoMemory → frame_of storage.old.now.store.pool space page ≡ None }
    ensures stopped { IsErrOf result StorageFault.Failed → storage.new.now.stopped ≡ true }
    ensures only { IsErrOf result StorageFault.Stopped → ⊥ }
    ensures good { D.tells → (g : Behind) → IsStored (D.past storage.old.disk) storage.old.now g → (chunk at : ℕ) → IsErrOf result (StorageFault.Bad chunk at) → ⊥ }
    ensures cause { HasStorageCause (config_of storage.old.now) (D.fault_counts storage.old.disk) (D.fault_counts storage.new.disk) result }
{
    let mut full = true;
    for slot in 0..SLOTS {
        let found = match slot_at(storage, locks, Rid { space, page, slot }) {
            Ok(found) => found,
            Err(fault) => return Err(fault),
        };
        if found.is_free() {
            return Ok(Look::Free(slot));
        }
        full = found.keeps_full(full);
    }
    Ok(Look::of(full))
}
