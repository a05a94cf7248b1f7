//! One slot is looked at.

ghost use Rattle.std.specs.Prelude.{◌≡◌, ◌&&◌, Bool, IfOk, IsErrOf, List, None, OnOk, Some, false, true, ℕ};
ghost use Rattle.ol_values.specs.Config.{has_place};
ghost use Rattle.ol_rules.specs.Locks.{is_locked};
ghost use Rattle.ol_pool.specs.Frames.{frame_of};
ghost use Rattle.ol_storage.specs.Behind.{Behind, is_up};
ghost use Rattle.ol_storage.specs.Causes.{HasStorageCause};
ghost use Rattle.ol_storage.specs.Installation.{config_of};
ghost use Rattle.ol_storage.specs.Storing.{IsStored};
ghost use Rattle.ol_store.specs.Stores.{IsBadAt};
ghost use Rattle.ol_txn.specs.Seats.{table_of};
ghost use Rattle.ol_free_slots.specs.Slots.{IsRead, is_free_slot, keeps_full, rows_of, slot_of};

use ol_ports::Disk;
use ol_storage::{Storage, StorageFault};
use ol_txn::Locks;
use ol_values::{Rid, Row};

/// What a slot holds.
#[derive(Clone, Copy, Debug, PartialEq, Eq)]
pub enum Slot {
    /// A row.
    Row,
    /// Nothing, and it carries a lock.
    Locked,
    /// Nothing, and it carries none.
    Free,
}

impl Slot {
    // What a slot with this row and perhaps a lock is.
    fn told(row: &Option<Row>, locked: bool) -> Slot
        ensures { result ≡ slot_of row.now locked }
    {
        match row {
            Some(_) => Slot::Row,
            None => { if locked { Slot::Locked } else { Slot::Free } }
        }
    }

    /// Whether it is empty and carries no lock.
    pub fn is_free(self) -> bool
        ensures { result ≡ is_free_slot self }
    {
        match self {
            Slot::Free => true,
            Slot::Row => false,
            Slot::Locked => false,
        }
    }

    /// Whether a page that is full up to this slot is so with it.
    pub fn keeps_full(self, full: bool) -> bool
        ensures { result ≡ keeps_full self full }
    {
        match self {
            Slot::Row => full,
            Slot::Locked => false,
            Slot::Free => false,
        }
    }
}

/// What a slot of a page holds, and whether it carries a lock of any session. Refusals are those of `Storage::read`.
pub fn slot_at<D: Disk>(
    storage: &mut Storage<D>,
    locks: &Locks,
    rid: Rid,
) -> Result<Slot, StorageFault>
    requires going { storage.old.now.stopped ≡ false }
    requires place { has_place (config_of storage.old.now) rid ≡ true }
    requires up { is_up storage.old.now.anchor rid.space ≡ true }
    ensures value { D.tells → (g : Behind) → IsStored (D.past storage.old.disk) storage.old.now g → IfOk result (λ slot. slot ≡ slot_of (rows_of g rid) (is_locked (table_of locks.now) rid)) }
    ensures still { (IsErrOf result StorageFault.Failed → ⊥) → IsRead storage.old.now storage.new.now }
    ensures there { OnOk result ((bytes : List ℕ) × (frame_of storage.new.now.store.pool rid.space rid.page ≡ Some bytes)) }
    ensures past { D.tells → D.past storage.new.disk ≡ D.past storage.old.disk }
    ensures stored { D.tells → (g : Behind) → IsStored (D.past storage.old.disk) storage.old.now g → (IsErrOf result StorageFault.Failed → ⊥) → IsStored (D.past storage.new.disk) storage.new.now g }
    ensures bad { (chunk at : ℕ) → IsErrOf result (StorageFault.Bad chunk at) → IsBadAt storage.old.now.store rid.space rid.page chunk at }
    ensures memory { IsErrOf result StorageFault.NoMemory → frame_of storage.old.now.store.pool rid.space rid.page ≡ None }
    ensures stopped { IsErrOf result StorageFault.Failed → storage.new.now.stopped ≡ true }
    ensures only { IsErrOf result StorageFault.Stopped → ⊥ }
    ensures good { D.tells → (g : Behind) → IsStored (D.past storage.old.disk) storage.old.now g → (chunk at : ℕ) → IsErrOf result (StorageFault.Bad chunk at) → ⊥ }
    ensures cause { HasStorageCause (config_of storage.old.now) (D.fault_counts storage.old.disk) (D.fault_counts storage.new.disk) result }
{
    match storage.read(rid) {
        Ok(row) => Ok(Slot::told(&row, locks.locked(rid))),
        Err(fault) => Err(fault),
    }
}
