//! The slots of a page that hold a row.

ghost use Rattle.std.specs.Prelude.{◌≡◌, ◌<◌, ◌+◌, ◌^◌, IfOk, IsErrOf, List, None, OnOk, Some, false, if◌then◌else◌, is_some, true, ℕ};
ghost use Rattle.ol_values.specs.Config.{has_page, has_place};
ghost use Rattle.ol_pool.specs.Frames.{frame_of};
ghost use Rattle.ol_storage.specs.Behind.{Behind, is_up};
ghost use Rattle.ol_storage.specs.Causes.{HasStorageCause};
ghost use Rattle.ol_storage.specs.Installation.{config_of};
ghost use Rattle.ol_storage.specs.Storing.{IsStored};
ghost use Rattle.ol_free_slots.specs.Slots.{IsRead, rows_of};
ghost use Rattle.ol_read_turns.specs.PageSlots.{bits_of, full_among};

use ol_ports::Disk;
use ol_storage::{Storage, StorageFault};
use ol_values::Rid;

/// How many slots a page has.
pub const SLOTS: u8 = 31;

/// The slots of a page of a space that is up that hold a row: bit i of the answer is set where slot i does. Refusals are those of
/// `Storage::read`.
pub fn full_slots<D: Disk>(
    storage: &mut Storage<D>,
    space: u8,
    page: u16,
) -> Result<u32, StorageFault>
    requires going { storage.old.now.stopped ≡ false }
    requires page { has_page (config_of storage.old.now) space page ≡ true }
    requires up { is_up storage.old.now.anchor space ≡ true }
    ensures bits { D.tells → (g : Behind) → IsStored (D.past storage.old.disk) storage.old.now g → IfOk result (λ bits. bits ≡ bits_of (full_among (λ rid. is_some (rows_of g rid)) space page 31)) }
    ensures still { (IsErrOf result StorageFault.Failed → ⊥) → IsRead storage.old.now storage.new.now }
    ensures past { D.tells → D.past storage.new.disk ≡ D.past storage.old.disk }
    ensures stored { D.tells → (g : Behind) → IsStored (D.past storage.old.disk) storage.old.now g → (IsErrOf result StorageFault.Failed → ⊥) → IsStored (D.past storage.new.disk) storage.new.now g }
    ensures memory { IsErrOf result StorageFault.NoMemory → frame_of storage.old.now.store.pool space page ≡ None }
    ensures stopped { IsErrOf result StorageFault.Failed → storage.new.now.stopped ≡ true }
    ensures only { IsErrOf result StorageFault.Stopped → ⊥ }
    ensures good { D.tells → (g : Behind) → IsStored (D.past storage.old.disk) storage.old.now g → (chunk at : ℕ) → IsErrOf result (StorageFault.Bad chunk at) → ⊥ }
    ensures cause { HasStorageCause (config_of storage.old.now) (D.fault_counts storage.old.disk) (D.fault_counts storage.new.disk) result }
{
    let mut bits = 0;
    for slot in 0..SLOTS {
        let full = match is_full(storage, Rid { space, page, slot }) {
            Ok(full) => full,
            Err(fault) => return Err(fault),
        };
        bits = with_slot(bits, slot, full);
    }
    Ok(bits)
}

// Whether a slot holds a row. Refusals are those of `Storage::read`.
fn is_full<D: Disk>(storage: &mut Storage<D>, rid: Rid) -> Result<bool, StorageFault>
    requires going { storage.old.now.stopped ≡ false }
    requires place { has_place (config_of storage.old.now) rid ≡ true }
    requires up { is_up storage.old.now.anchor rid.space ≡ true }
    ensures value { D.tells → (g : Behind) → IsStored (D.past storage.old.disk) storage.old.now g → IfOk result (λ full. full ≡ is_some (rows_of g rid)) }
    ensures still { (IsErrOf result StorageFault.Failed → ⊥) → IsRead storage.old.now storage.new.now }
    ensures past { D.tells → D.past storage.new.disk ≡ D.past storage.old.disk }
    ensures stored { D.tells → (g : Behind) → IsStored (D.past storage.old.disk) storage.old.now g → (IsErrOf result StorageFault.Failed → ⊥) → IsStored (D.past storage.new.disk) storage.new.now g }
    ensures memory { IsErrOf result StorageFault.NoMemory → frame_of storage.old.now.store.pool rid.space rid.page ≡ None }
    ensures stopped { IsErrOf result StorageFault.Failed → storage.new.now.stopped ≡ true }
    ensures only { IsErrOf result StorageFault.Stopped → ⊥ }
    ensures good { D.tells → (g : Behind) → IsStored (D.past storage.old.disk) storage.old.now g → (chunk at : ℕ) → IsErrOf result (StorageFault.Bad chunk at) → ⊥ }
    ensures cause { HasStorageCause (config_of storage.old.now) (D.fault_counts storage.old.disk) (D.fault_counts storage.new.disk) result }
{
    match storage.read(rid) {
        Ok(row) => Ok(row.is_some()),
        Err(fault) => Err(fault),
    }
}

// The bits of the slots below one, and that of the slot itself, set where it is full.
fn with_slot(bits: u32, slot: u8, full: bool) -> u32
    requires below { bits < 2 ^ slot }
    requires slot { slot < 31 }
    ensures value { result ≡ bits + (if full then 2 ^ slot else 0) }
    ensures small { result < 2 ^ (slot + 1) }
{
    if full { bits | 1 << slot } else { bits }
}
