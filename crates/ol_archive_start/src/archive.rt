//! An archive starts.

ghost use Rattle.std.specs.Prelude.{◌≡◌, ◌≤◌, IsErrOf, List, None, OnErr, OnOk, Some, false, true, ℕ};
ghost use Rattle.ol_values.specs.declared.record.Record.{Record as RecordValue};
ghost use Rattle.ol_model.specs.Machine.{Machine};
ghost use Rattle.ol_ports.specs.Stops.{Stops};
ghost use Rattle.ol_running.specs.Running.{begun, running_of, with_running};
ghost use Rattle.ol_storage.specs.Behind.{Behind};
ghost use Rattle.ol_storage.specs.Causes.{HasStorageCause};
ghost use Rattle.ol_storage.specs.Installation.{config_of};
ghost use Rattle.ol_storage.specs.Storing.{IsStored};
ghost use Rattle.ol_turn_laws.specs.Room.{Regular};
ghost use Rattle.ol_engine.specs.Parts.{GoesOn, HasRisen, HasTurns, MayRise, Registers, Shows, behind_of};
ghost use Rattle.ol_engine.specs.Turns.{Answers, StandsWithinEither};
ghost use Rattle.ol_free_slots.specs.Slots.{IsRead};
ghost use Rattle.ol_archive_turns.specs.Ending.{AreNumbered};
ghost use Rattle.ol_archive_turns.specs.Turns.{AreAllUp, IsArchiver, Tells};
ghost use Rattle.ol_archive_start.specs.Refusing.{AreSpaces, refusal_of};
ghost use Rattle.ol_archive_start.specs.Starting.{HasUnread, IsBadIn, anchor_started, start_turn};

use crate::counting::count_pages;
use crate::cursors::cursor_of;
use crate::marking::mark_start;
use crate::refusals::refusal;
use ol_archive_turns::Archives;
use ol_cursor::Cursor;
use ol_ports::Disk;
use ol_running::Running;
use ol_storage::{Storage, StorageFault};
use ol_txn::Locks;
use ol_values::Reply;

/// Starts an archive of a level, from 0 to 2, of these spaces, by their numbers, for an archiver, from 1 to 4, who has none. It makes a
/// checkpoint and answers the archive's number, its cut, which is the last position, and how many pages it has: those of its spaces that
/// were changed above their bases. The base of a space is 0 at level 0, and else the cut of the known archive of the level below.
///
/// Refusals, in this order: `SpaceDown` exactly where one of the spaces is down, and names the first; `Archiving` exactly where a running
/// archive has one of them, and names the archiver who has the first; `NoParent` exactly where no archive of the level below is known of
/// one of them, and names the first. `NoMemory` and `Bad` come only where a page is not in memory, and `Bad` never over a disk that tells
/// its bytes; both leave all but the pages in memory as it was. `Failed` comes only where the count of faults of a chunk rose.
pub fn start<D: Disk>(
    storage: &mut Storage<D>,
    locks: &Locks,
    archives: &mut Archives,
    archiver: u8,
    level: u8,
    spaces: &[u8],
) -> Result<Reply, StorageFault>
    requires archiver { IsArchiver archiver }
    requires level { level ≤ 2 }
    requires spaces { AreSpaces (config_of storage.old.now) spaces.now }
    requires idle { running_of archives.old archiver ≡ None }
    requires going { storage.old.now.stopped ≡ false }
    requires turns { (opened : ℕ) × HasTurns opened storage.old.now locks.now }
    requires rise { MayRise 1 storage.old.now }
    ensures answer { D.tells → (opened : ℕ) (m : Machine) (registers : Registers) (before : ℕ → RecordValue) → Tells opened storage.old.now locks.now registers archives.old m → Regular m → IsStored (D.past storage.old.disk) storage.old.now (behind_of before m)
        → Answers m (Tells opened storage.new.now locks.now registers archives.new) (start_turn m archiver level spaces.now) result }
    ensures turns { (opened : ℕ) → HasTurns opened storage.old.now locks.now → (IsErrOf result StorageFault.Failed → ⊥) → HasTurns opened storage.new.now locks.now }
    ensures risen { OnOk result (HasRisen 1 storage.old.now storage.new.now) }
    ensures goes { OnOk result (GoesOn storage.old.now storage.new.now) }
    ensures up { AreAllUp storage.old.now.anchor archives.old → OnOk result (AreAllUp storage.new.now.anchor archives.new) }
    ensures numbers { AreNumbered archives.old → OnOk result (AreNumbered archives.new) }
    ensures kept { OnErr result (archives.new ≡ archives.old) }
    ensures still { OnErr result ((IsErrOf result StorageFault.Failed → ⊥) → IsRead storage.old.now storage.new.now) }
    ensures stops { D.tells → (opened : ℕ) (m : Machine) (registers : Registers) (before : ℕ → RecordValue) → Shows opened storage.old.now locks.now registers m → Regular m → IsStored (D.past storage.old.disk) storage.old.now (behind_of before m)
        → Stops (D.past storage.old.disk) (D.past storage.new.disk) (StandsWithinEither storage.old.now (anchor_started storage.old.now locks.now) before m) }
    ensures stored { D.tells → (opened : ℕ) (m : Machine) (registers : Registers) (before : ℕ → RecordValue) → Shows opened storage.old.now locks.now registers m → Regular m → IsStored (D.past storage.old.disk) storage.old.now (behind_of before m)
        → (IsErrOf result StorageFault.Failed → ⊥) → IsStored (D.past storage.new.disk) storage.new.now (behind_of before m) }
    ensures bad { (chunk at : ℕ) → IsErrOf result (StorageFault.Bad chunk at) → IsBadIn storage.old.now chunk at }
    ensures memory { IsErrOf result StorageFault.NoMemory → HasUnread storage.old.now }
    ensures stopped { IsErrOf result StorageFault.Failed → storage.new.now.stopped ≡ true }
    ensures only { IsErrOf result StorageFault.Stopped → ⊥ }
    ensures good { D.tells → (g : Behind) → IsStored (D.past storage.old.disk) storage.old.now g → (chunk at : ℕ) → IsErrOf result (StorageFault.Bad chunk at) → ⊥ }
    ensures cause { HasStorageCause (config_of storage.old.now) (D.fault_counts storage.old.disk) (D.fault_counts storage.new.disk) result }
{
    // It tells what a stop leaves where nothing is asked of the disk, and how many spaces there are at most.
    let _stands = storage.is_stopped();
    match refusal(storage.anchor(), archives, level, spaces) {
        Some(reply) => Ok(reply),
        None => begin(storage, locks, archives, archiver, level, spaces),
    }
}

// Starts an archive that no state refuses.
fn begin<D: Disk>(
    storage: &mut Storage<D>,
    locks: &Locks,
    archives: &mut Archives,
    archiver: u8,
    level: u8,
    spaces: &[u8],
) -> Result<Reply, StorageFault>
    requires archiver { IsArchiver archiver }
    requires level { level ≤ 2 }
    requires spaces { AreSpaces (config_of storage.old.now) spaces.now }
    requires idle { running_of archives.old archiver ≡ None }
    requires free { refusal_of storage.old.now.anchor archives.old level spaces.now ≡ None }
    requires going { storage.old.now.stopped ≡ false }
    requires turns { (opened : ℕ) × HasTurns opened storage.old.now locks.now }
    requires rise { MayRise 1 storage.old.now }
    ensures answer { D.tells → (opened : ℕ) (m : Machine) (registers : Registers) (before : ℕ → RecordValue) → Tells opened storage.old.now locks.now registers archives.old m → Regular m → IsStored (D.past storage.old.disk) storage.old.now (behind_of before m)
        → Answers m (Tells opened storage.new.now locks.now registers archives.new) (start_turn m archiver level spaces.now) result }
    ensures turns { (opened : ℕ) → HasTurns opened storage.old.now locks.now → (IsErrOf result StorageFault.Failed → ⊥) → HasTurns opened storage.new.now locks.now }
    ensures risen { OnOk result (HasRisen 1 storage.old.now storage.new.now) }
    ensures goes { OnOk result (GoesOn storage.old.now storage.new.now) }
    ensures up { AreAllUp storage.old.now.anchor archives.old → OnOk result (AreAllUp storage.new.now.anchor archives.new) }
    ensures numbers { AreNumbered archives.old → OnOk result (AreNumbered archives.new) }
    ensures kept { OnErr result (archives.new ≡ archives.old) }
    ensures still { OnErr result ((IsErrOf result StorageFault.Failed → ⊥) → IsRead storage.old.now storage.new.now) }
    ensures stops { D.tells → (opened : ℕ) (m : Machine) (registers : Registers) (before : ℕ → RecordValue) → Shows opened storage.old.now locks.now registers m → Regular m → IsStored (D.past storage.old.disk) storage.old.now (behind_of before m)
        → Stops (D.past storage.old.disk) (D.past storage.new.disk) (StandsWithinEither storage.old.now (anchor_started storage.old.now locks.now) before m) }
    ensures stored { D.tells → (opened : ℕ) (m : Machine) (registers : Registers) (before : ℕ → RecordValue) → Shows opened storage.old.now locks.now registers m → Regular m → IsStored (D.past storage.old.disk) storage.old.now (behind_of before m)
        → (IsErrOf result StorageFault.Failed → ⊥) → IsStored (D.past storage.new.disk) storage.new.now (behind_of before m) }
    ensures bad { (chunk at : ℕ) → IsErrOf result (StorageFault.Bad chunk at) → IsBadIn storage.old.now chunk at }
    ensures memory { IsErrOf result StorageFault.NoMemory → HasUnread storage.old.now }
    ensures stopped { IsErrOf result StorageFault.Failed → storage.new.now.stopped ≡ true }
    ensures only { IsErrOf result StorageFault.Stopped → ⊥ }
    ensures good { D.tells → (g : Behind) → IsStored (D.past storage.old.disk) storage.old.now g → (chunk at : ℕ) → IsErrOf result (StorageFault.Bad chunk at) → ⊥ }
    ensures cause { HasStorageCause (config_of storage.old.now) (D.fault_counts storage.old.disk) (D.fault_counts storage.new.disk) result }
{
    // It tells what a stop leaves while nothing is written.
    let _stands = storage.is_stopped();
    let mut cursor = cursor_of(storage, locks, level, spaces);
    cursor.left = match count_pages(storage, &cursor) {
        Ok(pages) => pages,
        Err(fault) => return Err(fault),
    };
    match mark_start(storage, locks) {
        Ok(()) => {
            put(archives, archiver, cursor);
            Ok(Reply::Started {
                number: cursor.number,
                cut: cursor.cut,
                pages: cursor.left,
            })
        }
        Err(fault) => Err(fault),
    }
}

// An archiver runs an archive that begins.
fn put(archives: &mut Archives, archiver: u8, cursor: Cursor)
    requires archiver { IsArchiver archiver }
    ensures { archives.new ≡ with_running archiver (Some (begun cursor)) archives.old }
{
    archives[usize::from(archiver) - 1] = Some(Running::begun(cursor));
}
