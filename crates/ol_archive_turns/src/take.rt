//! The next page of a running archive.

ghost use Rattle.std.specs.Prelude.{◌≡◌, ◌<◌, ◌+◌, ◌^◌, IfOk, IsErrOf, List, None, OnErr, OnOk, Some, false, true, ℕ};
ghost use Rattle.ol_values.specs.declared.record.Record.{Record as RecordValue};
ghost use Rattle.ol_cursor.specs.Order.{archives as has_space, precedes};
ghost use Rattle.ol_engine.specs.Parts.{HasTurns, Registers, behind_of};
ghost use Rattle.ol_engine.specs.Turns.{Answers};
ghost use Rattle.ol_model.specs.Machine.{Machine, archive_of};
ghost use Rattle.ol_reserve.specs.declared.anchor.Anchor.{Anchor};
ghost use Rattle.ol_running.specs.declared.running.Running.{Running as RunningValue};
ghost use Rattle.ol_running.specs.Running.{passed_on, running_of, with_running};
ghost use Rattle.ol_storage.specs.Behind.{Behind};
ghost use Rattle.ol_storage.specs.Causes.{HasStorageCause};
ghost use Rattle.ol_storage.specs.Installation.{config_of, with_store};
ghost use Rattle.ol_storage.specs.Storing.{IsStored};
ghost use Rattle.ol_txn.specs.Seats.{Seat};
ghost use Rattle.ol_archive_turns.specs.Ending.{AreNumbered};
ghost use Rattle.ol_archive_turns.specs.Turns.{AreAllUp, IsArchiver, IsImage, Tells, take_turn};

use crate::Archives;
use crate::put_away::{held, put_away};
use ol_ports::{Disk, PAGE_LENGTH};
use ol_running::Running;
use ol_storage::{Storage, StorageFault};
use ol_values::Reply;

/// The next page of the running archive of an archiver, from 1 to 4: it passes, and its image as at the archive's cut is written to
/// the buffer. `AllTaken` comes exactly where no page is left. Nothing is written to the disk.
///
/// Refusals, in this order: `NoArchive` exactly where the archiver has no running archive; `BeforeFull` exactly where an entry has
/// broken it, and then it is put away. `Bad` comes only where a page of the archive is not in memory, and never over a disk that tells
/// its bytes; it changes nothing. `Failed` comes only where the count of faults of a chunk rose.
pub fn turn<D: Disk>(
    storage: &mut Storage<D>,
    archives: &mut Archives,
    archiver: u8,
    buf: &mut [u8; PAGE_LENGTH],
) -> Result<Reply, StorageFault>
    requires archiver { IsArchiver archiver }
    requires going { storage.old.now.stopped ≡ false }
    ensures answer { D.tells → (opened : ℕ) (seats : List Seat) (registers : Registers) (m : Machine) (before : ℕ → RecordValue) → Tells opened storage.old.now seats registers archives.old m → AreAllUp storage.old.now.anchor archives.old → IsStored (D.past storage.old.disk) storage.old.now (behind_of before m)
        → Answers m (Tells opened storage.new.now seats registers archives.new) (take_turn m archiver) result }
    ensures image { D.tells → (opened : ℕ) (seats : List Seat) (registers : Registers) (m : Machine) (before : ℕ → RecordValue) → Tells opened storage.old.now seats registers archives.old m → AreAllUp storage.old.now.anchor archives.old → IsStored (D.past storage.old.disk) storage.old.now (behind_of before m)
        → IfOk result (λ reply. IsImage m (archive_of m archiver) reply buf.new) }
    ensures turns { (opened : ℕ) (seats : List Seat) → HasTurns opened storage.old.now seats → OnOk result (HasTurns opened storage.new.now seats) }
    ensures up { AreAllUp storage.old.now.anchor archives.old → OnOk result (AreAllUp storage.new.now.anchor archives.new) }
    ensures numbers { AreNumbered archives.old → AreNumbered archives.new }
    ensures step { OnOk result (storage.new.now ≡ with_store storage.old.now storage.new.now.store) }
    ensures past { D.tells → D.past storage.new.disk ≡ D.past storage.old.disk }
    ensures stored { D.tells → (g : Behind) → IsStored (D.past storage.old.disk) storage.old.now g → OnOk result (IsStored (D.past storage.new.disk) storage.new.now g) }
    ensures kept { OnErr result (archives.new ≡ archives.old) }
    ensures unchanged { OnErr result ((IsErrOf result StorageFault.Failed → ⊥) → storage.new.now ≡ storage.old.now) }
    ensures good { D.tells → (g : Behind) → IsStored (D.past storage.old.disk) storage.old.now g → AreAllUp storage.old.now.anchor archives.old → (chunk at : ℕ) → IsErrOf result (StorageFault.Bad chunk at) → ⊥ }
    ensures memory { IsErrOf result StorageFault.NoMemory → ⊥ }
    ensures stopped { IsErrOf result StorageFault.Failed → storage.new.now.stopped ≡ true }
    ensures only { IsErrOf result StorageFault.Stopped → ⊥ }
    ensures cause { HasStorageCause (config_of storage.old.now) (D.fault_counts storage.old.disk) (D.fault_counts storage.new.disk) result }
{
    match held(archives, archiver) {
        Some(running) => match running.broken {
            Some(entry) => {
                put_away(storage, archives, archiver, &running.cursor);
                Ok(Reply::BeforeFull { entry })
            }
            None => take(storage, archives, archiver, running, buf),
        },
        None => Ok(Reply::NoArchive),
    }
}

// The next page of a running archive that is not broken.
fn take<D: Disk>(
    storage: &mut Storage<D>,
    archives: &mut Archives,
    archiver: u8,
    running: Running,
    buf: &mut [u8; PAGE_LENGTH],
) -> Result<Reply, StorageFault>
    requires archiver { IsArchiver archiver }
    requires going { storage.old.now.stopped ≡ false }
    requires held { running_of archives.old archiver ≡ Some running }
    requires whole { running.broken ≡ None }
    ensures answer { D.tells → (opened : ℕ) (seats : List Seat) (registers : Registers) (m : Machine) (before : ℕ → RecordValue) → Tells opened storage.old.now seats registers archives.old m → AreAllUp storage.old.now.anchor archives.old → IsStored (D.past storage.old.disk) storage.old.now (behind_of before m)
        → Answers m (Tells opened storage.new.now seats registers archives.new) (take_turn m archiver) result }
    ensures image { D.tells → (opened : ℕ) (seats : List Seat) (registers : Registers) (m : Machine) (before : ℕ → RecordValue) → Tells opened storage.old.now seats registers archives.old m → AreAllUp storage.old.now.anchor archives.old → IsStored (D.past storage.old.disk) storage.old.now (behind_of before m)
        → IfOk result (λ reply. IsImage m (archive_of m archiver) reply buf.new) }
    ensures turns { (opened : ℕ) (seats : List Seat) → HasTurns opened storage.old.now seats → OnOk result (HasTurns opened storage.new.now seats) }
    ensures up { AreAllUp storage.old.now.anchor archives.old → OnOk result (AreAllUp storage.new.now.anchor archives.new) }
    ensures numbers { AreNumbered archives.old → AreNumbered archives.new }
    ensures step { OnOk result (storage.new.now ≡ with_store storage.old.now storage.new.now.store) }
    ensures past { D.tells → D.past storage.new.disk ≡ D.past storage.old.disk }
    ensures stored { D.tells → (g : Behind) → IsStored (D.past storage.old.disk) storage.old.now g → OnOk result (IsStored (D.past storage.new.disk) storage.new.now g) }
    ensures kept { OnErr result (archives.new ≡ archives.old) }
    ensures unchanged { OnErr result ((IsErrOf result StorageFault.Failed → ⊥) → storage.new.now ≡ storage.old.now) }
    ensures good { D.tells → (g : Behind) → IsStored (D.past storage.old.disk) storage.old.now g → AreAllUp storage.old.now.anchor archives.old → (chunk at : ℕ) → IsErrOf result (StorageFault.Bad chunk at) → ⊥ }
    ensures memory { IsErrOf result StorageFault.NoMemory → ⊥ }
    ensures stopped { IsErrOf result StorageFault.Failed → storage.new.now.stopped ≡ true }
    ensures only { IsErrOf result StorageFault.Stopped → ⊥ }
    ensures cause { HasStorageCause (config_of storage.old.now) (D.fault_counts storage.old.disk) (D.fault_counts storage.new.disk) result }
{
    match storage.image_at_cut(&running.cursor, buf) {
        Ok(Some((space, page))) => {
            pass(archives, archiver, running, space, page);
            Ok(Reply::PageIs { space, page })
        }
        Ok(None) => Ok(Reply::AllTaken),
        Err(fault) => Err(fault),
    }
}

// A page of a running archive passes. Over a disk that tells its bytes the page is ahead, and one is left.
fn pass(archives: &mut Archives, archiver: u8, running: Running, space: u8, page: u16)
    requires archiver { IsArchiver archiver }
    requires held { running_of archives.old archiver ≡ Some running }
    ensures passed { has_space running.cursor space ≡ true → precedes (space, page) running.cursor.next ≡ false → 0 < running.cursor.left → running.passed + running.cursor.left < 2 ^ 32 → archives.new ≡ with_running archiver (Some (passed_on running space page)) archives.old }
    ensures up { (a : Anchor) → AreAllUp a archives.old → AreAllUp a archives.new }
    ensures numbers { AreNumbered archives.old → AreNumbered archives.new }
{
    if !may_pass(&running, space, page) {
        return;
    }
    let mut running = running;
    running.pass(space, page);
    archives[usize::from(archiver) - 1] = Some(running);
}

// Whether a page may pass: it is of one of the archive's spaces and has not passed, and one is left.
fn may_pass(running: &Running, space: u8, page: u16) -> bool
    ensures within { result ≡ true → space < 16 }
    ensures ahead { result ≡ true → precedes (space, page) running.now.cursor.next ≡ false }
    ensures left { result ≡ true → 0 < running.now.cursor.left }
    ensures count { result ≡ true → running.now.passed + running.now.cursor.left < 2 ^ 32 }
    ensures may { has_space running.now.cursor space ≡ true → precedes (space, page) running.now.cursor.next ≡ false → 0 < running.now.cursor.left → running.now.passed + running.now.cursor.left < 2 ^ 32 → result ≡ true }
{
    running.cursor.archives(space)
        && !running.cursor.passed(space, page)
        && running.cursor.left > 0
        && running.passed <= u32::MAX - running.cursor.left
}
