//! An archive is put away: its archiver has none behind it, and the images of its spaces are dropped.

ghost use Rattle.std.specs.Prelude.{◌≡◌, ◌≤◌, List, None, ℕ};
ghost use Rattle.ol_before.specs.Images.{without};
ghost use Rattle.ol_engine.specs.Parts.{HasTurns, Registers};
ghost use Rattle.ol_model.specs.ArchiveTurns.{given_up};
ghost use Rattle.ol_model.specs.Machine.{Machine};
ghost use Rattle.ol_reserve.specs.declared.anchor.Anchor.{Anchor};
ghost use Rattle.ol_running.specs.Running.{is_of_archive, running_of, with_running};
ghost use Rattle.ol_storage.specs.Behind.{Behind};
ghost use Rattle.ol_storage.specs.Installation.{with_store};
ghost use Rattle.ol_storage.specs.Storing.{IsStored};
ghost use Rattle.ol_store.specs.Stores.{with_before};
ghost use Rattle.ol_txn.specs.Seats.{Seat};
ghost use Rattle.ol_archive_turns.specs.Ending.{AreNumbered};
ghost use Rattle.ol_archive_turns.specs.Turns.{AreAllUp, IsArchiver, Tells, cancel_turn};

use crate::Archives;
use ol_captures::drop_images_of;
use ol_cursor::Cursor;
use ol_ports::Disk;
use ol_running::Running;
use ol_storage::Storage;
use ol_values::{Reply, Why};

/// Gives up the running archive of an archiver, from 1 to 4: the archiver has none behind it, and the images that were kept for it
/// are dropped. It answers why; `count` is the drive's count of faults, which `TapeFault` tells. Nothing is asked of the disk.
///
/// `NoArchive` comes exactly where the archiver has no running archive, and changes nothing.
pub fn cancel<D: Disk>(
    storage: &mut Storage<D>,
    archives: &mut Archives,
    archiver: u8,
    why: Why,
    count: u64,
) -> Reply
    requires archiver { IsArchiver archiver }
    ensures answer { (opened : ℕ) (seats : List Seat) (registers : Registers) (m : Machine) → Tells opened storage.old.now seats registers archives.old m
        → (result ≡ (cancel_turn count m archiver why).0) × Tells opened storage.new.now seats registers archives.new (cancel_turn count m archiver why).1 }
    ensures turns { (opened : ℕ) (seats : List Seat) → HasTurns opened storage.old.now seats → HasTurns opened storage.new.now seats }
    ensures up { AreAllUp storage.old.now.anchor archives.old → AreAllUp storage.new.now.anchor archives.new }
    ensures numbers { AreNumbered archives.old → AreNumbered archives.new }
    ensures step { storage.new.now ≡ with_store storage.old.now storage.new.now.store }
    ensures disk { storage.new.disk ≡ storage.old.disk }
    ensures stored { D.tells → (g : Behind) → IsStored (D.past storage.old.disk) storage.old.now g → IsStored (D.past storage.new.disk) storage.new.now g }
{
    match held(archives, archiver) {
        Some(running) => {
            put_away(storage, archives, archiver, &running.cursor);
            given_up(archiver, count, running.cursor.number, why)
        }
        None => Reply::NoArchive,
    }
}

// What giving up an archive of this number answers.
fn given_up(archiver: u8, count: u64, number: u64, why: Why) -> Reply
    ensures { result ≡ given_up archiver count number why }
{
    match why {
        Why::Asked => Reply::Cancelled { number },
        Why::Fault { .. } => Reply::TapeFault {
            drive: archiver,
            count,
        },
        Why::Full => Reply::OutOfTape { drive: archiver },
    }
}

/// The running archive of an archiver.
pub fn held(archives: &Archives, archiver: u8) -> Option<Running>
    requires archiver { IsArchiver archiver }
    ensures { result ≡ running_of archives.now archiver }
{
    archives[usize::from(archiver) - 1]
}

/// Puts the archive of an archiver away, which has this cursor.
pub fn put_away<D: Disk>(
    storage: &mut Storage<D>,
    archives: &mut Archives,
    archiver: u8,
    cursor: &Cursor,
)
    requires archiver { IsArchiver archiver }
    ensures archives { archives.new ≡ with_running archiver None archives.old }
    ensures up { (a : Anchor) → AreAllUp a archives.old → AreAllUp a archives.new }
    ensures numbers { AreNumbered archives.old → AreNumbered archives.new }
    ensures step { storage.new.now ≡ with_store storage.old.now (with_before storage.old.now.store (without (is_of_archive cursor.now) storage.old.now.store.before)) }
    ensures disk { storage.new.disk ≡ storage.old.disk }
    ensures stored { D.tells → (g : Behind) → IsStored (D.past storage.old.disk) storage.old.now g → IsStored (D.past storage.new.disk) storage.new.now g }
{
    archives[usize::from(archiver) - 1] = None;
    drop_images_of(storage, cursor);
}
