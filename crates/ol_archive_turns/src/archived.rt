//! The end of a running archive.

ghost use Rattle.std.specs.Prelude.{◌≡◌, IfErr, List, None, OnErr, OnOk, Some, false, true, ℕ};
ghost use Rattle.ol_values.specs.declared.record.Record.{Record as RecordValue};
ghost use Rattle.ol_engine.specs.Parts.{GoesOn, HasRisen, HasTurns, MayRise, Registers, behind_of};
ghost use Rattle.ol_engine.specs.Turns.{Answers, StandsWithinEither};
ghost use Rattle.ol_model.specs.Machine.{Machine};
ghost use Rattle.ol_ports.specs.Stops.{Stops};
ghost use Rattle.ol_running.specs.Running.{running_of};
ghost use Rattle.ol_storage.specs.Behind.{Behind};
ghost use Rattle.ol_storage.specs.Causes.{HasStorageCause};
ghost use Rattle.ol_storage.specs.Installation.{config_of};
ghost use Rattle.ol_storage.specs.Storing.{IsStored};
ghost use Rattle.ol_txn.specs.Seats.{Seat};
ghost use Rattle.ol_archive_turns.specs.Ending.{AreNumbered, anchor_ended};
ghost use Rattle.ol_archive_turns.specs.Turns.{AreAllUp, IsArchiver, Tells, end_turn};

use crate::Archives;
use crate::known::make_known;
use crate::put_away::{held, put_away};
use ol_ports::Disk;
use ol_running::Running;
use ol_storage::{Storage, StorageFault};
use ol_values::Reply;

/// Ends the running archive of an archiver, from 1 to 4, of which all pages have passed: it is known from then on, by an anchor that is
/// written, where its level is 0 or 1, and the archiver has none. It answers its number, its cut and how many pages it has.
///
/// Refusals, in this order: `NoArchive` exactly where the archiver has no running archive; `BeforeFull` exactly where an entry has
/// broken it, and then it is put away; `PagesLeft` exactly where so many pages have not passed. `Failed` comes only where the count of
/// faults of a chunk rose.
pub fn end<D: Disk>(
    storage: &mut Storage<D>,
    archives: &mut Archives,
    archiver: u8,
) -> Result<Reply, StorageFault>
    requires archiver { IsArchiver archiver }
    requires going { storage.old.now.stopped ≡ false }
    requires rise { MayRise 1 storage.old.now }
    requires numbers { AreNumbered archives.old }
    ensures answer { (opened : ℕ) (seats : List Seat) (registers : Registers) (m : Machine) → Tells opened storage.old.now seats registers archives.old m
        → Answers m (Tells opened storage.new.now seats registers archives.new) (end_turn m archiver) result }
    ensures turns { (opened : ℕ) (seats : List Seat) → HasTurns opened storage.old.now seats → OnOk result (HasTurns opened storage.new.now seats) }
    ensures risen { OnOk result (HasRisen 1 storage.old.now storage.new.now) }
    ensures goes { OnOk result (GoesOn storage.old.now storage.new.now) }
    ensures up { AreAllUp storage.old.now.anchor archives.old → OnOk result (AreAllUp storage.new.now.anchor archives.new) }
    ensures numbers { AreNumbered archives.new }
    ensures kept { OnErr result (archives.new ≡ archives.old) }
    ensures stops { D.tells → (m : Machine) (before : ℕ → RecordValue) → IsStored (D.past storage.old.disk) storage.old.now (behind_of before m)
        → Stops (D.past storage.old.disk) (D.past storage.new.disk) (StandsWithinEither storage.old.now (anchor_ended storage.old.now (running_of archives.old archiver)) before m) }
    ensures stored { D.tells → (g : Behind) → IsStored (D.past storage.old.disk) storage.old.now g → OnOk result (IsStored (D.past storage.new.disk) storage.new.now g) }
    ensures stopped { OnErr result (storage.new.now.stopped ≡ true) }
    ensures only { IfErr result (λ fault. fault ≡ StorageFault.Failed) }
    ensures cause { HasStorageCause (config_of storage.old.now) (D.fault_counts storage.old.disk) (D.fault_counts storage.new.disk) result }
{
    // It tells what a stop leaves where nothing is asked of the disk.
    let _stands = storage.is_stopped();
    match held(archives, archiver) {
        Some(running) => match running.broken {
            Some(entry) => {
                put_away(storage, archives, archiver, &running.cursor);
                Ok(Reply::BeforeFull { entry })
            }
            None => end_whole(storage, archives, archiver, running),
        },
        None => Ok(Reply::NoArchive),
    }
}

// Ends a running archive that is not broken.
fn end_whole<D: Disk>(
    storage: &mut Storage<D>,
    archives: &mut Archives,
    archiver: u8,
    running: Running,
) -> Result<Reply, StorageFault>
    requires archiver { IsArchiver archiver }
    requires going { storage.old.now.stopped ≡ false }
    requires rise { MayRise 1 storage.old.now }
    requires numbers { AreNumbered archives.old }
    requires held { running_of archives.old archiver ≡ Some running }
    requires whole { running.broken ≡ None }
    ensures answer { (opened : ℕ) (seats : List Seat) (registers : Registers) (m : Machine) → Tells opened storage.old.now seats registers archives.old m
        → Answers m (Tells opened storage.new.now seats registers archives.new) (end_turn m archiver) result }
    ensures turns { (opened : ℕ) (seats : List Seat) → HasTurns opened storage.old.now seats → OnOk result (HasTurns opened storage.new.now seats) }
    ensures risen { OnOk result (HasRisen 1 storage.old.now storage.new.now) }
    ensures goes { OnOk result (GoesOn storage.old.now storage.new.now) }
    ensures up { AreAllUp storage.old.now.anchor archives.old → OnOk result (AreAllUp storage.new.now.anchor archives.new) }
    ensures numbers { AreNumbered archives.new }
    ensures kept { OnErr result (archives.new ≡ archives.old) }
    ensures stops { D.tells → (m : Machine) (before : ℕ → RecordValue) → IsStored (D.past storage.old.disk) storage.old.now (behind_of before m)
        → Stops (D.past storage.old.disk) (D.past storage.new.disk) (StandsWithinEither storage.old.now (anchor_ended storage.old.now (running_of archives.old archiver)) before m) }
    ensures stored { D.tells → (g : Behind) → IsStored (D.past storage.old.disk) storage.old.now g → OnOk result (IsStored (D.past storage.new.disk) storage.new.now g) }
    ensures stopped { OnErr result (storage.new.now.stopped ≡ true) }
    ensures only { IfErr result (λ fault. fault ≡ StorageFault.Failed) }
    ensures cause { HasStorageCause (config_of storage.old.now) (D.fault_counts storage.old.disk) (D.fault_counts storage.new.disk) result }
{
    // It tells what a stop leaves where nothing is asked of the disk, and that the spaces are at most 16.
    let _stands = storage.is_stopped();
    if running.cursor.left > 0 {
        return Ok(Reply::PagesLeft {
            count: running.cursor.left,
        });
    }
    match make_known(storage, &running.cursor) {
        Ok(()) => {
            put_away(storage, archives, archiver, &running.cursor);
            Ok(Reply::Archived {
                number: running.cursor.number,
                cut: running.cursor.cut,
                pages: running.passed,
            })
        }
        Err(fault) => Err(fault),
    }
}
