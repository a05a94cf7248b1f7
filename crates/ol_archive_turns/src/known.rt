//! An archive that ended is known: the anchor keeps it of each of its spaces.

ghost use Rattle.std.specs.Prelude.{◌≡◌, ◌<◌, ◌≤◌, ◌^◌, IfErr, OnErr, OnOk, false, true, ℕ};
ghost use Rattle.ol_ports.specs.Stops.{Stops};
ghost use Rattle.ol_storage.specs.Behind.{Behind};
ghost use Rattle.ol_storage.specs.Causes.{HasStorageCause};
ghost use Rattle.ol_storage.specs.Installation.{config_of, flushed_of};
ghost use Rattle.ol_storage.specs.Standing.{StandsBetween};
ghost use Rattle.ol_storage.specs.Storing.{IsStored};
ghost use Rattle.ol_archive_turns.specs.Ending.{known_at, known_in, known_with as list_with, lasting_ended as ended_of, lasting_with};

use ol_cursor::Cursor;
use ol_ports::Disk;
use ol_reserve::{Anchor, SPACES};
use ol_storage::{Lasting, Storage, StorageFault};

/// Makes an archive known, of which all pages have passed: one of level 0 for each of its spaces, of which no archive of level 1 is known
/// then, and one of level 1 for each of its spaces. One of level 2 is the parent of none, so nothing is written of it.
///
/// `Failed` comes only where the count of faults of a chunk rose, and is the only refusal.
pub fn make_known<D: Disk>(storage: &mut Storage<D>, cursor: &Cursor) -> Result<(), StorageFault>
    requires going { storage.old.now.stopped ≡ false }
    requires low { storage.old.now.anchor.serial < 2 ^ 62 }
    requires number { cursor.now.number ≤ 2 ^ 62 }
    requires cut { cursor.now.cut ≤ 2 ^ 62 }
    ensures step { OnOk result (storage.new.now ≡ known_at storage.old.now cursor.now cursor.now.level) }
    ensures stops { D.tells → (g : Behind) → IsStored (D.past storage.old.disk) storage.old.now g
        → Stops (D.past storage.old.disk) (D.past storage.new.disk) (StandsBetween (config_of storage.old.now) g storage.old.now.anchor (known_at storage.old.now cursor.now cursor.now.level).anchor (flushed_of storage.old.now) (flushed_of storage.old.now)) }
    ensures stored { D.tells → (g : Behind) → IsStored (D.past storage.old.disk) storage.old.now g → OnOk result (IsStored (D.past storage.new.disk) storage.new.now g) }
    ensures stopped { OnErr result (storage.new.now.stopped ≡ true) }
    ensures only { IfErr result (λ fault. fault ≡ StorageFault.Failed) }
    ensures cause { HasStorageCause (config_of storage.old.now) (D.fault_counts storage.old.disk) (D.fault_counts storage.new.disk) result }
{
    // It tells that the anchor is whole, and what a stop leaves where nothing is asked of the disk.
    let _whole = storage.is_stopped();
    if cursor.level >= 2 {
        return Ok(());
    }
    let lasting = lasting_ended(storage.anchor(), cursor);
    storage.set_lasting(&lasting)
}

// The lasting state behind the end of an archive of level 0 or 1.
fn lasting_ended(anchor: &Anchor, cursor: &Cursor) -> Lasting
    ensures { result ≡ ended_of anchor.now cursor.now cursor.now.level }
{
    let kept = (cursor.number, cursor.cut);
    match cursor.level {
        0 => lasting_with(
            anchor,
            known_with(cursor, kept, &anchor.zero),
            known_with(cursor, (0, 0), &anchor.one),
        ),
        _ => lasting_with(anchor, anchor.zero, known_with(cursor, kept, &anchor.one)),
    }
}

// The lasting state of an anchor, with other known archives.
fn lasting_with(anchor: &Anchor, zero: [(u64, u64); SPACES], one: [(u64, u64); SPACES]) -> Lasting
    ensures { result ≡ lasting_with anchor.now zero one }
{
    Lasting {
        next_archive: anchor.next_archive,
        states: anchor.states,
        down_at: anchor.down_at,
        zero,
        one,
    }
}

// The known archives of the spaces, where those of an archive's spaces become this one.
fn known_with(
    cursor: &Cursor,
    kept: (u64, u64),
    known: &[(u64, u64); SPACES],
) -> [(u64, u64); SPACES]
    ensures { result ≡ list_with cursor.now kept known.now }
{
    let mut after = *known;
    for space in 0..SPACES {
        after[space] = known_in(cursor, kept, known, space);
    }
    after
}

// That of one space.
fn known_in(
    cursor: &Cursor,
    kept: (u64, u64),
    known: &[(u64, u64); SPACES],
    space: usize,
) -> (u64, u64)
    requires { space < 16 }
    ensures { result ≡ known_in cursor.now kept known.now space }
{
    if cursor.spaces[space] {
        kept
    } else {
        known[space]
    }
}
