//! The refusals of a turn with a record, for want of room.

ghost use Rattle.std.specs.Prelude.{◌≡◌, ◌≤◌, ◌<◌, ◌+◌, ◌-◌, ◌^◌, ◌||◌, None, ℕ, nat_lt};
ghost use Rattle.ol_engine.specs.Parts.{last_in, owed_of};
ghost use Rattle.ol_engine.specs.Turns.{HasMore, is_journal_full, no_room_of};

use ol_ports::Disk;
use ol_storage::Storage;
use ol_txn::Locks;
use ol_values::Reply;

/// How many records the journal takes behind an opening.
const MOST_RECORDS: u64 = 1048576;

/// The greatest position of a journal: 2^62.
const MOST: u64 = 4611686018427387904;

/// The refusal of a turn that would append a record and owe one more, where the journal or the log has no room for both beside what is
/// owed: `JournalFull`, or `LogsFull` with the unique number of the log file that is in the way. `opened` is the journal's length
/// as the opening ended.
pub fn no_room<D: Disk>(storage: &Storage<D>, locks: &Locks, opened: u64) -> Option<Reply>
    ensures value { result ≡ no_room_of opened storage.now.now locks.now }
    ensures more { result ≡ None → HasMore opened storage.now.now locks.now }
{
    let log = storage.log();
    let owed = locks.owed();
    if is_journal_full(log.next_position() - 1, opened, owed) {
        return Some(Reply::JournalFull);
    }
    if u64::from(log.free_pages()) < owed + 2 {
        return Some(Reply::LogsFull {
            uniq: log.blocker(),
        });
    }
    None
}

// Whether the journal has no room behind its last record.
fn is_journal_full(last: u64, opened: u64, owed: u64) -> bool
    requires last { last ≤ 2 ^ 62 }
    requires owed { owed ≤ 2 ^ 62 }
    ensures { result ≡ (nat_lt 1048576 (last - opened + owed + 2) || nat_lt (2 ^ 62) (last + 1 + owed + 2)) }
{
    last.saturating_sub(opened) + owed + 2 > MOST_RECORDS || last + 1 + owed + 2 > MOST
}
