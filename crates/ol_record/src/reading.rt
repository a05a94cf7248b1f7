//! Records from bytes.

ghost use Rattle.std.specs.Prelude.{◌≡◌, ◌≤◌, ◌++◌, List, ℕ, IfSome, Some, length, take};
ghost use Rattle.std.specs.Int.{w64};
ghost use Rattle.ol_values.specs.declared.record.Record.{Record as RecordValue};
ghost use Rattle.ol_values.specs.Spelling.{IsRecord, record_bytes};
ghost use Rattle.ol_bytes.specs.Reading.{Gives};
ghost use Rattle.ol_record.specs.Reading.{change_at, kind_at, number_at, place_at, record_at, row_at, undo_at, value_at};

use ol_values::{Record, Rid, Row};

/// Slots are counted from 0 to this one.
const LAST_SLOT: u8 = 30;

/// The byte in front of a row of 63 bytes, the longest.
const LONGEST_ROW: u8 = 64;

/// A number of 8 bytes, and what is behind it.
pub(crate) fn u64_at(bytes: &[u8]) -> Option<(u64, &[u8])>
    ensures { Gives (λ x. (x.0, x.1.now)) result (number_at w64 bytes.now) }
{
    if bytes.len() < 8 {
        return None;
    }
    let (front, rest) = bytes.split_at(8);
    let number = u64::from_be_bytes([
        front[0], front[1], front[2], front[3], front[4], front[5], front[6], front[7],
    ]);
    Some((number, rest))
}

/// A place, whose slot is one of the 31 of a page.
#[tactic(auto, unfolding(crate::specs::Reading::place_at))]
fn rid_of(bytes: &[u8]) -> Option<(Rid, &[u8])>
    ensures { Gives (λ x. (x.0, x.1.now)) result (place_at bytes.now) }
{
    match bytes {
        [space, high, low, slot, rest @ ..] => {
            if *slot > LAST_SLOT {
                return None;
            }
            let page = u16::from_be_bytes([*high, *low]);
            Some((
                Rid {
                    space: *space,
                    page,
                    slot: *slot,
                },
                rest,
            ))
        }
        _ => None,
    }
}

/// A row of `n` bytes, at most 63, from the front.
fn row_of(n: usize, bytes: &[u8]) -> Option<(Option<Row>, &[u8])>
    requires { n ≤ 63 }
    ensures { Gives (λ x. (x.0, x.1.now)) result (row_at n bytes.now) }
{
    if bytes.len() < n {
        return None;
    }
    let (front, rest) = bytes.split_at(n);
    let row = Row::new(front)?;
    Some((Some(row), rest))
}

/// What a slot holds: a row or nothing.
#[tactic(auto, unfolding(crate::specs::Reading::value_at))]
fn value_of(bytes: &[u8]) -> Option<(Option<Row>, &[u8])>
    ensures { Gives (λ x. (x.0, x.1.now)) result (value_at bytes.now) }
{
    match bytes {
        [] => None,
        [n, rest @ ..] => {
            if *n == 0 {
                return Some((None, rest));
            }
            if *n > LONGEST_ROW {
                return None;
            }
            row_of(*n as usize - 1, rest)
        }
    }
}

/// What a change tells behind its transaction. A change from nothing to nothing is none.
#[tactic(auto, unfolding(crate::specs::Reading::change_at))]
fn change_of(txn: u64, bytes: &[u8]) -> Option<(Record, &[u8])>
    ensures { Gives (λ x. (x.0, x.1.now)) result (change_at txn bytes.now) }
{
    let (rid, rest) = rid_of(bytes)?;
    let (before, rest) = value_of(rest)?;
    let (after, rest) = value_of(rest)?;
    if before.is_none() && after.is_none() {
        return None;
    }
    Some((
        Record::Change {
            txn,
            rid,
            before,
            after,
        },
        rest,
    ))
}

/// What an undo tells behind its transaction.
#[tactic(auto, unfolding(crate::specs::Reading::undo_at))]
fn undo_of(txn: u64, bytes: &[u8]) -> Option<(Record, &[u8])>
    ensures { Gives (λ x. (x.0, x.1.now)) result (undo_at txn bytes.now) }
{
    let (rid, rest) = rid_of(bytes)?;
    let (value, rest) = value_of(rest)?;
    Some((Record::Undo { txn, rid, value }, rest))
}

/// The record of a kind and a transaction, whose further fields stand at the front.
#[tactic(auto, unfolding(crate::specs::Reading::kind_at))]
fn kind_of(kind: u8, txn: u64, bytes: &[u8]) -> Option<(Record, &[u8])>
    ensures { Gives (λ x. (x.0, x.1.now)) result (kind_at kind txn bytes.now) }
{
    match kind {
        1 => Some((Record::Begin { txn }, bytes)),
        2 => change_of(txn, bytes),
        3 => undo_of(txn, bytes),
        4 => Some((Record::Commit { txn }, bytes)),
        5 => Some((Record::Rolled { txn }, bytes)),
        _ => None,
    }
}

/// The record at the front, and what is behind it.
#[tactic(auto, unfolding(crate::specs::Reading::record_at))]
pub(crate) fn record_of(bytes: &[u8]) -> Option<(Record, &[u8])>
    ensures { Gives (λ x. (x.0, x.1.now)) result (record_at bytes.now) }
{
    match bytes {
        [] => None,
        [kind, rest @ ..] => {
            let (txn, rest) = u64_at(rest)?;
            kind_of(*kind, txn, rest)
        }
    }
}

/// The record at the front of the bytes, and how many bytes it has. `None` exactly where the bytes begin
/// with the spelling of no record.
pub fn decode(bytes: &[u8]) -> Option<(Record, usize)>
    // What is read is in the grammar, and its spelling is what was read.
    ensures found { IfSome result (λ p. IsRecord p.0 × (take p.1 bytes.now ≡ record_bytes p.0) × (p.1 ≤ length bytes.now)) }
    // What is spelled so is read, whatever follows it.
    ensures only { (r : RecordValue) (rest : List ℕ) → IsRecord r → bytes.now ≡ record_bytes r ++ rest → result ≡ Some (r, length (record_bytes r)) }
{
    let (record, rest) = record_of(bytes)?;
    Some((record, bytes.len() - rest.len()))
}
