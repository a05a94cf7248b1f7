//! Records as bytes.

ghost use Rattle.std.specs.Prelude.{◌≡◌, ◌+◌, ◌≤◌, ◌++◌, ◌∷◌, ◌<◌, ◌^◌, [], length, take};
ghost use Rattle.std.specs.Int.{w64, to_be_bytes};
ghost use Rattle.ol_values.specs.LogPages.{record_length, value_length};
ghost use Rattle.ol_values.specs.Spelling.{IsPlace, IsRecord, IsValue, KeepsRules, place_bytes, record_bytes, value_bytes};

use ol_bytes::put;
use ol_values::{Record, Rid, Row};

/// The bytes of the longest record: a change from a row of 63 bytes to another.
pub const LONGEST_RECORD: usize = 141;

/// Writes the kind and the transaction at the front, and gives the index behind them.
fn put_head(out: &mut [u8], kind: u8, txn: u64) -> usize
    requires { 9 ≤ length out.old }
    ensures next { result ≡ 9 }
    ensures front { take 9 out.new ≡ kind ∷ to_be_bytes w64 txn }
    ensures fits { txn < 2 ^ 64 }
{
    let at = put(out, 0, &[kind]);
    put(out, at, &txn.to_be_bytes())
}

/// Writes a place, and gives the index behind it.
fn put_place(out: &mut [u8], at: usize, rid: &Rid) -> usize
    requires { at + 4 ≤ length out.old }
    ensures next { result ≡ at + 4 }
    ensures front { take result out.new ≡ take at out.old ++ place_bytes rid.now }
    ensures fits { rid.now.slot ≤ 30 → IsPlace rid.now }
{
    let at = put(out, at, &[rid.space]);
    let at = put(out, at, &rid.page.to_be_bytes());
    put(out, at, &[rid.slot])
}

/// Writes a row or nothing, and gives the index behind it. The 1 that is added to the length tells an
/// empty row from nothing.
fn put_value(out: &mut [u8], at: usize, value: &Option<Row>) -> usize
    requires { at + 64 ≤ length out.old }
    ensures next { result ≡ at + value_length value.now }
    ensures limit { value_length value.now ≤ 64 }
    ensures front { take result out.new ≡ take at out.old ++ value_bytes value.now }
    ensures fits { IsValue value.now }
{
    match value {
        None => put(out, at, &[0]),
        Some(row) => {
            let bytes = row.as_slice();
            let at = put(out, at, &[bytes.len() as u8 + 1]);
            put(out, at, bytes)
        }
    }
}

/// Writes a record at the front of the buffer, and gives how many bytes it has. The bytes behind them are
/// not promised.
#[tactic(auto, unfolding(ol_values::specs::Spelling::record_bytes))]
pub fn encode(rec: &Record, buf: &mut [u8; LONGEST_RECORD]) -> usize
    requires { KeepsRules rec.now }
    ensures bytes { take result buf.new ≡ record_bytes rec.now }
    ensures length { result ≡ record_length rec.now }
    ensures limit { result ≤ 141 }
    ensures grammar { IsRecord rec.now }
{
    match rec {
        Record::Begin { txn } => put_head(buf, 1, *txn),
        Record::Change {
            txn,
            rid,
            before,
            after,
        } => {
            let at = put_head(buf, 2, *txn);
            let at = put_place(buf, at, rid);
            let at = put_value(buf, at, before);
            put_value(buf, at, after)
        }
        Record::Undo { txn, rid, value } => {
            let at = put_head(buf, 3, *txn);
            let at = put_place(buf, at, rid);
            put_value(buf, at, value)
        }
        Record::Commit { txn } => put_head(buf, 4, *txn),
        Record::Rolled { txn } => put_head(buf, 5, *txn),
    }
}
