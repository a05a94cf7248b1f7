//! Filling a log page, record by record.

ghost use Rattle.std.specs.Prelude.{◌≡◌, ◌+◌, ◌-◌, ◌≤◌, ◌↔◌, ◌++◌, [], IsTrue, if◌then◌else◌, length, replicate, slice_index, take};
ghost use Rattle.std.specs.Bool.{OnFalse};
ghost use Rattle.std.specs.Int.{w16, to_be_bytes};
ghost use Rattle.ol_record.specs.LogPages.{IsBuffer, blank_page, fixed_bytes, log_page_bytes, page_in, tally_bytes, with_record};
ghost use Rattle.ol_bytes.specs.Overwriting.{overwritten};
ghost use Rattle.ol_values.specs.LogPages.{log_room, record_length, records_length};
ghost use Rattle.ol_values.specs.Spelling.{IsRecord, KeepsRules, records_bytes};

use crate::testing::PAGE_LENGTH;
use crate::writing::{LONGEST_RECORD, encode};
use ol_bytes::{clear_from, put};
use ol_values::Record;

/// The bytes in front of the records.
const FRONT: usize = 36;

/// Where the count of the records stands.
const COUNT: usize = 32;

/// Where the number of their bytes stands.
const USED: usize = 34;

/// The bytes that records have room in.
const ROOM: usize = 2012;

/// Writes the 36 bytes in front of the records, for a page that holds none.
#[tactic(auto, unfolding(crate::specs::LogPages::fixed_bytes, crate::specs::LogPages::tally_bytes))]
fn put_front(out: &mut [u8], index: u32, uniq: u64, incarnation: u64, first: u64)
    requires { 36 ≤ length out.old }
    ensures { take 36 out.new ≡ fixed_bytes 0 (blank_page index uniq incarnation first) ++ tally_bytes [] }
{
    let at = put(out, 0, &[0, b'L', b'O', b'G']);
    let at = put(out, at, &index.to_be_bytes());
    let at = put(out, at, &uniq.to_be_bytes());
    let at = put(out, at, &incarnation.to_be_bytes());
    let at = put(out, at, &first.to_be_bytes());
    put(out, at, &[0; 4]);
}

/// Makes a page that holds no record yet, with its gate closed. `first` is the position that its first
/// record will have.
pub fn begin_page(page: &mut [u8; PAGE_LENGTH], index: u32, uniq: u64, incarnation: u64, first: u64)
    ensures bytes { page.new ≡ log_page_bytes 0 (blank_page index uniq incarnation first) }
    ensures buffer { IsBuffer page.new }
    ensures value { page_in page.new ≡ blank_page index uniq incarnation first }
{
    put_front(page, index, uniq, incarnation, first);
    clear_from(page, FRONT);
}

/// Writes bytes over those from an index on.
fn overwrite(page: &mut [u8], at: usize, bytes: &[u8])
    requires { at + length bytes.now ≤ length page.old }
    ensures { page.new ≡ overwritten at bytes.now page.old }
{
    page[at..at + bytes.len()].copy_from_slice(bytes);
}

/// How many records a page holds, and how many bytes they have. A record has at least 9 bytes, so there
/// are few.
fn tally(page: &[u8; PAGE_LENGTH]) -> (u16, u16)
    requires { IsBuffer page.now }
    ensures count { result.0 ≡ length (page_in page.now).records }
    ensures used { result.1 ≡ length (records_bytes (page_in page.now).records) }
    ensures few { result.0 ≤ 223 }
    ensures room { result.1 ≤ 2012 }
{
    let count = u16::from_be_bytes([page[COUNT], page[COUNT + 1]]);
    let used = u16::from_be_bytes([page[USED], page[USED + 1]]);
    (count, used)
}

/// Writes a spelling behind the records, and what the page then tells of its records.
fn append(page: &mut [u8], count: u16, used: u16, spelling: &[u8])
    requires few { count ≤ 223 }
    requires room { used + length spelling.now ≤ 2012 }
    requires whole { length page.old ≡ 2048 }
    ensures { page.new ≡ overwritten 34 (to_be_bytes w16 (used + length spelling.now)) (overwritten 32 (to_be_bytes w16 (count + 1)) (overwritten (36 + used) spelling.now page.old)) }
{
    overwrite(page, FRONT + used as usize, spelling);
    overwrite(page, COUNT, &(count + 1).to_be_bytes());
    overwrite(page, USED, &(used + spelling.len() as u16).to_be_bytes());
}

/// Appends a record to a page that is being filled; false, and the page stays as it was, exactly where
/// the page has no room for it.
pub fn push_record(page: &mut [u8; PAGE_LENGTH], rec: &Record) -> bool
    requires rules { KeepsRules rec.now }
    requires buffer { IsBuffer page.old }
    ensures room { IsTrue result ↔ (records_length (page_in page.old).records + record_length rec.now ≤ log_room) }
    ensures buffer { IsBuffer page.new }
    ensures value { page_in page.new ≡ (if result then with_record (page_in page.old) rec.now else page_in page.old) }
    ensures gate { slice_index page.new 0 ≡ slice_index page.old 0 }
    ensures unchanged { OnFalse result (page.new ≡ page.old) }
    ensures grammar { IsRecord rec.now }
{
    let (count, used) = tally(page);
    let mut spelling = [0; LONGEST_RECORD];
    let len = encode(rec, &mut spelling);
    if used as usize + len > ROOM {
        return false;
    }
    append(page, count, used, &spelling[..len]);
    true
}
