//! The image of a data page: 2,048 bytes with a stamp at head and end, and 31 slots of 64 bytes from
//! byte 32 on.
#![tactic(auto)]

ghost use Rattle.std.specs.Prelude.{◌≡◌, ◌+◌, ◌<◌, ◌≤◌, IfSome, IsTrue, None, OnOk, Option, is_ok, length, replicate, slice_index_or};
ghost use Rattle.ol_values.specs.declared.row.Row.{Row as RowValue};
ghost use Rattle.ol_values.specs.Pages.{Page};
ghost use Rattle.ol_values.specs.Image.{IsDataPage, IsPage, page_bytes, page_in, slot_bytes, with_slot};
ghost use Rattle.ol_bytes.specs.Overwriting.{overwritten};
ghost use Rattle.ol_page.specs.Testing.{are_slots, are_zeros, has_gaps, has_stamp, is_data_page, is_slot, is_stamped};

use ol_bytes::number;
use ol_values::Row;

/// The bytes of the image of a page.
pub const PAGE_LENGTH: usize = 2048;

/// The bytes of a slot: one that tells the row's length, and at most 63 of the row.
const SLOT_LENGTH: usize = 64;

/// The slots of a page.
const SLOTS: u8 = 31;

/// Where slot 0 begins.
const FIRST_SLOT: usize = 32;

/// Where the slots end.
const SLOTS_END: usize = 2016;

/// Where the second stamp begins.
const SECOND_STAMP: usize = 2040;

/// The greatest stamp: 2^62.
const STAMP_LIMIT: u64 = 4611686018427387904;

/// Bytes are not the image of a data page.
#[derive(Clone, Copy, Debug, PartialEq, Eq)]
pub struct BadPage;

/// Puts a row, or nothing, into a slot (0 to 30) and sets both stamps. All other slots stay.
/// `page` is the image of a page.
pub fn set_slot(page: &mut [u8], slot: u8, row: Option<Row>, stamp: u64)
    requires whole { length page.old ≡ 2048 }
    requires there { slot < 31 }
    ensures page { (p : Page) → IsPage p → page.old ≡ page_bytes p → page.new ≡ page_bytes (with_slot p slot row stamp) }
    ensures fits { IfSome row (λ r. length r ≤ 63) }
{
    let image = slot_image(row);
    put(page, 0, &stamp.to_be_bytes());
    put(page, FIRST_SLOT + SLOT_LENGTH * slot as usize, &image);
    put(page, SECOND_STAMP, &stamp.to_be_bytes());
}

/// The stamp of a page. `page` is the image of a page.
pub fn stamp(page: &[u8]) -> u64
    requires { length page.now ≡ 2048 }
    ensures { (p : Page) → IsPage p → page.now ≡ page_bytes p → result ≡ p.stamp }
{
    number(&page[..8])
}

/// What a slot (0 to 30) holds. `page` is the image of a page.
pub fn slot(page: &[u8], slot: u8) -> Option<Row>
    requires whole { length page.now ≡ 2048 }
    requires there { slot < 31 }
    ensures { (p : Page) → IsPage p → page.now ≡ page_bytes p → result ≡ slice_index_or p.slots slot None }
{
    let (_, behind) = page.split_at(FIRST_SLOT + SLOT_LENGTH * slot as usize);
    let (image, _) = behind.split_at(SLOT_LENGTH);
    row_of(image)
}

/// Whether bytes are the image of a data page: one stamp of at most 2^62 at both ends, 31 slots, each empty or
/// with a row of at most 63 bytes, and zeros elsewhere; where the stamp is 0, nothing but zeros. `BadPage` comes
/// exactly where they are not.
pub fn check(page: &[u8]) -> Result<(), BadPage>
    requires { length page.now ≡ 2048 }
    ensures found { OnOk result (IsDataPage (page_in page.now) × (page.now ≡ page_bytes (page_in page.now))) }
    ensures only { (p : Page) → IsDataPage p → page.now ≡ page_bytes p → IsTrue (is_ok result) }
{
    if is_data_page(page) {
        Ok(())
    } else {
        Err(BadPage)
    }
}

fn is_data_page(page: &[u8]) -> bool
    requires { length page.now ≡ 2048 }
    ensures { result ≡ is_data_page page.now }
{
    let (_, slots) = page.split_at(FIRST_SLOT);
    has_stamp(page) && has_gaps(page) && are_slots(slots) && is_stamped(page)
}

/// Whether the stamp at the head is that at the end, and within its limit.
#[tactic(auto, unfolding(crate::specs::Testing::has_stamp))]
fn has_stamp(page: &[u8]) -> bool
    requires { length page.now ≡ 2048 }
    ensures { result ≡ has_stamp page.now }
{
    let (first, _) = page.split_at(8);
    let (_, second) = page.split_at(SECOND_STAMP);
    first == second && number(first) <= STAMP_LIMIT
}

/// Whether zeros stand before and behind the slots.
#[tactic(auto, unfolding(crate::specs::Testing::has_gaps))]
fn has_gaps(page: &[u8]) -> bool
    requires { length page.now ≡ 2048 }
    ensures { result ≡ has_gaps page.now }
{
    are_zeros(&page[8..FIRST_SLOT]) && are_zeros(&page[SLOTS_END..SECOND_STAMP])
}

/// Whether the page was changed, or has zeros alone.
#[tactic(auto, unfolding(crate::specs::Testing::is_stamped))]
fn is_stamped(page: &[u8]) -> bool
    requires { length page.now ≡ 2048 }
    ensures { result ≡ is_stamped page.now }
{
    number(&page[..8]) != 0 || are_zeros(page)
}

/// Whether the slots of a page stand at the front.
fn are_slots(bytes: &[u8]) -> bool
    requires { 1984 ≤ length bytes.now }
    ensures { result ≡ are_slots 31 bytes.now }
{
    let mut rest = bytes;
    for _ in 0..SLOTS {
        let (slot, behind) = rest.split_at(SLOT_LENGTH);
        if !is_slot(slot) {
            return false;
        }
        rest = behind;
    }
    true
}

/// Whether a slot has the length of a row, or 0, and zeros behind the row.
fn is_slot(slot: &[u8]) -> bool
    requires { length slot.now ≡ 64 }
    ensures { result ≡ is_slot slot.now }
{
    match slot {
        [] => false,
        [count, rest @ ..] => {
            if *count as usize > SLOT_LENGTH {
                return false;
            }
            are_zeros(&rest[(*count as usize).saturating_sub(1)..])
        }
    }
}

fn are_zeros(bytes: &[u8]) -> bool
    ensures { result ≡ are_zeros bytes.now }
{
    bytes.iter().all(|b| *b == 0)
}

/// What the bytes of a slot hold.
fn row_of(slot: &[u8]) -> Option<Row>
    requires { length slot.now ≡ 64 }
    ensures { (row : Option RowValue) → IfSome row (λ r. length r ≤ 63) → slot.now ≡ slot_bytes row → result ≡ row }
{
    match slot {
        [] | [0, ..] => None,
        [count, rest @ ..] => Row::new(rest.get(..*count as usize - 1)?),
    }
}

/// The bytes of a slot that holds this row, or nothing. It is made anew, so that nothing of an earlier
/// row is left behind a shorter one.
fn slot_image(row: Option<Row>) -> [u8; SLOT_LENGTH]
    ensures value { result ≡ slot_bytes row }
    ensures fits { IfSome row (λ r. length r ≤ 63) }
{
    let mut image = [0; SLOT_LENGTH];
    if let Some(row) = &row {
        put_row(&mut image, row);
    }
    image
}

/// Writes a row's length plus 1 and the row into a slot of zeros. The 1 tells an empty row from nothing.
fn put_row(slot: &mut [u8], row: &Row)
    requires { slot.old ≡ replicate 64 0 }
    ensures value { slot.new ≡ slot_bytes (Some row.now) }
    ensures fits { length row.now ≤ 63 }
{
    let bytes = row.as_slice();
    put(slot, 0, &[bytes.len() as u8 + 1]);
    put(slot, 1, bytes);
}

/// Writes bytes over those from an index on.
fn put(out: &mut [u8], at: usize, bytes: &[u8])
    requires { at + length bytes.now ≤ length out.old }
    ensures { out.new ≡ overwritten at bytes.now out.old }
{
    out[at..at + bytes.len()].copy_from_slice(bytes);
}
