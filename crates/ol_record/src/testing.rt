//! The test whether bytes are a log page.

ghost use Rattle.std.specs.Prelude.{◌≡◌, ◌==◌, ℕ, IfSome, Some};
ghost use Rattle.std.specs.List.{list_all};
ghost use Rattle.std.specs.Int.{w16, w32};
ghost use Rattle.ol_values.specs.LogPages.{LogPage};
ghost use Rattle.ol_record.specs.LogPages.{IsImage, IsLogPage, head_of, log_page_bytes, page_in};
ghost use Rattle.ol_record.specs.PageReading.{body_at, head_at, in_limits, in_range, mark_at, page_at};
ghost use Rattle.ol_bytes.specs.Reading.{Gives};
ghost use Rattle.ol_record.specs.Reading.{number_at, whole_in};

use crate::LogHead;
use crate::reading::{record_of, u64_at};

/// The bytes of a log page.
pub const PAGE_LENGTH: usize = 2048;

/// The most that a unique number, an incarnation, and the position behind the last may be: 2^62.
const MOST: u64 = 4611686018427387904;

/// A number of 2 bytes, and what is behind it.
fn u16_at(bytes: &[u8]) -> Option<(u16, &[u8])>
    ensures { Gives (λ x. (x.0, x.1.now)) result (number_at w16 bytes.now) }
{
    if bytes.len() < 2 {
        return None;
    }
    let (front, rest) = bytes.split_at(2);
    Some((u16::from_be_bytes([front[0], front[1]]), rest))
}

/// A number of 4 bytes, and what is behind it.
fn u32_at(bytes: &[u8]) -> Option<(u32, &[u8])>
    ensures { Gives (λ x. (x.0, x.1.now)) result (number_at w32 bytes.now) }
{
    if bytes.len() < 4 {
        return None;
    }
    let (front, rest) = bytes.split_at(4);
    let number = u32::from_be_bytes([front[0], front[1], front[2], front[3]]);
    Some((number, rest))
}

/// What stands behind the gate and the mark of the format. The gate is not looked at.
#[tactic(auto, unfolding(crate::specs::PageReading::mark_at))]
fn mark_of(bytes: &[u8]) -> Option<&[u8]>
    ensures { Gives (λ x. x.now) result (mark_at bytes.now) }
{
    match bytes {
        [_, a, b, c, rest @ ..] => {
            if *a == b'L' && *b == b'O' && *c == b'G' {
                Some(rest)
            } else {
                None
            }
        }
        _ => None,
    }
}

/// The fields at the front, and what is behind them.
#[tactic(auto, unfolding(crate::specs::PageReading::head_at))]
fn front_of(bytes: &[u8]) -> Option<(LogHead, &[u8])>
    ensures { Gives (λ x. (x.0, x.1.now)) result (head_at bytes.now) }
{
    let rest = mark_of(bytes)?;
    let (index, rest) = u32_at(rest)?;
    let (uniq, rest) = u64_at(rest)?;
    let (incarnation, rest) = u64_at(rest)?;
    let (first, rest) = u64_at(rest)?;
    let (count, rest) = u16_at(rest)?;
    let (used, rest) = u16_at(rest)?;
    let head = LogHead {
        index,
        uniq,
        incarnation,
        first,
        count,
        used,
    };
    Some((head, rest))
}

/// Whether a number is from 1 to 2^62.
fn is_in_range(n: u64) -> bool
    ensures { result ≡ in_range n }
{
    1 <= n && n <= MOST
}

/// Whether the numbers of a page may stand on disk.
#[tactic(auto, unfolding(crate::specs::PageReading::in_limits))]
fn is_in_limits(head: &LogHead) -> bool
    ensures { result ≡ in_limits head.now }
{
    let last_fits = 1 <= head.first && head.first <= MOST - head.count as u64;
    is_in_range(head.uniq) && is_in_range(head.incarnation) && last_fits && 1 <= head.count
}

/// Whether the bytes are the spellings of so many records, and nothing else.
fn is_whole(count: u16, bytes: &[u8]) -> bool
    ensures { result ≡ whole_in count bytes.now }
{
    let mut rest = bytes;
    for _ in 0..count {
        match record_of(rest) {
            None => return false,
            Some((_, after)) => rest = after,
        }
    }
    rest.is_empty()
}

/// Whether all bytes are zero.
fn is_zero(bytes: &[u8]) -> bool
    ensures { result ≡ list_all (λ b. b == 0) bytes.now }
{
    bytes.iter().all(|b| *b == 0)
}

/// The head, where the records that it tells stand behind it, and then zeros.
#[tactic(auto, unfolding(crate::specs::PageReading::body_at))]
fn body_of(head: LogHead, rest: &[u8]) -> Option<LogHead>
    ensures { Gives (λ x. x) result (body_at head rest.now) }
{
    if rest.len() < head.used as usize {
        return None;
    }
    let (records, padding) = rest.split_at(head.used as usize);
    if is_whole(head.count, records) && is_zero(padding) {
        Some(head)
    } else {
        None
    }
}

/// The head of a page, where all that it tells holds of what is behind it.
#[tactic(auto, unfolding(crate::specs::PageReading::page_at))]
fn page_of(bytes: &[u8]) -> Option<LogHead>
    ensures { Gives (λ x. x) result (page_at bytes.now) }
{
    let (head, rest) = front_of(bytes)?;
    if is_in_limits(&head) {
        body_of(head, rest)
    } else {
        None
    }
}

/// What the front of a log page tells; `None` exactly where the bytes are no log page. The gate byte is
/// not looked at.
pub fn log_head(page: &[u8; PAGE_LENGTH]) -> Option<LogHead>
    // What is answered is the head of the page that the bytes stand for.
    ensures found { IfSome result (λ h. IsLogPage (page_in page.now) × IsImage page.now × (h ≡ head_of (page_in page.now))) }
    // Each log page is found.
    ensures only { (gate : ℕ) (p : LogPage) → IsLogPage p → page.now ≡ log_page_bytes gate p → result ≡ Some (head_of p) }
{
    page_of(page)
}
