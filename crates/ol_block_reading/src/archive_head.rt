//! The archive head that a payload holds.

ghost use Rattle.std.specs.Prelude.{◌≡◌, ◌==◌, ◌+◌, ◌*◌, ◌≤◌, IfOk, IfSome, None, Ok, length, map, true};
ghost use Rattle.std.specs.List.{list_all};
ghost use Rattle.ol_values.specs.Blocks.{ArchiveHead as HeadValue};
ghost use Rattle.ol_object.specs.Bytes.{archive_head_bytes, padded_to};
ghost use Rattle.ol_object.specs.Spaces.{saved_of};
ghost use Rattle.ol_chunks.specs.Reading.{config_in_text};
ghost use Rattle.ol_block_reading.specs.Grammar.{IsArchiveHead};
ghost use Rattle.ol_block_reading.specs.Testing.{archive_head_in, are_saved, is_archive_head as is_archive_head_in, is_head_behind, is_head_of, saved_in, saved_list_in, spaces_of};

use ol_bytes::number;
use ol_chunks::{ConfigFault, parse_config};
use ol_object::{ArchiveHead, NoMemory, PAYLOAD_LENGTH};
use std::alloc::Global;

/// The most spaces of an archive.
const SPACES: usize = 16;

/// The bytes of a space: its number, its parent's archive number and its base.
const SAVED_LENGTH: usize = 17;

/// The bytes of the text's length.
const SIZE_LENGTH: usize = 2;

/// Whether bytes are an archive head, and nothing behind it: 1 to 16 spaces in ascending order, and a text that gives a
/// configuration which has these spaces. It takes no memory.
pub(crate) fn is_archive_head(bytes: &[u8]) -> bool
    ensures { result ≡ is_archive_head_in bytes.now }
{
    match bytes {
        [] => false,
        [count, rest @ ..] => is_head_of(*count as usize, rest),
    }
}

/// Whether so many spaces, the length of the text and the text are all that there is.
#[tactic(auto, unfolding(crate::specs::Testing::is_head_of))]
fn is_head_of(count: usize, bytes: &[u8]) -> bool
    ensures { result ≡ is_head_of count bytes.now }
{
    if count == 0 || count > SPACES || bytes.len() < SAVED_LENGTH * count + SIZE_LENGTH {
        return false;
    }
    let (spaces, rest) = bytes.split_at(SAVED_LENGTH * count);
    is_head_behind(count, spaces, rest)
}

/// Whether the text has the length that stands before it, and gives a configuration that has the spaces.
#[tactic(auto, unfolding(crate::specs::Testing::is_head_behind))]
fn is_head_behind(count: usize, spaces: &[u8], rest: &[u8]) -> bool
    requires spaces { 17 * count ≤ length spaces.now }
    requires size { 2 ≤ length rest.now }
    ensures { result ≡ is_head_behind count spaces.now rest.now }
{
    let (size, text) = rest.split_at(SIZE_LENGTH);
    let size = u16::from_be_bytes([size[0], size[1]]) as usize;
    size == text.len() && are_saved(count, space_count(text), spaces)
}

/// How many spaces the configuration of a text has; 0 where the text gives none.
fn space_count(text: &[u8]) -> u8
    ensures { result ≡ spaces_of (config_in_text text.now) }
{
    match parse_config(text) {
        Ok(table) => table.spaces(),
        Err(ConfigFault::BadConfig { line: _ }) => 0,
    }
}

/// Whether so many spaces are in ascending order, each one's number below the limit.
fn are_saved(count: usize, limit: u8, bytes: &[u8]) -> bool
    requires { 17 * count ≤ length bytes.now }
    ensures { result ≡ are_saved count limit 0 bytes.now }
{
    let mut rest = bytes;
    let mut least = 0;
    for _ in 0..count {
        let (saved, behind) = rest.split_at(SAVED_LENGTH);
        if saved[0] < least || saved[0] >= limit {
            return false;
        }
        least = saved[0] + 1;
        rest = behind;
    }
    true
}

/// The archive head of the first `used` bytes of a payload. `None` exactly where `used` is above 2,048, these bytes are no
/// archive head, or the rest of the payload is not zero.
pub fn decode_head(
    alloc: Global,
    payload: &[u8; PAYLOAD_LENGTH],
    used: u32,
) -> Result<Option<ArchiveHead>, NoMemory>
    ensures found { IfOk result (λ found. IfSome found (λ h. IsArchiveHead h × (payload.now ≡ padded_to 2048 (archive_head_bytes h)) × (used ≡ length (archive_head_bytes h)))) }
    ensures none { result ≡ Ok None → (h : HeadValue) → IsArchiveHead h → payload.now ≡ padded_to 2048 (archive_head_bytes h) → used ≡ length (archive_head_bytes h) → ⊥ }
{
    let used = used as usize;
    if used > PAYLOAD_LENGTH {
        return Ok(None);
    }
    let (bytes, padding) = payload.split_at(used);
    if !is_archive_head(bytes) || !are_zeros(padding) {
        return Ok(None);
    }
    let head = archive_head_of(alloc, bytes)?;
    Ok(Some(head))
}

/// Whether all bytes are zero.
pub(crate) fn are_zeros(bytes: &[u8]) -> bool
    ensures { result ≡ list_all (λ b. b == 0) bytes.now }
{
    bytes.iter().all(|b| *b == 0)
}

/// The archive head that bytes are.
fn archive_head_of(alloc: Global, bytes: &[u8]) -> Result<ArchiveHead, NoMemory>
    requires { is_archive_head_in bytes.now ≡ true }
    ensures { IfOk result (λ h. h ≡ archive_head_in bytes.now) }
{
    let (count, rest) = bytes.split_at(1);
    let count = count[0] as usize;
    let (spaces, rest) = rest.split_at(SAVED_LENGTH * count);
    let (_, text) = rest.split_at(SIZE_LENGTH);
    let spaces = saved_list_of(alloc, count, spaces)?;
    ArchiveHead::new(alloc, &spaces, text)
}

/// So many spaces, one after the other.
fn saved_list_of(alloc: Global, count: usize, bytes: &[u8]) -> Result<Vec<(u8, u64, u64)>, NoMemory>
    requires { 17 * count ≤ length bytes.now }
    ensures { IfOk result (λ v. map saved_of v.items ≡ saved_list_in count bytes.now) }
{
    let mut spaces = Vec::new(alloc);
    let mut rest = bytes;
    for _ in 0..count {
        let (saved, behind) = rest.split_at(SAVED_LENGTH);
        spaces.push(saved_of(saved))?;
        rest = behind;
    }
    Ok(spaces)
}

/// The space of 17 bytes.
fn saved_of(bytes: &[u8]) -> (u8, u64, u64)
    requires { length bytes.now ≡ 17 }
    ensures { saved_of result ≡ saved_in bytes.now }
{
    let (_, numbers) = bytes.split_at(1);
    let (parent, base) = numbers.split_at(8);
    (bytes[0], number(parent), number(base))
}
