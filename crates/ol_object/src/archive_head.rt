//! What the header and the trailer of an archive carry as their payload: the spaces of the archive, and
//! the text of the configuration.

ghost use Rattle.std.specs.Prelude.{◌≡◌, ◌+◌, ◌-◌, ◌*◌, ◌≤◌, ◌++◌, IfOk, flat_map, length, map, replicate, take};
ghost use Rattle.ol_object.specs.Bytes.{archive_head_bytes, padded_to, saved_bytes};
ghost use Rattle.ol_object.specs.Spaces.{archive_head_of, saved_of};

use crate::NoMemory;
use crate::block::PAYLOAD_LENGTH;
use ol_bytes::{clear_from, put};
use std::alloc::Global;
use std::marker::Model;

/// An archive head, which contracts see as its spaces in order and its text. It has at most 16 spaces
/// and at most 1,024 bytes of text, so that its bytes fit a payload.
#[derive(Debug, Drop)]
pub struct ArchiveHead {
    spaces: Vec<(u8, u64, u64)>,
    text: Vec<u8>,
}

impl Model for ArchiveHead {
    ghost use Rattle.std.specs.Prelude.{◌≤◌, length};
    ghost use Rattle.ol_values.specs.Blocks.{ArchiveHead as HeadValue};
    ghost use Rattle.ol_object.specs.Spaces.{archive_head_of};

    ghost Value = { HeadValue };

    ghost view = { λ h. archive_head_of h.spaces.items h.text.items };

    ghost invariant = { λ h. (length h.spaces.items ≤ 16) × (length h.text.items ≤ 1024) };
}

impl ArchiveHead {
    /// The archive head of these spaces, each its number, its parent's archive number and its base, and
    /// of this text. There are at most 16 spaces and 1,024 bytes of text.
    pub fn new(
        alloc: Global,
        spaces: &[(u8, u64, u64)],
        text: &[u8],
    ) -> Result<ArchiveHead, NoMemory>
        requires few { length spaces.now ≤ 16 }
        requires short { length text.now ≤ 1024 }
        ensures { IfOk result (λ h. h ≡ archive_head_of spaces.now text.now) }
    {
        let spaces = Vec::from_slice(alloc, spaces)?;
        let text = Vec::from_slice(alloc, text)?;
        Ok(ArchiveHead { spaces, text })
    }

    /// Writes the archive head as a whole payload, and gives the number of its bytes; those behind them
    /// are zero.
    #[tactic(auto, unfolding(crate::specs::Bytes::padded_to))]
    pub fn encode(&self, payload: &mut [u8; PAYLOAD_LENGTH]) -> u32
        ensures used { result ≡ length (archive_head_bytes self.now) }
        ensures bytes { payload.new ≡ padded_to 2048 (archive_head_bytes self.now) }
    {
        let at = put_parts(payload, &self.spaces, &self.text);
        clear_from(payload, at);
        at as u32
    }

    /// The spaces in order, each its number, its parent's archive number and its base.
    pub fn spaces(&self) -> &[(u8, u64, u64)]
        ensures value { map saved_of result.now ≡ self.now.spaces }
        ensures limit { length result.now ≤ 16 }
    {
        &self.spaces
    }

    /// The text of the configuration.
    pub fn text(&self) -> &[u8]
        ensures value { result.now ≡ self.now.text }
        ensures limit { length result.now ≤ 1024 }
    {
        &self.text
    }
}

/// Writes the archive head of spaces and a text at the front, and gives the index behind it.
fn put_parts(out: &mut [u8], spaces: &[(u8, u64, u64)], text: &[u8]) -> usize
    requires few { length spaces.now ≤ 16 }
    requires short { length text.now ≤ 1024 }
    requires room { length out.old ≡ 2048 }
    ensures next { result ≡ length (archive_head_bytes (archive_head_of spaces.now text.now)) }
    ensures front { take result out.new ≡ archive_head_bytes (archive_head_of spaces.now text.now) }
{
    let at = put(out, 0, &[spaces.len() as u8]);
    let at = put_spaces(out, at, spaces);
    let at = put(out, at, &(text.len() as u16).to_be_bytes());
    put(out, at, text)
}

/// Writes the spaces one after the other, 17 bytes each, and gives the index behind them.
fn put_spaces(out: &mut [u8], at: usize, spaces: &[(u8, u64, u64)]) -> usize
    requires { at + 17 * length spaces.now ≤ length out.old }
    ensures next { result ≡ at + 17 * length spaces.now }
    ensures front { take result out.new ≡ take at out.old ++ flat_map saved_bytes (map saved_of spaces.now) }
{
    let mut end = at;
    for saved in spaces {
        end = put_saved(out, end, *saved);
    }
    end
}

/// Writes one space, and gives the index behind it.
fn put_saved(out: &mut [u8], at: usize, saved: (u8, u64, u64)) -> usize
    requires { at + 17 ≤ length out.old }
    ensures next { result ≡ at + 17 }
    ensures front { take result out.new ≡ take at out.old ++ saved_bytes (saved_of saved) }
{
    let end = put(out, at, &[saved.0]);
    let end = put(out, end, &saved.1.to_be_bytes());
    put(out, end, &saved.2.to_be_bytes())
}
