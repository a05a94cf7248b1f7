//! The bytes of blocks.

ghost use Rattle.ol_record.specs.LogPages.{IsBuffer};
ghost use Rattle.ol_values.specs.Spelling.{KeepsRules};

use crate::number::byte;
use crate::trouble::Trouble;
use ol_object::{ArchiveHead, BLOCK_LENGTH, Block, PAYLOAD_LENGTH, encode};
use ol_page::set_slot;
use ol_record::{begin_page, push_record};
use ol_values::{Record, Rid, Row};
use std::alloc::Global;

/// The most spaces and the longest text of an archive head.
const SPACES: usize = 16;

const TEXT_LIMIT: usize = 1024;

/// The most records that a line may ask for.
const MOST_RECORDS: u64 = 100;

/// The bytes of a block.
pub type Bytes = [u8; BLOCK_LENGTH];

/// A payload, and how many of its bytes are used.
#[derive(Clone, Copy)]
pub struct Payload {
    /// All bytes.
    pub bytes: [u8; PAYLOAD_LENGTH],
    /// How many are used; the others are zero.
    pub used: u32,
}

/// A payload of zeros, of which none is used.
pub const NO_PAYLOAD: Payload = Payload {
    bytes: [0; PAYLOAD_LENGTH],
    used: 0,
};

/// The block of a head, whose number of used bytes is that of the payload.
pub fn sealed(head: &Block, payload: &Payload) -> Bytes {
    let mut block = [0; BLOCK_LENGTH];
    let head = Block {
        used: payload.used,
        ..*head
    };
    encode(&head, &payload.bytes, &mut block);
    block
}

/// The archive head of spaces, each its number, its parent's archive number and its base, and of a text.
///
/// `OtherCount` comes where the numbers are not three for each space, `OtherLength` where there are more than 16 spaces or
/// 1,024 bytes of text.
pub fn archive_head(alloc: Global, numbers: &[u64], text: &[u8]) -> Result<Payload, Trouble> {
    let mut spaces = Vec::new(alloc);
    for numbers in numbers.chunks(3) {
        let [space, parent, base] = numbers else {
            return Err(Trouble::OtherCount);
        };
        spaces.push((byte(*space)?, *parent, *base))?;
    }
    head_of(alloc, &spaces, text)
}

fn head_of(alloc: Global, spaces: &[(u8, u64, u64)], text: &[u8]) -> Result<Payload, Trouble> {
    if spaces.len() > SPACES || text.len() > TEXT_LIMIT {
        return Err(Trouble::OtherLength);
    }
    let head = ArchiveHead::new(alloc, spaces, text)?;
    let mut bytes = [0; PAYLOAD_LENGTH];
    let used = head.encode(&mut bytes);
    Ok(Payload { bytes, used })
}

/// The data page of a stamp with the row `ann` in slot 0.
pub fn data_page(stamp: u64) -> Payload {
    let mut bytes = [0; PAYLOAD_LENGTH];
    set_slot(&mut bytes, 0, Row::new(b"ann"), stamp);
    Payload {
        bytes,
        used: PAYLOAD_LENGTH as u32,
    }
}

/// The log page of so many records from a position on, with an open gate.
///
/// `OtherLength` comes where there are more than 100 records.
pub fn log_page(
    index: u32,
    uniq: u64,
    incarnation: u64,
    first: u64,
    count: u64,
) -> Result<Payload, Trouble> {
    if count > MOST_RECORDS {
        return Err(Trouble::OtherLength);
    }
    let mut bytes = [0; PAYLOAD_LENGTH];
    begin_page(&mut bytes, index, uniq, incarnation, first);
    fill(&mut bytes, first, count);
    bytes[0] = 1;
    Ok(Payload {
        bytes,
        used: PAYLOAD_LENGTH as u32,
    })
}

/// Puts so many records from a position on into a page, as far as it has room.
fn fill(page: &mut [u8; PAYLOAD_LENGTH], first: u64, count: u64)
    requires { IsBuffer page.old }
{
    for index in 0..count {
        push_record(page, &record_at(first.saturating_add(index)));
    }
}

/// The record of a position, where all transactions insert one row, one transaction behind the other.
fn record_at(position: u64) -> Record
    ensures { KeepsRules result }
{
    let behind = position.saturating_sub(1) % 3;
    let txn = position.saturating_sub(behind);
    match behind {
        0 => Record::Begin { txn },
        1 => Record::Change {
            txn,
            rid: Rid {
                space: 1,
                page: 0,
                slot: 0,
            },
            before: None,
            after: Row::new(b"ann"),
        },
        _ => Record::Commit { txn },
    }
}
