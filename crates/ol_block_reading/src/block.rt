//! A block of a tape, read back and tested.

ghost use Rattle.std.specs.Prelude.{◌≡◌, ◌≤◌, List, ℕ, IfSome, None, bytes_eq, drop, length, take};
ghost use Rattle.std.specs.Int.{from_be_bytes, w32};
ghost use Rattle.sha2.specs.Sha256.{sha256};
ghost use Rattle.ol_object.specs.declared.block.Block.{Block as BlockHead};
ghost use Rattle.ol_object.specs.Bytes.{block_bytes};
ghost use Rattle.ol_block_reading.specs.Grammar.{IsBlock};
ghost use Rattle.ol_block_reading.specs.Testing.{has_kind, has_marks, head_in, is_archive_end, is_archive_page, is_end, is_log_end, is_log_records, is_mark, keeps_rules};

use crate::archive_head::{are_zeros, is_archive_head};
use ol_bytes::number;
use ol_object::{BLOCK_LENGTH, Block, HEAD_LENGTH, PAYLOAD_LENGTH};
use sha2::{Digest, Sha256};

/// The bytes that the digest is over: the head and the payload.
const DIGESTED_LENGTH: usize = HEAD_LENGTH + PAYLOAD_LENGTH;

/// The kinds of blocks.
const HEADER: u8 = 1;

const PAGE: u8 = 2;

const RECORDS: u8 = 3;

const TRAILER: u8 = 4;

const MARK: u8 = 5;

/// The kinds of objects.
const ARCHIVE_OBJECT: u8 = 1;

const LOG_OBJECT: u8 = 2;

const MARK_OBJECT: u8 = 3;

/// The greatest incarnation and the greatest number, and what is above all positions: 2^62.
const MOST: u64 = 4611686018427387904;

/// The greatest level of an archive.
const LAST_LEVEL: u64 = 2;

/// The head of a block; its payload is written to the buffer. `None` exactly where the bytes are no block; the buffer may then
/// hold anything. It takes no memory.
pub fn decode(bytes: &[u8; BLOCK_LENGTH], payload: &mut [u8; PAYLOAD_LENGTH]) -> Option<Block>
    // What is answered is a block, and the bytes are those of that block.
    ensures found { IfSome result (λ h. IsBlock h payload.new × (bytes.now ≡ block_bytes h payload.new)) }
    // Each block is found.
    ensures none { result ≡ None → (h : BlockHead) (p : List ℕ) → IsBlock h p → bytes.now ≡ block_bytes h p → ⊥ }
{
    let (front, digest) = bytes.split_at(DIGESTED_LENGTH);
    let (fields, content) = front.split_at(HEAD_LENGTH);
    let head = head_of(fields);
    if !has_marks(fields) || !keeps_rules(&head, content) || !is_sealed(front, digest) {
        return None;
    }
    payload.copy_from_slice(content);
    Some(head)
}

/// The fields of a head.
fn head_of(fields: &[u8]) -> Block
    requires { length fields.now ≡ 64 }
    ensures { result ≡ head_in fields.now }
{
    Block {
        kind: fields[4],
        object: fields[5],
        incarnation: number(&fields[8..16]),
        number: number(&fields[16..24]),
        index: short_number(&fields[24..28]),
        used: short_number(&fields[28..32]),
        a: number(&fields[32..40]),
        b: number(&fields[40..48]),
        c: number(&fields[48..56]),
    }
}

/// The number of 4 bytes.
fn short_number(bytes: &[u8]) -> u32
    requires { length bytes.now ≡ 4 }
    ensures { result ≡ from_be_bytes w32 bytes.now }
{
    let mut copy = [0; 4];
    copy.copy_from_slice(bytes);
    u32::from_be_bytes(copy)
}

/// Whether the mark of the format stands at the front of a head, and zeros where it has no field.
#[tactic(auto, unfolding(crate::specs::Testing::has_marks))]
fn has_marks(fields: &[u8]) -> bool
    requires { length fields.now ≡ 64 }
    ensures { result ≡ has_marks fields.now }
{
    let (format, _) = fields.split_at(4);
    let (_, last) = fields.split_at(56);
    format == b"OLB1".as_slice() && are_zeros(&fields[6..8]) && are_zeros(last)
}

/// Whether the digest is that of what stands before it.
fn is_sealed(front: &[u8], digest: &[u8]) -> bool
    ensures { result ≡ bytes_eq (sha256 front.now) digest.now }
{
    Sha256::digest(front).as_slice() == digest
}

/// Whether the fields and the payload keep the rules of a block.
#[tactic(auto, unfolding(crate::specs::Testing::keeps_rules))]
fn keeps_rules(head: &Block, payload: &[u8]) -> bool
    requires { length payload.now ≡ 2048 }
    ensures { result ≡ keeps_rules head.now payload.now }
{
    if head.used as usize > PAYLOAD_LENGTH || head.incarnation > MOST || head.number > MOST {
        return false;
    }
    let (used, padding) = payload.split_at(head.used as usize);
    are_zeros(padding) && has_kind(head, used)
}

/// Whether a head, and the used bytes of the payload, are those of one of the five kinds.
#[tactic(auto, unfolding(crate::specs::Testing::has_kind))]
fn has_kind(head: &Block, used: &[u8]) -> bool
    ensures { result ≡ has_kind head.now used.now }
{
    is_archive_end(head, used)
        || is_archive_page(head)
        || is_log_end(head)
        || is_log_records(head)
        || is_mark(head)
}

/// Whether the block is a header or a trailer.
fn is_end(head: &Block) -> bool
    ensures { result ≡ is_end head.now }
{
    head.kind == HEADER || head.kind == TRAILER
}

/// The header or the trailer of an archive: the cut is below 2^62, the level is at most 2, and the payload is an archive head.
fn is_archive_end(head: &Block, used: &[u8]) -> bool
    ensures { result ≡ is_archive_end head.now used.now }
{
    head.object == ARCHIVE_OBJECT
        && is_end(head)
        && head.a < MOST
        && head.c <= LAST_LEVEL
        && is_archive_head(used)
}

/// A page of an archive: all of the payload is used.
fn is_archive_page(head: &Block) -> bool
    ensures { result ≡ is_archive_page head.now }
{
    head.object == ARCHIVE_OBJECT && head.kind == PAGE && head.used as usize == PAYLOAD_LENGTH
}

/// The header or the trailer of a log: both positions are below 2^62, and nothing is used.
fn is_log_end(head: &Block) -> bool
    ensures { result ≡ is_log_end head.now }
{
    head.object == LOG_OBJECT
        && is_end(head)
        && head.a < MOST
        && head.b < MOST
        && head.c == 0
        && head.used == 0
}

/// Records of a log: all of the payload is used.
fn is_log_records(head: &Block) -> bool
    ensures { result ≡ is_log_records head.now }
{
    head.object == LOG_OBJECT
        && head.kind == RECORDS
        && head.c == 0
        && head.used as usize == PAYLOAD_LENGTH
}

/// A mark: the end of the restore is below 2^62, and nothing is used.
fn is_mark(head: &Block) -> bool
    ensures { result ≡ is_mark head.now }
{
    head.object == MARK_OBJECT
        && head.kind == MARK
        && head.a < MOST
        && head.b == 0
        && head.c == 0
        && head.used == 0
}
