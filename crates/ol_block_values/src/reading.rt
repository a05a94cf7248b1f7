//! The reading of a block.

ghost use Rattle.std.specs.Prelude.{◌≡◌, IfOk, IfSome, OnErr, true};
ghost use Rattle.std.specs.Option.{option_map};
ghost use Rattle.ol_block_reading.specs.Grammar.{IsBlock};
ghost use Rattle.ol_block_values.specs.Items.{wants_head, wants_page, wants_log_page, item_in, log_held, page_held, payload_at, payload_in};
ghost use Rattle.ol_object_spans.specs.Told.{held_told, told_of};
ghost use Rattle.ol_block_values.specs.Told.{HoldsHead, IsHead, head_without_used};

use ol_block_reading::{decode, decode_head};
use ol_chunks::{ConfigFault, parse_config};
use ol_object::{BLOCK_LENGTH, Block, NoMemory, PAYLOAD_LENGTH};
use ol_object_spans::{BlockHead, Held, ReadBlock};
use ol_page::{check, stamp};
use ol_record::log_head;
use std::alloc::Global;

/// The kinds of blocks that hold something.
const HEADER: u8 = 1;

const PAGE: u8 = 2;

const RECORDS: u8 = 3;

const TRAILER: u8 = 4;

/// The kinds of objects that have such blocks.
const ARCHIVE_OBJECT: u8 = 1;

const LOG_OBJECT: u8 = 2;

/// The first byte of a log page whose gate is open.
const OPEN_GATE: u8 = 1;

/// The block that bytes are; `None` exactly where they are no block. `payload` then holds the payload of the block, also
/// where memory is short; where the bytes are no block, it may hold anything. `NoMemory` comes only for a block that holds
/// an archive head. It computes one digest.
pub fn read_block(
    alloc: Global,
    bytes: &[u8; BLOCK_LENGTH],
    payload: &mut [u8; PAYLOAD_LENGTH],
) -> Result<Option<ReadBlock>, NoMemory>
    ensures value { IfOk result (λ r. r ≡ option_map told_of (item_in bytes.now)) }
    ensures payload { IfSome (item_in bytes.now) (λ b. payload.new ≡ payload_at bytes.now) }
    ensures cause { OnErr result (HoldsHead (item_in bytes.now)) }
{
    let Some(head) = decode(bytes, payload) else {
        return Ok(None);
    };
    let held = held_in(alloc, &head, payload)?;
    let head = without_used(&head);
    Ok(Some(ReadBlock { head, held }))
}

/// The fields of a head but for the number of used bytes.
fn without_used(head: &Block) -> BlockHead
    ensures { result ≡ head_without_used head.now }
{
    BlockHead {
        kind: head.kind,
        object: head.object,
        incarnation: head.incarnation,
        number: head.number,
        index: head.index,
        a: head.a,
        b: head.b,
        c: head.c,
    }
}

/// What the payload of a block holds. `NoMemory` comes only for an archive head.
fn held_in(alloc: Global, head: &Block, payload: &[u8; PAYLOAD_LENGTH]) -> Result<Held, NoMemory>
    requires { IsBlock head.now payload.now }
    ensures value { IfOk result (λ held. held ≡ held_told (payload_in head.now payload.now)) }
    ensures cause { OnErr result (IsHead (payload_in head.now payload.now)) }
{
    if wants_head(head) {
        return archive_head_in(alloc, head, payload);
    }
    if wants_page(head) {
        return Ok(page_in(payload));
    }
    if wants_log_page(head) {
        return Ok(log_page_in(payload));
    }
    Ok(Held::Nothing)
}

/// Whether the block should hold an archive head: it is the header or the trailer of an archive.
fn wants_head(head: &Block) -> bool
    ensures { result ≡ wants_head head.now }
{
    head.object == ARCHIVE_OBJECT && (head.kind == HEADER || head.kind == TRAILER)
}

/// Whether the block should hold a data page.
fn wants_page(head: &Block) -> bool
    ensures { result ≡ wants_page head.now }
{
    head.object == ARCHIVE_OBJECT && head.kind == PAGE
}

/// Whether the block should hold a log page.
fn wants_log_page(head: &Block) -> bool
    ensures { result ≡ wants_log_page head.now }
{
    head.object == LOG_OBJECT && head.kind == RECORDS
}

/// The archive head of a header or a trailer, with the configuration of its text.
fn archive_head_in(
    alloc: Global,
    head: &Block,
    payload: &[u8; PAYLOAD_LENGTH],
) -> Result<Held, NoMemory>
    requires block { IsBlock head.now payload.now }
    requires kind { wants_head head.now ≡ true }
    ensures value { IfOk result (λ held. held ≡ held_told (payload_in head.now payload.now)) }
    ensures cause { OnErr result (IsHead (payload_in head.now payload.now)) }
{
    // A block of this kind has both: the other answers never come.
    let Some(archive) = decode_head(alloc, payload, head.used)? else {
        return Ok(Held::Nothing);
    };
    match parse_config(archive.text()) {
        Ok(config) => Ok(Held::Archive(archive, config)),
        Err(ConfigFault::BadConfig { line: _ }) => Ok(Held::Nothing),
    }
}

/// The data page of a payload, where it has the image of one.
fn page_in(payload: &[u8; PAYLOAD_LENGTH]) -> Held
    ensures { result ≡ held_told (page_held payload.now) }
{
    match check(payload) {
        Ok(()) => Held::Page {
            stamp: stamp(payload),
        },
        Err(_) => Held::Nothing,
    }
}

/// The log page of a payload, where it has the image of one with an open gate.
fn log_page_in(payload: &[u8; PAYLOAD_LENGTH]) -> Held
    ensures { result ≡ held_told (log_held payload.now) }
{
    if payload[0] != OPEN_GATE {
        return Held::Nothing;
    }
    match log_head(payload) {
        None => Held::Nothing,
        Some(head) => Held::Log {
            uniq: head.uniq,
            first: head.first,
            count: u32::from(head.count),
        },
    }
}
