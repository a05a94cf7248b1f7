//! The text of an entry.

ghost use Rattle.std.specs.Prelude.{◌≡◌, ◌≤◌, ◌<◌, ◌+◌, ◌*◌, ◌/◌, ◌%◌, ◌^◌, ◌==◌, ◌∷◌, ◌++◌, decimal, length, take};
ghost use Rattle.ol_values.specs.Config.{number_words, space_at};
ghost use Rattle.ol_values.specs.Text.{actor_text, byte_text, colon, counted, entry_text, hex_digit as hex_digit_of, is_plain as is_plain_lem, named, page_text, reply_text, rid_text, row_text, slots_told};
ghost use Rattle.ol_script.specs.Slots.{slot_text};

use crate::words::is_plain;
use itoa::Buffer;
use ol_bytes::put;
use ol_chunks::ChunkTable;
use ol_values::{Actor, Entry, Reply, Rid, Row};

/// The most bytes of the text of an entry.
pub const ENTRY_LIMIT: usize = 320;

/// How many slots a page has.
const SLOTS: u32 = 31;

/// Writes the text of an entry, with its line feed, at the front of `buf`, and gives its length in bytes.
/// The names of spaces are those of the table; a space that isn't there has an empty name. It takes no
/// memory.
pub fn text(entry: &Entry, table: &ChunkTable, buf: &mut [u8; ENTRY_LIMIT]) -> usize
    ensures text { take result buf.new ≡ entry_text table.now entry.now }
    ensures limit { result ≤ 320 }
{
    let at = put_number(buf, 0, u64::from(entry.line));
    let at = put(buf, at, b" ");
    let at = put_actor(buf, at, entry.actor);
    let at = put(buf, at, b" ");
    let at = put_reply(table, buf, at, &entry.reply);
    put(buf, at, b"\n")
}

// Writes a number in decimal, which has at most 20 digits.
fn put_number(buf: &mut [u8], at: usize, number: u64) -> usize
    requires { at + 20 ≤ length buf.old }
    ensures next { result ≤ at + 20 }
    ensures length { result ≡ at + length (decimal number) }
    ensures front { take result buf.new ≡ take at buf.old ++ decimal number }
{
    let mut digits = Buffer::new();
    put(buf, at, digits.format(number).as_bytes())
}

fn put_actor(buf: &mut [u8], at: usize, actor: Actor) -> usize
    requires { at + 24 ≤ length buf.old }
    ensures next { result ≤ at + 24 }
    ensures front { take result buf.new ≡ take at buf.old ++ actor_text actor }
{
    match actor {
        Actor::Session(number) => {
            let at = put(buf, at, b"s");
            put_number(buf, at, u64::from(number))
        }
        Actor::Archiver(number) => {
            let at = put(buf, at, b"a");
            put_number(buf, at, u64::from(number))
        }
        Actor::Backer => put(buf, at, b"l1"),
        Actor::Flusher => put(buf, at, b"f1"),
        Actor::Checkpointer => put(buf, at, b"c1"),
        Actor::Warmer => put(buf, at, b"w1"),
    }
}

// Writes the name of a space, which is empty where the installation has no such space.
fn put_space(table: &ChunkTable, buf: &mut [u8], at: usize, space: u8) -> usize
    requires { at + 8 ≤ length buf.old }
    ensures next { result ≤ at + 8 }
    ensures front { take result buf.new ≡ take at buf.old ++ (space_at table.now space).name }
{
    if space >= table.spaces() {
        return at;
    }
    let name = table.name(space);
    put(buf, at, name.bytes())
}

// Writes a number behind a colon.
fn put_colon(buf: &mut [u8], at: usize, number: u64) -> usize
    requires { at + 24 ≤ length buf.old }
    ensures next { result ≤ at + 24 }
    ensures front { take result buf.new ≡ take at buf.old ++ colon number }
{
    let at = put(buf, at, b":");
    put_number(buf, at, number)
}

// Writes a word, and a page as SPACE:PAGE.
fn put_page(
    table: &ChunkTable,
    buf: &mut [u8],
    at: usize,
    word: &[u8],
    space: u8,
    page: u16,
) -> usize
    requires { at + length word.now + 32 ≤ length buf.old }
    ensures next { result ≤ at + length word.now + 32 }
    ensures front { take result buf.new ≡ take at buf.old ++ (word.now ++ page_text table.now space page) }
{
    let at = put(buf, at, word);
    let at = put_space(table, buf, at, space);
    put_colon(buf, at, u64::from(page))
}

// Writes a word, and a place as SPACE:PAGE:SLOT.
fn put_rid(table: &ChunkTable, buf: &mut [u8], at: usize, word: &[u8], rid: Rid) -> usize
    requires { at + length word.now + 56 ≤ length buf.old }
    ensures next { result ≤ at + length word.now + 56 }
    ensures front { take result buf.new ≡ take at buf.old ++ (word.now ++ rid_text table.now rid) }
{
    let at = put_page(table, buf, at, word, rid.space, rid.page);
    put_colon(buf, at, u64::from(rid.slot))
}

// Writes numbers, each behind a blank.
fn put_numbers(buf: &mut [u8], at: usize, numbers: &[u64]) -> usize
    requires { at + 24 * length numbers.now ≤ length buf.old }
    ensures next { result ≤ at + 24 * length numbers.now }
    ensures front { take result buf.new ≡ take at buf.old ++ number_words numbers.now }
{
    let mut end = at;
    for number in numbers {
        end = put(buf, end, b" ");
        end = put_number(buf, end, *number);
    }
    end
}

/// Writes a word, and numbers, each behind a blank, at `at`, and gives where they end. It takes no memory.
pub fn put_words(buf: &mut [u8], at: usize, word: &[u8], numbers: &[u64]) -> usize
    requires { at + length word.now + 24 * length numbers.now ≤ length buf.old }
    ensures next { result ≤ at + length word.now + 24 * length numbers.now }
    ensures front { take result buf.new ≡ take at buf.old ++ counted word.now numbers.now }
{
    let at = put(buf, at, word);
    put_numbers(buf, at, numbers)
}

// Writes a word, and the name of a space behind a blank.
fn put_named(table: &ChunkTable, buf: &mut [u8], at: usize, word: &[u8], space: u8) -> usize
    requires { at + length word.now + 9 ≤ length buf.old }
    ensures next { result ≤ at + length word.now + 9 }
    ensures front { take result buf.new ≡ take at buf.old ++ named table.now word.now space }
{
    let at = put(buf, at, word);
    let at = put(buf, at, b" ");
    put_space(table, buf, at, space)
}

// A digit of a hexadecimal number.
fn hex_digit(digit: u8) -> u8
    requires { digit < 16 }
    ensures { result ≡ hex_digit_of digit }
{
    if digit < 10 {
        b'0' + digit
    } else {
        b'a' + (digit - 10)
    }
}

// Writes a byte of a row: itself, or a backslash and two hexadecimal digits.
fn put_byte(buf: &mut [u8], at: usize, byte: u8) -> usize
    requires { at + 3 ≤ length buf.old }
    ensures next { result ≤ at + 3 }
    ensures front { take result buf.new ≡ take at buf.old ++ byte_text byte }
{
    if is_plain(byte) {
        put(buf, at, &[byte])
    } else {
        put(
            buf,
            at,
            &[b'\\', hex_digit(byte / 16), hex_digit(byte % 16)],
        )
    }
}

// Writes a row behind an equals sign.
fn put_row(buf: &mut [u8], at: usize, row: &Row) -> usize
    requires { at + 200 ≤ length buf.old }
    ensures next { result ≤ at + 200 }
    ensures front { take result buf.new ≡ take at buf.old ++ row_text row.now }
{
    let mut end = put(buf, at, b"=");
    for byte in row.as_slice() {
        end = put_byte(buf, end, *byte);
    }
    end
}

// Whether the bit of a slot is set.
fn is_set(bits: u32, slot: u32) -> bool
    requires { slot < 31 }
    ensures { result ≡ ((bits / 2 ^ slot) % 2 == 1) }
{
    (bits >> slot) % 2 == 1
}

// Writes the number of a slot behind a blank, where its bit is set.
fn put_slot(buf: &mut [u8], at: usize, bits: u32, slot: u32) -> usize
    requires slot { slot < 31 }
    requires room { at + 21 ≤ length buf.old }
    ensures next { result ≤ at + 3 }
    ensures front { take result buf.new ≡ take at buf.old ++ slot_text bits slot }
{
    if !is_set(bits, slot) {
        return at;
    }
    let at = put(buf, at, b" ");
    put_number(buf, at, u64::from(slot))
}

// Writes the numbers of the slots whose bits are set, each behind a blank.
fn put_slots(buf: &mut [u8], at: usize, bits: u32) -> usize
    requires { at + 120 ≤ length buf.old }
    ensures next { result ≤ at + 93 }
    ensures front { take result buf.new ≡ take at buf.old ++ number_words (slots_told bits) }
{
    let mut end = at;
    for slot in 0..SLOTS {
        end = put_slot(buf, end, bits, slot);
    }
    end
}

fn put_reply(table: &ChunkTable, buf: &mut [u8], at: usize, reply: &Reply) -> usize
    requires { at + 210 ≤ length buf.old }
    ensures next { result ≤ at + 210 }
    ensures front { take result buf.new ≡ take at buf.old ++ reply_text table.now reply.now }
{
    match reply {
        Reply::Begun { txn } => put_words(buf, at, b"begun", &[*txn]),
        Reply::At { rid } => put_rid(table, buf, at, b"rid ", *rid),
        Reply::Changed { rid } => put_rid(table, buf, at, b"changed ", *rid),
        Reply::RowIs { row } => {
            let at = put(buf, at, b"row ");
            put_row(buf, at, row)
        }
        Reply::Slots { bits } => {
            let at = put(buf, at, b"slots");
            put_slots(buf, at, *bits)
        }
        Reply::Committed { position } => put_words(buf, at, b"committed", &[*position]),
        Reply::Undone { rid } => put_rid(table, buf, at, b"undone ", *rid),
        Reply::RolledBack { position } => put_words(buf, at, b"rolledback", &[*position]),
        Reply::Checkpointed { position } => put_words(buf, at, b"checkpointed", &[*position]),
        Reply::Cleaned { space, page } => put_page(table, buf, at, b"cleaned ", *space, *page),
        Reply::NothingDirty | Reply::NothingToBack => put(buf, at, b"nothing"),
        Reply::Started { number, cut, pages } => {
            put_words(buf, at, b"started", &[*number, *cut, u64::from(*pages)])
        }
        Reply::PageIs { space, page } => put_page(table, buf, at, b"page ", *space, *page),
        Reply::AllTaken => put(buf, at, b"alltaken"),
        Reply::Archived { number, cut, pages } => {
            put_words(buf, at, b"archived", &[*number, *cut, u64::from(*pages)])
        }
        Reply::Cancelled { number } => put_words(buf, at, b"cancelled", &[*number]),
        Reply::Picked { uniq, pages } => {
            put_words(buf, at, b"picked", &[*uniq, u64::from(*pages)])
        }
        Reply::LogPage { uniq, index } => {
            put_words(buf, at, b"logpage", &[*uniq, u64::from(*index)])
        }
        Reply::Backed { uniq } => put_words(buf, at, b"backed", &[*uniq]),
        Reply::Switched { uniq } => put_words(buf, at, b"switched", &[*uniq]),
        Reply::Warming { space, upto } => {
            let at = put_named(table, buf, at, b"warming", *space);
            put_numbers(buf, at, &[*upto])
        }
        Reply::WarmLog { first } => put_words(buf, at, b"warmlog", &[*first]),
        Reply::Put { page } => put_words(buf, at, b"put", &[u64::from(*page)]),
        Reply::Up { space } => put_named(table, buf, at, b"up", *space),
        Reply::NoTxn => put(buf, at, b"notxn"),
        Reply::TxnOpen => put(buf, at, b"txnopen"),
        Reply::NoRow => put(buf, at, b"norow"),
        Reply::RowLocked { holder } => put_words(buf, at, b"rowlocked", &[u64::from(*holder)]),
        Reply::SpaceFull { space } => put_named(table, buf, at, b"spacefull", *space),
        Reply::SpaceDown { space } => put_named(table, buf, at, b"spacedown", *space),
        Reply::NoSpace => put(buf, at, b"nospace"),
        Reply::LogsFull { uniq } => put_words(buf, at, b"logsfull", &[*uniq]),
        Reply::Unbound => put(buf, at, b"unbound"),
        Reply::Archiving { archiver } => put_words(buf, at, b"archiving", &[u64::from(*archiver)]),
        Reply::NoParent { space, level } => {
            let at = put_named(table, buf, at, b"noparent", *space);
            put_numbers(buf, at, &[u64::from(*level)])
        }
        Reply::NoArchive => put(buf, at, b"noarchive"),
        Reply::BeforeFull { entry } => put_words(buf, at, b"beforefull", &[*entry]),
        Reply::PagesLeft { count } => put_words(buf, at, b"pagesleft", &[u64::from(*count)]),
        Reply::TapeFault { drive, count } => {
            put_words(buf, at, b"tapefault", &[u64::from(*drive), *count])
        }
        Reply::OutOfTape { drive } => put_words(buf, at, b"outoftape", &[u64::from(*drive)]),
        Reply::NotDown { space } => put_named(table, buf, at, b"notdown", *space),
        Reply::MissingLevel {
            space,
            level,
            archive,
        } => {
            let at = put_named(table, buf, at, b"missinglevel", *space);
            put_numbers(buf, at, &[u64::from(*level), *archive])
        }
        Reply::MissingLog { position } => put_words(buf, at, b"missinglog", &[*position]),
        Reply::DamagedVolume {
            drive,
            volume,
            block,
        } => {
            put_words(
                buf,
                at,
                b"damagedvolume",
                &[u64::from(*drive), u64::from(*volume), u64::from(*block)],
            )
        }
        Reply::ShelfFault { count } => put_words(buf, at, b"shelffault", &[*count]),
        Reply::DiskFault { chunk } => put_words(buf, at, b"diskfault", &[u64::from(*chunk)]),
        Reply::Stopped { entry } => put_words(buf, at, b"stopped", &[*entry]),
        Reply::JournalFull => put(buf, at, b"journalfull"),
        Reply::BadRid => put(buf, at, b"badrid"),
        Reply::BadRead { chunk, page } => {
            put_words(buf, at, b"badread", &[u64::from(*chunk), u64::from(*page)])
        }
    }
}
