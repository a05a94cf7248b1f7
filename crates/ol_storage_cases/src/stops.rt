//! Stops within each call of the disk: an opening finds the records that were flushed, and the pages as at the last checkpoint.

use crate::disks::{SLOT, carried_out, formatted, read_disk};
use ol_outside::{Choice, Disk, MemoryDisk};
use ol_storage::Operation;
use ol_values::{Record, Row};
use std::alloc::Global;
use std::test::Fail;

/// The serial of the newest anchor, its checkpoint, the last log file that is backed up, the position of the last record, and whether
/// the first slot of data1 has the row `ann`, or else none.
type Seen = (u64, u64, u64, u64, bool);

const NEW: Seen = (1, 0, 0, 0, false);

const TWO: Seen = (1, 0, 0, 2, false);

const THREE: Seen = (1, 0, 0, 3, false);

const CHECKED: Seen = (2, 3, 0, 3, true);

const BACKED: Seen = (2, 0, 1, 3, false);

const ALL: &[Choice] = &[
    Choice::Old,
    Choice::New,
    Choice::Fill(0),
    Choice::Fill(1),
    Choice::Fill(0xff),
];

/// Bytes that leave a gate closed, and those that open it.
const SHUT: &[Choice] = &[Choice::Old, Choice::Fill(0), Choice::Fill(0xff)];

const OPEN: &[Choice] = &[Choice::New, Choice::Fill(1)];

/// The first and the last moment of some stops, where one above the last call is behind it, the choices, and what is found.
type Span = (u64, u64, &'static [Choice], Seen);

/// A transaction of one row, and a checkpoint. Calls 1 and 2 are image and head of the entry, 3 to 6 body, sync, gate and sync of the
/// log page, 7 to 9 sync, the entry's gate and sync, 10 and 11 the page and the sync of its chunk, 12 to 15 body, sync, gate and sync of the
/// anchor, 16 and 17 the entry's gate and sync.
const WRITE_SPANS: &[Span] = &[
    (1, 4, ALL, NEW),
    (5, 6, SHUT, NEW),
    (5, 6, OPEN, THREE),
    (7, 13, ALL, THREE),
    (14, 15, SHUT, THREE),
    (14, 15, OPEN, CHECKED),
    (16, 18, ALL, CHECKED),
];

/// The same transaction, whose page is cleaned before its end; then its log file is closed and backed up. Calls 1 and 2 are the entry, 3
/// to 6 a log page, 7 to 9 the entry's gate, 10 the page, 11 to 14 the next log page, 15 to 18 the anchor.
const CLEAN_SPANS: &[Span] = &[
    (1, 4, ALL, NEW),
    (5, 6, SHUT, NEW),
    (5, 6, OPEN, TWO),
    (7, 12, ALL, TWO),
    (13, 14, SHUT, TWO),
    (13, 14, OPEN, THREE),
    (15, 16, ALL, THREE),
    (17, 18, SHUT, THREE),
    (17, 18, OPEN, BACKED),
    (19, 19, ALL, BACKED),
];

/// The first one is stopped in front of its anchor, and its records are redone. Calls 1 and 2 are the image at the place of its page and a
/// sync, 3 and 4 the page and a sync, 5 to 8 the anchor, 9 and 10 the entry's gate and sync.
const REDO_SPANS: &[Span] = &[
    (1, 6, ALL, THREE),
    (7, 8, SHUT, THREE),
    (7, 8, OPEN, CHECKED),
    (9, 11, ALL, CHECKED),
];

const FRONT: u64 = 13;

/// The change of the transaction.
fn change() -> Option<Record> {
    let after = Row::new(b"ann")?;
    Some(Record::Change {
        txn: 1,
        rid: SLOT,
        before: None,
        after: Some(after),
    })
}

fn checkpoint() -> Operation {
    Operation::Checkpoint {
        need: 4,
        next_archive: 1,
    }
}

fn write(alloc: Global, disk: MemoryDisk) -> Option<MemoryDisk> {
    carried_out(
        alloc,
        disk,
        &[
            Operation::Append(Record::Begin { txn: 1 }),
            Operation::Change(change()?),
            Operation::Append(Record::Commit { txn: 1 }),
            Operation::Flush,
            checkpoint(),
        ],
    )
}

fn clean(alloc: Global, disk: MemoryDisk) -> Option<MemoryDisk> {
    carried_out(
        alloc,
        disk,
        &[
            Operation::Append(Record::Begin { txn: 1 }),
            Operation::Change(change()?),
            Operation::Clean,
            Operation::Append(Record::Commit { txn: 1 }),
            Operation::Flush,
            Operation::Switch,
            Operation::MarkBacked,
        ],
    )
}

fn redo(alloc: Global, disk: MemoryDisk) -> Option<MemoryDisk> {
    carried_out(
        alloc,
        disk,
        &[
            Operation::Pass,
            Operation::Redo(change()?),
            Operation::Pass,
            checkpoint(),
        ],
    )
}

/// The disk that a stop within a call leaves, or one behind the last call, for a greater moment.
fn stopped(disk: &MemoryDisk, moment: u64, choice: Choice) -> Option<MemoryDisk> {
    if moment > disk.calls() || moment == u64::MAX {
        return disk.rest(choice).ok();
    }
    disk.left(moment, choice).ok()
}

/// Whether a row is `ann`; None where it is another one.
fn is_ann(row: &Option<Row>) -> Option<bool> {
    match row {
        None => Some(false),
        Some(row) if row.as_slice() == b"ann".as_slice() => Some(true),
        Some(_) => None,
    }
}

fn seen(alloc: Global, disk: MemoryDisk) -> Option<Seen> {
    let found = read_disk(alloc, disk)?;
    let ann = is_ann(&found.row)?;
    Some((
        found.serial,
        found.checkpoint,
        found.backed,
        found.last,
        ann,
    ))
}

fn leaves(alloc: Global, disk: &MemoryDisk, moment: u64, choice: Choice, expected: Seen) -> bool {
    match stopped(disk, moment, choice) {
        Some(left) => seen(alloc, left) == Some(expected),
        None => false,
    }
}

fn all_leave(alloc: Global, disk: &MemoryDisk, span: &Span) -> bool {
    (span.0..=span.1).all(|moment| {
        span.2
            .iter()
            .all(|choice| leaves(alloc, disk, moment, *choice, span.3))
    })
}

/// The calls of a disk, and the first of the spans, from 0, with a stop behind which something else is found.
fn judge(alloc: Global, disk: &MemoryDisk, spans: &[Span]) -> (u64, Option<usize>) {
    let other = spans.iter().position(|span| !all_leave(alloc, disk, span));
    (disk.calls(), other)
}

#[test]
fn opening_finds_what_was_flushed(rt: HostRuntime) -> Result<(), Fail> {
    let alloc = rt.alloc();
    let written = write(alloc, formatted(alloc).ok_or("not formatted")?).ok_or("not written")?;
    assert_eq!(rt; judge(alloc, &written, WRITE_SPANS), (17, None));
    let cleaned = clean(alloc, formatted(alloc).ok_or("not formatted")?).ok_or("not cleaned")?;
    assert_eq!(rt; judge(alloc, &cleaned, CLEAN_SPANS), (18, None));
    let front = stopped(&written, FRONT, Choice::Old).ok_or("no disk")?;
    let redone = redo(alloc, front).ok_or("not redone")?;
    assert_eq!(rt; judge(alloc, &redone, REDO_SPANS), (10, None));
    Ok(())
}
