//! The disk in memory: what is written is read, and what a stop leaves is as it was chosen.

use ol_outside::{Choice, Disk, MemoryDisk, PAGE_LENGTH};
use std::test::Fail;

/// Page 0 of a chunk; None where the read fails.
fn page_of<D: Disk>(disk: &mut D, chunk: u8) -> Option<[u8; PAGE_LENGTH]> {
    let mut bytes = [0x33; PAGE_LENGTH];
    if disk.size(chunk) == 0 {
        return None;
    }
    match disk.read(chunk, 0, &mut bytes) {
        Ok(()) => Some(bytes),
        Err(_) => None,
    }
}

/// Writes bytes into page 0 of a chunk, from an offset on, and tells whether that went well.
fn put<D: Disk>(disk: &mut D, chunk: u8, offset: u8, bytes: &[u8]) -> bool {
    if disk.size(chunk) == 0 || bytes.len() > 256 {
        return false;
    }
    disk.write_at(chunk, 0, u16::from(offset), bytes).is_ok()
}

/// Makes a chunk durable, and tells whether that went well.
fn sync<D: Disk>(disk: &mut D, chunk: u8) -> bool {
    disk.size(chunk) > 0 && disk.sync(chunk).is_ok()
}

/// Whether page 0 of a chunk begins with these bytes, and is zero behind them.
fn holds<D: Disk>(disk: &mut D, chunk: u8, bytes: &[u8]) -> bool {
    match page_of(disk, chunk) {
        Some(page) => is_padded(&page, bytes),
        None => false,
    }
}

/// Whether a page begins with these bytes, and is zero behind them.
fn is_padded(page: &[u8; PAGE_LENGTH], bytes: &[u8]) -> bool {
    page.starts_with(bytes) && page.iter().skip(bytes.len()).all(|byte| *byte == 0)
}

/// Whether two chunks hold these bytes, and no call has changed the disk.
fn holds_both<D: Disk>(disk: &mut D, first: &[u8], second: &[u8]) -> bool {
    disk.calls() == 0 && holds(disk, 0, first) && holds(disk, 1, second)
}

/// The calls of a disk that changed it.
pub fn calls<D: Disk>(disk: &D) -> u64 {
    disk.calls()
}

/// The disk that a stop within a call leaves, or one behind the last call, which is moment 0; None where there is no
/// memory or no such moment.
pub fn stopped(disk: &MemoryDisk, moment: u64, choice: Choice) -> Option<MemoryDisk> {
    if moment == 0 {
        return disk.rest(choice).ok();
    }
    if moment > disk.calls() || moment == u64::MAX {
        return None;
    }
    disk.left(moment, choice).ok()
}

/// Whether a stop leaves these bytes in the two chunks.
fn leaves(disk: &MemoryDisk, moment: u64, choice: Choice, first: &[u8], second: &[u8]) -> bool {
    match stopped(disk, moment, choice) {
        Some(mut left) => holds_both(&mut left, first, second),
        None => false,
    }
}

/// Makes `old` durable in chunk 0, and writes `new` over it, which is not. The calls are a write, a sync and a write of
/// chunk 0, and a write and a sync of chunk 1.
fn tear<D: Disk>(disk: &mut D) -> bool {
    put(disk, 0, 0, b"old...")
        && sync(disk, 0)
        && put(disk, 0, 1, b"new")
        && put(disk, 1, 0, b"other")
        && sync(disk, 1)
}

const FILL: Choice = Choice::Fill(0xee);

/// The moment of a stop in that disk, 0 for one behind the last call, the choice, and what stands in its two chunks.
const STOPS: &[(u64, Choice, &[u8], &[u8])] = &[
    (1, Choice::Old, b"", b""),
    (1, Choice::New, b"old...", b""),
    (1, FILL, b"\xee\xee\xee\xee\xee\xee", b""),
    (2, Choice::Old, b"", b""),
    (2, Choice::New, b"old...", b""),
    (2, FILL, b"\xee\xee\xee\xee\xee\xee", b""),
    (3, Choice::Old, b"old...", b""),
    (3, Choice::New, b"onew..", b""),
    (3, FILL, b"o\xee\xee\xee..", b""),
    (4, Choice::Old, b"old...", b""),
    (4, Choice::New, b"onew..", b"other"),
    (4, FILL, b"o\xee\xee\xee..", b"\xee\xee\xee\xee\xee"),
    (5, Choice::Old, b"old...", b""),
    (5, Choice::New, b"onew..", b"other"),
    (5, FILL, b"o\xee\xee\xee..", b"\xee\xee\xee\xee\xee"),
    // the call of number 5 made chunk 1 durable
    (0, Choice::Old, b"old...", b"other"),
    (0, Choice::New, b"onew..", b"other"),
    (0, FILL, b"o\xee\xee\xee..", b"other"),
];

/// The first of the stops, from 0, that leaves something else.
fn first_other(disk: &MemoryDisk) -> Option<usize> {
    for (index, (moment, choice, first, second)) in STOPS.iter().enumerate() {
        if !leaves(disk, *moment, *choice, first, second) {
            return Some(index);
        }
    }
    None
}

#[test]
fn stop_leaves_what_was_chosen(rt: HostRuntime) -> Result<(), Fail> {
    let mut disk = MemoryDisk::new(rt.alloc(), &[1, 1], &[])?;
    assert!(rt; tear(&mut disk));
    assert_eq!(rt; calls(&disk), 5);
    assert_eq!(rt; first_other(&disk), None);
    Ok(())
}

/// Whether a write and a sync of chunk 1 fail, and a read of chunk 0 then. The write stands all the same.
fn fails<D: Disk>(disk: &mut D) -> bool {
    !put(disk, 1, 0, b"abc")
        && holds(disk, 1, b"abc")
        && !sync(disk, 1)
        && page_of(disk, 0).is_none()
}

#[test]
fn failed_sync_makes_nothing_durable(rt: HostRuntime) -> Result<(), Fail> {
    let mut disk = MemoryDisk::new(rt.alloc(), &[1, 1], &[1, 3, 4])?;
    assert!(rt; fails(&mut disk));
    assert!(rt; leaves(&disk, 0, Choice::Old, b"", b""), "a failed sync");
    assert!(rt; sync(&mut disk, 1));
    assert!(rt; leaves(&disk, 0, Choice::Old, b"", b"abc"), "a sync");
    Ok(())
}
