//! What an opening reads of a disk.

use crate::rig::entries_on;
use ol_outside::{Disk, PAGE_LENGTH};
use ol_physlog::Entries;
use std::alloc::Global;

/// A page of a space: its stamp at both ends, and its slots 0 and 1 up to their zeros. All else of it is zero.
pub struct Shown(
    pub (u8, u16),
    pub &'static [u8],
    pub &'static [u8],
    pub &'static [u8],
);

/// The data pages of root, which stand behind the log files, and of data1: space, chunk, first page and count.
const ROOT: (u8, u8, u32, u16) = (0, 0, 88, 12);

const DATA: (u8, u8, u32, u16) = (1, 1, 0, 8);

/// Whether bytes begin with these, and are zero behind them.
fn is_padded(bytes: &[u8], front: &[u8]) -> bool {
    bytes.starts_with(front) && bytes.iter().skip(front.len()).all(|byte| *byte == 0)
}

/// Whether a page has these stamps and slots, and is zero elsewhere.
fn is_page(page: &[u8; PAGE_LENGTH], stamp: &[u8], first: &[u8], second: &[u8]) -> bool {
    let (head, behind) = page.split_at(8);
    let (gap, behind) = behind.split_at(24);
    let (slot, behind) = behind.split_at(64);
    let (next, behind) = behind.split_at(64);
    let (others, end) = behind.split_at(1880);
    is_padded(head, stamp)
        && is_padded(gap, b"")
        && is_padded(slot, first)
        && is_padded(next, second)
        && is_padded(others, b"")
        && is_padded(end, stamp)
}

/// Whether a page is as it is listed, or blank where it is not.
fn is_listed(bytes: &[u8; PAGE_LENGTH], place: (u8, u16), listed: &[Shown]) -> bool {
    match listed.iter().find(|shown| shown.0 == place) {
        Some(Shown(_, stamp, first, second)) => is_page(bytes, stamp, first, second),
        None => is_page(bytes, b"", b"", b""),
    }
}

/// The bytes at a place of a disk.
fn bytes_at<D: Disk>(disk: &mut D, chunk: u8, page: u32) -> Option<[u8; PAGE_LENGTH]> {
    let mut bytes = [0x33; PAGE_LENGTH];
    if page >= disk.size(chunk) {
        return None;
    }
    match disk.read(chunk, page, &mut bytes) {
        Ok(()) => Some(bytes),
        Err(_) => None,
    }
}

/// Whether a space has the listed pages, and all others blank: each is the image of its entry, or what stands at its place.
fn has_space<D: Disk>(
    disk: &mut D,
    entries: &Entries,
    (space, chunk, first, count): (u8, u8, u32, u16),
    listed: &[Shown],
) -> bool {
    for page in 0..count {
        let found = match entries.get(space, page) {
            Some(image) => Some(*image),
            None => bytes_at(disk, chunk, first.saturating_add(u32::from(page))),
        };
        match found {
            Some(bytes) if is_listed(&bytes, (space, page), listed) => {}
            _ => return false,
        }
    }
    true
}

/// Whether an opening for a generation has the listed pages, and all others blank.
pub fn shows<D: Disk>(alloc: Global, disk: &mut D, generation: u64, listed: &[Shown]) -> bool {
    match entries_on(alloc, disk, generation) {
        Some(entries) => [ROOT, DATA]
            .iter()
            .all(|part| has_space(disk, &entries, *part, listed)),
        None => false,
    }
}
