//! Files that are filled, backed up and used again, with stops within each call of the disk.

use crate::rings::{SIZES, back_up, put, ring_on, run_on, switch};
use ol_loglog::LogRing;
use ol_outside::{Choice, Disk, MemoryDisk};
use std::alloc::Global;
use std::test::Fail;

/// The disk that a stop within a call leaves, or one behind the last call, which is moment 0; None where there is no
/// memory or no such moment.
fn stopped(disk: &MemoryDisk, moment: u64, choice: Choice) -> Option<MemoryDisk> {
    if moment == 0 {
        return disk.rest(choice).ok();
    }
    if moment > disk.calls() || moment == u64::MAX {
        return None;
    }
    disk.left(moment, choice).ok()
}

/// The run that a scan finds on what a stop leaves.
fn run_left(
    alloc: Global,
    disk: &MemoryDisk,
    moment: u64,
    choice: Choice,
) -> Option<Result<(u64, u64), u32>> {
    let mut left = stopped(disk, moment, choice)?;
    run_on(alloc, &mut left)
}

const CLOSED: Choice = Choice::Fill(0);

const OPEN: Choice = Choice::Fill(1);

const FOREIGN: Choice = Choice::Fill(0xff);

/// The moment of a stop, 0 for one behind the last call, the choice, and the first and the last position of the run.
///
/// A page of an unused file takes four calls: body, sync, gate, sync. The page of position 13 takes file 0 over, where pages 1 to 4
/// stood: calls 49 to 52 close their gates, 53 is the sync, and then come the four calls of a page.
const STOPS: &[(u64, Choice, u64, u64)] = &[
    (21, Choice::Old, 1, 5),
    (21, Choice::New, 1, 5),
    (21, OPEN, 1, 5),
    (22, FOREIGN, 1, 5),
    (23, Choice::Old, 1, 5),
    (23, Choice::New, 1, 6),
    (23, CLOSED, 1, 5),
    (23, OPEN, 1, 6),
    (23, FOREIGN, 1, 5),
    (24, Choice::Old, 1, 5),
    (24, Choice::New, 1, 6),
    (49, Choice::Old, 1, 12),
    (49, Choice::New, 2, 12),
    (50, Choice::Old, 1, 12),
    (50, Choice::New, 3, 12),
    (50, CLOSED, 3, 12),
    (50, OPEN, 1, 12),
    (50, FOREIGN, 3, 12),
    (52, Choice::New, 5, 12),
    (53, Choice::Old, 1, 12),
    (53, Choice::New, 5, 12),
    (54, Choice::Old, 5, 12),
    (54, Choice::New, 5, 12),
    (54, OPEN, 5, 12),
    (54, FOREIGN, 5, 12),
    (55, OPEN, 5, 12),
    (56, Choice::Old, 5, 12),
    (56, Choice::New, 5, 13),
    (56, CLOSED, 5, 12),
    (56, OPEN, 5, 13),
    (56, FOREIGN, 5, 12),
    (57, Choice::Old, 5, 12),
    (57, Choice::New, 5, 13),
    (0, Choice::Old, 5, 13),
    (0, FOREIGN, 5, 13),
];

/// The first of the stops, from 0, that leaves another run.
fn first_other(alloc: Global, disk: &MemoryDisk) -> Option<usize> {
    for (index, (moment, choice, first, last)) in STOPS.iter().enumerate() {
        if run_left(alloc, disk, *moment, *choice) != Some(Ok((*first, *last))) {
            return Some(index);
        }
    }
    None
}

/// Fills the three files with positions 1 to 12, while use 1 is backed up, and writes a page into the first one again.
fn fill<D: Disk>(ring: &mut LogRing, disk: &mut D) -> bool {
    put(ring, disk, 8) && back_up(ring) == 1 && put(ring, disk, 5)
}

/// The calls of a disk that changed it.
fn calls<D: Disk>(disk: &D) -> u64 {
    disk.calls()
}

#[test]
fn stop_leaves_what_was_flushed(rt: HostRuntime) -> Result<(), Fail> {
    let mut disk = MemoryDisk::new(rt.alloc(), &SIZES, &[])?;
    assert_eq!(rt; run_on(rt.alloc(), &mut disk), Some(Ok((0, 0))));
    let mut ring = ring_on(rt.alloc(), &mut disk).ok_or("no ring")?;
    assert!(rt; fill(&mut ring, &mut disk));
    assert_eq!(rt; calls(&disk), 57);
    assert_eq!(rt; first_other(rt.alloc(), &disk), None);
    Ok(())
}

/// Where the pages of these positions stand, what is free, and the use that is in the way.
fn told(ring: &LogRing) -> ([Option<(u8, u32)>; 3], u32, u64) {
    (
        [ring.page_of(4), ring.page_of(5), ring.page_of(13)],
        ring.free_pages(),
        ring.blocker(),
    )
}

#[test]
fn ring_knows_its_pages(rt: HostRuntime) -> Result<(), Fail> {
    let mut disk = MemoryDisk::new(rt.alloc(), &SIZES, &[])?;
    let mut ring = ring_on(rt.alloc(), &mut disk).ok_or("no ring")?;
    assert!(rt; fill(&mut ring, &mut disk));
    // page 4 was closed as file 0 was taken over; three pages of that are left, and use 2 is not backed up
    assert_eq!(rt; told(&ring), ([None, Some((0, 32)), Some((0, 28))], 3, 2));
    assert!(rt; switch(&mut ring));
    assert_eq!(rt; told(&ring), ([None, Some((0, 32)), Some((0, 28))], 0, 2));
    // a ring over what a scan finds begins again with the position and the use that it is told
    let again = ring_on(rt.alloc(), &mut disk).ok_or("no ring again")?;
    assert_eq!(rt; told(&again), ([None, Some((0, 32)), Some((0, 28))], 3, 2));
    Ok(())
}

#[test]
fn position_that_stands_twice_is_refused(rt: HostRuntime) -> Result<(), Fail> {
    let mut disk = MemoryDisk::new(rt.alloc(), &SIZES, &[])?;
    let mut ring = ring_on(rt.alloc(), &mut disk).ok_or("no ring")?;
    assert!(rt; put(&mut ring, &mut disk, 8));
    // it begins with position 1 again, in the file behind
    let mut other = ring_on(rt.alloc(), &mut disk).ok_or("no other ring")?;
    assert!(rt; put(&mut other, &mut disk, 1));
    assert_eq!(rt; run_on(rt.alloc(), &mut disk), Some(Err(36)));
    Ok(())
}
