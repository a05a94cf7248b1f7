//! Stops within each call of the disk: an opening has all pages as at the last checkpoint.

use crate::rig::{At, Rig, SIZES, Step};
use crate::shown::{Shown, shows};
use ol_outside::{Choice, Disk, MemoryDisk};
use std::alloc::Global;
use std::test::Fail;

/// Two slots of page 0 of data1, and one of root's page 0.
const FIRST: At = (1, 0, 0);

const SECOND: At = (1, 0, 1);

const ROOTS: At = (0, 0, 0);

const ANN: Shown = Shown((1, 0), b"\0\0\0\0\0\0\0\x02", b"\x04ann", b"");

const ANN_BOB: Shown = Shown((1, 0), b"\0\0\0\0\0\0\0\x03", b"\x04ann", b"\x04bob");

const EVE_BOB: Shown = Shown((1, 0), b"\0\0\0\0\0\0\x02\0", b"\x04eve", b"\x04bob");

const CY: Shown = Shown((0, 0), b"\0\0\0\0\0\0\x01\x05", b"\x03cy", b"");

const ALL: &[Choice] = &[
    Choice::Old,
    Choice::New,
    Choice::Fill(0),
    Choice::Fill(1),
    Choice::Fill(0xff),
];

const OLD: &[Choice] = &[Choice::Old];

const NEW: &[Choice] = &[Choice::New];

/// For this generation no entry counts, so that an opening has what stands at the places.
const PLACES: u64 = 9;

/// The first and the last moment of some stops, where one above the last call is behind it, the choices, and the pages that
/// are not blank where a disk is opened for the generation.
type Span = (u64, u64, &'static [Choice], u64, &'static [Shown]);

/// Image, head, sync, gate, sync, page.
const CLEAN: &[Step] = &[Step::Change(FIRST, Some(b"ann"), 2), Step::Clean];

const CLEAN_SPANS: &[Span] = &[
    (1, 7, ALL, 1, &[]),
    (1, 6, OLD, PLACES, &[]),
    (6, 7, NEW, PLACES, &[ANN]),
];

/// The second change has the entry of the first. Calls 1 to 4 are image and head of two entries, 5 to 8 sync, two gates and sync,
/// 9 and 10 the pages, 11 and 12 the syncs of both chunks, 13 to 15 two gates and sync. Then come the six of one page.
const CHECKPOINT: &[Step] = &[
    Step::Change(FIRST, Some(b"ann"), 2),
    Step::Change(SECOND, Some(b"bob"), 3),
    Step::Change(ROOTS, Some(b"cy"), 0x105),
    Step::Checkpoint,
    Step::Change(FIRST, Some(b"eve"), 0x200),
    Step::Clean,
];

const CHECKPOINT_SPANS: &[Span] = &[
    (1, 12, ALL, 1, &[]),
    // behind the last sync, where no gate is closed yet
    (13, 13, OLD, 1, &[]),
    (13, 22, ALL, 2, &[ANN_BOB, CY]),
    (9, 9, OLD, PLACES, &[]),
    (10, 10, NEW, PLACES, &[ANN_BOB, CY]),
    (12, 12, OLD, PLACES, &[CY]),
    (21, 22, NEW, PLACES, &[EVE_BOB, CY]),
];

/// Where the first gate still stands open: it is closed, then comes a sync, and then the six calls.
const AGAIN: &[Step] = &[Step::Change(FIRST, Some(b"eve"), 0x200), Step::Clean];

const AGAIN_SPANS: &[Span] = &[
    (1, 9, ALL, 2, &[ANN_BOB, CY]),
    (8, 9, NEW, PLACES, &[EVE_BOB, CY]),
];

/// The disk that a stop within a call leaves, or one behind the last call, for a greater moment.
fn stopped(disk: &MemoryDisk, moment: u64, choice: Choice) -> Option<MemoryDisk> {
    if moment > disk.calls() || moment == u64::MAX {
        return disk.rest(choice).ok();
    }
    disk.left(moment, choice).ok()
}

/// Whether a stop leaves the pages of a span.
fn leaves(alloc: Global, disk: &MemoryDisk, moment: u64, choice: Choice, span: &Span) -> bool {
    match stopped(disk, moment, choice) {
        Some(mut left) => shows(alloc, &mut left, span.3, span.4),
        None => false,
    }
}

/// Whether each stop of a span leaves its pages.
fn all_leave(alloc: Global, disk: &MemoryDisk, span: &Span) -> bool {
    (span.0..=span.1).all(|moment| {
        span.2
            .iter()
            .all(|choice| leaves(alloc, disk, moment, *choice, span))
    })
}

/// Plays steps over a disk that is opened for a generation, and tells the calls that changed the disk, and the first of the spans,
/// from 0, with a stop that leaves other pages.
fn play(
    alloc: Global,
    disk: &mut MemoryDisk,
    generation: u64,
    steps: &[Step],
    spans: &[Span],
) -> Option<(u64, Option<usize>)> {
    Rig::new(alloc, disk, generation, 0x105)?.play(disk, steps)?;
    let other = spans.iter().position(|span| !all_leave(alloc, disk, span));
    Some((disk.calls(), other))
}

#[test]
fn stop_leaves_the_last_checkpoint(rt: HostRuntime) -> Result<(), Fail> {
    let mut disk = MemoryDisk::new(rt.alloc(), &SIZES, &[])?;
    assert_eq!(rt;
        play(rt.alloc(), &mut disk, 1, CLEAN, CLEAN_SPANS),
        Some((6, None))
    );
    let mut disk = MemoryDisk::new(rt.alloc(), &SIZES, &[])?;
    let played = play(rt.alloc(), &mut disk, 1, CHECKPOINT, CHECKPOINT_SPANS);
    assert_eq!(rt; played, Some((21, None)));
    // no closed gate is durable yet
    let mut disk = stopped(&disk, 15, Choice::Old).ok_or("no disk")?;
    assert_eq!(rt;
        play(rt.alloc(), &mut disk, 2, AGAIN, AGAIN_SPANS),
        Some((8, None))
    );
    Ok(())
}
