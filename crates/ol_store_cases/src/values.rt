//! What the calls of a store answer.

use crate::rig::{At, Rig, SIZES, Step, Taken};
use ol_cursor::Cursor;
use ol_outside::{Disk, MemoryDisk};
use ol_store::{Store, StoreFault};
use ol_values::Row;
use std::alloc::Global;
use std::test::Fail;

/// Two slots of page 5 of data1, one of its page 2, and one of root's page 0.
const ANN: At = (1, 5, 0);

const BOB: At = (1, 5, 30);

const DEE: At = (1, 2, 0);

const CY: At = (0, 0, 7);

const CHANGES: &[Step] = &[
    Step::Capture(ANN, Some(b"ann"), 2),
    Step::Capture(CY, Some(b"cy"), 3),
    Step::Change(DEE, Some(b"dee"), 4),
    Step::Change(BOB, Some(b""), 5),
];

/// Of page 5 of data1 and of root's page 0 whether they are touched and whether images are held; how many may still be touched,
/// and whether one more may be captured.
fn told(store: &Store) -> ([bool; 2], [bool; 2], u32, bool) {
    (
        [store.touched(1, 5), store.touched(0, 0)],
        [store.held(1, 5), store.held(0, 0)],
        store.spare(),
        store.can_capture(),
    )
}

#[test]
fn store_tells_what_was_changed(rt: HostRuntime) -> Result<(), Fail> {
    let mut disk = MemoryDisk::new(rt.alloc(), &SIZES, &[])?;
    let mut rig = Rig::new(rt.alloc(), &mut disk, 1, 0).ok_or("no store")?;
    assert_eq!(rt; rig.seen(&mut disk, ANN), Some((Ok(0), Ok(None))));
    assert_eq!(rt; told(&rig.store), ([false, false], [false, false], 8, true));
    let mut rig = rig.play(&mut disk, CHANGES).ok_or("no change")?;
    for (at, stamp, row) in [(ANN, 5, b"ann".as_slice()), (BOB, 5, b""), (CY, 3, b"cy")] {
        assert_eq!(rt;
            rig.seen(&mut disk, at),
            Some((Ok(stamp), Ok(Row::new(row))))
        );
    }
    assert_eq!(rt; told(&rig.store), ([true, true], [true, true], 5, false));
    let end = [Step::Change(ANN, None, 6), Step::Checkpoint];
    let mut rig = rig.play(&mut disk, &end).ok_or("no checkpoint")?;
    assert_eq!(rt; rig.seen(&mut disk, ANN), Some((Ok(6), Ok(None))));
    assert_eq!(rt; told(&rig.store), ([false, false], [true, true], 8, false));
    rig.store.drop_images(1);
    assert_eq!(rt; told(&rig.store), ([false, false], [false, true], 8, true));
    Ok(())
}

/// The pages that four calls clean.
fn clean_four<D: Disk>(rig: Rig, disk: &mut D) -> Option<[Option<(u8, u16)>; 4]> {
    let (rig, first) = rig.clean(disk)?;
    let (rig, second) = rig.clean(disk)?;
    let (rig, third) = rig.clean(disk)?;
    let (_, fourth) = rig.clean(disk)?;
    Some([first, second, third, fourth])
}

#[test]
fn longest_dirty_page_is_cleaned(rt: HostRuntime) -> Result<(), Fail> {
    let mut disk = MemoryDisk::new(rt.alloc(), &SIZES, &[])?;
    let rig = Rig::new(rt.alloc(), &mut disk, 1, 0).ok_or("no store")?;
    let rig = rig.play(&mut disk, CHANGES).ok_or("no change")?;
    let pages = [Some((1, 5)), Some((0, 0)), Some((1, 2)), None];
    assert_eq!(rt; clean_four(rig, &mut disk), Some(pages));
    Ok(())
}

/// Writes a stamp at the head and one at the end of a page.
fn stamp<D: Disk>(disk: &mut D, chunk: u8, page: u32, head: u64, end: u64) -> bool {
    page < disk.size(chunk)
        && disk.write_at(chunk, page, 0, &head.to_be_bytes()).is_ok()
        && disk.write_at(chunk, page, 2040, &end.to_be_bytes()).is_ok()
}

#[test]
fn page_that_is_not_read_is_refused(rt: HostRuntime) -> Result<(), Fail> {
    let torn = StoreFault::Bad { chunk: 1, page: 5 };
    let early = StoreFault::Bad { chunk: 0, page: 88 };
    // two writes of each page, and the heads of the physical log: the 13th call reads the first page
    let mut disk = MemoryDisk::new(rt.alloc(), &SIZES, &[13])?;
    assert!(rt; stamp(&mut disk, 1, 5, 5, 6) && stamp(&mut disk, 0, 88, 9, 9));
    let mut rig = Rig::new(rt.alloc(), &mut disk, 1, 8).ok_or("no store")?;
    assert_eq!(rt;
        rig.seen(&mut disk, ANN),
        Some((Err(StoreFault::Failed), Err(torn)))
    );
    assert_eq!(rt; rig.seen(&mut disk, CY), Some((Err(early), Err(early))));
    assert_eq!(rt; rig.seen(&mut disk, DEE), Some((Ok(0), Ok(None))));
    let mut rig = Rig::new(rt.alloc(), &mut disk, 1, 9).ok_or("no other store")?;
    assert_eq!(rt; rig.seen(&mut disk, CY), Some((Ok(9), Ok(None))));
    Ok(())
}

/// An archive at level 0 of both spaces, which has come to a place.
fn archive(cut: u64, next: (u8, u16), left: u32) -> Cursor {
    let mut spaces = [false; 16];
    spaces[0] = true;
    spaces[1] = true;
    Cursor {
        number: 1,
        level: 0,
        cut,
        low: 1,
        spaces,
        bases: [0; 16],
        next,
        left,
    }
}

/// Two pages before the cut at 3, and one of them changed behind it.
const ARCHIVED: &[Step] = &[
    Step::Change(ANN, Some(b"ann"), 2),
    Step::Change(CY, Some(b"cy"), 3),
    Step::Checkpoint,
    Step::Capture(ANN, Some(b"new"), 5),
    Step::Change(DEE, Some(b"dee"), 6),
    Step::Checkpoint,
];

/// What an archive takes next, of a store behind these changes.
fn next_image(alloc: Global, next: (u8, u16), left: u32) -> Option<(Taken, u64, bool)> {
    let mut disk = MemoryDisk::new(alloc, &SIZES, &[]).ok()?;
    let rig = Rig::new(alloc, &mut disk, 1, 0)?;
    let rig = rig.play(&mut disk, ARCHIVED)?;
    rig.next_image(&mut disk, &archive(3, next, left))
}

#[test]
fn archive_takes_pages_as_at_its_cut(rt: HostRuntime) -> Result<(), Fail> {
    // the page as it is, the captured one, which is dropped, and none behind it: page 2 of data1 came later
    assert_eq!(rt;
        next_image(rt.alloc(), (0, 0), 2),
        Some((Ok(Some((0, 0))), 3, false))
    );
    assert_eq!(rt;
        next_image(rt.alloc(), (0, 1), 1),
        Some((Ok(Some((1, 5))), 2, false))
    );
    let end = next_image(rt.alloc(), (1, 6), 1).ok_or("no store")?;
    assert_eq!(rt; end.0, Ok(None));
    let done = next_image(rt.alloc(), (0, 0), 0).ok_or("no store")?;
    assert_eq!(rt; done.0, Ok(None));
    Ok(())
}
