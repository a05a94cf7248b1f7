//! The pair of pages that holds the anchor.

use crate::disks::{calls, stopped};
use ol_outside::{Choice, Disk, MemoryDisk, PAGE_LENGTH};
use ol_reserve::{Anchor, ConfigText, Pair, ReserveFault};
use std::test::Fail;

/// Two spaces of one chunk each, all areas in the first.
const SMALL_CONFIG: &[u8] =
    b"space root 100\nspace data1 8\nphyslog root 8\nlogs root 3 20\nbefore 2\n";

/// An anchor of the small configuration, whose second space is down.
fn sample(text: ConfigText) -> Anchor {
    let mut anchor = Anchor {
        state: 1,
        serial: 1,
        incarnation: 0x0112_1314_1516_1718,
        position: 0x2122_2324_2526_2728,
        generation: 0x0132_3334_3536_3738,
        next_archive: 0x0142_4344_4546_4748,
        backed: 0x0152_5354_5556_5758,
        uniq: 0x1000_0000_0000_0000,
        need: 0x0172_7374_7576_7778,
        states: [1, 2, 0, 0, 0, 0, 0, 0, 0, 0, 0, 0, 0, 0, 0, 0],
        down_at: [0; 16],
        zero: [(0, 0); 16],
        one: [(0, 0); 16],
        text,
    };
    anchor.down_at[1] = 0x0182_8384_8586_8788;
    anchor.zero[0] = (0x0192_9394_9596_9798, 0x01a2_a3a4_a5a6_a7a8);
    anchor.one[0] = (0x01b2_b3b4_b5b6_b7b8, 0x01c2_c3c4_c5c6_c7c8);
    anchor.zero[15] = (7, 8);
    anchor.one[15] = (9, 10);
    anchor
}

/// Writes an anchor with another serial, and tells whether that went well.
fn is_written<D: Disk>(disk: &mut D, anchor: &mut Anchor, serial: u64) -> bool {
    anchor.serial = serial;
    disk.size(0) >= 2 && Pair::write(disk, anchor).is_ok()
}

/// Whether a page holds the anchor with this serial, byte for byte.
fn is_anchor(page: &[u8; PAGE_LENGTH], anchor: &mut Anchor, serial: u64) -> bool {
    let mut wanted = [0xff; PAGE_LENGTH];
    anchor.serial = serial;
    anchor.encode(&mut wanted);
    *page == wanted
}

/// Whether the newest anchor of a disk is this one with this serial. Serial 0 is none.
fn is_newest<D: Disk>(disk: &mut D, anchor: &mut Anchor, serial: u64) -> bool {
    let mut page = [0; PAGE_LENGTH];
    match Pair::newest(disk, &mut page) {
        Ok(()) => is_anchor(&page, anchor, serial),
        Err(ReserveFault::Blank) => serial == 0,
        Err(_) => false,
    }
}

/// Whether a stop, behind the last call at moment 0, leaves the anchor with this serial.
fn leaves(
    disk: &MemoryDisk,
    moment: u64,
    choice: Choice,
    anchor: &mut Anchor,
    serial: u64,
) -> bool {
    match stopped(disk, moment, choice) {
        Some(mut left) => is_newest(&mut left, anchor, serial),
        None => false,
    }
}

const CHOICES: [Choice; 5] = [
    Choice::Old,
    Choice::New,
    Choice::Fill(0),
    Choice::Fill(1),
    Choice::Fill(0xff),
];

/// Whether each stop within the calls behind the first `before` leaves the anchor with this serial or the one before,
/// and a stop behind the last call this one.
fn leave_either(
    disk: &MemoryDisk,
    before: u64,
    choice: Choice,
    anchor: &mut Anchor,
    serial: u64,
) -> bool {
    for moment in before..calls(disk) {
        let moment = moment.saturating_add(1);
        if !leaves(disk, moment, choice, anchor, serial)
            && !leaves(disk, moment, choice, anchor, serial.saturating_sub(1))
        {
            return false;
        }
    }
    before < calls(disk) && leaves(disk, 0, choice, anchor, serial)
}

/// Whether an anchor with this serial is written, and each stop leaves what it may.
fn is_kept(disk: &mut MemoryDisk, anchor: &mut Anchor, serial: u64) -> bool {
    let before = calls(disk);
    if !is_written(disk, anchor, serial) {
        return false;
    }
    for choice in CHOICES {
        if !leave_either(disk, before, choice, anchor, serial) {
            return false;
        }
    }
    is_newest(disk, anchor, serial)
}

#[test]
fn stop_within_a_write_leaves_the_old_or_the_new_anchor(rt: HostRuntime) -> Result<(), Fail> {
    let text = ConfigText::new(SMALL_CONFIG).ok_or("no text")?;
    let mut disk = MemoryDisk::new(rt.alloc(), &[2, 8], &[])?;
    let mut anchor = sample(text);
    assert!(rt; is_newest(&mut disk, &mut anchor, 0));
    // the third and the fourth go over the first and the second
    for serial in 1..=4 {
        assert!(rt; is_kept(&mut disk, &mut anchor, serial), "anchor {serial}");
    }
    Ok(())
}
