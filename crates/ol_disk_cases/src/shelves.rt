//! The shelf in memory: it gives the blocks of its volumes, and fails where it is told.

ghost use Rattle.std.specs.Prelude.{◌≡◌, ◌<◌, IfOk, IsTrue, length};
ghost use Rattle.ol_ports.specs.Shelf.{HasBlock, volumes_at};

use ol_outside::{
    BLOCK_LENGTH, DRIVES, Drive, Failed, MemoryDrive, MemoryShelf, Mounted, Shelf, Volumes, Wrote,
};
use std::alloc::Global;
use std::process::Abort;
use std::test::Fail;

/// The drive whose volumes the cases read.
const DRIVE: u8 = 3;

/// Mounts the next volume.
fn mount<T: Drive>(rt: &impl Abort, drive: &mut T)
    requires { (T.tape drive.old).room ≡ 0 }
    ensures { 0 < (T.tape drive.new).mounted }
{
    match drive.mount() {
        Mounted::Volume(_) => {}
        Mounted::NoMore | Mounted::Failed => panic!(rt; "no volume was mounted"),
    }
}

/// Writes a block of this byte.
fn put<T: Drive>(rt: &impl Abort, drive: &mut T, byte: u8)
    requires { 0 < (T.tape drive.old).mounted }
    ensures { 0 < (T.tape drive.new).mounted }
{
    match drive.write(&[byte; BLOCK_LENGTH]) {
        Wrote::Done => {}
        Wrote::EndOfVolume | Wrote::Failed => panic!(rt; "a block was not written"),
    }
}

/// Writes a block in vain, as the volume is full.
fn put_in_vain<T: Drive>(rt: &impl Abort, drive: &mut T)
    requires { 0 < (T.tape drive.old).mounted }
    ensures { (T.tape drive.new).room ≡ 0 }
{
    match drive.write(&[9; BLOCK_LENGTH]) {
        Wrote::EndOfVolume => {}
        Wrote::Done | Wrote::Failed => panic!(rt; "the volume does not end"),
    }
}

/// Fills a volume with a block of ones and one of twos, and begins one with a block of threes.
fn fill<T: Drive>(rt: &impl Abort, drive: &mut T)
    requires { (T.tape drive.old).room ≡ 0 }
{
    mount(rt, drive);
    put(rt, drive, 1);
    put(rt, drive, 2);
    put_in_vain(rt, drive);
    mount(rt, drive);
    put(rt, drive, 3);
}

/// Two volumes: one with a block of ones and one of twos, one with a block of threes.
fn two_volumes(rt: &(impl Abort + AllocGlobal)) -> Result<Volumes, Fail> {
    let mut drive = MemoryDrive::new(rt.alloc(), 2, 2, &[])?;
    fill(rt, &mut drive);
    Ok(drive.take())
}

/// A shelf without a volume.
fn empty(alloc: Global, failing: &[u64]) -> Result<MemoryShelf, Fail>
    ensures { IfOk result (λ shelf. length (volumes_at shelf.tapes 3) ≡ 0) }
{
    Ok(MemoryShelf::new(alloc, failing)?)
}

/// Puts volumes on a shelf that has none.
fn add(shelf: &mut MemoryShelf, volumes: Volumes) -> bool
    requires { length (volumes_at shelf.old.tapes 3) ≡ 0 }
{
    volumes.len() <= 2 && shelf.add(DRIVE, volumes).is_ok()
}

/// A shelf of two volumes.
fn shelved(rt: &(impl Abort + AllocGlobal), failing: &[u64]) -> Result<MemoryShelf, Fail> {
    let volumes = two_volumes(rt)?;
    let mut shelf = empty(rt.alloc(), failing)?;
    assert!(rt; add(&mut shelf, volumes));
    Ok(shelf)
}

/// Whether a drive has so many volumes.
fn counts<F: Shelf>(shelf: &mut F, drive: u8, volumes: u32) -> bool {
    if drive >= DRIVES {
        return false;
    }
    match shelf.volumes(drive) {
        Ok(count) => count == volumes,
        Err(_) => false,
    }
}

/// Whether a block is there, by a call for the volumes and one for the blocks.
fn has_block<F: Shelf>(shelf: &mut F, volume: u32, block: u32) -> Result<bool, Failed>
    ensures { IfOk result (λ there. IsTrue there → HasBlock (F.shape shelf.new) 3 volume block) }
{
    let volumes = shelf.volumes(DRIVE)?;
    if volume == 0 || volume > volumes {
        return Ok(false);
    }
    let blocks = shelf.blocks(DRIVE, volume)?;
    Ok(block < blocks)
}

/// Reads a block, by three calls. The bytes stay where it is not there.
fn read<F: Shelf>(
    shelf: &mut F,
    volume: u32,
    block: u32,
    bytes: &mut [u8; BLOCK_LENGTH],
) -> Result<(), Failed> {
    if !has_block(shelf, volume, block)? {
        return Ok(());
    }
    shelf.read(DRIVE, volume, block, bytes)
}

/// Whether a block is read, and holds this byte alone, but for the last one, which is given too.
fn holds<F: Shelf>(shelf: &mut F, volume: u32, block: u32, byte: u8, last: u8) -> bool {
    let mut wanted = [byte; BLOCK_LENGTH];
    wanted[BLOCK_LENGTH - 1] = last;
    let mut bytes = [0x33; BLOCK_LENGTH];
    read(shelf, volume, block, &mut bytes).is_ok() && bytes == wanted
}

/// Whether a block can't be read, and the shelf has so many faults then.
fn fails<F: Shelf>(shelf: &mut F, faults: u64) -> bool {
    let mut bytes = [0; BLOCK_LENGTH];
    read(shelf, 1, 0, &mut bytes).is_err() && shelf.faults() == faults
}

/// The faults of a shelf.
fn faults<F: Shelf>(shelf: &F) -> u64 {
    shelf.faults()
}

/// Turns a byte of a block, where it is there.
fn turn(shelf: &mut MemoryShelf, volume: u32, block: u32, byte: u16) -> bool {
    match has_block(shelf, volume, block) {
        Ok(true) if byte < 2144 => {
            shelf.flip(DRIVE, volume, block, byte);
            true
        }
        _ => false,
    }
}

#[test]
fn shelf_gives_the_blocks_of_its_volumes(rt: HostRuntime) -> Result<(), Fail> {
    let mut shelf = shelved(&rt, &[])?;
    for (drive, volumes) in [(0, 0), (3, 2), (4, 0)] {
        assert!(rt; counts(&mut shelf, drive, volumes), "at drive {drive}");
    }
    // the last two are not there
    for (volume, block, byte) in [(1, 0, 1), (1, 1, 2), (2, 0, 3), (1, 2, 0x33), (3, 0, 0x33)] {
        assert!(rt;
            holds(&mut shelf, volume, block, byte, byte),
            "at block {block} of volume {volume}"
        );
    }
    assert_eq!(rt; faults(&shelf), 0);
    assert!(rt; turn(&mut shelf, 1, 1, 2143));
    for (volume, block, byte, last) in [(1, 1, 2, 0xfd), (1, 0, 1, 1), (2, 0, 3, 3)] {
        assert!(rt;
            holds(&mut shelf, volume, block, byte, last),
            "at block {block} of volume {volume}, behind the turn"
        );
    }
    Ok(())
}

#[test]
fn shelf_fails_where_it_is_told(rt: HostRuntime) -> Result<(), Fail> {
    // three calls for a block: the count of volumes, that of blocks, and the reading
    let mut shelf = shelved(&rt, &[1, 3, 6])?;
    for faults in 1..=3 {
        assert!(rt; fails(&mut shelf, faults), "at fault {faults}");
    }
    assert!(rt; holds(&mut shelf, 1, 0, 1, 1));
    assert_eq!(rt; faults(&shelf), 3);
    Ok(())
}
