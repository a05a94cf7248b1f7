//! The devices in memory, and the writer over a drive.

ghost use Rattle.std.specs.Prelude.{◌≡◌, ◌<◌};

use ol_outside::{
    BLOCK_LENGTH, Drive, MemoryDrive, MemorySink, MemorySource, Mounted, Sink, Source, Volumes,
    Wrote,
};
use ol_volume::{TapeEnd, Writer};
use std::process::Abort;
use std::test::Fail;

/// Whether a read gives so many bytes, or fails where that is None, and the source has so many faults then.
fn reads<S: Source>(source: &mut S, buffer: &mut [u8], count: Option<usize>, faults: u64) -> bool {
    source.read(buffer).ok() == count && source.faults() == faults
}

/// Whether a source of `abcdef` gives 4 bytes at most, and the second of its reads fails.
fn gives_pieces<S: Source>(source: &mut S) -> bool {
    let mut buffer = [b'.'; 5];
    if !reads(source, &mut buffer, Some(4), 0) || buffer != *b"abcd." {
        return false;
    }
    // no byte is lost by a read that fails
    if !reads(source, &mut buffer, None, 1) || !reads(source, &mut buffer[..1], Some(1), 1) {
        return false;
    }
    reads(source, &mut buffer, Some(1), 1)
        && buffer == *b"fbcd."
        && reads(source, &mut buffer, Some(0), 1)
}

#[test]
fn source_gives_pieces_and_fails_where_it_is_told(rt: HostRuntime) -> Result<(), Fail> {
    let mut source = MemorySource::new(rt.alloc(), b"abcdef", 4, &[2, 9])?;
    assert!(rt; gives_pieces(&mut source));
    Ok(())
}

/// Whether a write takes so many bytes, or fails where that is None.
fn takes<S: Sink>(sink: &mut S, bytes: &[u8], count: Option<usize>) -> bool {
    sink.write(bytes).ok() == count
}

/// Whether a sink takes each piece but the second, where it fails.
fn takes_all_but_one<S: Sink>(sink: &mut S) -> bool {
    takes(sink, b"abc", Some(3))
        && takes(sink, b"def", None)
        && takes(sink, b"gh", Some(2))
        && sink.faults() == 1
}

#[test]
fn sink_keeps_what_it_takes_and_fails_where_it_is_told(rt: HostRuntime) -> Result<(), Fail> {
    let mut sink = MemorySink::new(rt.alloc(), &[2])?;
    assert!(rt; takes_all_but_one(&mut sink));
    assert_eq!(rt; sink.bytes(), b"abcgh".as_slice());
    assert_eq!(rt; sink.starved(), 0);
    Ok(())
}

/// Mounts the next volume, which has this number.
fn mount<T: Drive>(rt: &impl Abort, drive: &mut T, number: u32)
    requires { (T.tape drive.old).room ≡ 0 }
    ensures { 0 < (T.tape drive.new).mounted }
{
    match drive.mount() {
        Mounted::Volume(found) => assert_eq!(rt; found, number),
        Mounted::NoMore | Mounted::Failed => panic!(rt; "a volume was not mounted"),
    }
}

/// Mounts the next volume in vain, as it fails.
fn mount_in_vain<T: Drive>(rt: &impl Abort, drive: &mut T)
    requires { (T.tape drive.old).room ≡ 0 }
    ensures { (T.tape drive.new).room ≡ 0 }
{
    match drive.mount() {
        Mounted::Failed => {}
        Mounted::Volume(_) | Mounted::NoMore => panic!(rt; "a mount does not fail"),
    }
}

/// Whether no volume is left to mount.
fn has_no_more<T: Drive>(drive: &mut T) -> bool
    requires { (T.tape drive.old).room ≡ 0 }
{
    drive.mount() == Mounted::NoMore
}

/// Writes a block of this byte.
fn put<T: Drive>(rt: &impl Abort, drive: &mut T, byte: u8)
    requires { 0 < (T.tape drive.old).mounted }
    ensures { 0 < (T.tape drive.new).mounted }
{
    match drive.write(&[byte; BLOCK_LENGTH]) {
        Wrote::Done => {}
        Wrote::EndOfVolume | Wrote::Failed => panic!(rt; "a block was not written"),
    }
}

/// Writes a block, for which the answer is not `Done` but this one.
fn put_in_vain<T: Drive>(rt: &impl Abort, drive: &mut T, answer: Wrote)
    requires { 0 < (T.tape drive.old).mounted }
    ensures mounted { 0 < (T.tape drive.new).mounted }
    ensures full { (T.tape drive.new).room ≡ 0 }
{
    match drive.write(&[9; BLOCK_LENGTH]) {
        Wrote::Done => panic!(rt; "a block too many was written"),
        Wrote::EndOfVolume => assert_eq!(rt; Wrote::EndOfVolume, answer),
        Wrote::Failed => assert_eq!(rt; Wrote::Failed, answer),
    }
}

/// Makes the blocks durable in vain, as that fails.
fn sync_in_vain<T: Drive>(rt: &impl Abort, drive: &mut T)
    ensures { (T.tape drive.new).room ≡ 0 }
{
    if drive.sync().is_ok() {
        panic!(rt; "a sync does not fail");
    }
}

/// Fills the next volume, of one block.
fn fill_next<T: Drive>(rt: &impl Abort, drive: &mut T, number: u8)
    requires { (T.tape drive.old).room ≡ 0 }
    ensures { (T.tape drive.new).room ≡ 0 }
{
    mount(rt, drive, u32::from(number));
    put(rt, drive, number);
    put_in_vain(rt, drive, Wrote::EndOfVolume);
}

/// Whether a drive has so many volumes left to mount, and so many faults.
fn has_left<T: Drive>(drive: &T, volumes: u32, faults: u64) -> bool {
    drive.volumes_left() == volumes && drive.faults() == faults
}

/// Whether all blocks of a drive can be made durable.
fn syncs<T: Drive>(drive: &mut T) -> bool {
    drive.sync().is_ok()
}

/// Fills both volumes of a drive, of one block each.
fn fill<T: Drive>(rt: &impl Abort, drive: &mut T)
    requires { (T.tape drive.old).room ≡ 0 }
{
    assert!(rt; has_left(drive, 2, 0));
    fill_next(rt, drive, 1);
    fill_next(rt, drive, 2);
    assert!(rt; has_no_more(drive));
    assert!(rt; syncs(drive));
    assert!(rt; has_left(drive, 0, 0));
}

/// Fills a drive whose first mount, first write and first sync fail. A write to a full volume is no call that counts.
fn fail<T: Drive>(rt: &impl Abort, drive: &mut T)
    requires { (T.tape drive.old).room ≡ 0 }
{
    mount_in_vain(rt, drive);
    assert!(rt; has_left(drive, 3, 1));
    mount(rt, drive, 1);
    put_in_vain(rt, drive, Wrote::Failed);
    put_in_vain(rt, drive, Wrote::EndOfVolume);
    mount(rt, drive, 2);
    put(rt, drive, 1);
    sync_in_vain(rt, drive);
    assert!(rt; has_left(drive, 1, 3));
    // the volume takes no more, so the next one may be mounted
    mount(rt, drive, 3);
}

/// Whether there are these volumes, each of which has a block of each of its bytes.
fn are_volumes(volumes: &Volumes, wanted: &[&[u8]]) -> bool {
    for (volume, bytes) in wanted.iter().enumerate() {
        if !has_blocks(volumes, volume, bytes) {
            return false;
        }
    }
    volumes.len() == wanted.len() && volumes.is_empty() == wanted.is_empty()
}

/// Whether a volume has a block of each of these bytes, and no other.
fn has_blocks(volumes: &Volumes, volume: usize, bytes: &[u8]) -> bool {
    if volume >= volumes.len() {
        return false;
    }
    let blocks = volumes.blocks(volume);
    blocks.len() == bytes.len()
        && blocks
            .iter()
            .zip(bytes)
            .all(|(block, byte)| *block == [*byte; BLOCK_LENGTH])
}

#[test]
fn drive_fills_its_volumes_to_the_last(rt: HostRuntime) -> Result<(), Fail> {
    let mut drive = MemoryDrive::new(rt.alloc(), 1, 2, &[])?;
    fill(&rt, &mut drive);
    assert_eq!(rt; drive.starved(), 0);
    let volumes = drive.take();
    assert!(rt; are_volumes(&volumes, &[b"\x01", b"\x02"]));
    Ok(())
}

#[test]
fn drive_fails_where_it_is_told(rt: HostRuntime) -> Result<(), Fail> {
    let mut drive = MemoryDrive::new(rt.alloc(), 5, 4, &[1, 3, 6])?;
    fail(&rt, &mut drive);
    assert_eq!(rt; drive.starved(), 0);
    let volumes = drive.take();
    assert!(rt; are_volumes(&volumes, &[b"", b"\x01", b""]));
    Ok(())
}

/// Whether a block of this byte is put, or refused for this.
fn puts<T: Drive>(writer: &mut Writer<T>, byte: u8, end: Option<TapeEnd>) -> bool {
    writer.put(&[byte; BLOCK_LENGTH]).err() == end
}

/// Whether four blocks go to two volumes of two blocks each, and a fifth does not.
fn goes_on<T: Drive>(writer: &mut Writer<T>) -> bool {
    for byte in 1..=4 {
        if !puts(writer, byte, None) {
            return false;
        }
    }
    writer.finish().is_ok()
        && puts(writer, 5, Some(TapeEnd::OutOfTape { drive: 3 }))
        && writer.drive().volumes_left() == 0
}

#[test]
fn writer_goes_on_to_the_next_volume(rt: HostRuntime) -> Result<(), Fail> {
    let drive = MemoryDrive::new(rt.alloc(), 2, 2, &[])?;
    let mut writer = Writer::new(drive, 3);
    assert!(rt; goes_on(&mut writer));
    let volumes = writer.into_drive().take();
    assert!(rt; are_volumes(&volumes, &[b"\x01\x02", b"\x03\x04"]));
    Ok(())
}

/// The end by a fault of the drive, which shows this count then.
fn fault(count: u64) -> Option<TapeEnd> {
    Some(TapeEnd::TapeFault { drive: 3, count })
}

/// Whether the first mount, the first write and the first sync of a writer's drive fail, each with its count.
fn tells_faults<T: Drive>(writer: &mut Writer<T>) -> bool {
    puts(writer, 1, fault(1))
        && puts(writer, 1, fault(2))
        && puts(writer, 1, None)
        && writer.finish().err() == fault(3)
        && puts(writer, 1, None)
        && writer.drive().faults() == 3
}

#[test]
fn writer_tells_a_fault_with_its_count(rt: HostRuntime) -> Result<(), Fail> {
    let drive = MemoryDrive::new(rt.alloc(), 2, 4, &[1, 3, 6])?;
    let mut writer = Writer::new(drive, 3);
    assert!(rt; tells_faults(&mut writer));
    Ok(())
}
