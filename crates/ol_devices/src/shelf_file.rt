//! A shelf of volume files.

ghost use Rattle.std.specs.Prelude.{◌≡◌, ◌<◌, [], IfOk, IfSome, None, false, is_err, length, string_bytes, true};
ghost use Rattle.std.proofs.Common.{get_or};
ghost use Rattle.ol_ports.specs.Causes.{HasCause};
ghost use Rattle.ol_ports.specs.Shelf.{HasBlock, HasVolume, block_count, volume_count};
ghost use Rattle.ol_devices.specs.Files.{count_after, block_counts};

use crate::device_file::DeviceFile;
use crate::fault::fault;
use crate::paths::volume_path;
use crate::tape_file::{BLOCK_BYTES, volumes_there};
use ol_ports::{BLOCK_LENGTH, DRIVES, Failed, NoMemory, Shelf};
use std::io;

/// A shelf of the volumes that are files of a folder, which tells nothing of its blocks.
#[derive(Drop)]
pub struct FileShelf {
    rt: HostRuntime,
    // The folder that has the folder `tape`.
    dir: String,
    // Of each drive the number of blocks of each volume.
    drives: Vec<Vec<u32>>,
    // Of each drive whether its volumes could not be counted.
    uncounted: [bool; DRIVES as usize],
    failed_calls: u64,
}

impl FileShelf {
    /// The shelf of the files `tape/D/1`, `tape/D/2`, .. of a folder, for the drives D from 0 to 4. Of each
    /// drive it has the volumes that are there without a gap, each of the whole blocks of its file. They are
    /// counted once, here. Where one of a drive can't be examined, and it is not that it isn't there, each call that asks
    /// for their number fails.
    ///
    /// `NoMemory` where memory for a path or for the counts is refused.
    pub fn open(rt: &HostRuntime, dir: &str) -> Result<FileShelf, NoMemory>
        ensures calm { IfOk result (λ shelf. shelf.failed_calls ≡ 0) }
        ensures drives { IfOk result (λ shelf. length shelf.drives.items ≡ 5) }
        ensures place { IfOk result (λ shelf. string_bytes shelf.dir ≡ dir.now) }
    {
        let mut drives = Vec::new(rt.alloc());
        let mut uncounted = [false; DRIVES as usize];
        for drive in 0..DRIVES {
            let there = volumes_there(rt, dir, drive)?;
            uncounted[drive as usize] = !there.is_counted;
            drives.push(there.blocks)?;
        }
        Ok(FileShelf {
            rt: *rt,
            dir: String::from_str(rt.alloc(), dir)?,
            drives,
            uncounted,
            failed_calls: 0,
        })
    }
}

impl Shelf for FileShelf {
    ghost use Rattle.std.specs.Prelude.{[]};

    ghost tells = { ⊥ };

    ghost shape = { λ s. block_counts s.drives.items };

    ghost tapes = { λ _. [] };

    ghost fault_count = { λ s. s.failed_calls };

    ghost shaped = { λ s told. absurd told };

    /// The number of volumes of a drive.
    ///
    /// `Failed` where they could not be counted, or a `u32` doesn't count them.
    fn volumes(&mut self, drive: u8) -> Result<u32, Failed>
        requires { drive < 5 }
        ensures count { IfOk result (λ n. n ≡ volume_count (block_counts self.old.drives.items) drive) }
        ensures shape { block_counts self.new.drives.items ≡ block_counts self.old.drives.items }
        ensures cause { HasCause self.old.failed_calls self.new.failed_calls result }

        ensures counted { self.new.failed_calls ≡ count_after (is_err result) self.old.failed_calls }
        ensures uncounted { get_or self.old.uncounted drive false ≡ true → is_err result ≡ true }
    {
        match count_of(
            volumes_of(&self.drives, drive),
            self.uncounted[drive as usize],
        ) {
            Some(count) => Ok(count),
            None => Err(fault(&mut self.failed_calls)),
        }
    }

    /// The number of blocks of a volume.
    fn blocks(&mut self, drive: u8, volume: u32) -> Result<u32, Failed>
        requires drive { drive < 5 }
        requires volume { HasVolume (block_counts self.old.drives.items) drive volume }
        ensures count { IfOk result (λ n. n ≡ block_count (block_counts self.old.drives.items) drive volume) }
        ensures shape { block_counts self.new.drives.items ≡ block_counts self.old.drives.items }
        ensures cause { HasCause self.old.failed_calls self.new.failed_calls result }

        ensures counted { self.new.failed_calls ≡ self.old.failed_calls }
    {
        Ok(volumes_of(&self.drives, drive)[volume as usize - 1])
    }

    /// Reads a block into `buf`.
    ///
    /// `Failed` where the file can't be read or ends before the block does, or where memory for its path
    /// is refused.
    fn read(
        &mut self,
        drive: u8,
        volume: u32,
        block: u32,
        buf: &mut [u8; BLOCK_LENGTH],
    ) -> Result<(), Failed>
        requires drive { drive < 5 }
        requires block { HasBlock (block_counts self.old.drives.items) drive volume block }
        ensures shape { block_counts self.new.drives.items ≡ block_counts self.old.drives.items }
        ensures cause { HasCause self.old.failed_calls self.new.failed_calls result }

        ensures counted { self.new.failed_calls ≡ count_after (is_err result) self.old.failed_calls }
    {
        match read_block(&self.rt, &self.dir, drive, volume, block, buf) {
            Ok(()) => Ok(()),
            Err(_) => Err(fault(&mut self.failed_calls)),
        }
    }

    /// The count of faults, which stands still at the greatest `u64`.
    fn faults(&self) -> u64 {
        self.failed_calls
    }
}

// The number of volumes; None where they could not be counted, or a `u32` doesn't count them.
fn count_of(volumes: &[u32], uncounted: bool) -> Option<u32>
    ensures count { IfSome result (λ count. count ≡ length volumes.now) }
    ensures uncounted { uncounted ≡ true → result ≡ None }
{
    if uncounted {
        return None;
    }
    u32::try_from(volumes.len()).ok()
}

// The numbers of blocks of the volumes of a drive.
fn volumes_of(drives: &[Vec<u32>], drive: u8) -> &[u32]
    ensures { result.now ≡ get_or (block_counts drives.now) drive [] }
{
    match drives.get(drive as usize) {
        Some(volumes) => volumes.as_slice(),
        None => &[],
    }
}

fn read_block(
    rt: &HostRuntime,
    dir: &str,
    drive: u8,
    volume: u32,
    block: u32,
    buf: &mut [u8; BLOCK_LENGTH],
) -> io::Result<()> {
    let path = volume_path(rt, dir, drive, volume)?;
    let file = DeviceFile::open_to_read(rt, &path)?;
    file.read(&mut buf[..], u64::from(block) * BLOCK_BYTES)
}
