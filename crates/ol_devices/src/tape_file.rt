//! A tape drive whose volumes are files.

ghost use Rattle.std.specs.Prelude.{◌≡◌, ◌<◌, ◌≤◌, ◌/◌, ◌-◌, ◌^◌, None, false, is_err, length, min, replicate, string_bytes, true, IfOk};
ghost use Rattle.ol_ports.specs.Causes.{HasCause, Rose, risen};
ghost use Rattle.ol_ports.specs.Drive.{Mounts, Syncs, Writes, without_room};
ghost use Rattle.ol_ports.specs.declared.drive.Mounted.TheVariants.{Failed as MountFailed};
ghost use Rattle.ol_ports.specs.declared.drive.Wrote.TheVariants.{Failed as WriteFailed};
ghost use Rattle.ol_devices.specs.Files.{FileDriveState, IsSameDrive, count_after};

use crate::device_file::{DeviceFile, sync_folder};
use crate::fault::fault;
use crate::paths::{folder_path, tapes_path, volume_path};
use ol_ports::{BLOCK_LENGTH, Drive, Failed, Mounted, NoMemory, Wrote};
use std::io::ErrorKind;
use std::marker::Model;
use std::{fs, io};

/// The bytes of a block, as a distance in a file.
pub(crate) const BLOCK_BYTES: u64 = BLOCK_LENGTH as u64;

/// A drive whose volumes are the files `tape/D/1`, `tape/D/2`, .. of a folder, where D is its number. It
/// tells nothing of its blocks.
#[derive(Drop)]
pub struct FileDrive {
    rt: HostRuntime,
    // The folder that has the folder `tape`.
    dir: String,
    number: u8,
    // How many blocks a volume takes.
    blocks: u32,
    // How many volumes are left to mount.
    left: u32,
    // The number of the last volume that is there.
    last: u32,
    // How many blocks the mounted volume still takes.
    room: u32,
    // The mounted volume, and behind it those that were mounted since the last sync.
    volumes: Vec<DeviceFile>,
    // Whether the volumes that are there could not be counted.
    uncounted: bool,
    // Whether a sync has failed.
    lost: bool,
    failed_calls: u64,
}

impl Model for FileDrive {
    ghost use Rattle.std.specs.Prelude.{◌<◌, ◌≤◌, ◌+◌, ◌^◌, None, replicate, string_bytes};
    ghost use Rattle.ol_devices.specs.Files.{FileDriveState};

    ghost Value = { FileDriveState };

    ghost view = { λ d. record {
      tape = record {
        mounted = d.last;
        room = d.room;
        rooms = replicate d.left d.blocks;
        volumes = None;
        synced = 0;
      };
      dir = string_bytes d.dir;
      number = d.number;
      uncounted = d.uncounted;
      lost = d.lost;
      count = d.failed_calls;
    } };

    // The numbers of volumes stay within their type.
    ghost invariant = { λ d. (d.last + d.left < 2 ^ 32) × (d.room ≤ d.blocks) };
}

impl FileDrive {
    /// The drive of this number in the folder `dir`. It mounts `volumes` further volumes of `blocks`
    /// blocks each, numbered after those that are there without a gap, as far as a `u32` numbers them.
    /// Nothing is made before a volume is mounted. Where one can't be examined, and it is not that it isn't there, they
    /// can't be counted, and each mount fails.
    ///
    /// `NoMemory` where memory for a path is refused.
    pub fn new(
        rt: &HostRuntime,
        dir: &str,
        number: u8,
        blocks: u32,
        volumes: u32,
    ) -> Result<FileDrive, NoMemory>
        ensures unmounted { IfOk result (λ drive. drive.tape.room ≡ 0) }
        ensures volumes { IfOk result (λ drive. drive.tape.rooms ≡ replicate (min volumes (2 ^ 32 - 1 - drive.tape.mounted)) blocks) }
        ensures untold { IfOk result (λ drive. drive.tape.volumes ≡ None) }
        ensures place { IfOk result (λ drive. (drive.dir ≡ dir.now) × (drive.number ≡ number)) }
        ensures calm { IfOk result (λ drive. drive.count ≡ 0) }
        ensures unlost { IfOk result (λ drive. drive.lost ≡ false) }
    {
        let there = volumes_there(rt, dir, number)?;
        let last = u32::try_from(there.blocks.len()).unwrap_or(u32::MAX);
        Ok(FileDrive {
            rt: *rt,
            dir: String::from_str(rt.alloc(), dir)?,
            number,
            blocks,
            left: volumes.min(u32::MAX - last),
            last,
            room: 0,
            volumes: Vec::new(rt.alloc()),
            uncounted: !there.is_counted,
            lost: false,
            failed_calls: 0,
        })
    }
}

impl Drive for FileDrive {
    ghost tape = { λ d. d.tape };

    ghost fault_count = { λ d. d.count };

    /// Mounts the next volume, and makes its file, which must not be there.
    ///
    /// `NoMore` where none is left. `Failed` where the volumes can't be counted, the folder or the file can't be made or
    /// memory is refused; the number then stays for the next mount.
    fn mount(&mut self) -> Mounted
        requires { self.old.tape.room ≡ 0 }
        ensures gives { Mounts self.old.tape result self.new.tape }
        ensures later { self.old.count ≤ self.new.count }
        ensures cause { result ≡ MountFailed → Rose self.old.count self.new.count }
        ensures kept { (result ≡ MountFailed → ⊥) → self.new.count ≡ self.old.count }

        ensures counted { result ≡ MountFailed → self.new.count ≡ risen self.old.count }
        ensures lost { self.new.lost ≡ self.old.lost }
        ensures place { IsSameDrive self.old self.new }
        ensures uncounted { self.old.uncounted ≡ true → 0 < length self.old.tape.rooms → result ≡ MountFailed }
    {
        if self.left == 0 {
            return Mounted::NoMore;
        }
        self.left -= 1;
        match make_volume(
            &self.rt,
            &self.dir,
            self.number,
            self.last + 1,
            self.uncounted,
            &mut self.volumes,
        ) {
            Ok(()) => {
                self.last += 1;
                self.room = self.blocks;
                Mounted::Volume(self.last)
            }
            Err(_) => {
                let Failed = fault(&mut self.failed_calls);
                Mounted::Failed
            }
        }
    }

    /// Appends a block to the volume that is mounted.
    ///
    /// `EndOfVolume` where no room is left, since the volume is full or a call failed. `Failed` where
    /// the file can't be written or takes only a part, which is cut off again if it can be.
    fn write(&mut self, block: &[u8; BLOCK_LENGTH]) -> Wrote
        requires { 0 < self.old.tape.mounted }
        ensures gives { Writes self.old.tape block.now result self.new.tape }
        ensures later { self.old.count ≤ self.new.count }
        ensures cause { result ≡ WriteFailed → Rose self.old.count self.new.count }
        ensures kept { (result ≡ WriteFailed → ⊥) → self.new.count ≡ self.old.count }

        ensures failed { result ≡ WriteFailed → self.new.tape ≡ without_room self.old.tape }
        ensures counted { result ≡ WriteFailed → self.new.count ≡ risen self.old.count }
        ensures lost { self.new.lost ≡ self.old.lost }
        ensures place { IsSameDrive self.old self.new }
    {
        if self.room == 0 {
            return Wrote::EndOfVolume;
        }
        match append(&self.volumes, self.blocks - self.room, block) {
            Ok(()) => {
                self.room -= 1;
                Wrote::Done
            }
            Err(_) => {
                let Failed = fault(&mut self.failed_calls);
                self.room = 0;
                Wrote::Failed
            }
        }
    }

    /// Makes all blocks so far durable, with the names of their volumes.
    ///
    /// `Failed` where a file can't be synced, now or at an earlier sync: the system may have let go of what
    /// it couldn't write, and wouldn't say so twice.
    fn sync(&mut self) -> Result<(), Failed>
        ensures gives { Syncs self.old.tape result self.new.tape }
        ensures cause { HasCause self.old.count self.new.count result }

        ensures counted { self.new.count ≡ count_after (is_err result) self.old.count }
        ensures lost { self.new.lost ≡ is_err result }
        ensures never_again { self.old.lost ≡ true → is_err result ≡ true }
        ensures place { IsSameDrive self.old self.new }
    {
        match sync_volumes(&self.rt, &self.dir, self.number, &self.volumes, self.lost) {
            Ok(()) => {
                // only the mounted volume may grow again
                self.volumes.truncate(1);
                Ok(())
            }
            Err(_) => {
                self.lost = true;
                self.room = 0;
                Err(fault(&mut self.failed_calls))
            }
        }
    }

    /// How many volumes are left to mount.
    fn volumes_left(&self) -> u32 {
        self.left
    }

    /// The count of faults, which stands still at the greatest `u64`.
    fn faults(&self) -> u64 {
        self.failed_calls
    }
}

/// The whole blocks of a file of so many bytes, as far as a `u32` counts.
fn whole_blocks(bytes: u64) -> u32
    ensures { result ≡ min (bytes / 2144) (2 ^ 32 - 1) }
{
    u32::try_from(bytes / BLOCK_BYTES).unwrap_or(u32::MAX)
}

/// The volumes of a drive that are there.
#[derive(Drop)]
pub(crate) struct Volumes {
    /// The whole blocks of each, from 1 on without a gap.
    pub(crate) blocks: Vec<u32>,
    /// Whether no other follows, and not that the next one can't be examined.
    pub(crate) is_counted: bool,
}

/// The volumes of a drive that are there without a gap from 1 on. What is there and is no file has no block.
pub(crate) fn volumes_there(rt: &HostRuntime, dir: &str, drive: u8) -> Result<Volumes, NoMemory> {
    let mut blocks = Vec::new(rt.alloc());
    for volume in 1..u32::MAX {
        let path = volume_path(rt, dir, drive, volume)?;
        match blocks_at(rt, &path) {
            Ok(count) => blocks.push(count)?,
            Err(error) => {
                let is_counted = error.kind() == ErrorKind::NotFound;
                return Ok(Volumes { blocks, is_counted });
            }
        }
    }
    Ok(Volumes {
        blocks,
        is_counted: true,
    })
}

// The whole blocks of the file at a path.
fn blocks_at(rt: &HostRuntime, path: &str) -> io::Result<u32> {
    let found = fs::metadata(rt, path)?;
    let bytes = if found.is_file() { found.len() } else { 0 };
    Ok(whole_blocks(bytes))
}

// Makes the file of a volume, in its folder, and puts it in front.
fn make_volume(
    rt: &HostRuntime,
    dir: &str,
    drive: u8,
    volume: u32,
    uncounted: bool,
    volumes: &mut Vec<DeviceFile>,
) -> io::Result<()>
    ensures { uncounted ≡ true → is_err result ≡ true }
{
    if uncounted {
        return Err(ErrorKind::Other.into());
    }
    let folder = folder_path(rt, dir, drive)?;
    let path = volume_path(rt, dir, drive, volume)?;
    volumes.try_reserve(1)?;
    fs::create_dir_all(rt, &folder)?;
    let file = DeviceFile::create_new(rt, &path)?;
    volumes.insert(0, file)?;
    Ok(())
}

// Writes a block behind so many others of the volume in front.
fn append(volumes: &[DeviceFile], count: u32, block: &[u8; BLOCK_LENGTH]) -> io::Result<()> {
    let Some(file) = volumes.first() else {
        return Err(ErrorKind::NotFound.into());
    };
    let at = u64::from(count) * BLOCK_BYTES;
    match file.write(block, at) {
        Ok(()) => Ok(()),
        Err(error) => {
            // a rest of a block is none, so the volume reads the same where this fails
            let _ = file.set_length(at);
            Err(error)
        }
    }
}

// Syncs the volumes and the folders that name them.
fn sync_volumes(
    rt: &HostRuntime,
    dir: &str,
    drive: u8,
    volumes: &[DeviceFile],
    lost: bool,
) -> io::Result<()>
    ensures { lost ≡ true → is_err result ≡ true }
{
    if lost {
        return Err(ErrorKind::Other.into());
    }
    if volumes.is_empty() {
        return Ok(());
    }
    for file in volumes {
        file.sync()?;
    }
    sync_folder(rt, &folder_path(rt, dir, drive)?)?;
    sync_folder(rt, &tapes_path(rt, dir)?)?;
    sync_folder(rt, dir)
}
