//! A tape drive in memory, which fails where it is told to, and the volumes that it leaves.

ghost use Rattle.std.specs.Prelude.{◌≡◌, ◌<◌, ◌≤◌, ◌+◌, ◌^◌, ◌↔◌, [], ◌∷◌, ◌++◌, length, Some, IsTrue, IfOk, OnOk, OnErr, is_err, slice_get};
ghost use Rattle.ol_ports.specs.Causes.{HasCause, Rose};
ghost use Rattle.ol_ports.specs.declared.drive.Mounted.TheVariants.{Failed as MountFailed};
ghost use Rattle.ol_ports.specs.declared.drive.Wrote.TheVariants.{Failed as WriteFailed};
ghost use Rattle.ol_ports.specs.Drive.{Mounts, Writes, Syncs, without_room, blocks_in_order, append_last};
ghost use Rattle.ol_outside.specs.Volumes.{fresh, BlocksFit, last_length};
ghost use Rattle.std.proofs.Common.{get_or};
ghost use Rattle.ol_outside.specs.Volumes.{flipped_in};
ghost use Rattle.ol_outside.specs.Faults.{no_calls, next_fails, after_call, faults_in_all};
ghost use Rattle.ol_outside.specs.Devices.{CountsMount, CountsWrite};

use crate::faults::Faults;
use crate::{BLOCK_LENGTH, Drive, Failed, Mounted, NoMemory, Wrote};
use std::alloc::Global;
use std::marker::Model;

/// The volumes that a drive mounted, in order. Contracts see a list of volumes, each the list of its
/// blocks.
#[derive(Debug, Drop)]
pub struct Volumes {
    volumes: Vec<Vec<[u8; BLOCK_LENGTH]>>,
}

impl Model for Volumes {
    ghost use Rattle.std.specs.Prelude.{ℕ, List, map};
    ghost use Rattle.ol_outside.specs.Volumes.{BlocksFit};

    ghost Value = { List (List (List ℕ)) };

    ghost view = { λ v. map (λ volume. volume.items) v.volumes.items };

    // The number of blocks of each volume is a `u32`.
    ghost invariant = { λ v. BlocksFit (map (λ volume. volume.items) v.volumes.items) };
}

impl Volumes {
    pub(crate) fn new(alloc: Global) -> Volumes
        ensures { result ≡ [] }
    {
        Volumes {
            volumes: Vec::new(alloc),
        }
    }

    /// How many volumes there are.
    pub fn len(&self) -> usize
        ensures { result ≡ length self.now }
    {
        self.volumes.len()
    }

    /// Whether there is no volume.
    pub fn is_empty(&self) -> bool
        ensures { IsTrue result ↔ (self.now ≡ []) }
    {
        self.volumes.is_empty()
    }

    /// The blocks of a volume, the first written first. Volumes are counted from 0 here.
    pub fn blocks(&self, volume: usize) -> &[[u8; BLOCK_LENGTH]]
        requires { volume < length self.now }
        ensures { slice_get self.now volume ≡ Some result.now }
    {
        &self.volumes[volume]
    }

    /// The number of blocks of a volume. Volumes are counted from 0 here.
    pub(crate) fn block_count(&self, volume: usize) -> u32
        requires { volume < length self.now }
        ensures { result ≡ length (get_or self.now volume []) }
    {
        self.volumes[volume].len() as u32
    }

    /// A block of a volume. Volumes and blocks are counted from 0 here.
    pub(crate) fn block(&self, volume: usize, block: usize) -> &[u8; BLOCK_LENGTH]
        requires { block < length (get_or self.now volume []) }
        ensures { result.now ≡ get_or (get_or self.now volume []) block [] }
    {
        &self.volumes[volume][block]
    }

    /// Turns all bits of a byte of a block. Volumes and blocks are counted from 0 here.
    pub(crate) fn flip(&mut self, volume: usize, block: usize, byte: usize)
        requires block { block < length (get_or self.old volume []) }
        requires byte { byte < BLOCK_LENGTH }
        ensures { self.new ≡ flipped_in self.old volume block byte }
    {
        let blocks = &mut self.volumes[volume];
        let bytes = &mut blocks[block];
        bytes[byte] = u8::MAX - bytes[byte];
    }

    /// Adds these volumes at the end.
    pub(crate) fn join(&mut self, more: Volumes) -> Result<(), NoMemory>
        ensures ok { OnOk result (self.new ≡ self.old ++ more) }
        ensures err { OnErr result (self.new ≡ self.old) }
    {
        let mut more = more;
        self.volumes.append(&mut more.volumes)
    }

    /// Adds an empty volume at the end.
    fn add(&mut self, alloc: Global) -> Result<(), NoMemory>
        ensures ok { OnOk result (self.new ≡ self.old ++ [] ∷ []) }
        ensures err { OnErr result (self.new ≡ self.old) }
        ensures last { OnOk result (last_length self.new ≡ 0) }
    {
        self.volumes.push(Vec::new(alloc))?;
        Ok(())
    }

    /// Appends a block to the last volume.
    fn append(&mut self, block: &[u8; BLOCK_LENGTH]) -> Result<(), NoMemory>
        requires volume { 0 < length self.old }
        requires room { last_length self.old + 1 < 2 ^ 32 }
        ensures ok { OnOk result (self.new ≡ append_last self.old block.now) }
        ensures err { OnErr result (self.new ≡ self.old) }

        ensures volumes { length self.new ≡ length self.old }
        ensures blocks { OnOk result (length (blocks_in_order self.new) ≡ length (blocks_in_order self.old) + 1) }
        ensures last { OnOk result (last_length self.new ≡ last_length self.old + 1) }
    {
        let last = self.volumes.len() - 1;
        let volume = &mut self.volumes[last];
        volume.push(*block)?;
        Ok(())
    }
}

/// A tape drive that keeps its volumes in memory.
#[derive(Debug, Drop)]
pub struct MemoryDrive {
    alloc: Global,
    volumes: Volumes,
    // How many blocks a volume takes.
    blocks: u32,
    // How many volumes are left to mount.
    left: u32,
    // How many blocks the mounted volume still takes.
    room: u32,
    // How many blocks stand on the volumes, and how many of these are durable.
    written: u64,
    synced: u64,
    faults: Faults,
}

impl Model for MemoryDrive {
    ghost use Rattle.std.specs.Prelude.{◌≡◌, ◌<◌, ◌+◌, ◌*◌, ◌^◌, Some, length, replicate};
    ghost use Rattle.ol_outside.specs.Devices.{DriveState};
    ghost use Rattle.ol_ports.specs.Drive.{blocks_in_order};
    ghost use Rattle.ol_outside.specs.Volumes.{last_length};

    ghost Value = { DriveState };

    ghost view = { λ d. record {
      tape = record {
        mounted = length d.volumes;
        room = d.room;
        rooms = replicate d.left d.blocks;
        volumes = Some d.volumes;
        synced = d.synced;
      };
      faults = d.faults;
    } };

    // The numbers of volumes and of blocks stay within their types.
    ghost invariant = { λ d. (d.written ≡ length (blocks_in_order d.volumes))
        × (length d.volumes + d.left < 2 ^ 32)
        × (last_length d.volumes + d.room < 2 ^ 32)
        × (d.written + (d.room + d.left * d.blocks) < 2 ^ 64) };
}

impl MemoryDrive {
    /// A drive with `volumes` empty volumes of `blocks` blocks each, of which none is mounted. Its
    /// calls of the numbers in `failing`, counted from 1, answer `Failed`. Each mount, write and sync
    /// is counted, but for a mount that answers `NoMore` and a write that answers `EndOfVolume`.
    ///
    /// `NoMemory` where memory for the copy of `failing` is refused.
    pub fn new(
        alloc: Global,
        blocks: u32,
        volumes: u32,
        failing: &[u64],
    ) -> Result<MemoryDrive, NoMemory>
        ensures tape { IfOk result (λ drive. drive.tape ≡ fresh blocks volumes) }
        ensures faults { IfOk result (λ drive. drive.faults ≡ no_calls failing.now) }
    {
        Ok(MemoryDrive {
            alloc,
            volumes: Volumes::new(alloc),
            blocks,
            left: volumes,
            room: 0,
            written: 0,
            synced: 0,
            faults: Faults::new(alloc, failing)?,
        })
    }

    /// How often a call was refused memory, which is counted up to the greatest `u64`.
    pub fn starved(&self) -> u64
        ensures { result ≡ self.now.faults.starved }
    {
        self.faults.starved()
    }

    /// Ends the drive, and gives the volumes that it mounted.
    pub fn take(self) -> Volumes
        ensures { self.tape.volumes ≡ Some result }
    {
        self.volumes
    }
}

impl Drive for MemoryDrive {
    ghost tape = { λ d. d.tape };

    ghost fault_count = { λ d. d.faults.count };

    /// Mounts the next volume.
    ///
    /// `NoMore` where none is left. `Failed` where the call's number is listed or memory is refused,
    /// and nowhere else; a refusal is counted in `starved`.
    fn mount(&mut self) -> Mounted
        requires { self.old.tape.room ≡ 0 }
        ensures gives { Mounts self.old.tape result self.new.tape }
        ensures later { self.old.faults.count ≤ self.new.faults.count }
        ensures cause { result ≡ MountFailed → Rose self.old.faults.count self.new.faults.count }
        ensures kept { (result ≡ MountFailed → ⊥) → self.new.faults.count ≡ self.old.faults.count }

        ensures counted { CountsMount self.old.faults result self.new.faults }
    {
        if self.left == 0 {
            return Mounted::NoMore;
        }
        self.left -= 1;
        if self.faults.fails() {
            return Mounted::Failed;
        }
        match self.volumes.add(self.alloc) {
            Ok(()) => {
                self.room = self.blocks;
                Mounted::Volume(self.volumes.len() as u32)
            }
            Err(_) => {
                self.faults.starve();
                Mounted::Failed
            }
        }
    }

    /// Appends a block to the volume that is mounted.
    ///
    /// `EndOfVolume` where no room is left, since the volume is full or a call failed. `Failed` where
    /// the call's number is listed or memory is refused, and nowhere else; the block is then not on the
    /// volume, and a refusal is counted in `starved`.
    fn write(&mut self, block: &[u8; BLOCK_LENGTH]) -> Wrote
        requires { 0 < self.old.tape.mounted }
        ensures gives { Writes self.old.tape block.now result self.new.tape }
        ensures later { self.old.faults.count ≤ self.new.faults.count }
        ensures cause { result ≡ WriteFailed → Rose self.old.faults.count self.new.faults.count }
        ensures kept { (result ≡ WriteFailed → ⊥) → self.new.faults.count ≡ self.old.faults.count }

        ensures failed { result ≡ WriteFailed → self.new.tape ≡ without_room self.old.tape }
        ensures counted { CountsWrite self.old.faults result self.new.faults }
    {
        if self.room == 0 {
            return Wrote::EndOfVolume;
        }
        if self.faults.fails() {
            self.room = 0;
            return Wrote::Failed;
        }
        match self.volumes.append(block) {
            Ok(()) => {
                self.room -= 1;
                self.written += 1;
                Wrote::Done
            }
            Err(_) => {
                self.faults.starve();
                self.room = 0;
                Wrote::Failed
            }
        }
    }

    /// Makes all blocks so far durable.
    ///
    /// `Failed` where the call's number is listed, and nowhere else.
    fn sync(&mut self) -> Result<(), Failed>
        ensures gives { Syncs self.old.tape result self.new.tape }
        ensures cause { HasCause self.old.faults.count self.new.faults.count result }

        ensures fails { is_err result ≡ next_fails self.old.faults }
        ensures counted { self.new.faults ≡ after_call (is_err result) self.old.faults }
    {
        if self.faults.fails() {
            self.room = 0;
            return Err(Failed);
        }
        self.synced = self.written;
        Ok(())
    }

    /// How many volumes are left to mount.
    fn volumes_left(&self) -> u32 {
        self.left
    }

    /// The count of faults: the listed numbers that the calls reached, and the refusals of memory. It
    /// stands still at the greatest `u64`.
    fn faults(&self) -> u64
        ensures count { result ≡ self.now.faults.count }
        ensures total { result ≡ faults_in_all self.now.faults }
    {
        self.faults.count()
    }
}
