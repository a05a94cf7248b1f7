//! A shelf in memory, which fails where it is told to.

ghost use Rattle.std.specs.Prelude.{◌≡◌, ◌<◌, ◌≤◌, ◌+◌, ◌^◌, ◌↔◌, [], length, replicate, IfOk, OnOk, OnErr, is_err};
ghost use Rattle.ol_ports.specs.Causes.{HasCause};
ghost use Rattle.ol_outside.specs.Faults.{no_calls, next_fails, after_call, faults_in_all};
ghost use Rattle.ol_ports.specs.Shelf.{volume_count, block_count, block_at, volumes_at, shape_of, HasVolume, HasBlock};
ghost use Rattle.ol_outside.specs.Volumes.{with_volumes, with_flip};
ghost use Rattle.ol_outside.specs.Devices.{ShelfState};

use crate::faults::Faults;
use crate::{BLOCK_LENGTH, DRIVES, Failed, NoMemory, Shelf, Volumes};
use std::alloc::Global;
use std::marker::Model;

/// A shelf of volumes that were added to it. Its calls take no memory.
#[derive(Debug, Drop)]
pub struct MemoryShelf {
    // The volumes of each drive.
    drives: Vec<Volumes>,
    faults: Faults,
}

impl Model for MemoryShelf {
    ghost use Rattle.std.specs.Prelude.{◌≡◌, length};
    ghost use Rattle.ol_outside.specs.Volumes.{VolumesFit};
    ghost use Rattle.ol_outside.specs.Devices.{ShelfState};

    ghost Value = { ShelfState };

    ghost view = { λ s. record { tapes = s.drives.items; faults = s.faults } };

    ghost invariant = { λ s. (length s.drives.items ≡ 5) × VolumesFit s.drives.items };
}

impl MemoryShelf {
    /// A shelf without a volume. Its calls of the numbers in `failing` answer `Failed`; each call of
    /// `volumes`, `blocks` and `read` is counted, from 1.
    ///
    /// `NoMemory` where memory for the drives or for the copy of `failing` is refused.
    pub fn new(alloc: Global, failing: &[u64]) -> Result<MemoryShelf, NoMemory>
        ensures { IfOk result (λ shelf. shelf ≡ record { tapes = replicate 5 []; faults = no_calls failing.now }) }
    {
        let mut drives = Vec::new(alloc);
        for _drive in 0..DRIVES {
            drives.push(Volumes::new(alloc))?;
        }
        Ok(MemoryShelf {
            drives,
            faults: Faults::new(alloc, failing)?,
        })
    }

    /// Adds volumes behind those of a drive.
    ///
    /// `NoMemory` where memory for them is refused; the shelf is then as before.
    pub fn add(&mut self, drive: u8, volumes: Volumes) -> Result<(), NoMemory>
        requires drive { drive < DRIVES }
        requires count { length (volumes_at self.old.tapes drive) + length volumes < 2 ^ 32 }
        ensures ok { OnOk result (self.new ≡ record self.old { tapes = with_volumes self.old.tapes drive volumes }) }
        ensures err { OnErr result (self.new ≡ self.old) }
    {
        let of_drive = &mut self.drives[drive as usize];
        of_drive.join(volumes)
    }

    /// Damages a block: turns all bits of one of its bytes.
    pub fn flip(&mut self, drive: u8, volume: u32, block: u32, byte: u16)
        requires drive { drive < DRIVES }
        requires block { HasBlock (shape_of self.old.tapes) drive volume block }
        requires byte { byte < BLOCK_LENGTH }
        ensures { self.new ≡ record self.old { tapes = with_flip self.old.tapes drive volume block byte } }
    {
        let of_drive = &mut self.drives[drive as usize];
        of_drive.flip(volume as usize - 1, block as usize, byte as usize);
    }
}

impl Shelf for MemoryShelf {
    ghost use Rattle.std.specs.Prelude.{refl};

    ghost tells = { Unit {0} };

    ghost shape = { λ s. shape_of s.tapes };

    ghost tapes = { λ s. s.tapes };

    ghost fault_count = { λ s. s.faults.count };

    ghost shaped = { λ s told. refl };

    /// The number of volumes of a drive.
    ///
    /// `Failed` where the call's number is listed, and nowhere else.
    fn volumes(&mut self, drive: u8) -> Result<u32, Failed>
        requires { drive < DRIVES }
        ensures count { IfOk result (λ n. n ≡ volume_count (shape_of self.old.tapes) drive) }
        ensures shape { shape_of self.new.tapes ≡ shape_of self.old.tapes }
        ensures tapes { Unit {0} → self.new.tapes ≡ self.old.tapes }
        ensures cause { HasCause self.old.faults.count self.new.faults.count result }

        ensures fails { is_err result ≡ next_fails self.old.faults }
        ensures counted { self.new.faults ≡ after_call (is_err result) self.old.faults }
    {
        if self.faults.fails() {
            return Err(Failed);
        }
        let of_drive = &self.drives[drive as usize];
        Ok(of_drive.len() as u32)
    }

    /// The number of blocks of a volume.
    ///
    /// `Failed` where the call's number is listed, and nowhere else.
    fn blocks(&mut self, drive: u8, volume: u32) -> Result<u32, Failed>
        requires drive { drive < DRIVES }
        requires volume { HasVolume (shape_of self.old.tapes) drive volume }
        ensures count { IfOk result (λ n. n ≡ block_count (shape_of self.old.tapes) drive volume) }
        ensures shape { shape_of self.new.tapes ≡ shape_of self.old.tapes }
        ensures tapes { Unit {0} → self.new.tapes ≡ self.old.tapes }
        ensures cause { HasCause self.old.faults.count self.new.faults.count result }

        ensures fails { is_err result ≡ next_fails self.old.faults }
        ensures counted { self.new.faults ≡ after_call (is_err result) self.old.faults }
    {
        if self.faults.fails() {
            return Err(Failed);
        }
        let of_drive = &self.drives[drive as usize];
        Ok(of_drive.block_count(volume as usize - 1))
    }

    /// Reads a block into `buf`.
    ///
    /// `Failed` where the call's number is listed, and nowhere else; `buf` is then as before.
    fn read(
        &mut self,
        drive: u8,
        volume: u32,
        block: u32,
        buf: &mut [u8; BLOCK_LENGTH],
    ) -> Result<(), Failed>
        requires drive { drive < DRIVES }
        requires block { HasBlock (shape_of self.old.tapes) drive volume block }
        ensures block { Unit {0} → OnOk result (buf.new ≡ block_at self.old.tapes drive volume block) }
        ensures shape { shape_of self.new.tapes ≡ shape_of self.old.tapes }
        ensures tapes { Unit {0} → self.new.tapes ≡ self.old.tapes }
        ensures cause { HasCause self.old.faults.count self.new.faults.count result }

        ensures unread { OnErr result (buf.new ≡ buf.old) }
        ensures fails { is_err result ≡ next_fails self.old.faults }
        ensures counted { self.new.faults ≡ after_call (is_err result) self.old.faults }
    {
        if self.faults.fails() {
            return Err(Failed);
        }
        let of_drive = &self.drives[drive as usize];
        *buf = *of_drive.block(volume as usize - 1, block as usize);
        Ok(())
    }

    /// The count of faults: the listed numbers that the calls reached. It stands still at the greatest
    /// `u64`.
    fn faults(&self) -> u64
        ensures count { result ≡ self.now.faults.count }
        ensures total { result ≡ faults_in_all self.now.faults }
    {
        self.faults.count()
    }
}
