//! Tapes: the volumes that a drive wrote, block by block.

ghost use Rattle.std.specs.Prelude.{◌<◌, length};

use crate::trouble::Trouble;
use ol_outside::{BLOCK_LENGTH, MemoryDrive, Volumes};
use sha2::{Digest, Sha256};
use std::alloc::{AllocError, Global};
use std::fmt::Write;

/// The bytes of a block in front of its digest.
const DIGESTED: usize = 2112;

/// A block of the shelf. Volumes are counted from 1, blocks from 0.
#[derive(Clone, Copy)]
pub struct BlockPlace {
    /// The drive that wrote the volume.
    pub drive: u8,
    /// The volume.
    pub volume: u32,
    /// The block of the volume.
    pub block: u32,
}

/// What damages the shelf at a block.
#[derive(Clone, Copy)]
pub enum TapeDamage {
    /// All bits of a byte of the block are turned.
    Flip {
        /// The offset of the byte.
        byte: u16,
    },
    /// The blocks of the volume from this one on are gone.
    Cut,
    /// So many blocks of the volume from this one on are gone, and those behind them move up.
    Remove {
        /// How many.
        count: u32,
    },
}

/// The blocks of a volume.
#[derive(Drop)]
pub struct Volume {
    /// The blocks in order.
    pub blocks: Vec<[u8; BLOCK_LENGTH]>,
}

/// The volumes of a drive, and how many of them stood there before the last command.
#[derive(Drop)]
pub struct Tape {
    /// The volumes in order.
    pub volumes: Vec<Volume>,
    /// How many of them are older than the last command.
    pub earlier: usize,
}

impl Tape {
    /// No volume.
    pub fn new(alloc: Global) -> Tape {
        Tape {
            volumes: Vec::new(alloc),
            earlier: 0,
        }
    }

    /// Adds the volumes that a command wrote.
    pub fn add(&mut self, alloc: Global, written: &Volumes) -> Result<(), AllocError> {
        self.earlier = self.volumes.len();
        for volume in 0..written.len() {
            self.volumes.push(copy_of(alloc, written, volume)?)?;
        }
        Ok(())
    }

    /// The blocks of a volume, which is counted from 1.
    fn volume(&mut self, volume: u32) -> Result<&mut Vec<[u8; BLOCK_LENGTH]>, Trouble> {
        let Some(index) = (volume as usize).checked_sub(1) else {
            return Err(Trouble::NoBlock);
        };
        match self.volumes.get_mut(index) {
            Some(volume) => Ok(&mut volume.blocks),
            None => Err(Trouble::NoBlock),
        }
    }

    /// Damages the tape at a block.
    ///
    /// `NoBlock` and `NoPlace` come where the block, or its byte, is not there.
    pub fn damage(&mut self, place: BlockPlace, damage: TapeDamage) -> Result<(), Trouble> {
        let blocks = self.volume(place.volume)?;
        match damage {
            TapeDamage::Flip { byte } => flip(blocks, place.block, byte),
            TapeDamage::Cut => cut(blocks, place.block),
            TapeDamage::Remove { count } => take_out(blocks, place.block, count),
        }
    }

    /// Tells the blocks that the last command wrote, a line each.
    pub fn tell(&self, told: &mut String) -> Result<(), AllocError> {
        if self.volumes.len() <= self.earlier {
            told.push_str("no volume\n")?;
        }
        for (index, volume) in self.volumes.iter().enumerate().skip(self.earlier) {
            tell_volume(index.saturating_add(1), &volume.blocks, told)?;
        }
        Ok(())
    }
}

/// A copy of a volume that a drive wrote.
fn copy_of(alloc: Global, written: &Volumes, volume: usize) -> Result<Volume, AllocError>
    requires { volume < length written.now }
{
    Ok(Volume {
        blocks: Vec::from_slice(alloc, written.blocks(volume))?,
    })
}

/// Turns all bits of a byte of a block.
fn flip(blocks: &mut [[u8; BLOCK_LENGTH]], block: u32, byte: u16) -> Result<(), Trouble> {
    let Some(bytes) = blocks.get_mut(block as usize) else {
        return Err(Trouble::NoBlock);
    };
    let Some(byte) = bytes.get_mut(usize::from(byte)) else {
        return Err(Trouble::NoPlace);
    };
    *byte = !*byte;
    Ok(())
}

/// Takes the blocks away from this one on.
fn cut(blocks: &mut Vec<[u8; BLOCK_LENGTH]>, block: u32) -> Result<(), Trouble> {
    if block as usize >= blocks.len() {
        return Err(Trouble::NoBlock);
    }
    blocks.truncate(block as usize);
    Ok(())
}

/// Takes so many blocks away from this one on; those behind them move up.
fn take_out(blocks: &mut Vec<[u8; BLOCK_LENGTH]>, block: u32, count: u32) -> Result<(), Trouble> {
    if block as usize + count as usize > blocks.len() {
        return Err(Trouble::NoBlock);
    }
    for _ in 0..count {
        remove_at(blocks, block as usize);
    }
    Ok(())
}

/// Removes a block, where it is there.
fn remove_at(blocks: &mut Vec<[u8; BLOCK_LENGTH]>, index: usize) {
    if index < blocks.len() {
        blocks.remove(index);
    }
}

fn tell_volume(
    number: usize,
    blocks: &[[u8; BLOCK_LENGTH]],
    told: &mut String,
) -> Result<(), AllocError> {
    if blocks.is_empty() {
        write!(told, "volume {number} is empty\n")?;
    }
    for (index, block) in blocks.iter().enumerate() {
        write!(told, "volume {number} block {index}: ")?;
        tell_block(block, told)?;
    }
    Ok(())
}

/// Tells the fields of a block's head and the beginning of its digest, and whether that is not the digest of its bytes.
fn tell_block(block: &[u8; BLOCK_LENGTH], told: &mut String) -> Result<(), AllocError> {
    let kind = number_at(block, 4, 1);
    let number = number_at(block, 16, 8);
    let index = number_at(block, 24, 4);
    let used = number_at(block, 28, 4);
    write!(told, "kind {kind} index {index} number {number}")?;
    let a = number_at(block, 32, 8);
    let b = number_at(block, 40, 8);
    let c = number_at(block, 48, 8);
    write!(told, " a {a} b {b} c {c} used {used}")?;
    tell_digest(block, told)
}

fn tell_digest(block: &[u8; BLOCK_LENGTH], told: &mut String) -> Result<(), AllocError> {
    let (digested, digest) = block.split_at(DIGESTED);
    let first = number_at(block, DIGESTED, 4);
    write!(told, " digest {first:08x}")?;
    if Sha256::digest(digested).as_slice() != digest {
        told.push_str(" bad")?;
    }
    told.push_str("\n")
}

/// The big-endian number of so many bytes, at most 8, at an offset of a block.
fn number_at(block: &[u8; BLOCK_LENGTH], offset: usize, count: usize) -> u64 {
    let mut number = 0u64;
    for index in 0..count {
        let byte = byte_at(block, offset.saturating_add(index));
        number = number.wrapping_mul(256) | u64::from(byte);
    }
    number
}

/// A byte of a block, 0 behind its end.
fn byte_at(block: &[u8; BLOCK_LENGTH], offset: usize) -> u8 {
    match block.get(offset) {
        Some(byte) => *byte,
        None => 0,
    }
}

/// The tape of a drive.
///
/// `NoDrive` comes where there is none.
pub fn tape_at(tapes: &[Tape], drive: u8) -> Result<&Tape, Trouble> {
    match tapes.get(usize::from(drive)) {
        Some(tape) => Ok(tape),
        None => Err(Trouble::NoDrive),
    }
}

/// Puts what the drives wrote onto their tapes, the last first.
pub fn shelve(
    alloc: Global,
    tapes: &mut [Tape],
    drives: Vec<MemoryDrive>,
) -> Result<(), AllocError> {
    let mut drives = drives;
    for tape in tapes.iter_mut().rev() {
        add_last(alloc, tape, &mut drives)?;
    }
    Ok(())
}

/// Takes the last drive, and puts what it wrote onto its tape.
fn add_last(
    alloc: Global,
    tape: &mut Tape,
    drives: &mut Vec<MemoryDrive>,
) -> Result<(), AllocError> {
    match drives.pop() {
        Some(drive) => tape.add(alloc, &drive.take()),
        None => Ok(()),
    }
}
