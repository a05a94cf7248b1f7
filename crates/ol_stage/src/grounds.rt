//! The disk of a scene between commands.

use crate::disks::SceneDisk;
use crate::trouble::Trouble;
use ol_outside::{Choice, Disk, Failed, MemoryDisk, PAGE_LENGTH};
use std::alloc::{AllocError, Global};

/// The greatest number of chunks of a disk.
pub const CHUNKS: usize = 32;

/// A page that reads as one byte all over.
#[derive(Clone, Copy)]
pub struct Spoiled {
    /// The chunk.
    pub chunk: u8,
    /// The page of the chunk.
    pub page: u32,
    /// The byte.
    pub byte: u8,
}

/// What damages the disk, or lets it say what isn't so.
#[derive(Clone, Copy)]
pub enum DiskDamage {
    /// A stop within a call of the last command, or behind the last one.
    Stop {
        /// The number of the call.
        moment: Option<u64>,
        /// What it leaves in the place of bytes that were not synced.
        choice: Choice,
    },
    /// A lost chunk, which reads as zeros from then on.
    Clear {
        /// The chunk.
        chunk: u8,
    },
    /// One byte of a page.
    Byte {
        /// The chunk.
        chunk: u8,
        /// The page of the chunk.
        page: u32,
        /// The offset in the page.
        offset: u16,
        /// The byte.
        byte: u8,
    },
    /// The disk says from now on that the chunk has so many pages.
    Size {
        /// The chunk.
        chunk: u8,
        /// The pages.
        pages: u32,
    },
    /// The page reads as that byte all over from now on.
    Spoil {
        /// The page and the byte.
        spoiled: Spoiled,
    },
}

/// A disk in memory, and what it says that isn't so.
#[derive(Drop)]
pub struct Ground {
    /// The disk.
    pub disk: MemoryDisk,
    sizes: [u32; CHUNKS],
    spoiled: Vec<Spoiled>,
}

impl Ground {
    /// A disk of zeros with chunks of so many pages, the first 32 of which it tells.
    pub fn new(alloc: Global, pages: &[u32]) -> Result<Ground, AllocError> {
        Ok(Ground {
            sizes: sizes_of(pages),
            spoiled: Vec::new(alloc),
            disk: MemoryDisk::new(alloc, pages, &[])?,
        })
    }

    /// Damages the disk. The error says why it can't be, and nothing has changed then.
    pub fn damage(&mut self, damage: DiskDamage) -> Result<(), Trouble> {
        match damage {
            DiskDamage::Stop { moment, choice } => stop(&mut self.disk, moment, choice),
            DiskDamage::Clear { chunk } => lose(&mut self.disk, chunk),
            DiskDamage::Byte {
                chunk,
                page,
                offset,
                byte,
            } => change_byte(&mut self.disk, chunk, page, offset, byte),
            DiskDamage::Size { chunk, pages } => claim(&mut self.sizes, chunk, pages),
            DiskDamage::Spoil { spoiled } => Ok(self.spoiled.push(spoiled)?),
        }
    }

    /// The disk as a command finds it, the listed calls of which fail.
    pub fn scene_disk(
        &self,
        alloc: Global,
        failing: &[u64],
    ) -> Result<SceneDisk<MemoryDisk>, AllocError> {
        let spoiled = Vec::from_slice(alloc, &self.spoiled)?;
        let failing = Vec::from_slice(alloc, failing)?;
        let disk = rest_of(&self.disk, Choice::New)?;
        Ok(SceneDisk {
            disk,
            sizes: self.sizes,
            spoiled,
            failing,
            counts: [0; CHUNKS],
            asked: 0,
            moment: 0,
        })
    }
}

/// The pages of the first 32 chunks, 0 for those that are not there.
fn sizes_of(pages: &[u32]) -> [u32; CHUNKS] {
    let mut sizes = [0; CHUNKS];
    for (size, pages) in sizes.iter_mut().zip(pages) {
        *size = *pages;
    }
    sizes
}

/// Lets the disk say that a chunk has so many pages.
fn claim(sizes: &mut [u32; CHUNKS], chunk: u8, pages: u32) -> Result<(), Trouble> {
    match sizes.get_mut(usize::from(chunk)) {
        Some(size) => {
            *size = pages;
            Ok(())
        }
        None => Err(Trouble::NoChunk),
    }
}

/// A stop within a call of the last command, or behind the last one.
fn stop(disk: &mut MemoryDisk, moment: Option<u64>, choice: Choice) -> Result<(), Trouble> {
    *disk = match moment {
        Some(moment) => stopped(disk, moment, choice)?,
        None => rest_of(disk, choice)?,
    };
    Ok(())
}

/// The disk that a stop behind the last call leaves.
fn rest_of(disk: &MemoryDisk, choice: Choice) -> Result<MemoryDisk, AllocError> {
    disk.rest(choice)
}

/// Writes a byte into a page, for good.
fn change_byte(
    disk: &mut MemoryDisk,
    chunk: u8,
    page: u32,
    offset: u16,
    byte: u8,
) -> Result<(), Trouble> {
    put_byte(disk, chunk, page, offset, byte)?;
    stop(disk, None, Choice::New)
}

/// Writes a byte into a page.
///
/// `NoChunk` and `NoPlace` come where the chunk, or the page or the offset, is not there.
fn put_byte<D: Disk>(
    disk: &mut D,
    chunk: u8,
    page: u32,
    offset: u16,
    byte: u8,
) -> Result<(), Trouble> {
    if disk.size(chunk) == 0 {
        return Err(Trouble::NoChunk);
    }
    if page >= disk.size(chunk) || usize::from(offset) >= PAGE_LENGTH {
        return Err(Trouble::NoPlace);
    }
    match disk.write_at(chunk, page, offset, &[byte]) {
        Ok(()) => Ok(()),
        Err(Failed) => Err(Trouble::Refused),
    }
}

/// The bytes of a page, as they read.
///
/// `NoPlace` comes where the page is not there.
pub fn page_of<D: Disk>(disk: &mut D, chunk: u8, page: u32) -> Result<[u8; PAGE_LENGTH], Trouble> {
    let mut bytes = [0; PAGE_LENGTH];
    if page >= disk.size(chunk) {
        return Err(Trouble::NoPlace);
    }
    match disk.read(chunk, page, &mut bytes) {
        Ok(()) => Ok(bytes),
        Err(Failed) => Err(Trouble::Refused),
    }
}

/// The disk that a stop within a call leaves.
///
/// `NoCall` comes where the disk had no call of that number.
fn stopped(disk: &MemoryDisk, moment: u64, choice: Choice) -> Result<MemoryDisk, Trouble> {
    if moment == 0 || moment > disk.calls() || moment == u64::MAX {
        return Err(Trouble::NoCall);
    }
    Ok(disk.left(moment, choice)?)
}

/// Loses a chunk, which reads as zeros from then on.
///
/// `NoChunk` comes where it is not there.
fn lose(disk: &mut MemoryDisk, chunk: u8) -> Result<(), Trouble> {
    if disk.size(chunk) == 0 {
        return Err(Trouble::NoChunk);
    }
    disk.clear(chunk);
    Ok(())
}
