//! What the commands of a scene work on.

use crate::devices::{Device, Fault, Load, calls_of};
use crate::grounds::{CHUNKS, DiskDamage, Ground, page_of};
use crate::outcomes::{Ended, Outcome};
use crate::rigs::{command_over, five_drives, words_of};
use crate::shelves::{SceneShelf, shape_of};
use crate::streams::{sink_of, source_of};
use crate::tapes::{BlockPlace, Tape, TapeDamage, shelve, tape_at};
use crate::trouble::Trouble;
use ol_online::Words;
use ol_outside::{DRIVES, MemorySink, MemorySource, PAGE_LENGTH};
use std::alloc::{AllocError, Global};
use std::mem;

/// A disk, five drives, a shelf, and the calls that are to fail in the next command.
#[derive(Drop)]
pub struct Stage {
    alloc: Global,
    ground: Ground,
    loads: Vec<Load>,
    faults: Vec<Fault>,
    tapes: Vec<Tape>,
}

impl Stage {
    /// No chunk, nothing on the shelf, no fault, and drives with 10 volumes of 1,000 blocks.
    pub fn new(alloc: Global) -> Result<Stage, AllocError> {
        Ok(Stage {
            alloc,
            ground: Ground::new(alloc, &[])?,
            loads: Vec::new(alloc),
            faults: Vec::new(alloc),
            tapes: no_volumes(alloc)?,
        })
    }

    /// Makes a disk of zeros with chunks of so many pages.
    ///
    /// `NoChunk` comes where these are too many, and the disk is as before then.
    pub fn make_chunks(&mut self, pages: &[u32]) -> Result<(), Trouble> {
        if pages.len() > CHUNKS {
            return Err(Trouble::NoChunk);
        }
        self.ground = Ground::new(self.alloc, pages)?;
        Ok(())
    }

    /// Gives a drive these volumes for each of the commands to come.
    pub fn load(&mut self, load: Load) -> Result<(), Trouble> {
        Ok(self.loads.push(load)?)
    }

    /// Lets calls of the next command fail.
    pub fn fail(&mut self, fault: Fault) -> Result<(), Trouble> {
        Ok(self.faults.push(fault)?)
    }

    /// Damages the disk. The error says why it can't be, and nothing has changed then.
    pub fn damage_disk(&mut self, damage: DiskDamage) -> Result<(), Trouble> {
        self.ground.damage(damage)
    }

    /// Damages the shelf at a block. The error says why it can't be, and nothing has changed then.
    pub fn damage_tape(&mut self, place: BlockPlace, damage: TapeDamage) -> Result<(), Trouble> {
        match self.tapes.get_mut(usize::from(place.drive)) {
            Some(tape) => tape.damage(place, damage),
            None => Err(Trouble::NoDrive),
        }
    }

    /// Tells the blocks that a drive got in the last command, as they stand on the shelf.
    pub fn tell_tape(&self, drive: u8, told: &mut String) -> Result<(), Trouble> {
        Ok(tape_at(&self.tapes, drive)?.tell(told)?)
    }

    /// The bytes of a page of the disk.
    ///
    /// `NoPlace` comes where the page is not there.
    pub fn page(&mut self, chunk: u8, page: u32) -> Result<[u8; PAGE_LENGTH], Trouble> {
        page_of(&mut self.ground.disk, chunk, page)
    }

    /// Runs a command over the devices. The calls that were to fail in it fail no more behind it.
    ///
    /// `NoMemory` comes where memory was refused.
    pub fn command(&mut self, given: &[String], input: &[u8]) -> Result<Outcome, Trouble> {
        let words = words_of(self.alloc, given)?;
        let mut source = source_of(self.alloc, input, calls_of(&self.faults, Device::Source))?;
        let mut output = sink_of(self.alloc, calls_of(&self.faults, Device::Sink))?;
        let ended = self.perform(&words, &mut source, &mut output)?;
        Outcome::new(self.alloc, output.bytes(), ended)
    }

    /// Carries a command out between its source and its sink.
    fn perform(
        &mut self,
        words: &Words,
        source: &mut MemorySource,
        output: &mut MemorySink,
    ) -> Result<Ended, AllocError> {
        let alloc = self.alloc;
        let shape = shape_of(alloc, &self.tapes)?;
        let failing = Vec::from_slice(alloc, calls_of(&self.faults, Device::Shelf))?;
        let drives = five_drives(alloc, &self.loads, &self.faults)?;
        let disk = self
            .ground
            .scene_disk(alloc, calls_of(&self.faults, Device::Disk))?;
        let tapes = mem::replace(&mut self.tapes, Vec::new(alloc));
        let shelf = SceneShelf::new(tapes, shape, failing);
        let (disk, drives, shelf, code, history) = command_over(
            alloc, words, disk, drives, shelf, source, output,
        );
        self.faults = Vec::new(alloc);
        self.tapes = shelf.tapes;
        let (writes, reads) = (disk.moment, disk.asked.saturating_sub(disk.moment));
        self.ground.disk = disk.disk;
        shelve(alloc, &mut self.tapes, drives)?;
        Ok(Ended {
            code,
            history,
            writes,
            reads,
        })
    }
}

/// Five tapes with no volume.
fn no_volumes(alloc: Global) -> Result<Vec<Tape>, AllocError> {
    let mut tapes = Vec::new(alloc);
    for _ in 0..DRIVES {
        tapes.push(Tape::new(alloc))?;
    }
    Ok(tapes)
}
