//! The shelf of the volumes that the drives wrote, which fails where it is told to.

ghost use Rattle.std.specs.Prelude.{◌≡◌, ◌<◌, ◌≤◌, [], length, map};
ghost use Rattle.std.proofs.Common.{get_or};
ghost use Rattle.ol_ports.specs.Causes.{Rose, risen};

use crate::disks::is_listed;
use crate::tapes::{Tape, Volume};
use ol_outside::{BLOCK_LENGTH, Failed, Shelf};
use std::alloc::{AllocError, Global};

/// A shelf of tapes, which tells nothing of its blocks.
#[derive(Drop)]
pub struct SceneShelf {
    /// The volumes of each drive.
    pub tapes: Vec<Tape>,
    /// Of each drive the number of blocks of each volume.
    pub shape: Vec<Vec<u32>>,
    /// The calls that are to fail, counted from 1.
    pub failing: Vec<u64>,
    /// How many calls there were.
    pub asked: u64,
    /// How many of them have failed.
    pub failed_calls: u64,
}

impl SceneShelf {
    /// A shelf of tapes of that shape, none of whose calls has been made.
    pub fn new(tapes: Vec<Tape>, shape: Vec<Vec<u32>>, failing: Vec<u64>) -> SceneShelf {
        SceneShelf {
            tapes,
            shape,
            failing,
            asked: 0,
            failed_calls: 0,
        }
    }
}

impl Shelf for SceneShelf {
    ghost use Rattle.std.specs.Prelude.{[]};

    ghost tells = { ⊥ };

    ghost shape = { λ s. map (λ volumes. volumes.items) s.shape.items };

    ghost tapes = { λ _. [] };

    ghost fault_count = { λ s. s.failed_calls };

    ghost shaped = { λ s told. absurd told };

    /// The number of volumes of a drive.
    fn volumes(&mut self, drive: u8) -> Result<u32, Failed> {
        let counted = u32::try_from(volumes_of(&self.shape, drive).len());
        if is_listed(&mut self.asked, &self.failing) {
            return Err(count_fault(&mut self.failed_calls));
        }
        match counted {
            Ok(count) => Ok(count),
            Err(_) => Err(count_fault(&mut self.failed_calls)),
        }
    }

    /// The number of blocks of a volume.
    fn blocks(&mut self, drive: u8, volume: u32) -> Result<u32, Failed> {
        let count = volumes_of(&self.shape, drive)[volume as usize - 1];
        if is_listed(&mut self.asked, &self.failing) {
            return Err(count_fault(&mut self.failed_calls));
        }
        Ok(count)
    }

    /// Reads a block.
    fn read(
        &mut self,
        drive: u8,
        volume: u32,
        block: u32,
        buf: &mut [u8; BLOCK_LENGTH],
    ) -> Result<(), Failed> {
        if is_listed(&mut self.asked, &self.failing) {
            return Err(count_fault(&mut self.failed_calls));
        }
        if let Some(bytes) = block_of(&self.tapes, drive, volume, block) {
            *buf = *bytes;
        }
        Ok(())
    }

    /// The count of faults.
    fn faults(&self) -> u64 {
        self.failed_calls
    }
}

/// Counts a fault.
fn count_fault(count: &mut u64) -> Failed
    ensures counted { count.new ≡ risen count.old }
    ensures later { count.old ≤ count.new }
    ensures cause { Rose count.old count.new }
{
    *count = count.saturating_add(1);
    Failed
}

/// The numbers of blocks of the volumes of a drive.
fn volumes_of(shape: &[Vec<u32>], drive: u8) -> &[u32]
    ensures { result.now ≡ get_or (map (λ volumes. volumes.items) shape.now) drive [] }
{
    match shape.get(drive as usize) {
        Some(volumes) => volumes.as_slice(),
        None => &[],
    }
}

/// A block, where it is there. Volumes are counted from 1, blocks from 0.
fn block_of(tapes: &[Tape], drive: u8, volume: u32, block: u32) -> Option<&[u8; BLOCK_LENGTH]> {
    let tape = tapes.get(drive as usize)?;
    let index = (volume as usize).checked_sub(1)?;
    tape.volumes.get(index)?.blocks.get(block as usize)
}

/// Of each tape the number of blocks of each volume.
pub fn shape_of(alloc: Global, tapes: &[Tape]) -> Result<Vec<Vec<u32>>, AllocError> {
    let mut shape = Vec::new(alloc);
    for tape in tapes {
        shape.push(counts_of(alloc, &tape.volumes)?)?;
    }
    Ok(shape)
}

fn counts_of(alloc: Global, volumes: &[Volume]) -> Result<Vec<u32>, AllocError> {
    let mut counts = Vec::new(alloc);
    for volume in volumes {
        counts.push(u32::try_from(volume.blocks.len()).unwrap_or(u32::MAX))?;
    }
    Ok(counts)
}
