//! The drives of a scene, and the command over a rig.

ghost use Rattle.std.specs.Prelude.{◌≡◌, ◌+◌, All, IfOk, length};

use crate::devices::{Device, Fault, Load, calls_of, load_of};
use crate::disks::SceneDisk;
use crate::shelves::SceneShelf;
use ol_online::{Rig, Status, Words, command};
use ol_outside::{
    Disk, Drive, MemoryDisk, MemoryDrive, MemorySink, MemorySource, Shelf, Sink, Source,
};
use ol_values::History;
use std::alloc::{AllocError, Global};

/// The disk of a scene, over one in memory.
pub type StageDisk = SceneDisk<MemoryDisk>;

/// Carries a command out, and gives the devices back, the exit status and the history.
pub fn command_over(
    alloc: Global,
    words: &Words,
    disk: StageDisk,
    drives: Vec<MemoryDrive>,
    shelf: SceneShelf,
    source: &mut MemorySource,
    output: &mut MemorySink,
) -> (StageDisk, Vec<MemoryDrive>, SceneShelf, u8, History)
    requires five { length drives.items ≡ 5 }
    requires none_mounted { All (λ d. d.tape.room ≡ 0) drives.items }
{
    let rig = Rig {
        disk,
        drives,
        shelf,
    };
    let (rig, status, history) = command_in(alloc, words, rig, source, output);
    let Rig {
        disk,
        drives,
        shelf,
    } = rig;
    (disk, drives, shelf, status.code(), history)
}

/// Carries a command out over a rig.
fn command_in<D: Disk, T: Drive, F: Shelf, S: Source, K: Sink>(
    alloc: Global,
    words: &Words,
    rig: Rig<D, T, F>,
    source: &mut S,
    output: &mut K,
) -> (Rig<D, T, F>, Status, History)
    requires five { length rig.drives.items ≡ 5 }
    requires none_mounted { All (λ d. (T.tape d).room ≡ 0) rig.drives.items }
{
    command(alloc, words, rig, source, output)
}

/// The drives 0 to 4 with their volumes and faults.
pub fn five_drives(
    alloc: Global,
    loads: &[Load],
    faults: &[Fault],
) -> Result<Vec<MemoryDrive>, AllocError>
    ensures five { IfOk result (λ drives. length drives.items ≡ 5) }
    ensures none_mounted { IfOk result (λ drives. All (λ d. d.tape.room ≡ 0) drives.items) }
{
    let drives = with_drive(alloc, loads, faults, 0, Vec::new(alloc))?;
    let drives = with_drive(alloc, loads, faults, 1, drives)?;
    let drives = with_drive(alloc, loads, faults, 2, drives)?;
    let drives = with_drive(alloc, loads, faults, 3, drives)?;
    with_drive(alloc, loads, faults, 4, drives)
}

/// The drives with that of a number behind them. An early return then has no drive to drop, which would be dear to prove.
fn with_drive(
    alloc: Global,
    loads: &[Load],
    faults: &[Fault],
    number: u8,
    drives: Vec<MemoryDrive>,
) -> Result<Vec<MemoryDrive>, AllocError>
    requires none_mounted { All (λ d. d.tape.room ≡ 0) drives.items }
    ensures count { IfOk result (λ more. length more.items ≡ length drives.items + 1) }
    ensures none_mounted { IfOk result (λ more. All (λ d. d.tape.room ≡ 0) more.items) }
{
    let mut more = drives;
    more.push(drive(alloc, loads, faults, number)?)?;
    Ok(more)
}

/// The drive of a number, with its volumes and faults.
fn drive(
    alloc: Global,
    loads: &[Load],
    faults: &[Fault],
    number: u8,
) -> Result<MemoryDrive, AllocError>
    ensures { IfOk result (λ drive. drive.tape.room ≡ 0) }
{
    let Load {
        drive: _,
        blocks,
        volumes,
    } = load_of(loads, number);
    MemoryDrive::new(
        alloc,
        blocks,
        volumes,
        calls_of(faults, Device::Drive(number)),
    )
}

/// The words of a command.
pub fn words_of(alloc: Global, given: &[String]) -> Result<Words, AllocError> {
    let mut words = Words::new(alloc);
    for word in given {
        words.push(word.as_str())?;
    }
    Ok(words)
}
