//! What the devices are told before a command.

/// The volumes that a drive has unless a step says otherwise.
const BLOCKS: u32 = 1000;

const VOLUMES: u32 = 10;

/// A device whose calls may be told to fail.
#[derive(Clone, Copy, PartialEq, Eq)]
pub enum Device {
    /// The disk.
    Disk,
    /// The tape drive of that number.
    Drive(u8),
    /// The shelf.
    Shelf,
    /// The source of the script or configuration.
    Source,
    /// The sink of the output.
    Sink,
}

/// The calls of a device that are to fail in the next command, counted from 1.
#[derive(Drop)]
pub struct Fault {
    /// The device.
    pub device: Device,
    /// The numbers of its calls.
    pub calls: Vec<u64>,
}

/// The volumes of a drive, and how many blocks each takes.
#[derive(Clone, Copy)]
pub struct Load {
    /// The drive.
    pub drive: u8,
    /// How many blocks a volume takes.
    pub blocks: u32,
    /// How many volumes it has for a command.
    pub volumes: u32,
}

/// The calls of a device that are to fail.
pub fn calls_of(faults: &[Fault], device: Device) -> &[u64] {
    for fault in faults.iter().rev() {
        if fault.device == device {
            return fault.calls.as_slice();
        }
    }
    &[]
}

/// The volumes of a drive.
pub fn load_of(loads: &[Load], drive: u8) -> Load {
    for load in loads.iter().rev() {
        if load.drive == drive {
            return *load;
        }
    }
    Load {
        drive,
        blocks: BLOCKS,
        volumes: VOLUMES,
    }
}
