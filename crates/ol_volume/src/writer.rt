//! The writer of a drive.

ghost use Rattle.std.specs.Prelude.{◌≡◌, OnOk, IfErr};
ghost use Rattle.ol_ports.specs.Drive.{Tape, all_synced};
ghost use Rattle.ol_volume.specs.Written.{Written, Puts, EndsPut, EndsFinish};
ghost use Rattle.ol_volume.specs.Mounting.{MountsNext, EndsMounting};

use ol_ports::{BLOCK_LENGTH, Drive, Mounted, Wrote};
use std::marker::Model;

/// Why no more goes on the tape.
#[derive(Clone, Copy, Debug, PartialEq, Eq)]
pub enum TapeEnd {
    /// A call of the drive of this number failed; it shows this count of faults.
    TapeFault { drive: u8, count: u64 },
    /// The drive of this number has no volume left that takes a block.
    OutOfTape { drive: u8 },
}

/// A drive of a number, and whether a volume of it was mounted.
#[derive(Drop)]
pub struct Writer<T: Drive> {
    drive: T,
    number: u8,
    mounted: bool,
}

impl<T: Drive> Model for Writer<T> {
    ghost use Rattle.std.specs.Prelude.{◌≡◌, ◌<◌, true, false};
    ghost use Rattle.ol_volume.specs.Written.{Written};
    ghost use Rattle.ol_volume.specs.Mounting.{IsMountedWhereTold};

    ghost Value = { Written };

    ghost view = { λ w. record { tape = T.tape w.drive; faults = T.fault_count w.drive; number = w.number } };

    // a drive may be written to only after a mount, and mounted only where there is no room
    ghost invariant = { λ w. IsMountedWhereTold (T.tape w.drive) w.mounted };
}

impl<T: Drive> Writer<T> {
    /// A writer of this drive, of which the mounted volume, if there is one, takes no more blocks.
    pub fn new(drive: T, number: u8) -> Writer<T>
        requires { (T.tape drive).room ≡ 0 }
        ensures tape { result.tape ≡ T.tape drive }
        ensures faults { result.faults ≡ T.fault_count drive }
        ensures number { result.number ≡ number }
    {
        Writer {
            drive,
            number,
            mounted: false,
        }
    }

    /// Puts a block at the end, on the next volume where the mounted one is full.
    ///
    /// `TapeFault` comes only where the drive's count of faults rose in this call, `OutOfTape` only
    /// where the drive had no room for a block.
    pub fn put(&mut self, block: &[u8; BLOCK_LENGTH]) -> Result<(), TapeEnd>
        ensures ok { OnOk result (Puts self.old block.now self.new) }
        ensures err { IfErr result (EndsPut self.old block.now self.new) }
    {
        // each turn mounts one volume, so one that takes no block at all is passed over too
        loop {
            if self.mounted {
                match self.drive.write(block) {
                    Wrote::Done => return Ok(()),
                    Wrote::EndOfVolume => {}
                    Wrote::Failed => return Err(fault_of(&self.drive, self.number)),
                }
            }
            mount_next(&mut self.drive, self.number)?;
            self.mounted = true;
        }
    }

    /// Makes all blocks so far durable. `TapeFault`, the one refusal, comes only where the count rose.
    pub fn finish(&mut self) -> Result<(), TapeEnd>
        ensures ok { OnOk result (self.new ≡ record self.old { tape = all_synced self.old.tape }) }
        ensures err { IfErr result (EndsFinish self.old self.new) }
    {
        match self.drive.sync() {
            Ok(()) => Ok(()),
            Err(_) => Err(fault_of(&self.drive, self.number)),
        }
    }

    /// The drive.
    pub fn drive(&self) -> &T
        ensures tape { T.tape result.now ≡ self.now.tape }
        ensures faults { T.fault_count result.now ≡ self.now.faults }
    {
        &self.drive
    }

    /// Hands the drive back.
    pub fn into_drive(self) -> T
        ensures tape { T.tape result ≡ self.tape }
        ensures faults { T.fault_count result ≡ self.faults }
    {
        let Writer {
            drive,
            number: _,
            mounted: _,
        } = self;
        drive
    }
}

/// Mounts the next volume of the drive of this number, whose mounted volume takes no more blocks.
fn mount_next<T: Drive>(drive: &mut T, number: u8) -> Result<(), TapeEnd>
    requires { (T.tape drive.old).room ≡ 0 }
    ensures ok { OnOk result (MountsNext (T.tape drive.old) (T.fault_count drive.old)
        (T.tape drive.new) (T.fault_count drive.new)) }
    ensures err { IfErr result (EndsMounting number (T.tape drive.old) (T.fault_count drive.old)
        (T.tape drive.new) (T.fault_count drive.new)) }
{
    match drive.mount() {
        Mounted::Volume(_) => Ok(()),
        Mounted::NoMore => Err(TapeEnd::OutOfTape { drive: number }),
        Mounted::Failed => Err(fault_of(drive, number)),
    }
}

/// A fault of the drive of this number, with the count of faults that it shows now.
fn fault_of<T: Drive>(drive: &T, number: u8) -> TapeEnd
    ensures { result ≡ TapeEnd.TapeFault number (T.fault_count drive.now) }
{
    TapeEnd::TapeFault {
        drive: number,
        count: drive.faults(),
    }
}
