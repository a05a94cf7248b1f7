//! A tape drive: it mounts its volumes one after the other, and appends blocks to the one that is
//! mounted.

ghost use Rattle.std.specs.Prelude.{◌≡◌, ◌<◌, ◌≤◌, ◌+◌, ◌^◌, ℕ, length};
ghost use Rattle.ol_ports.specs.Causes.{HasCause, Rose};
ghost use Rattle.ol_ports.specs.declared.drive.Mounted.TheVariants.{Failed as MountFailed};
ghost use Rattle.ol_ports.specs.declared.drive.Wrote.TheVariants.{Failed as WriteFailed};
ghost use Rattle.ol_ports.specs.Drive.{Tape, Mounts, Writes, Syncs};

use crate::Failed;

/// The bytes of a block.
pub const BLOCK_LENGTH: usize = 2144;

/// What a mount answers.
#[derive(Clone, Copy, Debug, PartialEq, Eq)]
pub enum Mounted {
    /// The volume of this number is mounted; a drive counts its volumes from 1.
    Volume(u32),
    /// No volume is left.
    NoMore,
    /// The next volume was taken away, and none is mounted.
    Failed,
}

/// What the write of a block answers.
#[derive(Clone, Copy, Debug, PartialEq, Eq)]
pub enum Wrote {
    /// The block stands at the end of the volume.
    Done,
    /// The volume takes no more blocks.
    EndOfVolume,
    /// The block stands there whole or not at all, and the volume takes no more.
    Failed,
}

/// A tape drive. Its volumes only grow.
pub trait Drive: Drop {
    /// What contracts see of its volumes.
    ghost tape: { Self → Tape };

    /// How often a call has failed.
    ghost fault_count: { Self → ℕ };

    /// Mounts the next volume, where the one before takes no more blocks.
    fn mount(&mut self) -> Mounted
        requires { (tape self.old).room ≡ 0 }
        ensures gives { Mounts (tape self.old) result (tape self.new) }
        ensures later { fault_count self.old ≤ fault_count self.new }
        ensures cause { result ≡ MountFailed → Rose (fault_count self.old) (fault_count self.new) }
        ensures kept { (result ≡ MountFailed → ⊥) → fault_count self.new ≡ fault_count self.old };

    /// Appends a block to the volume that is mounted.
    fn write(&mut self, block: &[u8; BLOCK_LENGTH]) -> Wrote
        requires { 0 < (tape self.old).mounted }
        ensures gives { Writes (tape self.old) block.now result (tape self.new) }
        ensures later { fault_count self.old ≤ fault_count self.new }
        ensures cause { result ≡ WriteFailed → Rose (fault_count self.old) (fault_count self.new) }
        ensures kept { (result ≡ WriteFailed → ⊥) → fault_count self.new ≡ fault_count self.old };

    /// Makes all blocks so far durable, those of earlier volumes too. After `Failed`, which comes
    /// only where the count of faults rose, the mounted volume takes no more blocks.
    fn sync(&mut self) -> Result<(), Failed>
        ensures gives { Syncs (tape self.old) result (tape self.new) }
        ensures cause { HasCause (fault_count self.old) (fault_count self.new) result };

    /// How many volumes are left to mount.
    fn volumes_left(&self) -> u32
        ensures { result ≡ length (tape self.now).rooms };

    /// The count of faults, which stands still at the greatest `u64`.
    fn faults(&self) -> u64
        ensures { result ≡ fault_count self.now };
}
