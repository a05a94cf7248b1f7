//! The shelf: the tapes that the drives wrote, to be read.

ghost use Rattle.std.specs.Prelude.{◌≡◌, ◌<◌, ◌≤◌, ℕ, List, IfOk, OnOk};
ghost use Rattle.ol_ports.specs.Causes.{HasCause};
ghost use Rattle.ol_ports.specs.Shelf.{volume_count, block_count, block_at, shape_of, HasVolume, HasBlock};

use crate::{BLOCK_LENGTH, Failed};

/// The number of drives, which are counted from 0.
pub const DRIVES: u8 = 5;

/// What five drives wrote: of each drive its volumes, counted from 1, and of each volume its blocks,
/// counted from 0. Nothing of it changes.
pub trait Shelf {
    /// Whether it tells its blocks.
    ghost tells: { Type 0 };

    /// Of each drive the number of blocks of each volume.
    ghost shape: { Self → List (List ℕ) };

    /// Of each drive its volumes, each the list of its blocks, where it tells.
    ghost tapes: { Self → List (List (List (List ℕ))) };

    /// How often a call has failed.
    ghost fault_count: { Self → ℕ };

    /// The number of volumes of a drive.
    ///
    /// `Failed` comes only where the count of faults rose.
    fn volumes(&mut self, drive: u8) -> Result<u32, Failed>
        requires { drive < DRIVES }
        ensures count { IfOk result (λ n. n ≡ volume_count (shape self.old) drive) }
        ensures shape { shape self.new ≡ shape self.old }
        ensures tapes { tells → tapes self.new ≡ tapes self.old }
        ensures cause { HasCause (fault_count self.old) (fault_count self.new) result };

    /// The number of blocks of a volume.
    ///
    /// `Failed` comes only where the count of faults rose.
    fn blocks(&mut self, drive: u8, volume: u32) -> Result<u32, Failed>
        requires drive { drive < DRIVES }
        requires volume { HasVolume (shape self.old) drive volume }
        ensures count { IfOk result (λ n. n ≡ block_count (shape self.old) drive volume) }
        ensures shape { shape self.new ≡ shape self.old }
        ensures tapes { tells → tapes self.new ≡ tapes self.old }
        ensures cause { HasCause (fault_count self.old) (fault_count self.new) result };

    /// Reads a block into `buf`.
    ///
    /// `Failed` comes only where the count of faults rose; `buf` may then hold anything.
    fn read(
        &mut self,
        drive: u8,
        volume: u32,
        block: u32,
        buf: &mut [u8; BLOCK_LENGTH],
    ) -> Result<(), Failed>
        requires drive { drive < DRIVES }
        requires block { HasBlock (shape self.old) drive volume block }
        ensures block { tells → OnOk result (buf.new ≡ block_at (tapes self.old) drive volume block) }
        ensures shape { shape self.new ≡ shape self.old }
        ensures tapes { tells → tapes self.new ≡ tapes self.old }
        ensures cause { HasCause (fault_count self.old) (fault_count self.new) result };

    /// The count of faults, which stands still at the greatest `u64`.
    fn faults(&self) -> u64
        ensures { result ≡ fault_count self.now };

    /// The shape is that of the blocks that it tells.
    ghost shaped: { (shelf : Self) → tells → shape shelf ≡ shape_of (tapes shelf) };
}
