//! A disk of chunks of pages, and what a stop at any moment may leave of it.

ghost use Rattle.std.specs.Prelude.{◌≡◌, ◌<◌, ◌≤◌, ◌+◌, ◌-◌, ◌^◌, ℕ, length, min, OnOk};
ghost use Rattle.ol_ports.specs.Causes.{risen, HasChunkCause};
ghost use Rattle.ol_ports.specs.Disk.{Past, seen, moments, page_list, Writes, Syncs};
ghost use Rattle.ol_ports.specs.Frames.{TornFrom, IsDurable};
ghost use Rattle.ol_ports.specs.Stops.{Stops};

use crate::Failed;

/// The bytes of a page.
pub const PAGE_LENGTH: usize = 2048;

/// A disk of up to 256 chunks of pages. A moment is the number of one call of `write_at` or `sync`,
/// counted from 1; the numbers stand still at the greatest `u64`.
///
/// A stop within a moment may leave any bytes in each range that was written since the last sync of
/// its chunk that succeeded, a range of a write that failed too. All other bytes are as written.
pub trait Disk {
    /// Whether it tells its bytes.
    ghost tells: { Type 0 };

    /// What it was asked so far, where it tells.
    ghost past: { Self → Past };

    /// The pages of each chunk, 0 for a chunk that is not there.
    ghost sizes: { Self → ℕ → ℕ };

    /// How often each chunk has failed.
    ghost fault_counts: { Self → ℕ → ℕ };

    /// The moment of the last call of `write_at` or `sync`, 0 for none.
    ghost moment: { Self → ℕ };

    /// The pages of a chunk, 0 for a chunk that is not there. They never change.
    fn size(&self, chunk: u8) -> u32
        ensures { result ≡ sizes self.now chunk };

    /// Reads a page into `buf`, as it was last written.
    ///
    /// `Failed` comes only where the count of faults of the chunk rose; `buf` may then hold anything.
    fn read(&mut self, chunk: u8, page: u32, buf: &mut [u8]) -> Result<(), Failed>
        requires page { page < sizes self.old chunk }
        requires buf { length buf.old ≡ PAGE_LENGTH }
        ensures bytes { tells → OnOk result (buf.new ≡ page_list (seen (past self.old)) chunk page) }
        ensures past { tells → past self.new ≡ past self.old }
        ensures sizes { sizes self.new ≡ sizes self.old }
        ensures moment { moment self.new ≡ moment self.old }
        ensures cause { HasChunkCause chunk (fault_counts self.old) (fault_counts self.new) result };

    /// Writes bytes into a page, from an offset on. They are durable only after a sync of the chunk.
    ///
    /// `Failed` comes only where the count of faults of the chunk rose. The range then reads as any
    /// bytes, or as before.
    fn write_at(&mut self, chunk: u8, page: u32, offset: u16, bytes: &[u8]) -> Result<(), Failed>
        requires page { page < sizes self.old chunk }
        requires range { offset + length bytes.now ≤ PAGE_LENGTH }
        ensures past { tells → Writes (past self.old) (past self.new) chunk page offset bytes.now result }
        ensures sizes { sizes self.new ≡ sizes self.old }
        ensures moment { moment self.new ≡ risen (moment self.old) }
        ensures cause { HasChunkCause chunk (fault_counts self.old) (fault_counts self.new) result };

    /// Makes what was written to a chunk durable.
    ///
    /// `Failed` comes only where the count of faults of the chunk rose. Nothing more is durable then.
    fn sync(&mut self, chunk: u8) -> Result<(), Failed>
        requires { 0 < sizes self.old chunk }
        ensures past { tells → Syncs (past self.old) (past self.new) chunk result }
        ensures sizes { sizes self.new ≡ sizes self.old }
        ensures moment { moment self.new ≡ risen (moment self.old) }
        ensures cause { HasChunkCause chunk (fault_counts self.old) (fault_counts self.new) result };

    /// The count of faults of a chunk, which stands still at the greatest `u64`.
    fn faults(&self, chunk: u8) -> u64
        ensures { result ≡ fault_counts self.now chunk };

    /// The moment of the last call of `write_at` or `sync`, 0 for none.
    fn calls(&self) -> u64
        ensures { result ≡ moment self.now };

    /// Each call of `write_at` or `sync` has a number of its own, as far as a `u64` counts.
    ghost counted: { (disk : Self) → tells → moment disk ≡ min (moments (past disk)) (2 ^ 64 - 1) };

    /// The pages of a chunk are a `u32`.
    ghost bounded: { (disk : Self) (chunk : ℕ) → sizes disk chunk < 2 ^ 32 };
}

/// Writes bytes into a page, from an offset on, and syncs the chunk. A stop within the two calls leaves
/// the page torn in no more than that range.
///
/// `Failed` comes only where the count of faults of the chunk rose. A stop later may then still leave
/// the range torn.
pub fn write_synced<D: Disk>(
    disk: &mut D,
    chunk: u8,
    page: u32,
    offset: u16,
    bytes: &[u8],
) -> Result<(), Failed>
    requires page { page < D.sizes disk.old chunk }
    requires range { offset + length bytes.now ≤ PAGE_LENGTH }
    ensures stops { D.tells → Stops (D.past disk.old) (D.past disk.new) (TornFrom (D.past disk.old) chunk page offset (length bytes.now)) }
    ensures ok { D.tells → OnOk result (IsDurable (D.past disk.old) (D.past disk.new) chunk page offset bytes.now) }
    ensures sizes { D.sizes disk.new ≡ D.sizes disk.old }
    ensures later { (c : ℕ) → D.fault_counts disk.old c ≤ D.fault_counts disk.new c }
    ensures cause { HasChunkCause chunk (D.fault_counts disk.old) (D.fault_counts disk.new) result }
{
    disk.write_at(chunk, page, offset, bytes)?;
    disk.sync(chunk)
}
