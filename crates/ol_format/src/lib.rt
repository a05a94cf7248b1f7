//! The formatting of a disk: what stood on it is cleared, and the first anchor of an installation is written.
#![tactic(auto)]

mod first;
mod zeros;

ghost use Rattle.std.specs.Prelude.{◌≡◌, ◌≤◌, ℕ, IsErrOf, OnOk};
ghost use Rattle.ol_ports.specs.Disk.{Bytes, Rest};
ghost use Rattle.ol_ports.specs.Frames.{FramedIn, IsSettledIn};
ghost use Rattle.ol_ports.specs.Stops.{Stops};
ghost use Rattle.ol_reserve.specs.Pair.{IsReadyAt};
ghost use Rattle.ol_chunks.specs.Places.{in_spaces};
ghost use Rattle.ol_chunks.specs.Limits.{IsConfig, chunk_count};
ghost use Rattle.ol_values.specs.Config.{Config};
ghost use Rattle.ol_format.specs.Causes.{HasFormatCause};
ghost use Rattle.ol_format.specs.First.{AreLarge, IsFirstOf, IsFirstSmall, chunks_of, first_anchor};
ghost use Rattle.ol_format.specs.Formatted.{AreZeroed, IsBetween, IsBlankOrFormatted, IsClosing, IsFormatted};

use crate::first::make_first;
use crate::zeros::{close_pair, zero_chunks};
pub use first::first_small;
use ol_chunks::ChunkTable;
use ol_ports::Disk;
use ol_reserve::{Anchor, Pair};

/// Why a disk was not formatted.
#[derive(Clone, Copy, Debug, PartialEq, Eq)]
pub enum FormatFault {
    /// This chunk, the first such, has fewer pages than the configuration says. The disk is as it was.
    TooSmall { chunk: u8 },
    /// A call of the disk on this chunk failed. The disk may be formatted again.
    DiskFault { chunk: u8 },
}

/// Formats a disk for an installation of this configuration: the gates of the anchor pair are closed first, so that a
/// stop from then on leaves no installation; then the other pages of all spaces' chunks are zeroed, and the first
/// anchor is written. Whatever stood on the disk, and wherever an earlier call of this stopped, serves.
///
/// `TooSmall` comes exactly where a chunk, the temporary one among them, has fewer pages than the configuration says;
/// `DiskFault` only where the count of faults of that chunk rose. It takes no memory.
pub fn format<D: Disk>(disk: &mut D, table: &ChunkTable) -> Result<(), FormatFault>
    // What is read, and what each stop afterwards leaves, is a formatted disk: the first anchor stands on page 0, and all pages
    // of the configuration are as they read.
    ensures ok { D.tells → OnOk result ((d : Bytes) → Rest (D.past disk.new) d → IsFormatted d table.now) }
    ensures ready { D.tells → OnOk result (IsReadyAt (D.past disk.new) 0 (first_anchor table.now)) }
    ensures settled { D.tells → OnOk result (IsSettledIn (D.past disk.new) (in_spaces table.now)) }
    // A stop within the call, or behind one that failed, leaves what was there but for the gates, no anchor, or a formatted disk.
    ensures stops { D.tells → Stops (D.past disk.old) (D.past disk.new) (IsBetween (D.past disk.old) table.now) }
    // The temporary chunk and the pages behind those of the configuration stay as they were.
    ensures frame { D.tells → Stops (D.past disk.old) (D.past disk.new) (FramedIn (D.past disk.old) (in_spaces table.now)) }
    ensures small { (chunk : ℕ) → IsErrOf result (FormatFault.TooSmall chunk) → IsFirstSmall (D.sizes disk.old) table.now chunk }
    ensures large { ((chunk : ℕ) → IsErrOf result (FormatFault.TooSmall chunk) → ⊥) → AreLarge (D.sizes disk.old) table.now (chunks_of table.now) }
    ensures untouched { (chunk : ℕ) → IsErrOf result (FormatFault.TooSmall chunk) → disk.new ≡ disk.old }
    ensures cause { HasFormatCause (D.fault_counts disk.old) (D.fault_counts disk.new) result }
    ensures sizes { D.sizes disk.new ≡ D.sizes disk.old }
{
    match first_small(disk, table) {
        Some(chunk) => Err(FormatFault::TooSmall { chunk }),
        None => format_large(disk, table),
    }
}

/// Formats a disk whose chunks are large enough.
fn format_large<D: Disk>(disk: &mut D, table: &ChunkTable) -> Result<(), FormatFault>
    requires { AreLarge (D.sizes disk.old) table.now (chunks_of table.now) }
    ensures ok { D.tells → OnOk result ((d : Bytes) → Rest (D.past disk.new) d → IsFormatted d table.now) }
    ensures ready { D.tells → OnOk result (IsReadyAt (D.past disk.new) 0 (first_anchor table.now)) }
    ensures settled { D.tells → OnOk result (IsSettledIn (D.past disk.new) (in_spaces table.now)) }
    ensures stops { D.tells → Stops (D.past disk.old) (D.past disk.new) (IsBetween (D.past disk.old) table.now) }
    ensures frame { D.tells → Stops (D.past disk.old) (D.past disk.new) (FramedIn (D.past disk.old) (in_spaces table.now)) }
    ensures small { (chunk : ℕ) → IsErrOf result (FormatFault.TooSmall chunk) → ⊥ }
    ensures cause { HasFormatCause (D.fault_counts disk.old) (D.fault_counts disk.new) result }
    ensures sizes { D.sizes disk.new ≡ D.sizes disk.old }
{
    let anchor = make_first(table);
    match clear(disk, table) {
        Ok(()) => write_first(disk, &anchor),
        Err(fault) => Err(fault),
    }
}

/// Closes the pair, and zeroes all other pages of the spaces' chunks.
fn clear<D: Disk>(disk: &mut D, table: &ChunkTable) -> Result<(), FormatFault>
    requires large { AreLarge (D.sizes disk.old) table.now (chunks_of table.now) }
    requires pair { 2 ≤ D.sizes disk.old 0 }
    requires config { IsConfig table.now }
    ensures ok { D.tells → OnOk result (AreZeroed (D.past disk.new) table.now (chunk_count table.now.spaces)) }
    ensures stops { D.tells → Stops (D.past disk.old) (D.past disk.new) (IsClosing (D.past disk.old)) }
    ensures frame { D.tells → Stops (D.past disk.old) (D.past disk.new) (FramedIn (D.past disk.old) (in_spaces table.now)) }
    ensures small { (chunk : ℕ) → IsErrOf result (FormatFault.TooSmall chunk) → ⊥ }
    ensures cause { HasFormatCause (D.fault_counts disk.old) (D.fault_counts disk.new) result }
    ensures sizes { D.sizes disk.new ≡ D.sizes disk.old }
{
    match close_pair(disk) {
        Ok(()) => zero_chunks(disk, table),
        Err(_) => Err(FormatFault::DiskFault { chunk: 0 }),
    }
}

/// Writes the first anchor of a configuration to a disk that is cleared for it.
fn write_first<D: Disk>(disk: &mut D, anchor: &Anchor) -> Result<(), FormatFault>
    requires { 2 ≤ D.sizes disk.old 0 }
    ensures ok { D.tells → (c : Config) → IsFirstOf c anchor.now → AreZeroed (D.past disk.old) c (chunk_count c.spaces) → OnOk result ((d : Bytes) → Rest (D.past disk.new) d → IsFormatted d c) }
    ensures ready { D.tells → (c : Config) → IsFirstOf c anchor.now → AreZeroed (D.past disk.old) c (chunk_count c.spaces) → OnOk result (IsReadyAt (D.past disk.new) 0 (first_anchor c)) }
    ensures settled { D.tells → (c : Config) → IsFirstOf c anchor.now → AreZeroed (D.past disk.old) c (chunk_count c.spaces) → OnOk result (IsSettledIn (D.past disk.new) (in_spaces c)) }
    ensures stops { D.tells → (c : Config) → IsFirstOf c anchor.now → AreZeroed (D.past disk.old) c (chunk_count c.spaces) → Stops (D.past disk.old) (D.past disk.new) (IsBlankOrFormatted c) }
    ensures frame { D.tells → (c : Config) → IsConfig c → Stops (D.past disk.old) (D.past disk.new) (FramedIn (D.past disk.old) (in_spaces c)) }
    ensures small { (chunk : ℕ) → IsErrOf result (FormatFault.TooSmall chunk) → ⊥ }
    ensures cause { HasFormatCause (D.fault_counts disk.old) (D.fault_counts disk.new) result }
    ensures sizes { D.sizes disk.new ≡ D.sizes disk.old }
{
    match Pair::write(disk, anchor) {
        Ok(()) => Ok(()),
        Err(_) => Err(FormatFault::DiskFault { chunk: 0 }),
    }
}
