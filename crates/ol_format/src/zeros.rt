//! The clearing of a disk.

ghost use Rattle.std.specs.Prelude.{◌≡◌, ◌<◌, ◌≤◌, ℕ, IsErrOf, None, OnOk};
ghost use Rattle.ol_ports.specs.Causes.{HasChunkCause};
ghost use Rattle.ol_ports.specs.Disk.{seen};
ghost use Rattle.ol_ports.specs.Frames.{FramedAt, FramedIn, IsSettledIn, ReadsAs, in_chunk, in_pages};
ghost use Rattle.ol_ports.specs.Stops.{Stops};
ghost use Rattle.ol_chunks.specs.Places.{in_spaces};
ghost use Rattle.ol_chunks.specs.Limits.{chunk_count};
ghost use Rattle.ol_reserve.specs.Pair.{Newest};
ghost use Rattle.ol_format.specs.Causes.{HasFormatCause};
ghost use Rattle.ol_format.specs.First.{AreLarge, chunks_of};
ghost use Rattle.ol_format.specs.Formatted.{AreZeroed, IsBlank, IsZeroed, first_page, is_gate, zeros};

use crate::FormatFault;
use ol_chunks::ChunkTable;
use ol_ports::{Disk, Failed, PAGE_LENGTH};

/// The gate byte of a page that does not count.
const SHUT: u8 = 0;

/// Closes the gates of both pages of the anchor pair, with one sync behind them.
pub(crate) fn close_pair<D: Disk>(disk: &mut D) -> Result<(), Failed>
    requires { 2 ≤ D.sizes disk.old 0 }
    ensures ok { D.tells → OnOk result (IsBlank (D.past disk.new)) }
    ensures stops { D.tells → Stops (D.past disk.old) (D.past disk.new) (FramedAt (D.past disk.old) is_gate) }
    ensures sizes { D.sizes disk.new ≡ D.sizes disk.old }
    ensures cause { HasChunkCause 0 (D.fault_counts disk.old) (D.fault_counts disk.new) result }
{
    match shut_pair(disk) {
        Ok(()) => disk.sync(0),
        Err(failed) => Err(failed),
    }
}

/// Closes the gates of both pages, of page 0 first.
fn shut_pair<D: Disk>(disk: &mut D) -> Result<(), Failed>
    requires { 2 ≤ D.sizes disk.old 0 }
    ensures ok { D.tells → OnOk result (ReadsAs is_gate zeros (seen (D.past disk.new))) }
    ensures stops { D.tells → Stops (D.past disk.old) (D.past disk.new) (FramedAt (D.past disk.old) is_gate) }
    ensures sizes { D.sizes disk.new ≡ D.sizes disk.old }
    ensures cause { HasChunkCause 0 (D.fault_counts disk.old) (D.fault_counts disk.new) result }
{
    match disk.write_at(0, 0, 0, &[SHUT]) {
        Ok(()) => disk.write_at(0, 1, 0, &[SHUT]),
        Err(failed) => Err(failed),
    }
}

/// Zeroes the pages of all chunks of spaces, but for those of the anchor pair.
pub(crate) fn zero_chunks<D: Disk>(disk: &mut D, table: &ChunkTable) -> Result<(), FormatFault>
    requires { AreLarge (D.sizes disk.old) table.now (chunks_of table.now) }
    ensures ok { D.tells → IsBlank (D.past disk.old) → OnOk result (AreZeroed (D.past disk.new) table.now (chunk_count table.now.spaces)) }
    ensures stops { D.tells → IsBlank (D.past disk.old) → Stops (D.past disk.old) (D.past disk.new) (λ d. Newest d None) }
    ensures frame { D.tells → Stops (D.past disk.old) (D.past disk.new) (FramedIn (D.past disk.old) (in_spaces table.now)) }
    ensures small { (chunk : ℕ) → IsErrOf result (FormatFault.TooSmall chunk) → ⊥ }
    ensures cause { HasFormatCause (D.fault_counts disk.old) (D.fault_counts disk.new) result }
    ensures sizes { D.sizes disk.new ≡ D.sizes disk.old }
{
    // the last chunk is the temporary one, whose bytes no one reads
    for chunk in 0..table.chunks() - 1 {
        match zero_pages(disk, chunk, first_of(chunk), table.chunk_pages(chunk)) {
            Ok(()) => {}
            Err(_) => return Err(FormatFault::DiskFault { chunk }),
        }
    }
    Ok(())
}

/// The first page of a chunk that is zeroed.
fn first_of(chunk: u8) -> u32
    ensures { result ≡ first_page chunk }
{
    if chunk == 0 { 2 } else { 0 }
}

/// Zeroes these pages of a chunk, up to `end`, with one sync behind them.
fn zero_pages<D: Disk>(disk: &mut D, chunk: u8, from: u32, end: u32) -> Result<(), Failed>
    requires there { end ≤ D.sizes disk.old chunk }
    requires some { 0 < D.sizes disk.old chunk }
    ensures ok { D.tells → OnOk result (IsZeroed (D.past disk.new) chunk from end) }
    ensures settled { D.tells → OnOk result (IsSettledIn (D.past disk.new) (in_chunk chunk)) }
    ensures stops { D.tells → Stops (D.past disk.old) (D.past disk.new) (FramedIn (D.past disk.old) (in_pages chunk from end)) }
    ensures sizes { D.sizes disk.new ≡ D.sizes disk.old }
    ensures cause { HasChunkCause chunk (D.fault_counts disk.old) (D.fault_counts disk.new) result }
{
    match write_zeros(disk, chunk, from, end) {
        Ok(()) => disk.sync(chunk),
        Err(failed) => Err(failed),
    }
}

/// Writes zeros over these pages of a chunk, up to `end`.
fn write_zeros<D: Disk>(disk: &mut D, chunk: u8, from: u32, end: u32) -> Result<(), Failed>
    requires { end ≤ D.sizes disk.old chunk }
    ensures ok { D.tells → OnOk result (ReadsAs (λ c p i. in_pages chunk from end c p) zeros (seen (D.past disk.new))) }
    ensures stops { D.tells → Stops (D.past disk.old) (D.past disk.new) (FramedIn (D.past disk.old) (in_pages chunk from end)) }
    ensures sizes { D.sizes disk.new ≡ D.sizes disk.old }
    ensures cause { HasChunkCause chunk (D.fault_counts disk.old) (D.fault_counts disk.new) result }
{
    let zeros = [0; PAGE_LENGTH];
    for page in from..end {
        match disk.write_at(chunk, page, 0, &zeros) {
            Ok(()) => {}
            Err(failed) => return Err(failed),
        }
    }
    Ok(())
}
