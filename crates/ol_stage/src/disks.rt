//! A disk that fails where it is told to and says what isn't so.

ghost use Rattle.std.specs.Prelude.{◌≡◌, ◌<◌, ◌≤◌, ◌+◌, ◌-◌, ◌^◌, length, min, slice_index, slice_set};
ghost use Rattle.ol_ports.specs.Causes.{HasChunkCause, risen};

use crate::grounds::{CHUNKS, Spoiled};
use ol_outside::{Disk, Failed, PAGE_LENGTH};

/// A disk over another one. It tells nothing of its bytes: it says that its chunks have the pages of `sizes`, and some
/// of its pages are spoiled. A page that the disk beneath lacks reads as zeros, and takes no write.
#[derive(Drop)]
pub struct SceneDisk<D> {
    /// The disk beneath.
    pub disk: D,
    /// The pages that it says that each chunk has.
    pub sizes: [u32; CHUNKS],
    /// The pages that read as one byte all over.
    pub spoiled: Vec<Spoiled>,
    /// The calls that are to fail, counted from 1 over reads, writes and syncs.
    pub failing: Vec<u64>,
    /// How often each chunk has failed.
    pub counts: [u64; CHUNKS],
    /// How many calls there were.
    pub asked: u64,
    /// How many of them were writes and syncs.
    pub moment: u64,
}

impl<D: Disk> Disk for SceneDisk<D> {
    ghost use Rattle.std.specs.Prelude.{[]};
    ghost use Rattle.std.proofs.Common.{arith};

    ghost tells = { ⊥ };

    ghost past = { λ _. record { base = []; calls = [] } };

    ghost sizes = { λ d c. min (slice_index d.sizes c) (2 ^ 32 - 1) };

    ghost fault_counts = { λ d c. slice_index d.counts c };

    ghost moment = { λ d. d.moment };

    ghost counted = { λ d told. absurd told };

    ghost bounded = { λ d chunk. Prim.omega arith };

    /// The pages that it says that a chunk has.
    fn size(&self, chunk: u8) -> u32 {
        match self.sizes.get(chunk as usize) {
            Some(pages) => *pages,
            None => 0,
        }
    }

    /// Reads a page. `Failed` where the call is listed, or the disk beneath fails.
    fn read(&mut self, chunk: u8, page: u32, buf: &mut [u8]) -> Result<(), Failed> {
        let listed = is_listed(&mut self.asked, &self.failing);
        if listed || read_page(&mut self.disk, chunk, page, buf).is_err() {
            return Err(count_fault(&mut self.counts, chunk));
        }
        spoil(&self.spoiled, chunk, page, buf);
        Ok(())
    }

    /// Writes bytes into a page, also where the call is listed and so fails.
    fn write_at(&mut self, chunk: u8, page: u32, offset: u16, bytes: &[u8]) -> Result<(), Failed> {
        self.moment = self.moment.saturating_add(1);
        let listed = is_listed(&mut self.asked, &self.failing);
        let written = write_piece(&mut self.disk, chunk, page, offset, bytes);
        if listed || written.is_err() {
            return Err(count_fault(&mut self.counts, chunk));
        }
        Ok(())
    }

    /// Makes what was written to a chunk durable; not where the call is listed.
    fn sync(&mut self, chunk: u8) -> Result<(), Failed> {
        self.moment = self.moment.saturating_add(1);
        let synced = if is_listed(&mut self.asked, &self.failing) {
            pass_over(&mut self.disk, chunk)
        } else {
            sync_chunk(&mut self.disk, chunk)
        };
        match synced {
            Ok(()) => Ok(()),
            Err(Failed) => Err(count_fault(&mut self.counts, chunk)),
        }
    }

    /// The count of faults of a chunk, 0 for one that is not there.
    fn faults(&self, chunk: u8) -> u64 {
        match self.counts.get(chunk as usize) {
            Some(count) => *count,
            None => 0,
        }
    }

    /// The number of calls of `write_at` and `sync`.
    fn calls(&self) -> u64 {
        self.moment
    }
}

/// Counts a call, and tells whether it is listed.
pub fn is_listed(asked: &mut u64, failing: &[u64]) -> bool {
    *asked = asked.saturating_add(1);
    failing.contains(asked)
}

/// Counts a fault of a chunk.
fn count_fault(counts: &mut [u64; CHUNKS], chunk: u8) -> Failed
    requires { chunk < 32 }
    ensures counted { counts.new ≡ slice_set counts.old chunk (risen (slice_index counts.old chunk)) }
    ensures later { slice_index counts.old chunk ≤ risen (slice_index counts.old chunk) }
{
    let count = &mut counts[chunk as usize];
    *count = count.saturating_add(1);
    Failed
}

/// Reads a page, zeros where it is not there.
fn read_page<D: Disk>(disk: &mut D, chunk: u8, page: u32, buf: &mut [u8]) -> Result<(), Failed> {
    if page < disk.size(chunk) && buf.len() == PAGE_LENGTH {
        return disk.read(chunk, page, buf);
    }
    buf.fill(0);
    Ok(())
}

/// Lets a page that is spoiled read as its byte.
fn spoil(spoiled: &[Spoiled], chunk: u8, page: u32, buf: &mut [u8]) {
    for place in spoiled {
        if place.chunk == chunk && place.page == page {
            buf.fill(place.byte);
        }
    }
}

/// Writes bytes into a page, where it is there.
fn write_piece<D: Disk>(
    disk: &mut D,
    chunk: u8,
    page: u32,
    offset: u16,
    bytes: &[u8],
) -> Result<(), Failed> {
    let fits = bytes.len() <= PAGE_LENGTH && usize::from(offset) <= PAGE_LENGTH - bytes.len();
    if page < disk.size(chunk) && fits {
        return disk.write_at(chunk, page, offset, bytes);
    }
    Ok(())
}

/// Syncs a chunk, where it is there.
fn sync_chunk<D: Disk>(disk: &mut D, chunk: u8) -> Result<(), Failed> {
    if disk.size(chunk) > 0 {
        return disk.sync(chunk);
    }
    Ok(())
}

/// Makes a sync fail that leaves nothing. A write of no byte keeps the numbers of the calls of both disks the same.
fn pass_over<D: Disk>(disk: &mut D, chunk: u8) -> Result<(), Failed> {
    let _ = write_piece(disk, chunk, 0, 0, &[]);
    Err(Failed)
}
