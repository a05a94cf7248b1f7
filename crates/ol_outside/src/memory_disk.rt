//! A disk in memory, which fails where it is told to, and what a stop may leave of it.

ghost use Rattle.std.specs.Prelude.{◌≡◌, ◌∷◌, [], map, ◌<◌, ◌≤◌, ◌+◌, ◌*◌, ◌-◌, ◌^◌, ◌⊎◌, ℕ, List, length, min, true, false, IfOk, OnOk, OnErr, is_err, slice_index, slice_set, if◌then◌else◌, ◌==◌, replicate};
ghost use Rattle.ol_ports.specs.Causes.{HasChunkCause, risen};
ghost use Rattle.ol_outside.specs.Chunks.{lengths, zero_chunks, HasPage};
ghost use Rattle.ol_outside.specs.Devices.{DiskState, EndsWrite, disk_pages, chunk_faults, last_moment, fresh_disk, LeavesNothing};
ghost use Rattle.ol_ports.specs.Disk.{Past, Bytes, seen, Rest, Left, page_list, Writes, Syncs, Wrote, Synced, moments};
ghost use Rattle.ol_outside.specs.Faults.{next_fails, after_call, faults_in_all, CountsCall};
ghost use Rattle.ol_outside.specs.Images.{chosen, stopped_within};
ghost use Rattle.ol_outside.specs.KeptCalls.{calls_of, passes, PassesOver, Agrees};

use crate::chunks::Chunks;
use crate::faults::Faults;
use crate::kept_calls::{Kept, Order, keep, keep_write};
use crate::replay::{image, stopped_at};
use crate::{Disk, Failed, NoMemory};
use std::alloc::Global;
use std::marker::Model;

/// What stands in the places of which a stop may leave any bytes.
#[derive(Clone, Copy, Debug, PartialEq, Eq)]
pub enum Choice {
    /// What the last sync of the chunk left there.
    Old,
    /// What was written there last.
    New,
    /// This byte.
    Fill(u8),
}

/// A disk that keeps its chunks in memory, with each call that has changed them.
#[derive(Debug, Drop)]
pub struct MemoryDisk {
    alloc: Global,
    // The bytes that it began with, and those that it reads.
    base: Chunks,
    bytes: Chunks,
    // The pages of each chunk.
    sizes: Vec<u32>,
    // The calls that have changed something, and how many have left nothing since.
    kept: Vec<Kept>,
    passed: u64,
    moment: u64,
    // How often each chunk has failed.
    counts: Vec<u64>,
    faults: Faults,
}

impl Model for MemoryDisk {
    ghost use Rattle.std.specs.Prelude.{◌≡◌, length};
    ghost use Rattle.ol_outside.specs.Devices.{DiskState};
    ghost use Rattle.ol_outside.specs.KeptCalls.{calls_of, Agrees};

    ghost Value = { DiskState };

    ghost view = { λ d. record {
      past = record { base = d.base; calls = calls_of d.kept.items d.passed };
      sizes = d.sizes.items;
      counts = d.counts.items;
      faults = d.faults;
    } };

    ghost invariant = { λ d. Agrees d.base d.bytes (calls_of d.kept.items d.passed) d.sizes.items d.moment
        × (length d.counts.items ≡ length d.sizes.items) };
}

impl MemoryDisk {
    /// A disk of chunks of so many pages each, all zero and durable. Its calls of the numbers in
    /// `failing` answer `Failed`; each read, write and sync is counted, from 1.
    ///
    /// `NoMemory` where memory for the chunks or for a copy of a list is refused.
    pub fn new(alloc: Global, sizes: &[u32], failing: &[u64]) -> Result<MemoryDisk, NoMemory>
        ensures { IfOk result (λ disk. disk ≡ fresh_disk (zero_chunks sizes.now) sizes.now failing.now) }
    {
        let zeroes = Chunks::zeroed(alloc, sizes)?;
        begin(alloc, zeroes, sizes, failing)
    }

    /// How often a call was refused memory, which is counted up to the greatest `u64`.
    pub fn starved(&self) -> u64
        ensures { result ≡ self.now.faults.starved }
    {
        self.faults.starved()
    }

    /// The disk that a stop within the call of number `moment` may leave, with the bytes of the choice
    /// wherever the stop may leave any; moment 0 is before the first call. It is durable, has no call and no fault, and no call of it is to
    /// fail. A stop within a sync is one before it; a stop within a write may leave any bytes in its range.
    ///
    /// `NoMemory` where memory for the new disk is refused.
    pub fn left(&self, moment: u64, choice: Choice) -> Result<MemoryDisk, NoMemory>
        requires made { moment ≤ last_moment self.now }
        requires below { moment < 2 ^ 64 - 1 }
        ensures fresh { IfOk result (λ disk. disk ≡ fresh_disk disk.past.base self.now.sizes []) }
        ensures bytes { IfOk result (λ disk. (c p i : ℕ) → seen disk.past c p i ≡ chosen choice self.now.past.base (stopped_within self.now.past.calls moment) c p i) }
        ensures left { IfOk result (λ disk. Left self.now.past moment (seen disk.past)) }
    {
        let count = stopped_at(&self.kept, moment);
        let bytes = image(self.alloc, &self.base, &self.kept[..count], choice)?;
        begin(self.alloc, bytes, &self.sizes, &[])
    }

    /// The disk that a stop after the last call may leave, likewise.
    ///
    /// `NoMemory` where memory for the new disk is refused.
    pub fn rest(&self, choice: Choice) -> Result<MemoryDisk, NoMemory>
        ensures fresh { IfOk result (λ disk. disk ≡ fresh_disk disk.past.base self.now.sizes []) }
        ensures bytes { IfOk result (λ disk. (c p i : ℕ) → seen disk.past c p i ≡ chosen choice self.now.past.base self.now.past.calls c p i) }
        ensures rest { IfOk result (λ disk. Rest self.now.past (seen disk.past)) }
    {
        let bytes = image(self.alloc, &self.base, &self.kept, choice)?;
        begin(self.alloc, bytes, &self.sizes, &[])
    }

    /// Loses a chunk: its bytes are zero from then on. The disk is durable, and its moments run on: what
    /// the calls so far have left is what it begins with from now on. All other bytes, the sizes and the
    /// faults are as before.
    pub fn clear(&mut self, chunk: u8)
        requires { 0 < disk_pages self.old chunk }
        ensures bytes { (c p i : ℕ) → seen self.new.past c p i ≡ (if c == chunk then 0 else seen self.old.past c p i) }
        ensures state { self.new ≡ record self.old { past = record { base = self.new.past.base; calls = passes (last_moment self.old) [] } } }
    {
        self.bytes.zero(chunk);
        self.base.take_all(&self.bytes);
        self.kept.clear();
        self.passed = self.moment;
    }
}

impl Disk for MemoryDisk {
    ghost use Rattle.std.proofs.Common.{arith};

    ghost tells = { Unit {0} };

    ghost past = { λ d. d.past };

    ghost sizes = { disk_pages };

    ghost fault_counts = { chunk_faults };

    ghost moment = { last_moment };

    ghost counted = { λ d told. Prim.omega arith };

    ghost bounded = { λ d chunk. Prim.omega arith };

    /// The pages of a chunk, 0 for a chunk that is not there.
    fn size(&self, chunk: u8) -> u32 {
        match self.sizes.get(chunk as usize) {
            Some(pages) => *pages,
            None => 0,
        }
    }

    /// Reads a page into `buf`.
    ///
    /// `Failed` where the call's number is listed, and nowhere else; `buf` is then as before.
    fn read(&mut self, chunk: u8, page: u32, buf: &mut [u8]) -> Result<(), Failed>
        requires page { page < disk_pages self.old chunk }
        requires buf { length buf.old ≡ 2048 }
        ensures bytes { Unit {0} → OnOk result (buf.new ≡ page_list (seen self.old.past) chunk page) }
        ensures past { Unit {0} → self.new.past ≡ self.old.past }
        ensures sizes { disk_pages self.new ≡ disk_pages self.old }
        ensures moment { last_moment self.new ≡ last_moment self.old }
        ensures cause { HasChunkCause chunk (chunk_faults self.old) (chunk_faults self.new) result }

        ensures unread { OnErr result (buf.new ≡ buf.old) }
        ensures fails { is_err result ≡ next_fails self.old.faults }
        ensures counted { self.new.faults ≡ after_call (is_err result) self.old.faults }
    {
        if self.faults.fails() {
            count_fault(&mut self.counts, chunk);
            return Err(Failed);
        }
        buf.copy_from_slice(self.bytes.page(chunk, page));
        Ok(())
    }

    /// Writes bytes into a page, from an offset on.
    ///
    /// `Failed` where the call's number is listed or memory is refused, and nowhere else. A call that is
    /// listed writes its bytes all the same, unless memory to keep it is refused too. One that is refused
    /// memory leaves all as it was, and is counted in `starved`.
    fn write_at(&mut self, chunk: u8, page: u32, offset: u16, bytes: &[u8]) -> Result<(), Failed>
        requires page { page < disk_pages self.old chunk }
        requires range { offset + length bytes.now ≤ 2048 }
        ensures past { Unit {0} → Writes self.old.past self.new.past chunk page offset bytes.now result }
        ensures sizes { disk_pages self.new ≡ disk_pages self.old }
        ensures moment { last_moment self.new ≡ risen (last_moment self.old) }
        ensures cause { HasChunkCause chunk (chunk_faults self.old) (chunk_faults self.new) result }

        ensures ends { EndsWrite self.old self.new chunk page offset bytes.now result }
    {
        self.moment = self.moment.saturating_add(1);
        let listed = self.faults.fails();
        let written = write(
            self.alloc,
            &mut self.bytes,
            &mut self.kept,
            &mut self.passed,
            chunk,
            page,
            offset,
            bytes,
        );
        if written.is_err() {
            self.faults.starve();
            count_fault(&mut self.counts, chunk);
            return Err(Failed);
        }
        if listed {
            count_fault(&mut self.counts, chunk);
            return Err(Failed);
        }
        Ok(())
    }

    /// Makes what was written to a chunk durable.
    ///
    /// `Failed` where the call's number is listed or memory is refused, and nowhere else; a refusal is
    /// counted in `starved`. Nothing is changed then.
    fn sync(&mut self, chunk: u8) -> Result<(), Failed>
        requires { 0 < disk_pages self.old chunk }
        ensures past { Unit {0} → Syncs self.old.past self.new.past chunk result }
        ensures sizes { disk_pages self.new ≡ disk_pages self.old }
        ensures moment { last_moment self.new ≡ risen (last_moment self.old) }
        ensures cause { HasChunkCause chunk (chunk_faults self.old) (chunk_faults self.new) result }

        ensures failed { OnErr result (LeavesNothing self.old.past self.new.past) }
        ensures counted { CountsCall self.old.faults (is_err result) self.new.faults }
    {
        self.moment = self.moment.saturating_add(1);
        if self.faults.fails() {
            self.passed = self.passed.saturating_add(1);
            count_fault(&mut self.counts, chunk);
            return Err(Failed);
        }
        if sync(&mut self.kept, &mut self.passed, chunk).is_err() {
            self.faults.starve();
            count_fault(&mut self.counts, chunk);
            return Err(Failed);
        }
        Ok(())
    }

    /// The count of faults of a chunk, which stands still at the greatest `u64`; 0 for a chunk that is
    /// not there.
    fn faults(&self, chunk: u8) -> u64 {
        match self.counts.get(chunk as usize) {
            Some(count) => *count,
            None => 0,
        }
    }

    /// The number of calls of `write_at` and `sync` so far, which stands still at the greatest `u64`.
    fn calls(&self) -> u64 {
        self.moment
    }
}

// A disk that begins with these bytes.
fn begin(
    alloc: Global,
    bytes: Chunks,
    sizes: &[u32],
    failing: &[u64],
) -> Result<MemoryDisk, NoMemory>
    requires { lengths bytes ≡ map (λ pages. 2048 * pages) sizes.now }
    ensures { IfOk result (λ disk. disk ≡ fresh_disk bytes sizes.now failing.now) }
{
    Ok(MemoryDisk {
        alloc,
        base: bytes.copy(alloc)?,
        bytes,
        sizes: Vec::from_slice(alloc, sizes)?,
        kept: Vec::new(alloc),
        passed: 0,
        moment: 0,
        counts: vec![in alloc; 0u64; sizes.len()]?,
        faults: Faults::new(alloc, failing)?,
    })
}

// Keeps a write and does it, or counts it among those that left nothing.
fn write(
    alloc: Global,
    bytes: &mut Chunks,
    kept: &mut Vec<Kept>,
    passed: &mut u64,
    chunk: u8,
    page: u32,
    offset: u16,
    piece: &[u8],
) -> Result<(), NoMemory>
    requires page { HasPage bytes.old chunk page }
    requires range { offset + length piece.now ≤ 2048 }
    ensures ok { OnOk result (calls_of kept.new.items passed.new ≡ Wrote chunk page offset piece.now ∷ calls_of kept.old.items passed.old) }
    ensures err { OnErr result (PassesOver (calls_of kept.old.items passed.old) (calls_of kept.new.items passed.new)) }
    ensures agrees { (base : List (List ℕ)) (sizes : List ℕ) (moment : ℕ) → Agrees base bytes.old (calls_of kept.old.items passed.old) sizes moment → Agrees base bytes.new (calls_of kept.new.items passed.new) sizes (risen moment) }
{
    match keep_write(alloc, kept, passed, chunk, page, offset, piece) {
        Ok(()) => {
            bytes.put(chunk, page, offset, piece);
            Ok(())
        }
        Err(refused) => {
            *passed = passed.saturating_add(1);
            Err(refused)
        }
    }
}

// Keeps a sync, or counts it among the calls that left nothing.
fn sync(kept: &mut Vec<Kept>, passed: &mut u64, chunk: u8) -> Result<(), NoMemory>
    ensures ok { OnOk result (calls_of kept.new.items passed.new ≡ Synced chunk ∷ calls_of kept.old.items passed.old) }
    ensures err { OnErr result (PassesOver (calls_of kept.old.items passed.old) (calls_of kept.new.items passed.new)) }
{
    match keep(kept, passed, Order::Sync { chunk }) {
        Ok(()) => Ok(()),
        Err(refused) => {
            *passed = passed.saturating_add(1);
            Err(refused)
        }
    }
}

// Counts a fault of a chunk.
fn count_fault(counts: &mut Vec<u64>, chunk: u8)
    requires { chunk < length counts.old.items }
    ensures counted { counts.new.items ≡ slice_set counts.old.items chunk (risen (slice_index counts.old.items chunk)) }
    ensures later { slice_index counts.old.items chunk ≤ risen (slice_index counts.old.items chunk) }
{
    let count = &mut counts[chunk as usize];
    *count = count.saturating_add(1);
}
