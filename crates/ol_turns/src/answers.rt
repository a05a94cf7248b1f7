//! How a turn that the parts answered is told.

ghost use Rattle.std.specs.Prelude.{◌≡◌, ◌≢◌, ◌<◌, ◌≤◌, ◌-◌, ◌^◌, Err, IfOk, IfSome, None, OnErr, false, slice_index_or, ℕ};
ghost use Rattle.ol_model.specs.History.{is_faulted};
ghost use Rattle.ol_ports.specs.Causes.{HasFailed};
ghost use Rattle.ol_storage.specs.Causes.{HasStorageCause};
ghost use Rattle.ol_storage.specs.declared.storage.StorageFault.TheVariants.{NoMemory as MemoryFault, Stopped as StoppedFault};
ghost use Rattle.ol_values.specs.Config.{Config};
ghost use Rattle.ol_chunks.specs.Limits.{chunk_count};
ghost use Rattle.ol_turns.specs.Cores.{AreCounts, HasReplyCause, IsToldAs, IsToldSurely, entry_of, with_entry};

use crate::NoMemory;
use crate::state::State;
use ol_ports::Disk;
use ol_storage::StorageFault;
use ol_values::{By, Event, Reply};
use std::alloc::AllocError;

impl State {
    /// Tells a turn that the parts answered, and enters it: a fault is told by its chunk or its page, and stops the engine. At want of
    /// memory nothing is entered. `start` is the number of the disk's last call as the turn began.
    pub(crate) fn finish<D: Disk>(
        &mut self,
        disk: &D,
        by: By,
        event: Event,
        start: u64,
        answered: Result<Reply, StorageFault>,
    ) -> Result<Reply, NoMemory>
        requires room { 0 < self.old.entries.spare }
        requires going { answered ≡ Err StoppedFault → ⊥ }
        ensures told { IsToldAs answered result }
        ensures ok { IfOk result (λ reply. self.new ≡ with_entry self.old (entry_of self.old by event start (D.moment disk.now) reply)) }
        ensures err { OnErr result (self.new ≡ self.old) }
        ensures cause { (c : Config) (before : ℕ → ℕ) → AreCounts before self.old.counts → chunk_count c.spaces ≤ 32 → HasStorageCause c before (D.fault_counts disk.now) answered → IfOk answered (λ reply. is_faulted reply ≡ false) → IfOk result (HasReplyCause before (D.fault_counts disk.now)) }
    {
        match told(disk, &self.counts, answered) {
            Ok(reply) => {
                self.enter(by, event, start, disk.calls(), &reply);
                Ok(reply)
            }
            Err(fault) => Err(fault),
        }
    }

    /// The same of a turn to which memory is never refused.
    pub(crate) fn finish_surely<D: Disk>(
        &mut self,
        disk: &D,
        by: By,
        event: Event,
        start: u64,
        answered: Result<Reply, StorageFault>,
    ) -> Reply
        requires room { 0 < self.old.entries.spare }
        requires going { answered ≡ Err StoppedFault → ⊥ }
        requires memory { answered ≡ Err MemoryFault → ⊥ }
        ensures told { IsToldSurely answered result }
        ensures state { self.new ≡ with_entry self.old (entry_of self.old by event start (D.moment disk.now) result) }
        ensures cause { (c : Config) (before : ℕ → ℕ) → AreCounts before self.old.counts → chunk_count c.spaces ≤ 32 → HasStorageCause c before (D.fault_counts disk.now) answered → IfOk answered (λ reply. is_faulted reply ≡ false) → HasReplyCause before (D.fault_counts disk.now) result }
    {
        match told(disk, &self.counts, answered) {
            Ok(reply) => {
                self.enter(by, event, start, disk.calls(), &reply);
                reply
            }
            Err(_) => unreachable!(),
        }
    }
}

// What is told of a turn that the parts answered so.
fn told<D: Disk>(
    disk: &D,
    counts: &[u64; 32],
    answered: Result<Reply, StorageFault>,
) -> Result<Reply, NoMemory>
    requires going { answered ≡ Err StoppedFault → ⊥ }
    ensures told { IsToldAs answered result }
    ensures cause { (c : Config) (before : ℕ → ℕ) → AreCounts before counts.now → chunk_count c.spaces ≤ 32 → HasStorageCause c before (D.fault_counts disk.now) answered → IfOk answered (λ reply. is_faulted reply ≡ false) → IfOk result (HasReplyCause before (D.fault_counts disk.now)) }
{
    match answered {
        Ok(reply) => Ok(reply),
        Err(StorageFault::Failed) => Ok(Reply::DiskFault {
            chunk: failed_chunk(disk, counts),
        }),
        Err(StorageFault::Bad { chunk, page }) => Ok(Reply::BadRead { chunk, page }),
        Err(StorageFault::NoMemory) => Err(AllocError),
        Err(StorageFault::Stopped) => unreachable!(),
    }
}

// The chunk of which a call failed, by the counts as the engine began.
fn failed_chunk<D: Disk>(disk: &D, counts: &[u64; 32]) -> u8
    ensures { (before : ℕ → ℕ) (chunk : ℕ) → AreCounts before counts.now → chunk < 32 → HasFailed chunk before (D.fault_counts disk.now) → HasFailed result before (D.fault_counts disk.now) }
{
    match changed_chunk(disk, counts) {
        Some(chunk) => chunk,
        None => full_chunk(counts),
    }
}

// A chunk of which the count is another than it was.
fn changed_chunk<D: Disk>(disk: &D, counts: &[u64; 32]) -> Option<u8>
    ensures changed { IfSome result (λ chunk. (chunk < 32) × (slice_index_or counts.now chunk 0 ≢ D.fault_counts disk.now chunk)) }
    ensures same { result ≡ None → AreCounts (D.fault_counts disk.now) counts.now }
{
    for chunk in 0..32u8 {
        if disk.faults(chunk) != counts[usize::from(chunk)] {
            return Some(chunk);
        }
    }
    None
}

// A chunk of which the count stands still, where there is one.
fn full_chunk(counts: &[u64; 32]) -> u8
    ensures { (chunk : ℕ) → chunk < 32 → slice_index_or counts.now chunk 0 ≡ 2 ^ 64 - 1 → (result < 32) × (slice_index_or counts.now result 0 ≡ 2 ^ 64 - 1) }
{
    for chunk in 0..32u8 {
        if counts[usize::from(chunk)] == u64::MAX {
            return chunk;
        }
    }
    0
}
