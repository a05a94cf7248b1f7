//! The log files of a disk, as a ring.

ghost use Rattle.std.specs.Prelude.{◌≡◌, ◌<◌, ◌≤◌, ◌+◌, ◌^◌, IfOk, IfSome, IsErrOf, None, OnOk, Some, false, true, ℕ, if◌then◌else◌, length};
ghost use Rattle.std.specs.List.{AllByRecursion};
ghost use Rattle.ol_values.specs.declared.record.Record.{Record as RecordValue};
ghost use Rattle.ol_values.specs.Config.{log_pages};
ghost use Rattle.ol_chunks.specs.Places.{log_area};
ghost use Rattle.ol_ports.specs.Disk.{seen};
ghost use Rattle.ol_ports.specs.Frames.{IsQuiet};
ghost use Rattle.ol_log_places.specs.Heads.{IsInRun};
ghost use Rattle.ol_log_places.specs.Places.{HasLog, in_log, places};
ghost use Rattle.ol_log_places.specs.Runs.{IsLogged, IsNear};
ghost use Rattle.ol_log_state.specs.RingState.{first_uniq, started};
ghost use Rattle.ol_log_state.specs.StoredFiles.{heads_in};
ghost use Rattle.ol_loglog.specs.Ready.{IsInOrder, IsReady};
ghost use Rattle.ol_loglog.specs.RingValue.{ring_value};
ghost use Rattle.ol_reserve.specs.Anchor.{IsAnchor};
ghost use Rattle.ol_log_opening.specs.Opened.{EndsAt, HasLogCause, IsOpenedLog, end_behind, lacks, next_behind, ring_start};

use ol_chunks::ChunkTable;
use ol_log_places::{ScanFault, Standing, Stood, scan};
use ol_log_state::RingStart;
use ol_loglog::LogRing;
use ol_ports::Disk;
use ol_reserve::Anchor;
use std::alloc::Global;

/// The greatest position that the checkpoint of a journal may have: one below 2^62.
const LAST_POSITION: u64 = 4611686018427387903;

/// Why the log of a disk was not opened.
#[derive(Clone, Copy, Debug, PartialEq, Eq)]
pub enum LogOpenFault {
    /// This log page is open and off its grammar, or shares a position with another; or the log lacks a position that the
    /// anchor needs, and this is its first page.
    BadDisk { chunk: u8, page: u32 },
    /// A read from this chunk failed.
    DiskFault { chunk: u8 },
    /// Memory was refused.
    NoMemory,
}

/// Reads the log files of a disk, and gives the ring that stands in them, for an anchor that is the newest. Nothing is written.
///
/// `BadDisk` names a page that a scan refuses, or the first log page, where the standing run lacks a position that the anchor
/// needs. `DiskFault` comes only where the count of faults of the log's chunk rose.
pub fn read_log<D: Disk>(
    alloc: Global,
    disk: &mut D,
    table: &ChunkTable,
    anchor: &Anchor,
) -> Result<LogRing, LogOpenFault>
    requires size { HasLog table.now (D.sizes disk.old) }
    requires low { (1 ≤ anchor.now.incarnation) × (anchor.now.incarnation ≤ 2 ^ 62) × (1 ≤ anchor.now.uniq) × (anchor.now.uniq ≤ 2 ^ 62) × (anchor.now.backed < 2 ^ 62) }
    ensures opened { IfOk result (λ ring. IsOpenedLog table.now anchor.now ring) }
    ensures ready { D.tells → IsQuiet (D.past disk.old) → (j : ℕ → RecordValue) (last : ℕ) → anchor.now.need ≤ anchor.now.position + 1 → anchor.now.position ≤ last → IsLogged table.now (places table.now (seen (D.past disk.old))) j anchor.now.need (last + 1)
        → IsNear table.now (places table.now (seen (D.past disk.old))) (first_uniq (ring_start anchor.now (last + 1))) (last + 1)
        → IfOk result (λ ring. (ring.state.next ≡ last + 1) × IsReady (D.past disk.new) ring (places table.now (seen (D.past disk.old))) anchor.now.need j × IsInOrder table.now ring.state) }
    // A disk whose log pages hold a journal from the need on to a last position is opened. Where nothing of it is needed, the
    // page that ends last is there still, or none is.
    ensures whole { D.tells → (j : ℕ → RecordValue) (last : ℕ) → anchor.now.need ≤ anchor.now.position + 1 → anchor.now.position ≤ last → anchor.now.position < 2 ^ 62 → IsLogged table.now (places table.now (seen (D.past disk.old))) j anchor.now.need (last + 1)
        → (anchor.now.need ≡ last + 1 → EndsAt table.now (places table.now (seen (D.past disk.old))) (last + 1)) → (chunk page : ℕ) → IsErrOf result (LogOpenFault.BadDisk chunk page) → ⊥ }
    ensures place { (chunk page : ℕ) → IsErrOf result (LogOpenFault.BadDisk chunk page) → in_log table.now chunk page ≡ true }
    ensures past { D.tells → D.past disk.new ≡ D.past disk.old }
    ensures sizes { D.sizes disk.new ≡ D.sizes disk.old }
    ensures cause { HasLogCause (log_area table.now).chunk (D.fault_counts disk.old) (D.fault_counts disk.new) result }
{
    // It tells that the configuration is within its limits.
    let _spaces = table.spaces();
    match scan(alloc, disk, table) {
        Ok(standing) => open_ring(alloc, table, anchor, standing),
        Err(ScanFault::BadDisk { chunk, page }) => Err(LogOpenFault::BadDisk { chunk, page }),
        Err(ScanFault::DiskFault { chunk }) => Err(LogOpenFault::DiskFault { chunk }),
        Err(ScanFault::NoMemory) => Err(LogOpenFault::NoMemory),
    }
}

/// The ring of a standing run, where it has all that the anchor needs.
fn open_ring(
    alloc: Global,
    table: &ChunkTable,
    anchor: &Anchor,
    standing: Standing,
) -> Result<LogRing, LogOpenFault>
    requires low { (1 ≤ anchor.now.incarnation) × (anchor.now.incarnation ≤ 2 ^ 62) × (1 ≤ anchor.now.uniq) × (anchor.now.uniq ≤ 2 ^ 62) × (anchor.now.backed < 2 ^ 62) }
    requires run { AllByRecursion (λ s. IsInRun table.now.log_file_pages s.head) standing.run }
    requires few { length standing.run ≤ log_pages table.now }
    requires gates { length standing.gates ≡ log_pages table.now }
    ensures value { IfOk result (λ ring. ring ≡ ring_value table.now (started (log_area table.now) (ring_start anchor.now (next_behind anchor.now.position standing.run)) (heads_in standing.run)) standing.gates) }
    ensures whole { OnOk result (lacks anchor.now.position anchor.now.need standing.run ≡ false) }
    ensures lack { (chunk page : ℕ) → IsErrOf result (LogOpenFault.BadDisk chunk page) → lacks anchor.now.position anchor.now.need standing.run ≡ true }
    ensures place { (chunk page : ℕ) → IsErrOf result (LogOpenFault.BadDisk chunk page) → in_log table.now chunk page ≡ true }
    ensures fault { (chunk : ℕ) → IsErrOf result (LogOpenFault.DiskFault chunk) → ⊥ }
{
    let Some(next) = next_position(standing.as_slice(), anchor.position, anchor.need) else {
        let area = table.logs();
        return Err(LogOpenFault::BadDisk {
            chunk: area.chunk,
            page: area.first,
        });
    };
    let start = RingStart {
        incarnation: anchor.incarnation,
        uniq: anchor.uniq,
        backed: anchor.backed,
        need: anchor.need,
        next,
    };
    match LogRing::new(alloc, table.copy(), standing, start) {
        Ok(ring) => Ok(ring),
        Err(_) => Err(LogOpenFault::NoMemory),
    }
}

/// The position of the next record behind a run; None where the run lacks a position that an anchor with this checkpoint and
/// need wants.
fn next_position(run: &[Stood], position: u64, need: u64) -> Option<u64>
    requires { (pages : ℕ) × AllByRecursion (λ s. IsInRun pages s.head) run.now }
    ensures value { result ≡ (if lacks position need run.now then None else Some (next_behind position run.now)) }
    ensures limits { IfSome result (λ next. (1 ≤ next) × (next ≤ 2 ^ 62)) }
{
    if position > LAST_POSITION {
        return None;
    }
    let Some((first, _)) = run.split_first() else {
        return if need <= position {
            None
        } else {
            Some(position + 1)
        };
    };
    let next = end_of(run);
    let begin = first.head.first;
    if (need <= position && need < begin) || position + 1 < begin || next <= position {
        return None;
    }
    Some(next)
}

/// The position behind the last record of a run, which is not empty.
fn end_of(run: &[Stood]) -> u64
    requires some { 0 < length run.now }
    requires run { (pages : ℕ) × AllByRecursion (λ s. IsInRun pages s.head) run.now }
    ensures value { result ≡ end_behind 0 run.now }
    ensures limits { (1 ≤ result) × (result ≤ 2 ^ 62) }
{
    let last = &run[run.len() - 1];
    last.head.first + u64::from(last.head.count)
}
