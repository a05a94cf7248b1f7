//! The scan of the places of a log, which finds the standing run.

ghost use Rattle.std.specs.Prelude.{◌≡◌, ◌≢◌, ◌<◌, ◌≤◌, ◌+◌, ℕ, List, IfOk, IsErrOf, IsTrue, OnOk, if◌then◌else◌, length, map, true, ◌^◌, []};
ghost use Rattle.ol_values.specs.Config.{Config, log_pages};
ghost use Rattle.ol_rules.specs.DiskValue.{OpenLog};
ghost use Rattle.ol_record.specs.declared.head.LogHead.{LogHead as HeadValue};
ghost use Rattle.ol_values.specs.LogPages.{LogPage};
ghost use Rattle.ol_record.specs.LogPages.{head_of};
ghost use Rattle.ol_chunks.specs.Places.{log_area};
ghost use Rattle.ol_ports.specs.Disk.{seen};
ghost use Rattle.ol_log_places.specs.Heads.{AreInLog, AreInRun, AreLow};
ghost use Rattle.ol_log_places.specs.Places.{Bad as BadPlace, HasLog, Open as OpenPlace, in_log, is_of_place, place_in, places, Place};
ghost use Rattle.ol_log_places.specs.Runs.{IsOrderly, open_logs, run_in, with_place};
ghost use Rattle.ol_log_places.specs.Writes.{GatesAre};
ghost use Rattle.ol_log_places.specs.Scanning.{AreHeadsOf, HasScanCause, IsAt, IsFirstBad, IsFirstShared, IsRefused, IsSeenLow, seen_of, stood_of};

use crate::heads::{ScanFault, Stood, find_run};
use ol_chunks::ChunkTable;
use ol_ports::Disk;
use ol_record::{LogHead, PAGE_LENGTH, log_head};
use std::alloc::Global;
use std::marker::Model;

/// The gate byte of a page that counts.
const OPEN: u8 = 1;

/// The pages of the standing run, by position, and which gates of the log are open, in the run or outside of it. Contracts
/// see it as the two lists.
#[derive(Debug, Drop)]
pub struct Standing {
    pages: Vec<Stood>,
    gates: Vec<bool>,
}

impl Model for Standing {
    ghost use Rattle.ol_log_places.specs.Heads.{StandingLog};

    ghost Value = { StandingLog };

    ghost view = { λ s. record { run = s.pages.items; gates = s.gates.items } };
}

impl Standing {
    /// The pages of the run, by position.
    pub fn as_slice(&self) -> &[Stood]
        ensures { result.now ≡ self.now.run }
    {
        &self.pages
    }

    /// Of each place of the log whether its gate is open.
    pub fn gates(&self) -> &[bool]
        ensures { result.now ≡ self.now.gates }
    {
        &self.gates
    }

    /// The same list, in place of all.
    pub fn into_gates(self) -> Vec<bool>
        ensures { result.items ≡ self.gates }
    {
        self.gates
    }
}

/// What a reading of all places finds.
#[derive(Debug, Drop)]
pub struct OpenPages {
    /// The heads of all open pages, in order of place.
    pub heads: Vec<Stood>,
    /// Of each place whether its gate is open.
    pub gates: Vec<bool>,
}

/// Reads all places of the log, and finds the standing run: the open page with the greatest last position, and back from it page
/// by page as long as the one that ends just before is there. It also tells of each place whether its gate is open. It is
/// `open_pages` and then `standing_run`.
///
/// `BadDisk` names the first place that is open and holds no log page of that place; where there is none, the first place, in
/// order of place, whose page shares a position with an open page at a lower place. `DiskFault` comes only where the count of
/// faults of the log's chunk rose, and `NoMemory` where memory was refused. Nothing is written.
pub fn scan<D: Disk>(alloc: Global, disk: &mut D, table: &ChunkTable) -> Result<Standing, ScanFault>
    requires { HasLog table.now (D.sizes disk.old) }
    ensures run { D.tells → IfOk result (λ standing. standing.run ≡ map (stood_of table.now) (run_in (open_logs table.now (places table.now (seen (D.past disk.old)))))) }
    ensures gates { D.tells → IfOk result (λ standing. GatesAre standing.gates (places table.now (seen (D.past disk.old)))) }
    ensures count { IfOk result (λ standing. length standing.gates ≡ log_pages table.now) }
    // The run is one that a ring may start with, also over a disk that does not tell its bytes.
    ensures fits { IfOk result (λ standing. AreInRun table.now.log_file_pages standing.run) }
    ensures few { IfOk result (λ standing. length standing.run ≤ log_pages table.now) }
    ensures orderly { D.tells → OnOk result (IsOrderly (places table.now (seen (D.past disk.old))) (log_pages table.now)) }
    ensures bad { D.tells → (chunk page : ℕ) → IsErrOf result (ScanFault.BadDisk chunk page) → IsRefused table.now (places table.now (seen (D.past disk.old))) chunk page }
    // A page of the log is named, also over a disk that does not tell its bytes.
    ensures place { (chunk page : ℕ) → IsErrOf result (ScanFault.BadDisk chunk page) → in_log table.now chunk page ≡ true }
    ensures past { D.tells → D.past disk.new ≡ D.past disk.old }
    ensures sizes { D.sizes disk.new ≡ D.sizes disk.old }
    ensures cause { HasScanCause table.now (D.fault_counts disk.old) (D.fault_counts disk.new) result }
{
    match open_pages(alloc, disk, table) {
        Ok(OpenPages { heads, gates }) => match standing_run(alloc, &heads) {
            Ok(pages) => Ok(Standing { pages, gates }),
            Err(fault) => Err(fault),
        },
        Err(fault) => Err(fault),
    }
}

/// Finds the pages of the standing run among the heads of all open pages, which are in order of place.
///
/// `BadDisk` names the first page, in order of place, that shares a position with one at a lower place. `NoMemory` comes where
/// memory was refused, and `DiskFault` never.
pub fn standing_run(alloc: Global, heads: &[Stood]) -> Result<Vec<Stood>, ScanFault>
    requires { AreLow heads.now }
    ensures run { (c : Config) (r : ℕ → Place) → AreHeadsOf c r heads.now → IfOk result (λ run. run.items ≡ map (stood_of c) (run_in (open_logs c r))) }
    ensures orderly { (c : Config) (r : ℕ → Place) → AreHeadsOf c r heads.now → OnOk result (IsOrderly r (log_pages c)) }
    ensures bad { (c : Config) (r : ℕ → Place) → AreHeadsOf c r heads.now → (chunk page : ℕ) → IsErrOf result (ScanFault.BadDisk chunk page) → (place : ℕ) × IsAt c place chunk page × IsFirstShared c r place }
    ensures fits { (c : Config) → AreInLog c heads.now → IfOk result (λ run. AreInRun c.log_file_pages run.items) }
    ensures few { IfOk result (λ run. length run.items ≤ length heads.now) }
    ensures inside { (c : Config) → AreInLog c heads.now → (chunk page : ℕ) → IsErrOf result (ScanFault.BadDisk chunk page) → in_log c chunk page ≡ true }
    ensures disk { (chunk : ℕ) → IsErrOf result (ScanFault.DiskFault chunk) → ⊥ }
{
    find_run(alloc, heads)
}

/// Reads the heads of all open pages of the log, in order of place, those outside of the standing run among them, and of
/// each place whether its gate is open.
///
/// `BadDisk` names the first place that is open and holds no log page of that place. `DiskFault` comes only where the count of
/// faults of the log's chunk rose, and `NoMemory` where memory was refused. Nothing is written.
pub fn open_pages<D: Disk>(
    alloc: Global,
    disk: &mut D,
    table: &ChunkTable,
) -> Result<OpenPages, ScanFault>
    requires { HasLog table.now (D.sizes disk.old) }
    ensures heads { D.tells → IfOk result (λ found. AreHeadsOf table.now (places table.now (seen (D.past disk.old))) found.heads.items) }
    ensures gates { D.tells → IfOk result (λ found. GatesAre found.gates.items (places table.now (seen (D.past disk.old)))) }
    ensures count { IfOk result (λ found. length found.gates.items ≡ log_pages table.now) }
    ensures low { IfOk result (λ found. AreLow found.heads.items) }
    ensures inside { IfOk result (λ found. AreInLog table.now found.heads.items) }
    ensures few { IfOk result (λ found. length found.heads.items ≤ log_pages table.now) }
    ensures bad { D.tells → (chunk page : ℕ) → IsErrOf result (ScanFault.BadDisk chunk page) → (place : ℕ) × IsAt table.now place chunk page × IsFirstBad table.now (places table.now (seen (D.past disk.old))) place }
    ensures place { (chunk page : ℕ) → IsErrOf result (ScanFault.BadDisk chunk page) → in_log table.now chunk page ≡ true }
    ensures past { D.tells → D.past disk.new ≡ D.past disk.old }
    ensures sizes { D.sizes disk.new ≡ D.sizes disk.old }
    ensures cause { HasScanCause table.now (D.fault_counts disk.old) (D.fault_counts disk.new) result }
{
    let logs = table.logs();
    match Vec::with_capacity(alloc, (logs.count * logs.pages) as usize) {
        Ok(gates) => read_places(alloc, disk, table, gates),
        Err(_) => Err(ScanFault::NoMemory),
    }
}

/// Reads them, where memory for the gates is taken.
fn read_places<D: Disk>(
    alloc: Global,
    disk: &mut D,
    table: &ChunkTable,
    gates: Vec<bool>,
) -> Result<OpenPages, ScanFault>
    requires size { HasLog table.now (D.sizes disk.old) }
    requires none { gates.items ≡ [] }
    ensures heads { D.tells → IfOk result (λ found. AreHeadsOf table.now (places table.now (seen (D.past disk.old))) found.heads.items) }
    ensures gates { D.tells → IfOk result (λ found. GatesAre found.gates.items (places table.now (seen (D.past disk.old)))) }
    ensures count { IfOk result (λ found. length found.gates.items ≡ log_pages table.now) }
    ensures low { IfOk result (λ found. AreLow found.heads.items) }
    ensures inside { IfOk result (λ found. AreInLog table.now found.heads.items) }
    ensures few { IfOk result (λ found. length found.heads.items ≤ log_pages table.now) }
    ensures bad { D.tells → (chunk page : ℕ) → IsErrOf result (ScanFault.BadDisk chunk page) → (place : ℕ) × IsAt table.now place chunk page × IsFirstBad table.now (places table.now (seen (D.past disk.old))) place }
    ensures place { (chunk page : ℕ) → IsErrOf result (ScanFault.BadDisk chunk page) → in_log table.now chunk page ≡ true }
    ensures past { D.tells → D.past disk.new ≡ D.past disk.old }
    ensures sizes { D.sizes disk.new ≡ D.sizes disk.old }
    ensures cause { HasScanCause table.now (D.fault_counts disk.old) (D.fault_counts disk.new) result }
{
    let logs = table.logs();
    let mut page = [0; PAGE_LENGTH];
    let mut heads = Vec::new(alloc);
    let mut gates = gates;
    for place in 0..logs.count * logs.pages {
        match disk.read(logs.chunk, logs.first + place, &mut page) {
            Ok(()) => {}
            Err(_) => return Err(ScanFault::DiskFault { chunk: logs.chunk }),
        }
        match take_in(&mut heads, table, place, &page) {
            Ok(()) => {}
            Err(fault) => return Err(fault),
        }
        match gates.push(page[0] == OPEN) {
            Ok(()) => {}
            Err(_) => return Err(ScanFault::NoMemory),
        }
    }
    Ok(OpenPages { heads, gates })
}

/// Puts the head of an open page behind the others.
fn take_in(
    heads: &mut Vec<Stood>,
    table: &ChunkTable,
    place: u32,
    page: &[u8; PAGE_LENGTH],
) -> Result<(), ScanFault>
    requires place { place < log_pages table.now }
    requires fits { (log_area table.now).first + log_pages table.now < 2 ^ 32 }
    ensures heads { (logs : List OpenLog) → heads.old.items ≡ map (stood_of table.now) logs → OnOk result (heads.new.items ≡ map (stood_of table.now) (with_place table.now (place_in table.now place page.now) logs)) }
    ensures good { OnOk result (place_in table.now place page.now ≢ BadPlace) }
    ensures low { AreLow heads.old.items → OnOk result (AreLow heads.new.items) }
    ensures inside { AreInLog table.now heads.old.items → OnOk result (AreInLog table.now heads.new.items) }
    ensures few { OnOk result (length heads.new.items ≤ length heads.old.items + 1) }
    ensures bad { (chunk at : ℕ) → IsErrOf result (ScanFault.BadDisk chunk at) → IsAt table.now place chunk at × (place_in table.now place page.now ≡ BadPlace) }
    ensures disk { (chunk : ℕ) → IsErrOf result (ScanFault.DiskFault chunk) → ⊥ }
{
    let logs = table.logs();
    match seen_at(table, place, page) {
        Seen::Closed => Ok(()),
        Seen::Bad => Err(ScanFault::BadDisk {
            chunk: logs.chunk,
            page: logs.first + place,
        }),
        Seen::Open(stood) => match heads.push(stood) {
            Ok(()) => Ok(()),
            Err(_) => Err(ScanFault::NoMemory),
        },
    }
}

/// What is seen of a place.
enum Seen {
    Closed,
    Bad,
    Open(Stood),
}

/// What is seen of a place by the bytes of its page.
fn seen_at(table: &ChunkTable, place: u32, page: &[u8; PAGE_LENGTH]) -> Seen
    requires place { place < log_pages table.now }
    requires fits { (log_area table.now).first + log_pages table.now < 2 ^ 32 }
    ensures seen { result ≡ seen_of table.now (place_in table.now place page.now) }
    ensures low { IsSeenLow table.now result }
{
    if page[0] != OPEN {
        return Seen::Closed;
    }
    match log_head(page) {
        Some(head) => seen_open(table, place, head),
        None => Seen::Bad,
    }
}

/// What is seen of a place before a log page, by the head of that.
fn seen_open(table: &ChunkTable, place: u32, head: LogHead) -> Seen
    requires place { place < log_pages table.now }
    requires fits { (log_area table.now).first + log_pages table.now < 2 ^ 32 }
    requires uniq { 1 ≤ head.uniq }
    ensures seen { (p : LogPage) → head ≡ head_of p → result ≡ seen_of table.now (if is_of_place table.now place p then OpenPlace p else BadPlace) }
    ensures low { 1 ≤ head.count → head.first + head.count ≤ 2 ^ 62 → 1 ≤ head.first → head.uniq ≤ 2 ^ 62 → IsSeenLow table.now result }
{
    let logs = table.logs();
    if !is_head_of_place(table, place, head) {
        return Seen::Bad;
    }
    Seen::Open(Stood {
        chunk: logs.chunk,
        page: logs.first + place,
        head,
    })
}

/// Whether a page of this head is one of the place, by its index and its unique number.
#[tactic(auto, unfolding(crate::specs::Places::is_of_place))]
fn is_head_of_place(table: &ChunkTable, place: u32, head: LogHead) -> bool
    requires place { place < log_pages table.now }
    requires uniq { 1 ≤ head.uniq }
    ensures place { (p : LogPage) → head ≡ head_of p → result ≡ is_of_place table.now place p }
    ensures index { IsTrue result → (head.index < table.now.log_file_pages) × (head.index < 1000) }
{
    let logs = table.logs();
    let file = ((head.uniq - 1) % u64::from(logs.count)) as u32;
    head.index < logs.pages && place == file * logs.pages + head.index
}
