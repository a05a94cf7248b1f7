//! The log ring.

ghost use Rattle.std.specs.List.{AllByRecursion};
ghost use Rattle.std.specs.Bool.{OnFalse};
ghost use Rattle.std.specs.Option.{option_map};
ghost use Rattle.std.specs.Prelude.{◌≡◌, ◌<◌, ◌≤◌, ◌+◌, ◌*◌, ◌-◌, ◌^◌, [], IfOk, IfSome, IsErrOf, List, OnOk, is_some, length, slice_get, ℕ};
ghost use Rattle.ol_values.specs.declared.record.Record.{Record as RecordValue};
ghost use Rattle.ol_values.specs.Config.{log_pages};
ghost use Rattle.ol_values.specs.Spelling.{KeepsRules};
ghost use Rattle.ol_rules.specs.DiskValue.{AnchorValue, OpenLog, ring_found};
ghost use Rattle.ol_rules.specs.Ring.{blocker, file_of, flushed, free, free_after_switch, is_reusable, logged, page_of, room, switched_off, to_back_up, use_numbered};
ghost use Rattle.ol_chunks.specs.Places.{log_area};
ghost use Rattle.ol_ports.specs.Causes.{HasChunkCause};
ghost use Rattle.ol_ports.specs.Disk.{Past, page_list, seen};
ghost use Rattle.ol_ports.specs.Frames.{FramedIn, ReadsOutside};
ghost use Rattle.ol_ports.specs.Stops.{Stops};
ghost use Rattle.ol_log_places.specs.Places.{HasLog, Place, in_log};
ghost use Rattle.ol_log_places.specs.Runs.{HoldsLog};
ghost use Rattle.ol_log_state.specs.Files.{is_closed_use, next_page, told_use};
ghost use Rattle.ol_log_state.specs.RingState.{IsNextToBack, IsStart, heads_of_logs, ring_of, started, stood_holding, switched, with_backed, with_need};
ghost use Rattle.ol_log_state.specs.StoredFiles.{heads_in};
ghost use Rattle.ol_log_places.specs.Heads.{IsInRun};
ghost use Rattle.ol_log_state.specs.Uses.{range_of_head};
ghost use Rattle.ol_loglog.specs.RingValue.{HasRoom, IsLogRing, first_unwritten, flushed_state, logged_state, ring_value, with_state};
ghost use Rattle.ol_loglog.specs.PageReads.{HasReadCause, HoldsPage, IsBadAt, IsPageOf};
ghost use Rattle.ol_loglog.specs.Ready.{IsFloor, IsInOrder, IsNextFree, IsReady};

use crate::pages::{append_record, flush_page};
use crate::reading::{LogReadFault, read_page};
use ol_chunks::{Area, ChunkTable};
use ol_log_places::{Standing, Stood};
use ol_log_state::{LogState, NoMemory, RingStart, Use};
use ol_ports::{Disk, Failed};
use ol_record::PAGE_LENGTH;
use ol_values::Record;
use std::alloc::Global;
use std::marker::Model;

/// The log ring of an installation. It does not own the disk, which is lent to it.
#[derive(Drop)]
pub struct LogRing {
    table: ChunkTable,
    state: LogState,
    // Of each place of the log, whether its gate is open.
    gates: Vec<bool>,
}

impl Model for LogRing {
    ghost use Rattle.ol_loglog.specs.RingValue.{IsLogRing, RingValue, ring_value};

    ghost Value = { RingValue };

    ghost view = { λ r. ring_value r.table r.state r.gates.items };

    ghost invariant = { λ r. IsLogRing (ring_value r.table r.state r.gates.items) };
}

impl LogRing {
    /// The ring of what a scan found, with nothing buffered. It takes all memory that the ring ever needs; `NoMemory` where
    /// there is not so much.
    pub fn new(
        alloc: Global,
        table: ChunkTable,
        standing: Standing,
        start: RingStart,
    ) -> Result<LogRing, NoMemory>
        requires start { IsStart start }
        requires run { AllByRecursion (λ s. IsInRun table.log_file_pages s.head) standing.run }
        requires few { length standing.run ≤ log_pages table }
        requires gates { length standing.gates ≡ log_pages table }
        ensures value { IfOk result (λ r. r ≡ ring_value table (started (log_area table) start (heads_in standing.run)) standing.gates) }
        // It is the ring that an opening finds.
        ensures ring { (a : AnchorValue) (logs : List OpenLog) → a.uniq ≡ start.uniq → a.lasting.backed ≡ start.backed → heads_of_logs logs ≡ heads_in standing.run → IfOk result (λ r. ring_of r.state ≡ ring_found a logs) }
    {
        let _ = table.spaces();
        let state = LogState::new(alloc, &table, standing.as_slice(), start)?;
        let gates = standing.into_gates();
        Ok(LogRing {
            table,
            state,
            gates,
        })
    }

    /// The configuration of the installation.
    pub fn table(&self) -> &ChunkTable
        ensures value { result.now ≡ self.now.config }
        ensures ring { IsLogRing self.now }
    {
        &self.table
    }

    /// Where the log files stand on the disk, which has to have all these pages when it is lent to the ring.
    pub fn area(&self) -> Area
        ensures { result ≡ log_area self.now.config }
    {
        self.table.logs()
    }

    /// The pages that may still be written, less one where a record is buffered.
    pub fn free_pages(&self) -> u32
        ensures value { result ≡ free self.now.config self.now.state.reuse (ring_of self.now.state) }
        ensures limits { IsLogRing self.now }
        // Where there is room for the page of the buffered records, a file that it enters may be entered.
        ensures entry { (past : Past) (r : ℕ → Place) (floor : ℕ) (j : ℕ → RecordValue) → IsReady past self.now r floor j → IsFloor self.now.state floor → IsInOrder self.now.config self.now.state → HasRoom self.now.config self.now.state → IsNextFree self.now r floor }
    {
        self.state.free_pages()
    }

    /// What `free_pages` would be after a flush and a switch.
    pub fn free_after_switch(&self) -> u32
        ensures { result ≡ free_after_switch self.now.config self.now.state.reuse (ring_of self.now.state) }
    {
        self.state.free_after_switch()
    }

    /// The unique number of the use in the first file after the current one that may not be reused, or the current one where
    /// all others may.
    pub fn blocker(&self) -> u64
        ensures { result ≡ blocker self.now.config self.now.state.reuse (ring_of self.now.state) }
    {
        self.state.blocker()
    }

    /// Whether the file of a unique number may be used again.
    pub fn reusable(&self, uniq: u64) -> bool
        ensures value { result ≡ is_reusable self.now.config self.now.state.reuse (ring_of self.now.state) (file_of self.now.config uniq) }
        ensures limits { IsLogRing self.now }
    {
        self.state.reusable(uniq)
    }

    /// The unique number of the current file.
    pub fn uniq(&self) -> u64
        ensures { result ≡ self.now.state.files.uniq }
    {
        self.state.uniq()
    }

    /// The position of the next record.
    pub fn next_position(&self) -> u64
        ensures value { result ≡ self.now.state.next }
        ensures limits { (1 ≤ result) × (result ≤ 2 ^ 62) }
    {
        self.state.next_position()
    }

    /// Whether the current file is closed.
    pub fn closed(&self) -> bool
        ensures { result ≡ is_closed_use self.now.config (ring_of self.now.state) (use_numbered (ring_of self.now.state) self.now.state.files.uniq) }
    {
        self.state.closed()
    }

    /// Whether a page of the current file is written.
    pub fn written(&self) -> bool
        ensures { result ≡ is_some (use_numbered (ring_of self.now.state) self.now.state.files.uniq) }
    {
        self.state.written()
    }

    /// Whether a record is buffered.
    pub fn held(&self) -> bool
        ensures value { result ≡ is_some (slice_get self.now.state.buffer 0) }
        ensures none { OnFalse result (self.now.state.buffer ≡ []) }
    {
        self.state.held()
    }

    /// The least closed use that is not backed up; `None` exactly where there is none.
    pub fn unbacked(&self) -> Option<Use>
        ensures value { result ≡ option_map told_use (to_back_up self.now.config self.now.state.reuse (ring_of self.now.state)) }
        // It is the one that may be marked as backed up.
        ensures next { IfSome result (λ u. IsNextToBack self.now.state u.uniq) }
        // The next page is of a later use.
        ensures below { IfSome result (λ u. u.uniq < (next_page self.now.state.files).uniq) }
    {
        self.state.unbacked()
    }

    /// The written page that holds a position, with its head; `None` exactly where none holds it.
    pub fn stood(&self, position: u64) -> Option<Stood>
        ensures value { result ≡ stood_holding self.now.state position }
        ensures page { option_map (λ s. range_of_head s.head) result ≡ page_of (ring_of self.now.state) position }
    {
        self.state.stood(position)
    }

    /// Chunk and page of the written page that holds a position; `None` exactly where none holds it.
    pub fn page_of(&self, position: u64) -> Option<(u8, u32)>
        ensures { result ≡ option_map (λ s. (s.chunk, s.page)) (stood_holding self.now.state position) }
    {
        self.state.page_of(position)
    }

    /// Reads the written page that holds a position into the buffer. `None` comes exactly where no written page of a use that
    /// stands in the ring holds it. It takes no memory.
    ///
    /// `Bad` names that page where its bytes are no log page, or one with another unique number, index, first position or count
    /// than the ring has there; over a disk that is as the ring has it, it never comes. `Failed` comes only where the count of
    /// faults of the log's chunk rose; the buffer may then hold anything.
    pub fn read<D: Disk>(
        &self,
        disk: &mut D,
        position: u64,
        buf: &mut [u8; PAGE_LENGTH],
    ) -> Result<Option<Stood>, LogReadFault>
        requires { HasLog self.now.config (D.sizes disk.old) }
        ensures none { IfOk result (λ found. found ≡ stood_holding self.now.state position) }
        ensures page { IfOk result (λ found. IfSome found (λ s. IsPageOf s.head buf.new)) }
        ensures bytes { D.tells → IfOk result (λ found. IfSome found (λ s. buf.new ≡ page_list (seen (D.past disk.old)) s.chunk s.page)) }
        // The buffer has the page that stands, with the records of the journal.
        ensures content { D.tells → (r : ℕ → Place) (floor : ℕ) (j : ℕ → RecordValue) → IsReady (D.past disk.old) self.now r floor j → IfOk result (λ found. IfSome found (λ s. HoldsPage self.now.config r j s.head buf.new)) }
        ensures good { D.tells → (r : ℕ → Place) (floor : ℕ) (j : ℕ → RecordValue) → IsReady (D.past disk.old) self.now r floor j → (chunk page : ℕ) → IsErrOf result (LogReadFault.Bad chunk page) → ⊥ }
        ensures bad { (chunk page : ℕ) → IsErrOf result (LogReadFault.Bad chunk page) → IsBadAt self.now.state position chunk page buf.new × (D.tells → buf.new ≡ page_list (seen (D.past disk.old)) chunk page) }
        ensures past { D.tells → D.past disk.new ≡ D.past disk.old }
        ensures sizes { D.sizes disk.new ≡ D.sizes disk.old }
        ensures cause { HasReadCause (log_area self.now.config).chunk (D.fault_counts disk.old) (D.fault_counts disk.new) result }
    {
        match self.state.stood(position) {
            Some(stood) => match read_page(disk, stood, buf) {
                Ok(()) => Ok(Some(stood)),
                Err(fault) => Err(fault),
            },
            None => Ok(None),
        }
    }

    /// Closes the current file. No record is buffered.
    pub fn switch(&mut self)
        requires { self.old.state.buffer ≡ [] }
        ensures value { self.new ≡ with_state (switched self.old.state) self.old }
        ensures ring { ring_of self.new.state ≡ switched_off (ring_of self.old.state) }
    {
        self.state.switch();
    }

    /// The use of this number, and all lower ones, are backed up.
    pub fn mark_backed(&mut self, uniq: u64)
        requires { IsNextToBack self.old.state uniq }
        ensures { self.new ≡ with_state (with_backed uniq self.old.state) self.old }
    {
        self.state.mark_backed(uniq);
    }

    /// No position below this one is needed from the new checkpoint on.
    pub fn keep_from(&mut self, need: u64)
        requires { self.old.state.reuse.need ≤ need }
        ensures { self.new ≡ with_state (with_need need self.old.state) self.old }
    {
        self.state.keep_from(need);
    }

    /// Buffers a record. Where it has no room in the buffered page, that is written before, as `flush` does it.
    ///
    /// `Failed` comes only where the count of faults of the log's chunk rose. The ring is then of no further use.
    pub fn append<D: Disk>(&mut self, disk: &mut D, rec: &Record) -> Result<(), Failed>
        requires size { HasLog self.old.config (D.sizes disk.old) }
        requires rules { KeepsRules rec.now }
        requires room { HasRoom self.old.config self.old.state }
        requires low { (self.old.state.files.uniq < 2 ^ 62) × (self.old.state.next < 2 ^ 62) }
        ensures fixed { self.new.config ≡ self.old.config }
        ensures step { OnOk result (self.new.state ≡ logged_state rec.now self.old.state) }
        ensures ring { OnOk result (ring_of self.new.state ≡ logged self.old.config (ring_of self.old.state) (self.old.state.next - 1) rec.now) }
        ensures order { IsInOrder self.old.config self.old.state → OnOk result (IsInOrder self.new.config self.new.state) }
        // A stop within the call or behind it leaves the records that were written before, perhaps those that were buffered,
        // and no others; the number of the page that was next is at most one above the last page's.
        ensures stops { D.tells → (r : ℕ → Place) (floor : ℕ) (j : ℕ → RecordValue) → IsReady (D.past disk.old) self.old r floor j → IsNextFree self.old r floor
            → Stops (D.past disk.old) (D.past disk.new) (HoldsLog self.old.config j floor (first_unwritten self.old.state) self.old.state.next (next_page self.old.state.files).uniq) }
        ensures ok { D.tells → (r : ℕ → Place) (floor : ℕ) (j : ℕ → RecordValue) → IsReady (D.past disk.old) self.old r floor j → IsNextFree self.old r floor
            → j self.old.state.next ≡ rec.now → OnOk result ((s : ℕ → Place) × IsReady (D.past disk.new) self.new s floor j) }
        ensures frame { D.tells → Stops (D.past disk.old) (D.past disk.new) (FramedIn (D.past disk.old) (in_log self.old.config)) }
        ensures reads { D.tells → OnOk result (ReadsOutside (D.past disk.old) (D.past disk.new) (in_log self.old.config)) }
        ensures sizes { D.sizes disk.new ≡ D.sizes disk.old }
        ensures cause { HasChunkCause (log_area self.old.config).chunk (D.fault_counts disk.old) (D.fault_counts disk.new) result }
    {
        append_record(disk, &self.table, &mut self.state, &mut self.gates, rec)
    }

    /// Writes the buffered page, where a record is buffered. Where it enters a file, the open gates of that are closed
    /// before.
    ///
    /// `Failed` comes only where the count of faults of the log's chunk rose. The ring is then of no further use.
    pub fn flush<D: Disk>(&mut self, disk: &mut D) -> Result<(), Failed>
        requires size { HasLog self.old.config (D.sizes disk.old) }
        requires room { HasRoom self.old.config self.old.state }
        requires low { self.old.state.files.uniq < 2 ^ 62 }
        ensures fixed { self.new.config ≡ self.old.config }
        ensures step { OnOk result (self.new.state ≡ flushed_state self.old.state) }
        ensures ring { OnOk result (ring_of self.new.state ≡ flushed self.old.config (ring_of self.old.state) (self.old.state.next - 1)) }
        ensures order { IsInOrder self.old.config self.old.state → OnOk result (IsInOrder self.new.config self.new.state) }
        // A stop within the call or behind it leaves the records that were written before, perhaps those that were buffered,
        // and no others; the number of the page that was next is at most one above the last page's.
        ensures stops { D.tells → (r : ℕ → Place) (floor : ℕ) (j : ℕ → RecordValue) → IsReady (D.past disk.old) self.old r floor j → IsNextFree self.old r floor
            → Stops (D.past disk.old) (D.past disk.new) (HoldsLog self.old.config j floor (first_unwritten self.old.state) self.old.state.next (next_page self.old.state.files).uniq) }
        ensures ok { D.tells → (r : ℕ → Place) (floor : ℕ) (j : ℕ → RecordValue) → IsReady (D.past disk.old) self.old r floor j → IsNextFree self.old r floor
            → OnOk result ((s : ℕ → Place) × IsReady (D.past disk.new) self.new s floor j) }
        ensures frame { D.tells → Stops (D.past disk.old) (D.past disk.new) (FramedIn (D.past disk.old) (in_log self.old.config)) }
        ensures reads { D.tells → OnOk result (ReadsOutside (D.past disk.old) (D.past disk.new) (in_log self.old.config)) }
        ensures sizes { D.sizes disk.new ≡ D.sizes disk.old }
        ensures cause { HasChunkCause (log_area self.old.config).chunk (D.fault_counts disk.old) (D.fault_counts disk.new) result }
    {
        flush_page(disk, &self.table, &mut self.state, &mut self.gates)
    }
}
