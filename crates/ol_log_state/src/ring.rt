//! The ring of log files in memory.

ghost use Rattle.std.specs.List.{AllByRecursion};
ghost use Rattle.std.specs.Option.{option_map};
ghost use Rattle.std.specs.Prelude.{◌≡◌, ◌≤◌, ◌<◌, ◌^◌, ◌+◌, ◌-◌, ◌*◌, ◌==◌, [], IfOk, IfSome, false, List, is_some, length, nat_le, slice_get, true};
ghost use Rattle.ol_record.specs.LogPages.{IsFilling, IsLogPage, blank_page, head_of, log_page_bytes};
ghost use Rattle.ol_chunks.specs.Places.{lies_in, log_area};
ghost use Rattle.ol_rules.specs.DiskValue.{AnchorValue, OpenLog, ring_found};
ghost use Rattle.ol_rules.specs.Ring.{blocker, file_of, free, free_after_switch, held, is_reusable, page_of, room, switched_off, to_back_up, use_numbered};
ghost use Rattle.ol_rules.specs.Ring.{written as written_ring};
ghost use Rattle.ol_values.specs.LogPages.{log_room, record_length, records_length};
ghost use Rattle.ol_values.specs.Spelling.{KeepsRules};
ghost use Rattle.ol_log_state.specs.Files.{current_use, is_closed_use, next_page, told_use};
ghost use Rattle.ol_log_state.specs.RingState.{IsNextToBack, IsStart, buffered, config_of, heads_of_logs, page_to_write, ring_of, started, stood_holding, stood_in, switched, turned, with_backed, with_need};
ghost use Rattle.ol_log_state.specs.StoredFiles.{IsLogArea, heads_in};
ghost use Rattle.ol_log_places.specs.Heads.{IsInRun, IsWritten};
ghost use Rattle.ol_log_state.specs.Uses.{range_of_head};

use crate::NoMemory;
use crate::buffer::PageBuffer;
use crate::log_files::{LogFiles, file_number};
use crate::places::{NextPage, RingStart, Use};
use ol_chunks::{Area, ChunkTable};
use ol_log_places::Stood;
use ol_record::{LogHead, PAGE_LENGTH};
use ol_values::Record;
use std::alloc::Global;
use std::marker::Model;

/// The ring of log files: the uses that stand in them, the page whose records are not yet written, and
/// what may be reused.
#[derive(Drop)]
pub struct LogState {
    files: LogFiles,
    page: PageBuffer,
    // The uses up to this one are backed up.
    backed: u64,
    // No position below this one is needed from the last checkpoint on.
    need: u64,
    incarnation: u64,
    // The position of the next record.
    next: u64,
}

impl Model for LogState {
    ghost use Rattle.ol_log_state.specs.RingState.{RingState};

    ghost Value = { RingState };

    ghost use Rattle.ol_log_state.specs.StoredRing.{IsLogState, ring_state};

    ghost view = { λ r. ring_state r };

    ghost invariant = { λ r. IsLogState r };
}

// Begins the page that is next in these files.
fn begin_next(page: &mut PageBuffer, files: &LogFiles, incarnation: u64, first: u64)
    ensures { page.new ≡ blank_page (next_page files.now).index (next_page files.now).uniq incarnation first }
{
    let place = files.next_page();
    page.begin(place.index, place.uniq, incarnation, first);
}

// The page of a head, which stands in its file.
fn stood_in(area: Area, head: LogHead) -> Stood
    requires area { IsLogArea area }
    requires index { head.index < area.pages }
    ensures value { result ≡ stood_in area head }
    ensures inside { lies_in area result.chunk result.page ≡ true }
{
    let file = file_number(area.count, head.uniq);
    let page = area.first + file * area.pages + head.index;
    Stood {
        chunk: area.chunk,
        page,
        head,
    }
}

impl LogState {
    /// The ring of a run of log pages, in the order of their positions, with nothing buffered. It takes
    /// all memory that the ring ever needs; `NoMemory` where there is not so much.
    pub fn new(
        alloc: Global,
        table: &ChunkTable,
        run: &[Stood],
        start: RingStart,
    ) -> Result<LogState, NoMemory>
        requires start { IsStart start }
        requires run { AllByRecursion (λ s. IsInRun table.now.log_file_pages s.head) run.now }
        requires few { length run.now ≤ table.now.log_files * table.now.log_file_pages }
        ensures value { IfOk result (λ r. r ≡ started (log_area table.now) start (heads_in run.now)) }
        // It is the ring that an opening finds.
        ensures ring { (a : AnchorValue) (logs : List OpenLog) → a.uniq ≡ start.uniq → a.lasting.backed ≡ start.backed → heads_of_logs logs ≡ heads_in run.now → IfOk result (λ r. ring_of r ≡ ring_found a logs) }
    {
        let area = table.logs();
        // This tells that a chunk has few pages, so that their numbers fit.
        let _ = table.chunk_pages(area.chunk);
        let uniq = start.uniq.max(start.backed + 1);
        let files = LogFiles::new(alloc, area, run, uniq)?;
        let place = files.next_page();
        let page = PageBuffer::new(place.index, place.uniq, start.incarnation, start.next);
        Ok(LogState {
            files,
            page,
            backed: start.backed,
            need: start.need,
            incarnation: start.incarnation,
            next: start.next,
        })
    }

    /// The pages that may still be written, less one where a record is buffered.
    pub fn free_pages(&self) -> u32
        ensures { result ≡ free (config_of self.now) self.now.reuse (ring_of self.now) }
    {
        let room = self.files.room(self.backed, self.need);
        room.saturating_sub(u32::from(self.held()))
    }

    /// What `free_pages` would be after a flush and a switch.
    pub fn free_after_switch(&self) -> u32
        ensures { result ≡ free_after_switch (config_of self.now) self.now.reuse (ring_of self.now) }
    {
        self.files.following(self.backed, self.need)
    }

    /// The unique number of the use in the first file after the current one that may not be reused, or
    /// the current one where all others may.
    pub fn blocker(&self) -> u64
        ensures { result ≡ blocker (config_of self.now) self.now.reuse (ring_of self.now) }
    {
        self.files.blocker(self.backed, self.need)
    }

    /// Whether the file of a unique number may be used again.
    pub fn reusable(&self, uniq: u64) -> bool
        ensures { result ≡ is_reusable (config_of self.now) self.now.reuse (ring_of self.now) (file_of (config_of self.now) uniq) }
    {
        let area = self.files.area();
        self.files
            .is_reusable(self.backed, self.need, file_number(area.count, uniq))
    }

    /// The unique number of the current file.
    pub fn uniq(&self) -> u64
        ensures { result ≡ self.now.files.uniq }
    {
        self.files.uniq()
    }

    /// The position of the next record.
    pub fn next_position(&self) -> u64
        ensures value { result ≡ self.now.next }
        ensures limits { (1 ≤ result) × (result ≤ 2 ^ 62) }
    {
        self.next
    }

    /// Whether the current file is closed.
    pub fn closed(&self) -> bool
        ensures { result ≡ is_closed_use (config_of self.now) (ring_of self.now) (use_numbered (ring_of self.now) self.now.files.uniq) }
    {
        self.files.closed()
    }

    /// Whether a page of the current file is written.
    pub fn written(&self) -> bool
        ensures { result ≡ is_some (use_numbered (ring_of self.now) self.now.files.uniq) }
    {
        self.files.written()
    }

    /// Whether a record is buffered.
    pub fn held(&self) -> bool
        ensures { result ≡ is_some (slice_get self.now.buffer 0) }
    {
        let (count, _) = self.page.tally();
        count > 0
    }

    /// The least closed use that is not backed up; `None` exactly where there is none.
    pub fn unbacked(&self) -> Option<Use>
        ensures value { result ≡ option_map told_use (to_back_up (config_of self.now) self.now.reuse (ring_of self.now)) }
        // The next page is of a later use.
        ensures below { IfSome result (λ u. u.uniq < (next_page self.now.files).uniq) }
    {
        // This tells that a closed use is one before that of the next page.
        let _place = self.files.next_page();
        self.files.unbacked(self.backed)
    }

    /// The written page that holds a position, with its head; `None` exactly where none holds it.
    pub fn stood(&self, position: u64) -> Option<Stood>
        ensures value { result ≡ stood_holding self.now position }
        ensures page { option_map (λ s. range_of_head s.head) result ≡ page_of (ring_of self.now) position }
        ensures inside { IfSome result (λ s. lies_in self.now.files.area s.chunk s.page ≡ true) }
    {
        let head = self.files.find(position)?;
        Some(stood_in(self.files.area(), head))
    }

    /// Chunk and page of the written page that holds a position; `None` exactly where none holds it.
    pub fn page_of(&self, position: u64) -> Option<(u8, u32)>
        ensures { result ≡ option_map (λ s. (s.chunk, s.page)) (stood_holding self.now position) }
    {
        let stood = self.stood(position)?;
        Some((stood.chunk, stood.page))
    }

    /// The place of the page that is written next.
    pub fn next_page(&self) -> NextPage
        ensures value { result ≡ next_page self.now.files }
        ensures index { result.index < self.now.files.area.pages }
        // Where there is room, a file that is entered may be used again.
        ensures reuse { 1 ≤ room (config_of self.now) self.now.reuse (ring_of self.now) → (next_page self.now.files).enters ≡ true → is_reusable (config_of self.now) self.now.reuse (ring_of self.now) (file_of (config_of self.now) (next_page self.now.files).uniq) ≡ true }
        // Where a page of the current file is written, a file that is entered is another: the last page stays.
        ensures leaves { is_some (current_use self.now.files) ≡ true → (next_page self.now.files).enters ≡ true → (file_of (config_of self.now) (next_page self.now.files).uniq == file_of (config_of self.now) self.now.files.uniq) ≡ false }
    {
        self.files.next_page()
    }

    /// The page that the buffered records make: its place on the disk, and its head.
    pub fn next_stood(&self) -> Stood
        requires { 0 < length self.now.buffer }
        ensures value { result ≡ stood_in self.now.files.area (head_of (page_to_write self.now)) }
        ensures inside { lies_in self.now.files.area result.chunk result.page ≡ true }
    {
        let head = self.head();
        stood_in(self.files.area(), head)
    }

    /// The 2,048 bytes of the page that the buffered records make, with its gate closed.
    pub fn bytes(&self) -> &[u8; PAGE_LENGTH]
        ensures bytes { result.now ≡ log_page_bytes 0 (page_to_write self.now) }
        ensures filling { IsFilling (page_to_write self.now) }
        // With a record it is a page that may stand on the disk.
        ensures page { 0 < length self.now.buffer → self.now.files.uniq < 2 ^ 62 → IsLogPage (page_to_write self.now) }
    {
        // This tells that the number and the index of the page are in their limits.
        let _place = self.files.next_page();
        self.page.bytes()
    }

    /// Whether a record has room in the buffer.
    pub fn fits(&self, rec: &Record) -> bool
        requires { KeepsRules rec.now }
        ensures { result ≡ nat_le (records_length self.now.buffer + record_length rec.now) log_room }
    {
        self.page.fits(rec)
    }

    /// Appends a record that has room to the buffer.
    pub fn push(&mut self, rec: &Record)
        requires rules { KeepsRules rec.now }
        requires room { records_length self.old.buffer + record_length rec.now ≤ log_room }
        requires low { self.old.next < 2 ^ 62 }
        ensures { self.new ≡ buffered rec.now self.old }
    {
        self.page.push(rec);
        self.next += 1;
    }

    /// Closes the current file. No record is buffered.
    pub fn switch(&mut self)
        requires { self.old.buffer ≡ [] }
        ensures value { self.new ≡ switched self.old }
        ensures ring { ring_of self.new ≡ switched_off (ring_of self.old) }
    {
        self.files.switch();
        begin_next(&mut self.page, &self.files, self.incarnation, self.next);
    }

    /// The use of this number, and all lower ones, are backed up.
    pub fn mark_backed(&mut self, uniq: u64)
        requires { IsNextToBack self.old uniq }
        ensures { self.new ≡ with_backed uniq self.old }
    {
        self.backed = uniq;
    }

    /// No position below this one is needed from the new checkpoint on.
    pub fn keep_from(&mut self, need: u64)
        requires { self.old.reuse.need ≤ need }
        ensures { self.new ≡ with_need need self.old }
    {
        self.need = need;
    }

    // The head of the page that the buffered records make.
    fn head(&self) -> LogHead
        requires { 0 < length self.now.buffer }
        ensures value { result ≡ head_of (page_to_write self.now) }
        ensures written { IsWritten result }
        ensures index { result.index < self.now.files.area.pages }
    {
        let (count, used) = self.page.tally();
        let place = self.files.next_page();
        LogHead {
            index: place.index,
            uniq: place.uniq,
            incarnation: self.incarnation,
            first: self.next - u64::from(count),
            count,
            used,
        }
    }

    /// The buffered records have become a written page, at the place that was next. Called where that page was written
    /// there, and nothing else was since.
    pub fn turn_page(&mut self)
        requires some { 0 < length self.old.buffer }
        requires room { 1 ≤ room (config_of self.old) self.old.reuse (ring_of self.old) }
        requires low { self.old.files.uniq < 2 ^ 62 }
        ensures value { self.new ≡ turned self.old }
        ensures ring { ring_of self.new ≡ written_ring (config_of self.old) (ring_of self.old) (self.old.next - 1) }
    {
        let head = self.head();
        self.files.add(head);
        begin_next(&mut self.page, &self.files, self.incarnation, self.next);
    }
}
