//! The log files in memory: the uses that stand in them, and what may be written next.

ghost use Rattle.std.specs.List.{AllByRecursion, find, position_from, range_with_len, take_while};
ghost use Rattle.std.specs.Option.{option_map};
ghost use Rattle.std.specs.Prelude.{◌≡◌, ◌≤◌, ◌<◌, ◌^◌, ◌+◌, ◌-◌, ◌*◌, ◌%◌, ◌==◌, ◌++◌, ◌∷◌, [], Bool, IfOk, IfSome, List, OnOk, Some, false, filter, true, flat_map, is_some, length, map, not, vec_capacity, vec_len, ℕ};
ghost use Rattle.ol_record.specs.declared.head.LogHead.{LogHead as HeadValue};
ghost use Rattle.ol_rules.specs.Ring.{Reuse, Use as UseValue, at_use, blocker, file_of, following, is_closed, is_reusable, open_use, room, switched_off, to_back_up, uniq_in, unwritten, use_in_file, use_numbered, with_page_in, with_range};
ghost use Rattle.ol_log_state.specs.Files.{current_use, entered, extended, greatest_of, is_closed_use, log_config, next_page, ring_in, switched_files, told_use, uses_of_heads, with_page_at};
ghost use Rattle.ol_log_state.specs.StoredFiles.{AreTaken, IsLogArea, IsRoomy, IsSpare, heads_in};
ghost use Rattle.ol_log_places.specs.Heads.{IsInRun, IsUniq, IsWritten};
ghost use Rattle.ol_log_state.specs.Uses.{head_holds, use_of};

use crate::NoMemory;
use crate::held_use::UseHeads;
use crate::places::{NextPage, Use};
use ol_chunks::Area;
use ol_log_places::Stood;
use ol_record::LogHead;
use std::alloc::Global;
use std::marker::Model;

/// The log files: the uses that stand in them, in the order of their writing, and the unique number of the
/// current file.
#[derive(Drop)]
pub struct LogFiles {
    area: Area,
    uses: Vec<UseHeads>,
    // Uses with no page, whose memory new uses take.
    spare: Vec<UseHeads>,
    uniq: u64,
}

impl Model for LogFiles {
    ghost use Rattle.ol_log_state.specs.Files.{Files};

    ghost Value = { Files };

    ghost use Rattle.ol_log_state.specs.StoredFiles.{IsLogFiles, files_in};

    ghost view = { λ f. files_in f };

    ghost invariant = { λ f. IsLogFiles f };
}

/// The file in which a use of this unique number stands, where there are so many files.
pub(crate) fn file_number(files: u32, uniq: u64) -> u32
    requires { 1 ≤ files }
    ensures value { result ≡ (uniq - 1) % files }
    ensures limit { result < files }
{
    (uniq.saturating_sub(1) % u64::from(files)) as u32
}

// The index of the first use of a unique number.
fn index_of(uses: &[UseHeads], uniq: u64) -> Option<usize>
    ensures { result ≡ position_from (λ s. s.held.uniq == uniq) 0 uses.now }
{
    for (i, held) in uses.iter().enumerate() {
        if held.uniq() == uniq {
            return Some(i);
        }
    }
    None
}

// The index of the first use in a file.
fn index_in_file(uses: &[UseHeads], files: u32, file: u32) -> Option<usize>
    requires { 1 ≤ files }
    ensures { result ≡ position_from (λ s. (s.held.uniq - 1) % files == file) 0 uses.now }
{
    for (i, held) in uses.iter().enumerate() {
        if file_number(files, held.uniq()) == file {
            return Some(i);
        }
    }
    None
}

// Empties the uses in a file, which are spare then.
fn clear_file(uses: &mut Vec<UseHeads>, spare: &mut Vec<UseHeads>, files: u32, file: u32)
    requires files { 1 ≤ files }
    requires capacity { vec_len uses.old + vec_len spare.old ≤ vec_capacity spare.old }
    ensures uses { uses.new.items ≡ filter (λ s. not ((s.held.uniq - 1) % files == file)) uses.old.items }
    ensures total { vec_len uses.new + vec_len spare.new ≡ vec_len uses.old + vec_len spare.old }
    ensures for_uses { vec_capacity uses.new ≡ vec_capacity uses.old }
    ensures for_spare { vec_capacity spare.old ≤ vec_capacity spare.new }
    ensures spare { (pages : ℕ) → AllByRecursion (IsRoomy pages) uses.old.items → AllByRecursion (IsSpare pages) spare.old.items → AllByRecursion (IsSpare pages) spare.new.items }
{
    while let Some(i) = index_in_file(uses, files, file) {
        let mut held = uses.remove(i);
        let uniq = held.uniq();
        held.empty(uniq);
        match spare.push(held) {
            Ok(()) => (),
            Err(_) => unreachable!(),
        }
    }
}

// Takes a page of a run in: into its use, or as the first of a new one. It takes memory for a whole file
// more.
fn take_in(
    alloc: Global,
    uses: &mut Vec<UseHeads>,
    head: LogHead,
    pages: u32,
) -> Result<(), NoMemory>
    requires head { IsInRun pages head }
    requires few { AllByRecursion (λ s. length s.held.heads + 1 + pages < 2 ^ 32) uses.old.items }
    requires new { 1 + pages < 2 ^ 32 }
    ensures { (uniq : ℕ) (heads : List HeadValue) → AreTaken pages uniq heads uses.old.items → OnOk result (AreTaken pages uniq (heads ++ head ∷ []) uses.new.items) }
{
    if let Some(i) = index_of(uses, head.uniq) {
        return uses[i].grow(head, pages);
    }
    let mut held = UseHeads::new(alloc, head.uniq);
    held.grow(head, pages)?;
    uses.push(held)?;
    Ok(())
}

// So many spare uses, each with memory for so many pages, in a list with this capacity.
fn spare_uses(
    alloc: Global,
    files: u32,
    pages: u32,
    capacity: usize,
) -> Result<Vec<UseHeads>, NoMemory>
    ensures count { IfOk result (λ v. length v.items ≡ files) }
    ensures spares { IfOk result (λ v. AllByRecursion (IsSpare pages) v.items) }
    ensures capacity { IfOk result (λ v. capacity ≤ vec_capacity v) }
{
    let mut spare = Vec::with_capacity(alloc, capacity)?;
    for _ in 0..files {
        spare.push(UseHeads::with_room(alloc, pages)?)?;
    }
    Ok(spare)
}

impl LogFiles {
    /// The files of an area, in which the pages of a run stand. The current unique number is the greatest
    /// of this one and those of the run. It takes all memory that is ever needed; `NoMemory` where there
    /// is not so much.
    pub fn new(alloc: Global, area: Area, run: &[Stood], uniq: u64) -> Result<LogFiles, NoMemory>
        requires area { IsLogArea area }
        requires uniq { IsUniq uniq }
        requires run { AllByRecursion (λ s. IsInRun area.pages s.head) run.now }
        requires few { length run.now ≤ area.count * area.pages }
        ensures { IfOk result (λ f. f ≡ record { area = area; uses = uses_of_heads (heads_in run.now); uniq = greatest_of uniq (heads_in run.now) }) }
    {
        let mut uses = Vec::new(alloc);
        let mut current = uniq;
        for stood in run {
            take_in(alloc, &mut uses, stood.head, area.pages)?;
            current = current.max(stood.head.uniq);
        }
        uses.reserve(area.count as usize)?;
        let capacity = uses.len() + area.count as usize;
        let spare = spare_uses(alloc, area.count, area.pages, capacity)?;
        Ok(LogFiles {
            area,
            uses,
            spare,
            uniq: current,
        })
    }

    /// Where the log files lie.
    pub fn area(&self) -> Area
        ensures value { result ≡ self.now.area }
        ensures limits { IsLogArea result }
    {
        self.area
    }

    /// The unique number of the current file.
    pub fn uniq(&self) -> u64
        ensures value { result ≡ self.now.uniq }
        ensures limits { IsUniq result }
    {
        self.uniq
    }

    /// Whether a file may be used again: no use stands in it, or its use is backed up and ends below
    /// what is needed.
    pub fn is_reusable(&self, backed: u64, need: u64, file: u32) -> bool
        ensures { result ≡ is_reusable (log_config self.now.area) (record { backed = backed; need = need }) (ring_in self.now) file }
    {
        for held in &self.uses {
            if file_number(self.area.count, held.uniq()) == file {
                return held.uniq() <= backed && held.last_position() < need;
            }
        }
        true
    }

    /// The use of the current file, where one stands in it.
    pub fn current(&self) -> Option<&UseHeads>
        ensures { option_map (λ u. use_of u.now.held) result ≡ current_use self.now }
    {
        for held in &self.uses {
            if held.uniq() == self.uniq {
                return Some(held);
            }
        }
        None
    }

    // How many pages of a use's file are not written.
    fn unwritten(&self, held: &UseHeads) -> u32
        ensures value { result ≡ unwritten (log_config self.now.area) (use_of held.now.held) }
        ensures limit { result ≤ 999 }
    {
        (self.area.pages - 1).saturating_sub(held.last_index())
    }

    // Whether a use is closed.
    fn is_closed(&self, held: &UseHeads) -> bool
        ensures { result ≡ is_closed (log_config self.now.area) (ring_in self.now) (use_of held.now.held) }
    {
        held.is_switched() || held.uniq() < self.uniq || self.unwritten(held) == 0
    }

    /// Whether a page of the current file is written.
    pub fn written(&self) -> bool
        ensures { result ≡ is_some (current_use self.now) }
    {
        self.current().is_some()
    }

    /// Whether the current file is closed.
    pub fn closed(&self) -> bool
        ensures { result ≡ is_closed_use (log_config self.now.area) (ring_in self.now) (current_use self.now) }
    {
        match self.current() {
            Some(held) => self.is_closed(held),
            None => false,
        }
    }

    /// The page that is written next.
    pub fn next_page(&self) -> NextPage
        ensures value { result ≡ next_page self.now }
        ensures uniq { self.now.uniq < 2 ^ 62 → IsUniq result.uniq }
        ensures reuse { (m : Reuse) → 1 ≤ room (log_config self.now.area) m (ring_in self.now) → (next_page self.now).enters ≡ true → is_reusable (log_config self.now.area) m (ring_in self.now) (file_of (log_config self.now.area) (next_page self.now).uniq) ≡ true }
        ensures leaves { is_some (current_use self.now) ≡ true → (next_page self.now).enters ≡ true → (file_of (log_config self.now.area) (next_page self.now).uniq == file_of (log_config self.now.area) self.now.uniq) ≡ false }
        // A use that is closed has a lower number.
        ensures closed { (test : UseValue → Bool) (u : UseValue) → find test (map use_of self.now.uses) ≡ Some u → is_closed (log_config self.now.area) (ring_in self.now) u ≡ true → u.uniq < (next_page self.now).uniq }
        ensures index { result.index < self.now.area.pages }
        ensures limit { result.index < 1000 }
    {
        match self.current() {
            None => NextPage {
                uniq: self.uniq,
                index: 0,
                enters: true,
            },
            Some(held) => {
                if self.is_closed(held) {
                    NextPage {
                        uniq: self.uniq + 1,
                        index: 0,
                        enters: true,
                    }
                } else {
                    NextPage {
                        uniq: self.uniq,
                        index: held.last_index() + 1,
                        enters: false,
                    }
                }
            }
        }
    }

    /// The least closed use that is not backed up.
    pub fn unbacked(&self, backed: u64) -> Option<Use>
        ensures { result ≡ option_map told_use (to_back_up (log_config self.now.area) (record { backed = backed; need = 0 }) (ring_in self.now)) }
    {
        for held in &self.uses {
            if self.is_closed(held) && held.uniq() > backed {
                return Some(Use {
                    uniq: held.uniq(),
                    pages: held.count(),
                    first: held.first_position(),
                    last: held.last_position(),
                });
            }
        }
        None
    }

    /// The head of the written page that holds a position.
    pub fn find(&self, position: u64) -> Option<LogHead>
        ensures value { result ≡ find (head_holds position) (flat_map (λ u. u.heads) self.now.uses) }
        ensures index { IfSome result (λ h. h.index < self.now.area.pages) }
    {
        for held in &self.uses {
            if let Some(head) = held.find(position) {
                return Some(head);
            }
        }
        None
    }

    // How many files behind one are reusable without a gap.
    fn reusable_behind(&self, backed: u64, need: u64, file: u32) -> usize
        requires { file < self.now.area.count }
        ensures value { result ≡ length (take_while (is_reusable (log_config self.now.area) (record { backed = backed; need = need }) (ring_in self.now)) (map (λ k. (file + k) % self.now.area.count) (range_with_len 1 (self.now.area.count - 1)))) }
        ensures limit { result ≤ 63 }
    {
        let files = self.area.count;
        (1..files)
            .map(|k| (file + k) % files)
            .take_while(|file| self.is_reusable(backed, need, *file))
            .count()
    }

    /// The pages of the reusable files that follow the current one without a gap.
    pub fn following(&self, backed: u64, need: u64) -> u32
        ensures value { result ≡ following (log_config self.now.area) (record { backed = backed; need = need }) (ring_in self.now) }
        ensures limit { result ≤ 63000 }
    {
        let current = file_number(self.area.count, self.uniq);
        let files = self.reusable_behind(backed, need, current);
        self.area.pages * files as u32
    }

    // The unique number of the use in a file, or the current one.
    fn uniq_in(&self, file: u32) -> u64
        ensures { result ≡ uniq_in (log_config self.now.area) (ring_in self.now) file }
    {
        for held in &self.uses {
            if file_number(self.area.count, held.uniq()) == file {
                return held.uniq();
            }
        }
        self.uniq
    }

    // The first file behind one that may not be reused.
    fn kept_behind(&self, backed: u64, need: u64, file: u32) -> Option<u32>
        requires { file < self.now.area.count }
        ensures { result ≡ find (λ file. not (is_reusable (log_config self.now.area) (record { backed = backed; need = need }) (ring_in self.now) file)) (map (λ k. (file + k) % self.now.area.count) (range_with_len 1 (self.now.area.count - 1))) }
    {
        let files = self.area.count;
        (1..files)
            .map(|k| (file + k) % files)
            .find(|file| !self.is_reusable(backed, need, *file))
    }

    /// The unique number of the use in the first file after the current one that may not be reused, or
    /// the current one where all others may.
    pub fn blocker(&self, backed: u64, need: u64) -> u64
        ensures { result ≡ blocker (log_config self.now.area) (record { backed = backed; need = need }) (ring_in self.now) }
    {
        match self.kept_behind(backed, need, file_number(self.area.count, self.uniq)) {
            Some(file) => self.uniq_in(file),
            None => self.uniq,
        }
    }

    /// The pages that are not written and may be: those of the current file, and those that follow.
    pub fn room(&self, backed: u64, need: u64) -> u32
        ensures value { result ≡ room (log_config self.now.area) (record { backed = backed; need = need }) (ring_in self.now) }
        ensures limit { result ≤ 64000 }
    {
        let following = self.following(backed, need);
        match self.current() {
            None => {
                if self.is_reusable(backed, need, file_number(self.area.count, self.uniq)) {
                    self.area.pages + following
                } else {
                    0
                }
            }
            Some(held) => {
                if self.is_closed(held) {
                    following
                } else {
                    self.unwritten(held) + following
                }
            }
        }
    }

    /// Closes the current file, where a use stands in it.
    pub fn switch(&mut self)
        ensures value { self.new ≡ switched_files self.old }
        ensures ring { ring_in self.new ≡ switched_off (ring_in self.old) }
    {
        if let Some(i) = index_of(&self.uses, self.uniq) {
            self.uses[i].switch();
        }
    }

    // The use of the current file, which is not closed, has a page more.
    fn extend(&mut self, head: LogHead)
        requires head { IsWritten head }
        requires place { next_page self.old ≡ record { uniq = self.old.uniq; index = head.index; enters = false } }
        ensures value { self.new ≡ record { area = self.old.area; uses = extended self.old.uniq head self.old.uses; uniq = self.old.uniq } }
        ensures ring { ring_in self.new ≡ at_use self.old.uniq (with_range head.first head.count) (ring_in self.old) }
    {
        if let Some(i) = index_of(&self.uses, self.uniq) {
            self.uses[i].push(head);
        }
    }

    // A new use takes the file of its number over, with its first page.
    fn enter(&mut self, uniq: u64, head: LogHead)
        requires uniq { IsUniq uniq }
        requires head { IsWritten head }
        requires first { head.index ≡ 0 }
        requires place { next_page self.old ≡ record { uniq = uniq; index = 0; enters = true } }
        ensures value { self.new ≡ record { area = self.old.area; uses = entered self.old.area uniq head self.old.uses; uniq = uniq } }
        ensures ring { ring_in self.new ≡ open_use (log_config self.old.area) (ring_in self.old) uniq head.first head.count }
    {
        let files = self.area.count;
        clear_file(
            &mut self.uses,
            &mut self.spare,
            files,
            file_number(files, uniq),
        );
        match self.spare.pop() {
            Some(mut held) => {
                held.empty(uniq);
                held.push(head);
                match self.uses.push(held) {
                    Ok(()) => (),
                    Err(_) => unreachable!(),
                }
            }
            None => unreachable!(),
        }
        self.uniq = uniq;
    }

    /// The next page is written, with this head.
    pub fn add(&mut self, head: LogHead)
        requires head { IsWritten head }
        requires low { self.old.uniq < 2 ^ 62 }
        requires index { head.index ≡ (next_page self.old).index }
        ensures value { self.new ≡ with_page_at (next_page self.old) head self.old }
        ensures ring { ring_in self.new ≡ with_page_in (log_config self.old.area) (ring_in self.old) (current_use self.old) head.first head.count }
    {
        let page = self.next_page();
        if page.enters {
            self.enter(page.uniq, head);
        } else {
            self.extend(head);
        }
    }
}
