//! The physical log of an open installation.

ghost use Rattle.std.specs.Prelude.{◌≡◌, ◌<◌, ◌≤◌, ◌+◌, ◌*◌, ◌-◌, ◌^◌, ℕ, IfOk, List, OnOk, Ok, OnErr, length, slice_index, true, false, ◌∷◌, ◌++◌, []};
ghost use Rattle.std.specs.List.{list_any, range_with_len};
ghost use Rattle.ol_values.specs.Config.{Config, has_page};
ghost use Rattle.indexmap.specs.IndexSet as set;
ghost use Rattle.ol_chunks.specs.Places.{lies_in, physical_area};
ghost use Rattle.ol_ports.specs.Causes.{HasChunkCause};
ghost use Rattle.ol_ports.specs.Disk.{Past, Syncs, seen};
ghost use Rattle.ol_ports.specs.Frames.{FramedIn, IsSettledIn, ReadsOutside};
ghost use Rattle.ol_ports.specs.Stops.{Stops};
ghost use Rattle.ol_physlog.specs.Heads.{IsPage};
ghost use Rattle.ol_physlog.specs.Places.{HasArea, head_page, in_physical};
ghost use Rattle.ol_physlog.specs.Reading.{Tells, log_of};
ghost use Rattle.ol_physlog.specs.States.{NoneLater, AreShut, HoldsEntries, IsClosing, IsFree, IsLaid, IsLog, IsOpening, Log as LogValue, emptied, entry_number, gate_of, has_entry, next_entry, unsettled, with_added, with_open, with_place, with_settled, with_shut};

use crate::head::write_body;
use crate::place::Place;
use crate::reading::{Entries, area_of};
use crate::{OPEN, SHUT};
use indexmap::IndexSet;
use ol_chunks::{Area, ChunkTable};
use ol_ports::{Disk, Failed, NoMemory, PAGE_LENGTH, write_synced};
use std::alloc::Global;
use std::marker::Model;

/// The physical log: which entries it has added for which pages, and which of them are settled. Contracts see it as plain
/// data; the images of the added entries stand in clauses as a list beside it, in the same order.
#[derive(Drop)]
pub struct PhysLog {
    area: Area,
    generation: u64,
    order: Vec<u32>,
    places: IndexSet<Place>,
    settled: u32,
    gates: Vec<bool>,
}

impl Model for PhysLog {
    ghost use Rattle.std.specs.Prelude.{◌≤◌, ◌+◌};
    ghost use Rattle.indexmap.specs.IndexSet as set;
    ghost use Rattle.ol_physlog.specs.States.{IsLog, Log};

    ghost Value = { Log };

    ghost view = { λ l. record { area = l.area; generation = l.generation; order = l.order.items; places = l.places.keys; settled = l.settled; gates = l.gates.items } };

    ghost invariant = { λ l. IsLog (record { area = l.area; generation = l.generation; order = l.order.items; places = l.places.keys; settled = l.settled; gates = l.gates.items }) × (l.area.count ≤ set.index_set_len l.places + set.spare l.places) };
}

impl PhysLog {
    /// Begins with the entries that were read, as added and settled ones: the log's disk is settled, and no open entry is of
    /// a later generation. It takes all the memory that the log ever needs; `NoMemory` comes where memory was refused.
    pub fn new(
        alloc: Global,
        table: &ChunkTable,
        generation: u64,
        entries: &Entries,
    ) -> Result<PhysLog, NoMemory>
        requires { length entries.now.gates ≡ (physical_area table.now).count }
        ensures value { IfOk result (λ log. log ≡ log_of table.now generation entries.now) }
        ensures laid { (past : Past) → Tells table.now (physical_area table.now) generation (seen past) entries.now → IsSettledIn past (in_physical table.now) → NoneLater (physical_area table.now) (seen past) generation → IfOk result (λ log. IsLaid table.now past log entries.now.images) }
    {
        let area = area_of(table);
        let settled = entries.count();
        let order = entries.order(alloc)?;
        let gates = entries.gates(alloc)?;
        let places = places_of(alloc, entries, area.count)?;
        Ok(PhysLog {
            area,
            generation,
            order,
            places,
            settled,
            gates,
        })
    }

    /// How many entries are not added.
    pub fn spare(&self) -> u32
        ensures { result ≡ self.now.area.count - length self.now.places }
    {
        self.area.count - self.places.len() as u32
    }

    /// Whether a page has an entry.
    pub fn has(&self, space: u8, page: u16) -> bool
        ensures { result ≡ has_entry self.now (record { space = space; page = page }) }
    {
        self.places.contains(&Place { space, page })
    }

    /// The generation of its entries.
    pub fn generation(&self) -> u64
        ensures { result ≡ self.now.generation }
    {
        self.generation
    }

    /// Adds an entry with the image of a page, behind a closed gate: nothing of it is synced. A gate that stands open
    /// with another generation is closed first, and that is synced. The page has no entry, and some entry is spare.
    ///
    /// `Failed` comes only where the count of faults of the log's chunk rose; the log is not to be used then, but what
    /// a stop leaves holds the entries of before.
    pub fn add<D: Disk>(
        &mut self,
        disk: &mut D,
        space: u8,
        page: u16,
        image: &[u8; PAGE_LENGTH],
    ) -> Result<(), Failed>
        requires area { HasArea self.old.area (D.sizes disk.old) }
        requires spare { length self.old.places < self.old.area.count }
        requires fresh { has_entry self.old (record { space = space; page = page }) ≡ false }
        ensures stops { D.tells → (c : Config) (images : List (List ℕ)) → IsLaid c (D.past disk.old) self.old images → Stops (D.past disk.old) (D.past disk.new) (HoldsEntries c self.old images) }
        ensures ok { D.tells → (c : Config) (images : List (List ℕ)) → IsLaid c (D.past disk.old) self.old images → has_page c space page ≡ true → OnOk result (IsLaid c (D.past disk.new) self.new (images ++ image.now ∷ [])) }
        ensures value { OnOk result (self.new ≡ with_added self.old (record { space = space; page = page })) }
        ensures kept { self.new.area ≡ self.old.area }
        ensures frame { D.tells → Stops (D.past disk.old) (D.past disk.new) (FramedIn (D.past disk.old) (lies_in self.old.area)) }
        ensures reads { D.tells → OnOk result (ReadsOutside (D.past disk.old) (D.past disk.new) (lies_in self.old.area)) }
        ensures sizes { D.sizes disk.new ≡ D.sizes disk.old }
        ensures cause { HasChunkCause self.old.area.chunk (D.fault_counts disk.old) (D.fault_counts disk.new) result }
    {
        let place = Place { space, page };
        let entry = self.next();
        match self.close_gate(disk, entry) {
            Ok(()) => {}
            Err(failed) => return Err(failed),
        }
        self.note_shut(entry);
        match self.write_entry(disk, entry, place, image) {
            Ok(()) => {}
            Err(failed) => return Err(failed),
        }
        self.note_added(place);
        Ok(())
    }

    /// Settles all added entries: their bodies are synced, then their gates are opened, and these are synced. Nothing is
    /// asked of the disk where all are settled.
    ///
    /// `Failed` comes only where the count of faults of the log's chunk rose. What a stop leaves then has each added
    /// entry whole or not at all.
    pub fn settle<D: Disk>(&mut self, disk: &mut D) -> Result<(), Failed>
        requires area { HasArea self.old.area (D.sizes disk.old) }
        ensures stops { D.tells → (c : Config) (images : List (List ℕ)) → IsLaid c (D.past disk.old) self.old images → Stops (D.past disk.old) (D.past disk.new) (HoldsEntries c self.old images) }
        ensures ok { D.tells → (c : Config) (images : List (List ℕ)) → IsLaid c (D.past disk.old) self.old images → OnOk result (IsLaid c (D.past disk.new) self.new images) }
        ensures value { OnOk result (self.new ≡ with_settled self.old) }
        ensures kept { OnErr result (self.new ≡ self.old) }
        ensures idle { self.old.settled ≡ length self.old.places → (disk.new ≡ disk.old) × (result ≡ Ok tt) }
        ensures frame { D.tells → Stops (D.past disk.old) (D.past disk.new) (FramedIn (D.past disk.old) (lies_in self.old.area)) }
        ensures reads { D.tells → OnOk result (ReadsOutside (D.past disk.old) (D.past disk.new) (lies_in self.old.area)) }
        ensures sizes { D.sizes disk.new ≡ D.sizes disk.old }
        ensures cause { HasChunkCause self.old.area.chunk (D.fault_counts disk.old) (D.fault_counts disk.new) result }
    {
        if self.settled() == self.added() {
            return Ok(());
        }
        match self.open_all(disk) {
            Ok(()) => {}
            Err(failed) => return Err(failed),
        }
        self.note_settled();
        Ok(())
    }

    /// Begins a new generation without entries, and closes every gate that is open, followed by one sync. Nothing is
    /// asked of the disk where no gate is open. No entry counts for the new generation, which is above that of before.
    ///
    /// `Failed` comes only where the count of faults of the log's chunk rose. Some gates may then be open, with older
    /// generations.
    pub fn empty<D: Disk>(&mut self, disk: &mut D, generation: u64) -> Result<(), Failed>
        requires area { HasArea self.old.area (D.sizes disk.old) }
        requires newer { self.old.generation < generation }
        ensures stops { D.tells → (c : Config) (images : List (List ℕ)) → IsLaid c (D.past disk.old) self.old images → Stops (D.past disk.old) (D.past disk.new) (HoldsEntries c (emptied self.old generation) []) }
        ensures ok { D.tells → (c : Config) (images : List (List ℕ)) → IsLaid c (D.past disk.old) self.old images → OnOk result (IsLaid c (D.past disk.new) self.new []) }
        ensures value { OnOk result (self.new ≡ emptied self.old generation) }
        ensures kept { OnErr result (self.new ≡ self.old) }
        ensures idle { list_any (λ b. b) self.old.gates ≡ false → (disk.new ≡ disk.old) × (result ≡ Ok tt) }
        ensures frame { D.tells → Stops (D.past disk.old) (D.past disk.new) (FramedIn (D.past disk.old) (lies_in self.old.area)) }
        ensures reads { D.tells → OnOk result (ReadsOutside (D.past disk.old) (D.past disk.new) (lies_in self.old.area)) }
        ensures sizes { D.sizes disk.new ≡ D.sizes disk.old }
        ensures cause { HasChunkCause self.old.area.chunk (D.fault_counts disk.old) (D.fault_counts disk.new) result }
    {
        match self.shut_all(disk) {
            Ok(()) => {}
            Err(failed) => return Err(failed),
        }
        self.renew(generation);
        Ok(())
    }

    // The entry that is taken next.
    fn next(&self) -> u32
        requires { length self.now.places < self.now.area.count }
        ensures value { result ≡ next_entry self.now }
        ensures below { result < self.now.area.count }
        ensures log { IsLog self.now }
    {
        self.order[self.places.len()]
    }

    // The page of an entry's head.
    fn page(&self, entry: u32) -> u32
        requires { entry < self.now.area.count }
        ensures value { result ≡ head_page self.now.area entry }
        ensures inside { result + 2 ≤ self.now.area.first + self.now.area.count * self.now.area.pages }
        ensures limit { result < 2 ^ 16 }
        ensures log { IsLog self.now }
    {
        self.area.first + 2 * entry
    }

    // The chunk of the entries.
    fn chunk(&self) -> u8
        ensures { result ≡ self.now.area.chunk }
    {
        self.area.chunk
    }

    // Whether the gate of an entry is open.
    fn is_open(&self, entry: u32) -> bool
        requires { entry < self.now.area.count }
        ensures { result ≡ gate_of self.now entry }
    {
        self.gates[entry as usize]
    }

    // Closes the gate of an entry, where it is open, and makes that durable.
    fn close_gate<D: Disk>(&self, disk: &mut D, entry: u32) -> Result<(), Failed>
        requires area { HasArea self.now.area (D.sizes disk.old) }
        requires entry { entry < self.now.area.count }
        ensures stops { D.tells → (c : Config) (images : List (List ℕ)) → IsLaid c (D.past disk.old) self.now images → IsFree self.now entry → Stops (D.past disk.old) (D.past disk.new) (HoldsEntries c self.now images) }
        ensures ok { D.tells → (c : Config) (images : List (List ℕ)) → IsLaid c (D.past disk.old) self.now images → IsFree self.now entry → OnOk result (IsLaid c (D.past disk.new) (with_shut self.now entry) images) }
        ensures frame { D.tells → Stops (D.past disk.old) (D.past disk.new) (FramedIn (D.past disk.old) (lies_in self.now.area)) }
        ensures reads { D.tells → OnOk result (ReadsOutside (D.past disk.old) (D.past disk.new) (lies_in self.now.area)) }
        ensures sizes { D.sizes disk.new ≡ D.sizes disk.old }
        ensures cause { HasChunkCause self.now.area.chunk (D.fault_counts disk.old) (D.fault_counts disk.new) result }
    {
        if !self.is_open(entry) {
            return Ok(());
        }
        write_synced(disk, self.chunk(), self.page(entry), 0, &[SHUT])
    }

    // Writes the image of an entry, and its head behind the closed gate. Neither is synced.
    fn write_entry<D: Disk>(
        &self,
        disk: &mut D,
        entry: u32,
        place: Place,
        image: &[u8; PAGE_LENGTH],
    ) -> Result<(), Failed>
        requires area { HasArea self.now.area (D.sizes disk.old) }
        requires entry { entry < self.now.area.count }
        ensures stops { D.tells → (c : Config) (images : List (List ℕ)) → IsLaid c (D.past disk.old) self.now images → entry ≡ next_entry self.now → length self.now.places < self.now.area.count → gate_of self.now entry ≡ false → Stops (D.past disk.old) (D.past disk.new) (HoldsEntries c self.now images) }
        ensures ok { D.tells → (c : Config) (images : List (List ℕ)) → IsLaid c (D.past disk.old) self.now images → entry ≡ next_entry self.now → length self.now.places < self.now.area.count → gate_of self.now entry ≡ false → IsPage c place → has_entry self.now place ≡ false → OnOk result (IsLaid c (D.past disk.new) (with_place self.now place) (images ++ image.now ∷ [])) }
        ensures frame { D.tells → Stops (D.past disk.old) (D.past disk.new) (FramedIn (D.past disk.old) (lies_in self.now.area)) }
        ensures reads { D.tells → OnOk result (ReadsOutside (D.past disk.old) (D.past disk.new) (lies_in self.now.area)) }
        ensures sizes { D.sizes disk.new ≡ D.sizes disk.old }
        ensures cause { HasChunkCause self.now.area.chunk (D.fault_counts disk.old) (D.fault_counts disk.new) result }
    {
        let body = write_body(place, self.generation());
        match disk.write_at(self.chunk(), self.page(entry) + 1, 0, image) {
            Ok(()) => disk.write_at(self.chunk(), self.page(entry), 1, &body),
            Err(failed) => Err(failed),
        }
    }

    // The entry that is taken at a turn.
    fn entry(&self, turn: u32) -> u32
        requires { turn < self.now.area.count }
        ensures value { result ≡ entry_number self.now turn }
        ensures below { result < self.now.area.count }
        ensures log { IsLog self.now }
    {
        self.order[turn as usize]
    }

    // How many entries are added.
    fn added(&self) -> u32
        ensures value { result ≡ length self.now.places }
        ensures log { IsLog self.now }
    {
        self.places.len() as u32
    }

    // How many entries there are.
    fn count(&self) -> u32
        ensures value { result ≡ self.now.area.count }
        ensures log { IsLog self.now }
    {
        self.area.count
    }

    // How many of the added entries are settled.
    fn settled(&self) -> u32
        ensures { result ≡ self.now.settled }
    {
        self.settled
    }

    // Makes durable what was written.
    fn sync<D: Disk>(&self, disk: &mut D) -> Result<(), Failed>
        requires { HasArea self.now.area (D.sizes disk.old) }
        ensures past { D.tells → Syncs (D.past disk.old) (D.past disk.new) self.now.area.chunk result }
        ensures sizes { D.sizes disk.new ≡ D.sizes disk.old }
        ensures cause { HasChunkCause self.now.area.chunk (D.fault_counts disk.old) (D.fault_counts disk.new) result }
    {
        disk.sync(self.area.chunk)
    }

    // Opens the gate of the entry of a turn, whose body is durable. It is not synced.
    fn open_gate<D: Disk>(&self, disk: &mut D, turn: u32) -> Result<(), Failed>
        requires area { HasArea self.now.area (D.sizes disk.old) }
        requires turn { turn < length self.now.places }
        requires log { IsLog self.now }
        ensures stops { D.tells → (c : Config) (images : List (List ℕ)) → IsOpening c (D.past disk.old) self.now images turn → self.now.settled ≤ turn → Stops (D.past disk.old) (D.past disk.new) (HoldsEntries c self.now images) }
        ensures ok { D.tells → (c : Config) (images : List (List ℕ)) → IsOpening c (D.past disk.old) self.now images turn → self.now.settled ≤ turn → OnOk result (IsOpening c (D.past disk.new) self.now images (turn + 1)) }
        ensures frame { D.tells → Stops (D.past disk.old) (D.past disk.new) (FramedIn (D.past disk.old) (lies_in self.now.area)) }
        ensures reads { D.tells → OnOk result (ReadsOutside (D.past disk.old) (D.past disk.new) (lies_in self.now.area)) }
        ensures sizes { D.sizes disk.new ≡ D.sizes disk.old }
        ensures cause { HasChunkCause self.now.area.chunk (D.fault_counts disk.old) (D.fault_counts disk.new) result }
    {
        disk.write_at(self.chunk(), self.page(self.entry(turn)), 0, &[OPEN])
    }

    // Opens the gates of the added entries that are not settled. They are not synced.
    fn open_gates<D: Disk>(&self, disk: &mut D) -> Result<(), Failed>
        requires area { HasArea self.now.area (D.sizes disk.old) }
        requires some { self.now.settled < length self.now.places }
        ensures stops { D.tells → (c : Config) (images : List (List ℕ)) → IsOpening c (D.past disk.old) self.now images self.now.settled → Stops (D.past disk.old) (D.past disk.new) (HoldsEntries c self.now images) }
        ensures ok { D.tells → (c : Config) (images : List (List ℕ)) → IsOpening c (D.past disk.old) self.now images self.now.settled → OnOk result (IsOpening c (D.past disk.new) self.now images (length self.now.places)) }
        ensures frame { D.tells → Stops (D.past disk.old) (D.past disk.new) (FramedIn (D.past disk.old) (lies_in self.now.area)) }
        ensures reads { D.tells → OnOk result (ReadsOutside (D.past disk.old) (D.past disk.new) (lies_in self.now.area)) }
        ensures sizes { D.sizes disk.new ≡ D.sizes disk.old }
        ensures cause { HasChunkCause self.now.area.chunk (D.fault_counts disk.old) (D.fault_counts disk.new) result }
    {
        for turn in self.settled()..self.added() {
            match self.open_gate(disk, turn) {
                Ok(()) => {}
                Err(failed) => return Err(failed),
            }
        }
        Ok(())
    }

    // Makes the bodies of all added entries durable, and then opens their gates, which one sync makes durable.
    fn open_all<D: Disk>(&self, disk: &mut D) -> Result<(), Failed>
        requires area { HasArea self.now.area (D.sizes disk.old) }
        requires some { self.now.settled < length self.now.places }
        ensures stops { D.tells → (c : Config) (images : List (List ℕ)) → IsLaid c (D.past disk.old) self.now images → Stops (D.past disk.old) (D.past disk.new) (HoldsEntries c self.now images) }
        ensures ok { D.tells → (c : Config) (images : List (List ℕ)) → IsLaid c (D.past disk.old) self.now images → OnOk result (IsLaid c (D.past disk.new) (with_settled self.now) images) }
        ensures frame { D.tells → Stops (D.past disk.old) (D.past disk.new) (FramedIn (D.past disk.old) (lies_in self.now.area)) }
        ensures reads { D.tells → OnOk result (ReadsOutside (D.past disk.old) (D.past disk.new) (lies_in self.now.area)) }
        ensures sizes { D.sizes disk.new ≡ D.sizes disk.old }
        ensures cause { HasChunkCause self.now.area.chunk (D.fault_counts disk.old) (D.fault_counts disk.new) result }
    {
        match self.sync(disk) {
            Ok(()) => {}
            Err(failed) => return Err(failed),
        }
        match self.open_gates(disk) {
            Ok(()) => self.sync(disk),
            Err(failed) => Err(failed),
        }
    }

    // Closes the gate of an entry, where it is open. The write is not synced.
    fn shut_gate<D: Disk>(&self, disk: &mut D, entry: u32) -> Result<(), Failed>
        requires area { HasArea self.now.area (D.sizes disk.old) }
        requires entry { entry < self.now.area.count }
        ensures stops { D.tells → (c : Config) (generation : ℕ) → IsClosing (D.past disk.old) self.now entry → self.now.generation < generation → Stops (D.past disk.old) (D.past disk.new) (HoldsEntries c (emptied self.now generation) []) }
        ensures ok { D.tells → IsClosing (D.past disk.old) self.now entry → OnOk result (IsClosing (D.past disk.new) self.now (entry + 1)) }
        ensures frame { D.tells → Stops (D.past disk.old) (D.past disk.new) (FramedIn (D.past disk.old) (lies_in self.now.area)) }
        ensures reads { D.tells → OnOk result (ReadsOutside (D.past disk.old) (D.past disk.new) (lies_in self.now.area)) }
        ensures sizes { D.sizes disk.new ≡ D.sizes disk.old }
        ensures cause { HasChunkCause self.now.area.chunk (D.fault_counts disk.old) (D.fault_counts disk.new) result }
    {
        if !self.is_open(entry) {
            return Ok(());
        }
        disk.write_at(self.chunk(), self.page(entry), 0, &[SHUT])
    }

    // Closes all gates that are open. The writes are not synced.
    fn shut_gates<D: Disk>(&self, disk: &mut D) -> Result<(), Failed>
        requires area { HasArea self.now.area (D.sizes disk.old) }
        ensures stops { D.tells → (c : Config) (generation : ℕ) → IsClosing (D.past disk.old) self.now 0 → self.now.generation < generation → Stops (D.past disk.old) (D.past disk.new) (HoldsEntries c (emptied self.now generation) []) }
        ensures ok { D.tells → IsClosing (D.past disk.old) self.now 0 → OnOk result (IsClosing (D.past disk.new) self.now self.now.area.count) }
        ensures frame { D.tells → Stops (D.past disk.old) (D.past disk.new) (FramedIn (D.past disk.old) (lies_in self.now.area)) }
        ensures reads { D.tells → OnOk result (ReadsOutside (D.past disk.old) (D.past disk.new) (lies_in self.now.area)) }
        ensures sizes { D.sizes disk.new ≡ D.sizes disk.old }
        ensures cause { HasChunkCause self.now.area.chunk (D.fault_counts disk.old) (D.fault_counts disk.new) result }
    {
        for entry in 0..self.count() {
            match self.shut_gate(disk, entry) {
                Ok(()) => {}
                Err(failed) => return Err(failed),
            }
        }
        Ok(())
    }

    // Whether a gate is open.
    fn has_open(&self) -> bool
        ensures value { result ≡ list_any (λ b. b) self.now.gates }
        ensures log { IsLog self.now }
    {
        self.gates.iter().any(|is_open| *is_open)
    }

    // Closes all gates that are open, and makes that durable. Where none is open nothing is asked of the disk.
    fn shut_all<D: Disk>(&self, disk: &mut D) -> Result<(), Failed>
        requires area { HasArea self.now.area (D.sizes disk.old) }
        ensures stops { D.tells → (c : Config) (images : List (List ℕ)) (generation : ℕ) → IsLaid c (D.past disk.old) self.now images → self.now.generation < generation → Stops (D.past disk.old) (D.past disk.new) (HoldsEntries c (emptied self.now generation) []) }
        ensures ok { D.tells → (c : Config) (images : List (List ℕ)) → IsLaid c (D.past disk.old) self.now images → OnOk result (AreShut (D.past disk.new) self.now.area) }
        ensures idle { list_any (λ b. b) self.now.gates ≡ false → (disk.new ≡ disk.old) × (result ≡ Ok tt) }
        ensures frame { D.tells → Stops (D.past disk.old) (D.past disk.new) (FramedIn (D.past disk.old) (lies_in self.now.area)) }
        ensures reads { D.tells → OnOk result (ReadsOutside (D.past disk.old) (D.past disk.new) (lies_in self.now.area)) }
        ensures sizes { D.sizes disk.new ≡ D.sizes disk.old }
        ensures cause { HasChunkCause self.now.area.chunk (D.fault_counts disk.old) (D.fault_counts disk.new) result }
    {
        if !self.has_open() {
            return Ok(());
        }
        match self.shut_gates(disk) {
            Ok(()) => self.sync(disk),
            Err(failed) => Err(failed),
        }
    }

    // Notes that the gate of an entry is closed.
    fn note_shut(&mut self, entry: u32)
        requires { entry < self.old.area.count }
        ensures { self.new ≡ with_shut self.old entry }
    {
        self.gates[entry as usize] = false;
    }

    // Notes that an entry was added, for which there is room.
    fn note_added(&mut self, place: Place)
        requires room { length self.old.places < self.old.area.count }
        requires fresh { has_entry self.old place ≡ false }
        ensures { self.new ≡ with_place self.old place }
    {
        self.places.insert(place).unwrap();
    }

    // Notes that all added entries are settled.
    fn note_settled(&mut self)
        ensures { self.new ≡ with_settled self.old }
    {
        let added = self.places.len();
        let (front, _) = self.order.split_at(added);
        let (_, entries) = front.split_at(self.settled as usize);
        mark_open(&mut self.gates, entries);
        self.settled = added as u32;
    }

    // Begins again without entries.
    fn renew(&mut self, generation: u64)
        ensures { self.new ≡ emptied self.old generation }
    {
        count_up(&mut self.order);
        self.places.clear();
        self.settled = 0;
        self.gates.fill(false);
        self.generation = generation;
    }
}

/// Marks the gates of these entries as open.
fn mark_open(gates: &mut [bool], entries: &[u32])
    requires { (j : ℕ) → j < length entries.now → slice_index entries.now j < length gates.old }
    ensures { gates.new ≡ with_open gates.old entries.now }
{
    for entry in entries {
        gates[*entry as usize] = true;
    }
}

/// Puts the numbers from 0 on.
fn count_up(numbers: &mut [u32])
    requires { length numbers.old < 2 ^ 32 }
    ensures { numbers.new ≡ range_with_len 0 (length numbers.old) }
{
    for (k, number) in numbers.iter_mut().enumerate() {
        *number = k as u32;
    }
}

/// The pages of the entries that count, with room for so many entries in all.
fn places_of(alloc: Global, entries: &Entries, count: u32) -> Result<IndexSet<Place>, NoMemory>
    ensures keys { IfOk result (λ places. places.keys ≡ entries.now.places) }
    ensures room { IfOk result (λ places. count ≤ set.index_set_len places + set.spare places) }
{
    let mut places = IndexSet::with_capacity(alloc, count as usize)?;
    for index in 0..entries.count() {
        places.insert(entries.place(index))?;
    }
    places.reserve((count as usize).saturating_sub(places.len()))?;
    Ok(places)
}
