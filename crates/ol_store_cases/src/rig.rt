//! A store, and its calls where what they require holds.

ghost use Rattle.std.specs.Prelude.{◌≡◌, ◌<◌, ◌⊎◌, IfSome, IsTrue, length, true};
ghost use Rattle.ol_values.specs.Config.{has_place as has_place_in};
ghost use Rattle.ol_chunks.specs.Places.{physical_area};
ghost use Rattle.ol_data_pages.specs.Places.{HasSpaces};
ghost use Rattle.ol_store.specs.Stores.{CanCapture, is_touched, with_before};

use ol_before::Before;
use ol_chunks::{ChunkTable, parse_config};
use ol_cursor::Cursor;
use ol_format::first_small;
use ol_outside::{Disk, PAGE_LENGTH};
use ol_physlog::{Entries, PhysLog, read_entries};
use ol_store::{Store, StoreFault};
use ol_values::{Rid, Row};
use std::alloc::Global;
use std::marker::Model;

const CONFIG: &[u8] = b"space root 100\nspace data1 8\nphyslog root 8\nlogs root 3 20\nbefore 2\n";

/// The pages of its chunks.
pub const SIZES: [u32; 3] = [100, 8, 2];

/// A space, a page of it and a slot of that.
pub type At = (u8, u16, u8);

/// A call of the store.
#[derive(Clone, Copy)]
pub enum Step {
    /// Gives a slot a row, or none, and its page a stamp.
    Change(At, Option<&'static [u8]>, u32),
    /// The same, behind the capture of the page's image.
    Capture(At, Option<&'static [u8]>, u32),
    /// Cleans a page.
    Clean,
    /// A checkpoint, with which the next generation begins.
    Checkpoint,
}

/// The stamp of a page, and what a slot holds.
pub type Seen = (Result<u64, StoreFault>, Result<Option<Row>, StoreFault>);

/// What an archive takes.
pub type Taken = Result<Option<(u8, u16)>, StoreFault>;

/// A store, and what its calls want to be known of it.
#[derive(Drop)]
pub struct Rig {
    table: ChunkTable,
    pub store: Store,
    generation: u64,
    // No change gave a greater stamp, and the log is flushed to no greater position.
    last: u64,
}

impl Model for Rig {
    ghost use Rattle.ol_store.specs.Stores.{Store};
    ghost use Rattle.ol_store_cases.specs.Known.{IsKnown};

    ghost Value = { Store };

    ghost view = { λ r. r.store };

    ghost invariant = { λ r. IsKnown r.table r.store r.generation r.last };
}

/// Whether a disk has all chunks whole.
fn has_spaces<D: Disk>(disk: &D, table: &ChunkTable) -> bool
    ensures { IsTrue result → HasSpaces table.now (D.sizes disk.now) }
{
    first_small(disk, table).is_none()
}

/// Whether the configuration has a place.
fn has_place(table: &ChunkTable, rid: Rid) -> bool
    ensures { IsTrue result → has_place_in table.now rid ≡ true }
{
    rid.space < table.spaces() && u32::from(rid.page) < table.pages(rid.space) && rid.slot < 31
}

/// The entries that count for a generation.
fn entries_in<D: Disk>(
    alloc: Global,
    disk: &mut D,
    table: &ChunkTable,
    generation: u64,
) -> Option<Entries>
    ensures { IfSome result (λ found. length found.gates ≡ (physical_area table.now).count) }
{
    let chunk = table.physical().chunk;
    if disk.size(chunk) < table.chunk_pages(chunk) {
        return None;
    }
    read_entries(alloc, disk, table, generation).ok()
}

/// The entries of a disk that count for a generation.
pub fn entries_on<D: Disk>(alloc: Global, disk: &mut D, generation: u64) -> Option<Entries> {
    let table = parse_config(CONFIG).ok()?;
    entries_in(alloc, disk, &table, generation)
}

impl Rig {
    /// Begins over a disk that is opened for a generation, with the log flushed to a position.
    pub fn new<D: Disk>(alloc: Global, disk: &mut D, generation: u64, flushed: u64) -> Option<Rig> {
        let table = parse_config(CONFIG).ok()?;
        let entries = entries_in(alloc, disk, &table, generation)?;
        let before = Before::new(alloc, &table).ok()?;
        let Ok(log) = PhysLog::new(alloc, &table, generation, &entries) else {
            return None;
        };
        let Ok(mut store) = Store::new(alloc, &table, log, before) else {
            return None;
        };
        store.flushed_to(flushed);
        Some(Rig {
            table,
            store,
            generation,
            last: flushed,
        })
    }

    /// Takes steps; None where one fails, or may not be made.
    pub fn play<D: Disk>(self, disk: &mut D, steps: &[Step]) -> Option<Rig> {
        let mut rig = self;
        for step in steps {
            rig = rig.take(disk, *step)?;
        }
        Some(rig)
    }

    fn take<D: Disk>(self, disk: &mut D, step: Step) -> Option<Rig> {
        match step {
            Step::Change(at, row, stamp) => self.change(disk, at, row, stamp, false),
            Step::Capture(at, row, stamp) => self.change(disk, at, row, stamp, true),
            Step::Clean => Some(self.clean(disk)?.0),
            Step::Checkpoint => self.checkpoint(disk),
        }
    }

    fn change<D: Disk>(
        mut self,
        disk: &mut D,
        at: At,
        bytes: Option<&[u8]>,
        stamp: u32,
        capture: bool,
    ) -> Option<Rig> {
        let (space, page, slot) = at;
        let rid = Rid { space, page, slot };
        let stamp = u64::from(stamp);
        let row = match bytes {
            Some(bytes) => Some(Row::new(bytes)?),
            None => None,
        };
        if stamp == 0 || !self.may_change(disk, rid) || !self.may_capture(capture, rid) {
            return None;
        }
        match self.store.change(disk, rid, row, stamp, capture) {
            Ok(()) => {}
            Err(_) => return None,
        }
        self.last = self.last.max(stamp);
        Some(self)
    }

    fn may_change<D: Disk>(&self, disk: &D, rid: Rid) -> bool
        ensures sizes { IsTrue result → HasSpaces self.now.config (D.sizes disk.now) }
        ensures place { IsTrue result → has_place_in self.now.config rid ≡ true }
        ensures spare { IsTrue result → (is_touched self.now.log rid.space rid.page ≡ true) ⊎ (length self.now.log.places < self.now.log.area.count) }
    {
        has_spaces(disk, &self.table)
            && has_place(&self.table, rid)
            && (self.store.touched(rid.space, rid.page) || self.store.spare() > 0)
    }

    /// Whether a page's image may be captured, where that is asked for. It makes memory for one.
    fn may_capture(&mut self, capture: bool, rid: Rid) -> bool
        ensures can { IsTrue result → capture ≡ true → CanCapture self.new.before rid.space rid.page }
        ensures rest { self.new ≡ with_before self.old self.new.before }
    {
        !capture
            || (self.store.make_room().is_ok()
                && self.store.can_capture()
                && !self.store.held(rid.space, rid.page))
    }

    /// Cleans a page, and tells which.
    pub fn clean<D: Disk>(mut self, disk: &mut D) -> Option<(Rig, Option<(u8, u16)>)> {
        self.store.flushed_to(self.last);
        if !has_spaces(disk, &self.table) {
            return None;
        }
        let place = self.store.clean_one(disk).ok()?;
        Some((self, place))
    }

    fn checkpoint<D: Disk>(mut self, disk: &mut D) -> Option<Rig> {
        self.store.flushed_to(self.last);
        if !has_spaces(disk, &self.table) {
            return None;
        }
        match self.store.checkpoint(disk) {
            Ok(()) => {}
            Err(_) => return None,
        }
        self.generation = self.generation.checked_add(1)?;
        self.store.empty(disk, self.generation).ok()?;
        Some(self)
    }

    /// The page that an archive takes next, the stamp of its image, and whether an image of the page is held behind it.
    pub fn next_image<D: Disk>(self, disk: &mut D, cursor: &Cursor) -> Option<(Taken, u64, bool)> {
        if !has_spaces(disk, &self.table) {
            return None;
        }
        let mut store = self.store;
        let mut image = [0; PAGE_LENGTH];
        let taken = store.image_at_cut(disk, cursor, &mut image);
        let held = match taken {
            Ok(Some((space, page))) => store.held(space, page),
            _ => false,
        };
        Some((taken, ol_page::stamp(&image), held))
    }

    /// What the calls for a page tell.
    pub fn seen<D: Disk>(&mut self, disk: &mut D, at: At) -> Option<Seen> {
        let (space, page, slot) = at;
        let rid = Rid { space, page, slot };
        if !has_spaces(disk, &self.table) || !has_place(&self.table, rid) {
            return None;
        }
        let stamp = self.store.stamp(disk, space, page);
        Some((stamp, self.store.read(disk, rid)))
    }
}
