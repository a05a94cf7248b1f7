//! The store, and its pages in memory.

ghost use Rattle.std.specs.Prelude.{◌≡◌, ◌<◌, ◌≤◌, ◌+◌, ◌-◌, ◌^◌, Bool, IfErr, IfOk, IsErrOf, List, None, OnErr, OnOk, Some, is_some, length, nat_lt, slice_index_or, true, ℕ};
ghost use Rattle.ol_values.specs.Config.{has_page, has_place};
ghost use Rattle.ol_values.specs.Image.{IsPage, page_bytes};
ghost use Rattle.ol_values.specs.Pages.{Page};
ghost use Rattle.ol_chunks.specs.Places.{physical_area};
ghost use Rattle.ol_ports.specs.Disk.{Past, seen};
ghost use Rattle.ol_before.specs.Images.{image_of, is_in_space, with_room, without};
ghost use Rattle.ol_pool.specs.Frames.{frame_of, with_frame};
ghost use Rattle.ol_data_pages.specs.Places.{HasSpaces, IsGood, IsWrong, standing_bytes, place_of};
ghost use Rattle.ol_store.specs.Causes.{HasStoreCause};
ghost use Rattle.ol_store.specs.Holding.{IsFresh, CleanAreFlushed, IsOnDisk};
ghost use Rattle.ol_store.specs.Pages.{Pages};
ghost use Rattle.ol_store.specs.Stores.{AreFlushed, IsBadAt, IsImage, IsLoaded, IsStore, begun, is_touched, with_before, with_flushed, with_pool};

use ol_before::Before;
use ol_chunks::ChunkTable;
use ol_data_pages::{CHUNKS, PageFault, read_page};
use ol_physlog::PhysLog;
use ol_pool::Pool;
use ol_ports::{Disk, NoMemory, PAGE_LENGTH};
use ol_values::{Rid, Row};
use std::alloc::Global;
use std::marker::Model;

/// Why a call of the store failed.
#[derive(Clone, Copy, Debug, PartialEq, Eq)]
pub enum StoreFault {
    /// A call of the disk failed.
    Failed,
    /// The disk gave no data page at this place, or one with a stamp above the flushed position of the logical log.
    Bad { chunk: u8, page: u32 },
    /// Memory was refused.
    NoMemory,
}

/// The data pages of the spaces that are up. It does not own the disk, which is lent to each call.
///
/// Contracts see it as plain data, and speak of its pages by `Pages`: each as it is now and as it was at the last checkpoint.
#[derive(Drop)]
pub struct Store {
    pub(crate) table: ChunkTable,
    pub(crate) pool: Pool,
    pub(crate) log: PhysLog,
    pub(crate) before: Before,
    pub(crate) written: [bool; CHUNKS],
    pub(crate) flushed: u64,
    pub(crate) last: u64,
}

impl Model for Store {
    ghost use Rattle.ol_store.specs.Stores.{IsStore, Store};

    ghost Value = { Store };

    ghost view = { λ s. record { config = s.table; pool = s.pool; log = s.log; before = s.before; written = s.written; flushed = s.flushed; last = s.last } };

    ghost invariant = { λ s. IsStore (record { config = s.table; pool = s.pool; log = s.log; before = s.before; written = s.written; flushed = s.flushed; last = s.last }) };
}

impl Store {
    /// Begins over a disk whose data pages all stand at their places as at the last checkpoint. No page is in memory yet. The
    /// physical log is that of the same configuration. `NoMemory` comes where memory was refused.
    pub fn new(
        alloc: Global,
        table: &ChunkTable,
        log: PhysLog,
        before: Before,
    ) -> Result<Store, NoMemory>
        requires { log.area ≡ physical_area table.now }
        ensures value { IfOk result (λ s. s ≡ begun table.now log before) }
        ensures stored { (past : Past) (v : Pages) → IsFresh past table.now log v → IfOk result (λ s. IsOnDisk past s v) }
    {
        // It tells that the configuration is within its limits.
        let _spaces = table.spaces();
        let pool = Pool::new(alloc, table)?;
        Ok(Store {
            table: table.copy(),
            pool,
            log,
            before,
            written: [false; CHUNKS],
            flushed: 0,
            last: 0,
        })
    }

    /// Notes that the logical log is flushed up to a position. It never falls. A page with a stamp above it is not written, and
    /// one that the disk gives is taken as bad.
    pub fn flushed_to(&mut self, position: u64)
        requires { self.old.flushed ≤ position }
        ensures value { self.new ≡ with_flushed self.old position }
        // No page was changed later than the last change.
        ensures flushed { self.old.last ≤ position → AreFlushed self.new }
    {
        self.flushed = position;
    }

    /// What a slot of a page holds.
    ///
    /// `Bad` comes only where the page was not in memory, and what the disk gave at its place is no data page, or one with a
    /// stamp above the flushed position. `NoMemory` comes only where the page was not in memory. Either changes nothing.
    pub fn read<D: Disk>(&mut self, disk: &mut D, rid: Rid) -> Result<Option<Row>, StoreFault>
        requires sizes { HasSpaces self.old.config (D.sizes disk.old) }
        requires place { has_place self.old.config rid ≡ true }
        ensures row { D.tells → (v : Pages) → IsOnDisk (D.past disk.old) self.old v → v.is_up rid.space ≡ true → IfOk result (λ row. row ≡ slice_index_or (v.now rid.space rid.page).slots rid.slot None) }
        ensures loaded { OnOk result (IsLoaded self.old self.new rid.space rid.page) }
        ensures stored { D.tells → (v : Pages) → IsOnDisk (D.past disk.old) self.old v → v.is_up rid.space ≡ true → OnOk result (IsOnDisk (D.past disk.new) self.new v) }
        ensures past { D.tells → D.past disk.new ≡ D.past disk.old }
        ensures unchanged { OnErr result (self.new ≡ self.old) }
        ensures bad { (chunk at : ℕ) → IsErrOf result (StoreFault.Bad chunk at) → IsBadAt self.old rid.space rid.page chunk at }
        ensures good { D.tells → (v : Pages) → IsOnDisk (D.past disk.old) self.old v → CleanAreFlushed self.old v → v.is_up rid.space ≡ true → (chunk at : ℕ) → IsErrOf result (StoreFault.Bad chunk at) → ⊥ }
        ensures memory { IsErrOf result StoreFault.NoMemory → frame_of self.old.pool rid.space rid.page ≡ None }
        ensures sizes { D.sizes disk.new ≡ D.sizes disk.old }
        ensures cause { HasStoreCause self.old.config (D.fault_counts disk.old) (D.fault_counts disk.new) result }
    {
        match self.load(disk, rid.space, rid.page) {
            Ok(()) => Ok(self.row(rid)),
            Err(fault) => Err(fault),
        }
    }

    /// The stamp of a page, with refusals as those of `read`.
    pub fn stamp<D: Disk>(&mut self, disk: &mut D, space: u8, page: u16) -> Result<u64, StoreFault>
        requires sizes { HasSpaces self.old.config (D.sizes disk.old) }
        requires page { has_page self.old.config space page ≡ true }
        ensures stamp { D.tells → (v : Pages) → IsOnDisk (D.past disk.old) self.old v → v.is_up space ≡ true → IfOk result (λ stamp. stamp ≡ (v.now space page).stamp) }
        ensures loaded { OnOk result (IsLoaded self.old self.new space page) }
        ensures stored { D.tells → (v : Pages) → IsOnDisk (D.past disk.old) self.old v → v.is_up space ≡ true → OnOk result (IsOnDisk (D.past disk.new) self.new v) }
        ensures past { D.tells → D.past disk.new ≡ D.past disk.old }
        ensures unchanged { OnErr result (self.new ≡ self.old) }
        ensures bad { (chunk at : ℕ) → IsErrOf result (StoreFault.Bad chunk at) → IsBadAt self.old space page chunk at }
        ensures good { D.tells → (v : Pages) → IsOnDisk (D.past disk.old) self.old v → CleanAreFlushed self.old v → v.is_up space ≡ true → (chunk at : ℕ) → IsErrOf result (StoreFault.Bad chunk at) → ⊥ }
        ensures memory { IsErrOf result StoreFault.NoMemory → frame_of self.old.pool space page ≡ None }
        ensures sizes { D.sizes disk.new ≡ D.sizes disk.old }
        ensures cause { HasStoreCause self.old.config (D.fault_counts disk.old) (D.fault_counts disk.new) result }
    {
        match self.load(disk, space, page) {
            Ok(()) => Ok(self.stamp_in_memory(space, page)),
            Err(fault) => Err(fault),
        }
    }

    /// Whether a page was changed since the last checkpoint.
    pub fn touched(&self, space: u8, page: u16) -> bool
        ensures value { result ≡ is_touched self.now.log space page }
        ensures store { IsStore self.now }
    {
        self.log.has(space, page)
    }

    /// How many more pages may be touched before the next checkpoint.
    pub fn spare(&self) -> u32
        ensures value { result ≡ self.now.log.area.count - length self.now.log.places }
        ensures store { IsStore self.now }
    {
        self.log.spare()
    }

    /// Whether an image of a page is held for an archive.
    pub fn held(&self, space: u8, page: u16) -> bool
        ensures { result ≡ is_some (image_of self.now.before.held space page) }
    {
        self.before.holds(space, page)
    }

    /// Whether one more image may be held, true exactly where fewer are than the configuration allows.
    pub fn can_capture(&self) -> bool
        ensures { result ≡ nat_lt (length self.now.before.held) self.now.before.limit }
    {
        self.before.count() < self.before.limit()
    }

    /// Makes memory for one more image. `NoMemory` comes only where none was spare, and changes nothing.
    pub fn make_room(&mut self) -> Result<(), NoMemory>
        ensures ok { OnOk result (self.new ≡ with_before self.old (with_room self.old.before)) }
        ensures memory { OnErr result (self.old.before.spare ≡ 0) }
        ensures unchanged { OnErr result (self.new ≡ self.old) }
    {
        self.before.make_room()
    }

    /// Drops the images that are held of a space's pages.
    pub fn drop_images(&mut self, space: u8)
        ensures { self.new ≡ with_before self.old (without (is_in_space space) self.old.before) }
    {
        self.before.drop_space(space);
    }

    /// Makes sure that a page is in memory.
    pub(crate) fn load<D: Disk>(
        &mut self,
        disk: &mut D,
        space: u8,
        page: u16,
    ) -> Result<(), StoreFault>
        requires sizes { HasSpaces self.old.config (D.sizes disk.old) }
        requires page { has_page self.old.config space page ≡ true }
        ensures store { IsStore self.old }
        ensures loaded { OnOk result (IsLoaded self.old self.new space page) }
        ensures stored { D.tells → (v : Pages) → IsOnDisk (D.past disk.old) self.old v → v.is_up space ≡ true → OnOk result (IsOnDisk (D.past disk.new) self.new v) }
        ensures past { D.tells → D.past disk.new ≡ D.past disk.old }
        ensures unchanged { OnErr result (self.new ≡ self.old) }
        ensures bad { (chunk at : ℕ) → IsErrOf result (StoreFault.Bad chunk at) → IsBadAt self.old space page chunk at }
        ensures good { D.tells → (v : Pages) → IsOnDisk (D.past disk.old) self.old v → CleanAreFlushed self.old v → v.is_up space ≡ true → (chunk at : ℕ) → IsErrOf result (StoreFault.Bad chunk at) → ⊥ }
        ensures memory { IsErrOf result StoreFault.NoMemory → frame_of self.old.pool space page ≡ None }
        ensures sizes { D.sizes disk.new ≡ D.sizes disk.old }
        ensures cause { HasStoreCause self.old.config (D.fault_counts disk.old) (D.fault_counts disk.new) result }
    {
        if self.is_in_memory(space, page) {
            return Ok(());
        }
        let mut image = [0; PAGE_LENGTH];
        match self.read_place(disk, space, page, &mut image) {
            Ok(()) => self.keep(space, page, &image),
            Err(fault) => Err(fault),
        }
    }

    fn is_in_memory(&self, space: u8, page: u16) -> bool
        ensures value { result ≡ is_some (frame_of self.now.pool space page) }
        ensures store { IsStore self.now }
    {
        self.pool.has(space, page)
    }

    /// Reads a page from its place. It takes no memory.
    pub(crate) fn read_place<D: Disk>(
        &self,
        disk: &mut D,
        space: u8,
        page: u16,
        buf: &mut [u8; PAGE_LENGTH],
    ) -> Result<(), StoreFault>
        requires sizes { HasSpaces self.now.config (D.sizes disk.old) }
        requires page { has_page self.now.config space page ≡ true }
        ensures bytes { D.tells → (IsErrOf result StoreFault.Failed → ⊥) → buf.new ≡ standing_bytes self.now.config (seen (D.past disk.old)) space page }
        ensures good { OnOk result (IsGood self.now.flushed buf.new) }
        ensures bad { (chunk at : ℕ) → IsErrOf result (StoreFault.Bad chunk at) → (place_of self.now.config space page ≡ (chunk, at)) × IsWrong self.now.flushed buf.new }
        ensures memory { IsErrOf result StoreFault.NoMemory → ⊥ }
        ensures past { D.tells → D.past disk.new ≡ D.past disk.old }
        ensures sizes { D.sizes disk.new ≡ D.sizes disk.old }
        ensures cause { HasStoreCause self.now.config (D.fault_counts disk.old) (D.fault_counts disk.new) result }
    {
        match read_page(disk, &self.table, space, page, self.flushed, buf) {
            Ok(()) => Ok(()),
            Err(PageFault::Failed) => Err(StoreFault::Failed),
            Err(PageFault::Bad { chunk, page }) => Err(StoreFault::Bad { chunk, page }),
        }
    }

    /// Takes a page into memory that was not there.
    fn keep(&mut self, space: u8, page: u16, image: &[u8; PAGE_LENGTH]) -> Result<(), StoreFault>
        requires page { has_page self.old.config space page ≡ true }
        requires image { IsImage image.now }
        requires none { frame_of self.old.pool space page ≡ None }
        ensures value { OnOk result (self.new ≡ with_pool self.old (with_frame self.old.pool space page image.now)) }
        ensures unchanged { OnErr result (self.new ≡ self.old) }
        ensures memory { IfErr result (λ fault. fault ≡ StoreFault.NoMemory) }
    {
        match self.pool.put(space, page, image) {
            Ok(()) => Ok(()),
            Err(_) => Err(StoreFault::NoMemory),
        }
    }

    /// What a slot of a page in memory holds.
    fn row(&self, rid: Rid) -> Option<Row>
        requires there { (bytes : List ℕ) × (frame_of self.now.pool rid.space rid.page ≡ Some bytes) }
        requires slot { rid.slot < 31 }
        ensures { (p : Page) → IsPage p → frame_of self.now.pool rid.space rid.page ≡ Some (page_bytes p) → result ≡ slice_index_or p.slots rid.slot None }
    {
        ol_page::slot(self.pool.get(rid.space, rid.page)?, rid.slot)
    }

    /// The stamp of a page in memory.
    fn stamp_in_memory(&self, space: u8, page: u16) -> u64
        requires there { (bytes : List ℕ) × (frame_of self.now.pool space page ≡ Some bytes) }
        ensures { (p : Page) → IsPage p → frame_of self.now.pool space page ≡ Some (page_bytes p) → result ≡ p.stamp }
    {
        ol_page::stamp(self.pool.get(space, page).unwrap())
    }
}
