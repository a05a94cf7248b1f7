//! The reading of a physical log: which of its entries count.

ghost use Rattle.std.specs.Prelude.{◌≡◌, ◌≤◌, ◌<◌, ◌+◌, ◌*◌, ◌++◌, ◌^◌, ℕ, List, IfErr, IfOk, IsErrOf, None, OnOk, Some, false, is_some, length, position, option_map, true, slice_index};
ghost use Rattle.ol_chunks.specs.Places.{physical_area};
ghost use Rattle.ol_chunks.specs.Limits.{IsConfig};
ghost use Rattle.ol_ports.specs.Disk.{page_list, seen, Bytes};
ghost use Rattle.ol_physlog.specs.Heads.{IsPage};
ghost use Rattle.ol_physlog.specs.Places.{HasArea, entry_at, head_list, head_page, image_list, in_physical, is_open_at};
ghost use Rattle.ol_physlog.specs.Reading.{Found as FoundValue, HasReadCause, IsFirstRefused, IsFound, IsHeadAt, IsRefused, Tells, entries_in, entries_on, found_image, found_place, has_found, nothing_found, with_counting, with_other};
ghost use Rattle.ol_physlog.specs.States.{image_at, same_page};

use crate::OPEN;
use crate::head::{Head, read_head};
use crate::place::Place;
use indexmap::IndexSet;
use ol_chunks::{Area, ChunkTable};
use ol_ports::{Disk, NoMemory, PAGE_LENGTH};
use std::alloc::Global;
use std::marker::Model;

/// Why a physical log was not read.
#[derive(Clone, Copy, Debug, PartialEq, Eq)]
pub enum PhysFault {
    /// The page of the head of the first entry that is open and of the generation, and off the grammar or of the page of an
    /// earlier such entry.
    BadDisk { chunk: u8, page: u32 },
    /// A call of the disk on this chunk failed.
    DiskFault { chunk: u8 },
    /// Memory was refused.
    NoMemory,
}

/// What was read of the first entries.
#[derive(Drop)]
pub(crate) struct Found {
    numbers: Vec<u32>,
    places: IndexSet<Place>,
    images: Vec<[u8; PAGE_LENGTH]>,
    others: Vec<u32>,
    gates: Vec<bool>,
}

impl Model for Found {
    ghost use Rattle.ol_physlog.specs.Reading.{Found};

    ghost Value = { Found };

    ghost view = { λ f. record { numbers = f.numbers.items; places = f.places.keys; images = f.images.items; others = f.others.items; gates = f.gates.items } };
}

impl Found {
    fn new(alloc: Global) -> Found
        ensures { result ≡ nothing_found }
    {
        Found {
            numbers: Vec::new(alloc),
            places: IndexSet::new(alloc),
            images: Vec::new(alloc),
            others: Vec::new(alloc),
            gates: Vec::new(alloc),
        }
    }

    // How many entries were read.
    fn count(&self) -> u32
        requires { length self.now.gates < 2 ^ 16 }
        ensures { result ≡ length self.now.gates }
    {
        self.gates.len() as u32
    }

    // Whether some counting entry is of this page.
    fn has(&self, place: Place) -> bool
        ensures { result ≡ has_found self.now place }
    {
        self.places.contains(&place)
    }

    // Takes the next entry as one that counts.
    fn push(&mut self, place: Place, image: &[u8; PAGE_LENGTH]) -> Result<(), NoMemory>
        requires few { length self.old.gates < 2 ^ 16 }
        requires fresh { has_found self.old place ≡ false }
        ensures { OnOk result (self.new ≡ with_counting self.old place image.now) }
    {
        self.numbers.push(self.gates.len() as u32)?;
        self.places.insert(place)?;
        self.images.push(*image)?;
        self.gates.push(true)?;
        Ok(())
    }

    // Takes the next entry as one that does not count.
    fn pass(&mut self, is_open: bool) -> Result<(), NoMemory>
        requires { length self.old.gates < 2 ^ 16 }
        ensures { OnOk result (self.new ≡ with_other self.old is_open) }
    {
        self.others.push(self.gates.len() as u32)?;
        self.gates.push(is_open)?;
        Ok(())
    }
}

/// The entries of a physical log that count, with their pages and images in order of their numbers, and the gates that are
/// open.
#[derive(Drop)]
pub struct Entries {
    found: Found,
}

impl Model for Entries {
    ghost use Rattle.std.specs.Prelude.{length, ◌≤◌};
    ghost use Rattle.ol_physlog.specs.Reading.{Found, IsFound};

    ghost Value = { Found };

    ghost view = { λ e. e.found };

    ghost invariant = { λ e. IsFound e.found × (length e.found.gates ≤ 4096) };
}

impl Entries {
    /// How many entries count.
    pub fn count(&self) -> u32
        ensures value { result ≡ length self.now.numbers }
        ensures limit { result ≤ 4096 }
        ensures found { IsFound self.now }
    {
        self.found.numbers.len() as u32
    }

    /// The number of the entry of an index, by which counting entries are in order.
    pub fn number(&self, index: u32) -> u32
        requires { index < length self.now.numbers }
        ensures { result ≡ slice_index self.now.numbers index }
    {
        self.found.numbers[index as usize]
    }

    /// The page that the counting entry of an index is of.
    pub fn place(&self, index: u32) -> Place
        requires { index < length self.now.numbers }
        ensures { result ≡ found_place self.now index }
    {
        self.found.places.as_slice()[index as usize]
    }

    /// The image of the counting entry of an index.
    pub fn image(&self, index: u32) -> &[u8; PAGE_LENGTH]
        requires { index < length self.now.numbers }
        ensures { result.now ≡ image_at self.now.images index }
    {
        &self.found.images[index as usize]
    }

    /// The image of a page, where an entry of it counts; None exactly where none does.
    pub fn get(&self, space: u8, page: u16) -> Option<&[u8; PAGE_LENGTH]>
        ensures image { option_map (λ image. image.now) result ≡ found_image self.now (record { space = space; page = page }) }
        ensures found { is_some result ≡ has_found self.now (record { space = space; page = page }) }
    {
        let index = self.found.places.get_index_of(&Place { space, page })?;
        Some(&self.found.images[index])
    }

    /// The numbers of all entries, those that count first, and each part in order.
    pub(crate) fn order(&self, alloc: Global) -> Result<Vec<u32>, NoMemory>
        ensures { IfOk result (λ order. order.items ≡ self.now.numbers ++ self.now.others) }
    {
        let mut order = Vec::new(alloc);
        order.extend_from_slice(&self.found.numbers)?;
        order.extend_from_slice(&self.found.others)?;
        Ok(order)
    }

    /// Of each entry whether its gate is open.
    pub(crate) fn gates(&self, alloc: Global) -> Result<Vec<bool>, NoMemory>
        ensures { IfOk result (λ gates. gates.items ≡ self.now.gates) }
    {
        let mut gates = Vec::new(alloc);
        gates.extend_from_slice(&self.found.gates)?;
        Ok(gates)
    }
}

/// The physical log, with what is known of its places.
pub(crate) fn area_of(table: &ChunkTable) -> Area
    ensures value { result ≡ physical_area table.now }
    ensures pages { result.pages ≡ 2 }
    ensures count { (1 ≤ result.count) × (result.count ≤ 4096) }
    ensures fits { result.first + 2 * result.count < 2 ^ 16 }
{
    let area = table.physical();
    let _pages = table.chunk_pages(area.chunk);
    area
}

/// Takes the next entry as one that counts.
fn take_counting(
    found: &mut Found,
    place: Place,
    image: &[u8; PAGE_LENGTH],
) -> Result<(), PhysFault>
    requires few { length found.old.gates < 2 ^ 16 }
    requires fresh { has_found found.old place ≡ false }
    ensures found { OnOk result (found.new ≡ with_counting found.old place image.now) }
    ensures memory { IfErr result (λ fault. fault ≡ PhysFault.NoMemory) }
{
    match found.push(place, image) {
        Ok(()) => Ok(()),
        Err(_) => Err(PhysFault::NoMemory),
    }
}

/// Takes the next entry as one that does not count.
fn take_other(found: &mut Found, is_open: bool) -> Result<(), PhysFault>
    requires { length found.old.gates < 2 ^ 16 }
    ensures found { OnOk result (found.new ≡ with_other found.old is_open) }
    ensures memory { IfErr result (λ fault. fault ≡ PhysFault.NoMemory) }
{
    match found.pass(is_open) {
        Ok(()) => Ok(()),
        Err(_) => Err(PhysFault::NoMemory),
    }
}

/// Takes the next entry, whose head is of this page, and reads its image.
fn take_image<D: Disk>(
    disk: &mut D,
    table: &ChunkTable,
    place: Place,
    page: &mut [u8; PAGE_LENGTH],
    found: &mut Found,
) -> Result<(), PhysFault>
    requires area { HasArea (physical_area table.now) (D.sizes disk.old) }
    requires within { length found.old.gates < (physical_area table.now).count }
    ensures image { D.tells → OnOk result (found.new ≡ with_counting found.old place (image_list (physical_area table.now) (seen (D.past disk.old)) (length found.old.gates))) }
    ensures found { OnOk result (found.new ≡ with_counting found.old place page.new) }
    ensures fresh { OnOk result (has_found found.old place ≡ false) }
    ensures bad { (chunk at : ℕ) → IsErrOf result (PhysFault.BadDisk chunk at) → IsHeadAt table.now (length found.old.gates) chunk at × (has_found found.old place ≡ true) }
    ensures past { D.tells → D.past disk.new ≡ D.past disk.old }
    ensures sizes { D.sizes disk.new ≡ D.sizes disk.old }
    ensures cause { HasReadCause table.now (D.fault_counts disk.old) (D.fault_counts disk.new) result }
{
    let area = area_of(table);
    let head = area.first + 2 * found.count();
    if found.has(place) {
        return Err(PhysFault::BadDisk {
            chunk: area.chunk,
            page: head,
        });
    }
    match disk.read(area.chunk, head + 1, page) {
        Ok(()) => take_counting(found, place, page),
        Err(_) => Err(PhysFault::DiskFault { chunk: area.chunk }),
    }
}

/// Reads the next entry.
fn read_entry<D: Disk>(
    disk: &mut D,
    table: &ChunkTable,
    generation: u64,
    page: &mut [u8; PAGE_LENGTH],
    found: &mut Found,
) -> Result<(), PhysFault>
    requires area { HasArea (physical_area table.now) (D.sizes disk.old) }
    requires within { length found.old.gates < (physical_area table.now).count }
    ensures found { IsFound found.old → OnOk result (IsFound found.new) }
    ensures next { OnOk result (length found.new.gates ≡ length found.old.gates + 1) }
    ensures tells { D.tells → IsFound found.old → Tells table.now (physical_area table.now) generation (seen (D.past disk.old)) found.old → OnOk result (Tells table.now (physical_area table.now) generation (seen (D.past disk.old)) found.new) }
    ensures good { D.tells → IsFound found.old → Tells table.now (physical_area table.now) generation (seen (D.past disk.old)) found.old → OnOk result (IsRefused table.now (physical_area table.now) generation (seen (D.past disk.old)) (length found.old.gates) → ⊥) }
    ensures bad { D.tells → IsFound found.old → Tells table.now (physical_area table.now) generation (seen (D.past disk.old)) found.old → (chunk at : ℕ) → IsErrOf result (PhysFault.BadDisk chunk at) → IsRefused table.now (physical_area table.now) generation (seen (D.past disk.old)) (length found.old.gates) }
    ensures place { (chunk at : ℕ) → IsErrOf result (PhysFault.BadDisk chunk at) → IsHeadAt table.now (length found.old.gates) chunk at }
    ensures past { D.tells → D.past disk.new ≡ D.past disk.old }
    ensures sizes { D.sizes disk.new ≡ D.sizes disk.old }
    ensures cause { HasReadCause table.now (D.fault_counts disk.old) (D.fault_counts disk.new) result }
{
    let area = area_of(table);
    let head = area.first + 2 * found.count();
    match disk.read(area.chunk, head, page) {
        Ok(()) => {}
        Err(_) => return Err(PhysFault::DiskFault { chunk: area.chunk }),
    }
    match read_head(table, generation, page) {
        Head::Idle => take_other(found, page[0] == OPEN),
        Head::Bad => Err(PhysFault::BadDisk {
            chunk: area.chunk,
            page: head,
        }),
        Head::Counts { place } => take_image(disk, table, place, page, found),
    }
}

/// Reads the heads of all entries of the physical log, and the images of those that count: their gate is open, and their
/// generation is this one. A gate that is open with another generation is passed over, whatever else its head holds.
///
/// `BadDisk` names the page of the head of the first entry that is open and of the generation, and off the grammar or of the
/// page of an earlier such entry. Whether an image is that of a data page is not looked at. `DiskFault` comes only where the
/// count of faults of the log's chunk rose, and `NoMemory` where memory was refused. Nothing is written.
pub fn read_entries<D: Disk>(
    alloc: Global,
    disk: &mut D,
    table: &ChunkTable,
    generation: u64,
) -> Result<Entries, PhysFault>
    requires { HasArea (physical_area table.now) (D.sizes disk.old) }
    ensures value { D.tells → IfOk result (λ found. entries_in found ≡ entries_on table.now generation (seen (D.past disk.old))) }
    ensures tells { D.tells → IfOk result (Tells table.now (physical_area table.now) generation (seen (D.past disk.old))) }
    ensures good { D.tells → OnOk result ((k : ℕ) → k < (physical_area table.now).count → IsRefused table.now (physical_area table.now) generation (seen (D.past disk.old)) k → ⊥) }
    ensures found { IfOk result IsFound }
    ensures gates { IfOk result (λ found. length found.gates ≡ (physical_area table.now).count) }
    ensures bad { D.tells → (chunk page : ℕ) → IsErrOf result (PhysFault.BadDisk chunk page) → (k : ℕ) × IsHeadAt table.now k chunk page × IsFirstRefused table.now generation (seen (D.past disk.old)) k }
    // A page of the log is named, also over a disk that does not tell its bytes.
    ensures place { (chunk page : ℕ) → IsErrOf result (PhysFault.BadDisk chunk page) → in_physical table.now chunk page ≡ true }
    ensures past { D.tells → D.past disk.new ≡ D.past disk.old }
    ensures sizes { D.sizes disk.new ≡ D.sizes disk.old }
    ensures cause { HasReadCause table.now (D.fault_counts disk.old) (D.fault_counts disk.new) result }
{
    let area = area_of(table);
    let mut page = [0; PAGE_LENGTH];
    let mut found = Found::new(alloc);
    for _entry in 0..area.count {
        match read_entry(disk, table, generation, &mut page, &mut found) {
            Ok(()) => {}
            Err(fault) => return Err(fault),
        }
    }
    Ok(Entries { found })
}
