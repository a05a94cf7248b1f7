//! A disk that is opened: what is found, and operations that are carried out.

ghost use Rattle.std.specs.Prelude.{◌≡◌, IsTrue, true};
ghost use Rattle.ol_values.specs.Config.{has_place as has_place_in};

use ol_chunks::{ChunkTable, parse_config};
use ol_format::format;
use ol_opening::open_storage;
use ol_outside::{Choice, Disk, MemoryDisk};
use ol_storage::{Operation, Storage};
use ol_values::{Rid, Row};
use std::alloc::Global;

const CONFIG: &[u8] = b"space root 100\nspace data1 8\nphyslog root 8\nlogs root 3 20\nbefore 2\n";

/// The pages of its chunks.
const SIZES: [u32; 3] = [100, 8, 2];

/// The first slot of data1.
pub const SLOT: Rid = Rid {
    space: 1,
    page: 0,
    slot: 0,
};

/// What an opening finds: the serial of the newest anchor, its checkpoint, the last log file that is backed up, the position of the last
/// record, and the row of the first slot of data1 as at the checkpoint.
#[derive(Drop)]
pub struct Found {
    pub serial: u64,
    pub checkpoint: u64,
    pub backed: u64,
    pub last: u64,
    pub row: Option<Row>,
}

/// Whether the configuration has a place.
fn has_place(table: &ChunkTable, rid: Rid) -> bool
    ensures { IsTrue result → has_place_in table.now rid ≡ true }
{
    rid.space < table.spaces() && u32::from(rid.page) < table.pages(rid.space) && rid.slot < 31
}

/// A disk that is formatted, durable and without calls.
pub fn formatted(alloc: Global) -> Option<MemoryDisk> {
    let table = parse_config(CONFIG).ok()?;
    let mut disk = MemoryDisk::new(alloc, &SIZES, &[]).ok()?;
    match format(&mut disk, &table) {
        Ok(()) => disk.rest(Choice::Old).ok(),
        Err(_) => None,
    }
}

/// Opens a disk and carries out all of these operations; None where one is refused.
pub fn carried_out(
    alloc: Global,
    disk: MemoryDisk,
    operations: &[Operation],
) -> Option<MemoryDisk> {
    let mut storage = opened(alloc, disk)?;
    match storage.carry_out(operations) {
        Ok(true) => Some(storage.close()),
        _ => None,
    }
}

/// What an opening finds on a disk.
pub fn read_disk(alloc: Global, disk: MemoryDisk) -> Option<Found> {
    let mut storage = opened(alloc, disk)?;
    if storage.is_stopped() {
        return None;
    }
    if !has_place(storage.log().table(), SLOT) {
        return None;
    }
    let row = match storage.read(SLOT) {
        Ok(row) => row,
        Err(_) => return None,
    };
    let anchor = storage.anchor();
    Some(Found {
        serial: anchor.serial,
        checkpoint: anchor.position,
        backed: anchor.backed,
        last: storage.log().next_position() - 1,
        row,
    })
}

fn opened(alloc: Global, disk: MemoryDisk) -> Option<Storage<MemoryDisk>> {
    match open_storage(alloc, disk) {
        Ok(storage) => Some(storage),
        Err(_) => None,
    }
}
