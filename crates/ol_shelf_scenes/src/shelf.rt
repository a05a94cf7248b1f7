//! A shelf in memory of volumes, and what is read of it.

ghost use Rattle.std.specs.Prelude.{◌≡◌, ◌<◌, IfOk, IfSome, map};
ghost use Rattle.ol_ports.specs.Shelf.{volume_count};
ghost use Rattle.ol_rules.specs.Shelf.{objects};
ghost use Rattle.ol_object_spans.specs.Objects.{object_told};
ghost use Rattle.ol_catalog.specs.Streams.{shelf_value};

use crate::block::Bytes;
use crate::trouble::Trouble;
use ol_catalog::{CatalogFault, read};
use ol_outside::{DRIVES, Drive, MemoryDrive, MemoryShelf, Shelf, Volumes};
use ol_plan::Catalog;
use ol_volume::Writer;
use std::alloc::Global;

/// The blocks of a volume.
#[derive(Drop)]
pub struct Volume {
    /// The drive that wrote it.
    pub drive: u8,
    /// The blocks in order.
    pub blocks: Vec<Bytes>,
}

/// The catalog of a shelf that has these volumes.
pub fn catalog_of(
    alloc: Global,
    volumes: &[Volume],
) -> Result<Result<Catalog, CatalogFault>, Trouble> {
    let mut shelf = MemoryShelf::new(alloc, &[])?;
    for volume in volumes {
        let written = written(alloc, &volume.blocks)?;
        add(&mut shelf, volume.drive, written)?;
    }
    Ok(read_catalog(alloc, &mut shelf))
}

/// The catalog of a shelf, which tells the shelf's objects: what a plan over it is asked to be.
fn read_catalog<F: Shelf>(alloc: Global, shelf: &mut F) -> Result<Catalog, CatalogFault>
    ensures { F.tells → IfOk result (λ c. c ≡ map object_told (objects (shelf_value (F.tapes shelf.old)))) }
{
    match read(alloc, shelf) {
        Ok(objects) => Ok(Catalog::new(objects)),
        Err(fault) => Err(fault),
    }
}

/// The volume that a drive leaves which writes these blocks.
fn written(alloc: Global, blocks: &[Bytes]) -> Result<Volumes, Trouble> {
    let Ok(count) = u32::try_from(blocks.len()) else {
        return Err(Trouble::Refused);
    };
    let drive = MemoryDrive::new(alloc, count, 1, &[])?;
    let mut writer = Writer::new(drive, 0);
    put_all(&mut writer, blocks)?;
    Ok(writer.into_drive().take())
}

fn put_all<T: Drive>(writer: &mut Writer<T>, blocks: &[Bytes]) -> Result<(), Trouble> {
    for block in blocks {
        if writer.put(block).is_err() {
            return Err(Trouble::Refused);
        }
    }
    Ok(())
}

/// Adds a volume behind those of a drive.
fn add(shelf: &mut MemoryShelf, drive: u8, volumes: Volumes) -> Result<(), Trouble> {
    if drive >= DRIVES {
        return Err(Trouble::NoDrive);
    }
    let Some(count) = volumes_on(shelf, drive) else {
        return Err(Trouble::Refused);
    };
    if count as usize + volumes.len() > u32::MAX as usize {
        return Err(Trouble::Refused);
    }
    Ok(shelf.add(drive, volumes)?)
}

/// How many volumes of a drive a shelf has.
fn volumes_on<F: Shelf>(shelf: &mut F, drive: u8) -> Option<u32>
    requires { drive < DRIVES }
    ensures { IfSome result (λ n. n ≡ volume_count (F.shape shelf.new) drive) }
{
    shelf.volumes(drive).ok()
}
