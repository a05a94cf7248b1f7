//! The reader of a drive.

ghost use Rattle.std.specs.Prelude.{◌≡◌, ◌∷◌, ◌<◌, [], false, IfErr, IfOk, IfSome, List, OnErr, OnOk, true, ℕ};
ghost use Rattle.ol_ports.specs.Causes.{HasCause};
ghost use Rattle.ol_ports.specs.Shelf.{block_at};
ghost use Rattle.ol_shelf_reader.specs.Streams.{Position, first_of, given_last, places_left};
ghost use Rattle.ol_shelf_reader.specs.Steps.{IsNext, Steps};

use ol_ports::{BLOCK_LENGTH, DRIVES, Failed, Shelf};
use std::marker::Model;

/// A call of the shelf failed; it shows this count of faults.
#[derive(Clone, Copy, Debug, PartialEq, Eq)]
pub struct ShelfFault {
    pub count: u64,
}

/// A reader of a drive's blocks, one after the other. It takes no memory.
#[derive(Debug, Drop)]
pub struct Reader {
    drive: u8,
    // The volume of the block that it looks at next, from 1.
    volume: u32,
    // That block, from 0; there may be none behind the last that was given.
    block: u32,
}

impl Model for Reader {
    ghost use Rattle.std.specs.Prelude.{◌<◌};
    ghost use Rattle.ol_shelf_reader.specs.Streams.{Position};

    ghost Value = { Position };

    ghost view = { λ r. record { drive = r.drive; volume = r.volume; block = r.block } };

    // volumes are counted from 1
    ghost invariant = { λ r. 0 < r.volume };
}

impl Reader {
    /// A reader of this drive, before its first block.
    pub fn new(drive: u8) -> Reader
        ensures { result ≡ first_of drive }
    {
        Reader {
            drive,
            volume: 1,
            block: 0,
        }
    }

    /// Reads the next block of the drive into `buf`, over its volumes, of which empty ones are passed over; false
    /// exactly at the end of the last one, again and again.
    ///
    /// `ShelfFault` comes only where the shelf's count of faults rose in this call. The reader then stands where it
    /// stood, and `buf` may hold anything.
    pub fn next<F: Shelf>(
        &mut self,
        shelf: &mut F,
        buf: &mut [u8; BLOCK_LENGTH],
    ) -> Result<bool, ShelfFault>
        requires { self.old.drive < DRIVES }
        ensures step { IfOk result (Steps (F.shape shelf.old) self.old self.new) }
        ensures given { (p : ℕ × ℕ) (rest : List (ℕ × ℕ)) → places_left (F.shape shelf.old) self.old ≡ p ∷ rest
            → IfOk result (λ more. (more ≡ true) × (places_left (F.shape shelf.old) self.new ≡ rest) × (given_last self.new ≡ p)) }
        ensures block { F.tells → (p : ℕ × ℕ) (rest : List (ℕ × ℕ)) → places_left (F.shape shelf.old) self.old ≡ p ∷ rest
            → OnOk result (buf.new ≡ block_at (F.tapes shelf.old) self.old.drive p.0 p.1) }
        ensures end { places_left (F.shape shelf.old) self.old ≡ [] → IfOk result (λ more. (more ≡ false) × (self.new ≡ self.old)) }
        ensures drive { self.new.drive ≡ self.old.drive }
        ensures unchanged { OnErr result (self.new ≡ self.old) }
        ensures shape { F.shape shelf.new ≡ F.shape shelf.old }
        ensures tapes { F.tells → F.tapes shelf.new ≡ F.tapes shelf.old }
        ensures cause { HasCause (F.fault_count shelf.old) (F.fault_count shelf.new) result }
        ensures count { IfErr result (λ fault. fault.count ≡ F.fault_count shelf.new) }
    {
        let (volume, block) = match find_next(shelf, self.drive, self.volume, self.block) {
            Ok(Some(place)) => place,
            Ok(None) => return Ok(false),
            Err(_) => return Err(fault_of(shelf)),
        };
        if shelf.read(self.drive, volume, block, buf).is_err() {
            return Err(fault_of(shelf));
        }
        self.volume = volume;
        self.block = block + 1;
        Ok(true)
    }

    /// The volume and the block that were given last, counted from 1 and from 0. Before the first block they are 1 and 0.
    pub fn place(&self) -> (u32, u32)
        ensures { result ≡ given_last self.now }
    {
        (self.volume, self.block.saturating_sub(1))
    }
}

// The first place of a block from this volume and block on, as volume and block; None where there is none.
fn find_next<F: Shelf>(
    shelf: &mut F,
    drive: u8,
    first: u32,
    mut block: u32,
) -> Result<Option<(u32, u32)>, Failed>
    requires drive { drive < DRIVES }
    requires first { 0 < first }
    ensures next { let from : Position = record { drive = drive; volume = first; block = block } in IfOk result (IsNext (F.shape shelf.old) from) }
    ensures short { IfOk result (λ found. IfSome found (λ place. place.1 < u32.MAX)) }
    ensures shape { F.shape shelf.new ≡ F.shape shelf.old }
    ensures tapes { F.tells → F.tapes shelf.new ≡ F.tapes shelf.old }
    ensures cause { HasCause (F.fault_count shelf.old) (F.fault_count shelf.new) result }
{
    let volumes = shelf.volumes(drive)?;
    for volume in first..=volumes {
        let blocks = shelf.blocks(drive, volume)?;
        if block < blocks {
            return Ok(Some((volume, block)));
        }
        // this volume has no more, and the next one is read from its first block on
        block = 0;
    }
    Ok(None)
}

// A fault of the shelf, with the count of faults that it shows now.
fn fault_of<F: Shelf>(shelf: &F) -> ShelfFault
    ensures { result.count ≡ F.fault_count shelf.now }
{
    ShelfFault {
        count: shelf.faults(),
    }
}
