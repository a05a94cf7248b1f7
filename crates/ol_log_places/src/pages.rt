//! The writing of log pages, and the closing of log files.

ghost use Rattle.std.specs.Prelude.{◌≡◌, ◌<◌, ◌≤◌, ◌+◌, ◌*◌, ◌-◌, MatchBool, Ok, OnOk, false, length, true, ℕ};
ghost use Rattle.ol_values.specs.Config.{log_pages};
ghost use Rattle.ol_record.specs.LogPages.{page_in};
ghost use Rattle.ol_chunks.specs.Places.{log_area};
ghost use Rattle.ol_ports.specs.Causes.{HasChunkCause};
ghost use Rattle.ol_ports.specs.Disk.{Syncs, seen};
ghost use Rattle.ol_ports.specs.Frames.{FramedIn, IsDurable, ReadsOutside, TornFrom};
ghost use Rattle.ol_ports.specs.Stops.{Stops};
ghost use Rattle.ol_log_places.specs.Places.{Closed, HasLog, IsPlaced, Place, Shows, in_log};
ghost use Rattle.ol_log_places.specs.Writes.{GatesAre, IsClosing, IsGate, IsPageOf, IsShutFile, MayBeClosed, MayHavePage, is_in_file, with_page, without_file};

use ol_chunks::ChunkTable;
use ol_ports::{Disk, Failed, write_synced};
use ol_record::PAGE_LENGTH;

/// The gate byte of a page that counts.
const OPEN: u8 = 1;

/// The gate byte of a page that does not count.
const SHUT: u8 = 0;

/// Writes a log page to its place, which is closed: the body by one write and a sync, and then the gate by another write
/// and a sync. Byte 0 of `page` is not written. Places are numbered from 0 over all log files.
///
/// `Failed` comes only where the count of faults of the log's chunk rose. The page then stands there or not.
pub fn write_log_page<D: Disk>(
    disk: &mut D,
    table: &ChunkTable,
    place: u32,
    page: &[u8; PAGE_LENGTH],
) -> Result<(), Failed>
    requires size { HasLog table.now (D.sizes disk.old) }
    requires place { place < log_pages table.now }
    // A stop within the call or behind it leaves the place closed or with the page, and all other places as they were.
    ensures stops { D.tells → (r : ℕ → Place) → IsPlaced (D.past disk.old) table.now r → r place ≡ Closed → IsPageOf table.now place page.now → Stops (D.past disk.old) (D.past disk.new) (MayHavePage table.now r place (page_in page.now)) }
    ensures ok { D.tells → (r : ℕ → Place) → IsPlaced (D.past disk.old) table.now r → r place ≡ Closed → IsPageOf table.now place page.now → OnOk result (IsPlaced (D.past disk.new) table.now (with_page r place (page_in page.now))) }
    ensures frame { D.tells → Stops (D.past disk.old) (D.past disk.new) (FramedIn (D.past disk.old) (in_log table.now)) }
    ensures reads { D.tells → OnOk result (ReadsOutside (D.past disk.old) (D.past disk.new) (in_log table.now)) }
    ensures sizes { D.sizes disk.new ≡ D.sizes disk.old }
    ensures cause { HasChunkCause (log_area table.now).chunk (D.fault_counts disk.old) (D.fault_counts disk.new) result }
{
    let (_, body) = page.split_at(1);
    match write_part(disk, table, place, 1, body) {
        Ok(()) => write_part(disk, table, place, 0, &[OPEN]),
        Err(failed) => Err(failed),
    }
}

/// Writes bytes into the page of a place, from an offset on, and syncs.
fn write_part<D: Disk>(
    disk: &mut D,
    table: &ChunkTable,
    place: u32,
    offset: u16,
    bytes: &[u8],
) -> Result<(), Failed>
    requires size { HasLog table.now (D.sizes disk.old) }
    requires place { place < log_pages table.now }
    requires range { offset + length bytes.now ≤ PAGE_LENGTH }
    ensures stops { D.tells → Stops (D.past disk.old) (D.past disk.new) (TornFrom (D.past disk.old) (log_area table.now).chunk ((log_area table.now).first + place) offset (length bytes.now)) }
    ensures ok { D.tells → OnOk result (IsDurable (D.past disk.old) (D.past disk.new) (log_area table.now).chunk ((log_area table.now).first + place) offset bytes.now) }
    ensures sizes { D.sizes disk.new ≡ D.sizes disk.old }
    ensures cause { HasChunkCause (log_area table.now).chunk (D.fault_counts disk.old) (D.fault_counts disk.new) result }
{
    let logs = table.logs();
    write_synced(disk, logs.chunk, logs.first + place, offset, bytes)
}

/// Closes the open gates of a log file: a write of 0 to each, and one sync behind them. `gates` tells of each place of the
/// log whether its gate is open; a closed gate is not written, and nothing is asked of the disk where no gate of the file is
/// open. Files are numbered from 0.
///
/// `Failed` comes only where the count of faults of the log's chunk rose. Some gates of the file may then be closed.
pub fn close_log_file<D: Disk>(
    disk: &mut D,
    table: &ChunkTable,
    file: u32,
    gates: &[bool],
) -> Result<(), Failed>
    requires size { HasLog table.now (D.sizes disk.old) }
    requires file { file < table.now.log_files }
    requires gates { length gates.now ≡ log_pages table.now }
    // A stop within the call or behind it leaves places of the file closed or as they were, and all other places as they were.
    ensures stops { D.tells → (r : ℕ → Place) → IsPlaced (D.past disk.old) table.now r → GatesAre gates.now r → Stops (D.past disk.old) (D.past disk.new) (MayBeClosed table.now r file) }
    ensures ok { D.tells → (r : ℕ → Place) → IsPlaced (D.past disk.old) table.now r → GatesAre gates.now r → OnOk result (IsPlaced (D.past disk.new) table.now (without_file table.now file r)) }
    ensures idle { IsShutFile table.now file gates.now → (disk.new ≡ disk.old) × (result ≡ Ok tt) }
    ensures frame { D.tells → Stops (D.past disk.old) (D.past disk.new) (FramedIn (D.past disk.old) (in_log table.now)) }
    ensures reads { D.tells → OnOk result (ReadsOutside (D.past disk.old) (D.past disk.new) (in_log table.now)) }
    ensures sizes { D.sizes disk.new ≡ D.sizes disk.old }
    ensures cause { HasChunkCause (log_area table.now).chunk (D.fault_counts disk.old) (D.fault_counts disk.new) result }
{
    if !has_open(table, file, gates) {
        return Ok(());
    }
    match close_gates(disk, table, file, gates) {
        Ok(()) => sync_log(disk, table),
        Err(failed) => Err(failed),
    }
}

/// The first place of a file.
fn first_place_of_file(table: &ChunkTable, file: u32) -> u32
    requires { file < table.now.log_files }
    ensures value { result ≡ file * table.now.log_file_pages }
    ensures inside { result + table.now.log_file_pages ≤ log_pages table.now }
    ensures limit { result + table.now.log_file_pages ≤ 64000 }
{
    file * table.logs().pages
}

/// Whether a gate of a file is open.
fn has_open(table: &ChunkTable, file: u32, gates: &[bool]) -> bool
    requires file { file < table.now.log_files }
    requires gates { length gates.now ≡ log_pages table.now }
    ensures { MatchBool result (IsShutFile table.now file gates.now → ⊥) (IsShutFile table.now file gates.now) }
{
    let start = first_place_of_file(table, file);
    for place in start..start + table.logs().pages {
        if gates[place as usize] {
            return true;
        }
    }
    false
}

/// Closes the open gates of a file. The writes are not synced.
fn close_gates<D: Disk>(
    disk: &mut D,
    table: &ChunkTable,
    file: u32,
    gates: &[bool],
) -> Result<(), Failed>
    requires size { HasLog table.now (D.sizes disk.old) }
    requires file { file < table.now.log_files }
    requires gates { length gates.now ≡ log_pages table.now }
    ensures stops { D.tells → (r : ℕ → Place) → IsPlaced (D.past disk.old) table.now r → GatesAre gates.now r → Stops (D.past disk.old) (D.past disk.new) (MayBeClosed table.now r file) }
    ensures ok { D.tells → (r : ℕ → Place) → IsPlaced (D.past disk.old) table.now r → GatesAre gates.now r → OnOk result (Shows table.now (seen (D.past disk.new)) (without_file table.now file r)) }
    ensures frame { D.tells → Stops (D.past disk.old) (D.past disk.new) (FramedIn (D.past disk.old) (in_log table.now)) }
    ensures reads { D.tells → OnOk result (ReadsOutside (D.past disk.old) (D.past disk.new) (in_log table.now)) }
    ensures sizes { D.sizes disk.new ≡ D.sizes disk.old }
    ensures cause { HasChunkCause (log_area table.now).chunk (D.fault_counts disk.old) (D.fault_counts disk.new) result }
{
    let start = first_place_of_file(table, file);
    for place in start..start + table.logs().pages {
        match close_gate(disk, table, place, gates[place as usize]) {
            Ok(()) => {}
            Err(failed) => return Err(failed),
        }
    }
    Ok(())
}

/// Closes a gate, where it is open. The write is not synced.
fn close_gate<D: Disk>(
    disk: &mut D,
    table: &ChunkTable,
    place: u32,
    is_open: bool,
) -> Result<(), Failed>
    requires size { HasLog table.now (D.sizes disk.old) }
    requires place { place < log_pages table.now }
    ensures stops { D.tells → (r : ℕ → Place) (file : ℕ) → IsClosing (D.past disk.old) table.now r file place → is_in_file table.now file place ≡ true → IsGate is_open (r place) → Stops (D.past disk.old) (D.past disk.new) (MayBeClosed table.now r file) }
    ensures ok { D.tells → (r : ℕ → Place) (file : ℕ) → IsClosing (D.past disk.old) table.now r file place → is_in_file table.now file place ≡ true → IsGate is_open (r place) → OnOk result (IsClosing (D.past disk.new) table.now r file (place + 1)) }
    ensures frame { D.tells → Stops (D.past disk.old) (D.past disk.new) (FramedIn (D.past disk.old) (in_log table.now)) }
    ensures reads { D.tells → OnOk result (ReadsOutside (D.past disk.old) (D.past disk.new) (in_log table.now)) }
    ensures sizes { D.sizes disk.new ≡ D.sizes disk.old }
    ensures cause { HasChunkCause (log_area table.now).chunk (D.fault_counts disk.old) (D.fault_counts disk.new) result }
{
    if is_open {
        let logs = table.logs();
        disk.write_at(logs.chunk, logs.first + place, 0, &[SHUT])
    } else {
        Ok(())
    }
}

/// Makes what was written to the log durable.
fn sync_log<D: Disk>(disk: &mut D, table: &ChunkTable) -> Result<(), Failed>
    requires { HasLog table.now (D.sizes disk.old) }
    ensures past { D.tells → Syncs (D.past disk.old) (D.past disk.new) (log_area table.now).chunk result }
    ensures sizes { D.sizes disk.new ≡ D.sizes disk.old }
    ensures cause { HasChunkCause (log_area table.now).chunk (D.fault_counts disk.old) (D.fault_counts disk.new) result }
{
    disk.sync(table.logs().chunk)
}
