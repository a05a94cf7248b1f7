//! The writing of the buffered page, and the closing of the file that it enters.

ghost use Rattle.std.specs.Prelude.{◌≡◌, ◌<◌, ◌≤◌, ◌+◌, ◌*◌, ◌-◌, ◌^◌, ◌==◌, [], List, OnOk, false, if◌then◌else◌, is_some, length, nat_le, slice_get, slice_index_or, true, ℕ};
ghost use Rattle.ol_values.specs.declared.record.Record.{Record as RecordValue};
ghost use Rattle.ol_values.specs.Config.{log_pages};
ghost use Rattle.ol_values.specs.LogPages.{log_room, record_length, records_length};
ghost use Rattle.ol_values.specs.Spelling.{KeepsRules};
ghost use Rattle.ol_rules.specs.Ring.{file_of, flushed, logged, room, written};
ghost use Rattle.ol_chunks.specs.Places.{log_area};
ghost use Rattle.ol_ports.specs.Causes.{HasChunkCause};
ghost use Rattle.ol_ports.specs.Frames.{FramedIn, ReadsOutside};
ghost use Rattle.ol_ports.specs.Stops.{Stops};
ghost use Rattle.ol_log_places.specs.Places.{HasLog, IsPlaced, Place, in_log, place_number};
ghost use Rattle.ol_log_places.specs.Runs.{HoldsLog};
ghost use Rattle.ol_log_places.specs.Writes.{GatesAre, IsShutFile, MayBeClosed, is_in_file, with_page, without_file};
ghost use Rattle.ol_log_state.specs.Files.{next_page};
ghost use Rattle.ol_log_state.specs.RingState.{buffered, page_to_write, ring_of, turned};
ghost use Rattle.ol_loglog.specs.RingValue.{HasRoom, IsInLimits, first_unwritten, flushed_state, logged_state, ring_value};
ghost use Rattle.ol_loglog.specs.Ready.{IsInOrder, IsNextFree, IsNextShut, IsReady, IsReadyBut, is_entered, next_file};

use ol_chunks::ChunkTable;
use ol_log_places::{close_log_file, write_log_page};
use ol_log_state::{LogState, NextPage};
use ol_ports::{Disk, Failed};
use ol_record::{LONGEST_RECORD, encode};
use ol_values::Record;

/// The file in which the use of a unique number stands.
fn file_number(table: &ChunkTable, uniq: u64) -> u32
    ensures value { result ≡ file_of table.now uniq }
    ensures limit { result < table.now.log_files }
{
    let files = table.logs().count;
    (uniq.saturating_sub(1) % u64::from(files)) as u32
}

/// The place of a page.
fn place_of_page(table: &ChunkTable, page: NextPage) -> u32
    requires { page.index < table.now.log_file_pages }
    ensures value { result ≡ place_number table.now page.uniq page.index }
    ensures limit { result < log_pages table.now }
{
    file_number(table, page.uniq) * table.logs().pages + page.index
}

/// Notes that all gates of a file are closed.
fn note_shut(table: &ChunkTable, file: u32, gates: &mut Vec<bool>)
    requires file { file < table.now.log_files }
    requires gates { length gates.old.items ≡ log_pages table.now }
    ensures count { length gates.new.items ≡ length gates.old.items }
    ensures shut { IsShutFile table.now file gates.new.items }
    ensures others { (k : ℕ) → is_in_file table.now file k ≡ false → slice_index_or gates.new.items k false ≡ slice_index_or gates.old.items k false }
{
    let pages = table.logs().pages;
    let start = file * pages;
    for place in start..start + pages {
        gates[place as usize] = false;
    }
}

/// Closes the open gates of a file, and notes that they are.
fn close_file<D: Disk>(
    disk: &mut D,
    table: &ChunkTable,
    file: u32,
    gates: &mut Vec<bool>,
) -> Result<(), Failed>
    requires size { HasLog table.now (D.sizes disk.old) }
    requires file { file < table.now.log_files }
    requires gates { length gates.old.items ≡ log_pages table.now }
    ensures count { length gates.new.items ≡ length gates.old.items }
    ensures stops { D.tells → (r : ℕ → Place) → IsPlaced (D.past disk.old) table.now r → GatesAre gates.old.items r → Stops (D.past disk.old) (D.past disk.new) (MayBeClosed table.now r file) }
    ensures placed { D.tells → (r : ℕ → Place) → IsPlaced (D.past disk.old) table.now r → GatesAre gates.old.items r → OnOk result (IsPlaced (D.past disk.new) table.now (without_file table.now file r)) }
    ensures gates { (r : ℕ → Place) → GatesAre gates.old.items r → OnOk result (GatesAre gates.new.items (without_file table.now file r)) }
    ensures frame { D.tells → Stops (D.past disk.old) (D.past disk.new) (FramedIn (D.past disk.old) (in_log table.now)) }
    ensures reads { D.tells → OnOk result (ReadsOutside (D.past disk.old) (D.past disk.new) (in_log table.now)) }
    ensures sizes { D.sizes disk.new ≡ D.sizes disk.old }
    ensures cause { HasChunkCause (log_area table.now).chunk (D.fault_counts disk.old) (D.fault_counts disk.new) result }
{
    match close_log_file(disk, table, file, gates) {
        Ok(()) => {
            note_shut(table, file, gates);
            Ok(())
        }
        Err(failed) => Err(failed),
    }
}

/// Closes the open gates of the file that the next page enters, where it enters one.
fn enter_file<D: Disk>(
    disk: &mut D,
    table: &ChunkTable,
    state: &LogState,
    gates: &mut Vec<bool>,
) -> Result<(), Failed>
    requires size { HasLog table.now (D.sizes disk.old) }
    requires some { 0 < length state.now.buffer }
    requires gates { length gates.old.items ≡ log_pages table.now }
    ensures count { length gates.new.items ≡ length gates.old.items }
    ensures stops { D.tells → (r : ℕ → Place) (floor : ℕ) (j : ℕ → RecordValue) → IsReady (D.past disk.old) (ring_value table.now state.now gates.old.items) r floor j → IsNextFree (ring_value table.now state.now gates.old.items) r floor
        → Stops (D.past disk.old) (D.past disk.new) (HoldsLog table.now j floor (first_unwritten state.now) (first_unwritten state.now) (next_page state.now.files).uniq) }
    ensures ok { D.tells → (r : ℕ → Place) (floor : ℕ) (j : ℕ → RecordValue) → IsReady (D.past disk.old) (ring_value table.now state.now gates.old.items) r floor j → IsNextFree (ring_value table.now state.now gates.old.items) r floor
        → OnOk result ((s : ℕ → Place) × IsReadyBut (is_entered table.now state.now) (D.past disk.new) (ring_value table.now state.now gates.new.items) s floor j × IsNextShut table.now state.now s) }
    ensures frame { D.tells → Stops (D.past disk.old) (D.past disk.new) (FramedIn (D.past disk.old) (in_log table.now)) }
    ensures reads { D.tells → OnOk result (ReadsOutside (D.past disk.old) (D.past disk.new) (in_log table.now)) }
    ensures sizes { D.sizes disk.new ≡ D.sizes disk.old }
    ensures cause { HasChunkCause (log_area table.now).chunk (D.fault_counts disk.old) (D.fault_counts disk.new) result }
{
    let page = state.next_page();
    if page.enters {
        close_file(disk, table, file_number(table, page.uniq), gates)
    } else {
        Ok(())
    }
}

/// Writes the buffered page to its place, which is closed, and notes that its gate is open.
fn write_buffered_page<D: Disk>(
    disk: &mut D,
    table: &ChunkTable,
    state: &mut LogState,
    gates: &mut Vec<bool>,
) -> Result<(), Failed>
    requires size { HasLog table.now (D.sizes disk.old) }
    requires area { state.old.files.area ≡ log_area table.now }
    requires gates { length gates.old.items ≡ log_pages table.now }
    requires limits { IsInLimits state.old }
    requires low { state.old.files.uniq < 2 ^ 62 }
    requires some { 0 < length state.old.buffer }
    requires room { 1 ≤ room table.now state.old.reuse (ring_of state.old) }
    ensures step { OnOk result (state.new ≡ turned state.old) }
    ensures ring { OnOk result (ring_of state.new ≡ written table.now (ring_of state.old) (state.old.next - 1)) }
    ensures order { IsInOrder table.now state.old → OnOk result (IsInOrder table.now state.new) }
    ensures area { state.new.files.area ≡ log_area table.now }
    ensures limits { IsInLimits state.new }
    ensures count { length gates.new.items ≡ length gates.old.items }
    ensures stops { D.tells → (r : ℕ → Place) (floor : ℕ) (j : ℕ → RecordValue) → IsReadyBut (is_entered table.now state.old) (D.past disk.old) (ring_value table.now state.old gates.old.items) r floor j → IsNextShut table.now state.old r
        → Stops (D.past disk.old) (D.past disk.new) (HoldsLog table.now j floor (first_unwritten state.old) state.old.next (next_page state.old.files).uniq) }
    ensures ok { D.tells → (r : ℕ → Place) (floor : ℕ) (j : ℕ → RecordValue) → IsReadyBut (is_entered table.now state.old) (D.past disk.old) (ring_value table.now state.old gates.old.items) r floor j → IsNextShut table.now state.old r
        → OnOk result ((s : ℕ → Place) × IsReady (D.past disk.new) (ring_value table.now state.new gates.new.items) s floor j) }
    ensures frame { D.tells → Stops (D.past disk.old) (D.past disk.new) (FramedIn (D.past disk.old) (in_log table.now)) }
    ensures reads { D.tells → OnOk result (ReadsOutside (D.past disk.old) (D.past disk.new) (in_log table.now)) }
    ensures sizes { D.sizes disk.new ≡ D.sizes disk.old }
    ensures cause { HasChunkCause (log_area table.now).chunk (D.fault_counts disk.old) (D.fault_counts disk.new) result }
{
    let place = place_of_page(table, state.next_page());
    match write_log_page(disk, table, place, state.bytes()) {
        Ok(()) => {
            gates[place as usize] = true;
            state.turn_page();
            Ok(())
        }
        Err(failed) => Err(failed),
    }
}

/// Writes the buffered page, where a record is buffered, and closes the file before that it enters.
pub(crate) fn flush_page<D: Disk>(
    disk: &mut D,
    table: &ChunkTable,
    state: &mut LogState,
    gates: &mut Vec<bool>,
) -> Result<(), Failed>
    requires size { HasLog table.now (D.sizes disk.old) }
    requires area { state.old.files.area ≡ log_area table.now }
    requires gates { length gates.old.items ≡ log_pages table.now }
    requires limits { IsInLimits state.old }
    requires low { state.old.files.uniq < 2 ^ 62 }
    requires room { HasRoom table.now state.old }
    ensures step { OnOk result (state.new ≡ flushed_state state.old) }
    ensures ring { OnOk result (ring_of state.new ≡ flushed table.now (ring_of state.old) (state.old.next - 1)) }
    ensures order { IsInOrder table.now state.old → OnOk result (IsInOrder table.now state.new) }
    ensures area { state.new.files.area ≡ log_area table.now }
    ensures limits { IsInLimits state.new }
    ensures count { length gates.new.items ≡ length gates.old.items }
    ensures stops { D.tells → (r : ℕ → Place) (floor : ℕ) (j : ℕ → RecordValue) → IsReady (D.past disk.old) (ring_value table.now state.old gates.old.items) r floor j → IsNextFree (ring_value table.now state.old gates.old.items) r floor
        → Stops (D.past disk.old) (D.past disk.new) (HoldsLog table.now j floor (first_unwritten state.old) state.old.next (next_page state.old.files).uniq) }
    ensures ok { D.tells → (r : ℕ → Place) (floor : ℕ) (j : ℕ → RecordValue) → IsReady (D.past disk.old) (ring_value table.now state.old gates.old.items) r floor j → IsNextFree (ring_value table.now state.old gates.old.items) r floor
        → OnOk result ((s : ℕ → Place) × IsReady (D.past disk.new) (ring_value table.now state.new gates.new.items) s floor j) }
    ensures frame { D.tells → Stops (D.past disk.old) (D.past disk.new) (FramedIn (D.past disk.old) (in_log table.now)) }
    ensures reads { D.tells → OnOk result (ReadsOutside (D.past disk.old) (D.past disk.new) (in_log table.now)) }
    ensures sizes { D.sizes disk.new ≡ D.sizes disk.old }
    ensures cause { HasChunkCause (log_area table.now).chunk (D.fault_counts disk.old) (D.fault_counts disk.new) result }
{
    if !state.held() {
        return Ok(());
    }
    match enter_file(disk, table, state, gates) {
        Ok(()) => write_buffered_page(disk, table, state, gates),
        Err(failed) => Err(failed),
    }
}

/// How many bytes a record takes; a page has room for them.
fn length_of(rec: &Record) -> usize
    requires { KeepsRules rec.now }
    ensures value { result ≡ record_length rec.now }
    ensures room { result ≤ log_room }
{
    let mut spelling = [0; LONGEST_RECORD];
    encode(rec, &mut spelling)
}

/// Writes the buffered page, where a record has no room behind its records.
fn flush_full_page<D: Disk>(
    disk: &mut D,
    table: &ChunkTable,
    state: &mut LogState,
    gates: &mut Vec<bool>,
    rec: &Record,
) -> Result<(), Failed>
    requires size { HasLog table.now (D.sizes disk.old) }
    requires area { state.old.files.area ≡ log_area table.now }
    requires gates { length gates.old.items ≡ log_pages table.now }
    requires limits { IsInLimits state.old }
    requires low { state.old.files.uniq < 2 ^ 62 }
    requires room { HasRoom table.now state.old }
    requires rules { KeepsRules rec.now }
    ensures step { OnOk result (state.new ≡ (if nat_le (records_length state.old.buffer + record_length rec.now) log_room then state.old else flushed_state state.old)) }
    ensures ring { OnOk result (ring_of state.new ≡ (if nat_le (records_length state.old.buffer + record_length rec.now) log_room then ring_of state.old else flushed table.now (ring_of state.old) (state.old.next - 1))) }
    ensures room { OnOk result (records_length state.new.buffer + record_length rec.now ≤ log_room) }
    ensures next { OnOk result (state.new.next ≡ state.old.next) }
    ensures order { IsInOrder table.now state.old → OnOk result (IsInOrder table.now state.new) }
    ensures area { state.new.files.area ≡ log_area table.now }
    ensures limits { IsInLimits state.new }
    ensures count { length gates.new.items ≡ length gates.old.items }
    ensures stops { D.tells → (r : ℕ → Place) (floor : ℕ) (j : ℕ → RecordValue) → IsReady (D.past disk.old) (ring_value table.now state.old gates.old.items) r floor j → IsNextFree (ring_value table.now state.old gates.old.items) r floor
        → Stops (D.past disk.old) (D.past disk.new) (HoldsLog table.now j floor (first_unwritten state.old) state.old.next (next_page state.old.files).uniq) }
    ensures ok { D.tells → (r : ℕ → Place) (floor : ℕ) (j : ℕ → RecordValue) → IsReady (D.past disk.old) (ring_value table.now state.old gates.old.items) r floor j → IsNextFree (ring_value table.now state.old gates.old.items) r floor
        → OnOk result ((s : ℕ → Place) × IsReady (D.past disk.new) (ring_value table.now state.new gates.new.items) s floor j) }
    ensures frame { D.tells → Stops (D.past disk.old) (D.past disk.new) (FramedIn (D.past disk.old) (in_log table.now)) }
    ensures reads { D.tells → OnOk result (ReadsOutside (D.past disk.old) (D.past disk.new) (in_log table.now)) }
    ensures sizes { D.sizes disk.new ≡ D.sizes disk.old }
    ensures cause { HasChunkCause (log_area table.now).chunk (D.fault_counts disk.old) (D.fault_counts disk.new) result }
{
    if state.fits(rec) {
        return Ok(());
    }
    let _ = length_of(rec);
    flush_page(disk, table, state, gates)
}

/// Buffers a record, and writes the buffered page before where the record has no room in it.
pub(crate) fn append_record<D: Disk>(
    disk: &mut D,
    table: &ChunkTable,
    state: &mut LogState,
    gates: &mut Vec<bool>,
    rec: &Record,
) -> Result<(), Failed>
    requires size { HasLog table.now (D.sizes disk.old) }
    requires area { state.old.files.area ≡ log_area table.now }
    requires gates { length gates.old.items ≡ log_pages table.now }
    requires limits { IsInLimits state.old }
    requires low { (state.old.files.uniq < 2 ^ 62) × (state.old.next < 2 ^ 62) }
    requires room { HasRoom table.now state.old }
    requires rules { KeepsRules rec.now }
    ensures step { OnOk result (state.new ≡ logged_state rec.now state.old) }
    ensures ring { OnOk result (ring_of state.new ≡ logged table.now (ring_of state.old) (state.old.next - 1) rec.now) }
    ensures order { IsInOrder table.now state.old → OnOk result (IsInOrder table.now state.new) }
    ensures area { state.new.files.area ≡ log_area table.now }
    ensures limits { IsInLimits state.new }
    ensures count { length gates.new.items ≡ length gates.old.items }
    ensures stops { D.tells → (r : ℕ → Place) (floor : ℕ) (j : ℕ → RecordValue) → IsReady (D.past disk.old) (ring_value table.now state.old gates.old.items) r floor j → IsNextFree (ring_value table.now state.old gates.old.items) r floor
        → Stops (D.past disk.old) (D.past disk.new) (HoldsLog table.now j floor (first_unwritten state.old) state.old.next (next_page state.old.files).uniq) }
    ensures ok { D.tells → (r : ℕ → Place) (floor : ℕ) (j : ℕ → RecordValue) → IsReady (D.past disk.old) (ring_value table.now state.old gates.old.items) r floor j → IsNextFree (ring_value table.now state.old gates.old.items) r floor
        → j state.old.next ≡ rec.now → OnOk result ((s : ℕ → Place) × IsReady (D.past disk.new) (ring_value table.now state.new gates.new.items) s floor j) }
    ensures frame { D.tells → Stops (D.past disk.old) (D.past disk.new) (FramedIn (D.past disk.old) (in_log table.now)) }
    ensures reads { D.tells → OnOk result (ReadsOutside (D.past disk.old) (D.past disk.new) (in_log table.now)) }
    ensures sizes { D.sizes disk.new ≡ D.sizes disk.old }
    ensures cause { HasChunkCause (log_area table.now).chunk (D.fault_counts disk.old) (D.fault_counts disk.new) result }
{
    match flush_full_page(disk, table, state, gates, rec) {
        Ok(()) => {
            state.push(rec);
            Ok(())
        }
        Err(failed) => Err(failed),
    }
}
