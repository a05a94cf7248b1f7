//! The work of a command, but for its output.

ghost use Rattle.std.specs.Prelude.{◌≡◌, ◌≢◌, ◌≤◌, ℕ, None, Some, All, IfErr, IfOk, IfSome, Ok, length, slice_index_or};
ghost use Rattle.ol_ports.specs.Stops.{Stops};
ghost use Rattle.ol_values.specs.Text.{IsInLineOrder};
ghost use Rattle.ol_chunks.specs.Limits.{IsConfig};
ghost use Rattle.ol_rules.specs.Scripts.{Ascends};
ghost use Rattle.ol_ports.specs.Disk.{seen};
ghost use Rattle.ol_reserve.specs.Pair.{there};
ghost use Rattle.ol_script.specs.Script.{script_limit};
ghost use Rattle.ol_script.specs.Spelling.{IsLine};
ghost use Rattle.ol_online.specs.Command.{EndsScript, EndsUnplayed, EndsWork, IsPlayStatus, IsPlayed, IsPrepared, PlayedTo, archive_line_in, history_in, status_of_play};
ghost use Rattle.ol_online.specs.Initing.{IsInitBetween};
ghost use Rattle.ol_online.specs.Opening.{HasDiskCause, HasStatusCause};
ghost use Rattle.ol_online.specs.Planning.{lines_planned};
ghost use Rattle.ol_online.specs.Sources.{TakesTo, limit_of, status_in};
ghost use Rattle.ol_online.specs.Views.{drive_1, reading, storing, taping};
ghost use Rattle.ol_online.specs.Words.{verb_told};

use crate::archive::PlayEnd;
use crate::init::init;
use crate::opening::open;
use crate::plan::plan;
use crate::play::play;
use crate::status::Status;
use crate::told::Told;
use crate::words::{Verb, Words};
use ol_chunks::{ChunkTable, parse_config};
use ol_ports::{Disk, Drive, Source};
use ol_script::{Script, ScriptFault, parse};
use ol_values::{History, Line};
use ol_volume::{TapeEnd, Writer};
use std::alloc::Global;

/// The drive of archiver 1.
const ARCHIVE_DRIVE: u8 = 1;

/// What a play works from: its script, the table of the disk, and how many lines of the script are the session's.
struct Prepared {
    script: Script,
    table: ChunkTable,
    sessions: usize,
}

/// Carries out the command that the words give, but for its output.
pub(crate) fn work<D: Disk, T: Drive, S: Source>(
    alloc: Global,
    words: &Words,
    disk: &mut D,
    drives: &mut Vec<T>,
    source: &mut S,
) -> (Told, Status)
    requires five { length drives.old.items ≡ 5 }
    requires empty { All (λ d. (T.tape d).room ≡ 0) drives.old.items }
    ensures ended { (d : T) → EndsWork (verb_told words.now) D.tells
        (reading S.left S.fault_count source.old source.new)
        (storing D.past D.sizes D.fault_counts disk.old disk.new)
        (taping T.tape T.fault_count d drives.old.items drives.new.items) result.0 result.1 }
    ensures reads { (verb : Verb) → verb_told words.now ≡ Some verb → TakesTo (limit_of verb) (S.left source.old) (S.left source.new) result.1 }
    ensures order { IsInLineOrder (history_in result.0) }
    ensures no_write { result.1 ≢ Status.WriteFault }
    ensures cause { HasStatusCause (D.fault_counts disk.old) (D.fault_counts disk.new) result.1 }
    ensures past { D.tells → verb_told words.now ≢ Some Verb.Init → D.past disk.new ≡ D.past disk.old }
    ensures untouched { verb_told words.now ≡ Some Verb.Init → result.1 ≢ Status.Ok → ((chunk : ℕ) → result.1 ≢ Status.DiskFault chunk) → disk.new ≡ disk.old }
    ensures stops { D.tells → verb_told words.now ≡ Some Verb.Init → Stops (D.past disk.old) (D.past disk.new) (IsInitBetween (S.left source.old) (D.past disk.old)) }
    ensures sizes { D.sizes disk.new ≡ D.sizes disk.old }
    ensures unread { verb_told words.now ≡ None → (source.new ≡ source.old) × (disk.new ≡ disk.old) }
    ensures drives { (k : ℕ) (d : T) → k ≢ 1 → slice_index_or drives.new.items k d ≡ slice_index_or drives.old.items k d }
    ensures five { length drives.new.items ≡ 5 }
{
    match words.verb() {
        None => (Told::Nothing, Status::BadWords),
        Some(Verb::Init) => match init(alloc, disk, source) {
            Ok(()) => (Told::Formatted, Status::Ok),
            Err(status) => (Told::Nothing, status),
        },
        Some(Verb::Play) => match prepare(alloc, disk, source) {
            Ok(prepared) => play_prepared(alloc, prepared, drives),
            Err(status) => (Told::Nothing, status),
        },
    }
}

/// Reads a script, opens the disk, and looks whether all lines are built.
fn prepare<D: Disk, S: Source>(
    alloc: Global,
    disk: &mut D,
    source: &mut S,
) -> Result<Prepared, Status>
    ensures ok { IfOk result (λ p. IsPrepared (S.left source.old) D.tells (there (D.sizes disk.old) (seen (D.past disk.old))) (D.sizes disk.old) p.script p.table (Ok p.sessions)) }
    ensures config { IfOk result (λ p. IsConfig p.table) }
    ensures reads { TakesTo script_limit (S.left source.old) (S.left source.new) (status_in result) }
    ensures no_write { IfErr result (λ status. status ≢ Status.WriteFault) }
    ensures err { IfErr result (EndsUnplayed (S.left source.old) (S.fault_count source.old) (S.fault_count source.new) D.tells (there (D.sizes disk.old) (seen (D.past disk.old))) (D.sizes disk.old)) }
    ensures cause { HasDiskCause (D.fault_counts disk.old) (D.fault_counts disk.new) result }
    ensures past { D.tells → D.past disk.new ≡ D.past disk.old }
    ensures sizes { D.sizes disk.new ≡ D.sizes disk.old }
{
    let script = match read_script(alloc, source) {
        Ok(script) => script,
        Err(status) => return Err(status),
    };
    let table = match open(disk) {
        Ok(table) => table,
        Err(status) => return Err(status),
    };
    match plan(script.as_slice(), &table) {
        Ok(sessions) => Ok(Prepared {
            script,
            table,
            sessions,
        }),
        Err(line) => Err(Status::BadScript {
            line: u32::from(line),
        }),
    }
}

/// Reads a script.
fn read_script<S: Source>(alloc: Global, source: &mut S) -> Result<Script, Status>
    ensures ended { EndsScript (S.left source.old) (S.fault_count source.old) (S.fault_count source.new) result }
    ensures reads { TakesTo script_limit (S.left source.old) (S.left source.new) (status_in result) }
{
    match parse(alloc, source) {
        Ok(script) => Ok(script),
        Err(ScriptFault::BadScript { line }) => Err(Status::BadScript { line }),
        Err(ScriptFault::ReadFault) => Err(Status::ReadFault),
        Err(ScriptFault::NoMemory) => Err(Status::NoMemory),
    }
}

/// Plays what was prepared over the drive of archiver 1.
fn play_prepared<T: Drive>(alloc: Global, prepared: Prepared, drives: &mut Vec<T>) -> (Told, Status)
    requires built { lines_planned prepared.table prepared.script ≡ Ok prepared.sessions }
    requires config { IsConfig prepared.table }
    requires five { length drives.old.items ≡ 5 }
    requires empty { All (λ d. (T.tape d).room ≡ 0) drives.old.items }
    ensures played { (d : T) → IsPlayed prepared.table prepared.script prepared.sessions
        (taping T.tape T.fault_count d drives.old.items drives.new.items) result.0 result.1 }
    ensures order { IsInLineOrder (history_in result.0) }
    ensures kinds { IsPlayStatus result.1 }
    ensures drives { (k : ℕ) (d : T) → k ≢ 1 → slice_index_or drives.new.items k d ≡ slice_index_or drives.old.items k d }
    ensures five { length drives.new.items ≡ 5 }
{
    let Prepared {
        script,
        table,
        sessions,
    } = prepared;
    // the engine keeps one table, and the output takes the names from the other
    let engine_table = second_table(&table);
    let (drive, history, status) = play_on(
        alloc,
        drives.remove(ARCHIVE_DRIVE as usize),
        engine_table,
        script.as_slice(),
        sessions,
    );
    // the place that the drive left is still there
    let Ok(()) = drives.insert(ARCHIVE_DRIVE as usize, drive) else {
        unreachable!();
    };
    (Told::Played { table, history }, status)
}

/// A table of the same configuration.
fn second_table(table: &ChunkTable) -> ChunkTable
    requires { IsConfig table.now }
    ensures { result ≡ table.now }
{
    let mut text = [0; 1024];
    let count = table.text(&mut text);
    let (text, _) = text.split_at(count);
    // a table's text is its configuration
    let Ok(second) = parse_config(text) else {
        unreachable!()
    };
    second
}

/// Plays lines over a drive, so many of the session's and then the archive line, and gives the drive back.
fn play_on<T: Drive>(
    alloc: Global,
    drive: T,
    table: ChunkTable,
    lines: &[Line],
    sessions: usize,
) -> (T, History, Status)
    requires built { lines_planned table lines.now ≡ Ok sessions }
    requires forms { All IsLine lines.now }
    requires rising { Ascends lines.now }
    requires empty { (T.tape drive).room ≡ 0 }
    ensures played { PlayedTo table lines.now (archive_line_in sessions lines.now) (drive_1 (T.tape drive) (T.fault_count drive)) result.1 (drive_1 (T.tape result.0) (T.fault_count result.0)) result.2 }
    ensures kinds { IsPlayStatus result.2 }
    ensures order { IsInLineOrder result.1 }
{
    let (front, behind) = lines.split_at(sessions);
    let mut writer = Writer::new(drive, ARCHIVE_DRIVE);
    let (history, end) = play(alloc, table, front, behind.first(), &mut writer);
    (writer.into_drive(), history, status_of(end))
}

/// The status of a play that ended so.
fn status_of(end: Result<(), PlayEnd>) -> Status
    ensures { result ≡ status_of_play end }
{
    match end {
        Ok(()) => Status::Ok,
        Err(PlayEnd::NoMemory) => Status::NoMemory,
        Err(PlayEnd::Tape(TapeEnd::TapeFault { drive, count: _ })) => Status::TapeFault { drive },
        Err(PlayEnd::Tape(TapeEnd::OutOfTape { drive })) => Status::OutOfTape { drive },
    }
}
