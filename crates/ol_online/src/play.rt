//! A play: lines in file order, on one thread.

ghost use Rattle.std.specs.Prelude.{◌≡◌, ◌++◌, ◌∷◌, List, All, IfErr, IfSome, None, OnErr, OnOk, Option, Some, drop, option_to_list, true};
ghost use Rattle.ol_values.specs.declared.line.Line.{Line};
ghost use Rattle.ol_values.specs.Config.{Config};
ghost use Rattle.ol_rules.specs.Scripts.{Ascends};
ghost use Rattle.ol_core.specs.Lines.{First};
ghost use Rattle.ol_values.specs.Text.{IsInLineOrder};
ghost use Rattle.ol_core.specs.Core.{IsIdle};
ghost use Rattle.ol_online.specs.Playing.{IsArchiveLine, IsNamed, IsReached, IsRun, IsSessionLine, IsWaiting, PlaysShort, PlaysWell, all_lines, line_in};

use crate::archive::{PlayEnd, archive, by_of};
use ol_chunks::ChunkTable;
use ol_core::Core;
use ol_ports::Drive;
use ol_values::{Form, History, Line, NoMemory};
use ol_volume::Writer;
use std::alloc::Global;

/// Carries out a line of the session, in one turn.
fn play_line(core: &mut Core, line: &Line) -> Result<(), NoMemory>
    requires line { IsSessionLine line.now }
    requires waiting { IsIdle core.old }
    ensures ok { (c : Config) (lines left : List Line) → IsReached c lines core.old (line.now ∷ left) First → OnOk result (IsReached c lines core.new left First) }
    ensures idle { OnOk result (IsIdle core.new) }
    ensures waiting { (c : Config) → IsWaiting c core.old → OnOk result (IsWaiting c core.new) }
    ensures err { OnErr result (core.new ≡ core.old) }
{
    let by = by_of(line);
    match &line.form {
        Form::Begin => match core.begin(by) {
            Ok(_) => Ok(()),
            Err(refused) => Err(refused),
        },
        Form::Insert { reg, space, row } => match core.insert(by, *reg, space, row) {
            Ok(_) => Ok(()),
            Err(refused) => Err(refused),
        },
        Form::Commit => match core.commit(by) {
            Ok(_) => Ok(()),
            Err(refused) => Err(refused),
        },
        _ => unreachable!(),
    }
}

/// Carries out the lines of the session.
fn play_session(core: &mut Core, lines: &[Line]) -> Result<(), NoMemory>
    requires lines { All IsSessionLine lines.now }
    requires waiting { IsIdle core.old }
    ensures ok { (c : Config) (all rest : List Line) → IsReached c all core.old (lines.now ++ rest) First → OnOk result (IsReached c all core.new rest First) }
    ensures waiting { (c : Config) → IsWaiting c core.old → OnOk result (IsWaiting c core.new) }
    ensures err { (c : Config) (all rest : List Line) → IsReached c all core.old (lines.now ++ rest) First → OnErr result (IsRun c all true core.new) }
{
    for line in lines {
        match play_line(core, line) {
            Ok(()) => {}
            Err(refused) => return Err(refused),
        }
    }
    Ok(())
}

/// Carries out the archive line, where there is one.
fn play_archive<T: Drive>(
    alloc: Global,
    core: &mut Core,
    line: Option<&Line>,
    writer: &mut Writer<T>,
) -> Result<(), PlayEnd>
    requires line { IfSome (line_in line) IsArchiveLine }
    requires drive { writer.old.number ≡ 1 }
    ensures well { (c : Config) (all : List Line) → IfSome (line_in line.entry) (IsNamed c) → IsReached c all core.old (option_to_list (line_in line.entry)) First → IsWaiting c core.old → OnOk result (PlaysWell c all (line_in line.entry) writer.old core.new.history writer.new) }
    ensures short { (c : Config) (all : List Line) → IfSome (line_in line.entry) (IsNamed c) → IsReached c all core.old (option_to_list (line_in line.entry)) First → IsWaiting c core.old → IfErr result (PlaysShort c all (line_in line.entry) writer.old core.new.history writer.new) }
    ensures order { (c : Config) (all : List Line) → Ascends all → IfSome (line_in line.entry) (IsNamed c) → IsReached c all core.old (option_to_list (line_in line.entry)) First → IsWaiting c core.old → IsInLineOrder core.new.history }
{
    match line {
        Some(line) => archive(alloc, core, line, writer),
        None => Ok(()),
    }
}

/// Plays lines from a newly formatted installation of this configuration on: those of the session in order,
/// and then the archive line, whose blocks go on the writer's drive. It hands the history back. `NoMemory`
/// comes where memory was refused, `Tape` where the drive's faults rose or its volumes are full; the history
/// is then that of a first part of the work.
pub(crate) fn play<T: Drive>(
    alloc: Global,
    table: ChunkTable,
    lines: &[Line],
    archive: Option<&Line>,
    writer: &mut Writer<T>,
) -> (History, Result<(), PlayEnd>)
    requires sessions { All IsSessionLine lines.now }
    requires archive { IfSome (line_in archive) IsArchiveLine }
    requires named { IfSome (line_in archive) (IsNamed table) }
    requires rising { Ascends (all_lines lines.now archive) }
    requires drive { writer.old.number ≡ 1 }
    ensures well { OnOk result.1 (PlaysWell table (all_lines lines.now archive.entry) (line_in archive.entry) writer.old result.0 writer.new) }
    ensures short { IfErr result.1 (PlaysShort table (all_lines lines.now archive.entry) (line_in archive.entry) writer.old result.0 writer.new) }
    ensures order { IsInLineOrder result.0 }
{
    let Ok(mut core) = Core::new(alloc, table) else {
        return (History::new(alloc), Err(PlayEnd::NoMemory));
    };
    match play_session(&mut core, lines) {
        Ok(()) => {
            let end = play_archive(alloc, &mut core, archive, writer);
            (core.into_history(), end)
        }
        Err(_) => (core.into_history(), Err(PlayEnd::NoMemory)),
    }
}
