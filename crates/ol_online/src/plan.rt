//! Which lines of a script are built so far.

ghost use Rattle.std.specs.Prelude.{◌≡◌, ◌<◌, ◌≤◌, IfOk, IfSome, length, not, position};
ghost use Rattle.std.specs.List.{list_all};
ghost use Rattle.ol_online.specs.Planning.{lines_planned, planned_behind, session_count};
ghost use Rattle.ol_online.specs.Planning.{is_archive_form as archives, is_archive_line as archive_line, is_archiver_1 as archiver_1, is_session_form as session_form, is_session_line as session_line, is_session_1 as session_1, is_space as a_space};

use ol_chunks::{ChunkTable, Name};
use ol_values::{Actor, Form, Label, Labels, Line};

/// Gives how many lines of session 1 stand in front of a script's archive line, or of its end. The error is the number of
/// the first line that is not built: any but a begin, an insert or a commit of session 1, and a last line of archiver 1
/// that archives spaces of the table at level 0.
pub(crate) fn plan(lines: &[Line], table: &ChunkTable) -> Result<usize, u16>
    ensures value { result ≡ lines_planned table.now lines.now }
    ensures count { IfOk result (λ n. n ≡ session_count lines.now) }
    ensures limit { IfOk result (λ n. n ≤ length lines.now) }
{
    let count = count_sessions(lines);
    plan_behind(count, &lines[count..], table)
}

/// How many lines of the session stand at the front.
fn count_sessions(lines: &[Line]) -> usize
    ensures value { result ≡ session_count lines.now }
    ensures limit { result ≤ length lines.now }
{
    first_other(lines).unwrap_or(lines.len())
}

/// Where the first line stands that is not one of the session.
fn first_other(lines: &[Line]) -> Option<usize>
    ensures value { result ≡ position (λ line. not (session_line line)) lines.now }
    ensures bound { IfSome result (λ i. i < length lines.now) }
{
    lines.iter().position(|line| !is_session_line(line))
}

/// The same, from the lines behind those of the session.
fn plan_behind(count: usize, behind: &[Line], table: &ChunkTable) -> Result<usize, u16>
    ensures { result ≡ planned_behind table.now count behind.now }
{
    match behind {
        [] => Ok(count),
        [line] => {
            if is_archive_line(line, table) {
                Ok(count)
            } else {
                Err(line.number)
            }
        }
        [line, next, ..] => {
            if is_archive_line(line, table) {
                Err(next.number)
            } else {
                Err(line.number)
            }
        }
    }
}

fn is_session_line(line: &Line) -> bool
    ensures { result ≡ session_line line.now }
{
    matches!(line.actor, Actor::Session(1)) && is_session_form(&line.form)
}

fn is_session_form(form: &Form) -> bool
    ensures { result ≡ session_form form.now }
{
    match form {
        Form::Begin | Form::Commit => true,
        Form::Insert {
            reg: _,
            space: _,
            row: _,
        } => true,
        _ => false,
    }
}

fn is_archive_line(line: &Line, table: &ChunkTable) -> bool
    ensures { result ≡ archive_line table.now line.now }
{
    matches!(line.actor, Actor::Archiver(1)) && is_archive_form(&line.form, table)
}

fn is_archive_form(form: &Form, table: &ChunkTable) -> bool
    ensures { result ≡ archives table.now form.now }
{
    match form {
        Form::Archive { level, spaces } => *level == 0 && are_spaces(spaces, table),
        _ => false,
    }
}

fn are_spaces(labels: &Labels, table: &ChunkTable) -> bool
    ensures { result ≡ list_all (a_space table.now) labels.now }
{
    labels.as_slice().iter().all(|label| is_space(label, table))
}

fn is_space(label: &Label, table: &ChunkTable) -> bool
    ensures { result ≡ a_space table.now label.now }
{
    match Name::new(label.as_slice()) {
        Some(name) => table.find(&name).is_some(),
        None => false,
    }
}
