//! The entries of a history in words.

use ol_chunks::ChunkTable;
use ol_script::{ENTRY_LIMIT, text};
use ol_stage::Trouble;
use ol_values::{Entry, Event, Label, Why};
use std::alloc::AllocError;
use std::fmt::Write;

/// Tells each entry: its number, what was asked for, its script line with the actor and the reply, and the disk's calls
/// as it began and as it was answered.
///
/// `NoWords` comes where a row or a name is no text.
pub fn tell_entries(
    entries: &[Entry],
    table: &ChunkTable,
    told: &mut String,
) -> Result<(), Trouble> {
    if entries.is_empty() {
        told.push_str("no entry\n")?;
    }
    for entry in entries {
        tell_entry(entry, table, told)?;
    }
    Ok(())
}

fn tell_entry(entry: &Entry, table: &ChunkTable, told: &mut String) -> Result<(), Trouble> {
    let number = entry.number;
    write!(told, "{number} ")?;
    tell_event(&entry.event, told)?;
    let mut buffer = [0; ENTRY_LIMIT];
    let length = text(entry, table, &mut buffer);
    let line = words(&buffer[..length])?.trim_end();
    let (start, calls) = (entry.start, entry.calls);
    write!(told, ": {line} ({start} {calls})\n")?;
    Ok(())
}

fn tell_event(event: &Event, told: &mut String) -> Result<(), Trouble> {
    match event {
        Event::Begin => told.push_str("begin")?,
        Event::Insert { reg, space, row } => {
            let (space, row) = (words(space.as_slice())?, words(row.as_slice())?);
            write!(told, "insert r{reg} {space} ={row}")?;
        }
        Event::Commit => told.push_str("commit")?,
        Event::ArchiveStart { level, spaces } => {
            write!(told, "archive_start {level}")?;
            tell_spaces(spaces.as_slice(), told)?;
        }
        Event::ArchiveTurn => told.push_str("archive_turn")?,
        Event::ArchiveEnd => told.push_str("archive_end")?,
        Event::ArchiveCancel { why } => tell_cancel(*why, told)?,
        // no line that is built makes any other
        _ => told.push_str("another turn")?,
    }
    Ok(())
}

fn tell_spaces(spaces: &[Label], told: &mut String) -> Result<(), Trouble> {
    for space in spaces {
        let space = words(space.as_slice())?;
        write!(told, " {space}")?;
    }
    Ok(())
}

fn tell_cancel(why: Why, told: &mut String) -> Result<(), AllocError> {
    match why {
        Why::Asked => told.push_str("archive_cancel asked"),
        Why::Fault { since } => write!(told, "archive_cancel fault {since}"),
        Why::Full => told.push_str("archive_cancel full"),
    }
}

/// The text of bytes.
fn words(bytes: &[u8]) -> Result<&str, Trouble> {
    let Ok(text) = std::str::from_utf8(bytes) else {
        return Err(Trouble::NoWords);
    };
    Ok(text)
}
