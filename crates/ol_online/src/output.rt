//! The output: the text of a history.

ghost use Rattle.std.specs.Prelude.{◌≡◌, ◌∷◌, ℕ, OnErr, OnOk, not, take};
ghost use Rattle.std.specs.Io.KnownBytes.{Appends};
ghost use Rattle.ol_ports.specs.Causes.{HasCause};
ghost use Rattle.ol_values.specs.Text.{IsInLineOrder, is_followed, text};

use ol_chunks::ChunkTable;
use ol_ports::{Failed, Sink, write_all};
use ol_script::{ENTRY_LIMIT, text as put_text};
use ol_values::Entry;

/// Writes the text of a history, with the names of the table's spaces: a line for the last entry of each script
/// line. Where a write fails, the sink took some first part of it.
pub fn write_history<K: Sink>(
    sink: &mut K,
    table: &ChunkTable,
    history: &[Entry],
) -> Result<(), Failed>
    requires { IsInLineOrder history.now }
    ensures ok { OnOk result (Appends (K.contents sink.old) (K.contents sink.new) (text table.now history.now)) }
    ensures err { OnErr result ((n : ℕ) × Appends (K.contents sink.old) (K.contents sink.new) (take n (text table.now history.now))) }
    ensures cause { HasCause (K.fault_count sink.old) (K.fault_count sink.new) result }
{
    let mut line = [0; ENTRY_LIMIT];
    for (i, entry) in history.iter().enumerate() {
        if ends_line(entry, &history[i + 1..]) {
            let length = put_text(entry, table, &mut line);
            write_all(sink, &line[..length])?;
        }
    }
    Ok(())
}

// Whether none of the entries behind this one is of its line. Those of a line stand together, so the
// next one tells it.
fn ends_line(entry: &Entry, behind: &[Entry]) -> bool
    requires { IsInLineOrder (entry.now ∷ behind.now) }
    ensures { result ≡ not (is_followed entry.now behind.now) }
{
    match behind.first() {
        Some(next) => next.line != entry.line,
        None => true,
    }
}
