//! What a command has to tell besides its status.

ghost use Rattle.std.specs.Prelude.{◌≡◌, ◌≢◌, ℕ, OnErr, OnOk, take};
ghost use Rattle.std.specs.Io.KnownBytes.{Appends};
ghost use Rattle.ol_values.specs.Text.{IsInLineOrder};
ghost use Rattle.ol_ports.specs.Causes.{HasCause};
ghost use Rattle.ol_online.specs.Command.{IsReported, WritesOut, history_in, output_of, told_text};
ghost use Rattle.ol_online.specs.Views.{writing};

use crate::output::write_history;
use crate::status::{Status, write_status};
use ol_chunks::ChunkTable;
use ol_ports::{Failed, Sink, write_all};
use ol_values::History;
use std::alloc::Global;

/// What a command has to tell besides its status.
#[derive(Drop)]
pub(crate) enum Told {
    /// No work was begun.
    Nothing,
    /// The disk was formatted.
    Formatted,
    /// Lines were played over a disk of this configuration.
    Played { table: ChunkTable, history: History },
}

impl Told {
    /// The history of the play, empty where there was none.
    pub(crate) fn into_history(self, alloc: Global) -> History
        ensures { result ≡ history_in self }
    {
        match self {
            Told::Played { table: _, history } => history,
            Told::Nothing | Told::Formatted => History::new(alloc),
        }
    }
}

/// Writes what is told.
fn write_told<K: Sink>(out: &mut K, told: &Told) -> Result<(), Failed>
    requires { IsInLineOrder (history_in told.now) }
    ensures ok { OnOk result (Appends (K.contents out.old) (K.contents out.new) (told_text told.now)) }
    ensures err { OnErr result ((n : ℕ) × Appends (K.contents out.old) (K.contents out.new) (take n (told_text told.now))) }
    ensures cause { HasCause (K.fault_count out.old) (K.fault_count out.new) result }
{
    match told {
        Told::Nothing => Ok(()),
        Told::Formatted => write_all(out, b"ready\n"),
        Told::Played { table, history } => write_history(out, table, history.as_slice()),
    }
}

/// Writes what is told, and then the text of a status.
fn write_output<K: Sink>(out: &mut K, told: &Told, status: Status) -> Result<(), Failed>
    requires { IsInLineOrder (history_in told.now) }
    ensures ok { OnOk result (Appends (K.contents out.old) (K.contents out.new) (output_of told.now status)) }
    ensures err { OnErr result ((n : ℕ) × Appends (K.contents out.old) (K.contents out.new) (take n (output_of told.now status))) }
    ensures cause { HasCause (K.fault_count out.old) (K.fault_count out.new) result }
{
    match write_told(out, told) {
        Ok(()) => write_status(out, status),
        Err(failed) => Err(failed),
    }
}

/// Writes what is told and the text of a status, and gives the status that the command ends with.
pub(crate) fn report<K: Sink>(out: &mut K, told: &Told, status: Status) -> Status
    requires order { IsInLineOrder (history_in told.now) }
    requires no_write { status ≢ Status.WriteFault }
    ensures kind { IsReported (K.fault_count out.old) (K.fault_count out.new) status result }
    ensures output { WritesOut (writing K.contents K.fault_count out.old out.new) result (output_of told.now result) }
{
    match write_output(out, told, status) {
        Ok(()) => status,
        Err(_) => match status {
            Status::Ok => Status::WriteFault,
            other => other,
        },
    }
}
