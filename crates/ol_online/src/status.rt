//! What a command ends with.

ghost use Rattle.std.specs.Prelude.{◌≡◌, ◌≤◌, ℕ, OnErr, OnOk, length, take};
ghost use Rattle.std.specs.Io.KnownBytes.{Appends};
ghost use Rattle.ol_ports.specs.Causes.{HasCause};
ghost use Rattle.ol_online.specs.Status.{code_of, not_ready_text, status_text};

use ol_bytes::put;
use ol_ports::{Failed, Sink, write_all};
use ol_script::put_words;

/// The most bytes of a status's text.
const STATUS_LIMIT: usize = 64;

/// What a command ends with.
#[derive(Clone, Copy, Debug, PartialEq, Eq)]
pub enum Status {
    /// All was done.
    Ok,
    /// The words are no command.
    BadWords,
    /// The first line of the script, from 1, that is off the grammar, or is not built yet.
    BadScript { line: u32 },
    /// The first line of the configuration, from 1, that is off the grammar or breaks a limit.
    BadConfig { line: u32 },
    /// A read of the script or configuration failed.
    ReadFault,
    /// The output was not written whole.
    WriteFault,
    /// A call of the disk on this chunk failed.
    DiskFault { chunk: u8 },
    /// A call of the drive of this number failed.
    TapeFault { drive: u8 },
    /// The drive of this number has no volume that takes a block.
    OutOfTape { drive: u8 },
    /// The disk holds no installation that can be opened.
    NotReady { state: NotReady },
    /// This page of the disk is damaged.
    BadDisk { chunk: u8, page: u32 },
    /// This chunk of the disk has fewer pages than the configuration says.
    TooSmall { chunk: u8 },
    /// Memory was refused.
    NoMemory,
}

/// Why a disk can't be opened.
#[derive(Clone, Copy, Debug, PartialEq, Eq)]
pub enum NotReady {
    /// It was never formatted, or its formatting did not end.
    Blank,
    /// It is being restored.
    Restoring,
}

impl Status {
    /// The number of the status, as which a program exits.
    pub fn code(&self) -> u8
        ensures { result ≡ code_of self.now }
    {
        match self {
            Status::Ok => 0,
            Status::BadWords => 1,
            Status::BadScript { line: _ } | Status::BadConfig { line: _ } => 2,
            Status::ReadFault => 3,
            Status::WriteFault => 4,
            Status::DiskFault { chunk: _ } => 5,
            Status::TapeFault { drive: _ } => 6,
            Status::OutOfTape { drive: _ } => 7,
            Status::NotReady { state: _ } => 8,
            Status::BadDisk { chunk: _, page: _ } => 12,
            Status::TooSmall { chunk: _ } => 14,
            Status::NoMemory => 20,
        }
    }
}

/// Writes the text of a status at the front of `buf`, and gives its length in bytes. The text of `Ok`
/// and of `WriteFault` is empty.
fn put_status(status: Status, buf: &mut [u8; STATUS_LIMIT]) -> usize
    ensures text { take result buf.new ≡ status_text status }
    ensures limit { result ≤ 64 }
{
    let at = match status {
        Status::Ok | Status::WriteFault => return 0,
        Status::BadWords => put(buf, 0, b"bad words"),
        Status::BadScript { line } => put_words(buf, 0, b"bad script", &[u64::from(line)]),
        Status::BadConfig { line } => put_words(buf, 0, b"bad config", &[u64::from(line)]),
        Status::ReadFault => put(buf, 0, b"read fault"),
        Status::DiskFault { chunk } => put_words(buf, 0, b"disk fault", &[u64::from(chunk)]),
        Status::TapeFault { drive } => put_words(buf, 0, b"tape fault", &[u64::from(drive)]),
        Status::OutOfTape { drive } => put_words(buf, 0, b"out of tape", &[u64::from(drive)]),
        Status::NotReady { state } => put(buf, 0, not_ready(state)),
        Status::BadDisk { chunk, page } => {
            put_words(buf, 0, b"bad disk", &[u64::from(chunk), u64::from(page)])
        }
        Status::TooSmall { chunk } => put_words(buf, 0, b"too small", &[u64::from(chunk)]),
        Status::NoMemory => put(buf, 0, b"no memory"),
    };
    put(buf, at, b"\n")
}

fn not_ready(state: NotReady) -> &'static [u8]
    ensures value { result.now ≡ not_ready_text state }
    ensures limit { length result.now ≤ 32 }
{
    match state {
        NotReady::Blank => b"not ready none",
        NotReady::Restoring => b"not ready restoring",
    }
}

/// Writes the text of a status. Where a write fails, the sink took some first part of it.
pub fn write_status<K: Sink>(sink: &mut K, status: Status) -> Result<(), Failed>
    ensures ok { OnOk result (Appends (K.contents sink.old) (K.contents sink.new) (status_text status)) }
    ensures err { OnErr result ((n : ℕ) × Appends (K.contents sink.old) (K.contents sink.new) (take n (status_text status))) }
    ensures cause { HasCause (K.fault_count sink.old) (K.fault_count sink.new) result }
{
    let mut text = [0; STATUS_LIMIT];
    let length = put_status(status, &mut text);
    write_all(sink, &text[..length])
}
