//! A reader as a source, and a writer as a sink.

ghost use Rattle.std.specs.Prelude.{◌≡◌, ◌<◌, IfOk, is_err, length};
ghost use Rattle.std.specs.Io.{ReadsAtMost, WritesAtMost};
ghost use Rattle.std.specs.Io.KnownBytes.{Keeps, ReadConsumes, WriteAppends};
ghost use Rattle.ol_ports.specs.Causes.{HasCause};
ghost use Rattle.ol_devices.specs.Files.{count_after};

use crate::fault::fault;
use ol_ports::{Failed, Sink, Source};
use std::io;
use std::io::{Read, Write};

/// A reader as a source, which tells its bytes where the reader does. Each error of the reader is a fault.
#[derive(Drop)]
pub struct ReaderSource<R> {
    reader: R,
    failed_reads: u64,
}

impl<R: Read> ReaderSource<R> {
    /// No fault yet.
    pub fn new(reader: R) -> ReaderSource<R>
        ensures given { result.reader ≡ reader }
        ensures calm { result.failed_reads ≡ 0 }
    {
        ReaderSource {
            reader,
            failed_reads: 0,
        }
    }
}

impl<R: Read> Source for ReaderSource<R> {
    ghost left = { λ s. R.remaining s.reader };

    ghost fault_count = { λ s. s.failed_reads };

    fn read(&mut self, buf: &mut [u8]) -> Result<usize, Failed>
        ensures bound { ReadsAtMost result buf.new }
        ensures bytes { ReadConsumes (R.remaining self.old.reader) (R.remaining self.new.reader) result buf.new }
        ensures cause { HasCause self.old.failed_reads self.new.failed_reads result }

        ensures counted { self.new.failed_reads ≡ count_after (is_err result) self.old.failed_reads }
    {
        match self.reader.read(buf) {
            Ok(count) => Ok(count),
            Err(_) => Err(fault(&mut self.failed_reads)),
        }
    }

    fn faults(&self) -> u64 {
        self.failed_reads
    }
}

/// A writer as a sink, which tells its bytes where the writer does. Each error of the writer is a fault, and so is
/// a write that takes nothing of a piece that is not empty.
#[derive(Drop)]
pub struct WriterSink<W> {
    writer: W,
    failed_writes: u64,
}

impl<W: Write> WriterSink<W> {
    /// No fault yet.
    pub fn new(writer: W) -> WriterSink<W>
        ensures given { result.writer ≡ writer }
        ensures calm { result.failed_writes ≡ 0 }
    {
        WriterSink {
            writer,
            failed_writes: 0,
        }
    }

    /// Hands on what the writer holds back.
    pub fn flush(&mut self) -> io::Result<()>
        ensures bytes { Keeps (W.contents self.old.writer) (W.contents self.new.writer) }
        ensures counted { self.new.failed_writes ≡ self.old.failed_writes }
    {
        self.writer.flush()
    }
}

impl<W: Write> Sink for WriterSink<W> {
    ghost contents = { λ s. W.contents s.writer };

    ghost fault_count = { λ s. s.failed_writes };

    fn write(&mut self, bytes: &[u8]) -> Result<usize, Failed>
        ensures bound { WritesAtMost result bytes.now }
        ensures progress { 0 < length bytes.now → IfOk result (λ n. 0 < n) }
        ensures bytes { WriteAppends (W.contents self.old.writer) (W.contents self.new.writer) result bytes.now }
        ensures cause { HasCause self.old.failed_writes self.new.failed_writes result }

        ensures counted { self.new.failed_writes ≡ count_after (is_err result) self.old.failed_writes }
    {
        match self.writer.write(bytes) {
            // a writer that takes nothing would be asked again and again
            Ok(count) if count > 0 || bytes.is_empty() => Ok(count),
            _ => Err(fault(&mut self.failed_writes)),
        }
    }

    fn faults(&self) -> u64 {
        self.failed_writes
    }
}
