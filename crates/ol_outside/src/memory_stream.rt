//! A source and a sink in memory, which fail where they are told to.

ghost use Rattle.std.specs.Prelude.{◌≡◌, ◌<◌, [], length, drop, IfOk, OnErr, is_err};
ghost use Rattle.std.specs.Io.{ReadsAtMost, WritesAtMost};
ghost use Rattle.std.specs.Io.KnownBytes.{ReadConsumes, WriteAppends};
ghost use Rattle.ol_ports.specs.Causes.{HasCause};
ghost use Rattle.ol_outside.specs.Devices.{read_length};
ghost use Rattle.ol_outside.specs.Faults.{no_calls, next_fails, after_call, faults_in_all, CountsCall};

use crate::faults::Faults;
use crate::{Failed, NoMemory, Sink, Source};
use std::alloc::Global;
use std::marker::Model;

/// A source of bytes that were given to it. After `new` it takes no memory.
#[derive(Debug, Drop)]
pub struct MemorySource {
    bytes: Vec<u8>,
    // How many of the bytes were read.
    position: usize,
    piece: usize,
    faults: Faults,
}

impl Model for MemorySource {
    ghost use Rattle.std.specs.Prelude.{◌<◌, ◌≤◌, length, drop};
    ghost use Rattle.ol_outside.specs.Devices.{SourceState};

    ghost Value = { SourceState };

    ghost view = { λ s. record {
      left = drop s.position s.bytes.items;
      piece = s.piece;
      faults = s.faults;
    } };

    ghost invariant = { λ s. (s.position ≤ length s.bytes.items) × (0 < s.piece) };
}

impl MemorySource {
    /// A source of a copy of `bytes`, each read of which gives at most `piece` bytes. The reads of the
    /// numbers in `failing`, counted from 1, answer `Failed`.
    ///
    /// `NoMemory` where memory for the copies is refused.
    pub fn new(
        alloc: Global,
        bytes: &[u8],
        piece: usize,
        failing: &[u64],
    ) -> Result<MemorySource, NoMemory>
        requires { 0 < piece }
        ensures left { IfOk result (λ source. source.left ≡ bytes.now) }
        ensures piece { IfOk result (λ source. source.piece ≡ piece) }
        ensures faults { IfOk result (λ source. source.faults ≡ no_calls failing.now) }
    {
        let bytes = Vec::from_slice(alloc, bytes)?;
        let faults = Faults::new(alloc, failing)?;
        Ok(MemorySource {
            bytes,
            position: 0,
            piece,
            faults,
        })
    }
}

impl Source for MemorySource {
    ghost use Rattle.std.specs.Prelude.{Some};

    ghost left = { λ s. Some s.left };

    ghost fault_count = { λ s. s.faults.count };

    /// Gives as many bytes as the buffer holds, but no more than a piece, nor than are left.
    ///
    /// `Failed` where the read's number is listed, and nowhere else. The buffer keeps its bytes
    /// then, as it does behind those that are read.
    fn read(&mut self, buf: &mut [u8]) -> Result<usize, Failed>
        ensures bound { ReadsAtMost result buf.new }
        ensures bytes { ReadConsumes (Some self.old.left) (Some self.new.left) result buf.new }
        ensures cause { HasCause self.old.faults.count self.new.faults.count result }

        ensures count { IfOk result (λ n. n ≡ read_length self.old (length buf.old)) }
        ensures behind { IfOk result (λ n. drop n buf.new ≡ drop n buf.old) }
        ensures unread { OnErr result (buf.new ≡ buf.old) }
        ensures piece { self.new.piece ≡ self.old.piece }
        ensures fails { is_err result ≡ next_fails self.old.faults }
        ensures counted { self.new.faults ≡ after_call (is_err result) self.old.faults }
    {
        if self.faults.fails() {
            return Err(Failed);
        }
        let unread = &self.bytes[self.position..];
        let count = buf.len().min(self.piece.min(unread.len()));
        buf[..count].copy_from_slice(&unread[..count]);
        self.position += count;
        Ok(count)
    }

    /// The count of faults: the listed numbers that the reads reached. It stands still at the greatest
    /// `u64`.
    fn faults(&self) -> u64
        ensures count { result ≡ self.now.faults.count }
        ensures total { result ≡ faults_in_all self.now.faults }
    {
        self.faults.count()
    }
}

/// A sink that keeps the bytes that it takes.
#[derive(Debug, Drop)]
pub struct MemorySink {
    bytes: Vec<u8>,
    faults: Faults,
}

impl Model for MemorySink {
    ghost use Rattle.ol_outside.specs.Devices.{SinkState};

    ghost Value = { SinkState };

    ghost view = { λ s. record { bytes = s.bytes.items; faults = s.faults } };
}

impl MemorySink {
    /// An empty sink. The writes of the numbers in `failing`, counted from 1, answer `Failed`.
    ///
    /// `NoMemory` where memory for the copy of `failing` is refused.
    pub fn new(alloc: Global, failing: &[u64]) -> Result<MemorySink, NoMemory>
        ensures { IfOk result (λ sink. sink ≡ record { bytes = []; faults = no_calls failing.now }) }
    {
        Ok(MemorySink {
            bytes: Vec::new(alloc),
            faults: Faults::new(alloc, failing)?,
        })
    }

    /// The bytes that the sink took, in order.
    pub fn bytes(&self) -> &[u8]
        ensures { result.now ≡ self.now.bytes }
    {
        &self.bytes
    }

    /// How often a write was refused memory, which is counted up to the greatest `u64`.
    pub fn starved(&self) -> u64
        ensures { result ≡ self.now.faults.starved }
    {
        self.faults.starved()
    }
}

impl Sink for MemorySink {
    ghost use Rattle.std.specs.Prelude.{Some};

    ghost contents = { λ s. Some s.bytes };

    ghost fault_count = { λ s. s.faults.count };

    /// Takes all of the bytes.
    ///
    /// `Failed` where the write's number is listed or memory is refused, and nowhere else; a refusal
    /// is counted in `starved`.
    fn write(&mut self, bytes: &[u8]) -> Result<usize, Failed>
        ensures bound { WritesAtMost result bytes.now }
        ensures progress { 0 < length bytes.now → IfOk result (λ n. 0 < n) }
        ensures bytes { WriteAppends (Some self.old.bytes) (Some self.new.bytes) result bytes.now }
        ensures cause { HasCause self.old.faults.count self.new.faults.count result }

        ensures all { IfOk result (λ n. n ≡ length bytes.now) }
        ensures counted { CountsCall self.old.faults (is_err result) self.new.faults }
    {
        if self.faults.fails() {
            return Err(Failed);
        }
        match self.bytes.extend_from_slice(bytes) {
            Ok(()) => Ok(bytes.len()),
            Err(_) => {
                self.faults.starve();
                Err(Failed)
            }
        }
    }

    /// The count of faults: the listed numbers that the writes reached, and the refusals of memory. It
    /// stands still at the greatest `u64`.
    fn faults(&self) -> u64
        ensures count { result ≡ self.now.faults.count }
        ensures total { result ≡ faults_in_all self.now.faults }
    {
        self.faults.count()
    }
}
