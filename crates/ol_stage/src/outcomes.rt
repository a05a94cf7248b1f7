//! What a command left behind.

use crate::trouble::Trouble;
use ol_values::{Entry, History};
use sha2::{Digest, Sha256};
use std::alloc::{AllocError, Global};
use std::fmt::Write;

/// How many bytes of the digest of an output are told.
const TOLD: usize = 8;

/// How a command ended.
#[derive(Drop)]
pub struct Ended {
    /// The exit status.
    pub code: u8,
    /// The turns.
    pub history: History,
    /// How many calls of the disk were writes and syncs.
    pub writes: u64,
    /// How many calls of the disk were reads.
    pub reads: u64,
}

/// What a command left behind: how it ended, and the bytes of its output.
#[derive(Drop)]
pub struct Outcome {
    output: Vec<u8>,
    ended: Ended,
}

impl Outcome {
    /// What a command left behind, with a copy of its output.
    pub fn new(alloc: Global, output: &[u8], ended: Ended) -> Result<Outcome, Trouble> {
        Ok(Outcome {
            output: Vec::from_slice(alloc, output)?,
            ended,
        })
    }

    /// Whether all was done.
    pub fn is_well(&self) -> bool {
        self.ended.code == 0
    }

    /// The turns of the command.
    pub fn history(&self) -> &[Entry] {
        self.ended.history.as_slice()
    }

    /// Tells the output. Behind one that doesn't end in a line feed stand a tilde and a line feed.
    ///
    /// `NoWords` comes where it is no text.
    pub fn tell(&self, told: &mut String) -> Result<(), Trouble> {
        let Ok(text) = std::str::from_utf8(&self.output) else {
            return Err(Trouble::NoWords);
        };
        told.push_str(text)?;
        if !text.is_empty() && !text.ends_with("\n") {
            told.push_str("~\n")?;
        }
        Ok(())
    }

    /// Tells the exit status.
    pub fn tell_code(&self, told: &mut String) -> Result<(), AllocError> {
        let code = self.ended.code;
        write!(told, "= {code}\n")
    }

    /// Tells the calls of the disk.
    pub fn tell_calls(&self, told: &mut String) -> Result<(), AllocError> {
        let (writes, reads) = (self.ended.writes, self.ended.reads);
        write!(told, "writes and syncs {writes}, reads {reads}\n")
    }

    /// Tells the length of the output and the beginning of its digest.
    pub fn tell_output(&self, told: &mut String) -> Result<(), AllocError> {
        let length = self.output.len();
        write!(told, "{length} bytes ")?;
        for byte in Sha256::digest(self.output.as_slice()).iter().take(TOLD) {
            write!(told, "{byte:02x}")?;
        }
        told.push_str("\n")
    }
}
