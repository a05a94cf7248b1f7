//! The streams of a command.

use ol_outside::{MemorySink, MemorySource};
use std::alloc::{AllocError, Global};

/// The most bytes that a read of a script or a configuration gives.
const PIECE: usize = 7;

/// A source of a text, whose listed reads fail.
pub fn source_of(alloc: Global, input: &[u8], failing: &[u64]) -> Result<MemorySource, AllocError> {
    MemorySource::new(alloc, input, PIECE, failing)
}

/// An empty sink, whose listed writes fail.
pub fn sink_of(alloc: Global, failing: &[u64]) -> Result<MemorySink, AllocError> {
    MemorySink::new(alloc, failing)
}
