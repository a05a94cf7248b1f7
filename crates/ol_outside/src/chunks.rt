//! The bytes of a disk in memory.

ghost use Rattle.std.specs.Prelude.{◌≡◌, ◌<◌, ◌≤◌, ◌+◌, ◌*◌, IfOk, length, take, drop, replicate};
ghost use Rattle.ol_outside.specs.Chunks.{chunk_bytes, lengths, zero_chunks, spliced, with_piece, with_chunk, HasPage};

use crate::{NoMemory, PAGE_LENGTH};
use std::alloc::Global;
use std::marker::Model;

/// The bytes of each chunk, its pages laid end to end. Contracts see a list of lists of bytes.
#[derive(Debug, Drop)]
pub(crate) struct Chunks {
    chunks: Vec<Vec<u8>>,
}

impl Model for Chunks {
    ghost use Rattle.std.specs.Prelude.{ℕ, List, map};

    ghost Value = { List (List ℕ) };

    ghost view = { λ c. map (λ chunk. chunk.items) c.chunks.items };
}

impl Chunks {
    /// Chunks of so many pages each, all zero.
    pub(crate) fn zeroed(alloc: Global, sizes: &[u32]) -> Result<Chunks, NoMemory>
        ensures { IfOk result (λ chunks. chunks ≡ zero_chunks sizes.now) }
    {
        let mut chunks = Vec::new(alloc);
        for pages in sizes {
            let length = PAGE_LENGTH * *pages as usize;
            chunks.push(vec![in alloc; 0u8; length]?)?;
        }
        Ok(Chunks { chunks })
    }

    /// A copy of the chunks.
    pub(crate) fn copy(&self, alloc: Global) -> Result<Chunks, NoMemory>
        ensures { IfOk result (λ chunks. chunks ≡ self.now) }
    {
        let mut chunks = Vec::new(alloc);
        for chunk in &self.chunks {
            chunks.push(Vec::from_slice(alloc, chunk)?)?;
        }
        Ok(Chunks { chunks })
    }

    /// The bytes of a page.
    pub(crate) fn page(&self, chunk: u8, page: u32) -> &[u8]
        requires { HasPage self.now chunk page }
        ensures length { length result.now ≡ 2048 }
        ensures bytes { result.now ≡ take 2048 (drop (2048 * page) (chunk_bytes self.now chunk)) }
    {
        let at = PAGE_LENGTH * page as usize;
        &self.chunks[chunk as usize][at..at + PAGE_LENGTH]
    }

    /// Puts a piece in the place of the bytes of a page from an offset on.
    pub(crate) fn put(&mut self, chunk: u8, page: u32, offset: u16, piece: &[u8])
        requires page { HasPage self.old chunk page }
        requires range { offset + length piece.now ≤ 2048 }
        ensures { self.new ≡ with_piece self.old chunk (2048 * page + offset) piece.now }
    {
        let at = PAGE_LENGTH * page as usize + offset as usize;
        let bytes = &mut self.chunks[chunk as usize];
        splice(bytes.as_mut_slice(), at, piece);
    }

    /// Puts one byte in the place of `length` bytes of a page from an offset on.
    pub(crate) fn fill(&mut self, chunk: u8, page: u32, offset: u16, length: usize, byte: u8)
        requires page { HasPage self.old chunk page }
        requires range { offset + length ≤ 2048 }
        ensures { self.new ≡ with_piece self.old chunk (2048 * page + offset) (replicate length byte) }
    {
        let bytes = [byte; PAGE_LENGTH];
        self.put(chunk, page, offset, &bytes[..length]);
    }

    /// Takes the bytes of a chunk of `from`, which has as many.
    pub(crate) fn take_chunk(&mut self, chunk: usize, from: &Chunks)
        requires there { chunk < length self.old }
        requires lengths { lengths self.old ≡ lengths from.now }
        ensures { self.new ≡ with_chunk self.old chunk (chunk_bytes from.now chunk) }
    {
        let bytes = &mut self.chunks[chunk];
        bytes.copy_from_slice(&from.chunks[chunk]);
    }

    /// Makes all bytes of a chunk zero.
    pub(crate) fn zero(&mut self, chunk: u8)
        requires { chunk < length self.old }
        ensures { self.new ≡ with_chunk self.old chunk (replicate (length (chunk_bytes self.old chunk)) 0) }
    {
        let bytes = &mut self.chunks[chunk as usize];
        bytes.fill(0);
    }

    /// Takes all bytes of `from`, which has chunks of the same lengths.
    pub(crate) fn take_all(&mut self, from: &Chunks)
        requires { lengths self.old ≡ lengths from.now }
        ensures { self.new ≡ from.now }
    {
        let count = self.chunks.len();
        for chunk in 0..count {
            self.take_chunk(chunk, from);
        }
    }
}

// Puts a piece in the place of the bytes from `at` on.
fn splice(bytes: &mut [u8], at: usize, piece: &[u8])
    requires { at + length piece.now ≤ length bytes.old }
    ensures { bytes.new ≡ spliced bytes.old at piece.now }
{
    bytes[at..at + piece.len()].copy_from_slice(piece);
}
