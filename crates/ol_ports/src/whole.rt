//! Reading a source to its end, and writing all of a piece.

ghost use Rattle.std.specs.Prelude.{◌≡◌, ◌≤◌, ℕ, List, Some, IfOk, OnErr, OnOk, IsErrOf, take};
ghost use Rattle.std.specs.Io.KnownBytes.{Appends, Consumes};
ghost use Rattle.ol_ports.specs.Causes.{HasCause, Rose};

use crate::{Failed, Sink, Source};
use std::alloc::Global;

/// The most bytes that one read asks for.
const PIECE_LENGTH: usize = 4096;

/// Why a source was not read to its end.
#[derive(Clone, Copy, Debug, PartialEq, Eq)]
pub enum ReadError {
    /// A read failed.
    Failed,
    /// Memory was refused.
    NoMemory,
}

/// Reads a source to its end, but no more than `limit` bytes of it.
///
/// `Failed` comes only where the source's count of faults rose in this call. On `Ok` the count is
/// as it was. What was read before an error is gone from the source.
pub fn read_all<S: Source>(
    alloc: Global,
    source: &mut S,
    limit: usize,
) -> Result<Vec<u8>, ReadError>
    ensures bytes { (left : List ℕ) → S.left source.old ≡ Some left → IfOk result (λ v. v.items ≡ take limit left) }
    ensures later { S.fault_count source.old ≤ S.fault_count source.new }
    ensures cause { IsErrOf result ReadError.Failed → Rose (S.fault_count source.old) (S.fault_count source.new) }
    ensures kept { OnOk result (S.fault_count source.new ≡ S.fault_count source.old) }
    ensures rest { IfOk result (λ v. Consumes (S.left source.old) (S.left source.new) v.items) }
    ensures memory { IsErrOf result ReadError.NoMemory → S.fault_count source.new ≡ S.fault_count source.old }
{
    let mut bytes = Vec::new(alloc);
    let mut buffer = [0u8; PIECE_LENGTH];
    while bytes.len() < limit {
        // never more than what may still be taken, since a source gives no byte back
        let wanted = (limit - bytes.len()).min(PIECE_LENGTH);
        let count = match source.read(&mut buffer[..wanted]) {
            Ok(0) => break,
            Ok(count) => count,
            Err(_) => return Err(ReadError::Failed),
        };
        if bytes.extend_from_slice(&buffer[..count]).is_err() {
            return Err(ReadError::NoMemory);
        }
    }
    Ok(bytes)
}

/// Writes all of these bytes. Where a write fails, the sink took some first part of them.
///
/// `Failed` comes only where the sink's count of faults rose in this call. On `Ok` the count is as
/// it was.
#[tactic(auto, using(crate::proofs::Moves::appends_piece))]
pub fn write_all<K: Sink>(sink: &mut K, bytes: &[u8]) -> Result<(), Failed>
    ensures ok { OnOk result (Appends (K.contents sink.old) (K.contents sink.new) bytes.now) }
    ensures err { OnErr result ((n : ℕ) × Appends (K.contents sink.old) (K.contents sink.new) (take n bytes.now)) }
    ensures cause { HasCause (K.fault_count sink.old) (K.fault_count sink.new) result }
{
    let mut taken = 0;
    while taken < bytes.len() {
        // a write may take a first part alone
        taken += sink.write(&bytes[taken..])?;
    }
    Ok(())
}
