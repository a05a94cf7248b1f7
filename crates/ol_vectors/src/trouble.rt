//! Why a line can't be told.

use hex::FromHexError;
use std::alloc::{AllocError, AllocFailed};
use std::fmt;

/// Why a line can't be told.
#[derive(Clone, Copy, Debug, PartialEq, Eq)]
pub enum Trouble {
    /// The first word names no format.
    NoKind,
    /// No line before gave bytes that could be changed.
    NoVector,
    /// The bytes are not in their short form.
    NoBytes,
    /// A word is no decimal number, or above the limit of its field.
    NoNumber,
    /// There are too few numbers, or too many.
    OtherCount,
    /// There are more bytes than any format has, or another number of them than this one has.
    OtherLength,
    /// Memory was refused.
    NoMemory,
}

impl fmt::Display for Trouble {
    fn fmt<W: fmt::Write>(&self, f: &mut fmt::Formatter<W>) -> fmt::Result {
        let words = match self {
            Trouble::NoKind => "no such format",
            Trouble::NoVector => "no bytes before it",
            Trouble::NoBytes => "not bytes",
            Trouble::NoNumber => "not a number, or too great",
            Trouble::OtherCount => "another count of numbers",
            Trouble::OtherLength => "another count of bytes",
            Trouble::NoMemory => "no memory",
        };
        f.write_str(words)
    }
}

impl From<AllocError> for Trouble {
    fn from(_: AllocError) -> Trouble {
        Trouble::NoMemory
    }
}

impl<T: Drop> From<AllocFailed<T>> for Trouble {
    fn from(_: AllocFailed<T>) -> Trouble {
        Trouble::NoMemory
    }
}

impl From<FromHexError> for Trouble {
    fn from(error: FromHexError) -> Trouble {
        match error {
            FromHexError::OutOfMemory => Trouble::NoMemory,
            _ => Trouble::NoBytes,
        }
    }
}
