//! Why a line can't be done.

use hex::FromHexError;
use std::alloc::{AllocError, AllocFailed};
use std::fmt;

/// Why a line can't be done.
#[derive(Clone, Copy, Debug, PartialEq, Eq)]
pub enum Trouble {
    /// The first word names no step.
    NoStep,
    /// A word is no decimal number, or above the limit of its field.
    NoNumber,
    /// There are too few numbers, or too many.
    OtherCount,
    /// The text is not in hexadecimal digits.
    NoBytes,
    /// There are more bytes, spaces or records than fit.
    OtherLength,
    /// No volume was begun that could take a block.
    NoVolume,
    /// No object was begun.
    NoObject,
    /// The shelf has no such block, or the block no such byte.
    NoBlock,
    /// There is no drive of that number.
    NoDrive,
    /// A device in memory refused what it should take.
    Refused,
    /// Memory was refused.
    NoMemory,
}

impl fmt::Display for Trouble {
    fn fmt<W: fmt::Write>(&self, f: &mut fmt::Formatter<W>) -> fmt::Result {
        let words = match self {
            Trouble::NoStep => "no such step",
            Trouble::NoNumber => "not a number, or too great",
            Trouble::OtherCount => "another count of numbers",
            Trouble::NoBytes => "not bytes",
            Trouble::OtherLength => "more than fits",
            Trouble::NoVolume => "no volume begun",
            Trouble::NoObject => "no object begun",
            Trouble::NoBlock => "no such block",
            Trouble::NoDrive => "no such drive",
            Trouble::Refused => "refused",
            Trouble::NoMemory => "no memory",
        };
        f.write_str(words)
    }
}

impl From<AllocError> for Trouble {
    fn from(_: AllocError) -> Trouble {
        Trouble::NoMemory
    }
}

impl<T: Drop> From<AllocFailed<T>> for Trouble {
    fn from(_: AllocFailed<T>) -> Trouble {
        Trouble::NoMemory
    }
}

impl From<FromHexError> for Trouble {
    fn from(error: FromHexError) -> Trouble {
        match error {
            FromHexError::OutOfMemory => Trouble::NoMemory,
            _ => Trouble::NoBytes,
        }
    }
}
