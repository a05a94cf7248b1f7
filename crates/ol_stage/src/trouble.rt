//! Why a step can't be done.

use std::alloc::{AllocError, AllocFailed};

/// Why a step can't be done. The step has changed nothing then.
#[derive(Clone, Copy)]
pub enum Trouble {
    /// The line is off the grammar of steps.
    NoStep,
    /// A word is no number, or one that is too large.
    NoNumber,
    /// No text begins before its line, or none has that name.
    NoText,
    /// The disk has no such chunk, or takes no more.
    NoChunk,
    /// The chunk has no such page, or the page no such offset.
    NoPlace,
    /// The last command made no such call.
    NoCall,
    /// There is no drive of that number.
    NoDrive,
    /// The shelf has no such volume or block.
    NoBlock,
    /// No command has formatted the disk in this scene, so spaces have no names.
    NoNames,
    /// What is to be shown isn't text.
    NoWords,
    /// A device in memory refused a call that was to set it up.
    Refused,
    /// Memory was refused.
    NoMemory,
}

impl Trouble {
    /// The trouble in words.
    pub fn words(self) -> &'static str {
        match self {
            Trouble::NoStep => "no such step",
            Trouble::NoNumber => "no such number",
            Trouble::NoText => "no such text",
            Trouble::NoChunk => "no such chunk",
            Trouble::NoPlace => "no such place",
            Trouble::NoCall => "no such call",
            Trouble::NoDrive => "no such drive",
            Trouble::NoBlock => "no such block",
            Trouble::NoNames => "no configuration yet",
            Trouble::NoWords => "no text",
            Trouble::Refused => "refused",
            Trouble::NoMemory => "no memory",
        }
    }
}

impl From<AllocError> for Trouble {
    fn from(_: AllocError) -> Trouble {
        Trouble::NoMemory
    }
}

impl<T: Drop> From<AllocFailed<T>> for Trouble {
    fn from(_: AllocFailed<T>) -> Trouble {
        Trouble::NoMemory
    }
}
