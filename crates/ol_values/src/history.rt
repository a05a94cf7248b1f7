//! A history: the turns in their order, each with its answer.

ghost use Rattle.std.specs.Prelude.{◌≡◌, ◌++◌, ◌∷◌, [], ℕ, List, OnOk, OnErr};

use crate::{Event, NoMemory, Reply};
use std::alloc::Global;
use std::marker::Model;

/// Who makes a turn: session 1 to 16, archiver 1 to 4, or one of the four actors that there is one of.
#[derive(Clone, Copy, Debug, PartialEq, Eq)]
pub enum Actor {
    Session(u8),
    Archiver(u8),
    Backer,
    Flusher,
    Checkpointer,
    Warmer,
}

/// An actor, and the number of the script line that it carries out, from 1.
#[derive(Clone, Copy, Debug, PartialEq, Eq)]
pub struct By {
    pub actor: Actor,
    pub line: u16,
}

/// A turn that was answered. Entries are numbered from 1. `start` and `calls` are the number of the
/// disk's last call as the turn begins, and as the reply is given.
#[derive(Drop)]
pub struct Entry {
    pub number: u64,
    pub actor: Actor,
    pub line: u16,
    pub event: Event,
    pub reply: Reply,
    pub start: u64,
    pub calls: u64,
}

/// The entries of a history in order, as which contracts see it.
#[derive(Drop)]
pub struct History {
    entries: Vec<Entry>,
}

impl Model for History {
    ghost use Rattle.std.specs.Prelude.{List};
    ghost use Rattle.ol_values.specs.declared.history.Entry.{Entry};

    ghost Value = { List Entry };

    ghost view = { λ h. h.entries.items };
}

impl History {
    /// No entry yet. It takes no memory.
    pub fn new(alloc: Global) -> History
        ensures { result ≡ [] }
    {
        History {
            entries: Vec::new(alloc),
        }
    }

    /// The entries in order.
    pub fn as_slice(&self) -> &[Entry]
        ensures { result.now ≡ self.now }
    {
        &self.entries
    }

    /// One entry more. At `NoMemory` the history stays as it was.
    pub fn push(&mut self, entry: Entry) -> Result<(), NoMemory>
        ensures ok { OnOk result (self.new ≡ self.old ++ entry ∷ []) }
        ensures err { OnErr result (self.new ≡ self.old) }
    {
        self.entries.push(entry)?;
        Ok(())
    }
}

/// A value that tells a history.
pub trait Told {
    ghost use Rattle.ol_values.specs.declared.history.Entry.{Entry};

    ghost history: { Self → List Entry };
}

/// What an opening found, which contracts alone read.
pub trait Opened {
    /// What the disk told as the command began: the byte of a chunk, a page and an offset.
    ghost bytes: { ℕ → ℕ → ℕ → ℕ };

    /// The number of the disk's last call then.
    ghost moment: { ℕ };

    /// Whether nothing that was written was unsynced then.
    ghost quiet: { Type 0 };

    /// The blocks of each volume of each drive that the shelf told then.
    ghost tapes: { List (List (List (List ℕ))) };
}
