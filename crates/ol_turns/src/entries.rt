//! The entries of a history, and the room that is made for them beforehand.

ghost use Rattle.std.specs.Prelude.{◌≡◌, ◌+◌, ◌<◌, ◌≤◌, ◌^◌, ◌++◌, ◌∷◌, [], length, OnErr, OnOk};

use crate::NoMemory;
use ol_values::Entry;
use std::alloc::{AllocError, Global};
use std::marker::Model;

// More entries than these are refused as memory is: so the numbers of log files, anchors and archives, which each entry raises by at most
// two, stay within their limits.
const LIMIT: u64 = 1 << 59;

/// The entries of a history in order. Contracts see the list of them, and how many can be pushed before memory is needed.
#[derive(Drop)]
pub struct Entries {
    entries: Vec<Entry>,
}

impl Model for Entries {
    ghost use Rattle.std.specs.Prelude.{◌-◌, ◌≤◌, ◌^◌, length, min};
    ghost use Rattle.std.specs.Vec.{vec_capacity, vec_len};
    ghost use Rattle.ol_turns.specs.Entries.{Noted};

    ghost Value = { Noted };

    ghost view = { λ e. record { entries = e.entries.items; spare = min (vec_capacity e.entries - vec_len e.entries) (2 ^ 59 - vec_len e.entries) } };
}

impl Entries {
    /// No entry yet, and no room for one. It takes no memory.
    pub fn new(alloc: Global) -> Entries
        ensures entries { result.entries ≡ [] }
        ensures spare { result.spare ≡ 0 }
    {
        Entries {
            entries: Vec::new(alloc),
        }
    }

    /// How many entries there is room for.
    pub fn room(&self) -> u64
        ensures value { result ≡ self.now.spare }
        ensures within { 0 < self.now.spare → length self.now.entries < 2 ^ 59 }
    {
        let len = self.entries.len() as u64;
        if len >= LIMIT {
            return 0;
        }
        (self.entries.capacity() as u64 - len).min(LIMIT - len)
    }

    /// Makes room for `n` entries more. An error comes only where there was less room than that, and changes nothing.
    pub fn reserve(&mut self, n: u64) -> Result<(), NoMemory>
        ensures entries { self.new.entries ≡ self.old.entries }
        ensures ok { OnOk result (n ≤ self.new.spare) }
        ensures short { OnOk result (0 < n → length self.new.entries < 2 ^ 59) }
        ensures err { OnErr result (self.new ≡ self.old) }
        ensures enough { OnErr result (self.old.spare < n) }
    {
        let len = self.entries.len() as u64;
        if n > LIMIT.saturating_sub(len) {
            return Err(AllocError);
        }
        self.entries.reserve(n as usize)
    }

    /// Appends an entry, where there is room for one. It takes no memory.
    pub fn push(&mut self, entry: Entry)
        requires { 0 < self.old.spare }
        ensures entries { self.new.entries ≡ self.old.entries ++ entry ∷ [] }
        ensures spare { self.new.spare + 1 ≡ self.old.spare }
    {
        self.entries.push_reserved(entry);
    }

    /// The entries in order.
    pub fn as_slice(&self) -> &[Entry]
        ensures { result.now ≡ self.now.entries }
    {
        &self.entries
    }
}
