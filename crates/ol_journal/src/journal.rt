//! The kept records, and the room that is made for them beforehand.

ghost use Rattle.std.specs.Prelude.{◌≡◌, ◌+◌, ◌<◌, ◌≤◌, ◌++◌, ◌∷◌, [], length, IsOk, OnOk, OnErr};

use crate::NoMemory;
use ol_values::Record;
use std::alloc::Global;
use std::marker::Model;

/// The records of one session of the engine in order. Contracts see the position of the first one, the
/// list of them, and how many can be pushed before memory is needed.
#[derive(Debug, Drop)]
pub struct Journal {
    first: u64,
    records: Vec<Record>,
}

impl Model for Journal {
    ghost use Rattle.std.specs.Prelude.{◌-◌};
    ghost use Rattle.std.specs.Vec.{vec_capacity, vec_len};
    ghost use Rattle.ol_journal.specs.Kept.{Kept};

    ghost Value = { Kept };

    ghost view = { λ j. record { first = j.first; records = j.records.items; spare = vec_capacity j.records - vec_len j.records } };
}

impl Journal {
    /// No record yet, and no room for one. `first` is the position that the first record will have. It
    /// takes no memory.
    pub fn new(alloc: Global, first: u64) -> Journal
        ensures first { result.first ≡ first }
        ensures records { result.records ≡ [] }
        ensures spare { result.spare ≡ 0 }
    {
        Journal {
            first,
            records: Vec::new(alloc),
        }
    }

    /// Makes room for `n` records more. An error comes only where there was less room than that, and changes
    /// nothing.
    pub fn reserve(&mut self, n: u32) -> Result<(), NoMemory>
        ensures first { self.new.first ≡ self.old.first }
        ensures records { self.new.records ≡ self.old.records }
        ensures ok { OnOk result (n ≤ self.new.spare) }
        ensures spare { self.old.spare ≤ self.new.spare }
        ensures enough { n ≤ self.old.spare → IsOk result }
        ensures err { OnErr result (self.new ≡ self.old) }
    {
        self.records.reserve(n as usize)
    }

    /// Appends a record, where there is room for one. It takes no memory.
    pub fn push(&mut self, rec: Record)
        requires { 0 < self.old.spare }
        ensures first { self.new.first ≡ self.old.first }
        ensures records { self.new.records ≡ self.old.records ++ rec ∷ [] }
        ensures spare { self.new.spare + 1 ≡ self.old.spare }
    {
        self.records.push_reserved(rec);
    }

    /// How many records are kept.
    pub fn len(&self) -> u64
        ensures { result ≡ length self.now.records }
    {
        self.records.len() as u64
    }

    /// The position of the first record that is kept, or will be.
    pub fn first(&self) -> u64
        ensures { result ≡ self.now.first }
    {
        self.first
    }
}
