//! One open transaction.

ghost use Rattle.std.specs.Prelude.{◌≡◌, ◌≤◌, ◌<◌, ◌+◌, ◌^◌, OnErr, OnOk, length, reverse};
ghost use Rattle.ol_rollfwd.specs.Losers.{begins_with, begun, is_newest, same_value, with_change, with_undo};

use crate::NoMemory;
use ol_values::{Rid, Row};
use std::alloc::Global;
use std::marker::Model;

/// A change: its place, and what was there before.
pub type Change = (Rid, Option<Row>);

/// An open transaction, and its changes that were not taken back.
#[derive(Drop)]
pub struct Loser {
    txn: u64,
    // The newest stands last.
    changes: Vec<Change>,
    undone: bool,
}

impl Model for Loser {
    ghost use Rattle.std.specs.Prelude.{reverse};
    ghost use Rattle.ol_rollfwd.specs.Losers.{Loser as LoserValue};

    ghost Value = { LoserValue };

    ghost view = { λ t. record { txn = t.txn; changes = reverse t.changes.items; undone = t.undone } };
}

impl Loser {
    /// A transaction that begins. It takes no memory.
    pub(crate) fn new(alloc: Global, txn: u64) -> Loser
        ensures { result ≡ begun txn }
    {
        Loser {
            txn,
            changes: Vec::new(alloc),
            undone: false,
        }
    }

    /// The transaction's number: the position of its Begin.
    pub fn txn(&self) -> u64
        ensures { result ≡ self.now.txn }
    {
        self.txn
    }

    /// The changes that were not taken back, the newest last. To take the transaction back, they are undone from the last on.
    pub fn changes(&self) -> &[Change]
        ensures { reverse result.now ≡ self.now.changes }
    {
        &self.changes
    }

    /// Whether a change was taken back.
    pub(crate) fn has_undone(&self) -> bool
        ensures { result ≡ self.now.undone }
    {
        self.undone
    }

    /// How many changes were not taken back.
    pub(crate) fn count(&self) -> usize
        ensures { result ≡ length self.now.changes }
    {
        self.changes.len()
    }

    /// Whether the newest change that was not taken back is of this place, and this was there before.
    pub(crate) fn is_newest(&self, rid: &Rid, value: &Option<Row>) -> bool
        ensures { result ≡ is_newest rid.now value.now self.now }
    {
        match self.changes.last() {
            Some((place, before)) => place == rid && same_value(before, value),
            None => false,
        }
    }

    /// Notes a change as the newest. `NoMemory` changes nothing.
    pub(crate) fn note(&mut self, rid: Rid, before: Option<Row>) -> Result<(), NoMemory>
        ensures ok { OnOk result (self.new ≡ with_change rid before self.old) }
        ensures unchanged { OnErr result (self.new ≡ self.old) }
    {
        self.changes.push((rid, before))?;
        Ok(())
    }

    /// Takes the newest change away, if there is one, and notes that one was taken back.
    pub(crate) fn take_back(&mut self)
        ensures { self.new ≡ with_undo self.old }
    {
        let _change = self.changes.pop();
        self.undone = true;
    }
}

/// Whether two slots hold the same.
pub(crate) fn same_value(one: &Option<Row>, other: &Option<Row>) -> bool
    ensures { result ≡ same_value one.now other.now }
{
    match (one, other) {
        (None, None) => true,
        (Some(one), Some(other)) => one.as_slice() == other.as_slice(),
        _ => false,
    }
}

/// The same again.
pub(crate) fn copy_value(value: &Option<Row>) -> Option<Row>
    ensures { result ≡ value.now }
{
    match value {
        Some(row) => Some(row.copy()),
        None => None,
    }
}
