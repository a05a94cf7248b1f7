//! All open transactions.

ghost use Rattle.std.specs.Prelude.{[], ◌≡◌, ◌≤◌, ◌<◌, ◌+◌, ◌^◌, ◌++◌, ◌∷◌, ◌==◌, IfOk, IfSome, OnErr, OnOk, length, nat_lt, position};
ghost use Rattle.ol_rollfwd.specs.Losers.{at_loser, begun, is_forward, is_newest, is_one, is_taken_back, loser_numbered, losers_after, owed_by_one, owed_of, with_change, with_undo, without_loser};
ghost use Rattle.ol_rollfwd.specs.Losers.{Loser as LoserValue};

use crate::NoMemory;
use crate::loser::{Loser, copy_value};
use ol_values::{Record, Rid, Row};
use std::alloc::Global;
use std::marker::Model;

/// The most transactions that are open at once.
pub const OPEN_LIMIT: usize = 16;

/// The open transactions in the order of their Begins.
#[derive(Drop)]
pub struct Losers {
    items: Vec<Loser>,
    // What all of them owe.
    owed: u64,
    alloc: Global,
}

impl Model for Losers {
    ghost use Rattle.std.specs.Prelude.{List, ◌≡◌};
    ghost use Rattle.ol_rollfwd.specs.Losers.{Loser as LoserValue, owed_of};

    ghost Value = { List LoserValue };

    ghost view = { λ l. l.items.items };

    ghost invariant = { λ l. l.owed ≡ owed_of l.items.items };
}

impl Losers {
    /// No transaction, with room for as many as may be open.
    pub fn new(alloc: Global) -> Result<Losers, NoMemory>
        ensures { IfOk result (λ losers. losers ≡ []) }
    {
        let items = Vec::with_capacity(alloc, OPEN_LIMIT)?;
        Ok(Losers {
            items,
            owed: 0,
            alloc,
        })
    }

    /// The transactions.
    pub fn as_slice(&self) -> &[Loser]
        ensures { result.now ≡ self.now }
    {
        &self.items
    }

    /// What all of them owe.
    pub fn owed(&self) -> u64
        ensures { result ≡ owed_of self.now }
    {
        self.owed
    }

    /// Whether one more may be open.
    pub fn has_room(&self) -> bool
        ensures { result ≡ nat_lt (length self.now) 16 }
    {
        self.items.len() < OPEN_LIMIT
    }

    /// Whether the transaction is open, and took nothing back.
    pub fn is_forward(&self, txn: u64) -> bool
        ensures { result ≡ is_one (loser_numbered txn self.now) is_forward }
    {
        match index_of(&self.items, txn) {
            Some(at) => !self.items[at].has_undone(),
            None => false,
        }
    }

    /// Whether the transaction is open, and this is its newest change not taken back.
    pub fn is_newest(&self, txn: u64, rid: &Rid, value: &Option<Row>) -> bool
        ensures { result ≡ is_one (loser_numbered txn self.now) (is_newest rid.now value.now) }
    {
        match index_of(&self.items, txn) {
            Some(at) => self.items[at].is_newest(rid, value),
            None => false,
        }
    }

    /// Whether the transaction is open, and took all its changes back.
    pub fn is_taken_back(&self, txn: u64) -> bool
        ensures { result ≡ is_one (loser_numbered txn self.now) is_taken_back }
    {
        match index_of(&self.items, txn) {
            Some(at) => self.items[at].count() == 0,
            None => false,
        }
    }

    /// What the transaction owes; 0 where it is not open.
    fn owed_by(&self, txn: u64) -> u64
        requires { owed_of self.now < 2 ^ 62 }
        ensures value { result ≡ owed_by_one (loser_numbered txn self.now) }
        ensures limit { result ≤ owed_of self.now }
    {
        match index_of(&self.items, txn) {
            Some(at) => 1 + self.items[at].count() as u64,
            None => 0,
        }
    }

    /// What all of them owe behind a record.
    pub fn owed_after(&self, rec: &Record) -> u64
        requires { owed_of self.now < 2 ^ 62 }
        ensures value { result ≡ owed_of (losers_after self.now rec.now) }
        ensures limit { result ≤ owed_of self.now + 1 }
    {
        match rec {
            Record::Begin { .. } => self.owed + 1,
            Record::Change { txn, .. } => self.owed + self.owed_by(*txn).min(1),
            Record::Undo { txn, .. } => { self.owed - self.owed_by(*txn).saturating_sub(1).min(1) }
            Record::Commit { txn } => self.owed - self.owed_by(*txn),
            Record::Rolled { txn } => self.owed - self.owed_by(*txn),
        }
    }

    /// Notes what a record makes of them. `NoMemory` comes with a Begin or a Change alone, and changes nothing.
    pub fn note(&mut self, rec: &Record) -> Result<(), NoMemory>
        requires { owed_of self.old < 2 ^ 62 }
        ensures ok { OnOk result (self.new ≡ losers_after self.old rec.now) }
        ensures unchanged { OnErr result (self.new ≡ self.old) }
    {
        let owed = self.owed_after(rec);
        note(&mut self.items, self.alloc, rec)?;
        self.owed = owed;
        Ok(())
    }
}

/// The index of the transaction of this number.
fn index_of(losers: &[Loser], txn: u64) -> Option<usize>
    ensures value { result ≡ position (λ (t : LoserValue). t.txn == txn) losers.now }
    ensures bound { IfSome result (λ at. at < length losers.now) }
{
    losers.iter().position(|t| t.txn() == txn)
}

/// Notes what a record makes of open transactions.
fn note(losers: &mut Vec<Loser>, alloc: Global, rec: &Record) -> Result<(), NoMemory>
    ensures ok { OnOk result (losers.new.items ≡ losers_after losers.old.items rec.now) }
    ensures unchanged { OnErr result (losers.new.items ≡ losers.old.items) }
{
    match rec {
        Record::Begin { txn } => begin(losers, alloc, *txn),
        Record::Change {
            txn,
            rid,
            before,
            ..
        } => change(losers, *txn, *rid, before),
        Record::Undo { txn, .. } => {
            undo(losers, *txn);
            Ok(())
        }
        Record::Commit { txn } => {
            end(losers, *txn);
            Ok(())
        }
        Record::Rolled { txn } => {
            end(losers, *txn);
            Ok(())
        }
    }
}

/// A transaction begins.
fn begin(losers: &mut Vec<Loser>, alloc: Global, txn: u64) -> Result<(), NoMemory>
    ensures ok { OnOk result (losers.new.items ≡ losers.old.items ++ begun txn ∷ []) }
    ensures unchanged { OnErr result (losers.new.items ≡ losers.old.items) }
{
    losers.push(Loser::new(alloc, txn))?;
    Ok(())
}

/// A transaction makes a change.
fn change(losers: &mut Vec<Loser>, txn: u64, rid: Rid, before: &Option<Row>) -> Result<(), NoMemory>
    ensures ok { OnOk result (losers.new.items ≡ at_loser txn (with_change rid before.now) losers.old.items) }
    ensures unchanged { OnErr result (losers.new.items ≡ losers.old.items) }
{
    let Some(at) = index_of(losers, txn) else {
        return Ok(());
    };
    losers[at].note(rid, copy_value(before))
}

/// A transaction takes its newest change back.
fn undo(losers: &mut Vec<Loser>, txn: u64)
    ensures { losers.new.items ≡ at_loser txn with_undo losers.old.items }
{
    if let Some(at) = index_of(losers, txn) {
        losers[at].take_back();
    }
}

/// A transaction ends.
fn end(losers: &mut Vec<Loser>, txn: u64)
    ensures { losers.new.items ≡ without_loser txn losers.old.items }
{
    if let Some(at) = index_of(losers, txn) {
        let _ended = losers.remove(at);
    }
}
