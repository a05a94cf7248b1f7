//! What one session holds.

ghost use Rattle.std.specs.Prelude.{◌≡◌, ◌≤◌, ◌<◌, ◌^◌, None, IsSome, OnErr, OnOk, is_some, length};
ghost use Rattle.std.specs.Option.{option_map};
ghost use Rattle.ol_rules.specs.Locks.{in_way, lesser, owed_by_holding, owns, shares};
ghost use Rattle.ol_txn.specs.Seats.{begun_seat, empty_seat, forgotten_seat, has_undone, last_of, noted_seat, owned_more, pending_of, reserved_seat, shared_more, undone_seat};

use crate::NoMemory;
use indexmap::IndexSet;
use ol_values::{Rid, Row};
use std::alloc::Global;
use std::marker::Model;

/// What one session holds: nothing, or an open transaction with its locks and its changes that were
/// not taken back.
#[derive(Drop)]
pub struct Seat {
    txn: Option<u64>,
    undone: bool,
    // The newest stands last.
    pending: Vec<(Rid, Option<Row>)>,
    shared: IndexSet<Rid>,
    owned: IndexSet<Rid>,
    // Each of the three lists has places for so many more.
    spare: u32,
}

impl Model for Seat {
    ghost use Rattle.std.specs.Prelude.{vec_capacity, vec_len};
    ghost use Rattle.indexmap.specs.IndexSet as set;
    ghost use Rattle.ol_txn.specs.Seats.{Seat as SeatValue, HasSpare, IsClear, holding_from};

    ghost Value = { SeatValue };

    ghost view = { λ s. record { holding = holding_from s.txn s.undone s.pending.items s.shared.keys s.owned.keys; spare = s.spare } };

    ghost invariant = { λ s. IsClear s.txn s.pending.items s.shared.keys s.owned.keys × HasSpare s.spare (vec_len s.pending) (vec_capacity s.pending) (set.spare s.shared) (set.spare s.owned) };
}

impl Seat {
    /// A session that holds nothing. It takes no memory.
    pub fn new(alloc: Global) -> Seat
        ensures { result ≡ empty_seat }
    {
        Seat {
            txn: None,
            undone: false,
            pending: Vec::new(alloc),
            shared: IndexSet::new(alloc),
            owned: IndexSet::new(alloc),
            spare: 0,
        }
    }

    /// Whether a transaction is open.
    pub fn is_open(&self) -> bool
        ensures { result ≡ is_some self.now.holding }
    {
        self.txn.is_some()
    }

    /// The number of the open transaction.
    pub fn txn(&self) -> Option<u64>
        ensures { result ≡ option_map (λ h. h.number) self.now.holding }
    {
        self.txn
    }

    /// Whether the open transaction took a change back.
    pub fn has_undone(&self) -> bool
        ensures { result ≡ has_undone self.now.holding }
    {
        self.txn.is_some() && self.undone
    }

    /// How many locks and changes more fit with no memory taken.
    pub fn spare(&self) -> u32
        ensures { result ≡ self.now.spare }
    {
        self.spare
    }

    /// How many changes were not taken back.
    pub fn pending(&self) -> usize
        ensures value { result ≡ length (pending_of self.now.holding) }
        ensures limit { result ≤ owed_by_holding self.now.holding }
    {
        self.pending.len()
    }

    /// The newest change that was not taken back.
    pub fn last(&self) -> Option<(Rid, Option<Row>)>
        ensures { result ≡ last_of self.now }
    {
        let (rid, before) = self.pending.last()?;
        match before {
            Some(row) => Some((*rid, Some(row.copy()))),
            None => Some((*rid, None)),
        }
    }

    /// Whether the slot is owned.
    pub fn owns(&self, rid: Rid) -> bool
        ensures { result ≡ owns rid self.now.holding }
    {
        self.owned.contains(&rid)
    }

    /// Whether the slot is shared.
    pub fn shares(&self, rid: Rid) -> bool
        ensures { result ≡ shares rid self.now.holding }
    {
        self.shared.contains(&rid)
    }

    /// Whether the session stands in the way of another that would own the slot, or else share it.
    pub fn is_in_way(&self, own: bool, rid: Rid) -> bool
        ensures { result ≡ in_way own rid self.now.holding }
    {
        self.owns(rid) || (own && self.shares(rid))
    }

    /// The records that the transaction owes the journal: one for its end, and one for each pending
    /// change.
    pub fn owed(&self) -> u64
        requires { owed_by_holding self.now.holding < 2 ^ 63 }
        ensures { result ≡ owed_by_holding self.now.holding }
    {
        match self.txn {
            Some(_) => 1 + self.pending.len() as u64,
            None => 0,
        }
    }

    /// The lesser of a number and that of the transaction, where there are both.
    pub fn lesser(&self, best: Option<u64>) -> Option<u64>
        ensures { result ≡ lesser best self.now.holding }
    {
        match (best, self.txn) {
            (Some(number), Some(txn)) => Some(number.min(txn)),
            (None, txn) => txn,
            (best, None) => best,
        }
    }

    /// Opens a transaction. It takes no memory.
    pub fn begin(&mut self, txn: u64)
        requires { self.old.holding ≡ None }
        ensures { self.new ≡ begun_seat txn self.old }
    {
        self.txn = Some(txn);
        self.undone = false;
    }

    /// Shares the slot. `NoMemory` comes only where nothing was spare, and changes nothing.
    pub fn share(&mut self, rid: Rid) -> Result<(), NoMemory>
        requires { IsSome self.old.holding }
        ensures ok { OnOk result (self.new ≡ shared_more rid self.old) }
        ensures memory { OnErr result (self.old.spare ≡ 0) }
        ensures unchanged { OnErr result (self.new ≡ self.old) }
    {
        if !self.shared.contains(&rid) {
            self.shared.insert(rid)?;
            self.spare = self.spare.saturating_sub(1);
        }
        Ok(())
    }

    /// Owns the slot. `NoMemory` comes only where nothing was spare, and changes nothing.
    pub fn own(&mut self, rid: Rid) -> Result<(), NoMemory>
        requires { IsSome self.old.holding }
        ensures ok { OnOk result (self.new ≡ owned_more rid self.old) }
        ensures memory { OnErr result (self.old.spare ≡ 0) }
        ensures unchanged { OnErr result (self.new ≡ self.old) }
    {
        if !self.owned.contains(&rid) {
            self.owned.insert(rid)?;
            self.spare = self.spare.saturating_sub(1);
        }
        Ok(())
    }

    /// Notes a change as the newest. `NoMemory` comes only where nothing was spare, and changes
    /// nothing.
    pub fn note(&mut self, rid: Rid, before: Option<Row>) -> Result<(), NoMemory>
        requires { IsSome self.old.holding }
        ensures ok { OnOk result (self.new ≡ noted_seat (rid, before) self.old) }
        ensures memory { OnErr result (self.old.spare ≡ 0) }
        ensures unchanged { OnErr result (self.new ≡ self.old) }
    {
        self.pending.push((rid, before))?;
        self.spare = self.spare.saturating_sub(1);
        Ok(())
    }

    /// Makes room for `n` more locks or changes. `NoMemory` comes only where fewer were spare, and
    /// changes nothing.
    pub fn reserve(&mut self, n: u32) -> Result<(), NoMemory>
        ensures ok { OnOk result (self.new ≡ reserved_seat n self.old) }
        ensures memory { OnErr result (self.old.spare < n) }
        ensures unchanged { OnErr result (self.new ≡ self.old) }
    {
        self.pending.reserve(n as usize)?;
        self.shared.reserve(n as usize)?;
        self.owned.reserve(n as usize)?;
        self.spare = self.spare.max(n);
        Ok(())
    }

    /// Takes the newest change away, and notes that one was taken back.
    pub fn undone(&mut self)
        requires { 0 < length (pending_of self.old.holding) }
        ensures { self.new ≡ undone_seat self.old }
    {
        self.pending.pop();
        self.undone = true;
    }

    /// Ends the transaction, if one is open. The room of the lists stays.
    pub fn forget(&mut self)
        ensures { self.new ≡ forgotten_seat self.old }
    {
        self.txn = None;
        self.pending.clear();
        self.shared.clear();
        self.owned.clear();
    }
}
