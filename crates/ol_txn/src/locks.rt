//! The locks and pending changes of all sessions.

ghost use Rattle.std.specs.Prelude.{◌≡◌, ◌≤◌, ◌<◌, ◌^◌, Err, IsOk, None, OnErr, OnOk, false, is_some, length, true};
ghost use Rattle.std.specs.Option.{option_map};
ghost use Rattle.ol_rules.specs.Locks.{holder_of, is_locked, low_in, owed_by_holding, owed_in};
ghost use Rattle.ol_txn.specs.Faults.{held_by};
ghost use Rattle.ol_txn.specs.Seats.{HasTxn, IsSession, begun_seat, forgotten_seat, has_undone, last_of, no_locks, noted_seat, owned_more, pending_of, reserved_seat, seat_of, shared_more, table_of, undone_seat, with_seat};

use crate::NoMemory;
use crate::fault::LockFault;
use crate::seat::Seat;
use ol_values::{Rid, Row};
use std::alloc::Global;
use std::marker::Model;

/// How many sessions there are.
const SESSIONS: usize = 16;

/// The row locks and pending changes of the sessions, which count from 1 to 16.
#[derive(Drop)]
pub struct Locks {
    seats: [Seat; SESSIONS],
}

impl Model for Locks {
    ghost use Rattle.std.specs.Prelude.{◌≡◌, ◌≤◌, ◌^◌, List, length};
    ghost use Rattle.ol_rules.specs.Locks.{owed_in};
    ghost use Rattle.ol_txn.specs.Seats.{Seat as SeatValue, table_of};

    ghost Value = { List SeatValue };

    ghost view = { λ l. l.seats };

    ghost invariant = { λ l. (length l.seats ≡ 16) × (owed_in (table_of l.seats) ≤ 2 ^ 62) };
}

impl Locks {
    /// No transaction is open. It takes no memory.
    pub fn new(alloc: Global) -> Locks
        ensures { result ≡ no_locks }
    {
        Locks {
            seats: std::array::from_fn(|_| Seat::new(alloc)),
        }
    }

    // What a session holds.
    fn seat(&self, session: u8) -> &Seat
        requires { IsSession session }
        ensures value { result.now ≡ seat_of self.now session }
        ensures sessions { length self.now ≡ 16 }
        ensures owed { owed_by_holding result.now.holding ≤ 2 ^ 62 }
    {
        &self.seats[session as usize - 1]
    }

    /// Whether the session has an open transaction.
    pub fn is_open(&self, session: u8) -> bool
        requires { IsSession session }
        ensures value { result ≡ is_some (seat_of self.now session).holding }
        ensures sessions { length self.now ≡ 16 }
    {
        self.seat(session).is_open()
    }

    /// The number of the session's open transaction.
    pub fn txn(&self, session: u8) -> Option<u64>
        requires { IsSession session }
        ensures { result ≡ option_map (λ h. h.number) (seat_of self.now session).holding }
    {
        self.seat(session).txn()
    }

    /// Whether the session's open transaction took a change back.
    pub fn has_undone(&self, session: u8) -> bool
        requires { IsSession session }
        ensures { result ≡ has_undone (seat_of self.now session).holding }
    {
        self.seat(session).has_undone()
    }

    /// How many locks and changes more the session can hold with no memory taken.
    pub fn spare(&self, session: u8) -> u32
        requires { IsSession session }
        ensures { result ≡ (seat_of self.now session).spare }
    {
        self.seat(session).spare()
    }

    /// How many changes of the session's transaction were not taken back; at most 2 to the 62nd power.
    pub fn pending(&self, session: u8) -> usize
        requires { IsSession session }
        ensures limit { result ≤ 2 ^ 62 }
        ensures value { result ≡ length (pending_of (seat_of self.now session).holding) }
    {
        self.seat(session).pending()
    }

    /// The newest change of the session's transaction that was not taken back: its slot, and what that
    /// held before.
    pub fn last(&self, session: u8) -> Option<(Rid, Option<Row>)>
        requires { IsSession session }
        ensures { result ≡ last_of (seat_of self.now session) }
    {
        self.seat(session).last()
    }

    /// The least other session in this one's way: one that owns the slot or, where this one is to `own`
    /// it, shares it.
    pub fn holder(&self, session: u8, rid: Rid, own: bool) -> Option<u8>
        ensures { result ≡ holder_of (table_of self.now) session rid own }
    {
        for other in 1..=SESSIONS as u8 {
            if other != session && self.seat(other).is_in_way(own, rid) {
                return Some(other);
            }
        }
        None
    }

    /// Whether any session shares or owns the slot.
    pub fn locked(&self, rid: Rid) -> bool
        ensures { result ≡ is_locked (table_of self.now) rid }
    {
        self.seats
            .iter()
            .any(|seat| seat.owns(rid) || seat.shares(rid))
    }

    /// The records that the open transactions owe the journal: for each, one for its end and one for
    /// each pending change.
    pub fn owed(&self) -> u64
        ensures value { result ≡ owed_in (table_of self.now) }
        ensures limit { result ≤ 2 ^ 62 }
    {
        let mut owed = 0;
        for seat in &self.seats {
            owed += seat.owed();
        }
        owed
    }

    /// The least number of an open transaction.
    pub fn low(&self) -> Option<u64>
        ensures { result ≡ low_in (table_of self.now) }
    {
        let mut low = None;
        for seat in &self.seats {
            low = seat.lesser(low);
        }
        low
    }

    /// Opens a transaction of the session. It takes no memory, and always succeeds.
    pub fn begin(&mut self, session: u8, txn: u64) -> Result<(), NoMemory>
        requires session { IsSession session }
        requires idle { (seat_of self.old session).holding ≡ None }
        requires owed { owed_in (table_of self.old) < 2 ^ 62 }
        ensures begun { self.new ≡ with_seat self.old session (begun_seat txn (seat_of self.old session)) }
        ensures ok { IsOk result }
    {
        self.seats[session as usize - 1].begin(txn);
        Ok(())
    }

    /// Shares the slot for the session's transaction, unless another session owns it.
    ///
    /// # Errors
    ///
    /// `Held` exactly where another session owns the slot, with the least such; `NoMemory` where memory
    /// was refused, which comes only where the session had nothing spare. Both change nothing.
    pub fn try_share(&mut self, session: u8, rid: Rid) -> Result<(), LockFault>
        requires session { IsSession session }
        requires txn { HasTxn self.old session }
        ensures held { held_by result ≡ holder_of (table_of self.old) session rid false }
        ensures ok { OnOk result (self.new ≡ with_seat self.old session (shared_more rid (seat_of self.old session))) }
        ensures memory { result ≡ Err LockFault.NoMemory → (seat_of self.old session).spare ≡ 0 }
        ensures unchanged { OnErr result (self.new ≡ self.old) }
    {
        if let Some(holder) = self.holder(session, rid, false) {
            return Err(LockFault::Held { holder });
        }
        match self.seats[session as usize - 1].share(rid) {
            Ok(()) => Ok(()),
            Err(_) => Err(LockFault::NoMemory),
        }
    }

    /// Owns the slot for the session's transaction, unless another session shares or owns it.
    ///
    /// # Errors
    ///
    /// `Held` exactly where another session shares or owns the slot, with the least such; `NoMemory`
    /// where memory was refused, which comes only where the session had nothing spare. Both change
    /// nothing.
    pub fn try_own(&mut self, session: u8, rid: Rid) -> Result<(), LockFault>
        requires session { IsSession session }
        requires txn { HasTxn self.old session }
        ensures held { held_by result ≡ holder_of (table_of self.old) session rid true }
        ensures ok { OnOk result (self.new ≡ with_seat self.old session (owned_more rid (seat_of self.old session))) }
        ensures memory { result ≡ Err LockFault.NoMemory → (seat_of self.old session).spare ≡ 0 }
        ensures unchanged { OnErr result (self.new ≡ self.old) }
    {
        if let Some(holder) = self.holder(session, rid, true) {
            return Err(LockFault::Held { holder });
        }
        match self.seats[session as usize - 1].own(rid) {
            Ok(()) => Ok(()),
            Err(_) => Err(LockFault::NoMemory),
        }
    }

    /// Notes a change of the session's transaction as its newest: the slot, and what that held before.
    ///
    /// # Errors
    ///
    /// `NoMemory` where memory was refused, which comes only where the session had nothing spare, and
    /// changes nothing.
    pub fn note(&mut self, session: u8, rid: Rid, before: Option<Row>) -> Result<(), NoMemory>
        requires session { IsSession session }
        requires txn { HasTxn self.old session }
        requires owed { owed_in (table_of self.old) < 2 ^ 62 }
        ensures ok { OnOk result (self.new ≡ with_seat self.old session (noted_seat (rid, before) (seat_of self.old session))) }
        ensures memory { OnErr result ((seat_of self.old session).spare ≡ 0) }
        ensures unchanged { OnErr result (self.new ≡ self.old) }
    {
        self.seats[session as usize - 1].note(rid, before)
    }

    /// Makes room for `n` more locks or changes of the session; where so many are spare, nothing
    /// changes.
    ///
    /// # Errors
    ///
    /// `NoMemory` where memory was refused, which comes only where fewer were spare, and changes
    /// nothing.
    pub fn reserve(&mut self, session: u8, n: u32) -> Result<(), NoMemory>
        requires { IsSession session }
        ensures ok { OnOk result (self.new ≡ with_seat self.old session (reserved_seat n (seat_of self.old session))) }
        ensures memory { OnErr result ((seat_of self.old session).spare < n) }
        ensures unchanged { OnErr result (self.new ≡ self.old) }
    {
        self.seats[session as usize - 1].reserve(n)
    }

    /// Takes back the newest change of the session's transaction, of which it has one.
    pub fn undone(&mut self, session: u8)
        requires session { IsSession session }
        requires pending { 0 < length (pending_of (seat_of self.old session).holding) }
        ensures { self.new ≡ with_seat self.old session (undone_seat (seat_of self.old session)) }
    {
        self.seats[session as usize - 1].undone();
    }

    /// Ends the session's transaction, if one is open: its locks and changes are gone, and their room
    /// stays.
    pub fn forget(&mut self, session: u8)
        requires { IsSession session }
        ensures { self.new ≡ with_seat self.old session (forgotten_seat (seat_of self.old session)) }
    {
        self.seats[session as usize - 1].forget();
    }
}
