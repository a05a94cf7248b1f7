//! The roll forward, one record at a time.

ghost use Rattle.std.specs.Prelude.{◌≡◌, ◌≤◌, ◌<◌, ◌+◌, ◌^◌, IfOk, IfSome, IsErrOf, OnErr, OnOk, false, fold, length, true, ℕ};
ghost use Rattle.ol_values.specs.Config.{has_place};
ghost use Rattle.ol_rollfwd.specs.Losers.{is_one, loser_numbered, owed_of};
ghost use Rattle.ol_rollfwd.specs.Rolls.{after, applied, due_place, has_room, is_begin, is_below, is_due, is_in_place, is_passed, keeps_rules, least_cut, lesser, place_due, place_moved, rolling, row_left, txn_of};

use crate::NoMemory;
use crate::fault::RollFault;
use crate::loser::{Loser, copy_value, same_value};
use crate::losers::Losers;
use ol_chunks::ChunkTable;
use ol_values::{Record, Rid, Row};
use std::alloc::Global;
use std::marker::Model;

/// The spaces that a configuration may have.
pub const CUTS: usize = 16;

/// The slots of a page.
const SLOTS: u8 = 31;

/// A record's position and what is owed behind it are below 2^62 together.
const END: u64 = 4611686018427387904;

/// Rolls the records of the log forward, one at a time in order of position: says of each whether it is out of place, and
/// whether it is applied to its page, and keeps the open transactions. The pages are its caller's.
#[derive(Drop)]
pub struct Roll {
    table: ChunkTable,
    low: u64,
    // By space.
    cuts: [Option<u64>; CUTS],
    least: u64,
    next: u64,
    losers: Losers,
}

impl Model for Roll {
    ghost use Rattle.std.specs.Prelude.{◌<◌, ◌^◌};
    ghost use Rattle.ol_rollfwd.specs.Losers.{owed_of};
    ghost use Rattle.ol_rollfwd.specs.Rolls.{Roll as RollValue};

    ghost Value = { RollValue };

    ghost view = { λ r. record { config = r.table; low = r.low; cuts = r.cuts; least = r.least; next = r.next; losers = r.losers } };

    ghost invariant = { λ r. owed_of r.losers < 2 ^ 62 };
}

impl Roll {
    /// Begins before the record at position `low`, with no transaction open. `cuts` has for each space by its number the position
    /// up to which its pages have the records, and None for a space that gets no records. `NoMemory` comes where the room
    /// for open transactions was refused.
    pub fn new(
        alloc: Global,
        table: &ChunkTable,
        low: u64,
        cuts: [Option<u64>; CUTS],
    ) -> Result<Roll, NoMemory>
        ensures { IfOk result (λ roll. roll ≡ rolling table.now low cuts) }
    {
        let losers = Losers::new(alloc)?;
        Ok(Roll {
            table: table.copy(),
            low,
            cuts,
            least: least_cut(&cuts),
            next: low,
            losers,
        })
    }

    /// The next position.
    pub fn next(&self) -> u64
        ensures { result ≡ self.now.next }
    {
        self.next
    }

    /// The records that the open transactions owe the journal: for each one for its end, and one for each change not taken back.
    pub fn owed(&self) -> u64
        ensures value { result ≡ owed_of self.now.losers }
        ensures limit { result < 2 ^ 62 }
    {
        self.losers.owed()
    }

    /// The open transactions in the order of their Begins, and so in ascending number. Behind the last record these did not end.
    pub fn losers(&self) -> &[Loser]
        ensures { result.now ≡ self.now.losers }
    {
        self.losers.as_slice()
    }

    /// The place that the next record changes, where it is applied: where the pages of its space lack it. None, too, where the
    /// configuration does not have the place.
    pub fn place_moved(&self, rec: &Record) -> Option<Rid>
        ensures value { result ≡ place_moved self.now rec.now }
        ensures there { IfSome result (λ rid. has_place self.now.config rid ≡ true) }
    {
        if self.is_passed(rec) {
            return None;
        }
        match rec {
            Record::Begin { .. } => None,
            Record::Change { rid, .. } => self.due_place(*rid),
            Record::Undo { rid, .. } => self.due_place(*rid),
            Record::Commit { .. } => None,
            Record::Rolled { .. } => None,
        }
    }

    /// Takes the next record. `held` is what the slot holds that it changes, where `place_moved` names one; else it is not looked
    /// at. Answers the place and its new row, where the record is applied.
    ///
    /// # Errors
    ///
    /// `OutOfPlace` with the record's position, exactly where the record is out of place; `NoMemory` where memory was refused.
    /// Both change nothing.
    pub fn take(
        &mut self,
        rec: &Record,
        held: &Option<Row>,
    ) -> Result<Option<(Rid, Option<Row>)>, RollFault>
        requires position { self.old.next < 2 ^ 62 }
        ensures ok { OnOk result (is_in_place self.old held.now rec.now ≡ true) }
        ensures step { OnOk result (self.new ≡ after self.old rec.now) }
        ensures applied { IfOk result (λ moved. moved ≡ applied self.old rec.now) }
        ensures position { (position : ℕ) → IsErrOf result (RollFault.OutOfPlace position) → position ≡ self.old.next }
        ensures out { (position : ℕ) → IsErrOf result (RollFault.OutOfPlace position) → is_in_place self.old held.now rec.now ≡ false }
        ensures memory { IsErrOf result RollFault.NoMemory → is_in_place self.old held.now rec.now ≡ true }
        ensures unchanged { OnErr result (self.new ≡ self.old) }
    {
        if !self.is_in_place(rec, held) {
            return Err(RollFault::OutOfPlace {
                position: self.next,
            });
        }
        let moved = self.applied(rec);
        self.go_on(rec)?;
        Ok(moved)
    }

    // Whether the next record is in place.
    fn is_in_place(&self, rec: &Record, held: &Option<Row>) -> bool
        requires { self.now.next < 2 ^ 62 }
        ensures { result ≡ is_in_place self.now held.now rec.now }
    {
        self.is_passed(rec)
            || (self.keeps_rules(rec, held) && self.has_room(self.losers.owed_after(rec)))
    }

    // Goes on behind a record that is in place.
    fn go_on(&mut self, rec: &Record) -> Result<(), NoMemory>
        requires position { self.old.next < 2 ^ 62 }
        requires room { owed_of (after self.old rec.now).losers < 2 ^ 62 }
        ensures ok { OnOk result (self.new ≡ after self.old rec.now) }
        ensures unchanged { OnErr result (self.new ≡ self.old) }
    {
        if self.is_passed(rec) {
            self.next += 1;
            return Ok(());
        }
        self.losers.note(rec)?;
        self.next += 1;
        Ok(())
    }

    // Whether the next record is passed over.
    fn is_passed(&self, rec: &Record) -> bool
        ensures { result ≡ is_passed self.now rec.now }
    {
        !is_begin(rec) && txn_of(rec) < self.low && self.next <= self.least
    }

    // Whether the pages of a space lack the next record.
    fn is_due(&self, space: u8) -> bool
        ensures { result ≡ is_due self.now space }
    {
        match self.cuts.get(usize::from(space)).copied().unwrap_or(None) {
            Some(cut) => cut < self.next,
            None => false,
        }
    }

    // Whether the configuration has a place.
    fn has_place(&self, rid: Rid) -> bool
        ensures { result ≡ has_place self.now.config rid }
    {
        rid.space < self.table.spaces()
            && u32::from(rid.page) < self.table.pages(rid.space)
            && rid.slot < SLOTS
    }

    // A place that is there and due.
    fn due_place(&self, rid: Rid) -> Option<Rid>
        ensures value { result ≡ due_place self.now rid }
        ensures there { IfSome result (λ place. has_place self.now.config place ≡ true) }
    {
        if self.is_due(rid.space) && self.has_place(rid) {
            Some(rid)
        } else {
            None
        }
    }

    // The place and its new row, where the next record is applied.
    fn applied(&self, rec: &Record) -> Option<(Rid, Option<Row>)>
        ensures { result ≡ applied self.now rec.now }
    {
        match self.place_moved(rec) {
            Some(rid) => Some((rid, row_left(rec))),
            None => None,
        }
    }

    // Whether the next record keeps the rules of its kind.
    fn keeps_rules(&self, rec: &Record, held: &Option<Row>) -> bool
        ensures { result ≡ keeps_rules self.now held.now rec.now }
    {
        match rec {
            Record::Begin { txn } => *txn == self.next && self.losers.has_room(),
            Record::Change {
                txn,
                rid,
                before,
                ..
            } => {
                self.losers.is_forward(*txn)
                    && self.has_place(*rid)
                    && (!self.is_due(rid.space) || same_value(before, held))
            }
            Record::Undo { txn, rid, value } => {
                self.losers.is_newest(*txn, rid, value) && self.has_place(*rid)
            }
            Record::Commit { txn } => self.losers.is_forward(*txn),
            Record::Rolled { txn } => self.losers.is_taken_back(*txn),
        }
    }

    // Whether the log pages have room for this, and the positions do not end.
    fn has_room(&self, due: u64) -> bool
        requires position { self.now.next < 2 ^ 62 }
        requires due { due < 2 ^ 63 }
        ensures { result ≡ has_room self.now due }
    {
        let logs = self.table.logs();
        due <= u64::from(logs.count * logs.pages) && self.next + due < END
    }
}

/// Whether a record is a Begin.
fn is_begin(rec: &Record) -> bool
    ensures { result ≡ is_begin rec.now }
{
    match rec {
        Record::Begin { .. } => true,
        Record::Change { .. } => false,
        Record::Undo { .. } => false,
        Record::Commit { .. } => false,
        Record::Rolled { .. } => false,
    }
}

/// The transaction of a record.
fn txn_of(rec: &Record) -> u64
    ensures { result ≡ txn_of rec.now }
{
    match rec {
        Record::Begin { txn } => *txn,
        Record::Change { txn, .. } => *txn,
        Record::Undo { txn, .. } => *txn,
        Record::Commit { txn } => *txn,
        Record::Rolled { txn } => *txn,
    }
}

/// What a record leaves in the slot that it changes.
fn row_left(rec: &Record) -> Option<Row>
    ensures { result ≡ row_left rec.now }
{
    match rec {
        Record::Begin { .. } => None,
        Record::Change { after, .. } => copy_value(after),
        Record::Undo { value, .. } => copy_value(value),
        Record::Commit { .. } => None,
        Record::Rolled { .. } => None,
    }
}

/// The lesser of two cuts, where there are both.
fn lesser(least: Option<u64>, cut: Option<u64>) -> Option<u64>
    ensures { result ≡ lesser least cut }
{
    match (least, cut) {
        (Some(least), Some(cut)) => Some(least.min(cut)),
        (None, cut) => cut,
        (least, None) => least,
    }
}

/// The least cut of a space, 0 where there is none.
fn least_cut(cuts: &[Option<u64>; CUTS]) -> u64
    ensures { result ≡ least_cut cuts.now }
{
    let mut least = None;
    for cut in cuts {
        least = lesser(least, *cut);
    }
    least.unwrap_or(0)
}
