//! Lists of operations: what a stop leaves within any of them.

ghost use Rattle.std.specs.Bool.{OnTrue};
ghost use Rattle.std.specs.Prelude.{◌≡◌, ◌<◌, ◌≤◌, ◌+◌, ◌⊎◌, IfOk, OnOk, length, true, ℕ};
ghost use Rattle.ol_values.specs.Config.{has_place};
ghost use Rattle.ol_values.specs.Spelling.{KeepsRules};
ghost use Rattle.ol_ports.specs.Disk.{Bytes, Rest};
ghost use Rattle.ol_ports.specs.Stops.{Stops};
ghost use Rattle.ol_store.specs.Stores.{is_touched};
ghost use Rattle.ol_storage.specs.declared.operations.Operation.TheVariants.{Change, Clean, MarkBacked, Redo};
ghost use Rattle.ol_storage.specs.Behind.{Behind, is_up, with_record, with_redone};
ghost use Rattle.ol_storage.specs.Installation.{config_of, flushed_of};
ghost use Rattle.ol_storage.specs.Operations.{AreRight, CanCarryOut, IsAtEnd, IsNotAtEnd, IsRight, IsStep, MayGoOn, MayMove, StandsWithin, StandsWithinOne, behind_after, behind_all, moved_by};
ghost use Rattle.ol_storage.specs.Standing.{StandsFrom};
ghost use Rattle.ol_storage.specs.Storing.{IsStored};

use crate::storage::{Storage, StorageFault};
use ol_ports::Disk;
use ol_reserve::SPACES;
use ol_values::{Record, Rid, Row};

/// An operation of a storage, as one of a list.
#[derive(Drop)]
pub enum Operation {
    /// `append` of this record.
    Append(Record),
    /// `change` by this record, where no image is captured.
    Change(Record),
    /// `redo` of this record.
    Redo(Record),
    /// `pass`.
    Pass,
    /// `flush`.
    Flush,
    /// `clean_one`.
    Clean,
    /// `checkpoint`.
    Checkpoint { need: u64, next_archive: u64 },
    /// `switch`.
    Switch,
    /// `mark_backed`.
    MarkBacked,
}

/// The greatest number that an operation begins with: one below 2^62.
const MOST: u64 = 4611686018427387903;

// The place that a record moves, and what it leaves there.
fn moved_by(rec: &Record) -> Option<(Rid, Option<Row>)>
    ensures { result ≡ moved_by rec.now }
{
    match rec {
        Record::Change {
            txn: _,
            rid,
            before: _,
            after,
        } => Some((*rid, copy_of(after))),
        Record::Undo { txn: _, rid, value } => Some((*rid, copy_of(value))),
        Record::Begin { txn: _ } | Record::Commit { txn: _ } | Record::Rolled { txn: _ } => None,
    }
}

fn copy_of(row: &Option<Row>) -> Option<Row>
    ensures { result ≡ row.now }
{
    match row {
        Some(row) => Some(row.copy()),
        None => None,
    }
}

// Whether a record may be written: its slot is one of a page's 31, and it changes something.
fn keeps_rules(rec: &Record) -> bool
    ensures { OnTrue result (KeepsRules rec.now) }
{
    match rec {
        Record::Change {
            txn: _,
            rid,
            before,
            after,
        } => rid.slot <= 30 && (before.is_some() || after.is_some()),
        Record::Undo {
            txn: _,
            rid,
            value: _,
        } => rid.slot <= 30,
        Record::Begin { txn: _ } | Record::Commit { txn: _ } | Record::Rolled { txn: _ } => true,
    }
}

impl<D: Disk> Storage<D> {
    /// Carries out operations in order, as long as each can be: the log has room, the pages have come as far as the operation
    /// wants, and its place is there. True where all were carried out.
    ///
    /// Refusals are those of the operations, and end the list.
    pub fn carry_out(&mut self, operations: &[Operation]) -> Result<bool, StorageFault>
        ensures stops { D.tells → (g : Behind) → IsStored (D.past self.old.disk) self.old.now g → AreRight operations.now self.old.now g → Stops (D.past self.old.disk) (D.past self.new.disk) (StandsWithinOne operations.now self.old.now g) }
        ensures stored { D.tells → (g : Behind) → IsStored (D.past self.old.disk) self.old.now g → AreRight operations.now self.old.now g → IfOk result (λ all. all ≡ true → IsStored (D.past self.new.disk) self.new.now (behind_all operations.now g)) }
    {
        let Some((first, rest)) = operations.split_first() else {
            return Ok(self.is_between());
        };
        if !self.can_carry_out(first) {
            return Ok(false);
        }
        match self.carry_out_one(first) {
            Ok(()) => self.carry_out(rest),
            Err(fault) => Err(fault),
        }
    }

    // True; it tells what a stop between two calls leaves.
    fn is_between(&self) -> bool
        ensures value { result ≡ true }
        ensures stands { D.tells → (g : Behind) → IsStored (D.past self.now.disk) self.now.now g → (d : Bytes) → Rest (D.past self.now.disk) d → StandsFrom (config_of self.now.now) g self.now.now.anchor (flushed_of self.now.now) (flushed_of self.now.now) d }
    {
        let _stopped = self.is_stopped();
        true
    }

    // Whether an operation can be carried out.
    fn can_carry_out(&self, operation: &Operation) -> bool
        ensures can { OnTrue result (CanCarryOut operation.now self.now.now) }
        ensures stands { D.tells → (g : Behind) → IsStored (D.past self.now.disk) self.now.now g → (d : Bytes) → Rest (D.past self.now.disk) d → StandsFrom (config_of self.now.now) g self.now.now.anchor (flushed_of self.now.now) (flushed_of self.now.now) d }
    {
        if !self.is_between() || !self.may_go_on() {
            return false;
        }
        match operation {
            Operation::Append(record) => keeps_rules(record) && self.is_at_end(),
            Operation::Change(record) => {
                keeps_rules(record) && self.is_at_end() && self.may_move(record)
            }
            Operation::Redo(record) => self.is_not_at_end() && self.may_move(record),
            Operation::Pass => self.is_not_at_end(),
            Operation::Checkpoint { need, next_archive } => {
                self.may_checkpoint(*need) && *next_archive <= MOST
            }
            Operation::Flush | Operation::Clean | Operation::Switch | Operation::MarkBacked => true,
        }
    }

    fn may_go_on(&self) -> bool
        ensures { OnTrue result (MayGoOn self.now.now) }
    {
        !self.stopped
            && (self.ring.free_pages() > 0 || !self.ring.held())
            && self.ring.uniq() <= MOST
            && self.ring.next_position() <= MOST
            && self.anchor.serial <= MOST
            && self.anchor.generation <= MOST
    }

    fn is_at_end(&self) -> bool
        ensures { OnTrue result (IsAtEnd self.now.now) }
    {
        self.ring.next_position() - 1 == self.reached
    }

    fn is_not_at_end(&self) -> bool
        ensures { OnTrue result (IsNotAtEnd self.now.now) }
    {
        self.reached < self.ring.next_position() - 1
    }

    fn may_checkpoint(&self, need: u64) -> bool
        ensures { OnTrue result ((self.now.now.anchor.need ≤ need) × (need ≤ self.now.now.reached + 1)) }
    {
        self.anchor.need <= need && need.saturating_sub(1) <= self.reached
    }

    // Whether a record moves a place of a space that is up, and its page has an entry of the physical log or may have one.
    fn may_move(&self, rec: &Record) -> bool
        ensures { OnTrue result (MayMove self.now.now rec.now) }
    {
        match moved_by(rec) {
            Some((rid, _)) => self.is_place(rid) && self.is_up(rid.space) && self.may_touch(rid),
            None => false,
        }
    }

    fn is_place(&self, rid: Rid) -> bool
        ensures { OnTrue result (has_place (config_of self.now.now) rid ≡ true) }
    {
        let table = self.ring.table();
        rid.space < table.spaces() && u32::from(rid.page) < table.pages(rid.space) && rid.slot < 31
    }

    fn is_up(&self, space: u8) -> bool
        ensures { OnTrue result (is_up self.now.now.anchor space ≡ true) }
    {
        usize::from(space) < SPACES && self.anchor.states[usize::from(space)] == 1
    }

    fn may_touch(&self, rid: Rid) -> bool
        ensures { OnTrue result ((is_touched self.now.now.store.log rid.space rid.page ≡ true) ⊎ (length self.now.now.store.log.places < self.now.now.store.log.area.count)) }
    {
        self.store.touched(rid.space, rid.page) || self.store.spare() > 0
    }

    // Carries out an operation that can be.
    fn carry_out_one(&mut self, operation: &Operation) -> Result<(), StorageFault>
        requires { CanCarryOut operation.now self.old.now }
        ensures step { OnOk result (IsStep operation.now self.old.now self.new.now) }
        ensures stops { D.tells → (g : Behind) → IsStored (D.past self.old.disk) self.old.now g → IsRight operation.now self.old.now g → Stops (D.past self.old.disk) (D.past self.new.disk) (StandsWithin operation.now self.old.now g) }
        ensures stored { D.tells → (g : Behind) → IsStored (D.past self.old.disk) self.old.now g → IsRight operation.now self.old.now g → OnOk result (IsStored (D.past self.new.disk) self.new.now (behind_after operation.now g)) }
    {
        match operation {
            Operation::Append(record) => self.append(record),
            Operation::Change(record) => self.change_by(record),
            Operation::Redo(record) => self.redo_by(record),
            Operation::Pass => {
                // It tells what a stop leaves, since nothing is asked of the disk.
                let _between = self.is_between();
                self.pass();
                Ok(())
            }
            Operation::Flush => self.flush(),
            Operation::Clean => self.clean(),
            Operation::Checkpoint { need, next_archive } => self.checkpoint(*need, *next_archive),
            Operation::Switch => self.switch(),
            Operation::MarkBacked => self.mark(),
        }
    }

    fn change_by(&mut self, rec: &Record) -> Result<(), StorageFault>
        requires { CanCarryOut (Change rec.now) self.old.now }
        ensures step { OnOk result (IsStep (Change rec.now) self.old.now self.new.now) }
        ensures stops { D.tells → (g : Behind) → IsStored (D.past self.old.disk) self.old.now g → Stops (D.past self.old.disk) (D.past self.new.disk) (StandsWithin (Change rec.now) self.old.now g) }
        ensures stored { D.tells → (g : Behind) → IsStored (D.past self.old.disk) self.old.now g → OnOk result (IsStored (D.past self.new.disk) self.new.now (with_record rec.now g)) }
    {
        match moved_by(rec) {
            Some((rid, row)) => self.change(rec, rid, row, false),
            None => unreachable!(),
        }
    }

    fn redo_by(&mut self, rec: &Record) -> Result<(), StorageFault>
        requires { CanCarryOut (Redo rec.now) self.old.now }
        ensures step { OnOk result (IsStep (Redo rec.now) self.old.now self.new.now) }
        ensures stops { D.tells → (g : Behind) → IsStored (D.past self.old.disk) self.old.now g → Stops (D.past self.old.disk) (D.past self.new.disk) (StandsWithin (Redo rec.now) self.old.now g) }
        ensures stored { D.tells → (g : Behind) → IsStored (D.past self.old.disk) self.old.now g → IsRight (Redo rec.now) self.old.now g → OnOk result (IsStored (D.past self.new.disk) self.new.now (with_redone g)) }
    {
        match moved_by(rec) {
            Some((rid, row)) => self.redo(rid, row),
            None => unreachable!(),
        }
    }

    fn clean(&mut self) -> Result<(), StorageFault>
        requires { MayGoOn self.old.now }
        ensures step { OnOk result (IsStep Clean self.old.now self.new.now) }
        ensures stops { D.tells → (g : Behind) → IsStored (D.past self.old.disk) self.old.now g → Stops (D.past self.old.disk) (D.past self.new.disk) (StandsWithin Clean self.old.now g) }
        ensures stored { D.tells → (g : Behind) → IsStored (D.past self.old.disk) self.old.now g → OnOk result (IsStored (D.past self.new.disk) self.new.now g) }
    {
        match self.clean_one() {
            Ok(_) => Ok(()),
            Err(fault) => Err(fault),
        }
    }

    fn mark(&mut self) -> Result<(), StorageFault>
        requires { MayGoOn self.old.now }
        ensures step { OnOk result (IsStep MarkBacked self.old.now self.new.now) }
        ensures stops { D.tells → (g : Behind) → IsStored (D.past self.old.disk) self.old.now g → Stops (D.past self.old.disk) (D.past self.new.disk) (StandsWithin MarkBacked self.old.now g) }
        ensures stored { D.tells → (g : Behind) → IsStored (D.past self.old.disk) self.old.now g → OnOk result (IsStored (D.past self.new.disk) self.new.now g) }
    {
        match self.mark_backed() {
            Ok(_) => Ok(()),
            Err(fault) => Err(fault),
        }
    }
}
