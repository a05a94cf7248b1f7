//! Records one at a time: each rule that puts one out of place.

use ol_chunks::{ChunkTable, parse_config};
use ol_rollfwd::{CUTS, Loser, Roll, RollFault};
use ol_values::{Record, Rid, Row};
use std::alloc::Global;
use std::test::Fail;

/// Two spaces, and a logical log of 18 pages.
const CONFIG: &[u8] = b"space root 100\nspace data1 8\nphyslog root 8\nlogs root 3 6\nbefore 2\n";

/// A record's position is below this.
const END: u64 = 4611686018427387904;

/// A slot of the space data1, which is restored.
const SLOT: Rid = Rid {
    space: 1,
    page: 7,
    slot: 30,
};

/// The next slot, on the next page, which data1 does not have.
const NO_PAGE: Rid = Rid {
    space: 1,
    page: 8,
    slot: 0,
};

/// A slot that no page has.
const NO_SLOT: Rid = Rid {
    space: 1,
    page: 0,
    slot: 31,
};

/// A slot of root, which has a later cut.
const ROOT: Rid = Rid {
    space: 0,
    page: 0,
    slot: 0,
};

/// A record, with nothing or a row of one byte in slots.
#[derive(Clone, Copy)]
enum Form {
    Begin(u64),
    Change(u64, Rid, Option<u8>, Option<u8>),
    Undo(u64, Rid, Option<u8>),
    Commit(u64),
    Rolled(u64),
}

/// A step of a case.
#[derive(Clone, Copy)]
enum Step {
    /// A roll begins at this position; root's pages have the records up to the second, those of data1 up to the third.
    New(u64, u64, u64),
    /// Transactions begin up to this number.
    Begins(u64),
    /// A record is taken and applied, where its slot holds this.
    Applied(Form, Option<u8>),
    /// A record is taken, and not applied, whatever its slot holds.
    Kept(Form),
    /// A record is out of place, where its slot holds this.
    Out(Form, Option<u8>),
    /// So much is owed.
    Owed(u64),
    /// So many transactions are open, and the first has this number and so many changes.
    Losers(usize, u64, usize),
}

const STEPS: &[Step] = &[
    // A transaction that changes two slots, takes one back, and is left open.
    Step::New(1, 0, 0),
    Step::Kept(Form::Begin(1)),
    Step::Applied(Form::Change(1, SLOT, None, Some(97)), None),
    Step::Applied(Form::Change(1, ROOT, Some(98), None), Some(98)),
    Step::Owed(3),
    Step::Applied(Form::Undo(1, ROOT, Some(98)), None),
    Step::Owed(2),
    Step::Losers(1, 1, 1),
    // Rule 4: nothing but an undo of the newest change left is in place then.
    Step::Out(Form::Change(1, SLOT, Some(97), None), Some(97)),
    Step::Out(Form::Commit(1), None),
    Step::Out(Form::Rolled(1), None),
    Step::Out(Form::Undo(1, ROOT, None), None),
    Step::Out(Form::Undo(1, SLOT, Some(97)), None),
    Step::Applied(Form::Undo(1, SLOT, None), Some(97)),
    Step::Out(Form::Undo(1, SLOT, None), None),
    Step::Kept(Form::Rolled(1)),
    Step::Owed(0),
    // Rule 1: a Begin has its position as its number.
    Step::Out(Form::Begin(6), None),
    Step::Out(Form::Begin(8), None),
    Step::Kept(Form::Begin(7)),
    // Rule 2: a transaction that is not open.
    Step::Out(Form::Commit(1), None),
    Step::Out(Form::Change(6, SLOT, None, Some(97)), None),
    // Rule 3: a place that is not there.
    Step::Out(Form::Change(7, NO_PAGE, None, Some(97)), None),
    Step::Out(Form::Change(7, NO_SLOT, None, Some(97)), None),
    // Rule 5: another before value.
    Step::Out(Form::Change(7, SLOT, None, Some(97)), Some(97)),
    Step::Out(Form::Change(7, SLOT, Some(97), Some(98)), Some(98)),
    Step::Out(Form::Change(7, SLOT, Some(97), Some(98)), None),
    Step::Applied(Form::Change(7, SLOT, Some(97), Some(98)), Some(97)),
    Step::Kept(Form::Commit(7)),
    // Transactions below 5 are passed over up to the least cut, which is 6. Root gets records from 9 on.
    Step::New(5, 8, 6),
    Step::Kept(Form::Change(3, NO_PAGE, None, Some(97))),
    Step::Kept(Form::Rolled(2)),
    Step::Out(Form::Commit(3), None),
    Step::Kept(Form::Begin(7)),
    Step::Kept(Form::Change(7, ROOT, Some(97), None)),
    Step::Applied(Form::Change(7, SLOT, None, Some(99)), None),
    Step::Applied(Form::Change(7, ROOT, None, Some(99)), None),
    Step::Losers(1, 7, 3),
    // Rule 1: at most 16 transactions are open. Rule 6: at most 18 records are owed.
    Step::New(1, 0, 0),
    Step::Begins(16),
    Step::Out(Form::Begin(17), None),
    Step::Applied(Form::Change(12, SLOT, None, Some(97)), None),
    Step::Applied(Form::Change(12, SLOT, Some(97), None), Some(97)),
    Step::Out(Form::Change(12, SLOT, None, Some(97)), None),
    Step::Kept(Form::Commit(3)),
    Step::Applied(Form::Change(12, SLOT, None, Some(97)), None),
    Step::Owed(18),
    Step::Out(Form::Begin(21), None),
    Step::Losers(15, 1, 0),
];

/// What a slot holds.
fn row(byte: Option<u8>) -> Option<Row> {
    match byte {
        Some(byte) => Row::new(&[byte]),
        None => None,
    }
}

/// The record of a form.
fn record_of(form: Form) -> Record {
    match form {
        Form::Begin(txn) => Record::Begin { txn },
        Form::Change(txn, rid, before, after) => Record::Change {
            txn,
            rid,
            before: row(before),
            after: row(after),
        },
        Form::Undo(txn, rid, value) => Record::Undo {
            txn,
            rid,
            value: row(value),
        },
        Form::Commit(txn) => Record::Commit { txn },
        Form::Rolled(txn) => Record::Rolled { txn },
    }
}

/// What came of a record: whether it was applied, or that it is out of place at the next position.
fn taken(roll: &mut Roll, form: Form, held: Option<u8>) -> Option<Result<bool, u64>> {
    let next = roll.next();
    if next >= END {
        return None;
    }
    match roll.take(&record_of(form), &row(held)) {
        Ok(moved) => Some(Ok(moved.is_some())),
        Err(RollFault::OutOfPlace { position }) => Some(Err(position)),
        Err(RollFault::NoMemory) => None,
    }
}

/// Whether a transaction begins at each position up to the last.
fn all_begin(roll: &mut Roll, last: u64) -> bool {
    for txn in roll.next()..=last {
        if taken(roll, Form::Begin(txn), None) != Some(Ok(false)) {
            return false;
        }
    }
    true
}

/// Whether so many transactions are open, of which the first has this number and so many changes.
fn are_losers(losers: &[Loser], count: usize, txn: u64, changes: usize) -> bool {
    match losers {
        [first, ..] => {
            losers.len() == count && first.txn() == txn && first.changes().len() == changes
        }
        [] => false,
    }
}

/// Whether a step comes out as it says.
fn is_so(alloc: Global, table: &ChunkTable, roll: &mut Roll, step: Step) -> bool {
    match step {
        Step::New(low, root, data1) => {
            let mut cuts = [None; CUTS];
            cuts[0] = Some(root);
            cuts[1] = Some(data1);
            match Roll::new(alloc, table, low, cuts) {
                Ok(new) => {
                    *roll = new;
                    true
                }
                Err(_) => false,
            }
        }
        Step::Begins(last) => all_begin(roll, last),
        Step::Applied(form, held) => taken(roll, form, held) == Some(Ok(true)),
        Step::Kept(form) => taken(roll, form, Some(0)) == Some(Ok(false)),
        Step::Out(form, held) => taken(roll, form, held) == Some(Err(roll.next())),
        Step::Owed(owed) => roll.owed() == owed,
        Step::Losers(count, txn, changes) => are_losers(roll.losers(), count, txn, changes),
    }
}

/// The first step that does not come out as it says.
fn first_wrong(
    alloc: Global,
    table: &ChunkTable,
    roll: &mut Roll,
    steps: &[Step],
) -> Option<usize> {
    for k in 0..steps.len() {
        if !is_so(alloc, table, roll, steps[k]) {
            return Some(k);
        }
    }
    None
}

/// The first step that does not come out as it says; none was tried where there is no roll.
fn tried(alloc: Global) -> Option<Option<usize>> {
    let table = parse_config(CONFIG).ok()?;
    let mut roll = Roll::new(alloc, &table, 1, [None; CUTS]).ok()?;
    Some(first_wrong(alloc, &table, &mut roll, STEPS))
}

#[test]
fn records_are_in_or_out_of_place(rt: HostRuntime) -> Result<(), Fail> {
    assert_eq!(rt; tried(rt.alloc()), Some(None));
    Ok(())
}
