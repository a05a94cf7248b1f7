//! The records of the journal, and the places that they change.

use crate::Row;

/// The place of a row: a space by its number from 0, a data page of it from 0, and a slot of the page
/// from 0 to 30.
#[derive(Clone, Copy, Debug, PartialEq, Eq, Hash)]
pub struct Rid {
    pub space: u8,
    pub page: u16,
    pub slot: u8,
}

/// A record of the journal. `txn` is the number of its transaction, which is the position of the
/// transaction's Begin; positions count from 1. Nothing in a slot is `None`.
#[derive(Debug, PartialEq, Eq, Drop)]
pub enum Record {
    /// The transaction begins.
    Begin {
        txn: u64,
    },
    /// The slot held `before`, and holds `after`.
    Change {
        txn: u64,
        rid: Rid,
        before: Option<Row>,
        after: Option<Row>,
    },
    /// The slot holds `value` again, since a change was taken back.
    Undo {
        txn: u64,
        rid: Rid,
        value: Option<Row>,
    },
    /// The transaction is committed.
    Commit {
        txn: u64,
    },
    /// All changes of the transaction were taken back.
    Rolled {
        txn: u64,
    },
}
