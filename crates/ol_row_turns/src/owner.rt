//! A session with its open transaction, at a turn.

/// A session, from 1 to 16, with the number of its open transaction, and the number of the entry that its turn becomes.
#[derive(Clone, Copy, Debug, PartialEq, Eq)]
pub struct Owner {
    pub session: u8,
    pub txn: u64,
    pub entry: u64,
}
