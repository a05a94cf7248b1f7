//! The turns of sessions: each is the machine's turn over the storage and the lock table.
#![tactic(auto)]

mod transactions;

pub use transactions::{begin, commit, rolled};
