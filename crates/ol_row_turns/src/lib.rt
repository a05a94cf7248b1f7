//! The turns of sessions that change a row, or take a change back: each is the machine's turn over the storage, the lock table and the running archives.
#![tactic(auto)]

mod images;
mod insertion;
mod owner;
mod rollback;
mod rows;
mod values;

pub use images::Archives;
pub use insertion::insert;
pub use owner::Owner;
pub use rollback::undo;
pub use rows::change;
