//! The data pages of an installation over its disk: each page as it is now, as it was at the last checkpoint, and as an
//! archive takes it.
#![tactic(auto)]

mod archive;
mod change;
mod checkpoint;
mod clean;
mod laws;
mod store;

pub use laws::{checkpointed_pages_are_held, other_parts_leave_pages, stored_pages_are_held};
pub use store::{Store, StoreFault};
