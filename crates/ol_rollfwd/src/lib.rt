//! Roll forward of the logical log: records judged in order of position, and the transactions that did not end.
#![tactic(auto)]

mod fault;
mod feed;
mod images;
mod laws;
mod loser;
mod losers;
mod roll;

pub use fault::RollFault;
pub use laws::{new_pool_is_blank, records_are_applied_where_due, sound_journal_rolls_forward};
pub use loser::Loser;
pub use roll::{CUTS, Roll};

/// Memory was refused.
pub type NoMemory = std::alloc::AllocError;
