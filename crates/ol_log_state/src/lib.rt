//! The ring of log files.
#![tactic(auto)]

mod buffer;
mod held_use;
mod laws;
mod log_files;
mod places;
mod ring;

pub use laws::{
    needed_positions_stay, regular_rings_stay, rules_see_the_log_files_alone,
    steps_are_by_the_rules,
};
pub use places::{NextPage, RingStart, Use};
pub use ring::LogState;

/// Memory was refused.
pub type NoMemory = std::alloc::AllocError;
