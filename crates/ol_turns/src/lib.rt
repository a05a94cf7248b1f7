//! The core of the engine: the turns of all actors over one storage, each a step of the machine and an entry of the history.
#![tactic(auto)]

mod answers;
mod archive_starts;
mod archive_turns;
mod engine;
mod entries;
mod lists;
mod log_turns;
mod reads;
mod registers;
mod row_turns;
mod session_turns;
mod state;

pub use engine::Core;
pub use entries::Entries;
pub use registers::Registers;
pub use state::State;

/// Memory was refused.
pub type NoMemory = std::alloc::AllocError;
