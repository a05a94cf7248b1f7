//! Row locks, and what each open transaction has changed.
#![tactic(auto)]

mod fault;
mod laws;
mod locks;
mod seat;

pub use fault::LockFault;
pub use laws::{
    steps_of_session_join, table_answers_for_transactions, table_permits_records,
    table_tells_transactions,
};
pub use locks::Locks;

/// Memory was refused.
pub type NoMemory = std::alloc::AllocError;
