//! Which archives and logs a restore takes: the plan over the objects of a shelf.
#![tactic(auto)]

mod archives;
mod catalog;
mod chain;
mod counting;
mod damage;
mod fault;
mod logs;
mod plan;

pub use catalog::Catalog;
pub use fault::PlanFault;
pub use plan::{Chain, Plan, plan_restore};

/// Memory was refused.
pub type NoMemory = std::alloc::AllocError;
