//! The search for the least slot of a space that is empty and carries no lock, past pages that are known to be full.
#![tactic(auto)]

mod hints;
mod laws;
mod look;
mod search;
mod slots;

pub use hints::Hints;
pub use laws::{first_free_is_free, hints_stay_full};
pub use search::find_free;
