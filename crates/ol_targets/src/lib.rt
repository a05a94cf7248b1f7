//! The places that lines of scripts name: spaces by name, pages by their number, rows by a register or by their place.
#![tactic(auto)]

mod laws;
mod names;
mod places;
mod targets;

pub use laws::names_lead_turns;
pub use names::{Spaces, find_spaces, space_named};
pub use targets::{find_page, find_space, find_target};
