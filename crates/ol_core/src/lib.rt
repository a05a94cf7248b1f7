//! The core of the engine: it takes turns, one after the other, each a step of the machine that the
//! definitions state, and keeps their history. It works over any configuration. One session works in it so
//! far, and one archiver, on data pages in memory.
#![tactic(auto)]

mod choice;
mod core_turns;
mod pages;
mod running;
mod space_pages;

pub use core_turns::Core;
pub use running::Running;
