//! Reading a shelf: a drive's blocks one after the other, over its volumes.
#![tactic(auto)]

mod laws;
mod reader;

pub use laws::streams_are_the_shelf;
pub use reader::{Reader, ShelfFault};
