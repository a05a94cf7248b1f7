//! The page store of a disk that is opened.
#![tactic(auto)]

mod pages;

pub use pages::{PageOpenFault, read_pages};
