//! The newest anchor of a disk that is opened, and the configuration that it has.
#![tactic(auto)]

mod anchor;

pub use anchor::{AnchorFault, read_anchor};
