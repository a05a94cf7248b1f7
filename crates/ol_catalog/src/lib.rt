//! The catalog of a shelf: its complete objects and marks.
#![tactic(auto)]

mod catalog;
mod drive;
mod fault;
mod laws;

pub use catalog::read;
pub use fault::CatalogFault;
pub use laws::written_archives_are_objects;
