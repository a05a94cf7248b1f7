//! The journal and the pages of an installation on one disk, by write-ahead logging: whatever a stop leaves stands for the
//! records that were flushed, and perhaps some behind them.
#![tactic(auto)]

mod checkpoint;
mod clean;
mod lasting;
mod laws;
mod log_reading;
mod logging;
mod operations;
mod pages;
mod reading;
mod redo;
mod storage;

pub use lasting::Lasting;
pub use laws::image_stands_for_the_journal;
pub use operations::Operation;
pub use storage::{Storage, StorageFault};
