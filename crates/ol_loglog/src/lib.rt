//! The log ring over a disk: records are buffered, and written page by page into log files that are used in turn.
#![tactic(auto)]

mod laws;
mod pages;
mod reading;
mod ring;

pub use laws::{
    next_number_is_near, next_use_is_not_backed_up, opening_is_ready, order_is_kept,
    readiness_is_kept, reusable_file_is_free,
};
pub use ol_log_places::{ScanFault, Standing, Stood, scan};
pub use ol_log_state::{NoMemory, RingStart, Use};
pub use reading::LogReadFault;
pub use ring::LogRing;
