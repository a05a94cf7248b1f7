//! Log pages on a disk: what stands at the places of the log, the writes that change it, and the scan that finds the
//! standing run.
#![tactic(auto)]

mod heads;
mod laws;
mod pages;
mod reading;

pub use heads::{ScanFault, Stood};
pub use laws::{
    file_is_closed_behind_the_last_page, gates_are_kept, log_is_kept, next_page_is_put_or_not,
    pages_stand_at_their_places, places_are_of_the_log_alone, run_is_of_the_journal,
    stop_leaves_the_log,
};
pub use pages::{close_log_file, write_log_page};
pub use reading::{OpenPages, Standing, open_pages, scan, standing_run};
