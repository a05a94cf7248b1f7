//! The running archives and captured images that the engine holds, beside the machine that they tell of.
#![tactic(auto)]

mod laws;
mod running;

pub use laws::{
    archives_end_shown, archives_start_shown, archives_stay_shown, changes_keep_images,
    held_archives_are_the_machines, images_are_dropped_by_space, none_run,
    taken_pages_are_the_machines,
};
pub use running::Running;
