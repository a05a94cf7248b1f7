//! Worked examples: plays whose history, text and tape are computed from the definitions alone.
#![tactic(auto)]

mod archives;
mod faults;
mod further;
mod restores;
mod sessions;

pub use archives::{archives_print, archives_put};
pub use faults::faults_are;
pub use further::further_print;
pub use restores::restores_give;
pub use sessions::sessions_print;
