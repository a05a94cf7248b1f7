//! The turns of archivers: each is the machine's turn over the storage and the running archives.
#![tactic(auto)]

mod archived;
mod known;
mod put_away;
mod take;

pub use archived::end;
use ol_running::Running;
pub use put_away::cancel;
pub use take::turn;

/// The running archives of the four archivers.
pub type Archives = [Option<Running>; 4];
