//! What the commands of a scene work on: a disk that fails where it is told to and says what isn't so, drives, and a
//! shelf, all in memory.
#![tactic(auto)]

mod devices;
mod disks;
mod grounds;
mod outcomes;
mod rigs;
mod shelves;
mod stage;
mod streams;
mod tapes;
mod trouble;

pub use devices::{Device, Fault, Load};
pub use grounds::{DiskDamage, Spoiled};
pub use outcomes::Outcome;
pub use stage::Stage;
pub use tapes::{BlockPlace, TapeDamage};
pub use trouble::Trouble;
