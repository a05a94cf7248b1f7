//! The anchor of an installation, and the pair of reserved pages that holds it.
#![tactic(auto)]

mod anchor;
mod config_text;
mod laws;
mod pair;

pub use anchor::{Anchor, AnchorFault, SPACES};
pub use config_text::{ConfigText, TEXT_LIMIT};
pub use laws::newest_anchor_is_of_its_pages;
pub use pair::{Pair, ReserveFault};
