//! Writing a tape: blocks one after the other, a full volume followed by the next.
#![tactic(auto)]

mod writer;

pub use writer::{TapeEnd, Writer};
