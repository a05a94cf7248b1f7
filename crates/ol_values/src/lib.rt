//! The values that all layers of the engine share, and the definitions of their forms: configurations, pages and
//! their images, log pages, tape blocks, texts.
#![tactic(auto)]

mod event;
mod held;
mod history;
mod label;
mod laws;
mod line;
mod record;
mod row;

pub use event::{Event, Known, Reply, Target, Why};
pub use held::Bytes;
pub use history::{Actor, By, Entry, History, Opened, Told};
pub use label::{LABEL_LIMIT, Label, Labels, NAMES_LIMIT};
pub use laws::spellings_have_their_length;
pub use line::{Form, Line, Lines};
pub use record::{Record, Rid};
pub use row::{ROW_LIMIT, Row};

/// Memory was refused.
pub type NoMemory = std::alloc::AllocError;
