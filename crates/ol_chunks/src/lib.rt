//! The configuration of an installation: its text, the layout of its chunks, and where its pages lie.
#![tactic(auto)]

mod draft;
mod laws;
mod layout;
mod name;
mod parse;
mod table;
mod words;

pub use laws::{
    chunks_are_of_their_spaces, data_pages_have_places, parts_are_apart, places_are_apart,
    read_is_text, text_is_read,
};
pub use name::Name;
pub use parse::{ConfigFault, parse_config};
pub use table::{Area, ChunkTable};
