//! The cursor of a running archive as it goes through its pages in order of space and page.
#![tactic(auto)]

mod cursor;
mod laws;

pub use cursor::Cursor;
pub use laws::{
    archive_pages_ascend, cursor_follows_its_archive, cursor_wants_pages_of_its_archive,
};
