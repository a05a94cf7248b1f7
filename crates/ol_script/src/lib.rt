//! Script lines, read from the text of a script, and the text of an entry of a history.
#![tactic(auto)]

mod entry_line;
mod forms;
mod laws;
mod pieces;
mod reader;
mod script;
mod words;

pub use entry_line::{ENTRY_LIMIT, put_words, text};
pub use laws::{
    limit_loses_nothing, read_line_is_spelled, read_script_is_spelled, spelled_line_is_read,
    spelled_script_is_read,
};
pub use script::{Script, ScriptFault, parse, parse_text};
