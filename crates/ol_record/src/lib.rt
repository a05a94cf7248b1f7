//! The bytes of log records and of log pages.
#![tactic(auto)]

mod filling;
mod head;
mod laws;
mod reading;
mod records;
mod testing;
mod writing;

pub use filling::{begin_page, push_record};
pub use head::LogHead;
pub use laws::{
    no_spelling_begins_another, page_holds_few_records, page_is_told_by_its_bytes,
    record_has_9_to_141_bytes, record_keeps_rules,
};
pub use reading::decode;
pub use records::RecordsOf;
pub use testing::{PAGE_LENGTH, log_head};
pub use writing::{LONGEST_RECORD, encode};
