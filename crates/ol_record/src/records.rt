//! The records of a log page, one after the other.

ghost use Rattle.std.specs.Prelude.{◌≡◌, ◌++◌, [], IfNone};
ghost use Rattle.std.specs.Option.{option_to_list};
ghost use Rattle.ol_record.specs.LogPages.{page_in};

use crate::reading::record_of;
use crate::testing::PAGE_LENGTH;
use ol_values::Record;
use std::marker::Model;

/// The records of a log page that are still to be read, which contracts see as their list. It takes no
/// memory.
#[derive(Drop)]
pub struct RecordsOf<'a> {
    left: u16,
    rest: &'a [u8],
}

impl<'a> Model for RecordsOf<'a> {
    ghost use Rattle.std.specs.Prelude.{List};
    ghost use Rattle.ol_values.specs.declared.record.Record.{Record as RecordValue};
    ghost use Rattle.ol_record.specs.Reading.{records_in};

    ghost Value = { List RecordValue };

    ghost view = { λ r. records_in r.left r.rest.now };
}

impl<'a> RecordsOf<'a> {
    /// All records of a page. Of bytes that are no log page these are the records up to the first place
    /// where none stands.
    pub fn new(page: &'a [u8; PAGE_LENGTH]) -> RecordsOf<'a>
        ensures { result ≡ (page_in page.now).records }
    {
        // The count stands in bytes 32 and 33, and the records begin at byte 36.
        let left = u16::from_be_bytes([page[32], page[33]]);
        let rest = &page[36..];
        RecordsOf { left, rest }
    }

    /// The next record; `None` exactly where none is left.
    pub fn next(&mut self) -> Option<Record>
        ensures next { self.old ≡ option_to_list result ++ self.new }
        ensures none { IfNone result (self.old ≡ []) }
    {
        if self.left == 0 {
            return None;
        }
        let (record, rest) = record_of(self.rest)?;
        self.left -= 1;
        self.rest = rest;
        Some(record)
    }
}
