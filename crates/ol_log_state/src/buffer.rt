//! The page whose records are not yet written.

ghost use Rattle.std.specs.Prelude.{◌≡◌, ◌≤◌, ◌+◌, ◌==◌, length, nat_le, slice_index};
ghost use Rattle.ol_record.specs.LogPages.{IsBuffer, IsFilling, blank_page, log_page_bytes, page_in, with_record};
ghost use Rattle.ol_values.specs.LogPages.{log_room, record_length, records_length};
ghost use Rattle.ol_values.specs.Spelling.{KeepsRules, records_bytes};

use ol_record::{LONGEST_RECORD, PAGE_LENGTH, begin_page, encode, push_record};
use ol_values::Record;
use std::marker::Model;

/// The bytes that records have room in.
const ROOM: usize = 2012;

/// A log page that is being filled, with its gate closed. It takes no memory.
#[derive(Drop)]
pub struct PageBuffer {
    page: [u8; PAGE_LENGTH],
}

impl Model for PageBuffer {
    ghost use Rattle.std.specs.Prelude.{◌≡◌, slice_index};
    ghost use Rattle.ol_record.specs.LogPages.{IsBuffer, page_in};
    ghost use Rattle.ol_values.specs.LogPages.{LogPage};

    ghost Value = { LogPage };

    ghost view = { λ b. page_in b.page };

    ghost invariant = { λ b. IsBuffer b.page × (slice_index b.page 0 ≡ 0) };
}

// How many records a page holds, and how many bytes they have. A record has at least 9 bytes, so there
// are few.
fn tally(page: &[u8; PAGE_LENGTH]) -> (u16, u16)
    requires { IsBuffer page.now }
    ensures count { result.0 ≡ length (page_in page.now).records }
    ensures used { result.1 ≡ length (records_bytes (page_in page.now).records) }
    ensures few { result.0 ≤ 223 }
    ensures room { result.1 ≤ 2012 }
{
    let count = u16::from_be_bytes([page[32], page[33]]);
    let used = u16::from_be_bytes([page[34], page[35]]);
    (count, used)
}

impl PageBuffer {
    /// A page that holds no record, whose first will have this position.
    pub fn new(index: u32, uniq: u64, incarnation: u64, first: u64) -> PageBuffer
        ensures { result ≡ blank_page index uniq incarnation first }
    {
        let mut page = [0; PAGE_LENGTH];
        begin_page(&mut page, index, uniq, incarnation, first);
        PageBuffer { page }
    }

    /// Begins another page, which holds no record.
    pub fn begin(&mut self, index: u32, uniq: u64, incarnation: u64, first: u64)
        ensures { self.new ≡ blank_page index uniq incarnation first }
    {
        begin_page(&mut self.page, index, uniq, incarnation, first);
    }

    /// How many records there are, and how many bytes they have.
    pub fn tally(&self) -> (u16, u16)
        ensures count { result.0 ≡ length self.now.records }
        ensures used { result.1 ≡ length (records_bytes self.now.records) }
        ensures few { result.0 ≤ 223 }
        ensures room { result.1 ≤ 2012 }
    {
        tally(&self.page)
    }

    /// Whether a record has room behind the others.
    pub fn fits(&self, rec: &Record) -> bool
        requires { KeepsRules rec.now }
        ensures { result ≡ nat_le (records_length self.now.records + record_length rec.now) log_room }
    {
        let (_, used) = tally(&self.page);
        let mut spelling = [0; LONGEST_RECORD];
        let len = encode(rec, &mut spelling);
        usize::from(used) + len <= ROOM
    }

    /// Appends a record that has room.
    pub fn push(&mut self, rec: &Record)
        requires rules { KeepsRules rec.now }
        requires room { records_length self.old.records + record_length rec.now ≤ log_room }
        ensures { self.new ≡ with_record self.old rec.now }
    {
        push_record(&mut self.page, rec);
    }

    /// The 2,048 bytes of the page.
    pub fn bytes(&self) -> &[u8; PAGE_LENGTH]
        ensures bytes { result.now ≡ log_page_bytes 0 self.now }
        ensures filling { IsFilling self.now }
    {
        &self.page
    }
}
