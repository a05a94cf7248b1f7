//! Log pages.

ghost use Rattle.std.specs.Bool.{OnTrue};
ghost use Rattle.ol_record.specs.LogPages.{IsBuffer};
ghost use Rattle.ol_values.specs.Spelling.{KeepsRules};

use crate::record::{Words, record_of};
use crate::short::{Short, page_of};
use crate::trouble::Trouble;
use ol_record::{LogHead, PAGE_LENGTH, RecordsOf, begin_page, log_head, push_record};
use ol_values::Record;
use std::alloc::Global;

/// More records than a log page ever takes.
const MANY: u16 = 300;

/// Tells the head and the records of a log page, and the bytes of the page that is filled anew with them.
pub fn tell(alloc: Global, bytes: &[u8]) -> Result<String, Trouble> {
    let page = page_of(bytes)?;
    let mut told = String::new(alloc);
    let Some(head) = log_head(&page) else {
        told.push_str("= no log page\n")?;
        return Ok(told);
    };
    let LogHead {
        index,
        uniq,
        incarnation,
        first,
        count,
        used,
    } = head;
    write!(
        told,
        "= index {index} uniq {uniq} incarnation {incarnation}"
    )?;
    write!(told, " first {first} count {count} used {used}\n")?;
    tell_records(&mut told, &page, &head)?;
    Ok(told)
}

/// Tells the records of a page of this head, and the page that is filled anew with them.
fn tell_records(
    told: &mut String,
    page: &[u8; PAGE_LENGTH],
    head: &LogHead,
) -> Result<(), Trouble> {
    let mut records = RecordsOf::new(page);
    let mut again = [0xff; PAGE_LENGTH];
    begin_page(
        &mut again,
        head.index,
        head.uniq,
        head.incarnation,
        head.first,
    );
    for _ in 0..head.count {
        let Some(record) = records.next() else {
            break;
        };
        write!(told, "= {}\n", Words(&record))?;
        push(&mut again, &record);
    }
    write!(told, "= {}\n", Short(&again))?;
    Ok(())
}

/// Tells how many times a log page takes the record that the bytes begin with.
pub fn tell_filling(alloc: Global, bytes: &[u8]) -> Result<String, Trouble> {
    let Some((record, length)) = record_of(bytes) else {
        return Ok(String::from_str(alloc, "= no record\n")?);
    };
    let times = times_pushed(&record);
    Ok(format!(in alloc; "= {times} times {length} bytes\n")?)
}

/// How many times a record goes into a blank page.
fn times_pushed(rec: &Record) -> u16
    requires { KeepsRules rec.now }
{
    let mut page = [0; PAGE_LENGTH];
    begin_page(&mut page, 0, 1, 1, 1);
    for times in 0..MANY {
        if !push_record(&mut page, rec) {
            return times;
        }
    }
    MANY
}

/// Puts a record into a page that is being filled, where it has room and may be written.
fn push(page: &mut [u8; PAGE_LENGTH], rec: &Record)
    requires { IsBuffer page.old }
    ensures { IsBuffer page.new }
{
    if keeps_rules(rec) {
        push_record(page, rec);
    }
}

/// Whether a record may be written: its slot is one of a page's 31, and it changes something.
fn keeps_rules(rec: &Record) -> bool
    ensures { OnTrue result (KeepsRules rec.now) }
{
    match rec {
        Record::Change {
            txn: _,
            rid,
            before,
            after,
        } => rid.slot <= 30 && (before.is_some() || after.is_some()),
        Record::Undo {
            txn: _,
            rid,
            value: _,
        } => rid.slot <= 30,
        Record::Begin { txn: _ } | Record::Commit { txn: _ } | Record::Rolled { txn: _ } => true,
    }
}
