//! Log records.

ghost use Rattle.std.specs.Prelude.{IfSome};
ghost use Rattle.ol_values.specs.Spelling.{KeepsRules};

use crate::short::Short;
use crate::trouble::Trouble;
use ol_record::{LONGEST_RECORD, decode, encode, record_keeps_rules};
use ol_values::{Record, Rid, Row};
use std::alloc::Global;
use std::fmt;

/// The record at the front of the bytes, and how many bytes it has.
pub fn record_of(bytes: &[u8]) -> Option<(Record, usize)>
    ensures { IfSome result (λ p. KeepsRules p.0) }
{
    record_keeps_rules();
    decode(bytes)
}

/// Tells the record at the front of bytes, how many bytes it has, and its spelling.
pub fn tell(alloc: Global, bytes: &[u8]) -> Result<String, Trouble> {
    let mut told = String::new(alloc);
    let Some((record, count)) = record_of(bytes) else {
        told.push_str("= no record\n")?;
        return Ok(told);
    };
    let mut spelling = [0; LONGEST_RECORD];
    let length = encode(&record, &mut spelling);
    write!(told, "= {}\n", Words(&record))?;
    write!(told, "= {count} bytes: {}\n", Short(&spelling[..length]))?;
    Ok(told)
}

/// Tells the least number of bytes at the front that are a record, if fewer than all are one.
pub fn tell_prefixes(alloc: Global, bytes: &[u8]) -> Result<String, Trouble> {
    for count in 0..bytes.len() {
        let (front, _) = bytes.split_at(count);
        if decode(front).is_some() {
            return Ok(format!(in alloc; "= a record stands in the first {count}\n")?);
        }
    }
    Ok(String::from_str(alloc, "= no shorter part is a record\n")?)
}

/// A record, which is shown in words.
#[derive(Clone, Copy)]
pub struct Words<'a>(pub &'a Record);

impl<'a> fmt::Display for Words<'a> {
    fn fmt<W: fmt::Write>(&self, f: &mut fmt::Formatter<W>) -> fmt::Result {
        match self.0 {
            Record::Begin { txn } => write!(f, "begin {txn}"),
            Record::Change {
                txn,
                rid,
                before,
                after,
            } => {
                write!(f, "change {txn} at {}", Place(rid))?;
                write!(f, " from {} to {}", Held(before), Held(after))
            }
            Record::Undo { txn, rid, value } => {
                write!(f, "undo {txn} at {} to {}", Place(rid), Held(value))
            }
            Record::Commit { txn } => write!(f, "commit {txn}"),
            Record::Rolled { txn } => write!(f, "rolled {txn}"),
        }
    }
}

/// The place of a row, which is shown by space, page and slot.
#[derive(Clone, Copy)]
struct Place<'a>(&'a Rid);

impl<'a> fmt::Display for Place<'a> {
    fn fmt<W: fmt::Write>(&self, f: &mut fmt::Formatter<W>) -> fmt::Result {
        let Rid { space, page, slot } = self.0;
        write!(f, "{space}:{page}:{slot}")
    }
}

/// What a slot holds, which is shown by its bytes.
#[derive(Clone, Copy)]
struct Held<'a>(&'a Option<Row>);

impl<'a> fmt::Display for Held<'a> {
    fn fmt<W: fmt::Write>(&self, f: &mut fmt::Formatter<W>) -> fmt::Result {
        match self.0 {
            None => f.write_str("nothing"),
            Some(row) => write!(f, "{}", Short(row.as_slice())),
        }
    }
}
