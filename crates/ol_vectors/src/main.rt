//! Reads bytes of each format of the disk and the tapes, a line each, and tells what they are and how they are written
//! again. A line is echoed; what it stands for follows it, behind `= `, or behind `! ` why it stands for nothing.
//!
//! - `record BYTES`: the log record at the front, and its spelling
//! - `prefixes BYTES`: the least part of the bytes, short of all, at the front of which a record stands
//! - `fill BYTES`: how often a log page takes the record at the front
//! - `log BYTES`: the head and the records of a log page, and the page filled anew
//! - `page BYTES`: the stamp and the rows of a data page, and the page filled anew
//! - `anchor BYTES`: the fields of an anchor, and its spelling
//! - `row BYTES`, `label BYTES`: a row or a label that holds the bytes
//! - `with OFFSET BYTES`: what the last line of one of these kinds stands for with these bytes from the offset on
//! - `block KIND OBJECT INCARNATION NUMBER INDEX A B C: BYTES`: the bytes of a block with this payload
//! - `archive [SPACE PARENT BASE]..: BYTES`: the archive head of these spaces and this text
//! - a line that is empty or begins with `#` tells nothing
//!
//! The short form in which bytes stand is told in `short`.
#![tactic(auto)]

mod anchor;
mod block;
mod log;
mod page;
mod record;
mod short;
mod trouble;
mod value;
mod vector;

use std::alloc::Global;
use std::io;
use std::io::{BufRead, BufReader};
use trouble::Trouble;
use vector::{Format, Vector};

/// What a line stands for. A vector that it gives is kept as the last one.
fn tell(alloc: Global, last: &mut Option<Vector>, line: &str) -> Result<String, Trouble> {
    if line.is_empty() || line.starts_with('#') {
        return Ok(String::new(alloc));
    }
    let Some((kind, rest)) = line.split_once(' ') else {
        return Err(Trouble::NoKind);
    };
    match kind {
        "block" => block::tell(alloc, rest),
        "archive" => block::tell_archive(alloc, rest),
        "with" => match last {
            Some(vector) => vector.with(alloc, rest)?.tell(alloc),
            None => Err(Trouble::NoVector),
        },
        word => {
            let vector = Vector::new(alloc, Format::of(word)?, rest)?;
            let told = vector.tell(alloc);
            *last = Some(vector);
            told
        }
    }
}

fn main(rt: HostRuntime) -> io::Result<()> {
    let mut last = None;
    let input = BufReader::new(rt.alloc(), rt.reader())?;
    for line in input.lines(rt.alloc()) {
        let line = line?;
        match tell(rt.alloc(), &mut last, line.as_str()) {
            Ok(told) => print!(rt; "{line}\n{told}")?,
            Err(trouble) => println!(rt; "{line}\n! {trouble}")?,
        }
    }
    Ok(())
}
