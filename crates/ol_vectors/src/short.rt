//! The short form of bytes: pieces with blanks between them. A piece is an even number of hexadecimal digits, or these
//! with `*N` behind them for N times the same, or a text between apostrophes. So a page of 2,048 bytes is a short line:
//! `00*7 01 00*24 04'ann' 00*2004 00*7 01`.

ghost use Rattle.std.specs.Prelude.{◌≤◌, length};

use crate::trouble::Trouble;
use ol_ports::PAGE_LENGTH;
use std::alloc::Global;
use std::fmt;

/// The most bytes that a line may have; all formats have fewer.
const MOST: usize = 4096;

/// A run of equal bytes is told as one where it has at least so many.
const LEAST_RUN: usize = 4;

/// Bytes are told as text where at least so many stand together.
const LEAST_TEXT: usize = 3;

/// The bytes of a short form. `NoBytes` comes where the text is none, `OtherLength` where there are more than 4,096.
pub fn bytes_of(alloc: Global, text: &str) -> Result<Vec<u8>, Trouble> {
    let mut bytes = Vec::new(alloc);
    for (index, part) in text.split('\'').enumerate() {
        if index % 2 == 1 {
            add(&mut bytes, part.as_bytes(), 1)?;
        } else {
            add_words(alloc, &mut bytes, part)?;
        }
    }
    if text.bytes().filter(|byte| *byte == b'\'').count() % 2 == 1 {
        return Err(Trouble::NoBytes);
    }
    Ok(bytes)
}

/// The bytes of a page. `OtherLength` comes where there are not 2,048.
pub fn page_of(bytes: &[u8]) -> Result<[u8; PAGE_LENGTH], Trouble> {
    if bytes.len() != PAGE_LENGTH {
        return Err(Trouble::OtherLength);
    }
    let mut page = [0; PAGE_LENGTH];
    page.copy_from_slice(bytes);
    Ok(page)
}

fn add_words(alloc: Global, bytes: &mut Vec<u8>, words: &str) -> Result<(), Trouble> {
    for word in words.split_whitespace() {
        add_word(alloc, bytes, word)?;
    }
    Ok(())
}

/// Adds a piece of digits, once or as often as it says.
fn add_word(alloc: Global, bytes: &mut Vec<u8>, word: &str) -> Result<(), Trouble> {
    let (digits, count) = match word.split_once('*') {
        Some((digits, count)) => (digits, times(count)?),
        None => (word, 1),
    };
    let piece = hex::decode(alloc, digits)?;
    add(bytes, &piece, count)
}

fn times(word: &str) -> Result<u16, Trouble> {
    match word.parse::<u16>() {
        Ok(count) => Ok(count),
        Err(_) => Err(Trouble::NoBytes),
    }
}

/// Adds a piece so many times.
fn add(bytes: &mut Vec<u8>, piece: &[u8], count: u16) -> Result<(), Trouble> {
    for _ in 0..count {
        if piece.len() > MOST.saturating_sub(bytes.len()) {
            return Err(Trouble::OtherLength);
        }
        bytes.extend_from_slice(piece)?;
    }
    Ok(())
}

/// Bytes, which are shown in their short form. Letters, digits and blanks alone are shown as text.
#[derive(Clone, Copy)]
pub struct Short<'a>(pub &'a [u8]);

impl<'a> fmt::Display for Short<'a> {
    fn fmt<W: fmt::Write>(&self, f: &mut fmt::Formatter<W>) -> fmt::Result {
        if self.0.is_empty() {
            return f.write_str("''");
        }
        let mut rest = self.0;
        // each piece has a byte at least
        for index in 0..self.0.len() {
            if rest.is_empty() {
                break;
            }
            if index > 0 {
                f.write_str(" ")?;
            }
            let (piece, behind) = rest.split_at(piece_length(rest));
            write_piece(f, piece)?;
            rest = behind;
        }
        Ok(())
    }
}

/// How many bytes of the front are told as one piece.
fn piece_length(bytes: &[u8]) -> usize
    ensures { result ≤ length bytes.now }
{
    let run = run_length(bytes);
    if run >= LEAST_RUN {
        return run;
    }
    let text = text_length(bytes);
    if text >= LEAST_TEXT {
        return text;
    }
    plain_length(bytes)
}

/// How many bytes at the front are equal.
fn run_length(bytes: &[u8]) -> usize
    ensures { result ≤ length bytes.now }
{
    for index in 0..bytes.len() {
        if bytes[index] != bytes[0] {
            return index;
        }
    }
    bytes.len()
}

/// Whether a letter, a digit or a blank stands at the front, and no run.
fn begins_text(bytes: &[u8]) -> bool {
    let is_text = match bytes {
        [] => false,
        [first, ..] => first.is_ascii_alphanumeric() || *first == b' ',
    };
    is_text && run_length(bytes) < LEAST_RUN
}

/// How many bytes at the front are text, up to a run.
fn text_length(bytes: &[u8]) -> usize
    ensures { result ≤ length bytes.now }
{
    for index in 0..bytes.len() {
        let (_, rest) = bytes.split_at(index);
        if !begins_text(rest) {
            return index;
        }
    }
    bytes.len()
}

/// How many bytes at the front are neither a run nor text.
fn plain_length(bytes: &[u8]) -> usize
    ensures { result ≤ length bytes.now }
{
    for index in 0..bytes.len() {
        let (_, rest) = bytes.split_at(index);
        if run_length(rest) >= LEAST_RUN || text_length(rest) >= LEAST_TEXT {
            return index;
        }
    }
    bytes.len()
}

fn write_piece<W: fmt::Write>(f: &mut fmt::Formatter<W>, piece: &[u8]) -> fmt::Result {
    match piece {
        [first, ..] if run_length(piece) >= LEAST_RUN => write!(f, "{first:02x}*{}", piece.len()),
        _ if text_length(piece) >= LEAST_TEXT => write_text(f, piece),
        _ => write_digits(f, piece),
    }
}

fn write_text<W: fmt::Write>(f: &mut fmt::Formatter<W>, piece: &[u8]) -> fmt::Result {
    f.write_str("'")?;
    for byte in piece {
        f.write_char(char::from(*byte))?;
    }
    f.write_str("'")
}

fn write_digits<W: fmt::Write>(f: &mut fmt::Formatter<W>, piece: &[u8]) -> fmt::Result {
    for byte in piece {
        write!(f, "{byte:02x}")?;
    }
    Ok(())
}

/// Bytes, all of which are shown as digits.
#[derive(Clone, Copy)]
pub struct Digits<'a>(pub &'a [u8]);

impl<'a> fmt::Display for Digits<'a> {
    fn fmt<W: fmt::Write>(&self, f: &mut fmt::Formatter<W>) -> fmt::Result {
        write_digits(f, self.0)
    }
}
