//! Named texts, which commands read.

use crate::numbers::number;
use crate::words::is_same;
use ol_stage::Trouble;
use std::alloc::{AllocError, Global};

/// The number of hexadecimal digits of a byte.
const DIGITS: usize = 2;

/// A text and its name.
#[derive(Drop)]
struct Named {
    name: String,
    bytes: Vec<u8>,
}

/// The texts so far. Lines go to the last.
#[derive(Drop)]
pub struct Texts {
    alloc: Global,
    texts: Vec<Named>,
}

impl Texts {
    /// No text yet.
    pub fn new(alloc: Global) -> Texts {
        Texts {
            alloc,
            texts: Vec::new(alloc),
        }
    }

    /// Begins a text, which stands in the place of an earlier one of that name.
    pub fn begin(&mut self, name: &str) -> Result<(), AllocError> {
        self.texts.push(Named {
            name: String::from_str(self.alloc, name)?,
            bytes: Vec::new(self.alloc),
        })?;
        Ok(())
    }

    /// The text of a name.
    ///
    /// `NoText` comes where there is none.
    pub fn find(&self, name: &str) -> Result<&[u8], Trouble> {
        for named in self.texts.iter().rev() {
            if is_same(named.name.as_str(), name) {
                return Ok(named.bytes.as_slice());
            }
        }
        Err(Trouble::NoText)
    }

    /// The text that a command reads: that of a name, and no byte without a name.
    ///
    /// `NoText` comes where no text has that name.
    pub fn input(&self, name: &Option<String>) -> Result<&[u8], Trouble> {
        match name {
            Some(name) => self.find(name.as_str()),
            None => Ok(&[]),
        }
    }

    /// Adds to the last text what stands behind the bar of a line: ` TEXT` or nothing a line, `~ TEXT` a text without a
    /// line feed, `* N TEXT` that N times, `< NAME` or `< NAME N` an earlier text once or N times, and `x HEX` bytes.
    ///
    /// `NoText` comes where no text was begun or none has that name, `NoNumber` where N or HEX is none, and `NoStep` where
    /// the line is none of these.
    pub fn add(&mut self, line: &str) -> Result<(), Trouble> {
        if let Some(copied) = line.strip_prefix("< ") {
            return self.add_text(copied);
        }
        let bytes = self.last()?;
        if let Some(text) = line.strip_prefix("~ ") {
            Ok(bytes.extend_from_slice(text.as_bytes())?)
        } else if let Some(repeated) = line.strip_prefix("* ") {
            add_repeated(bytes, repeated)
        } else if let Some(digits) = line.strip_prefix("x ") {
            add_bytes(bytes, digits)
        } else {
            add_line(bytes, line)
        }
    }

    /// Adds an earlier text as often as the number behind its name says.
    fn add_text(&mut self, copied: &str) -> Result<(), Trouble> {
        let (name, times) = match copied.split_once(' ') {
            Some((name, times)) => (name, number(times)?),
            None => (copied, 1),
        };
        let more = Vec::from_slice(self.alloc, self.find(name)?)?;
        add_times(self.last()?, &more, times)
    }

    /// The last text.
    fn last(&mut self) -> Result<&mut Vec<u8>, Trouble> {
        match self.texts.last_mut() {
            Some(named) => Ok(&mut named.bytes),
            None => Err(Trouble::NoText),
        }
    }
}

/// Adds bytes so many times.
fn add_times(bytes: &mut Vec<u8>, more: &[u8], times: u64) -> Result<(), Trouble> {
    for _ in 0..times {
        bytes.extend_from_slice(more)?;
    }
    Ok(())
}

/// Adds a line, which has a blank before its text.
fn add_line(bytes: &mut Vec<u8>, line: &str) -> Result<(), Trouble> {
    let text = match line.strip_prefix(" ") {
        Some(text) => text,
        None if line.is_empty() => "",
        None => return Err(Trouble::NoStep),
    };
    bytes.extend_from_slice(text.as_bytes())?;
    bytes.extend_from_slice(b"\n")?;
    Ok(())
}

/// Adds a text as often as the number before it says.
fn add_repeated(bytes: &mut Vec<u8>, repeated: &str) -> Result<(), Trouble> {
    let Some((times, text)) = repeated.split_once(' ') else {
        return Err(Trouble::NoStep);
    };
    add_times(bytes, text.as_bytes(), number(times)?)
}

/// Adds bytes, each of two hexadecimal digits.
fn add_bytes(bytes: &mut Vec<u8>, digits: &str) -> Result<(), Trouble> {
    for pair in digits.as_bytes().chunks(DIGITS) {
        let Ok(pair) = std::str::from_utf8(pair) else {
            return Err(Trouble::NoNumber);
        };
        bytes.push(byte_of(pair)?)?;
    }
    Ok(())
}

fn byte_of(pair: &str) -> Result<u8, Trouble> {
    match u8::from_str_radix(pair, 16) {
        Ok(byte) if pair.len() == DIGITS => Ok(byte),
        _ => Err(Trouble::NoNumber),
    }
}
