//! Lines that are played for each of some numbers.

use crate::numbers::number;
use crate::words::is_same;
use ol_stage::Trouble;
use std::alloc::{AllocError, Global};
use std::fmt::Write;

/// Lines that are to be played for each number from the first to the last, which stands for a word in them.
#[derive(Drop)]
pub struct Repeat {
    /// The word that stands for the numbers.
    pub word: String,
    /// The first number.
    pub first: u32,
    /// The last number.
    pub last: u32,
    /// The lines in order.
    pub lines: Vec<String>,
}

impl Repeat {
    /// No line yet, from what stands behind `each`: the word and the numbers.
    ///
    /// `NoStep` and `NoNumber` come where that is not of the form `X A..B`.
    pub fn new(alloc: Global, values: &str) -> Result<Repeat, Trouble> {
        let Some((word, range)) = values.split_once(' ') else {
            return Err(Trouble::NoStep);
        };
        let Some((first, last)) = range.split_once("..") else {
            return Err(Trouble::NoStep);
        };
        Ok(Repeat {
            word: String::from_str(alloc, word)?,
            first: value(first)?,
            last: value(last)?,
            lines: Vec::new(alloc),
        })
    }

    /// The same with one line more.
    pub fn with_line(self, alloc: Global, line: &str) -> Result<Repeat, AllocError> {
        let mut repeat = self;
        repeat.lines.push(String::from_str(alloc, line)?)?;
        Ok(repeat)
    }

    /// A line with the number in the place of the word.
    pub fn line_for(&self, alloc: Global, line: &str, value: u32) -> Result<String, AllocError> {
        let mut text = String::new(alloc);
        for (index, word) in line.split(' ').enumerate() {
            if index > 0 {
                text.push_str(" ")?;
            }
            self.put_word(word, value, &mut text)?;
        }
        Ok(text)
    }

    fn put_word(&self, word: &str, value: u32, text: &mut String) -> Result<(), AllocError> {
        if is_same(word, self.word.as_str()) {
            write!(text, "{value}")
        } else {
            text.push_str(word)
        }
    }
}

fn value(word: &str) -> Result<u32, Trouble> {
    match u32::try_from(number(word)?) {
        Ok(value) => Ok(value),
        Err(_) => Err(Trouble::NoNumber),
    }
}

/// Neighbouring numbers for which the lines told the same.
#[derive(Drop)]
pub struct Alike {
    first: u32,
    last: u32,
    outcome: String,
}

impl Alike {
    /// A number alone, and what was told for it.
    pub fn new(value: u32, outcome: String) -> Alike {
        Alike {
            first: value,
            last: value,
            outcome,
        }
    }

    /// Whether this was told for the numbers.
    pub fn is_told(&self, outcome: &str) -> bool {
        is_same(self.outcome.as_str(), outcome)
    }

    /// The numbers up to one more.
    pub fn up_to(self, last: u32) -> Alike {
        Alike { last, ..self }
    }

    /// Tells the numbers, and what was told for them.
    pub fn tell(&self, word: &str, told: &mut String) -> Result<(), AllocError> {
        let (first, last) = (self.first, self.last);
        write!(told, "{word} {first}")?;
        if last > first {
            write!(told, "..{last}")?;
        }
        told.push_str(":")?;
        self.tell_outcome(told)?;
        told.push_str("\n")
    }

    fn tell_outcome(&self, told: &mut String) -> Result<(), AllocError> {
        for (index, line) in self.outcome.lines().enumerate() {
            told.push_str(gap_before(index))?;
            told.push_str(line)?;
        }
        Ok(())
    }
}

/// What stands in front of a line of an outcome.
fn gap_before(index: usize) -> &'static str {
    if index > 0 { " / " } else { " " }
}
