//! The numbers of lines.

use crate::trouble::Trouble;
use std::alloc::Global;

/// The decimal numbers among words, in order. Words that begin with a letter say what the number behind them is, and are
/// passed over. `NoNumber` comes where another word is none, or a `u64` doesn't hold it.
pub fn numbers(alloc: Global, text: &str) -> Result<Vec<u64>, Trouble> {
    let mut numbers = Vec::new(alloc);
    for word in text.split_whitespace() {
        if !begins_with_letter(word) {
            numbers.push(number(word)?)?;
        }
    }
    Ok(numbers)
}

fn begins_with_letter(word: &str) -> bool {
    match word.as_bytes() {
        [first, ..] => first.is_ascii_alphabetic(),
        [] => false,
    }
}

fn number(word: &str) -> Result<u64, Trouble> {
    match word.parse::<u64>() {
        Ok(number) => Ok(number),
        Err(_) => Err(Trouble::NoNumber),
    }
}

/// The number as one of 8 bits. `NoNumber` comes where it is greater.
pub fn byte(number: u64) -> Result<u8, Trouble> {
    match u8::try_from(number) {
        Ok(byte) => Ok(byte),
        Err(_) => Err(Trouble::NoNumber),
    }
}

/// The number as one that counts or is an index. `NoNumber` comes where it is too great.
pub fn index(number: u64) -> Result<usize, Trouble> {
    match usize::try_from(number) {
        Ok(index) => Ok(index),
        Err(_) => Err(Trouble::NoNumber),
    }
}
