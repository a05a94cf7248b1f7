//! The numbers and places of steps, read from their words.

use ol_outside::{Choice, DRIVES};
use ol_stage::{BlockPlace, Trouble};
use std::alloc::Global;

/// Numbers in order.
pub fn numbers(alloc: Global, words: &[&str]) -> Result<Vec<u64>, Trouble> {
    let mut numbers = Vec::new(alloc);
    for word in words {
        numbers.push(number(word)?)?;
    }
    Ok(numbers)
}

/// A block of the shelf.
pub fn place(number: &str, volume: &str, block: &str) -> Result<BlockPlace, Trouble> {
    Ok(BlockPlace {
        drive: drive(number)?,
        volume: small(volume)?,
        block: small(block)?,
    })
}

/// What a stop leaves in the place of bytes that were not synced.
pub fn choice(word: &str) -> Result<Choice, Trouble> {
    match word {
        "old" => Ok(Choice::Old),
        "new" => Ok(Choice::New),
        other => Ok(Choice::Fill(byte(other)?)),
    }
}

/// The number of a drive.
pub fn drive(word: &str) -> Result<u8, Trouble> {
    let drive = byte(word)?;
    if drive < DRIVES {
        Ok(drive)
    } else {
        Err(Trouble::NoDrive)
    }
}

/// A decimal number.
///
/// `NoNumber` comes where the word is none, or a `u64` doesn't hold it.
pub fn number(word: &str) -> Result<u64, Trouble> {
    match word.parse::<u64>() {
        Ok(number) => Ok(number),
        Err(_) => Err(Trouble::NoNumber),
    }
}

/// A number of 32 bits.
pub fn small(word: &str) -> Result<u32, Trouble> {
    match word.parse::<u32>() {
        Ok(number) => Ok(number),
        Err(_) => Err(Trouble::NoNumber),
    }
}

/// A number of 16 bits.
pub fn offset(word: &str) -> Result<u16, Trouble> {
    match word.parse::<u16>() {
        Ok(number) => Ok(number),
        Err(_) => Err(Trouble::NoNumber),
    }
}

/// A number of 8 bits.
pub fn byte(word: &str) -> Result<u8, Trouble> {
    match word.parse::<u8>() {
        Ok(number) => Ok(number),
        Err(_) => Err(Trouble::NoNumber),
    }
}
