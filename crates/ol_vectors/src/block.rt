//! Blocks of a tape and archive heads.

use crate::short::{Digits, Short, bytes_of};
use crate::trouble::Trouble;
use ol_object::{ArchiveHead, BLOCK_LENGTH, Block, PAYLOAD_LENGTH, encode};
use std::alloc::Global;

/// Where the digest of a block stands.
const DIGEST_AT: usize = 2112;

/// The most spaces and the longest text of an archive head.
const SPACES: usize = 16;

const TEXT_LIMIT: usize = 1024;

/// Tells the bytes of a block, whose payload has zeros behind what is given, and the digest apart.
pub fn tell(alloc: Global, text: &str) -> Result<String, Trouble> {
    let (numbers, payload) = parts_of(alloc, text)?;
    let head = head_of(&numbers, payload.len())?;
    let mut padded = [0; PAYLOAD_LENGTH];
    for (place, byte) in padded.iter_mut().zip(payload.iter()) {
        *place = *byte;
    }
    let mut block = [0xff; BLOCK_LENGTH];
    encode(&head, &padded, &mut block);
    let (front, digest) = block.split_at(DIGEST_AT);
    let mut told = String::new(alloc);
    write!(told, "= {}\n", Short(front))?;
    write!(told, "= digest {}\n", Digits(digest))?;
    Ok(told)
}

/// The fields of a block whose payload has so many bytes.
fn head_of(numbers: &[u64], used: usize) -> Result<Block, Trouble> {
    let [kind, object, incarnation, number, index, a, b, c] = numbers else {
        return Err(Trouble::OtherCount);
    };
    if used > PAYLOAD_LENGTH {
        return Err(Trouble::OtherLength);
    }
    Ok(Block {
        kind: byte(*kind)?,
        object: byte(*object)?,
        incarnation: *incarnation,
        number: *number,
        index: word(*index)?,
        used: used as u32,
        a: *a,
        b: *b,
        c: *c,
    })
}

/// Tells the bytes of an archive head of these spaces and this text, and how many it has.
pub fn tell_archive(alloc: Global, text: &str) -> Result<String, Trouble> {
    let (numbers, text) = parts_of(alloc, text)?;
    let mut spaces = Vec::new(alloc);
    for numbers in numbers.chunks(3) {
        let [space, parent, base] = numbers else {
            return Err(Trouble::OtherCount);
        };
        spaces.push((byte(*space)?, *parent, *base))?;
    }
    tell_head(alloc, &spaces, &text)
}

fn tell_head(alloc: Global, spaces: &[(u8, u64, u64)], text: &[u8]) -> Result<String, Trouble> {
    if spaces.len() > SPACES || text.len() > TEXT_LIMIT {
        return Err(Trouble::OtherLength);
    }
    let head = ArchiveHead::new(alloc, spaces, text)?;
    let mut payload = [0xff; PAYLOAD_LENGTH];
    let used = head.encode(&mut payload);
    Ok(format!(in alloc; "= {used} bytes: {}\n", Short(&payload))?)
}

/// The decimal numbers in front of a colon, and the bytes behind it.
fn parts_of(alloc: Global, text: &str) -> Result<(Vec<u64>, Vec<u8>), Trouble> {
    let Some((words, bytes)) = text.split_once(':') else {
        return Err(Trouble::OtherCount);
    };
    let mut numbers = Vec::new(alloc);
    for word in words.split_whitespace() {
        numbers.push(number(word)?)?;
    }
    Ok((numbers, bytes_of(alloc, bytes)?))
}

fn number(word: &str) -> Result<u64, Trouble> {
    match word.parse::<u64>() {
        Ok(number) => Ok(number),
        Err(_) => Err(Trouble::NoNumber),
    }
}

fn byte(number: u64) -> Result<u8, Trouble> {
    match u8::try_from(number) {
        Ok(byte) => Ok(byte),
        Err(_) => Err(Trouble::NoNumber),
    }
}

fn word(number: u64) -> Result<u32, Trouble> {
    match u32::try_from(number) {
        Ok(word) => Ok(word),
        Err(_) => Err(Trouble::NoNumber),
    }
}
