//! The pieces of a text between separators, and numbers in decimal.
#![tactic(auto)]

ghost use Rattle.std.specs.Prelude.{◌≡◌, ◌≤◌, ◌<◌, ◌==◌, ◌∷◌, [], IfNone, IfOk, IfSome, length, position};
ghost use Rattle.std.specs.List.{slice_split};
ghost use Rattle.std.specs.Option.{option_map};
ghost use Rattle.ol_words.specs.Words.{number_up_to, numbers_up_to, pieces_behind};

use std::alloc::{AllocError, Global};

/// Memory was refused.
pub type NoMemory = AllocError;

/// What stands in front of the first separator of a text, and what stands behind it; None where there is none.
pub fn cut_at_first(separator: u8, text: &[u8]) -> Option<(&[u8], &[u8])>
    ensures none { IfNone result (slice_split (λ b. b == separator) text.now ≡ text.now ∷ []) }
    ensures some { IfSome result (λ p. slice_split (λ b. b == separator) text.now ≡ p.0.now ∷ slice_split (λ b. b == separator) p.1.now) }
    ensures shorter { IfSome result (λ p. length p.1.now < length text.now) }
{
    let end = first_of(separator, text)?;
    Some((&text[..end], &text[end + 1..]))
}

fn first_of(separator: u8, text: &[u8]) -> Option<usize>
    ensures { result ≡ position (λ b. b == separator) text.now }
{
    text.iter().position(|b| *b == separator)
}

/// The text in front of the first separator, or all of it, and what stands behind the separator.
pub fn cut(separator: u8, text: &[u8]) -> (&[u8], Option<&[u8]>)
    ensures pieces { slice_split (λ b. b == separator) text.now ≡ result.0.now ∷ pieces_behind separator result.1 }
    ensures shorter { IfSome result.1 (λ rest. length rest.now < length text.now) }
{
    match cut_at_first(separator, text) {
        Some((front, rest)) => (front, Some(rest)),
        None => (text, None),
    }
}

/// The number from 1 to `most` that a word is in decimal; None where it is none or has a leading zero.
pub fn number(word: &[u8], most: u32) -> Option<u32>
    ensures { result ≡ number_up_to most word.now }
{
    if word.is_empty() || word[0] == b'0' {
        return None;
    }
    let limit = u64::from(most);
    let mut value = 0;
    for digit in word {
        if !digit.is_ascii_digit() {
            return None;
        }
        value = value * 10 + u64::from(*digit - b'0');
        if value > limit {
            return None;
        }
    }
    Some(value as u32)
}

/// The numbers from 1 to `most` that the pieces of a text are in decimal, with one separator between two;
/// None where a piece is none or has a leading zero. Where there is no text, the list is empty.
///
/// `NoMemory` where memory for the list is refused.
pub fn numbers(
    alloc: Global,
    separator: u8,
    text: Option<&[u8]>,
    most: u32,
) -> Result<Option<Vec<u32>>, NoMemory>
    ensures { IfOk result (λ numbers. option_map (λ v. v.items) numbers ≡ numbers_up_to most (pieces_behind separator text.entry)) }
{
    let mut numbers = Vec::new(alloc);
    let mut rest = text;
    while let Some(pieces) = rest {
        let (piece, behind) = cut(separator, pieces);
        let Some(number) = number(piece, most) else {
            return Ok(None);
        };
        numbers.push(number)?;
        rest = behind;
    }
    Ok(Some(numbers))
}
