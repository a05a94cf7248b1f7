//! The numbers of a line.

ghost use Rattle.std.specs.Prelude.{◌≡◌, IfNone, IfSome, Some};
ghost use Rattle.ol_chunks.specs.Pieces.{IsNoneOrMany, words_behind};
ghost use Rattle.ol_chunks.specs.Reading.{numbers_in_words as numbers_of_words};

use crate::layout::CHUNKS;
use arrayvec::ArrayVec;
use ol_words::{cut, number};

/// The greatest number that a line may have.
const NUMBER_LIMIT: u32 = 65535;

/// The numbers that the words of a text are, with one blank between two; None where one is no number, or
/// where there are more than 31: no line has so many, as all spaces together have no more chunks.
pub(crate) fn numbers_of(text: Option<&[u8]>) -> Option<ArrayVec<u16, CHUNKS>>
    ensures some { IfSome result (λ numbers. numbers_of_words (words_behind text.entry) ≡ Some numbers.items) }
    ensures none { IfNone result (IsNoneOrMany (numbers_of_words (words_behind text.entry))) }
{
    let mut numbers = ArrayVec::new();
    let mut rest = text;
    while let Some(words) = rest {
        let (word, behind) = cut(b' ', words);
        let number = number(word, NUMBER_LIMIT)?;
        if numbers.is_full() {
            return None;
        }
        numbers.push(number as u16);
        rest = behind;
    }
    Some(numbers)
}
