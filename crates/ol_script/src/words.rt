//! The words of a line.

ghost use Rattle.std.specs.Prelude.{◌≡◌, ◌≤◌, ◌||◌, IfSome, IsTrue, bytes_eq, length};
ghost use Rattle.std.specs.List.{list_all, list_any};
ghost use Rattle.ol_values.specs.Config.{begins_small, is_digit as is_digit_lem, is_name as is_name_lem, is_small_letter};
ghost use Rattle.ol_values.specs.Text.{is_plain as is_plain_lem};
ghost use Rattle.ol_words.specs.Words.{pieces_behind};
ghost use Rattle.ol_bytes.specs.Reading.{Gives};
ghost use Rattle.ol_script.specs.Words.{actor_by, actor_of, is_decimal as is_decimal_lem, is_row as is_row_lem, leads_well as leads_well_lem, name_of, names_in_words, number_between, place_by_parts, place_number, register_of, row_of, target_by_parts, target_in_text, value_of};

use crate::pieces::{next, two};
use ol_values::{Actor, LABEL_LIMIT, Label, Labels, NAMES_LIMIT, ROW_LIMIT, Row, Target};
use ol_words::cut;

/// The most digits of a number in a script.
const DIGITS_LIMIT: usize = 5;

/// The greatest page or slot that a script may name.
const GREATEST_PLACE: u32 = 99_999;

fn is_digit(byte: u8) -> bool
    ensures { result ≡ is_digit_lem byte }
{
    byte.is_ascii_digit()
}

// Whether no zero stands in front of further digits.
fn leads_well(word: &[u8]) -> bool
    ensures { result ≡ leads_well_lem word.now }
{
    match word {
        [] => false,
        [_] => true,
        [first, ..] => *first != b'0',
    }
}

fn are_digits(bytes: &[u8]) -> bool
    ensures { result ≡ list_all is_digit_lem bytes.now }
{
    bytes.iter().all(|b| is_digit(*b))
}

// Whether the word is a number in decimal, without leading zeros.
fn is_decimal(word: &[u8]) -> bool
    ensures { result ≡ is_decimal_lem word.now }
{
    leads_well(word) && are_digits(word)
}

// The number that these digits stand for.
fn value_of(word: &[u8]) -> u32
    requires digits { IsTrue (list_all is_digit_lem word.now) }
    requires limit { length word.now ≤ 5 }
    ensures { result ≡ value_of word.now }
{
    let mut value = 0;
    for byte in word {
        value = value * 10 + u32::from(*byte - b'0');
    }
    value
}

/// A number from `least` to `most`, which are at most 99,999.
#[tactic(auto, unfolding(crate::specs::Words::number_between))]
pub(crate) fn number_between(least: u32, most: u32, word: &[u8]) -> Option<u32>
    requires { most ≤ 99999 }
    ensures value { Gives (λ n. n) result (number_between least most word.now) }
    ensures range { IfSome result (λ n. (least ≤ n) × (n ≤ most)) }
{
    if word.len() > DIGITS_LIMIT || !is_decimal(word) {
        return None;
    }
    let value = value_of(word);
    if least <= value && value <= most {
        Some(value)
    } else {
        None
    }
}

#[tactic(auto, unfolding(crate::specs::Words::actor_by))]
fn actor_by(letter: u8, number: &[u8]) -> Option<Actor>
    ensures { Gives (λ a. a) result (actor_by letter number.now) }
{
    match letter {
        b's' => Some(Actor::Session(number_between(1, 16, number)? as u8)),
        b'a' => Some(Actor::Archiver(number_between(1, 4, number)? as u8)),
        b'l' => number_between(1, 1, number).map(|_| Actor::Backer),
        b'f' => number_between(1, 1, number).map(|_| Actor::Flusher),
        b'c' => number_between(1, 1, number).map(|_| Actor::Checkpointer),
        b'w' => number_between(1, 1, number).map(|_| Actor::Warmer),
        _ => None,
    }
}

/// An actor.
pub(crate) fn actor_of(word: &[u8]) -> Option<Actor>
    ensures { Gives (λ a. a) result (actor_of word.now) }
{
    match word {
        [] => None,
        [letter, number @ ..] => actor_by(*letter, number),
    }
}

/// A register.
pub(crate) fn register_of(word: &[u8]) -> Option<u8>
    ensures { Gives (λ n. n) result (register_of word.now) }
{
    match word {
        [b'r', number @ ..] => Some(number_between(0, 9, number)? as u8),
        _ => None,
    }
}

fn is_name_byte(byte: u8) -> bool
    ensures { result ≡ (is_small_letter byte || is_digit_lem byte) }
{
    byte.is_ascii_lowercase() || byte.is_ascii_digit()
}

fn are_name_bytes(bytes: &[u8]) -> bool
    ensures { result ≡ list_all (λ b. is_small_letter b || is_digit_lem b) bytes.now }
{
    bytes.iter().all(|b| is_name_byte(*b))
}

fn begins_small(word: &[u8]) -> bool
    ensures { result ≡ begins_small word.now }
{
    match word {
        [] => false,
        [first, ..] => first.is_ascii_lowercase(),
    }
}

fn is_name(word: &[u8]) -> bool
    ensures { result ≡ is_name_lem word.now }
{
    begins_small(word) && word.len() <= LABEL_LIMIT && are_name_bytes(word)
}

/// The name of a space.
pub(crate) fn name_of(word: &[u8]) -> Option<Label>
    ensures { Gives (λ n. n) result (name_of word.now) }
{
    if is_name(word) {
        Label::new(word)
    } else {
        None
    }
}

/// A page of a space, or a slot of a page.
pub(crate) fn place_number(word: &[u8]) -> Option<u32>
    ensures { Gives (λ n. n) result (place_number word.now) }
{
    number_between(0, GREATEST_PLACE, word)
}

#[tactic(auto, unfolding(crate::specs::Words::place_by_parts))]
fn place_by_parts(word: &[u8], behind: Option<&[u8]>) -> Option<Target>
    ensures { Gives (λ t. t) result (place_by_parts word.now (pieces_behind 58 behind.entry)) }
{
    let (page, slot) = two(b':', behind)?;
    let space = name_of(word)?;
    let page = place_number(page)?;
    let slot = place_number(slot)?;
    Some(Target::At { space, page, slot })
}

/// A register, or a place as SPACE:PAGE:SLOT.
#[tactic(auto, unfolding(crate::specs::Words::target_by_parts))]
pub(crate) fn target_in_text(word: &[u8]) -> Option<Target>
    ensures { Gives (λ t. t) result (target_in_text word.now) }
{
    let (first, behind) = cut(b':', word);
    if behind.is_none() {
        Some(Target::Reg(register_of(first)?))
    } else {
        place_by_parts(first, behind)
    }
}

/// Whether a byte is printed as itself, and a row of a script may have it: not a blank, not the backslash.
pub(crate) fn is_plain(byte: u8) -> bool
    ensures { result ≡ is_plain_lem byte }
{
    byte > b' ' && byte < 127 && byte != b'\\'
}

fn are_plain(bytes: &[u8]) -> bool
    ensures { result ≡ list_all is_plain_lem bytes.now }
{
    bytes.iter().all(|b| is_plain(*b))
}

fn is_row(bytes: &[u8]) -> bool
    ensures { result ≡ is_row_lem bytes.now }
{
    bytes.len() <= ROW_LIMIT && are_plain(bytes)
}

/// A row, behind an equals sign.
pub(crate) fn row_of(word: &[u8]) -> Option<Row>
    ensures { Gives (λ r. r) result (row_of word.now) }
{
    match word {
        [b'=', bytes @ ..] if is_row(bytes) => Row::new(bytes),
        _ => None,
    }
}

// Whether one of the names is this word.
fn contains(names: &[Label], word: &[u8]) -> bool
    ensures { result ≡ list_any (λ name. bytes_eq name word.now) names.now }
{
    names.iter().any(|name| name.as_slice() == word)
}

/// 1 to 16 different names of spaces, which are all the words that are left.
pub(crate) fn names_in_words(behind: Option<&[u8]>) -> Option<Labels>
    ensures { Gives (λ n. n) result (names_in_words (pieces_behind 32 behind.entry)) }
{
    let mut names = Labels::new();
    let mut rest = behind;
    while let Some((word, behind)) = next(b' ', rest) {
        if names.as_slice().len() == NAMES_LIMIT || contains(names.as_slice(), word) {
            return None;
        }
        names.push(name_of(word)?);
        rest = behind;
    }
    if names.as_slice().is_empty() {
        None
    } else {
        Some(names)
    }
}
