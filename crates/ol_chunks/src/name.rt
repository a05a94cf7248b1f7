//! The names of spaces.

ghost use Rattle.std.specs.Prelude.{◌≡◌, ◌||◌, codes, true};
ghost use Rattle.std.specs.List.{list_all};
ghost use Rattle.std.specs.Option.{SomeIff};
ghost use Rattle.ol_values.specs.Config.{begins_small as bytes_begin_small, is_digit as is_digit_byte, is_name as is_name_bytes, is_small_letter as is_small_letter_byte};

use ol_values::{LABEL_LIMIT, Label};
use std::marker::Model;

/// The bytes of the name of the first space.
pub(crate) const ROOT: &[u8] = b"root";

/// The name of a space: a small letter, and then at most 7 small letters or digits. Contracts
/// see it as the list of its bytes.
#[derive(Clone, Copy, Debug, PartialEq, Eq)]
pub struct Name {
    label: Label,
}

impl Model for Name {
    ghost use Rattle.std.specs.Prelude.{List, ℕ, ◌≡◌, true};
    ghost use Rattle.ol_values.specs.Config.{is_name};

    ghost Value = { List ℕ };

    ghost view = { λ r. r.label };

    ghost invariant = { λ r. is_name r.label ≡ true };

    ghost inverse = { λ v. record { label = v } };
}

impl Name {
    /// The name of the first space.
    pub(crate) fn root() -> Name
        ensures { result ≡ codes "root" }
    {
        Name::new(ROOT).unwrap()
    }

    /// The name of these bytes; None exactly where they are no name.
    pub fn new(bytes: &[u8]) -> Option<Name>
        ensures { SomeIff result (is_name_bytes bytes.now ≡ true) bytes.now }
    {
        if !is_name(bytes) {
            return None;
        }
        let label = Label::new(bytes)?;
        Some(Name { label })
    }

    /// The bytes of the name.
    pub fn bytes(&self) -> &[u8]
        ensures value { result.now ≡ self.now }
        ensures name { is_name_bytes self.now ≡ true }
    {
        self.label.as_slice()
    }
}

fn is_name(bytes: &[u8]) -> bool
    ensures { result ≡ is_name_bytes bytes.now }
{
    begins_small(bytes) && bytes.len() <= LABEL_LIMIT && are_small_or_digits(bytes)
}

fn begins_small(bytes: &[u8]) -> bool
    ensures { result ≡ bytes_begin_small bytes.now }
{
    match bytes {
        [] => false,
        [first, ..] => is_small_letter(*first),
    }
}

fn are_small_or_digits(bytes: &[u8]) -> bool
    ensures { result ≡ list_all (λ b. is_small_letter_byte b || is_digit_byte b) bytes.now }
{
    bytes.iter().all(|b| is_small_letter(*b) || is_digit(*b))
}

fn is_small_letter(byte: u8) -> bool
    ensures { result ≡ is_small_letter_byte byte }
{
    byte.is_ascii_lowercase()
}

fn is_digit(byte: u8) -> bool
    ensures { result ≡ is_digit_byte byte }
{
    byte.is_ascii_digit()
}
