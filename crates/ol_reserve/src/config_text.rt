//! The text of a configuration, held in place.

ghost use Rattle.std.specs.Prelude.{◌≡◌, ◌≤◌, length};
ghost use Rattle.std.specs.Option.{SomeIff};

use ol_values::Bytes;
use std::marker::Model;

/// The most bytes that the text of a configuration has.
pub const TEXT_LIMIT: usize = 1024;

/// A text of at most 1,024 bytes, which contracts see as the list of its bytes. It is held in place, so that an
/// anchor takes no memory.
#[derive(Debug, PartialEq, Eq, Drop)]
pub struct ConfigText {
    bytes: Bytes<TEXT_LIMIT>,
}

impl Model for ConfigText {
    ghost use Rattle.std.specs.Prelude.{List, ℕ};

    ghost Value = { List ℕ };

    ghost view = { λ r. r.bytes };

    ghost inverse = { λ v. record { bytes = v } };
}

impl ConfigText {
    /// The text of these bytes; None exactly where there are more than 1,024.
    pub fn new(bytes: &[u8]) -> Option<ConfigText>
        ensures { SomeIff result (length bytes.now ≤ 1024) bytes.now }
    {
        let bytes = Bytes::new(bytes)?;
        Some(ConfigText { bytes })
    }

    /// The bytes of the text.
    pub fn bytes(&self) -> &[u8]
        ensures value { result.now ≡ self.now }
        ensures limit { length self.now ≤ 1024 }
    {
        self.bytes.as_slice()
    }
}
