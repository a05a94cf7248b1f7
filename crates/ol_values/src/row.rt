//! A row: 0 to 63 bytes, held in place.

ghost use Rattle.std.specs.Prelude.{◌≡◌, ◌≤◌, length};
ghost use Rattle.std.specs.Option.{SomeIff};

use crate::Bytes;
use std::marker::Model;

/// The most bytes that a row has.
pub const ROW_LIMIT: usize = 63;

/// A row of 0 to 63 bytes, which contracts see as the list of its bytes.
#[derive(Debug, PartialEq, Eq, Drop)]
pub struct Row {
    bytes: Bytes<ROW_LIMIT>,
}

impl Model for Row {
    ghost use Rattle.std.specs.Prelude.{List, ℕ};

    ghost Value = { List ℕ };

    ghost view = { λ r. r.bytes };

    ghost inverse = { λ v. record { bytes = v } };
}

impl Row {
    /// The row of these bytes; None exactly where there are more than 63.
    pub fn new(bytes: &[u8]) -> Option<Row>
        ensures { SomeIff result (length bytes.now ≤ 63) bytes.now }
    {
        let bytes = Bytes::new(bytes)?;
        Some(Row { bytes })
    }

    /// The bytes of the row.
    pub fn as_slice(&self) -> &[u8]
        ensures value { result.now ≡ self.now }
        ensures limit { length self.now ≤ 63 }
    {
        self.bytes.as_slice()
    }

    /// The same row again.
    pub fn copy(&self) -> Row
        ensures { result ≡ self.now }
    {
        Row { bytes: self.bytes }
    }
}
