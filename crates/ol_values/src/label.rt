//! A name as a history tells it, and a short list of names, both held in place.

ghost use Rattle.std.specs.Prelude.{◌≡◌, ◌≤◌, ◌<◌, ◌++◌, ◌∷◌, [], length};
ghost use Rattle.std.specs.Option.{SomeIff};

use crate::Bytes;
use std::marker::Model;

/// The most bytes that a label has.
pub const LABEL_LIMIT: usize = 8;

/// The most labels that a list of them has.
pub const NAMES_LIMIT: usize = 16;

/// A label of 1 to 8 bytes, which contracts see as the list of its bytes.
#[derive(Clone, Copy, Debug, PartialEq, Eq)]
pub struct Label {
    bytes: Bytes<LABEL_LIMIT>,
}

impl Model for Label {
    ghost use Rattle.std.specs.Prelude.{List, ℕ, ◌<◌, length};

    ghost Value = { List ℕ };

    ghost view = { λ r. r.bytes };

    ghost invariant = { λ r. 0 < length r.bytes };

    ghost inverse = { λ v. record { bytes = v } };
}

impl Label {
    /// The label of these bytes; None exactly where there are not 1 to 8.
    pub fn new(bytes: &[u8]) -> Option<Label>
        ensures { SomeIff result ((0 < length bytes.now) × (length bytes.now ≤ 8)) bytes.now }
    {
        if bytes.is_empty() {
            return None;
        }
        let bytes = Bytes::new(bytes)?;
        Some(Label { bytes })
    }

    /// The bytes of the label.
    pub fn as_slice(&self) -> &[u8]
        ensures value { result.now ≡ self.now }
        ensures some { 0 < length self.now }
        ensures limit { length self.now ≤ 8 }
    {
        self.bytes.as_slice()
    }
}

/// What fills the places of a list that hold no label.
fn filler() -> Label
    ensures { result ≡ 46 ∷ [] }
{
    Label {
        bytes: Bytes::one(b'.'),
    }
}

/// At most 16 labels, which contracts see as a list. They are held in place, so that a list of them
/// takes no memory.
#[derive(Clone, Copy, Debug, PartialEq, Eq)]
pub struct Labels {
    count: u8,
    labels: [Label; NAMES_LIMIT],
}

impl Model for Labels {
    ghost use Rattle.std.specs.Prelude.{List, ℕ, ◌∷◌, [], length, take};
    ghost use Rattle.std.proofs.Common.{ap, ◌∙◌};
    ghost use Rattle.ol_values.specs.Held.{IsHeld, held_in, held_back, length-held};

    ghost Value = { List (List ℕ) };

    ghost view = { λ r. take r.count r.labels };

    ghost invariant = { λ r. IsHeld (46 ∷ []) 16 r.count r.labels };

    ghost inverse = { λ v. record { count = length v; labels = held_in (46 ∷ []) 16 v } };

    ghost inverse_ok = { λ a h.
        ap (λ (n : ℕ). let r : Inside = record { count = n; labels = held_in (46 ∷ []) 16 (take a.count a.labels) } in r) (length-held (46 ∷ []) 16 a.count a.labels h)
        ∙ ap (λ (b : List (List ℕ)). let r : Inside = record { count = a.count; labels = b } in r) (held_back (46 ∷ []) 16 a.count a.labels h) };
}

impl Labels {
    /// No label.
    pub fn new() -> Labels
        ensures { result ≡ [] }
    {
        Labels {
            count: 0,
            labels: [filler(); NAMES_LIMIT],
        }
    }

    /// One label more, where there are fewer than 16.
    pub fn push(&mut self, label: Label)
        requires { length self.old < 16 }
        ensures { self.new ≡ self.old ++ label ∷ [] }
    {
        self.labels[self.count as usize] = label;
        self.count += 1;
    }

    /// The labels in order.
    pub fn as_slice(&self) -> &[Label]
        ensures value { result.now ≡ self.now }
        ensures limit { length self.now ≤ 16 }
    {
        &self.labels[..self.count as usize]
    }
}
