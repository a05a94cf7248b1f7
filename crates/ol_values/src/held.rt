//! A short list of bytes, held in place.

ghost use Rattle.std.specs.Prelude.{◌≡◌, ◌≤◌, ◌∷◌, [], length};
ghost use Rattle.std.specs.Option.{SomeIff};

use std::marker::Model;

/// At most `N` bytes, which contracts see as their list. They are held in place, so that they take no memory. What stands
/// past their end is zero, so that equal lists are held alike.
#[derive(Clone, Copy, Debug, PartialEq, Eq)]
pub struct Bytes<const N: usize> {
    count: usize,
    bytes: [u8; N],
}

impl<const N: usize> Model for Bytes<N> {
    ghost use Rattle.std.specs.Prelude.{List, ℕ, length, take};
    ghost use Rattle.std.proofs.Common.{ap, ◌∙◌};
    ghost use Rattle.ol_values.specs.Held.{IsHeld, held_in, held_back, length-held};

    ghost Value = { List ℕ };

    ghost view = { λ r. take r.count r.bytes };

    ghost invariant = { λ r. IsHeld 0 N r.count r.bytes };

    ghost inverse = { λ v. record { count = length v; bytes = held_in 0 N v } };

    ghost inverse_ok = { λ a h.
        ap (λ (n : ℕ). let r : Inside = record { count = n; bytes = held_in 0 N (take a.count a.bytes) } in r) (length-held 0 N a.count a.bytes h)
        ∙ ap (λ (b : List ℕ). let r : Inside = record { count = a.count; bytes = b } in r) (held_back 0 N a.count a.bytes h) };
}

impl<const N: usize> Bytes<N> {
    /// These bytes; None exactly where there are more than `N`.
    pub fn new(bytes: &[u8]) -> Option<Bytes<N>>
        ensures { SomeIff result (length bytes.now ≤ N) bytes.now }
    {
        if bytes.len() > N {
            return None;
        }
        let mut held = [0; N];
        held[..bytes.len()].copy_from_slice(bytes);
        Some(Bytes {
            count: bytes.len(),
            bytes: held,
        })
    }

    /// This byte alone.
    pub(crate) fn one(byte: u8) -> Bytes<N>
        requires { 1 ≤ N }
        ensures { result ≡ byte ∷ [] }
    {
        let mut bytes = [0; N];
        bytes[0] = byte;
        Bytes { count: 1, bytes }
    }

    /// The bytes.
    pub fn as_slice(&self) -> &[u8]
        ensures value { result.now ≡ self.now }
        ensures limit { length self.now ≤ N }
    {
        &self.bytes[..self.count]
    }
}
