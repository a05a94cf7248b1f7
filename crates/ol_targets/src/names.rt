//! Spaces by their names.

ghost use Rattle.std.specs.Prelude.{◌≡◌, ◌≤◌, ◌<◌, ◌++◌, ◌∷◌, [], IfSome, length};
ghost use Rattle.std.specs.List.{All};
ghost use Rattle.ol_values.specs.Config.{space_named as config_space_named};
ghost use Rattle.ol_model.specs.ArchiveTurns.{spaces_named};

use ol_chunks::{ChunkTable, Name};
use ol_values::{Label, Labels, NAMES_LIMIT};
use std::marker::Model;

/// The space of that name, if there is one.
pub fn space_named(table: &ChunkTable, name: &Label) -> Option<u8>
    ensures value { result ≡ config_space_named table.now name.now }
    ensures within { IfSome result (λ space. space < length table.now.spaces) }
    ensures few { length table.now.spaces ≤ 16 }
{
    // It tells that the configuration is within all limits.
    let _spaces = table.spaces();
    match Name::new(name.as_slice()) {
        Some(name) => table.find(&name),
        None => None,
    }
}

/// At most 16 numbers of spaces, which contracts see as a list. They are held in place, so that they take no memory.
#[derive(Clone, Copy, Debug, PartialEq, Eq)]
pub struct Spaces {
    count: u8,
    numbers: [u8; NAMES_LIMIT],
}

impl Model for Spaces {
    ghost use Rattle.std.specs.Prelude.{List, ℕ, length, take};
    ghost use Rattle.std.proofs.Common.{ap, ◌∙◌};
    ghost use Rattle.ol_values.specs.Held.{IsHeld, held_in, held_back, length-held};

    ghost Value = { List ℕ };

    ghost view = { λ r. take r.count r.numbers };

    ghost invariant = { λ r. IsHeld 0 16 r.count r.numbers };

    ghost inverse = { λ v. record { count = length v; numbers = held_in 0 16 v } };

    ghost inverse_ok = { λ a h.
        ap (λ (n : ℕ). let r : Inside = record { count = n; numbers = held_in 0 16 (take a.count a.numbers) } in r) (length-held 0 16 a.count a.numbers h)
        ∙ ap (λ (b : List ℕ). let r : Inside = record { count = a.count; numbers = b } in r) (held_back 0 16 a.count a.numbers h) };
}

impl Spaces {
    /// No space.
    fn new() -> Spaces
        ensures { result ≡ [] }
    {
        Spaces {
            count: 0,
            numbers: [0; NAMES_LIMIT],
        }
    }

    /// One space more, where there are fewer than 16.
    fn push(&mut self, space: u8)
        requires { length self.old < 16 }
        ensures { self.new ≡ self.old ++ space ∷ [] }
    {
        self.numbers[self.count as usize] = space;
        self.count += 1;
    }

    /// The numbers in order.
    pub fn as_slice(&self) -> &[u8]
        ensures value { result.now ≡ self.now }
        ensures limit { length self.now ≤ 16 }
    {
        &self.numbers[..self.count as usize]
    }
}

/// The spaces of these names, in the order given; `None` exactly where one of the names is no space's.
pub fn find_spaces(table: &ChunkTable, names: &Labels) -> Option<Spaces>
    ensures value { result ≡ spaces_named table.now names.now }
    ensures within { IfSome result (λ spaces. All (λ space. space < length table.now.spaces) spaces) }
{
    let mut spaces = Spaces::new();
    for name in names.as_slice() {
        let space = space_named(table, name)?;
        spaces.push(space);
    }
    Some(spaces)
}
