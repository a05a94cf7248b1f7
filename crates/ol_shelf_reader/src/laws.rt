//! The places that a reader goes through: each law is the contract of a function with an empty body.

ghost use Rattle.std.specs.Prelude.{◌≡◌, List, map, ℕ};
ghost use Rattle.ol_ports.specs.Drive.{blocks_in_order};
ghost use Rattle.ol_ports.specs.Shelf.{block_at, shape_of, volumes_at};
ghost use Rattle.ol_shelf_reader.specs.Streams.{first_of, places_left, places_of};

/// A new reader of a drive has all places of the drive before it. The blocks at these are the drive's volumes in order,
/// laid end to end.
pub fn streams_are_the_shelf()
    ensures first { (shape : List (List ℕ)) (drive : ℕ) → places_left shape (first_of drive) ≡ places_of shape drive }
    ensures blocks { (tapes : List (List (List (List ℕ)))) (drive : ℕ) → map (λ (p : ℕ × ℕ). block_at tapes drive p.0 p.1) (places_of (shape_of tapes) drive) ≡ blocks_in_order (volumes_at tapes drive) }
{}
