//! That captured images are a finite map: each law is the contract of a function with an empty body.

ghost use Rattle.std.specs.Prelude.{◌≡◌, ◌≤◌, ◌<◌, ◌+◌, ◌&&◌, ◌==◌, Bool, None, Some, if◌then◌else◌, length, ℕ};
ghost use Rattle.ol_before.specs.Images.{Captures, Image, captured, image_of, is_in_space, is_of, no_captures, with_room, without};

/// No place has an image at first. A captured image is that of its place, and one more; a taken one is held no more, nor are
/// those of a space that is dropped; each other place has the image that it had. What is captured goes into spare memory, and
/// the memory of what is dropped is spare.
pub fn captures_are_a_map()
    ensures none { (limit space page : ℕ) → image_of (no_captures limit).held space page ≡ None }
    ensures room { (c : Captures) → ((with_room c).held ≡ c.held) × (1 ≤ (with_room c).spare) }
    ensures captured { (i : Image) (c : Captures) (space page : ℕ) → image_of (captured i c).held space page ≡ (if is_of space page i then Some i.bytes else image_of c.held space page) }
    ensures count { (i : Image) (c : Captures) → length (captured i c).held ≡ length c.held + 1 }
    ensures taken { (c : Captures) (space page at_space at_page : ℕ) → image_of (without (is_of space page) c).held at_space at_page ≡ (if (at_space == space) && (at_page == page) then None else image_of c.held at_space at_page) }
    ensures dropped { (c : Captures) (space at_space at_page : ℕ) → image_of (without (is_in_space space) c).held at_space at_page ≡ (if at_space == space then None else image_of c.held at_space at_page) }
    ensures memory { (i : Image) (c : Captures) → 0 < c.spare → length (captured i c).held + (captured i c).spare ≡ length c.held + c.spare }
    ensures freed { (test : Image → Bool) (c : Captures) → length (without test c).held + (without test c).spare ≡ length c.held + c.spare }
{}
