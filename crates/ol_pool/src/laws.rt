//! That the pool is a map from places to images, with a set of those that are dirty: each law is the contract of a function
//! with an empty body.

ghost use Rattle.std.specs.Prelude.{◌≡◌, ◌&&◌, ◌||◌, ◌↔◌, List, None, Some, if◌then◌else◌, is_some, not, true, ℕ};
ghost use Rattle.ol_values.specs.Config.{Config, has_page};
ghost use Rattle.ol_pool.specs.Frames.{Frames, HasPlace, frame_of, is_dirty, no_frames, same_place, with_dirty, with_frame, without_dirty};

/// No page is in memory at first, and there are exactly the data pages of the configuration; each page that is in memory is one
/// that there is. An image that is put is that of its place, and each other place has what it had; the same pages are there, and
/// the same are dirty. A page that is noted as dirty, or as dirty no more, is so; each other page stays dirty or not, and all
/// images stay.
pub fn pool_is_a_map()
    ensures none { (c : Config) (space page : ℕ) → frame_of (no_frames c) space page ≡ None }
    ensures places { (c : Config) (space page : ℕ) → HasPlace (no_frames c) space page ↔ (has_page c space page ≡ true) }
    ensures there { (p : Frames) (space page : ℕ) → is_some (frame_of p space page) ≡ true → HasPlace p space page }
    ensures put { (p : Frames) (space page : ℕ) (image : List ℕ) (at_space at_page : ℕ) → HasPlace p space page → frame_of (with_frame p space page image) at_space at_page ≡ (if same_place (space, page) (at_space, at_page) then Some image else frame_of p at_space at_page) }
    ensures put_dirty { (p : Frames) (space page : ℕ) (image : List ℕ) → (with_frame p space page image).dirty ≡ p.dirty }
    ensures put_places { (p : Frames) (space page : ℕ) (image : List ℕ) (at_space at_page : ℕ) → HasPlace (with_frame p space page image) at_space at_page ↔ HasPlace p at_space at_page }
    ensures dirty { (p : Frames) (space page at_space at_page : ℕ) → is_dirty (with_dirty p space page) at_space at_page ≡ (same_place (space, page) (at_space, at_page) || is_dirty p at_space at_page) }
    ensures clean { (p : Frames) (space page at_space at_page : ℕ) → is_dirty (without_dirty p space page) at_space at_page ≡ (not (same_place (space, page) (at_space, at_page)) && is_dirty p at_space at_page) }
    ensures frames { (p : Frames) (space page : ℕ) → ((with_dirty p space page).spaces ≡ p.spaces) × ((without_dirty p space page).spaces ≡ p.spaces) }
{}
