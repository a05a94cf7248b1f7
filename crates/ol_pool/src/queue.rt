//! The list of dirty pages.

ghost use Rattle.std.specs.Prelude.{[], ◌≡◌, ◌≤◌, ◌<◌, ◌++◌, ◌∷◌, filter, length, not, slice_get};
ghost use Rattle.std.specs.List.{count_by};
ghost use Rattle.std.specs.VecDeque.{deque_capacity};
ghost use Rattle.ol_pool.specs.Frames.{same_place};
ghost use Rattle.ol_pool.specs.Stored.{begins_so};

use std::collections::VecDeque;

/// Space and page.
pub type Place = (u8, u16);

/// Whether two places are one.
fn is_same(place: Place, other: Place) -> bool
    ensures { result ≡ same_place place other }
{
    place.0 == other.0 && place.1 == other.1
}

/// Puts a place behind those of a list that has room for it.
pub fn add_place(places: &mut VecDeque<Place>, place: Place)
    requires { length places.old.items < deque_capacity places.old }
    ensures items { places.new.items ≡ places.old.items ++ place ∷ [] }
    ensures capacity { deque_capacity places.new ≡ deque_capacity places.old }
{
    let _pushed = places.push_back(place);
}

/// The first place of a list.
pub fn first_place(places: &VecDeque<Place>) -> Option<Place>
    ensures { result ≡ slice_get places.now.items 0 }
{
    places.front().copied()
}

/// Whether a place stands first in a list.
fn stands_first(places: &VecDeque<Place>, place: Place) -> bool
    ensures { result ≡ begins_so (same_place place) places.now.items }
{
    match first_place(places) {
        Some(first) => is_same(place, first),
        None => false,
    }
}

/// Drops a place that stands at most once in a list, without a look through the list where it stands first.
pub fn drop_place(places: &mut VecDeque<Place>, place: Place)
    requires { count_by (same_place place) places.old.items ≤ 1 }
    ensures items { places.new.items ≡ filter (λ other. not (same_place place other)) places.old.items }
    ensures capacity { deque_capacity places.new ≡ deque_capacity places.old }
{
    if stands_first(places, place) {
        let _first = places.pop_front();
        return;
    }
    places.retain(|other| !is_same(place, *other));
}
