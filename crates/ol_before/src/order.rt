//! Where an image stands among images in order, and the lists of images and of free memory.

ghost use Rattle.std.specs.Prelude.{◌≡◌, ◌≤◌, ◌<◌, ◌+◌, ◌-◌, IfSome, None, filter, find, length, not, remove, vec_capacity, vec_len};
ghost use Rattle.ol_before.specs.Images.{Ascend, image_at, is_in_space, is_of, rank_of, with_image};

use crate::captured::{Captured, Frame};

/// How many images at the front stand before a place.
pub fn rank(held: &[Captured], space: u8, page: u16) -> usize
    requires { Ascend held.now }
    ensures value { result ≡ rank_of space page held.now }
    ensures within { result ≤ length held.now }
{
    let mut low = 0;
    let mut high = held.len();
    while low < high {
        let middle = low + (high - low) / 2;
        if held[middle].is_before(space, page) {
            low = middle + 1;
            continue;
        }
        high = middle;
    }
    low
}

/// The index of the image of a place.
pub fn index_of(held: &[Captured], space: u8, page: u16) -> Option<usize>
    requires { Ascend held.now }
    ensures found { find (is_of space page) held.now ≡ image_at held.now result }
    ensures within { IfSome result (λ at. at < length held.now) }
    ensures kept { IfSome result (λ at. filter (λ i. not (is_of space page i)) held.now ≡ remove held.now at) }
{
    let at = rank(held, space, page);
    if at < held.len() && held[at].is_of(space, page) {
        return Some(at);
    }
    None
}

/// Takes a frame of free memory, writes an image to it and puts that in its place among the others.
pub fn put(
    held: &mut Vec<Captured>,
    free: &mut Vec<Frame>,
    space: u8,
    page: u16,
    image: &[u8; 2048],
)
    requires ascend { Ascend held.old.items }
    requires room { vec_len held.old < vec_capacity held.old }
    requires memory { 0 < vec_len free.old }
    ensures items { held.new.items ≡ with_image (record { space = space; page = page; bytes = image.now }) held.old.items }
    ensures held { vec_len held.new ≡ vec_len held.old + 1 }
    ensures free { vec_len free.new ≡ vec_len free.old - 1 }
    ensures held_room { vec_capacity held.old ≤ vec_capacity held.new }
    ensures free_room { vec_capacity free.new ≡ vec_capacity free.old }
{
    let Some(mut frame) = free.pop() else {
        return;
    };
    *frame = *image;
    let at = rank(held, space, page);
    let _inserted = held.insert(at, Captured::new(space, page, frame));
}

/// Drops the image at an index, and puts its memory to that which is free.
pub fn release(held: &mut Vec<Captured>, free: &mut Vec<Frame>, at: usize)
    requires at { at < vec_len held.old }
    requires room { vec_len free.old < vec_capacity free.old }
    ensures items { held.new.items ≡ remove held.old.items at }
    ensures held { vec_len held.new + 1 ≡ vec_len held.old }
    ensures free { vec_len free.new ≡ vec_len free.old + 1 }
    ensures held_room { vec_capacity held.new ≡ vec_capacity held.old }
    ensures free_room { vec_capacity free.old ≤ vec_capacity free.new }
{
    let frame = held.remove(at).into_frame();
    let _pushed = free.push(frame);
}

/// Drops all images of a space.
pub fn release_space(held: &mut Vec<Captured>, free: &mut Vec<Frame>, space: u8)
    requires { vec_len held.old + vec_len free.old ≤ vec_capacity free.old }
    ensures items { held.new.items ≡ filter (λ i. not (is_in_space space i)) held.old.items }
    ensures count { vec_len held.new + vec_len free.new ≡ vec_len held.old + vec_len free.old }
    ensures held_room { vec_capacity held.new ≡ vec_capacity held.old }
    ensures free_room { vec_capacity free.old ≤ vec_capacity free.new }
{
    let mut at = 0;
    while at < held.len() {
        if !held[at].is_in_space(space) {
            at += 1;
            continue;
        }
        release(held, free, at);
    }
}
