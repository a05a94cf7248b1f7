//! The spaces of a configuration with their chunks, and what stands in them.

ghost use Rattle.std.specs.List.{flat_map};
ghost use Rattle.std.specs.Prelude.{◌≡◌, ◌≤◌, ◌∷◌, ◌++◌, [], length, position, bytes_eq, slice_index, sum, IfSome, if◌then◌else◌, ◌==◌, ◌*◌, ◌+◌, ◌<◌};
ghost use Rattle.ol_values.specs.Config.{SpaceConfig, area_pages as area_pages_in, space_at};
ghost use Rattle.ol_chunks.specs.Drafts.{config_in};
ghost use Rattle.ol_chunks.specs.Limits.{chunk_count, reserved_pages as reserved_pages_of};
ghost use Rattle.ol_chunks.specs.Places.{first_chunk_number as first_number_in, holder_from, place_among as place_among_chunks};
ghost use Rattle.ol_chunks.specs.Reading.{has_room as has_room_in};

use crate::name::Name;
use arrayvec::ArrayVec;
use std::marker::Model;

/// The most spaces.
pub(crate) const SPACES: usize = 16;

/// The most chunks of all spaces, without the temporary one.
pub(crate) const CHUNKS: usize = 31;

/// The reserved pages at the front of root.
pub(crate) const RESERVED: u32 = 12;

/// A space: its name, and the pages of each of its chunks.
#[derive(Debug, Drop)]
pub(crate) struct Space {
    name: Name,
    chunks: ArrayVec<u16, CHUNKS>,
}

impl Model for Space {
    ghost use Rattle.ol_values.specs.Config.{SpaceConfig};

    ghost Value = { SpaceConfig };

    ghost view = { λ s. record { name = s.name; chunks = s.chunks.items } };
}

/// What stands in the places of a list that hold no space.
impl Default for Space {
    fn default() -> Space {
        Space {
            name: Name::root(),
            chunks: ArrayVec::new(),
        }
    }
}

impl Space {
    pub(crate) fn new(name: Name, chunks: ArrayVec<u16, CHUNKS>) -> Space
        ensures { result ≡ (let s : SpaceConfig = record { name = name; chunks = chunks.items } in s) }
    {
        Space { name, chunks }
    }

    pub(crate) fn name(&self) -> &Name
        ensures { result.now ≡ self.now.name }
    {
        &self.name
    }

    /// The pages of each chunk.
    pub(crate) fn chunks(&self) -> &[u16]
        ensures { result.now ≡ self.now.chunks }
    {
        self.chunks.as_slice()
    }

    fn copy(&self) -> Space
        ensures { result ≡ self.now }
    {
        let mut chunks = ArrayVec::new();
        for index in 0..self.chunks.len() {
            chunks.push(self.chunks[index]);
        }
        Space {
            name: self.name,
            chunks,
        }
    }
}

/// What a configuration says. What isn't read yet is zero.
#[derive(Debug, Drop)]
pub(crate) struct Layout {
    pub(crate) spaces: ArrayVec<Space, SPACES>,
    pub(crate) physical_space: u8,
    pub(crate) physical_entries: u16,
    pub(crate) log_space: u8,
    pub(crate) log_files: u8,
    pub(crate) log_file_pages: u16,
    pub(crate) image_limit: u16,
}

impl Layout {
    pub(crate) fn copy(&self) -> Layout
        ensures { config_in result ≡ config_in self.now }
    {
        Layout {
            spaces: copy_spaces(&self.spaces),
            physical_space: self.physical_space,
            physical_entries: self.physical_entries,
            log_space: self.log_space,
            log_files: self.log_files,
            log_file_pages: self.log_file_pages,
            image_limit: self.image_limit,
        }
    }

    /// The pages of each chunk of a space.
    pub(crate) fn chunks(&self, space: usize) -> &[u16]
        requires { space < length self.now.spaces.items }
        ensures { result.now ≡ (space_at (config_in self.now) space).chunks }
    {
        self.spaces[space].chunks()
    }

    /// What stands in front of the space's data pages leaves one of them in the first chunk.
    pub(crate) fn has_room(&self, space: usize) -> bool
        requires { space < length self.now.spaces.items }
        ensures { result ≡ has_room_in (config_in self.now) space }
    {
        self.area_pages(space) < u32::from(first_of(self.chunks(space)))
    }

    /// The pages in front of the space's data pages.
    pub(crate) fn area_pages(&self, space: usize) -> u32
        ensures { result ≡ area_pages_in (config_in self.now) space }
    {
        let logs = if space == usize::from(self.log_space) {
            u32::from(self.log_files) * u32::from(self.log_file_pages)
        } else {
            0
        };
        reserved_pages(space) + self.physical_pages(space) + logs
    }

    /// The pages of the physical log in a space.
    pub(crate) fn physical_pages(&self, space: usize) -> u32
        ensures { result ≡ (if space == self.now.physical_space then 2 * self.now.physical_entries else 0) }
    {
        if space == usize::from(self.physical_space) {
            2 * u32::from(self.physical_entries)
        } else {
            0
        }
    }

    /// The number of a space's first chunk.
    pub(crate) fn first_number(&self, space: usize) -> usize
        requires there { space ≤ length self.now.spaces.items }
        requires few { chunk_count self.now.spaces.items ≤ 31 }
        ensures value { result ≡ first_number_in (config_in self.now) space }
        ensures limit { result ≤ 31 }
    {
        count_chunks(&self.spaces[..space])
    }
}

/// The reserved pages of a space.
pub(crate) fn reserved_pages(space: usize) -> u32
    ensures { result ≡ reserved_pages_of space }
{
    if space == 0 { RESERVED } else { 0 }
}

/// The pages of the first of these chunks, 0 where there is none.
pub(crate) fn first_of(chunks: &[u16]) -> u16
    ensures { result ≡ slice_index chunks.now 0 }
{
    match chunks {
        [] => 0,
        [first, ..] => *first,
    }
}

/// How many chunks these spaces have.
pub(crate) fn count_chunks(spaces: &[Space]) -> usize
    requires { chunk_count spaces.now ≤ 31 }
    ensures { result ≡ chunk_count spaces.now }
{
    spaces.iter().map(|s| s.chunks().len()).sum()
}

/// The number of the space of this name.
pub(crate) fn find_space(spaces: &[Space], name: &[u8]) -> Option<usize>
    ensures value { result ≡ position (λ (s : SpaceConfig). bytes_eq s.name name.now) spaces.now }
    ensures bound { IfSome result (λ i. i < length spaces.now) }
{
    spaces.iter().position(|s| s.name().bytes() == name)
}

/// The pages of all these chunks.
pub(crate) fn all_pages(chunks: &[u16]) -> u32
    requires { length chunks.now ≤ 31 }
    ensures { result ≡ sum chunks.now }
{
    chunks.iter().map(|pages| u32::from(*pages)).sum()
}

/// The space of a chunk by its number over all these spaces.
pub(crate) fn holder(spaces: &[Space], chunk: usize) -> Option<usize>
    ensures value { result ≡ holder_from 0 spaces.now chunk }
    ensures there { IfSome result (λ space. space < length spaces.now) }
{
    let mut left = chunk;
    for (space, s) in spaces.iter().enumerate() {
        let count = s.chunks().len();
        if left < count {
            return Some(space);
        }
        left -= count;
    }
    None
}

/// The pages of a chunk by its number over all these spaces, and of one more chunk behind them.
pub(crate) fn size_of_chunk(spaces: &[Space], last: u16, chunk: usize) -> u16
    ensures { result ≡ slice_index (flat_map (λ (s : SpaceConfig). s.chunks) spaces.now ++ last ∷ []) chunk }
{
    let mut left = chunk;
    for s in spaces {
        let chunks = s.chunks();
        if left < chunks.len() {
            return chunks[left];
        }
        left -= chunks.len();
    }
    if left == 0 { last } else { 0 }
}

/// The place of a page among the pages of these chunks, of which the first has this number.
pub(crate) fn place_among(first: usize, chunks: &[u16], page: u32) -> Option<(usize, u32)>
    requires { first + length chunks.now ≤ 255 }
    ensures value { result ≡ place_among_chunks first chunks.now page }
    ensures there { IfSome result (λ p. p.0 < first + length chunks.now) }
{
    let mut left = page;
    for (number, pages) in chunks.iter().enumerate() {
        let pages = u32::from(*pages);
        if left < pages {
            return Some((first + number, left));
        }
        left -= pages;
    }
    None
}

fn copy_spaces(spaces: &ArrayVec<Space, SPACES>) -> ArrayVec<Space, SPACES>
    ensures { result.items ≡ spaces.now.items }
{
    let mut copies = ArrayVec::new();
    for index in 0..spaces.len() {
        copies.push(spaces[index].copy());
    }
    copies
}
