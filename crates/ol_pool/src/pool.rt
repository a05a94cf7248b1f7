//! All pages.

ghost use Rattle.std.specs.Prelude.{◌≡◌, IfOk, IfSome, None, OnErr, OnOk, false, if◌then◌else◌, is_some, slice_get, true};
ghost use Rattle.std.specs.Option.{option_copied, option_copied_mut};
ghost use Rattle.std.specs.Borrow.{Array, LendsIf, sem, u8 as byte};
ghost use Rattle.ol_pool.specs.Frames.{HasPlace, IsPool, each_page, frame_of, is_dirty, no_frames, with_dirty, with_frame, without_dirty};
ghost use Rattle.ol_pool.specs.Stored.{count_pages};
ghost use Rattle.ol_pool.specs.contracts.pool.Pool.{the_row};

use crate::NoMemory;
use crate::marks::Marks;
use crate::queue::{Place, add_place, drop_place, first_place};
use crate::spaces::Spaces;
use ol_chunks::ChunkTable;
use std::alloc::Global;
use std::collections::VecDeque;
use std::marker::Model;

/// Data pages in memory, by space and page, and which of them are dirty.
#[derive(Drop)]
pub struct Pool {
    spaces: Spaces,
    // Which pages are in the list of those that are dirty.
    marks: Marks,
    // The longest dirty first, with room for all pages.
    dirty: VecDeque<Place>,
    alloc: Global,
}

impl Model for Pool {
    ghost use Rattle.std.specs.VecDeque.{deque_capacity};
    ghost use Rattle.ol_pool.specs.Frames.{Frames};
    ghost use Rattle.ol_pool.specs.Stored.{IsStored};

    ghost Value = { Frames };

    ghost view = { λ p. record { spaces = p.spaces; dirty = p.dirty.items } };

    ghost invariant = { λ p. IsStored (record { spaces = p.spaces; dirty = p.dirty.items }) p.marks (deque_capacity p.dirty) };
}

impl Pool {
    /// Holds no page, and has room to note all pages of the configuration, and each of them as dirty. `NoMemory` comes where
    /// that was refused.
    pub fn new(alloc: Global, table: &ChunkTable) -> Result<Pool, NoMemory>
        ensures { IfOk result (λ p. p ≡ no_frames table.now) }
    {
        let spaces = Spaces::new(alloc, table)?;
        let marks = Marks::new(alloc, table)?;
        let dirty = VecDeque::with_capacity(alloc, all_pages(table) as usize)?;
        Ok(Pool {
            spaces,
            marks,
            dirty,
            alloc,
        })
    }

    /// Whether a page is in memory.
    pub fn has(&self, space: u8, page: u16) -> bool
        ensures { result ≡ is_some (frame_of self.now space page) }
    {
        self.get(space, page).is_some()
    }

    /// The image of a page, where it is in memory.
    pub fn get(&self, space: u8, page: u16) -> Option<&[u8; 2048]>
        ensures { option_copied result ≡ frame_of self.now space page }
    {
        self.spaces.image(space, page)
    }

    /// The image of a page, to be changed. None exactly where it is not in memory. All else stays.
    pub fn fix(&mut self, space: u8, page: u16) -> Option<&mut [u8; 2048]>
        ensures* writes_back { sem 𝓛 (LendsIf the_row (Array byte 2048) self.entry result (with_frame self.old space page) self.old) }
        ensures image { option_copied_mut result ≡ frame_of self.old space page }
    {
        self.spaces.image_mut(space, page)
    }

    /// Puts a page's image into its memory, which is allocated where there was none. `NoMemory` comes only there, and changes
    /// nothing.
    pub fn put(&mut self, space: u8, page: u16, image: &[u8; 2048]) -> Result<(), NoMemory>
        requires { HasPlace self.old space page }
        ensures ok { OnOk result (self.new ≡ with_frame self.old space page image.now) }
        ensures memory { OnErr result (frame_of self.old space page ≡ None) }
        ensures unchanged { OnErr result (self.new ≡ self.old) }
    {
        self.spaces.put(self.alloc, space, page, image)
    }

    /// Whether a page is dirty.
    pub fn is_dirty(&self, space: u8, page: u16) -> bool
        ensures { result ≡ is_dirty self.now space page }
    {
        self.marks.get(space, page)
    }

    /// The page that is longest dirty. None exactly where no page is dirty.
    pub fn oldest_dirty(&self) -> Option<(u8, u16)>
        ensures oldest { result ≡ slice_get self.now.dirty 0 }
        ensures frame { IfSome result (λ place. is_some (frame_of self.now place.0 place.1) ≡ true) }
        ensures pool { IsPool self.now }
    {
        first_place(&self.dirty)
    }

    /// Notes a page as dirty, or as dirty no more.
    pub fn set_dirty(&mut self, space: u8, page: u16, dirty: bool)
        requires { is_some (frame_of self.old space page) ≡ true }
        ensures { self.new ≡ (if dirty then with_dirty self.old space page else without_dirty self.old space page) }
    {
        if dirty {
            self.mark(space, page);
        } else {
            self.unmark(space, page);
        }
    }

    /// Notes a page as dirty.
    fn mark(&mut self, space: u8, page: u16)
        requires { is_some (frame_of self.old space page) ≡ true }
        ensures { self.new ≡ with_dirty self.old space page }
    {
        if self.is_dirty(space, page) {
            return;
        }
        self.marks.set(space, page, true);
        add_place(&mut self.dirty, (space, page));
    }

    /// Notes a page as dirty no more.
    fn unmark(&mut self, space: u8, page: u16)
        ensures { self.new ≡ without_dirty self.old space page }
    {
        if !self.is_dirty(space, page) {
            return;
        }
        self.marks.set(space, page, false);
        drop_place(&mut self.dirty, (space, page));
    }
}

/// How many data pages there are in all spaces.
fn all_pages(table: &ChunkTable) -> u32
    ensures { result ≡ count_pages (each_page table.now false) }
{
    let mut all = 0;
    for space in 0..table.spaces() {
        all += table.pages(space);
    }
    all
}
