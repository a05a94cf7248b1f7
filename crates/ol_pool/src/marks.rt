//! Which pages are marked.

ghost use Rattle.std.specs.Prelude.{[], ◌≡◌, ◌<◌, IfOk, false, length, replicate, slice_index_or, slice_set};
ghost use Rattle.ol_pool.specs.Frames.{each_page, item_at, with_item};

use crate::NoMemory;
use ol_chunks::ChunkTable;
use std::alloc::Global;
use std::marker::Model;

/// A mark for each page of a space.
#[derive(Drop)]
struct SpaceMarks {
    marks: Vec<bool>,
}

impl Model for SpaceMarks {
    ghost use Rattle.std.specs.Prelude.{Bool, List};

    ghost Value = { List Bool };

    ghost view = { λ m. m.marks.items };
}

impl SpaceMarks {
    /// Marks of so many pages, of which none is set.
    fn new(alloc: Global, pages: u32) -> Result<SpaceMarks, NoMemory>
        ensures { IfOk result (λ marks. marks ≡ replicate pages false) }
    {
        let mut marks = Vec::new(alloc);
        marks.resize(pages as usize, false)?;
        Ok(SpaceMarks { marks })
    }

    /// Whether a page is marked.
    fn get(&self, page: u16) -> bool
        ensures { result ≡ slice_index_or self.now page false }
    {
        self.marks.get(usize::from(page)).copied().unwrap_or(false)
    }

    /// Sets a page's mark.
    fn set(&mut self, page: u16, mark: bool)
        requires { page < length self.old }
        ensures { self.new ≡ slice_set self.old page mark }
    {
        self.marks[usize::from(page)] = mark;
    }
}

/// A mark for each page, by space and page.
#[derive(Drop)]
pub struct Marks {
    spaces: Vec<SpaceMarks>,
}

impl Model for Marks {
    ghost use Rattle.std.specs.Prelude.{Bool, List};

    ghost Value = { List (List Bool) };

    ghost view = { λ m. m.spaces.items };
}

impl Marks {
    /// Marks for the pages of a configuration, of which none is set.
    pub fn new(alloc: Global, table: &ChunkTable) -> Result<Marks, NoMemory>
        ensures { IfOk result (λ marks. marks ≡ each_page table.now false) }
    {
        let mut spaces = Vec::new(alloc);
        for space in 0..table.spaces() {
            spaces.push(SpaceMarks::new(alloc, table.pages(space))?)?;
        }
        Ok(Marks { spaces })
    }

    /// Whether a page is marked.
    pub fn get(&self, space: u8, page: u16) -> bool
        ensures { result ≡ item_at false self.now space page }
    {
        let Some(marks) = self.spaces.get(usize::from(space)) else {
            return false;
        };
        marks.get(page)
    }

    /// Sets a page's mark.
    pub fn set(&mut self, space: u8, page: u16, mark: bool)
        requires space { space < length self.old }
        requires page { page < length (slice_index_or self.old space []) }
        ensures { self.new ≡ with_item self.old space page mark }
    {
        self.spaces[usize::from(space)].set(page, mark);
    }
}
