//! The pages of all spaces.

ghost use Rattle.std.specs.Prelude.{[], ◌≡◌, ◌<◌, IfOk, None, OnErr, OnOk, Some, length, slice_index_or};
ghost use Rattle.std.specs.Option.{option_copied, option_copied_mut};
ghost use Rattle.std.specs.Borrow.{Array, LendsIf, sem, u8 as byte};
ghost use Rattle.ol_pool.specs.Frames.{each_page, item_at, with_item};
ghost use Rattle.ol_pool.specs.contracts.spaces.Spaces.{the_row};

use crate::NoMemory;
use crate::space::Space;
use ol_chunks::ChunkTable;
use std::alloc::Global;
use std::marker::Model;

/// The frames of all pages, by space and page.
#[derive(Drop)]
pub struct Spaces {
    spaces: Vec<Space>,
}

impl Model for Spaces {
    ghost use Rattle.std.specs.Prelude.{List, Option, ℕ};

    ghost Value = { List (List (Option (List ℕ))) };

    ghost view = { λ s. s.spaces.items };
}

impl Spaces {
    /// The pages of a configuration, of which none has memory.
    pub fn new(alloc: Global, table: &ChunkTable) -> Result<Spaces, NoMemory>
        ensures { IfOk result (λ spaces. spaces ≡ each_page table.now None) }
    {
        let mut spaces = Vec::new(alloc);
        for space in 0..table.spaces() {
            spaces.push(Space::new(alloc, table.pages(space))?)?;
        }
        Ok(Spaces { spaces })
    }

    /// The image of a page.
    pub fn image(&self, space: u8, page: u16) -> Option<&[u8; 2048]>
        ensures { option_copied result ≡ item_at None self.now space page }
    {
        self.spaces.get(usize::from(space))?.image(page)
    }

    /// The image of a page, to be changed.
    pub fn image_mut(&mut self, space: u8, page: u16) -> Option<&mut [u8; 2048]>
        ensures* writes_back { sem 𝓛 (LendsIf the_row (Array byte 2048) self.entry result (λ w. with_item self.old space page (Some w)) self.old) }
        ensures image { option_copied_mut result ≡ item_at None self.old space page }
    {
        self.spaces.get_mut(usize::from(space))?.image_mut(page)
    }

    /// Puts a page's image into its memory, which is allocated where there was none.
    pub fn put(
        &mut self,
        alloc: Global,
        space: u8,
        page: u16,
        image: &[u8; 2048],
    ) -> Result<(), NoMemory>
        requires space { space < length self.old }
        requires page { page < length (slice_index_or self.old space []) }
        ensures ok { OnOk result (self.new ≡ with_item self.old space page (Some image.now)) }
        ensures memory { OnErr result (item_at None self.old space page ≡ None) }
        ensures unchanged { OnErr result (self.new ≡ self.old) }
    {
        self.spaces[usize::from(space)].put(alloc, page, image)
    }
}
