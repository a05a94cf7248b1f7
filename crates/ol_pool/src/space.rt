//! The pages of one space.

ghost use Rattle.std.specs.Prelude.{◌≡◌, ◌<◌, IfOk, None, OnErr, OnOk, Some, length, replicate, slice_index_or, slice_set};
ghost use Rattle.std.specs.Option.{option_copied, option_copied_mut};
ghost use Rattle.std.specs.Borrow.{Array, LendsIf, sem, u8 as byte};
ghost use Rattle.ol_pool.specs.contracts.space.Space.{the_row};

use crate::NoMemory;
use crate::frame::Frame;
use std::alloc::Global;
use std::marker::Model;

/// The frames of a space's pages.
#[derive(Drop)]
pub struct Space {
    frames: Vec<Frame>,
}

impl Model for Space {
    ghost use Rattle.std.specs.Prelude.{List, Option, ℕ};

    ghost Value = { List (Option (List ℕ)) };

    ghost view = { λ s. s.frames.items };
}

impl Space {
    /// So many pages, of which none has memory.
    pub fn new(alloc: Global, pages: u32) -> Result<Space, NoMemory>
        ensures { IfOk result (λ space. space ≡ replicate pages None) }
    {
        let mut frames = Vec::new(alloc);
        for _ in 0..pages {
            frames.push(Frame::new())?;
        }
        Ok(Space { frames })
    }

    /// The image of a page.
    pub fn image(&self, page: u16) -> Option<&[u8; 2048]>
        ensures { option_copied result ≡ slice_index_or self.now page None }
    {
        self.frames.get(usize::from(page))?.image()
    }

    /// The image of a page, to be changed.
    pub fn image_mut(&mut self, page: u16) -> Option<&mut [u8; 2048]>
        ensures* writes_back { sem 𝓛 (LendsIf the_row (Array byte 2048) self.entry result (λ w. slice_set self.old page (Some w)) self.old) }
        ensures image { option_copied_mut result ≡ slice_index_or self.old page None }
    {
        self.frames.get_mut(usize::from(page))?.image_mut()
    }

    /// Puts a page's image into its memory, which is allocated where there was none.
    pub fn put(&mut self, alloc: Global, page: u16, image: &[u8; 2048]) -> Result<(), NoMemory>
        requires { page < length self.old }
        ensures ok { OnOk result (self.new ≡ slice_set self.old page (Some image.now)) }
        ensures memory { OnErr result (slice_index_or self.old page None ≡ None) }
        ensures unchanged { OnErr result (self.new ≡ self.old) }
    {
        self.frames[usize::from(page)].put(alloc, image)
    }
}
