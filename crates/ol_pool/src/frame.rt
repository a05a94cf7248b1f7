//! The memory of one page.

ghost use Rattle.std.specs.Prelude.{◌≡◌, None, OnErr, OnOk, Some};
ghost use Rattle.std.specs.Option.{option_copied, option_copied_mut};
ghost use Rattle.std.specs.Borrow.{Array, LendsIf, sem, u8 as byte};
ghost use Rattle.ol_pool.specs.contracts.frame.Frame.{the_row};

use crate::NoMemory;
use std::alloc::Global;
use std::marker::Model;

/// The memory of a page, if it has some.
#[derive(Drop)]
pub struct Frame {
    image: Option<Box<[u8; 2048]>>,
}

impl Model for Frame {
    ghost use Rattle.std.specs.Prelude.{List, Option, option_map, ℕ};

    ghost Value = { Option (List ℕ) };

    ghost view = { λ f. option_map (λ b. b.value) f.image };
}

impl Frame {
    /// A page that has no memory.
    pub fn new() -> Frame
        ensures { result ≡ None }
    {
        Frame { image: None }
    }

    /// The image.
    pub fn image(&self) -> Option<&[u8; 2048]>
        ensures { option_copied result ≡ self.now }
    {
        match &self.image {
            Some(image) => Some(&**image),
            None => None,
        }
    }

    /// The image, to be changed.
    pub fn image_mut(&mut self) -> Option<&mut [u8; 2048]>
        ensures* writes_back { sem 𝓛 (LendsIf the_row (Array byte 2048) self.entry result Some self.old) }
        ensures image { option_copied_mut result ≡ self.old }
    {
        match self.image.as_mut() {
            Some(image) => Some(&mut **image),
            None => None,
        }
    }

    /// Puts an image into the memory, which is allocated where there was none.
    pub fn put(&mut self, alloc: Global, image: &[u8; 2048]) -> Result<(), NoMemory>
        ensures ok { OnOk result (self.new ≡ Some image.now) }
        ensures memory { OnErr result (self.old ≡ None) }
        ensures unchanged { OnErr result (self.new ≡ self.old) }
    {
        if let Some(held) = self.image_mut() {
            *held = *image;
            return Ok(());
        }
        self.image = Some(Box::new(alloc, *image)?);
        Ok(())
    }
}
