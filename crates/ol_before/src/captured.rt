//! The image of one page.

ghost use Rattle.std.specs.Prelude.{◌≡◌};
ghost use Rattle.ol_before.specs.Images.{Image, is_before, is_in_space, is_of};

use std::marker::Model;

/// The memory of one image.
pub type Frame = Box<[u8; 2048]>;

/// The image of a page.
#[derive(Drop)]
pub struct Captured {
    space: u8,
    page: u16,
    frame: Frame,
}

impl Model for Captured {
    ghost use Rattle.ol_before.specs.Images.{Image};

    ghost Value = { Image };

    ghost view = { λ c. record { space = c.space; page = c.page; bytes = c.frame.value } };
}

impl Captured {
    /// The image of a page, in the memory that is handed over.
    pub fn new(space: u8, page: u16, frame: Frame) -> Captured
        ensures { result ≡ record { space = space; page = page; bytes = frame.value } }
    {
        Captured { space, page, frame }
    }

    /// Whether the image is of this place.
    pub fn is_of(&self, space: u8, page: u16) -> bool
        ensures { result ≡ is_of space page self.now }
    {
        self.space == space && self.page == page
    }

    /// Whether the image is of this space.
    pub fn is_in_space(&self, space: u8) -> bool
        ensures { result ≡ is_in_space space self.now }
    {
        self.space == space
    }

    /// Whether the image's place stands before this one, in order of space and page.
    pub fn is_before(&self, space: u8, page: u16) -> bool
        ensures { result ≡ is_before space page self.now }
    {
        self.space < space || (self.space == space && self.page < page)
    }

    /// Writes the image to the buffer.
    pub fn copy_to(&self, buf: &mut [u8; 2048])
        ensures { buf.new ≡ self.now.bytes }
    {
        *buf = *self.frame;
    }

    /// Gives the memory back.
    pub fn into_frame(self) -> Frame {
        self.frame
    }
}
