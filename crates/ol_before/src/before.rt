//! All captured images.

ghost use Rattle.std.specs.Prelude.{◌≡◌, ◌≤◌, ◌<◌, ◌+◌, IfOk, None, OnErr, OnOk, if◌then◌else◌, is_some, length, unwrap_or};
ghost use Rattle.ol_before.specs.Images.{captured, image_of, is_in_space, is_of, no_captures, with_room, without};

use crate::NoMemory;
use crate::captured::{Captured, Frame};
use crate::order::{index_of, put, release, release_space};
use ol_chunks::ChunkTable;
use std::alloc::Global;
use std::marker::Model;

/// The images of pages as they were before a change, by space and page. At most as many are held as the configuration
/// says.
#[derive(Drop)]
pub struct Before {
    limit: u32,
    // In order of space and page.
    held: Vec<Captured>,
    // The memory of images that may be captured.
    free: Vec<Frame>,
    alloc: Global,
}

impl Model for Before {
    ghost use Rattle.std.specs.Prelude.{vec_capacity, vec_len};
    ghost use Rattle.ol_before.specs.Images.{Captures, IsStored};

    ghost Value = { Captures };

    ghost view = { λ b. record { limit = b.limit; held = b.held.items; spare = vec_len b.free } };

    ghost invariant = { λ b. IsStored b.limit b.held.items (vec_len b.free) (vec_capacity b.held) (vec_capacity b.free) };
}

impl Before {
    /// Holds no image, and has memory for none. It makes room to note as many as the configuration allows. `NoMemory`
    /// comes where that was refused.
    pub fn new(alloc: Global, table: &ChunkTable) -> Result<Before, NoMemory>
        ensures { IfOk result (λ before. before ≡ no_captures table.now.image_limit) }
    {
        let limit = table.before().count;
        let mut held = Vec::new(alloc);
        held.reserve(limit as usize + 1)?;
        let mut free = Vec::new(alloc);
        free.reserve(limit as usize + 1)?;
        Ok(Before {
            limit,
            held,
            free,
            alloc,
        })
    }

    /// How many images are held; at most as many as the configuration allows, and that is at most 4,096.
    pub fn count(&self) -> u32
        ensures value { result ≡ length self.now.held }
        ensures limit { result ≤ self.now.limit }
        ensures few { self.now.limit ≤ 4096 }
    {
        self.held.len() as u32
    }

    /// How many images may be held.
    pub fn limit(&self) -> u32
        ensures { result ≡ self.now.limit }
    {
        self.limit
    }

    /// For how many images more memory was made. With those that are held they are at most one more than the
    /// configuration allows.
    pub fn spare(&self) -> u32
        ensures value { result ≡ self.now.spare }
        ensures limit { length self.now.held + result ≤ self.now.limit + 1 }
    {
        self.free.len() as u32
    }

    /// Makes memory for one image, where none is spare. `NoMemory` comes only where none was spare, and changes nothing.
    pub fn make_room(&mut self) -> Result<(), NoMemory>
        ensures ok { OnOk result (self.new ≡ with_room self.old) }
        ensures memory { OnErr result (self.old.spare ≡ 0) }
        ensures unchanged { OnErr result (self.new ≡ self.old) }
    {
        if !self.free.is_empty() {
            return Ok(());
        }
        let frame = Box::new(self.alloc, [0; 2048])?;
        self.free.push(frame)?;
        Ok(())
    }

    /// Captures the image of a page of which none is held, in memory that is spare.
    pub fn capture(&mut self, space: u8, page: u16, image: &[u8; 2048])
        requires spare { 0 < self.old.spare }
        requires count { length self.old.held < self.old.limit }
        requires none { image_of self.old.held space page ≡ None }
        ensures { self.new ≡ captured (record { space = space; page = page; bytes = image.now }) self.old }
    {
        put(&mut self.held, &mut self.free, space, page, image);
    }

    /// Whether an image of the page is held.
    pub fn holds(&self, space: u8, page: u16) -> bool
        ensures { result ≡ is_some (image_of self.now.held space page) }
    {
        index_of(&self.held, space, page).is_some()
    }

    /// Writes the image of a page to the buffer. False exactly where none is held; the buffer then stays as it was.
    pub fn get(&self, space: u8, page: u16, buf: &mut [u8; 2048]) -> bool
        ensures found { result ≡ is_some (image_of self.now.held space page) }
        ensures image { buf.new ≡ unwrap_or (image_of self.now.held space page) buf.old }
    {
        let Some(at) = index_of(&self.held, space, page) else {
            return false;
        };
        self.held[at].copy_to(buf);
        true
    }

    /// Drops the image of a page, if one is held; its memory is spare then.
    pub fn take(&mut self, space: u8, page: u16)
        ensures value { self.new ≡ without (is_of space page) self.old }
        ensures count { length self.new.held + (if is_some (image_of self.old.held space page) then 1 else 0) ≡ length self.old.held }
    {
        if let Some(at) = index_of(&self.held, space, page) {
            release(&mut self.held, &mut self.free, at);
        }
    }

    /// Drops all images of a space; their memory is spare then.
    pub fn drop_space(&mut self, space: u8)
        ensures { self.new ≡ without (is_in_space space) self.old }
    {
        release_space(&mut self.held, &mut self.free, space);
    }
}
