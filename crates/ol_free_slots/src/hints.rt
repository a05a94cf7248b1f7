//! Which pages are known to be full.

ghost use Rattle.std.specs.Prelude.{◌≡◌, ◌<◌, length};
ghost use Rattle.ol_free_slots.specs.Filled.{hint_of, no_hints, with_emptied, with_look};

use crate::look::Look;

/// For each space a page, below which all pages are full: each of their 31 slots holds a row.
#[derive(Clone, Copy, Debug, PartialEq, Eq)]
pub struct Hints {
    // Pages count from 0; it may be the number of the space's pages.
    first: [u32; 16],
}

impl Hints {
    /// Nothing is known to be full.
    pub fn new() -> Hints
        ensures { result ≡ no_hints }
    {
        Hints { first: [0; 16] }
    }

    /// The page below which all pages of a space are known to be full.
    pub(crate) fn first(&self, space: u8) -> u32
        requires { space < 16 }
        ensures value { result ≡ hint_of self.now space }
        ensures spaces { length self.now.first ≡ 16 }
    {
        self.first[usize::from(space)]
    }

    /// A slot of a page was emptied.
    pub fn emptied(&mut self, space: u8, page: u16)
        requires { space < 16 }
        ensures { self.new ≡ with_emptied self.old space page }
    {
        let first = self.first[usize::from(space)];
        self.first[usize::from(space)] = first.min(u32::from(page));
    }

    /// A page was looked at: a full one that adjoins those that are known to be full is known from now on.
    pub(crate) fn pass(&mut self, space: u8, page: u32, look: Look)
        requires space { space < 16 }
        requires page { page < 65535 }
        ensures { self.new ≡ with_look self.old space page look }
    {
        match look {
            Look::Full => {
                if self.first[usize::from(space)] == page {
                    self.first[usize::from(space)] = page + 1;
                }
            }
            Look::Free(_) => {}
            Look::Locked => {}
        }
    }
}
