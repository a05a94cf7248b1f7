//! The pages of all spaces that rows lie on.

ghost use Rattle.std.specs.Prelude.{◌≡◌, ◌++◌, ◌∷◌, [], ◌+◌, ◌*◌, ◌/◌, ◌<◌, ◌≤◌, IfOk, IfSome, List, None, OnOk, Some, drop, length, replicate, ℕ};
ghost use Rattle.ol_values.specs.Config.{Config, data_pages};
ghost use Rattle.ol_values.specs.declared.record.Record.{Record};
ghost use Rattle.ol_values.specs.declared.record.Record.TheVariants.{Change};
ghost use Rattle.ol_core.specs.Filled.{AreFew, AreFilled, filled_at, first_place, image_at, no_rows, slot_at, used_from};

use crate::space_pages::SpacePages;
use ol_page::PAGE_LENGTH;
use ol_values::{NoMemory, Row};
use std::alloc::Global;
use std::marker::Model;

/// The pages of each space, in order.
#[derive(Drop)]
pub(crate) struct Pages {
    spaces: Vec<SpacePages>,
}

impl Model for Pages {
    ghost use Rattle.std.specs.Prelude.{List};
    ghost use Rattle.ol_core.specs.Filled.{Filled};

    ghost Value = { List Filled };

    ghost view = { λ p. p.spaces.items };
}

impl Pages {
    /// So many spaces without rows.
    pub(crate) fn new(alloc: Global, count: u8) -> Result<Pages, NoMemory>
        ensures { IfOk result (λ pages. pages ≡ replicate count no_rows) }
    {
        let mut spaces = Vec::new(alloc);
        for _ in 0..count {
            spaces.push(SpacePages::new(alloc))?;
        }
        Ok(Pages { spaces })
    }

    /// How many slots of a space hold a row.
    pub(crate) fn rows(&self, space: u8) -> u32
        requires { space < length self.now }
        ensures { result ≡ (filled_at self.now space).rows }
    {
        self.spaces[space as usize].rows()
    }

    /// The image of a page.
    pub(crate) fn image(&self, space: u8, page: u16) -> &[u8; PAGE_LENGTH]
        requires { space < length self.now }
        ensures { result.now ≡ image_at (filled_at self.now space) page }
    {
        self.spaces[space as usize].image(page)
    }

    /// Takes the memory for a row more in a space. What is held stays the same.
    pub(crate) fn make_room(&mut self, space: u8) -> Result<(), NoMemory>
        requires { space < length self.old }
        ensures whole { length self.new ≡ length self.old }
        ensures rows { (s : ℕ) → (filled_at self.new s).rows ≡ (filled_at self.old s).rows }
        ensures kept { (c : Config) (journal : List Record) → AreFilled c journal self.old → AreFilled c journal self.new }
        ensures room { (c : Config) (journal : List Record) → AreFilled c journal self.old → OnOk result ((filled_at self.new space).rows / 31 < length (filled_at self.new space).images) }
    {
        self.spaces[space as usize].make_room()
    }

    /// Puts a row into the least slot of a space that holds none, and the stamp on its page.
    pub(crate) fn put(&mut self, space: u8, row: &Row, stamp: u64)
        requires there { space < length self.old }
        requires room { (filled_at self.old space).rows / 31 < length (filled_at self.old space).images }
        requires limit { (filled_at self.old space).rows < 65535 * 31 }
        ensures whole { length self.new ≡ length self.old }
        ensures filled { (c : Config) (journal : List Record) (txn : ℕ) → AreFilled c journal self.old → (filled_at self.old space).rows < data_pages c space * 31 → stamp ≡ length journal + 1 → AreFilled c (journal ++ Change txn (slot_at space (filled_at self.old space).rows) None (Some row.now) ∷ []) self.new }
    {
        self.spaces[space as usize].put(row, stamp);
    }

    /// How many pages of the marked spaces rows lie on.
    pub(crate) fn count(&self, marks: &[bool; 16]) -> u32
        requires few { AreFew self.now }
        requires limit { length self.now ≤ 16 }
        ensures value { result ≡ length (used_from self.now marks.now 0) }
        ensures limit { result ≤ 65535 * 16 }
    {
        let mut count = 0;
        for (space, pages) in self.spaces.iter().enumerate() {
            if !marks[space] {
                continue;
            }
            count += pages.used();
        }
        count
    }

    /// The page of the marked spaces behind so many on which rows lie, in order of space and page.
    pub(crate) fn page_behind(&self, marks: &[bool; 16], passed: u32) -> Option<(u8, u16)>
        requires few { AreFew self.now }
        requires limit { length self.now ≤ 16 }
        ensures value { result ≡ first_place (drop passed (used_from self.now marks.now 0)) }
        ensures there { IfSome result (λ p. p.0 < length self.now) }
    {
        let mut left = passed;
        for (space, pages) in self.spaces.iter().enumerate() {
            if !marks[space] {
                continue;
            }
            let count = pages.used();
            if left < count {
                return Some((space as u8, left as u16));
            }
            left -= count;
        }
        None
    }
}
