//! The pages of one space that rows lie on, as images.

ghost use Rattle.std.specs.Prelude.{◌≡◌, ◌++◌, ◌∷◌, [], ◌+◌, ◌*◌, ◌/◌, ◌<◌, ◌^◌, List, None, OnOk, Some, length, ℕ};
ghost use Rattle.ol_values.specs.declared.record.Record.{Record};
ghost use Rattle.ol_values.specs.declared.record.Record.TheVariants.{Change};
ghost use Rattle.ol_core.specs.Filled.{IsFilled, blank_image, image_at, no_rows, pages_used, slot_at};

use ol_page::{PAGE_LENGTH, set_slot};
use ol_values::{NoMemory, Row};
use std::alloc::Global;
use std::marker::Model;

/// The slots of a page.
pub(crate) const SLOTS: u32 = 31;

/// The image of a page that was never changed.
const BLANK: &[u8; PAGE_LENGTH] = &[0; PAGE_LENGTH];

/// How many slots of a space hold a row, and the images of its first pages: at least of those that rows lie on.
#[derive(Drop)]
pub(crate) struct SpacePages {
    rows: u32,
    images: Vec<[u8; PAGE_LENGTH]>,
}

impl Model for SpacePages {
    ghost use Rattle.ol_core.specs.Filled.{Filled};

    ghost Value = { Filled };

    ghost view = { λ f. record { rows = f.rows; images = f.images.items } };
}

impl SpacePages {
    /// A space without rows.
    pub(crate) fn new(alloc: Global) -> SpacePages
        ensures { result ≡ no_rows }
    {
        SpacePages {
            rows: 0,
            images: Vec::new(alloc),
        }
    }

    /// How many slots hold a row.
    pub(crate) fn rows(&self) -> u32
        ensures { result ≡ self.now.rows }
    {
        self.rows
    }

    /// How many pages rows lie on.
    pub(crate) fn used(&self) -> u32
        ensures { result ≡ pages_used self.now.rows }
    {
        self.rows.div_ceil(SLOTS)
    }

    /// The image of a page.
    pub(crate) fn image(&self, page: u16) -> &[u8; PAGE_LENGTH]
        ensures { result.now ≡ image_at self.now page }
    {
        match self.images.get(page as usize) {
            Some(image) => image,
            None => BLANK,
        }
    }

    /// Takes the memory for a row more. What is held stays the same.
    pub(crate) fn make_room(&mut self) -> Result<(), NoMemory>
        ensures kept { (pages : ℕ) (journal : List Record) (space : ℕ) → IsFilled pages journal space self.old → IsFilled pages journal space self.new }
        ensures rows { self.new.rows ≡ self.old.rows }
        ensures room { (pages : ℕ) (journal : List Record) (space : ℕ) → IsFilled pages journal space self.old → OnOk result (self.new.rows / 31 < length self.new.images) }
    {
        if self.images.len() == (self.rows / SLOTS) as usize {
            self.images.push([0; PAGE_LENGTH])?;
        }
        Ok(())
    }

    /// Puts a row into the least slot that holds none, and the stamp on its page.
    pub(crate) fn put(&mut self, row: &Row, stamp: u64)
        requires room { self.old.rows / 31 < length self.old.images }
        requires limit { self.old.rows < 65535 * 31 }
        ensures rows { self.new.rows ≡ self.old.rows + 1 }
        ensures filled { (pages : ℕ) (journal : List Record) (space txn : ℕ) → IsFilled pages journal space self.old → self.old.rows < pages * 31 → stamp ≡ length journal + 1 → IsFilled pages (journal ++ Change txn (slot_at space self.old.rows) None (Some row.now) ∷ []) space self.new }
    {
        let image = &mut self.images[(self.rows / SLOTS) as usize];
        set_slot(image, (self.rows % SLOTS) as u8, Some(row.copy()), stamp);
        self.rows += 1;
    }
}
