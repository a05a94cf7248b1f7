//! A running archive as the engine holds it.

ghost use Rattle.std.specs.Prelude.{◌≡◌, ◌<◌, ◌+◌, ◌^◌, false};
ghost use Rattle.ol_cursor.specs.Order.{precedes};
ghost use Rattle.ol_running.specs.Running.{begun, broken_by, keeps_image, passed_on};

use ol_cursor::Cursor;

/// A running archive: what it is, how far it has come, and whether it is broken.
#[derive(Clone, Copy, Debug, PartialEq, Eq)]
pub struct Running {
    /// What the archive is, and how far it has come.
    pub cursor: Cursor,
    /// How many of its pages have passed.
    pub passed: u32,
    /// The number of the entry that broke it, by a change for which an image too many would have been kept.
    pub broken: Option<u64>,
}

impl Running {
    /// An archive that begins, of which no page has passed.
    pub fn begun(cursor: Cursor) -> Running
        ensures { result ≡ begun cursor }
    {
        Running {
            cursor,
            passed: 0,
            broken: None,
        }
    }

    /// Whether a change of a page, which has this stamp now, first keeps its image: the archive is not broken, the page is wanted
    /// by its stamp, and it has not passed.
    pub fn keeps_image(&self, space: u8, page: u16, stamp: u64) -> bool
        ensures { result ≡ keeps_image self.now space page stamp }
    {
        self.broken.is_none()
            && self.cursor.wants(space, page, stamp)
            && !self.cursor.passed(space, page)
    }

    /// A page has passed.
    pub fn pass(&mut self, space: u8, page: u16)
        requires space { space < 16 }
        requires ahead { precedes (space, page) self.old.cursor.next ≡ false }
        requires left { 0 < self.old.cursor.left }
        requires count { self.old.passed + self.old.cursor.left < 2 ^ 32 }
        ensures { self.new ≡ passed_on self.old space page }
    {
        self.cursor.advance(space, page);
        self.passed += 1;
    }

    /// An entry has broken the archive.
    pub fn break_by(&mut self, entry: u64)
        ensures { self.new ≡ broken_by entry self.old }
    {
        self.broken = Some(entry);
    }
}
