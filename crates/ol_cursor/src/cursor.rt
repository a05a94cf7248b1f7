//! The cursor of a running archive.

ghost use Rattle.std.specs.Prelude.{◌≡◌, ◌<◌, false, true};
ghost use Rattle.ol_cursor.specs.Order.{advanced, archives, is_wanted, precedes};

/// How many spaces there are at most.
const SPACES: usize = 16;

/// A running archive as it goes through its pages in order of space and page.
#[derive(Clone, Copy, Debug, PartialEq, Eq)]
pub struct Cursor {
    /// The number of the archive.
    pub number: u64,
    /// Its level, from 0 to 2.
    pub level: u8,
    /// The last position as the archive began.
    pub cut: u64,
    /// The least number of a transaction open then, or the position behind the cut.
    pub low: u64,
    /// Whether a space is one of the archive's, by the number of the space.
    pub spaces: [bool; SPACES],
    /// The base of each of the archive's spaces, by the number of the space: its pages are taken where
    /// their stamps lie above it.
    pub bases: [u64; SPACES],
    /// The least place, of space and page, that has not passed.
    pub next: (u8, u16),
    /// How many of the archive's pages have not passed.
    pub left: u32,
}

impl Cursor {
    /// Whether the space is one of the archive's.
    pub fn archives(&self, space: u8) -> bool
        ensures value { result ≡ archives self.now space }
        ensures there { result ≡ true → space < 16 }
    {
        usize::from(space) < SPACES && self.spaces[usize::from(space)]
    }

    /// Whether the archive takes a page by its stamp: the space is one of the archive's, and the stamp
    /// lies above its base and not above the cut. A page that was changed since the cut is not wanted by
    /// its stamp: the archive takes the image that was kept of it.
    pub fn wants(&self, space: u8, _page: u16, stamp: u64) -> bool
        ensures { result ≡ is_wanted self.now space stamp }
    {
        self.archives(space) && self.bases[usize::from(space)] < stamp && stamp <= self.cut
    }

    /// Whether the place has passed, in order of space and page.
    pub fn passed(&self, space: u8, page: u16) -> bool
        ensures { result ≡ precedes (space, page) self.now.next }
    {
        space < self.next.0 || (space == self.next.0 && page < self.next.1)
    }

    /// A page has passed: the next place is the one just behind it, and one page less is left.
    pub fn advance(&mut self, space: u8, page: u16)
        requires space { space < 16 }
        requires ahead { precedes (space, page) self.old.next ≡ false }
        requires left { 0 < self.old.left }
        ensures { self.new ≡ advanced self.old space page }
    {
        self.next = match page.checked_add(1) {
            Some(next) => (space, next),
            None => (space + 1, 0),
        };
        self.left -= 1;
    }
}
