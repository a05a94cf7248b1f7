//! The reading of a configuration's text, line by line.

ghost use Rattle.std.specs.Prelude.{◌≡◌, ◌≤◌, ◌∷◌, bytes_eq, length};
ghost use Rattle.std.specs.List.{list_any};
ghost use Rattle.ol_values.specs.Config.{SpaceConfig, space_named};
ghost use Rattle.ol_chunks.specs.Drafts.{Reads, config_in, reading_in};
ghost use Rattle.ol_chunks.specs.Limits.{chunk_count};
ghost use Rattle.ol_chunks.specs.Pieces.{words_behind};
ghost use Rattle.ol_chunks.specs.Reading.{after_line, has_pages as has_pages_for, has_place_left as has_place_for, is_new_name as is_new_name_of};
ghost use Rattle.ol_chunks.specs.Reading.{logs_read, nothing_read, numbers_in_words as numbers_of_words, physical_read, space_read, words_read};

use crate::layout::{
    CHUNKS, Layout, SPACES, Space, all_pages, count_chunks, find_space, first_of, reserved_pages,
};
use crate::name::{Name, ROOT};
use crate::words::numbers_of;
use arrayvec::ArrayVec;
use ol_words::cut;

const SPACE_WORD: &[u8] = b"space";

const PHYSICAL_WORD: &[u8] = b"physlog";

const LOGS_WORD: &[u8] = b"logs";

const BEFORE_WORD: &[u8] = b"before";

/// The most data pages of a space.
const PAGES: u32 = 65535;

/// The most entries of the physical log.
const MOST_ENTRIES: u16 = 4096;

/// The least and the most log files.
const LEAST_FILES: u16 = 3;

const MOST_FILES: u16 = 64;

/// The least and the most pages of a log file.
const LEAST_FILE_PAGES: u16 = 4;

const MOST_FILE_PAGES: u16 = 1000;

/// The most captured images.
const MOST_IMAGES: u16 = 4096;

/// Which line may come next: a space's or the physical log's, the log files', the captured images', or none.
#[derive(Clone, Copy, Debug, PartialEq, Eq)]
pub(crate) enum Due {
    Spaces,
    Logs,
    Before,
    Nothing,
}

/// What was read of a text.
#[derive(Debug, Drop)]
pub(crate) struct Draft {
    pub(crate) due: Due,
    pub(crate) layout: Layout,
}

impl Draft {
    /// Nothing is read.
    pub(crate) fn new() -> Draft
        ensures { reading_in result ≡ nothing_read }
    {
        Draft {
            due: Due::Spaces,
            layout: Layout {
                spaces: ArrayVec::new(),
                physical_space: 0,
                physical_entries: 0,
                log_space: 0,
                log_files: 0,
                log_file_pages: 0,
                image_limit: 0,
            },
        }
    }

    /// Reads a line; false where it may not stand here.
    pub(crate) fn read_line(&mut self, line: &[u8]) -> bool
        requires { chunk_count self.old.layout.spaces.items ≤ 31 }
        ensures { Reads (after_line (reading_in self.old) line.now) result self.new }
    {
        let (word, rest) = cut(b' ', line);
        match self.due {
            Due::Spaces => self.read_first(word, rest),
            Due::Logs => self.read_logs(word, rest),
            Due::Before => self.read_before(word, rest),
            Due::Nothing => false,
        }
    }

    // A space's line or the physical log's.
    fn read_first(&mut self, word: &[u8], rest: Option<&[u8]>) -> bool
        requires chunks { chunk_count self.old.layout.spaces.items ≤ 31 }
        requires due { self.old.due ≡ Due.Spaces }
        ensures { Reads (words_read Due.Spaces (config_in self.old.layout) (word.now ∷ words_behind rest.entry)) result self.new }
    {
        let Some(rest) = rest else {
            return false;
        };
        let (name, numbers) = cut(b' ', rest);
        if word == SPACE_WORD {
            return self.add_space(name, numbers);
        }
        if word == PHYSICAL_WORD {
            return self.set_physical(name, numbers);
        }
        false
    }

    fn add_space(&mut self, name: &[u8], numbers: Option<&[u8]>) -> bool
        requires chunks { chunk_count self.old.layout.spaces.items ≤ 31 }
        requires due { self.old.due ≡ Due.Spaces }
        ensures { Reads (space_read (config_in self.old.layout) name.now (numbers_of_words (words_behind numbers.entry))) result self.new }
    {
        let Some(chunks) = numbers_of(numbers) else {
            return false;
        };
        let Some(name) = Name::new(name) else {
            return false;
        };
        let spaces = self.layout.spaces.as_slice();
        let fits = has_place(spaces, chunks.len())
            && is_new_name(spaces, &name)
            && has_pages(spaces.len(), &chunks);
        if !fits {
            return false;
        }
        self.layout.spaces.push(Space::new(name, chunks));
        true
    }

    fn set_physical(&mut self, name: &[u8], numbers: Option<&[u8]>) -> bool
        ensures { Reads (physical_read (config_in self.old.layout) (space_named (config_in self.old.layout) name.now) (numbers_of_words (words_behind numbers.entry))) result self.new }
    {
        let Some(space) = find_space(&self.layout.spaces, name) else {
            return false;
        };
        let Some(numbers) = numbers_of(numbers) else {
            return false;
        };
        let [entries] = numbers.as_slice() else {
            return false;
        };
        self.layout.physical_space = space as u8;
        self.layout.physical_entries = *entries;
        self.due = Due::Logs;
        *entries <= MOST_ENTRIES && self.layout.has_room(space)
    }

    fn read_logs(&mut self, word: &[u8], rest: Option<&[u8]>) -> bool
        ensures { Reads (words_read Due.Logs (config_in self.old.layout) (word.now ∷ words_behind rest.entry)) result self.new }
    {
        let Some(rest) = rest else {
            return false;
        };
        let (name, numbers) = cut(b' ', rest);
        if word == LOGS_WORD {
            return self.set_logs(name, numbers);
        }
        false
    }

    fn set_logs(&mut self, name: &[u8], numbers: Option<&[u8]>) -> bool
        ensures { Reads (logs_read (config_in self.old.layout) (space_named (config_in self.old.layout) name.now) (numbers_of_words (words_behind numbers.entry))) result self.new }
    {
        let Some(space) = find_space(&self.layout.spaces, name) else {
            return false;
        };
        let Some(numbers) = numbers_of(numbers) else {
            return false;
        };
        let [files, pages] = numbers.as_slice() else {
            return false;
        };
        if *files < LEAST_FILES || *files > MOST_FILES {
            return false;
        }
        self.layout.log_space = space as u8;
        self.layout.log_files = *files as u8;
        self.layout.log_file_pages = *pages;
        self.due = Due::Before;
        *pages >= LEAST_FILE_PAGES && *pages <= MOST_FILE_PAGES && self.layout.has_room(space)
    }

    fn read_before(&mut self, word: &[u8], rest: Option<&[u8]>) -> bool
        ensures { Reads (words_read Due.Before (config_in self.old.layout) (word.now ∷ words_behind rest.entry)) result self.new }
    {
        if word != BEFORE_WORD {
            return false;
        }
        let Some(numbers) = numbers_of(rest) else {
            return false;
        };
        let [limit] = numbers.as_slice() else {
            return false;
        };
        self.layout.image_limit = *limit;
        self.due = Due::Nothing;
        *limit <= MOST_IMAGES
    }
}

// At most 16 spaces, and at most 31 chunks in all.
fn has_place(spaces: &[Space], chunks: usize) -> bool
    requires { chunk_count spaces.now ≤ 31 }
    ensures { result ≡ has_place_for spaces.now chunks }
{
    spaces.len() < SPACES && chunks <= CHUNKS - count_chunks(spaces)
}

// The first space is root, and no name comes twice.
fn is_new_name(spaces: &[Space], name: &Name) -> bool
    ensures { result ≡ is_new_name_of spaces.now name.now }
{
    let name = name.bytes();
    (!spaces.is_empty() || name == ROOT) && !is_used(spaces, name)
}

fn is_used(spaces: &[Space], name: &[u8]) -> bool
    ensures { result ≡ list_any (λ (s : SpaceConfig). bytes_eq name.now s.name) spaces.now }
{
    spaces.iter().any(|s| name == s.name().bytes())
}

// The reserved pages and one data page fit in the first chunk, and all pages are few enough.
fn has_pages(space: usize, chunks: &[u16]) -> bool
    requires { length chunks.now ≤ 31 }
    ensures { result ≡ has_pages_for space chunks.now }
{
    let reserved = reserved_pages(space);
    reserved < u32::from(first_of(chunks)) && all_pages(chunks) <= PAGES + reserved
}
