//! The configuration as a table of chunks.

ghost use Rattle.std.specs.Prelude.{◌≡◌, ◌≤◌, ◌<◌, ◌+◌, ◌*◌, ◌++◌, IfSome, drop, length};
ghost use Rattle.ol_values.specs.Config.{config_text, data_pages, space_at, space_named};
ghost use Rattle.ol_chunks.specs.Drafts.{config_in};
ghost use Rattle.ol_chunks.specs.Limits.{IsConfig, chunk_count};
ghost use Rattle.ol_rules.specs.Restored.{is_critical};
ghost use Rattle.ol_chunks.specs.Places.{chunk_pages, space_holding, image_area, log_area, physical_area, place_in_chunks};

use crate::layout::{
    Layout, all_pages, count_chunks, find_space, holder, place_among, reserved_pages, size_of_chunk,
};
use crate::name::Name;
use ol_values::Bytes;
use std::marker::Model;

/// The most bytes that a text has.
pub(crate) const TEXT_LIMIT: usize = 1024;

/// Entries, files or images that lie one behind the other in a chunk.
#[derive(Clone, Copy, Debug, PartialEq, Eq)]
pub struct Area {
    /// The chunk, from 0.
    pub chunk: u8,
    /// The page of the chunk at which the area begins.
    pub first: u32,
    /// How many entries, files or images there are.
    pub count: u32,
    /// How many pages each has.
    pub pages: u32,
}

/// A configuration, which contracts see as a value that is within all limits. Its text is kept, as it is
/// asked for again. All of it is held in place, so that a table takes no memory.
#[derive(Debug, Drop)]
pub struct ChunkTable {
    layout: Layout,
    text: Bytes<TEXT_LIMIT>,
}

impl Model for ChunkTable {
    ghost use Rattle.std.specs.Prelude.{◌≡◌};
    ghost use Rattle.ol_values.specs.Config.{Config, config_text};

    ghost Value = { Config };

    ghost use Rattle.ol_chunks.specs.Drafts.{config_in};
    ghost use Rattle.ol_chunks.specs.Limits.{IsConfig};

    ghost view = { λ t. config_in t.layout };

    ghost invariant = { λ t. IsConfig (config_in t.layout) × (t.text ≡ config_text (config_in t.layout)) };
}

impl ChunkTable {
    /// The table of a layout and its text.
    pub(crate) fn new(layout: Layout, text: Bytes<TEXT_LIMIT>) -> ChunkTable
        requires config { IsConfig (config_in layout) }
        requires text { text ≡ config_text (config_in layout) }
        ensures { result ≡ config_in layout }
    {
        ChunkTable { layout, text }
    }

    /// Another table of the same configuration.
    pub fn copy(&self) -> ChunkTable
        ensures { result ≡ self.now }
    {
        ChunkTable {
            layout: self.layout.copy(),
            text: self.text,
        }
    }

    /// The text of the configuration, written to the front of the buffer; its length in bytes. The bytes
    /// behind it stay.
    pub fn text(&self, buf: &mut [u8; 1024]) -> usize
        ensures length { result ≡ length (config_text self.now) }
        ensures limit { result ≤ 1024 }
        ensures text { buf.new ≡ config_text self.now ++ drop result buf.old }
    {
        let text = self.text.as_slice();
        buf[..text.len()].copy_from_slice(text);
        text.len()
    }

    /// How many spaces there are.
    pub fn spaces(&self) -> u8
        ensures value { result ≡ length self.now.spaces }
        ensures some { 1 ≤ result }
        ensures limit { result ≤ 16 }
        ensures config { IsConfig self.now }
    {
        self.layout.spaces.len() as u8
    }

    /// The name of a space.
    pub fn name(&self, space: u8) -> Name
        requires { space < length self.now.spaces }
        ensures { result ≡ (space_at self.now space).name }
    {
        *self.layout.spaces[usize::from(space)].name()
    }

    /// The space of a name; None where no space has it.
    pub fn find(&self, name: &Name) -> Option<u8>
        ensures value { result ≡ space_named self.now name.now }
        ensures there { IfSome result (λ space. space < length self.now.spaces) }
    {
        let space = find_space(&self.layout.spaces, name.bytes())?;
        Some(space as u8)
    }

    /// Whether the engine can't run without a space: root, and the spaces of the physical log and of the
    /// log files.
    pub fn critical(&self, space: u8) -> bool
        ensures { result ≡ is_critical self.now space }
    {
        space == 0 || space == self.layout.physical_space || space == self.layout.log_space
    }

    /// How many data pages a space has.
    pub fn pages(&self, space: u8) -> u32
        requires { space < length self.now.spaces }
        ensures value { result ≡ data_pages self.now space }
        ensures some { 1 ≤ result }
        ensures limit { result ≤ 65535 }
    {
        let space = usize::from(space);
        all_pages(self.layout.chunks(space)) - self.layout.area_pages(space)
    }

    /// How many chunks there are, with the temporary one, which is the last.
    pub fn chunks(&self) -> u8
        ensures value { result ≡ chunk_count self.now.spaces + 1 }
        ensures some { 2 ≤ result }
        ensures limit { result ≤ 32 }
    {
        count_chunks(&self.layout.spaces) as u8 + 1
    }

    /// How many pages a chunk has; 0 where there is no such chunk.
    pub fn chunk_pages(&self, chunk: u8) -> u32
        ensures value { result ≡ chunk_pages self.now chunk }
        ensures some { chunk ≤ chunk_count self.now.spaces → 1 ≤ result }
        ensures limit { result ≤ 65535 }
    {
        u32::from(size_of_chunk(
            &self.layout.spaces,
            self.layout.image_limit,
            usize::from(chunk),
        ))
    }

    /// The space that a chunk is one of; None for the temporary chunk, and where there is no such chunk.
    pub fn space_of(&self, chunk: u8) -> Option<u8>
        ensures value { result ≡ space_holding self.now chunk }
        ensures there { IfSome result (λ space. space < length self.now.spaces) }
    {
        let space = holder(&self.layout.spaces, usize::from(chunk))?;
        Some(space as u8)
    }

    /// The chunk and the page in it where a data page of a space lies; None where the space has no such page.
    pub fn place(&self, space: u8, page: u16) -> Option<(u8, u32)>
        ensures value { result ≡ place_in_chunks self.now space page }
        ensures inside { IfSome result (λ p. p.1 < chunk_pages self.now p.0) }
        ensures config { IsConfig self.now }
    {
        let space = usize::from(space);
        if space >= self.layout.spaces.len() {
            return None;
        }
        let behind = self.layout.area_pages(space) + u32::from(page);
        let first = self.layout.first_number(space);
        let (chunk, page) = place_among(first, self.layout.chunks(space), behind)?;
        Some((chunk as u8, page))
    }

    /// The physical log: entries of two pages each.
    pub fn physical(&self) -> Area
        ensures value { result ≡ physical_area self.now }
        ensures count { (1 ≤ result.count) × (result.count ≤ 4096) }
        ensures inside { result.first + result.count * result.pages < chunk_pages self.now result.chunk }
    {
        let space = usize::from(self.layout.physical_space);
        Area {
            chunk: self.layout.first_number(space) as u8,
            first: reserved_pages(space),
            count: u32::from(self.layout.physical_entries),
            pages: 2,
        }
    }

    /// The log files.
    pub fn logs(&self) -> Area
        ensures value { result ≡ log_area self.now }
        ensures count { (3 ≤ result.count) × (result.count ≤ 64) }
        ensures pages { (4 ≤ result.pages) × (result.pages ≤ 1000) }
        ensures inside { result.first + result.count * result.pages < chunk_pages self.now result.chunk }
    {
        let space = usize::from(self.layout.log_space);
        Area {
            chunk: self.layout.first_number(space) as u8,
            first: reserved_pages(space) + self.layout.physical_pages(space),
            count: u32::from(self.layout.log_files),
            pages: u32::from(self.layout.log_file_pages),
        }
    }

    /// The captured images of one page each, which are all of the temporary chunk.
    pub fn before(&self) -> Area
        ensures value { result ≡ image_area self.now }
        ensures count { (1 ≤ result.count) × (result.count ≤ 4096) }
        ensures inside { result.count ≡ chunk_pages self.now result.chunk }
    {
        Area {
            chunk: count_chunks(&self.layout.spaces) as u8,
            first: 0,
            count: u32::from(self.layout.image_limit),
            pages: 1,
        }
    }
}
