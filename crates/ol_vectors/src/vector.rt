//! Bytes that are to be of a format.

use crate::short::bytes_of;
use crate::trouble::Trouble;
use crate::{anchor, log, page, record, value};
use std::alloc::Global;

/// What bytes are told as.
#[derive(Clone, Copy, Debug, PartialEq, Eq)]
pub enum Format {
    /// A record at the front.
    Record,
    /// A record at the front of a shorter part.
    Prefixes,
    /// A record with which a log page is filled.
    Filling,
    /// A log page.
    Log,
    /// A data page.
    Page,
    /// An anchor.
    Anchor,
    /// A row.
    Row,
    /// A label.
    Label,
}

impl Format {
    /// The format that a word names; `NoKind` comes where it names none.
    pub fn of(word: &str) -> Result<Format, Trouble> {
        match word {
            "record" => Ok(Format::Record),
            "prefixes" => Ok(Format::Prefixes),
            "fill" => Ok(Format::Filling),
            "log" => Ok(Format::Log),
            "page" => Ok(Format::Page),
            "anchor" => Ok(Format::Anchor),
            "row" => Ok(Format::Row),
            "label" => Ok(Format::Label),
            _ => Err(Trouble::NoKind),
        }
    }
}

/// Bytes, and what they are told as.
#[derive(Debug, Drop)]
pub struct Vector {
    format: Format,
    bytes: Vec<u8>,
}

impl Vector {
    /// The bytes of a short form.
    pub fn new(alloc: Global, format: Format, text: &str) -> Result<Vector, Trouble> {
        let bytes = bytes_of(alloc, text)?;
        Ok(Vector { format, bytes })
    }

    /// The same with other bytes from an offset on, which both stand in the text. `OtherLength` comes where there are not
    /// so many bytes to be replaced.
    pub fn with(&self, alloc: Global, text: &str) -> Result<Vector, Trouble> {
        let Some((offset, text)) = text.split_once(' ') else {
            return Err(Trouble::OtherCount);
        };
        let Ok(offset) = offset.parse::<usize>() else {
            return Err(Trouble::NoNumber);
        };
        let others = bytes_of(alloc, text)?;
        if offset > self.bytes.len() || others.len() > self.bytes.len() - offset {
            return Err(Trouble::OtherLength);
        }
        let mut bytes = self.bytes.clone()?;
        for (place, byte) in bytes.iter_mut().skip(offset).zip(others.iter()) {
            *place = *byte;
        }
        let format = self.format;
        Ok(Vector { format, bytes })
    }

    /// What the bytes are.
    pub fn tell(&self, alloc: Global) -> Result<String, Trouble> {
        match self.format {
            Format::Record => record::tell(alloc, &self.bytes),
            Format::Prefixes => record::tell_prefixes(alloc, &self.bytes),
            Format::Filling => log::tell_filling(alloc, &self.bytes),
            Format::Log => log::tell(alloc, &self.bytes),
            Format::Page => page::tell(alloc, &self.bytes),
            Format::Anchor => anchor::tell(alloc, &self.bytes),
            Format::Row => value::tell_row(alloc, &self.bytes),
            Format::Label => value::tell_label(alloc, &self.bytes),
        }
    }
}
