//! The volumes of a scene, and the object that is being written.

use crate::answer;
use crate::block::{Bytes, NO_PAYLOAD, Payload, archive_head, data_page, log_page, sealed};
use crate::number::{byte, index, numbers};
use crate::shelf::{Volume, catalog_of};
use crate::step::Step;
use crate::trouble::Trouble;
use ol_object::{BLOCK_LENGTH, Block};
use std::alloc::Global;

const HEADER: u8 = 1;

const PAGE: u8 = 2;

const RECORDS: u8 = 3;

const TRAILER: u8 = 4;

const MARK: u8 = 5;

const ARCHIVE_OBJECT: u8 = 1;

const LOG_OBJECT: u8 = 2;

const MARK_OBJECT: u8 = 3;

/// An object that was begun: the head of its last block, and what header and trailer say.
#[derive(Clone, Copy)]
struct Open {
    header: Block,
    payload: Payload,
    index: u32,
}

/// The volumes of a scene, and what the next blocks are made with.
#[derive(Drop)]
pub struct World {
    alloc: Global,
    text: Vec<u8>,
    incarnation: u64,
    volumes: Vec<Volume>,
    open: Option<Open>,
}

impl World {
    /// No volume, the first incarnation, and no text of a configuration.
    pub fn new(alloc: Global) -> World {
        World {
            alloc,
            text: Vec::new(alloc),
            incarnation: 1,
            volumes: Vec::new(alloc),
            open: None,
        }
    }

    /// Does what a line says, and gives what it is answered. Beside the steps with numbers these are lines: one that is
    /// empty or begins with `#`, which does nothing; `scene NAME..`, no volume and the first incarnation; `config TEXT`,
    /// the text of the configuration of the archives that follow, with slashes for line feeds; `bytes HEX`, a block that
    /// begins with these bytes, with zeros behind them.
    ///
    /// The error says why it can't be done.
    pub fn take(&mut self, line: &str) -> Result<String, Trouble> {
        let (word, rest) = match line.split_once(' ') {
            Some(parts) => parts,
            None => (line, ""),
        };
        match word {
            "" | "#" => {}
            "scene" => self.clear(),
            "config" => self.text = text_of(self.alloc, rest)?,
            "bytes" => self.put_bytes(rest)?,
            word => return self.carry_out(Step::of(word)?, rest),
        }
        Ok(String::new(self.alloc))
    }

    fn clear(&mut self) {
        self.incarnation = 1;
        self.volumes.clear();
        self.open = None;
    }

    /// Puts a block of bytes in hexadecimal digits on the last volume.
    fn put_bytes(&mut self, text: &str) -> Result<(), Trouble> {
        let bytes = hex::decode(self.alloc, text)?;
        if bytes.len() > BLOCK_LENGTH {
            return Err(Trouble::OtherLength);
        }
        let mut block = [0; BLOCK_LENGTH];
        for (place, byte) in block.iter_mut().zip(bytes.iter()) {
            *place = *byte;
        }
        self.put(block)
    }

    /// Carries out a step with its numbers.
    fn carry_out(&mut self, step: Step, text: &str) -> Result<String, Trouble> {
        let numbers = numbers(self.alloc, text)?;
        match step {
            Step::Catalog => self.tell_catalog(),
            Step::Plan => self.tell_plan(&numbers, None),
            Step::PlanTo => match numbers.as_slice() {
                [end, spaces @ ..] => self.tell_plan(spaces, Some(*end)),
                [] => Err(Trouble::OtherCount),
            },
            step => {
                self.change(step, &numbers)?;
                Ok(String::new(self.alloc))
            }
        }
    }

    /// Carries out a step that puts a block on the last volume, or changes what is there.
    fn change(&mut self, step: Step, numbers: &[u64]) -> Result<(), Trouble> {
        match (step, numbers) {
            (Step::Incarnation, [incarnation]) => {
                self.incarnation = *incarnation;
                Ok(())
            }
            (Step::Volume, [drive]) => self.begin_volume(*drive),
            (Step::Flip, [drive, volume, block, at]) => self.flip(*drive, *volume, *block, *at),
            (Step::Drop, [drive, volume, block]) => self.take_out(*drive, *volume, *block),
            (step, numbers) => self.write(step, numbers),
        }
    }

    /// Carries out a step that puts a block on the last volume.
    fn write(&mut self, step: Step, numbers: &[u64]) -> Result<(), Trouble> {
        match (step, numbers) {
            (Step::Archive, [number, level, cut, low, spaces @ ..]) => {
                let payload = archive_head(self.alloc, spaces, &self.text)?;
                self.begin(ARCHIVE_OBJECT, *number, (*cut, *low, *level), payload)
            }
            (Step::Log, [number, first, last]) => {
                self.begin(LOG_OBJECT, *number, (*first, *last, 0), NO_PAYLOAD)
            }
            (Step::Page, [space, page, stamp]) => {
                self.go_on(PAGE, (*space, *page, *stamp), data_page(*stamp))
            }
            (Step::Records, [first, count]) => self.put_records(*first, *count),
            (Step::End, []) => self.end(),
            (Step::Mark, [incarnation, end]) => self.put_mark(*incarnation, *end),
            _ => Err(Trouble::OtherCount),
        }
    }

    /// Puts the header of an object on the last volume, with the numbers of its last three fields.
    fn begin(
        &mut self,
        object: u8,
        number: u64,
        fields: (u64, u64, u64),
        payload: Payload,
    ) -> Result<(), Trouble> {
        let (a, b, c) = fields;
        let header = Block {
            kind: HEADER,
            object,
            incarnation: self.incarnation,
            number,
            index: 0,
            used: 0,
            a,
            b,
            c,
        };
        self.put(sealed(&header, &payload))?;
        self.open = Some(Open {
            header,
            payload,
            index: 0,
        });
        Ok(())
    }

    /// Puts the next block of the object on the last volume.
    fn go_on(
        &mut self,
        kind: u8,
        fields: (u64, u64, u64),
        payload: Payload,
    ) -> Result<(), Trouble> {
        let open = self.opened()?;
        let (a, b, c) = fields;
        let index = open.index.saturating_add(1);
        let head = Block {
            kind,
            index,
            a,
            b,
            c,
            ..open.header
        };
        self.put(sealed(&head, &payload))?;
        self.open = Some(Open { index, ..open });
        Ok(())
    }

    fn put_records(&mut self, first: u64, count: u64) -> Result<(), Trouble> {
        let open = self.opened()?;
        let (uniq, incarnation) = (open.header.number, open.header.incarnation);
        let page = log_page(open.index, uniq, incarnation, first, count)?;
        self.go_on(RECORDS, (first, count, 0), page)
    }

    fn end(&mut self) -> Result<(), Trouble> {
        let open = self.opened()?;
        let Block { a, b, c, .. } = open.header;
        self.go_on(TRAILER, (a, b, c), open.payload)?;
        self.open = None;
        Ok(())
    }

    fn put_mark(&mut self, incarnation: u64, end: u64) -> Result<(), Trouble> {
        let head = Block {
            kind: MARK,
            object: MARK_OBJECT,
            incarnation,
            number: incarnation,
            index: 0,
            used: 0,
            a: end,
            b: 0,
            c: 0,
        };
        self.put(sealed(&head, &NO_PAYLOAD))
    }

    fn opened(&self) -> Result<Open, Trouble> {
        match self.open {
            Some(open) => Ok(open),
            None => Err(Trouble::NoObject),
        }
    }

    fn begin_volume(&mut self, drive: u64) -> Result<(), Trouble> {
        let volume = Volume {
            drive: byte(drive)?,
            blocks: Vec::new(self.alloc),
        };
        Ok(self.volumes.push(volume)?)
    }

    /// Puts a block on the last volume.
    fn put(&mut self, block: Bytes) -> Result<(), Trouble> {
        match self.volumes.last_mut() {
            Some(volume) => Ok(volume.blocks.push(block)?),
            None => Err(Trouble::NoVolume),
        }
    }

    /// The blocks of a volume of a drive, which are counted from 1.
    fn volume(&mut self, drive: u64, volume: u64) -> Result<&mut Vec<Bytes>, Trouble> {
        let drive = byte(drive)?;
        let mut volumes = self
            .volumes
            .iter_mut()
            .filter(|volume| volume.drive == drive);
        match volumes.nth(index(volume.saturating_sub(1))?) {
            Some(volume) => Ok(&mut volume.blocks),
            None => Err(Trouble::NoBlock),
        }
    }

    fn flip(&mut self, drive: u64, volume: u64, block: u64, at: u64) -> Result<(), Trouble> {
        let blocks = self.volume(drive, volume)?;
        let Some(bytes) = blocks.get_mut(index(block)?) else {
            return Err(Trouble::NoBlock);
        };
        let Some(byte) = bytes.get_mut(index(at)?) else {
            return Err(Trouble::NoBlock);
        };
        *byte = !*byte;
        Ok(())
    }

    fn take_out(&mut self, drive: u64, volume: u64, block: u64) -> Result<(), Trouble> {
        let blocks = self.volume(drive, volume)?;
        let at = index(block)?;
        if at >= blocks.len() {
            return Err(Trouble::NoBlock);
        }
        blocks.remove(at);
        Ok(())
    }

    fn tell_catalog(&self) -> Result<String, Trouble> {
        let found = catalog_of(self.alloc, &self.volumes)?;
        answer::tell_catalog(self.alloc, &found)
    }

    fn tell_plan(&self, spaces: &[u64], end: Option<u64>) -> Result<String, Trouble> {
        let found = catalog_of(self.alloc, &self.volumes)?;
        answer::tell_plan(self.alloc, &found, spaces, end)
    }
}

/// The text of a configuration that is written in one line.
fn text_of(alloc: Global, line: &str) -> Result<Vec<u8>, Trouble> {
    let mut text = Vec::new(alloc);
    for byte in line.bytes() {
        text.push(if byte == b'/' { b'\n' } else { byte })?;
    }
    Ok(text)
}
