//! The steps of a scene, read from their lines.

use crate::numbers::{byte, choice, drive, number, numbers, offset, place, small};
use crate::words::with_blanks;
use ol_stage::{BlockPlace, Device, DiskDamage, Fault, Load, Spoiled, TapeDamage, Trouble};
use std::alloc::Global;

/// What a step shows.
#[derive(Clone, Copy)]
pub enum Show {
    /// `show tape D`: the blocks that drive D got in the last command, as they stand on the shelf.
    Tape { drive: u8 },
    /// `show page C P`: the bytes of a page of the disk.
    Page { chunk: u8, page: u32 },
    /// `show calls`: how many calls of the disk the last command made.
    Calls,
    /// `show entries`: the history of the last command.
    Entries,
    /// `show output`: the length and the digest of the output of the last command.
    Output,
}

/// A step that sets the devices up or damages them.
#[derive(Drop)]
pub enum Setting {
    /// `chunks P..`: a disk of zeros with chunks of so many pages.
    Chunks {
        pages: Vec<u32>,
    },
    /// `drive D BLOCKS VOLUMES`: the volumes that the drive has for each of the commands to come.
    Drive {
        load: Load,
    },
    /// `fail disk|drive D|shelf|source|sink N..`: the calls of these numbers fail in the next command.
    Fail {
        fault: Fault,
    },
    /// `stop M old|new|BYTE`: a stop within call M of the last command, or with `rest` for M behind it, and what it
    /// leaves in the place of bytes that were not synced. `clear C`: a lost chunk, which reads as zeros. `byte C P O V`:
    /// the byte at offset O of page P of chunk C is V from now on. `size C PAGES`: the disk says from now on that the
    /// chunk has so many pages. `spoil C P BYTE`: the page reads as that byte all over from now on.
    Disk {
        damage: DiskDamage,
    },
    /// `flip D V B I`: all bits of byte I of a block are turned. `cut D V B`: the blocks of a volume from B on are gone.
    /// `drop D V B N`: N blocks of a volume from B on are gone, and those behind them move up.
    Tape {
        place: BlockPlace,
        damage: TapeDamage,
    },
}

/// A line of a scene. Numbers are decimal.
#[derive(Drop)]
pub enum Step {
    /// An empty line, or a comment behind `#`.
    Nothing,
    /// `scene NAME..`: a new world. The texts stay.
    Scene,
    /// `text NAME`: a text begins, whose lines stand behind bars.
    Text {
        name: String,
    },
    /// A step that sets the devices up or damages them.
    Set {
        setting: Setting,
    },
    /// `run WORD.. [< TEXT]`: a command, with a text on its source; behind `quiet`, its output is not told. The word `""`
    /// has no byte, and a tilde in a word stands for a blank.
    Run {
        words: Vec<String>,
        input: Option<String>,
        quiet: bool,
    },
    /// `show ..`.
    Show {
        show: Show,
    },
}

/// Reads a step. Lines behind bars, `each` and `end` are none.
///
/// `NoStep` comes where the line is off the grammar, `NoNumber` and `NoDrive` where a number or a drive in it is none.
pub fn parse(alloc: Global, line: &str) -> Result<Step, Trouble> {
    if line.is_empty() || line.starts_with("#") {
        return Ok(Step::Nothing);
    }
    let words: Vec<&str> = line.split_whitespace().collect(alloc)?;
    match words.as_slice() {
        ["scene", ..] => Ok(Step::Scene),
        ["text", name] => Ok(Step::Text {
            name: String::from_str(alloc, name)?,
        }),
        ["quiet", "run", given @ ..] => parse_run(alloc, given, true),
        ["run", given @ ..] => parse_run(alloc, given, false),
        ["show", shown @ ..] => Ok(Step::Show {
            show: parse_show(shown)?,
        }),
        other => Ok(Step::Set {
            setting: parse_setting(alloc, other)?,
        }),
    }
}

/// Reads a step that sets a device up or damages it.
fn parse_setting(alloc: Global, words: &[&str]) -> Result<Setting, Trouble> {
    match words {
        ["chunks", pages @ ..] => Ok(Setting::Chunks {
            pages: parse_chunks(alloc, pages)?,
        }),
        ["drive", number, blocks, volumes] => Ok(Setting::Drive {
            load: parse_load(number, blocks, volumes)?,
        }),
        ["fail", failing @ ..] => Ok(Setting::Fail {
            fault: parse_fail(alloc, failing)?,
        }),
        other => parse_damage(other),
    }
}

/// Reads a step that damages the shelf or the disk.
fn parse_damage(words: &[&str]) -> Result<Setting, Trouble> {
    match words {
        ["flip", number, volume, block, at] => Ok(Setting::Tape {
            place: place(number, volume, block)?,
            damage: TapeDamage::Flip { byte: offset(at)? },
        }),
        ["cut", number, volume, block] => Ok(Setting::Tape {
            place: place(number, volume, block)?,
            damage: TapeDamage::Cut,
        }),
        ["drop", number, volume, block, count] => Ok(Setting::Tape {
            place: place(number, volume, block)?,
            damage: TapeDamage::Remove {
                count: small(count)?,
            },
        }),
        other => Ok(Setting::Disk {
            damage: parse_disk(other)?,
        }),
    }
}

fn parse_load(number: &str, blocks: &str, volumes: &str) -> Result<Load, Trouble> {
    Ok(Load {
        drive: drive(number)?,
        blocks: small(blocks)?,
        volumes: small(volumes)?,
    })
}

/// Reads what damages the disk, or lets it say what isn't so.
fn parse_disk(words: &[&str]) -> Result<DiskDamage, Trouble> {
    match words {
        ["stop", "rest", left] => Ok(DiskDamage::Stop {
            moment: None,
            choice: choice(left)?,
        }),
        ["stop", moment, left] => Ok(DiskDamage::Stop {
            moment: Some(number(moment)?),
            choice: choice(left)?,
        }),
        ["clear", chunk] => Ok(DiskDamage::Clear {
            chunk: byte(chunk)?,
        }),
        ["byte", chunk, page, at, value] => parse_byte(chunk, page, at, value),
        ["size", chunk, pages] => Ok(DiskDamage::Size {
            chunk: byte(chunk)?,
            pages: small(pages)?,
        }),
        ["spoil", chunk, page, value] => Ok(DiskDamage::Spoil {
            spoiled: parse_spoiled(chunk, page, value)?,
        }),
        _ => Err(Trouble::NoStep),
    }
}

fn parse_byte(chunk: &str, page: &str, at: &str, value: &str) -> Result<DiskDamage, Trouble> {
    Ok(DiskDamage::Byte {
        chunk: byte(chunk)?,
        page: small(page)?,
        offset: offset(at)?,
        byte: byte(value)?,
    })
}

fn parse_spoiled(chunk: &str, page: &str, value: &str) -> Result<Spoiled, Trouble> {
    Ok(Spoiled {
        chunk: byte(chunk)?,
        page: small(page)?,
        byte: byte(value)?,
    })
}

fn parse_show(words: &[&str]) -> Result<Show, Trouble> {
    match words {
        ["tape", number] => Ok(Show::Tape {
            drive: drive(number)?,
        }),
        ["page", chunk, page] => Ok(Show::Page {
            chunk: byte(chunk)?,
            page: small(page)?,
        }),
        ["calls"] => Ok(Show::Calls),
        ["entries"] => Ok(Show::Entries),
        ["output"] => Ok(Show::Output),
        _ => Err(Trouble::NoStep),
    }
}

/// Reads the device whose calls fail, and their numbers.
fn parse_fail(alloc: Global, words: &[&str]) -> Result<Fault, Trouble> {
    let (device, calls) = failing_device(words)?;
    Ok(Fault {
        device,
        calls: numbers(alloc, calls)?,
    })
}

fn failing_device<'a>(words: &'a [&'a str]) -> Result<(Device, &'a [&'a str]), Trouble> {
    match words {
        ["disk", calls @ ..] => Ok((Device::Disk, calls)),
        ["drive", number, calls @ ..] => Ok((Device::Drive(drive(number)?), calls)),
        ["shelf", calls @ ..] => Ok((Device::Shelf, calls)),
        ["source", calls @ ..] => Ok((Device::Source, calls)),
        ["sink", calls @ ..] => Ok((Device::Sink, calls)),
        _ => Err(Trouble::NoStep),
    }
}

fn parse_run(alloc: Global, given: &[&str], quiet: bool) -> Result<Step, Trouble> {
    match given {
        [words @ .., "<", name] => Ok(Step::Run {
            words: command_words(alloc, words)?,
            input: Some(String::from_str(alloc, name)?),
            quiet,
        }),
        words => Ok(Step::Run {
            words: command_words(alloc, words)?,
            input: None,
            quiet,
        }),
    }
}

/// The words of a command as they are meant.
fn command_words(alloc: Global, given: &[&str]) -> Result<Vec<String>, Trouble> {
    let mut words = Vec::new(alloc);
    for word in given {
        words.push(command_word(alloc, word)?)?;
    }
    Ok(words)
}

fn command_word(alloc: Global, word: &str) -> Result<String, Trouble> {
    match word {
        "\"\"" => Ok(String::new(alloc)),
        other => Ok(with_blanks(alloc, other)?),
    }
}

fn parse_chunks(alloc: Global, words: &[&str]) -> Result<Vec<u32>, Trouble> {
    let mut pages = Vec::new(alloc);
    for word in words {
        pages.push(small(word)?)?;
    }
    Ok(pages)
}
