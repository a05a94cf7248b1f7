//! The options of a command line.

ghost use Rattle.std.specs.Prelude.{◌≡◌, IfOk};
ghost use Rattle.std.specs.Option.{option_map};
ghost use Rattle.ol_devices.specs.OptionLine.{AnswersLine, chunk_list, is_option, is_option_next, list_option, number_option, options_of, texts};
ghost use Rattle.ol_devices.specs.Pieces.{with_texts, list_with_texts};

use crate::disk_file::CHUNKS;
use ol_ports::NoMemory;
use ol_words::{number, numbers};
use std::alloc::Global;

/// The blocks of a volume and the volumes of a drive, where no option gives them.
const BLOCKS: u32 = 100_000;

const VOLUMES: u32 = 1_000;

/// The greatest number that an option may have.
const NUMBER_LIMIT: u32 = 4_294_967_295;

/// The options that a command line begins with, and the words of its command.
#[derive(Debug, Drop)]
pub struct Options<'a> {
    /// The folder of the chunk files and the volumes.
    pub dir: &'a str,
    /// The pages of the chunk files that are to be made where they are missing, counted from chunk 0;
    /// none where no list is given.
    pub chunks: Vec<u32>,
    /// How many blocks a volume takes.
    pub blocks: u32,
    /// How many further volumes each drive mounts.
    pub volumes: u32,
    /// The words behind the options.
    pub words: &'a [String],
}

/// Why there are no options.
#[derive(Clone, Copy, Debug, PartialEq, Eq)]
pub enum OptionFault {
    /// The words are off the form.
    BadOptions,
    /// Memory was refused.
    NoMemory,
}

/// Reads the options `--dir DIR [--chunks P0,P1,..] [--blocks N] [--volumes N]` at the head of a command
/// line, without the program's name. They stand in this order, each at most once and with its value in the
/// next word. `DIR` is not empty. `N` and each of the 1 to 32 `P` are decimal numbers from 1 to 4,294,967,295 without leading
/// zeros. A volume takes 100,000 blocks and a drive 1,000 volumes where the line doesn't say.
///
/// `BadOptions` exactly where the words are off this form, also where the word behind the options is the
/// name of one; `NoMemory` where memory for the list is refused.
pub fn parse_options(alloc: Global, words: &[String]) -> Result<Options<'_>, OptionFault>
    ensures { AnswersLine (options_of (texts words.now)) result }
{
    let [option, dir, behind @ ..] = words else {
        return Err(OptionFault::BadOptions);
    };
    if option.as_bytes() != b"--dir".as_slice() {
        return Err(OptionFault::BadOptions);
    }
    // `/chunk0` would be a file of the root folder
    if dir.as_bytes() == b"".as_slice() {
        return Err(OptionFault::BadOptions);
    }
    let (chunks, behind) = match list_option(alloc, behind) {
        Ok(Some(given)) => given,
        Ok(None) => return Err(OptionFault::BadOptions),
        Err(_) => return Err(OptionFault::NoMemory),
    };
    let Some((blocks, behind)) = number_option(b"--blocks", BLOCKS, behind) else {
        return Err(OptionFault::BadOptions);
    };
    let Some((volumes, words)) = number_option(b"--volumes", VOLUMES, behind) else {
        return Err(OptionFault::BadOptions);
    };
    if is_option_next(words) {
        return Err(OptionFault::BadOptions);
    }
    Ok(Options {
        dir: dir.as_str(),
        chunks,
        blocks,
        volumes,
        words,
    })
}

// The value of an option of this name and the words behind it, or where it isn't next the value that then
// counts; None where its value is missing or is no number.
fn number_option<'a>(name: &[u8], default: u32, words: &'a [String]) -> Option<(u32, &'a [String])>
    ensures { option_map with_texts result ≡ number_option name.now default (texts words.now) }
{
    let Some((option, behind)) = words.split_first() else {
        return Some((default, words));
    };
    if option.as_bytes() != name {
        return Some((default, words));
    }
    let (value, rest) = behind.split_first()?;
    let number = number(value.as_bytes(), NUMBER_LIMIT)?;
    Some((number, rest))
}

// The numbers of the list of chunks and the words behind it, none where it isn't next; None where it is
// missing or is off its form.
fn list_option(alloc: Global, words: &[String]) -> Result<Option<(Vec<u32>, &[String])>, NoMemory>
    ensures { IfOk result (λ given. option_map list_with_texts given ≡ list_option (texts words.now)) }
{
    let Some((option, behind)) = words.split_first() else {
        return Ok(Some((Vec::new(alloc), words)));
    };
    if option.as_bytes() != b"--chunks".as_slice() {
        return Ok(Some((Vec::new(alloc), words)));
    }
    let Some((value, rest)) = behind.split_first() else {
        return Ok(None);
    };
    match chunk_list(alloc, value.as_bytes()) {
        Ok(Some(numbers)) => Ok(Some((numbers, rest))),
        Ok(None) => Ok(None),
        Err(refused) => Err(refused),
    }
}

// At most 32 numbers, with one comma between two; None where the text is off this form.
fn chunk_list(alloc: Global, text: &[u8]) -> Result<Option<Vec<u32>>, NoMemory>
    ensures { IfOk result (λ numbers. option_map (λ v. v.items) numbers ≡ chunk_list text.now) }
{
    match numbers(alloc, b',', Some(text), NUMBER_LIMIT) {
        Ok(Some(numbers)) if numbers.len() <= CHUNKS => Ok(Some(numbers)),
        Ok(_) => Ok(None),
        Err(refused) => Err(refused),
    }
}

// Whether the word is the name of an option.
fn is_option(word: &[u8]) -> bool
    ensures { result ≡ is_option word.now }
{
    (word == b"--dir".as_slice() || word == b"--chunks".as_slice())
        || (word == b"--blocks".as_slice() || word == b"--volumes".as_slice())
}

// Whether an option is next.
fn is_option_next(words: &[String]) -> bool
    ensures { result ≡ is_option_next (texts words.now) }
{
    match words {
        [] => false,
        [word, ..] => is_option(word.as_bytes()),
    }
}
