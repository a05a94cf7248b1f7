//! The words of the command line.

ghost use Rattle.std.specs.Prelude.{◌≡◌, ◌++◌, ◌∷◌, [], OnOk, OnErr};
ghost use Rattle.ol_online.specs.Words.{verb_in};

use ol_values::NoMemory;
use std::alloc::Global;
use std::marker::Model;

/// What the words of a command line ask for.
#[derive(Clone, Copy, Debug, PartialEq, Eq)]
pub enum Verb {
    /// `init`: a configuration is read, and the disk is formatted.
    Init,
    /// `play`: the lines of a script are carried out in file order.
    Play,
}

/// The words of a command line in order, which contracts see as a list of lists of bytes.
#[derive(Debug, Drop)]
pub struct Words {
    alloc: Global,
    words: Vec<Vec<u8>>,
}

impl Model for Words {
    ghost use Rattle.std.specs.Prelude.{List, ℕ, map};

    ghost Value = { List (List ℕ) };

    ghost view = { λ w. map (λ x. x.items) w.words.items };
}

impl Words {
    ghost use Rattle.ol_online.specs.Words.{verb_told};

    /// No word yet. It takes no memory.
    pub fn new(alloc: Global) -> Words
        ensures { result ≡ [] }
    {
        Words {
            alloc,
            words: Vec::new(alloc),
        }
    }

    /// One word more. At `NoMemory` the words stay as they were.
    pub fn push(&mut self, word: &str) -> Result<(), NoMemory>
        ensures ok { OnOk result (self.new ≡ self.old ++ word.now ∷ []) }
        ensures err { OnErr result (self.new ≡ self.old) }
    {
        let word = Vec::from_slice(self.alloc, word.as_bytes())?;
        self.words.push(word)?;
        Ok(())
    }

    /// The command that the words give; None where they give none.
    pub(crate) fn verb(&self) -> Option<Verb>
        ensures { result ≡ verb_told self.now }
    {
        match self.words.as_slice() {
            [word] => verb_of(word),
            _ => None,
        }
    }
}

/// The command of one word.
fn verb_of(word: &[u8]) -> Option<Verb>
    ensures { result ≡ verb_in word.now }
{
    if word == b"init".as_slice() {
        Some(Verb::Init)
    } else if word == b"play".as_slice() {
        Some(Verb::Play)
    } else {
        None
    }
}
