//! Words compared, and changed letter by letter.

use std::alloc::{AllocError, Global};

/// Whether two words are the same. Behind a call no goal speaks of the letters, which would be dear to prove.
pub fn is_same(left: &str, right: &str) -> bool {
    left == right
}

/// A word with blanks in the place of tildes.
pub fn with_blanks(alloc: Global, word: &str) -> Result<String, AllocError> {
    let mut text = String::new(alloc);
    for letter in word.chars() {
        text.push(blank_of(letter))?;
    }
    Ok(text)
}

fn blank_of(letter: char) -> char {
    if letter == '~' { ' ' } else { letter }
}
