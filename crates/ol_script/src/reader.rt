//! The lines of a script's text, one by one.

ghost use Rattle.std.specs.Prelude.{◌≡◌, ◌<◌, ◌≤◌, IfOk, IfSome, length};
ghost use Rattle.ol_bytes.specs.Reading.{Gives};
ghost use Rattle.ol_script.specs.Reader.{unread, with_next};
ghost use Rattle.ol_script.specs.Script.{line_at, line_in_text, script_of};

use crate::forms::form_of;
use crate::pieces::next;
use crate::words::actor_of;
use ol_values::Line;
use ol_words::{cut, cut_at_first};

/// The most bytes of a line, its line feed not counted.
const LINE_LIMIT: usize = 255;

/// Reads the lines of a script's text in order. It takes no memory.
#[derive(Drop)]
pub(crate) struct LineReader<'a> {
    number: u32,
    rest: &'a [u8],
}

impl<'a> LineReader<'a> {
    /// All lines of a text are still to be read.
    pub(crate) fn new(text: &'a [u8]) -> LineReader<'a>
        ensures { unread result ≡ script_of text.now }
    {
        LineReader {
            number: 1,
            rest: text,
        }
    }

    /// The next line; `None` where the text is at its end. The error is the number of the next line, where
    /// that is off the grammar: the reader then stays in front of it.
    pub(crate) fn next(&mut self) -> Result<Option<Line>, u32>
        ensures lines { unread self.old ≡ with_next result (unread self.new) }
        ensures shorter { IfOk result (λ line. IfSome line (λ _. length self.new.rest.now < length self.old.rest.now)) }
    {
        let Some((bytes, behind)) = cut_at_first(b'\n', self.rest) else {
            return if self.rest.is_empty() {
                Ok(None)
            } else {
                Err(self.number)
            };
        };
        let Some(line) = line_at(self.number, bytes) else {
            return Err(self.number);
        };
        self.number += 1;
        self.rest = behind;
        Ok(Some(line))
    }
}

// The line of this number. None where it is off the grammar, or there are too many lines.
fn line_at(number: u32, bytes: &[u8]) -> Option<Line>
    ensures line { Gives (λ l. l) result (line_at number bytes.now) }
    ensures few { IfSome result (λ l. number ≤ 65535) }
{
    let number = u16::try_from(number).ok()?;
    line_of(number, bytes)
}

#[tactic(auto, unfolding(crate::specs::Script::line_by))]
fn line_of(number: u16, bytes: &[u8]) -> Option<Line>
    ensures { Gives (λ l. l) result (line_in_text number bytes.now) }
{
    if bytes.len() > LINE_LIMIT {
        return None;
    }
    let (actor, behind) = cut(b' ', bytes);
    let actor = actor_of(actor)?;
    let (verb, behind) = next(b' ', behind)?;
    let form = form_of(actor, verb, behind)?;
    Some(Line {
        actor,
        number,
        form,
    })
}
