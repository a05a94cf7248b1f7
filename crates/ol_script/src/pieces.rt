//! The pieces of a text that stand behind one: none, or those behind the byte that parts them.

ghost use Rattle.std.specs.Prelude.{◌≡◌, ◌<◌, IfSome};
ghost use Rattle.ol_script.specs.Pieces.{count_behind, first_piece, one_of, three_of, two_of};
ghost use Rattle.ol_bytes.specs.Reading.{Gives};
ghost use Rattle.ol_words.specs.Words.{pieces_behind};

use ol_words::cut;

/// The next piece, and what is behind that; `None` where there is none.
pub(crate) fn next(mark: u8, behind: Option<&[u8]>) -> Option<(&[u8], Option<&[u8]>)>
    ensures pieces { Gives (λ p. (p.0.now, pieces_behind mark p.1)) result (first_piece (pieces_behind mark behind.entry)) }
    ensures shorter { IfSome result (λ p. count_behind p.1 < count_behind behind.entry) }
{
    Some(cut(mark, behind?))
}

/// The piece, where there is one only.
pub(crate) fn one(mark: u8, behind: Option<&[u8]>) -> Option<&[u8]>
    ensures { Gives (λ p. p.now) result (one_of (pieces_behind mark behind.entry)) }
{
    let (piece, behind) = next(mark, behind)?;
    if behind.is_none() { Some(piece) } else { None }
}

/// The two pieces, where there are two only.
pub(crate) fn two(mark: u8, behind: Option<&[u8]>) -> Option<(&[u8], &[u8])>
    ensures { Gives (λ p. (p.0.now, p.1.now)) result (two_of (pieces_behind mark behind.entry)) }
{
    let (first, behind) = next(mark, behind)?;
    let second = one(mark, behind)?;
    Some((first, second))
}

/// The three pieces, where there are three only.
pub(crate) fn three(mark: u8, behind: Option<&[u8]>) -> Option<(&[u8], &[u8], &[u8])>
    ensures { Gives (λ p. (p.0.now, p.1.now, p.2.now)) result (three_of (pieces_behind mark behind.entry)) }
{
    let (first, behind) = next(mark, behind)?;
    let (second, third) = two(mark, behind)?;
    Some((first, second, third))
}
