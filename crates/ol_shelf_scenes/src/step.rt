//! The steps that lines name by their first word. Behind it stand decimal numbers in the order that is told, each behind
//! words that say what it is, which begin with a letter and are passed over.

use crate::trouble::Trouble;

/// What a line with numbers does.
#[derive(Clone, Copy, Debug, PartialEq, Eq)]
pub enum Step {
    /// `incarnation N`: that of the objects that follow; 1 in the beginning.
    Incarnation,
    /// `volume DRIVE`: a volume behind those of the drive, which takes the blocks that follow.
    Volume,
    /// `archive NUMBER LEVEL CUT LOW [SPACE PARENT BASE]..`: the header of an archive, which is begun.
    Archive,
    /// `page SPACE PAGE STAMP`: the next block of the object that was begun: a page with the row `ann` in slot 0.
    Page,
    /// `log NUMBER FIRST LAST`: the header of a log, which is begun.
    Log,
    /// `records FIRST COUNT`: the next block of the object: so many records from that position on.
    Records,
    /// `end`: the trailer of the object.
    End,
    /// `mark INCARNATION END`: a mark.
    Mark,
    /// `flip DRIVE VOLUME BLOCK BYTE`: all bits of a byte of a block are turned.
    Flip,
    /// `drop DRIVE VOLUME BLOCK`: the block is gone, and those behind it move up.
    Drop,
    /// `catalog`: what objects are there?
    Catalog,
    /// `plan SPACE..`: what does a restore of these spaces up to the end of the logs take?
    Plan,
    /// `plan_to END SPACE..`: what does one up to that position take, with logs that may stop short?
    PlanTo,
}

impl Step {
    /// The step that a word names. `NoStep` comes where it names none.
    pub fn of(word: &str) -> Result<Step, Trouble> {
        match word {
            "incarnation" => Ok(Step::Incarnation),
            "volume" => Ok(Step::Volume),
            "archive" => Ok(Step::Archive),
            "page" => Ok(Step::Page),
            "log" => Ok(Step::Log),
            "records" => Ok(Step::Records),
            "end" => Ok(Step::End),
            "mark" => Ok(Step::Mark),
            "flip" => Ok(Step::Flip),
            "drop" => Ok(Step::Drop),
            "catalog" => Ok(Step::Catalog),
            "plan" => Ok(Step::Plan),
            "plan_to" => Ok(Step::PlanTo),
            _ => Err(Trouble::NoStep),
        }
    }
}
