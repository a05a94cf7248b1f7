//! What the steps of a scene work on.

use crate::entries::tell_entries;
use crate::pages::tell_page;
use crate::steps::{Setting, Show};
use crate::words::is_same;
use ol_chunks::{ChunkTable, parse_config};
use ol_stage::{Outcome, Stage, Trouble};
use std::alloc::{AllocError, Global};

/// The devices, what the last command left, and the configuration that names the spaces.
#[derive(Drop)]
pub struct World {
    stage: Stage,
    last: Option<Outcome>,
    table: Option<ChunkTable>,
}

impl World {
    /// New devices, and no command yet.
    pub fn new(alloc: Global) -> Result<World, AllocError> {
        Ok(World {
            stage: Stage::new(alloc)?,
            last: None,
            table: None,
        })
    }

    /// Sets the devices up or damages them.
    ///
    /// The error says why it can't be, and nothing has changed then.
    pub fn set(&mut self, setting: Setting) -> Result<(), Trouble> {
        match setting {
            Setting::Chunks { pages } => self.stage.make_chunks(&pages),
            Setting::Drive { load } => self.stage.load(load),
            Setting::Fail { fault } => self.stage.fail(fault),
            Setting::Disk { damage } => self.stage.damage_disk(damage),
            Setting::Tape { place, damage } => self.stage.damage_tape(place, damage),
        }
    }

    /// Shows what stands there now.
    ///
    /// The error says why it can't be.
    pub fn show(&mut self, show: Show, told: &mut String) -> Result<(), Trouble> {
        match show {
            Show::Tape { drive } => self.stage.tell_tape(drive, told),
            Show::Page { chunk, page } => show_page(&mut self.stage, chunk, page, told),
            Show::Calls => Ok(last_of(&self.last)?.tell_calls(told)?),
            Show::Output => Ok(last_of(&self.last)?.tell_output(told)?),
            Show::Entries => show_entries(&self.last, &self.table, told),
        }
    }

    /// Runs a command over the devices, and tells its output and its status.
    ///
    /// `NoMemory` comes where memory was refused, `NoWords` where the output is no text.
    pub fn run(
        &mut self,
        given: &[String],
        input: &[u8],
        quiet: bool,
        told: &mut String,
    ) -> Result<(), Trouble> {
        let outcome = self.stage.command(given, input)?;
        if outcome.is_well() && is_init(given) {
            self.table = parse_config(input).ok();
        }
        tell_run(&outcome, quiet, told)?;
        self.last = Some(outcome);
        Ok(())
    }
}

/// Whether the words are those of a command that formats the disk for a configuration.
fn is_init(given: &[String]) -> bool {
    match given {
        [word] => is_same(word.as_str(), "init"),
        _ => false,
    }
}

fn tell_run(outcome: &Outcome, quiet: bool, told: &mut String) -> Result<(), Trouble> {
    if !quiet {
        outcome.tell(told)?;
    }
    Ok(outcome.tell_code(told)?)
}

fn show_page(stage: &mut Stage, chunk: u8, page: u32, told: &mut String) -> Result<(), Trouble> {
    let bytes = stage.page(chunk, page)?;
    Ok(tell_page(&bytes, told)?)
}

fn show_entries(
    last: &Option<Outcome>,
    table: &Option<ChunkTable>,
    told: &mut String,
) -> Result<(), Trouble> {
    match table {
        Some(table) => tell_entries(last_of(last)?.history(), table, told),
        None => Err(Trouble::NoNames),
    }
}

/// What the last command left.
///
/// `NoCall` comes where there was none.
fn last_of(last: &Option<Outcome>) -> Result<&Outcome, Trouble> {
    match last {
        Some(outcome) => Ok(outcome),
        None => Err(Trouble::NoCall),
    }
}
