//! Places of blocks, and the places of a stream of blocks held as runs of consecutive ones.

ghost use Rattle.std.specs.Prelude.{◌≡◌, OnOk, option_copied};
ghost use Rattle.ol_object_spans.specs.Places.{goes_on, moved, place_in, runs_with};

use crate::NoMemory;

/// The place of a block.
#[derive(Clone, Copy, Debug, PartialEq, Eq)]
pub struct Place {
    /// The drive, from 0.
    pub drive: u8,
    /// The volume of the drive, from 1.
    pub volume: u32,
    /// The block of the volume, from 0.
    pub block: u32,
}

/// Blocks of a stream that follow one another at consecutive places, as those of a volume do.
#[derive(Clone, Copy)]
pub(crate) struct Run {
    /// The index in the stream of the first of them.
    pub first: u64,
    /// The place of the first of them.
    pub place: Place,
}

/// The place of the block of this index, were it one of the run.
fn place_in_run(run: &Run, index: u64) -> Place
    ensures { result ≡ moved run.now index }
{
    let room = u32::MAX - run.place.block;
    let distance = index.saturating_sub(run.first).min(u64::from(room)) as u32;
    Place {
        drive: run.place.drive,
        volume: run.place.volume,
        block: run.place.block + distance,
    }
}

/// The place of the block of this index in a stream.
pub(crate) fn place_at(runs: &[Run], index: u64) -> Place
    ensures { result ≡ place_in runs.now index }
{
    let mut place = Place {
        drive: 0,
        volume: 0,
        block: 0,
    };
    for run in runs {
        if run.first <= index {
            place = place_in_run(run, index);
        }
    }
    place
}

/// Whether a block of this index has the place behind those of the last run.
fn goes_on(last: Option<&Run>, index: u64, place: Place) -> bool
    ensures { result ≡ goes_on (option_copied last.entry) index place }
{
    match last {
        Some(run) => run.first <= index && place_in_run(run, index) == place,
        None => false,
    }
}

/// Adds the place of the block of this index, which is the first behind those of the runs.
pub(crate) fn note_place(runs: &mut Vec<Run>, index: u64, place: Place) -> Result<(), NoMemory>
    ensures { OnOk result (runs.new.items ≡ runs_with runs.old.items index place) }
{
    if goes_on(runs.last(), index, place) {
        return Ok(());
    }
    runs.push(Run {
        first: index,
        place,
    })?;
    Ok(())
}
