//! The log objects that a restore takes, by runs of positions.

ghost use Rattle.std.specs.Prelude.{◌≡◌, IfOk, OnOk, find, map, not, option_copied};
ghost use Rattle.ol_plan.specs.Logs.{IsRuns, before_start, goes_on, log_of, logs, run_end, span_at, with_run, with_span};

use crate::NoMemory;
use crate::counting::{LOG_OBJECT, reach_of};
use ol_object_spans::{Object, Place};
use std::alloc::Global;

/// A log object, by the positions that it counts for.
#[derive(Clone, Copy)]
pub(crate) struct LogSpan {
    /// Its index among the objects.
    pub index: usize,
    /// The first position.
    pub first: u64,
    /// The last position, which may be below the first.
    pub reach: u64,
    /// Its first bad block.
    pub bad: Option<Place>,
}

/// The log objects for needed positions.
#[derive(Drop)]
pub(crate) struct Runs {
    /// The object of each run of positions, in order.
    pub logs: Vec<LogSpan>,
    /// The least needed position that no log object counts for.
    pub short: Option<u64>,
}

/// The log objects, in order of place.
pub(crate) fn logs(alloc: Global, objects: &[Object]) -> Result<Vec<LogSpan>, NoMemory>
    ensures { IfOk result (λ v. v.items ≡ logs objects.now) }
{
    let mut logs = Vec::new(alloc);
    for (index, object) in objects.iter().enumerate() {
        let Some(log) = log_of(objects, index, object) else {
            continue;
        };
        logs.push(log)?;
    }
    Ok(logs)
}

/// The object of this index as a log, if it is one.
fn log_of(objects: &[Object], index: usize, object: &Object) -> Option<LogSpan>
    ensures { result ≡ log_of objects.now (index, object.now) }
{
    if object.head.object != LOG_OBJECT {
        return None;
    }
    Some(LogSpan {
        index,
        first: object.head.a,
        reach: reach_of(objects, object),
        bad: object.bad,
    })
}

/// The log objects for the positions from a low to an end, as far as there are any. It goes by runs, of which there are
/// at most two for each object, and looks at each object in each run.
pub(crate) fn take_runs(
    alloc: Global,
    logs: &[LogSpan],
    low: u128,
    end: u64,
) -> Result<Runs, NoMemory>
    ensures { IfOk result (λ r. IsRuns logs.now low end r) }
{
    let mut taken = Vec::new(alloc);
    let mut position = low;
    while position <= u128::from(end) {
        let at = position as u64;
        let Some(log) = span_at(logs, at) else {
            return Ok(Runs {
                logs: taken,
                short: Some(at),
            });
        };
        take_run(&mut taken, log)?;
        position = u128::from(run_end(logs, at, log.reach.min(end))) + 1;
    }
    Ok(Runs {
        logs: taken,
        short: None,
    })
}

/// Adds the object of a run, unless the run before has the same.
fn take_run(taken: &mut Vec<LogSpan>, log: LogSpan) -> Result<(), NoMemory>
    ensures { OnOk result (taken.new.items ≡ with_run taken.old.items log) }
{
    if goes_on(taken.last(), &log) {
        return Ok(());
    }
    taken.push(log)?;
    Ok(())
}

/// Whether the last object is this one.
fn goes_on(last: Option<&LogSpan>, log: &LogSpan) -> bool
    ensures { result ≡ goes_on (option_copied last.entry) log.now }
{
    match last {
        Some(last) => last.index == log.index,
        None => false,
    }
}

/// Of the log objects that count at a position the one that reaches furthest; of equals the first.
fn span_at(logs: &[LogSpan], position: u64) -> Option<LogSpan>
    ensures { result ≡ span_at logs.now position }
{
    let mut best = None;
    for log in logs {
        best = with_span(position, best, log);
    }
    best
}

/// The one of two log objects that counts at a position and reaches further.
fn with_span(position: u64, best: Option<LogSpan>, log: &LogSpan) -> Option<LogSpan>
    ensures { result ≡ with_span position best log.now }
{
    if log.first > position || position > log.reach {
        return best;
    }
    match best {
        Some(best) if best.reach >= log.reach => Some(best),
        _ => Some(*log),
    }
}

/// The last position up to a limit before any log object behind a position begins.
fn run_end(logs: &[LogSpan], position: u64, limit: u64) -> u64
    ensures { result ≡ run_end logs.now position limit }
{
    let mut end = limit;
    for log in logs {
        end = before_start(position, end, log);
    }
    end
}

/// An end, or the position before a log object that begins behind a position, if that is less.
fn before_start(position: u64, end: u64, log: &LogSpan) -> u64
    ensures { result ≡ before_start position end log.now }
{
    if position < log.first {
        end.min(log.first - 1)
    } else {
        end
    }
}
