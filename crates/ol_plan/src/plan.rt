//! The plan of a restore.

ghost use Rattle.std.specs.Prelude.{◌≡◌, IfOk, MatchResult, Ok, map, unwrap_or};
ghost use Rattle.ol_rules.specs.Shelf.{Shelf, objects};
ghost use Rattle.ol_object_spans.specs.Objects.{object_told};
ghost use Rattle.ol_plan.specs.Archives.{index_of_link};
ghost use Rattle.ol_plan.specs.Chains.{IsCause, chain_of};
ghost use Rattle.ol_plan.specs.Counting.{end_of};
ghost use Rattle.ol_plan.specs.Drafts.{IsDraftTold, archives_of, damage_in, draft_of, drafted, fault_in, links_in};
ghost use Rattle.ol_plan.specs.Logs.{index_of_log};
ghost use Rattle.ol_plan.specs.Planned.{IsPlanned, planned};

use crate::NoMemory;
use crate::archives::Link;
use crate::catalog::Catalog;
use crate::chain::{SpaceChain, chains, least_low};
use crate::damage::first_bad;
use crate::fault::PlanFault;
use crate::logs::{LogSpan, Runs, logs, take_runs};
use ol_object_spans::Object;
use std::alloc::Global;

/// The archives of a space that a restore takes.
#[derive(Drop)]
pub struct Chain {
    /// The space.
    pub space: u8,
    /// The indexes in the catalog of its archives, from level 0 on.
    pub archives: Vec<usize>,
}

/// What a restore takes.
#[derive(Drop)]
pub struct Plan {
    /// The last position that it restores.
    pub end: u64,
    /// The first position that it needs: the least that an archive needs, at most the one behind the end, and at most
    /// the greatest number.
    pub low: u64,
    /// The chain of each space.
    pub chains: Vec<Chain>,
    /// The indexes in the catalog of the log objects for the needed positions in order, each once for a run of positions.
    pub logs: Vec<usize>,
    /// The least needed position that no log object counts for; the logs stop before it.
    pub short: Option<u64>,
}

/// The parts of a plan before it is judged.
#[derive(Drop)]
struct Draft {
    /// The first needed position.
    low: u128,
    chains: Vec<SpaceChain>,
    runs: Runs,
}

/// The plan of a restore of these spaces: up to an end, where logs may stop short, or else up to the end of the logs,
/// none of which may be missing. It takes the square of the number of objects at worst, for each space and for the logs.
///
/// `MissingLevel` comes first, of the first space that lacks a level, then `MissingLog`, which comes only without an
/// end, and then `DamagedVolume`. `NoMemory` may come in place of any answer.
pub fn plan_restore(
    alloc: Global,
    catalog: &Catalog,
    spaces: &[u8],
    end: Option<u64>,
) -> Result<Plan, PlanFault>
    ensures { (shelf : Shelf) → catalog.now ≡ map object_told (objects shelf) → IsPlanned (objects shelf) (planned shelf spaces.now end) result }
{
    let last = last_position(catalog, end);
    let draft = make_draft(alloc, catalog.as_slice(), spaces, last)?;
    if let Some(fault) = fault_in(&draft, end.is_none()) {
        return Err(fault);
    }
    let plan = plan_of(alloc, &draft, last)?;
    Ok(plan)
}

/// An end, or else the end of the logs.
fn last_position(catalog: &Catalog, end: Option<u64>) -> u64
    ensures { result ≡ unwrap_or end (end_of catalog.now) }
{
    match end {
        Some(end) => end,
        None => catalog.end(),
    }
}

/// The chains, and the logs that they need up to an end.
fn make_draft(
    alloc: Global,
    objects: &[Object],
    spaces: &[u8],
    end: u64,
) -> Result<Draft, PlanFault>
    ensures { MatchResult result (λ d. drafted objects.now end spaces.now ≡ Ok (draft_of d)) (IsCause (drafted objects.now end spaces.now)) }
{
    let chains = chains(alloc, objects, spaces, end)?;
    let low = least_low(&chains, end);
    let logs = logs(alloc, objects)?;
    let runs = take_runs(alloc, &logs, low, end)?;
    Ok(Draft { low, chains, runs })
}

/// Why a draft is no plan: a position without a log, where none may be missing, and then a bad block.
fn fault_in(draft: &Draft, is_whole: bool) -> Option<PlanFault>
    ensures { result ≡ fault_in is_whole (draft_of draft.now) }
{
    match draft.runs.short {
        Some(position) if is_whole => Some(PlanFault::MissingLog { position }),
        _ => damage_in(draft),
    }
}

/// The first bad block of a draft, as a fault.
fn damage_in(draft: &Draft) -> Option<PlanFault>
    ensures { result ≡ damage_in (draft_of draft.now) }
{
    let bad = first_bad(&draft.chains, &draft.runs.logs)?;
    Some(PlanFault::DamagedVolume {
        drive: bad.drive,
        volume: bad.volume,
        block: bad.block,
    })
}

/// A draft as a plan up to an end.
fn plan_of(alloc: Global, draft: &Draft, end: u64) -> Result<Plan, NoMemory>
    ensures { IfOk result (IsDraftTold end (draft_of draft.now)) }
{
    let low = draft.low.min(u128::from(u64::MAX)) as u64;
    let chains = chains_of(alloc, &draft.chains)?;
    let logs = logs_of(alloc, &draft.runs.logs)?;
    Ok(Plan {
        end,
        low,
        chains,
        logs,
        short: draft.runs.short,
    })
}

/// Chains by the indexes of their archives.
fn chains_of(alloc: Global, chains: &[SpaceChain]) -> Result<Vec<Chain>, NoMemory>
    ensures { IfOk result (λ v. map archives_of v.items ≡ map links_in (map chain_of chains.now)) }
{
    let mut list = Vec::new(alloc);
    for chain in chains {
        let archives = archives_of(alloc, &chain.links)?;
        list.push(Chain {
            space: chain.space,
            archives,
        })?;
    }
    Ok(list)
}

/// The indexes of archives.
fn archives_of(alloc: Global, links: &[Link]) -> Result<Vec<usize>, NoMemory>
    ensures { IfOk result (λ v. v.items ≡ map index_of_link links.now) }
{
    links.iter().map(|link| link.index).collect(alloc)
}

/// The indexes of logs.
fn logs_of(alloc: Global, logs: &[LogSpan]) -> Result<Vec<usize>, NoMemory>
    ensures { IfOk result (λ v. v.items ≡ map index_of_log logs.now) }
{
    logs.iter().map(|log| log.index).collect(alloc)
}
