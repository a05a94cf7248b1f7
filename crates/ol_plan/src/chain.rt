//! The chain of a space: its last archive, and the archives that this one goes on from.

ghost use Rattle.std.specs.Prelude.{◌≡◌, MatchResult, Ok, find, map, option_copied};
ghost use Rattle.ol_plan.specs.Chains.{IsCause, chain, chain_of, chains, is_later, is_parent, last_link, least_low, lower, one_up, with_later};

use crate::archives::{Link, links};
use crate::fault::PlanFault;
use ol_object_spans::Object;
use std::alloc::Global;

/// The archives of a space that a restore takes, from level 0 on.
#[derive(Drop)]
pub(crate) struct SpaceChain {
    /// The space.
    pub space: u8,
    /// Its archives.
    pub links: Vec<Link>,
}

/// The chains of these spaces up to an end, or the refusal of the first that lacks one.
pub(crate) fn chains(
    alloc: Global,
    objects: &[Object],
    spaces: &[u8],
    end: u64,
) -> Result<Vec<SpaceChain>, PlanFault>
    ensures { MatchResult result (λ v. chains objects.now end spaces.now ≡ Ok (map chain_of v.items)) (IsCause (chains objects.now end spaces.now)) }
{
    let mut chains = Vec::new(alloc);
    for space in spaces {
        let links = space_links(alloc, objects, *space, end)?;
        chains.push(SpaceChain {
            space: *space,
            links,
        })?;
    }
    Ok(chains)
}

/// The archives of a space's chain up to an end.
fn space_links(
    alloc: Global,
    objects: &[Object],
    space: u8,
    end: u64,
) -> Result<Vec<Link>, PlanFault>
    ensures { MatchResult result (λ v. chain objects.now end space ≡ Ok v.items) (IsCause (chain objects.now end space)) }
{
    let links = links(alloc, objects, space)?;
    let Some(last) = last_link(&links, end) else {
        return Err(PlanFault::MissingLevel {
            space,
            level: 0,
            archive: 0,
        });
    };
    let mut chain = Vec::new(alloc);
    chain.push(last)?;
    let chain = one_up(&links, space, chain)?;
    one_up(&links, space, chain)
}

/// A chain with the archive in front that its first one goes on from, where that has a level above 0.
fn one_up(links: &[Link], space: u8, mut chain: Vec<Link>) -> Result<Vec<Link>, PlanFault>
    ensures { MatchResult result (λ v. one_up links.now space chain.items ≡ Ok v.items) (IsCause (one_up links.now space chain.items)) }
{
    let Some(first) = chain.first().copied() else {
        return Ok(chain);
    };
    if first.level == 0 {
        return Ok(chain);
    }
    let Some(parent) = parent_of(links, &first) else {
        return Err(PlanFault::MissingLevel {
            space,
            level: (first.level - 1).min(255) as u8,
            archive: first.parent,
        });
    };
    chain.insert(0, parent)?;
    Ok(chain)
}

/// Whether an archive goes on from this one: it names it as its parent, one level up, and begins at its cut.
fn is_parent(child: &Link, link: &Link) -> bool
    ensures { result ≡ is_parent child.now link.now }
{
    link.number == child.parent
        && child.level.checked_sub(1) == Some(link.level)
        && link.cut == child.base
}

/// The first archive that another goes on from.
fn parent_of(links: &[Link], child: &Link) -> Option<Link>
    ensures { result ≡ find (is_parent child.now) links.now }
{
    for link in links {
        if is_parent(child, link) {
            return Some(*link);
        }
    }
    None
}

/// Whether an archive is a better last one: it has a greater cut, or the same and a higher number.
fn is_later(link: &Link, best: &Link) -> bool
    ensures { result ≡ is_later link.now best.now }
{
    best.cut < link.cut || (best.cut == link.cut && best.number < link.number)
}

/// The better of two last archives up to an end; of equals the first.
fn with_later(end: u64, best: Option<Link>, link: &Link) -> Option<Link>
    ensures { result ≡ with_later end best link.now }
{
    if link.cut > end {
        return best;
    }
    match best {
        Some(best) if !is_later(link, &best) => Some(best),
        _ => Some(*link),
    }
}

/// The best last archive up to an end.
fn last_link(links: &[Link], end: u64) -> Option<Link>
    ensures { result ≡ last_link links.now end }
{
    let mut best = None;
    for link in links {
        best = with_later(end, best, link);
    }
    best
}

/// The least position that the last archives of chains need, and at most the one behind the end.
pub(crate) fn least_low(chains: &[SpaceChain], end: u64) -> u128
    ensures { result ≡ least_low end (map chain_of chains.now) }
{
    let mut low = u128::from(end) + 1;
    for chain in chains {
        low = lower(low, chain.links.last());
    }
    low
}

/// The lesser of a position and the one that a chain's last archive needs.
fn lower(low: u128, last: Option<&Link>) -> u128
    ensures { result ≡ lower low (option_copied last.entry) }
{
    match last {
        Some(last) => low.min(u128::from(last.low)),
        None => low,
    }
}
