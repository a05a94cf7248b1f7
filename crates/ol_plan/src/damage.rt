//! The first bad block of what a plan takes.

ghost use Rattle.std.specs.Prelude.{◌≡◌, map};
ghost use Rattle.ol_plan.specs.Chains.{chain_of};
ghost use Rattle.ol_plan.specs.Damage.{bad_of_chains, bad_of_links, earlier, first_bad, is_before};

use crate::archives::Link;
use crate::chain::SpaceChain;
use crate::logs::LogSpan;
use ol_object_spans::Place;

/// The first bad block by place of chains and logs.
pub(crate) fn first_bad(chains: &[SpaceChain], logs: &[LogSpan]) -> Option<Place>
    ensures { result ≡ first_bad (map chain_of chains.now) logs.now }
{
    let mut bad = bad_of_chains(chains);
    for log in logs {
        bad = earlier(bad, log.bad);
    }
    bad
}

/// The first bad block of chains.
fn bad_of_chains(chains: &[SpaceChain]) -> Option<Place>
    ensures { result ≡ bad_of_chains (map chain_of chains.now) }
{
    let mut bad = None;
    for chain in chains {
        bad = bad_of_links(bad, &chain.links);
    }
    bad
}

/// The first of a bad block and those of archives.
fn bad_of_links(best: Option<Place>, links: &[Link]) -> Option<Place>
    ensures { result ≡ bad_of_links best links.now }
{
    let mut bad = best;
    for link in links {
        bad = earlier(bad, link.bad);
    }
    bad
}

/// The first of two bad blocks.
fn earlier(best: Option<Place>, bad: Option<Place>) -> Option<Place>
    ensures { result ≡ earlier best bad }
{
    match (best, bad) {
        (Some(best), Some(bad)) if is_before(&bad, &best) => Some(bad),
        (Some(best), _) => Some(best),
        (None, bad) => bad,
    }
}

/// Whether a place comes before another, by drive, volume and block.
fn is_before(one: &Place, other: &Place) -> bool
    ensures { result ≡ is_before one.now other.now }
{
    one.drive < other.drive
        || (one.drive == other.drive
            && (one.volume < other.volume
                || (one.volume == other.volume && one.block < other.block)))
}
