//! Heads of open log pages, by their positions: whether two of them share one, and where the standing run begins.

ghost use Rattle.std.specs.Prelude.{◌≡◌, ◌<◌, ◌≤◌, ◌+◌, ◌^◌, ℕ, IfOk, IsErrOf, MatchBool, length};
ghost use Rattle.ol_log_places.specs.Heads.{AreApart, AreLow, BeginsRun, IsFirstSharing, IsLastRun, IsLow, IsNotApart, Overlap, SharesAt, end_in, stood_at};

use ol_record::LogHead;
use std::alloc::Global;

/// An open log page: where it stands, and what its front tells.
#[derive(Clone, Copy, Debug, PartialEq, Eq)]
pub struct Stood {
    /// The chunk, from 0.
    pub chunk: u8,
    /// The page of the chunk, from 0.
    pub page: u32,
    /// The front of the page.
    pub head: LogHead,
}

/// Why a scan found no run.
#[derive(Clone, Copy, Debug, PartialEq, Eq)]
pub enum ScanFault {
    /// This page is open and is no log page of its place; or no page is, and this is the first, in order of place, that
    /// shares a position with an open page at a lower place.
    BadDisk { chunk: u8, page: u32 },
    /// A read from this chunk failed.
    DiskFault { chunk: u8 },
    /// Memory was refused.
    NoMemory,
}

/// The position behind the last of a page.
fn end_of(stood: &Stood) -> u64
    requires { IsLow stood.now }
    ensures { result ≡ end_in stood.now }
{
    stood.head.first + u64::from(stood.head.count)
}

/// The pages of the run, by position. The heads are in order of place.
pub(crate) fn find_run(alloc: Global, heads: &[Stood]) -> Result<Vec<Stood>, ScanFault>
    requires { AreLow heads.now }
    ensures run { IfOk result (λ run. IsLastRun heads.now run.items) }
    ensures bad { (chunk page : ℕ) → IsErrOf result (ScanFault.BadDisk chunk page) → (k : ℕ) × IsFirstSharing heads.now k × (chunk ≡ (stood_at heads.now k).chunk) × (page ≡ (stood_at heads.now k).page) }
    ensures disk { (chunk : ℕ) → IsErrOf result (ScanFault.DiskFault chunk) → ⊥ }
{
    let mut sorted = match Vec::from_slice(alloc, heads) {
        Ok(sorted) => sorted,
        Err(_) => return Err(ScanFault::NoMemory),
    };
    sorted.sort_unstable_by_key(|stood| stood.head.first);
    if !are_apart(&sorted) {
        return Err(refuse_first(heads));
    }
    let start = start_of_run(&sorted);
    match sorted.split_off(start) {
        Ok(run) => Ok(run),
        Err(_) => Err(ScanFault::NoMemory),
    }
}

/// Whether no page ends behind the begin of the next. The heads are in order of their first positions.
fn are_apart(heads: &[Stood]) -> bool
    requires { AreLow heads.now }
    ensures { MatchBool result (AreApart heads.now) (IsNotApart heads.now) }
{
    for k in 1..heads.len() {
        if end_of(&heads[k - 1]) > heads[k].head.first {
            return false;
        }
    }
    true
}

/// Where the run begins: from there on each page ends just before the next.
fn start_of_run(heads: &[Stood]) -> usize
    requires { AreLow heads.now }
    ensures { BeginsRun heads.now result }
{
    let mut start = heads.len().saturating_sub(1);
    while start > 0 && end_of(&heads[start - 1]) == heads[start].head.first {
        start -= 1;
    }
    start
}

/// Names the first page that shares a position with one before it.
fn refuse_first(heads: &[Stood]) -> ScanFault
    requires low { AreLow heads.now }
    requires shares { (k : ℕ) × (k < length heads.now) × SharesAt heads.now k }
    ensures { (k : ℕ) × IsFirstSharing heads.now k × (result ≡ ScanFault.BadDisk (stood_at heads.now k).chunk (stood_at heads.now k).page) }
{
    let mut k = 0;
    while !shares_at(heads, k) {
        k += 1;
    }
    ScanFault::BadDisk {
        chunk: heads[k].chunk,
        page: heads[k].page,
    }
}

/// Whether the page at this index shares a position with one before it.
fn shares_at(heads: &[Stood], k: usize) -> bool
    requires low { AreLow heads.now }
    requires index { k < length heads.now }
    ensures { MatchBool result (SharesAt heads.now k) (SharesAt heads.now k → ⊥) }
{
    for earlier in 0..k {
        if overlap(&heads[earlier], &heads[k]) {
            return true;
        }
    }
    false
}

/// Whether two pages share a position.
fn overlap(a: &Stood, b: &Stood) -> bool
    requires a { IsLow a.now }
    requires b { IsLow b.now }
    ensures { MatchBool result (Overlap a.now b.now) (Overlap a.now b.now → ⊥) }
{
    a.head.first < end_of(b) && b.head.first < end_of(a)
}
