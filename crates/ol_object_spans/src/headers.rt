//! All headers of a stream. At most one span goes on, that of the last header.

ghost use Rattle.std.specs.Prelude.{◌≡◌, ◌≤◌, [], None, OnOk, Some, false, find, length, nat_lt, option_copied, true};
ghost use Rattle.ol_object_spans.specs.Passing.{HasPassed, bad_of_live, bad_of_stopped, bad_told, begun, goes_to, start_of, starts_at};
ghost use Rattle.std.specs.List.Sorted.{IsNonDecreasingBy, IsPartitionPoint};

use crate::NoMemory;
use crate::block::ReadBlock;
use crate::header::{Header, Live, Progress, Stopped, ends_as, has_come, passed};
use crate::place::Place;
use std::alloc::Global;

/// The headers of a stream: those whose spans have stopped, and the one whose span goes on.
#[derive(Drop)]
pub(crate) struct Headers {
    pub stopped: Vec<Stopped>,
    pub live: Option<Live>,
}

impl Headers {
    /// No headers.
    pub(crate) fn new(alloc: Global) -> Headers
        ensures stopped { result.stopped.items ≡ [] }
        ensures live { result.live ≡ None }
    {
        Headers {
            stopped: Vec::new(alloc),
            live: None,
        }
    }

    /// The span that goes on passes the block of this index in the stream, or stops there. No item stands for bytes that
    /// are no block.
    pub(crate) fn pass(
        &mut self,
        index: u64,
        place: Place,
        item: Option<&ReadBlock>,
    ) -> Result<(), NoMemory>
        ensures { OnOk result (HasPassed index place (option_copied item.entry) self.old self.new) }
    {
        let Some(live) = self.live.take() else {
            return Ok(());
        };
        match goes_to(&live, index, item) {
            Some(progress) => {
                self.live = Some(Live {
                    header: live.header,
                    progress,
                });
            }
            None => {
                self.stopped.push(Stopped {
                    header: live.header,
                    bad: place,
                })?;
            }
        }
        Ok(())
    }

    /// A span begins at a header, the block of this index in the stream.
    pub(crate) fn begin(&mut self, start: u64, block: ReadBlock)
        ensures stopped { self.new.stopped ≡ self.old.stopped }
        ensures live { self.new.live ≡ begun start block }
    {
        let position = u128::from(block.head.a);
        self.live = Some(Live {
            header: Header {
                start,
                head: block.head,
                held: block.held,
            },
            progress: Progress {
                last: None,
                position,
            },
        });
    }

    /// The first bad block of the object of a trailer, of which the first block has this index in the stream. The places are
    /// those of its first and of its last block.
    pub(crate) fn bad_of(
        &self,
        start: u64,
        first: Place,
        last: Place,
        trailer: &ReadBlock,
    ) -> Option<Place>
        ensures { IsNonDecreasingBy start_of self.now.stopped.items → result ≡ bad_told self.now.live self.now.stopped.items start first last trailer.now }
    {
        match &self.live {
            Some(live) if live.header.start == start => bad_of_live(live, first, last, trailer),
            _ => Some(self.bad_of_stopped(start, first, trailer)),
        }
    }

    /// The first bad block of such an object whose header, if there is one, is none of a span that goes on.
    fn bad_of_stopped(&self, start: u64, first: Place, trailer: &ReadBlock) -> Place
        ensures { IsNonDecreasingBy start_of self.now.stopped.items → result ≡ bad_of_stopped first trailer.now (find (starts_at start) self.now.stopped.items) }
    {
        let at = first_from(&self.stopped, start);
        if at == self.stopped.len() {
            return first;
        }
        let stopped = &self.stopped[at];
        if stopped.header.start != start {
            return first;
        }
        bad_behind(stopped, first, trailer)
    }
}

/// The place of the first header, of some in order, that begins at this index or behind it.
fn first_from(stopped: &[Stopped], start: u64) -> usize
    ensures bound { result ≤ length stopped.now }
    ensures point { IsNonDecreasingBy start_of stopped.now → IsPartitionPoint (λ s. nat_lt (start_of s) start ≡ true) (λ s. nat_lt (start_of s) start ≡ false) stopped.now result }
{
    stopped.partition_point(|own| own.header.start < start)
}

/// How far a span that goes on has come behind the block of this index in the stream; none where it stops there.
fn goes_to(live: &Live, index: u64, item: Option<&ReadBlock>) -> Option<Progress>
    ensures { result ≡ goes_to live.now index (option_copied item.entry) }
{
    match item {
        Some(block) => passed(live, index.saturating_sub(live.header.start), block),
        None => None,
    }
}

/// The first bad block of the object of a trailer that a span came to which goes on.
fn bad_of_live(live: &Live, first: Place, last: Place, trailer: &ReadBlock) -> Option<Place>
    ensures { result ≡ bad_of_live live.now first last trailer.now }
{
    if !ends_as(&live.header, trailer) {
        return Some(first);
    }
    if has_come(live) { None } else { Some(last) }
}

/// The first bad block of the object of a trailer that a span did not come to.
fn bad_behind(stopped: &Stopped, first: Place, trailer: &ReadBlock) -> Place
    ensures { result ≡ bad_of_stopped first trailer.now (Some stopped.now) }
{
    if ends_as(&stopped.header, trailer) {
        stopped.bad
    } else {
        first
    }
}
