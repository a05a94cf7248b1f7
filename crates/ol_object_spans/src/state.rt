//! What a scan of a stream of blocks holds, and how a block changes it.

ghost use Rattle.std.specs.Prelude.{◌≡◌, ◌++◌, ◌∷◌, [], List, None, OnOk, Option, Some, map, option_map};
ghost use Rattle.std.specs.List.Sorted.{IsNonDecreasingBy};
ghost use Rattle.ol_values.specs.Blocks.{Block};
ghost use Rattle.ol_rules.specs.Shelf.{Placed, objects_of};
ghost use Rattle.ol_object_spans.specs.Objects.{object_told, place_told};
ghost use Rattle.ol_object_spans.specs.Passing.{start_of};
ghost use Rattle.ol_object_spans.specs.Places.{place_in};
ghost use Rattle.ol_object_spans.specs.Scans.{AreRising, HasScanned, IsItemIn, first_outside, placed};
ghost use Rattle.ol_object_spans.specs.Spans.{bad_by, left_before, outside_with, span_of};
ghost use Rattle.ol_object_spans.specs.Told.{IsItem, readable_in, told_of};

use crate::NoMemory;
use crate::block::{BlockHead, ReadBlock, is_readable};
use crate::header::{HEADER, TRAILER};
use crate::headers::Headers;
use crate::object::{Object, Objects, archive_in};
use crate::place::{Place, Run, note_place, place_at};
use std::alloc::{AllocError, Global};

/// The kind of a mark.
const MARK: u8 = 5;

/// The span of an object: the index in the stream of its first block, and how many it has.
#[derive(Clone, Copy)]
pub(crate) struct Span {
    pub start: u64,
    pub blocks: u64,
}

/// What a scan holds of the blocks that it was fed.
#[derive(Drop)]
pub(crate) struct ScanState {
    /// How many blocks it was fed.
    pub count: u64,
    /// Their places.
    pub runs: Vec<Run>,
    pub headers: Headers,
    pub objects: Objects,
    /// The index of the first block that is none, and that no object covers so far.
    pub outside: Option<u64>,
}

impl ScanState {
    /// Nothing, before the first block.
    pub(crate) fn new(alloc: Global) -> ScanState
        ensures { HasScanned [] [] [] result }
    {
        ScanState {
            count: 0,
            runs: Vec::new(alloc),
            headers: Headers::new(alloc),
            objects: Objects::new(alloc),
            outside: None,
        }
    }

    /// Takes the next block, as `StreamScan::feed` says.
    pub(crate) fn feed(&mut self, place: Place, item: Option<ReadBlock>) -> Result<(), NoMemory>
        ensures { (l : List Placed) (b : Option Block) → IsItemIn b → item ≡ option_map told_of b → HasScanned l l l self.old
            → OnOk result (HasScanned (l ++ placed place b ∷ []) (l ++ placed place b ∷ []) (l ++ placed place b ∷ []) self.new) }
    {
        let Some(count) = self.count.checked_add(1) else {
            return Err(AllocError);
        };
        note_place(&mut self.runs, self.count, place)?;
        self.feed_item(place, readable(item))?;
        self.count = count;
        Ok(())
    }

    /// The objects, and the first place outside, as `StreamScan::finish` says.
    pub(crate) fn finish(self) -> (Vec<Object>, Option<Place>)
        ensures objects { (l : List Placed) → HasScanned l l l self → result.0.items ≡ map object_told (objects_of l) }
        ensures outside { (l : List Placed) → HasScanned l l l self → AreRising l → result.1 ≡ option_map place_told (first_outside l) }
    {
        let outside = self.place_outside();
        (self.objects.into_list(), outside)
    }

    // The place of the first block that is none and that no object covers.
    fn place_outside(&self) -> Option<Place>
        ensures { result ≡ option_map (place_in self.now.runs.items) self.now.outside }
    {
        match self.outside {
            Some(index) => Some(place_at(&self.runs, index)),
            None => None,
        }
    }

    // Takes the next block, of which the place is noted; none where it is no block that counts.
    fn feed_item(&mut self, place: Place, item: Option<ReadBlock>) -> Result<(), NoMemory>
        ensures { (l : List Placed) (p : Placed) → IsItemIn p.item → place ≡ place_told p → item ≡ option_map told_of p.item
            → HasScanned l (l ++ p ∷ []) l self.old → OnOk result (HasScanned l (l ++ p ∷ []) (l ++ p ∷ []) self.new) }
    {
        match item {
            Some(block) => self.feed_block(place, block),
            None => self.feed_bytes(place),
        }
    }

    // Takes bytes that are no block.
    fn feed_bytes(&mut self, place: Place) -> Result<(), NoMemory>
        ensures { (l : List Placed) (p : Placed) → p.item ≡ None → place ≡ place_told p → HasScanned l (l ++ p ∷ []) l self.old
            → OnOk result (HasScanned l (l ++ p ∷ []) (l ++ p ∷ []) self.new) }
    {
        self.headers.pass(self.count, place, None)?;
        self.outside = outside_with(self.outside, self.count);
        Ok(())
    }

    // Takes a block that counts.
    fn feed_block(&mut self, place: Place, block: ReadBlock) -> Result<(), NoMemory>
        ensures { (l : List Placed) (p : Placed) (b : Block) → IsItem b → p.item ≡ Some b → place ≡ place_told p → block ≡ told_of b
            → HasScanned l (l ++ p ∷ []) l self.old → OnOk result (HasScanned l (l ++ p ∷ []) (l ++ p ∷ []) self.new) }
    {
        match span_of(&block.head, self.count) {
            Some(span) => self.end_object(span, place, block),
            None => self.go_on(place, block),
        }
    }

    // Takes a block that ends no object.
    fn go_on(&mut self, place: Place, block: ReadBlock) -> Result<(), NoMemory>
        ensures { (l : List Placed) (p : Placed) (b : Block) → IsItem b → p.item ≡ Some b → place ≡ place_told p → block ≡ told_of b
            → span_of block.head self.old.count ≡ None → HasScanned l (l ++ p ∷ []) l self.old
            → OnOk result (HasScanned l (l ++ p ∷ []) (l ++ p ∷ []) self.new) }
    {
        self.headers.pass(self.count, place, Some(&block))?;
        if block.head.kind == HEADER && block.head.index == 0 {
            self.headers.begin(self.count, block);
        }
        Ok(())
    }

    // Takes a block that ends an object.
    fn end_object(&mut self, span: Span, place: Place, block: ReadBlock) -> Result<(), NoMemory>
        ensures { (l : List Placed) (p : Placed) (b : Block) → IsItem b → p.item ≡ Some b → place ≡ place_told p → block ≡ told_of b
            → span_of block.head self.old.count ≡ Some span → HasScanned l (l ++ p ∷ []) l self.old
            → OnOk result (HasScanned l (l ++ p ∷ []) (l ++ p ∷ []) self.new) }
    {
        let first = place_at(&self.runs, span.start);
        let bad = bad_by(&self.headers, span, first, place, &block);
        self.headers.pass(self.count, place, Some(&block))?;
        self.outside = left_before(self.outside, span.start);
        let object = Object {
            place: first,
            head: block.head,
            blocks: span.blocks,
            bad,
            archive: archive_in(block.held),
        };
        self.objects.insert(span.start, object)
    }
}

/// A block, where it is one that counts.
fn readable(item: Option<ReadBlock>) -> Option<ReadBlock>
    ensures { result ≡ readable_in item }
{
    match item {
        Some(block) => keep_readable(block),
        None => None,
    }
}

/// A block that was there, where it is one that counts.
fn keep_readable(block: ReadBlock) -> Option<ReadBlock>
    ensures { result ≡ readable_in (Some block) }
{
    if is_readable(&block.head) {
        Some(block)
    } else {
        None
    }
}

/// The span of the object that a block of this index in the stream ends: a mark alone, or back from a trailer; none where it
/// ends none, or the stream does not go back so far.
fn span_of(head: &BlockHead, index: u64) -> Option<Span>
    ensures { result ≡ span_of head.now index }
{
    if head.kind == MARK {
        return Some(Span {
            start: index,
            blocks: 1,
        });
    }
    let behind = u64::from(head.index);
    if head.kind != TRAILER || behind > index {
        return None;
    }
    Some(Span {
        start: index - behind,
        blocks: behind + 1,
    })
}

/// The first bad block of the object that a block ends; of a mark there is none.
fn bad_by(
    headers: &Headers,
    span: Span,
    first: Place,
    last: Place,
    block: &ReadBlock,
) -> Option<Place>
    ensures { IsNonDecreasingBy start_of headers.now.stopped.items → result ≡ bad_by headers.now span first last block.now }
{
    if block.head.kind == MARK {
        return None;
    }
    headers.bad_of(span.start, first, last, block)
}

/// What stays outside where an object begins at this index, and covers all from there on.
fn left_before(outside: Option<u64>, start: u64) -> Option<u64>
    ensures { result ≡ left_before start outside }
{
    match outside {
        Some(index) if index < start => Some(index),
        _ => None,
    }
}

/// What is outside with bytes of this index that are no block, and behind all before them.
fn outside_with(outside: Option<u64>, index: u64) -> Option<u64>
    ensures { result ≡ outside_with index outside }
{
    match outside {
        Some(first) => Some(first),
        None => Some(index),
    }
}
