//! The complete objects of a stream, in order of place.

ghost use Rattle.std.specs.Prelude.{◌≡◌, ◌<◌, ◌≤◌, ◌++◌, ◌∷◌, [], List, OnOk, length, ℕ};
ghost use Rattle.std.specs.List.{All};
ghost use Rattle.ol_object_spans.specs.declared.object.Object.{Object as ObjectValue};
ghost use Rattle.ol_object_spans.specs.Objects.{archive_in};

use crate::NoMemory;
use crate::block::{BlockHead, Held};
use crate::place::Place;
use ol_chunks::ChunkTable;
use ol_object::ArchiveHead;
use std::alloc::Global;

/// A complete object, or a mark.
#[derive(Drop)]
pub struct Object {
    /// The place of its first block.
    pub place: Place,
    /// The fields of its last block, the trailer or the mark.
    pub head: BlockHead,
    /// How many blocks it has.
    pub blocks: u64,
    /// The first of these that does not belong there; of a mark there is none.
    pub bad: Option<Place>,
    /// The archive head of its last block, and the configuration of that; none where it holds none.
    pub archive: Option<(ArchiveHead, ChunkTable)>,
}

/// The archive head that a payload holds.
pub(crate) fn archive_in(held: Held) -> Option<(ArchiveHead, ChunkTable)>
    ensures { result ≡ archive_in held }
{
    match held {
        Held::Archive(head, table) => Some((head, table)),
        _ => None,
    }
}

/// Objects in order of the indexes in the stream of their first blocks, and those indexes.
#[derive(Drop)]
pub(crate) struct Objects {
    pub starts: Vec<u64>,
    pub list: Vec<Object>,
}

impl Objects {
    /// No objects.
    pub(crate) fn new(alloc: Global) -> Objects
        ensures starts { result.starts.items ≡ [] }
        ensures list { result.list.items ≡ [] }
    {
        Objects {
            starts: Vec::new(alloc),
            list: Vec::new(alloc),
        }
    }

    /// The objects in order.
    pub(crate) fn into_list(self) -> Vec<Object>
        ensures { result ≡ self.list }
    {
        self.list
    }

    /// Adds an object behind those that begin with it or before it.
    pub(crate) fn insert(&mut self, start: u64, object: Object) -> Result<(), NoMemory>
        ensures starts { (front back : List ℕ) → self.old.starts.items ≡ front ++ back → All (λ s. s ≤ start) front → All (λ s. start < s) back
            → length self.old.list.items ≡ length self.old.starts.items → OnOk result (self.new.starts.items ≡ front ++ start ∷ back) }
        ensures list { (front back : List ℕ) → self.old.starts.items ≡ front ++ back → All (λ s. s ≤ start) front → All (λ s. start < s) back
            → (one two : List ObjectValue) → self.old.list.items ≡ one ++ two → length one ≡ length front → OnOk result (self.new.list.items ≡ one ++ object ∷ two) }
    {
        let at = place_for(&self.starts, start).min(self.list.len());
        self.list.insert(at, object)?;
        self.starts.insert(at, start)?;
        Ok(())
    }
}

/// The place behind the indexes that are at most this one, in a list in which they ascend.
fn place_for(starts: &[u64], start: u64) -> usize
    ensures bound { result ≤ length starts.now }
    ensures place { (front back : List ℕ) → starts.now ≡ front ++ back → All (λ s. s ≤ start) front → All (λ s. start < s) back → result ≡ length front }
{
    starts.partition_point(|own| *own <= start)
}
