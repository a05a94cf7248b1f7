//! The scan of a stream of blocks.

ghost use Rattle.std.specs.Prelude.{◌≡◌, ◌++◌, ◌∷◌, [], List, OnOk, Option, map, option_map};
ghost use Rattle.ol_values.specs.Blocks.{Block};
ghost use Rattle.ol_rules.specs.Shelf.{Placed, objects_of};
ghost use Rattle.ol_object_spans.specs.Objects.{object_told, place_told};
ghost use Rattle.ol_object_spans.specs.Scans.{AreRising, IsItemIn, IsScanOf, first_outside, placed};
ghost use Rattle.ol_object_spans.specs.Told.{told_of};

use crate::NoMemory;
use crate::block::ReadBlock;
use crate::object::Object;
use crate::place::Place;
use crate::state::ScanState;
use std::alloc::Global;
use std::marker::Model;

/// A scan of one drive's blocks, from the first on. Its memory goes by volumes, headers and objects, not by blocks.
#[derive(Drop)]
pub struct StreamScan {
    state: ScanState,
}

impl Model for StreamScan {
    ghost use Rattle.ol_object_spans.specs.Values.{ScanValue, scan_value};

    ghost Value = { ScanValue };

    ghost view = { λ s. scan_value s.state };
}

impl StreamScan {
    /// A scan before the first block.
    pub fn new(alloc: Global) -> StreamScan
        ensures { IsScanOf [] result }
    {
        StreamScan {
            state: ScanState::new(alloc),
        }
    }

    /// Takes the next block of the stream, at its place; no item where its bytes are no block. One whose incarnation or
    /// number is above 2^60 counts as none.
    ///
    /// `NoMemory` comes only where memory was refused, or behind 2^64 - 1 blocks. The scan is then of no further use.
    pub fn feed(&mut self, place: Place, item: Option<ReadBlock>) -> Result<(), NoMemory>
        ensures { (l : List Placed) (b : Option Block) → IsItemIn b → item ≡ option_map told_of b → IsScanOf l self.old
            → OnOk result (IsScanOf (l ++ placed place b ∷ []) self.new) }
    {
        self.state.feed(place, item)
    }

    /// The complete objects and marks of the stream in order of their first blocks, then of their last; and the place of the
    /// first block that is none and that no object covers.
    pub fn finish(self) -> (Vec<Object>, Option<Place>)
        ensures objects { (l : List Placed) → IsScanOf l self → result.0.items ≡ map object_told (objects_of l) }
        ensures outside { (l : List Placed) → IsScanOf l self → AreRising l → result.1 ≡ option_map place_told (first_outside l) }
    {
        self.state.finish()
    }
}
