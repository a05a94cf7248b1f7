//! The objects of a shelf.

ghost use Rattle.std.specs.Prelude.{◌≡◌, map};
ghost use Rattle.ol_object_spans.specs.Objects.{object_told};
ghost use Rattle.ol_plan.specs.Counting.{end_of, end_with};
ghost use Rattle.ol_rules.specs.Shelf.{Shelf, objects, end_of as end_of_shelf};

use crate::counting::{LOG_OBJECT, reach_of};
use ol_object_spans::Object;
use std::marker::Model;

/// The complete objects and marks of a shelf, in order of place.
#[derive(Drop)]
pub struct Catalog {
    objects: Vec<Object>,
}

impl Model for Catalog {
    ghost use Rattle.std.specs.Prelude.{List};
    ghost use Rattle.ol_object_spans.specs.declared.object.Object.{Object as ObjectValue};

    ghost Value = { List ObjectValue };

    ghost view = { λ c. c.objects.items };
}

impl Catalog {
    /// The catalog of these objects, which stand in order of place.
    pub fn new(objects: Vec<Object>) -> Catalog
        ensures { result ≡ objects.items }
    {
        Catalog { objects }
    }

    /// The objects in order of place.
    pub fn as_slice(&self) -> &[Object]
        ensures { result.now ≡ self.now }
    {
        &self.objects
    }

    /// The greatest position that a log object counts for, or 0.
    pub fn end(&self) -> u64
        ensures told { result ≡ end_of self.now }
        ensures shelf { (shelf : Shelf) → self.now ≡ map object_told (objects shelf) → result ≡ end_of_shelf shelf }
    {
        end_of(self.as_slice())
    }
}

/// The greatest position that a log object counts for, or 0.
fn end_of(objects: &[Object]) -> u64
    ensures { result ≡ end_of objects.now }
{
    let mut end = 0;
    for object in objects {
        end = end_with(objects, end, object);
    }
    end
}

/// The greater of an end and the last position that an object counts for as a log, if there is one.
fn end_with(objects: &[Object], end: u64, object: &Object) -> u64
    ensures { result ≡ end_with objects.now end object.now }
{
    let reach = reach_of(objects, object);
    if object.head.object == LOG_OBJECT && object.head.a <= reach {
        end.max(reach)
    } else {
        end
    }
}
