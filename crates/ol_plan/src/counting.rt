//! Which archives count, and how far logs do.

ghost use Rattle.std.specs.Prelude.{◌≡◌};
ghost use Rattle.ol_plan.specs.Counting.{archive_counts, is_mark_above, least_end, reach_of};

use ol_object_spans::Object;

/// The kind of an archive as an object.
pub(crate) const ARCHIVE_OBJECT: u8 = 1;

/// The kind of a log as an object.
pub(crate) const LOG_OBJECT: u8 = 2;

/// The kind of a mark as an object.
const MARK_OBJECT: u8 = 3;

/// Whether an object is a mark of a higher incarnation.
fn is_mark_above(object: &Object, incarnation: u64) -> bool
    ensures { result ≡ is_mark_above incarnation object.now }
{
    object.head.object == MARK_OBJECT && incarnation < object.head.incarnation
}

/// The least of a position and the ends that marks of a higher incarnation name.
fn least_end(objects: &[Object], incarnation: u64, from: u64) -> u64
    ensures { result ≡ least_end objects.now incarnation from }
{
    objects
        .iter()
        .filter(|object| is_mark_above(object, incarnation))
        .map(|mark| mark.head.a)
        .fold(from, |least, end| least.min(end))
}

/// Whether no mark of a higher incarnation names an end below an archive's cut.
pub(crate) fn archive_counts(objects: &[Object], archive: &Object) -> bool
    ensures { result ≡ archive_counts objects.now archive.now }
{
    let head = &archive.head;
    head.a <= least_end(objects, head.incarnation, head.a)
}

/// The last position that a log object counts for.
pub(crate) fn reach_of(objects: &[Object], log: &Object) -> u64
    ensures { result ≡ reach_of objects.now log.now }
{
    least_end(objects, log.head.incarnation, log.head.b)
}
