//! The archives that count and hold a space.

ghost use Rattle.std.specs.Prelude.{◌≡◌, ◌==◌, IfOk, find, option_map, ℕ};
ghost use Rattle.ol_values.specs.Blocks.{Saved};
ghost use Rattle.ol_plan.specs.Archives.{link_of, links, saved_by};

use crate::NoMemory;
use crate::counting::{ARCHIVE_OBJECT, archive_counts};
use ol_object_spans::{Object, Place};
use std::alloc::Global;

/// An archive that counts, as one that holds a space.
#[derive(Clone, Copy)]
pub(crate) struct Link {
    /// Its index among the objects.
    pub index: usize,
    /// The stamp up to which it holds pages.
    pub cut: u64,
    /// The first position that a restore from it needs.
    pub low: u64,
    /// Its level.
    pub level: u64,
    /// Its number.
    pub number: u64,
    /// The number of the archive that it goes on from in the space.
    pub parent: u64,
    /// The cut of that one.
    pub base: u64,
    /// Its first bad block.
    pub bad: Option<Place>,
}

/// The archives that count and hold a space, in order of place.
pub(crate) fn links(alloc: Global, objects: &[Object], space: u8) -> Result<Vec<Link>, NoMemory>
    ensures { IfOk result (λ v. v.items ≡ links objects.now space) }
{
    let mut links = Vec::new(alloc);
    for (index, object) in objects.iter().enumerate() {
        let Some(link) = link_of(objects, space, index, object) else {
            continue;
        };
        links.push(link)?;
    }
    Ok(links)
}

/// The object of this index as an archive that counts and holds a space, if it is one.
fn link_of(objects: &[Object], space: u8, index: usize, object: &Object) -> Option<Link>
    ensures { result ≡ link_of objects.now space (index, object.now) }
{
    let saved = saved_by(object, space);
    if object.head.object != ARCHIVE_OBJECT || !archive_counts(objects, object) {
        return None;
    }
    let Some((parent, base)) = saved else {
        return None;
    };
    Some(Link {
        index,
        cut: object.head.a,
        low: object.head.b,
        level: object.head.c,
        number: object.head.number,
        parent,
        base,
        bad: object.bad,
    })
}

/// The parent's number and the base of a space of an object; none where it does not hold the space.
fn saved_by(object: &Object, space: u8) -> Option<(u64, u64)>
    ensures { result ≡ option_map (λ (s : Saved). (s.parent, s.base)) (saved_by space object.now) }
{
    let Some((head, _)) = &object.archive else {
        return None;
    };
    saved_in(head.spaces(), space)
}

/// The parent's number and the base of a space among those of an archive.
fn saved_in(spaces: &[(u8, u64, u64)], space: u8) -> Option<(u64, u64)>
    ensures { result ≡ option_map (λ (s : ℕ × ℕ × ℕ). (s.1, s.2)) (find (λ (s : ℕ × ℕ × ℕ). s.0 == space) spaces.now) }
{
    for saved in spaces {
        if saved.0 == space {
            return Some((saved.1, saved.2));
        }
    }
    None
}
