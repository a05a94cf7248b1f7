//! The sessions that own a slot of a page.

ghost use Rattle.std.specs.Prelude.{◌≡◌};
ghost use Rattle.ol_read_turns.specs.PageSlots.{lesser, page_owner};
ghost use Rattle.ol_txn.specs.Seats.{table_of};

use crate::page::SLOTS;
use ol_txn::Locks;
use ol_values::Rid;

/// The least session beside this one that owns a slot of a page.
pub fn page_owner(locks: &Locks, session: u8, space: u8, page: u16) -> Option<u8>
    ensures { result ≡ page_owner (table_of locks.now) session space page 31 }
{
    let mut least = None;
    for slot in 0..SLOTS {
        least = lesser(
            least,
            locks.holder(session, Rid { space, page, slot }, false),
        );
    }
    least
}

// The lesser of two sessions, where there are both.
fn lesser(one: Option<u8>, other: Option<u8>) -> Option<u8>
    ensures { result ≡ lesser one other }
{
    match (one, other) {
        (Some(one), Some(other)) => Some(one.min(other)),
        (None, other) => other,
        (one, None) => one,
    }
}
