//! The slots of a page are shared.

ghost use Rattle.std.specs.Prelude.{◌≡◌, ◌<◌, IfErr, IfOk, None, OnErr, OnOk, false, length};
ghost use Rattle.ol_values.specs.declared.event.Reply.TheVariants.{Slots as SlotsReply};
ghost use Rattle.ol_rules.specs.Locks.{holder_of};
ghost use Rattle.ol_txn.specs.Seats.{HasTxn, IsSession, reserved_seat, seat_of, table_of, with_seat};
ghost use Rattle.ol_read_turns.specs.PageSlots.{full_among, is_set, page_owner, shared_if};
ghost use Rattle.ol_read_turns.specs.Sharing.{shared_all};

use crate::page::SLOTS;
use ol_storage::StorageFault;
use ol_txn::Locks;
use ol_values::{Reply, Rid};

/// Shares the slots of a page whose bits are set, for a session that no owner of a slot of the page is in the way of, and answers with
/// the bits. `NoMemory` comes only where the session has not places for 31 locks more, and changes nothing.
pub fn share_slots(
    locks: &mut Locks,
    session: u8,
    space: u8,
    page: u16,
    bits: u32,
) -> Result<Reply, StorageFault>
    requires session { IsSession session }
    requires open { HasTxn locks.old session }
    requires alone { page_owner (table_of locks.old) session space page 31 ≡ None }
    ensures answer { IfOk result (λ reply. reply ≡ SlotsReply bits) }
    ensures ok { OnOk result (locks.new ≡ with_seat locks.old session (shared_all (full_among (is_set bits) space page 31) (reserved_seat 31 (seat_of locks.old session)))) }
    ensures sessions { length locks.old ≡ 16 }
    ensures unchanged { OnErr result (locks.new ≡ locks.old) }
    ensures memory { OnErr result ((seat_of locks.old session).spare < 31) }
    ensures only { IfErr result (λ fault. fault ≡ StorageFault.NoMemory) }
{
    // It tells that the sessions are 16.
    let _sessions = locks.is_open(session);
    match locks.reserve(session, SLOTS as u32) {
        Ok(()) => {
            share_all(locks, session, space, page, bits);
            Ok(Reply::Slots { bits })
        }
        Err(_) => Err(StorageFault::NoMemory),
    }
}

// Shares the slots whose bits are set, for a session that has places for all.
fn share_all(locks: &mut Locks, session: u8, space: u8, page: u16, bits: u32)
    requires session { IsSession session }
    requires open { HasTxn locks.old session }
    requires alone { page_owner (table_of locks.old) session space page 31 ≡ None }
    requires places { 30 < (seat_of locks.old session).spare }
    ensures shared { locks.new ≡ with_seat locks.old session (shared_all (full_among (is_set bits) space page 31) (seat_of locks.old session)) }
{
    for slot in 0..SLOTS {
        let full = bits >> slot & 1 == 1;
        share_if(locks, session, Rid { space, page, slot }, full);
    }
}

// Shares a slot where it is full, for a session that has a place for it and that no owner is in the way of.
fn share_if(locks: &mut Locks, session: u8, rid: Rid, full: bool)
    requires session { IsSession session }
    requires open { HasTxn locks.old session }
    requires alone { holder_of (table_of locks.old) session rid false ≡ None }
    requires place { 0 < (seat_of locks.old session).spare }
    ensures shared { locks.new ≡ with_seat locks.old session (shared_if full rid (seat_of locks.old session)) }
    ensures sessions { length locks.old ≡ 16 }
{
    // It tells that the sessions are 16.
    let _sessions = locks.is_open(session);
    if full {
        // This succeeds, since there is a place and no owner.
        let _shared = locks.try_share(session, rid);
    }
}
