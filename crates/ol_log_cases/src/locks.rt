//! The table of row locks, walked through the conflicts of three sessions.

ghost use Rattle.std.specs.Bool.{OnTrue};
ghost use Rattle.ol_txn.specs.Seats.{IsSession};

use ol_txn::{LockFault, Locks};
use ol_values::{Rid, Row};
use std::test::Fail;

const FIRST: Rid = Rid {
    space: 1,
    page: 0,
    slot: 0,
};

const SECOND: Rid = Rid {
    space: 1,
    page: 0,
    slot: 1,
};

/// As `FIRST`, in another space.
const OTHER_SPACE: Rid = Rid {
    space: 2,
    page: 0,
    slot: 0,
};

/// As `FIRST`, on another page.
const OTHER_PAGE: Rid = Rid {
    space: 1,
    page: 1,
    slot: 0,
};

/// What a session does, or is told.
#[derive(Clone, Copy)]
enum Act {
    /// It begins a transaction.
    Begin(u64),
    /// It shares a slot, or is told who owns it.
    Share(Rid, Option<u8>),
    /// It owns a slot, or is told who shares or owns it.
    Own(Rid, Option<u8>),
    /// It has changed a slot, which held this.
    Note(Rid, Option<&'static [u8]>),
    /// It takes its newest change back.
    Undo,
    /// Its transaction ends.
    Forget,
    /// Room for so many locks and changes is reserved for it.
    Reserve(u32),
    /// It has room for so many.
    Spare(u32),
    /// The holder of a slot that it would share, or own.
    Holder(Rid, bool, Option<u8>),
    /// Its newest change: the slot, and what that held.
    Last(Option<(Rid, Option<&'static [u8]>)>),
    /// How many changes it has, and whether it took one back.
    Pending(usize, bool),
}

/// A step of a case.
#[derive(Clone, Copy)]
enum Step {
    /// Sessions 5, 2 and 16 begin transactions 11, 10 and 12.
    Three,
    /// A session does this.
    Of(u8, Act),
    /// Whether a slot is locked.
    Locked(Rid, bool),
    /// How many records are owed, and the least transaction.
    Owed(u64, Option<u64>),
}

/// Whether this is a session.
fn is_session(session: u8) -> bool
    ensures { OnTrue result (IsSession session) }
{
    1 <= session && session <= 16
}

/// Whether a transaction of the session begins.
fn begins(locks: &mut Locks, session: u8, txn: u64) -> bool
    requires { IsSession session }
{
    if locks.is_open(session) || locks.owed() > 1000 {
        return false;
    }
    locks.begin(session, txn).is_ok()
}

/// Whether a lock was given, or another session that holds it was told.
fn is_answer(answer: Result<(), LockFault>, holder: Option<u8>) -> bool {
    match answer {
        Ok(()) => holder.is_none(),
        Err(LockFault::Held { holder: found }) => holder == Some(found),
        Err(LockFault::NoMemory) => false,
    }
}

/// Whether the session, which has a transaction, gets this answer as it shares a slot.
fn shares(locks: &mut Locks, session: u8, rid: Rid, holder: Option<u8>) -> bool
    requires { IsSession session }
{
    locks.is_open(session) && is_answer(locks.try_share(session, rid), holder)
}

/// Whether the session, which has a transaction, gets this answer as it owns a slot.
fn owns(locks: &mut Locks, session: u8, rid: Rid, holder: Option<u8>) -> bool
    requires { IsSession session }
{
    locks.is_open(session) && is_answer(locks.try_own(session, rid), holder)
}

/// Whether a change of the session, which has a transaction, is noted.
fn notes(locks: &mut Locks, session: u8, rid: Rid, before: Option<&[u8]>) -> bool
    requires { IsSession session }
{
    let before = match before {
        Some(bytes) => Row::new(bytes),
        None => None,
    };
    if !locks.is_open(session) || locks.owed() > 1000 {
        return false;
    }
    locks.note(session, rid, before).is_ok()
}

/// Whether the session has a change, which is then taken back.
fn takes_back(locks: &mut Locks, session: u8) -> bool
    requires { IsSession session }
{
    if locks.pending(session) == 0 {
        return false;
    }
    locks.undone(session);
    true
}

/// Ends the session's transaction.
fn forgets(locks: &mut Locks, session: u8) -> bool
    requires { IsSession session }
{
    locks.forget(session);
    true
}

/// Whether this is what a slot held.
fn is_row(row: &Option<Row>, bytes: Option<&[u8]>) -> bool {
    match (row, bytes) {
        (Some(row), Some(bytes)) => row.as_slice() == bytes,
        (None, None) => true,
        _ => false,
    }
}

/// Whether this is the session's newest change.
fn is_last(locks: &Locks, session: u8, wanted: Option<(Rid, Option<&'static [u8]>)>) -> bool
    requires { IsSession session }
{
    match (locks.last(session), wanted) {
        (Some((rid, row)), Some((other, bytes))) => rid == other && is_row(&row, bytes),
        (None, None) => true,
        _ => false,
    }
}

/// Whether a session can do this, or is told so.
fn acts(locks: &mut Locks, session: u8, act: Act) -> bool
    requires { IsSession session }
{
    match act {
        Act::Begin(txn) => begins(locks, session, txn),
        Act::Share(rid, holder) => shares(locks, session, rid, holder),
        Act::Own(rid, holder) => owns(locks, session, rid, holder),
        Act::Note(rid, before) => notes(locks, session, rid, before),
        Act::Undo => takes_back(locks, session),
        Act::Forget => forgets(locks, session),
        Act::Reserve(count) => locks.reserve(session, count).is_ok(),
        Act::Spare(count) => locks.spare(session) == count,
        Act::Holder(rid, own, holder) => locks.holder(session, rid, own) == holder,
        Act::Last(wanted) => is_last(locks, session, wanted),
        Act::Pending(count, has_undone) => {
            locks.pending(session) == count && locks.has_undone(session) == has_undone
        }
    }
}

/// Whether a step goes as it should.
fn goes(locks: &mut Locks, step: Step) -> bool {
    match step {
        Step::Three => begins(locks, 5, 11) && begins(locks, 2, 10) && begins(locks, 16, 12),
        Step::Of(session, act) => is_session(session) && acts(locks, session, act),
        Step::Locked(rid, is_locked) => locks.locked(rid) == is_locked,
        Step::Owed(count, low) => locks.owed() == count && locks.low() == low,
    }
}

/// The first step, from 0, that does not go as it should.
fn first_wrong(locks: &mut Locks, steps: &[Step]) -> Option<usize> {
    for (index, step) in steps.iter().enumerate() {
        if !goes(locks, *step) {
            return Some(index);
        }
    }
    None
}

const OWNER_IS_IN_THE_WAY_OF_ALL: &[Step] = &[
    Step::Three,
    Step::Of(5, Act::Own(FIRST, None)),
    Step::Of(5, Act::Own(FIRST, None)),
    Step::Of(5, Act::Share(FIRST, None)),
    Step::Of(2, Act::Share(FIRST, Some(5))),
    Step::Of(16, Act::Own(FIRST, Some(5))),
    Step::Of(2, Act::Own(SECOND, None)),
    Step::Of(16, Act::Share(SECOND, Some(2))),
];

const SHARERS_ARE_IN_THE_WAY_OF_AN_OWNER: &[Step] = &[
    Step::Three,
    Step::Of(16, Act::Share(FIRST, None)),
    Step::Of(5, Act::Share(FIRST, None)),
    // the least of two in the way, whichever came first
    Step::Of(2, Act::Own(FIRST, Some(5))),
    Step::Of(5, Act::Own(FIRST, Some(16))),
    Step::Of(16, Act::Forget),
    Step::Of(2, Act::Own(FIRST, Some(5))),
    Step::Of(5, Act::Own(FIRST, None)),
    Step::Of(2, Act::Share(FIRST, Some(5))),
];

const HOLDER_IS_TOLD_BEFORE: &[Step] = &[
    Step::Three,
    Step::Of(16, Act::Share(FIRST, None)),
    Step::Of(5, Act::Own(SECOND, None)),
    Step::Of(2, Act::Holder(FIRST, false, None)),
    Step::Of(2, Act::Holder(FIRST, true, Some(16))),
    Step::Of(16, Act::Holder(FIRST, true, None)),
    Step::Of(2, Act::Holder(SECOND, false, Some(5))),
    Step::Of(2, Act::Holder(SECOND, true, Some(5))),
    Step::Of(5, Act::Holder(SECOND, true, None)),
    Step::Locked(FIRST, true),
    Step::Locked(SECOND, true),
    Step::Locked(OTHER_SPACE, false),
    Step::Locked(OTHER_PAGE, false),
];

const LOCKS_END_WITH_THEIR_TRANSACTION: &[Step] = &[
    Step::Three,
    Step::Of(5, Act::Own(FIRST, None)),
    Step::Of(5, Act::Share(SECOND, None)),
    Step::Of(5, Act::Forget),
    Step::Locked(FIRST, false),
    Step::Locked(SECOND, false),
    Step::Of(2, Act::Own(FIRST, None)),
    Step::Of(2, Act::Own(SECOND, None)),
    Step::Of(5, Act::Begin(13)),
    Step::Of(5, Act::Share(FIRST, Some(2))),
];

const NEWEST_IS_TAKEN_BACK_FIRST: &[Step] = &[
    Step::Of(5, Act::Begin(11)),
    Step::Of(5, Act::Last(None)),
    Step::Of(5, Act::Note(FIRST, None)),
    Step::Of(5, Act::Note(SECOND, Some(b"old"))),
    Step::Of(5, Act::Last(Some((SECOND, Some(b"old"))))),
    Step::Of(5, Act::Pending(2, false)),
    Step::Of(5, Act::Undo),
    Step::Of(5, Act::Last(Some((FIRST, None)))),
    Step::Of(5, Act::Pending(1, true)),
    Step::Of(5, Act::Undo),
    Step::Of(5, Act::Last(None)),
];

const END_AND_CHANGES_ARE_OWED: &[Step] = &[
    Step::Owed(0, None),
    Step::Three,
    Step::Owed(3, Some(10)),
    Step::Of(5, Act::Note(FIRST, None)),
    Step::Of(16, Act::Note(SECOND, None)),
    Step::Owed(5, Some(10)),
    Step::Of(16, Act::Undo),
    Step::Owed(4, Some(10)),
    Step::Of(2, Act::Forget),
    Step::Owed(3, Some(11)),
    Step::Of(5, Act::Forget),
    Step::Owed(1, Some(12)),
];

const RESERVED_ROOM_IS_USED_UP: &[Step] = &[
    Step::Of(5, Act::Begin(11)),
    Step::Of(5, Act::Reserve(3)),
    Step::Of(5, Act::Spare(3)),
    Step::Of(2, Act::Spare(0)),
    Step::Of(5, Act::Own(FIRST, None)),
    Step::Of(5, Act::Own(FIRST, None)),
    Step::Of(5, Act::Spare(2)),
    Step::Of(5, Act::Note(FIRST, None)),
    Step::Of(5, Act::Spare(1)),
    Step::Of(5, Act::Share(SECOND, None)),
    Step::Of(5, Act::Spare(0)),
    Step::Of(5, Act::Reserve(0)),
    Step::Of(5, Act::Spare(0)),
];

const CASES: &[(&str, &[Step])] = &[
    ("the owner is in the way of all", OWNER_IS_IN_THE_WAY_OF_ALL),
    (
        "sharers are in the way of an owner",
        SHARERS_ARE_IN_THE_WAY_OF_AN_OWNER,
    ),
    ("the holder is told before", HOLDER_IS_TOLD_BEFORE),
    (
        "locks end with their transaction",
        LOCKS_END_WITH_THEIR_TRANSACTION,
    ),
    ("the newest is taken back first", NEWEST_IS_TAKEN_BACK_FIRST),
    ("the end and the changes are owed", END_AND_CHANGES_ARE_OWED),
    ("reserved room is used up", RESERVED_ROOM_IS_USED_UP),
];

#[test]
fn steps_of_each_case_go_as_they_should(rt: HostRuntime) -> Result<(), Fail> {
    for (name, steps) in CASES {
        let mut locks = Locks::new(rt.alloc());
        assert_eq!(rt; first_wrong(&mut locks, steps), None, "{name}");
    }
    Ok(())
}
