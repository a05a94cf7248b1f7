//! That what the sessions hold and the journal's open transactions tell the same, and stay so.

ghost use Rattle.std.specs.Option.{unwrap_or};
ghost use Rattle.std.specs.Prelude.{◌≡◌, ◌+◌, ◌||◌, Bool, List, None, Option, Some, false, is_some, length, true, ℕ, []};
ghost use Rattle.ol_values.specs.declared.record.Record.{Record as RecordValue};
ghost use Rattle.ol_values.specs.declared.record.Record.TheVariants.{Begin, Change, Commit, Rolled, Undo};
ghost use Rattle.ol_values.specs.declared.record.Rid.{Rid};
ghost use Rattle.ol_values.specs.declared.row.Row.{Row as RowValue};
ghost use Rattle.ol_values.specs.Config.{Config, has_place};
ghost use Rattle.ol_rules.specs.Locks.{Holding, holder_of, low_in, owed_in};
ghost use Rattle.ol_rules.specs.Sound.{Before, IsOne, Meets, Sound, is_free_for, is_value};
ghost use Rattle.ol_rules.specs.Transactions.{Ascending, Txn, low_of, open_at, owed, txn_numbered, txns_after};
ghost use Rattle.ol_txn.specs.Seats.{IsSession, Seat as SeatValue, begun_seat, forgotten_seat, last_of, no_locks, noted_seat, owned_more, reserved_seat, seat_of, shared_more, table_of, undone_seat, with_seat};
ghost use Rattle.ol_txn.specs.Telling.{IsOf, MayChange, Tells, first_number};

/// Where the sessions hold the open transactions, they do after each record and the turn of its session.
/// Before the first record they do, and sharing a slot or reserving room tells the journal nothing.
pub fn table_tells_transactions()
    ensures none { Tells [] (table_of no_locks) }
    ensures begin { (txns : List Txn) (seats : List SeatValue) (k n : ℕ) → length seats ≡ 16 → IsSession k → (seat_of seats k).holding ≡ None → Tells txns (table_of seats) → Tells (txns_after txns (Begin n)) (table_of (with_seat seats k (begun_seat n (seat_of seats k)))) }
    ensures change { (txns : List Txn) (seats : List SeatValue) (k n : ℕ) (h : Holding) (rid : Rid) (before after : Option RowValue) → Ascending txns → (seat_of seats k).holding ≡ Some h → h.number ≡ n → Tells txns (table_of seats) → Tells (txns_after txns (Change n rid before after)) (table_of (with_seat seats k (noted_seat (rid, before) (owned_more rid (seat_of seats k))))) }
    ensures undo { (txns : List Txn) (seats : List SeatValue) (k n : ℕ) (h : Holding) (rid : Rid) (value : Option RowValue) → Ascending txns → (seat_of seats k).holding ≡ Some h → h.number ≡ n → Tells txns (table_of seats) → Tells (txns_after txns (Undo n rid value)) (table_of (with_seat seats k (undone_seat (seat_of seats k)))) }
    ensures commit { (txns : List Txn) (seats : List SeatValue) (k n : ℕ) (h : Holding) → Ascending txns → (seat_of seats k).holding ≡ Some h → h.number ≡ n → Tells txns (table_of seats) → Tells (txns_after txns (Commit n)) (table_of (with_seat seats k (forgotten_seat (seat_of seats k)))) }
    ensures rolled { (txns : List Txn) (seats : List SeatValue) (k n : ℕ) (h : Holding) → Ascending txns → (seat_of seats k).holding ≡ Some h → h.number ≡ n → Tells txns (table_of seats) → Tells (txns_after txns (Rolled n)) (table_of (with_seat seats k (forgotten_seat (seat_of seats k)))) }
    ensures share { (txns : List Txn) (seats : List SeatValue) (k : ℕ) (rid : Rid) → Tells txns (table_of seats) → Tells txns (table_of (with_seat seats k (shared_more rid (seat_of seats k)))) }
    ensures reserve { (txns : List Txn) (seats : List SeatValue) (k n : ℕ) → Tells txns (table_of seats) → Tells txns (table_of (with_seat seats k (reserved_seat n (seat_of seats k)))) }
{}

/// Where the sessions hold the open transactions, they owe what these owe, and none is open where nothing
/// is owed; their least number is that of the first; what a session holds is the open transaction of its
/// number; and no other transaction changed a slot in which no other session is in this one's way. A sound
/// journal leaves its transactions in ascending order.
pub fn table_answers_for_transactions()
    ensures order { (c : Config) (journal : List RecordValue) → Sound c journal → Ascending (open_at journal) }
    ensures owed { (txns : List Txn) (table : List (Option Holding)) → Tells txns table → owed_in table ≡ owed txns }
    ensures closed { (txns : List Txn) (table : List (Option Holding)) → Tells txns table → owed_in table ≡ 0 → txns ≡ [] }
    ensures first { (txns : List Txn) (table : List (Option Holding)) → Ascending txns → Tells txns table → low_in table ≡ first_number txns }
    ensures low { (txns : List Txn) (table : List (Option Holding)) (last : ℕ) → Ascending txns → Tells txns table → unwrap_or (low_in table) (last + 1) ≡ low_of txns last }
    ensures holds { (txns : List Txn) (seats : List SeatValue) (k : ℕ) (h : Holding) → Ascending txns → (seat_of seats k).holding ≡ Some h → Tells txns (table_of seats) → IsOne (txn_numbered h.number txns) (IsOf h) }
    ensures free { (b : Before) (seats : List SeatValue) (k n : ℕ) (h : Holding) (rid : Rid) → length seats ≡ 16 → (seat_of seats k).holding ≡ Some h → h.number ≡ n → holder_of (table_of seats) k rid true ≡ None → Tells b.txns (table_of seats) → is_free_for b n rid ≡ true }
{}

/// Where the sessions hold the open transactions, a record meets the rules of its kind if its session may
/// take that turn: begin while it has no transaction, change a slot in which no other session is in its
/// way, undo its newest change, commit with no change taken back, and end a roll back with none left.
pub fn table_permits_records()
    ensures begin { (c : Config) (b : Before) (seats : List SeatValue) (k n : ℕ) → length seats ≡ 16 → IsSession k → (seat_of seats k).holding ≡ None → n ≡ b.last + 1 → Tells b.txns (table_of seats) → Meets c b (Begin n) }
    ensures change { (c : Config) (b : Before) (seats : List SeatValue) (k n : ℕ) (h : Holding) (rid : Rid) (before after : Option RowValue) → length seats ≡ 16 → Ascending b.txns → (seat_of seats k).holding ≡ Some h → h.number ≡ n → MayChange c b (table_of seats) k h rid before after → Tells b.txns (table_of seats) → Meets c b (Change n rid before after) }
    ensures undo { (c : Config) (b : Before) (seats : List SeatValue) (k n : ℕ) (h : Holding) (rid : Rid) (value : Option RowValue) → Ascending b.txns → (seat_of seats k).holding ≡ Some h → h.number ≡ n → last_of (seat_of seats k) ≡ Some (rid, value) → has_place c rid ≡ true → Tells b.txns (table_of seats) → Meets c b (Undo n rid value) }
    ensures commit { (c : Config) (b : Before) (seats : List SeatValue) (k n : ℕ) (h : Holding) → Ascending b.txns → (seat_of seats k).holding ≡ Some h → h.number ≡ n → h.undone ≡ false → Tells b.txns (table_of seats) → Meets c b (Commit n) }
    ensures rolled { (c : Config) (b : Before) (seats : List SeatValue) (k n : ℕ) (h : Holding) → Ascending b.txns → (seat_of seats k).holding ≡ Some h → h.number ≡ n → h.pending ≡ [] → Tells b.txns (table_of seats) → Meets c b (Rolled n) }
{}

/// Two steps of one session's seat, one after the other: the second begins with what the first left, and
/// the second alone is left.
pub fn steps_of_session_join()
    ensures read { (seats : List SeatValue) (k : ℕ) (s : SeatValue) → length seats ≡ 16 → IsSession k → seat_of (with_seat seats k s) k ≡ s }
    ensures again { (seats : List SeatValue) (k : ℕ) (first second : SeatValue) → with_seat (with_seat seats k first) k second ≡ with_seat seats k second }
{}
