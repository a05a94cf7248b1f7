//! What turns keep of what is owed, of the ring of log files, of running archives and of sessions: each law is the
//! contract of a function with an empty body.
#![tactic(auto)]

ghost use Rattle.std.specs.List.{list_any, range_with_len};
ghost use Rattle.std.specs.Prelude.{All, Bool, ◌≡◌, ◌≢◌, ◌≤◌, ◌<◌, ◌+◌, ◌-◌, ◌^◌, ◌++◌, ◌∷◌, ◌⊎◌, ◌||◌, ◌&&◌, List, None, Option, Some, drop, false, filter, find, if◌then◌else◌, is_none, length, map, nat_lt, not, true, ℕ, []};
ghost use Rattle.ol_values.specs.declared.event.Event.{Event};
ghost use Rattle.ol_values.specs.declared.event.Reply.TheVariants.{PageIs};
ghost use Rattle.ol_values.specs.declared.event.Why.{Why};
ghost use Rattle.ol_values.specs.declared.history.Actor.{Actor};
ghost use Rattle.ol_values.specs.declared.history.Actor.TheVariants.{Session};
ghost use Rattle.ol_values.specs.declared.history.Entry.{Entry};
ghost use Rattle.ol_values.specs.declared.record.Record.{Record};
ghost use Rattle.ol_values.specs.declared.record.Record.TheVariants.{Begin, Change, Commit, Rolled, Undo};
ghost use Rattle.ol_values.specs.declared.record.Rid.{Rid};
ghost use Rattle.ol_values.specs.declared.row.Row.{Row};
ghost use Rattle.ol_values.specs.Blocks.{Saved};
ghost use Rattle.ol_values.specs.Config.{Config, data_pages, log_pages};
ghost use Rattle.ol_values.specs.LogPages.{log_room, record_length};
ghost use Rattle.ol_values.specs.Pages.{blank, rid_of};
ghost use Rattle.ol_rules.specs.Drawn.{drawn};
ghost use Rattle.ol_rules.specs.Journal.{row_after, row_at, touches};
ghost use Rattle.ol_rules.specs.Locks.{Holding, holder_of, holding_of, is_locked as is_locked_in, least_other, owns as owns_in};
ghost use Rattle.ol_rules.specs.Ring.{Reuse, Ring, Use, flushed, free, free_after_switch, logged, room, switched_off, use_numbered, written};
ghost use Rattle.ol_rules.specs.Shelf.{Shelf};
ghost use Rattle.ol_rules.specs.Sound.{HasRoom, Sound, is_value};
ghost use Rattle.ol_rules.specs.Start.{IsStartOf, Start, before_behind, start_page};
ghost use Rattle.ol_rules.specs.Transactions.{Ascending, BeginsFrom, Txn, open_at, owed, txn_numbered, txns_after};
ghost use Rattle.ol_model.specs.ArchiveTurns.{cancel_at, end_at, start_at, take_at};
ghost use Rattle.ol_model.specs.History.{state_at};
ghost use Rattle.ol_model.specs.LogTurns.{can_switch, checkpoint_turn, clean_at, copy_at, done_at, pick_at, switch_turn, uncopied_at};
ghost use Rattle.ol_model.specs.Machine.{Archive, Machine, Picking, Seat, archive_of, archiver_of, config_of, first_free, formatted, holder, is_locked, journal_full, last_of, logs_full, low_in, owed_in, reuse_of, row_in, seat_of, slots_of, stamp_in, txns_in, with_archive, with_seat};
ghost use Rattle.ol_model.specs.Opening.{Found, opened};
ghost use Rattle.ol_model.specs.SessionTurns.{page_holder};
ghost use Rattle.ol_model.specs.Steps.{append, change_row};
ghost use Rattle.ol_model.specs.Turns.{Given, turn};
ghost use Rattle.ol_model.specs.Waiting.{images_held, left_of, waiting, waiting_of};
ghost use Rattle.ol_turn_laws.specs.Apart.{Apart};
ghost use Rattle.ol_turn_laws.specs.Spaces.{KnowsSpaces};
ghost use Rattle.ol_turn_laws.specs.Tables.{TellsSessions, table_in};
ghost use Rattle.ol_turn_laws.specs.Room.{HasShortRow, HasValues, HoldsShort, HoldsShortBlocks, HoldsShortRows, IsFoundWell, LeavesShort, Orderly, Regular, Roomy};

/// What ascending open transactions owe after a record: one more after a begin and after a change of one of them, one less
/// after an undo of one with something pending and after the end of a roll back of one with nothing pending, and after a
/// commit less by one and its pending changes. The same of a sound journal, by its last record.
pub fn records_change_what_is_owed()
    ensures begin { (txns : List Txn) (n : ℕ) → owed (txns_after txns (Begin n)) ≡ owed txns + 1 }
    ensures change { (txns : List Txn) (n : ℕ) (rid : Rid) (before after : Option Row) (t : Txn) → Ascending txns → txn_numbered n txns ≡ Some t → owed (txns_after txns (Change n rid before after)) ≡ owed txns + 1 }
    ensures undo { (txns : List Txn) (n : ℕ) (rid : Rid) (value : Option Row) (t : Txn) → Ascending txns → txn_numbered n txns ≡ Some t → 0 < length t.pending → owed (txns_after txns (Undo n rid value)) + 1 ≡ owed txns }
    ensures commit { (txns : List Txn) (n : ℕ) (t : Txn) → Ascending txns → txn_numbered n txns ≡ Some t → owed (txns_after txns (Commit n)) + (1 + length t.pending) ≡ owed txns }
    ensures rolled { (txns : List Txn) (n : ℕ) (t : Txn) → Ascending txns → txn_numbered n txns ≡ Some t → t.pending ≡ [] → owed (txns_after txns (Rolled n)) + 1 ≡ owed txns }
    ensures sound_begin { (c : Config) (journal : List Record) (n : ℕ) → Sound c (journal ++ Begin n ∷ []) → owed (open_at (journal ++ Begin n ∷ [])) ≡ owed (open_at journal) + 1 }
    ensures sound_change { (c : Config) (journal : List Record) (n : ℕ) (rid : Rid) (before after : Option Row) → Sound c (journal ++ Change n rid before after ∷ []) → owed (open_at (journal ++ Change n rid before after ∷ [])) ≡ owed (open_at journal) + 1 }
    ensures sound_undo { (c : Config) (journal : List Record) (n : ℕ) (rid : Rid) (value : Option Row) → Sound c (journal ++ Undo n rid value ∷ []) → owed (open_at (journal ++ Undo n rid value ∷ [])) + 1 ≡ owed (open_at journal) }
    ensures sound_commit { (c : Config) (journal : List Record) (n : ℕ) (t : Txn) → Sound c (journal ++ Commit n ∷ []) → txn_numbered n (open_at journal) ≡ Some t → owed (open_at (journal ++ Commit n ∷ [])) + (1 + length t.pending) ≡ owed (open_at journal) }
    ensures sound_rolled { (c : Config) (journal : List Record) (n : ℕ) → Sound c (journal ++ Rolled n ∷ []) → owed (open_at (journal ++ Rolled n ∷ [])) + 1 ≡ owed (open_at journal) }
{}

/// Where the log is not full, it has room for what is owed, for one record more and for what that owes; where it is, it has
/// not. Where the journal is not full, that many records keep within both of its limits.
pub fn room_where_not_full()
    ensures log { (m : Machine) → logs_full m ≡ false → owed_in m + 2 ≤ free (config_of m) (reuse_of m) m.log.ring }
    ensures full_log { (m : Machine) → logs_full m ≡ true → free (config_of m) (reuse_of m) m.log.ring < owed_in m + 2 }
    ensures journal { (m : Machine) → journal_full m ≡ false → (last_of m - m.fixed.opened + owed_in m + 2 ≤ 1048576) × (last_of m + 1 + owed_in m + 2 ≤ 2 ^ 62) }
    ensures full_journal { (m : Machine) → journal_full m ≡ true → (1048576 < last_of m - m.fixed.opened + owed_in m + 2) ⊎ (2 ^ 62 < last_of m + 1 + owed_in m + 2) }
{}

/// A record whose values are nothing or rows of at most 63 bytes fits on a log page.
pub fn records_fit_a_page()
    ensures begin { (n : ℕ) → record_length (Begin n) ≤ log_room }
    ensures change { (n : ℕ) (rid : Rid) (before after : Option Row) → is_value before ≡ true → is_value after ≡ true → record_length (Change n rid before after) ≤ log_room }
    ensures undo { (n : ℕ) (rid : Rid) (value : Option Row) → is_value value ≡ true → record_length (Undo n rid value) ≤ log_room }
    ensures commit { (n : ℕ) → record_length (Commit n) ≤ log_room }
    ensures rolled { (n : ℕ) → record_length (Rolled n) ≤ log_room }
{}

/// A page that is written takes at most one page of the ring's room. So a flush leaves free what was free, since a page was
/// held for the records that it writes, and a record that fits on a page takes at most one page of what is free. No more is
/// free than all log pages. What is free does not fall where more files are backed up, or the need of the last checkpoint rises. Where the current file may
/// be switched from, as much is free after a flush and the switch as was told before.
pub fn ring_keeps_what_is_free()
    ensures page { (c : Config) (m : Reuse) (r : Ring) (last : ℕ) → room c m r ≤ room c m (written c r last) + 1 }
    ensures flush { (c : Config) (m : Reuse) (r : Ring) (last : ℕ) → free c m r ≤ free c m (flushed c r last) }
    ensures log { (c : Config) (m : Reuse) (r : Ring) (last : ℕ) (rec : Record) → record_length rec ≤ log_room → free c m r ≤ free c m (logged c r last rec) + 1 }
    ensures whole { (c : Config) (m : Reuse) (r : Ring) → 1 ≤ c.log_files → free c m r ≤ log_pages c }
    ensures reuse { (c : Config) (m n : Reuse) (r : Ring) → m.backed ≤ n.backed → m.need ≤ n.need → free c m r ≤ free c n r }
    ensures switch { (m : Machine) (last : ℕ) → can_switch m (use_numbered m.log.ring m.log.ring.uniq) ≡ true → free_after_switch (config_of m) (reuse_of m) m.log.ring ≤ free (config_of m) (reuse_of m) (switched_off (flushed (config_of m) m.log.ring last)) }
{}

/// In a sound journal each place holds nothing or a row of at most 63 bytes, and so do the changes of open transactions
/// that are not taken back, and what its records leave in their places; the open transactions ascend.
pub fn sound_journals_hold_short_rows()
    ensures rows { (c : Config) (journal : List Record) (rid : Rid) → Sound c journal → is_value (row_at journal rid) ≡ true }
    ensures pending { (c : Config) (journal : List Record) → Sound c journal → All HasValues (open_at journal) }
    ensures ascending { (c : Config) (journal : List Record) → Sound c journal → Ascending (open_at journal) }
    ensures records { (c : Config) (journal : List Record) → Sound c journal → All LeavesShort journal }
{}

/// After a record is appended, and after a change of a row with its record, the machine has the open transactions, the
/// rows and the last position that follow the record. The least open transaction, or else the position behind the last,
/// does not fall, where the record begins none of an earlier position.
pub fn machine_follows_its_record()
    ensures transactions { (r : Record) (m : Machine) → txns_in (append r m) ≡ txns_after (txns_in m) r }
    ensures row { (r : Record) (m : Machine) (rid : Rid) → row_in (append r m) rid ≡ row_after rid (row_in m rid) r }
    ensures last { (r : Record) (m : Machine) → last_of (append r m) ≡ last_of m + 1 }
    ensures low { (r : Record) (m : Machine) → Ascending (txns_in m) → All (λ (t : Txn). t.number ≤ last_of m) (txns_in m) → BeginsFrom (last_of m + 1) r → low_in m ≤ low_in (append r m) }
    ensures change_transactions { (n : ℕ) (place : Rid) (r : Record) (m : Machine) → txns_in (change_row n place r m) ≡ txns_after (txns_in m) r }
    ensures change_row { (n : ℕ) (place : Rid) (r : Record) (m : Machine) (rid : Rid) → row_in (change_row n place r m) rid ≡ row_after rid (row_in m rid) r }
    ensures change_last { (n : ℕ) (place : Rid) (r : Record) (m : Machine) → last_of (change_row n place r m) ≡ last_of m + 1 }
    ensures change_low { (n : ℕ) (place : Rid) (r : Record) (m : Machine) → Ascending (txns_in m) → All (λ (t : Txn). t.number ≤ last_of m) (txns_in m) → BeginsFrom (last_of m + 1) r → low_in m ≤ low_in (change_row n place r m) }
{}

/// Log and journal have room for what is owed on a newly formatted disk, which is regular too, and so orderly, and behind an
/// opening that found all in order. From an orderly state each turn of each actor keeps the room, whether it answers, refuses
/// or meets a fault; from a regular one it keeps the room and leaves a regular state, where its row and what stands on the shelf
/// are short, and so does a history. A record that leaves room is sound in what it leaves to be owed.
pub fn turns_keep_room()
    ensures formatted { (c : Config) → Roomy (formatted c) }
    ensures regular { (c : Config) → Regular (formatted c) }
    ensures opened { (c : Config) (f : Found) → IsFoundWell f → Roomy (opened c f) × Regular (opened c f) }
    ensures turn { (shelf : Shelf) (g : Given) (m : Machine) (n : ℕ) (actor : Actor) (event : Event) → Roomy m → Orderly m → HasShortRow event → Roomy (turn shelf g m n actor event).1 }
    ensures kept { (shelf : Shelf) (g : Given) (m : Machine) (n : ℕ) (actor : Actor) (event : Event) → HoldsShortRows shelf → HasShortRow event → Roomy m → Regular m → Roomy (turn shelf g m n actor event).1 × Regular (turn shelf g m n actor event).1 }
    ensures history { (shelf : Shelf) (m : Machine) (h : List Entry) → HoldsShortRows shelf → All (λ (e : Entry). HasShortRow e.event) h → Roomy m → Regular m → Roomy (state_at shelf m h) × Regular (state_at shelf m h) }
    ensures sound { (m : Machine) (r : Record) → 1 ≤ (config_of m).log_files → Roomy (append r m) → HasRoom (config_of m) (before_behind m.work.start m.work.records) r }
{}

/// The pages whose images are kept for an archive depend on the configuration, the start, the records behind it and the
/// archive alone, and so does their number for all archives. So a checkpoint, a page that is cleaned, the turns of the log
/// backer and those of other archivers leave them as they were.
pub fn turns_leave_archives_waiting()
    ensures depends { (m n : Machine) (a : Option Archive) → config_of n ≡ config_of m → n.work.start ≡ m.work.start → n.work.records ≡ m.work.records → waiting_of n a ≡ waiting_of m a }
    ensures left { (m n : Machine) (a : Archive) → config_of n ≡ config_of m → n.work.start ≡ m.work.start → n.work.records ≡ m.work.records → left_of n a ≡ left_of m a }
    ensures images { (m n : Machine) → config_of n ≡ config_of m → n.work.start ≡ m.work.start → n.work.records ≡ m.work.records → n.archives ≡ m.archives → images_held n ≡ images_held m }
    ensures checkpoint { (m : Machine) (j : ℕ) → waiting_of (checkpoint_turn m).1 (archive_of (checkpoint_turn m).1 j) ≡ waiting_of m (archive_of m j) }
    ensures clean { (m : Machine) (p : Option (ℕ × ℕ)) (j : ℕ) → waiting_of (clean_at m p).1 (archive_of (clean_at m p).1 j) ≡ waiting_of m (archive_of m j) }
    ensures pick { (m : Machine) (u : Option Use) (j : ℕ) → waiting_of (pick_at m u).1 (archive_of (pick_at m u).1 j) ≡ waiting_of m (archive_of m j) }
    ensures copy { (m : Machine) (p : Option Picking) (j : ℕ) → waiting_of (copy_at m p).1 (archive_of (copy_at m p).1 j) ≡ waiting_of m (archive_of m j) }
    ensures done { (m : Machine) (p : Option Picking) (j : ℕ) → waiting_of (done_at m p).1 (archive_of (done_at m p).1 j) ≡ waiting_of m (archive_of m j) }
    ensures give_up { (count : ℕ) (m : Machine) (why : Why) (p : Option Picking) (j : ℕ) → waiting_of (uncopied_at count m why p).1 (archive_of (uncopied_at count m why p).1 j) ≡ waiting_of m (archive_of m j) }
    ensures switch { (m : Machine) (j : ℕ) → waiting_of (switch_turn m).1 (archive_of (switch_turn m).1 j) ≡ waiting_of m (archive_of m j) }
    ensures start { (m : Machine) (k level : ℕ) (names : List (List ℕ)) (a : Option Archive) (j : ℕ) → 1 ≤ k → 1 ≤ j → j ≢ k → waiting_of (start_at m k level names a).1 (archive_of (start_at m k level names a).1 j) ≡ waiting_of m (archive_of m j) }
    ensures take { (m : Machine) (k : ℕ) (a : Option Archive) (j : ℕ) → 1 ≤ k → 1 ≤ j → j ≢ k → waiting_of (take_at m k a).1 (archive_of (take_at m k a).1 j) ≡ waiting_of m (archive_of m j) }
    ensures end { (m : Machine) (k : ℕ) (a : Option Archive) (j : ℕ) → 1 ≤ k → 1 ≤ j → j ≢ k → waiting_of (end_at m k a).1 (archive_of (end_at m k a).1 j) ≡ waiting_of m (archive_of m j) }
    ensures cancel { (count : ℕ) (m : Machine) (k : ℕ) (why : Why) (a : Option Archive) (j : ℕ) → 1 ≤ k → 1 ≤ j → j ≢ k → waiting_of (cancel_at count m k why a).1 (archive_of (cancel_at count m k why a).1 j) ≡ waiting_of m (archive_of m j) }
{}

/// A page that passes is the first of those that have not, and is taken from them alone: the rest have still not passed. Of
/// the pages whose images are kept it is the first, where it was changed since the cut, and otherwise not among them.
pub fn page_passes_alone()
    ensures one { (m : Machine) (a : Archive) → left_of m (record a { passed = a.passed + 1 }) ≡ drop 1 (left_of m a) }
    ensures turn { (m : Machine) (k : ℕ) (a : Archive) (p : ℕ × ℕ) (rest : List (ℕ × ℕ)) → a.broken ≡ None → left_of m a ≡ p ∷ rest → take_at m k (Some a) ≡ (PageIs p.0 p.1, with_archive k (Some (record a { passed = a.passed + 1 })) m) }
    ensures archive { (m : Machine) (k : ℕ) (a : Archive) (p : ℕ × ℕ) (rest : List (ℕ × ℕ)) → k - 1 < length m.archives → a.broken ≡ None → left_of m a ≡ p ∷ rest → archive_of (take_at m k (Some a)).1 k ≡ Some (record a { passed = a.passed + 1 }) }
    ensures left { (m : Machine) (k : ℕ) (a : Archive) (p : ℕ × ℕ) (rest : List (ℕ × ℕ)) → a.broken ≡ None → left_of m a ≡ p ∷ rest → left_of (take_at m k (Some a)).1 (record a { passed = a.passed + 1 }) ≡ rest }
    ensures waiting { (m : Machine) (a : Archive) (p : ℕ × ℕ) (rest : List (ℕ × ℕ)) → left_of m a ≡ p ∷ rest → waiting m a ≡ (if nat_lt a.cut (stamp_in m p.0 p.1) then p ∷ [] else []) ++ waiting m (record a { passed = a.passed + 1 }) }
{}

/// An archiver has no archive, and so no pages wait for it, after its archive is given up, after it ends, which needs that
/// all pages passed, and after a turn that finds it broken.
pub fn archives_end_with_none_waiting()
    ensures cancel { (count : ℕ) (m : Machine) (k : ℕ) (why : Why) → archive_of (cancel_at count m k why (archive_of m k)).1 k ≡ None }
    ensures end { (m : Machine) (k : ℕ) (a : Archive) → a.broken ≡ None → left_of m a ≡ [] → archive_of (end_at m k (Some a)).1 k ≡ None }
    ensures broken_end { (m : Machine) (k : ℕ) (a : Archive) (entry : ℕ) → a.broken ≡ Some entry → archive_of (end_at m k (Some a)).1 k ≡ None }
    ensures broken_take { (m : Machine) (k : ℕ) (a : Archive) (entry : ℕ) → a.broken ≡ Some entry → archive_of (take_at m k (Some a)).1 k ≡ None }
    ensures waiting { (m : Machine) → waiting_of m None ≡ [] }
{}

/// A turn of a session leaves the transaction, the shares and the registers of each other session as they were. A seat that
/// is set is the session's own, and no other.
pub fn sessions_keep_their_seats()
    ensures turn { (shelf : Shelf) (g : Given) (m : Machine) (n k j : ℕ) (event : Event) → 1 ≤ k → 1 ≤ j → j ≢ k → seat_of (turn shelf g m n (Session k) event).1 j ≡ seat_of m j }
    ensures other { (m : Machine) (k j : ℕ) (s : Seat) → 1 ≤ k → 1 ≤ j → j ≢ k → seat_of (with_seat k s m) j ≡ seat_of m j }
    ensures own { (m : Machine) (k : ℕ) (s : Seat) → k - 1 < length m.work.sessions → seat_of (with_seat k s m) k ≡ s }
{}

/// A record leaves the pages of an archive that have not passed as they were, and adds the page that it changes to those
/// whose images are kept, where that has not passed; so does a change of a row with all that comes before its record.
pub fn changes_add_their_page()
    ensures left { (r : Record) (m : Machine) (a : Archive) → a.cut ≤ last_of m → left_of (append r m) a ≡ left_of m a }
    ensures waiting { (r : Record) (m : Machine) (a : Archive) → a.cut ≤ last_of m → waiting (append r m) a ≡ filter (λ (p : ℕ × ℕ). touches p.0 p.1 r || nat_lt a.cut (stamp_in m p.0 p.1)) (left_of m a) }
    ensures change_left { (n : ℕ) (rid : Rid) (r : Record) (m : Machine) (a : Archive) → a.cut ≤ last_of m → left_of (change_row n rid r m) a ≡ left_of m a }
    ensures change { (n : ℕ) (rid : Rid) (r : Record) (m : Machine) (a : Archive) → a.cut ≤ last_of m → waiting (change_row n rid r m) a ≡ filter (λ (p : ℕ × ℕ). touches p.0 p.1 r || nat_lt a.cut (stamp_in m p.0 p.1)) (left_of m a) }
{}

/// An archive starts with spaces that no running archive has.
pub fn archives_start_apart()
    ensures { (m : Machine) (k level : ℕ) (names : List (List ℕ)) (b : Archive) → k - 1 < length m.archives → archive_of m k ≡ None → archive_of (start_at m k level names None).1 k ≡ Some b → All (λ (v : Saved). archiver_of m v.space ≡ None) b.spaces }
{}

/// Running archives share no space: none run on a newly formatted disk nor behind an opening, and each turn of each actor,
/// whether it answers, refuses or meets a fault, keeps them apart, and so does a history.
pub fn archives_stay_apart()
    ensures formatted { (c : Config) → Apart (formatted c) }
    ensures opened { (c : Config) (f : Found) → Apart (opened c f) }
    ensures turn { (shelf : Shelf) (g : Given) (m : Machine) (n : ℕ) (actor : Actor) (event : Event) → Apart m → Apart (turn shelf g m n actor event).1 }
    ensures history { (shelf : Shelf) (m : Machine) (h : List Entry) → Apart m → Apart (state_at shelf m h) }
{}

/// The spaces of running archives are up, and the space of which a warm restore is under way is down: on a newly formatted
/// disk and behind an opening nothing runs, and each turn of each actor, whether it answers, refuses or meets a fault, keeps
/// that, and so does a history.
pub fn spaces_stay_known()
    ensures formatted { (c : Config) → KnowsSpaces (formatted c) }
    ensures opened { (c : Config) (f : Found) → KnowsSpaces (opened c f) }
    ensures turn { (shelf : Shelf) (g : Given) (m : Machine) (n : ℕ) (actor : Actor) (event : Event) → KnowsSpaces m → KnowsSpaces (turn shelf g m n actor event).1 }
    ensures history { (shelf : Shelf) (m : Machine) (h : List Entry) → KnowsSpaces m → KnowsSpaces (state_at shelf m h) }
{}

/// What an opening finds of a sound journal is in order, where its start is that of the journal's first part, and each page that
/// the start does not take from there is blank.
pub fn sound_journals_are_found_well()
    ensures { (c : Config) (up : ℕ → Bool) (journal : List Record) (f : Found) → IsStartOf c up journal f.start → Sound c (journal ++ f.redo) → ((space page : ℕ) → (start_page f.start space page ≡ blank) ⊎ ((up space ≡ true) × (page < data_pages c space))) → IsFoundWell f }
{}

/// Pages that a warm restore draws hold nothing or rows of at most 63 bytes, where all objects on the shelf and all records on
/// disk do. The objects do where all blocks do.
pub fn drawn_pages_hold_short_rows()
    ensures drawn { (shelf : Shelf) (s : Start) (records : List Record) (end_ space page : ℕ) → HoldsShortRows shelf → All LeavesShort (s.kept ++ records) → HoldsShort (drawn shelf s records end_ space page) }
    ensures blocks { (shelf : Shelf) → HoldsShortBlocks shelf → HoldsShortRows shelf }
{}

/// A table that tells what the sessions hold answers as the machine does: the least other session in the way of one that would
/// own or share a slot, whether a slot is locked, the least empty slot of a page and of a space that carries no lock, and the
/// least other session that owns a slot of a page. The table of a regular machine's own sessions is such a table.
pub fn lock_tables_tell_of_sessions()
    ensures regular { (m : Machine) → Regular m → TellsSessions m (table_in m) }
    ensures holder { (m : Machine) (table : List (Option Holding)) (k : ℕ) (own : Bool) (rid : Rid) → TellsSessions m table → holder_of table k rid own ≡ holder m k own rid }
    ensures locked { (m : Machine) (table : List (Option Holding)) (rid : Rid) → TellsSessions m table → is_locked_in table rid ≡ is_locked m rid }
    ensures page { (m : Machine) (table : List (Option Holding)) (space page : ℕ) → TellsSessions m table → find (λ r. is_none (row_in m r) && not (is_locked_in table r)) (map (rid_of space page) (range_with_len 0 31)) ≡ find (λ r. is_none (row_in m r) && not (is_locked m r)) (map (rid_of space page) (range_with_len 0 31)) }
    ensures space { (m : Machine) (table : List (Option Holding)) (space : ℕ) → TellsSessions m table → find (λ r. is_none (row_in m r) && not (is_locked_in table r)) (slots_of (config_of m) space) ≡ first_free m space }
    ensures page_holder { (m : Machine) (table : List (Option Holding)) (k space page : ℕ) → TellsSessions m table → least_other (λ j. list_any (λ rid. owns_in rid (holding_of table j)) (map (rid_of space page) (range_with_len 0 31))) k ≡ page_holder m k space page }
{}
