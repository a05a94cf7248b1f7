//! What holds of a roll forward, whoever makes it: each law is the contract of a function with an empty body.

ghost use Rattle.std.specs.Prelude.{◌≡◌, ◌<◌, ◌++◌, ◌∷◌, [], false, List, None, Option, Some, length, slice_index_or, true, ℕ};
ghost use Rattle.ol_values.specs.declared.record.Record.{Record as RecordValue};
ghost use Rattle.ol_values.specs.declared.record.Rid.{Rid as RidValue};
ghost use Rattle.ol_values.specs.declared.row.Row.{Row as RowValue};
ghost use Rattle.ol_values.specs.Image.{with_slot};
ghost use Rattle.ol_values.specs.Config.{Config, has_page, has_place};
ghost use Rattle.ol_values.specs.Pages.{Page, blank};
ghost use Rattle.ol_rules.specs.Journal.{page_at, page_from, touches};
ghost use Rattle.ol_rules.specs.Transactions.{open_at, owed};
ghost use Rattle.ol_rollfwd.specs.Losers.{owed_of};
ghost use Rattle.ol_rollfwd.specs.Rolls.{Roll as RollValue, applied, is_due, is_in_place};
ghost use Rattle.ol_pool.specs.Frames.{no_frames};
ghost use Rattle.ol_rollfwd.specs.Feeding.{HasFrames, Shows, fed, first_out};
ghost use Rattle.ol_rollfwd.specs.Journals.{IsReadOf, losers_of, reading};

/// A pool without a page in memory has frames for all data pages, and shows pages that were never changed.
pub fn new_pool_is_blank()
    ensures frames { (c : Config) → HasFrames c (no_frames c) }
    ensures shows { (c : Config) → Shows c (no_frames c) (λ space page. blank) }
{}

/// Where the records of a sound journal are read from its need at the least cut, or from before it, none is out of place; the
/// transactions that are open then are the journal's, with their pending changes and what they owe, and each page of a space that
/// gets records is the journal's.
pub fn sound_journal_rolls_forward()
    ensures place { (c : Config) (past read : List RecordValue) (cuts : List (Option ℕ)) (pages : ℕ → ℕ → Page) → IsReadOf c past read cuts pages → first_out (reading c past cuts pages) read ≡ None }
    ensures losers { (c : Config) (past read : List RecordValue) (cuts : List (Option ℕ)) (pages : ℕ → ℕ → Page) → IsReadOf c past read cuts pages → (fed (reading c past cuts pages) read).roll.losers ≡ losers_of (open_at (past ++ read)) }
    ensures owed { (c : Config) (past read : List RecordValue) (cuts : List (Option ℕ)) (pages : ℕ → ℕ → Page) → IsReadOf c past read cuts pages → owed_of (fed (reading c past cuts pages) read).roll.losers ≡ owed (open_at (past ++ read)) }
    ensures pages { (c : Config) (past read : List RecordValue) (cuts : List (Option ℕ)) (pages : ℕ → ℕ → Page) → IsReadOf c past read cuts pages → (space page cut : ℕ) → has_page c space page ≡ true → slice_index_or cuts space None ≡ Some cut → (fed (reading c past cuts pages) read).pages space page ≡ page_at (past ++ read) space page }
{}

/// A record that is applied leaves its row at its place, which is there, in a space whose pages lack it. One that is in place and not
/// applied, behind the least cut, touches no page that lacks it.
pub fn records_are_applied_where_due()
    ensures place { (s : RollValue) (r : RecordValue) (rid : RidValue) (row : Option RowValue) → applied s r ≡ Some (rid, row) → (has_place s.config rid ≡ true) × (is_due s rid.space ≡ true) }
    ensures row { (s : RollValue) (r : RecordValue) (rid : RidValue) (row : Option RowValue) (p : Page) → applied s r ≡ Some (rid, row) → length p.slots ≡ 31 → page_from p s.next (r ∷ []) rid.space rid.page ≡ with_slot p rid.slot row s.next }
    ensures rest { (s : RollValue) (held : Option RowValue) (r : RecordValue) (space page : ℕ) → is_in_place s held r ≡ true → applied s r ≡ None → s.least < s.next → is_due s space ≡ true → touches space page r ≡ false }
{}
