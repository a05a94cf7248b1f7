//! What holds of journals, whoever wrote them.

ghost use Rattle.std.specs.Prelude.{◌≡◌, ◌≤◌, ◌<◌, ◌+◌, ◌++◌, ◌∷◌, Bool, List, Option, is_some, length, take, true, ℕ, []};
ghost use Rattle.ol_values.specs.declared.record.Record.{Record as RecordValue};
ghost use Rattle.ol_values.specs.declared.record.Record.TheVariants.{Change, Commit, Rolled, Undo};
ghost use Rattle.ol_values.specs.declared.record.Rid.{Rid};
ghost use Rattle.ol_values.specs.declared.row.Row.{Row as RowValue};
ghost use Rattle.ol_values.specs.Config.{Config, data_pages};
ghost use Rattle.ol_rules.specs.Effects.{effect_at};
ghost use Rattle.ol_values.specs.Pages.{Page};
ghost use Rattle.ol_rules.specs.Journal.{page_at, page_from, row_at, row_from};
ghost use Rattle.ol_rules.specs.Saveset.{IsChain, Level, last_cut, lay, savesets};
ghost use Rattle.ol_rules.specs.Sound.{AllChangesIn, Before, IsAlike, Sound, SoundFrom, afterwards, start};
ghost use Rattle.ol_rules.specs.Transactions.{AllBegin, Txn, back, low_at, numbered_from, open_at, owed, rolled_back, txn_numbered, txns_from};

/// A sound journal with its open transactions taken back is sound, leaves none open, and each place holds
/// what the committed transactions put there.
pub fn rollback_leaves_effects()
    ensures sound { (c : Config) (journal : List RecordValue) → Sound c journal → Sound c (rolled_back journal) }
    ensures effects { (c : Config) (journal : List RecordValue) → Sound c journal → (place : Rid) → row_at (rolled_back journal) place ≡ effect_at journal place }
    ensures closed { (c : Config) (journal : List RecordValue) → Sound c journal → open_at (rolled_back journal) ≡ [] }
{}

/// After each first part of a journal's roll back the rest of it is left, and the journal with that part
/// is sound. So a roll back that was cut off goes on where it stopped. What is owed is its length.
pub fn rest_of_rollback_is_owed()
    ensures rest { (c : Config) (journal first rest : List RecordValue) → Sound c journal → back (open_at journal) ≡ first ++ rest → back (open_at (journal ++ first)) ≡ rest }
    ensures sound { (c : Config) (journal first rest : List RecordValue) → Sound c journal → back (open_at journal) ≡ first ++ rest → Sound c (journal ++ first) }
    ensures owed { (txns : List Txn) → owed txns ≡ length (back txns) }
{}

/// Archives of a chain, laid over one another, give each page of the space as it was at the last cut.
pub fn chain_gives_last_cut()
    ensures { (c : Config) (journal : List RecordValue) (space page : ℕ) (levels : List Level) → IsChain c journal space 0 levels → page < data_pages c space → lay (savesets c journal levels) space page ≡ page_at (take (last_cut 0 levels) journal) space page }
{}

/// States that are alike in the spaces that are up stay alike under any records, and so do pages with their
/// stamps; records that are sound from one of them are sound from the other, where each of their changes is in such a space.
pub fn starts_alike_stay_alike()
    ensures state { (up : ℕ → Bool) (a b : Before) (records : List RecordValue) → IsAlike up a b → IsAlike up (afterwards a records) (afterwards b records) }
    ensures pages { (up : ℕ → Bool) (a b : ℕ → ℕ → Page) (first : ℕ) (records : List RecordValue) → ((space page : ℕ) → up space ≡ true → a space page ≡ b space page) → (space page : ℕ) → up space ≡ true → page_from (a space page) first records space page ≡ page_from (b space page) first records space page }
    ensures sound { (up : ℕ → Bool) (c : Config) (a b : Before) (records : List RecordValue) → IsAlike up a b → AllChangesIn up records → SoundFrom c a records → SoundFrom c b records }
{}

/// What places, pages and transactions are after a journal goes on from what they were after its first
/// part. The state after a journal has its places, open transactions and last position.
pub fn records_fold_on()
    ensures rows { (journal more : List RecordValue) (place : Rid) → row_at (journal ++ more) place ≡ row_from (row_at journal place) more place }
    ensures pages { (journal more : List RecordValue) (space page : ℕ) → page_from (page_at journal space page) (1 + length journal) more space page ≡ page_at (journal ++ more) space page }
    ensures transactions { (journal more : List RecordValue) → open_at (journal ++ more) ≡ txns_from (open_at journal) more }
    ensures state_rows { (journal : List RecordValue) (place : Rid) → (afterwards start journal).row place ≡ row_at journal place }
    ensures state_transactions { (journal : List RecordValue) → (afterwards start journal).txns ≡ open_at journal }
    ensures state_last { (journal : List RecordValue) → (afterwards start journal).last ≡ length journal }
{}

/// Transactions below a number drop out of what records tell that begin none of them. So the records
/// from a checkpoint's need on tell what is open from the checkpoint on.
pub fn closed_transactions_drop_out()
    ensures commutes { (low : ℕ) (txns : List Txn) (records : List RecordValue) → AllBegin low records → numbered_from low (txns_from txns records) ≡ txns_from (numbered_from low txns) records }
    ensures need { (c : Config) (past kept more : List RecordValue) → Sound c (past ++ (kept ++ more)) → length past + 1 ≤ low_at (past ++ kept) → txns_from [] (kept ++ more) ≡ open_at (past ++ (kept ++ more)) }
{}

/// A journal is sound exactly where its first part is and the rest is sound from the state after it.
pub fn sound_prefix()
    ensures first { (c : Config) (journal more : List RecordValue) → Sound c (journal ++ more) → Sound c journal }
    ensures rest { (c : Config) (journal more : List RecordValue) → Sound c (journal ++ more) → SoundFrom c (afterwards start journal) more }
    ensures whole { (c : Config) (journal more : List RecordValue) → Sound c journal → SoundFrom c (afterwards start journal) more → Sound c (journal ++ more) }
{}

/// In a sound journal each record but a Begin belongs to a transaction that is open before it.
pub fn record_belongs_to_open_transaction()
    ensures change { (c : Config) (journal more : List RecordValue) (n : ℕ) (rid : Rid) (before after : Option RowValue) → Sound c (journal ++ Change n rid before after ∷ more) → is_some (txn_numbered n (open_at journal)) ≡ true }
    ensures undo { (c : Config) (journal more : List RecordValue) (n : ℕ) (rid : Rid) (value : Option RowValue) → Sound c (journal ++ Undo n rid value ∷ more) → is_some (txn_numbered n (open_at journal)) ≡ true }
    ensures commit { (c : Config) (journal more : List RecordValue) (n : ℕ) → Sound c (journal ++ Commit n ∷ more) → is_some (txn_numbered n (open_at journal)) ≡ true }
    ensures rolled { (c : Config) (journal more : List RecordValue) (n : ℕ) → Sound c (journal ++ Rolled n ∷ more) → is_some (txn_numbered n (open_at journal)) ≡ true }
{}
