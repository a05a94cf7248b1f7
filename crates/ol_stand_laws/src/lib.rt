//! What holds of the start that an opening reads, whatever journal it is the start of: each law is the contract of a
//! function with an empty body.
#![tactic(auto)]

ghost use Rattle.std.specs.Prelude.{◌≡◌, ◌≤◌, ◌<◌, ◌+◌, ◌-◌, ◌++◌, ◌∷◌, Bool, List, None, Option, [], false, length, slice_index_or, take, true, ℕ};
ghost use Rattle.ol_values.specs.declared.record.Record.{Record};
ghost use Rattle.ol_values.specs.declared.record.Record.TheVariants.{Change, Undo};
ghost use Rattle.ol_values.specs.declared.record.Rid.{Rid};
ghost use Rattle.ol_values.specs.declared.row.Row.{Row};
ghost use Rattle.ol_values.specs.Config.{Config, data_pages};
ghost use Rattle.ol_values.specs.Image.{IsDataPage, with_slot};
ghost use Rattle.ol_values.specs.Pages.{Page, rid_of};
ghost use Rattle.ol_rules.specs.Journal.{page_at, page_from, row_at, row_from, stamp_at, stamp_from, touches};
ghost use Rattle.ol_rules.specs.Sound.{AllChangesIn, Sound, is_value};
ghost use Rattle.ol_rules.specs.Start.{IsStartOf, SoundBehind, Start, last_behind, low_behind, page_behind, row_behind, stamp_behind, txns_behind, upto};
ghost use Rattle.ol_rules.specs.Transactions.{low_at, open_at};

/// A slot of a page that records are folded on is the row that they are folded on at that place; a stamp is at most the
/// last position.
pub fn pages_hold_their_rows()
    ensures slot { (base : Page) (first : ℕ) (records : List Record) (space page slot : ℕ) → slot < 31 → slice_index_or (page_from base first records space page).slots slot None ≡ row_from (slice_index_or base.slots slot None) records (rid_of space page slot) }
    ensures journal { (journal : List Record) (space page slot : ℕ) → slot < 31 → slice_index_or (page_at journal space page).slots slot None ≡ row_at journal (rid_of space page slot) }
    ensures stamp { (stamp first : ℕ) (records : List Record) (space page : ℕ) → stamp < first → stamp_from stamp first records space page < first + length records }
    ensures last { (journal : List Record) (space page : ℕ) → stamp_at journal space page ≤ length journal }
{}

/// A start that is a journal's gives, with any records behind it, the journal's rows, pages and stamps in the spaces that
/// are up, and its last position; where the journal is sound with them, its open transactions, its need, what it owes and
/// its roll back too.
pub fn start_gives_its_journal()
    ensures last { (c : Config) (up : ℕ → Bool) (journal records : List Record) (s : Start) → IsStartOf c up journal s → last_behind s records ≡ length (journal ++ records) }
    ensures rows { (c : Config) (up : ℕ → Bool) (journal records : List Record) (s : Start) (rid : Rid) → IsStartOf c up journal s → up rid.space ≡ true → rid.page < data_pages c rid.space → rid.slot < 31 → row_behind s records rid ≡ row_at (journal ++ records) rid }
    ensures pages { (c : Config) (up : ℕ → Bool) (journal records : List Record) (s : Start) (space page : ℕ) → IsStartOf c up journal s → up space ≡ true → page < data_pages c space → page_behind s records space page ≡ page_at (journal ++ records) space page }
    ensures stamps { (c : Config) (up : ℕ → Bool) (journal records : List Record) (s : Start) (space page : ℕ) → IsStartOf c up journal s → up space ≡ true → page < data_pages c space → stamp_behind s records space page ≡ stamp_at (journal ++ records) space page }
    ensures transactions { (c : Config) (up : ℕ → Bool) (journal records : List Record) (s : Start) → IsStartOf c up journal s → Sound c (journal ++ records) → txns_behind s records ≡ open_at (journal ++ records) }
    ensures need { (c : Config) (up : ℕ → Bool) (journal records : List Record) (s : Start) → IsStartOf c up journal s → Sound c (journal ++ records) → low_behind s records ≡ low_at (journal ++ records) }
{}

/// Each place of a sound journal holds nothing or a row of at most 63 bytes, and each page of it is one that a disk may
/// hold: 31 slots, a stamp of at most 2^62, and blank where it was never changed.
pub fn pages_of_sound_journals_are_data_pages()
    ensures value { (c : Config) (journal : List Record) (place : Rid) → Sound c journal → is_value (row_at journal place) ≡ true }
    ensures page { (c : Config) (journal : List Record) (space page : ℕ) → Sound c journal → IsDataPage (page_at journal space page) }
{}

/// A Change or an Undo moves one slot of one page, from any page of 31 slots: it leaves its value there, and its position as
/// the page's stamp; each other page stays as it was. The same of a page that records are folded on.
pub fn records_move_one_page()
    ensures change { (p : Page) (n txn : ℕ) (rid : Rid) (before after : Option Row) → length p.slots ≡ 31 → rid.slot < 31 → page_from p n (Change txn rid before after ∷ []) rid.space rid.page ≡ with_slot p rid.slot after n }
    ensures undo { (p : Page) (n txn : ℕ) (rid : Rid) (value : Option Row) → length p.slots ≡ 31 → rid.slot < 31 → page_from p n (Undo txn rid value ∷ []) rid.space rid.page ≡ with_slot p rid.slot value n }
    ensures other { (p : Page) (n : ℕ) (r : Record) (space page : ℕ) → length p.slots ≡ 31 → touches space page r ≡ false → page_from p n (r ∷ []) space page ≡ p }
    ensures change_more { (base : Page) (first : ℕ) (records : List Record) (txn : ℕ) (rid : Rid) (before after : Option Row) → rid.slot < 31 → page_from base first (records ++ Change txn rid before after ∷ []) rid.space rid.page ≡ with_slot (page_from base first records rid.space rid.page) rid.slot after (first + length records) }
    ensures undo_more { (base : Page) (first : ℕ) (records : List Record) (txn : ℕ) (rid : Rid) (value : Option Row) → rid.slot < 31 → page_from base first (records ++ Undo txn rid value ∷ []) rid.space rid.page ≡ with_slot (page_from base first records rid.space rid.page) rid.slot value (first + length records) }
    ensures other_more { (base : Page) (first : ℕ) (records : List Record) (r : Record) (space page : ℕ) → touches space page r ≡ false → page_from base first (records ++ r ∷ []) space page ≡ page_from base first records space page }
{}

/// Records whose changes are in spaces that are up are sound behind a start that is a sound journal's exactly where they are
/// sound behind the journal.
pub fn sound_behind_its_start()
    ensures journal { (c : Config) (up : ℕ → Bool) (journal records : List Record) (s : Start) → IsStartOf c up journal s → Sound c journal → AllChangesIn up records → SoundBehind c s records → Sound c (journal ++ records) }
    ensures start { (c : Config) (up : ℕ → Bool) (journal records : List Record) (s : Start) → IsStartOf c up journal s → AllChangesIn up records → Sound c (journal ++ records) → SoundBehind c s records }
{}

/// A page whose stamp is at most a position is as it was there. So the image that a change behind an archive's cut keeps of a
/// page not changed since is the page at the cut.
pub fn pages_stay_from_their_stamp_on()
    ensures start { (c : Config) (up : ℕ → Bool) (journal records : List Record) (s : Start) (position space page : ℕ) → IsStartOf c up journal s → up space ≡ true → page < data_pages c space → s.last ≤ position → stamp_behind s records space page ≤ position → page_behind s records space page ≡ page_behind s (upto s records position) space page }
    ensures journal { (journal more : List Record) (space page : ℕ) → stamp_at (journal ++ more) space page ≤ length journal → page_at (journal ++ more) space page ≡ page_at journal space page }
{}
