//! What holds of the places of a log, whoever writes them.

ghost use Rattle.std.specs.Prelude.{◌≡◌, ◌≢◌, ◌<◌, ◌≤◌, ◌-◌, ◌+◌, ◌++◌, ◌∷◌, ◌⊎◌, ◌↔◌, [], Bool, List, ℕ, false, length, slice_index_or, true};
ghost use Rattle.ol_values.specs.declared.record.Record.{Record as RecordValue};
ghost use Rattle.ol_values.specs.Config.{Config, log_pages};
ghost use Rattle.ol_values.specs.LogPages.{LogPage};
ghost use Rattle.ol_rules.specs.DiskValue.{DiskValue, OpenLog, run_of, run_records};
ghost use Rattle.ol_record.specs.LogPages.{page_in};
ghost use Rattle.ol_chunks.specs.Places.{log_area};
ghost use Rattle.ol_ports.specs.Disk.{Bytes, Past, page_list, seen};
ghost use Rattle.ol_ports.specs.Frames.{FramedAt, IsSettledIn};
ghost use Rattle.ol_rules.specs.Ring.{file_of};
ghost use Rattle.ol_log_places.specs.Places.{Closed, IsPlaced, Open, Place, Shows, in_log, place_number, places};
ghost use Rattle.ol_log_places.specs.Runs.{Covers, HoldsLog, IsLogged, IsNear, IsOrderly, IsRun, StandAtPlaces, Stands, end_of, journal_at, log_of, open_logs, run_in};
ghost use Rattle.ol_log_places.specs.Writes.{GatesAre, IsFreeFile, IsNext, IsShutFile, IsThinned, MayBeClosed, MayHavePage, is_in_file, with_page, without_file};

/// What stands at a place is told by its page of the log alone: it is closed exactly where the gate is not open; calls on other parts
/// of the disk leave it; and where a stop leaves the log as it reads, it leaves the places that are read.
pub fn places_are_of_the_log_alone()
    ensures gate { (c : Config) (d : Bytes) (place : ℕ) → (places c d place ≡ Closed) ↔ (d (log_area c).chunk ((log_area c).first + place) 0 ≢ 1) }
    ensures others { (past : Past) (c : Config) (r : ℕ → Place) (is_part : ℕ → ℕ → ℕ → Bool) (d : Bytes) → ((chunk page offset : ℕ) → in_log c chunk page ≡ true → is_part chunk page offset ≡ false)
        → IsPlaced past c r → FramedAt past is_part d → Shows c d r }
    ensures settled { (past : Past) (c : Config) → IsSettledIn past (in_log c) → IsPlaced past c (places c (seen past)) }
{}

/// A page stands at the place of its unique number and its index, which is one of its file's and of no other file's. The
/// list of open pages depends on the places of the log alone.
pub fn pages_stand_at_their_places()
    ensures place { (c : Config) (d : Bytes) → StandAtPlaces c (places c d) }
    // Who reads the page again finds it.
    ensures bytes { (c : Config) (d : Bytes) (place : ℕ) (p : LogPage) → places c d place ≡ Open p → page_in (page_list d (log_area c).chunk ((log_area c).first + place)) ≡ p }
    ensures file { (c : Config) (r : ℕ → Place) → StandAtPlaces c r → (place file : ℕ) (p : LogPage) → place < log_pages c → r place ≡ Open p → (is_in_file c file place ≡ true) ↔ (file_of c p.uniq ≡ file) }
    ensures same { (c : Config) (r s : ℕ → Place) → ((place : ℕ) → place < log_pages c → s place ≡ r place) → open_logs c s ≡ open_logs c r }
{}

/// Orderly places have one run, or none where no page is open. Where their pages have all positions from `need` on, it begins at or
/// below `need`; where they hold a journal, it has that journal's records. It is the run of a disk's value that has these pages.
pub fn run_is_of_the_journal()
    ensures run { (c : Config) (r : ℕ → Place) (j : ℕ → RecordValue) (need upto : ℕ) → need < upto → IsLogged c r j need upto
        → (a : ℕ) × (a ≤ need) × IsRun c r (log_pages c) (run_in (open_logs c r)) a upto × (run_records (run_in (open_logs c r)) ≡ journal_at j a (upto - a)) }
    ensures covered { (c : Config) (r : ℕ → Place) (need upto : ℕ) → need < upto → IsOrderly r (log_pages c) → Covers r (log_pages c) need upto → (a : ℕ) × (a ≤ need) × IsRun c r (log_pages c) (run_in (open_logs c r)) a upto }
    ensures found { (c : Config) (r : ℕ → Place) → IsOrderly r (log_pages c) → ((run_in (open_logs c r) ≡ []) × ((p : LogPage) → Stands r (log_pages c) p → ⊥)) ⊎ ((a b : ℕ) × IsRun c r (log_pages c) (run_in (open_logs c r)) a b) }
    ensures one { (c : Config) (r : ℕ → Place) (run : List OpenLog) (a b : ℕ) → IsOrderly r (log_pages c) → IsRun c r (log_pages c) run a b → run_in (open_logs c r) ≡ run }
    ensures value { (d : DiskValue) → run_of d ≡ run_in d.logs }
{}

/// After a stop in the writing of the next page the run is the one before, or that and the page. Some position is needed,
/// or no page stood before.
pub fn next_page_is_put_or_not()
    ensures { (c : Config) (r : ℕ → Place) (place : ℕ) (p : LogPage) (need : ℕ) (d : Bytes) → place < log_pages c → r place ≡ Closed → 0 < length p.records → IsOrderly r (log_pages c) → Covers r (log_pages c) need p.first
        → (need < p.first) ⊎ ((q : LogPage) → Stands r (log_pages c) q → ⊥) → MayHavePage c r place p d
        → (run_in (open_logs c (places c d)) ≡ run_in (open_logs c r)) ⊎ (run_in (open_logs c (places c d)) ≡ run_in (open_logs c r) ++ log_of c p ∷ []) }
{}

/// Places hold a journal still where pages that end at or below `need` are closed, and up to the end of the next page where that
/// is put behind the last. A unique number that is at most one above the last page's stays so.
pub fn log_is_kept()
    ensures closed { (c : Config) (j : ℕ → RecordValue) (need upto : ℕ) (r s : ℕ → Place) → IsThinned c need r s → IsLogged c r j need upto → IsLogged c s j need upto }
    ensures put { (c : Config) (j : ℕ → RecordValue) (need : ℕ) (r : ℕ → Place) (place : ℕ) (p : LogPage) → IsNext c r j place p → IsLogged c r j need p.first → IsLogged c (with_page r place p) j need (end_of p) }
    ensures closed_near { (c : Config) (need upto uniq : ℕ) (r s : ℕ → Place) → IsThinned c need r s → IsNear c r uniq upto → IsNear c s uniq upto }
    ensures put_near { (c : Config) (j : ℕ → RecordValue) (need uniq : ℕ) (r : ℕ → Place) (place : ℕ) (p : LogPage) → IsNext c r j place p → IsLogged c r j need p.first → uniq ≤ p.uniq + 1 → IsNear c (with_page r place p) uniq (end_of p) }
{}

/// A disk holds the log after a stop in the writing of the next page, or in the closing of a file whose pages all end at or
/// below `need`, or in neither. A unique number that is at most one above the last page's stays so, as does each lower one.
pub fn stop_leaves_the_log()
    ensures none { (c : Config) (j : ℕ → RecordValue) (need upto uniq : ℕ) (r : ℕ → Place) (d : Bytes) → IsLogged c r j need upto → IsNear c r uniq upto → Shows c d r → HoldsLog c j need upto upto uniq d }
    ensures page { (c : Config) (j : ℕ → RecordValue) (need uniq : ℕ) (r : ℕ → Place) (place : ℕ) (p : LogPage) (d : Bytes) → IsNext c r j place p → IsLogged c r j need p.first → IsNear c r uniq p.first → uniq ≤ p.uniq + 1
        → MayHavePage c r place p d → HoldsLog c j need p.first (end_of p) uniq d }
    ensures file { (c : Config) (j : ℕ → RecordValue) (need upto uniq file : ℕ) (r : ℕ → Place) (d : Bytes) → IsFreeFile c need file r → IsLogged c r j need upto → IsNear c r uniq upto → MayBeClosed c r file d
        → HoldsLog c j need upto upto uniq d }
    ensures lower { (c : Config) (j : ℕ → RecordValue) (need flushed total uniq lower : ℕ) (d : Bytes) → lower ≤ uniq → HoldsLog c j need flushed total uniq d → HoldsLog c j need flushed total lower d }
    ensures thinned { (c : Config) (need file : ℕ) (r : ℕ → Place) → IsFreeFile c need file r → IsThinned c need r (without_file c file r) }
{}

/// Behind the page that ends last no page of its file is open.
pub fn file_is_closed_behind_the_last_page()
    ensures { (c : Config) (r : ℕ → Place) (j : ℕ → RecordValue) (need upto : ℕ) (p : LogPage) → IsLogged c r j need upto → StandAtPlaces c r → Stands r (log_pages c) p → end_of p ≡ upto
        → (place : ℕ) → place < log_pages c → is_in_file c (file_of c p.uniq) place ≡ true → place_number c p.uniq p.index < place → r place ≡ Closed }
{}

/// What tells of the gates is kept by opening that of a page that was written, and by closing those of a file.
pub fn gates_are_kept()
    ensures page { (gates now : List Bool) (r : ℕ → Place) (place : ℕ) (p : LogPage) → GatesAre gates r → length now ≡ length gates → slice_index_or now place false ≡ true
        → ((k : ℕ) → k ≢ place → slice_index_or now k false ≡ slice_index_or gates k false) → GatesAre now (with_page r place p) }
    ensures file { (c : Config) (file : ℕ) (gates now : List Bool) (r : ℕ → Place) → GatesAre gates r → length now ≡ length gates → IsShutFile c file now
        → ((k : ℕ) → is_in_file c file k ≡ false → slice_index_or now k false ≡ slice_index_or gates k false) → GatesAre now (without_file c file r) }
{}
