//! That what a stop leaves is read again, that calls on other parts of the disk leave it, and that a head is read as it was
//! written.

ghost use Rattle.std.specs.Prelude.{◌≡◌, ◌<◌, ◌^◌, ◌++◌, [], Bool, List, length, ℕ};
ghost use Rattle.ol_values.specs.Config.{Config};
ghost use Rattle.ol_ports.specs.Disk.{Bytes, Past, Rest, seen};
ghost use Rattle.ol_ports.specs.Frames.{FramedAt, SameBut};
ghost use Rattle.ol_physlog.specs.Heads.{IsPage, head_bytes, head_in};
ghost use Rattle.ol_physlog.specs.Places.{AreApart, Counts, entry_at};
ghost use Rattle.ol_physlog.specs.Reading.{IsRefused};
ghost use Rattle.ol_physlog.specs.States.{HoldsEntries, IsLaid, IsLog, Log as LogValue, emptied, entry_number, image_at, place_at};
ghost use Rattle.ol_physlog.specs.declared.head.Head.TheVariants.{Counts as CountsHead};
ghost use Rattle.ol_physlog.specs.declared.place.Place.{Place};

/// What is laid is held, whatever a stop leaves; where all added entries are settled, each of them counts. A disk that holds
/// the entries of a log is read without a refusal, and what counts on it was added. For a later generation it holds none.
pub fn stops_are_read()
    ensures held { (c : Config) (past : Past) (s : LogValue) (images : List (List ℕ)) → IsLaid c past s images → (d : Bytes) → Rest past d → HoldsEntries c s images d }
    ensures settled { (c : Config) (past : Past) (s : LogValue) (images : List (List ℕ)) → IsLaid c past s images → s.settled ≡ length s.places → (d : Bytes) → Rest past d → (j : ℕ) → j < length s.places → entry_at c s.area s.generation d (entry_number s j) ≡ Counts (place_at s j) (image_at images j) }
    ensures good { (c : Config) (s : LogValue) (images : List (List ℕ)) (d : Bytes) → HoldsEntries c s images d → IsLog s → (k : ℕ) → k < s.area.count → IsRefused c s.area s.generation d k → ⊥ }
    ensures added { (c : Config) (s : LogValue) (images : List (List ℕ)) (d : Bytes) → HoldsEntries c s images d → (k : ℕ) (place : Place) (image : List ℕ) → k < s.area.count → entry_at c s.area s.generation d k ≡ Counts place image → (j : ℕ) × (j < length s.places) × (entry_number s j ≡ k) × (place_at s j ≡ place) × (image_at images j ≡ image) }
    ensures later { (c : Config) (s : LogValue) (images : List (List ℕ)) (d : Bytes) (generation : ℕ) → HoldsEntries c s images d → s.generation < generation → HoldsEntries c (emptied s generation) [] d }
{}

/// Calls on parts of the disk that are apart from the log's area leave what is held, and what is laid; where an added entry is
/// not settled, they have to leave what is read of the area, too.
pub fn other_parts_leave_entries()
    ensures held { (c : Config) (s : LogValue) (images : List (List ℕ)) (is_part : ℕ → ℕ → ℕ → Bool) (e d : Bytes) → IsLog s → AreApart s.area is_part → SameBut is_part e d → HoldsEntries c s images e → HoldsEntries c s images d }
    ensures laid { (c : Config) (s : LogValue) (images : List (List ℕ)) (is_part : ℕ → ℕ → ℕ → Bool) (old new : Past) → AreApart s.area is_part → ((d : Bytes) → Rest new d → FramedAt old is_part d) → SameBut is_part (seen old) (seen new) → IsLaid c old s images → IsLaid c new s images }
    ensures settled { (c : Config) (s : LogValue) (images : List (List ℕ)) (is_part : ℕ → ℕ → ℕ → Bool) (old new : Past) → AreApart s.area is_part → ((d : Bytes) → Rest new d → FramedAt old is_part d) → s.settled ≡ length s.places → IsLaid c old s images → IsLaid c new s images }
{}

/// The head of a page's entry, with an open gate, is read as one that counts for its generation, whatever stands behind it.
pub fn heads_are_read()
    ensures { (c : Config) (generation : ℕ) (place : Place) (rest : List ℕ) → IsPage c place → generation < 2 ^ 64 → head_in c generation (head_bytes 1 place generation ++ rest) ≡ CountsHead place }
{}
