//! What leaves full pages full, and what the least free slot of a space is.

ghost use Rattle.std.specs.Prelude.{◌≡◌, ◌<◌, Bool, None, Option, Some, false, length, true, ℕ};
ghost use Rattle.ol_values.specs.declared.record.Record.{Record};
ghost use Rattle.ol_values.specs.declared.record.Record.TheVariants.{Change, Undo};
ghost use Rattle.ol_values.specs.declared.record.Rid.{Rid};
ghost use Rattle.ol_values.specs.declared.row.Row.{Row};
ghost use Rattle.ol_values.specs.Config.{has_place};
ghost use Rattle.ol_model.specs.Machine.{Machine, config_of, first_free, holder, is_locked, row_in};
ghost use Rattle.ol_model.specs.Steps.{append, change_row};
ghost use Rattle.ol_free_slots.specs.declared.hints.Hints.{Hints};
ghost use Rattle.ol_free_slots.specs.Filled.{AreFull, empties, no_hints, with_emptied};

/// Hints that tell nothing are true of each state. Hints stay true where the rows are the same, behind a record that empties no slot, with
/// all that comes before it at a change of a row, and behind a change or an undo of a slot of which they are told that it was emptied; also
/// where the rows of one space are others, of which they are told that its page 0 was emptied.
pub fn hints_stay_full()
    ensures none { (m : Machine) → AreFull no_hints m }
    ensures same { (h : Hints) (m n : Machine) → config_of n ≡ config_of m → ((rid : Rid) → row_in n rid ≡ row_in m rid) → AreFull h m → AreFull h n }
    ensures space { (h : Hints) (m n : Machine) (space : ℕ) → config_of n ≡ config_of m → ((rid : Rid) → (rid.space ≡ space → ⊥) → row_in n rid ≡ row_in m rid) → AreFull h m → AreFull (with_emptied h space 0) n }
    ensures append { (h : Hints) (r : Record) (m : Machine) → empties r ≡ false → AreFull h m → AreFull h (append r m) }
    ensures change { (h : Hints) (n : ℕ) (place : Rid) (r : Record) (m : Machine) → empties r ≡ false → AreFull h m → AreFull h (change_row n place r m) }
    ensures emptied { (h : Hints) (n txn : ℕ) (place rid : Rid) (before after : Option Row) (m : Machine) → AreFull h m → AreFull (with_emptied h rid.space rid.page) (change_row n place (Change txn rid before after) m) }
    ensures undone { (h : Hints) (n txn : ℕ) (place rid : Rid) (value : Option Row) (m : Machine) → AreFull h m → AreFull (with_emptied h rid.space rid.page) (change_row n place (Undo txn rid value) m) }
{}

/// The least free slot of a space is one of its places, is empty, carries no lock, and no session is in the way of another there.
pub fn first_free_is_free()
    ensures place { (m : Machine) (space : ℕ) (rid : Rid) → space < length (config_of m).spaces → first_free m space ≡ Some rid → (has_place (config_of m) rid ≡ true) × (rid.space ≡ space) }
    ensures empty { (m : Machine) (space : ℕ) (rid : Rid) → first_free m space ≡ Some rid → row_in m rid ≡ None }
    ensures unlocked { (m : Machine) (space : ℕ) (rid : Rid) → first_free m space ≡ Some rid → is_locked m rid ≡ false }
    ensures alone { (m : Machine) (space k : ℕ) (own : Bool) (rid : Rid) → first_free m space ≡ Some rid → holder m k own rid ≡ None }
{}
