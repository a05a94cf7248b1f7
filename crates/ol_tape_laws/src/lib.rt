//! What an archive puts on its drive: each law is the contract of a function with an empty body.
#![tactic(auto)]

ghost use Rattle.std.specs.Prelude.{All, Bool, ◌≡◌, ◌≤◌, ◌++◌, ◌∷◌, List, [], length, map, true, ℕ};
ghost use Rattle.ol_values.specs.declared.history.Entry.{Entry};
ghost use Rattle.ol_values.specs.declared.record.Record.{Record};
ghost use Rattle.ol_values.specs.Blocks.{Saved};
ghost use Rattle.ol_rules.specs.Saveset.{saveset};
ghost use Rattle.ol_rules.specs.Shelf.{Shelf};
ghost use Rattle.ol_rules.specs.Start.{IsStartOf};
ghost use Rattle.ol_model.specs.History.{Steps, state_after};
ghost use Rattle.ol_model.specs.Machine.{Archive, Machine, config_of, formatted};
ghost use Rattle.ol_model.specs.Tape.{saved_at, tape};
ghost use Rattle.ol_model.specs.Waiting.{pages_of};
ghost use Rattle.ol_tape_laws.specs.Example.{began, ended, first_archive, one_space};
ghost use Rattle.ol_tape_laws.specs.Runs.{Begins, HasNew, RunsToEnd, rest_blocks, whole_blocks};

/// An archiver that begins an archive and takes its pages to the end puts on its drive the header, each page of the archive in
/// order with its image at the cut, and the trailer, whatever turns others take between, as long as no change of theirs breaks
/// the archive and no fault stops the engine. The same of what follows the header. That a state knows its spaces holds of each
/// that turns lead to (`spaces_stay_known` of `ol_turn_laws`).
pub fn archive_puts_its_blocks()
    ensures rest { (shelf : Shelf) (k : ℕ) (a : Archive) (h : List Entry) (m : Machine) (n : ℕ) → HasNew k a m → Steps shelf m n h → RunsToEnd shelf k (length (pages_of m a)) m h → tape shelf m h k ≡ rest_blocks m a }
    ensures whole { (shelf : Shelf) (k : ℕ) (a : Archive) (e : Entry) (h : List Entry) (m : Machine) (n : ℕ) → Begins shelf k a m e → Steps shelf m n (e ∷ h) → RunsToEnd shelf k (length (pages_of (state_after shelf m e) a)) (state_after shelf m e) h → tape shelf m (e ∷ h) k ≡ whole_blocks (state_after shelf m e) a }
{}

/// Behind the start of a journal, the pages of an archive of spaces that are up, with their images at its cut, are the saveset of
/// that journal and the records since, where the cut is not before the start.
pub fn archive_holds_its_saveset()
    ensures { (up : ℕ → Bool) (journal : List Record) (m : Machine) (a : Archive) → IsStartOf (config_of m) up journal m.work.start → All (λ (v : Saved). up v.space ≡ true) a.spaces → m.work.start.last ≤ a.cut → map (λ (p : ℕ × ℕ). saved_at m a p.0 p.1) (pages_of m a) ≡ saveset (config_of m) (journal ++ m.work.records) a.spaces a.cut }
{}

/// The premises of these laws are met by an archive of a newly formatted installation.
pub fn premises_are_met()
    ensures begins { Begins [] 1 first_archive (formatted one_space) began }
    ensures steps { Steps [] (formatted one_space) 1 (began ∷ ended ∷ []) }
    ensures runs { RunsToEnd [] 1 (length (pages_of (state_after [] (formatted one_space) began) first_archive)) (state_after [] (formatted one_space) began) (ended ∷ []) }
{}
