//! What an archiver puts on its drive is an archive that a catalog reads back: each law is the contract of a function with an
//! empty body.
#![tactic(auto)]

ghost use Rattle.std.specs.Prelude.{Bool, ◌≡◌, ◌≤◌, ◌++◌, ◌∷◌, List, [], length, map, true, ℕ};
ghost use Rattle.ol_values.specs.declared.history.Entry.{Entry};
ghost use Rattle.ol_values.specs.declared.record.Record.{Record};
ghost use Rattle.ol_values.specs.Config.{Config};
ghost use Rattle.ol_ports.specs.Drive.{blocks_in_order};
ghost use Rattle.ol_ports.specs.Shelf.{volumes_at};
ghost use Rattle.ol_rules.specs.Restored.{FitsArchive};
ghost use Rattle.ol_rules.specs.Saveset.{saveset};
ghost use Rattle.ol_rules.specs.Shelf.{Shelf};
ghost use Rattle.ol_rules.specs.Sound.{Sound};
ghost use Rattle.ol_model.specs.History.{state_after};
ghost use Rattle.ol_model.specs.Machine.{Archive, Machine, config_of, formatted};
ghost use Rattle.ol_model.specs.Tape.{tape};
ghost use Rattle.ol_chunks.specs.Limits.{IsConfig};
ghost use Rattle.ol_core.specs.Archivers.{saved_of};
ghost use Rattle.ol_core.specs.Machine.{Archive as CoreArchive, Fixed, formatted as core_formatted};
ghost use Rattle.ol_core.specs.Tape.{archive_blocks};
ghost use Rattle.ol_object.specs.Bytes.{bytes_of};
ghost use Rattle.ol_tape_laws.specs.Example.{began, ended, first_archive, one_space};
ghost use Rattle.ol_tape_laws.specs.Runs.{Begins, whole_blocks};
ghost use Rattle.ol_catalog.specs.Written.{Archived, IsArchived, IsOnDrive, blocks_of_archive, object_on};
ghost use Rattle.ol_archive_laws.specs.Archives.{IsOfJournal, IsTakenBy, MayArchive, archived_by};
ghost use Rattle.ol_archive_laws.specs.Played.{archived_in, first_of};

/// An archive of a sound journal, with the saveset at its cut as its pages and its numbers within limits, is one that a catalog
/// reads back as a whole object without a bad block.
pub fn savesets_are_archives()
    ensures { (c : Config) (journal : List Record) (x : Archived) → IsConfig c → Sound c journal → IsOfJournal c journal x → IsArchived x }
{}

/// The blocks that a running archive puts on its drive, header to trailer, are those of an archive as data. One that has just
/// begun, where it might, is of the journal that the machine stands behind, with the records since.
pub fn archivers_write_archives()
    ensures blocks { (m : Machine) (a : Archive) → whole_blocks m a ≡ blocks_of_archive (archived_by m a) }
    ensures journal { (on : ℕ → Bool) (journal : List Record) (shelf : Shelf) (k : ℕ) (a : Archive) (m : Machine) (e : Entry) → Begins shelf k a m e → MayArchive on journal m a
        → (let n : Machine = state_after shelf m e in IsOfJournal (config_of n) (journal ++ n.work.records) (archived_by n a)) }
{}

/// Where an archive began and was taken to its end, whatever turns others took between, and a drive holds the bytes of what it
/// put on tape, in however many volumes, there stands an archive that a catalog reads back, with the saveset of the journal at
/// its cut as its pages. Its object is one that fits the journal, whatever records come behind.
pub fn archives_are_read_back()
    ensures there { (on : ℕ → Bool) (journal : List Record) (shelf : Shelf) (k : ℕ) (a : Archive) (m : Machine) (e : Entry) (h : List Entry) → IsTakenBy shelf k a m e h → MayArchive on journal m a
        → (tapes : List (List (List (List ℕ)))) (drive : ℕ) → blocks_in_order (volumes_at tapes drive) ≡ map bytes_of (tape shelf m (e ∷ h) k)
        → (let n : Machine = state_after shelf m e in let x : Archived = archived_by n a in IsOnDrive tapes drive x × IsArchived x × (x.pages ≡ saveset (config_of n) (journal ++ n.work.records) a.spaces a.cut)) }
    ensures fits { (on : ℕ → Bool) (journal more : List Record) (shelf : Shelf) (k : ℕ) (a : Archive) (m : Machine) (e : Entry) (tapes : List (List (List (List ℕ)))) (drive : ℕ) → Begins shelf k a m e → MayArchive on journal m a
        → (let n : Machine = state_after shelf m e in IsOnDrive tapes drive (archived_by n a) → FitsArchive (config_of n) ((journal ++ n.work.records) ++ more) (object_on tapes drive (archived_by n a))) }
{}

/// The blocks of an archive that a play puts on its drive are those of an archive as data. The first one, of level 0 and with a
/// space, begun after a sound journal, is of that journal.
pub fn plays_write_archives()
    ensures blocks { (f : Fixed) (journal : List Record) (a : CoreArchive) → archive_blocks f journal a ≡ blocks_of_archive (archived_in f journal a) }
    ensures journal { (c : Config) (journal : List Record) (spaces : List ℕ) → Sound c journal → 1 ≤ length (saved_of c spaces) → IsOfJournal c journal (archived_in (core_formatted c).fixed journal (first_of c journal spaces)) }
{}

/// The premises of these laws are met by an archive of a newly formatted installation.
pub fn premises_are_met()
    ensures may { MayArchive (λ (space : ℕ). true) [] (formatted one_space) first_archive }
    ensures taken { IsTakenBy [] 1 first_archive (formatted one_space) began (ended ∷ []) }
{}
