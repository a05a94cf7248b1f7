//! What holds of the images that a storage leaves.

ghost use Rattle.std.specs.Prelude.{◌≡◌, ◌≤◌, ◌++◌, Bool, List, length, take, true, ℕ};
ghost use Rattle.ol_values.specs.declared.record.Record.{Record};
ghost use Rattle.ol_values.specs.Config.{Config};
ghost use Rattle.ol_rules.specs.Sound.{Sound};
ghost use Rattle.ol_rules.specs.Start.{IsStartOf, Start};
ghost use Rattle.ol_ports.specs.Disk.{Bytes};
ghost use Rattle.ol_reserve.specs.declared.anchor.Anchor.{Anchor as AnchorValue};
ghost use Rattle.ol_storage.specs.Behind.{is_up};
ghost use Rattle.ol_storage.specs.Journals.{StandsFor, behind_in};
ghost use Rattle.ol_storage.specs.Standing.{Stands};

/// Whatever journal a start is of: what stands for the start and the records behind it up to some position stands for the
/// journal with these records.
pub fn image_stands_for_the_journal()
    ensures { (c : Config) (up : ℕ → Bool) (journal records : List Record) (start : Start) (reached last : ℕ) (a : AnchorValue) (d : Bytes) → IsStartOf c up journal start → Sound c (journal ++ records)
        → ((space : ℕ) → is_up a space ≡ true → up space ≡ true) → last ≤ length (journal ++ records) → Stands c (behind_in journal start records reached) a last d → StandsFor c (take last (journal ++ records)) a d }
{}
