//! What holds of what an opening asks for, whoever opens.

ghost use Rattle.std.specs.Prelude.{◌≡◌, ◌≤◌, ◌++◌, Bool, List, true, ℕ};
ghost use Rattle.ol_values.specs.declared.record.Record.{Record};
ghost use Rattle.ol_values.specs.Config.{Config};
ghost use Rattle.ol_rules.specs.Sound.{Sound};
ghost use Rattle.ol_rules.specs.Start.{IsStartOf, Start, last_behind, upto};
ghost use Rattle.ol_chunks.specs.Limits.{IsConfig};
ghost use Rattle.ol_ports.specs.Disk.{Bytes};
ghost use Rattle.ol_reserve.specs.declared.anchor.Anchor.{Anchor as AnchorValue};
ghost use Rattle.ol_storage.specs.Behind.{is_up, last_of};
ghost use Rattle.ol_storage.specs.Journals.{behind_in};
ghost use Rattle.ol_storage.specs.Standing.{Stands};
ghost use Rattle.ol_opening.specs.Opening.{IsLeft};

/// Whatever sound journal a start is of, with the records behind it: an image that stands for the start and these is one that a stop
/// left, as an opening asks for, with the pages at the checkpoint. So is an image that stands for them up to some position, for the
/// records up to that.
pub fn left_of_a_sound_journal()
    ensures all { (c : Config) (up : ℕ → Bool) (journal records : List Record) (start : Start) (reached : ℕ) (a : AnchorValue) (d : Bytes) → IsConfig c → IsStartOf c up journal start → Sound c (journal ++ records)
        → ((space : ℕ) → is_up a space ≡ true → up space ≡ true) → reached ≡ a.position → Stands c (behind_in journal start records reached) a (last_of (behind_in journal start records reached)) d → IsLeft c (behind_in journal start records reached) a d }
    ensures stop { (c : Config) (up : ℕ → Bool) (journal records : List Record) (start : Start) (reached last : ℕ) (a : AnchorValue) (d : Bytes) → IsConfig c → IsStartOf c up journal start → Sound c (journal ++ records)
        → ((space : ℕ) → is_up a space ≡ true → up space ≡ true) → last ≤ last_behind start records → Stands c (behind_in journal start records reached) a last d → IsLeft c (behind_in journal start (upto start records last) a.position) a d }
{}
