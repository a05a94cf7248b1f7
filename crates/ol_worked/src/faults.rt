//! Histories with faults: a commit whose sync fails, and an archive whose tape ends.

ghost use Rattle.std.specs.Prelude.{◌≡◌, ◌++◌, ◌∷◌, [], false, take};
ghost use Rattle.ol_values.specs.declared.event.Event.TheVariants.{Commit as CommitTurn};
ghost use Rattle.ol_values.specs.declared.event.Reply.TheVariants.{Committed};
ghost use Rattle.ol_values.specs.declared.history.Actor.TheVariants.{Session};
ghost use Rattle.ol_model.specs.History.{Carries, Steps, mended, settled, turned};
ghost use Rattle.ol_model.specs.Lines.{First};
ghost use Rattle.ol_model.specs.Machine.{formatted};
ghost use Rattle.ol_worked.specs.Archives.{one_row};
ghost use Rattle.ol_worked.specs.Faults.{commit_fails, entry, tape_ends};
ghost use Rattle.ol_worked.specs.Small.{small};

/// The entries of these histories are steps of the machine; a commit whose sync fails stops the engine and settles
/// nothing, and its history is mended by the commit; an archive whose tape ends is given up, and its entries carry out the
/// archive's line; what a commit settles is settled from its last call of the disk on.
pub fn faults_are()
    ensures commit_steps { Steps [] (formatted (small 20 2)) 1 commit_fails }
    ensures commit_mended { mended [] (formatted (small 20 2)) commit_fails ≡ take 2 commit_fails ++ entry 3 (Session 1) 3 CommitTurn (Committed 3) ∷ [] }
    ensures commit_settles { settled [] (formatted (small 20 2)) commit_fails 9 ≡ 0 }
    ensures tape_steps { Steps [] (formatted (small 20 2)) 1 tape_ends }
    ensures tape_carries { Carries [] false one_row First (turned [] (formatted (small 20 2)) tape_ends) }
    ensures settled_before { settled [] (formatted (small 20 2)) tape_ends 4 ≡ 0 }
    ensures settled_after { settled [] (formatted (small 20 2)) tape_ends 6 ≡ 3 }
{}
