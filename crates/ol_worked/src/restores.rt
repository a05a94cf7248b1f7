//! Restores: what the tapes of a play give back.

ghost use Rattle.std.specs.Prelude.{◌≡◌, ◌∷◌, Err, List, Ok, Some, [], codes, ℕ};
ghost use Rattle.ol_values.specs.declared.event.Reply.TheVariants.{DamagedVolume, MissingLog};
ghost use Rattle.ol_values.specs.Text.{text};
ghost use Rattle.ol_model.specs.History.{played};
ghost use Rattle.ol_model.specs.Listing.{list_text};
ghost use Rattle.ol_model.specs.Machine.{row_in};
ghost use Rattle.ol_worked.specs.Restores.{all_after, archived_again, archived_twice, archives_in, damaged_outside, end_or, last_journal, last_shelf, listed_after, log_file_lost, lost_history, machine_after, open_at_cut};
ghost use Rattle.ol_worked.specs.Restores.{plan_for, plan_or, restored_warm, row_behind_archive, salvaged_heads, spoilt, tapes_after, three_spaces, two_files_backed, two_log_pages, warm_machine, warm_shelf, whole_journal, without_log};
ghost use Rattle.ol_worked.specs.Small.{small};

/// Up to where restores go, what is listed behind them, and what is refused: a log file that is missing where it is
/// needed, a block that is damaged, an archive that a later restore has made void, a space that is restored warm.
pub fn restores_give()
    ensures open_at_cut_ends { end_or (plan_for (small 20 2) (all_after (small 20 2) open_at_cut) (1 ∷ [])) ≡ Ok 5 }
    ensures open_at_cut_lists { listed_after (small 20 2) (all_after (small 20 2) open_at_cut) (whole_journal (machine_after (small 20 2) open_at_cut)) (plan_or (plan_for (small 20 2) (all_after (small 20 2) open_at_cut) (1 ∷ []))) ≡ codes "data1:0:0 =a\n" }
    ensures row_behind_ends { end_or (plan_for (small 20 2) (all_after (small 20 2) row_behind_archive) (1 ∷ [])) ≡ Ok 6 }
    ensures row_behind_lists { listed_after (small 20 2) (all_after (small 20 2) row_behind_archive) (whole_journal (machine_after (small 20 2) row_behind_archive)) (plan_or (plan_for (small 20 2) (all_after (small 20 2) row_behind_archive) (1 ∷ []))) ≡ codes "data1:0:0 =ann\ndata1:0:1 =bob\n" }
    ensures log_missing { end_or (plan_for (small 4 2) (without_log 2 (all_after (small 4 2) two_files_backed)) (1 ∷ [])) ≡ Err (MissingLog 13) }
    ensures log_not_needed { end_or (plan_for (small 4 2) (without_log 2 (all_after (small 4 2) archived_again)) (1 ∷ [])) ≡ Ok 27 }
    ensures page_damaged { end_or (plan_for (small 20 2) (spoilt 1 (all_after (small 20 2) row_behind_archive)) (1 ∷ [])) ≡ Err (DamagedVolume 1 1 1) }
    ensures salvaged_blocks { salvaged_heads (all_after (small 20 2) row_behind_archive) ≡ two_log_pages }
    ensures trailer_damaged { damaged_outside (spoilt 2 (all_after (small 20 2) row_behind_archive)) ≡ Some (1, 1, 2) }
    ensures damaged_page_not_needed { end_or (plan_for (small 20 2) (spoilt 1 (all_after (small 20 2) archived_twice)) (1 ∷ [])) ≡ Ok 6 }
    ensures other_trailer_damaged { damaged_outside (spoilt 2 (all_after (small 20 2) archived_twice)) ≡ Some (1, 1, 2) }
    ensures first_end { end_or (plan_for three_spaces (tapes_after three_spaces log_file_lost) (2 ∷ [])) ≡ Ok 12 }
    ensures goes_on { text three_spaces lost_history ≡ codes "1 s1 begun 13\n2 s1 rid data1:0:4\n3 s1 committed 15\n4 s1 begun 16\n5 s1 rid data1:0:5\n6 s1 committed 18\n" }
    ensures last_end { end_or (plan_for three_spaces last_shelf (2 ∷ [])) ≡ Ok 18 }
    ensures void_archive_not_used { archives_in (plan_or (plan_for three_spaces last_shelf (2 ∷ []))) ≡ 1 ∷ 1 ∷ 1 ∷ [] }
    ensures last_lists { listed_after three_spaces last_shelf last_journal (plan_or (plan_for three_spaces last_shelf (2 ∷ []))) ≡ codes "data1:0:0 =a\ndata1:0:1 =b\ndata1:0:2 =c\ndata1:0:3 =d\ndata1:0:4 =x\ndata1:0:5 =y\n" }
    ensures warm_ends { end_or (plan_for (small 20 2) (all_after (small 20 2) row_behind_archive) []) ≡ Ok 6 }
    ensures down_listed { list_text (small 20 2) warm_machine.lasting.spaces (row_in warm_machine) ≡ codes "data1 down\n" }
    ensures restored_warm_prints { text (small 20 2) (played 400 warm_shelf warm_machine restored_warm) ≡ codes "1 s1 begun 7\n2 s1 spacedown data1\n3 w1 up data1\n4 s1 row =ann\n5 w1 notdown data1\n" }
{}
