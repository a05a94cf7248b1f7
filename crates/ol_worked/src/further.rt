//! Further plays, whose texts and tapes another program worked out.

ghost use Rattle.std.specs.Prelude.{◌≡◌};
ghost use Rattle.ol_worked.specs.Further.{log_files, log_files_prints, log_files_tape_0, taken_back, taken_back_prints, three_levels, three_levels_prints, three_levels_tape_1, two_archivers, two_archivers_prints, two_archivers_tape_1, two_archivers_tape_2, two_sessions, two_sessions_prints};
ghost use Rattle.ol_worked.specs.Small.{printed, small, taped};

/// What these plays print, and what stands on their tapes: sessions in conflict, rollback, levels of archives, two
/// archivers, and log files that are closed, backed up and reused.
pub fn further_print()
    ensures two_sessions_printed { printed (small 20 2) two_sessions ≡ two_sessions_prints }
    ensures taken_back_printed { printed (small 20 2) taken_back ≡ taken_back_prints }
    ensures three_levels_printed { printed (small 20 2) three_levels ≡ three_levels_prints }
    ensures three_levels_taped_1 { taped (small 20 2) three_levels 1 ≡ three_levels_tape_1 }
    ensures two_archivers_printed { printed (small 20 2) two_archivers ≡ two_archivers_prints }
    ensures two_archivers_taped_1 { taped (small 20 2) two_archivers 1 ≡ two_archivers_tape_1 }
    ensures two_archivers_taped_2 { taped (small 20 2) two_archivers 2 ≡ two_archivers_tape_2 }
    ensures log_files_printed { printed (small 4 2) log_files ≡ log_files_prints }
    ensures log_files_taped_0 { taped (small 4 2) log_files 0 ≡ log_files_tape_0 }
{}
