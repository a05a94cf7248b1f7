//! Turns of sessions, the log and the checkpoint.

ghost use Rattle.std.specs.Prelude.{◌≡◌};
ghost use Rattle.ol_worked.specs.Sessions.{clean_and_switch, clean_and_switch_prints, conflict, conflict_prints, edge_rows, edge_rows_prints, full_log, full_log_prints};
ghost use Rattle.ol_worked.specs.Small.{printed, small};

/// What the plays of these lines print.
pub fn sessions_print()
    ensures conflict { printed (small 20 2) conflict ≡ conflict_prints }
    ensures edge_rows { printed (small 20 2) edge_rows ≡ edge_rows_prints }
    ensures full_log { printed (small 4 2) full_log ≡ full_log_prints }
    ensures clean_and_switch { printed (small 20 2) clean_and_switch ≡ clean_and_switch_prints }
{}
