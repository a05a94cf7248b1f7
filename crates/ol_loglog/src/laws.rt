//! What holds of a ring and the disk beneath it.

ghost use Rattle.std.specs.Prelude.{◌≡◌, ◌<◌, ◌≤◌, ◌+◌, Bool, List, map, true, ℕ};
ghost use Rattle.ol_values.specs.declared.record.Record.{Record as RecordValue};
ghost use Rattle.ol_values.specs.Config.{Config, log_pages};
ghost use Rattle.ol_rules.specs.Ring.{is_reusable, room};
ghost use Rattle.ol_rules.specs.DiskValue.{AnchorValue};
ghost use Rattle.ol_record.specs.declared.head.LogHead.{LogHead as HeadValue};
ghost use Rattle.ol_chunks.specs.declared.table.Area.{Area as AreaValue};
ghost use Rattle.ol_chunks.specs.Limits.{IsConfig};
ghost use Rattle.ol_chunks.specs.Places.{log_area};
ghost use Rattle.ol_ports.specs.Disk.{Past};
ghost use Rattle.ol_log_places.specs.Heads.{AreInRun};
ghost use Rattle.ol_log_places.specs.Runs.{IsLogged, IsNear, open_logs, run_in};
ghost use Rattle.ol_log_places.specs.Scanning.{stood_of};
ghost use Rattle.ol_log_places.specs.Writes.{GatesAre};
ghost use Rattle.ol_log_state.specs.StoredFiles.{heads_in};
ghost use Rattle.ol_log_state.specs.declared.places.RingStart.{RingStart as RingStartValue};
ghost use Rattle.ol_log_places.specs.Places.{IsPlaced, Place};
ghost use Rattle.ol_log_state.specs.Files.{Files, next_page};
ghost use Rattle.ol_log_state.specs.RingState.{RingState, first_uniq, ring_of, started, switched, turned, with_backed, with_need};
ghost use Rattle.ol_loglog.specs.RingValue.{HasRoom, IsLogRing, RingValue, first_unwritten, ring_value, with_state};
ghost use Rattle.ol_loglog.specs.Ready.{IsFloor, IsInOrder, IsNextFree, IsNextUnbacked, IsNotLast, IsReady, next_file};

/// Where the disk is as the ring has it, and the floor is at least the lesser of what is needed and the position of the last
/// written record, a file that the next page enters may be entered where the ring says that it is reusable, and it does not
/// have that record. In a ring in order it never has, so there room is enough.
pub fn reusable_file_is_free()
    ensures reusable { (past : Past) (v : RingValue) (r : ℕ → Place) (floor : ℕ) (j : ℕ → RecordValue) → IsReady past v r floor j → IsFloor v.state floor → IsNotLast v.config v.state
        → is_reusable v.config v.state.reuse (ring_of v.state) (next_file v.config v.state) ≡ true → IsNextFree v r floor }
    ensures room { (past : Past) (v : RingValue) (r : ℕ → Place) (floor : ℕ) (j : ℕ → RecordValue) → IsReady past v r floor j → IsFloor v.state floor → IsLogRing v → IsInOrder v.config v.state
        → HasRoom v.config v.state → IsNextFree v r floor }
    ensures not_last { (v : RingValue) → IsLogRing v → IsInOrder v.config v.state → (next_page v.state.files).enters ≡ true → IsNotLast v.config v.state }
{}

/// The disk stays as the ring has it where the current file is closed, a use is backed up or less is needed, and for a higher
/// floor; and where calls elsewhere leave the places as they are.
pub fn readiness_is_kept()
    ensures switched { (past : Past) (v : RingValue) (r : ℕ → Place) (floor : ℕ) (j : ℕ → RecordValue) → IsReady past v r floor j → IsReady past (with_state (switched v.state) v) r floor j }
    ensures backed { (past : Past) (v : RingValue) (r : ℕ → Place) (floor uniq : ℕ) (j : ℕ → RecordValue) → IsReady past v r floor j → IsReady past (with_state (with_backed uniq v.state) v) r floor j }
    ensures need { (past : Past) (v : RingValue) (r : ℕ → Place) (floor need : ℕ) (j : ℕ → RecordValue) → IsReady past v r floor j → IsReady past (with_state (with_need need v.state) v) r floor j }
    ensures floor { (past : Past) (v : RingValue) (r : ℕ → Place) (floor higher : ℕ) (j : ℕ → RecordValue) → floor ≤ higher → IsReady past v r floor j → IsReady past v r higher j }
    ensures elsewhere { (past now : Past) (v : RingValue) (r : ℕ → Place) (floor : ℕ) (j : ℕ → RecordValue) → IsPlaced now v.config r → IsReady past v r floor j → IsReady now v r floor j }
{}

/// A ring stays in order where the current file is closed, a use is backed up or less is needed.
pub fn order_is_kept()
    ensures switched { (c : Config) (s : RingState) → IsInOrder c s → IsInOrder c (switched s) }
    ensures backed { (c : Config) (s : RingState) (uniq : ℕ) → IsInOrder c s → IsInOrder c (with_backed uniq s) }
    ensures need { (c : Config) (s : RingState) (need : ℕ) → IsInOrder c s → IsInOrder c (with_need need s) }
{}

/// The unique number of the next page is the current one or the one behind it. Where the disk is as the ring has it, it is at
/// most one above that of the last page.
pub fn next_number_is_near()
    ensures current { (f : Files) → (f.uniq ≤ (next_page f).uniq) × ((next_page f).uniq ≤ f.uniq + 1) }
    ensures last { (past : Past) (v : RingValue) (r : ℕ → Place) (floor : ℕ) (j : ℕ → RecordValue) → IsReady past v r floor j → IsNear v.config r (next_page v.state.files).uniq (first_unwritten v.state) }
{}

/// The use of the next page is not backed up as a ring starts, and stays so behind a page that is written and behind a switch.
pub fn next_use_is_not_backed_up()
    ensures started { (area : AreaValue) (start : RingStartValue) (heads : List HeadValue) → IsNextUnbacked (started area start heads) }
    ensures turned { (s : RingState) → IsNextUnbacked s → IsNextUnbacked (turned s) }
    ensures switched { (s : RingState) → IsNextUnbacked s → IsNextUnbacked (switched s) }
{}

/// An opening finds the disk as the ring of a scan has it, and the ring in order, where the places hold the journal up to the
/// ring's next position, and the number that the ring starts with is at most one above the last page's.
pub fn opening_is_ready()
    ensures ready { (past : Past) (c : Config) (r : ℕ → Place) (floor upto : ℕ) (j : ℕ → RecordValue) (gates : List Bool) (start : RingStartValue) (a : AnchorValue) → IsPlaced past c r → GatesAre gates r → IsLogged c r j floor upto → IsNear c r (first_uniq start) upto
        → upto ≡ start.next → a.uniq ≡ start.uniq → a.lasting.backed ≡ start.backed → IsReady past (ring_value c (started (log_area c) start (heads_in (map (stood_of c) (run_in (open_logs c r))))) gates) r floor j }
    ensures order { (c : Config) (r : ℕ → Place) (floor upto : ℕ) (j : ℕ → RecordValue) (start : RingStartValue) (a : AnchorValue) → IsConfig c → AreInRun c.log_file_pages (map (stood_of c) (run_in (open_logs c r))) → IsLogged c r j floor upto
        → IsNear c r (first_uniq start) upto → upto ≡ start.next → a.uniq ≡ start.uniq → a.lasting.backed ≡ start.backed → IsInOrder c (started (log_area c) start (heads_in (map (stood_of c) (run_in (open_logs c r))))) }
{}
