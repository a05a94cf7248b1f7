//! What holds of rings, whatever their configuration.

ghost use Rattle.std.specs.Prelude.{◌≡◌, ◌+◌, ◌-◌, ◌<◌, ◌≤◌, [], false, is_some, length, nat_le, true, ℕ};
ghost use Rattle.ol_chunks.specs.Places.{log_area};
ghost use Rattle.ol_rules.specs.Ring.{Reuse, Ring, Use, blocker, file_of, flushed, following, free, is_closed, is_reusable, logged, page_of, room, switched_off, to_back_up, use_numbered, written};
ghost use Rattle.ol_values.specs.Config.{Config};
ghost use Rattle.ol_values.specs.LogPages.{log_room, record_length, records_length};
ghost use Rattle.ol_values.specs.declared.record.Record.{Record as RecordValue};
ghost use Rattle.ol_log_state.specs.Files.{log_config};
ghost use Rattle.ol_log_state.specs.Regular.{EndBefore, IsRegular, OthersEndBefore};
ghost use Rattle.ol_log_state.specs.RingState.{RingState, buffered, config_of, ring_of, turned};

/// The rules of the ring look at nothing of a configuration but its log files, so what is said of the files
/// of an installation's area is said of the installation.
pub fn rules_see_the_log_files_alone()
    ensures file { (c : Config) (uniq : ℕ) → file_of (log_config (log_area c)) uniq ≡ file_of c uniq }
    ensures closed { (c : Config) (r : Ring) (u : Use) → is_closed (log_config (log_area c)) r u ≡ is_closed c r u }
    ensures reusable { (c : Config) (m : Reuse) (r : Ring) (file : ℕ) → is_reusable (log_config (log_area c)) m r file ≡ is_reusable c m r file }
    ensures following { (c : Config) (m : Reuse) (r : Ring) → following (log_config (log_area c)) m r ≡ following c m r }
    ensures room { (c : Config) (m : Reuse) (r : Ring) → room (log_config (log_area c)) m r ≡ room c m r }
    ensures free { (c : Config) (m : Reuse) (r : Ring) → free (log_config (log_area c)) m r ≡ free c m r }
    ensures blocker { (c : Config) (m : Reuse) (r : Ring) → blocker (log_config (log_area c)) m r ≡ blocker c m r }
    ensures to_back_up { (c : Config) (m : Reuse) (r : Ring) → to_back_up (log_config (log_area c)) m r ≡ to_back_up c m r }
    ensures written { (c : Config) (r : Ring) (last : ℕ) → written (log_config (log_area c)) r last ≡ written c r last }
{}

/// A record that has room, and one for which the buffered page was written before, leave the ring that the
/// rules give for that record. A page that was written, and one that there was none of, leave the ring that
/// they give for a flush.
pub fn steps_are_by_the_rules()
    ensures fits { (s : RingState) (rec : RecordValue) → nat_le (records_length s.buffer + record_length rec) log_room ≡ true → ring_of (buffered rec s) ≡ logged (config_of s) (ring_of s) (s.next - 1) rec }
    ensures turns { (s : RingState) (rec : RecordValue) → nat_le (records_length s.buffer + record_length rec) log_room ≡ false → ring_of (turned s) ≡ written (config_of s) (ring_of s) (s.next - 1) → ring_of (buffered rec (turned s)) ≡ logged (config_of s) (ring_of s) (s.next - 1) rec }
    ensures flushes { (s : RingState) → 0 < length s.buffer → ring_of (turned s) ≡ written (config_of s) (ring_of s) (s.next - 1) → ring_of (turned s) ≡ flushed (config_of s) (ring_of s) (s.next - 1) }
    ensures nothing { (s : RingState) → s.buffer ≡ [] → ring_of s ≡ flushed (config_of s) (ring_of s) (s.next - 1) }
{}

/// Where the buffered records become a page, a regular ring has the same page as before for each position
/// that is needed from the last checkpoint on, and for each that no use but the current one reaches, as the
/// last. So what a ring may lose lies below the lesser of the need and the last position.
pub fn needed_positions_stay()
    ensures needed { (c : Config) (m : Reuse) (r : Ring) (last position : ℕ) → IsRegular c r → 1 ≤ r.uniq → 2 ≤ c.log_files → 1 ≤ room c m r → m.need ≤ position → position < last + 1 - length r.buffer → page_of (written c r last) position ≡ page_of r position }
    ensures last { (c : Config) (r : Ring) (last position : ℕ) → IsRegular c r → 1 ≤ r.uniq → 2 ≤ c.log_files → is_some (use_numbered r r.uniq) ≡ true → OthersEndBefore r.uniq position r → position < last + 1 - length r.buffer → page_of (written c r last) position ≡ page_of r position }
{}

/// A page that is written behind all others leaves a regular ring regular, and so does a switch. The page
/// is then the last one, and in the current use, while the others end before it.
pub fn regular_rings_stay()
    ensures written { (c : Config) (r : Ring) (last : ℕ) → IsRegular c r → 0 < length r.buffer → EndBefore (last + 1 - length r.buffer) r → IsRegular c (written c r last) }
    ensures last { (c : Config) (r : Ring) (last : ℕ) → 0 < length r.buffer → length r.buffer ≤ last → EndBefore (last + 1 - length r.buffer) r → EndBefore (last + 1) (written c r last) }
    ensures current { (c : Config) (r : Ring) (last : ℕ) → 0 < length r.buffer → is_some (use_numbered (written c r last) (written c r last).uniq) ≡ true }
    ensures others { (c : Config) (r : Ring) (last : ℕ) → 0 < length r.buffer → length r.buffer ≤ last → EndBefore (last + 1 - length r.buffer) r → OthersEndBefore (written c r last).uniq last (written c r last) }
    ensures switched { (c : Config) (r : Ring) → IsRegular c r → IsRegular c (switched_off r) }
{}
