//! What holds of spellings and pages, whoever wrote them.

ghost use Rattle.std.specs.Prelude.{◌≡◌, ◌≤◌, ◌++◌, ◌∷◌, List, ℕ, count_by, drop, length};
ghost use Rattle.ol_values.specs.declared.record.Record.{Record as RecordValue};
ghost use Rattle.ol_values.specs.LogPages.{LogPage};
ghost use Rattle.ol_record.specs.LogPages.{IsFilling, IsLogPage, log_page_bytes, page_in, touches_page};
ghost use Rattle.ol_values.specs.Spelling.{IsRecord, KeepsRules, record_bytes};

/// No spelling of a record begins another. So bytes begin with one record at most, and a list of bytes
/// is the spelling of one list of records at most.
pub fn no_spelling_begins_another()
    ensures { (r s : RecordValue) (x y : List ℕ) → IsRecord r → IsRecord s → record_bytes r ++ x ≡ record_bytes s ++ y → (r ≡ s) × (x ≡ y) }
{}

/// A page has 2,048 bytes, and these stand for it alone. The gate is the first byte, and no other byte
/// depends on it. What may stand on disk is also a page that is being filled.
pub fn page_is_told_by_its_bytes()
    ensures told { (gate : ℕ) (p : LogPage) → IsFilling p → page_in (log_page_bytes gate p) ≡ p }
    ensures whole { (gate : ℕ) (p : LogPage) → IsFilling p → length (log_page_bytes gate p) ≡ 2048 }
    ensures gate { (gate : ℕ) (p : LogPage) → log_page_bytes gate p ≡ gate ∷ drop 1 (log_page_bytes 0 p) }
    ensures filling { (p : LogPage) → IsLogPage p → IsFilling p }
{}

/// At most 143 records of a log page touch a data page, since each of them has at least 14 bytes: the
/// shortest is an undo that leaves nothing. A page holds at most 223 records in all, of 9 bytes at least.
pub fn page_holds_few_records()
    ensures touching { (p : LogPage) → IsLogPage p → count_by touches_page p.records ≤ 143 }
    ensures touching_filling { (p : LogPage) → IsFilling p → count_by touches_page p.records ≤ 143 }
    ensures all { (p : LogPage) → IsFilling p → length p.records ≤ 223 }
{}

/// A record has 9 to 141 bytes, so that one always has room on a page that holds none.
pub fn record_has_9_to_141_bytes()
    ensures least { (r : RecordValue) → 9 ≤ length (record_bytes r) }
    ensures most { (r : RecordValue) → IsRecord r → length (record_bytes r) ≤ 141 }
{}

/// A record that was read keeps the rules under which it may be written again.
pub fn record_keeps_rules()
    ensures { (r : RecordValue) → IsRecord r → KeepsRules r }
{}
