//! What holds of the definitions alone.

ghost use Rattle.std.specs.Prelude.{◌≡◌, List, length};
ghost use Rattle.ol_values.specs.declared.record.Record.{Record as RecordValue};
ghost use Rattle.ol_values.specs.LogPages.{record_length, records_length};
ghost use Rattle.ol_values.specs.Spelling.{record_bytes, records_bytes};

/// The spelling of a record has as many bytes as the record is counted with where a log page's room is told, and so have
/// the spellings of several records, one after the other.
pub fn spellings_have_their_length()
    ensures record { (r : RecordValue) → length (record_bytes r) ≡ record_length r }
    ensures records { (records : List RecordValue) → length (records_bytes records) ≡ records_length records }
{}
