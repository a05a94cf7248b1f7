//! What holds of blocks as values and of their bytes, whoever wrote them.

ghost use Rattle.std.specs.Prelude.{◌≡◌, ◌≤◌, ◌<◌, ◌^◌, ◌⊎◌, List, ℕ, Ok, Some, false, length, map};
ghost use Rattle.std.specs.List.{AllByRecursion};
ghost use Rattle.ol_values.specs.Blocks.{ArchiveHead as HeadValue, SavedPage, archive_end, archive_page, header_kind, log_end, log_records, mark, trailer_kind};
ghost use Rattle.ol_values.specs.Blocks.{Block as BlockValue};
ghost use Rattle.ol_values.specs.Config.{Config};
ghost use Rattle.ol_values.specs.Image.{IsDataPage};
ghost use Rattle.ol_values.specs.LogPages.{LogPage};
ghost use Rattle.ol_chunks.specs.Reading.{config_in_text};
ghost use Rattle.ol_record.specs.LogPages.{IsLogPage};
ghost use Rattle.ol_object.specs.declared.block.Block.{Block as Head};
ghost use Rattle.ol_object.specs.Bytes.{block_bytes, bytes_of, padded_to, payload_bytes};
ghost use Rattle.ol_block_reading.specs.Grammar.{IsArchiveHead, IsBlock};
ghost use Rattle.ol_object_spans.specs.Scans.{IsItemIn};
ghost use Rattle.ol_block_values.specs.Items.{AreBytes, IsRead, IsWritten, item_in, lacks_page, payload_at, shelf_of, value_of};

/// The blocks of an archive and of a log object, and a mark, may be written where their numbers are within limits.
pub fn objects_may_be_written()
    ensures archive_end { (kind incarnation number index cut low level : ℕ) (head : HeadValue) (config : Config) → (kind ≡ header_kind) ⊎ (kind ≡ trailer_kind) → incarnation ≤ 2 ^ 62 → number ≤ 2 ^ 62 → index < 2 ^ 32
        → cut < 2 ^ 62 → low < 2 ^ 64 → level ≤ 2 → IsArchiveHead head → config_in_text head.text ≡ Ok config → IsWritten (archive_end kind incarnation number index cut low level head config) }
    ensures archive_page { (incarnation number index : ℕ) (p : SavedPage) → incarnation ≤ 2 ^ 62 → number ≤ 2 ^ 62 → index < 2 ^ 32 → p.space < 2 ^ 64 → p.page < 2 ^ 64 → IsDataPage p.image → IsWritten (archive_page incarnation number index p) }
    ensures log_end { (kind incarnation uniq index first last : ℕ) → (kind ≡ header_kind) ⊎ (kind ≡ trailer_kind) → incarnation ≤ 2 ^ 62 → uniq ≤ 2 ^ 62 → index < 2 ^ 32 → first < 2 ^ 62 → last < 2 ^ 62 → IsWritten (log_end kind incarnation uniq index first last) }
    ensures log_records { (index : ℕ) (p : LogPage) → index < 2 ^ 32 → IsLogPage p → IsWritten (log_records index p) }
    ensures mark { (incarnation end_ : ℕ) → incarnation ≤ 2 ^ 62 → end_ < 2 ^ 62 → IsWritten (mark incarnation end_) }
{}

/// A block that may be written is read back from its bytes, and so are all of some tapes.
pub fn written_blocks_are_items()
    ensures one { (b : BlockValue) → IsWritten b → item_in (bytes_of b) ≡ Some b }
    ensures tapes { (tapes : List (List (List BlockValue))) → AllByRecursion (AllByRecursion (AllByRecursion IsWritten)) tapes → shelf_of (map (map (map bytes_of)) tapes) ≡ map (map (map Some)) tapes }
{}

/// What is read from 2,144 bytes is the value of a block with these bytes, and each block is read. Unless it lacks the page that it
/// should hold, it may be written, these are its bytes, and its payload is that of the value. Whatever the bytes, it is what a scan of
/// objects asks of a block.
pub fn items_are_blocks()
    ensures read { (h : Head) (p : List ℕ) → IsBlock h p → item_in (block_bytes h p) ≡ Some (value_of h p) }
    ensures block { (bytes : List ℕ) → length bytes ≡ 2144 → AreBytes bytes → (b : BlockValue) → item_in bytes ≡ Some b → (h : Head) × (p : List ℕ) × IsBlock h p × (bytes ≡ block_bytes h p) × (b ≡ value_of h p) }
    ensures kept { (bytes : List ℕ) → length bytes ≡ 2144 → AreBytes bytes → (b : BlockValue) → item_in bytes ≡ Some b → IsRead b }
    ensures written { (bytes : List ℕ) → length bytes ≡ 2144 → AreBytes bytes → (b : BlockValue) → item_in bytes ≡ Some b → lacks_page b ≡ false → IsWritten b × (bytes ≡ bytes_of b) × (payload_at bytes ≡ padded_to 2048 (payload_bytes b.payload)) }
    ensures item { (bytes : List ℕ) → IsItemIn (item_in bytes) }
{}
