//! What holds of blocks and archive heads, whoever wrote them.

ghost use Rattle.std.specs.Prelude.{◌≡◌, ◌≤◌, List, ℕ, length};
ghost use Rattle.ol_values.specs.Blocks.{ArchiveHead as HeadValue};
ghost use Rattle.ol_object.specs.declared.block.Block.{Block as BlockHead};
ghost use Rattle.ol_object.specs.Bytes.{archive_head_bytes, block_bytes};
ghost use Rattle.ol_block_reading.specs.Grammar.{IsArchiveHead, IsBlock};

/// The bytes of a block stand for it alone, so that what an encoder wrote is read as that block.
pub fn written_blocks_are_read()
    ensures { (h : BlockHead) (p : List ℕ) → IsBlock h p → (k : BlockHead) (q : List ℕ) → IsBlock k q → block_bytes h p ≡ block_bytes k q → (h ≡ k) × (p ≡ q) }
{}

/// The bytes of an archive head stand for it alone, so that what an encoder wrote is read as that head. They fit a payload.
pub fn written_heads_are_read()
    ensures one { (h : HeadValue) → IsArchiveHead h → (k : HeadValue) → IsArchiveHead k → archive_head_bytes h ≡ archive_head_bytes k → h ≡ k }
    ensures limit { (h : HeadValue) → IsArchiveHead h → length (archive_head_bytes h) ≤ 1299 }
{}
