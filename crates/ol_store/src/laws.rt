//! What holds of a store's disk, whoever calls.

ghost use Rattle.std.specs.Prelude.{◌≡◌, ◌<◌, ◌^◌, [], Bool, ℕ};
ghost use Rattle.ol_ports.specs.Disk.{Bytes, Past, Rest, seen};
ghost use Rattle.ol_ports.specs.Frames.{FramedAt, SameBut};
ghost use Rattle.ol_data_pages.specs.Places.{HasNoMark};
ghost use Rattle.ol_store.specs.Holding.{HoldsPages, IsApart, IsOnDisk};
ghost use Rattle.ol_store.specs.Pages.{Pages, checkpointed};
ghost use Rattle.ol_store.specs.Stores.{IsStore, Store as StoreValue};

/// Between two calls, whatever a stop leaves has all pages as at the last checkpoint, overlaid with their counting entries; and so
/// has what a stop leaves within calls on other parts of the disk.
pub fn stored_pages_are_held()
    ensures rest { (past : Past) (s : StoreValue) (v : Pages) → IsStore s → IsOnDisk past s v → (d : Bytes) → Rest past d → HoldsPages s.config s.log.generation v d }
    ensures framed { (past : Past) (s : StoreValue) (v : Pages) (is_part : ℕ → ℕ → ℕ → Bool) → IsStore s → IsApart s.config is_part → IsOnDisk past s v → (d : Bytes) → FramedAt past is_part d → HoldsPages s.config s.log.generation v d }
{}

/// Where no page is dirty and all that was written is synced, whatever a stop leaves has for a later generation all pages as they
/// are now. So an anchor of that generation may be written: a stop within has the old checkpoint, or this one.
pub fn checkpointed_pages_are_held()
    ensures { (past : Past) (s : StoreValue) (v : Pages) (generation : ℕ) (is_part : ℕ → ℕ → ℕ → Bool) → IsStore s → IsApart s.config is_part → IsOnDisk past s v → s.pool.dirty ≡ [] → HasNoMark s.written
        → s.log.generation < generation → generation < 2 ^ 64 → (d : Bytes) → FramedAt past is_part d → HoldsPages s.config generation (checkpointed v) d }
{}

/// Calls on parts of the disk that are apart from the store's leave its pages, where they leave what is read of these, too.
pub fn other_parts_leave_pages()
    ensures { (old new : Past) (s : StoreValue) (v : Pages) (is_part : ℕ → ℕ → ℕ → Bool) → IsStore s → IsApart s.config is_part → ((d : Bytes) → Rest new d → FramedAt old is_part d)
        → SameBut is_part (seen old) (seen new) → IsOnDisk old s v → IsOnDisk new s v }
{}
