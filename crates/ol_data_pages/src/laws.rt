//! What holds of data pages and their places, whoever reads or writes them.

ghost use Rattle.std.specs.Prelude.{◌≡◌, ◌<◌, Bool, false, true, ℕ};
ghost use Rattle.ol_values.specs.Config.{Config, has_page};
ghost use Rattle.ol_values.specs.Image.{page_bytes};
ghost use Rattle.ol_values.specs.Pages.{Page};
ghost use Rattle.ol_chunks.specs.Limits.{IsConfig, chunk_count};
ghost use Rattle.ol_chunks.specs.Places.{Part, chunk_pages, is_in, physical_area};
ghost use Rattle.ol_chunks.specs.Places.Part.{Data};
ghost use Rattle.ol_ports.specs.Disk.{Bytes};
ghost use Rattle.ol_ports.specs.Frames.{SameBut};
ghost use Rattle.ol_physlog.specs.Places.{AreApart};
ghost use Rattle.ol_physlog.specs.States.{HoldsEntries, IsLog, Log as LogValue};
ghost use Rattle.ol_data_pages.specs.Overlays.{images_of, is_settled, overlaid};
ghost use Rattle.ol_data_pages.specs.Places.{is_place, standing_bytes, place_of};

use ol_physlog::stops_are_read;

/// Where a disk holds the entries of a log, with the images of kept pages, a page is overlaid as it was kept. If none of its
/// entries is settled, that is so where its place still has it.
pub fn pages_are_overlaid()
    ensures { (c : Config) (s : LogValue) (kept : ℕ → ℕ → Page) (d : Bytes) (space page : ℕ) → IsLog s → s.area ≡ physical_area c → HoldsEntries c s (images_of kept s.places) d
        → (is_settled s space page ≡ false → standing_bytes c d space page ≡ page_bytes (kept space page)) → overlaid c s.generation d space page ≡ page_bytes (kept space page) }
{
    // What counts was added.
    stops_are_read();
}

/// Data pages lie in the data part of the disk alone, each at a place of its own: calls on other parts leave them, and a write
/// of one leaves the others and all other parts.
pub fn places_are_of_the_data_alone()
    ensures others { (c : Config) → IsConfig c → (is_part : ℕ → ℕ → ℕ → Bool) (e d : Bytes) → ((chunk at i : ℕ) → is_in c Data chunk at ≡ true → is_part chunk at i ≡ false) → SameBut is_part e d
        → (space page : ℕ) → has_page c space page ≡ true → standing_bytes c d space page ≡ standing_bytes c e space page }
    ensures other_page { (c : Config) → IsConfig c → (e d : Bytes) (space page other_space other : ℕ) → has_page c space page ≡ true → has_page c other_space other ≡ true
        → ((space ≡ other_space) × (page ≡ other) → ⊥) → SameBut (λ chunk at i. is_place c space page chunk at) e d → standing_bytes c d other_space other ≡ standing_bytes c e other_space other }
    ensures inside { (c : Config) → IsConfig c → (space page chunk at : ℕ) → has_page c space page ≡ true → is_place c space page chunk at ≡ true → is_in c Data chunk at ≡ true }
    ensures there { (c : Config) → IsConfig c → (space page : ℕ) → has_page c space page ≡ true → ((place_of c space page).0 < chunk_count c.spaces) × ((place_of c space page).1 < chunk_pages c (place_of c space page).0) }
    ensures apart { (c : Config) → IsConfig c → (part : Part) → (part ≡ Data → ⊥) → (space page chunk at : ℕ) → has_page c space page ≡ true → is_in c part chunk at ≡ true → is_place c space page chunk at ≡ false }
    // So a write of a data page leaves the entries of the physical log, as `other_parts_leave_entries` of `ol_physlog` says.
    ensures entries { (c : Config) → IsConfig c → (space page : ℕ) → has_page c space page ≡ true → AreApart (physical_area c) (λ chunk at i. is_place c space page chunk at) }
{}
