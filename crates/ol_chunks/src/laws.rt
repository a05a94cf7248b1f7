//! What holds of texts and places, whoever reads or asks for them.

ghost use Rattle.std.specs.Prelude.{◌≡◌, ◌≤◌, ◌<◌, ◌↔◌, IsSome, Ok, Some, List, false, true, ℕ, length};
ghost use Rattle.ol_values.specs.Config.{Config, config_text, data_pages};
ghost use Rattle.ol_chunks.specs.Limits.{IsConfig, chunk_count};
ghost use Rattle.ol_chunks.specs.Places.{Part, chunk_pages, space_holding, in_spaces, is_in, lies_in, log_area, physical_area, place_in_chunks};
ghost use Rattle.ol_chunks.specs.Places.Part.{Data, Images};
ghost use Rattle.ol_chunks.specs.Reading.{config_in_text};

/// The text of a configuration gives that configuration, and has 488 bytes at most.
pub fn text_is_read()
    ensures read { (c : Config) → IsConfig c → config_in_text (config_text c) ≡ Ok c }
    ensures limit { (c : Config) → IsConfig c → length (config_text c) ≤ 488 }
{}

/// A text that gives a configuration is the text of that configuration, which is within all limits.
pub fn read_is_text()
    ensures { (text : List ℕ) (c : Config) → config_in_text text ≡ Ok c → IsConfig c × (text ≡ config_text c) × (length text ≤ 1024) }
{}

/// Each data page has a place of its own, and no other page has one: two data pages with one place are
/// one page. No place lies among the reserved pages, in the physical log or in a log file.
pub fn places_are_apart()
    ensures there { (c : Config) (space page : ℕ) → IsSome (place_in_chunks c space page) ↔ (page < data_pages c space) }
    ensures one { (c : Config) (space page other_space other : ℕ) (place : ℕ × ℕ) → place_in_chunks c space page ≡ Some place → place_in_chunks c other_space other ≡ Some place
        → (space ≡ other_space) × (page ≡ other) }
    ensures reserved { (c : Config) → IsConfig c → (space page : ℕ) (place : ℕ × ℕ) → place_in_chunks c space page ≡ Some place → place.0 ≡ 0 → 12 ≤ place.1 }
    ensures physical { (c : Config) → IsConfig c → (space page : ℕ) (place : ℕ × ℕ) → place_in_chunks c space page ≡ Some place → lies_in (physical_area c) place.0 place.1 ≡ false }
    ensures logs { (c : Config) → IsConfig c → (space page : ℕ) (place : ℕ × ℕ) → place_in_chunks c space page ≡ Some place → lies_in (log_area c) place.0 place.1 ≡ false }
{}

/// No page of the disk is in two of its parts. Each part lies inside the chunks of spaces, but for the captured
/// images, which lie inside the temporary chunk.
pub fn parts_are_apart()
    ensures apart { (c : Config) → IsConfig c → (one other : Part) → (one ≡ other → ⊥) → (chunk page : ℕ) → is_in c one chunk page ≡ true → is_in c other chunk page ≡ false }
    ensures inside { (c : Config) → IsConfig c → (part : Part) → (part ≡ Images → ⊥) → (chunk page : ℕ) → is_in c part chunk page ≡ true → in_spaces c chunk page ≡ true }
    ensures images { (c : Config) → IsConfig c → (chunk page : ℕ) → is_in c Images chunk page ≡ true → (chunk ≡ chunk_count c.spaces) × (page < chunk_pages c chunk) }
{}

/// The places of data pages are the pages of the data part, each of which is the place of one.
pub fn data_pages_have_places()
    ensures place { (c : Config) → IsConfig c → (space page : ℕ) (place : ℕ × ℕ) → place_in_chunks c space page ≡ Some place → is_in c Data place.0 place.1 ≡ true }
    ensures page { (c : Config) → IsConfig c → (chunk page : ℕ) → is_in c Data chunk page ≡ true → (space : ℕ) × (of_space : ℕ) × (space < length c.spaces) × (place_in_chunks c space of_space ≡ Some (chunk, page)) }
{}

/// The chunk of a data page is one of its space, and the chunks of the physical log and of the log files
/// are the first ones of their spaces.
pub fn chunks_are_of_their_spaces()
    ensures place { (c : Config) (space page : ℕ) (place : ℕ × ℕ) → place_in_chunks c space page ≡ Some place → space_holding c place.0 ≡ Some space }
    ensures physical { (c : Config) → IsConfig c → space_holding c (physical_area c).chunk ≡ Some c.physical_space }
    ensures logs { (c : Config) → IsConfig c → space_holding c (log_area c).chunk ≡ Some c.log_space }
{}
