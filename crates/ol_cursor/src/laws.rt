//! That a cursor tells of a running archive of the machine: each law is the contract of a function with an empty body.

ghost use Rattle.std.specs.Prelude.{◌≡◌, ◌<◌, ◌≤◌, ◌+◌, ◌&&◌, ◌∷◌, List, None, Some, false, length, nat_lt, not, true, ℕ};
ghost use Rattle.ol_values.specs.declared.record.Record.{Record};
ghost use Rattle.ol_values.specs.Config.{data_pages};
ghost use Rattle.ol_model.specs.ArchiveTurns.{saved_of, take_at};
ghost use Rattle.ol_model.specs.Machine.{Archive, Machine, config_of, last_of, stamp_in, stamp_upto};
ghost use Rattle.ol_model.specs.Steps.{append, is_page_in, wants_image};
ghost use Rattle.ol_model.specs.Waiting.{left_of, pages_of};
ghost use Rattle.ol_cursor.specs.declared.cursor.Cursor.{Cursor as CursorValue};
ghost use Rattle.ol_cursor.specs.Following.{CutsBehind, Follows, HasShortSpaces, IsOf, SpacesFrom};
ghost use Rattle.ol_cursor.specs.Order.{AscendFrom, advanced, is_wanted, precedes};

/// The pages of an archive ascend strictly by place, where its spaces ascend and no space has more pages than there are page
/// numbers. The spaces of an archive that starts ascend.
pub fn archive_pages_ascend()
    ensures pages { (m : Machine) (a : Archive) → HasShortSpaces (config_of m) → SpacesFrom 0 a.spaces → AscendFrom (0, 0) (pages_of m a) }
    ensures started { (m : Machine) (level : ℕ) (spaces : List ℕ) → SpacesFrom 0 (saved_of m level spaces) }
{}

/// A cursor follows its archive as that starts, where it stands at the first place and counts all pages. Where the first page
/// that is left passes, the cursor may advance there and then follows the archive with one page more that passed, also in the
/// machine that the turn leaves. It goes on to follow where configuration, start and records stay, and behind a record that comes
/// after the cut. Of the archive's pages those have passed that are not left.
pub fn cursor_follows_its_archive()
    ensures started { (c : CursorValue) (m : Machine) (a : Archive) → HasShortSpaces (config_of m) → SpacesFrom 0 a.spaces → IsOf c a → a.passed ≡ 0 → c.next ≡ (0, 0) → c.left ≡ length (pages_of m a) → Follows c m a }
    ensures may { (c : CursorValue) (m : Machine) (a : Archive) (p : ℕ × ℕ) (rest : List (ℕ × ℕ)) → Follows c m a → left_of m a ≡ p ∷ rest → (precedes p c.next ≡ false) × (0 < c.left) }
    ensures advance { (c : CursorValue) (m : Machine) (a : Archive) (p : ℕ × ℕ) (rest : List (ℕ × ℕ)) → Follows c m a → left_of m a ≡ p ∷ rest → Follows (advanced c p.0 p.1) m (record a { passed = a.passed + 1 }) }
    ensures turn { (c : CursorValue) (m : Machine) (k : ℕ) (a : Archive) (p : ℕ × ℕ) (rest : List (ℕ × ℕ)) → a.broken ≡ None → Follows c m a → left_of m a ≡ p ∷ rest → Follows (advanced c p.0 p.1) (take_at m k (Some a)).1 (record a { passed = a.passed + 1 }) }
    ensures elsewhere { (c : CursorValue) (m n : Machine) (a : Archive) → config_of n ≡ config_of m → n.work.start ≡ m.work.start → n.work.records ≡ m.work.records → Follows c m a → Follows c n a }
    ensures append { (c : CursorValue) (r : Record) (m : Machine) (a : Archive) → a.cut ≤ last_of m → Follows c m a → Follows c (append r m) a }
    ensures passed { (c : CursorValue) (m : Machine) (a : Archive) (q : ℕ × ℕ) → Follows c m a → is_page_in q (pages_of m a) ≡ true → precedes q c.next ≡ not (is_page_in q (left_of m a)) }
{}

/// By its stamp as at the cut, which is never above it, a cursor wants a data page exactly where the archive has it, and wants
/// one that has not passed exactly where it is left. By its stamp now, a cursor wants a data page that has not passed exactly
/// where a change of the page first keeps its image for the archive.
pub fn cursor_wants_pages_of_its_archive()
    ensures stamp { (m : Machine) (a : Archive) (space page : ℕ) → CutsBehind m a → stamp_upto m a.cut space page ≤ a.cut }
    ensures pages { (c : CursorValue) (m : Machine) (a : Archive) (space page : ℕ) → IsOf c a → CutsBehind m a → (nat_lt page (data_pages (config_of m) space) && is_wanted c space (stamp_upto m a.cut space page)) ≡ is_page_in (space, page) (pages_of m a) }
    ensures left { (c : CursorValue) (m : Machine) (a : Archive) (space page : ℕ) → Follows c m a → CutsBehind m a → (nat_lt page (data_pages (config_of m) space) && (is_wanted c space (stamp_upto m a.cut space page) && not (precedes (space, page) c.next))) ≡ is_page_in (space, page) (left_of m a) }
    ensures now { (c : CursorValue) (m : Machine) (a : Archive) (space page : ℕ) → Follows c m a → CutsBehind m a → a.broken ≡ None → page < data_pages (config_of m) space → (is_wanted c space (stamp_in m space page) && not (precedes (space, page) c.next)) ≡ wants_image m (space, page) a }
{}
