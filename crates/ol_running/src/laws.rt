//! That each turn keeps what running archives and captured images tell of the machine: each law is the contract of a function with
//! an empty body.

ghost use Rattle.std.specs.Prelude.{◌≡◌, ◌≤◌, ◌<◌, ◌+◌, ◌^◌, List, None, Option, Some, false, length, replicate, true, ℕ};
ghost use Rattle.ol_values.specs.declared.event.Reply.TheVariants.{AllTaken, Archived, BeforeFull, PageIs, PagesLeft};
ghost use Rattle.ol_values.specs.declared.event.Why.{Why};
ghost use Rattle.ol_values.specs.declared.record.Record.{Record};
ghost use Rattle.ol_values.specs.declared.record.Rid.{Rid as RidValue};
ghost use Rattle.ol_values.specs.Config.{Config, data_pages};
ghost use Rattle.ol_values.specs.Image.{page_bytes};
ghost use Rattle.ol_rules.specs.Journal.{touches};
ghost use Rattle.ol_rules.specs.Start.{start_page};
ghost use Rattle.ol_model.specs.ArchiveTurns.{cancel_at, end_at, given_up, start_at, take_at};
ghost use Rattle.ol_model.specs.Machine.{Archive, Machine, archive_of, config_of, formatted, last_of, page_upto, stamp_in};
ghost use Rattle.ol_model.specs.Steps.{append, change_row};
ghost use Rattle.ol_model.specs.Waiting.{pages_of};
ghost use Rattle.ol_before.specs.Images.{Captures, captured, image_of, is_in_space, is_of, no_captures, without};
ghost use Rattle.ol_cursor.specs.declared.cursor.Cursor.{Cursor as CursorValue};
ghost use Rattle.ol_cursor.specs.Following.{HasShortSpaces, IsOf};
ghost use Rattle.ol_cursor.specs.Order.{archives, precedes};
ghost use Rattle.ol_store.specs.Archives.{AreUp, IsFirstTaken, NoneLeft};
ghost use Rattle.ol_store.specs.Pages.{Pages};
ghost use Rattle.ol_running.specs.declared.running.Running.{Running as RunningValue};
ghost use Rattle.ol_running.specs.Running.{ChangesOnly, IsArchive, ShowsArchives, begun, broken_by, dropped_upto, is_of_archive, keeps_image, keeps_of, none_running, passed_on, running_of, with_running};
ghost use Rattle.ol_running.specs.Taking.{ShowsPages};

/// No archive runs on a newly formatted disk, and no image is held. So it is of any machine without archives, as an opening leaves
/// one.
pub fn none_run()
    ensures formatted { (c : Config) → HasShortSpaces c → ShowsArchives none_running (no_captures c.image_limit) (formatted c) }
    ensures none { (m : Machine) → m.archives ≡ replicate 4 None → HasShortSpaces (config_of m) → ((space page : ℕ) → (start_page m.work.start space page).stamp ≤ m.work.start.last) → ShowsArchives none_running (no_captures (config_of m).image_limit) m }
{}

/// A turn that leaves configuration, start, records and archives leaves what shows them: so do a checkpoint, a page that is cleaned,
/// a switch, the turns of the log backer and those of sessions that append no record. A record that touches no page leaves it, too.
pub fn archives_stay_shown()
    ensures beside { (l : List (Option RunningValue)) (b : Captures) (m n : Machine) → config_of n ≡ config_of m → n.work.start ≡ m.work.start → n.work.records ≡ m.work.records → n.archives ≡ m.archives → ShowsArchives l b m → ShowsArchives l b n }
    ensures appended { (l : List (Option RunningValue)) (b : Captures) (m : Machine) (r : Record) → ((space page : ℕ) → touches space page r ≡ false) → ShowsArchives l b m → ShowsArchives l b (append r m) }
{}

/// What an archiver holds is its running archive; where it holds none, the machine has none of it.
pub fn held_archives_are_the_machines()
    ensures some { (l : List (Option RunningValue)) (b : Captures) (m : Machine) (k : ℕ) (r : RunningValue) → 1 ≤ k → ShowsArchives l b m → running_of l k ≡ Some r → (a : Archive) × (archive_of m k ≡ Some a) × IsArchive r m a }
    ensures none { (l : List (Option RunningValue)) (b : Captures) (m : Machine) (k : ℕ) → 1 ≤ k → ShowsArchives l b m → running_of l k ≡ None → archive_of m k ≡ None }
{}

/// Where an archiver has an archive behind its start, a cursor of it that stands at the first place and counts all its pages shows
/// it. No page waits at its cut, so the images stay.
pub fn archives_start_shown()
    ensures { (l : List (Option RunningValue)) (b : Captures) (m : Machine) (k level : ℕ) (names : List (List ℕ)) (c : CursorValue) (a : Archive) → 1 ≤ k → k ≤ 4 → ShowsArchives l b m → archive_of m k ≡ None → archive_of (start_at m k level names (archive_of m k)).1 k ≡ Some a → IsOf c a → c.next ≡ (0, 0) → c.left ≡ length (pages_of m a) → c.left < 2 ^ 32 → ShowsArchives (with_running k (Some (begun c)) l) b (start_at m k level names (archive_of m k)).1 }
{}

/// The page that the store finds to be taken first, from the cursor on, is the one that the machine answers, and the bytes that it
/// gives are those of the page at the archive's cut. It passes, and its image is dropped, where one was held; the cursor may advance
/// there. Where the store finds none, or the cursor counts none, all are taken.
pub fn taken_pages_are_the_machines()
    ensures taken { (l : List (Option RunningValue)) (b : Captures) (m : Machine) (k : ℕ) (r : RunningValue) (v : Pages) (place : ℕ × ℕ) (bytes : List ℕ) → 1 ≤ k → k ≤ 4 → ShowsArchives l b m → running_of l k ≡ Some r → r.broken ≡ None → ShowsPages v m → AreUp r.cursor v → IsFirstTaken (config_of m) r.cursor b v place bytes → ((take_at m k (archive_of m k)).0 ≡ PageIs place.0 place.1) × ShowsArchives (with_running k (Some (passed_on r place.0 place.1)) l) (without (is_of place.0 place.1) b) (take_at m k (archive_of m k)).1 × (bytes ≡ page_bytes (page_upto m r.cursor.cut place.0 place.1)) }
    ensures may { (l : List (Option RunningValue)) (b : Captures) (m : Machine) (k : ℕ) (r : RunningValue) (v : Pages) (place : ℕ × ℕ) (bytes : List ℕ) → 1 ≤ k → ShowsArchives l b m → running_of l k ≡ Some r → r.broken ≡ None → ShowsPages v m → AreUp r.cursor v → IsFirstTaken (config_of m) r.cursor b v place bytes → (precedes place r.cursor.next ≡ false) × (0 < r.cursor.left) × (r.passed + r.cursor.left < 2 ^ 32) }
    ensures none { (l : List (Option RunningValue)) (b : Captures) (m : Machine) (k : ℕ) (r : RunningValue) (v : Pages) → 1 ≤ k → ShowsArchives l b m → running_of l k ≡ Some r → r.broken ≡ None → ShowsPages v m → AreUp r.cursor v → NoneLeft (config_of m) r.cursor b v → (take_at m k (archive_of m k) ≡ (AllTaken, m)) × (r.cursor.left ≡ 0) }
    ensures done { (l : List (Option RunningValue)) (b : Captures) (m : Machine) (k : ℕ) (r : RunningValue) → 1 ≤ k → ShowsArchives l b m → running_of l k ≡ Some r → r.broken ≡ None → r.cursor.left ≡ 0 → take_at m k (archive_of m k) ≡ (AllTaken, m) }
{}

/// An archive ends where no page is left, and else answers how many are; a broken one ends, or lets a page pass, with the entry that
/// broke it; one is given up. Behind each the archiver has none, and the images of the archive's spaces are dropped.
pub fn archives_end_shown()
    ensures ended { (l : List (Option RunningValue)) (b : Captures) (m : Machine) (k : ℕ) (r : RunningValue) → 1 ≤ k → k ≤ 4 → ShowsArchives l b m → running_of l k ≡ Some r → r.broken ≡ None → r.cursor.left ≡ 0 → ((end_at m k (archive_of m k)).0 ≡ Archived r.cursor.number r.cursor.cut r.passed) × ShowsArchives (with_running k None l) (without (is_of_archive r.cursor) b) (end_at m k (archive_of m k)).1 }
    ensures left { (l : List (Option RunningValue)) (b : Captures) (m : Machine) (k : ℕ) (r : RunningValue) → 1 ≤ k → ShowsArchives l b m → running_of l k ≡ Some r → r.broken ≡ None → 0 < r.cursor.left → end_at m k (archive_of m k) ≡ (PagesLeft r.cursor.left, m) }
    ensures broken { (l : List (Option RunningValue)) (b : Captures) (m : Machine) (k : ℕ) (r : RunningValue) (entry : ℕ) → 1 ≤ k → k ≤ 4 → ShowsArchives l b m → running_of l k ≡ Some r → r.broken ≡ Some entry → ((end_at m k (archive_of m k)).0 ≡ BeforeFull entry) × ShowsArchives (with_running k None l) (without (is_of_archive r.cursor) b) (end_at m k (archive_of m k)).1 }
    ensures broken_take { (l : List (Option RunningValue)) (b : Captures) (m : Machine) (k : ℕ) (r : RunningValue) (entry : ℕ) → 1 ≤ k → k ≤ 4 → ShowsArchives l b m → running_of l k ≡ Some r → r.broken ≡ Some entry → ((take_at m k (archive_of m k)).0 ≡ BeforeFull entry) × ShowsArchives (with_running k None l) (without (is_of_archive r.cursor) b) (take_at m k (archive_of m k)).1 }
    ensures cancelled { (l : List (Option RunningValue)) (b : Captures) (m : Machine) (k : ℕ) (r : RunningValue) (count : ℕ) (why : Why) → 1 ≤ k → k ≤ 4 → ShowsArchives l b m → running_of l k ≡ Some r → ((cancel_at count m k why (archive_of m k)).0 ≡ given_up k count r.cursor.number why) × ShowsArchives (with_running k None l) (without (is_of_archive r.cursor) b) (cancel_at count m k why (archive_of m k)).1 }
{}

/// The images of an archive's spaces are dropped space by space: of none at first, of each space of the archive, and past other
/// spaces, until all of 16 are.
pub fn images_are_dropped_by_space()
    ensures none { (c : CursorValue) (b : Captures) → dropped_upto c b 0 ≡ b }
    ensures next { (c : CursorValue) (b : Captures) (space : ℕ) → archives c space ≡ true → without (is_in_space space) (dropped_upto c b space) ≡ dropped_upto c b (space + 1) }
    ensures other { (c : CursorValue) (b : Captures) (space : ℕ) → archives c space ≡ false → dropped_upto c b space ≡ dropped_upto c b (space + 1) }
    ensures all { (c : CursorValue) (b : Captures) → length c.spaces ≡ 16 → dropped_upto c b 16 ≡ without (is_of_archive c) b }
{}

/// A change of a row: of the archives at most one wants the image of its page first (`alone`). Where none does, the images stay.
/// Where one does, and not as many images are held as may be, none of the page is held, and the page as it is now is captured. Where
/// as many are held, the change's entry breaks that archive, and the images of its spaces are dropped.
pub fn changes_keep_images()
    ensures kept { (l : List (Option RunningValue)) (b : Captures) (m : Machine) (n : ℕ) (x : Record) (rid : RidValue) → ShowsArchives l b m → ChangesOnly x rid → rid.page < data_pages (config_of m) rid.space → ((k : ℕ) → 1 ≤ k → keeps_of (running_of l k) rid.space rid.page (stamp_in m rid.space rid.page) ≡ false) → ShowsArchives l b (change_row n rid x m) }
    ensures captured { (l : List (Option RunningValue)) (b : Captures) (m : Machine) (n : ℕ) (x : Record) (rid : RidValue) (k : ℕ) (r : RunningValue) → 1 ≤ k → ShowsArchives l b m → ChangesOnly x rid → rid.page < data_pages (config_of m) rid.space → running_of l k ≡ Some r → keeps_image r rid.space rid.page (stamp_in m rid.space rid.page) ≡ true → length b.held < b.limit → ShowsArchives l (captured (record { space = rid.space; page = rid.page; bytes = page_bytes (page_upto m (last_of m) rid.space rid.page) }) b) (change_row n rid x m) }
    ensures none { (l : List (Option RunningValue)) (b : Captures) (m : Machine) (k : ℕ) (r : RunningValue) (space page : ℕ) → 1 ≤ k → ShowsArchives l b m → page < data_pages (config_of m) space → running_of l k ≡ Some r → keeps_image r space page (stamp_in m space page) ≡ true → image_of b.held space page ≡ None }
    ensures broken { (l : List (Option RunningValue)) (b : Captures) (m : Machine) (n : ℕ) (x : Record) (rid : RidValue) (k : ℕ) (r : RunningValue) → 1 ≤ k → k ≤ 4 → ShowsArchives l b m → ChangesOnly x rid → rid.page < data_pages (config_of m) rid.space → running_of l k ≡ Some r → keeps_image r rid.space rid.page (stamp_in m rid.space rid.page) ≡ true → b.limit ≤ length b.held → ShowsArchives (with_running k (Some (broken_by n r)) l) (without (is_of_archive r.cursor) b) (change_row n rid x m) }
    ensures alone { (l : List (Option RunningValue)) (b : Captures) (m : Machine) (j k space page : ℕ) → 1 ≤ j → 1 ≤ k → ShowsArchives l b m → page < data_pages (config_of m) space → keeps_of (running_of l j) space page (stamp_in m space page) ≡ true → keeps_of (running_of l k) space page (stamp_in m space page) ≡ true → j ≡ k }
{}
