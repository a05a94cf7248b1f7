//! Slots of pages in memory.

ghost use Rattle.std.specs.Prelude.{◌≡◌, ◌<◌, ◌^◌, IfOk, IfSome, None, OnOk, Option, Some, is_some, length, true, ℕ, ◌≤◌};
ghost use Rattle.ol_values.specs.declared.record.Rid.{Rid as RidValue};
ghost use Rattle.ol_values.specs.Config.{Config, has_place};
ghost use Rattle.ol_values.specs.Image.{IsPage, page_bytes, with_slot};
ghost use Rattle.ol_values.specs.Pages.{Page};
ghost use Rattle.ol_pool.specs.Frames.{HasPlace, frame_of, with_frame};
ghost use Rattle.ol_rollfwd.specs.Feeding.{KeepsFrames, Shows, held_at};

use crate::NoMemory;
use ol_page::{set_slot, slot};
use ol_pool::Pool;
use ol_values::{Rid, Row};

/// Puts a page that was never changed into memory, where the page is not there.
pub fn load(pages: &mut Pool, space: u8, page: u16) -> Result<(), NoMemory>
    requires { HasPlace pages.old space page }
    ensures frames { KeepsFrames pages.old pages.new }
    ensures shows { (c : Config) (v : ℕ → ℕ → Page) → Shows c pages.old v → Shows c pages.new v }
    ensures there { OnOk result (is_some (frame_of pages.new space page) ≡ true) }
{
    if pages.has(space, page) {
        return Ok(());
    }
    pages.put(space, page, &[0; 2048])
}

/// What a place holds; nothing, where it is none. The place's page is in memory then.
pub fn slot_in(pages: &mut Pool, place: Option<Rid>) -> Result<Option<Row>, NoMemory>
    requires there { IfSome place (λ rid. HasPlace pages.old rid.space rid.page × (rid.slot < 31)) }
    ensures frames { KeepsFrames pages.old pages.new }
    ensures shows { (c : Config) (v : ℕ → ℕ → Page) → Shows c pages.old v → Shows c pages.new v }
    ensures held { (c : Config) (v : ℕ → ℕ → Page) → Shows c pages.old v → IfSome place (λ rid. has_place c rid ≡ true) → IfOk result (λ held. held ≡ held_at v place) }
    ensures loaded { IfSome place (λ rid. OnOk result (is_some (frame_of pages.new rid.space rid.page) ≡ true)) }
{
    let Some(rid) = place else {
        return Ok(None);
    };
    load(pages, rid.space, rid.page)?;
    Ok(held_in(pages, rid))
}

/// What a place of a page in memory holds.
fn held_in(pages: &Pool, rid: Rid) -> Option<Row>
    requires slot { rid.slot < 31 }
    requires there { is_some (frame_of pages.now rid.space rid.page) ≡ true }
    ensures { (c : Config) (v : ℕ → ℕ → Page) → Shows c pages.now v → has_place c rid ≡ true → result ≡ held_at v (Some rid) }
{
    let image = pages.get(rid.space, rid.page).unwrap();
    slot(image, rid.slot)
}

/// Leaves a row, or nothing, at a place of a page in memory, and a stamp on the page.
pub fn put_row(pages: &mut Pool, rid: Rid, row: Option<Row>, stamp: u64)
    requires slot { rid.slot < 31 }
    requires there { is_some (frame_of pages.old rid.space rid.page) ≡ true }
    ensures frames { KeepsFrames pages.old pages.new }
    ensures value { (p : Page) → IsPage p → frame_of pages.old rid.space rid.page ≡ Some (page_bytes p) → pages.new ≡ with_frame pages.old rid.space rid.page (page_bytes (with_slot p rid.slot row stamp)) }
    ensures fits { IfSome row (λ r. length r ≤ 63) }
{
    if let Some(image) = pages.fix(rid.space, rid.page) {
        set_slot(image, rid.slot, row, stamp);
    }
}
