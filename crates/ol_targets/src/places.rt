//! Places that are there, of spaces that are up, by a table of chunks and an anchor.

ghost use Rattle.std.specs.Bool.{OnTrue};
ghost use Rattle.std.specs.Prelude.{◌≡◌, ◌≤◌, ◌<◌};
ghost use Rattle.ol_values.specs.Config.{has_page, space_named as config_space_named};
ghost use Rattle.ol_values.specs.Pages.{rid_of};
ghost use Rattle.ol_storage.specs.Behind.{is_up as anchor_is_up};
ghost use Rattle.ol_targets.specs.Naming.{named_place, page_among, place_among, space_among};

use crate::names::space_named;
use ol_chunks::ChunkTable;
use ol_reserve::Anchor;
use ol_values::{Label, Reply, Rid};

// The state of a space that is up.
const UP: u8 = 1;

// How many slots a page has.
const SLOTS: u32 = 31;

// Whether an anchor has a space as up.
fn is_up(anchor: &Anchor, space: u8) -> bool
    requires { space < 16 }
    ensures { result ≡ anchor_is_up anchor.now space }
{
    anchor.states[usize::from(space)] == UP
}

// Whether there is this data page.
fn is_page(table: &ChunkTable, space: u8, page: u32) -> bool
    ensures value { result ≡ has_page table.now space page }
    ensures small { OnTrue result ((space < 16) × (page ≤ 65535)) }
{
    space < table.spaces() && page < table.pages(space)
}

/// The space of a name: `NoSpace` exactly where none has it, `SpaceDown` exactly where it is down.
pub fn up_space(table: &ChunkTable, anchor: &Anchor, name: &Label) -> Result<u8, Reply>
    ensures { result ≡ space_among (anchor_is_up anchor.now) (config_space_named table.now name.now) }
{
    let Some(space) = space_named(table, name) else {
        return Err(Reply::NoSpace);
    };
    if !is_up(anchor, space) {
        return Err(Reply::SpaceDown { space });
    }
    Ok(space)
}

/// The page of the space of a name: `NoSpace`, `BadRid` where the page is not in the space, `SpaceDown`, in this order.
pub fn up_page(
    table: &ChunkTable,
    anchor: &Anchor,
    name: &Label,
    page: u32,
) -> Result<(u8, u16), Reply>
    ensures { result ≡ page_among table.now (anchor_is_up anchor.now) page (config_space_named table.now name.now) }
{
    let Some(space) = space_named(table, name) else {
        return Err(Reply::NoSpace);
    };
    if !is_page(table, space, page) {
        return Err(Reply::BadRid);
    }
    if !is_up(anchor, space) {
        return Err(Reply::SpaceDown { space });
    }
    Ok((space, page as u16))
}

/// The place of these numbers: `BadRid` where the page is not in the space, or the slot is above 30, and then `SpaceDown`.
pub fn up_place(
    table: &ChunkTable,
    anchor: &Anchor,
    space: u8,
    page: u32,
    slot: u32,
) -> Result<Rid, Reply>
    ensures { result ≡ place_among table.now (anchor_is_up anchor.now) (rid_of space page slot) }
{
    if !is_page(table, space, page) {
        return Err(Reply::BadRid);
    }
    if slot >= SLOTS {
        return Err(Reply::BadRid);
    }
    if !is_up(anchor, space) {
        return Err(Reply::SpaceDown { space });
    }
    Ok(Rid {
        space,
        page: page as u16,
        slot: slot as u8,
    })
}

/// The place of the space of a name: `NoSpace` exactly where none has it, and then as `up_place`.
pub fn up_named_place(
    table: &ChunkTable,
    anchor: &Anchor,
    name: &Label,
    page: u32,
    slot: u32,
) -> Result<Rid, Reply>
    ensures { result ≡ named_place table.now (anchor_is_up anchor.now) page slot (config_space_named table.now name.now) }
{
    match space_named(table, name) {
        Some(space) => up_place(table, anchor, space, page, slot),
        None => Err(Reply::NoSpace),
    }
}
