//! What lines of scripts name, over the storage.

ghost use Rattle.std.specs.Prelude.{◌≡◌, ◌<◌, IfOk, Option, length, true};
ghost use Rattle.ol_values.specs.Config.{has_page, has_place, space_named as config_space_named};
ghost use Rattle.ol_model.specs.Machine.{Machine, Seat, config_of as machine_config};
ghost use Rattle.ol_model.specs.SessionTurns.{target_of};
ghost use Rattle.ol_storage.specs.Behind.{is_up};
ghost use Rattle.ol_storage.specs.Installation.{config_of};
ghost use Rattle.ol_engine.specs.Parts.{ShowsStorage};
ghost use Rattle.ol_targets.specs.Naming.{IsTarget, held_place, page_of, space_of, target_among};

use crate::places::{up_named_place, up_page, up_place, up_space};
use ol_chunks::ChunkTable;
use ol_ports::Disk;
use ol_reserve::Anchor;
use ol_storage::Storage;
use ol_values::{Label, Reply, Rid, Target};

/// The space that an insert names. The table is the storage's.
///
/// Refusals: `NoSpace` exactly where no space has the name, `SpaceDown` exactly where the one that has it is down.
pub fn find_space<D: Disk>(
    storage: &Storage<D>,
    table: &ChunkTable,
    name: &Label,
) -> Result<u8, Reply>
    requires table { table.now ≡ config_of storage.now.now }
    ensures value { (m : Machine) → ShowsStorage storage.now.now m → result ≡ space_of m (config_space_named (machine_config m) name.now) }
    ensures there { IfOk result (λ space. (space < length (config_of storage.now.now).spaces) × (is_up storage.now.now.anchor space ≡ true)) }
{
    up_space(table, storage.anchor(), name)
}

/// The space and the page that a list names, the page by its number from 0. The table is the storage's.
///
/// Refusals, in this order: `NoSpace` exactly where no space has the name, `BadRid` exactly where the space has no such data page,
/// `SpaceDown` exactly where the space is down.
pub fn find_page<D: Disk>(
    storage: &Storage<D>,
    table: &ChunkTable,
    name: &Label,
    page: u32,
) -> Result<(u8, u16), Reply>
    requires table { table.now ≡ config_of storage.now.now }
    ensures value { (m : Machine) → ShowsStorage storage.now.now m → result ≡ page_of m page (config_space_named (machine_config m) name.now) }
    ensures there { IfOk result (λ p. (has_page (config_of storage.now.now) p.0 p.1 ≡ true) × (is_up storage.now.now.anchor p.0 ≡ true)) }
    ensures page { IfOk result (λ p. p.1 ≡ page) }
{
    up_page(table, storage.anchor(), name, page)
}

/// The place of the row that a target names. The table is the storage's, and the registers are those of the session that asks; a target
/// names one of them by its number, from 0 to 9.
///
/// Refusals, in this order: `Unbound` exactly where the target is a register that holds no place; `NoSpace` exactly where it names a space
/// and none has the name; `BadRid` exactly where the page is not in the space, or the slot is above 30; `SpaceDown` exactly where the
/// space is down.
pub fn find_target<D: Disk>(
    storage: &Storage<D>,
    table: &ChunkTable,
    registers: &[Option<Rid>; 10],
    target: &Target,
) -> Result<Rid, Reply>
    requires table { table.now ≡ config_of storage.now.now }
    requires register { IsTarget target.now }
    ensures value { (m : Machine) (s : Seat) → ShowsStorage storage.now.now m → s.registers ≡ registers.now → result ≡ target_of m s target.now }
    ensures there { IfOk result (λ rid. (has_place (config_of storage.now.now) rid ≡ true) × (is_up storage.now.now.anchor rid.space ≡ true)) }
{
    up_target(table, storage.anchor(), registers, target)
}

// The place that a target names, by a table of chunks and an anchor.
fn up_target(
    table: &ChunkTable,
    anchor: &Anchor,
    registers: &[Option<Rid>; 10],
    target: &Target,
) -> Result<Rid, Reply>
    requires register { IsTarget target.now }
    ensures { result ≡ target_among table.now (is_up anchor.now) registers.now target.now }
{
    match target {
        Target::Reg(register) => { up_held_place(table, anchor, registers[usize::from(*register)]) }
        Target::At { space, page, slot } => up_named_place(table, anchor, space, *page, *slot),
    }
}

// The place that a register holds: `Unbound` exactly where it holds none, and then as `up_place`.
fn up_held_place(table: &ChunkTable, anchor: &Anchor, held: Option<Rid>) -> Result<Rid, Reply>
    ensures { result ≡ held_place table.now (is_up anchor.now) held }
{
    match held {
        Some(rid) => up_place(
            table,
            anchor,
            rid.space,
            u32::from(rid.page),
            u32::from(rid.slot),
        ),
        None => Err(Reply::Unbound),
    }
}
