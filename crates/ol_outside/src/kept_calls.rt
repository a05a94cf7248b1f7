//! The calls that a disk in memory keeps, to make what a stop within one of them may leave.

ghost use Rattle.std.specs.Prelude.{◌≡◌, ◌<◌, ◌≤◌, ◌+◌, ◌-◌, ◌^◌, ◌∷◌, List, ℕ, OnOk, OnErr, length};
ghost use Rattle.ol_ports.specs.Disk.{Wrote, Synced};
ghost use Rattle.ol_outside.specs.KeptCalls.{calls_of, call_of, PassesOver};

use crate::NoMemory;
use std::alloc::Global;

/// A call that has changed something.
#[derive(Debug, Drop)]
pub(crate) enum Order {
    Write {
        chunk: u8,
        page: u32,
        offset: u16,
        bytes: Vec<u8>,
    },
    Sync {
        chunk: u8,
    },
}

/// Such a call, after some that left nothing.
#[derive(Debug, Drop)]
pub(crate) struct Kept {
    pub(crate) passed: u64,
    pub(crate) order: Order,
}

/// Keeps a call, after the number of those that left nothing since the last.
pub(crate) fn keep(kept: &mut Vec<Kept>, passed: &mut u64, order: Order) -> Result<(), NoMemory>
    ensures ok { OnOk result (calls_of kept.new.items passed.new ≡ call_of order ∷ calls_of kept.old.items passed.old) }
    ensures err { OnErr result (calls_of kept.new.items passed.new ≡ calls_of kept.old.items passed.old) }
    ensures same { OnErr result (kept.new.items ≡ kept.old.items) }
{
    let before = *passed;
    match kept.push(Kept {
        passed: before,
        order,
    }) {
        Ok(()) => {
            *passed = 0;
            Ok(())
        }
        Err(refused) => Err(refused.into()),
    }
}

/// Keeps a write.
pub(crate) fn keep_write(
    alloc: Global,
    kept: &mut Vec<Kept>,
    passed: &mut u64,
    chunk: u8,
    page: u32,
    offset: u16,
    bytes: &[u8],
) -> Result<(), NoMemory>
    ensures ok { OnOk result (calls_of kept.new.items passed.new ≡ Wrote chunk page offset bytes.now ∷ calls_of kept.old.items passed.old) }
    ensures err { OnErr result (calls_of kept.new.items passed.new ≡ calls_of kept.old.items passed.old) }
{
    match Vec::from_slice(alloc, bytes) {
        Ok(bytes) => keep(
            kept,
            passed,
            Order::Write {
                chunk,
                page,
                offset,
                bytes,
            },
        ),
        Err(refused) => Err(refused),
    }
}
