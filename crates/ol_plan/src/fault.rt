//! Why there is no plan.

use crate::NoMemory;
use std::alloc::AllocFailed;

/// Why there is no plan of a restore.
#[derive(Clone, Copy, Debug, PartialEq, Eq)]
pub enum PlanFault {
    /// No archive that counts has this level of a space and this number, which the archive one level up names as its
    /// parent. With level 0 and number 0: none holds the space up to the end. A level above 255 is told as 255.
    MissingLevel { space: u8, level: u8, archive: u64 },
    /// No log object counts for this position, the first that is needed and has none.
    MissingLog { position: u64 },
    /// This block is damaged, the first by place of those that the plan takes.
    DamagedVolume { drive: u8, volume: u32, block: u32 },
    /// Memory was refused.
    NoMemory,
}

impl From<NoMemory> for PlanFault {
    ghost use Rattle.std.specs.Prelude.{◌≡◌};
    ghost use Rattle.ol_plan.specs.declared.fault.PlanFault.{PlanFault};

    ghost from_gives = { λ _ e. e ≡ PlanFault.NoMemory };

    fn from(_: NoMemory) -> PlanFault {
        PlanFault::NoMemory
    }
}

impl<T: Drop> From<AllocFailed<T>> for PlanFault {
    ghost use Rattle.std.specs.Prelude.{◌≡◌};
    ghost use Rattle.ol_plan.specs.declared.fault.PlanFault.{PlanFault};

    ghost from_gives = { λ _ e. e ≡ PlanFault.NoMemory };

    fn from(_: AllocFailed<T>) -> PlanFault {
        PlanFault::NoMemory
    }
}
