//! Why a record was not taken.

use crate::NoMemory;
use std::alloc::AllocFailed;

/// Why a record was not taken.
#[derive(Clone, Copy, Debug, PartialEq, Eq)]
pub enum RollFault {
    /// The record at this position is out of place.
    OutOfPlace { position: u64 },
    /// Memory was refused.
    NoMemory,
}

impl From<NoMemory> for RollFault {
    ghost use Rattle.std.specs.Prelude.{◌≡◌};
    ghost use Rattle.ol_rollfwd.specs.declared.fault.RollFault.{RollFault};

    ghost from_gives = { λ _ e. e ≡ RollFault.NoMemory };

    fn from(_: NoMemory) -> RollFault {
        RollFault::NoMemory
    }
}
