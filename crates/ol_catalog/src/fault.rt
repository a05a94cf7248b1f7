//! Why a catalog was not read.

ghost use Rattle.std.specs.Prelude.{◌≡◌};

use ol_object_spans::Place;
use ol_shelf_reader::ShelfFault;
use std::alloc::AllocError;

/// Why a catalog was not read.
#[derive(Clone, Copy, Debug, PartialEq, Eq)]
pub enum CatalogFault {
    /// A call of the shelf failed.
    ShelfFault {
        /// The count of faults that the shelf shows then.
        count: u64,
    },
    /// The bytes at this place are no block, and no object covers them. It is the first such place.
    DamagedVolume(Place),
    /// Memory was refused.
    NoMemory,
}

impl From<ShelfFault> for CatalogFault {
    ghost use Rattle.ol_catalog.specs.declared.fault.CatalogFault.{CatalogFault};

    ghost from_gives = { λ f e. e ≡ CatalogFault.ShelfFault f.count };

    fn from(fault: ShelfFault) -> CatalogFault {
        CatalogFault::ShelfFault { count: fault.count }
    }
}

impl From<AllocError> for CatalogFault {
    ghost use Rattle.ol_catalog.specs.declared.fault.CatalogFault.{CatalogFault};

    ghost from_gives = { λ _ e. e ≡ CatalogFault.NoMemory };

    fn from(_: AllocError) -> CatalogFault {
        CatalogFault::NoMemory
    }
}
