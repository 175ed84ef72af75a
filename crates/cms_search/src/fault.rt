// Why a disk isn't accessed or a file isn't found.
ghost use Rattle.std.specs.Prelude.{◌≡◌};
ghost use Rattle.cms_search.specs.declared.fault.SearchFault.TheVariants.{Memory};

use cms_disk::OpenFault;
use std::alloc::AllocError;

/// Why a call on the table is refused.
#[derive(Clone, Copy)]
pub enum SearchFault {
    /// no unit has this device
    NoUnit(u16),
    /// this letter isn't accessed, or that of a parent
    NotAccessed(u8),
    /// the disk of this letter may only be read
    ReadOnly(u8),
    /// no file is found
    NotFound,
    /// the unit's volume doesn't open; `Device` also where a sync failed, never `Memory`
    Volume(OpenFault),
    /// there is no memory
    Memory,
}

impl From<AllocError> for SearchFault {
    ghost from_gives = { λ _ e. e ≡ Memory };

    fn from(_: AllocError) -> Self {
        SearchFault::Memory
    }
}
