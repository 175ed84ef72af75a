// Why a call on a minidisk is refused.
use cms_edf::{Doubt, MoreFault, OpenFault, PlanFault};
use std::alloc::AllocError;
use thiserror::Error;

/// Why a file isn't read or changed.
#[derive(Clone, Copy, Debug, Error)]
pub enum DiskFault {
    /// no file has the name
    #[error("NotFound")]
    NotFound,
    /// the new name is another file's
    #[error("Exists")]
    Exists,
    /// the minidisk may not be written
    #[error("ReadOnly")]
    ReadOnly,
    /// the device failed, and the minidisk is as before
    #[error("Device")]
    Device,
    /// the device failed, and the unit holds the minidisk of before or the new one
    #[error("InDoubt")]
    InDoubt,
    /// the file's bytes aren't its records any more
    #[error("Altered")]
    Altered,
    /// the lowest limit that is passed: 1, the files of a minidisk; 2, the records of a file; 3, its stored bytes
    #[error("Limit")]
    Limit(u32),
    /// there are too few free blocks
    #[error("Full")]
    Full { need: u32, free: u32 },
    /// there is no memory
    #[error("Memory")]
    Memory,
}

impl From<AllocError> for DiskFault {
    ghost use Rattle.std.specs.Prelude.{◌≡◌};
    ghost use Rattle.cms_disk.specs.declared.fault.DiskFault.TheVariants as fault;

    ghost from_gives = { λ _ e. e ≡ fault.Memory };

    fn from(_want: AllocError) -> DiskFault {
        DiskFault::Memory
    }
}

impl From<PlanFault> for DiskFault {
    ghost use Rattle.std.specs.Prelude.{◌≡◌};
    ghost use Rattle.cms_disk.specs.Changes.{refusal_of};

    ghost from_gives = { λ why e. e ≡ refusal_of why };

    fn from(why: PlanFault) -> DiskFault {
        match why {
            PlanFault::Limit(which) => DiskFault::Limit(which),
            PlanFault::Full { need, free } => DiskFault::Full { need, free },
            PlanFault::Memory => DiskFault::Memory,
        }
    }
}

impl From<MoreFault> for DiskFault {
    ghost use Rattle.std.specs.Prelude.{◌≡◌};
    ghost use Rattle.cms_disk.specs.Changes.{more_refusal_of};

    ghost from_gives = { λ why e. e ≡ more_refusal_of why };

    fn from(why: MoreFault) -> DiskFault {
        match why {
            MoreFault::Limit(which) => DiskFault::Limit(which),
            MoreFault::Full { need, free } => DiskFault::Full { need, free },
            MoreFault::Device => DiskFault::Device,
            MoreFault::Memory => DiskFault::Memory,
        }
    }
}

impl From<Doubt> for DiskFault {
    ghost use Rattle.std.specs.Prelude.{◌≡◌};
    ghost use Rattle.cms_disk.specs.Changes.{fault_of};

    ghost from_gives = { λ why e. e ≡ fault_of why };

    fn from(why: Doubt) -> DiskFault {
        match why {
            Doubt::Old => DiskFault::Device,
            Doubt::Either => DiskFault::InDoubt,
        }
    }
}

/// Why a unit isn't accessed.
#[derive(Clone, Copy, Debug)]
pub enum AccessFault {
    /// the sync of a unit in doubt failed, and nothing was read
    Sync,
    /// the volume doesn't open
    Open(OpenFault),
}
