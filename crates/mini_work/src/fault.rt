// Why a command ends before its end.
use cms_disk::DiskFault;
use mini_host::Refusal;
use std::alloc::AllocError;

/// Why a command ends before its end.
#[derive(Clone, Copy)]
pub(crate) enum Fault {
    /// there is no memory
    Memory,
    /// the image failed
    Image,
    /// a host file failed, or standard error
    Host,
    /// standard output failed
    Output,
    /// the clock failed
    Clock,
    /// something failed, and that was said
    Said,
}

impl From<AllocError> for Fault {
    ghost use Rattle.std.specs.Prelude.{◌≡◌};
    ghost use Rattle.mini_work.specs.declared.fault.Fault.TheVariants as fault;

    ghost from_gives = { λ _ e. e ≡ fault.Memory };

    fn from(_want: AllocError) -> Fault {
        Fault::Memory
    }
}

impl Fault {
    /// What is said of it.
    pub(crate) fn refusal(self) -> Refusal {
        match self {
            Fault::Image => Refusal::ImageFailed,
            Fault::Output => Refusal::OutputFailed,
            Fault::Clock => Refusal::ClockFailed,
            Fault::Host | Fault::Memory | Fault::Said => Refusal::HostFailed,
        }
    }
}

impl From<DiskFault> for Fault {
    ghost use Rattle.std.specs.Prelude.{◌≡◌};
    ghost use Rattle.mini_work.specs.Faults.{fault_of};

    ghost from_gives = { λ why e. e ≡ fault_of why };

    fn from(why: DiskFault) -> Fault {
        match why {
            DiskFault::Memory => Fault::Memory,
            _ => Fault::Image,
        }
    }
}
