//! Why a capture isn't split.
ghost use Rattle.std.specs.Prelude.{◌≡◌};
ghost use Rattle.tca_split.specs.Faults.{framing_fault};

use std::alloc::{AllocError, AllocFailed};
use tca_report::ReadFault;
use tca_wire::WireFault;
use thiserror::Error;

/// Why a capture isn't split.
#[derive(Clone, Copy, Debug, PartialEq, Eq, Error)]
pub enum SplitFault {
    /// A read failed, or the capture's end was not seen within 2^64 - 1 reads.
    #[error("the capture couldn't be read to its end")]
    Read(ReadFault),
    /// A header with a fault, or a message that isn't there whole.
    #[error("{0}")]
    Wire(WireFault),
    /// Messages of more than 4,096 observation domains.
    #[error("the capture has more than 4096 observation domains")]
    Limits,
    /// There is a file of a domain's name already.
    #[error("a file of an observation domain's name is there already")]
    Exists,
    /// The second reading gave a message of a domain that the first had none of.
    #[error("the capture changed between two readings")]
    Changed,
    /// A file couldn't be looked for, made or written.
    #[error("a file couldn't be written")]
    Write,
    /// There was no memory.
    #[error("out of memory")]
    Memory,
}

// The fault of a capture's framing, or want of memory.
pub(crate) fn framing_fault(fault: WireFault) -> SplitFault
    ensures { result ≡ framing_fault fault }
{
    match fault {
        WireFault::Memory => SplitFault::Memory,
        _ => SplitFault::Wire(fault),
    }
}

impl From<AllocError> for SplitFault {
    ghost use Rattle.std.specs.Prelude.{◌≡◌};
    ghost use Rattle.tca_split.specs.declared.fault.SplitFault.TheVariants.{Memory};

    ghost from_gives = { λ _ e. e ≡ Memory };

    fn from(_e: AllocError) -> SplitFault {
        SplitFault::Memory
    }
}

impl<T: Drop> From<AllocFailed<T>> for SplitFault {
    ghost use Rattle.std.specs.Prelude.{◌≡◌};
    ghost use Rattle.tca_split.specs.declared.fault.SplitFault.TheVariants.{Memory};

    ghost from_gives = { λ _ e. e ≡ Memory };

    fn from(_e: AllocFailed<T>) -> SplitFault {
        SplitFault::Memory
    }
}
