//! What can be wrong with a message.
ghost use Rattle.std.specs.Prelude.{◌≡◌};
ghost use Rattle.tca_wire.specs.Faults.{wire_number};

use std::alloc::{AllocError, AllocFailed};
use thiserror::Error;

/// Why octets aren't a message: the first fault from the left. Each `at` is an offset from the message's first octet.
#[derive(Clone, Copy, Debug, PartialEq, Eq, Error)]
pub enum WireFault {
    /// Fewer octets than a header has, or than the header says.
    #[error("the octets end before the message does")]
    Short,
    /// The version isn't 10 (RFC 7011, section 3.1).
    #[error("version {0} instead of 10")]
    BadVersion(u16),
    /// The length is less than that of a header.
    #[error("a message length of {0}, which is less than the 16 octets of a header")]
    BadLength(u16),
    /// A set's length is less than the four octets of its header (RFC 7011, section 3.3.2).
    #[error("the set at offset {at} has a length below 4")]
    SetLength { at: u16 },
    /// A set goes on past the end of its message.
    #[error("the set at offset {at} is longer than what is left of the message")]
    SetPastEnd { at: u16 },
    /// One to three octets stand behind the last set.
    #[error("at offset {at} fewer than four octets are left, which hold no set")]
    Trailing { at: u16 },
    /// There was no memory for the answer.
    #[error("out of memory")]
    Memory,
}

impl WireFault {
    /// The number that stands for the fault in a program's messages.
    pub fn number(&self) -> u8
        ensures { result ≡ wire_number self.now }
    {
        match self {
            WireFault::Short => 1,
            WireFault::BadVersion(_) => 2,
            WireFault::BadLength(_) => 3,
            WireFault::SetLength { .. } => 4,
            WireFault::SetPastEnd { .. } => 5,
            WireFault::Trailing { .. } => 6,
            WireFault::Memory => 7,
        }
    }
}

impl From<AllocError> for WireFault {
    ghost use Rattle.std.specs.Prelude.{◌≡◌};
    ghost use Rattle.tca_wire.specs.declared.fault.WireFault.TheVariants.{Memory};

    ghost from_gives = { λ _ e. e ≡ Memory };

    fn from(_e: AllocError) -> WireFault {
        WireFault::Memory
    }
}

impl<T: Drop> From<AllocFailed<T>> for WireFault {
    ghost use Rattle.std.specs.Prelude.{◌≡◌};
    ghost use Rattle.tca_wire.specs.declared.fault.WireFault.TheVariants.{Memory};

    ghost from_gives = { λ _ e. e ≡ Memory };

    fn from(_e: AllocFailed<T>) -> WireFault {
        WireFault::Memory
    }
}
