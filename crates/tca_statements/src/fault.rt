//! Why no amount was issued.
ghost use Rattle.std.specs.Prelude.{◌≡◌};
ghost use Rattle.tca_statements.specs.Faults.{issue_number};

use std::alloc::{AllocError, AllocFailed};
use thiserror::Error;

/// Why no amount was issued. Where several hold, it is the first in this order.
#[derive(Clone, Copy, Debug, PartialEq, Eq, Error)]
pub enum IssueFault {
    /// The plan has no account of this number.
    #[error("the plan has no account of this number")]
    NoAccount,
    /// No time below 2^48 ms is in this period.
    #[error("no time is in this period: expected one up to (2^48 - 1) divided by the length of a period")]
    Period,
    /// A growth was refused.
    #[error("out of memory")]
    Memory,
}

impl IssueFault {
    /// The number of the fault, from 1, in the order in which faults are tested.
    pub fn number(&self) -> u8
        ensures { result ≡ issue_number self.now }
    {
        match self {
            IssueFault::NoAccount => 1,
            IssueFault::Period => 2,
            IssueFault::Memory => 3,
        }
    }
}

impl From<AllocError> for IssueFault {
    ghost use Rattle.std.specs.Prelude.{◌≡◌};
    ghost use Rattle.tca_statements.specs.declared.fault.IssueFault.TheVariants.{Memory};

    ghost from_gives = { λ _ e. e ≡ Memory };

    fn from(_e: AllocError) -> IssueFault {
        IssueFault::Memory
    }
}

impl<T: Drop> From<AllocFailed<T>> for IssueFault {
    ghost use Rattle.std.specs.Prelude.{◌≡◌};
    ghost use Rattle.tca_statements.specs.declared.fault.IssueFault.TheVariants.{Memory};

    ghost from_gives = { λ _ e. e ≡ Memory };

    fn from(_e: AllocFailed<T>) -> IssueFault {
        IssueFault::Memory
    }
}
