//! Why two values were not joined.
ghost use Rattle.std.specs.Prelude.{◌≡◌};
ghost use Rattle.tca_join.specs.Faults.{fault_number};

use std::alloc::{AllocError, AllocFailed};
use thiserror::Error;

/// Why two values were not joined. Both are then as before.
#[derive(Clone, Copy, Debug, PartialEq, Eq, Error)]
pub enum JoinFault {
    /// They clash. `key` is the least key of maps at which their values do, or the first index, counted from 0, at
    /// which chains differ.
    #[error("the values have no join: they clash at {key}")]
    Clash { key: u32 },
    /// They don't clash, and what their join would be is above a limit.
    #[error("the join is above its limit")]
    Full,
    /// Memory for the join was refused.
    #[error("out of memory")]
    Memory,
}

impl JoinFault {
    /// The number of the fault, from 1, in the order in which faults are tested.
    pub fn number(&self) -> u8
        ensures { result ≡ fault_number self.now }
    {
        match self {
            JoinFault::Clash { .. } => 1,
            JoinFault::Full => 2,
            JoinFault::Memory => 3,
        }
    }
}

impl From<AllocError> for JoinFault {
    ghost use Rattle.std.specs.Prelude.{◌≡◌};
    ghost use Rattle.tca_join.specs.declared.fault.JoinFault.TheVariants.{Memory};

    ghost from_gives = { λ _ e. e ≡ Memory };

    fn from(_e: AllocError) -> JoinFault {
        JoinFault::Memory
    }
}

impl<T: Drop> From<AllocFailed<T>> for JoinFault {
    ghost use Rattle.std.specs.Prelude.{◌≡◌};
    ghost use Rattle.tca_join.specs.declared.fault.JoinFault.TheVariants.{Memory};

    ghost from_gives = { λ _ e. e ≡ Memory };

    fn from(_e: AllocFailed<T>) -> JoinFault {
        JoinFault::Memory
    }
}
