//! What a log refuses.
ghost use Rattle.std.specs.Prelude.{◌≡◌};
ghost use Rattle.tca_log.specs.Faults.{fault_number};
ghost use Rattle.tca_log.specs.declared.fault.LogFault.TheVariants.{Memory};

use std::alloc::AllocError;
use thiserror::Error;

/// Why a log did not take what it was given. The log is then as it was before.
#[derive(Clone, Copy, Debug, PartialEq, Eq, Error)]
pub enum LogFault {
    /// The log would have more than 4,194,304 reports.
    #[error("the log is full: it has at most 4194304 reports")]
    Full,
    /// A growth was refused.
    #[error("no memory for more reports in the log")]
    Memory,
}

impl LogFault {
    /// The number of the fault, from 1.
    pub fn number(&self) -> u8
        ensures { result ≡ fault_number self.now }
    {
        match self {
            LogFault::Full => 1,
            LogFault::Memory => 2,
        }
    }
}

impl From<AllocError> for LogFault {
    ghost from_gives = { λ _ e. e ≡ Memory };

    fn from(_refused: AllocError) -> LogFault {
        LogFault::Memory
    }
}
