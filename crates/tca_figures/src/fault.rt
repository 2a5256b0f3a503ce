//! Why octets are no statement, or statements have no sum.
ghost use Rattle.std.specs.Prelude.{◌≡◌};
ghost use Rattle.tca_figures.specs.Faults.{statement_number};

use std::alloc::AllocError;
use thiserror::Error;

/// Why octets are no statement, or statements have no sum. Lines are counted from 1; one past 4294967295 is told as that.
#[derive(Clone, Copy, Debug, PartialEq, Eq, Error)]
pub enum StatementFault {
    /// The first line that may not stand there, or at which the statement ends too early.
    #[error("line {line} isn't one that may stand there, or the statement ends too early")]
    Line { line: u32 },
    /// The line of a total that isn't the sum of its account's periods.
    #[error("the total in line {line} isn't the sum of its account's periods")]
    Sum { line: u32 },
    /// The first line that tells of another period or account than the statements before.
    #[error("line {line} tells of another period or account than the statements before")]
    Other { line: u32 },
    /// A sum that hasn't 64 bits.
    #[error("a sum is above 18446744073709551615")]
    Range,
    /// A growth was refused.
    #[error("out of memory")]
    Memory,
}

impl StatementFault {
    /// The number of the fault, from 1.
    pub fn number(&self) -> u8
        ensures { result ≡ statement_number self.now }
    {
        match self {
            StatementFault::Line { .. } => 1,
            StatementFault::Sum { .. } => 2,
            StatementFault::Other { .. } => 3,
            StatementFault::Range => 4,
            StatementFault::Memory => 5,
        }
    }
}

impl From<AllocError> for StatementFault {
    ghost use Rattle.std.specs.Prelude.{◌≡◌};
    ghost use Rattle.tca_figures.specs.declared.fault.StatementFault.TheVariants.{Memory};

    ghost from_gives = { λ _ e. e ≡ Memory };

    fn from(_fault: AllocError) -> StatementFault {
        StatementFault::Memory
    }
}
