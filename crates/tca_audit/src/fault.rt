//! Why there is no verdict.
ghost use Rattle.std.specs.Prelude.{◌≡◌};
ghost use Rattle.tca_audit.specs.Faults.{audit_number};

use std::alloc::AllocError;
use tca_accounts::PlanFault;
use tca_report::ExportFault;
use thiserror::Error;

/// Why there is no verdict. Where several hold, it is the first in this order.
#[derive(Clone, Copy, Debug, PartialEq, Eq, Error)]
pub enum AuditFault {
    /// The text isn't a plan. What it has is never `Memory`.
    #[error("the plan is refused: {0}")]
    Plan(PlanFault),
    /// The octets aren't a log export. What it has is never `Memory`.
    #[error("the log export is refused: {0}")]
    Export(ExportFault),
    /// A growth was refused.
    #[error("out of memory")]
    Memory,
}

impl AuditFault {
    /// The number of the fault, from 1, in the order in which faults are tested.
    pub fn number(&self) -> u8
        ensures { result ≡ audit_number self.now }
    {
        match self {
            AuditFault::Plan(_) => 1,
            AuditFault::Export(_) => 2,
            AuditFault::Memory => 3,
        }
    }
}

impl From<AllocError> for AuditFault {
    ghost use Rattle.std.specs.Prelude.{◌≡◌};
    ghost use Rattle.tca_audit.specs.declared.fault.AuditFault.TheVariants.{Memory};

    ghost from_gives = { λ _ e. e ≡ Memory };

    fn from(_e: AllocError) -> AuditFault {
        AuditFault::Memory
    }
}
