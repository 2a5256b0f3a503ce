//! Why a call on a shared replica, or its close, is refused.
ghost use Rattle.std.specs.Prelude.{◌≡◌};
ghost use Rattle.tca_ingest.specs.Faults.{close_number, share_number, work_number};

use std::alloc::AllocError;
use thiserror::Error;

/// Why a call on a shared replica was refused. No entry was made, and nothing changed.
#[derive(Clone, Copy, Debug, PartialEq, Eq, Error)]
pub enum ShareFault {
    /// The journal has 1,048,576 entries.
    #[error("the journal is full: it has at most 1048576 entries")]
    JournalFull,
    /// 65,536 passes were made.
    #[error("no more passes: a replica has at most 65536")]
    PassesOut,
    /// A growth was refused.
    #[error("no memory for the call")]
    Memory,
}

impl ShareFault {
    /// The number that stands for the fault in a program's messages.
    pub fn number(&self) -> u8
        ensures { result ≡ share_number self.now }
    {
        match self {
            ShareFault::JournalFull => 1,
            ShareFault::PassesOut => 2,
            ShareFault::Memory => 3,
        }
    }
}

impl From<AllocError> for ShareFault {
    ghost use Rattle.std.specs.Prelude.{◌≡◌};
    ghost use Rattle.tca_ingest.specs.declared.fault.ShareFault.TheVariants.{Memory};

    ghost from_gives = { λ _ e. e ≡ Memory };

    fn from(_refused: AllocError) -> ShareFault {
        ShareFault::Memory
    }
}

/// Why passes don't close their replica, or closed replicas don't agree.
#[derive(Clone, Copy, Debug, PartialEq, Eq, Error)]
pub enum CloseFault {
    /// The passes have fewer entries than the journal, so one of them is missing.
    #[error("the journal has {journal} entries, and the passes that were given have {given}")]
    Missing { journal: u64, given: u64 },
    /// The entries of this pass aren't the journal's of its number, or its number was given before.
    #[error("the entries of pass {pass} are not the journal's")]
    Differs { pass: u32 },
    /// Of this origin two replicas hold chains of which neither begins with the other.
    #[error("two replicas hold different chains of origin {origin}")]
    Clash { origin: u32 },
}

impl CloseFault {
    /// The number that stands for the fault in a program's messages.
    pub fn number(&self) -> u8
        ensures { result ≡ close_number self.now }
    {
        match self {
            CloseFault::Missing { .. } => 1,
            CloseFault::Differs { .. } => 2,
            CloseFault::Clash { .. } => 3,
        }
    }
}

/// Why workers didn't do all jobs, or brought other results than the passes have. Some jobs may have been done.
#[derive(Clone, Copy, Debug, PartialEq, Eq, Error)]
pub enum WorkFault {
    /// This job has no result.
    #[error("job {0} has no result")]
    JobMissing(u32),
    /// A result of this job is of no input, of another input or a second one, or its entry isn't in the list of its pass as often as
    /// in the results up to it. Where the number is that of all jobs, the passes have entries that no result has.
    #[error("the result of job {0} is of another input, or the passes have other entries")]
    Stranger(u32),
    /// A thread couldn't be started.
    #[error("a thread could not be started")]
    NoThread,
    /// 65,536 passes were made.
    #[error("no more passes: a replica has at most 65536")]
    PassesOut,
    /// A growth was refused.
    #[error("no memory for the workers")]
    Memory,
}

impl WorkFault {
    /// The number that stands for the fault in a program's messages.
    pub fn number(&self) -> u8
        ensures { result ≡ work_number self.now }
    {
        match self {
            WorkFault::JobMissing(_) => 1,
            WorkFault::Stranger(_) => 2,
            WorkFault::NoThread => 3,
            WorkFault::PassesOut => 4,
            WorkFault::Memory => 5,
        }
    }
}

impl From<AllocError> for WorkFault {
    ghost use Rattle.std.specs.Prelude.{◌≡◌};
    ghost use Rattle.tca_ingest.specs.declared.fault.WorkFault.TheVariants.{Memory};

    ghost from_gives = { λ _ e. e ≡ Memory };

    fn from(_refused: AllocError) -> WorkFault {
        WorkFault::Memory
    }
}
