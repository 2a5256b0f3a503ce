//! How a take went, why an absorb is refused or stops, and why a world is refused.
ghost use Rattle.std.specs.Prelude.{◌≡◌};
ghost use Rattle.tca_gossip.specs.Answers.{absorb_number, world_number};

use std::alloc::AllocError;
use tca_log::LogFault;
use thiserror::Error;

/// How far a take went: the first reports of its list, as many as `taken`, are held.
#[derive(Debug, Drop)]
pub struct Taken {
    /// How many reports of the list are held.
    pub taken: u64,
    /// How many of these were new.
    pub fresh: u64,
    /// Why the list was not gone through to its end, if it wasn't. The report at `taken` was not held before and is not now.
    pub stop: Option<LogFault>,
}

/// Why an absorb was refused, which changes nothing, or stopped.
#[derive(Clone, Copy, Debug, PartialEq, Eq, Error)]
pub enum AbsorbFault {
    /// A run starts past the chain of its origin.
    #[error("the run of origin {origin} starts at place {from}, past the {have} reports that are held")]
    Gap { origin: u32, have: u32, from: u32 },
    /// A run and the chain of its origin differ, first at this place.
    #[error("the run of origin {origin} differs from the chain at place {at}")]
    Forked { origin: u32, at: u32 },
    /// A run of the replica's own name ends past its chain.
    #[error("a run of this replica's own name ends at place {said}, past its {have} reports")]
    OwnAhead { have: u32, said: u32 },
    /// The first new reports, as many as `taken`, were appended, and the rest were not.
    #[error("stopped after {taken} new reports: {cause}")]
    Stopped { taken: u64, cause: LogFault },
}

impl AbsorbFault {
    /// The number that stands for the fault in a program's messages.
    pub fn number(&self) -> u8
        ensures { result ≡ absorb_number self.now }
    {
        match self {
            AbsorbFault::Gap { .. } => 1,
            AbsorbFault::Forked { .. } => 2,
            AbsorbFault::OwnAhead { .. } => 3,
            AbsorbFault::Stopped { .. } => 4,
        }
    }
}

/// Why a world of replicas is refused.
#[derive(Clone, Copy, Debug, PartialEq, Eq, Error)]
pub enum WorldFault {
    /// A name stands twice.
    #[error("a name of a replica stands twice")]
    NameTwice,
    /// A growth was refused.
    #[error("no memory for the replicas of the world")]
    Memory,
}

impl WorldFault {
    /// The number that stands for the fault in a program's messages.
    pub fn number(&self) -> u8
        ensures { result ≡ world_number self.now }
    {
        match self {
            WorldFault::NameTwice => 1,
            WorldFault::Memory => 2,
        }
    }
}

impl From<AllocError> for WorldFault {
    ghost use Rattle.std.specs.Prelude.{◌≡◌};
    ghost use Rattle.tca_gossip.specs.declared.fault.WorldFault.TheVariants.{Memory};

    ghost from_gives = { λ _ e. e ≡ Memory };

    fn from(_refused: AllocError) -> WorldFault {
        WorldFault::Memory
    }
}
