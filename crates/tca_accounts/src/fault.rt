//! Why a text is no plan.
ghost use Rattle.std.specs.Prelude.{◌≡◌};
ghost use Rattle.tca_accounts.specs.Faults.{plan_number};

use crate::key::Key;
use std::alloc::{AllocError, AllocFailed};
use tca_meters::MeterFault;
use thiserror::Error;

/// Why a text is no plan. Where several hold, it is the first as the document is judged: the top keys, the period, the
/// accounts one by one, and at last the pairs and names of all accounts together. Of an account comes first its kind of meter, then a
/// key that isn't known, then its keys in the order of `Key`, then its meter, then how many terms it has, and then its terms one by
/// one, each judged in that order.
#[derive(Clone, Copy, Debug, PartialEq, Eq, Error)]
pub enum PlanFault {
    /// The text isn't UTF-8 or isn't a TOML document.
    #[error("the plan is no TOML document in UTF-8")]
    Syntax,
    /// A key is missing that has to be there.
    #[error("the key `{key}` is missing")]
    Missing { key: Key },
    /// What a key has is of the wrong type or out of its range. For `account` and `term` it may be an element of the
    /// array that isn't a table, and for `from` a start that is not after that of the term before.
    #[error("the value of `{key}` has the wrong type or is out of range")]
    Wrong { key: Key },
    /// A key stands there that the plan, or an account or a term with its kind of meter, doesn't have.
    #[error("a key stands where no such key is known")]
    UnknownKey,
    /// There is no meter of the parameters of an account, or of one of its terms. Accounts are counted from 0.
    #[error("account {account}, counted from 0, has no meter of these parameters: {fault}")]
    Meter { account: u32, fault: MeterFault },
    /// One pair of a domain and an interface, or one name, stands twice.
    #[error("a pair of domain and interface, or a name, stands twice")]
    KeyTwice,
    /// There is no account, or more than 256, or an account has more than 8 terms, or there are more than 4,096 pairs in
    /// all.
    #[error("the number of accounts, of terms or of pairs is out of range: expected 1 to 256 accounts, each with at most 8 terms, and at most 4096 pairs in all")]
    Limits,
    /// A growth was refused.
    #[error("out of memory")]
    Memory,
}

impl PlanFault {
    /// The number of the fault, from 1.
    pub fn number(&self) -> u8
        ensures { result ≡ plan_number self.now }
    {
        match self {
            PlanFault::Syntax => 1,
            PlanFault::Missing { .. } => 2,
            PlanFault::Wrong { .. } => 3,
            PlanFault::UnknownKey => 4,
            PlanFault::Meter { .. } => 5,
            PlanFault::KeyTwice => 6,
            PlanFault::Limits => 7,
            PlanFault::Memory => 8,
        }
    }
}

impl From<AllocError> for PlanFault {
    ghost use Rattle.std.specs.Prelude.{◌≡◌};
    ghost use Rattle.tca_accounts.specs.declared.fault.PlanFault.TheVariants.{Memory};

    ghost from_gives = { λ _ e. e ≡ Memory };

    fn from(_e: AllocError) -> PlanFault {
        PlanFault::Memory
    }
}

impl<T: Drop> From<AllocFailed<T>> for PlanFault {
    ghost use Rattle.std.specs.Prelude.{◌≡◌};
    ghost use Rattle.tca_accounts.specs.declared.fault.PlanFault.TheVariants.{Memory};

    ghost from_gives = { λ _ e. e ≡ Memory };

    fn from(_e: AllocFailed<T>) -> PlanFault {
        PlanFault::Memory
    }
}
