//! What can be wrong with the sets of a message.
ghost use Rattle.std.specs.Prelude.{◌≡◌};
ghost use Rattle.tca_templates.specs.Faults.{decode_number};

use std::alloc::{AllocError, AllocFailed};
use thiserror::Error;

/// Why the sets of a message can't be read: the first fault from the left. Each `at` is an offset from the
/// message's first octet.
#[derive(Clone, Copy, Debug, PartialEq, Eq, Error)]
pub enum DecodeFault {
    /// A template record's ID is below 256 (RFC 7011, section 3.4.1), and the record doesn't withdraw all
    /// templates of its set's kind.
    #[error("the template record at offset {at} has an ID below 256")]
    TemplateId { at: u16 },
    /// A template record goes on past its set's end.
    #[error("the template record at offset {at} goes on past the end of its set")]
    TemplateCut { at: u16 },
    /// An options template has no scope field, or more of them than fields (RFC 7011, section 3.4.2.2).
    #[error("the options template at offset {at} has no scope field, or more of them than fields")]
    Scope { at: u16 },
    /// A template's records would have no octets, so nothing would say how many there are.
    #[error("template {id} gives its records no octet")]
    EmptyTemplate { id: u16 },
    /// A template has more than 512 fields, or would be one more than 4,096 templates.
    #[error("a template has more than 512 fields, or there are more than 4096 templates")]
    TooMany,
    /// A data record goes on past its set's end.
    #[error("the data record at offset {at} goes on past the end of its set")]
    RecordCut { at: u16 },
    /// There was no memory for the answer.
    #[error("out of memory")]
    Memory,
}

impl DecodeFault {
    /// The number that stands for the fault in a program's messages.
    pub fn number(&self) -> u8
        ensures { result ≡ decode_number self.now }
    {
        match self {
            DecodeFault::TemplateId { .. } => 1,
            DecodeFault::TemplateCut { .. } => 2,
            DecodeFault::Scope { .. } => 3,
            DecodeFault::EmptyTemplate { .. } => 4,
            DecodeFault::TooMany => 5,
            DecodeFault::RecordCut { .. } => 6,
            DecodeFault::Memory => 7,
        }
    }
}

impl From<AllocError> for DecodeFault {
    ghost use Rattle.std.specs.Prelude.{◌≡◌};
    ghost use Rattle.tca_templates.specs.declared.fault.DecodeFault.TheVariants.{Memory};

    ghost from_gives = { λ _ e. e ≡ Memory };

    fn from(_e: AllocError) -> DecodeFault {
        DecodeFault::Memory
    }
}

impl<T: Drop> From<AllocFailed<T>> for DecodeFault {
    ghost use Rattle.std.specs.Prelude.{◌≡◌};
    ghost use Rattle.tca_templates.specs.declared.fault.DecodeFault.TheVariants.{Memory};

    ghost from_gives = { λ _ e. e ≡ Memory };

    fn from(_e: AllocFailed<T>) -> DecodeFault {
        DecodeFault::Memory
    }
}
