//! Why the words of a command line ask for nothing.
ghost use Rattle.std.specs.Prelude.{◌≡◌, ◌≢◌, ◌≤◌, ◌⊎◌};
ghost use Rattle.clap.specs.Words.{kind_of};
ghost use Rattle.tca_program.specs.LineFaults.{line_number, line_status};

use clap::error::ErrorKind;
use std::alloc::{AllocError, AllocFailed, Global};
use thiserror::Error;

/// Why the words of a command line ask for nothing.
#[derive(Debug, Drop, Error)]
pub enum LineFault {
    /// They are wrong; the text says how, for standard error.
    #[error("{text}")]
    Usage { text: String },
    /// They ask for help; the text is it, for standard output.
    #[error("{text}")]
    Help { text: String },
    /// A growth was refused while they were read.
    #[error("no memory is left")]
    Memory,
}

impl LineFault {
    /// The number of the fault, from 1.
    pub fn number(&self) -> u8
        ensures { result ≡ line_number self.now }
    {
        match self {
            LineFault::Usage { .. } => 1,
            LineFault::Help { .. } => 2,
            LineFault::Memory => 3,
        }
    }

    /// What no command line gives, since clap has found each word that is required.
    pub fn nothing_asked(alloc: Global) -> LineFault
        ensures other { result ≢ LineFault.Memory }
        ensures wrong { line_number result ≡ 1 }
    {
        let text = String::new(alloc);
        LineFault::Usage { text }
    }

    /// The fault of an error of clap.
    pub fn of(alloc: Global, error: &clap::Error) -> LineFault
        ensures memory { kind_of error.now ≡ ErrorKind.OutOfMemory → result ≡ LineFault.Memory }
        ensures wrong { kind_of error.now ≢ ErrorKind.DisplayHelp → kind_of error.now ≢ ErrorKind.DisplayVersion → 1 ≤ line_status result }
        ensures help { (kind_of error.now ≡ ErrorKind.DisplayHelp) ⊎ (kind_of error.now ≡ ErrorKind.DisplayVersion) → line_number result ≢ 1 }
    {
        if error.kind() == ErrorKind::OutOfMemory {
            return LineFault::Memory;
        }
        match format!(in alloc; "{error}") {
            Ok(text) if error.use_stderr() => LineFault::Usage { text },
            Ok(text) => LineFault::Help { text },
            Err(_) => LineFault::Memory,
        }
    }
}

impl<T: Drop> From<AllocFailed<T>> for LineFault {
    ghost use Rattle.std.specs.Prelude.{◌≡◌};
    ghost use Rattle.tca_program.specs.declared.line_fault.LineFault.TheVariants.{Memory};

    ghost from_gives = { λ _ e. e ≡ Memory };

    fn from(_fault: AllocFailed<T>) -> LineFault {
        LineFault::Memory
    }
}

impl From<AllocError> for LineFault {
    ghost use Rattle.std.specs.Prelude.{◌≡◌};
    ghost use Rattle.tca_program.specs.declared.line_fault.LineFault.TheVariants.{Memory};

    ghost from_gives = { λ _ e. e ≡ Memory };

    fn from(_fault: AllocError) -> LineFault {
        LineFault::Memory
    }
}
