//! The log export: its faults and its law.
ghost use Rattle.std.specs.Prelude.{◌≡◌, List, ℕ};
ghost use Rattle.tca_report.specs.export.Spelling.{IsExport};
ghost use Rattle.tca_report.specs.Faults.{export_number};
ghost use Rattle.tca_report.specs.report.Reports.{PacketReport};

mod reading;
mod writing;

pub use reading::read_export;
use thiserror::Error;
pub use writing::write_export;

/// A version of the log export.
#[derive(Clone, Copy)]
pub(crate) enum Format {
    /// Version 1, which spells no session: its reports are of session 0.
    Version1,
    /// Version 2, which spells a session for each report.
    Version2,
}

/// What is wrong with an export: the first fault from the left.
#[derive(Clone, Copy, Debug, PartialEq, Eq, Error)]
pub enum ExportFault {
    /// The first four octets are not `TCAX`.
    #[error("the export does not begin with TCAX")]
    Magic,
    /// The version is neither 1 nor 2.
    #[error("the export has version {0}, neither 1 nor 2")]
    Version(u16),
    /// The count is above 4,194,304, or octets follow the last report.
    #[error("the export counts more than 4194304 reports, or octets follow its last report")]
    Count,
    /// The header, or a report of the count, is not there whole.
    #[error("the export is cut short")]
    Cut,
    /// Report `n`, counted from 0, has a time, a size or a code point out of range.
    #[error("report {n} has a time, a size or a DSCP out of range")]
    Range { n: u32 },
    /// Report `n`, counted from 0, is not above the one before it.
    #[error("report {n} is not above the report before it")]
    Order { n: u32 },
    /// No memory for the list.
    #[error("out of memory")]
    Memory,
}

impl ExportFault {
    /// The number that stands for the fault in a program's messages.
    pub fn number(&self) -> u8
        ensures { result ≡ export_number self.now }
    {
        match self {
            ExportFault::Magic => 1,
            ExportFault::Version(_) => 2,
            ExportFault::Count => 3,
            ExportFault::Cut => 4,
            ExportFault::Range { .. } => 5,
            ExportFault::Order { .. } => 6,
            ExportFault::Memory => 7,
        }
    }
}

/// The law of the format: no two lists of reports have the same octets, in whichever versions.
pub fn spelling_is_unique()
    ensures { (octets : List ℕ) (a b : List PacketReport) → IsExport octets a → IsExport octets b → a ≡ b }
{}
