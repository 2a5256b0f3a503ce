//! Inputs: log exports and captures.
ghost use Rattle.std.specs.Prelude.{◌≡◌, ◌≢◌, ◌<◌, ◌≤◌, List, ℕ, Ok, Err, IfErr, IsErrOf, IsTrue, length, false, true};
ghost use Rattle.std.specs.List.{AllByRecursion};
ghost use Rattle.tca_join.specs.Results.{Gives};
ghost use Rattle.tca_report.specs.Faults.{input_number};
ghost use Rattle.tca_report.specs.report.Reports.{PacketReport};
ghost use Rattle.tca_report.specs.export.Spelling.{IsExport};
ghost use Rattle.tca_report.specs.export.FirstFaults.{IsFaultyExport};
ghost use Rattle.tca_report.specs.input.Inputs.{CaptureSoFar, InputView, input_view, is_export, nothing, read_input};
ghost use Rattle.tca_report.specs.input.Captures.{IsInput};
ghost use Rattle.tca_report.specs.input.FirstFaults.{IsFirstFault};
ghost use Rattle.tca_report.specs.input.Wants.{WantsMemory};
ghost use Rattle.tca_report.specs.declared.input.InputFault.TheVariants as faults;
ghost use Rattle.tca_report.specs.input.Gathered.{gathered_of, gathered_view, notes_of};

mod capture;
mod extraction;
mod fields;

use crate::export::{ExportFault, read_export};
use crate::input::capture::read_capture;
use crate::report::Report;
pub use extraction::{NotReport, extract};
use std::alloc::{AllocFailed, Global};
use tca_templates::DecodeFault;
use tca_wire::WireFault;
use thiserror::Error;

/// An input: a log export or a capture.
#[derive(Drop)]
pub struct Input {
    /// The number of the transport session that a capture's messages are of (RFC 7011, section 2), as the operator gives
    /// it. For a log export it has no effect.
    pub session: u32,
    /// All octets.
    pub octets: Vec<u8>,
}

/// What an input held beside its reports. All are 0 for a log export.
#[derive(Clone, Copy, Debug, PartialEq, Eq)]
pub struct Notes {
    /// Messages of the capture.
    pub messages: u64,
    /// Data records that are no reports, by the number of the reason, from 1.
    pub not_reports: [u64; 7],
    /// Messages with a data set of a template that wasn't known.
    pub unplaced: u64,
    /// Sets that were skipped, of identifiers 0, 1 and 4 to 255.
    pub skipped: u64,
}

/// The reports of an input, in its order, and what else it held.
#[derive(Drop)]
pub struct Gathered {
    pub reports: Vec<Report>,
    pub notes: Notes,
}

/// Why an input was refused: the first fault from the left. Each `at` is the offset of the message in the capture.
#[derive(Clone, Copy, Debug, PartialEq, Eq, Error)]
pub enum InputFault {
    /// It is a log export with a fault.
    #[error("the log export is refused: {0}")]
    Export(ExportFault),
    /// A message has a fault in its header or in the lengths of its sets.
    #[error("the message at offset {at} is refused: {fault}")]
    Wire { at: u64, fault: WireFault },
    /// A message has a fault in a template or in a data record.
    #[error("the message at offset {at} is refused: {fault}")]
    Decode { at: u64, fault: DecodeFault },
    /// There was no memory for the reports, the list of a message's sets or its templates.
    #[error("out of memory")]
    Memory,
}

impl<T: Drop> From<AllocFailed<T>> for InputFault {
    ghost use Rattle.std.specs.Prelude.{◌≡◌};
    ghost use Rattle.tca_report.specs.declared.input.InputFault.TheVariants.{Memory};

    ghost from_gives = { λ _ e. e ≡ Memory };

    fn from(_e: AllocFailed<T>) -> InputFault {
        InputFault::Memory
    }
}

impl InputFault {
    /// The number that stands for the fault in a program's messages.
    pub fn number(&self) -> u8
        ensures { result ≡ input_number self.now }
    {
        match self {
            InputFault::Export(_) => 1,
            InputFault::Wire { .. } => 2,
            InputFault::Decode { .. } => 3,
            InputFault::Memory => 4,
        }
    }
}

impl Input {
    /// Whether another input is the same: octet for octet, and of the same session.
    pub fn is_same(&self, other: &Input) -> bool
        ensures same { result ≡ true → input_view self.now ≡ input_view other.now }
        ensures other { result ≡ false → input_view self.now ≢ input_view other.now }
    {
        self.session == other.session && self.octets == other.octets
    }
}

impl Notes {
    // The notes of an input that held its reports alone.
    pub(crate) fn none() -> Notes
        ensures { result ≡ notes_of (nothing 0) }
    {
        Notes {
            messages: 0,
            not_reports: [0; 7],
            unplaced: 0,
            skipped: 0,
        }
    }
}

// Whether the first four octets are `TCAX`.
fn has_magic(octets: &[u8]) -> bool
    ensures exact { result ≡ is_export octets.now }
    ensures long { IsTrue result → 4 ≤ length octets.now }
{
    octets.len() >= 4
        && octets[0] == b'T'
        && octets[1] == b'C'
        && octets[2] == b'A'
        && octets[3] == b'X'
}

/// Reads an input: a log export where its first four octets are `TCAX`, else a capture, which is IPFIX messages
/// one after the other, as a file of RFC 5655 has them.
///
/// All messages of a capture are of one transport session (RFC 7011, section 2), which has this number and knows no
/// template at first. For a log export the session has no effect: the reports have the sessions that it spells. A data
/// record that is a report is among the reports, in the order of the input; each other is counted in the notes.
///
/// The first fault from the left refuses the whole input: that of a message's header or of its sets' lengths before
/// one of its templates and records, `Short` where the capture ends within a message. `Memory` is answered only where
/// everything before that growth is right. An input without octets is a capture without messages.
pub fn gather(alloc: Global, octets: &[u8], session: u32) -> Result<Gathered, InputFault>
    ensures exact { Gives InputFault.Memory gathered_view result (gathered_of (read_input (record { session = session; octets = octets.now }))) }

    // A fault is the first from the left, and a log export with a fault is refused for it.
    ensures first { IfErr result (λ f. f ≢ InputFault.Memory → IsFirstFault (record { session = session; octets = octets.now }) f) }
    ensures refused { (f : ExportFault) → is_export octets.now ≡ true → IsFaultyExport octets.now f → result ≡ Err (faults.Export f) }

    // An input without octets takes no memory, and a log export only where nothing is wrong with it and it has a report.
    ensures memory { IsErrOf result InputFault.Memory → 0 < length octets.now }
    ensures memory_last { IsErrOf result InputFault.Memory → is_export octets.now ≡ true
        → (rs : List PacketReport) × IsExport octets.now rs × (0 < length rs) }

    // Memory is wanted only where everything before is right.
    ensures memory_wanted { result ≡ Err InputFault.Memory → WantsMemory (record { session = session; octets = octets.now }) }
{
    if !has_magic(octets) {
        return read_capture(alloc, octets, session);
    }
    match read_export(alloc, octets) {
        Ok(reports) => Ok(Gathered {
            reports,
            notes: Notes::none(),
        }),
        Err(ExportFault::Memory) => Err(InputFault::Memory),
        Err(fault) => Err(InputFault::Export(fault)),
    }
}

/// The law of inputs: what is read of an input from the left is what it is, the octets of a log export, or messages one after the
/// other, each of which is what RFC 7011 says of it in the session of those before it. Where it is neither, the fault is the one before
/// which all is right.
pub fn input_laws()
    ensures found { (input : InputView) (after : CaptureSoFar) → AllByRecursion (λ (b : ℕ). b < 256) input.octets → read_input input ≡ Ok after → IsInput input after }
    ensures only { (input : InputView) (after : CaptureSoFar) → IsInput input after → read_input input ≡ Ok after }
    ensures fault { (input : InputView) (f : InputFault) → (is_export input.octets ≡ true → AllByRecursion (λ (b : ℕ). b < 256) input.octets) → read_input input ≡ Err f → IsFirstFault input f }
    ensures no_other { (input : InputView) (f : InputFault) → IsFirstFault input f → read_input input ≡ Err f }
{}
