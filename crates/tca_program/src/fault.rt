//! Why a command was refused.
ghost use Rattle.std.specs.Prelude.{◌≡◌, Some, None};
ghost use Rattle.tca_ingest.specs.Faults.{share_number};
ghost use Rattle.tca_log.specs.Faults.{fault_number};
ghost use Rattle.tca_report.specs.Faults.{read_number};
ghost use Rattle.tca_program.specs.Faults.{family_name, fault_text};
ghost use Rattle.tca_program.specs.Unions.{input_refusal, refusal, write_refusal};
ghost use Rattle.tca_program.specs.declared.fault.Family.TheVariants as family;

use std::alloc::AllocError;
use std::error::Error;
use std::fmt;
use tca_accounts::PlanFault;
use tca_audit::AuditFault;
use tca_gossip::AbsorbFault;
use tca_ingest::{CloseFault, ShareFault, WorkFault};
use tca_log::LogFault;
use tca_meters::SpecFault;
use tca_report::{InputFault, ReadFault, WriteFault};

/// Which kind of refusal a fault line names.
#[derive(Clone, Copy, Debug, PartialEq, Eq)]
pub enum Family {
    /// A file that can't be opened or read.
    Read,
    /// A log export with a fault.
    Export,
    /// A capture with a fault in a message's header or in the lengths of its sets.
    Wire,
    /// A capture with a fault in a template or in a data record.
    Decode,
    /// A plan.
    Plan,
    /// A meter's spec.
    Spec,
    /// A log that is full, or finds no memory.
    Log,
    /// A call on a shared replica.
    Share,
    /// The workers of a shared replica.
    Work,
    /// Replicas that don't close, or don't agree.
    Close,
    /// A replica that doesn't absorb what another one holds.
    Absorb,
    /// A text that is no statement, or statements that don't add up.
    Statement,
    /// A capture of more observation domains than a command takes.
    Limits,
    /// A write that failed.
    Write,
    /// Want of memory that belongs to no other family.
    Memory,
}

impl Family {
    /// The family's name in a fault line.
    pub fn name(self) -> &'static str
        ensures { result.now ≡ family_name self }
    {
        match self {
            Family::Read => "read",
            Family::Export => "export",
            Family::Wire => "wire",
            Family::Decode => "decode",
            Family::Plan => "plan",
            Family::Spec => "spec",
            Family::Log => "log",
            Family::Share => "share",
            Family::Work => "work",
            Family::Close => "close",
            Family::Absorb => "absorb",
            Family::Statement => "statement",
            Family::Limits => "limits",
            Family::Write => "write",
            Family::Memory => "memory",
        }
    }
}

impl fmt::Display for Family {
    ghost output = { λ f. Some (family_name f) };

    fn fmt<W: fmt::Write>(&self, f: &mut fmt::Formatter<W>) -> fmt::Result {
        let name = self.name();
        write!(f, "{name}")
    }
}

/// Why a command was refused: the input at fault, counted from 0, if one was; the family, and the
/// number of the fault in it. It prints as the family's name and the number.
#[derive(Clone, Copy, Debug, PartialEq, Eq)]
pub struct RunFault {
    pub input: Option<u32>,
    pub family: Family,
    pub number: u8,
}

impl fmt::Display for RunFault {
    ghost output = { λ e. Some (fault_text e) };

    fn fmt<W: fmt::Write>(&self, f: &mut fmt::Formatter<W>) -> fmt::Result {
        let name = self.family.name();
        let number = self.number;
        write!(f, "{name} {number}")
    }
}

impl Error for RunFault {}

impl RunFault {
    /// A refusal of this family and number that blames no input.
    pub fn without_input(family: Family, number: u8) -> RunFault
        ensures { result ≡ refusal None family number }
    {
        RunFault {
            input: None,
            family,
            number,
        }
    }

    /// A file that can't be opened or read, an input or the plan.
    pub fn read(input: Option<u32>, fault: ReadFault) -> RunFault
        ensures { result ≡ refusal input family.Read (read_number fault) }
    {
        RunFault {
            input,
            family: Family::Read,
            number: fault.number(),
        }
    }

    /// A write that failed.
    pub fn write() -> RunFault
        ensures { result ≡ write_refusal }
    {
        RunFault::without_input(Family::Write, 1)
    }

    /// An input with a fault.
    pub fn input(input: u32, fault: InputFault) -> RunFault
        ensures fault { result ≡ input_refusal input fault }
        ensures named { result.input ≡ Some input }
    {
        let (family, number) = match fault {
            InputFault::Export(fault) => (Family::Export, fault.number()),
            InputFault::Wire { fault, .. } => (Family::Wire, fault.number()),
            InputFault::Decode { fault, .. } => (Family::Decode, fault.number()),
            InputFault::Memory => (Family::Memory, 1),
        };
        RunFault {
            input: Some(input),
            family,
            number,
        }
    }

    /// An input whose reports the log didn't take.
    pub fn log(input: u32, fault: LogFault) -> RunFault
        ensures { result ≡ refusal (Some input) family.Log (fault_number fault) }
    {
        RunFault {
            input: Some(input),
            family: Family::Log,
            number: fault.number(),
        }
    }

    /// An input whose take a replica refused.
    pub fn share(input: u32, fault: ShareFault) -> RunFault
        ensures { result ≡ refusal (Some input) family.Share (share_number fault) }
    {
        RunFault {
            input: Some(input),
            family: Family::Share,
            number: fault.number(),
        }
    }

    /// Replica 1 has another log than the inputs' reports make, which is answered as a clash of chains is.
    pub fn differs() -> RunFault
        ensures { result ≡ refusal None family.Close 3 }
    {
        RunFault::without_input(Family::Close, 3)
    }

    /// The result of another input than the workers were given.
    pub fn stranger() -> RunFault
        ensures { result ≡ refusal None family.Work 2 }
    {
        RunFault::without_input(Family::Work, 2)
    }
}

/// Want of memory that belongs to no other family and no input.
impl From<AllocError> for RunFault {
    ghost use Rattle.std.specs.Prelude.{◌≡◌};
    ghost use Rattle.tca_program.specs.Unions.{memory_refusal};

    ghost from_gives = { λ _ e. e ≡ memory_refusal };

    fn from(_fault: AllocError) -> RunFault {
        RunFault::without_input(Family::Memory, 1)
    }
}

impl From<WriteFault> for RunFault {
    ghost use Rattle.std.specs.Prelude.{◌≡◌};
    ghost use Rattle.tca_program.specs.Unions.{write_refusal};

    ghost from_gives = { λ _ e. e ≡ write_refusal };

    fn from(_fault: WriteFault) -> RunFault {
        RunFault::write()
    }
}

/// A text that is no plan, or that found no memory.
impl From<PlanFault> for RunFault {
    ghost use Rattle.std.specs.Prelude.{◌≡◌, None};
    ghost use Rattle.tca_accounts.specs.Faults.{plan_number};
    ghost use Rattle.tca_program.specs.Unions.{refusal};
    ghost use Rattle.tca_program.specs.declared.fault.Family.TheVariants as family;

    ghost from_gives = { λ fault e. e ≡ refusal None family.Plan (plan_number fault) };

    fn from(fault: PlanFault) -> RunFault {
        RunFault::without_input(Family::Plan, fault.number())
    }
}

/// A spec that names no meter.
impl From<SpecFault> for RunFault {
    ghost use Rattle.std.specs.Prelude.{◌≡◌, None};
    ghost use Rattle.tca_meters.specs.Faults.{spec_number};
    ghost use Rattle.tca_program.specs.Unions.{refusal};
    ghost use Rattle.tca_program.specs.declared.fault.Family.TheVariants as family;

    ghost from_gives = { λ fault e. e ≡ refusal None family.Spec (spec_number fault) };

    fn from(fault: SpecFault) -> RunFault {
        RunFault::without_input(Family::Spec, fault.number())
    }
}

/// An audit that has no verdict.
impl From<AuditFault> for RunFault {
    ghost use Rattle.std.specs.Prelude.{◌≡◌};
    ghost use Rattle.tca_program.specs.Unions.{audit_refusal};

    ghost from_gives = { λ fault e. e ≡ audit_refusal fault };

    fn from(fault: AuditFault) -> RunFault {
        let (family, number) = match fault {
            AuditFault::Plan(fault) => (Family::Plan, fault.number()),
            AuditFault::Export(fault) => (Family::Export, fault.number()),
            AuditFault::Memory => (Family::Memory, 1),
        };
        RunFault::without_input(family, number)
    }
}

/// A call on a shared replica that was refused.
impl From<ShareFault> for RunFault {
    ghost use Rattle.std.specs.Prelude.{◌≡◌, None};
    ghost use Rattle.tca_ingest.specs.Faults.{share_number};
    ghost use Rattle.tca_program.specs.Unions.{refusal};
    ghost use Rattle.tca_program.specs.declared.fault.Family.TheVariants as family;

    ghost from_gives = { λ fault e. e ≡ refusal None family.Share (share_number fault) };

    fn from(fault: ShareFault) -> RunFault {
        RunFault::without_input(Family::Share, fault.number())
    }
}

/// Workers that didn't do all jobs.
impl From<WorkFault> for RunFault {
    ghost use Rattle.std.specs.Prelude.{◌≡◌, None};
    ghost use Rattle.tca_ingest.specs.Faults.{work_number};
    ghost use Rattle.tca_program.specs.Unions.{refusal};
    ghost use Rattle.tca_program.specs.declared.fault.Family.TheVariants as family;

    ghost from_gives = { λ fault e. e ≡ refusal None family.Work (work_number fault) };

    fn from(fault: WorkFault) -> RunFault {
        RunFault::without_input(Family::Work, fault.number())
    }
}

/// Replicas that don't close, or don't agree.
impl From<CloseFault> for RunFault {
    ghost use Rattle.std.specs.Prelude.{◌≡◌, None};
    ghost use Rattle.tca_ingest.specs.Faults.{close_number};
    ghost use Rattle.tca_program.specs.Unions.{refusal};
    ghost use Rattle.tca_program.specs.declared.fault.Family.TheVariants as family;

    ghost from_gives = { λ fault e. e ≡ refusal None family.Close (close_number fault) };

    fn from(fault: CloseFault) -> RunFault {
        RunFault::without_input(Family::Close, fault.number())
    }
}

/// A replica that doesn't absorb what another one holds.
impl From<AbsorbFault> for RunFault {
    ghost use Rattle.std.specs.Prelude.{◌≡◌, None};
    ghost use Rattle.tca_gossip.specs.Answers.{absorb_number};
    ghost use Rattle.tca_program.specs.Unions.{refusal};
    ghost use Rattle.tca_program.specs.declared.fault.Family.TheVariants as family;

    ghost from_gives = { λ fault e. e ≡ refusal None family.Absorb (absorb_number fault) };

    fn from(fault: AbsorbFault) -> RunFault {
        RunFault::without_input(Family::Absorb, fault.number())
    }
}
