//! One input for a worker, and what comes of it.
ghost use Rattle.std.specs.Prelude.{◌≡◌, ◌≢◌, IfErr, IfOk, OnErr};
ghost use Rattle.tca_ingest.specs.EntryViews.{entry_view};
ghost use Rattle.tca_ingest.specs.Faults.{job_number};
ghost use Rattle.tca_ingest.specs.Shares.{IsNoted, IsTake};

use crate::entry::Receipt;
use crate::fault::ShareFault;
use crate::gate::Gate;
use crate::pass::Pass;
use crate::shared::Shared;
use crate::side::Side;
use std::alloc::Global;
use std::marker::Model;
use std::sync::Wait;
use tca_join::Items;
use tca_log::with_set;
use tca_report::{Gathered, Input, InputFault, Notes, Report, gather};
use thiserror::Error;

/// Why nothing of an input was taken.
#[derive(Clone, Copy, Debug, PartialEq, Eq, Error)]
pub enum JobFault {
    /// The input is refused.
    #[error("{0}")]
    Input(InputFault),
    /// The replica refused the take.
    #[error("{0}")]
    Share(ShareFault),
}

impl JobFault {
    /// The number that stands for the fault in a program's messages.
    pub fn number(&self) -> u8
        ensures { result ≡ job_number self.now }
    {
        match self {
            JobFault::Input(_) => 1,
            JobFault::Share(_) => 2,
        }
    }
}

/// What came of a job.
#[derive(Drop)]
pub struct Done {
    /// The number of the job, which is the place of its input, counted from 0.
    pub job: u32,
    /// The notes of the input, and the receipt of its take.
    pub result: Result<(Notes, Receipt), JobFault>,
}

/// A worker's result, with the input that it is of.
#[derive(Drop)]
pub(crate) struct JobResult<'a> {
    pub(crate) job: u32,
    pub(crate) input: &'a Input,
    pub(crate) result: Result<(Notes, Receipt), JobFault>,
}

impl<'a> Model for JobResult<'a> {
    ghost use Rattle.tca_report.specs.input.Inputs.{input_view};
    ghost use Rattle.tca_ingest.specs.Works.{IsResult, ResultView};

    ghost Value = { ResultView };

    ghost view = { λ r. record { job = r.job; input = input_view r.input.now; result = r.result } };

    ghost invariant = { λ r. IsResult (input_view r.input.now) r.result };
}

// Takes what was read. The list gets its set before the lock is taken, so that nobody waits while it is sorted.
fn take_reports<L: Side, R: Wait, G: Gate>(
    rt: &R,
    alloc: Global,
    shared: &Shared<L>,
    gate: &G,
    mine: &mut Pass<L>,
    job: u32,
    reports: Vec<Report>,
) -> Result<Receipt, ShareFault>
    ensures noted { IfOk result (λ r. IsNoted mine.old mine.new (entry_view r.entry) r.front) }
    ensures took { IfOk result (λ r. IsTake reports.items mine.old.number (entry_view r.entry)) }
    ensures fault { IfErr result (λ f. f ≢ ShareFault.PassesOut) }
    ensures err { OnErr result (mine.new ≡ mine.old) }
{
    let list = Items::of(alloc, reports)?;
    shared.take_inside(rt, mine, with_set(alloc, list), gate, job)
}

/// Does a job: reads its input, and takes the reports.
pub(crate) fn do_job<'a, L: Side, R: Wait, G: Gate>(
    rt: &R,
    alloc: Global,
    shared: &Shared<L>,
    gate: &G,
    mine: &mut Pass<L>,
    job: u32,
    input: &'a Input,
) -> JobResult<'a>
    ensures job { result.job ≡ job }
    ensures noted { IfOk result.result (λ r. IsNoted mine.old mine.new (entry_view r.1.entry) r.1.front) }
    ensures err { OnErr result.result (mine.new ≡ mine.old) }
{
    gate.before(job);
    let result = match gather(alloc, &input.octets, input.session) {
        Err(fault) => Err(JobFault::Input(fault)),
        Ok(Gathered { reports, notes }) => {
            match take_reports(rt, alloc, shared, gate, mine, job, reports) {
                Ok(receipt) => Ok((notes, receipt)),
                Err(fault) => Err(JobFault::Share(fault)),
            }
        }
    };
    gate.after(job);
    JobResult { job, input, result }
}
