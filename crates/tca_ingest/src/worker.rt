//! What a worker does.
ghost use Rattle.std.specs.Prelude.{◌≡◌};

use crate::gate::Gate;
use crate::job::{JobResult, do_job};
use crate::pass::Pass;
use crate::shared::Shared;
use crate::side::Side;
use crossbeam_channel::{Receiver, Sender};
use std::alloc::Global;
use std::sync::Wait;
use std::sync::atomic::{AtomicBool, Ordering};
use tca_report::Input;

/// What all workers of a run share.
#[derive(Drop)]
pub(crate) struct WorkSetting<'a, L: Side, R, G> {
    pub(crate) rt: &'a R,
    pub(crate) alloc: Global,
    pub(crate) shared: &'a Shared<L>,
    pub(crate) gate: &'a G,
    pub(crate) inputs: &'a [&'a Input],
    /// Whether no job is begun any more.
    pub(crate) halted: &'a AtomicBool,
}

/// Where a worker gets the numbers of its jobs from, and where it sends their results.
#[derive(Drop)]
pub(crate) struct Ends<'a> {
    pub(crate) jobs: Receiver<u32>,
    pub(crate) results: Sender<JobResult<'a>>,
}

/// Does jobs until none is left or the run is halted, and gives the pass back. A result that can't be sent halts the run.
pub(crate) fn do_jobs<'a, L: Side, R: Wait, G: Gate>(
    setting: &WorkSetting<'a, L, R, G>,
    pass: Pass<L>,
    ends: Ends<'a>,
) -> Pass<L> {
    let mut mine = pass;
    for _ in setting.rt.forever() {
        if setting.halted.load(Ordering::SeqCst) {
            break;
        }
        let Ok(job) = ends.jobs.recv(setting.rt) else {
            break;
        };
        let Some(input) = setting.inputs.get(job as usize) else {
            break;
        };
        let result = do_job(
            setting.rt,
            setting.alloc,
            setting.shared,
            setting.gate,
            &mut mine,
            job,
            *input,
        );
        if ends.results.send(setting.rt, result).is_err() {
            setting.halted.store(true, Ordering::SeqCst);
            break;
        }
    }
    mine
}
