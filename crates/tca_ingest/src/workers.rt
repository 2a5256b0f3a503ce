//! Threads that take inputs into one shared replica.
ghost use Rattle.std.specs.Prelude.{◌≡◌, ◌≢◌, ◌⊎◌, ◌+◌, ◌<◌, ◌≤◌, ◌^◌, IfErr, IfOk, OnErr, OnOk, [], length, map, take, vec_capacity, vec_len};
ghost use Rattle.std.specs.List.Sorted.{IsPermutation};
ghost use Rattle.tca_ingest.specs.Works.{AreBack, AreBackAll, AreNumbered, AreOwn, AreResults, AreLentResults, AreUnused, IsOfJobs, all_calls, entries_in};

use crate::collect::{collect, stranger_of};
use crate::fault::WorkFault;
use crate::gate::Gate;
use crate::job::{Done, JobResult};
use crate::pass::Pass;
use crate::shared::Shared;
use crate::side::Side;
use crate::worker::{Ends, WorkSetting, do_jobs};
use crossbeam_channel::{Receiver, Sender, unbounded};
use std::alloc::{AllocError, Global};
use std::sync::Wait;
use std::sync::atomic::{AtomicBool, Ordering};
use std::thread;
use std::thread::{JoinHandle, Scope, Threads};
use tca_report::Input;

/// The results in the order of their jobs, and the workers' passes.
#[derive(Drop)]
pub struct Worked<L: Side> {
    pub done: Vec<Done>,
    pub passes: Vec<Pass<L>>,
}

/// What a refused call hands back: all passes that it made. Some jobs may have been done, and then the passes have their entries.
#[derive(Drop)]
pub struct WorkRefused<L: Side> {
    pub fault: WorkFault,
    pub passes: Vec<Pass<L>>,
}

/// Does each input as a job, by this many threads, each with a pass of its own. Job `n` is input `n`: it is gathered, and its reports
/// are taken by one `take`. An input that is refused is the fault of its job, and the others go on.
///
/// All passes are made before the first thread is started, and all threads are joined before a result is looked at. `PassesOut` comes
/// where the replica has no more passes, so that fewer were made than there are workers, `NoThread` where a thread couldn't be started,
/// and `Memory` where a growth was refused, other than one that a job needed. `JobMissing` and `Stranger` come where the results aren't
/// one for each input, or the passes have other entries than the results; no use of this crate leads there. All hand back each pass that
/// was made.
pub fn work<L: Side + Send + Sync, R: Threads + Wait + Sync, G: Gate>(
    rt: &R,
    alloc: Global,
    shared: &Shared<L>,
    inputs: &[Input],
    gate: &G,
    workers: u32,
) -> Result<Worked<L>, WorkRefused<L>>
    requires workers { (1 ≤ workers) × (workers ≤ 64) }
    requires inputs { length inputs.now < 2 ^ 32 }
    ensures done { IfOk result (λ w. AreResults inputs.now w.done.items) }
    ensures jobs { IfOk result (λ w. AreNumbered w.done.items) }
    ensures entries { IfOk result (λ w. IsPermutation (entries_in w.done.items) (all_calls w.passes.items)) }
    ensures own { IfOk result (λ w. AreOwn w.passes.items) }
    ensures passes { IfOk result (λ w. length w.passes.items ≡ workers) }
    ensures back { IfErr result (λ r. AreBack workers r.fault r.passes.items) }
    ensures room { IfErr result (λ r. r.fault ≡ WorkFault.PassesOut → vec_len r.passes < vec_capacity r.passes) }
    ensures missing { IfErr result (λ r. IsOfJobs (length inputs.now) r.fault) }
{
    match lent(alloc, inputs) {
        Ok(lent) => work_on(rt, alloc, shared, &lent, gate, workers),
        Err(_) => Err(before_passes(alloc)),
    }
}

// No memory for a run to begin, so that no pass was made.
fn before_passes<L: Side>(alloc: Global) -> WorkRefused<L>
    ensures fault { result.fault ≡ WorkFault.Memory }
    ensures none { result.passes.items ≡ [] }
{
    WorkRefused {
        fault: WorkFault::Memory,
        passes: Vec::new(alloc),
    }
}

// The inputs, borrowed.
fn lent<'a>(alloc: Global, inputs: &'a [Input]) -> Result<Vec<&'a Input>, AllocError>
    ensures { IfOk result (λ list. map (λ s. s.now) list.items ≡ inputs.now) }
{
    let mut list = Vec::with_capacity(alloc, inputs.len())?;
    for input in inputs {
        list.push(input)?;
    }
    Ok(list)
}

/// Does inputs that are borrowed as jobs, as `work` does.
pub fn work_on<L: Side + Send + Sync, R: Threads + Wait + Sync, G: Gate>(
    rt: &R,
    alloc: Global,
    shared: &Shared<L>,
    inputs: &[&Input],
    gate: &G,
    workers: u32,
) -> Result<Worked<L>, WorkRefused<L>>
    requires workers { (1 ≤ workers) × (workers ≤ 64) }
    requires inputs { length inputs.now < 2 ^ 32 }
    ensures done { IfOk result (λ w. AreLentResults inputs.now w.done.items) }
    ensures jobs { IfOk result (λ w. AreNumbered w.done.items) }
    ensures entries { IfOk result (λ w. IsPermutation (entries_in w.done.items) (all_calls w.passes.items)) }
    ensures own { IfOk result (λ w. AreOwn w.passes.items) }
    ensures passes { IfOk result (λ w. length w.passes.items ≡ workers) }
    ensures back { IfErr result (λ r. AreBack workers r.fault r.passes.items) }
    ensures room { IfErr result (λ r. r.fault ≡ WorkFault.PassesOut → vec_len r.passes < vec_capacity r.passes) }
    ensures missing { IfErr result (λ r. IsOfJobs (length inputs.now) r.fault) }
{
    let Ok(passes) = Vec::with_capacity(alloc, workers as usize) else {
        return Err(before_passes(alloc));
    };
    let halted = AtomicBool::new(false);
    let setting = WorkSetting {
        rt,
        alloc,
        shared,
        gate,
        inputs,
        halted: &halted,
    };
    work_all(&setting, workers, passes)
}

// The results of all jobs, and the passes that it makes, for which there is room.
fn work_all<'a, L: Side + Send + Sync, R: Threads + Wait + Sync, G: Gate>(
    setting: &WorkSetting<'a, L, R, G>,
    workers: u32,
    room: Vec<Pass<L>>,
) -> Result<Worked<L>, WorkRefused<L>>
    requires inputs { length setting.now.inputs.now < 2 ^ 32 }
    requires passes { room.items ≡ [] }
    requires room { workers ≤ vec_capacity room }
    ensures done { IfOk result (λ w. AreLentResults setting.now.inputs.now w.done.items) }
    ensures jobs { IfOk result (λ w. AreNumbered w.done.items) }
    ensures entries { IfOk result (λ w. IsPermutation (entries_in w.done.items) (all_calls w.passes.items)) }
    ensures own { IfOk result (λ w. AreOwn w.passes.items) }
    ensures passes { IfOk result (λ w. length w.passes.items ≡ workers) }
    ensures back { IfErr result (λ r. AreBackAll workers r.fault r.passes.items) }
    ensures room { IfErr result (λ r. r.fault ≡ WorkFault.PassesOut → vec_len r.passes < vec_capacity r.passes) }
    ensures missing { IfErr result (λ r. IsOfJobs (length setting.now.inputs.now) r.fault) }
{
    let mut passes = room;
    match do_all(setting, workers, &mut passes) {
        Ok(done) => Ok(Worked { done, passes }),
        Err(fault) => Err(WorkRefused { fault, passes }),
    }
}

// The results of all jobs. The passes that it makes, for which there is room, are there in each case.
fn do_all<'a, L: Side + Send + Sync, R: Threads + Wait + Sync, G: Gate>(
    setting: &WorkSetting<'a, L, R, G>,
    workers: u32,
    passes: &mut Vec<Pass<L>>,
) -> Result<Vec<Done>, WorkFault>
    requires inputs { length setting.now.inputs.now < 2 ^ 32 }
    requires passes { passes.old.items ≡ [] }
    requires room { workers ≤ vec_capacity passes.old }
    ensures done { IfOk result (λ done. AreLentResults setting.now.inputs.now done.items) }
    ensures jobs { IfOk result (λ done. AreNumbered done.items) }
    ensures entries { IfOk result (λ done. IsPermutation (entries_in done.items) (all_calls passes.new.items)) }
    ensures own { OnOk result (AreOwn passes.new.items) }
    ensures passes { OnOk result (vec_len passes.new ≡ workers) }
    ensures back { IfErr result (λ f. f ≢ WorkFault.PassesOut → vec_len passes.new ≡ workers) }
    ensures few { IfErr result (λ f. f ≡ WorkFault.PassesOut → vec_len passes.new < workers) }
    ensures unused { IfErr result (λ f. f ≡ WorkFault.PassesOut → AreUnused passes.new.items) }
    ensures room { IfErr result (λ f. f ≡ WorkFault.PassesOut → vec_len passes.new < vec_capacity passes.new) }
    ensures missing { IfErr result (IsOfJobs (length setting.now.inputs.now)) }
{
    make_passes(setting.rt, setting.shared, workers, passes)?;
    let done = results_of(setting, passes)?;
    match stranger_of(setting.alloc, &done, passes) {
        Some(fault) => Err(fault),
        None => Ok(done),
    }
}

// The results of all jobs, which a worker for each pass does.
fn results_of<'a, L: Side + Send + Sync, R: Threads + Wait + Sync, G: Gate>(
    setting: &WorkSetting<'a, L, R, G>,
    passes: &mut Vec<Pass<L>>,
) -> Result<Vec<Done>, WorkFault>
    requires { length setting.now.inputs.now < 2 ^ 32 }
    ensures done { IfOk result (λ done. AreLentResults setting.now.inputs.now done.items) }
    ensures jobs { IfOk result (λ done. AreNumbered done.items) }
    ensures kept { vec_len passes.new ≡ vec_len passes.old }
    ensures fault { IfErr result (λ f. f ≢ WorkFault.PassesOut) }
    ensures missing { IfErr result (IsOfJobs (length setting.now.inputs.now)) }
{
    let jobs = jobs_of(setting.rt, setting.alloc, setting.inputs.len())?;
    let (ends, results) = ends_for(setting.alloc, jobs, passes.len())?;
    run_all(setting, passes, ends)?;
    if setting.halted.load(Ordering::SeqCst) {
        return Err(WorkFault::Memory);
    }
    collect(setting.rt, setting.alloc, setting.inputs, results)
}

// The numbers of this many jobs, in a channel that is closed.
fn jobs_of<R: Wait>(rt: &R, alloc: Global, count: usize) -> Result<Receiver<u32>, WorkFault>
    requires { count < 2 ^ 32 }
    ensures { IfErr result (λ f. f ≡ WorkFault.Memory) }
{
    let (sender, jobs) = unbounded(alloc)?;
    send_jobs(rt, sender, count)?;
    Ok(jobs)
}

// The ends of this many workers, and where their results come.
fn ends_for<'a>(
    alloc: Global,
    jobs: Receiver<u32>,
    count: usize,
) -> Result<(Vec<Ends<'a>>, Receiver<JobResult<'a>>), AllocError> {
    let (results, from_workers) = unbounded(alloc)?;
    let ends = ends_of(alloc, jobs, results, count)?;
    Ok((ends, from_workers))
}

// Makes this many passes, for which there is room, and puts them after those that are there.
fn make_passes<L: Side, R: Wait>(
    rt: &R,
    shared: &Shared<L>,
    count: u32,
    passes: &mut Vec<Pass<L>>,
) -> Result<(), WorkFault>
    requires { vec_len passes.old + count ≤ vec_capacity passes.old }
    ensures count { OnOk result (vec_len passes.new ≡ vec_len passes.old + count) }
    ensures kept { take (length passes.old.items) passes.new.items ≡ passes.old.items }
    ensures unused { AreUnused passes.old.items → AreUnused passes.new.items }
    ensures fault { IfErr result (λ f. f ≡ WorkFault.PassesOut) }
    ensures few { OnErr result (vec_len passes.new < vec_len passes.old + count) }
    ensures room { vec_capacity passes.new ≡ vec_capacity passes.old }
{
    for _ in 0..count {
        match shared.pass(rt) {
            Ok(pass) => passes.push_reserved(pass),
            Err(_) => return Err(WorkFault::PassesOut),
        }
    }
    Ok(())
}

// Sends the numbers of this many jobs, and closes the channel.
fn send_jobs<R: Wait>(rt: &R, jobs: Sender<u32>, count: usize) -> Result<(), WorkFault>
    requires { count < 2 ^ 32 }
    ensures { IfErr result (λ f. f ≡ WorkFault.Memory) }
{
    for job in 0..count {
        if jobs.send(rt, job as u32).is_err() {
            return Err(WorkFault::Memory);
        }
    }
    Ok(())
}

// The ends of the two channels for this many workers. No others are left.
fn ends_of<'a>(
    alloc: Global,
    jobs: Receiver<u32>,
    results: Sender<JobResult<'a>>,
    count: usize,
) -> Result<Vec<Ends<'a>>, AllocError> {
    let mut ends = Vec::with_capacity(alloc, count)?;
    for _ in 0..count {
        let mine = Ends {
            jobs: jobs.clone()?,
            results: results.clone()?,
        };
        ends.push(mine)?;
    }
    Ok(ends)
}

// Has the passes' workers do all jobs.
fn run_all<'a, L: Side + Send + Sync, R: Threads + Wait + Sync, G: Gate>(
    setting: &WorkSetting<'a, L, R, G>,
    passes: &mut Vec<Pass<L>>,
    ends: Vec<Ends<'a>>,
) -> Result<(), WorkFault>
    ensures kept { vec_len passes.new ≡ vec_len passes.old }
    ensures fault { IfErr result (λ f. (f ≡ WorkFault.NoThread) ⊎ (f ≡ WorkFault.Memory)) }
{
    let given = std::mem::replace(passes, Vec::new(setting.alloc));
    let (outcome, back) = thread::scope(
        thread::scope_env(),
        setting.rt,
        |scope| -> (Result<(), WorkFault>, Vec<Pass<L>>)
            ensures kept { vec_len result.1 ≡ vec_len given }
            ensures fault { IfErr result.0 (λ f. (f ≡ WorkFault.NoThread) ⊎ (f ≡ WorkFault.Memory)) }
        { run_in(scope, setting, given, ends) },
    );
    *passes = back;
    outcome
}

// Starts a worker for each pass, joins them, and gives the passes back.
fn run_in<'s, 'a: 's, E, L: Side + Send + Sync, R: Threads + Wait + Sync, G: Gate>(
    scope: &Scope<'s, E>,
    setting: &'s WorkSetting<'a, L, R, G>,
    passes: Vec<Pass<L>>,
    ends: Vec<Ends<'a>>,
) -> (Result<(), WorkFault>, Vec<Pass<L>>)
    ensures kept { vec_len result.1 ≡ vec_len passes }
    ensures fault { IfErr result.0 (λ f. (f ≡ WorkFault.NoThread) ⊎ (f ≡ WorkFault.Memory)) }
{
    let mut passes = passes;
    let Ok(mut running) = Vec::with_capacity(setting.alloc, passes.len()) else {
        return (Err(WorkFault::Memory), passes);
    };
    let outcome = start_all(scope, setting, &mut passes, ends, &mut running);
    join_all(setting.rt, running, &mut passes);
    (outcome, passes)
}

// Starts a worker for each pass, from the last on. Where a thread can't be started the run is halted, and the passes that are left
// stay there.
fn start_all<'s, 'a: 's, E, L: Side + Send + Sync, R: Wait + Sync, G: Gate>(
    scope: &Scope<'s, E>,
    setting: &'s WorkSetting<'a, L, R, G>,
    passes: &mut Vec<Pass<L>>,
    ends: Vec<Ends<'a>>,
    running: &mut Vec<JoinHandle<Pass<L>>>,
) -> Result<(), WorkFault>
    requires { vec_len passes.old + vec_len running.old ≤ vec_capacity running.old }
    ensures count { vec_len passes.new + vec_len running.new ≡ vec_len passes.old + vec_len running.old }
    ensures capacity { vec_capacity passes.new ≡ vec_capacity passes.old }
    ensures fault { IfErr result (λ f. f ≡ WorkFault.NoThread) }
{
    for mine in ends {
        let Some(pass) = passes.pop() else {
            break;
        };
        match scope.spawn(move || do_jobs(setting, pass, mine)) {
            Ok(handle) => running.push_reserved(handle),
            Err(refused) => {
                setting.halted.store(true, Ordering::SeqCst);
                passes.push_reserved((refused.value)());
                return Err(WorkFault::NoThread);
            }
        }
    }
    Ok(())
}

// Joins all workers, from the last on, and puts their passes back.
fn join_all<L: Side, R: Threads>(
    rt: &R,
    running: Vec<JoinHandle<Pass<L>>>,
    passes: &mut Vec<Pass<L>>,
)
    requires { vec_len passes.old + vec_len running ≤ vec_capacity passes.old }
    ensures { vec_len passes.new ≡ vec_len passes.old + vec_len running }
{
    let mut left = running;
    for _ in 0..left.len() {
        let Some(handle) = left.pop() else {
            break;
        };
        passes.push_reserved(handle.join(rt));
    }
}
