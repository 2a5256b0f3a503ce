//! What a run of workers brought: the result of each job, and whether the workers' passes have just these.
ghost use Rattle.std.specs.Prelude.{◌≡◌, ◌≢◌, ◌<◌, ◌^◌, ◌++◌, IfOk, IfErr, IfSome, OnErr, OnOk, IsNone, None, Some, Option, Result, true, false, [], ◌∷◌, length, slice_index_or, slice_set};
ghost use Rattle.std.specs.List.{AllByRecursion};
ghost use Rattle.std.specs.List.Sorted.{IsPermutation};
ghost use denote.Bor.{Bor};
ghost use Rattle.tca_ingest.specs.declared.entry.Entry.{Entry};
ghost use Rattle.tca_ingest.specs.declared.entry.Receipt.{Receipt};
ghost use Rattle.tca_ingest.specs.declared.job.JobFault.{JobFault};
ghost use Rattle.tca_report.specs.declared.input.Notes.{Notes};
ghost use Rattle.tca_ingest.specs.EntryViews.{entry_view, entry_views};
ghost use Rattle.tca_ingest.specs.Works.{AreNumbered, AreOwn, AreResultsAt, AreLentResults, HasNoPlace, IsEntriesFault, IsLackedBy, IsOfJobs, IsPlaceFault, all_calls, entries_in, entry_in, views_of};

use crate::entry::{Entry, Receipt};
use crate::fault::WorkFault;
use crate::in_order::are_in_order;
use crate::job::{Done, JobFault, JobResult};
use crate::pass::Pass;
use crate::side::Side;
use crossbeam_channel::Receiver;
use std::alloc::{AllocError, Global};
use std::sync::Wait;
use tca_report::{Input, Notes};

// A place for the result of a job.
type Place = Option<Result<(Notes, Receipt), JobFault>>;

/// The results that came, in the order of their jobs. `Stranger` names a job that isn't one, that has a result already, or whose
/// result is of another input; `JobMissing` the least job without a result.
pub(crate) fn collect<R: Wait>(
    rt: &R,
    alloc: Global,
    inputs: &[&Input],
    results: Receiver<JobResult<'_>>,
) -> Result<Vec<Done>, WorkFault>
    requires { length inputs.now < 2 ^ 32 }
    ensures done { IfOk result (λ done. AreLentResults inputs.now done.items) }
    ensures jobs { IfOk result (λ done. AreNumbered done.items) }
    ensures fault { IfErr result (λ f. f ≢ WorkFault.PassesOut) }
    ensures missing { IfErr result (IsOfJobs (length inputs.now)) }
{
    let mut places = empty_places(alloc, inputs)?;
    for _ in rt.forever() {
        let Ok(result) = results.recv(rt) else {
            break;
        };
        fill_place(inputs, &mut places, result)?;
    }
    filled(alloc, inputs, places)
}

// A place for each input.
fn empty_places(alloc: Global, inputs: &[&Input]) -> Result<Vec<Place>, AllocError>
    ensures { IfOk result (λ places. AreResultsAt inputs.now places.items) }
{
    let mut places = Vec::with_capacity(alloc, inputs.len())?;
    for input in inputs {
        let _ = input;
        places.push(None)?;
    }
    Ok(places)
}

// Puts a result where its job is, if there is none yet.
fn fill_place(
    inputs: &[&Input],
    places: &mut Vec<Place>,
    of_job: JobResult<'_>,
) -> Result<(), WorkFault>
    requires { AreResultsAt inputs.now places.old.items }
    ensures results { AreResultsAt inputs.now places.new.items }
    ensures empty { OnOk result ((d : Option (Result (Notes × Receipt) JobFault)) → slice_index_or places.old.items of_job.entry.job d ≡ None) }
    ensures fault { IfErr result (λ f. f ≡ WorkFault.Stranger of_job.entry.job) }
    ensures refused { OnErr result (HasNoPlace inputs.now places.old.items of_job.entry) }
    ensures put { OnOk result (places.new.items ≡ slice_set places.old.items of_job.entry.job (Some of_job.entry.result)) }
    ensures kept { OnErr result (places.new.items ≡ places.old.items) }
{
    let JobResult { job, input, result } = of_job;
    let at = job as usize;
    if at >= inputs.len() {
        return Err(WorkFault::Stranger(job));
    }
    if places[at].is_some() {
        return Err(WorkFault::Stranger(job));
    }
    let wanted = inputs[at];
    if !wanted.is_same(input) {
        return Err(WorkFault::Stranger(job));
    }
    places[at] = Some(result);
    Ok(())
}

// The results, where each job has one.
fn filled(alloc: Global, inputs: &[&Input], places: Vec<Place>) -> Result<Vec<Done>, WorkFault>
    requires results { AreResultsAt inputs.now places.items }
    requires count { length inputs.now < 2 ^ 32 }
    ensures done { IfOk result (λ done. AreLentResults inputs.now done.items) }
    ensures jobs { IfOk result (λ done. AreNumbered done.items) }
    ensures fault { IfErr result (λ f. f ≢ WorkFault.PassesOut) }
    ensures missing { IfErr result (IsPlaceFault places.items) }
{
    let mut done = Vec::with_capacity(alloc, places.len())?;
    for place in places {
        let job = number_of(done.len());
        let Some(result) = place else {
            return Err(WorkFault::JobMissing(job));
        };
        put(&mut done, Done { job, result })?;
    }
    Ok(done)
}

// Adds a result.
fn put(done: &mut Vec<Done>, one: Done) -> Result<(), WorkFault>
    ensures added { OnOk result (done.new.items ≡ done.old.items ++ one ∷ []) }
    ensures fault { IfErr result (λ f. f ≡ WorkFault.Memory) }
{
    match done.push(one) {
        Ok(()) => Ok(()),
        Err(_) => Err(WorkFault::Memory),
    }
}

/// Why the passes don't have just the entries of the receipts, each as often: `Stranger` names the least job whose entry they lack,
/// or else, where they have more, the number of jobs. Where each pass has its entries in the order of the jobs, as workers leave them, each
/// entry is looked at once. Else each job's is sought among all that are left.
#[tactic(auto, unfolding(crate::specs::Works::entries_in))]
pub(crate) fn stranger_of<L: Side>(
    alloc: Global,
    done: &[Done],
    passes: &[Pass<L>],
) -> Option<WorkFault>
    ensures entries { IsNone result → IsPermutation (entries_in done.now) (all_calls passes.now) }
    ensures own { IsNone result → AreOwn passes.now }
    ensures fault { IfSome result (λ f. f ≢ WorkFault.PassesOut) }
    ensures stranger { IfSome result (IsEntriesFault done.now passes.now) }
{
    if are_in_order(alloc, done, passes) {
        return None;
    }
    let Ok(mut left) = calls_in(alloc, passes) else {
        return Some(WorkFault::Memory);
    };
    for job in 0..done.len() {
        if !strike(&mut left, &done[job].result) {
            return Some(WorkFault::Stranger(number_of(job)));
        }
    }
    if left.is_empty() {
        None
    } else {
        Some(WorkFault::Stranger(number_of(done.len())))
    }
}

// Takes the entry of a result out, if it has one. False where it is not there.
fn strike(left: &mut Vec<&Entry>, answer: &Result<(Notes, Receipt), JobFault>) -> bool
    ensures struck { result ≡ true → IsPermutation (views_of left.old.items) (entry_in answer.now ++ views_of left.new.items) }
    ensures lacks { result ≡ false → IsLackedBy (views_of left.old.items) answer.now }
{
    let Ok((_, receipt)) = answer else {
        return true;
    };
    match place_of(left, &receipt.entry) {
        Some(at) => {
            left.remove(at);
            true
        }
        None => false,
    }
}

// All entries of the passes.
#[tactic(auto, unfolding(crate::specs::Works::all_calls))]
fn calls_in<'a, L: Side>(alloc: Global, passes: &'a [Pass<L>]) -> Result<Vec<&'a Entry>, AllocError>
    ensures calls { IfOk result (λ left. views_of left.items ≡ all_calls passes.now) }
    ensures own { IfOk result (λ _. AreOwn passes.now) }
{
    let mut left = Vec::new(alloc);
    for pass in passes {
        add_calls(&mut left, pass.calls())?;
    }
    Ok(left)
}

// Adds the entries of one pass.
fn add_calls<'a>(left: &mut Vec<&'a Entry>, calls: &'a [Entry]) -> Result<(), AllocError>
    ensures { OnOk result (views_of left.new.items ≡ views_of left.old.items ++ entry_views calls.now) }
{
    for entry in calls {
        left.push(entry)?;
    }
    Ok(())
}

// Where an entry stands.
fn place_of(left: &[&Entry], entry: &Entry) -> Option<usize>
    ensures at { IfSome result (λ at. (at < length left.now) × ((d : Bor Entry) → entry_view (slice_index_or left.now at d).now ≡ entry_view entry.now)) }
    ensures none { IsNone result → AllByRecursion (λ e. e ≢ entry_view entry.now) (views_of left.now) }
{
    for at in 0..left.len() {
        if left[at].is_same(entry) {
            return Some(at);
        }
    }
    None
}

// The number of a job. There are fewer than 2^32.
fn number_of(job: usize) -> u32
    ensures { job < 2 ^ 32 → result ≡ job }
{
    u32::try_from(job).unwrap_or(u32::MAX)
}
