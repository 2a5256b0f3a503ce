//! Workers that may be refused a growth, alone and followed by the same workers again. The tests are run with each growth refused in turn,
//! once each: whatever is refused, the passes that are handed back close the replica, whose log and bill are those of its journal, one
//! of two times the jobs are done whole, and a worker that gets no thread does nothing.
ghost use Rattle.std.specs.Prelude.{◌≡◌, ◌≤◌, length};

use super::jobs::exports;
use super::{FIRST, PARTS, SECOND, closed_with, has_list, lengths, plan, reports, whole};
use std::alloc::{AllocError, Global};
use std::marker::Brand;
use std::sync::Wait;
use std::sync::ledger::Blank;
use std::test::Fail;
use std::thread::Threads;
use tca_accounts::{Bill, Plan};
use tca_ingest::{
    Closed, Done, Entry, JobFault, NoGate, Pass, ShareFault, Shared, Side, WorkFault, WorkRefused,
    Worked, work,
};
use tca_log::LogFault;
use tca_report::{Input, InputFault, Report};

// Whether a job was done, or was refused for memory.
fn is_done(done: &Done) -> bool {
    match &done.result {
        Ok((_, receipt)) => match &receipt.entry {
            Entry::Took { stop, .. } => *stop == None || *stop == Some(LogFault::Memory),
            _ => false,
        },
        Err(JobFault::Input(fault)) => *fault == InputFault::Memory,
        Err(JobFault::Share(fault)) => *fault == ShareFault::Memory,
    }
}

// Whether memory was refused, or a thread, which needs memory too.
fn is_refused(fault: WorkFault) -> bool {
    fault == WorkFault::Memory || fault == WorkFault::NoThread
}

// Whether a job took all reports of its input.
fn is_whole(done: &Done) -> bool {
    match &done.result {
        Ok((_, receipt)) => whole(&receipt.entry) == Some(1),
        Err(_) => false,
    }
}

// Whether two jobs were done, or were refused for memory.
fn are_done(done: &[Done]) -> bool {
    done.len() == 2 && done.iter().all(is_done)
}

// The workers' passes, and whether both jobs took all of their input, where what came of their work is right.
fn passes_of<L: Side + Send + Sync, R: Threads + Wait + Sync>(
    rt: &R,
    alloc: Global,
    shared: &Shared<L>,
    inputs: &[Input],
) -> Option<(bool, Vec<Pass<L>>)>
    requires { length inputs.now ≤ 3 }
{
    let (is_right, all, passes) = match work(rt, alloc, shared, inputs, &NoGate, 2) {
        Ok(Worked { done, passes }) => (are_done(&done), done.iter().all(is_whole), passes),
        Err(WorkRefused { fault, passes }) => (is_refused(fault), false, passes),
    };
    if is_right { Some((all, passes)) } else { None }
}

// The passes of workers who did the jobs twice, one after the other, where one time they did them whole: one refusal spoils one time.
fn passes_of_twice<L: Side + Send + Sync, R: Threads + Wait + Sync>(
    rt: &R,
    alloc: Global,
    shared: &Shared<L>,
    inputs: &[Input],
) -> Result<Vec<Pass<L>>, Fail>
    requires { length inputs.now ≤ 3 }
{
    let (first, mut passes) = passes_of(rt, alloc, shared, inputs).ok_or("workers")?;
    let (again, others) = passes_of(rt, alloc, shared, inputs).ok_or("workers")?;
    for pass in others {
        passes.push(pass)?;
    }
    if !first && !again {
        return Err(Fail::from("neither time the jobs were done"));
    }
    Ok(passes)
}

// Whether a bill has these octets and so many reports, or was refused for memory.
fn is_of(bill: &Result<Bill, AllocError>, octets: [u64; 3], count: u32) -> bool {
    let Ok(bill) = bill else {
        return true;
    };
    match bill.accounts.as_slice().first() {
        Some(tally) => (tally.total.octets(), bill.reports) == (octets, count),
        None => false,
    }
}

// Whether an entry is a take of this report alone.
fn took(entry: &Entry, report: &Report) -> bool {
    match entry {
        Entry::Took { reports, .. } => {
            reports.len() == 1 && reports.as_slice().first() == Some(report)
        }
        _ => false,
    }
}

// Whether an entry is a take of no report.
fn took_nothing(entry: &Entry) -> bool {
    match entry {
        Entry::Took { reports, .. } => reports.len() == 0,
        _ => false,
    }
}

// Whether each entry is a take of one of the two rows or of nothing, and log and bill are those of these takes.
fn is_after(closed: &Closed, list: &[Report]) -> bool {
    let [first, second] = list else {
        return false;
    };
    let journal = closed.journal.as_slice();
    let are_takes = journal.iter().all(|entry| {
        took(entry, first) || took(entry, second) || took_nothing(entry)
    });
    let (one, other) = (
        journal.iter().any(|entry| took(entry, first)),
        journal.iter().any(|entry| took(entry, second)),
    );
    let (held, octets, count): (&[Report], [u64; 3], u32) = match (one, other) {
        (true, true) => (list, [1500, 1000, 0], 2),
        (true, false) => (list.get(..1).unwrap_or(list), [1500, 0, 0], 1),
        (false, true) => (list.get(1..).unwrap_or(list), [1000, 0, 0], 1),
        (false, false) => (&[], [0, 0, 0], 0),
    };
    let bill = closed.replica.totals();
    are_takes && has_list(&closed.replica, held) && is_of(&bill, octets, count)
}

fn works_and_closes<L: Side + Send + Sync, R: Threads + Wait + Sync>(
    rt: &R,
    alloc: Global,
    blank: Blank,
    name: u32,
    plan: Plan,
) -> Result<bool, Fail>
    requires name { blank.name ≡ L.name }
    requires parts { (blank.parts ≡ L.parts) × (L.parts ≡ 65537) }
    requires called { name ≡ L.called }
    requires plan { plan ≡ L.plan }
{
    let inputs = exports(alloc, &[FIRST, SECOND]).ok_or("inputs")?;
    let list = reports(alloc, &[FIRST, SECOND]).ok_or("reports")?;
    let shared = Shared::<L>::new(alloc, blank, name, plan)?;
    let passes = passes_of_twice(rt, alloc, &shared, &inputs)?;
    let closed = closed_with(shared, passes).ok_or("a close")?;
    Ok(has_list(&closed.replica, &list) && is_of(&closed.replica.totals(), [1500, 1000, 0], 2))
}

#[test]
fn workers_that_were_refused_close(rt: HostRuntime) -> Result<(), Fail> {
    let plan = plan(rt.alloc())?;
    assert!(rt; works_and_closes::<Brand, _>(&rt, rt.alloc(), Blank::new(PARTS), 1, plan)?);
    Ok(())
}

// Whether a replica whose workers may have been refused a growth closes, and is what its journal says.
fn closes_after<L: Side>(shared: Shared<L>, passes: Vec<Pass<L>>, list: &[Report]) -> bool {
    match closed_with(shared, passes) {
        Some(closed) => is_after(&closed, list),
        None => false,
    }
}

fn works_once<L: Side + Send + Sync, R: Threads + Wait + Sync>(
    rt: &R,
    alloc: Global,
    blank: Blank,
    name: u32,
    plan: Plan,
) -> Result<bool, Fail>
    requires name { blank.name ≡ L.name }
    requires parts { (blank.parts ≡ L.parts) × (L.parts ≡ 65537) }
    requires called { name ≡ L.called }
    requires plan { plan ≡ L.plan }
{
    let inputs = exports(alloc, &[FIRST, SECOND]).ok_or("inputs")?;
    let list = reports(alloc, &[FIRST, SECOND]).ok_or("reports")?;
    let shared = Shared::<L>::new(alloc, blank, name, plan)?;
    match passes_of(rt, alloc, &shared, &inputs) {
        Some((_all, passes)) => Ok(closes_after(shared, passes, &list)),
        None => Ok(false),
    }
}

#[test]
fn workers_that_were_refused_close_at_once(rt: HostRuntime) -> Result<(), Fail> {
    let plan = plan(rt.alloc())?;
    assert!(rt; works_once::<Brand, _>(&rt, rt.alloc(), Blank::new(PARTS), 1, plan)?);
    Ok(())
}

// Whether a worker that was refused its thread made no entry.
fn is_idle_without_thread<L: Side + Send + Sync, R: Threads + Wait + Sync>(
    rt: &R,
    alloc: Global,
    shared: Shared<L>,
    inputs: &[Input],
) -> bool
    requires { length inputs.now ≤ 3 }
{
    let Err(refused) = work(rt, alloc, &shared, inputs, &NoGate, 1) else {
        return true;
    };
    refused.fault != WorkFault::NoThread || lengths(shared, refused.passes) == Some((0, 0))
}

fn works_by_one<L: Side + Send + Sync, R: Threads + Wait + Sync>(
    rt: &R,
    alloc: Global,
    blank: Blank,
    name: u32,
    plan: Plan,
) -> Result<bool, Fail>
    requires name { blank.name ≡ L.name }
    requires parts { (blank.parts ≡ L.parts) × (L.parts ≡ 65537) }
    requires called { name ≡ L.called }
    requires plan { plan ≡ L.plan }
{
    let inputs = exports(alloc, &[FIRST]).ok_or("inputs")?;
    let shared = Shared::<L>::new(alloc, blank, name, plan)?;
    Ok(is_idle_without_thread(rt, alloc, shared, &inputs))
}

#[test]
fn a_worker_that_was_refused_its_thread_does_nothing(rt: HostRuntime) -> Result<(), Fail> {
    let plan = plan(rt.alloc())?;
    assert!(rt; works_by_one::<Brand, _>(&rt, rt.alloc(), Blank::new(PARTS), 1, plan)?);
    Ok(())
}
