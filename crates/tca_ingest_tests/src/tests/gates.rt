//! Workers that are held by gates: two jobs are begun before either is done, as many as there are workers, and a replica that is held
//! holds no other one; and a lock that is held as a job's take begins, and neither before nor after it. Each wait has a limit, so that the tests end where it is not so.
ghost use Rattle.std.specs.Prelude.{◌≡◌, ◌≤◌, IfSome, length};

use super::jobs::{exports, have_fronts};
use super::meeting::{Meeting, reaches};
use super::{FIRST, PARTS, SECOND, THIRD, lengths, plain, plan};
use std::alloc::Global;
use std::marker::Brand;
use std::sync::Wait;
use std::sync::atomic::{AtomicU64, Ordering};
use std::sync::ledger::Blank;
use std::thread;
use std::thread::Threads;
use std::time::{Clock, Duration};
use tca_accounts::Plan;
use tca_ingest::{Entry, Gate, Pass, Shared, Side, work};
use tca_report::Input;

// The counts of results, entries and reports after workers took inputs, where the replica closes and the fronts of the receipts are
// those of its entries.
fn taken<L: Side + Send + Sync, R: Threads + Wait + Sync, G: Gate>(
    rt: &R,
    alloc: Global,
    shared: Shared<L>,
    inputs: &[Input],
    gate: &G,
    workers: u32,
) -> Option<(usize, usize, u32)>
    requires workers { (1 ≤ workers) × (workers ≤ 64) }
    requires inputs { length inputs.now ≤ 192 }
{
    let worked = work(rt, alloc, &shared, inputs, gate, workers).ok()?;
    let done = worked.done.len();
    let (entries, held) = lengths(shared, worked.passes)?;
    if have_fronts(&worked.done, entries as u64) {
        Some((done, entries, held))
    } else {
        None
    }
}

// Whether the first two of three jobs meet.
fn meet<L: Side + Send + Sync, R: Threads + Wait + Clock + Sync>(
    rt: &R,
    alloc: Global,
    shared: Shared<L>,
) -> bool {
    let Some(inputs) = exports(alloc, &[FIRST, SECOND, THIRD]) else {
        return false;
    };
    let gate = Meeting::new(rt);
    let counts = taken(rt, alloc, shared, &inputs, &gate, 2);
    gate.came_about() && counts == Some((3, 3, 3))
}

fn meets<L: Side + Send + Sync, R: Threads + Wait + Clock + Sync>(
    rt: &R,
    alloc: Global,
    blank: Blank,
    name: u32,
    plan: Plan,
) -> bool
    requires name { blank.name ≡ L.name }
    requires parts { (blank.parts ≡ L.parts) × (L.parts ≡ 65537) }
    requires called { name ≡ L.called }
    requires plan { plan ≡ L.plan }
{
    let Ok(shared) = Shared::<L>::new(alloc, blank, name, plan) else {
        return false;
    };
    meet(rt, alloc, shared)
}

#[test]
fn two_jobs_meet(rt: HostRuntime) {
    let Ok(plan) = plan(rt.alloc()) else {
        panic!(rt; "a plan");
    };
    assert!(rt; meets::<Brand, _>(&rt, rt.alloc(), Blank::new(PARTS), 1, plan));
}

// Each job waits for as many as there are workers.
#[derive(Drop)]
struct Rounds<'a, R: Clock> {
    rt: &'a R,
    workers: u64,
    came: AtomicU64,
    // how many waits met the limit
    late: AtomicU64,
    // the sums of the numbers, counted from 1, of the jobs that began, that came to their take, and to their end
    began: AtomicU64,
    took: AtomicU64,
    ended: AtomicU64,
}

// A job's number, counted from 1.
fn from_one(job: u32) -> u64 {
    job as u64 + 1
}

impl<'a, R: Clock + Sync> Gate for Rounds<'a, R> {
    fn before(&self, job: u32) {
        self.began.fetch_add(from_one(job), Ordering::SeqCst);
        let number = self.came.fetch_add(1, Ordering::SeqCst).wrapping_add(1);
        let round = number.div_ceil(self.workers.max(1));
        if !reaches(self.rt, &self.came, round.saturating_mul(self.workers)) {
            self.late.fetch_add(1, Ordering::SeqCst);
        }
    }

    fn inside(&self, job: u32) {
        self.took.fetch_add(from_one(job), Ordering::SeqCst);
    }

    fn after(&self, job: u32) {
        self.ended.fetch_add(from_one(job), Ordering::SeqCst);
    }
}

// 191 inputs without octets, and a last one.
fn inputs_of_rounds(alloc: Global, last: &[u8]) -> Option<Vec<Input>>
    ensures { IfSome result (λ all. length all.items ≤ 192) }
{
    let mut all = Vec::new(alloc);
    for _ in 0..191 {
        if all.push(plain(Vec::new(alloc))).is_err() {
            return None;
        }
    }
    let last = Vec::from_slice(alloc, last).ok()?;
    if all.push(plain(last)).is_err() || all.len() > 192 {
        return None;
    }
    Some(all)
}

// Whether 192 jobs came, began and ended by their numbers, the first ones took, and no wait met the limit.
fn is_through<R: Clock>(gate: &Rounds<'_, R>, takes: u64) -> bool {
    let met = (
        gate.came.load(Ordering::SeqCst),
        gate.late.load(Ordering::SeqCst),
    );
    let through = (
        gate.began.load(Ordering::SeqCst),
        gate.took.load(Ordering::SeqCst),
        gate.ended.load(Ordering::SeqCst),
    );
    // 1 + 2 + .. + n is n * (n + 1) / 2
    let all = 192 * 193 / 2;
    met == (192, 0) && through == (all, takes.saturating_mul(takes.saturating_add(1)) / 2, all)
}

// Whether this many workers take 192 inputs by rounds, of which the last one is an export that is cut, or without octets too.
fn go_by_rounds<L: Side + Send + Sync, R: Threads + Wait + Clock + Sync>(
    rt: &R,
    alloc: Global,
    shared: Shared<L>,
    workers: u32,
    is_cut: bool,
) -> bool
    requires workers { (1 ≤ workers) × (workers ≤ 64) }
{
    let (last, takes): (&[u8], u64) = if is_cut { (b"TCAX", 191) } else { (b"", 192) };
    let Some(inputs) = inputs_of_rounds(alloc, last) else {
        return false;
    };
    let gate = Rounds {
        rt,
        workers: workers as u64,
        came: AtomicU64::new(0),
        late: AtomicU64::new(0),
        began: AtomicU64::new(0),
        took: AtomicU64::new(0),
        ended: AtomicU64::new(0),
    };
    let counts = taken(rt, alloc, shared, &inputs, &gate, workers);
    is_through(&gate, takes) && counts == Some((192, takes as usize, 0))
}

fn goes_by_rounds<L: Side + Send + Sync, R: Threads + Wait + Clock + Sync>(
    rt: &R,
    alloc: Global,
    blank: Blank,
    name: u32,
    plan: Plan,
    workers: u32,
    is_cut: bool,
) -> bool
    requires name { blank.name ≡ L.name }
    requires parts { (blank.parts ≡ L.parts) × (L.parts ≡ 65537) }
    requires called { name ≡ L.called }
    requires plan { plan ≡ L.plan }
    requires workers { (1 ≤ workers) × (workers ≤ 64) }
{
    let Ok(shared) = Shared::<L>::new(alloc, blank, name, plan) else {
        return false;
    };
    go_by_rounds(rt, alloc, shared, workers, is_cut)
}

// Whether this many workers take 192 inputs by rounds, without octets and with one that is refused.
fn go_at_once<R: Threads + Wait + Clock + Sync>(rt: &R, alloc: Global, workers: u32) -> bool
    requires workers { (1 ≤ workers) × (workers ≤ 64) }
{
    for is_cut in [false, true] {
        let Ok(plan) = plan(alloc) else {
            return false;
        };
        if !goes_by_rounds::<Brand, _>(rt, alloc, Blank::new(PARTS), 1, plan, workers, is_cut) {
            return false;
        }
    }
    true
}

#[test]
fn all_workers_work_at_once(rt: HostRuntime) {
    for workers in [2, 3, 64] {
        assert!(rt; go_at_once(&rt, rt.alloc(), workers));
    }
}

// The first job is held under the lock until another replica has answered.
#[derive(Drop)]
struct Holding<'a, R: Clock> {
    rt: &'a R,
    held: AtomicU64,
    answered: AtomicU64,
    // whether the answer came before the limit
    in_time: AtomicU64,
}

impl<'a, R: Clock + Sync> Gate for Holding<'a, R> {
    fn before(&self, _job: u32) {}

    fn inside(&self, job: u32) {
        if job == 0 {
            self.held.store(1, Ordering::SeqCst);
            if reaches(self.rt, &self.answered, 1) {
                self.in_time.store(1, Ordering::SeqCst);
            }
        }
    }

    fn after(&self, _job: u32) {}
}

// Whether two workers took all inputs.
fn works<L: Side + Send + Sync, R: Threads + Wait + Clock + Sync>(
    rt: &R,
    alloc: Global,
    shared: &Shared<L>,
    inputs: &[Input],
    gate: &Holding<'_, R>,
) -> bool {
    if inputs.len() > 2 {
        return false;
    }
    match work(rt, alloc, shared, inputs, gate, 2) {
        Ok(worked) => worked.done.len() == inputs.len(),
        Err(_) => false,
    }
}

// Whether the replica answers while the other one is held.
fn answers<L: Side, R: Wait + Clock>(rt: &R, shared: &Shared<L>, gate: &Holding<'_, R>) -> bool {
    let Ok(mut pass) = shared.pass(rt) else {
        return false;
    };
    if !reaches(rt, &gate.held, 1) || shared.statement(rt, &mut pass).is_err() {
        return false;
    }
    gate.answered.store(1, Ordering::SeqCst);
    true
}

// Whether the other replica answers while the held one waits for it.
fn answers_meanwhile<
    I: Side + Send + Sync,
    F: Side + Send + Sync,
    R: Threads + Wait + Clock + Sync,
>(rt: &R, alloc: Global, held: &Shared<I>, other: &Shared<F>) -> bool {
    let Some(inputs) = exports(alloc, &[FIRST, SECOND]) else {
        return false;
    };
    let gate = Holding {
        rt,
        held: AtomicU64::new(0),
        answered: AtomicU64::new(0),
        in_time: AtomicU64::new(0),
    };
    let (list, gates) = (inputs.as_slice(), &gate);
    let done = thread::join(
        rt,
        move || works(rt, alloc, held, list, gates),
        move || answers(rt, other, gates),
    );
    (done, gate.in_time.load(Ordering::SeqCst)) == ((true, true), 1)
}

fn holds_one<I: Side + Send + Sync, F: Side + Send + Sync, R: Threads + Wait + Clock + Sync>(
    rt: &R,
    alloc: Global,
    one: (Blank, u32, Plan),
    two: (Blank, u32, Plan),
) -> bool
    requires name { (one.0.name ≡ I.name) × (two.0.name ≡ F.name) }
    requires parts { (one.0.parts ≡ I.parts) × (I.parts ≡ 65537) × (two.0.parts ≡ F.parts) × (F.parts ≡ 65537) }
    requires called { (one.1 ≡ I.called) × (two.1 ≡ F.called) }
    requires plan { (one.2 ≡ I.plan) × (two.2 ≡ F.plan) }
{
    let Ok(held) = Shared::<I>::new(alloc, one.0, one.1, one.2) else {
        return false;
    };
    let Ok(other) = Shared::<F>::new(alloc, two.0, two.1, two.2) else {
        return false;
    };
    answers_meanwhile(rt, alloc, &held, &other)
}

#[test]
fn a_replica_that_is_held_holds_no_other(rt: HostRuntime) {
    let Ok(first) = plan(rt.alloc()) else {
        panic!(rt; "a plan");
    };
    let Ok(second) = plan(rt.alloc()) else {
        panic!(rt; "a plan");
    };
    let one = (Blank::new(PARTS), 1, first);
    let two = (Blank::new(PARTS), 2, second);
    assert!(rt; holds_one::<Brand, Brand, _>(&rt, rt.alloc(), one, two));
}

// A job that waits, before it and after it, for another caller's statement; and under the lock until that caller asks for one.
#[derive(Drop)]
struct Watching<'a, R: Clock> {
    rt: &'a R,
    // how far the job is: 1 before its take, 2 in it, 3 after it
    stage: AtomicU64,
    // how many statements were asked for, and how many were answered
    asked: AtomicU64,
    answered: AtomicU64,
    // how many waits ended before the limit
    in_time: AtomicU64,
}

impl<'a, R: Clock> Watching<'a, R> {
    // The job comes to a stage, and waits for a count.
    fn comes_to(&self, stage: u64, count: &AtomicU64) {
        self.stage.store(stage, Ordering::SeqCst);
        if reaches(self.rt, count, stage) {
            self.in_time.fetch_add(1, Ordering::SeqCst);
        }
    }
}

impl<'a, R: Clock + Sync> Gate for Watching<'a, R> {
    fn before(&self, _job: u32) {
        self.comes_to(1, &self.answered);
    }

    fn inside(&self, _job: u32) {
        self.comes_to(2, &self.asked);
        // so that the caller is at the lock, were it free
        thread::sleep(self.rt, Duration::from_millis(100));
    }

    fn after(&self, _job: u32) {
        self.comes_to(3, &self.answered);
    }
}

// Whether a job took its report.
fn takes_one<L: Side + Send + Sync, R: Threads + Wait + Clock + Sync>(
    rt: &R,
    alloc: Global,
    shared: &Shared<L>,
    inputs: &[Input],
    gate: &Watching<'_, R>,
) -> bool {
    if inputs.len() > 1 {
        return false;
    }
    match work(rt, alloc, shared, inputs, gate, 1) {
        Ok(worked) => worked.done.len() == 1,
        Err(_) => false,
    }
}

// How many reports a statement counts.
fn counted<L: Side, R: Wait>(rt: &R, shared: &Shared<L>, pass: &mut Pass<L>) -> Option<u32> {
    let Ok(receipt) = shared.statement(rt, pass) else {
        return None;
    };
    match &receipt.entry {
        Entry::Answered { bill, .. } => Some(bill.reports),
        _ => None,
    }
}

// How many reports a statement counts that is asked for once the job is at a stage.
fn counted_at<L: Side, R: Wait + Clock>(
    rt: &R,
    shared: &Shared<L>,
    pass: &mut Pass<L>,
    gate: &Watching<'_, R>,
    stage: u64,
) -> Option<u32> {
    if !reaches(rt, &gate.stage, stage) {
        return None;
    }
    gate.asked.store(stage, Ordering::SeqCst);
    let count = counted(rt, shared, pass);
    gate.answered.store(stage, Ordering::SeqCst);
    count
}

// How many reports the statements count that are asked for before the job's take, in it, and after it.
fn asks_meanwhile<L: Side, R: Wait + Clock>(
    rt: &R,
    shared: &Shared<L>,
    gate: &Watching<'_, R>,
) -> [Option<u32>; 3] {
    let Ok(mut pass) = shared.pass(rt) else {
        return [None; 3];
    };
    let before = counted_at(rt, shared, &mut pass, gate, 1);
    let inside = counted_at(rt, shared, &mut pass, gate, 2);
    let after = counted_at(rt, shared, &mut pass, gate, 3);
    [before, inside, after]
}

// Whether statements are answered before a job's take and after it, and one that is asked for in it has the job's report.
fn is_watched<L: Side + Send + Sync, R: Threads + Wait + Clock + Sync>(
    rt: &R,
    alloc: Global,
    shared: &Shared<L>,
) -> bool {
    let Some(inputs) = exports(alloc, &[FIRST]) else {
        return false;
    };
    let gate = Watching {
        rt,
        stage: AtomicU64::new(0),
        asked: AtomicU64::new(0),
        answered: AtomicU64::new(0),
        in_time: AtomicU64::new(0),
    };
    let (list, gates) = (inputs.as_slice(), &gate);
    let (done, counts) = thread::join(
        rt,
        move || takes_one(rt, alloc, shared, list, gates),
        move || asks_meanwhile(rt, shared, gates),
    );
    let in_time = gate.in_time.load(Ordering::SeqCst);
    done && counts == [Some(0), Some(1), Some(1)] && in_time == 3
}

fn watches<L: Side + Send + Sync, R: Threads + Wait + Clock + Sync>(
    rt: &R,
    alloc: Global,
    blank: Blank,
    name: u32,
    plan: Plan,
) -> bool
    requires name { blank.name ≡ L.name }
    requires parts { (blank.parts ≡ L.parts) × (L.parts ≡ 65537) }
    requires called { name ≡ L.called }
    requires plan { plan ≡ L.plan }
{
    let Ok(shared) = Shared::<L>::new(alloc, blank, name, plan) else {
        return false;
    };
    is_watched(rt, alloc, &shared)
}

#[test]
fn a_job_holds_the_lock_inside_alone(rt: HostRuntime) {
    let Ok(plan) = plan(rt.alloc()) else {
        panic!(rt; "a plan");
    };
    assert!(rt; watches::<Brand, _>(&rt, rt.alloc(), Blank::new(PARTS), 1, plan));
}
