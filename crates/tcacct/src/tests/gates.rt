//! Bills whose workers are held or watched by gates: two jobs are begun before either is done, each replica has workers of its own, and the
//! inputs go round the replicas. Each wait has a limit, so that the tests end where it is not so.
use crate::tests::commands::{FIRST, OPENING, PLAN, Row, SECOND, THIRD, THREE_REPORTS};
use crate::tests::meeting::Meeting;
use crate::tests::replicated::export_of_each;
use std::alloc::Global;
use std::process::Abort;
use std::sync::Wait;
use std::sync::atomic::{AtomicU64, Ordering};
use std::test::*;
use std::thread::Threads;
use tca_commands::run_bill;
use tca_ingest::Gate;
use tca_report::Host;

// The jobs in the order in which they came, each counted from 1.
#[derive(Drop)]
struct Watch {
    came: AtomicU64,
    first: AtomicU64,
    second: AtomicU64,
    third: AtomicU64,
}

impl Gate for Watch {
    fn before(&self, job: u32) {
        let job = u64::from(job).wrapping_add(1);
        match self.came.fetch_add(1, Ordering::SeqCst) {
            0 => self.first.store(job, Ordering::SeqCst),
            1 => self.second.store(job, Ordering::SeqCst),
            _ => self.third.store(job, Ordering::SeqCst),
        }
    }

    fn inside(&self, _job: u32) {}

    fn after(&self, _job: u32) {}
}

// Whether inputs of a report each, which hold the three reports, are billed by so many replicas, each of so many workers.
fn bills<R: Threads + Wait + Sync, G: Gate>(
    rt: &R,
    alloc: Global,
    rows: &[Row],
    (replicas, workers): (u32, u32),
    gate: &G,
) -> bool {
    let Ok(inputs) = export_of_each(alloc, rows) else {
        return false;
    };
    if inputs.len() < 1 || inputs.len() > 256 {
        return false;
    }
    if replicas < 1 || replicas > 16 || workers < 1 || workers > 64 {
        return false;
    }
    let mut out = Host::new(Vec::new(alloc));
    let export: Option<&mut Host<Vec<u8>>> = None;
    let plan = PLAN.as_bytes();
    let billed = run_bill(
        rt, alloc, plan, &inputs, replicas, workers, gate, export, &mut out,
    );
    let Ok(text) = format!(in alloc; "{OPENING}{THREE_REPORTS}") else {
        return false;
    };
    billed.is_ok() && out.into_inner().as_slice() == text.as_bytes()
}

#[test]
fn two_jobs_meet(rt: HostRuntime) {
    let gate = Meeting::new(&rt);
    assert!(rt; bills(&rt, rt.alloc(), &[FIRST, SECOND, THIRD], (1, 2), &gate));
    assert!(rt; gate.came_about());
}

// The first replica has two inputs, the second one.
#[test]
fn each_replica_has_its_own_jobs(rt: HostRuntime) {
    let gate = Watch {
        came: AtomicU64::new(0),
        first: AtomicU64::new(0),
        second: AtomicU64::new(0),
        third: AtomicU64::new(0),
    };
    assert!(rt; bills(&rt, rt.alloc(), &[FIRST, SECOND, THIRD], (2, 2), &gate));
    let first = gate.first.load(Ordering::SeqCst);
    let second = gate.second.load(Ordering::SeqCst);
    let third = gate.third.load(Ordering::SeqCst);
    assert!(rt; gate.came.load(Ordering::SeqCst) == 3);
    assert!(rt; (first == 1 && second == 2) || (first == 2 && second == 1));
    assert!(rt; third == 1);
}

// The jobs in the order in which they began and ended, each a digit counted from 1.
#[derive(Drop)]
struct Order {
    jobs: AtomicU64,
}

impl Order {
    fn note(&self, job: u32) {
        let before = self.jobs.load(Ordering::SeqCst).wrapping_mul(10);
        let job = u64::from(job).wrapping_add(1);
        self.jobs.store(before.wrapping_add(job), Ordering::SeqCst);
    }
}

impl Gate for Order {
    fn before(&self, job: u32) {
        self.note(job);
    }

    fn inside(&self, _job: u32) {}

    fn after(&self, job: u32) {
        self.note(job);
    }
}

// Of five inputs the first replica of three has two, as has the second, and the third has one.
#[test]
fn inputs_go_round_the_replicas(rt: HostRuntime) {
    let gate = Order {
        jobs: AtomicU64::new(0),
    };
    let rows = [FIRST, SECOND, THIRD, FIRST, SECOND];
    assert!(rt; bills(&rt, rt.alloc(), &rows, (3, 1), &gate));
    assert!(rt; gate.jobs.load(Ordering::SeqCst) == 1_122_112_211);
}
