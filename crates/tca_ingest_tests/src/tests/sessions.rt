//! Two sessions of one domain with the same places, in a shared replica: by a take, and by workers.
ghost use Rattle.std.specs.Prelude.{◌≡◌, ◌≤◌, IfSome, length};

use super::{FIRST, PARTS, TEMPLATE_AND_RECORD, closed_with, plan, report_of, whole};
use std::alloc::{AllocError, Global};
use std::marker::Brand;
use std::sync::Wait;
use std::sync::ledger::Blank;
use std::thread::Threads;
use tca_accounts::{Bill, Plan};
use tca_ingest::{Closed, Entry, NoGate, Pass, Shared, Side, work};
use tca_report::{Input, Report};

// Another content of the first row's identity.
const OTHER: (u32, u32, u32) = (0, 0, 1501);

// The first row in two sessions, and the other content in the first of them.
fn in_two_sessions(alloc: Global) -> Option<Vec<Report>> {
    let mut list = Vec::new(alloc);
    for (session, row) in [(1, FIRST), (2, FIRST), (1, OTHER)] {
        let Some(report) = report_of(session, row) else {
            return None;
        };
        if list.push(report).is_err() {
            return None;
        }
    }
    Some(list)
}

// Whether a bill has the content of the second session alone, the other two being disputed.
fn is_of_the_second(bill: &Bill) -> bool {
    let octets = match bill.accounts.as_slice().first() {
        Some(tally) => tally.total.octets(),
        None => [0; 3],
    };
    (octets, bill.reports, bill.disputed) == ([1500, 0, 0], 3, 1)
}

// Whether an entry has such a bill.
fn states_the_second(entry: &Entry) -> bool {
    match entry {
        Entry::Answered { bill, .. } => is_of_the_second(bill),
        _ => false,
    }
}

// One pass takes them, and asks.
fn asks<L: Side, R: Wait>(rt: &R, alloc: Global, shared: &Shared<L>) -> bool {
    let Ok(mut pass) = shared.pass(rt) else {
        return false;
    };
    let Some(list) = in_two_sessions(alloc) else {
        return false;
    };
    let Ok(taken) = shared.take(rt, &mut pass, &list) else {
        return false;
    };
    let Ok(said) = shared.statement(rt, &mut pass) else {
        return false;
    };
    whole(&taken.entry) == Some(3) && states_the_second(&said.entry)
}

fn takes_and_asks<L: Side, R: Wait>(
    rt: &R,
    alloc: Global,
    blank: Blank,
    name: u32,
    plan: Plan,
) -> bool
    requires name { blank.name ≡ L.name }
    requires parts { (blank.parts ≡ L.parts) × (L.parts ≡ 65537) }
    requires called { name ≡ L.called }
    requires plan { plan ≡ L.plan }
{
    let Ok(shared) = Shared::<L>::new(alloc, blank, name, plan) else {
        return false;
    };
    asks(rt, alloc, &shared)
}

#[test]
fn sessions_of_one_domain_are_taken_apart(rt: HostRuntime) {
    let Ok(plan) = plan(rt.alloc()) else {
        panic!(rt; "a plan");
    };
    assert!(rt; takes_and_asks::<Brand, _>(&rt, rt.alloc(), Blank::new(PARTS), 1, plan));
}

// One message in two sessions, and another one of the same place in the first of them, as inputs.
fn messages(alloc: Global) -> Result<Vec<Input>, AllocError> {
    let mut other = TEMPLATE_AND_RECORD;
    other[59] = 0xdd;
    let mut all = Vec::with_capacity(alloc, 3)?;
    for (session, octets) in [
        (1, TEMPLATE_AND_RECORD),
        (2, TEMPLATE_AND_RECORD),
        (1, other),
    ] {
        let octets = Vec::from_slice(alloc, &octets)?;
        all.push(Input { session, octets })?;
    }
    Ok(all)
}

// The same, where there are at most three.
fn inputs(alloc: Global) -> Option<Vec<Input>>
    ensures { IfSome result (λ all. length all.items ≤ 3) }
{
    let Ok(all) = messages(alloc) else {
        return None;
    };
    if all.len() > 3 {
        return None;
    }
    Some(all)
}

// The passes of two workers that took the inputs.
fn worked<L: Side + Send + Sync, R: Threads + Wait + Sync>(
    rt: &R,
    alloc: Global,
    shared: &Shared<L>,
) -> Option<Vec<Pass<L>>> {
    let Some(inputs) = inputs(alloc) else {
        return None;
    };
    let Ok(worked) = work(rt, alloc, shared, &inputs, &NoGate, 2) else {
        return None;
    };
    Some(worked.passes)
}

// Whether a closed replica has three entries and such a bill.
fn closes_with_the_second(closed: &Closed) -> bool {
    match closed.replica.totals() {
        Ok(bill) => closed.journal.len() == 3 && is_of_the_second(&bill),
        Err(_) => false,
    }
}

// Whether two workers take the inputs, and the replica closes.
fn work_and_close<L: Side + Send + Sync, R: Threads + Wait + Sync>(
    rt: &R,
    alloc: Global,
    shared: Shared<L>,
) -> bool {
    let Some(passes) = worked(rt, alloc, &shared) else {
        return false;
    };
    match closed_with(shared, passes) {
        Some(closed) => closes_with_the_second(&closed),
        None => false,
    }
}

fn works_and_closes<L: Side + Send + Sync, R: Threads + Wait + Sync>(
    rt: &R,
    alloc: Global,
    blank: Blank,
    name: u32,
    plan: Plan,
) -> bool
    requires name { blank.name ≡ L.name }
    requires parts { (blank.parts ≡ L.parts) × (L.parts ≡ 65537) }
    requires called { name ≡ L.called }
    requires plan { plan ≡ L.plan }
{
    let Ok(shared) = Shared::<L>::new(alloc, blank, name, plan) else {
        return false;
    };
    work_and_close(rt, alloc, shared)
}

#[test]
fn workers_take_each_input_in_its_session(rt: HostRuntime) {
    let Ok(plan) = plan(rt.alloc()) else {
        panic!(rt; "a plan");
    };
    assert!(rt; works_and_closes::<Brand, _>(&rt, rt.alloc(), Blank::new(PARTS), 1, plan));
}
