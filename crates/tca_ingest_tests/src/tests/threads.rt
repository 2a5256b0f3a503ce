//! Two threads on one replica.
ghost use Rattle.std.specs.Prelude.{◌≡◌};

use super::{FIRST, PARTS, SECOND, THIRD, alone, closed_with, plan, reports, with_one_more};
use std::alloc::Global;
use std::marker::Brand;
use std::sync::Wait;
use std::sync::ledger::Blank;
use std::thread;
use std::thread::Threads;
use tca_accounts::Plan;
use tca_gossip::{Delta, Replica, Run};
use tca_ingest::{Closed, Entry, Pass, Shared, Side};
use tca_join::Items;
use tca_log::Log;
use tca_report::Report;

// What two threads give one replica: a list each, and a delta of two origins that both absorb.
#[derive(Drop)]
struct Day {
    some: Vec<Report>,
    others: Vec<Report>,
    delta: Delta,
}

// The first rows of an origin.
fn run_of(alloc: Global, origin: u32, rows: &[(u32, u32, u32)]) -> Option<Run> {
    let reports = reports(alloc, rows)?;
    let reports = Items::of(alloc, reports).ok()?;
    Some(Run {
        origin,
        start: 0,
        reports,
    })
}

// The delta that both absorb.
fn absorbed(alloc: Global) -> Option<Delta> {
    let mut runs = Vec::new(alloc);
    runs.push(run_of(alloc, 2, &[THIRD, (9, 3, 40)])?).ok()?;
    runs.push(run_of(alloc, 3, &[(8, 4, 50)])?).ok()?;
    Delta::of(runs)
}

fn planned(alloc: Global) -> Option<Day> {
    let Some(delta) = absorbed(alloc) else {
        return None;
    };
    let Some(some) = reports(alloc, &[FIRST, SECOND, (5, 7, 90)]) else {
        return None;
    };
    let Some(others) = reports(alloc, &[SECOND, THIRD, (6, 8, 70), (5, 9, 60)]) else {
        return None;
    };
    Some(Day {
        some,
        others,
        delta,
    })
}

// Whether an entry is an absorb that went to its end.
fn is_whole(entry: &Entry) -> bool {
    match entry {
        Entry::Absorbed { result, .. } => result.is_ok(),
        _ => false,
    }
}

// Takes reports one by one, asking for the statement after each, and absorbs a delta; answers whether nothing was refused.
fn works<L: Side, R: Wait>(
    rt: &R,
    shared: &Shared<L>,
    pass: &mut Pass<L>,
    list: &[Report],
    delta: &Delta,
) -> bool {
    for report in list {
        let one = [*report];
        if shared.take(rt, pass, &one).is_err() || shared.statement(rt, pass).is_err() {
            return false;
        }
    }
    match shared.absorb(rt, pass, delta) {
        Ok(receipt) => is_whole(&receipt.entry),
        Err(_) => false,
    }
}

// Two threads work on one replica; answers whether nothing was refused.
fn at_once<L: Side + Send + Sync, R: Threads + Wait + Sync>(
    rt: &R,
    shared: &Shared<L>,
    first: &mut Pass<L>,
    second: &mut Pass<L>,
    day: &Day,
) -> bool {
    let (one, other) = thread::join(
        rt,
        move || works(rt, shared, first, &day.some, &day.delta),
        move || works(rt, shared, second, &day.others, &day.delta),
    );
    one && other
}

// Whether two logs have the same reports.
fn are_same(one: &Log, other: &Log) -> bool {
    if one.len() != other.len() {
        return false;
    }
    for report in one.reports() {
        if !other.contains(report) {
            return false;
        }
    }
    true
}

// Whether the replica is as one that a single thread gave all of it, with this many entries.
fn is_as_plain(closed: &Closed, plain: &mut Replica, day: &Day) -> bool {
    plain.take(&day.some);
    plain.take(&day.others);
    let absorbed = plain.absorb(&day.delta).is_ok();
    let Ok(bill) = closed.replica.totals() else {
        return false;
    };
    let Ok(plain_bill) = plain.totals() else {
        return false;
    };
    let whole = closed.journal.len() == 16 && absorbed;
    whole && bill.is_same(&plain_bill) && are_same(closed.replica.log(), plain.log())
}

// The passes of two threads that were refused nothing.
fn worked<L: Side + Send + Sync, R: Threads + Wait + Sync>(
    rt: &R,
    alloc: Global,
    shared: &Shared<L>,
    day: &Day,
) -> Option<Vec<Pass<L>>> {
    let Ok(mut first) = shared.pass(rt) else {
        return None;
    };
    let Ok(mut second) = shared.pass(rt) else {
        return None;
    };
    if !at_once(rt, shared, &mut first, &mut second, day) {
        return None;
    }
    let Ok(one) = alone(alloc, second) else {
        return None;
    };
    with_one_more(one, first).ok()
}

// What two threads leave of a replica.
fn closed_after<L: Side + Send + Sync, R: Threads + Wait + Sync>(
    rt: &R,
    alloc: Global,
    shared: Shared<L>,
    day: &Day,
) -> Option<Closed> {
    let Some(passes) = worked(rt, alloc, &shared, day) else {
        return None;
    };
    closed_with(shared, passes)
}

// Two threads share a replica, which is closed then and compared with a plain one.
fn shares<L: Side + Send + Sync, R: Threads + Wait + Sync>(
    rt: &R,
    alloc: Global,
    shared: Shared<L>,
    plain: Replica,
) -> bool {
    let Some(day) = planned(alloc) else {
        return false;
    };
    let Some(closed) = closed_after(rt, alloc, shared, &day) else {
        return false;
    };
    let mut other = plain;
    is_as_plain(&closed, &mut other, &day)
}

fn by_two<L: Side + Send + Sync, R: Threads + Wait + Sync>(
    rt: &R,
    alloc: Global,
    blank: Blank,
    name: u32,
    plan: Plan,
) -> bool
    requires name { blank.name ≡ L.name }
    requires parts { (blank.parts ≡ L.parts) × (L.parts ≡ 65537) }
    requires called { name ≡ L.called }
    requires plan { plan ≡ L.plan }
{
    let Ok(copy) = plan.copy(alloc) else {
        return false;
    };
    let Ok(plain) = Replica::new(alloc, name, copy) else {
        return false;
    };
    let Ok(shared) = Shared::<L>::new(alloc, blank, name, plan) else {
        return false;
    };
    shares(rt, alloc, shared, plain)
}

#[test]
fn two_threads_share_a_replica(rt: HostRuntime) {
    let Ok(plan) = plan(rt.alloc()) else {
        panic!(rt; "a plan");
    };
    assert!(rt; by_two::<Brand, _>(&rt, rt.alloc(), Blank::new(PARTS), 1, plan));
}
