//! A replica at the limit of a log.
use super::outcomes::{Outcome, absorbed, holds, merged, took};
use super::{Play, Row, delta, goes, in_row, reports};
use std::alloc::Global;
use tca_gossip::{Delta, Replica, Run};
use tca_join::{Items, JoinFault};
use tca_log::LogFault;
use tca_report::Report;

const LIMIT: u32 = 4_194_304;

// A report of a replica that is full, and three that are new to it.
const OLD: Row = (9, 9, 40);

const NEW: [Row; 3] = [(9, 10, 40), (9, 11, 40), (9, 12, 40)];

#[derive(Drop)]
struct AtTheLimit {}

// Takes reports until there is room for one more alone.
fn fill(alloc: Global, replica: &mut Replica) -> bool {
    let Some(list) = in_row(alloc, 0, LIMIT - 1) else {
        return false;
    };
    took(&replica.take(&list)) == Outcome::Took(4_194_303, 4_194_303, None)
}

fn take(alloc: Global, replica: &mut Replica, rows: &[Row]) -> Option<Outcome> {
    let Some(list) = reports(alloc, rows) else {
        return None;
    };
    Some(took(&replica.take(&list)))
}

// It takes what it has, and one new report, and stops before the next.
fn stops(alloc: Global, one: &mut Replica) -> bool {
    let [new, newer, newest] = NEW;
    let full = Some(LogFault::Full);
    take(alloc, one, &[OLD, new, OLD, newer, OLD]) == Some(Outcome::Took(3, 1, full))
        && take(alloc, one, &[newest]) == Some(Outcome::Took(0, 0, full))
        && take(alloc, one, &[OLD, new]) == Some(Outcome::Took(2, 0, None))
}

fn refuses(alloc: Global, one: &mut Replica, two: &mut Replica) -> bool {
    let Some(Some(sent)) = delta(alloc, &[(2, 0, &[OLD, (9, 12, 40)])]) else {
        return false;
    };
    let stopped = absorbed(&one.absorb(&sent)) == Outcome::Stopped(1, LogFault::Full);
    let took = take(alloc, two, &[(9, 12, 40)]) == Some(Outcome::Took(1, 1, None));
    let unmerged = merged(one.merge(two)) == Outcome::Unmerged(JoinFault::Full);
    stopped && took && unmerged && holds(one) == Outcome::Holds(LIMIT, [4_194_304, 1, 0])
}

impl Play for AtTheLimit {
    fn play(&self, alloc: Global, one: &mut Replica, two: &mut Replica) -> Option<bool> {
        Some(fill(alloc, one) && stops(alloc, one) && refuses(alloc, one, two))
    }
}

#[test]
fn a_full_replica_stops_before_what_is_new_long(rt: HostRuntime) {
    assert!(rt; goes(rt.alloc(), (1, 3), &AtTheLimit {}) == Some(true));
}

#[derive(Drop)]
struct PastTheLimit {}

// Reports that no full replica has.
fn new_ones(alloc: Global) -> Option<Vec<Report>> {
    in_row(alloc, 5_000_000, 600_000)
}

fn takes_one(alloc: Global, one: &mut Replica) -> bool {
    match new_ones(alloc) {
        Some(list) => took(&one.take(&list)) == Outcome::Took(1, 1, Some(LogFault::Full)),
        None => false,
    }
}

// A delta of them, from the start of an origin.
fn long_delta(alloc: Global) -> Option<Delta> {
    let list = new_ones(alloc)?;
    let reports = Items::of(alloc, list).ok()?;
    let mut runs = Vec::new(alloc);
    let run = Run {
        origin: 2,
        start: 0,
        reports,
    };
    runs.push(run).ok()?;
    Delta::of(runs)
}

fn absorbs_one(alloc: Global, two: &mut Replica) -> bool {
    match long_delta(alloc) {
        Some(sent) => absorbed(&two.absorb(&sent)) == Outcome::Stopped(1, LogFault::Full),
        None => false,
    }
}

impl Play for PastTheLimit {
    fn play(&self, alloc: Global, one: &mut Replica, two: &mut Replica) -> Option<bool> {
        let takes = fill(alloc, one) && takes_one(alloc, one);
        Some(takes && fill(alloc, two) && absorbs_one(alloc, two))
    }
}

#[test]
fn long_lists_stop_where_there_is_no_room_long(rt: HostRuntime) {
    assert!(rt; goes(rt.alloc(), (1, 3), &PastTheLimit {}) == Some(true));
}
