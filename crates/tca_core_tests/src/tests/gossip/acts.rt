//! Two replicas by a table: what each does, and what it is told.
use super::outcomes::{Outcome, absorbed, bill, holds, merged, took};
use super::{Part, Play, Row, delta, reports};
use crate::tests::plain::listed;
use std::alloc::{AllocError, Global};
use tca_gossip::{Delta, Replica};
use tca_report::Report;

#[derive(Clone, Copy)]
pub(super) enum Act {
    Take(&'static [Row]),
    Absorb(&'static [Part]),
    // It is told what it lacks of the other one.
    Learn,
    // It merges with the other one.
    Merge,
    // It shows how much it holds, and its bill.
    Show,
    Bill,
}

// Which of the two acts.
#[derive(Clone, Copy, PartialEq, Eq)]
pub(super) enum Who {
    One,
    Two,
}

#[derive(Clone, Copy)]
pub(super) struct Table {
    pub(super) lines: &'static [(Who, Act, Outcome)],
}

// All that a replica shows: its name, how much it holds, its bill, and its reports, those of its log and then those of each chain.
#[derive(Drop)]
struct Snapshot {
    name: u32,
    counts: Outcome,
    bill: Outcome,
    reports: Vec<Report>,
}

fn shown(alloc: Global, replica: &Replica) -> Result<Snapshot, AllocError> {
    let bill = bill(replica)?;
    let mut reports = listed(alloc, replica.log().reports())?;
    for origin in [1, 2, 3] {
        reports.extend_from_slice(replica.chain(origin))?;
    }
    Ok(Snapshot {
        name: replica.name(),
        counts: holds(replica),
        bill,
        reports,
    })
}

fn are_alike(one: &Snapshot, other: &Snapshot) -> bool {
    one.name == other.name
        && one.counts == other.counts
        && one.bill == other.bill
        && one.reports.as_slice() == other.reports.as_slice()
}

// Whether what comes of a delta may change the replica.
fn may_change(outcome: Outcome) -> bool {
    match outcome {
        Outcome::Absorbed(new) => new > 0,
        Outcome::Stopped(_, _) => true,
        _ => false,
    }
}

// A refusal, or a delta with nothing new, has to leave all as it was.
fn absorb(alloc: Global, replica: &mut Replica, delta: &Delta) -> Option<Outcome> {
    let Ok(before) = shown(alloc, replica) else {
        return None;
    };
    let outcome = absorbed(&replica.absorb(delta));
    let Ok(after) = shown(alloc, replica) else {
        return None;
    };
    if may_change(outcome) || are_alike(&before, &after) {
        return Some(outcome);
    }
    Some(Outcome::Nothing)
}

fn learn(alloc: Global, replica: &mut Replica, other: &Replica) -> Option<Outcome> {
    let Ok(counts) = replica.summary() else {
        return None;
    };
    let Ok(sent) = other.delta(&counts) else {
        return None;
    };
    absorb(alloc, replica, &sent)
}

fn take(alloc: Global, own: &mut Replica, rows: &[Row]) -> Option<Outcome> {
    let Some(list) = reports(alloc, rows) else {
        return None;
    };
    Some(took(&own.take(&list)))
}

fn absorb_parts(alloc: Global, own: &mut Replica, parts: &[Part]) -> Option<Outcome> {
    let Some(Some(sent)) = delta(alloc, parts) else {
        return None;
    };
    absorb(alloc, own, &sent)
}

fn done(alloc: Global, own: &mut Replica, other: &Replica, act: Act) -> Option<Outcome> {
    match act {
        Act::Take(rows) => take(alloc, own, rows),
        Act::Absorb(parts) => absorb_parts(alloc, own, parts),
        Act::Learn => learn(alloc, own, other),
        Act::Merge => Some(merged(own.merge(other))),
        Act::Show => Some(holds(own)),
        Act::Bill => bill(own).ok(),
    }
}

impl Play for Table {
    fn play(&self, alloc: Global, one: &mut Replica, two: &mut Replica) -> Option<bool> {
        for line in self.lines {
            let (who, what, wanted) = *line;
            let outcome = if who == Who::One {
                done(alloc, one, two, what)
            } else {
                done(alloc, two, one, what)
            };
            if outcome != Some(wanted) {
                return Some(false);
            }
        }
        Some(true)
    }
}
