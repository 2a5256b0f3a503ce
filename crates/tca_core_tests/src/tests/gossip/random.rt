//! Lists of steps in no order, in worlds of two to five replicas, with reports that come late, again, or dispute one another.
use super::outcomes::{Outcome, outcome_of};
use super::plain::{NAMES, Plain};
use crate::tests::numbers::Numbers;
use crate::tests::plain::{PLAN, is_billed, some_content};
use std::alloc::Global;
use std::process::Abort;
use tca_accounts::{Bill, Plan, Tally, bill_all};
use tca_gossip::{Replica, Reply, Step, World};
use tca_report::{Identity, Report};

// A name that may be a stranger's.
fn some_name(numbers: &mut Numbers, names: u32) -> u32 {
    if numbers.below(20) == 0 {
        return names.wrapping_add(1);
    }
    numbers.below(names).wrapping_add(1)
}

// One of the 20 reports of a list of steps, of ten identities: five places in each of two sessions. The first ten are of an identity each.
fn numbered(list: u32, number: u32) -> Option<Report> {
    let identity = Identity {
        domain: 7,
        session: number % 2,
        place: number % 10 / 2,
    };
    let mut numbers = Numbers {
        state: list as u64 * 20 + number as u64,
    };
    let iface = numbers.below(2).wrapping_add(1);
    Report::new(identity, some_content(&mut numbers, iface))
}

// Some of the 20, whose order in time is not that of their places. Most are the first content of an identity, and dispute nothing.
fn some_reports(alloc: Global, list: u32, numbers: &mut Numbers) -> Option<Vec<Report>> {
    let mut reports = Vec::new(alloc);
    for _ in 0..numbers.below(6) {
        let bound = if numbers.below(6) == 0 { 20 } else { 10 };
        let Some(report) = numbered(list, numbers.below(bound)) else {
            return None;
        };
        if reports.push(report).is_err() {
            return None;
        }
    }
    Some(reports)
}

fn some_step(alloc: Global, list: u32, names: u32, numbers: &mut Numbers) -> Option<Step> {
    let at = some_name(numbers, names);
    let message = numbers.below(12);
    Some(match numbers.below(8) {
        0 | 1 => {
            let Some(reports) = some_reports(alloc, list, numbers) else {
                return None;
            };
            Step::Take { at, reports }
        }
        2 => Step::Ask { at },
        3 | 4 => Step::Answer { at, message },
        5 | 6 => Step::Deliver { message, to: at },
        _ => Step::Merge {
            into: at,
            other: some_name(numbers, names),
        },
    })
}

fn some_steps(alloc: Global, list: u32, names: u32, numbers: &mut Numbers) -> Option<Vec<Step>> {
    let mut steps = Vec::new(alloc);
    for _ in 0..12 {
        let Some(step) = some_step(alloc, list, names, numbers) else {
            return None;
        };
        if steps.push(step).is_err() {
            return None;
        }
    }
    Some(steps)
}

// Whether the replies are those of plain lists that do the same.
fn are_of(plain: &mut Plain, steps: &[Step], replies: &[Reply]) -> bool {
    for i in 0..steps.len() {
        let Ok(wanted) = plain.step(&steps[i]) else {
            return false;
        };
        if i >= replies.len() || outcome_of(&replies[i]) != wanted {
            return false;
        }
    }
    replies.len() == steps.len()
}

// Whether a log has these reports, in this order, and no others.
pub(super) fn has_all(replica: &Replica, list: &[Report]) -> bool {
    let mut left = replica.log().reports();
    for report in list {
        if left.next() != Some(report) {
            return false;
        }
    }
    left.next().is_none()
}

fn has_chains(replica: &Replica, plain: &Plain) -> bool {
    for origin in NAMES {
        let Ok(chain) = plain.chain(replica.name(), origin) else {
            return false;
        };
        if replica.chain(origin) != chain.as_slice() {
            return false;
        }
    }
    true
}

fn are_tallies_alike(tallies: &[Tally], others: &[Tally]) -> bool {
    let mut left = others.iter();
    for tally in tallies {
        let Some(other) = left.next() else {
            return false;
        };
        if tally.total != other.total || tally.spans.as_slice() != other.spans.as_slice() {
            return false;
        }
    }
    left.next().is_none()
}

fn are_alike(one: &Bill, other: &Bill) -> bool {
    are_tallies_alike(one.accounts.as_slice(), other.accounts.as_slice())
        && one.reports == other.reports
        && one.disputed == other.disputed
        && one.unassigned == other.unassigned
}

// Whether a replica holds what the lists say, and has the bill of its log, which is the plain one.
fn shows(alloc: Global, replica: &Replica, plain: &Plain, plan: &Plan) -> bool {
    let Ok(log) = plain.log(replica.name()) else {
        return false;
    };
    let Ok(whole) = bill_all(alloc, plan, replica.log()) else {
        return false;
    };
    let Ok(totals) = replica.totals() else {
        return false;
    };
    has_all(replica, &log)
        && has_chains(replica, plain)
        && are_alike(&totals, &whole)
        && is_billed(&totals, &log)
}

fn all_show(alloc: Global, world: &World, plain: &Plain, plan: &Plan) -> bool {
    for name in NAMES {
        if let Some(replica) = world.replica(name) {
            if !shows(alloc, replica, plain, plan) {
                return false;
            }
        }
    }
    true
}

// Whether twelve steps get the replies of plain lists, and leave what these hold.
fn agrees(
    alloc: Global,
    world: &mut World,
    plain: &mut Plain,
    plan: &Plan,
    list: u32,
    numbers: &mut Numbers,
) -> bool {
    let Some(steps) = some_steps(alloc, list, plain.names(), numbers) else {
        return false;
    };
    let Ok(replies) = world.run(&steps) else {
        return false;
    };
    are_of(plain, &steps, &replies) && all_show(alloc, world, plain, plan)
}

// Whether a world of so many names does, and again from there.
fn goes(alloc: Global, list: u32, names: u32, plan: &Plan, numbers: &mut Numbers) -> bool {
    let all = NAMES;
    let Some(some) = all.get(..names as usize) else {
        return false;
    };
    let mut plain = Plain::new(alloc, names);
    let Ok(mut world) = World::new(alloc, some, plan) else {
        return false;
    };
    agrees(alloc, &mut world, &mut plain, plan, list, numbers)
        && agrees(alloc, &mut world, &mut plain, plan, list, numbers)
}

// Compares a thousand worlds of so many names with plain lists.
fn compare(rt: &impl Abort, alloc: Global, names: u32) {
    let Ok(plan) = Plan::from_text(alloc, PLAN.as_bytes()) else {
        panic!(rt; "a plan");
    };
    let mut numbers = Numbers {
        state: names as u64,
    };
    for i in 0..1000 {
        let list = names.wrapping_mul(1000).wrapping_add(i);
        assert!(rt;
            goes(alloc, list, names, &plan, &mut numbers),
            "list {list}"
        );
    }
}

#[test]
fn any_steps_of_two_replicas_get_the_replies_of_plain_lists(rt: HostRuntime) {
    compare(&rt, rt.alloc(), 2);
}

#[test]
fn any_steps_of_three_replicas_get_the_replies_of_plain_lists(rt: HostRuntime) {
    compare(&rt, rt.alloc(), 3);
}

#[test]
fn any_steps_of_four_replicas_get_the_replies_of_plain_lists(rt: HostRuntime) {
    compare(&rt, rt.alloc(), 4);
}

#[test]
fn any_steps_of_five_replicas_get_the_replies_of_plain_lists(rt: HostRuntime) {
    compare(&rt, rt.alloc(), 5);
}
