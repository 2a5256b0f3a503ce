//! Worlds by worked steps, and steps that nothing comes of.
use super::outcomes::{Outcome, bill, outcome_of};
use super::random::has_all;
use super::{FIRST, PLAN, Row, SECOND, THIRD, reports};
use std::alloc::Global;
use std::test::Fail;
use tca_accounts::{Bill, Plan};
use tca_gossip::{Reply, Step, World, WorldFault};
use tca_report::Host;
use tca_statements::{Statement, render};

#[derive(Clone, Copy)]
enum Act {
    Take(u32, &'static [Row]),
    Ask(u32),
    Answer(u32, u32),
    Deliver(u32, u32),
    Merge(u32, u32),
}

use Act::{Answer, Ask, Deliver, Merge, Take};

fn step(alloc: Global, act: Act) -> Option<Step> {
    Some(match act {
        Take(at, rows) => {
            let Some(reports) = reports(alloc, rows) else {
                return None;
            };
            Step::Take { at, reports }
        }
        Ask(at) => Step::Ask { at },
        Answer(at, message) => Step::Answer { at, message },
        Deliver(message, to) => Step::Deliver { message, to },
        Merge(into, other) => Step::Merge { into, other },
    })
}

fn steps(alloc: Global, lines: &[(Act, Outcome)]) -> Option<Vec<Step>> {
    let mut steps = Vec::new(alloc);
    for line in lines {
        let Some(step) = step(alloc, line.0) else {
            return None;
        };
        if steps.push(step).is_err() {
            return None;
        }
    }
    Some(steps)
}

fn are(replies: &[Reply], lines: &[(Act, Outcome)]) -> bool {
    for i in 0..lines.len() {
        if i >= replies.len() || outcome_of(&replies[i]) != lines[i].1 {
            return false;
        }
    }
    replies.len() == lines.len()
}

// Runs the steps of a table, and answers whether the replies are those beside them; None where there was no memory for the steps or the
// replies.
fn runs(alloc: Global, world: &mut World, lines: &[(Act, Outcome)]) -> Option<bool> {
    let Some(steps) = steps(alloc, lines) else {
        return None;
    };
    let Ok(replies) = world.run(&steps) else {
        return None;
    };
    Some(are(&replies, lines))
}

// Whether the replica of a name has the bill of the three reports.
fn knows_three(world: &World, name: u32) -> Option<bool> {
    let Some(replica) = world.replica(name) else {
        return None;
    };
    let Ok(bill) = bill(replica) else {
        return None;
    };
    Some(bill == Outcome::Bill([1500, 1000, 800], 3, 0))
}

// Whether the log of a replica has these reports, in this order, and no others.
fn has_log(alloc: Global, world: &World, name: u32, rows: &[Row]) -> Option<bool> {
    let Some(list) = reports(alloc, rows) else {
        return None;
    };
    let Some(replica) = world.replica(name) else {
        return None;
    };
    Some(has_all(replica, &list))
}

// Whether the logs of both replicas have the three reports.
fn have_three(alloc: Global, world: &World) -> bool {
    let three = [FIRST, SECOND, THIRD];
    has_log(alloc, world, 1, &three) == Some(true) && has_log(alloc, world, 2, &three) == Some(true)
}

const TELL: [(Act, Outcome); 7] = [
    (Take(1, &[FIRST, SECOND]), Outcome::Took(2, 2, None)),
    (Take(2, &[SECOND, THIRD]), Outcome::Took(2, 2, None)),
    (Ask(1), Outcome::Sent(0)),
    (Answer(2, 0), Outcome::Sent(1)),
    (Deliver(1, 1), Outcome::Absorbed(2)),
    (Deliver(1, 1), Outcome::Absorbed(0)),
    (Merge(2, 1), Outcome::Merged),
];

// What comes of replicas and messages that aren't there, or are of the wrong kind.
const FURTHER: [(Act, Outcome); 13] = [
    (Deliver(9, 1), Outcome::Nothing),
    (Answer(2, 1), Outcome::Nothing),
    (Merge(1, 1), Outcome::Merged),
    (Take(1, &[FIRST, SECOND]), Outcome::Took(2, 0, None)),
    (Deliver(0, 1), Outcome::Nothing),
    (Take(3, &[FIRST]), Outcome::Nothing),
    (Ask(3), Outcome::Nothing),
    (Answer(3, 0), Outcome::Nothing),
    (Deliver(1, 3), Outcome::Nothing),
    (Merge(1, 3), Outcome::Nothing),
    (Merge(3, 1), Outcome::Nothing),
    (Merge(3, 3), Outcome::Nothing),
    (Ask(2), Outcome::Sent(2)),
];

fn tells(alloc: Global, world: &mut World) -> bool {
    runs(alloc, world, &TELL) == Some(true)
        && have_three(alloc, world)
        && runs(alloc, world, &FURTHER) == Some(true)
        && have_three(alloc, world)
        && knows_three(world, 1) == Some(true)
        && knows_three(world, 2) == Some(true)
}

// A part that goes on from what a replica doesn't hold, and what comes where it holds that.
const EARLY: [(Act, Outcome); 10] = [
    (Ask(1), Outcome::Sent(0)),
    (Take(2, &[FIRST]), Outcome::Took(1, 1, None)),
    (Answer(2, 0), Outcome::Sent(1)),
    (Ask(2), Outcome::Sent(2)),
    (Take(2, &[SECOND]), Outcome::Took(1, 1, None)),
    (Answer(2, 2), Outcome::Sent(3)),
    (
        Deliver(3, 1),
        Outcome::Gap {
            origin: 2,
            have: 0,
            from: 1,
        },
    ),
    (Deliver(1, 1), Outcome::Absorbed(1)),
    (Deliver(3, 1), Outcome::Absorbed(1)),
    (Deliver(3, 2), Outcome::Absorbed(0)),
];

const AGAIN: [(Act, Outcome); 2] = [
    (Merge(2, 1), Outcome::Merged),
    (Merge(1, 2), Outcome::Merged),
];

// Whether two replicas hold all in the end, where a growth may have been refused once, at any step. Want of memory for the replies has to
// leave all as it was. None where what it prepares was refused.
fn completes(alloc: Global, world: &mut World) -> Option<bool> {
    let all = steps(alloc, &TELL)?;
    let merges = steps(alloc, &AGAIN)?;
    if world.run(&all).is_err() && !runs(alloc, world, &TELL)? {
        return Some(false);
    }
    world.run(&all).ok()?;
    world.run(&merges).ok()?;
    world.run(&merges).ok()?;
    Some(knows_three(world, 1)? && knows_three(world, 2)?)
}

fn goes(alloc: Global, number: u32) -> Option<bool> {
    let Ok(plan) = Plan::from_text(alloc, PLAN.as_bytes()) else {
        return None;
    };
    let Ok(mut world) = World::new(alloc, &[2, 1], &plan) else {
        return None;
    };
    match number {
        0 => Some(tells(alloc, &mut world)),
        1 => runs(alloc, &mut world, &EARLY),
        _ => completes(alloc, &mut world),
    }
}

#[test]
fn two_replicas_tell_each_other(rt: HostRuntime) {
    assert!(rt; goes(rt.alloc(), 0) == Some(true));
}

#[test]
fn parts_that_come_too_early_come_again(rt: HostRuntime) {
    assert!(rt; goes(rt.alloc(), 1) == Some(true));
}

#[test]
fn a_run_that_was_refused_is_completed(rt: HostRuntime) -> Result<(), Fail> {
    // It is run with each growth refused in turn, too, where want of memory for what it prepares is an error, not a failed assertion.
    let went = goes(rt.alloc(), 2).ok_or("no memory to prepare it")?;
    assert!(rt; went);
    Ok(())
}

// A replica that is alone tells itself what it holds, and goes on in a second run.
const ALONE: [(Act, Outcome); 6] = [
    (Take(1, &[FIRST, SECOND]), Outcome::Took(2, 2, None)),
    (Ask(1), Outcome::Sent(0)),
    (Answer(1, 0), Outcome::Sent(1)),
    (Deliver(1, 1), Outcome::Absorbed(0)),
    (Merge(1, 1), Outcome::Merged),
    (Take(2, &[THIRD]), Outcome::Nothing),
];

const ALONE_AGAIN: [(Act, Outcome); 2] = [
    (Take(1, &[THIRD, FIRST]), Outcome::Took(2, 1, None)),
    (Ask(1), Outcome::Sent(2)),
];

const THREE: &str = "\
tcacct statement 1\nperiod 3600000\nreports 3\ndisputed 0\nunassigned 0\n\
account alpha\ntotal 1500 1 1000 1 800 1\nspan 472222 1500 1 1000 1 800 1\nend\n";

fn has_text(alloc: Global, plan: &Plan, bill: &Bill, text: &str) -> bool {
    if bill.accounts.as_slice().len() != plan.accounts() as usize {
        return false;
    }
    let Ok(statement) = Statement::of(alloc, plan, bill) else {
        return false;
    };
    let mut out = Host::new(Vec::new(alloc));
    let is_written = render(&statement, &mut out).is_ok();
    let octets = out.into_inner();
    is_written && octets.as_slice() == text.as_bytes()
}

// Whether the bill of a replica has this statement under the plan of its world.
fn states(alloc: Global, world: &World, name: u32, plan: &Plan, text: &str) -> Option<bool> {
    let Some(replica) = world.replica(name) else {
        return None;
    };
    let Ok(bill) = replica.totals() else {
        return None;
    };
    Some(has_text(alloc, plan, &bill, text))
}

fn tells_itself(alloc: Global, world: &mut World, plan: &Plan) -> bool {
    runs(alloc, world, &ALONE) == Some(true)
        && has_log(alloc, world, 1, &[FIRST, SECOND]) == Some(true)
        && runs(alloc, world, &ALONE_AGAIN) == Some(true)
        && has_log(alloc, world, 1, &[FIRST, SECOND, THIRD]) == Some(true)
        && states(alloc, world, 1, plan, THREE) == Some(true)
}

fn goes_alone(alloc: Global) -> Option<bool> {
    let Ok(plan) = Plan::from_text(alloc, PLAN.as_bytes()) else {
        return None;
    };
    let Ok(mut world) = World::new(alloc, &[1], &plan) else {
        return None;
    };
    Some(tells_itself(alloc, &mut world, &plan))
}

#[test]
fn a_replica_alone_keeps_its_plan(rt: HostRuntime) {
    assert!(rt; goes_alone(rt.alloc()) == Some(true));
}

// Why a world of these names is refused, if it is, and if there is memory for its plan.
fn refused(alloc: Global, names: &[u32]) -> Option<Option<WorldFault>> {
    let Ok(plan) = Plan::from_text(alloc, PLAN.as_bytes()) else {
        return None;
    };
    Some(World::new(alloc, names, &plan).err())
}

#[test]
fn names_stand_once(rt: HostRuntime) {
    let alloc = rt.alloc();
    assert!(rt; refused(alloc, &[1, 1]) == Some(Some(WorldFault::NameTwice)));
    assert!(rt; refused(alloc, &[3, 1, 2, 3]) == Some(Some(WorldFault::NameTwice)));
    assert!(rt; refused(alloc, &[3, 1, 2]) == Some(None));
    assert!(rt; refused(alloc, &[]) == Some(None));
}
