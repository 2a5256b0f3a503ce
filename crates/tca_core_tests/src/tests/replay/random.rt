//! Lists of puts, withdrawals and resumes in no order.
ghost use Rattle.std.specs.Prelude.{◌<◌, ◌≤◌};

use super::{are_alike, put, tally_with};
use crate::tests::numbers::Numbers;
use crate::tests::plain::{OWNERS, PLAN, listed, some_content, sums};
use std::alloc::{AllocError, Global};
use std::process::Abort;
use tca_accounts::{Plan, Tally};
use tca_meters::{Colour, Termed};
use tca_replay::Lane;
use tca_report::{Identity, Report};

// The period of the lanes, of 100 milliseconds.
const PERIOD: u64 = 100;

// A lane's meter and the colour of other code points, the number of their owner, and that of the reports that it may get.
#[derive(Clone, Copy)]
struct Metered {
    meter: Termed,
    other: Colour,
    account: u32,
    list: u32,
}

// One of the 24 reports that a lane may get, of two sessions that have the same places. They are within the time in which buckets fill,
// of every precolour, and their order in time is not that of their places.
fn one_of(number: u32, metered: &Metered) -> Option<Report> {
    let number = number % 24;
    let identity = Identity {
        domain: 7,
        session: number % 2,
        place: number / 2,
    };
    let mut numbers = Numbers {
        state: metered.list as u64 * 24 + number as u64,
    };
    let iface = metered.account.wrapping_add(1);
    Report::new(identity, some_content(&mut numbers, iface))
}

// How many rows come before a report.
fn rank(lane: &Lane<Termed>, report: &Report) -> usize {
    let mut count: usize = 0;
    for row in lane.rows() {
        if *row < *report {
            count = count.saturating_add(1);
        }
    }
    count
}

// Puts a report that is not there, or withdraws it. The answer is the least row that changed.
fn change(
    lane: &mut Lane<Termed>,
    report: Report,
    least: Option<usize>,
) -> Result<usize, AllocError> {
    let row = rank(lane, &report);
    if lane.contains(&report) {
        lane.withdraw(&report);
    } else {
        put(lane, report)?;
    }
    Ok(least.unwrap_or(row).min(row))
}

// The tally of a fresh lane with the rows of this one.
fn fresh_tally(alloc: Global, lane: &Lane<Termed>, metered: &Metered) -> Result<Tally, AllocError> {
    let mut fresh = Lane::new(alloc, metered.meter, metered.other, PERIOD, 65_536);
    tally_with(alloc, &mut fresh, lane.rows())
}

// Whether a tally has the sums of the rows by single tokens.
fn is_plain(alloc: Global, tally: &Tally, lane: &Lane<Termed>, account: u32) -> bool {
    let Ok(list) = listed(alloc, lane.rows()) else {
        return false;
    };
    let Some(owner) = OWNERS.get(account as usize) else {
        return false;
    };
    sums(owner, &list) == Some((tally.total.octets(), tally.total.packets()))
}

// Whether a lane answers the bound on its steps, the tally of a fresh lane, and the plain sums.
fn resumes(
    alloc: Global,
    lane: &mut Lane<Termed>,
    metered: &Metered,
    k: u32,
    least: Option<usize>,
) -> bool {
    let steps = lane.resume().steps as usize;
    let few = match least {
        Some(row) => steps.saturating_add(row) <= lane.len().saturating_add(k as usize),
        None => steps == 0,
    };
    let Ok(tally) = lane.tally(alloc) else {
        return false;
    };
    let Ok(fresh) = fresh_tally(alloc, lane, metered) else {
        return false;
    };
    few && are_alike(&tally, &fresh) && is_plain(alloc, &tally, lane, metered.account)
}

// Whether a lane agrees throughout a list of 24 changes and some resumes between them.
fn changed_agrees(
    alloc: Global,
    lane: &mut Lane<Termed>,
    metered: &Metered,
    k: u32,
    numbers: &mut Numbers,
) -> bool {
    let mut least = None;
    let mut alike = true;
    for _ in 0..24 {
        if let Some(report) = one_of(numbers.below(24), metered) {
            let Ok(row) = change(lane, report, least) else {
                return false;
            };
            least = Some(row);
        }
        if numbers.below(4) == 0 {
            alike = resumes(alloc, lane, metered, k, least) && alike;
            least = None;
        }
    }
    resumes(alloc, lane, metered, k, least) && alike
}

// The same of a lane that has no rows at first.
fn agrees(alloc: Global, k: u32, metered: &Metered, numbers: &mut Numbers) -> bool
    requires some { 0 < k }
    requires few { k ≤ 65536 }
{
    let mut lane = Lane::new(alloc, metered.meter, metered.other, PERIOD, k);
    changed_agrees(alloc, &mut lane, metered, k, numbers)
}

// The meter of one of the accounts.
fn metered_of(plan: &Plan, list: u32) -> Option<Metered> {
    let account = list % 4;
    if account >= plan.accounts() {
        return None;
    }
    Some(Metered {
        meter: plan.meter(account),
        other: plan.other(account),
        account,
        list,
    })
}

// The same of a lane of one of the accounts.
fn agrees_under(alloc: Global, k: u32, plan: &Plan, list: u32, numbers: &mut Numbers) -> bool
    requires some { 0 < k }
    requires few { k ≤ 65536 }
{
    match metered_of(plan, list) {
        Some(metered) => agrees(alloc, k, &metered, numbers),
        None => false,
    }
}

// Compares a thousand lanes that have a mark after each `k` rows.
fn compare(rt: &impl Abort, alloc: Global, k: u32)
    requires some { 0 < k }
    requires few { k ≤ 65536 }
{
    let Ok(plan) = Plan::from_text(alloc, PLAN.as_bytes()) else {
        panic!(rt; "a plan");
    };
    let mut numbers = Numbers { state: k as u64 };
    for list in 0..1000 {
        assert!(rt;
            agrees_under(alloc, k, &plan, list, &mut numbers),
            "list {list}"
        );
    }
}

#[test]
fn any_changes_leave_the_tally_of_the_rows_with_a_mark_after_each(rt: HostRuntime) {
    compare(&rt, rt.alloc(), 1);
}

#[test]
fn any_changes_leave_the_tally_of_the_rows_with_a_mark_after_two(rt: HostRuntime) {
    compare(&rt, rt.alloc(), 2);
}

#[test]
fn any_changes_leave_the_tally_of_the_rows_with_a_mark_after_three(rt: HostRuntime) {
    compare(&rt, rt.alloc(), 3);
}

#[test]
fn any_changes_leave_the_tally_of_the_rows_with_no_mark(rt: HostRuntime) {
    compare(&rt, rt.alloc(), 256);
}
