//! The steps that a book tells, beside those that meters count. No meter of a test can be a book's, so lanes of the same rows are resumed
//! when the book is settled.
ghost use Rattle.std.specs.Prelude.{◌<◌, ◌≤◌, List};
ghost use Rattle.tca_report.specs.report.Reports.{PacketReport};
ghost use Rattle.tca_replay.specs.Books.{Fits};

use super::books::some_reports;
use super::lanes::{Counting, new_counting};
use super::{HOUR, put, withdraw};
use crate::tests::numbers::Numbers;
use crate::tests::plain;
use std::alloc::Global;
use std::sync::Arc;
use std::sync::atomic::{AtomicU64, Ordering};
use std::test::Fail;
use tca_accounts::Plan;
use tca_log::{Added, Log, LogFault};
use tca_meters::Colour;
use tca_replay::{Book, Lane};
use tca_report::Report;

// A lane for each of the four accounts, whose meters count together.
fn four_lanes(alloc: Global, offers: &Arc<AtomicU64, Global>, k: u32) -> Option<Vec<Lane<Counting>>>
    requires some { 0 < k }
    requires few { k ≤ 65536 }
{
    let mut lanes = Vec::new(alloc);
    for _ in 0..4 {
        let Some(meter) = new_counting(offers) else {
            return None;
        };
        let lane = Lane::new(alloc, meter, Colour::Green, HOUR, k);
        if lanes.push(lane).is_err() {
            return None;
        }
    }
    Some(lanes)
}

// The lane of a report's account: the interfaces 1 to 4 have one.
fn lane_of<'a>(lanes: &'a mut [Lane<Counting>], report: &Report) -> Option<&'a mut Lane<Counting>> {
    lanes.get_mut((report.content().iface as usize).wrapping_sub(1))
}

// Does with the lane of its account what a book does with a report.
fn follow(lanes: &mut [Lane<Counting>], report: &Report, added: &Added) -> bool {
    match added {
        Added::Fresh => match lane_of(lanes, report) {
            Some(lane) => put(lane, *report).is_ok(),
            None => true,
        },
        Added::NewDispute { withdrawn } => {
            if let Some(lane) = lane_of(lanes, withdrawn) {
                withdraw(lane, withdrawn);
            }
            true
        }
        _ => true,
    }
}

// Gives a report to the log, the lanes and the book. Whether there was memory for the lanes.
fn take(
    log: &mut Log,
    book: &mut Book,
    lanes: &mut [Lane<Counting>],
    report: Report,
) -> Result<bool, LogFault>
    requires { Fits log.old book.old }
    ensures { Fits log.new book.new }
{
    book.ready(&report)?;
    let _ = log.reports();
    let added = log.add(report)?;
    let _count = log.len();
    let is_followed = follow(lanes, &report, &added);
    book.apply(report, added);
    Ok(is_followed)
}

// Settles the book and resumes the lanes. Whether the book tells as many steps as the meters of the lanes count.
fn settles_alike(
    book: &mut Book,
    lanes: &mut [Lane<Counting>],
    offers: &Arc<AtomicU64, Global>,
) -> bool
    ensures { (rs : List PacketReport) → Fits rs book.old → Fits rs book.new }
{
    let before = offers.load(Ordering::SeqCst);
    for n in 0..lanes.len() {
        let lane = &mut lanes[n];
        lane.resume();
    }
    let counted = offers.load(Ordering::SeqCst).wrapping_sub(before);
    book.settle().steps == counted
}

// Gives the book and the lanes these reports. Whether all agree at each settling: after some of the reports, and at the end.
fn agree(
    log: &mut Log,
    book: &mut Book,
    lanes: &mut [Lane<Counting>],
    offers: &Arc<AtomicU64, Global>,
    reports: &[Report],
) -> Result<bool, Fail>
    requires { Fits log.old book.old }
{
    for report in reports {
        if !take(log, book, lanes, *report)? {
            return Ok(false);
        }
        if report.content().octets % 4 == 0 && !settles_alike(book, lanes, offers) {
            return Ok(false);
        }
    }
    Ok(settles_alike(book, lanes, offers))
}

// The same of a new book with a mark after each so many rows.
fn counts_agree(alloc: Global, plan: &Plan, k: u32, reports: &[Report]) -> Result<bool, Fail>
    requires some { 0 < k }
    requires few { k ≤ 65536 }
{
    let offers = Arc::new(alloc, AtomicU64::new(0))?;
    let mut lanes = four_lanes(alloc, &offers, k).ok_or("four lanes")?;
    let mut book = Book::new(alloc, plan.copy(alloc)?, k)?;
    let mut log = Log::new(alloc);
    agree(&mut log, &mut book, &mut lanes, &offers, reports)
}

#[test]
fn a_book_tells_the_steps_that_its_lanes_make(rt: HostRuntime) -> Result<(), Fail> {
    let plan = Plan::from_text(rt.alloc(), plain::PLAN.as_bytes())?;
    let mut numbers = Numbers { state: 11 };
    for k in [1, 2, 3, 256] {
        for list in 0..100 {
            let reports = some_reports(rt.alloc(), &mut numbers)?;
            let is_alike = counts_agree(rt.alloc(), &plan, k, &reports)?;
            assert!(rt; is_alike, "list {list} at {k}");
        }
    }
    Ok(())
}
