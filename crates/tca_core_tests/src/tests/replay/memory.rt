//! Each growth refused in turn by a small heap.
ghost use Rattle.tca_replay.specs.Books.{Fits};

use super::books::{PLAN, figures, take};
use super::{HOUR, are_alike, fresh_tally, report};
use linked_list_allocator::LocalHeap;
use std::alloc::{AllocError, Allocator, Global};
use tca_accounts::{Plan, bill_all};
use tca_log::{Log, LogFault};
use tca_meters::{Colour, SrTcm};
use tca_replay::{Book, Lane};
use tca_report::Report;

// No growth below takes less, so that heaps that differ by it refuse each in turn.
const STEP: usize = 24;

// What a heap of some size came to.
#[derive(Clone, Copy)]
enum Step {
    // The state of before was too large.
    Before,
    // The call was refused, and what it left is as it was; the heap then held this many octets.
    Refused(usize),
    // What the call left is not as it was, or not as it should be; or there was no memory to tell.
    Wrong,
    Done,
}

// What heaps of rising sizes came to.
#[derive(Clone, Copy)]
struct Heaps {
    before: bool,
    wrong: bool,
    done: bool,
    // How many refused a growth.
    refused: usize,
    // How many refused one, where heaps in a row that then held the same count once.
    kept: usize,
    // What the last of these held.
    held: Option<usize>,
}

const NONE: Heaps = Heaps {
    before: false,
    wrong: false,
    done: false,
    refused: 0,
    kept: 0,
    held: None,
};

impl Heaps {
    // With one heap more.
    fn and(self, step: Step) -> Heaps {
        let mut heaps = self;
        match step {
            Step::Before => heaps.before = true,
            Step::Wrong => heaps.wrong = true,
            Step::Done => heaps.done = true,
            Step::Refused(octets) => {
                heaps.refused = heaps.refused.saturating_add(1);
                if heaps.held != Some(octets) {
                    heaps.held = Some(octets);
                    heaps.kept = heaps.kept.saturating_add(1);
                }
            }
        }
        heaps
    }
}

// A report each 20 minutes, so that every third begins a period.
fn hourly(number: u32) -> Option<Report> {
    report(number % 100, number % 100 * 1_200_000, 1500, 0)
}

// What a refused row left in a lane of so many.
fn refused_row<A: Allocator + Copy>(
    alloc: Global,
    small: &LocalHeap,
    lane: &mut Lane<SrTcm, A>,
    meter: SrTcm,
    count: u32,
) -> Result<Step, AllocError> {
    lane.resume();
    let octets = small.used();
    let fresh = fresh_tally(alloc, meter, lane.rows())?;
    let same = are_alike(&lane.tally(alloc)?, &fresh) && lane.len() == count as usize;
    Ok(if same {
        Step::Refused(octets)
    } else {
        Step::Wrong
    })
}

// Puts six rows into a lane, until a growth is refused.
fn put_six<A: Allocator + Copy>(
    alloc: Global,
    small: &LocalHeap,
    lane: &mut Lane<SrTcm, A>,
    meter: SrTcm,
) -> Result<Step, AllocError> {
    for number in 0..6 {
        if let Some(report) = hourly(number) {
            if lane.reserve_row(&report).is_err() {
                return refused_row(alloc, small, lane, meter, number);
            }
            if !lane.contains(&report) && lane.len() < 4_194_304 {
                lane.put(report);
            }
        }
    }
    Ok(if lane.len() == 6 {
        Step::Done
    } else {
        Step::Wrong
    })
}

// A lane in a small heap of this size, with a mark after each row.
fn rows_step(alloc: Global, size: usize, meter: SrTcm) -> Result<Step, AllocError> {
    let small = LocalHeap::new(alloc, size)?;
    let mut lane = Lane::new(&small, meter, Colour::Green, HOUR, 1);
    put_six(alloc, &small, &mut lane, meter)
}

// Those of heaps of rising sizes, up to the first that has room for all.
fn rows_steps(alloc: Global) -> Heaps {
    let Ok(meter) = SrTcm::new(1000, 2000, 1000, false) else {
        return NONE;
    };
    let mut heaps = NONE;
    for size in 1..2048 {
        let step = match rows_step(alloc, STEP * size, meter) {
            Ok(step) => step,
            Err(_) => Step::Wrong,
        };
        heaps = heaps.and(step);
        if heaps.done {
            break;
        }
    }
    heaps
}

#[test]
fn a_refused_row_leaves_the_tally(rt: HostRuntime) {
    let heaps = rows_steps(rt.alloc());
    // Refused to the list of chunks, to the chunk, to the spans, to the marks, and to each of the two as they grow.
    assert!(rt; heaps.kept >= 6);
    assert!(rt; heaps.done && !heaps.wrong);
}

// Takes reports until there is no room for one. The answer is whether there was room for all.
fn take_all<A: Allocator + Copy>(
    log: &mut Log,
    book: &mut Book<A>,
    reports: &[Report],
) -> Result<bool, LogFault>
    requires { Fits log.old book.old }
    ensures { Fits log.new book.new }
{
    for report in reports {
        if book.ready(report).is_err() {
            return Ok(false);
        }
        take(log, book, *report)?;
    }
    Ok(true)
}

// The figures of a bill, and the reports without an account.
type Billed = (([u64; 3], u32, u32), u32);

// Those of the bill of the log.
fn billed(alloc: Global, log: &Log) -> Option<Billed> {
    let Ok(plan) = Plan::from_text(alloc, PLAN.as_bytes()) else {
        return None;
    };
    let Ok(whole) = bill_all(alloc, &plan, log) else {
        return None;
    };
    Some((figures(&whole), whole.unassigned))
}

// Whether a settled book's totals are the bill of the log.
fn bills_alike<A: Allocator + Copy>(alloc: Global, log: &Log, book: &mut Book<A>) -> bool {
    let Some(whole) = billed(alloc, log) else {
        return false;
    };
    book.settle();
    let Ok(totals) = book.totals(alloc) else {
        return false;
    };
    figures(&totals) == whole.0 && totals.unassigned == whole.1
}

fn reports(alloc: Global) -> Result<Vec<Report>, AllocError> {
    let mut list = Vec::new(alloc);
    for (place, late, octets) in [
        (0, 0, 1500),
        (1, 100, 1000),
        (2, 200, 800),
        (3, 50, 600),
        (3, 60, 601),
    ] {
        if let Some(report) = report(place, late, octets, 0) {
            list.push(report)?;
        }
    }
    Ok(list)
}

// What a book that takes all reports one by one comes to.
fn filled<A: Allocator + Copy>(
    alloc: Global,
    small: &LocalHeap,
    log: &mut Log,
    book: &mut Book<A>,
    list: &[Report],
) -> Step
    requires { Fits log.old book.old }
{
    let Ok(all) = take_all(log, book, list) else {
        return Step::Wrong;
    };
    let octets = small.used();
    if !bills_alike(alloc, log, book) {
        return Step::Wrong;
    }
    if all {
        Step::Done
    } else {
        Step::Refused(octets)
    }
}

// The same of a book in a small heap of this size.
fn ready_step(alloc: Global, size: usize, list: &[Report]) -> Step {
    let Ok(plan) = Plan::from_text(alloc, PLAN.as_bytes()) else {
        return Step::Wrong;
    };
    let Ok(small) = LocalHeap::new(alloc, size) else {
        return Step::Wrong;
    };
    let Ok(mut book) = Book::new(&small, plan, 1) else {
        return Step::Before;
    };
    let mut log = Log::new(alloc);
    filled(alloc, &small, &mut log, &mut book, list)
}

// Those of heaps of rising sizes, up to the first that has room for all.
fn ready_steps(alloc: Global) -> Heaps {
    let Ok(list) = reports(alloc) else {
        return NONE;
    };
    let mut heaps = NONE;
    for size in 1..2048 {
        heaps = heaps.and(ready_step(alloc, STEP * size, &list));
        if heaps.done {
            break;
        }
    }
    heaps
}

#[test]
fn a_report_without_room_leaves_the_totals(rt: HostRuntime) {
    let heaps = ready_steps(rt.alloc());
    assert!(rt; heaps.kept >= 4);
    assert!(rt; heaps.before && heaps.done);
    assert!(rt; !heaps.wrong);
}

// A log of the first reports of a list.
fn log_of(alloc: Global, list: &[Report], count: usize) -> Result<Log, LogFault> {
    let mut log = Log::new(alloc);
    for report in list.iter().take(count) {
        log.add(*report)?;
    }
    Ok(log)
}

// What a book that fits the first log, and then is to fit the whole one, comes to.
fn refitted<'a>(
    alloc: Global,
    small: &'a LocalHeap,
    book: &mut Book<&'a LocalHeap>,
    first: &Log,
    whole: &Log,
) -> Step {
    if book.refit(small, first).is_err() {
        return Step::Before;
    }
    let refused = book.refit(small, whole).is_err();
    let octets = small.used();
    let log = if refused { first } else { whole };
    if !bills_alike(alloc, log, book) {
        return Step::Wrong;
    }
    if refused {
        Step::Refused(octets)
    } else {
        Step::Done
    }
}

// The same of a book in a small heap of this size.
fn refit_step(alloc: Global, size: usize, first: &Log, whole: &Log) -> Step {
    let Ok(plan) = Plan::from_text(alloc, PLAN.as_bytes()) else {
        return Step::Wrong;
    };
    let Ok(small) = LocalHeap::new(alloc, size) else {
        return Step::Wrong;
    };
    let Ok(mut book) = Book::new(&small, plan, 1) else {
        return Step::Before;
    };
    refitted(alloc, &small, &mut book, first, whole)
}

// Those of heaps of rising sizes, up to the first that has room for the whole.
fn refit_steps(alloc: Global, first: &Log, whole: &Log) -> Heaps {
    let mut heaps = NONE;
    for size in 1..2048 {
        heaps = heaps.and(refit_step(alloc, STEP * size, first, whole));
        if heaps.done {
            break;
        }
    }
    heaps
}

// Those of a log of the first three reports, and one of all.
fn refits(alloc: Global) -> Heaps {
    let Ok(list) = reports(alloc) else {
        return NONE;
    };
    let Ok(first) = log_of(alloc, &list, 3) else {
        return NONE;
    };
    let Ok(whole) = log_of(alloc, &list, 5) else {
        return NONE;
    };
    refit_steps(alloc, &first, &whole)
}

#[test]
fn a_refused_refit_leaves_the_totals(rt: HostRuntime) {
    let heaps = refits(rt.alloc());
    assert!(rt; heaps.refused > 4);
    assert!(rt; heaps.before && heaps.done);
    assert!(rt; !heaps.wrong);
}
