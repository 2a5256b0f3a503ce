//! Books fed by the answers of a log.
ghost use Rattle.std.specs.Prelude.{◌≡◌, ◌<◌, ◌≤◌};
ghost use Rattle.tca_replay.specs.Books.{Fits};

use super::report;
use crate::tests::numbers::Numbers;
use crate::tests::plain::{self, is_billed, listed, some_report};
use crate::tests::samples::{LATE_ARRIVALS, TERMED};
use std::alloc::{Allocator, Global};
use std::test::Fail;
use tca_accounts::{Bill, Plan};
use tca_log::{Log, LogFault};
use tca_replay::Book;
use tca_report::Report;

pub(super) const PLAN: &str =
    "period = 3600000\n[[account]]\nname = \"alpha\"\nmeter = \"rfc2697\"\ncir = 1000\ncbs = 2000\nebs = 1000\nkeys = [[7, 1]]\n";

pub(super) fn take<A: Allocator + Copy>(
    log: &mut Log,
    book: &mut Book<A>,
    report: Report,
) -> Result<(), LogFault>
    requires { Fits log.old book.old }
    ensures { Fits log.new book.new }
{
    book.ready(&report)?;
    let _ = log.reports();
    let added = log.add(report)?;
    let _count = log.len();
    book.apply(report, added);
    Ok(())
}

// The octets of the first account, and the counts of reports and disputes.
pub(super) fn figures(bill: &Bill) -> ([u64; 3], u32, u32) {
    let octets = match bill.accounts.as_slice().first() {
        Some(tally) => tally.total.octets(),
        None => [0; 3],
    };
    (octets, bill.reports, bill.disputed)
}

// The bill of a book that takes these reports, and settles after each.
fn bill(
    alloc: Global,
    log: &mut Log,
    book: &mut Book,
    rows: &[(u32, u32, u32)],
) -> Result<([u64; 3], u32, u32), Fail>
    requires { Fits log.old book.old }
{
    for row in rows {
        let (place, late, octets) = *row;
        let report = report(place, late, octets, 0).ok_or("a report")?;
        take(log, book, report)?;
        book.settle();
    }
    book.settle();
    Ok(figures(&book.totals(alloc)?))
}

// The bill of these reports, with a mark after each so many rows.
fn billed(alloc: Global, k: u32, rows: &[(u32, u32, u32)]) -> Result<([u64; 3], u32, u32), Fail>
    requires some { 0 < k }
    requires few { k ≤ 65536 }
{
    billed_under(alloc, PLAN, k, rows)
}

fn billed_under(
    alloc: Global,
    plan: &str,
    k: u32,
    rows: &[(u32, u32, u32)],
) -> Result<([u64; 3], u32, u32), Fail>
    requires some { 0 < k }
    requires few { k ≤ 65536 }
{
    let plan = Plan::from_text(alloc, plan.as_bytes())?;
    let mut book = Book::new(alloc, plan, k)?;
    let mut log = Log::new(alloc);
    bill(alloc, &mut log, &mut book, rows)
}

const FIRST: [(u32, u32, u32); 3] = [(0, 0, 1500), (1, 100, 1000), (2, 200, 800)];

#[test]
fn a_late_report_is_metered_in_its_place(rt: HostRuntime) -> Result<(), Fail> {
    let [first, second, third] = FIRST;
    for k in [1, 2, 256] {
        assert!(rt; billed(rt.alloc(), k, &FIRST)? == ([1500, 1000, 800], 3, 0));
        assert!(rt;
            billed(rt.alloc(), k, &[first, second, third, (3, 50, 600)])?
                == ([1500, 600, 1800], 4, 0)
        );
    }
    Ok(())
}

#[test]
fn a_dispute_takes_the_first_content_away(rt: HostRuntime) -> Result<(), Fail> {
    let [first, second, third] = FIRST;
    for k in [1, 2, 256] {
        let rows = [first, second, third, (3, 50, 600), (3, 60, 601)];
        assert!(rt; billed(rt.alloc(), k, &rows)? == ([1500, 1000, 800], 5, 1));
        let rows = [
            first,
            second,
            third,
            (3, 60, 601),
            (3, 50, 600),
            (3, 70, 602),
        ];
        assert!(rt; billed(rt.alloc(), k, &rows)? == ([1500, 1000, 800], 6, 1));
    }
    Ok(())
}

#[test]
fn a_late_report_is_metered_in_its_term(rt: HostRuntime) -> Result<(), Fail> {
    for k in [1, 2, 256] {
        for (rows, octets, _) in LATE_ARRIVALS {
            let wanted = (octets, rows.len() as u32, 0);
            assert!(rt; billed_under(rt.alloc(), TERMED, k, rows)? == wanted);
        }
    }
    Ok(())
}

// How many rows a new book meters that is to fit the log of these reports.
fn refitted(alloc: Global, rows: &[(u32, u32, u32)]) -> Result<u64, Fail> {
    let mut log = Log::new(alloc);
    for row in rows {
        let (place, late, octets) = *row;
        log.add(report(place, late, octets, 0).ok_or("a report")?)?;
    }
    let plan = Plan::from_text(alloc, PLAN.as_bytes())?;
    let mut book = Book::new(alloc, plan, 1)?;
    Ok(book.refit(alloc, &log)?.steps)
}

#[test]
fn a_refit_meters_each_row_once(rt: HostRuntime) -> Result<(), Fail> {
    assert!(rt; refitted(rt.alloc(), &FIRST)? == 3);
    Ok(())
}

pub(super) fn some_reports(alloc: Global, numbers: &mut Numbers) -> Result<Vec<Report>, Fail> {
    let mut list = Vec::new(alloc);
    for _ in 0..numbers.below(40) {
        let report = some_report(numbers, 40).ok_or("a report")?;
        list.push(report)?;
    }
    Ok(list)
}

// Gives a book these reports, and settles it after some of them.
fn take_each(log: &mut Log, book: &mut Book, reports: &[Report]) -> Result<(), Fail>
    requires { Fits log.old book.old }
    ensures { Fits log.new book.new }
{
    for report in reports {
        take(log, book, *report)?;
        if report.content().octets % 4 == 0 {
            book.settle();
        }
    }
    Ok(())
}

// Whether a book that takes these reports has the plain bill of its log.
fn has_the_plain_bill(alloc: Global, plan: &Plan, k: u32, reports: &[Report]) -> Result<bool, Fail>
    requires some { 0 < k }
    requires few { k ≤ 65536 }
{
    let mut book = Book::new(alloc, plan.copy(alloc)?, k)?;
    let mut log = Log::new(alloc);
    take_each(&mut log, &mut book, reports)?;
    book.settle();
    let list = listed(alloc, log.reports())?;
    Ok(is_billed(&book.totals(alloc)?, &list))
}

#[test]
fn any_list_of_reports_has_the_plain_bill(rt: HostRuntime) -> Result<(), Fail> {
    let plan = Plan::from_text(rt.alloc(), plain::PLAN.as_bytes())?;
    let mut numbers = Numbers { state: 10 };
    for k in [1, 2, 3, 256] {
        for list in 0..250 {
            let reports = some_reports(rt.alloc(), &mut numbers)?;
            let is_plain = has_the_plain_bill(rt.alloc(), &plan, k, &reports)?;
            assert!(rt; is_plain, "list {list} at {k}");
        }
    }
    Ok(())
}
