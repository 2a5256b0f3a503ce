//! Lists of reports at starts of terms, some of which dispute one another, beside the plain bill.
use crate::tests::numbers::Numbers;
use crate::tests::plain::{PLAN, is_billed, listed, some_report};
use std::alloc::Global;
use tca_accounts::{Plan, bill_all};
use tca_log::Log;

fn some_log(alloc: Global, numbers: &mut Numbers) -> Option<Log> {
    let mut log = Log::new(alloc);
    for _ in 0..numbers.below(40) {
        let Some(report) = some_report(numbers, 40) else {
            return None;
        };
        if log.add(report).is_err() {
            return None;
        }
    }
    Some(log)
}

// Whether the bill of a log is the plain one.
fn is_plain(alloc: Global, plan: &Plan, log: &Log) -> bool {
    let Ok(list) = listed(alloc, log.reports()) else {
        return false;
    };
    let Ok(bill) = bill_all(alloc, plan, log) else {
        return false;
    };
    is_billed(&bill, &list)
}

fn agrees(alloc: Global, plan: &Plan, numbers: &mut Numbers) -> bool {
    match some_log(alloc, numbers) {
        Some(log) => is_plain(alloc, plan, &log),
        None => false,
    }
}

#[test]
fn any_list_of_reports_has_the_plain_bill(rt: HostRuntime) {
    let alloc = rt.alloc();
    let Ok(plan) = Plan::from_text(alloc, PLAN.as_bytes()) else {
        panic!(rt; "a plan");
    };
    let mut numbers = Numbers { state: 16 };
    for list in 0..1_000 {
        assert!(rt; agrees(alloc, &plan, &mut numbers), "list {list}");
    }
}
