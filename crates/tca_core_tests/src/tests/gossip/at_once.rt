//! Long lists of reports: new throughout, with some that are there, with each twice, and of another origin. After each the bill is the plain one.
use super::outcomes::{Outcome, absorbed, holds, took};
use super::random::has_all;
use super::{replica_under, report};
use crate::tests::plain::{PLAN, is_billed_settled};
use std::alloc::Global;
use tca_gossip::{Delta, Replica, Run};
use tca_join::Items;
use tca_report::Report;

// Reports of these places on, each a millisecond after the one before, of one to eight octets.
fn long_list(alloc: Global, from: u32, count: u32) -> Option<Vec<Report>> {
    let mut list = Vec::new(alloc);
    for i in 0..count {
        let place = from.saturating_add(i);
        let Some(report) = report((place, place, place % 8 + 1)) else {
            return None;
        };
        if list.push(report).is_err() {
            return None;
        }
    }
    Some(list)
}

fn takes(alloc: Global, replica: &mut Replica, from: u32) -> Option<Outcome> {
    let Some(list) = long_list(alloc, from, 1024) else {
        return None;
    };
    Some(took(&replica.take(&list)))
}

// A delta of one run, from the start of the chain of its origin.
fn run_of(alloc: Global, origin: u32, reports: Vec<Report>) -> Option<Delta> {
    let mut runs = Vec::new(alloc);
    let Ok(reports) = Items::of(alloc, reports) else {
        return None;
    };
    let run = Run {
        origin,
        start: 0,
        reports,
    };
    if runs.push(run).is_err() {
        return None;
    }
    Delta::of(runs)
}

fn long_run(alloc: Global) -> Option<Delta> {
    let Some(reports) = long_list(alloc, 1000, 2000) else {
        return None;
    };
    run_of(alloc, 2, reports)
}

// Whether a replica has the log and the plain bill of so many places.
fn bills(alloc: Global, replica: &Replica, count: u32) -> bool {
    let Some(list) = long_list(alloc, 0, count) else {
        return false;
    };
    let Ok(bill) = replica.totals() else {
        return false;
    };
    has_all(replica, &list) && is_billed_settled(&bill, &list)
}

fn takes_long(alloc: Global, one: &mut Replica) -> bool {
    takes(alloc, one, 0) == Some(Outcome::Took(1024, 1024, None))
        && bills(alloc, one, 1024)
        && takes(alloc, one, 1023) == Some(Outcome::Took(1024, 1023, None))
        && holds(one) == Outcome::Holds(2047, [2047, 0, 0])
        && bills(alloc, one, 2047)
}

// Another origin's reports are appended to its chain, whether the log has them or not.
fn absorbs_long(alloc: Global, one: &mut Replica) -> bool {
    let Some(sent) = long_run(alloc) else {
        return false;
    };
    absorbed(&one.absorb(&sent)) == Outcome::Absorbed(2000)
        && holds(one) == Outcome::Holds(3000, [2047, 2000, 0])
        && bills(alloc, one, 3000)
}

fn goes(alloc: Global) -> Option<bool> {
    let Some(mut one) = replica_under(alloc, PLAN, 1) else {
        return None;
    };
    Some(takes_long(alloc, &mut one) && absorbs_long(alloc, &mut one))
}

#[test]
fn long_lists_are_taken(rt: HostRuntime) {
    assert!(rt; goes(rt.alloc()) == Some(true));
}

fn takes_shared(alloc: Global, replica: &mut Replica, from: u32, count: u32) -> Option<Outcome> {
    let Some(list) = long_list(alloc, from, count) else {
        return None;
    };
    let Ok(list) = Items::of(alloc, list) else {
        return None;
    };
    Some(took(&replica.take_shared(list)))
}

// The first list is the chain itself, of the second one all but a report is appended to it, and the third is short.
fn takes_lists(alloc: Global, one: &mut Replica) -> bool {
    takes_shared(alloc, one, 0, 1024) == Some(Outcome::Took(1024, 1024, None))
        && holds(one) == Outcome::Holds(1024, [1024, 0, 0])
        && takes_shared(alloc, one, 1023, 1024) == Some(Outcome::Took(1024, 1023, None))
        && takes_shared(alloc, one, 2046, 3) == Some(Outcome::Took(3, 2, None))
        && holds(one) == Outcome::Holds(2049, [2049, 0, 0])
        && bills(alloc, one, 2049)
}

// The log alone has what the replica held.
fn goes_shared(alloc: Global) -> Option<bool> {
    let Some(mut one) = replica_under(alloc, PLAN, 1) else {
        return None;
    };
    Some(takes_lists(alloc, &mut one) && one.into_log().len() == 2049)
}

#[test]
fn lists_that_are_shared_are_taken(rt: HostRuntime) {
    assert!(rt; goes_shared(rt.alloc()) == Some(true));
}

// A list from its end to its front, and then from its front to its end.
fn there_and_back(alloc: Global, list: &[Report]) -> Option<Vec<Report>> {
    let mut all = Vec::new(alloc);
    for report in list.iter().rev() {
        if all.push(*report).is_err() {
            return None;
        }
    }
    if all.extend_from_slice(list).is_err() {
        return None;
    }
    Some(all)
}

// Of reports that stand twice in a long list each goes once into the chain, in the order in which they came first. They go in at once:
// a new replica keeps a book, and then there is none.
fn takes_twice(alloc: Global, one: &mut Replica) -> bool {
    let Some(list) = long_list(alloc, 0, 600) else {
        return false;
    };
    let Some(all) = there_and_back(alloc, &list) else {
        return false;
    };
    one.keeps_book()
        && took(&one.take(&all)) == Outcome::Took(1200, 600, None)
        && !one.keeps_book()
        && one.chain(1).len() == 600
        && all.starts_with(one.chain(1))
        && bills(alloc, one, 600)
}

fn goes_twice(alloc: Global) -> Option<bool> {
    let Some(mut one) = replica_under(alloc, PLAN, 1) else {
        return None;
    };
    Some(takes_twice(alloc, &mut one))
}

#[test]
fn a_long_list_with_each_report_twice_is_taken(rt: HostRuntime) {
    assert!(rt; goes_twice(rt.alloc()) == Some(true));
}

// Whether no book is kept, one is once it is asked for, once more too, and the bill stays.
fn gets_book(one: &mut Replica) -> bool {
    let Ok(before) = one.totals() else {
        return false;
    };
    if one.keeps_book() || one.keep_book().is_err() || one.keep_book().is_err() {
        return false;
    }
    let Ok(after) = one.totals() else {
        return false;
    };
    one.keeps_book() && after.is_same(&before)
}

// Whether a book is kept still after a short list.
fn keeps_book(alloc: Global, one: &mut Replica) -> bool {
    let Some(list) = long_list(alloc, 5000, 3) else {
        return false;
    };
    one.keeps_book() && took(&one.take(&list)) == Outcome::Took(3, 3, None) && one.keeps_book()
}

// Whether a long run of another origin is appended.
fn absorbs_more(alloc: Global, one: &mut Replica) -> bool {
    let Some(sent) = long_run(alloc) else {
        return false;
    };
    absorbed(&one.absorb(&sent)) == Outcome::Absorbed(2000)
}

// Whether a book is kept where one is asked for: after a long list, a long run and a merge there is none before. A long list with
// nothing new changes nothing, so it stays.
fn keeps_books(alloc: Global, one: &mut Replica, two: &Replica) -> bool {
    let long = takes(alloc, one, 0) == Some(Outcome::Took(1024, 1024, None)) && gets_book(one);
    let again = takes(alloc, one, 0) == Some(Outcome::Took(1024, 0, None)) && one.keeps_book();
    let absorbs = absorbs_more(alloc, one) && gets_book(one);
    let merges = one.merge(two).is_ok() && gets_book(one);
    long && again && absorbs && merges
}

fn books(alloc: Global) -> Option<bool> {
    let Some(mut one) = replica_under(alloc, PLAN, 1) else {
        return None;
    };
    let Some(two) = replica_under(alloc, PLAN, 3) else {
        return None;
    };
    Some(keeps_book(alloc, &mut one) && keeps_books(alloc, &mut one, &two))
}

#[test]
fn a_book_is_kept_where_one_is_asked_for(rt: HostRuntime) {
    assert!(rt; books(rt.alloc()) == Some(true));
}

// One report, so many times.
fn repeated(alloc: Global, count: u32) -> Option<Vec<Report>> {
    let mut list = Vec::new(alloc);
    for _ in 0..count {
        let Some(report) = report((0, 0, 1)) else {
            return None;
        };
        if list.push(report).is_err() {
            return None;
        }
    }
    Some(list)
}

// Another origin says one report so often that the chains are far longer than the log. That goes in at once.
fn absorbs_repeated(alloc: Global, one: &mut Replica) -> bool {
    let Some(list) = repeated(alloc, 10000) else {
        return false;
    };
    let Some(sent) = run_of(alloc, 2, list) else {
        return false;
    };
    absorbed(&one.absorb(&sent)) == Outcome::Absorbed(10000)
        && !one.keeps_book()
        && holds(one) == Outcome::Holds(1, [0, 10000, 0])
}

// A run that is long beside the log but not beside the chains goes in one by one, which makes a book.
fn absorbs_beside(alloc: Global, one: &mut Replica) -> bool {
    let Some(list) = long_list(alloc, 0, 1100) else {
        return false;
    };
    let Some(sent) = run_of(alloc, 3, list) else {
        return false;
    };
    absorbed(&one.absorb(&sent)) == Outcome::Absorbed(1100)
        && one.keeps_book()
        && holds(one) == Outcome::Holds(1100, [0, 10000, 1100])
}

// One that is an eighth of the chains goes in at once, after which there is no book.
fn absorbs_an_eighth(alloc: Global, one: &mut Replica) -> bool {
    let Some(list) = long_list(alloc, 1100, 1500) else {
        return false;
    };
    let Some(sent) = run_of(alloc, 4, list) else {
        return false;
    };
    absorbed(&one.absorb(&sent)) == Outcome::Absorbed(1500) && !one.keeps_book()
}

fn goes_beside(alloc: Global) -> Option<bool> {
    let Some(mut one) = replica_under(alloc, PLAN, 1) else {
        return None;
    };
    let beside = absorbs_repeated(alloc, &mut one) && absorbs_beside(alloc, &mut one);
    Some(beside && absorbs_an_eighth(alloc, &mut one))
}

#[test]
fn a_run_that_is_short_beside_the_chains_goes_one_by_one(rt: HostRuntime) {
    assert!(rt; goes_beside(rt.alloc()) == Some(true));
}
