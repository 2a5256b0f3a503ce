//! A log beside a plain list of reports that answers alike, at its limit, and with each growth refused in turn by a small heap.
use super::numbers::Numbers;
use linked_list_allocator::LocalHeap;
use std::alloc::{AllocError, Allocator, Global};
use std::test::Fail;
use tca_join::{Items, Join, JoinFault};
use tca_log::rows::Rows;
use tca_log::{Added, Log, LogFault, with_set};
use tca_report::{Content, Identity, Report};

// The time of the first report of the worked rows.
const START: u64 = 1_700_000_000_000;

const LIMIT: u32 = 4_194_304;

// Place, milliseconds after the first, octets: three identities, a late report, and two more contents of its identity.
const ROWS: [(u32, u32, u32); 6] = [
    (0, 0, 1500),
    (1, 100, 1000),
    (2, 200, 800),
    (3, 50, 600),
    (3, 60, 601),
    (3, 70, 602),
];

// A report of session 0.
fn within_ranges(place: u32, late: u32, octets: u32) -> Option<Report> {
    in_session(0, place, late, octets)
}

fn in_session(session: u32, place: u32, late: u32, octets: u32) -> Option<Report> {
    let identity = Identity {
        domain: 7,
        session,
        place,
    };
    let content = Content {
        time: START + late as u64,
        octets,
        dscp: 0,
        iface: 1,
    };
    Report::new(identity, content)
}

fn rows(alloc: Global, count: usize) -> Option<Vec<Report>> {
    let mut list = Vec::new(alloc);
    for (place, late, octets) in ROWS {
        let Some(report) = within_ranges(place, late, octets) else {
            return None;
        };
        if list.push(report).is_err() {
            return None;
        }
    }
    list.truncate(count);
    Some(list)
}

// The list in one of its orders: each code below the factorial of its length gives another one.
fn in_turn(left: &mut Vec<Report>, code: usize, order: &mut Vec<Report>) -> Result<(), AllocError> {
    let mut code = code;
    for _ in 0..6 {
        let count = left.len();
        if count > 0 {
            let next = left.remove(code % count);
            order.push(next)?;
            code /= count;
        }
    }
    Ok(())
}

// Whether two identities have the same parts.
fn is_one(one: Identity, other: Identity) -> bool {
    (one.domain, one.session, one.place) == (other.domain, other.session, other.place)
}

// What a plain list of reports answers to one more, which it then has.
fn added_to(list: &mut Vec<Report>, report: Report) -> Result<Added, AllocError> {
    if list.contains(&report) {
        return Ok(Added::Repeat);
    }
    let mut answer = Added::Fresh;
    for other in list.iter() {
        if is_one(other.identity(), report.identity()) {
            answer = match answer {
                Added::Fresh => Added::NewDispute { withdrawn: *other },
                _ => Added::MoreDispute,
            };
        }
    }
    list.push(report)?;
    Ok(answer)
}

fn contents_in(list: &[Report], identity: Identity) -> usize {
    list.iter()
        .filter(|r| is_one(r.identity(), identity))
        .count()
}

fn has_reports<A: Allocator + Copy>(log: &Log<A>, list: &[Report]) -> bool {
    let mut left = log.reports();
    for report in list {
        match left.next() {
            Some(next) => {
                if next != report {
                    return false;
                }
            }
            None => return false,
        }
    }
    left.next().is_none()
}

fn has_settled<A: Allocator + Copy>(log: &Log<A>, list: &[Report]) -> bool {
    let mut left = log.settled();
    for report in list {
        if contents_in(list, report.identity()) == 1 {
            match left.next() {
                Some(next) => {
                    if next != report {
                        return false;
                    }
                }
                None => return false,
            }
        }
    }
    left.next().is_none()
}

fn has_all<A: Allocator + Copy>(log: &Log<A>, list: &[Report]) -> bool {
    has_reports(log, list) && has_settled(log, list)
}

// Whether just these are settled, in this order.
fn settles<A: Allocator + Copy>(log: &Log<A>, list: &[Report]) -> bool {
    let mut left = log.settled();
    for report in list {
        if left.next() != Some(report) {
            return false;
        }
    }
    left.next().is_none()
}

// Adds each report to both, and compares the answers.
fn add_each(log: &mut Log, plain: &mut Vec<Report>, order: &[Report]) -> bool {
    for report in order {
        let Ok(wanted) = added_to(plain, *report) else {
            return false;
        };
        if log.add(*report) != Ok(wanted) {
            return false;
        }
    }
    true
}

// Whether a log has just the reports of a list, by each call that gives them.
fn is_list(log: Log, list: &[Report]) -> bool {
    let all = has_all(&log, list) && log.len() as usize == list.len();
    let Ok(reports) = log.into_reports() else {
        return false;
    };
    all && reports.as_slice() == list
}

// Whether a log that gets the reports one by one answers as a plain list does and has what that has.
fn agrees(alloc: Global, order: &[Report], disputed: u32) -> bool {
    let mut plain = Vec::new(alloc);
    let mut log = Log::new(alloc);
    let alike = add_each(&mut log, &mut plain, order);
    plain.sort_unstable();
    let disputes = log.disputed() == disputed;
    let all = is_list(log, &plain);
    alike && all && disputes
}

fn unites_once(log: &mut Log, one: &Log) -> bool {
    log.union(one) == Ok(1) && log.union(one) == Ok(0)
}

fn unites(alloc: Global, log: &mut Log, report: Report) -> bool {
    let mut one = Log::new(alloc);
    one.add(report) == Ok(Added::Fresh) && unites_once(log, &one)
}

fn unites_each(alloc: Global, order: &[Report], list: &[Report]) -> bool {
    let mut log = Log::new(alloc);
    for report in order {
        if !unites(alloc, &mut log, *report) {
            return false;
        }
    }
    has_reports(&log, list)
}

fn adds_all(alloc: Global, order: &[Report], list: &[Report], new: u32) -> bool {
    let Ok(given) = Vec::from_slice(alloc, order) else {
        return false;
    };
    let mut log = Log::new(alloc);
    let added = log.add_all(given) == Ok(new);
    added && has_all(&log, list)
}

// Answers whether there was memory for them.
fn rows_in_turn(alloc: Global, count: usize, code: usize, order: &mut Vec<Report>) -> bool {
    let Some(mut left) = rows(alloc, count) else {
        return false;
    };
    in_turn(&mut left, code, order).is_ok()
}

// The first rows in one of their orders, so many times.
fn order_of(alloc: Global, count: usize, code: usize, times: u32) -> Option<Vec<Report>> {
    let mut order = Vec::new(alloc);
    for _ in 0..times {
        if !rows_in_turn(alloc, count, code, &mut order) {
            return None;
        }
    }
    Some(order)
}

fn unites_in_turn(alloc: Global, code: usize, list: &[Report]) -> bool {
    let Some(once) = order_of(alloc, 3, code, 1) else {
        return false;
    };
    unites_each(alloc, &once, list)
}

fn adds_twice_in_turn(alloc: Global, code: usize, list: &[Report]) -> bool {
    let Some(twice) = order_of(alloc, 3, code, 2) else {
        return false;
    };
    adds_all(alloc, &twice, list, 3) && agrees(alloc, &twice, 0)
}

// Whether an order of the first reports, each twice, gives one log by all three calls.
fn is_one_log(alloc: Global, code: usize) -> bool {
    let Some(list) = rows(alloc, 3) else {
        return false;
    };
    unites_in_turn(alloc, code, &list) && adds_twice_in_turn(alloc, code, &list)
}

fn agrees_in_turn(alloc: Global, count: usize, code: usize, disputed: u32) -> bool {
    let Some(order) = order_of(alloc, count, code, 1) else {
        return false;
    };
    agrees(alloc, &order, disputed)
}

#[test]
fn every_order_and_repeats_give_one_log(rt: HostRuntime) {
    for code in 0..6 {
        assert!(rt; is_one_log(rt.alloc(), code));
    }
}

// Whether an order agrees with one, two and three contents of the last identity.
fn agrees_disputed(alloc: Global, code: usize) -> bool {
    agrees_in_turn(alloc, 4, code, 0)
        && agrees_in_turn(alloc, 5, code, 1)
        && agrees_in_turn(alloc, 6, code, 1)
}

#[test]
fn disputes_do_not_depend_on_the_order(rt: HostRuntime) {
    for code in 0..720 {
        assert!(rt; agrees_disputed(rt.alloc(), code));
    }
}

fn answers(log: &mut Log, report: Report, wanted: Added) -> bool {
    log.add(report) == Ok(wanted)
}

// The answers to the late contents in the order of the worked rows.
fn answers_late(log: &mut Log, late: Report, second: Report, third: Report) -> bool {
    answers(log, late, Added::Fresh)
        && log.contains(&late)
        && !log.contains(&second)
        && answers(log, second, Added::NewDispute { withdrawn: late })
        && answers(log, third, Added::MoreDispute)
        && answers(log, second, Added::Repeat)
}

// A log that gets a list at once, where so many of it are new.
fn log_of<A: Allocator + Copy>(alloc: A, list: &[Report], new: u32) -> Option<Log<A>> {
    let Ok(given) = Vec::from_slice(alloc, list) else {
        return None;
    };
    let mut log = Log::new(alloc);
    if log.add_all(given) != Ok(new) {
        return None;
    }
    Some(log)
}

fn is_copied(log: &Log, list: &[Report]) -> bool {
    let Ok(copy) = log.copy() else {
        return false;
    };
    let disputed = copy.disputed();
    is_list(copy, list) && disputed == 1
}

fn copies(alloc: Global) -> bool {
    let Some(mut list) = rows(alloc, 6) else {
        return false;
    };
    let Some(log) = log_of(alloc, &list, 6) else {
        return false;
    };
    list.sort_unstable();
    is_copied(&log, &list)
}

fn disputes_late(alloc: Global, list: &[Report]) -> bool {
    let [_, _, _, late, second, third] = list else {
        return false;
    };
    let mut log = Log::new(alloc);
    let alike = answers_late(&mut log, *late, *second, *third);
    alike && (log.len(), log.disputed()) == (3, 1)
}

fn disputes(alloc: Global) -> bool {
    let Some(list) = rows(alloc, 6) else {
        return false;
    };
    disputes_late(alloc, &list)
}

#[test]
fn late_contents_dispute(rt: HostRuntime) {
    assert!(rt; disputes(rt.alloc()));
    assert!(rt; copies(rt.alloc()));
}

// Session, place, milliseconds after the first, octets: one place in two sessions, and two more contents of it in the second one.
const SESSIONS: [(u32, u32, u32, u32); 4] = [
    (1, 3, 50, 600),
    (2, 3, 60, 601),
    (2, 3, 70, 602),
    (2, 3, 80, 603),
];

fn of_sessions(alloc: Global) -> Option<Vec<Report>> {
    let mut list = Vec::new(alloc);
    for (session, place, late, octets) in SESSIONS {
        let Some(report) = in_session(session, place, late, octets) else {
            return None;
        };
        if list.push(report).is_err() {
            return None;
        }
    }
    Some(list)
}

// Whether that place is two identities, of which the second alone comes to be disputed.
fn answers_apart(log: &mut Log, list: &[Report]) -> bool {
    let [one, other, second, third] = list else {
        return false;
    };
    answers(log, *one, Added::Fresh)
        && answers(log, *other, Added::Fresh)
        && (log.len(), log.disputed()) == (2, 0)
        && settles(log, part(list, 0, 2))
        && answers(log, *second, Added::NewDispute { withdrawn: *other })
        && answers(log, *third, Added::MoreDispute)
        && (log.len(), log.disputed()) == (4, 1)
        && settles(log, part(list, 0, 1))
}

// The same where logs with some of the reports are united with it.
fn unites_apart(alloc: Global, log: &mut Log, list: &[Report]) -> bool {
    let Some(other) = log_of(alloc, part(list, 1, 2), 1) else {
        return false;
    };
    let Some(second) = log_of(alloc, part(list, 1, 3), 2) else {
        return false;
    };
    log.union(&other) == Ok(1)
        && log.disputed() == 0
        && settles(log, part(list, 0, 2))
        && log.union(&second) == Ok(1)
        && (log.len(), log.disputed()) == (3, 1)
        && settles(log, part(list, 0, 1))
}

fn adds_apart(alloc: Global, list: &[Report]) -> bool {
    let mut log = Log::new(alloc);
    answers_apart(&mut log, list)
}

fn joins_apart(alloc: Global, list: &[Report]) -> bool {
    let Some(mut log) = log_of(alloc, part(list, 0, 1), 1) else {
        return false;
    };
    unites_apart(alloc, &mut log, list)
}

fn sessions_are_apart(alloc: Global) -> bool {
    let Some(list) = of_sessions(alloc) else {
        return false;
    };
    adds_apart(alloc, &list) && joins_apart(alloc, &list)
}

#[test]
fn one_place_in_two_sessions_is_two_identities(rt: HostRuntime) {
    assert!(rt; sessions_are_apart(rt.alloc()));
}

// One of 96 reports of two sessions of each of two domains: eight places, each with three contents.
fn some_report(numbers: &mut Numbers) -> Option<Report> {
    let content = numbers.below(3);
    let identity = Identity {
        domain: numbers.below(2),
        session: numbers.below(2),
        place: numbers.below(8),
    };
    let content = Content {
        time: START + content as u64 * 50 + numbers.below(2) as u64,
        octets: content.wrapping_add(600),
        dscp: 0,
        iface: 1,
    };
    Report::new(identity, content)
}

fn some_reports(alloc: Global, numbers: &mut Numbers) -> Option<Vec<Report>> {
    let mut list = Vec::new(alloc);
    for _ in 0..numbers.below(40) {
        let Some(report) = some_report(numbers) else {
            return None;
        };
        if list.push(report).is_err() {
            return None;
        }
    }
    Some(list)
}

// The reports of a list without repeats.
fn distinct(alloc: Global, list: &[Report]) -> Result<Vec<Report>, AllocError> {
    let mut distinct = Vec::new(alloc);
    for report in list {
        if !distinct.contains(report) {
            distinct.push(*report)?;
        }
    }
    Ok(distinct)
}

// How many identities have several contents: those of the reports that are the first of their identity, and not the last.
fn disputed_in(list: &[Report]) -> u32 {
    let mut disputed: u32 = 0;
    for (i, report) in list.iter().enumerate() {
        let before = part(list, 0, i);
        let first = contents_in(before, report.identity()) == 0;
        if first && contents_in(list, report.identity()) > 1 {
            disputed = disputed.saturating_add(1);
        }
    }
    disputed
}

// Whether a log that gets a list one by one, and one that gets it at once, are as a plain list has it.
fn agrees_by_plain(alloc: Global, order: &[Report]) -> bool {
    let Ok(mut plain) = distinct(alloc, order) else {
        return false;
    };
    plain.sort_unstable();
    let new = u32::try_from(plain.len()).unwrap_or(0);
    agrees(alloc, order, disputed_in(&plain)) && adds_all(alloc, order, &plain, new)
}

fn agrees_at_random(alloc: Global, numbers: &mut Numbers) -> bool {
    let Some(order) = some_reports(alloc, numbers) else {
        return false;
    };
    agrees_by_plain(alloc, &order)
}

#[test]
fn any_list_of_two_sessions_gives_the_log_of_a_plain_list(rt: HostRuntime) {
    let mut numbers = Numbers { state: 5 };
    for list in 0..2_000 {
        assert!(rt; agrees_at_random(rt.alloc(), &mut numbers), "list {list}");
    }
}

// 513 reports of two sessions with the same 150 places each. 213 identities have two contents.
fn many(alloc: Global) -> Option<Vec<Report>> {
    let mut list = Vec::new(alloc);
    for i in 0..513 {
        let Some(report) = in_session(i % 2, i % 300 / 2, i, 40 + i) else {
            return None;
        };
        if list.push(report).is_err() {
            return None;
        }
    }
    Some(list)
}

// The first, the last, the second, the last but one, and so on.
fn alternating(alloc: Global, list: &[Report]) -> Result<Vec<Report>, AllocError> {
    let mut order = Vec::new(alloc);
    for (i, report) in list.iter().enumerate() {
        order.push(*report)?;
        order.push(list[list.len() - 1 - i])?;
    }
    Ok(order)
}

fn agrees_alternating(alloc: Global, list: &[Report]) -> bool {
    let Ok(order) = alternating(alloc, list) else {
        return false;
    };
    agrees(alloc, &order, 213) && adds_all(alloc, &order, list, 513)
}

#[test]
fn chunks_do_not_show(rt: HostRuntime) -> Result<(), Fail> {
    let mut list = many(rt.alloc()).ok_or("513 reports")?;
    assert!(rt; agrees(rt.alloc(), &list, 213));
    assert!(rt; agrees_alternating(rt.alloc(), &list));
    list.reverse();
    assert!(rt; agrees(rt.alloc(), &list, 213));
    Ok(())
}

fn fill(log: &mut Log) -> bool {
    for i in 0..LIMIT {
        let Some(report) = within_ranges(i, i, 40) else {
            return false;
        };
        if log.add(report) != Ok(Added::Fresh) {
            return false;
        }
    }
    log.len() == LIMIT
}

// What a log answers to a list of one report.
fn added_alone(
    alloc: Global,
    log: &mut Log,
    report: Report,
) -> Result<Result<u32, LogFault>, AllocError> {
    let given = Vec::from_slice(alloc, &[report])?;
    Ok(log.add_all(given))
}

fn refuses(alloc: Global, log: &mut Log, new: Report, old: Report) -> bool {
    let alone = log.add(new) == Err(LogFault::Full) && log.add(old) == Ok(Added::Repeat);
    let Ok(new) = added_alone(alloc, log, new) else {
        return false;
    };
    let Ok(old) = added_alone(alloc, log, old) else {
        return false;
    };
    alone && new == Err(LogFault::Full) && old == Ok(0) && log.len() == LIMIT
}

// A shared list, in its order and against it.
fn refuses_lists(
    alloc: Global,
    log: &mut Log,
    new: Report,
    old: Report,
) -> Result<bool, AllocError> {
    for given in [[old, new], [new, old]] {
        let given = Vec::from_slice(alloc, &given)?;
        if log.add_list(Items::of(alloc, given)?) != Err(LogFault::Full) {
            return Ok(false);
        }
    }
    Ok(log.len() == LIMIT)
}

// Through the trait alone.
fn join_refused<J: Join>(value: &mut J, other: &J) -> Option<JoinFault> {
    value.join_from(other).err()
}

fn refuses_log(log: &mut Log, other: &Log) -> bool {
    log.refusal(other) == Some(JoinFault::Full)
        && log.union(other) == Err(LogFault::Full)
        && join_refused(log, other) == Some(JoinFault::Full)
        && log.len() == LIMIT
}

fn refuses_union(alloc: Global, log: &mut Log, report: Report) -> bool {
    let mut other = Log::new(alloc);
    other.add(report) == Ok(Added::Fresh) && refuses_log(log, &other)
}

#[test]
fn a_full_log_refuses_what_is_new_long(rt: HostRuntime) -> Result<(), Fail> {
    let new = within_ranges(9, LIMIT, 40).ok_or("a report within its ranges")?;
    let old = within_ranges(9, 9, 40).ok_or("a report within its ranges")?;
    let mut log = Log::new(rt.alloc());
    assert!(rt; fill(&mut log));
    assert!(rt; refuses(rt.alloc(), &mut log, new, old));
    assert!(rt; refuses_lists(rt.alloc(), &mut log, new, old)?);
    assert!(rt; refuses_union(rt.alloc(), &mut log, new));
    Ok(())
}

// Through the trait alone.
fn joined<J: Join>(first: &J, second: &J) -> Result<J, JoinFault> {
    let mut value = first.copy()?;
    value.join_from(second)?;
    Ok(value)
}

// The reports of a list from one place to another, or none where it has no such places.
fn part(list: &[Report], from: usize, to: usize) -> &[Report] {
    match list.get(from..to) {
        Some(part) => part,
        None => &[],
    }
}

fn joins_to(first: &Log, second: &Log, list: &[Report]) -> bool {
    match joined(first, second) {
        Ok(log) => has_all(&log, list),
        Err(_) => false,
    }
}

fn joins_both(first: &Log, second: &Log, list: &[Report]) -> bool {
    joins_to(first, second, list)
        && joins_to(second, first, list)
        && joins_to(first, first, part(list, 0, 400))
}

fn joins(alloc: Global) -> bool {
    let Some(list) = many(alloc) else {
        return false;
    };
    let Some(second) = log_of(alloc, part(&list, 200, 513), 313) else {
        return false;
    };
    let Some(first) = log_of(alloc, part(&list, 0, 400), 400) else {
        return false;
    };
    joins_both(&first, &second, &list)
}

#[test]
fn logs_join_to_their_union(rt: HostRuntime) {
    assert!(rt; joins(rt.alloc()));
}

// No growth in the sweeps below takes less, so that heaps that differ by it refuse each in turn. The least is that of
// the order by identity of three reports.
const STEP: usize = 80;

// What the sweeps below came to in a heap of some size.
#[derive(Clone, Copy)]
enum Step {
    // The log of before was too large.
    Before,
    // The call was refused, the log is as before, and the heap then held this many octets.
    Refused(usize),
    // The call was refused otherwise, or was done wrongly.
    Wrong,
    Done,
}

fn is_done(step: &Step) -> bool {
    matches!(step, Step::Done)
}

// Whether the calls end with one that was done, and each before was refused or had no log.
fn ends_done(steps: &[Step]) -> bool {
    for step in steps {
        if matches!(step, Step::Wrong) {
            return false;
        }
    }
    matches!(steps.last(), Some(Step::Done))
}

// A log that had just these reports, without disputes, and was refused more.
fn refused<A: Allocator + Copy>(
    log: &Log<A>,
    fault: LogFault,
    list: &[Report],
    octets: usize,
) -> Step {
    let as_before = has_all(log, list) && log.disputed() == 0;
    if as_before && fault == LogFault::Memory {
        Step::Refused(octets)
    } else {
        Step::Wrong
    }
}

// A log that got all of these, and has this many disputes.
fn done<A: Allocator + Copy>(log: &Log<A>, list: &[Report], disputed: u32) -> Step {
    if has_reports(log, list) && log.disputed() == disputed {
        Step::Done
    } else {
        Step::Wrong
    }
}

fn add_to<A: Allocator + Copy>(log: &mut Log<A>, list: &[Report]) -> Result<(), LogFault> {
    for report in list {
        log.add(*report)?;
    }
    Ok(())
}

// What a log comes to by a second content of one of its identities. All that it then has are given in order.
fn disputed_step(
    log: &mut Log<&LocalHeap>,
    small: &LocalHeap,
    before: &[Report],
    content: Report,
    after: &[Report],
) -> Step {
    match log.add(content) {
        Ok(_) => done(log, after, 1),
        Err(fault) => refused(log, fault, before, small.used()),
    }
}

// The same of a log that is made here.
fn dispute_step(small: &LocalHeap, before: &[Report], content: Report, after: &[Report]) -> Step {
    let mut log = Log::new(small);
    if add_to(&mut log, before).is_err() {
        return Step::Before;
    }
    disputed_step(&mut log, small, before, content, after)
}

// What the heap held after each refusal, once for heaps in a row that then held the same.
fn kept(alloc: Global, steps: &[Step]) -> Result<Vec<usize>, AllocError> {
    let mut kept = Vec::new(alloc);
    for step in steps {
        if let Step::Refused(octets) = *step {
            if kept.last() != Some(&octets) {
                kept.push(octets)?;
            }
        }
    }
    Ok(kept)
}

// Whether so many growths were refused in turn, and then none.
fn refuses_in_turn(alloc: Global, steps: &[Step], growths: usize) -> bool {
    let Ok(kept) = kept(alloc, steps) else {
        return false;
    };
    kept.len() == growths && ends_done(steps)
}

fn dispute_within(
    alloc: Global,
    octets: usize,
    before: &[Report],
    content: Report,
    after: &[Report],
) -> Result<Step, AllocError> {
    let small = LocalHeap::new(alloc, octets)?;
    Ok(dispute_step(&small, before, content, after))
}

fn dispute_steps(
    alloc: Global,
    before: &[Report],
    content: Report,
    after: &[Report],
) -> Result<Vec<Step>, AllocError> {
    let mut met = Vec::new(alloc);
    for size in 1..1024 {
        let step = dispute_within(alloc, STEP * size, before, content, after)?;
        met.push(step)?;
        if is_done(&step) {
            break;
        }
    }
    Ok(met)
}

// The late report, and a second content of its identity.
fn late_steps(alloc: Global) -> Option<Vec<Step>> {
    let Some(first) = within_ranges(3, 50, 600) else {
        return None;
    };
    let Some(content) = within_ranges(3, 60, 601) else {
        return None;
    };
    dispute_steps(alloc, &[first], content, &[first, content]).ok()
}

fn refuses_late(alloc: Global) -> bool {
    let Some(met) = late_steps(alloc) else {
        return false;
    };
    // Refused to the reports, to the disputed identities' list of chunks, and to a chunk of these.
    refuses_in_turn(alloc, &met, 3)
}

#[test]
fn a_refused_dispute_leaves_the_log_as_it_was(rt: HostRuntime) {
    assert!(rt; refuses_late(rt.alloc()));
}

// The same beside the three other worked rows.
fn other_steps(alloc: Global, list: &[Report]) -> Option<Vec<Step>> {
    let [a, b, c, late, content] = list else {
        return None;
    };
    let after = [*a, *late, *content, *b, *c];
    dispute_steps(alloc, &[*a, *late, *b, *c], *content, &after).ok()
}

fn refuses_beside_others(alloc: Global) -> bool {
    let Some(list) = rows(alloc, 5) else {
        return false;
    };
    let Some(met) = other_steps(alloc, &list) else {
        return false;
    };
    // The reports have room for a fifth.
    refuses_in_turn(alloc, &met, 2)
}

#[test]
fn a_refused_dispute_leaves_other_reports_too(rt: HostRuntime) {
    assert!(rt; refuses_beside_others(rt.alloc()));
}

// What a log of three reports answers to a second content of the second. All four are given in order.
fn late_answer(
    log: &mut Log<&LocalHeap>,
    small: &LocalHeap,
    list: &[Report],
    all: &[Report],
) -> Step {
    let [_, second, _, content] = all else {
        return Step::Wrong;
    };
    match log.add(*content) {
        Ok(answer) if answer != (Added::NewDispute { withdrawn: *second }) => Step::Wrong,
        Ok(_) if !has_settled(log, all) => Step::Wrong,
        Ok(_) => done(log, all, 1),
        Err(fault) => refused(log, fault, list, small.used()),
    }
}

// The same where the three came as one list, whose places ascend.
fn late_content_step(small: &LocalHeap, list: &[Report], all: &[Report]) -> Step {
    let Ok(given) = Vec::from_slice(small, list) else {
        return Step::Before;
    };
    let mut log = Log::new(small);
    if log.add_all(given).is_err() {
        return Step::Before;
    }
    late_answer(&mut log, small, list, all)
}

fn late_content_within(alloc: Global, octets: usize, all: &[Report]) -> Result<Step, AllocError> {
    let small = LocalHeap::new(alloc, octets)?;
    Ok(late_content_step(&small, part(all, 0, 3), all))
}

// All four are given in order.
fn late_content_steps(alloc: Global, all: &[Report]) -> Result<Vec<Step>, AllocError> {
    let mut met = Vec::new(alloc);
    for size in 1..1024 {
        let step = late_content_within(alloc, STEP * size, all)?;
        met.push(step)?;
        if is_done(&step) {
            break;
        }
    }
    Ok(met)
}

fn three_and(alloc: Global, content: Report) -> Option<Vec<Report>> {
    let Some(mut all) = rows(alloc, 3) else {
        return None;
    };
    if all.push(content).is_err() {
        return None;
    }
    Some(all)
}

fn refuses_content(alloc: Global, content: Report) -> bool {
    let Some(all) = three_and(alloc, content) else {
        return false;
    };
    let Ok(met) = late_content_steps(alloc, &all) else {
        return false;
    };
    // Refused to the reports, to the index that is made now, to the disputed identities' list of chunks, and to a chunk of
    // these.
    refuses_in_turn(alloc, &met, 4)
}

fn refuses_later(alloc: Global) -> bool {
    match within_ranges(1, 300, 60) {
        Some(content) => refuses_content(alloc, content),
        None => false,
    }
}

#[test]
fn a_list_in_order_is_disputed_later(rt: HostRuntime) {
    assert!(rt; refuses_later(rt.alloc()));
}

// The calls that take many reports.
#[derive(Clone, Copy)]
enum Call {
    Union,
    AddAll,
}

// 256 reports, which fill a chunk, then two whose identities lie between theirs, and a second content of the first.
fn chunk_and_three(alloc: Global) -> Option<Vec<Report>> {
    let mut list = Vec::new(alloc);
    for i in 0..259 {
        let place = match i {
            256 => 1,
            257 => 3,
            258 => 0,
            _ => 2 * i,
        };
        let Some(report) = within_ranges(place, i, 40) else {
            return None;
        };
        if list.push(report).is_err() {
            return None;
        }
    }
    Some(list)
}

fn called<'a>(
    log: &mut Log<&'a LocalHeap>,
    call: Call,
    other: &Log<&'a LocalHeap>,
    given: Vec<Report, &'a LocalHeap>,
) -> Result<u32, LogFault> {
    match call {
        Call::Union => log.union(other),
        Call::AddAll => log.add_all(given),
    }
}

fn called_step<'a>(
    (log, small): (&mut Log<&'a LocalHeap>, &'a LocalHeap),
    call: Call,
    other: &Log<&'a LocalHeap>,
    given: Vec<Report, &'a LocalHeap>,
    (lower, list): (&[Report], &[Report]),
) -> Step {
    match called(log, call, other, given) {
        Ok(_) => done(log, list, 1),
        Err(fault) => refused(log, fault, lower, small.used()),
    }
}

// A call on a log in a small heap.
fn small_step<'a>(
    small: &'a LocalHeap,
    call: Call,
    other: &Log<&'a LocalHeap>,
    given: Vec<Report, &'a LocalHeap>,
    (lower, list): (&[Report], &[Report]),
) -> Step {
    let mut log = Log::new(small);
    if add_to(&mut log, lower).is_err() {
        return Step::Before;
    }
    called_step((&mut log, small), call, other, given, (lower, list))
}

// A call that takes more into a log in a small heap, where what it takes is in another one.
fn call_step<'a>(
    (small, ample): (&'a LocalHeap, &'a LocalHeap),
    call: Call,
    (lower, more): (&[Report], &[Report]),
    list: &[Report],
) -> Result<Step, AllocError> {
    let mut other = Log::new(ample);
    if add_to(&mut other, more).is_err() {
        return Ok(Step::Wrong);
    }
    let given = Vec::from_slice(ample, more)?;
    Ok(small_step(small, call, &other, given, (lower, list)))
}

fn call_within(
    alloc: Global,
    octets: usize,
    call: Call,
    parts: (&[Report], &[Report]),
    list: &[Report],
) -> Result<Step, AllocError> {
    let ample = LocalHeap::new(alloc, 1 << 17)?;
    let small = LocalHeap::new(alloc, octets)?;
    call_step((&small, &ample), call, parts, list)
}

// The calls in larger and larger heaps.
fn calls_within(
    alloc: Global,
    call: Call,
    parts: (&[Report], &[Report]),
    list: &[Report],
) -> Result<Vec<Step>, AllocError> {
    let mut met = Vec::new(alloc);
    for size in 256..1024 {
        let step = call_within(alloc, STEP * size, call, parts, list)?;
        met.push(step)?;
        if is_done(&step) {
            break;
        }
    }
    Ok(met)
}

// The last reports, some of which the log has, each twice and out of order.
fn call_steps(alloc: Global, call: Call) -> Option<Vec<Step>> {
    let Some(list) = chunk_and_three(alloc) else {
        return None;
    };
    let Ok(more) = alternating(alloc, part(&list, 200, 259)) else {
        return None;
    };
    calls_within(alloc, call, (part(&list, 0, 256), &more), &list).ok()
}

// Whether each growth was refused in turn. The call's own come first: the new reports, their order by identity, the
// new identities and the newly disputed. They are freed again, so they leave the same. Then come a chunk of the
// reports, the disputed identities' list of chunks, a chunk of these, and a chunk of the index, at whose refusal the
// chunk of the disputed is freed again, so that it leaves what that chunk's own left; the lists of chunks of the reports
// and of the index have room. Three new reports are so few that their order, which is freed before, makes no room for any.
fn refuses_each_growth(alloc: Global, call: Call) -> bool {
    let Some(met) = call_steps(alloc, call) else {
        return false;
    };
    let from_the_first = matches!(met.first(), Some(Step::Before));
    from_the_first && refuses_in_turn(alloc, &met, 4)
}

#[test]
fn a_refused_union_leaves_the_log_as_it_was(rt: HostRuntime) {
    assert!(rt; refuses_each_growth(rt.alloc(), Call::Union));
}

#[test]
fn a_refused_list_leaves_the_log_as_it_was(rt: HostRuntime) {
    assert!(rt; refuses_each_growth(rt.alloc(), Call::AddAll));
}

// 2,000 reports and four more, each of its own identity and after those before it. They leave room in their last chunk.
fn two_thousand_and_four(alloc: Global) -> Option<Vec<Report>> {
    let mut list = Vec::new(alloc);
    for i in 0..2_004 {
        let Some(report) = within_ranges(i, i, 40) else {
            return None;
        };
        if list.push(report).is_err() {
            return None;
        }
    }
    Some(list)
}

// Whether a log that takes three reports by a call, and then one alone, holds as many octets of its heap as before after each. The
// reports have room beside the others, so only an index that is given back or made anew would change that.
fn keeps_index<'a>(
    (log, small): (&mut Log<&'a LocalHeap>, &LocalHeap),
    call: Call,
    other: &Log<&'a LocalHeap>,
    given: Vec<Report, &'a LocalHeap>,
    next: Report,
) -> bool {
    let used = small.used();
    let took = called(log, call, other, given) == Ok(3) && small.used() == used;
    took && log.add(next) == Ok(Added::Fresh) && small.used() == used
}

// The same of a log that gets so many one by one here, and then has an index.
fn long_keeps_index<'a>(
    small: &'a LocalHeap,
    call: Call,
    other: &Log<&'a LocalHeap>,
    given: Vec<Report, &'a LocalHeap>,
    (long, next): (&[Report], Report),
) -> bool {
    let mut log = Log::new(small);
    if add_to(&mut log, long).is_err() {
        return false;
    }
    keeps_index((&mut log, small), call, other, given, next)
}

// The same where the three are in another heap.
fn call_keeps_index<'a>(
    (small, ample): (&'a LocalHeap, &'a LocalHeap),
    call: Call,
    list: &[Report],
    next: Report,
) -> Result<bool, AllocError> {
    let few = part(list, 2_000, 2_003);
    let Some(other) = log_of(ample, few, 3) else {
        return Ok(false);
    };
    let given = Vec::from_slice(ample, few)?;
    let long = part(list, 0, 2_000);
    Ok(long_keeps_index(small, call, &other, given, (long, next)))
}

// The log has 131,000 octets, half of them of its index. The rest of the heap is more than twice the 22,000 that the call takes and gives
// back, and less than half the 120,000 that making an index takes.
fn short_keeps_index(alloc: Global, call: Call, list: &[Report]) -> Result<bool, AllocError> {
    let Some(next) = list.last() else {
        return Ok(false);
    };
    let ample = LocalHeap::new(alloc, 1 << 17)?;
    let small = LocalHeap::new(alloc, 184_000)?;
    call_keeps_index((&small, &ample), call, list, *next)
}

#[test]
fn a_short_list_keeps_the_index(rt: HostRuntime) -> Result<(), Fail> {
    let list = two_thousand_and_four(rt.alloc()).ok_or("2004 reports")?;
    for call in [Call::Union, Call::AddAll] {
        let keeps = short_keeps_index(rt.alloc(), call, &list)?;
        assert!(rt; keeps);
    }
    Ok(())
}

// Takes all that a heap has left, so that it refuses each growth.
fn exhausted(alloc: Global, heap: &LocalHeap) -> Result<Vec<Vec<u8, &LocalHeap>>, AllocError> {
    let mut taken = Vec::new(alloc);
    for _ in 0..4096 {
        let Ok(block) = Vec::with_capacity(heap, 1) else {
            break;
        };
        taken.push(block)?;
    }
    Ok(taken)
}

// Whether a log that has all of a list answers that it has, by each call and without a growth of its heap.
fn has_them_already<'a>(
    log: &mut Log<&'a LocalHeap>,
    heap: &LocalHeap,
    list: &[Report],
    other: &Log<&'a LocalHeap>,
) -> bool {
    let used = heap.used();
    let each = list.iter().all(|report| log.contains(report));
    let repeats = repeats_each(log, list);
    let united = log.union(other) == Ok(0) && log.join_from(other) == Ok(());
    each && repeats && united && heap.used() == used
}

fn repeats_each<A: Allocator + Copy>(log: &mut Log<A>, list: &[Report]) -> bool {
    for report in list {
        if log.add(*report) != Ok(Added::Repeat) {
            return false;
        }
    }
    true
}

// Whether a log has what it is given already once its heap is exhausted.
fn has_them_exhausted<'a>(
    (alloc, heap): (Global, &'a LocalHeap),
    log: &mut Log<&'a LocalHeap>,
    list: &[Report],
    other: &Log<&'a LocalHeap>,
) -> bool {
    let Ok(given) = Vec::from_slice(heap, list) else {
        return false;
    };
    let Ok(taken) = exhausted(alloc, heap) else {
        return false;
    };
    let kept = has_them_already(log, heap, list, other);
    let repeats = log.add_all(given) == Ok(0);
    kept && repeats && taken.len() > 0
}

fn has_them_without_memory(alloc: Global, heap: &LocalHeap, list: &[Report]) -> bool {
    let Some(other) = log_of(heap, list, 6) else {
        return false;
    };
    let Some(mut log) = log_of(heap, list, 6) else {
        return false;
    };
    has_them_exhausted((alloc, heap), &mut log, list, &other)
}

fn has_rows_without_memory(alloc: Global) -> bool {
    let Ok(heap) = LocalHeap::new(alloc, 1 << 17) else {
        return false;
    };
    let Some(list) = rows(alloc, 6) else {
        return false;
    };
    has_them_without_memory(alloc, &heap, &list)
}

#[test]
fn what_is_there_already_takes_no_memory(rt: HostRuntime) {
    assert!(rt; has_rows_without_memory(rt.alloc()));
}

// Whether a log took the first rows as a list that it shares, and how many reports it has then.
fn shares(alloc: Global, log: &mut Log, count: usize) -> Option<(bool, u32)> {
    let list = Items::of(alloc, rows(alloc, count)?).ok()?;
    let took = log.take_shared(&list).ok()?;
    Some((took, log.len()))
}

#[test]
fn a_log_shares_a_list_that_ascends_where_it_has_none(rt: HostRuntime) {
    let mut log = Log::new(rt.alloc());
    assert!(rt; shares(rt.alloc(), &mut log, 4) == Some((false, 0)));
    assert!(rt; shares(rt.alloc(), &mut log, 3) == Some((true, 3)));
    assert!(rt; shares(rt.alloc(), &mut log, 2) == Some((false, 3)));
}

// How many reports the set has that stands beside the list of the first rows.
fn count_beside(alloc: Global, count: usize) -> Option<usize> {
    let list = Items::of(alloc, rows(alloc, count)?).ok()?;
    let set = with_set(alloc, list).other().ok()??;
    Some(set.len())
}

#[test]
fn a_list_that_does_not_ascend_has_its_set_beside(rt: HostRuntime) {
    assert!(rt; count_beside(rt.alloc(), 3).is_none());
    assert!(rt; count_beside(rt.alloc(), 4) == Some(4));
}

// What a log answers that is given the first rows as a list that may be shared.
fn adds_list(alloc: Global, log: &mut Log, count: usize) -> Option<Result<u32, LogFault>> {
    let list = Items::of(alloc, rows(alloc, count)?).ok()?;
    Some(log.add_list(list))
}

#[test]
fn a_list_that_may_be_shared_is_added_once(rt: HostRuntime) {
    let mut log = Log::new(rt.alloc());
    assert!(rt; adds_list(rt.alloc(), &mut log, 3) == Some(Ok(3)));
    assert!(rt; adds_list(rt.alloc(), &mut log, 3) == Some(Ok(0)));
    assert!(rt; adds_list(rt.alloc(), &mut log, 6) == Some(Ok(3)));
    assert!(rt; log.len() == 6 && log.disputed() == 1);
}

// What a log answers that is given one report as often as this, as a list that may be shared.
fn adds_repeats(alloc: Global, log: &mut Log, count: u32) -> Option<Result<u32, LogFault>> {
    let report = within_ranges(9, 9, 40)?;
    let mut repeats = Vec::with_capacity(alloc, count as usize).ok()?;
    for _ in 0..count {
        repeats.push(report).ok()?;
    }
    let list = Items::of(alloc, repeats).ok()?;
    Some(log.add_list(list))
}

#[test]
fn a_list_of_more_repeats_than_a_log_holds_is_added_long(rt: HostRuntime) {
    let mut log = Log::new(rt.alloc());
    assert!(rt; adds_repeats(rt.alloc(), &mut log, LIMIT + 1) == Some(Ok(1)));
    assert!(rt; log.len() == 1);
}

#[test]
fn rows_are_put_and_withdrawn_without_memory(rt: HostRuntime) -> Result<(), Fail> {
    let heap = LocalHeap::new(rt.alloc(), 1 << 13)?;
    let mut rows = Rows::new(&heap);
    for i in 0..256u32 {
        rows.reserve()?;
        assert!(rt; !rows.contains(&(2 * i)) && rows.len() < 4_194_304);
        rows.put(2 * i);
    }
    rows.reserve()?;
    let taken = exhausted(rt.alloc(), &heap)?;
    let used = heap.used();
    assert!(rt; !rows.contains(&77) && rows.len() < 4_194_304);
    rows.put(77);
    assert!(rt; rows.contains(&78));
    rows.withdraw(&78);
    assert!(rt; (rows.len(), rows.rank(&80)) == (256, 40));
    assert!(rt; rows.reserve().is_err() && heap.used() == used && taken.len() > 0);
    Ok(())
}

fn says(alloc: Global, fault: LogFault, text: &str) -> bool {
    match format!(in alloc; "{fault}") {
        Ok(said) => said.as_str() == text,
        Err(_) => false,
    }
}

#[test]
fn faults_have_numbers_and_texts(rt: HostRuntime) {
    for (fault, number, text) in [
        (
            LogFault::Full,
            1,
            "the log is full: it has at most 4194304 reports",
        ),
        (LogFault::Memory, 2, "no memory for more reports in the log"),
    ] {
        assert!(rt; fault.number() == number);
        assert!(rt; says(rt.alloc(), fault, text));
    }
}
