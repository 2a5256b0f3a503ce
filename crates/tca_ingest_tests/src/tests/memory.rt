//! Takes that may be refused a growth, and the same takes again. They are run with each growth refused in turn, once each: where no entry
//! was made nothing changed, else the entry names what is held; one of the two takes is completed; and the replica can be closed. A
//! statement that is made without a book where there is no memory for one; and each other call, which says what it lacks.
ghost use Rattle.std.specs.Prelude.{◌≡◌};

use super::{
    FIRST, PARTS, SECOND, THIRD, closed_with, has_list, has_made, is_of_three, plan, report_of,
    reports,
};
use std::alloc::{AllocError, Global};
use std::marker::Brand;
use std::sync::Wait;
use std::sync::ledger::Blank;
use std::test::Fail;
use tca_accounts::{Bill, Plan};
use tca_ingest::{Entry, Pass, Receipt, ShareFault, Shared, Side, exchange};
use tca_join::ByKey;
use tca_log::LogFault;
use tca_report::Report;

// Whether a take of a list holds so many of its reports: all where nothing stopped it, else memory did.
fn stops_at(stop: Option<LogFault>, held: usize, list: &[Report]) -> bool {
    if held == list.len() {
        stop == None
    } else {
        stop == Some(LogFault::Memory)
    }
}

// How many reports the entry of a take has: the first of the list, of which so many were held before.
fn held_in(entry: &Entry, list: &[Report], before: usize) -> Option<usize> {
    let Entry::Took {
        reports,
        fresh,
        stop,
        ..
    } = entry
    else {
        return None;
    };
    let held = reports.len();
    let are_first = list.get(..held) == Some(reports.as_slice());
    let is_fresh = *fresh == held.saturating_sub(before) as u64;
    if are_first && is_fresh && stops_at(*stop, held, list) {
        Some(held)
    } else {
        None
    }
}

// How many reports a take names as held, where at most memory was refused; 0 where no entry was made.
fn held(receipt: &Result<Receipt, ShareFault>, list: &[Report], before: usize) -> Option<usize> {
    match receipt {
        Ok(receipt) => held_in(&receipt.entry, list, before),
        Err(ShareFault::Memory) => Some(0),
        Err(_) => None,
    }
}

// Takes reports of which so many are held, and answers how many are named then; None where the list of the pass isn't longer just
// where there is a receipt.
fn takes<L: Side, R: Wait>(
    rt: &R,
    shared: &Shared<L>,
    pass: &mut Pass<L>,
    list: &[Report],
    before: usize,
) -> Option<usize> {
    let calls = pass.calls().len();
    let receipt = shared.take(rt, pass, list);
    let noted = pass.calls().len() != calls;
    if noted != receipt.is_ok() {
        return None;
    }
    held(&receipt, list, before)
}

// Whether a bill may be refused for memory, or is that of the first three rows.
fn is_right(bill: &Result<Bill, AllocError>) -> bool {
    match bill {
        Ok(bill) => is_of_three(bill),
        Err(_) => true,
    }
}

// Takes reports twice. Whether one of the takes holds all, which one refusal leaves: how many new ones the second finds tells how
// many the first held.
fn are_taken<L: Side, R: Wait>(
    rt: &R,
    shared: &Shared<L>,
    pass: &mut Pass<L>,
    list: &[Report],
) -> bool {
    let Some(first) = takes(rt, shared, pass, list, 0) else {
        return false;
    };
    let Some(again) = takes(rt, shared, pass, list, first) else {
        return false;
    };
    first == list.len() || again == list.len()
}

// Whether a replica that took the first three rows closes, and has them and their bill.
fn closes<L: Side>(shared: Shared<L>, passes: Vec<Pass<L>>, list: &[Report]) -> bool {
    let Some(closed) = closed_with(shared, passes) else {
        return false;
    };
    has_list(&closed.replica, list) && is_right(&closed.replica.totals())
}

// Takes the three rows twice, by one pass, and closes.
fn twice<L: Side, R: Wait>(rt: &R, alloc: Global, shared: Shared<L>) -> Result<bool, Fail> {
    let mut passes = Vec::with_capacity(alloc, 1)?;
    let list = reports(alloc, &[FIRST, SECOND, THIRD]).ok_or("reports")?;
    let mut pass = shared.pass(rt)?;
    let taken = are_taken(rt, &shared, &mut pass, &list);
    let made = has_made(rt, &shared, 1);
    passes.push(pass)?;
    Ok(taken && made && closes(shared, passes, &list))
}

fn takes_again<L: Side, R: Wait>(
    rt: &R,
    alloc: Global,
    blank: Blank,
    name: u32,
    plan: Plan,
) -> Result<bool, Fail>
    requires name { blank.name ≡ L.name }
    requires parts { (blank.parts ≡ L.parts) × (L.parts ≡ 65537) }
    requires called { name ≡ L.called }
    requires plan { plan ≡ L.plan }
{
    let shared = Shared::<L>::new(alloc, blank, name, plan)?;
    twice(rt, alloc, shared)
}

#[test]
fn a_take_that_was_refused_is_completed(rt: HostRuntime) -> Result<(), Fail> {
    let plan = plan(rt.alloc())?;
    assert!(rt; takes_again::<Brand, _>(&rt, rt.alloc(), Blank::new(PARTS), 1, plan)?);
    Ok(())
}

// As many reports as are taken at once, after which no book is kept.
fn long_list(alloc: Global) -> Option<Vec<Report>> {
    let mut list = Vec::new(alloc);
    for place in 0..1024 {
        let Some(report) = report_of(0, (place, place, 1)) else {
            return None;
        };
        if list.push(report).is_err() {
            return None;
        }
    }
    Some(list)
}

// Whether a statement is made, or lacks memory only beside a book: where there is none for the book it is made without it.
fn is_stated_or_kept<L: Side, R: Wait>(
    rt: &R,
    alloc: Global,
    shared: Shared<L>,
) -> Result<bool, Fail> {
    let mut passes = Vec::with_capacity(alloc, 1)?;
    let list = long_list(alloc).ok_or("reports")?;
    let mut pass = shared.pass(rt)?;
    shared.take(rt, &mut pass, &list)?;
    let is_made = shared.statement(rt, &mut pass).is_ok();
    passes.push(pass)?;
    let closed = closed_with(shared, passes).ok_or("a close")?;
    Ok(is_made || closed.replica.keeps_book())
}

fn states_a_long_list<L: Side, R: Wait>(
    rt: &R,
    alloc: Global,
    blank: Blank,
    name: u32,
    plan: Plan,
) -> Result<bool, Fail>
    requires name { blank.name ≡ L.name }
    requires parts { (blank.parts ≡ L.parts) × (L.parts ≡ 65537) }
    requires called { name ≡ L.called }
    requires plan { plan ≡ L.plan }
{
    let shared = Shared::<L>::new(alloc, blank, name, plan)?;
    is_stated_or_kept(rt, alloc, shared)
}

#[test]
fn a_statement_lacks_memory_only_beside_a_book(rt: HostRuntime) -> Result<(), Fail> {
    let plan = plan(rt.alloc())?;
    assert!(rt; states_a_long_list::<Brand, _>(&rt, rt.alloc(), Blank::new(PARTS), 1, plan)?);
    Ok(())
}

// States, sends all that it holds, absorbs it, and tells itself.
fn calls_each<L: Side, R: Wait>(
    rt: &R,
    alloc: Global,
    shared: &Shared<L>,
    mine: &mut Pass<L>,
    theirs: &mut Pass<L>,
) -> Result<(), ShareFault> {
    shared.statement(rt, mine)?;
    let sent = shared.delta(rt, theirs, &ByKey::new(alloc))?;
    let Entry::Sent { delta, .. } = sent.entry else {
        unreachable!();
    };
    shared.absorb(rt, mine, &delta)?;
    exchange(rt, shared, mine, shared, theirs)?;
    Ok(())
}

// Whether each call on a replica of three rows is made, or says that it lacks memory and takes no number of a pass; then it closes.
fn lacks_memory_alone<L: Side, R: Wait>(
    rt: &R,
    alloc: Global,
    shared: Shared<L>,
) -> Result<bool, Fail> {
    let mut passes = Vec::with_capacity(alloc, 2)?;
    let list = reports(alloc, &[FIRST, SECOND, THIRD]).ok_or("reports")?;
    let mut mine = shared.pass(rt)?;
    let mut theirs = shared.pass(rt)?;
    shared.take(rt, &mut mine, &list)?;
    let refused = calls_each(rt, alloc, &shared, &mut mine, &mut theirs).err();
    let made = has_made(rt, &shared, 2);
    passes.push(mine)?;
    passes.push(theirs)?;
    let is_told = refused == None || refused == Some(ShareFault::Memory);
    Ok(is_told && made && closed_with(shared, passes).is_some())
}

fn calls_lack_memory_alone<L: Side, R: Wait>(
    rt: &R,
    alloc: Global,
    blank: Blank,
    name: u32,
    plan: Plan,
) -> Result<bool, Fail>
    requires name { blank.name ≡ L.name }
    requires parts { (blank.parts ≡ L.parts) × (L.parts ≡ 65537) }
    requires called { name ≡ L.called }
    requires plan { plan ≡ L.plan }
{
    let shared = Shared::<L>::new(alloc, blank, name, plan)?;
    lacks_memory_alone(rt, alloc, shared)
}

#[test]
fn a_call_that_is_refused_a_growth_says_so(rt: HostRuntime) -> Result<(), Fail> {
    let plan = plan(rt.alloc())?;
    assert!(rt; calls_lack_memory_alone::<Brand, _>(&rt, rt.alloc(), Blank::new(PARTS), 1, plan)?);
    Ok(())
}
