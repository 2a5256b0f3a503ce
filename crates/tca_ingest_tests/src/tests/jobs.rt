//! Workers: two replicas that tell each other what they hold, an input that is refused among good ones, too few passes, and a long input.
ghost use Rattle.std.specs.Prelude.{◌≡◌, ◌≤◌, IfSome, length};

use super::exchanges::{are_of_three, both, ends, is_gap, tells};
use super::limits::makes;
use super::{
    FIRST, PARTS, SECOND, START, TEMPLATE_AND_RECORD, THIRD, closed_with, lengths, plain, plan,
    with_one_more,
};
use std::alloc::{AllocError, Global};
use std::marker::Brand;
use std::process::Abort;
use std::sync::Wait;
use std::sync::ledger::Blank;
use std::thread::Threads;
use tca_accounts::Plan;
use tca_ingest::{Closed, Done, Entry, JobFault, NoGate, Pass, Shared, Side, WorkFault, work};
use tca_report::{Input, InputFault, Notes};

// The octets of the log export of one report, spelled here by hand.
fn octets_of(row: (u32, u32, u32)) -> [u8; 39] {
    let (place, late, octets) = row;
    let [a, b, c, d, e, f, g, h] = START.wrapping_add(late as u64).to_be_bytes();
    let [i, j, k, l] = place.to_be_bytes();
    let [m, n, o, p] = octets.to_be_bytes();
    [
        b'T', b'C', b'A', b'X', 0, 2, 0, 0, 0, 1, a, b, c, d, e, f, g, h, 0, 0, 0, 7, 0, 0, 0, 0,
        i, j, k, l, m, n, o, p, 0, 0, 0, 0, 1,
    ]
}

// The log export of one report, as an input.
pub(super) fn export(alloc: Global, row: (u32, u32, u32)) -> Result<Input, AllocError> {
    Ok(plain(Vec::from_slice(alloc, &octets_of(row))?))
}

// The exports of at most three reports, one each.
pub(super) fn exports(alloc: Global, rows: &[(u32, u32, u32)]) -> Option<Vec<Input>>
    ensures { IfSome result (λ all. length all.items ≤ 3) }
{
    let Ok(mut all) = Vec::with_capacity(alloc, rows.len()) else {
        return None;
    };
    for row in rows {
        let Ok(input) = export(alloc, *row) else {
            return None;
        };
        if all.push(input).is_err() {
            return None;
        }
    }
    if all.len() > 3 {
        return None;
    }
    Some(all)
}

// Two exports, and between them the octets of one that is cut, as a list.
fn cut_between(alloc: Global) -> Result<Vec<Input>, AllocError> {
    let mut all = Vec::with_capacity(alloc, 3)?;
    all.push(export(alloc, FIRST)?)?;
    all.push(plain(Vec::from_slice(alloc, b"TCAX\x00\x02\x00\x00\x00")?))?;
    all.push(export(alloc, THIRD)?)?;
    Ok(all)
}

// The same, where there are at most three.
fn with_a_cut(alloc: Global) -> Option<Vec<Input>>
    ensures { IfSome result (λ all. length all.items ≤ 3) }
{
    let Ok(all) = cut_between(alloc) else {
        return None;
    };
    if all.len() > 3 {
        return None;
    }
    Some(all)
}

// The number of a job, and how many reports of its input are held, where all are.
fn of_job(done: &Done) -> Option<(u32, usize)> {
    match &done.result {
        Ok((notes, receipt)) => match &receipt.entry {
            Entry::Took {
                reports,
                stop: None,
                ..
            } if *notes == nothing() => { Some((done.job, reports.len())) }
            _ => None,
        },
        Err(_) => None,
    }
}

// Whether a job's receipt has this front.
fn has_front(done: &Done, front: u64) -> bool {
    match &done.result {
        Ok((_, receipt)) => receipt.front == front,
        Err(_) => false,
    }
}

// Whether each number from 1 to this count is the front of a receipt. So each is that of one receipt alone where there are as many.
pub(super) fn have_fronts(done: &[Done], count: u64) -> bool {
    for front in 1..=count {
        if !done.iter().any(|one| has_front(one, front)) {
            return false;
        }
    }
    true
}

// The notes of an export.
fn nothing() -> Notes {
    Notes {
        messages: 0,
        not_reports: [0; 7],
        unplaced: 0,
        skipped: 0,
    }
}

// Has two workers take two reports, an input each, and answers their passes.
fn by_two<L: Side + Send + Sync, R: Threads + Wait + Abort + Sync>(
    rt: &R,
    alloc: Global,
    shared: &Shared<L>,
    rows: [(u32, u32, u32); 2],
) -> Option<Vec<Pass<L>>> {
    let Some(inputs) = exports(alloc, &rows) else {
        return None;
    };
    let Ok(worked) = work(rt, alloc, shared, &inputs, &NoGate, 2) else {
        return None;
    };
    assert!(rt; (worked.done.len(), worked.passes.len()) == (2, 2));
    let agreed = (of_job(&worked.done[0]), of_job(&worked.done[1]));
    assert!(rt; agreed == (Some((0, 1)), Some((1, 1))));
    Some(worked.passes)
}

// Each lacks one report of the other's. They tell each other twice.
fn tell_each_other<I: Side, F: Side, R: Wait>(
    rt: &R,
    alloc: Global,
    one: (&Shared<I>, &mut Pass<I>),
    two: (&Shared<F>, &mut Pass<F>),
) -> bool {
    let ((into, mine), (from, theirs)) = (one, two);
    let gap = is_gap(rt, alloc, into, mine);
    let there = tells(rt, (into, mine), (from, theirs), 5, 2);
    let back = tells(rt, (from, theirs), (into, mine), 5, 2);
    let again = tells(rt, (into, mine), (from, theirs), 8, 0);
    let back_again = tells(rt, (from, theirs), (into, mine), 8, 0);
    let ended = ends(rt, alloc, into, mine, 10);
    let other_ended = ends(rt, alloc, from, theirs, 9);
    let told = gap && there && back && again && back_again && ended && other_ended;
    // the workers' passes have the numbers 0 and 1
    told && (mine.number(), theirs.number()) == (2, 2)
}

// A pass of each replica, by which they told each other.
fn told<I: Side, F: Side, R: Wait>(
    rt: &R,
    alloc: Global,
    into: &Shared<I>,
    from: &Shared<F>,
) -> Option<(Pass<I>, Pass<F>)> {
    let Ok(mut mine) = into.pass(rt) else {
        return None;
    };
    let Ok(mut theirs) = from.pass(rt) else {
        return None;
    };
    if !tell_each_other(rt, alloc, (into, &mut mine), (from, &mut theirs)) {
        return None;
    }
    Some((mine, theirs))
}

// The workers' passes of each replica, and one more.
fn worked<I: Side + Send + Sync, F: Side + Send + Sync, R: Threads + Wait + Abort + Sync>(
    rt: &R,
    alloc: Global,
    into: &Shared<I>,
    from: &Shared<F>,
) -> Option<(Vec<Pass<I>>, Vec<Pass<F>>)> {
    let Some(ours) = by_two(rt, alloc, into, [FIRST, SECOND]) else {
        return None;
    };
    let Some(others) = by_two(rt, alloc, from, [SECOND, THIRD]) else {
        return None;
    };
    let Some((mine, theirs)) = told(rt, alloc, into, from) else {
        return None;
    };
    let Ok(all_ours) = with_one_more(ours, mine) else {
        return None;
    };
    let Ok(all_others) = with_one_more(others, theirs) else {
        return None;
    };
    Some((all_ours, all_others))
}

// Whether two replicas close with three reports each, and agree.
fn agree<I: Side + Send + Sync, F: Side + Send + Sync, R: Threads + Wait + Abort + Sync>(
    rt: &R,
    alloc: Global,
    into: Shared<I>,
    from: Shared<F>,
) -> bool {
    let Some((ours, others)) = worked(rt, alloc, &into, &from) else {
        return false;
    };
    let Some(one) = closed_with(into, ours) else {
        return false;
    };
    let Some(two) = closed_with(from, others) else {
        return false;
    };
    let Ok(both) = both(alloc, one, two) else {
        return false;
    };
    are_of_three(alloc, &both)
}

fn agreed<I: Side + Send + Sync, F: Side + Send + Sync, R: Threads + Wait + Abort + Sync>(
    rt: &R,
    alloc: Global,
    one: (Blank, u32, Plan),
    two: (Blank, u32, Plan),
) -> bool
    requires name { (one.0.name ≡ I.name) × (two.0.name ≡ F.name) }
    requires parts { (one.0.parts ≡ I.parts) × (I.parts ≡ 65537) × (two.0.parts ≡ F.parts) × (F.parts ≡ 65537) }
    requires called { (one.1 ≡ I.called) × (two.1 ≡ F.called) }
    requires plan { (one.2 ≡ I.plan) × (two.2 ≡ F.plan) }
{
    let Ok(into) = Shared::<I>::new(alloc, one.0, one.1, one.2) else {
        return false;
    };
    let Ok(from) = Shared::<F>::new(alloc, two.0, two.1, two.2) else {
        return false;
    };
    agree(rt, alloc, into, from)
}

#[test]
fn workers_of_two_replicas_bring_one_bill(rt: HostRuntime) {
    let Ok(first) = plan(rt.alloc()) else {
        panic!(rt; "a plan");
    };
    let Ok(second) = plan(rt.alloc()) else {
        panic!(rt; "a plan");
    };
    let one = (Blank::new(PARTS), 1, first);
    let two = (Blank::new(PARTS), 2, second);
    assert!(rt; agreed::<Brand, Brand, _>(&rt, rt.alloc(), one, two));
}

// Whether a job is the second, and its input is refused for its cut.
fn is_cut(done: &Done) -> bool {
    match &done.result {
        Err(fault) => {
            let is_export = matches!(fault, JobFault::Input(InputFault::Export(_)));
            is_export && (done.job, fault.number()) == (1, 1)
        }
        Ok(_) => false,
    }
}

// Whether the second of three jobs is refused, and the others have a report each.
fn are_but_one(done: &[Done]) -> bool {
    match done {
        [first, second, third] => {
            let others = (of_job(first), of_job(third));
            is_cut(second) && others == (Some((0, 1)), Some((2, 1)))
        }
        _ => false,
    }
}

// Whether two workers take two of three inputs.
fn take_the_others<L: Side + Send + Sync, R: Threads + Wait + Sync>(
    rt: &R,
    alloc: Global,
    shared: Shared<L>,
    inputs: &[Input],
) -> bool
    requires { length inputs.now ≤ 3 }
{
    match work(rt, alloc, &shared, inputs, &NoGate, 2) {
        Ok(worked) => {
            let are_right = are_but_one(&worked.done);
            lengths(shared, worked.passes) == Some((2, 2)) && are_right
        }
        Err(_) => false,
    }
}

// The second of three inputs is cut.
fn takes_the_others<L: Side + Send + Sync, R: Threads + Wait + Sync>(
    rt: &R,
    alloc: Global,
    blank: Blank,
    name: u32,
    plan: Plan,
) -> bool
    requires name { blank.name ≡ L.name }
    requires parts { (blank.parts ≡ L.parts) × (L.parts ≡ 65537) }
    requires called { name ≡ L.called }
    requires plan { plan ≡ L.plan }
{
    let Ok(shared) = Shared::<L>::new(alloc, blank, name, plan) else {
        return false;
    };
    let Some(inputs) = with_a_cut(alloc) else {
        return false;
    };
    take_the_others(rt, alloc, shared, &inputs)
}

#[test]
fn a_refused_input_leaves_the_others(rt: HostRuntime) {
    let Ok(plan) = plan(rt.alloc()) else {
        panic!(rt; "a plan");
    };
    assert!(rt; takes_the_others::<Brand, _>(&rt, rt.alloc(), Blank::new(PARTS), 1, plan));
}

// Whether two workers are refused for their passes, and the one that was made closes without an entry.
fn lack_a_pass<L: Side + Send + Sync, R: Threads + Wait + Sync>(
    rt: &R,
    alloc: Global,
    shared: Shared<L>,
    inputs: &[Input],
) -> bool
    requires { length inputs.now ≤ 3 }
{
    match work(rt, alloc, &shared, inputs, &NoGate, 2) {
        Ok(_) => false,
        Err(refused) => {
            let fault = (refused.fault, refused.fault.number());
            let is_one = refused.passes.len() == 1;
            let closed = lengths(shared, refused.passes);
            is_one && fault == (WorkFault::PassesOut, 4) && closed == Some((0, 0))
        }
    }
}

// One pass is left for two workers.
fn lacks_a_pass<L: Side + Send + Sync, R: Threads + Wait + Sync>(
    rt: &R,
    alloc: Global,
    blank: Blank,
    name: u32,
    plan: Plan,
) -> bool
    requires name { blank.name ≡ L.name }
    requires parts { (blank.parts ≡ L.parts) × (L.parts ≡ 65537) }
    requires called { name ≡ L.called }
    requires plan { plan ≡ L.plan }
{
    let Ok(shared) = Shared::<L>::new(alloc, blank, name, plan) else {
        return false;
    };
    let made = makes(rt, &shared, 65_535);
    let Some(inputs) = exports(alloc, &[FIRST]) else {
        return false;
    };
    lack_a_pass(rt, alloc, shared, &inputs) && made
}

#[test]
fn workers_want_a_pass_each(rt: HostRuntime) {
    let Ok(plan) = plan(rt.alloc()) else {
        panic!(rt; "a plan");
    };
    assert!(rt; lacks_a_pass::<Brand, _>(&rt, rt.alloc(), Blank::new(PARTS), 1, plan));
}

// The message of one report 1,024 times, as an input.
fn long_input(alloc: Global) -> Result<Input, AllocError> {
    let mut octets = Vec::new(alloc);
    for _ in 0..1024 {
        octets.extend_from_slice(&TEMPLATE_AND_RECORD)?;
    }
    Ok(plain(octets))
}

// How many reports a take has, and the set beside them.
fn counts(entry: &Entry) -> Option<(usize, usize)> {
    match entry {
        Entry::Took { reports, .. } => {
            let set = reports.other().ok()??;
            Some((reports.len(), set.len()))
        }
        _ => None,
    }
}

// The passes of a worker that took the inputs, and of a caller who then asked for the statement.
fn taken_and_stated<L: Side + Send + Sync, R: Threads + Wait + Sync>(
    rt: &R,
    alloc: Global,
    shared: &Shared<L>,
    inputs: &[Input],
) -> Option<Vec<Pass<L>>>
    requires { length inputs.now ≤ 3 }
{
    let worked = work(rt, alloc, shared, inputs, &NoGate, 1).ok()?;
    let mut pass = shared.pass(rt).ok()?;
    shared.statement(rt, &mut pass).ok()?;
    with_one_more(worked.passes, pass).ok()
}

// Whether a take of 1,024 equal reports has their set beside, and a book is kept.
fn has_set_and_book(closed: &Closed) -> bool {
    match closed.journal.as_slice().first() {
        Some(entry) => counts(entry) == Some((1024, 1)) && closed.replica.keeps_book(),
        None => false,
    }
}

// Whether a long input that is taken at once leaves its set and, after a statement, a book.
fn leaves_set_and_book<L: Side + Send + Sync, R: Threads + Wait + Sync>(
    rt: &R,
    alloc: Global,
    blank: Blank,
    name: u32,
    plan: Plan,
) -> bool
    requires name { blank.name ≡ L.name }
    requires parts { (blank.parts ≡ L.parts) × (L.parts ≡ 65537) }
    requires called { name ≡ L.called }
    requires plan { plan ≡ L.plan }
{
    let Ok(shared) = Shared::<L>::new(alloc, blank, name, plan) else {
        return false;
    };
    let Ok(input) = long_input(alloc) else {
        return false;
    };
    let Some(passes) = taken_and_stated(rt, alloc, &shared, &[input]) else {
        return false;
    };
    match closed_with(shared, passes) {
        Some(closed) => has_set_and_book(&closed),
        None => false,
    }
}

#[test]
fn a_long_input_leaves_its_set_and_a_book(rt: HostRuntime) {
    let Ok(plan) = plan(rt.alloc()) else {
        panic!(rt; "a plan");
    };
    assert!(rt; leaves_set_and_book::<Brand, _>(&rt, rt.alloc(), Blank::new(PARTS), 1, plan));
}

// 5,000 inputs without octets.
fn many_inputs(alloc: Global) -> Option<Vec<Input>>
    ensures { IfSome result (λ all. length all.items ≤ 5000) }
{
    let mut all = Vec::new(alloc);
    for _ in 0..5000 {
        if all.push(plain(Vec::new(alloc))).is_err() {
            return None;
        }
    }
    if all.len() > 5000 {
        return None;
    }
    Some(all)
}

// Whether each of many inputs has a result, and its receipt a front of its own, by two workers.
fn does_many<L: Side + Send + Sync, R: Threads + Wait + Sync>(
    rt: &R,
    alloc: Global,
    blank: Blank,
    name: u32,
    plan: Plan,
) -> bool
    requires name { blank.name ≡ L.name }
    requires parts { (blank.parts ≡ L.parts) × (L.parts ≡ 65537) }
    requires called { name ≡ L.called }
    requires plan { plan ≡ L.plan }
{
    let Ok(shared) = Shared::<L>::new(alloc, blank, name, plan) else {
        return false;
    };
    let Some(inputs) = many_inputs(alloc) else {
        return false;
    };
    match work(rt, alloc, &shared, &inputs, &NoGate, 2) {
        Ok(worked) => worked.done.len() == 5000 && have_fronts(&worked.done, 5000),
        Err(_) => false,
    }
}

#[test]
fn many_inputs_have_a_result_each(rt: HostRuntime) {
    let Ok(plan) = plan(rt.alloc()) else {
        panic!(rt; "a plan");
    };
    assert!(rt; does_many::<Brand, _>(&rt, rt.alloc(), Blank::new(PARTS), 1, plan));
}
