//! What two shared replicas tell each other and one tells itself, absorbs that are refused, and closed replicas that don't agree.
ghost use Rattle.std.specs.Prelude.{◌≡◌};

use super::{
    FIRST, PARTS, SECOND, THIRD, alone, closed_with, has_made, has_rows, has_three, plan, reports,
    states_three, take,
};
use std::alloc::{AllocError, Global};
use std::marker::Brand;
use std::sync::Wait;
use std::sync::ledger::Blank;
use tca_accounts::Plan;
use tca_gossip::{AbsorbFault, Delta, Run};
use tca_ingest::{CloseFault, Closed, Entry, Pass, Shared, Side, close_all, exchange};
use tca_join::Items;

// The replica's answer to an absorb.
fn answer(entry: &Entry) -> Option<Result<u64, AbsorbFault>> {
    match entry {
        Entry::Absorbed { result, .. } => Some(*result),
        _ => None,
    }
}

// Whether an exchange appends so many reports, and its absorb is the entry of this front.
pub(super) fn tells<I: Side, F: Side, R: Wait>(
    rt: &R,
    into: (&Shared<I>, &mut Pass<I>),
    from: (&Shared<F>, &mut Pass<F>),
    front: u64,
    count: u64,
) -> bool {
    let Ok(receipt) = exchange(rt, into.0, into.1, from.0, from.1) else {
        return false;
    };
    receipt.front == front && answer(&receipt.entry) == Some(Ok(count))
}

// Whether the statement is that of the first three rows, and the entry of this front.
pub(super) fn ends<L: Side, R: Wait>(
    rt: &R,
    alloc: Global,
    shared: &Shared<L>,
    pass: &mut Pass<L>,
    front: u64,
) -> bool {
    let Ok(receipt) = shared.statement(rt, pass) else {
        return false;
    };
    receipt.front == front && states_three(alloc, &receipt.entry)
}

// Closes with one pass.
fn closed<L: Side>(alloc: Global, shared: Shared<L>, pass: Pass<L>) -> Option<Closed> {
    let Ok(passes) = alone(alloc, pass) else {
        return None;
    };
    closed_with(shared, passes)
}

// Two closed replicas, as one list.
pub(super) fn both(alloc: Global, one: Closed, two: Closed) -> Result<Vec<Closed>, AllocError> {
    let mut both = Vec::new(alloc);
    both.push(one)?;
    both.push(two)?;
    Ok(both)
}

// Whether two closed replicas have just the three rows and their statement each, and agree.
pub(super) fn are_of_three(alloc: Global, both: &[Closed]) -> bool {
    let are_whole = match both {
        [one, two] => has_three(alloc, &one.replica) && has_three(alloc, &two.replica),
        _ => false,
    };
    are_whole && close_all(both).is_ok()
}

// Each takes two rows by its pass, the second row both. They tell each other twice, and state the same.
fn tell_by_one_pass<I: Side, F: Side, R: Wait>(
    rt: &R,
    alloc: Global,
    one: (&Shared<I>, &mut Pass<I>),
    two: (&Shared<F>, &mut Pass<F>),
) -> bool {
    let ((into, mine), (from, theirs)) = (one, two);
    let taken = take(rt, alloc, into, mine, &[FIRST, SECOND]);
    let other_taken = take(rt, alloc, from, theirs, &[SECOND, THIRD]);
    let there = tells(rt, (into, mine), (from, theirs), 3, 2);
    let back = tells(rt, (from, theirs), (into, mine), 4, 2);
    let again = tells(rt, (into, mine), (from, theirs), 6, 0);
    let back_again = tells(rt, (from, theirs), (into, mine), 7, 0);
    let ended = ends(rt, alloc, into, mine, 8);
    let other_ended = ends(rt, alloc, from, theirs, 8);
    let told = there && back && again && back_again;
    (taken, other_taken) == (Some(1), Some(1)) && told && ended && other_ended
}

// The passes by which they told each other.
fn told_by_one_pass<I: Side, F: Side, R: Wait>(
    rt: &R,
    alloc: Global,
    into: &Shared<I>,
    from: &Shared<F>,
) -> Option<(Pass<I>, Pass<F>)> {
    let Ok(mut mine) = into.pass(rt) else {
        return None;
    };
    let Ok(mut theirs) = from.pass(rt) else {
        return None;
    };
    if !tell_by_one_pass(rt, alloc, (into, &mut mine), (from, &mut theirs)) {
        return None;
    }
    Some((mine, theirs))
}

// Whether both close with the three rows.
fn close_with_three<I: Side, F: Side, R: Wait>(
    rt: &R,
    alloc: Global,
    into: Shared<I>,
    from: Shared<F>,
) -> bool {
    let Some((mine, theirs)) = told_by_one_pass(rt, alloc, &into, &from) else {
        return false;
    };
    let Some(one) = closed(alloc, into, mine) else {
        return false;
    };
    let Some(two) = closed(alloc, from, theirs) else {
        return false;
    };
    let Ok(both) = both(alloc, one, two) else {
        return false;
    };
    are_of_three(alloc, &both)
}

fn tells_by_one_pass<I: Side, F: Side, R: Wait>(
    rt: &R,
    alloc: Global,
    one: (Blank, u32, Plan),
    two: (Blank, u32, Plan),
) -> bool
    requires name { (one.0.name ≡ I.name) × (two.0.name ≡ F.name) }
    requires parts { (one.0.parts ≡ I.parts) × (I.parts ≡ 65537) × (two.0.parts ≡ F.parts) × (F.parts ≡ 65537) }
    requires called { (one.1 ≡ I.called) × (two.1 ≡ F.called) }
    requires plan { (one.2 ≡ I.plan) × (two.2 ≡ F.plan) }
{
    let Ok(into) = Shared::<I>::new(alloc, one.0, one.1, one.2) else {
        return false;
    };
    let Ok(from) = Shared::<F>::new(alloc, two.0, two.1, two.2) else {
        return false;
    };
    close_with_three(rt, alloc, into, from)
}

#[test]
fn two_replicas_with_a_pass_each_tell_each_other(rt: HostRuntime) {
    let Ok(first) = plan(rt.alloc()) else {
        panic!(rt; "a plan");
    };
    let Ok(second) = plan(rt.alloc()) else {
        panic!(rt; "a plan");
    };
    let one = (Blank::new(PARTS), 1, first);
    let two = (Blank::new(PARTS), 2, second);
    assert!(rt; tells_by_one_pass::<Brand, Brand, _>(&rt, rt.alloc(), one, two));
}

// Whether a replica that is told by itself, before it took reports and then what it took, appends nothing.
fn tells_itself<L: Side, R: Wait>(rt: &R, alloc: Global, shared: &Shared<L>) -> bool {
    let Ok(mut mine) = shared.pass(rt) else {
        return false;
    };
    let Ok(mut theirs) = shared.pass(rt) else {
        return false;
    };
    let early = tells(rt, (shared, &mut mine), (shared, &mut theirs), 3, 0);
    let taken = take(rt, alloc, shared, &mut mine, &[FIRST, SECOND]);
    let told = tells(rt, (shared, &mut mine), (shared, &mut theirs), 7, 0);
    early && taken == Some(4) && told && has_made(rt, shared, 2)
}

fn is_told_by_itself<L: Side, R: Wait>(
    rt: &R,
    alloc: Global,
    blank: Blank,
    name: u32,
    plan: Plan,
) -> bool
    requires name { blank.name ≡ L.name }
    requires parts { (blank.parts ≡ L.parts) × (L.parts ≡ 65537) }
    requires called { name ≡ L.called }
    requires plan { plan ≡ L.plan }
{
    let Ok(shared) = Shared::<L>::new(alloc, blank, name, plan) else {
        return false;
    };
    tells_itself(rt, alloc, &shared)
}

// One lock is held at a time, so that nobody waits for good where both are one.
#[test]
fn a_replica_tells_itself_nothing_new(rt: HostRuntime) {
    let Ok(plan) = plan(rt.alloc()) else {
        panic!(rt; "a plan");
    };
    assert!(rt; is_told_by_itself::<Brand, _>(&rt, rt.alloc(), Blank::new(PARTS), 1, plan));
}

// A delta of one run.
fn one_run(alloc: Global, origin: u32, start: u32, rows: &[(u32, u32, u32)]) -> Option<Delta> {
    let Some(reports) = reports(alloc, rows) else {
        return None;
    };
    let Ok(reports) = Items::of(alloc, reports) else {
        return None;
    };
    let run = Run {
        origin,
        start,
        reports,
    };
    let mut runs = Vec::new(alloc);
    if runs.push(run).is_err() {
        return None;
    }
    Delta::of(runs)
}

// Whether the absorb of a delta of one run is refused with this fault.
fn refuses<L: Side, R: Wait>(
    rt: &R,
    shared: &Shared<L>,
    pass: &mut Pass<L>,
    delta: &Delta,
    fault: AbsorbFault,
) -> bool {
    let Ok(receipt) = shared.absorb(rt, pass, delta) else {
        return false;
    };
    answer(&receipt.entry) == Some(Err(fault))
}

// Whether a run past what is held is a gap.
pub(super) fn is_gap<L: Side, R: Wait>(
    rt: &R,
    alloc: Global,
    shared: &Shared<L>,
    pass: &mut Pass<L>,
) -> bool {
    let Some(past) = one_run(alloc, 2, 2, &[]) else {
        return false;
    };
    let gap = AbsorbFault::Gap {
        origin: 2,
        have: 0,
        from: 2,
    };
    refuses(rt, shared, pass, &past, gap)
}

// Whether a run of the own name that ends past the own chain is ahead of it.
fn is_ahead<L: Side, R: Wait>(
    rt: &R,
    alloc: Global,
    shared: &Shared<L>,
    pass: &mut Pass<L>,
) -> bool {
    let Some(longer) = one_run(alloc, 1, 0, &[FIRST, SECOND, THIRD]) else {
        return false;
    };
    let own = AbsorbFault::OwnAhead { have: 2, said: 3 };
    refuses(rt, shared, pass, &longer, own)
}

// Whether both are refused after a take.
fn refuses_both<L: Side, R: Wait>(
    rt: &R,
    alloc: Global,
    shared: &Shared<L>,
    pass: &mut Pass<L>,
) -> bool {
    let taken = take(rt, alloc, shared, pass, &[FIRST, SECOND]);
    let far = is_gap(rt, alloc, shared, pass);
    let ahead = is_ahead(rt, alloc, shared, pass);
    taken == Some(1) && far && ahead
}

// Whether the own chain has the first two rows.
fn has_chain(alloc: Global, closed: &Closed) -> bool {
    match reports(alloc, &[FIRST, SECOND]) {
        Some(list) => closed.replica.chain(1) == list.as_slice(),
        None => false,
    }
}

// Whether what is refused leaves the take alone.
fn stays<L: Side, R: Wait>(rt: &R, alloc: Global, shared: Shared<L>) -> bool {
    let Ok(mut pass) = shared.pass(rt) else {
        return false;
    };
    let refused = refuses_both(rt, alloc, &shared, &mut pass);
    let Some(closed) = closed(alloc, shared, pass) else {
        return false;
    };
    let same = has_rows(alloc, &closed.replica, &[FIRST, SECOND]) && has_chain(alloc, &closed);
    refused && same && closed.journal.len() == 3
}

fn stays_as_it_was<L: Side, R: Wait>(
    rt: &R,
    alloc: Global,
    blank: Blank,
    name: u32,
    plan: Plan,
) -> bool
    requires name { blank.name ≡ L.name }
    requires parts { (blank.parts ≡ L.parts) × (L.parts ≡ 65537) }
    requires called { name ≡ L.called }
    requires plan { plan ≡ L.plan }
{
    let Ok(shared) = Shared::<L>::new(alloc, blank, name, plan) else {
        return false;
    };
    stays(rt, alloc, shared)
}

#[test]
fn a_refused_absorb_changes_nothing(rt: HostRuntime) {
    let Ok(plan) = plan(rt.alloc()) else {
        panic!(rt; "a plan");
    };
    assert!(rt; stays_as_it_was::<Brand, _>(&rt, rt.alloc(), Blank::new(PARTS), 1, plan));
}

// A closed replica that took these.
fn with<L: Side, R: Wait>(
    rt: &R,
    alloc: Global,
    blank: Blank,
    name: u32,
    plan: Plan,
    rows: &[(u32, u32, u32)],
) -> Option<Closed>
    requires name { blank.name ≡ L.name }
    requires parts { (blank.parts ≡ L.parts) × (L.parts ≡ 65537) }
    requires called { name ≡ L.called }
    requires plan { plan ≡ L.plan }
{
    let Ok(shared) = Shared::<L>::new(alloc, blank, name, plan) else {
        return None;
    };
    let Ok(mut pass) = shared.pass(rt) else {
        return None;
    };
    if take(rt, alloc, &shared, &mut pass, rows).is_none() {
        return None;
    }
    closed(alloc, shared, pass)
}

// Whether both replicas are closed, and clash in the chain of the name 1.
fn clash(alloc: Global, one: Option<Closed>, two: Option<Closed>) -> bool {
    let Some(one) = one else {
        return false;
    };
    let Some(two) = two else {
        return false;
    };
    let Ok(both) = both(alloc, one, two) else {
        return false;
    };
    close_all(&both) == Err(CloseFault::Clash { origin: 1 })
}

#[test]
fn closed_replicas_of_one_name_clash(rt: HostRuntime) {
    let alloc = rt.alloc();
    let Ok(plan_of_one) = plan(alloc) else {
        panic!(rt; "a plan");
    };
    let one = with::<Brand, _>(&rt, alloc, Blank::new(PARTS), 1, plan_of_one, &[FIRST]);
    let Ok(plan_of_two) = plan(alloc) else {
        panic!(rt; "a plan");
    };
    let two = with::<Brand, _>(&rt, alloc, Blank::new(PARTS), 1, plan_of_two, &[SECOND]);
    assert!(rt; clash(alloc, one, two));
    assert!(rt; close_all(&[]) == Ok(()));
}
