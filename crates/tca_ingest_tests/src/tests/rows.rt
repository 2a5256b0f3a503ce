//! Worked rows: one pass that takes and asks, two that call in turn, and passes that are held back from a close.
ghost use Rattle.std.specs.Prelude.{◌≡◌};

use super::{
    FIRST, PARTS, SECOND, THIRD, alone, has_made, plan, states_three, take, with_one_more,
};
use std::alloc::Global;
use std::marker::Brand;
use std::sync::Wait;
use std::sync::ledger::Blank;
use tca_accounts::Plan;
use tca_gossip::{Delta, Summary};
use tca_ingest::{CloseFault, Pass, Shared, Side, Unclosed};
use tca_join::ByKey;

// One pass takes the three rows, and asks.
fn asks<L: Side, R: Wait>(rt: &R, alloc: Global, shared: &Shared<L>) -> bool {
    let Ok(mut pass) = shared.pass(rt) else {
        return false;
    };
    let taken = take(rt, alloc, shared, &mut pass, &[FIRST, SECOND, THIRD]);
    let Ok(said) = shared.statement(rt, &mut pass) else {
        return false;
    };
    let stated = said.entry.pass() == 0 && states_three(alloc, &said.entry);
    taken == Some(1) && said.front == 2 && stated
}

fn takes_and_asks<L: Side, R: Wait>(
    rt: &R,
    alloc: Global,
    blank: Blank,
    name: u32,
    plan: Plan,
) -> bool
    requires name { blank.name ≡ L.name }
    requires parts { (blank.parts ≡ L.parts) × (L.parts ≡ 65537) }
    requires called { name ≡ L.called }
    requires plan { plan ≡ L.plan }
{
    let Ok(shared) = Shared::<L>::new(alloc, blank, name, plan) else {
        return false;
    };
    asks(rt, alloc, &shared)
}

#[test]
fn one_pass_takes_and_asks(rt: HostRuntime) {
    let Ok(plan) = plan(rt.alloc()) else {
        panic!(rt; "a plan");
    };
    assert!(rt; takes_and_asks::<Brand, _>(&rt, rt.alloc(), Blank::new(PARTS), 1, plan));
}

// Whether a refused close names this fault and hands so many passes back, and a replica that made these and this one, by which it closes.
fn closes_then<L: Side, R: Wait>(
    rt: &R,
    refused: Unclosed<L>,
    fault: CloseFault,
    count: usize,
    pass: Pass<L>,
) -> bool {
    let as_it_was = refused.fault == fault && refused.passes.len() == count;
    let made = has_made(rt, &refused.shared, count.wrapping_add(1));
    let Ok(all) = with_one_more(refused.passes, pass) else {
        return false;
    };
    let closes = refused.shared.close(all).is_ok();
    as_it_was && made && closes
}

// Whether a close without a pass is refused with this fault, and with it it isn't.
fn wants<L: Side, R: Wait>(
    rt: &R,
    shared: Shared<L>,
    passes: Vec<Pass<L>>,
    fault: CloseFault,
    pass: Pass<L>,
) -> bool {
    let count = passes.len();
    match shared.close(passes) {
        Ok(_) => false,
        Err(refused) => closes_then(rt, refused, fault, count, pass),
    }
}

// A pass takes once and another one once or twice, and the other is held back.
fn one_back<L: Side, R: Wait>(rt: &R, alloc: Global, shared: Shared<L>, is_twice: bool) -> bool {
    let Ok(mut first) = shared.pass(rt) else {
        return false;
    };
    let Ok(mut second) = shared.pass(rt) else {
        return false;
    };
    let one = take(rt, alloc, &shared, &mut first, &[FIRST]);
    let other = take(rt, alloc, &shared, &mut second, &[SECOND]);
    let (journal, again) = if is_twice {
        (3, take(rt, alloc, &shared, &mut second, &[SECOND]))
    } else {
        (2, other)
    };
    let fault = CloseFault::Missing { journal, given: 1 };
    let Ok(given) = alone(alloc, first) else {
        return false;
    };
    let wanted = wants(rt, shared, given, fault, second);
    one == Some(1) && other == Some(2) && again == Some(journal) && wanted
}

fn holds_one_back<L: Side, R: Wait>(
    rt: &R,
    alloc: Global,
    blank: Blank,
    name: u32,
    plan: Plan,
    is_twice: bool,
) -> bool
    requires name { blank.name ≡ L.name }
    requires parts { (blank.parts ≡ L.parts) × (L.parts ≡ 65537) }
    requires called { name ≡ L.called }
    requires plan { plan ≡ L.plan }
{
    let Ok(shared) = Shared::<L>::new(alloc, blank, name, plan) else {
        return false;
    };
    one_back(rt, alloc, shared, is_twice)
}

#[test]
fn a_close_wants_each_pass(rt: HostRuntime) {
    for is_twice in [false, true] {
        let Ok(plan) = plan(rt.alloc()) else {
            panic!(rt; "a plan");
        };
        assert!(rt;
            holds_one_back::<Brand, _>(&rt, rt.alloc(), Blank::new(PARTS), 1, plan, is_twice)
        );
    }
}

// The fronts of the receipts of all calls of a pass, beside another pass that took nothing and then a row, and asks last.
fn fronts<L: Side, R: Wait>(rt: &R, alloc: Global, shared: &Shared<L>) -> Option<[u64; 7]> {
    let mut first = shared.pass(rt).ok()?;
    let mut pass = shared.pass(rt).ok()?;
    let since: Summary = ByKey::new(alloc);
    let nothing = Delta::of(Vec::new(alloc))?;
    let none = take(rt, alloc, shared, &mut first, &[])?;
    let taken = take(rt, alloc, shared, &mut first, &[FIRST])?;
    let asked = shared.summary(rt, &mut pass).ok()?.front;
    let sent = shared.delta(rt, &mut pass, &since).ok()?.front;
    let stated = shared.statement(rt, &mut pass).ok()?.front;
    let absorbed = shared.absorb(rt, &mut pass, &nothing).ok()?.front;
    let last = shared.statement(rt, &mut first).ok()?.front;
    Some([none, taken, asked, sent, stated, absorbed, last])
}

fn counts_all_entries<L: Side, R: Wait>(
    rt: &R,
    alloc: Global,
    blank: Blank,
    name: u32,
    plan: Plan,
) -> bool
    requires name { blank.name ≡ L.name }
    requires parts { (blank.parts ≡ L.parts) × (L.parts ≡ 65537) }
    requires called { name ≡ L.called }
    requires plan { plan ≡ L.plan }
{
    let Ok(shared) = Shared::<L>::new(alloc, blank, name, plan) else {
        return false;
    };
    fronts(rt, alloc, &shared) == Some([1, 2, 3, 4, 5, 6, 7]) && has_made(rt, &shared, 2)
}

#[test]
fn fronts_count_the_entries_of_all_passes(rt: HostRuntime) {
    let Ok(plan) = plan(rt.alloc()) else {
        panic!(rt; "a plan");
    };
    assert!(rt; counts_all_entries::<Brand, _>(&rt, rt.alloc(), Blank::new(PARTS), 1, plan));
}

// A replica whose pass takes a row. Closed without it, it is refused and hands back all; with it, it closes.
fn all_back<L: Side, R: Wait>(
    rt: &R,
    alloc: Global,
    shared: Shared<L>,
    row: (u32, u32, u32),
) -> bool {
    let Ok(mut pass) = shared.pass(rt) else {
        return false;
    };
    let taken = take(rt, alloc, &shared, &mut pass, &[row]);
    let fault = CloseFault::Missing {
        journal: 1,
        given: 0,
    };
    let wanted = wants(rt, shared, Vec::new(alloc), fault, pass);
    taken == Some(1) && wanted
}

// Of two replicas each is closed with its own pass alone. The pass of the other one has another type.
fn holds_all_back<I: Side, F: Side, R: Wait>(
    rt: &R,
    alloc: Global,
    one: (Blank, u32, Plan),
    two: (Blank, u32, Plan),
) -> bool
    requires name { (one.0.name ≡ I.name) × (two.0.name ≡ F.name) }
    requires parts { (one.0.parts ≡ I.parts) × (I.parts ≡ 65537) × (two.0.parts ≡ F.parts) × (F.parts ≡ 65537) }
    requires called { (one.1 ≡ I.called) × (two.1 ≡ F.called) }
    requires plan { (one.2 ≡ I.plan) × (two.2 ≡ F.plan) }
{
    let Ok(first) = Shared::<I>::new(alloc, one.0, one.1, one.2) else {
        return false;
    };
    let Ok(second) = Shared::<F>::new(alloc, two.0, two.1, two.2) else {
        return false;
    };
    let other = all_back(rt, alloc, second, SECOND);
    all_back(rt, alloc, first, FIRST) && other
}

#[test]
fn a_close_wants_its_pass(rt: HostRuntime) {
    let Ok(first) = plan(rt.alloc()) else {
        panic!(rt; "a plan");
    };
    let Ok(second) = plan(rt.alloc()) else {
        panic!(rt; "a plan");
    };
    let one = (Blank::new(PARTS), 1, first);
    let two = (Blank::new(PARTS), 2, second);
    assert!(rt; holds_all_back::<Brand, Brand, _>(&rt, rt.alloc(), one, two));
}
