//! As many passes as there may be, and as many entries.
ghost use Rattle.std.specs.Prelude.{◌≡◌};

use super::jobs::exports;
use super::{FIRST, PARTS, alone, has_made, lengths, plan, with_one_more};
use std::alloc::Global;
use std::marker::Brand;
use std::sync::Wait;
use std::sync::atomic::{AtomicU64, Ordering};
use std::sync::ledger::Blank;
use std::thread::Threads;
use tca_accounts::Plan;
use tca_gossip::{Delta, Summary};
use tca_ingest::{Gate, JobFault, Pass, ShareFault, Shared, Side, exchange, work};
use tca_join::ByKey;

// Makes passes, and answers whether they have the numbers from 0 on.
pub(super) fn makes<L: Side, R: Wait>(rt: &R, shared: &Shared<L>, count: u32) -> bool {
    for number in 0..count {
        match shared.pass(rt) {
            Ok(pass) => {
                if pass.number() != number {
                    return false;
                }
            }
            Err(_) => return false,
        }
    }
    true
}

fn runs_out_of_passes<L: Side, R: Wait>(
    rt: &R,
    alloc: Global,
    blank: Blank,
    name: u32,
    plan: Plan,
) -> bool
    requires name { blank.name ≡ L.name }
    requires parts { (blank.parts ≡ L.parts) × (L.parts ≡ 65537) }
    requires called { name ≡ L.called }
    requires plan { plan ≡ L.plan }
{
    let Ok(shared) = Shared::<L>::new(alloc, blank, name, plan) else {
        return false;
    };
    let made = makes(rt, &shared, 65_536);
    let out = shared.pass(rt).err() == Some(ShareFault::PassesOut);
    let closed = lengths(shared, Vec::new(alloc));
    made && out && closed == Some((0, 0))
}

#[test]
fn passes_run_out_at_their_limit(rt: HostRuntime) {
    let Ok(plan) = plan(rt.alloc()) else {
        panic!(rt; "a plan");
    };
    assert!(rt; runs_out_of_passes::<Brand, _>(&rt, rt.alloc(), Blank::new(PARTS), 1, plan));
}

// Asks for the summary of a replica that holds nothing, as often as this; answers whether each was noted.
fn asks<L: Side, R: Wait>(rt: &R, shared: &Shared<L>, pass: &mut Pass<L>, times: u32) -> bool {
    for _ in 0..times {
        if shared.summary(rt, pass).is_err() {
            return false;
        }
    }
    true
}

// What each call that makes an entry is refused for. The summary and the delta that are given have nothing.
fn refusals<L: Side, R: Wait>(
    rt: &R,
    shared: &Shared<L>,
    pass: &mut Pass<L>,
    given: (&Summary, &Delta),
) -> [Option<ShareFault>; 5] {
    let (since, delta) = given;
    [
        shared.take(rt, pass, &[]).err(),
        shared.statement(rt, pass).err(),
        shared.absorb(rt, pass, delta).err(),
        shared.summary(rt, pass).err(),
        shared.delta(rt, pass, since).err(),
    ]
}

// Whether the journal has no room for an entry of any call, and the pass stays as it was.
fn is_full<L: Side, R: Wait>(
    rt: &R,
    alloc: Global,
    shared: &Shared<L>,
    pass: &mut Pass<L>,
) -> bool {
    let since: Summary = ByKey::new(alloc);
    let Some(delta) = Delta::of(Vec::new(alloc)) else {
        return false;
    };
    let refused = refusals(rt, shared, pass, (&since, &delta));
    refused == [Some(ShareFault::JournalFull); 5] && pass.calls().len() == 524_288
}

// Whether two passes fill the journal, and then no more is noted. The summary of an exchange takes the last place, so that the other
// replica sends, and the absorb is refused.
fn is_filled<I: Side, F: Side, R: Wait>(
    rt: &R,
    alloc: Global,
    shared: &Shared<I>,
    passes: (&mut Pass<I>, &mut Pass<I>),
    empty: (&Shared<F>, &mut Pass<F>),
) -> bool {
    let ((first, second), (other, theirs)) = (passes, empty);
    let half = asks(rt, shared, first, 524_288);
    let less = asks(rt, shared, second, 524_287);
    let refused = exchange(rt, shared, second, other, theirs).err();
    let noted = (second.calls().len(), theirs.calls().len()) == (524_288, 1);
    let exchanged = refused == Some(ShareFault::JournalFull) && noted;
    half && less && exchanged && is_full(rt, alloc, shared, first)
}

// The passes that filled the journal.
fn filled<I: Side, F: Side, R: Wait>(
    rt: &R,
    alloc: Global,
    shared: &Shared<I>,
    empty: (&Shared<F>, &mut Pass<F>),
) -> Option<Vec<Pass<I>>> {
    let Ok(mut first) = shared.pass(rt) else {
        return None;
    };
    let Ok(mut second) = shared.pass(rt) else {
        return None;
    };
    if !is_filled(rt, alloc, shared, (&mut first, &mut second), empty) {
        return None;
    }
    let Ok(one) = alone(alloc, first) else {
        return None;
    };
    with_one_more(one, second).ok()
}

// Counts what it is told of jobs: one before, ten inside and a hundred after.
#[derive(Drop)]
struct Counting {
    told: AtomicU64,
}

impl Gate for Counting {
    fn before(&self, _job: u32) {
        self.told.fetch_add(1, Ordering::SeqCst);
    }

    fn inside(&self, _job: u32) {
        self.told.fetch_add(10, Ordering::SeqCst);
    }

    fn after(&self, _job: u32) {
        self.told.fetch_add(100, Ordering::SeqCst);
    }
}

// Whether a worker's job, whose input is good, is refused for the journal, and a gate told of each part of it.
fn refuses_a_job<L: Side + Send + Sync, R: Threads + Wait + Sync>(
    rt: &R,
    alloc: Global,
    shared: &Shared<L>,
) -> bool {
    let Some(inputs) = exports(alloc, &[FIRST]) else {
        return false;
    };
    let gate = Counting {
        told: AtomicU64::new(0),
    };
    let Ok(worked) = work(rt, alloc, shared, &inputs, &gate, 1) else {
        return false;
    };
    let refused = match worked.done.as_slice() {
        [done] => match &done.result {
            Err(fault) => *fault == JobFault::Share(ShareFault::JournalFull),
            Ok(_) => false,
        },
        _ => false,
    };
    refused && gate.told.load(Ordering::SeqCst) == 111
}

// Whether an exchange is refused for the journal of the replica that is to send, and for that of one that is to ask.
fn refuses_exchanges<I: Side, F: Side, R: Wait>(
    rt: &R,
    full: (&Shared<I>, &mut Pass<I>),
    empty: (&Shared<F>, &mut Pass<F>),
) -> bool {
    let ((shared, pass), (other, mine)) = (full, empty);
    let sends = exchange(rt, other, mine, shared, pass).err();
    let asks = exchange(rt, shared, pass, other, mine).err();
    [sends, asks] == [Some(ShareFault::JournalFull); 2] && mine.calls().len() == 2
}

// Whether an empty replica is refused for the journal of this one, and closes with what it sent and the summary that it asked by.
fn exchanges_with_none<I: Side, F: Side, R: Wait>(
    rt: &R,
    alloc: Global,
    full: (&Shared<I>, &mut Pass<I>),
    empty: Shared<F>,
    pass: Pass<F>,
) -> bool {
    let mut mine = pass;
    let refused = refuses_exchanges(rt, full, (&empty, &mut mine));
    let made = has_made(rt, &empty, 1);
    let Ok(passes) = alone(alloc, mine) else {
        return false;
    };
    refused && made && lengths(empty, passes) == Some((2, 0))
}

// Two passes fill the journal, no job and no exchange gets by it, and they close. What is refused takes no number of a pass: the two and
// the worker's were made.
fn fills<I: Side + Send + Sync, F: Side, R: Threads + Wait + Sync>(
    rt: &R,
    alloc: Global,
    shared: Shared<I>,
    empty: Shared<F>,
) -> bool {
    let Ok(mut mine) = empty.pass(rt) else {
        return false;
    };
    let Some(mut passes) = filled(rt, alloc, &shared, (&empty, &mut mine)) else {
        return false;
    };
    let refused = refuses_a_job(rt, alloc, &shared);
    let told = match passes.first_mut() {
        Some(pass) => exchanges_with_none(rt, alloc, (&shared, pass), empty, mine),
        None => false,
    };
    let made = has_made(rt, &shared, 3);
    refused && told && made && lengths(shared, passes) == Some((1_048_576, 0))
}

fn fills_the_journal<I: Side + Send + Sync, F: Side, R: Threads + Wait + Sync>(
    rt: &R,
    alloc: Global,
    one: (Blank, u32, Plan),
    two: (Blank, u32, Plan),
) -> bool
    requires name { (one.0.name ≡ I.name) × (two.0.name ≡ F.name) }
    requires parts { (one.0.parts ≡ I.parts) × (I.parts ≡ 65537) × (two.0.parts ≡ F.parts) × (F.parts ≡ 65537) }
    requires called { (one.1 ≡ I.called) × (two.1 ≡ F.called) }
    requires plan { (one.2 ≡ I.plan) × (two.2 ≡ F.plan) }
{
    let Ok(shared) = Shared::<I>::new(alloc, one.0, one.1, one.2) else {
        return false;
    };
    let Ok(empty) = Shared::<F>::new(alloc, two.0, two.1, two.2) else {
        return false;
    };
    fills(rt, alloc, shared, empty)
}

#[test]
fn a_journal_is_full_at_its_limit(rt: HostRuntime) {
    let Ok(first) = plan(rt.alloc()) else {
        panic!(rt; "a plan");
    };
    let Ok(second) = plan(rt.alloc()) else {
        panic!(rt; "a plan");
    };
    let one = (Blank::new(PARTS), 1, first);
    let two = (Blank::new(PARTS), 2, second);
    assert!(rt; fills_the_journal::<Brand, Brand, _>(&rt, rt.alloc(), one, two));
}
