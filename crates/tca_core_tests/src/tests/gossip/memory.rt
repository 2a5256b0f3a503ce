//! Calls that may be refused a growth, and the same calls again. They are to be run with each growth refused in turn: what a call then
//! names as held is all that is held, and the same call with memory completes it. What its own preparation is refused ends such a test
//! with an error rather than at its assertion.
use super::outcomes::{Outcome, absorbed, bill, holds, merged, took};
use super::{FIRST, Play, Row, SECOND, THIRD, delta, goes, reports};
use std::alloc::Global;
use std::test::Fail;
use tca_gossip::Replica;
use tca_join::JoinFault;
use tca_log::LogFault;

// The bill of the first so many of the three rows.
fn bill_of(count: u64) -> Outcome {
    match count {
        0 => Outcome::Bill([0, 0, 0], 0, 0),
        1 => Outcome::Bill([1500, 0, 0], 1, 0),
        2 => Outcome::Bill([1500, 1000, 0], 2, 0),
        _ => Outcome::Bill([1500, 1000, 800], 3, 0),
    }
}

// Whether a replica holds so many of the three rows, these of the origins 1 and 2, and has their bill.
fn has(replica: &Replica, own: u64, other: u64) -> Option<bool> {
    let (own, other) = (own.min(3), other.min(3));
    let held = Outcome::Holds((own + other) as u32, [own as usize, other as usize, 0]);
    let Ok(bill) = bill(replica) else {
        return None;
    };
    Some(holds(replica) == held && bill == bill_of(own + other))
}

#[derive(Drop)]
struct TakeAgain {}

impl Play for TakeAgain {
    fn play(&self, alloc: Global, one: &mut Replica, _two: &mut Replica) -> Option<bool> {
        let list = reports(alloc, &[FIRST, SECOND, THIRD])?;
        let first = one.take(&list);
        let right = first.stop == Some(LogFault::Memory) || first.taken == 3;
        let held = right && first.fresh == first.taken && has(one, first.taken, 0)?;
        let again = Outcome::Took(3, 3 - first.taken.min(3), None);
        Some(held && took(&one.take(&list)) == again && has(one, 3, 0)?)
    }
}

#[test]
fn a_take_that_was_refused_is_completed(rt: HostRuntime) -> Result<(), Fail> {
    let went = goes(rt.alloc(), (1, 2), &TakeAgain {}).ok_or("no memory to prepare it")?;
    assert!(rt; went);
    Ok(())
}

// Takes reports, and again, which completes it where a growth was refused.
fn fill(alloc: Global, replica: &mut Replica, rows: &[Row]) -> Option<()> {
    let Some(list) = reports(alloc, rows) else {
        return None;
    };
    replica.take(&list);
    replica.take(&list);
    Some(())
}

#[derive(Drop)]
struct AbsorbAgain {}

impl Play for AbsorbAgain {
    fn play(&self, alloc: Global, one: &mut Replica, _two: &mut Replica) -> Option<bool> {
        fill(alloc, one, &[FIRST])?;
        let Some(Some(sent)) = delta(alloc, &[(2, 0, &[SECOND, THIRD])]) else {
            return None;
        };
        let count = match absorbed(&one.absorb(&sent)) {
            Outcome::Absorbed(count) | Outcome::Stopped(count, LogFault::Memory) => count.min(2),
            _ => return Some(false),
        };
        let held = has(one, 1, count)?;
        let again = absorbed(&one.absorb(&sent)) == Outcome::Absorbed(2 - count);
        Some(held && again && has(one, 1, 2)?)
    }
}

#[test]
fn an_absorb_that_was_refused_is_completed(rt: HostRuntime) -> Result<(), Fail> {
    let went = goes(rt.alloc(), (1, 2), &AbsorbAgain {}).ok_or("no memory to prepare it")?;
    assert!(rt; went);
    Ok(())
}

#[derive(Drop)]
struct MergeAgain {}

// Whether a merge is made, at once or where it is tried again. A refusal has to leave both as they were.
fn merges(one: &mut Replica, two: &Replica) -> Option<bool> {
    match merged(one.merge(two)) {
        Outcome::Merged => Some(true),
        Outcome::Unmerged(JoinFault::Memory) => {
            Some(has(one, 1, 0)? && merged(one.merge(two)) == Outcome::Merged)
        }
        _ => Some(false),
    }
}

impl Play for MergeAgain {
    fn play(&self, alloc: Global, one: &mut Replica, two: &mut Replica) -> Option<bool> {
        fill(alloc, one, &[FIRST])?;
        fill(alloc, two, &[SECOND, THIRD])?;
        let made = merges(one, two)?;
        Some(made && has(one, 1, 2)? && holds(two) == Outcome::Holds(2, [0, 2, 0]))
    }
}

#[test]
fn a_merge_that_was_refused_is_completed(rt: HostRuntime) -> Result<(), Fail> {
    let went = goes(rt.alloc(), (1, 2), &MergeAgain {}).ok_or("no memory to prepare it")?;
    assert!(rt; went);
    Ok(())
}
