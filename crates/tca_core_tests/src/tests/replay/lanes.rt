//! The steps of lanes, and those that a meter counts.
ghost use Rattle.std.specs.Prelude.{◌<◌, ◌≤◌};

use super::{HOUR, are_alike, fresh_tally, put, report, withdraw};
use std::alloc::Global;
use std::sync::Arc;
use std::sync::atomic::{AtomicU64, Ordering};
use std::test::Fail;
use tca_accounts::Tally;
use tca_meters::{Colour, Levels, Meter, SrTcm};
use tca_replay::Lane;
use tca_report::Report;

// A meter that counts the packets that it is offered.
#[derive(Drop)]
pub(super) struct Counting {
    meter: SrTcm,
    offers: Arc<AtomicU64, Global>,
}

impl Meter for Counting {
    type State = Levels;

    ghost use Rattle.tca_meters.specs.SrTcm.{srtcm_rule, IsWithinSizes};
    ghost use Rattle.tca_meters.specs.laws.SrTcmLaws as laws;

    ghost rule = { λ m. srtcm_rule m.meter };

    ghost within = { λ m. IsWithinSizes m.meter };

    ghost aware = { λ m s. m.meter.aware };

    ghost additive = { λ m. laws.additive m.meter };

    ghost sizes = { λ m. laws.sizes m.meter };

    ghost never_betters = { λ m. laws.never_betters m.meter };

    ghost blind = { λ m. laws.blind m.meter };

    ghost red_keeps = { λ m. laws.red_keeps m.meter };

    fn start(&self) -> Levels {
        self.meter.start()
    }

    fn advance(&self, state: Levels, from: u64, to: u64) -> Levels {
        self.meter.advance(state, from, to)
    }

    fn offer(&self, state: Levels, octets: u32, pre: Colour) -> (Colour, Levels) {
        self.offers.fetch_add(1, Ordering::SeqCst);
        self.meter.offer(state, octets, pre)
    }
}

// A report at one of the tens of milliseconds, or one of another place a little later. The first five are green twice, yellow, red, and
// yellow again.
fn row(at: u32, later: u32) -> Option<Report> {
    let place = at % 100 + 100 * (later % 10);
    let late = at % 100 * 10 + later % 10;
    let octets = [1100, 800, 700, 400, 200];
    report(place, late, octets[at as usize % 5], 0)
}

// Resumes the lane, and answers the steps where they are those that the meter counted and the tally is that of a fresh lane.
fn steps(alloc: Global, lane: &mut Lane<Counting>, offers: &Arc<AtomicU64, Global>) -> Option<u64> {
    let before = offers.load(Ordering::SeqCst);
    let steps = lane.resume().steps;
    let counted = offers.load(Ordering::SeqCst).wrapping_sub(before);
    let Ok(tally) = lane.tally(alloc) else {
        return None;
    };
    let Some(fresh) = single_rate_tally(alloc, lane) else {
        return None;
    };
    if steps != counted || !are_alike(&tally, &fresh) {
        return None;
    }
    Some(steps)
}

fn srtcm_of() -> Option<SrTcm> {
    SrTcm::new(1000, 2000, 1000, false).ok()
}

// The tally of a fresh lane with the rows of this one.
fn single_rate_tally(alloc: Global, lane: &Lane<Counting>) -> Option<Tally> {
    let Some(meter) = srtcm_of() else {
        return None;
    };
    fresh_tally(alloc, meter, lane.rows()).ok()
}

pub(super) fn new_counting(offers: &Arc<AtomicU64, Global>) -> Option<Counting> {
    let Some(meter) = srtcm_of() else {
        return None;
    };
    let Ok(offers) = Arc::try_clone(offers) else {
        return None;
    };
    Some(Counting { meter, offers })
}

// Puts a row, if there is memory for it.
fn put_row(lane: &mut Lane<Counting>, at: u32, later: u32) -> bool {
    let Some(row) = row(at, later) else {
        return false;
    };
    put(lane, row).is_ok()
}

// Puts five rows into a lane that has none, and resumes it. Answers whether that was five steps.
fn put_five(alloc: Global, lane: &mut Lane<Counting>, offers: &Arc<AtomicU64, Global>) -> bool {
    for at in 0..5 {
        if !put_row(lane, at, 0) {
            return false;
        }
    }
    steps(alloc, lane, offers) == Some(5)
}

// A lane of five rows, resumed.
fn five_rows(alloc: Global, offers: &Arc<AtomicU64, Global>, k: u32) -> Option<Lane<Counting>>
    requires some { 0 < k }
    requires few { k ≤ 65536 }
{
    let Some(meter) = new_counting(offers) else {
        return None;
    };
    let mut lane = Lane::new(alloc, meter, Colour::Green, HOUR, k);
    if !put_five(alloc, &mut lane, offers) {
        return None;
    }
    Some(lane)
}

// Exchanges a row, and answers the steps.
fn exchanged(
    alloc: Global,
    lane: &mut Lane<Counting>,
    offers: &Arc<AtomicU64, Global>,
    at: u32,
) -> Option<u64> {
    let Some(before) = row(at, 0) else {
        return None;
    };
    withdraw(lane, &before);
    if !put_row(lane, at, 1) {
        return None;
    }
    steps(alloc, lane, offers)
}

// Whether the exchange of each of these rows takes so many steps at most, and to resume after them takes none.
fn exchange_within(
    alloc: Global,
    lane: &mut Lane<Counting>,
    offers: &Arc<AtomicU64, Global>,
    exchanges: &[(u32, u64)],
) -> bool {
    for exchange in exchanges {
        let (at, most) = *exchange;
        let Some(taken) = exchanged(alloc, lane, offers, at) else {
            return false;
        };
        if taken > most {
            return false;
        }
    }
    steps(alloc, lane, offers) == Some(0)
}

// The same of a lane of five rows, with a mark after each so many.
fn exchanges_take(alloc: Global, k: u32, exchanges: &[(u32, u64)]) -> bool
    requires some { 0 < k }
    requires few { k ≤ 65536 }
{
    let Ok(offers) = Arc::new(alloc, AtomicU64::new(0)) else {
        return false;
    };
    let Some(mut lane) = five_rows(alloc, &offers, k) else {
        return false;
    };
    exchange_within(alloc, &mut lane, &offers, exchanges)
}

#[test]
fn an_exchanged_row_is_metered_from_the_mark_before(rt: HostRuntime) {
    assert!(rt; exchanges_take(rt.alloc(), 2, &[(3, 4), (0, 7)]));
    assert!(rt; exchanges_take(rt.alloc(), 1, &[(3, 3)]));
}

// Puts one row more, and answers the steps.
fn with_sixth(
    alloc: Global,
    lane: &mut Lane<Counting>,
    offers: &Arc<AtomicU64, Global>,
) -> Option<u64> {
    if !put_row(lane, 5, 0) {
        return None;
    }
    steps(alloc, lane, offers)
}

#[test]
fn a_row_at_the_end_is_metered_from_the_mark_before(rt: HostRuntime) -> Result<(), Fail> {
    let alloc = rt.alloc();
    let offers = Arc::new(alloc, AtomicU64::new(0))?;
    let mut lane = five_rows(alloc, &offers, 2).ok_or("a lane of five rows")?;
    assert!(rt; matches!(with_sixth(alloc, &mut lane, &offers), Some(steps) if steps <= 3));
    assert!(rt; lane.len() == 6);
    Ok(())
}

// Puts a report behind the fourth of the five rows and withdraws it, and answers the steps.
fn come_and_go(
    alloc: Global,
    lane: &mut Lane<Counting>,
    offers: &Arc<AtomicU64, Global>,
) -> Option<u64> {
    let Some(one) = row(3, 1) else {
        return None;
    };
    if put(lane, one).is_err() {
        return None;
    }
    withdraw(lane, &one);
    steps(alloc, lane, offers)
}

// Whether that takes few steps and changes no tally.
fn keeps_its_tally(
    alloc: Global,
    lane: &mut Lane<Counting>,
    offers: &Arc<AtomicU64, Global>,
) -> bool {
    let Some(before) = single_rate_tally(alloc, lane) else {
        return false;
    };
    let Some(steps) = come_and_go(alloc, lane, offers) else {
        return false;
    };
    let Some(after) = single_rate_tally(alloc, lane) else {
        return false;
    };
    steps <= 3 && lane.len() == 5 && are_alike(&before, &after)
}

fn five_keep_their_tally(alloc: Global) -> bool {
    let Ok(offers) = Arc::new(alloc, AtomicU64::new(0)) else {
        return false;
    };
    let Some(mut lane) = five_rows(alloc, &offers, 2) else {
        return false;
    };
    keeps_its_tally(alloc, &mut lane, &offers)
}

#[test]
fn a_row_that_came_and_went_changes_no_tally(rt: HostRuntime) {
    assert!(rt; five_keep_their_tally(rt.alloc()));
}
