//! Meters that change at stated times.
use super::slow::{Kind, Slow, SlowTerms};
use super::{levels, meter_of, some_packet, step};
use std::process::Abort;
use std::test::*;
use tca_meters::*;

/// The time from which on there are no times.
const END: u64 = 1 << 48;

/// Starts of which there is no meter: nine, at time 0, at the end of times, twice the same, and falling.
const NO_STARTS: [&'static [u64]; 6] = [
    &[1, 2, 3, 4, 5, 6, 7, 8, 9],
    &[0],
    &[5, END],
    &[5, 6, 6],
    &[5, 6, 5],
    &[0, 1, 2, 3, 4, 5, 6, 7, 8],
];

/// Starts of which there is one.
const STARTS: [&'static [u64]; 4] = [
    &[],
    &[1],
    &[1, 2, 3, 4, 5, 6, 7, 281_474_976_710_655],
    &[1_700_000_000_100, 1_700_000_000_101],
];

/// A meter of its own for each number.
fn numbered(number: u64) -> Option<AnyMeter> {
    let meter = SrTcm::new(number, 1, number, false).ok()?;
    Some(meter.into())
}

/// The meter that begins with the first of these, and has the next ones from the starts on.
fn made(starts: &[u64]) -> Option<Termed> {
    let first = numbered(0)?;
    let mut terms = [(0, first); 9];
    for (n, start) in starts.iter().enumerate() {
        if n < 9 {
            terms[n] = (*start, numbered((n as u64).wrapping_add(1))?);
        }
    }
    let terms = terms.get(..starts.len())?;
    Termed::new(first, terms)
}

/// Whether a meter has just these starts, each with the meter of its number.
fn has_terms(meter: &Termed, starts: &[u64]) -> bool {
    for (n, start) in starts.iter().enumerate() {
        let number = n.min(9) as u32;
        if number >= meter.terms() {
            return false;
        }
        let (from, of_term) = meter.term(number);
        if from != *start || Some(of_term) != numbered(number as u64 + 1) {
            return false;
        }
    }
    meter.terms() as usize == starts.len() && Some(meter.first()) == numbered(0)
}

/// Whether there is a meter of these starts, and it has them.
fn is_made(starts: &[u64]) -> bool {
    match made(starts) {
        Some(meter) => has_terms(&meter, starts),
        None => false,
    }
}

#[test]
fn starts_of_terms_ascend(rt: HostRuntime) {
    for starts in NO_STARTS {
        assert!(rt; made(starts).is_none(), "{starts:?}");
    }
    for starts in STARTS {
        assert!(rt; is_made(starts), "{starts:?}");
    }
}

/// The meter that changes as slow ones do.
fn termed(slow: &SlowTerms) -> Option<Termed> {
    let first = meter_of(&slow.now).ok()?;
    let mut terms = [(0, first); 3];
    for (n, (start, meter)) in slow.later.iter().enumerate() {
        if n < 3 {
            terms[n] = (*start, meter_of(meter).ok()?);
        }
    }
    Termed::new(first, &terms)
}

/// Compares a meter that changes with slow ones over some packets, from time 0 on.
fn compare(rt: &impl Abort, slow: SlowTerms, first_seed: u64) {
    let Some(meter) = termed(&slow) else {
        assert!(rt; false, "a meter");
        return;
    };
    let mut slow = slow;
    let mut state = meter.start();
    let mut time = 0u64;
    let mut seed = first_seed;
    for turn in 0..16u64 {
        seed = seed
            .wrapping_mul(6364136223846793005)
            .wrapping_add(1442695040888963407);
        let (gap, octets, pre) = some_packet(seed >> 33, &slow.now);
        // The first packet comes at time 0.
        let gap = gap.min(turn);
        assert!(rt; time < 1000 && gap < 6);
        slow.wait(time, time + gap);
        let (colour, next) = step(rt, &meter, state, time, time + gap, octets, pre);
        assert!(rt; colour == slow.now.take(octets as u64, pre));
        assert!(rt; levels(next.levels) == (slow.now.committed, slow.now.second));
        state = next;
        time += gap;
    }
}

/// The kinds of meters.
const KINDS: [Kind; 4] = [
    Kind::Rfc2697,
    Kind::Rfc2698,
    Kind::Rfc4115 { exact_fit: true },
    Kind::Rfc4115 { exact_fit: false },
];

/// A meter with full buckets of some kind and parameters, which each number gives. Few rates divide 1000.
fn numbered_slow(number: u64) -> Slow {
    let rates = [333, 999, 7, 1999, 3, 667];
    let sizes = [(5, 3), (2, 7), (7, 4), (1, 1), (12, 5)];
    let kind = KINDS.get((number % 4) as usize);
    let cir = rates.get((number % 6) as usize);
    let (cbs, size) = sizes.get((number % 5) as usize).copied().unwrap_or((1, 1));
    let (kind, cir) = match (kind, cir) {
        (Some(kind), Some(cir)) => (*kind, *cir),
        _ => (Kind::Rfc2697, 1),
    };
    let rate = match kind {
        Kind::Rfc2697 => 0,
        _ => (number % 7 * 333).wrapping_add(cir),
    };
    Slow::full(kind, (cir, cbs), (rate, size), number / 3 % 2 == 1)
}

/// Compares the meters of four numbers in a row, which change at these times.
fn compare_numbers(rt: &impl Abort, number: u64, starts: [u64; 3]) {
    let [first, second, third] = starts;
    let slow = SlowTerms {
        now: numbered_slow(number),
        later: [
            (first, numbered_slow(number.wrapping_add(1))),
            (second, numbered_slow(number.wrapping_add(2))),
            (third, numbered_slow(number.wrapping_add(3))),
        ],
    };
    compare(rt, slow, number);
    compare(rt, slow, number.wrapping_add(1000));
}

#[test]
fn colours_in_terms_are_those_by_single_tokens(rt: HostRuntime) {
    for number in 0..240 {
        for starts in [[1, 2, 3], [4, 5, 17], [7, 20, 31], [29, 30, 1000]] {
            compare_numbers(&rt, number, starts);
        }
    }
}
