//! Meters on packets whose colours are known.
pub(super) mod slow;
mod specs;
mod terms;

use slow::{Kind, Slow};
use std::alloc::Global;
use std::fmt::Display;
use std::process::Abort;
use std::test::*;
use tca_buckets::{Bucket, ticks};
use tca_meters::*;

/// The time of the worked examples.
const T: u64 = 1_700_000_000_000;

/// The colour of a packet that comes some time after the one before it, by what the trait has.
fn step<M: Meter>(
    rt: &impl Abort,
    meter: &M,
    state: M::State,
    from: u64,
    to: u64,
    octets: u32,
    pre: Colour,
) -> (Colour, M::State) {
    assert!(rt; from <= to && to < 1 << 48);
    meter.offer(meter.advance(state, from, to), octets, pre)
}

fn levels(state: Levels) -> (u64, u64) {
    (state.committed.level(), state.excess.level())
}

/// The state after a green packet, which gets this colour and leaves these levels.
fn state_after(
    rt: &impl Abort,
    meter: &AnyMeter,
    state: Levels,
    (from, to): (u64, u64),
    octets: u32,
    want: (Colour, u64, u64),
) -> Levels {
    let (colour, next) = step(rt, meter, state, from, to, octets, Colour::Green);
    let (committed, excess) = levels(next);
    assert!(rt;
        colour == want.0 && committed == want.1 && excess == want.2,
        "at {to}"
    );
    next
}

/// Compares three packets, each with its time, its octets and what is wanted of it.
fn compare_three(rt: &impl Abort, meter: AnyMeter, packets: [(u64, u32, (Colour, u64, u64)); 3]) {
    let [first, second, third] = packets;
    let state = state_after(rt, &meter, meter.start(), (0, first.0), first.1, first.2);
    let state = state_after(rt, &meter, state, (first.0, second.0), second.1, second.2);
    state_after(rt, &meter, state, (second.0, third.0), third.1, third.2);
}

#[test]
fn three_packets_get_three_colours(rt: HostRuntime) {
    let Ok(meter) = SrTcm::new(1000, 2000, 1000, false) else {
        panic!(rt; "a meter");
    };
    let parameters = (meter.cir(), meter.cbs(), meter.ebs(), meter.aware());
    assert!(rt; parameters == (1000, 2000, 1000, false));
    assert!(rt; levels(meter.start()) == (2000, 1000));
    compare_three(
        &rt,
        meter.into(),
        [
            (T, 1500, (Colour::Green, 500, 1000)),
            (T + 100, 1000, (Colour::Yellow, 600, 0)),
            (T + 200, 800, (Colour::Red, 700, 0)),
        ],
    );
}

#[test]
fn a_late_packet_changes_the_colours_after_it(rt: HostRuntime) {
    let Ok(meter) = SrTcm::new(1000, 2000, 1000, false) else {
        panic!(rt; "a meter");
    };
    let meter: AnyMeter = meter.into();
    let state = meter.start();
    let state = state_after(&rt, &meter, state, (0, T), 1500, (Colour::Green, 500, 1000));
    let state = state_after(
        &rt,
        &meter,
        state,
        (T, T + 50),
        600,
        (Colour::Yellow, 550, 400),
    );
    let state = state_after(
        &rt,
        &meter,
        state,
        (T + 50, T + 100),
        1000,
        (Colour::Red, 600, 400),
    );
    state_after(
        &rt,
        &meter,
        state,
        (T + 100, T + 200),
        800,
        (Colour::Red, 700, 400),
    );
}

#[test]
fn two_rates_fill_two_buckets(rt: HostRuntime) {
    let Ok(meter) = TrTcm::new(2000, 2001, 1000, 1001, false) else {
        panic!(rt; "a meter");
    };
    let rates = (meter.pir(), meter.pbs(), meter.cir(), meter.cbs());
    assert!(rt; rates == (2000, 2001, 1000, 1001));
    assert!(rt; !meter.aware());
    assert!(rt; levels(meter.start()) == (1001, 2001));
    let Ok(meter) = TrTcm::new(2000, 2000, 1000, 1000, false) else {
        panic!(rt; "a meter");
    };
    compare_three(
        &rt,
        meter.into(),
        [
            (T, 1500, (Colour::Yellow, 1000, 500)),
            (T, 500, (Colour::Green, 500, 0)),
            (T + 1, 3, (Colour::Red, 501, 2)),
        ],
    );
}

/// Compares three packets at the meter of a text.
fn compare_spec(rt: &impl Abort, text: &str, packets: [(u64, u32, (Colour, u64, u64)); 3]) {
    match meter_spec(text) {
        Ok(meter) => compare_three(rt, meter, packets),
        Err(_) => assert!(rt; false, "a meter"),
    }
}

fn has_parameters(meter: &Rfc4115) -> bool {
    (meter.cir(), meter.cbs()) == (1, 2)
        && (meter.eir(), meter.ebs()) == (3, 4)
        && meter.exact_fit()
        && meter.aware()
}

#[test]
fn a_packet_fits_exactly_or_below(rt: HostRuntime) {
    let Ok(meter) = Rfc4115::new(1, 2, 3, 4, true, true) else {
        panic!(rt; "a meter");
    };
    assert!(rt; has_parameters(&meter));
    compare_spec(
        &rt,
        "rfc4115:1000:1000:1000:1000:exact:blind",
        [
            (T, 1000, (Colour::Green, 0, 1000)),
            (T, 1000, (Colour::Yellow, 0, 0)),
            (T, 1000, (Colour::Red, 0, 0)),
        ],
    );
    compare_spec(
        &rt,
        "rfc4115:1000:1000:1000:1000:below:blind",
        [(T, 1000, (Colour::Red, 1000, 1000)); 3],
    );
}

/// What a full meter answers to a packet at the time of the worked examples.
fn offered(meter: &SrTcm, octets: u32, pre: Colour) -> (Colour, (u64, u64)) {
    let (colour, state) = meter.offer(meter.advance(meter.start(), 0, T), octets, pre);
    (colour, levels(state))
}

/// Whether a code point counts at an aware meter, which then leaves these levels, and not at one that is blind.
fn counts_where_aware(octets: u32, dscp: u8, want: (Colour, (u64, u64))) -> Option<bool> {
    let aware = SrTcm::new(1000, 2000, 1000, true).ok()?;
    let blind = SrTcm::new(1000, 2000, 1000, false).ok()?;
    let pre = precolour(dscp, Colour::Green);
    let (colour, _) = offered(&blind, octets, pre);
    Some(offered(&aware, octets, pre) == want && colour == Colour::Green)
}

#[test]
fn precolours_count_where_aware(rt: HostRuntime) {
    let red = (Colour::Red, (2000, 1000));
    let yellow = (Colour::Yellow, (2000, 0));
    let green = (Colour::Green, (0, 1000));
    assert!(rt; counts_where_aware(100, 14, red) == Some(true));
    assert!(rt; counts_where_aware(1000, 12, yellow) == Some(true));
    assert!(rt; counts_where_aware(2000, 46, green) == Some(true));
}

/// The greatest rate and size, and one above it.
const MOST: u64 = 1_000_000_000_000;

const OVER: u64 = 1_000_000_000_001;

const SINGLE_RATES: [(u64, u64, u64, Option<MeterFault>); 7] = [
    (OVER, 0, 0, Some(MeterFault::NoBurst)),
    (OVER, 1, 0, Some(MeterFault::RateRange)),
    (1, OVER, 0, Some(MeterFault::RateRange)),
    (1, 0, OVER, Some(MeterFault::RateRange)),
    (MOST, MOST, MOST, None),
    (0, 1, 0, None),
    (0, 0, 1, None),
];

const PEAK_RATES: [(u64, u64, u64, u64, Option<MeterFault>); 9] = [
    (1, 0, OVER, 1, Some(MeterFault::NoBurst)),
    (1, 1, OVER, 0, Some(MeterFault::NoBurst)),
    (MOST, 1, OVER, 1, Some(MeterFault::PeakBelowCommitted)),
    (0, OVER, 1, OVER, Some(MeterFault::PeakBelowCommitted)),
    (OVER, 1, 0, 1, Some(MeterFault::RateRange)),
    (1, OVER, 1, 1, Some(MeterFault::RateRange)),
    (1, 1, 1, OVER, Some(MeterFault::RateRange)),
    (MOST, MOST, MOST, MOST, None),
    (0, 1, 0, 1, None),
];

const EXCESS_RATES: [(u64, u64, u64, u64, Option<MeterFault>); 8] = [
    (OVER, 0, OVER, 0, Some(MeterFault::NoBurst)),
    (OVER, 1, 1, 0, Some(MeterFault::RateRange)),
    (1, OVER, 1, 0, Some(MeterFault::RateRange)),
    (1, 1, OVER, 0, Some(MeterFault::RateRange)),
    (1, 0, 1, OVER, Some(MeterFault::RateRange)),
    (MOST, MOST, MOST, MOST, None),
    (1, 1, 0, 0, None),
    (1, 0, 0, 1, None),
];

#[test]
fn faults_come_in_order(rt: HostRuntime) {
    for (cir, cbs, ebs, want) in SINGLE_RATES {
        assert!(rt; SrTcm::new(cir, cbs, ebs, false).err() == want);
    }
    for (pir, pbs, cir, cbs, want) in PEAK_RATES {
        assert!(rt; TrTcm::new(pir, pbs, cir, cbs, false).err() == want);
    }
    for (cir, cbs, eir, ebs, want) in EXCESS_RATES {
        assert!(rt; Rfc4115::new(cir, cbs, eir, ebs, true, false).err() == want);
    }
}

/// The faults, each with its number and its text.
const FAULTS: [(MeterFault, u8, &'static str); 3] = [
    (
        MeterFault::NoBurst,
        1,
        "no burst size to meter by: expected one above 0, and for RFC 2698 both",
    ),
    (
        MeterFault::PeakBelowCommitted,
        2,
        "the peak rate is below the committed rate: expected it to be at least that",
    ),
    (
        MeterFault::RateRange,
        3,
        "a rate or a burst size is out of range: expected each to be at most 1000000000000",
    ),
];

fn says<F: Display + Drop>(alloc: Global, fault: F, text: &str) -> bool {
    match format!(in alloc; "{fault}") {
        Ok(line) => line.as_str() == text,
        Err(_) => false,
    }
}

#[test]
fn faults_say_why(rt: HostRuntime) {
    for (fault, number, text) in FAULTS {
        assert!(rt; fault.number() == number && says(rt.alloc(), fault, text));
    }
}

#[test]
fn colours_rise(rt: HostRuntime) {
    let (green, yellow, red) = (Colour::Green, Colour::Yellow, Colour::Red);
    assert!(rt; [green.number(), yellow.number(), red.number()] == [0, 1, 2]);
    assert!(rt; green < yellow && yellow < red);
    colours_worsen();
}

const RATES: [u64; 11] = [0, 1, 3, 7, 333, 500, 999, 1000, 1001, 1999, 3000];

#[test]
fn ticks_are_counted_tokens(rt: HostRuntime) {
    for rate in RATES {
        assert!(rt; rate <= 3000);
        for from in 0..20u64 {
            for more in 0..20u64 {
                let want = slow::count(rate, from, from + more, 120);
                assert!(rt; ticks(rate, from, from + more) == want);
                let by_then = slow::come(rate, from + more);
                assert!(rt; by_then.wrapping_sub(slow::come(rate, from)) as u128 == want);
            }
        }
    }
}

/// A packet of some size near what the buckets have, at some later time, of some colour.
fn some_packet(seed: u64, slow: &Slow) -> (u64, u32, Colour) {
    let octets = match seed / 8 % 7 {
        0 => slow.committed,
        1 => slow.committed.wrapping_add(1),
        2 => slow.committed.wrapping_sub(1),
        3 => slow.second,
        4 => slow.second.wrapping_add(1),
        5 => slow.second.wrapping_sub(1),
        _ => seed / 64 % 12,
    };
    let pre = match seed / 1024 % 3 {
        0 => Colour::Green,
        1 => Colour::Yellow,
        _ => Colour::Red,
    };
    (seed % 6, (octets % 4096) as u32, pre)
}

/// RFC 2697 has no second rate.
fn srtcm_of(slow: &Slow) -> Result<AnyMeter, MeterFault> {
    let meter = SrTcm::new(slow.cir, slow.cbs, slow.second_size, slow.aware)?;
    Ok(meter.into())
}

fn two_rates(slow: &Slow) -> Result<AnyMeter, MeterFault> {
    let (rate, size) = (slow.second_rate, slow.second_size);
    let meter = TrTcm::new(rate, size, slow.cir, slow.cbs, slow.aware)?;
    Ok(meter.into())
}

fn two_fits(slow: &Slow, exact_fit: bool) -> Result<AnyMeter, MeterFault> {
    let (rate, size) = (slow.second_rate, slow.second_size);
    let meter = Rfc4115::new(slow.cir, slow.cbs, rate, size, exact_fit, slow.aware)?;
    Ok(meter.into())
}

/// The meter that has the parameters of a slow one.
fn meter_of(slow: &Slow) -> Result<AnyMeter, MeterFault> {
    match slow.kind {
        Kind::Rfc2697 => srtcm_of(slow),
        Kind::Rfc2698 => two_rates(slow),
        Kind::Rfc4115 { exact_fit } => two_fits(slow, exact_fit),
    }
}

/// Compares a meter with the slow one over some packets, from time 0 on.
fn compare(rt: &impl Abort, slow: Slow, first_seed: u64) {
    let Ok(meter) = meter_of(&slow) else {
        assert!(rt; false, "a meter");
        return;
    };
    let mut slow = slow;
    let mut state = meter.start();
    let mut time = 0u64;
    let mut seed = first_seed;
    for turn in 0..12u64 {
        seed = seed
            .wrapping_mul(6364136223846793005)
            .wrapping_add(1442695040888963407);
        let (gap, octets, pre) = some_packet(seed >> 33, &slow);
        // The first packet comes at time 0.
        let gap = gap.min(turn);
        assert!(rt; time < 1000 && gap < 6);
        slow.wait(time, time + gap, 180);
        let (colour, next) = step(rt, &meter, state, time, time + gap, octets, pre);
        assert!(rt; colour == slow.take(octets as u64, pre));
        assert!(rt; levels(next) == (slow.committed, slow.second));
        state = next;
        time += gap;
    }
}

/// Compares the meter of these parameters, blind and aware.
fn compare_modes(rt: &impl Abort, kind: Kind, (cir, cbs): (u64, u64), (rate, size): (u64, u64)) {
    for aware in [false, true] {
        let slow = Slow::full(kind, (cir, cbs), (rate, size), aware);
        compare(rt, slow, cir);
        compare(rt, slow, cbs);
    }
}

#[test]
fn colours_are_those_by_single_tokens(rt: HostRuntime) {
    for cir in RATES {
        for (cbs, size) in [(0, 1), (1, 0), (1, 1), (2, 0), (5, 3), (40, 10)] {
            compare_modes(&rt, Kind::Rfc2697, (cir, cbs), (0, size));
        }
    }
}

#[test]
fn colours_of_two_rates_are_those_by_single_tokens(rt: HostRuntime) {
    for cir in RATES {
        for rate in [cir, 3000] {
            for (cbs, size) in [(1, 1), (2, 7), (5, 3), (40, 50)] {
                compare_modes(&rt, Kind::Rfc2698, (cir, cbs), (rate, size));
            }
        }
    }
}

#[test]
fn colours_of_fits_are_those_by_single_tokens(rt: HostRuntime) {
    for cir in RATES {
        for rate in [0, 1001] {
            for (cbs, size) in [(0, 1), (1, 0), (2, 7), (5, 3), (40, 10)] {
                for exact_fit in [false, true] {
                    let kind = Kind::Rfc4115 { exact_fit };
                    compare_modes(&rt, kind, (cir, cbs), (rate, size));
                }
            }
        }
    }
}

fn empty_levels() -> Option<Levels> {
    let committed = Bucket::new(0, MOST)?;
    let excess = Bucket::new(0, 5)?;
    Some(Levels { committed, excess })
}

fn fills(meter: &SrTcm, empty: &Levels) -> bool {
    let none = levels(meter.advance(*empty, 7, 7));
    let some = levels(meter.advance(*empty, 7, 10));
    let all = levels(meter.advance(*empty, 7, 1007));
    let full = meter.start();
    let more = meter.advance(*empty, 7, 1008);
    let last = meter.advance(*empty, 0, (1 << 48) - 1);
    none == (0, 0) && some == (3_000_000_000, 0) && all == (MOST, 0) && more == full && last == full
}

fn great_buckets_fill() -> Option<bool> {
    let meter = SrTcm::new(MOST, MOST, 5, false).ok()?;
    let empty = empty_levels()?;
    Some(fills(&meter, &empty))
}

/// Where a rate is a multiple of 1000, each millisecond brings exactly its thousandth.
#[test]
fn great_rates_fill_great_buckets(rt: HostRuntime) {
    assert!(rt; great_buckets_fill() == Some(true));
    assert!(rt; ticks(MOST - 1, 0, 1) == 999_999_999);
    assert!(rt; ticks(MOST - 1, 1, 2) == 1_000_000_000);
}
