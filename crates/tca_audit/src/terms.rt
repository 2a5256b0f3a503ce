//! A packet at a meter with terms.
//!
//! A term starts at a stated millisecond. From then on its meter takes the packets, until the next term starts. At that
//! millisecond both its buckets are full, so that a token which comes at it finds no room: where a term starts between
//! two packets, the tokens that are let in before the second are those that come after the start.
ghost use Rattle.std.specs.Prelude.{◌≡◌, ◌<◌, ◌≤◌};
ghost use Rattle.tca_meters.specs.Packets.{answer};
ghost use Rattle.tca_meters.specs.Termed.{term, termed_rule};
ghost use Rattle.tca_audit.specs.inside.Metering.{state_of};
ghost use Rattle.tca_report.specs.report.Reports.{time_end};

use crate::buckets::Buckets;
use crate::meters::{filled, judged, opening};
use tca_meters::{AnyMeter, Colour, Termed};

/// The number of a term, 0 for the first meter's, and the buckets of its meter.
#[derive(Clone, Copy)]
pub(crate) struct TermBuckets {
    pub(crate) term: u32,
    pub(crate) buckets: Buckets,
}

// The meter of a term by its number.
fn meter_of(meter: &Termed, number: u32) -> AnyMeter
    ensures { result ≡ (term meter.now number).1 }
{
    if 0 < number && number <= meter.terms() {
        meter.term(number - 1).1
    } else {
        meter.first()
    }
}

/// The first meter's buckets, which are full at time 0.
pub(crate) fn begun(meter: &Termed) -> TermBuckets
    ensures { state_of result ≡ (termed_rule meter.now).opening }
{
    TermBuckets {
        term: 0,
        buckets: opening(&meter.first()),
    }
}

// The buckets at the time `to`, by those at the time `from`. The terms are gone over in their order: one that starts
// after `from` and at or before `to` has full buckets at its start. Then the tokens that come after the last of these
// starts, or after `from` where there is none, are let in one at a time.
fn advanced(meter: &Termed, state: TermBuckets, from: u64, to: u64) -> TermBuckets
    requires order { from ≤ to }
    requires time { to < time_end }
    ensures { state_of result ≡ (termed_rule meter.now).filled from to (state_of state) }
{
    let mut next = state;
    let mut last = from;
    for n in 0..meter.terms() {
        let (start, of_term) = meter.term(n);
        if last < start && start <= to {
            next = TermBuckets {
                term: n + 1,
                buckets: opening(&of_term),
            };
            last = start;
        }
    }
    TermBuckets {
        term: next.term,
        buckets: filled(&meter_of(meter, next.term), next.buckets, last, to),
    }
}

/// The colour of a packet that comes at `time` after one of time `last`, and the buckets after it. For the first packet
/// `last` is 0. Times are in milliseconds.
pub(crate) fn metered(
    meter: &Termed,
    state: TermBuckets,
    last: u64,
    time: u64,
    octets: u32,
    pre: Colour,
) -> (Colour, TermBuckets)
    requires order { last ≤ time }
    requires limit { time < time_end }
    ensures { (result.0, state_of result.1) ≡ answer (termed_rule meter.now) (state_of state) last (record { time = time; octets = octets; pre = pre }) }
{
    let next = advanced(meter, state, last, time);
    let (colour, buckets) = judged(&meter_of(meter, next.term), next.buckets, octets, pre);
    (
        colour,
        TermBuckets {
            term: next.term,
            buckets,
        },
    )
}
