//! The buckets of a meter of any of the three kinds, and what tokens and a packet do to them.
ghost use Rattle.std.specs.Prelude.{◌≡◌, ◌<◌, ◌≤◌};
ghost use Rattle.tca_meters.specs.AnyMeters.{any_rule};
ghost use Rattle.tca_audit.specs.inside.Metering.{levels_of};
ghost use Rattle.tca_report.specs.report.Reports.{time_end};

use crate::buckets::Buckets;
use crate::{rfc4115, srtcm, trtcm};
use tca_meters::{AnyMeter, Colour};

/// The buckets of a meter, both full.
pub(crate) fn opening(meter: &AnyMeter) -> Buckets
    ensures { levels_of result ≡ (any_rule meter.now).opening }
{
    match meter {
        AnyMeter::SrTcm(meter) => srtcm::opening(meter),
        AnyMeter::TrTcm(meter) => trtcm::opening(meter),
        AnyMeter::Rfc4115(meter) => rfc4115::opening(meter),
    }
}

/// The buckets once the tokens that come after `from` and at or before `to` were let in.
pub(crate) fn filled(meter: &AnyMeter, buckets: Buckets, from: u64, to: u64) -> Buckets
    requires order { from ≤ to }
    requires time { to < time_end }
    ensures { levels_of result ≡ (any_rule meter.now).filled from to (levels_of buckets) }
{
    match meter {
        AnyMeter::SrTcm(meter) => srtcm::filled(meter, buckets, from, to),
        AnyMeter::TrTcm(meter) => trtcm::filled(meter, buckets, from, to),
        AnyMeter::Rfc4115(meter) => rfc4115::filled(meter, buckets, from, to),
    }
}

/// The colour of a packet, and the buckets after it.
pub(crate) fn judged(
    meter: &AnyMeter,
    buckets: Buckets,
    octets: u32,
    pre: Colour,
) -> (Colour, Buckets)
    ensures { (result.0, levels_of result.1) ≡ (any_rule meter.now).judged (levels_of buckets) octets pre }
{
    match meter {
        AnyMeter::SrTcm(meter) => srtcm::judged(meter, buckets, octets, pre),
        AnyMeter::TrTcm(meter) => trtcm::judged(meter, buckets, octets, pre),
        AnyMeter::Rfc4115(meter) => rfc4115::judged(meter, buckets, octets, pre),
    }
}
