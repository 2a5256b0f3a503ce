//! The marker of RFC 4115: tokens of the committed rate go to the committed bucket, and tokens of the excess rate to the
//! excess bucket.
ghost use Rattle.std.specs.Prelude.{◌≡◌, ◌<◌, ◌≤◌};
ghost use Rattle.tca_meters.specs.Colours.{counted};
ghost use Rattle.tca_meters.specs.Rfc4115.{filled_levels, judged_packet, opening_levels};
ghost use Rattle.tca_audit.specs.inside.Metering.{levels_of};
ghost use Rattle.tca_report.specs.report.Reports.{time_end};

use crate::arrivals;
use crate::buckets::{Bucket, Buckets};
use tca_meters::{Colour, Rfc4115};

/// Both buckets full, as at time 0 (RFC 4115).
pub(crate) fn opening(meter: &Rfc4115) -> Buckets
    ensures { levels_of result ≡ opening_levels meter.now }
{
    Buckets {
        committed: Bucket::full(meter.cbs()),
        excess: Bucket::full(meter.ebs()),
    }
}

/// The buckets once the tokens that come after `from` and at or before `to` were let in, one at a time: Tc gains
/// those of CIR up to CBS, and Te those of EIR up to EBS (RFC 4115).
pub(crate) fn filled(meter: &Rfc4115, buckets: Buckets, from: u64, to: u64) -> Buckets
    requires order { from ≤ to }
    requires time { to < time_end }
    ensures { levels_of result ≡ filled_levels meter.now from to (levels_of buckets) }
{
    Buckets {
        committed: arrivals::filled(buckets.committed, meter.cir(), from, to),
        excess: arrivals::filled(buckets.excess, meter.eir(), from, to),
    }
}

/// The colour of a packet of `octets`, and the buckets after it: green if it fits Tc, which loses a token for each
/// octet; else yellow if it fits Te, which loses them; else red (RFC 4115). Where the meter's fit isn't exact, one
/// token has to be left over. In aware mode a yellow packet is tried on Te alone and a red one on neither; in blind
/// mode each packet counts as green.
pub(crate) fn judged(
    meter: &Rfc4115,
    buckets: Buckets,
    octets: u32,
    pre: Colour,
) -> (Colour, Buckets)
    ensures { (result.0, levels_of result.1) ≡ judged_packet meter.now (levels_of buckets) octets (counted meter.now.aware pre) }
{
    let mut next = buckets;
    let exact = meter.exact_fit();
    let pre = if meter.aware() { pre } else { Colour::Green };
    if pre == Colour::Green && next.committed.fits(octets, exact) {
        next.committed.spend(octets);
        (Colour::Green, next)
    } else if pre != Colour::Red && next.excess.fits(octets, exact) {
        next.excess.spend(octets);
        (Colour::Yellow, next)
    } else {
        (Colour::Red, next)
    }
}
