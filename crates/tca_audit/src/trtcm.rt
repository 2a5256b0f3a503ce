//! The two rate three color marker of RFC 2698: tokens of the committed rate go to the committed bucket, and tokens of
//! the peak rate to the peak bucket.
ghost use Rattle.std.specs.Prelude.{◌≡◌, ◌<◌, ◌≤◌};
ghost use Rattle.tca_meters.specs.Colours.{counted};
ghost use Rattle.tca_meters.specs.TrTcm.{filled_levels, judged_packet, opening_levels};
ghost use Rattle.tca_audit.specs.inside.Metering.{levels_of};
ghost use Rattle.tca_report.specs.report.Reports.{time_end};

use crate::arrivals;
use crate::buckets::{Bucket, Buckets};
use tca_meters::{Colour, TrTcm};

/// Both buckets full, as at time 0 (RFC 2698 section 3).
pub(crate) fn opening(meter: &TrTcm) -> Buckets
    ensures { levels_of result ≡ opening_levels meter.now }
{
    Buckets {
        committed: Bucket::full(meter.cbs()),
        excess: Bucket::full(meter.pbs()),
    }
}

/// The buckets once the tokens that come after `from` and at or before `to` were let in, one at a time: Tc gains
/// those of CIR up to CBS, and Tp those of PIR up to PBS (RFC 2698 section 3).
pub(crate) fn filled(meter: &TrTcm, buckets: Buckets, from: u64, to: u64) -> Buckets
    requires order { from ≤ to }
    requires time { to < time_end }
    ensures { levels_of result ≡ filled_levels meter.now from to (levels_of buckets) }
{
    Buckets {
        committed: arrivals::filled(buckets.committed, meter.cir(), from, to),
        excess: arrivals::filled(buckets.excess, meter.pir(), from, to),
    }
}

/// The colour of a packet of `octets`, and the buckets after it: red if Tp hasn't a token for each octet; else
/// yellow if Tc hasn't, and Tp loses them; else green, and both lose them (RFC 2698 section 3). In aware mode a red
/// packet is red, and a yellow one that isn't red is yellow; in blind mode each packet counts as green.
pub(crate) fn judged(meter: &TrTcm, buckets: Buckets, octets: u32, pre: Colour) -> (Colour, Buckets)
    ensures { (result.0, levels_of result.1) ≡ judged_packet (levels_of buckets) octets (counted meter.now.aware pre) }
{
    let mut next = buckets;
    let pre = if meter.aware() { pre } else { Colour::Green };
    if pre == Colour::Red || !next.excess.fits(octets, true) {
        (Colour::Red, next)
    } else if pre == Colour::Yellow || !next.committed.fits(octets, true) {
        next.excess.spend(octets);
        (Colour::Yellow, next)
    } else {
        next.committed.spend(octets);
        next.excess.spend(octets);
        (Colour::Green, next)
    }
}
