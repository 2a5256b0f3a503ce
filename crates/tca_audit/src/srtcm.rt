//! The single rate three color marker of RFC 2697: tokens of one rate go to the committed bucket, and those that it has
//! no room for to the excess bucket.
ghost use Rattle.std.specs.Prelude.{◌≡◌, ◌<◌, ◌≤◌};
ghost use Rattle.tca_meters.specs.Colours.{counted};
ghost use Rattle.tca_meters.specs.SrTcm.{filled_levels, judged_packet, opening_levels};
ghost use Rattle.tca_audit.specs.inside.Metering.{levels_of};
ghost use Rattle.tca_report.specs.report.Reports.{time_end};

use crate::arrivals::{first_after, let_in};
use crate::buckets::{Bucket, Buckets};
use tca_meters::{Colour, SrTcm};

/// Both buckets full, as at time 0 (RFC 2697 section 3).
pub(crate) fn opening(meter: &SrTcm) -> Buckets
    ensures { levels_of result ≡ opening_levels meter.now }
{
    Buckets {
        committed: Bucket::full(meter.cbs()),
        excess: Bucket::full(meter.ebs()),
    }
}

/// The buckets once the tokens that come after `from` and at or before `to` were let in, one at a time: while Tc is less than CBS,
/// Tc gains a token; then, while Te is less than EBS, Te does; then neither (RFC 2697 section 3).
pub(crate) fn filled(meter: &SrTcm, buckets: Buckets, from: u64, to: u64) -> Buckets
    requires order { from ≤ to }
    requires time { to < time_end }
    ensures { levels_of result ≡ filled_levels meter.now from to (levels_of buckets) }
{
    let cir = meter.cir();
    let mut next = buckets;
    let first = first_after(cir, from);
    let left = let_in(&mut next.committed, first, cir, to);
    let _ = let_in(&mut next.excess, left, cir, to);
    next
}

/// The colour of a packet of `octets`, and the buckets after it: green if Tc has a token for each octet, which Tc
/// loses; else yellow if Te has, which Te loses; else red (RFC 2697 section 3). In aware mode green needs a green
/// packet, and yellow one that isn't red; in blind mode each packet counts as green.
pub(crate) fn judged(meter: &SrTcm, buckets: Buckets, octets: u32, pre: Colour) -> (Colour, Buckets)
    ensures { (result.0, levels_of result.1) ≡ judged_packet (levels_of buckets) octets (counted meter.now.aware pre) }
{
    let mut next = buckets;
    let pre = if meter.aware() { pre } else { Colour::Green };
    if pre == Colour::Green && next.committed.fits(octets, true) {
        next.committed.spend(octets);
        (Colour::Green, next)
    } else if pre != Colour::Red && next.excess.fits(octets, true) {
        next.excess.spend(octets);
        (Colour::Yellow, next)
    } else {
        (Colour::Red, next)
    }
}
