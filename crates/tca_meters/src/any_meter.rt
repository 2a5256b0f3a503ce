//! One meter of the three kinds.
use crate::colour::Colour;
use crate::levels::Levels;
use crate::meter::Meter;
use crate::rfc4115::Rfc4115;
use crate::srtcm::SrTcm;
use crate::trtcm::TrTcm;

/// A meter of one of the three kinds.
#[derive(Clone, Copy, Debug, PartialEq, Eq)]
pub enum AnyMeter {
    /// RFC 2697.
    SrTcm(SrTcm),
    /// RFC 2698.
    TrTcm(TrTcm),
    /// RFC 4115.
    Rfc4115(Rfc4115),
}

impl From<SrTcm> for AnyMeter {
    ghost use Rattle.std.specs.Prelude.{◌≡◌};
    ghost use Rattle.tca_meters.specs.declared.any_meter.AnyMeter.TheVariants as kind;

    ghost from_gives = { λ meter any. any ≡ kind.SrTcm meter };

    fn from(meter: SrTcm) -> AnyMeter {
        AnyMeter::SrTcm(meter)
    }
}

impl From<TrTcm> for AnyMeter {
    ghost use Rattle.std.specs.Prelude.{◌≡◌};
    ghost use Rattle.tca_meters.specs.declared.any_meter.AnyMeter.TheVariants as kind;

    ghost from_gives = { λ meter any. any ≡ kind.TrTcm meter };

    fn from(meter: TrTcm) -> AnyMeter {
        AnyMeter::TrTcm(meter)
    }
}

impl From<Rfc4115> for AnyMeter {
    ghost use Rattle.std.specs.Prelude.{◌≡◌};
    ghost use Rattle.tca_meters.specs.declared.any_meter.AnyMeter.TheVariants as kind;

    ghost from_gives = { λ meter any. any ≡ kind.Rfc4115 meter };

    fn from(meter: Rfc4115) -> AnyMeter {
        AnyMeter::Rfc4115(meter)
    }
}

impl Meter for AnyMeter {
    type State = Levels;

    ghost use Rattle.tca_meters.specs.AnyMeters.{any_rule, is_aware, IsWithinSizes};
    ghost use Rattle.tca_meters.specs.laws.AnyMeterLaws as laws;

    ghost rule = { any_rule };

    ghost within = { IsWithinSizes };

    ghost aware = { λ m s. is_aware m };

    ghost additive = { laws.additive };

    ghost sizes = { laws.sizes };

    ghost never_betters = { laws.never_betters };

    ghost blind = { laws.blind };

    ghost red_keeps = { laws.red_keeps };

    fn start(&self) -> Levels {
        match self {
            AnyMeter::SrTcm(meter) => meter.start(),
            AnyMeter::TrTcm(meter) => meter.start(),
            AnyMeter::Rfc4115(meter) => meter.start(),
        }
    }

    fn advance(&self, state: Levels, from: u64, to: u64) -> Levels {
        match self {
            AnyMeter::SrTcm(meter) => meter.advance(state, from, to),
            AnyMeter::TrTcm(meter) => meter.advance(state, from, to),
            AnyMeter::Rfc4115(meter) => meter.advance(state, from, to),
        }
    }

    fn offer(&self, state: Levels, octets: u32, pre: Colour) -> (Colour, Levels) {
        match self {
            AnyMeter::SrTcm(meter) => meter.offer(state, octets, pre),
            AnyMeter::TrTcm(meter) => meter.offer(state, octets, pre),
            AnyMeter::Rfc4115(meter) => meter.offer(state, octets, pre),
        }
    }

    // The kind is matched once for both.
    fn step(&self, state: &mut Levels, last: u64, time: u64, octets: u32, pre: Colour) -> Colour {
        match self {
            AnyMeter::SrTcm(meter) => meter.step(state, last, time, octets, pre),
            AnyMeter::TrTcm(meter) => meter.step(state, last, time, octets, pre),
            AnyMeter::Rfc4115(meter) => meter.step(state, last, time, octets, pre),
        }
    }
}
