//! The meter of RFC 2698.
ghost use Rattle.std.specs.Prelude.{◌≡◌};
ghost use Rattle.tca_meters.specs.TrTcm.{IsTrTcm, trtcm_of};

use crate::colour::Colour;
use crate::fault::{MeterFault, in_range};
use crate::levels::Levels;
use crate::meter::Meter;
use std::marker::Model;
use tca_buckets::ticks;

/// The meter of RFC 2698, the two rate three color marker: tokens of the committed rate go to a
/// committed bucket, and those of the peak rate to a peak bucket.
#[derive(Clone, Copy, Debug, PartialEq, Eq)]
pub struct TrTcm {
    pir: u64,
    pbs: u64,
    cir: u64,
    cbs: u64,
    aware: bool,
}

impl Model for TrTcm {
    ghost use Rattle.tca_meters.specs.TrTcm.{TrTcmView, IsTrTcm};

    ghost Value = { TrTcmView };

    ghost view = { λ m. record { pir = m.pir; pbs = m.pbs; cir = m.cir; cbs = m.cbs; aware = m.aware } };

    ghost invariant = { λ m. IsTrTcm (record { pir = m.pir; pbs = m.pbs; cir = m.cir; cbs = m.cbs; aware = m.aware }) };

    ghost inverse = { λ m. record { pir = m.pir; pbs = m.pbs; cir = m.cir; cbs = m.cbs; aware = m.aware } };
}

impl TrTcm {
    /// A meter of these rates and sizes of the peak and the committed bucket; `aware` says whether
    /// precolours count. `NoBurst` where one of the sizes is 0, else `PeakBelowCommitted` where the
    /// peak rate is below the committed rate, else `RateRange` where one of the four is above
    /// 1,000,000,000,000.
    pub fn new(pir: u64, pbs: u64, cir: u64, cbs: u64, aware: bool) -> Result<TrTcm, MeterFault>
        ensures { result ≡ trtcm_of pir pbs cir cbs aware }
    {
        if pbs == 0 || cbs == 0 {
            return Err(MeterFault::NoBurst);
        }
        if pir < cir {
            return Err(MeterFault::PeakBelowCommitted);
        }
        if !(in_range(pir) && in_range(pbs) && in_range(cir) && in_range(cbs)) {
            return Err(MeterFault::RateRange);
        }
        Ok(TrTcm {
            pir,
            pbs,
            cir,
            cbs,
            aware,
        })
    }

    /// The peak information rate, in tokens per second.
    pub fn pir(&self) -> u64
        ensures value { result ≡ self.now.pir }
        ensures range { IsTrTcm self.now }
    {
        self.pir
    }

    /// The peak burst size, in tokens.
    pub fn pbs(&self) -> u64
        ensures value { result ≡ self.now.pbs }
        ensures range { IsTrTcm self.now }
    {
        self.pbs
    }

    /// The committed information rate, in tokens per second.
    pub fn cir(&self) -> u64
        ensures value { result ≡ self.now.cir }
        ensures range { IsTrTcm self.now }
    {
        self.cir
    }

    /// The committed burst size, in tokens.
    pub fn cbs(&self) -> u64
        ensures value { result ≡ self.now.cbs }
        ensures range { IsTrTcm self.now }
    {
        self.cbs
    }

    /// Whether precolours count.
    pub fn aware(&self) -> bool
        ensures value { result ≡ self.now.aware }
        ensures range { IsTrTcm self.now }
    {
        self.aware
    }
}

impl Meter for TrTcm {
    type State = Levels;

    ghost use Rattle.tca_meters.specs.TrTcm.{trtcm_rule, IsWithinSizes};
    ghost use Rattle.tca_meters.specs.laws.TrTcmLaws as laws;

    ghost rule = { trtcm_rule };

    ghost within = { IsWithinSizes };

    ghost aware = { λ m s. m.aware };

    ghost additive = { laws.additive };

    ghost sizes = { laws.sizes };

    ghost never_betters = { laws.never_betters };

    ghost blind = { laws.blind };

    ghost red_keeps = { laws.red_keeps };

    fn start(&self) -> Levels {
        Levels::full(self.cbs, self.pbs)
    }

    fn advance(&self, state: Levels, from: u64, to: u64) -> Levels {
        if from == to {
            return state;
        }
        state.filled(ticks(self.cir, from, to), ticks(self.pir, from, to))
    }

    fn offer(&self, state: Levels, octets: u32, pre: Colour) -> (Colour, Levels) {
        let pre = if self.aware { pre } else { Colour::Green };
        if pre == Colour::Red || !state.excess.fits(octets, true) {
            return (Colour::Red, state);
        }
        let mut next = state;
        next.excess.spend(octets);
        if pre == Colour::Yellow || !state.committed.fits(octets, true) {
            return (Colour::Yellow, next);
        }
        next.committed.spend(octets);
        (Colour::Green, next)
    }
}
