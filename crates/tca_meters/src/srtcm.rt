//! The meter of RFC 2697.
ghost use Rattle.std.specs.Prelude.{◌≡◌};
ghost use Rattle.tca_meters.specs.SrTcm.{IsSrTcm, srtcm_of};

use crate::colour::Colour;
use crate::fault::{MeterFault, in_range};
use crate::levels::Levels;
use crate::meter::Meter;
use std::marker::Model;
use tca_buckets::{fill_spilling, ticks};

/// The meter of RFC 2697, the single rate three color marker: tokens of one rate go to a committed
/// bucket, and those that it has no room for to an excess bucket.
#[derive(Clone, Copy, Debug, PartialEq, Eq)]
pub struct SrTcm {
    cir: u64,
    cbs: u64,
    ebs: u64,
    aware: bool,
}

impl Model for SrTcm {
    ghost use Rattle.tca_meters.specs.SrTcm.{SrTcmView, IsSrTcm};

    ghost Value = { SrTcmView };

    ghost view = { λ m. record { cir = m.cir; cbs = m.cbs; ebs = m.ebs; aware = m.aware } };

    ghost invariant = { λ m. IsSrTcm (record { cir = m.cir; cbs = m.cbs; ebs = m.ebs; aware = m.aware }) };

    ghost inverse = { λ m. record { cir = m.cir; cbs = m.cbs; ebs = m.ebs; aware = m.aware } };
}

impl SrTcm {
    /// A meter of this committed rate and these sizes of the committed and the excess bucket; `aware`
    /// says whether precolours count. `NoBurst` where both sizes are 0, else `RateRange` where one of
    /// the three is above 1,000,000,000,000.
    pub fn new(cir: u64, cbs: u64, ebs: u64, aware: bool) -> Result<SrTcm, MeterFault>
        ensures { result ≡ srtcm_of cir cbs ebs aware }
    {
        if cbs == 0 && ebs == 0 {
            return Err(MeterFault::NoBurst);
        }
        if !(in_range(cir) && in_range(cbs) && in_range(ebs)) {
            return Err(MeterFault::RateRange);
        }
        Ok(SrTcm {
            cir,
            cbs,
            ebs,
            aware,
        })
    }

    /// The committed information rate, in tokens per second.
    pub fn cir(&self) -> u64
        ensures value { result ≡ self.now.cir }
        ensures range { IsSrTcm self.now }
    {
        self.cir
    }

    /// The committed burst size, in tokens.
    pub fn cbs(&self) -> u64
        ensures value { result ≡ self.now.cbs }
        ensures range { IsSrTcm self.now }
    {
        self.cbs
    }

    /// The excess burst size, in tokens.
    pub fn ebs(&self) -> u64
        ensures value { result ≡ self.now.ebs }
        ensures range { IsSrTcm self.now }
    {
        self.ebs
    }

    /// Whether precolours count.
    pub fn aware(&self) -> bool
        ensures value { result ≡ self.now.aware }
        ensures range { IsSrTcm self.now }
    {
        self.aware
    }
}

impl Meter for SrTcm {
    type State = Levels;

    ghost use Rattle.tca_meters.specs.SrTcm.{srtcm_rule, IsWithinSizes};
    ghost use Rattle.tca_meters.specs.laws.SrTcmLaws as laws;

    ghost rule = { srtcm_rule };

    ghost within = { IsWithinSizes };

    ghost aware = { λ m s. m.aware };

    ghost additive = { laws.additive };

    ghost sizes = { laws.sizes };

    ghost never_betters = { laws.never_betters };

    ghost blind = { laws.blind };

    ghost red_keeps = { laws.red_keeps };

    fn start(&self) -> Levels {
        Levels::full(self.cbs, self.ebs)
    }

    fn advance(&self, state: Levels, from: u64, to: u64) -> Levels {
        if from == to {
            return state;
        }
        let mut next = state;
        let tokens = ticks(self.cir, from, to);
        fill_spilling(&mut next.committed, &mut next.excess, tokens);
        next
    }

    fn offer(&self, state: Levels, octets: u32, pre: Colour) -> (Colour, Levels) {
        let pre = if self.aware { pre } else { Colour::Green };
        state.offered(octets, pre, true)
    }
}
