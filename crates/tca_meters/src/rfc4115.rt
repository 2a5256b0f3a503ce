//! The meter of RFC 4115.
ghost use Rattle.std.specs.Prelude.{◌≡◌};
ghost use Rattle.tca_meters.specs.Rfc4115.{IsRfc4115, rfc4115_of};

use crate::colour::Colour;
use crate::fault::{MeterFault, in_range};
use crate::levels::Levels;
use crate::meter::Meter;
use std::marker::Model;
use tca_buckets::ticks;

/// The meter of RFC 4115: tokens of the committed rate go to a committed bucket, and those of the
/// excess rate to an excess bucket.
#[derive(Clone, Copy, Debug, PartialEq, Eq)]
pub struct Rfc4115 {
    cir: u64,
    cbs: u64,
    eir: u64,
    ebs: u64,
    exact_fit: bool,
    aware: bool,
}

impl Model for Rfc4115 {
    ghost use Rattle.tca_meters.specs.Rfc4115.{Rfc4115View, IsRfc4115};

    ghost Value = { Rfc4115View };

    ghost view = { λ m. record { cir = m.cir; cbs = m.cbs; eir = m.eir; ebs = m.ebs; exact_fit = m.exact_fit; aware = m.aware } };

    ghost invariant = { λ m. IsRfc4115 (record { cir = m.cir; cbs = m.cbs; eir = m.eir; ebs = m.ebs; exact_fit = m.exact_fit; aware = m.aware }) };

    ghost inverse = { λ m. record { cir = m.cir; cbs = m.cbs; eir = m.eir; ebs = m.ebs; exact_fit = m.exact_fit; aware = m.aware } };
}

impl Rfc4115 {
    /// A meter of these rates and sizes of the committed and the excess bucket; with `exact_fit` a
    /// packet may take all tokens of a bucket, without it one has to be left; `aware` says whether
    /// precolours count. `NoBurst` where both sizes are 0, else `RateRange` where one of the four is
    /// above 1,000,000,000,000. Rates are in octets per second, where RFC 4115 has bits.
    pub fn new(
        cir: u64,
        cbs: u64,
        eir: u64,
        ebs: u64,
        exact_fit: bool,
        aware: bool,
    ) -> Result<Rfc4115, MeterFault>
        ensures { result ≡ rfc4115_of cir cbs eir ebs exact_fit aware }
    {
        if cbs == 0 && ebs == 0 {
            return Err(MeterFault::NoBurst);
        }
        if !(in_range(cir) && in_range(cbs) && in_range(eir) && in_range(ebs)) {
            return Err(MeterFault::RateRange);
        }
        Ok(Rfc4115 {
            cir,
            cbs,
            eir,
            ebs,
            exact_fit,
            aware,
        })
    }

    /// The committed information rate, in tokens per second.
    pub fn cir(&self) -> u64
        ensures value { result ≡ self.now.cir }
        ensures range { IsRfc4115 self.now }
    {
        self.cir
    }

    /// The committed burst size, in tokens.
    pub fn cbs(&self) -> u64
        ensures value { result ≡ self.now.cbs }
        ensures range { IsRfc4115 self.now }
    {
        self.cbs
    }

    /// The excess information rate, in tokens per second.
    pub fn eir(&self) -> u64
        ensures value { result ≡ self.now.eir }
        ensures range { IsRfc4115 self.now }
    {
        self.eir
    }

    /// The excess burst size, in tokens.
    pub fn ebs(&self) -> u64
        ensures value { result ≡ self.now.ebs }
        ensures range { IsRfc4115 self.now }
    {
        self.ebs
    }

    /// Whether a packet may take all tokens of a bucket; else one has to be left.
    pub fn exact_fit(&self) -> bool
        ensures value { result ≡ self.now.exact_fit }
        ensures range { IsRfc4115 self.now }
    {
        self.exact_fit
    }

    /// Whether precolours count.
    pub fn aware(&self) -> bool
        ensures value { result ≡ self.now.aware }
        ensures range { IsRfc4115 self.now }
    {
        self.aware
    }
}

impl Meter for Rfc4115 {
    type State = Levels;

    ghost use Rattle.tca_meters.specs.Rfc4115.{rfc4115_rule, IsWithinSizes};
    ghost use Rattle.tca_meters.specs.laws.Rfc4115Laws as laws;

    ghost rule = { rfc4115_rule };

    ghost within = { IsWithinSizes };

    ghost aware = { λ m s. m.aware };

    ghost additive = { laws.additive };

    ghost sizes = { laws.sizes };

    ghost never_betters = { laws.never_betters };

    ghost blind = { laws.blind };

    ghost red_keeps = { laws.red_keeps };

    fn start(&self) -> Levels {
        Levels::full(self.cbs, self.ebs)
    }

    fn advance(&self, state: Levels, from: u64, to: u64) -> Levels {
        if from == to {
            return state;
        }
        state.filled(ticks(self.cir, from, to), ticks(self.eir, from, to))
    }

    fn offer(&self, state: Levels, octets: u32, pre: Colour) -> (Colour, Levels) {
        let pre = if self.aware { pre } else { Colour::Green };
        state.offered(octets, pre, self.exact_fit)
    }
}
