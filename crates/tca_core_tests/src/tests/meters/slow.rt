//! The meters by single tokens and milliseconds, each found by the words of its definition: slow, and
//! to compare with.
use tca_meters::Colour;

/// Whether by this time there were tokens up to this one, counted from 1.
fn has_come(rate: u64, token: u64, time: u64) -> bool {
    let made = (rate as u128).wrapping_mul(time as u128);
    made >= 1000 * token as u128
}

/// Whether the token arrives at this millisecond: it has come, and at none before.
pub(super) fn arrives_at(rate: u64, token: u64, time: u64) -> bool {
    has_come(rate, token, time) && (0..time).all(|earlier| !has_come(rate, token, earlier))
}

/// How many of the first `most` tokens arrive after `from` and at or before `to`.
pub(super) fn count(rate: u64, from: u64, to: u64, most: u64) -> u128 {
    let mut found = 0u128;
    for time in from..to {
        for token in 0..most {
            if arrives_at(rate, token + 1, time + 1) {
                found = found.wrapping_add(1);
            }
        }
    }
    found
}

/// How many tokens have come by a time, the last of them at the least time for which it is one.
pub(super) fn come(rate: u64, time: u64) -> u64 {
    rate.saturating_mul(time) / 1000
}

/// By which rules tokens come in and packets are judged.
#[derive(Clone, Copy)]
pub enum Kind {
    Rfc2697,
    Rfc2698,
    Rfc4115 { exact_fit: bool },
}

/// A meter with what its buckets have. The second bucket is the excess or the peak bucket, and has a
/// rate but in RFC 2697.
#[derive(Clone, Copy)]
pub struct Slow {
    pub kind: Kind,
    pub cir: u64,
    pub cbs: u64,
    pub second_rate: u64,
    pub second_size: u64,
    pub aware: bool,
    pub committed: u64,
    pub second: u64,
}

impl Slow {
    /// A meter with full buckets. Each pair is the rate and the size of a bucket.
    pub fn full(
        kind: Kind,
        (cir, cbs): (u64, u64),
        (second_rate, second_size): (u64, u64),
        aware: bool,
    ) -> Slow {
        Slow {
            kind,
            cir,
            cbs,
            second_rate,
            second_size,
            aware,
            committed: cbs,
            second: second_size,
        }
    }

    fn let_in_committed(&mut self) {
        if self.committed < self.cbs {
            self.committed += 1;
        } else if let Kind::Rfc2697 = self.kind {
            self.let_in_second();
        }
    }

    fn let_in_second(&mut self) {
        if self.second < self.second_size {
            self.second += 1;
        }
    }

    /// Lets in each of the first `most` tokens at its millisecond.
    pub(super) fn wait(&mut self, from: u64, to: u64, most: u64) {
        for time in from..to {
            for token in 0..most {
                if arrives_at(self.cir, token + 1, time + 1) {
                    self.let_in_committed();
                }
                if arrives_at(self.second_rate, token + 1, time + 1) {
                    self.let_in_second();
                }
            }
        }
    }

    /// Lets in the tokens of one millisecond, one after the other, at a time that may be late.
    pub fn let_in_at(&mut self, time: u64) {
        let earlier = time.saturating_sub(1);
        for _ in come(self.cir, earlier)..come(self.cir, time) {
            self.let_in_committed();
        }
        for _ in come(self.second_rate, earlier)..come(self.second_rate, time) {
            self.let_in_second();
        }
    }

    /// Judges a packet of so many octets that comes with this colour, and takes its tokens.
    pub fn take(&mut self, octets: u64, pre: Colour) -> Colour {
        let pre = if self.aware { pre } else { Colour::Green };
        match self.kind {
            Kind::Rfc2697 => self.take_one(octets, octets, pre),
            Kind::Rfc2698 => self.take_both(octets, pre),
            Kind::Rfc4115 { exact_fit: true } => self.take_one(octets, octets, pre),
            Kind::Rfc4115 { exact_fit: false } => {
                self.take_one(octets, octets.wrapping_add(1), pre)
            }
        }
    }

    /// Of the committed bucket or the second one, where it has `needed` tokens.
    fn take_one(&mut self, octets: u64, needed: u64, pre: Colour) -> Colour {
        match pre {
            Colour::Green if self.committed >= needed => {
                self.committed = self.committed.wrapping_sub(octets);
                Colour::Green
            }
            Colour::Green | Colour::Yellow if self.second >= needed => {
                self.second = self.second.wrapping_sub(octets);
                Colour::Yellow
            }
            _ => Colour::Red,
        }
    }

    /// Of the second bucket, and for green of the committed one too.
    fn take_both(&mut self, octets: u64, pre: Colour) -> Colour {
        match pre {
            Colour::Green if self.second >= octets && self.committed >= octets => {
                self.second -= octets;
                self.committed -= octets;
                Colour::Green
            }
            Colour::Green | Colour::Yellow if self.second >= octets => {
                self.second -= octets;
                Colour::Yellow
            }
            _ => Colour::Red,
        }
    }
}

/// Slow meters one after the other: that of now, and those that are to come, each with full buckets and the millisecond from which on
/// it takes packets.
#[derive(Clone, Copy)]
pub struct SlowTerms {
    pub now: Slow,
    pub later: [(u64, Slow); 3],
}

impl SlowTerms {
    /// Lets in each token at its millisecond, and goes on with full buckets where a meter begins.
    pub(super) fn wait(&mut self, from: u64, to: u64) {
        for time in from..to {
            self.now.let_in_at(time + 1);
            self.begin(time + 1);
        }
    }

    fn begin(&mut self, time: u64) {
        for (start, meter) in self.later {
            if start == time {
                self.now = meter;
            }
        }
    }
}
