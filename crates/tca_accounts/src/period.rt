//! Which period a time is in.
ghost use Rattle.std.specs.Prelude.{◌≡◌, ◌/◌, ◌<◌};

use std::marker::Model;

/// The length of a period, and the period that was found last. A time of that period is found without a division.
#[derive(Drop)]
pub struct Period {
    length: u64,
    index: u64,
    start: u64,
}

impl Model for Period {
    ghost use Rattle.std.specs.Prelude.{ℕ, ◌≡◌, ◌*◌, ◌<◌};

    ghost Value = { ℕ };

    ghost view = { λ p. p.length };

    ghost invariant = { λ p. (0 < p.length) × (p.start ≡ p.index * p.length) };
}

impl Period {
    /// Periods of this length, in milliseconds.
    pub fn new(length: u64) -> Period
        requires { 0 < length }
        ensures { result ≡ length }
    {
        Period {
            length,
            index: 0,
            start: 0,
        }
    }

    /// Which period a time is in: the time divided by the length of a period, rounded down.
    pub fn index_of(&mut self, time: u64) -> u64
        ensures index { result ≡ time / self.old }
        ensures length { self.new ≡ self.old }
        ensures some { 0 < self.old }
    {
        if time < self.start || time - self.start >= self.length {
            self.index = time / self.length;
            self.start = self.index * self.length;
        }
        self.index
    }
}
