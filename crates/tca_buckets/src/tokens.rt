//! The tokens of a rate that arrive in an interval.
ghost use Rattle.std.specs.Prelude.{◌≡◌, ◌<◌, ◌≤◌};
ghost use Rattle.tca_buckets.specs.Tokens.{due, most_rate, time_end};

/// The tokens of a rate of `rate` tokens per second that arrive after `from` and at or before `to`,
/// both in milliseconds. Token `k`, counted from 1, arrives at the least millisecond `t` at which
/// `rate * t` is at least `1000 * k`; so adjoining intervals have together what the whole one has.
pub fn ticks(rate: u64, from: u64, to: u64) -> u128
    requires rate { rate ≤ most_rate }
    requires order { from ≤ to }
    requires time { to < time_end }
    ensures { result ≡ due rate from to }
{
    // Divisions of 128 bits are slow, so only the part of the rate below a token per millisecond
    // is divided, in 64 bits.
    let whole = rate / 1000;
    let part = rate % 1000;
    whole as u128 * (to - from) as u128 + (part * to / 1000 - part * from / 1000) as u128
}
