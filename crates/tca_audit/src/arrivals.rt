//! When the tokens of a rate come. Rates are in tokens a second, times in milliseconds: token `k`, counted from 1,
//! comes at the least millisecond `t` at which `rate * t` is at least `1000 * k`, so by a time `t` the tokens up to
//! `rate * t / 1000` have come.
ghost use Rattle.std.specs.Prelude.{◌≡◌, ◌⊎◌, ◌+◌, ◌<◌, ◌≤◌, ◌*◌, ◌/◌};
ghost use Rattle.tca_buckets.specs.Buckets.{gain, repeated};
ghost use Rattle.tca_buckets.specs.Tokens.{due, most_rate};
ghost use Rattle.tca_report.specs.report.Reports.{time_end};

use crate::buckets::Bucket;

/// The number of the first token that comes after a time.
pub(crate) fn first_after(rate: u64, time: u64) -> u128
    requires rate { rate ≤ most_rate }
    requires time { time < time_end }
    ensures { result ≡ rate * time / 1000 + 1 }
{
    rate as u128 * time as u128 / 1000 + 1
}

/// Lets tokens in, one at a time: from one on, while the next has come by a time and the bucket has room. Answers the first token
/// that was not let in.
pub(crate) fn let_in(bucket: &mut Bucket, token: u128, rate: u64, time: u64) -> u128
    requires rate { rate ≤ most_rate }
    requires time { time < time_end }
    requires order { token ≤ rate * time / 1000 + 1 }
    ensures order { (token ≤ result) × (result ≤ rate * time / 1000 + 1) }
    ensures level { bucket.new.level + token ≡ bucket.old.level + result }
    ensures size { bucket.new.cap ≡ bucket.old.cap }
    ensures within { bucket.new.level ≤ bucket.new.cap }
    ensures end { (result ≡ rate * time / 1000 + 1) ⊎ (bucket.new.level ≡ bucket.new.cap) }
{
    let thousandths = rate as u128 * time as u128;
    let mut next = token;
    while !bucket.is_full() && 1000 * next <= thousandths {
        bucket.gain();
        next += 1;
    }
    next
}

/// A bucket once the tokens that come after `from` and at or before `to` were let in, one at a time. Those that it
/// has no room for are lost.
pub(crate) fn filled(bucket: Bucket, rate: u64, from: u64, to: u64) -> Bucket
    requires rate { rate ≤ most_rate }
    requires order { from ≤ to }
    requires time { to < time_end }
    ensures { result ≡ repeated (due rate from to) gain bucket }
{
    let mut next = bucket;
    let first = first_after(rate, from);
    let _ = let_in(&mut next, first, rate, to);
    next
}
