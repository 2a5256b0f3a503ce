//! One bucket of tokens, and two of which the second gets what the first has no room for.
ghost use Rattle.std.specs.Prelude.{◌≡◌, ◌≤◌};
ghost use Rattle.tca_buckets.specs.Buckets.{bucket_of, full_bucket, fits, after_spending, repeated, gain, spill};

use std::marker::Model;

/// A bucket of tokens, which never has more of them than its size.
#[derive(Clone, Copy, Debug, PartialEq, Eq)]
pub struct Bucket {
    level: u64,
    cap: u64,
}

impl Model for Bucket {
    ghost use Rattle.std.specs.Prelude.{◌≤◌};
    ghost use Rattle.tca_buckets.specs.Buckets.{TokenBucket};

    ghost Value = { TokenBucket };

    ghost view = { λ b. record { level = b.level; cap = b.cap } };

    ghost invariant = { λ b. b.level ≤ b.cap };

    ghost inverse = { λ b. record { level = b.level; cap = b.cap } };
}

impl Bucket {
    /// A bucket of this size with as many tokens as it can have.
    pub fn full(cap: u64) -> Bucket
        ensures { result ≡ full_bucket cap }
    {
        Bucket { level: cap, cap }
    }

    /// A bucket with this many tokens; None where they are more than its size.
    pub fn new(level: u64, cap: u64) -> Option<Bucket>
        ensures { result ≡ bucket_of level cap }
    {
        if level <= cap {
            Some(Bucket { level, cap })
        } else {
            None
        }
    }

    /// How many tokens the bucket has.
    pub fn level(&self) -> u64
        ensures value { result ≡ self.now.level }
        ensures within { self.now.level ≤ self.now.cap }
    {
        self.level
    }

    /// The size of the bucket: how many tokens it can have.
    pub fn cap(&self) -> u64
        ensures value { result ≡ self.now.cap }
        ensures within { self.now.level ≤ self.now.cap }
    {
        self.cap
    }

    /// Whether a packet of so many octets fits. With `exact` the packet may take all tokens, as in
    /// RFC 2697 and RFC 2698 section 3; without it one token has to be left.
    pub fn fits(&self, octets: u32, exact: bool) -> bool
        ensures { result ≡ fits self.now octets exact }
    {
        if exact {
            octets as u64 <= self.level
        } else {
            (octets as u64) < self.level
        }
    }

    /// Takes a token for each octet.
    pub fn spend(&mut self, octets: u32)
        requires { octets ≤ self.old.level }
        ensures { self.new ≡ after_spending self.old octets }
    {
        self.level -= octets as u64;
    }

    /// Lets so many tokens in, one by one: each is lost once the bucket is full.
    pub fn fill(&mut self, tokens: u128)
        ensures { self.new ≡ repeated tokens gain self.old }
    {
        let room = (self.cap - self.level) as u128;
        self.level += tokens.min(room) as u64;
    }
}

/// Lets so many tokens in, one by one: each goes to the first bucket, to the second once the first is
/// full, and is lost once both are.
pub fn fill_spilling(first: &mut Bucket, second: &mut Bucket, tokens: u128)
    ensures { (first.new, second.new) ≡ repeated tokens spill (first.old, second.old) }
{
    let first_room = (first.cap - first.level) as u128;
    let second_room = (second.cap - second.level) as u128;
    let to_first = tokens.min(first_room);
    let to_second = (tokens - to_first).min(second_room);
    first.level += to_first as u64;
    second.level += to_second as u64;
}
