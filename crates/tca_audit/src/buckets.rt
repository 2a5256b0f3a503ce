//! Buckets of tokens. A token stands for one octet of an IP packet.
ghost use Rattle.std.specs.Prelude.{◌≡◌, ◌<◌, ◌≤◌, MatchBool};
ghost use Rattle.tca_buckets.specs.Buckets.{after_spending, fits, full_bucket, one_more};

use std::marker::Model;

/// A bucket: the tokens in it, and how many it has room for.
#[derive(Clone, Copy)]
pub(crate) struct Bucket {
    tokens: u64,
    size: u64,
}

impl Model for Bucket {
    ghost use Rattle.std.specs.Prelude.{◌≤◌};
    ghost use Rattle.tca_buckets.specs.Buckets.{TokenBucket};

    ghost Value = { TokenBucket };

    ghost view = { λ b. record { level = b.tokens; cap = b.size } };

    ghost invariant = { λ b. b.tokens ≤ b.size };

    ghost inverse = { λ b. record { tokens = b.level; size = b.cap } };
}

/// The two buckets of a meter.
#[derive(Clone, Copy)]
pub(crate) struct Buckets {
    pub(crate) committed: Bucket,
    /// The excess bucket; in RFC 2698 the peak bucket.
    pub(crate) excess: Bucket,
}

impl Bucket {
    /// A bucket of this size with all the tokens that it has room for.
    pub(crate) fn full(size: u64) -> Bucket
        ensures { result ≡ full_bucket size }
    {
        Bucket { tokens: size, size }
    }

    /// Whether there is no room for a token.
    pub(crate) fn is_full(&self) -> bool
        ensures { MatchBool result (self.now.level ≡ self.now.cap) (self.now.level < self.now.cap) }
    {
        self.tokens == self.size
    }

    /// Lets a token in.
    pub(crate) fn gain(&mut self)
        requires { self.old.level < self.old.cap }
        ensures { self.new ≡ one_more self.old }
    {
        self.tokens += 1;
    }

    /// Whether there is a token for each octet; without `exact` one has to be left over.
    pub(crate) fn fits(&self, octets: u32, exact: bool) -> bool
        ensures { result ≡ fits self.now octets exact }
    {
        if exact {
            octets as u64 <= self.tokens
        } else {
            (octets as u64) < self.tokens
        }
    }

    /// Takes a token out for each octet.
    pub(crate) fn spend(&mut self, octets: u32)
        requires { octets ≤ self.old.level }
        ensures { self.new ≡ after_spending self.old octets }
    {
        self.tokens -= octets as u64;
    }
}
