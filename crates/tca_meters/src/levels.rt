//! A meter's state: the levels of its two buckets.
ghost use Rattle.std.specs.Prelude.{◌≡◌};
ghost use Rattle.tca_meters.specs.Levels.{full_levels, filled_apart, committed_or_excess};

use crate::colour::Colour;
use tca_buckets::Bucket;

/// The state of a meter: its committed bucket, and the one beside it.
#[derive(Clone, Copy, Debug, PartialEq, Eq)]
pub struct Levels {
    pub committed: Bucket,
    /// The excess bucket; in RFC 2698 the peak bucket.
    pub excess: Bucket,
}

impl Levels {
    /// Full buckets of these sizes.
    pub(crate) fn full(committed: u64, excess: u64) -> Levels
        ensures { result ≡ full_levels committed excess }
    {
        Levels {
            committed: Bucket::full(committed),
            excess: Bucket::full(excess),
        }
    }

    /// The levels after so many tokens of two streams, each for its own bucket: a token that its
    /// bucket has no room for is lost.
    pub(crate) fn filled(self, committed: u128, excess: u128) -> Levels
        ensures { result ≡ filled_apart committed excess self }
    {
        let mut next = self;
        next.committed.fill(committed);
        next.excess.fill(excess);
        next
    }

    /// The colour of a packet that takes committed tokens, or else excess tokens, and the levels after
    /// it. A yellow packet is tried on the excess bucket alone, and a red one on none. With `exact` a
    /// packet may take all tokens of a bucket.
    pub(crate) fn offered(self, octets: u32, pre: Colour, exact: bool) -> (Colour, Levels)
        ensures { result ≡ committed_or_excess exact self octets pre }
    {
        let mut next = self;
        if pre == Colour::Green && self.committed.fits(octets, exact) {
            next.committed.spend(octets);
            (Colour::Green, next)
        } else if pre != Colour::Red && self.excess.fits(octets, exact) {
            next.excess.spend(octets);
            (Colour::Yellow, next)
        } else {
            (Colour::Red, self)
        }
    }
}
