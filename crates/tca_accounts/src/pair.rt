//! An interface of an observation domain (RFC 7011 section 2), as a key.
ghost use Rattle.std.specs.Prelude.{◌≡◌, ◌+◌, ◌*◌, ◌<◌};
ghost use Rattle.std.specs.Ordering.{is_eq};
ghost use Rattle.std.specs.Cmp;
ghost use Rattle.std.specs.Cmp.{eq_by_cmp_equiv, partial_order_from_agreeing_total, partial_equiv_from_equiv};
ghost use Rattle.std.proofs.Common.{refl, Some};
ghost use Rattle.tca_accounts.specs.inside.Owners.{pair_cmp, pair_total, slot_of};
ghost use Rattle.tca_accounts.specs.Plans.{pair_of};

use std::cmp::Ordering;
use std::marker::Model;
use tca_report::Report;

/// How many slots a table of pairs has: one for each pair of the largest plan.
pub(crate) const SLOTS: usize = 4096;

// 2^64 divided by the golden ratio, as an odd number: its products spread numbers that are near to one another.
const SPREAD: u64 = 11_400_714_819_323_198_485;

/// An observation domain and one of its interfaces: the pair that an account owns.
#[derive(Clone, Copy, Debug)]
pub(crate) struct Pair {
    domain: u32,
    iface: u32,
}

impl Model for Pair {
    ghost use Rattle.std.specs.Prelude.{ℕ};

    ghost Value = { ℕ × ℕ };

    ghost view = { λ p. (p.domain, p.iface) };

    ghost inverse = { λ p. record { domain = p.0; iface = p.1 } };
}

impl Pair {
    /// The pair of a domain and an interface.
    pub(crate) fn new(pair: (u32, u32)) -> Pair
        ensures { result ≡ pair }
    {
        let (domain, iface) = pair;
        Pair { domain, iface }
    }

    /// The pair of a report.
    pub(crate) fn of(report: &Report) -> Pair
        ensures { result ≡ pair_of report.now }
    {
        Pair {
            domain: report.identity().domain,
            iface: report.content().iface,
        }
    }

    /// The slot of the pair in a table of `SLOTS`, by the highest bits of a product that spreads near pairs.
    pub(crate) fn slot(&self) -> usize
        ensures value { result ≡ slot_of self.now }
        ensures below { result < 4096 }
    {
        (self.one_number().wrapping_mul(SPREAD) >> 52) as usize
    }

    // The pair as one number, in the order of pairs: one is looked up for every report, and that is comparing.
    fn one_number(&self) -> u64
        ensures value { result ≡ self.now.0 * 4294967296 + self.now.1 }
        ensures below { self.now.1 < 4294967296 }
    {
        self.domain as u64 * 4_294_967_296 + self.iface as u64
    }
}

impl PartialEq for Pair {
    ghost eq = { λ a b. is_eq (pair_cmp a b) };

    ghost laws = { partial_equiv_from_equiv (eq_by_cmp_equiv pair_total) };

    fn eq(&self, other: &Pair) -> bool {
        self.cmp(other) == Ordering::Equal
    }
}

impl Eq for Pair {
    ghost laws = { eq_by_cmp_equiv pair_total };
}

impl PartialOrd for Pair {
    ghost partial_cmp = { λ a b. Some (pair_cmp a b) };

    ghost laws = { partial_order_from_agreeing_total pair_cmp pair_total (λ _ _. refl) (λ _ _. refl) };

    fn partial_cmp(&self, other: &Pair) -> Option<Ordering> {
        Some(self.cmp(other))
    }
}

impl Ord for Pair {
    ghost cmp = { pair_cmp };

    ghost total = { pair_total };

    ghost matches_partial_cmp = { λ _ _. refl };

    ghost matches_eq = { λ _ _. refl };

    fn cmp(&self, other: &Pair) -> Ordering {
        self.one_number().cmp(&other.one_number())
    }
}
