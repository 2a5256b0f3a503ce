//! A report in the order of identities.
ghost use Rattle.std.specs.Ordering.{is_eq};
ghost use Rattle.std.specs.Cmp;
ghost use Rattle.std.specs.Cmp.{eq_by_cmp_equiv, partial_order_from_agreeing_total, partial_equiv_from_equiv};
ghost use Rattle.std.proofs.Common.{refl, Some};
ghost use Rattle.std.proofs.lemmas.Cmp.{on_total};
ghost use Rattle.tca_report.specs.report.Identities.{identity_of, identity_total};
ghost use Rattle.tca_log.specs.Disputes.{by_identity_cmp};

use std::cmp::Ordering;
use tca_report::Report;

/// A report that is compared by its identity alone: two contents of one record tie.
#[derive(Clone, Copy, Debug)]
pub struct ByIdentity {
    pub report: Report,
}

impl PartialEq for ByIdentity {
    ghost eq = { λ a b. is_eq (by_identity_cmp a.report b.report) };

    ghost laws = { partial_equiv_from_equiv (eq_by_cmp_equiv (on_total (λ b. identity_of b.report) identity_total)) };

    fn eq(&self, other: &ByIdentity) -> bool {
        self.report.identity() == other.report.identity()
    }
}

impl Eq for ByIdentity {
    ghost laws = { eq_by_cmp_equiv (on_total (λ b. identity_of b.report) identity_total) };
}

impl PartialOrd for ByIdentity {
    ghost partial_cmp = { λ a b. Some (by_identity_cmp a.report b.report) };

    ghost laws = { partial_order_from_agreeing_total (λ a b. by_identity_cmp a.report b.report) (on_total (λ b. identity_of b.report) identity_total) (λ _ _. refl) (λ _ _. refl) };

    fn partial_cmp(&self, other: &ByIdentity) -> Option<Ordering> {
        Some(self.cmp(other))
    }
}

impl Ord for ByIdentity {
    ghost cmp = { λ a b. by_identity_cmp a.report b.report };

    ghost total = { on_total (λ b. identity_of b.report) identity_total };

    ghost matches_partial_cmp = { λ _ _. refl };

    ghost matches_eq = { λ _ _. refl };

    fn cmp(&self, other: &ByIdentity) -> Ordering {
        self.report.identity().cmp(&other.report.identity())
    }
}
