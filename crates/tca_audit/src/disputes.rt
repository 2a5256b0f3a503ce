//! Which identities are disputed.
ghost use Rattle.std.specs.Prelude.{◌≡◌, ◌≤◌, IfOk, IsTrue, drop, length, map};
ghost use Rattle.std.specs.List.Sorted.{IsStrictlySortedBy};
ghost use Rattle.tca_join.specs.Sets.{has};
ghost use Rattle.tca_report.specs.report.Identities.{identity_cmp, identity_of};
ghost use Rattle.tca_log.specs.Disputes.{disputed};
ghost use Rattle.tca_audit.specs.inside.Repeats.{begins_with, repeats};

use std::alloc::{AllocError, Global};
use tca_report::{Identity, Report};

/// The identities that more than one of these reports has, ascending. `AllocError` comes where a growth was refused.
pub(crate) fn disputed_identities(
    alloc: Global,
    reports: &[Report],
) -> Result<Vec<Identity>, AllocError>
    ensures disputed { IfOk result (λ list. list.items ≡ disputed reports.now) }
    ensures few { IfOk result (λ list. length list.items ≤ length reports.now) }
{
    if identities_ascend(reports) {
        return Ok(Vec::new(alloc));
    }
    let mut identities = identities_of(alloc, reports)?;
    identities.sort_unstable();
    repeated(alloc, &identities)
}

/// Whether an identity is among some that ascend.
pub(crate) fn is_among(identities: &[Identity], identity: Identity) -> bool
    requires { IsStrictlySortedBy identity_cmp identities.now }
    ensures { result ≡ has identity_cmp identities.now identity }
{
    identities.binary_search(&identity).is_ok()
}

// Whether each report's identity is below the next one's. Then no two have one identity, and no list of them is needed.
fn identities_ascend(reports: &[Report]) -> bool
    ensures { IsTrue result → IsStrictlySortedBy identity_cmp (map identity_of reports.now) }
{
    for at in 1..reports.len() {
        if reports[at].identity() <= reports[at - 1].identity() {
            return false;
        }
    }
    true
}

// The identity of each report.
fn identities_of(alloc: Global, reports: &[Report]) -> Result<Vec<Identity>, AllocError>
    ensures { IfOk result (λ list. list.items ≡ map identity_of reports.now) }
{
    let mut list = Vec::with_capacity(alloc, reports.len())?;
    for report in reports {
        list.push(report.identity())?;
    }
    Ok(list)
}

// The identities that stand more than once in a sorted list, each once: an identity is taken at the last place but one
// where it stands.
fn repeated(alloc: Global, sorted: &[Identity]) -> Result<Vec<Identity>, AllocError>
    ensures repeats { IfOk result (λ list. list.items ≡ repeats sorted.now) }
    ensures few { IfOk result (λ list. length list.items ≤ length sorted.now) }
{
    let mut list = Vec::new(alloc);
    for at in 0..sorted.len() {
        let identity = sorted[at];
        if stands_at(sorted, at + 1, identity) && !stands_at(sorted, at + 2, identity) {
            list.push(identity)?;
        }
    }
    Ok(list)
}

// Whether an identity stands at a place.
fn stands_at(list: &[Identity], at: usize, identity: Identity) -> bool
    ensures { result ≡ begins_with identity (drop at list.now) }
{
    at < list.len() && identity == list[at]
}
