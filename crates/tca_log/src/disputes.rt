//! Which identities of a set of reports are disputed.
ghost use Rattle.std.specs.Prelude.{◌≡◌, ◌≤◌, IfOk, IsTrue, [], length, nat_lt};
ghost use Rattle.std.specs.List.Sorted.{IsSorted};
ghost use Rattle.tca_join.specs.Sets.{has};
ghost use Rattle.tca_report.specs.declared.report.Identity.{Identity};
ghost use Rattle.tca_report.specs.report.Identities.{identity_cmp};
ghost use Rattle.tca_log.specs.inside.Additions.{times};
ghost use Rattle.tca_log.specs.inside.Logs.{count_at};
ghost use Rattle.tca_log.specs.Disputes.{disputed};
ghost use Rattle.tca_log.specs.Rows.Ordered.{most_rows};

use crate::ascending::identities_ascend;
use crate::marks::repeated_by_place;
use crate::numbers::perhaps_repeated;
use crate::rows::Rows;
use std::alloc::{AllocError, Allocator};
use tca_report::{Identity, Report};

/// The identities that two or more of the reports have. It keeps nothing of the others.
pub(crate) fn disputes_of<A: Allocator + Copy>(
    reports: &Rows<Report, A>,
) -> Result<Rows<Identity, A>, AllocError>
    requires { length reports.now.rows ≤ most_rows }
    ensures { IfOk result (λ all. all.rows ≡ disputed reports.now.rows) }
{
    let alloc = reports.allocator();
    if identities_ascend(reports) {
        return Ok(Rows::new(alloc));
    }
    let mut disputed = repeated_of(alloc, reports)?;
    disputed.sort_unstable();
    disputed.dedup();
    Rows::of_ascending(alloc, disputed)
}

/// The same, where it may be known that no two have one identity.
pub(crate) fn disputes_where<A: Allocator + Copy>(
    reports: &Rows<Report, A>,
    alone: bool,
) -> Result<Rows<Identity, A>, AllocError>
    requires few { length reports.now.rows ≤ most_rows }
    requires alone { IsTrue alone → disputed reports.now.rows ≡ [] }
    ensures { IfOk result (λ all. all.rows ≡ disputed reports.now.rows) }
{
    if alone {
        return Ok(Rows::new(reports.allocator()));
    }
    disputes_of(reports)
}

// Each identity that two or more of the reports have: where places lie close together by marks, else by sorting those that may be there
// twice.
fn repeated_of<A: Allocator + Copy>(
    alloc: A,
    reports: &Rows<Report, A>,
) -> Result<Vec<Identity, A>, AllocError>
    requires { length reports.now.rows ≤ most_rows }
    ensures { IfOk result (λ again. (i : Identity) → has identity_cmp again.items i ≡ nat_lt 1 (count_at reports.now.rows i)) }
{
    if let Some(marked) = repeated_by_place(reports)? {
        return Ok(marked);
    }
    let mut identities = perhaps_repeated(reports)?;
    identities.sort_unstable();
    let twice = repeated(alloc, &identities)?;
    Ok(twice)
}

// Each identity that the one before it equals: those that stand there twice, once for each further time.
fn repeated<A: Allocator>(alloc: A, identities: &[Identity]) -> Result<Vec<Identity, A>, AllocError>
    requires { IsSorted identity_cmp identities.now }
    ensures twice { IfOk result (λ again. (i : Identity) → has identity_cmp again.items i ≡ nat_lt 1 (times identity_cmp i identities.now)) }
    ensures sorted { IfOk result (λ again. IsSorted identity_cmp again.items) }
{
    let mut again = Vec::new(alloc);
    for at in 1..identities.len() {
        if identities[at] == identities[at - 1] {
            again.push(identities[at])?;
        }
    }
    Ok(again)
}
