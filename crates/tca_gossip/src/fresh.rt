//! Which reports of a list are new to a log at their turn.
ghost use Rattle.std.specs.Prelude.{◌≡◌, ◌<◌, IfOk, Some, length, slice_get, true};
ghost use Rattle.std.specs.List.Sorted.{IsStrictlySortedBy};
ghost use Rattle.tca_join.specs.Sets.{has, in_order};
ghost use Rattle.tca_report.specs.report.Reports.{report_cmp};
ghost use Rattle.tca_gossip.specs.Replicas.{fresh_of};

use std::alloc::{AllocError, Global};
use tca_join::Items;
use tca_log::Log;
use tca_report::Report;

// Where a report of a set stands. It is looked for at a likely place first.
fn place_of(set: &[Report], likely: usize, report: &Report) -> usize
    requires rises { IsStrictlySortedBy report_cmp set.now }
    requires there { has report_cmp set.now report.now ≡ true }
    ensures within { result < length set.now }
    ensures at { slice_get set.now result ≡ Some report.now }
{
    if likely < set.len() && set[likely] == *report {
        return likely;
    }
    set.binary_search(report).unwrap()
}

// The reports of a list that are neither in a log nor at an earlier place of the list, as they stand there. `set` has the
// reports of the list in order, each once.
fn fresh_among(
    alloc: Global,
    log: &Log,
    set: &[Report],
    reports: &[Report],
) -> Result<Vec<Report>, AllocError>
    requires { set.now ≡ in_order report_cmp reports.now }
    ensures { IfOk result (λ fresh. fresh.items ≡ fresh_of log.now reports.now) }
{
    let mut is_new = log.are_new(set)?;
    let mut fresh = Vec::new(alloc);
    let mut next = 0;
    for report in reports {
        let at = place_of(set, next, report);
        if is_new[at] {
            fresh.push(*report)?;
        }
        is_new[at] = false;
        next = at + 1;
    }
    Ok(fresh)
}

/// The reports of a list that are neither in a log nor at an earlier place of the list, as they stand there, which is the list itself
/// where the log has none of them and none comes twice. `set` has the reports of the list in order, each once.
pub(crate) fn fresh_in(
    alloc: Global,
    log: &Log,
    set: &[Report],
    reports: &Items<Report>,
) -> Result<Items<Report>, AllocError>
    requires { set.now ≡ in_order report_cmp reports.now }
    ensures { IfOk result (λ fresh. fresh ≡ fresh_of log.now reports.now) }
{
    let list = reports.as_slice();
    if set.len() == list.len() && log.count_new(set) == set.len() {
        return reports.share();
    }
    let fresh = fresh_among(alloc, log, set, list)?;
    Items::of(alloc, fresh)
}
