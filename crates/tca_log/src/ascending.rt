//! Reports whose identities ascend.
ghost use Rattle.std.specs.Prelude.{◌≡◌, true, [], IsTrue};
ghost use Rattle.std.specs.List.Sorted.{IsStrictlySortedBy};
ghost use Rattle.std.specs.declared.cmp.Ordering.TheVariants.{Less};
ghost use Rattle.tca_report.specs.report.Reports.{report_cmp};
ghost use Rattle.tca_report.specs.report.Identities.{identity_cmp, identity_of};
ghost use Rattle.tca_log.specs.Disputes.{disputed};

use crate::rows::{Rows, RowsIter};
use std::alloc::Allocator;
use tca_report::Report;

/// Whether each report's identity comes after that of the report before it, as where there is one session of one domain,
/// whose exporter counts. Then no two have one identity. It takes no memory.
pub(crate) fn identities_ascend<A: Allocator + Copy>(reports: &Rows<Report, A>) -> bool
    ensures { result ≡ true → disputed reports.now.rows ≡ [] }
{
    let mut left = reports.iter();
    let Some(first) = left.next() else {
        return true;
    };
    let mut before = first.identity();
    for report in left {
        let identity = report.identity();
        if !before.cmp(&identity).is_lt() {
            return false;
        }
        before = identity;
    }
    true
}

// Whether a report comes after another one, and its identity after that one's.
fn follows(report: &Report, before: &Report) -> bool
    ensures report { IsTrue result → report_cmp before.now report.now ≡ Less }
    ensures identity { IsTrue result → identity_cmp (identity_of before.now) (identity_of report.now) ≡ Less }
{
    before.content().time <= report.content().time
        && before.identity().cmp(&report.identity()).is_lt()
}

/// Whether each report comes after the one before it, and its identity after that one's, as where an exporter counts and its
/// clock doesn't go back. It goes through the list once, and takes no memory.
pub(crate) fn all_ascend(reports: &[Report]) -> bool
    ensures rises { IsTrue result → IsStrictlySortedBy report_cmp reports.now }
    ensures alone { IsTrue result → disputed reports.now ≡ [] }
{
    let mut left: RowsIter<'_, Report> = RowsIter::of(reports);
    let Some(first) = left.next() else {
        return true;
    };
    let mut before = *first;
    for report in left {
        if !follows(report, &before) {
            return false;
        }
        before = *report;
    }
    true
}
