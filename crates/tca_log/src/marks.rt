//! Which identities stand twice, where they are of few domains and sessions and the places of each lie close together: then a mark
//! for each place tells it, without sorting.
ghost use Rattle.std.specs.Prelude.{◌≡◌, ◌<◌, ◌≤◌, IfOk, IfSome, length, nat_lt, replicate, slice_index, slice_set};
ghost use Rattle.std.specs.List.{AllByRecursion};
ghost use Rattle.tca_join.specs.Sets.{has};
ghost use Rattle.tca_report.specs.declared.report.Identity.{Identity};
ghost use Rattle.tca_report.specs.report.Identities.{identity_cmp, identity_of};
ghost use Rattle.tca_log.specs.inside.Logs.{count_at};
ghost use Rattle.tca_log.specs.inside.Spans.{IsAmong, one_more, slot, widths};

use crate::rows::Rows;
use crate::span::Span;
use crate::spans::{count_places, slot_of, spans_of};
use std::alloc::{AllocError, Allocator};
use tca_report::{Identity, Report};

// Where there are more places than this for a report, sorting takes less memory.
const MOST_PLACES: usize = 8;

/// Marks a place, and tells how often it was marked before: never, once, or 2 where more often.
pub(crate) fn mark(marks: &mut [u8], at: usize) -> u8
    requires { at < length marks.old }
    ensures before { result ≡ slice_index marks.old at }
    ensures after { marks.new ≡ slice_set marks.old at (one_more (slice_index marks.old at)) }
{
    let before = marks[at];
    marks[at] = if before < 2 { before + 1 } else { 2 };
    before
}

// Each identity of reports of some spans that two or more of them have. No place is marked yet.
fn repeated_among<A: Allocator + Copy>(
    alloc: A,
    reports: &Rows<Report, A>,
    spans: &[Span],
    marks: &mut [u8],
) -> Result<Vec<Identity, A>, AllocError>
    requires among { AllByRecursion (λ r. IsAmong spans.now (identity_of r)) reports.now.rows }
    requires bound { widths spans.now ≤ 68719476736 }
    requires unmarked { marks.old ≡ replicate (widths spans.now) 0 }
    ensures { IfOk result (λ again. (i : Identity) → has identity_cmp again.items i ≡ nat_lt 1 (count_at reports.now.rows i)) }
{
    let mut again = Vec::new(alloc);
    for report in reports.iter() {
        let identity = report.identity();
        if mark(marks, slot_of(spans, identity)) == 1 {
            again.push(identity)?;
        }
    }
    Ok(again)
}

/// Each identity that two or more of the reports have, where they are of few domains and sessions and the places of each lie close
/// together.
pub(crate) fn repeated_by_place<A: Allocator + Copy>(
    reports: &Rows<Report, A>,
) -> Result<Option<Vec<Identity, A>>, AllocError>
    ensures { IfOk result (λ found. IfSome found (λ again. (i : Identity) → has identity_cmp again.items i ≡ nat_lt 1 (count_at reports.now.rows i))) }
{
    let Some(spans) = spans_of(reports)? else {
        return Ok(None);
    };
    let count = count_places(&spans);
    if count / MOST_PLACES > reports.len() {
        return Ok(None);
    }
    let alloc = reports.allocator();
    let mut marks = vec![in alloc; 0u8; count]?;
    let again = repeated_among(alloc, reports, &spans, marks.as_mut_slice())?;
    Ok(Some(again))
}
