//! Whether lists of reports are together those of a log. No union of them is made.
ghost use Rattle.std.specs.Prelude.{◌≡◌, ◌||◌, IfOk, Some, [], length, slice_get, true};
ghost use Rattle.std.specs.List.{flat_map};
ghost use Rattle.std.specs.Ordering.{eq_by_cmp};
ghost use Rattle.tca_join.specs.Sets.{has};
ghost use Rattle.tca_report.specs.report.Reports.{PacketReport, report_cmp};
ghost use Rattle.tca_program.specs.Unions.{union_of};
ghost use Rattle.tca_commands.specs.inside.Together.{left_of};

use std::alloc::{AllocError, Global};
use tca_join::Items;
use tca_log::Log;
use tca_report::Report;

/// Whether each report of a log is the next one of some of the lists, as they are gone through beside it, and none has another one. Then
/// they have together just the reports of the log. It takes memory for a number of each list.
pub(crate) fn are_together(
    alloc: Global,
    lists: &[Items<Report>],
    log: &Log,
) -> Result<bool, AllocError>
    ensures { IfOk result (λ are. are ≡ true → union_of lists.now ≡ log.now) }
{
    let mut taken = none_taken(alloc, lists)?;
    for report in log.reports() {
        if !take_next(lists, &mut taken, report) {
            return Ok(false);
        }
    }
    Ok(are_taken(lists, &taken))
}

// How many items of each list were taken: none.
fn none_taken(alloc: Global, lists: &[Items<Report>]) -> Result<Vec<usize>, AllocError>
    ensures count { IfOk result (λ taken. length taken.items ≡ length lists.now) }
    ensures none { IfOk result (λ taken. left_of lists.now taken.items ≡ flat_map (λ rs. rs) lists.now) }
{
    let mut taken = Vec::with_capacity(alloc, lists.len())?;
    for list in lists {
        let _ = list;
        taken.push(0)?;
    }
    Ok(taken)
}

// Takes a report from each list of which it is the next one, and answers whether there is such a list.
fn take_next(lists: &[Items<Report>], taken: &mut Vec<usize>, report: &Report) -> bool
    requires { length taken.old.items ≡ length lists.now }
    ensures count { length taken.new.items ≡ length lists.now }
    ensures taken { result ≡ true → (q : PacketReport) → has report_cmp (left_of lists.now taken.old.items) q ≡ (eq_by_cmp report_cmp q report.now || has report_cmp (left_of lists.now taken.new.items) q) }
{
    let mut is_next = false;
    for n in 0..lists.len() {
        if stands_at(lists[n].as_slice(), taken[n], report) {
            taken[n] += 1;
            is_next = true;
        }
    }
    is_next
}

// Whether the item at an index is this report.
fn stands_at(list: &[Report], at: usize, report: &Report) -> bool
    ensures { result ≡ true → slice_get list.now at ≡ Some report.now }
{
    if at >= list.len() {
        return false;
    }
    list[at] == *report
}

// Whether no list has an item that wasn't taken.
fn are_taken(lists: &[Items<Report>], taken: &[usize]) -> bool
    requires { length taken.now ≡ length lists.now }
    ensures { result ≡ true → left_of lists.now taken.now ≡ [] }
{
    for n in 0..lists.len() {
        if taken[n] < lists[n].len() {
            return false;
        }
    }
    true
}
