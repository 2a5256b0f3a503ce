//! The set of the reports of a list.
ghost use Rattle.std.specs.Prelude.{◌≡◌, ◌≤◌, length, take, true, is_some, IfOk, IfSome, IsTrue};
ghost use Rattle.std.specs.List.Sorted.{IsStrictlySortedBy};
ghost use Rattle.tca_join.specs.Sets.{in_order};
ghost use Rattle.tca_report.specs.report.Reports.{report_cmp};

use crate::rows::{are_among, ascend, rising_first, sort_behind};
use std::alloc::{AllocError, Allocator};
use tca_join::Items;
use tca_report::Report;

// Where fewer than this part of a list ascend, the whole list is sorted.
const PART: usize = 4;

// At how many places a list is looked at, at most.
const LOOKS: usize = 1_024;

/// The reports of a list in order, each once. A list that ascends is given back; of one that ascends but for some reports, as where
/// some come late or again, only those are sorted. Where memory is wanting the list is sorted in place.
pub fn set_of<A: Allocator + Copy>(reports: Vec<Report, A>) -> Vec<Report, A>
    ensures { result.items ≡ in_order report_cmp reports.items }
{
    set_where(reports, false)
}

// Whether a list seems to ascend: at up to 1,024 places, where reports stand in order beside each other and from one place to the next.
fn seems_to_ascend(list: &[Report]) -> bool {
    let step = list.len() / LOOKS + 1;
    let mut last = 0;
    let mut at = 1;
    while at < list.len() {
        let before = &list[at - 1];
        if list[last].cmp(before).is_gt() || !before.cmp(&list[at]).is_lt() {
            return false;
        }
        last = at;
        at = at.saturating_add(step);
    }
    true
}

/// The same list, with its set beside, so that each of its owners has the set without sorting it. A list that ascends is its own set, so where
/// it seems to, at up to 1,024 places, it has none beside; nor has it where memory is wanting for one.
pub fn with_set<A: Allocator + Copy>(alloc: A, list: Items<Report, A>) -> Items<Report, A>
    ensures { result ≡ list }
{
    if seems_to_ascend(list.as_slice()) {
        return list;
    }
    match Vec::from_slice(alloc, list.as_slice()) {
        Ok(copy) => list.beside(alloc, set_of(copy)),
        Err(_) => list,
    }
}

/// The set of a list, where it needs no sorting: the list itself where it ascends, or the one beside it. It takes no memory:
/// `AllocError` comes only where that list can have no owner more, which changes nothing.
pub fn set_beside<A: Allocator + Copy>(
    list: &Items<Report, A>,
) -> Result<Option<Items<Report, A>>, AllocError>
    ensures set { IfOk result (λ found. IfSome found (λ set. set ≡ in_order report_cmp list.now)) }
    ensures own { IsStrictlySortedBy report_cmp list.now → IfOk result (λ found. is_some found ≡ true) }
{
    if ascend(list.as_slice()) {
        return Ok(Some(list.share()?));
    }
    let Some(other) = list.other()? else {
        return Ok(None);
    };
    if ascend(other.as_slice()) {
        return Ok(Some(other));
    }
    Ok(None)
}

/// The set of a list that others may hold too: the one beside it where there is one, else sorted from a copy. `AllocError`
/// comes where a growth was refused, or a list can have no owner more, which changes nothing.
pub fn set_in<A: Allocator + Copy>(
    alloc: A,
    list: &Items<Report, A>,
) -> Result<Items<Report, A>, AllocError>
    ensures { IfOk result (λ set. set ≡ in_order report_cmp list.now) }
{
    if let Some(set) = set_beside(list)? {
        return Ok(set);
    }
    let copy = Vec::from_slice(alloc, list.as_slice())?;
    Items::of(alloc, set_of(copy))
}

/// The same, where it may be known that the list ascends.
pub(crate) fn set_where<A: Allocator + Copy>(
    reports: Vec<Report, A>,
    ascends: bool,
) -> Vec<Report, A>
    requires { IsTrue ascends → IsStrictlySortedBy report_cmp reports.items }
    ensures { result.items ≡ in_order report_cmp reports.items }
{
    if ascends {
        return reports;
    }
    if ascend(&reports) {
        return reports;
    }
    let mut list = reports;
    let rising = rising_first(&mut list);
    if rising < list.len() / PART {
        return sorted_set(list);
    }
    joined_set(list, rising)
}

// The reports of a list in order, each once.
fn sorted_set<A: Allocator>(reports: Vec<Report, A>) -> Vec<Report, A>
    ensures { result.items ≡ in_order report_cmp reports.items }
{
    let mut set = reports;
    set.sort_unstable();
    set.dedup();
    set
}

// The same, where so many ascend at its front. Where those behind are repeats of these it takes no memory, and else it sorts
// in place where memory is refused.
fn joined_set<A: Allocator + Copy>(reports: Vec<Report, A>, rising: usize) -> Vec<Report, A>
    requires bound { rising ≤ length reports.items }
    requires rises { IsStrictlySortedBy report_cmp (take rising reports.items) }
    ensures { result.items ≡ in_order report_cmp reports.items }
{
    let mut set = reports;
    let alloc = *set.allocator();
    sort_behind(alloc, &mut set, rising);
    if are_among(&set[rising..], &set[..rising]) {
        set.truncate(rising);
        return set;
    }
    if set.sort().is_err() {
        return sorted_set(set);
    }
    set.dedup();
    set
}
