//! What a log keeps beside its reports: a content of each identity, and the identities that are disputed.
ghost use Rattle.std.specs.Prelude.{◌≡◌, ◌<◌, ◌≤◌, List, length, IfOk, OnOk, OnErr};
ghost use Rattle.std.specs.List.Sorted.{IsStrictlySortedBy};
ghost use Rattle.tca_report.specs.report.Reports.{report_cmp};
ghost use Rattle.tca_report.specs.declared.report.Identity.{Identity};
ghost use Rattle.tca_log.specs.inside.Logs.{first_of, is_disputed, answered, index_after, disputed_after, index_rows, IsKept, IsLog};
ghost use Rattle.tca_log.specs.Rows.Ordered.{most_rows};

use crate::additions::additions_of;
use crate::answer::Added;
use crate::by_identity::ByIdentity;
use crate::rows::Rows;
use std::alloc::{AllocError, Allocator};
use tca_report::{Identity, Report};

/// Enters a report that the log does not have into its index and its disputed identities, and answers what the report
/// is to the log. An error leaves both as they were.
pub(crate) fn enter<A: Allocator + Copy>(
    index: &mut Rows<ByIdentity, A>,
    disputed: &mut Rows<Identity, A>,
    report: Report,
) -> Result<Added, AllocError>
    requires few { length index.old.rows < most_rows }
    requires few_disputed { length disputed.old.rows < most_rows }
    ensures answer { IfOk result (λ a. a ≡ answered (first_of index.old.rows report) (is_disputed disputed.old.rows report)) }
    ensures index { OnOk result (index.new.rows ≡ index_after (first_of index.old.rows report) report index.old.rows) }
    ensures disputed { OnOk result (disputed.new.rows ≡ disputed_after (first_of index.old.rows report) (is_disputed disputed.old.rows report) report disputed.old.rows) }
    ensures err { OnErr result (index.new.rows ≡ index.old.rows) }
    ensures err_disputed { OnErr result (disputed.new.rows ≡ disputed.old.rows) }
{
    let key = ByIdentity { report };
    let Some(first) = index.get(&key).copied() else {
        index.reserve()?;
        index.put(key);
        return Ok(Added::Fresh);
    };
    let identity = report.identity();
    if disputed.contains(&identity) {
        return Ok(Added::MoreDispute);
    }
    disputed.reserve()?;
    disputed.put(identity);
    Ok(Added::NewDispute {
        withdrawn: first.report,
    })
}

/// The index that a log keeps, or that of its reports where it keeps none.
pub(crate) fn index_of<A: Allocator + Copy>(
    rows: &Rows<Report, A>,
    kept: Option<Rows<ByIdentity, A>>,
) -> Result<Rows<ByIdentity, A>, AllocError>
    requires rises { IsStrictlySortedBy report_cmp rows.now.rows }
    requires few { length rows.now.rows ≤ most_rows }
    ensures { IfOk result (λ index. (disputed_identities : List Identity) → IsKept rows.now.rows (index_rows kept) disputed_identities → IsLog rows.now.rows index.rows disputed_identities) }
{
    if let Some(index) = kept {
        return Ok(index);
    }
    let alloc = rows.allocator();
    let mut index = Rows::new(alloc);
    let additions = additions_of(&index, &Rows::new(alloc), rows)?;
    index.take_all(additions.fresh)?;
    Ok(index)
}

/// A copy of the index that a log keeps, or none where it keeps none.
pub(crate) fn copied<A: Allocator + Copy>(
    kept: &Option<Rows<ByIdentity, A>>,
) -> Result<Option<Rows<ByIdentity, A>>, AllocError>
    ensures { IfOk result (λ copy. index_rows copy ≡ index_rows kept.now) }
{
    match kept {
        Some(index) => Ok(Some(index.copy()?)),
        None => Ok(None),
    }
}
