//! What new reports add to a log's index and to its disputed identities.
ghost use Rattle.std.specs.Prelude.{◌≡◌, ◌<◌, ◌≤◌, List, [], length, map, IfOk, OnOk};
ghost use Rattle.tca_log.specs.declared.by_identity.ByIdentity.{ByIdentity};
ghost use Rattle.std.specs.List.Sorted.{IsPermutation};
ghost use Rattle.tca_log.specs.inside.Logs.{indexed};
ghost use Rattle.tca_log.specs.inside.Additions.{with_report, with_reports};
ghost use Rattle.tca_log.specs.Rows.Ordered.{most_rows};

use crate::by_identity::ByIdentity;
use crate::rows::Rows;
use std::alloc::{AllocError, Allocator};
use std::marker::Model;
use tca_report::{Identity, Report};

/// The first contents of identities that were unknown, and the identities that become disputed.
#[derive(Drop)]
pub struct Additions<A: Allocator + Copy> {
    pub fresh: Rows<ByIdentity, A>,
    pub newly_disputed: Rows<Identity, A>,
}

impl<A: Allocator + Copy> Model for Additions<A> {
    ghost use Rattle.tca_log.specs.inside.Additions.{AddedRows};

    ghost Value = { AddedRows };

    ghost view = { λ n. record { fresh = n.fresh.rows; newly_disputed = n.newly_disputed.rows } };
}

impl<A: Allocator + Copy> Additions<A> {
    /// No additions yet.
    pub(crate) fn new(alloc: A) -> Additions<A>
        ensures { result ≡ record { fresh = []; newly_disputed = [] } }
    {
        Additions {
            fresh: Rows::new(alloc),
            newly_disputed: Rows::new(alloc),
        }
    }

    /// Enters one more report: as the first content of its identity, or its identity as one that becomes disputed. A
    /// further content of such an identity changes nothing.
    pub(crate) fn add(
        &mut self,
        index: &Rows<ByIdentity, A>,
        disputed: &Rows<Identity, A>,
        key: ByIdentity,
    ) -> Result<(), AllocError>
        requires few { length self.old.fresh < most_rows }
        requires few_disputed { length self.old.newly_disputed < most_rows }
        ensures { OnOk result (self.new ≡ with_report index.now.rows disputed.now.rows key self.old) }
    {
        if !index.contains(&key) && !self.fresh.contains(&key) {
            self.fresh.reserve()?;
            self.fresh.put(key);
            return Ok(());
        }
        let identity = key.report.identity();
        if !disputed.contains(&identity) && !self.newly_disputed.contains(&identity) {
            self.newly_disputed.reserve()?;
            self.newly_disputed.put(identity);
        }
        Ok(())
    }
}

// What these reports add, one after another.
fn additions_in_order<A: Allocator + Copy>(
    alloc: A,
    index: &Rows<ByIdentity, A>,
    disputed: &Rows<Identity, A>,
    keys: &[ByIdentity],
) -> Result<Additions<A>, AllocError>
    requires { length keys.now ≤ most_rows }
    ensures { IfOk result (λ n. n ≡ with_reports index.now.rows disputed.now.rows keys.now (record { fresh = []; newly_disputed = [] })) }
{
    let mut additions = Additions::new(alloc);
    for key in keys {
        additions.add(index, disputed, *key)?;
    }
    Ok(additions)
}

// The reports in the order of their identities, so that those that are searched for lie side by side.
fn by_identity<A: Allocator + Copy>(
    alloc: A,
    reports: &Rows<Report, A>,
) -> Result<Vec<ByIdentity, A>, AllocError>
    ensures { IfOk result (λ keys. IsPermutation (map indexed reports.now.rows) keys.items) }
{
    let mut keys = Vec::with_capacity(alloc, reports.len())?;
    for report in reports.iter() {
        keys.push(ByIdentity { report: *report })?;
    }
    keys.sort_unstable();
    Ok(keys)
}

/// What reports that are new add to a log's index and to its disputed identities.
pub(crate) fn additions_of<A: Allocator + Copy>(
    index: &Rows<ByIdentity, A>,
    disputed: &Rows<Identity, A>,
    news: &Rows<Report, A>,
) -> Result<Additions<A>, AllocError>
    requires few { length news.now.rows ≤ most_rows }
    ensures { IfOk result (λ n. (keys : List ByIdentity) × IsPermutation (map indexed news.now.rows) keys
        × (n ≡ with_reports index.now.rows disputed.now.rows keys (record { fresh = []; newly_disputed = [] }))) }
{
    let keys = by_identity(news.allocator(), news)?;
    additions_in_order(news.allocator(), index, disputed, &keys)
}
