//! What a replica tells another: how much it holds, and the runs that the other lacks.
ghost use Rattle.std.specs.Prelude.{◌≡◌, ◌≤◌, IfOk, drop, length};
ghost use Rattle.tca_gossip.specs.Runs.{delta_of, summary_count};
ghost use Rattle.tca_gossip.specs.inside.Storage.{held_in};

use crate::run::{Delta, Run, Summary};
use std::alloc::{AllocError, Global};
use tca_join::{ByKey, Chain, Items, Join};
use tca_report::Report;

// How much a summary counts of an origin.
fn counted(since: &Summary, origin: u32) -> u32
    ensures { result ≡ summary_count since.now origin }
{
    match since.get(origin) {
        Some(count) => count.0,
        None => 0,
    }
}

// The reports of a chain from a place on. The whole chain may be shared, a part of it is copied.
fn reports_from(
    alloc: Global,
    chain: &Chain<Report>,
    from: usize,
) -> Result<Items<Report>, AllocError>
    requires { from ≤ length chain.now.items }
    ensures { IfOk result (λ reports. reports ≡ drop from chain.now.items) }
{
    if from == 0 {
        return chain.share();
    }
    let list = Vec::from_slice(alloc, &chain.items()[from..])?;
    Items::of(alloc, list)
}

/// For each origin of which more is held than the summary counts, the run of the rest.
pub(crate) fn delta_for(
    alloc: Global,
    chains: &ByKey<Chain<Report>>,
    since: &Summary,
) -> Result<Delta, AllocError>
    ensures { IfOk result (λ d. d ≡ delta_of (summary_count since.now) (held_in chains.now)) }
{
    chains.known();
    let mut runs = Vec::new(alloc);
    for entry in chains.entries() {
        let from = counted(since, entry.0);
        let items = entry.1.items();
        if (from as usize) < items.len() {
            let reports = reports_from(alloc, &entry.1, from as usize)?;
            runs.push(Run {
                origin: entry.0,
                start: from,
                reports,
            })?;
        }
    }
    Ok(Delta::ascending(runs))
}
