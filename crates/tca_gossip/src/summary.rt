//! How much a replica holds.
ghost use Rattle.std.specs.Prelude.{◌≡◌, IfOk};
ghost use Rattle.tca_gossip.specs.Coupling.{counts_of};
ghost use Rattle.tca_gossip.specs.inside.Storage.{held_in};

use crate::run::Summary;
use std::alloc::{AllocError, Global};
use tca_join::{ByKey, Chain, MaxOf};
use tca_report::Report;

/// How long each chain is that holds something.
pub(crate) fn summary_of(
    alloc: Global,
    chains: &ByKey<Chain<Report>>,
) -> Result<Summary, AllocError>
    ensures { IfOk result (λ s. s ≡ counts_of (held_in chains.now)) }
{
    let mut summary = ByKey::new(alloc);
    for entry in chains.entries() {
        let count = entry.1.len();
        if count > 0 {
            summary.set(entry.0, MaxOf(count))?;
        }
    }
    Ok(summary)
}
