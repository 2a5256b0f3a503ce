//! The chains of a replica, by origin.
ghost use Rattle.std.specs.Prelude.{◌≡◌, ℕ, ◌+◌, ◌-◌, ◌^◌, ◌<◌, ◌≤◌, [], ◌∷◌, ◌++◌, length, min, sum_by, OnOk, OnErr, Some, true};
ghost use Rattle.tca_join.specs.Chains.{chain, most_items};
ghost use Rattle.tca_join.specs.Maps.{Rises, get, put};
ghost use Rattle.tca_gossip.specs.Replicas.{of, with_origin};
ghost use Rattle.tca_gossip.specs.inside.Storage.{held_in, held_of};

use std::alloc::{AllocError, Global};
use tca_join::{ByKey, Chain, Items};
use tca_report::Report;

// A `let _rises` or `let _limit` is a call for its clause alone: that keys ascend, or how long a chain may be.

/// The reports that are held of an origin, none where it has no chain.
pub(crate) fn held_of(chains: &ByKey<Chain<Report>>, origin: u32) -> &[Report]
    ensures items { result.now ≡ held_of chains.now origin }
    ensures limit { length result.now ≤ most_items }
{
    match chains.get(origin) {
        Some(chain) => {
            let _limit = chain.len();
            chain.items()
        }
        None => &[],
    }
}

/// How many reports all chains hold together, at most 18,446,744,073,709,551,615.
pub(crate) fn count_all(chains: &ByKey<Chain<Report>>) -> u64
    ensures { result ≡ min (sum_by (λ e. length e.1.items) chains.now) (2 ^ 64 - 1) }
{
    let mut count: u64 = 0;
    for entry in chains.entries() {
        count = count.saturating_add(entry.1.len() as u64);
    }
    count
}

/// Makes room for one report more in the chain of an origin. No chain gets or loses a report, also on a refusal.
pub(crate) fn reserve(
    alloc: Global,
    chains: &mut ByKey<Chain<Report>>,
    origin: u32,
) -> Result<(), AllocError>
    ensures room { OnOk result (get chains.new origin ≡ Some (chain (held_of chains.old origin) true)) }
    ensures held { held_in chains.new ≡ held_in chains.old }
    ensures kept { held_of chains.new origin ≡ held_of chains.old origin }
    ensures rises { Rises chains.new }
{
    let _rises = chains.keys();
    if let Some(chain) = chains.get_mut(origin) {
        return chain.reserve();
    }
    let mut chain = Chain::new(alloc);
    chain.reserve()?;
    chains.set(origin, chain)
}

/// Appends a report to the chain of an origin, into the room that was made. It takes no memory.
pub(crate) fn push(chains: &mut ByKey<Chain<Report>>, origin: u32, report: Report)
    requires room { get chains.old origin ≡ Some (chain (held_of chains.old origin) true) }
    requires few { length (held_of chains.old origin) < most_items }
    ensures rises { Rises chains.new }
    ensures held { held_in chains.new ≡ put (λ w u. w ++ u) origin (report ∷ []) (held_in chains.old) }
{
    let _rises = chains.keys();
    if let Some(chain) = chains.get_mut(origin) {
        chain.push(report);
    }
}

/// Appends the reports of a list to the chain of an origin. Where it has no chain yet the list is its chain, and isn't copied.
pub(crate) fn extend(
    chains: &mut ByKey<Chain<Report>>,
    origin: u32,
    reports: Items<Report>,
) -> Result<(), AllocError>
    requires { length (held_of chains.old origin) + length reports ≤ most_items }
    ensures { OnOk result ((q : ℕ) → held_of chains.new q ≡ held_of chains.old q ++ of q (with_origin origin reports)) }
{
    let _rises = chains.keys();
    if let Some(chain) = chains.get_mut(origin) {
        return chain.extend(reports.as_slice());
    }
    chains.set(origin, Chain::of(reports))
}
