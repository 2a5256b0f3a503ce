//! Runs that come to a replica: why they are refused, and what is new in them.
ghost use Rattle.std.specs.Prelude.{◌≡◌, ◌+◌, ◌<◌, ◌≤◌, [], length, OnOk, IfOk, IfErr, IfSome, None, MatchOption, true};
ghost use Rattle.tca_join.specs.Chains.{differ_at, most_items};
ghost use Rattle.tca_gossip.specs.Replicas.{appended, chain_of, with_origin};
ghost use Rattle.tca_gossip.specs.Runs.{AreRuns, fault_of, first_fault, rest_of, rests, same_report};
ghost use Rattle.tca_gossip.specs.Answers.{IsRefusal, IsStop, fault_view};
ghost use Rattle.tca_gossip.specs.inside.Storage.{held_of};

use crate::chains::held_of;
use crate::contents::Contents;
use crate::fault::AbsorbFault;
use crate::run::Run;
use tca_join::{ByKey, Chain};
use tca_log::LogFault;
use tca_report::Report;

/// Where appending stopped: how many reports went before, and why the log didn't take the next one.
#[derive(Drop)]
pub(crate) struct Stop {
    pub(crate) taken: u64,
    pub(crate) cause: LogFault,
}

// The first place where both lists have a report and these differ.
fn difference(first: &[Report], second: &[Report]) -> Option<usize>
    ensures value { result ≡ differ_at same_report first.now second.now }
    ensures within { MatchOption result (differ_at same_report first.now second.now ≡ None) (λ at. at < length first.now) }
{
    let mut i = 0;
    while i < first.len() && i < second.len() {
        let x = first[i];
        let y = second[i];
        if x.cmp(&y).is_ne() {
            return Some(i);
        }
        i += 1;
    }
    None
}

// Why a run is refused, where this is the chain of its origin.
fn fault_in(name: u32, chain: &[Report], run: &Run) -> Option<AbsorbFault>
    requires chain { length chain.now ≤ most_items }
    requires run { run.now.start + length run.now.reports ≤ most_items }
    ensures fault { fault_view result ≡ fault_of name (λ _. chain.now) run.now }
    ensures refused { IfSome result IsRefusal }
{
    let have = chain.len() as u32;
    let end = run.start() + run.reports().len() as u32;
    let origin = run.origin();
    let from = run.start();
    if origin == name && have < end {
        return Some(AbsorbFault::OwnAhead { have, said: end });
    }
    if have < from {
        return Some(AbsorbFault::Gap { origin, have, from });
    }
    match difference(&chain[from as usize..], run.reports()) {
        Some(at) => Some(AbsorbFault::Forked {
            origin,
            at: from + at as u32,
        }),
        None => None,
    }
}

/// Why runs are refused: the fault of the first run that has one.
pub(crate) fn refusal(name: u32, chains: &ByKey<Chain<Report>>, runs: &[Run]) -> Option<AbsorbFault>
    requires { AreRuns runs.now }
    ensures fault { fault_view result ≡ first_fault name (held_of chains.now) runs.now }
    ensures refused { IfSome result IsRefusal }
{
    for run in runs {
        let chain = held_of(chains, run.origin());
        match fault_in(name, chain, run) {
            Some(fault) => return Some(fault),
            None => {}
        }
    }
    None
}

// Appends reports to the chain of an origin, one by one.
fn append_all(contents: &mut Contents, origin: u32, reports: &[Report]) -> Result<u64, Stop>
    requires own { origin ≡ contents.old.replica.name → reports.now ≡ [] }
    requires few { length (chain_of contents.old.replica origin) + length reports.now ≤ most_items }
    ensures state { OnOk result (contents.new.replica ≡ appended contents.old.replica (with_origin origin reports.now)) }
    ensures count { IfOk result (λ n. n ≡ length reports.now) }
    ensures stop { IfErr result (λ s. IsStop contents.old.replica contents.new.replica (with_origin origin reports.now) s.taken s.cause) }
    ensures stays { contents.old.billing.kept ≡ true → contents.new.billing.kept ≡ true }
{
    contents.known();
    let mut taken = 0;
    for report in reports {
        match contents.append(origin, *report) {
            Ok(()) => taken += 1,
            Err(cause) => return Err(Stop { taken, cause }),
        }
    }
    Ok(taken)
}

// Appends what a run has past the chain of its origin.
fn append_rest(contents: &mut Contents, run: &Run) -> Result<u64, Stop>
    requires own { run.now.origin ≡ contents.old.replica.name → rest_of (chain_of contents.old.replica) run.now ≡ [] }
    requires few { length (chain_of contents.old.replica run.now.origin) + length (rest_of (chain_of contents.old.replica) run.now) ≤ most_items }
    ensures state { OnOk result (contents.new.replica ≡ appended contents.old.replica (with_origin run.now.origin (rest_of (chain_of contents.old.replica) run.now))) }
    ensures count { IfOk result (λ n. n ≡ length (rest_of (chain_of contents.old.replica) run.now)) }
    ensures stop { IfErr result (λ s. IsStop contents.old.replica contents.new.replica (with_origin run.now.origin (rest_of (chain_of contents.old.replica) run.now)) s.taken s.cause) }
    ensures stays { contents.old.billing.kept ≡ true → contents.new.billing.kept ≡ true }
{
    let origin = run.origin();
    let have = contents.chain(origin).len();
    let reports = run.reports();
    let skip = have.saturating_sub(run.start() as usize).min(reports.len());
    append_all(contents, origin, &reports[skip..])
}

// How many reports runs have past the chains.
fn count_rests(contents: &Contents, runs: &[Run]) -> u64
    requires { AreRuns runs.now }
    ensures { result ≡ length (rests (chain_of contents.now.replica) runs.now) }
{
    let mut count: u64 = 0;
    for run in runs {
        let origin = run.origin();
        let have = contents.chain(origin).len();
        let skip = have.saturating_sub(run.start() as usize);
        count += run.reports().len().saturating_sub(skip) as u64;
    }
    count
}

/// Appends what runs have past the chains, in their order: all at once where that serves, else one by one, which names how many
/// there is room for.
pub(crate) fn append_runs(contents: &mut Contents, runs: &[Run]) -> Result<u64, Stop>
    requires right { AreRuns runs.now }
    requires good { first_fault contents.old.replica.name (chain_of contents.old.replica) runs.now ≡ None }
    ensures state { OnOk result (contents.new.replica ≡ appended contents.old.replica (rests (chain_of contents.old.replica) runs.now)) }
    ensures count { IfOk result (λ n. n ≡ length (rests (chain_of contents.old.replica) runs.now)) }
    ensures stop { IfErr result (λ s. IsStop contents.old.replica contents.new.replica (rests (chain_of contents.old.replica) runs.now) s.taken s.cause) }
{
    let count = count_rests(contents, runs);
    if contents.append_at_once(runs, count) {
        return Ok(count);
    }
    append_rests(contents, runs)
}

// Appends what runs have past the chains, in their order, one by one.
fn append_rests(contents: &mut Contents, runs: &[Run]) -> Result<u64, Stop>
    requires right { AreRuns runs.now }
    requires good { first_fault contents.old.replica.name (chain_of contents.old.replica) runs.now ≡ None }
    ensures state { OnOk result (contents.new.replica ≡ appended contents.old.replica (rests (chain_of contents.old.replica) runs.now)) }
    ensures count { IfOk result (λ n. n ≡ length (rests (chain_of contents.old.replica) runs.now)) }
    ensures stop { IfErr result (λ s. IsStop contents.old.replica contents.new.replica (rests (chain_of contents.old.replica) runs.now) s.taken s.cause) }
    ensures stays { contents.old.billing.kept ≡ true → contents.new.billing.kept ≡ true }
{
    contents.known();
    let mut count: u64 = 0;
    for run in runs {
        let origin = run.origin();
        // For its clause alone: how long a chain may be.
        let _limit = contents.chain(origin);
        match append_rest(contents, run) {
            Ok(more) => count += more,
            Err(stop) => {
                return Err(Stop {
                    taken: count + stop.taken,
                    cause: stop.cause,
                });
            }
        }
    }
    Ok(count)
}
