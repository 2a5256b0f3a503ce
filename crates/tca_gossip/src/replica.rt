//! A replica.
ghost use Rattle.std.specs.Prelude.{◌≡◌, ◌≤◌, ℕ, None, false, true, length, take, OnOk, OnErr, IfOk, IfErr};
ghost use Rattle.tca_accounts.specs.Bills.{bill_of};
ghost use Rattle.tca_join.specs.Chains.{differ_at, most_items};
ghost use Rattle.tca_join.specs.Faults.{IsJoinFault};
ghost use Rattle.tca_join.specs.Maps.{clash_key};
ghost use Rattle.tca_gossip.specs.Replicas.{IsReplica, chain_of, fresh_of, merge_clash, merge_full, merged_with, new_replica, taken};
ghost use Rattle.tca_gossip.specs.Runs.{AreRuns, IsOutcome, absorbed, delta_of, rests, same_report, summary_count};
ghost use Rattle.tca_gossip.specs.Coupling.{counts_of};
ghost use Rattle.tca_gossip.specs.Answers.{IsStopAt, IsStopOf, outcome_of};

use crate::absorb::append_runs;
use crate::contents::Contents;
use crate::fault::{AbsorbFault, Taken};
use crate::run::{Delta, Run, Summary};
use std::alloc::{AllocError, Global};
use std::marker::Model;
use tca_accounts::{Bill, Plan};
use tca_join::{Items, JoinFault};
use tca_log::Log;
use tca_report::Report;

/// What one collector holds: for each origin a chain of reports, in the order in which they were new there, and the log that is
/// the set of them all. Its own chain is what its own `take` got new.
///
/// A book beside the log keeps the bill, so that a late report costs what follows it and not the whole history. After new reports of
/// a list were taken at once, or those of a delta absorbed at once, and after a merge, there is no book until a single report comes
/// that is new, to the log in a take and to its chain in an absorb, or `keep_book` is called; the bill is made from the log when it is
/// asked.
#[derive(Drop)]
pub struct Replica {
    contents: Contents,
}

impl Model for Replica {
    ghost use Rattle.tca_gossip.specs.inside.Storage.{IsResumed};
    ghost use Rattle.tca_gossip.specs.Replicas.{ReplicaView};

    ghost Value = { ReplicaView };

    ghost view = { λ r. r.contents.replica };

    ghost invariant = { λ r. IsResumed r.contents.billing };
}

impl Replica {
    /// A replica of this name that holds nothing. All replicas that tell each other have one plan and distinct names. `AllocError` comes
    /// where a growth was refused, and the plan is dropped then.
    pub fn new(alloc: Global, name: u32, plan: Plan) -> Result<Replica, AllocError>
        ensures { IfOk result (λ r. r ≡ new_replica plan name) }
    {
        Ok(Replica {
            contents: Contents::new(alloc, name, plan)?,
        })
    }

    /// Its name, by which others know its chain.
    pub fn name(&self) -> u32
        ensures { result ≡ self.now.name }
    {
        self.contents.name
    }

    /// The set of the reports of all chains.
    pub fn log(&self) -> &Log
        ensures log { result.now ≡ self.now.log }
        ensures replica { IsReplica self.now }
    {
        self.contents.known();
        &self.contents.log
    }

    /// The log alone. The chains go, and with them what they hold of lists that are shared.
    pub fn into_log(self) -> Log
        ensures { result ≡ self.log }
    {
        let Replica { contents } = self;
        contents.into_log()
    }

    /// The chain of an origin, empty where nothing is held.
    pub fn chain(&self, origin: u32) -> &[Report]
        ensures items { result.now ≡ chain_of self.now origin }
        ensures limit { length result.now ≤ most_items }
    {
        self.contents.chain(origin)
    }

    /// Takes reports in order. Each that is new to the log at its turn goes to the end of the own chain; one that is there
    /// changes nothing. It stops before a report that the log doesn't take: `Full` where the log has 4,194,304 reports and not
    /// this one, `Memory` where a growth was refused. What was taken until then stays.
    ///
    /// A list that is long beside the log is taken at once, which costs less and answers the same.
    pub fn take(&mut self, reports: &[Report]) -> Taken
        ensures within { result.taken ≤ length reports.now }
        ensures state { self.new ≡ taken self.old (take result.taken reports.now) }
        ensures fresh { result.fresh ≡ length (fresh_of self.old.log (take result.taken reports.now)) }
        ensures stop { IsStopAt self.new.log reports.now result.taken result.stop }
    {
        let taken = take_slice(&mut self.contents, reports);
        self.contents.settle();
        taken
    }

    /// Takes the reports of a list as `take` does. Where the replica has no chain and no report comes twice, a list that is taken at once
    /// is its own chain, so that the reports aren't copied.
    pub fn take_shared(&mut self, reports: Items<Report>) -> Taken
        ensures within { result.taken ≤ length reports }
        ensures state { self.new ≡ taken self.old (take result.taken reports) }
        ensures fresh { result.fresh ≡ length (fresh_of self.old.log (take result.taken reports)) }
        ensures stop { IsStopAt self.new.log reports result.taken result.stop }
    {
        let taken = take_list(&mut self.contents, &reports);
        self.contents.settle();
        taken
    }

    /// Appends what the runs of a delta have past the chains of their origins, in their order, and answers how many reports that was.
    /// A delta may come from anywhere.
    ///
    /// `OwnAhead`, `Gap` and `Forked` are tested run by run, in this order, before any change, and change nothing. `Stopped` says how
    /// many of the new reports were appended, and why the log didn't take the next one. A delta with nothing new takes no memory.
    ///
    /// Where the new reports are many beside the log and beside all chains they are appended at once, which costs less and answers the
    /// same. A run of an origin of which nothing is held moves the chains of the higher origins by one place.
    pub fn absorb(&mut self, delta: &Delta) -> Result<u64, AbsorbFault>
        ensures state { self.new ≡ absorbed self.old delta.now (outcome_of result) }
        ensures outcome { IsOutcome self.old.name (chain_of self.old) delta.now (outcome_of result) }
        ensures stop { IsStopOf self.new (rests (chain_of self.old) delta.now) result }
    {
        let outcome = absorb_runs(&mut self.contents, delta.runs());
        self.contents.settle();
        outcome
    }

    /// How long each chain is that holds something, by origin. `AllocError` comes where a growth was refused, and leaves the replica as
    /// it was.
    pub fn summary(&self) -> Result<Summary, AllocError>
        ensures exact { IfOk result (λ s. s ≡ counts_of self.now.chains) }
        ensures each { IfOk result (λ s. (o : ℕ) → summary_count s o ≡ length (chain_of self.now o)) }
    {
        self.contents.summary()
    }

    /// For each origin of which more is held than the summary counts, the run of the rest. `AllocError` comes where a growth was
    /// refused, or a list can have no owner more, and leaves the replica as it was.
    pub fn delta(&self, since: &Summary) -> Result<Delta, AllocError>
        ensures { IfOk result (λ d. d ≡ delta_of (summary_count since.now) self.now.chains) }
    {
        self.contents.delta(since)
    }

    /// Joins this replica with another: of the two chains of each origin the longer is kept, and the log is the union. The name
    /// and the plan stay. All or nothing: `Clash` names the least origin of which neither chain begins with the other, or the
    /// own name where the other holds more of it; `Full` comes where the union has more than 4,194,304 reports; `Memory` where a
    /// growth was refused.
    pub fn merge(&mut self, other: &Replica) -> Result<(), JoinFault>
        ensures ok { OnOk result (self.new ≡ merged_with self.old other.now) }
        ensures compatible { OnOk result (merge_clash ⟦<Report as PartialEq>⟧.eq self.old other.now ≡ None) }
        ensures within { OnOk result (merge_full self.old other.now ≡ false) }
        ensures err { OnErr result (self.new ≡ self.old) }
        ensures fault { IfErr result (IsJoinFault (merge_clash ⟦<Report as PartialEq>⟧.eq self.old other.now) (merge_full self.old other.now)) }
    {
        self.contents.merge(&other.contents)
    }

    /// The least origin of which neither this chain nor the other's begins with the other one; `None` where each two agree. It
    /// takes no memory.
    pub fn fork(&self, other: &Replica) -> Option<u32>
        ensures { result ≡ clash_key (differ_at same_report) self.now.chains other.now.chains }
    {
        self.contents.fork(&other.contents)
    }

    /// Makes the book of the log where none is kept, so that the bill costs what changed from here on. That goes over the whole log
    /// once, at about three times the cost of one `totals` without a book, and holds each settled report once more: it pays where more
    /// than a few bills are asked before the next long list. Where a growth was refused there is no book still.
    pub fn keep_book(&mut self) -> Result<(), AllocError>
        ensures { self.new ≡ self.old }
    {
        self.contents.keep_book()
    }

    /// Whether a book of the log is kept. Else `totals` meters the whole log. It says nothing of what the replica holds.
    pub fn keeps_book(&self) -> bool {
        self.contents.keeps_book()
    }

    /// The bill of the log under the plan: read from the book where one is kept, else metered from the whole log. `AllocError` comes
    /// where a growth was refused, and leaves the replica as it was.
    pub fn totals(&self) -> Result<Bill, AllocError>
        ensures { IfOk result (λ bill. bill ≡ bill_of self.now.plan self.now.log) }
    {
        self.contents.totals()
    }
}

// Absorbs runs, unless one of them has a fault.
fn absorb_runs(contents: &mut Contents, runs: &[Run]) -> Result<u64, AbsorbFault>
    requires { AreRuns runs.now }
    ensures state { contents.new.replica ≡ absorbed contents.old.replica runs.now (outcome_of result) }
    ensures outcome { IsOutcome contents.old.replica.name (chain_of contents.old.replica) runs.now (outcome_of result) }
    ensures stop { IsStopOf contents.new.replica (rests (chain_of contents.old.replica) runs.now) result }
{
    if let Some(fault) = contents.refusal(runs) {
        return Err(fault);
    }
    match append_runs(contents, runs) {
        Ok(count) => Ok(count),
        Err(stop) => Err(AbsorbFault::Stopped {
            taken: stop.taken,
            cause: stop.cause,
        }),
    }
}

// Takes reports. A list of them is made only where they may be taken at once.
fn take_slice(contents: &mut Contents, reports: &[Report]) -> Taken
    ensures within { result.taken ≤ length reports.now }
    ensures state { contents.new.replica ≡ taken contents.old.replica (take result.taken reports.now) }
    ensures fresh { result.fresh ≡ length (fresh_of contents.old.replica.log (take result.taken reports.now)) }
    ensures stop { IsStopAt contents.new.replica.log reports.now result.taken result.stop }
{
    match contents.list_of(reports) {
        Some(list) => take_list(contents, &list),
        None => take_each(contents, reports),
    }
}

// Takes the reports of a list: all at once where that serves, else one by one. At once the log is sorted and metered once for all of
// them, but it says nothing of how far it came; where there is no room for all, one by one finds the first that the log doesn't take.
// Both ways leave the same, and a list that went one by one has changed nothing before.
fn take_list(contents: &mut Contents, reports: &Items<Report>) -> Taken
    ensures within { result.taken ≤ length reports.now }
    ensures state { contents.new.replica ≡ taken contents.old.replica (take result.taken reports.now) }
    ensures fresh { result.fresh ≡ length (fresh_of contents.old.replica.log (take result.taken reports.now)) }
    ensures stop { IsStopAt contents.new.replica.log reports.now result.taken result.stop }
{
    if let Some(fresh) = contents.take_at_once(reports) {
        return Taken {
            taken: reports.len() as u64,
            fresh,
            stop: None,
        };
    }
    take_each(contents, reports.as_slice())
}

// Takes reports one by one. A book that is kept stays.
fn take_each(contents: &mut Contents, reports: &[Report]) -> Taken
    ensures within { result.taken ≤ length reports.now }
    ensures state { contents.new.replica ≡ taken contents.old.replica (take result.taken reports.now) }
    ensures fresh { result.fresh ≡ length (fresh_of contents.old.replica.log (take result.taken reports.now)) }
    ensures stop { IsStopAt contents.new.replica.log reports.now result.taken result.stop }
    ensures stays { contents.old.billing.kept ≡ true → contents.new.billing.kept ≡ true }
{
    let mut taken = 0;
    let mut fresh = 0;
    for report in reports {
        match contents.take_report(*report) {
            Ok(new) => {
                taken += 1;
                if new {
                    fresh += 1;
                }
            }
            Err(fault) => {
                return Taken {
                    taken,
                    fresh,
                    stop: Some(fault),
                };
            }
        }
    }
    Taken {
        taken,
        fresh,
        stop: None,
    }
}
