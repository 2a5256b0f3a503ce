//! Log, chains and bill of a replica, which agree after each call.
ghost use Rattle.std.specs.Prelude.{◌≡◌, ◌≢◌, ℕ, ◌⊎◌, ◌<◌, ◌≤◌, [], length, true, false, not, OnOk, OnErr, IfOk, IfErr, IfSome, None};
ghost use Rattle.tca_report.specs.report.Reports.{report_cmp};
ghost use Rattle.tca_join.specs.Sets.{has};
ghost use Rattle.tca_accounts.specs.Bills.{bill_of};
ghost use Rattle.tca_join.specs.Chains.{chain_clash, chain_joined, differ_at, most_items};
ghost use Rattle.tca_join.specs.Faults.{IsJoinFault};
ghost use Rattle.tca_join.specs.declared.fault.JoinFault.TheVariants.{Memory};
ghost use Rattle.tca_join.specs.Maps.{clash_key, merged};
ghost use Rattle.tca_gossip.specs.Replicas.{IsReplica, append_one, chain_of, least_of, merge_clash, merge_full, merged_with, new_replica, take_one};
ghost use Rattle.tca_gossip.specs.Runs.{AreRuns, delta_of, first_fault, summary_count};
ghost use Rattle.tca_gossip.specs.Coupling.{counts_of};
ghost use Rattle.tca_gossip.specs.Answers.{IsRefusal, IsRefusedFor, fault_view};
ghost use Rattle.tca_gossip.specs.inside.Storage.{IsOwnWithin, IsResumed, clash_in, replica_of};

use crate::absorb::refusal;
use crate::billing::Billing;
use crate::chains::{held_of, push, reserve};
use crate::delta::delta_for;
use crate::fault::AbsorbFault;
use crate::run::{Delta, Run, Summary};
use crate::summary::summary_of;
use std::alloc::{AllocError, Global};
use std::marker::Model;
use tca_accounts::{Bill, Plan};
use tca_join::{ByKey, Chain, Join, JoinFault};
use tca_log::rows::LIMIT;
use tca_log::{Log, LogFault};
use tca_report::Report;

/// What a replica holds.
#[derive(Drop)]
pub(crate) struct Contents {
    pub(crate) alloc: Global,
    pub(crate) name: u32,
    pub(crate) log: Log,
    pub(crate) chains: ByKey<Chain<Report>>,
    pub(crate) billing: Billing,
}

impl Model for Contents {
    ghost use Rattle.tca_gossip.specs.inside.Storage.{AreContents, ContentsView, replica_of};

    ghost Value = { ContentsView };

    ghost view = { λ c. record { replica = replica_of c.name c.billing.plan c.log c.chains; billing = c.billing } };

    ghost invariant = { λ c. AreContents c.name c.log c.chains c.billing };
}

// A `let _rises` or `let _count` is a call for its clause alone: that keys or reports ascend, or how many there may be.
impl Contents {
    /// Nothing.
    pub(crate) fn new(alloc: Global, name: u32, plan: Plan) -> Result<Contents, AllocError>
        ensures replica { IfOk result (λ c. c.replica ≡ new_replica plan name) }
        ensures resumed { IfOk result (λ c. IsResumed c.billing) }
        ensures kept { IfOk result (λ c. c.billing.kept ≡ true) }
    {
        Ok(Contents {
            alloc,
            name,
            log: Log::new(alloc),
            chains: ByKey::new(alloc),
            billing: Billing::new(alloc, plan)?,
        })
    }

    /// The chain of an origin.
    pub(crate) fn chain(&self, origin: u32) -> &[Report]
        ensures items { result.now ≡ chain_of self.now.replica origin }
        ensures limit { length result.now ≤ most_items }
    {
        let _rises = self.chains.keys();
        held_of(&self.chains, origin)
    }

    /// The log alone.
    pub(crate) fn into_log(self) -> Log
        ensures { result ≡ self.replica.log }
    {
        let Contents { log, .. } = self;
        log
    }

    /// Appends a report to the chain of an origin, and adds it to log and book: all of that, or nothing.
    pub(crate) fn append(&mut self, origin: u32, report: Report) -> Result<(), LogFault>
        requires own { origin ≡ self.old.replica.name → has report_cmp self.old.replica.log report ≡ false }
        requires other { origin ≢ self.old.replica.name → length (chain_of self.old.replica origin) < most_items }
        ensures ok { OnOk result (self.new.replica ≡ append_one self.old.replica (origin, report)) }
        ensures err { OnErr result (self.new.replica ≡ self.old.replica) }
        ensures kept { OnOk result (self.new.billing.kept ≡ true) }
        ensures stays { self.old.billing.kept ≡ true → self.new.billing.kept ≡ true }
        ensures fault { IfErr result (λ e. IsRefusedFor e self.old.replica.log report) }
    {
        let held = self.log.contains(&report);
        if !held && self.log.len() as usize >= LIMIT {
            return Err(LogFault::Full);
        }
        self.billing.ready(self.alloc, &self.log, &report)?;
        reserve(self.alloc, &mut self.chains, origin)?;
        let _rises = self.log.reports();
        let added = self.log.add(report)?;
        let _count = self.log.len();
        push(&mut self.chains, origin, report);
        self.billing.apply(report, added);
        Ok(())
    }

    /// Takes one report, and answers whether it was new. After a new one a book is kept.
    pub(crate) fn take_report(&mut self, report: Report) -> Result<bool, LogFault>
        ensures state { OnOk result (self.new.replica ≡ take_one self.old.replica report) }
        ensures fresh { IfOk result (λ new. new ≡ not (has report_cmp self.old.replica.log report)) }
        ensures err { OnErr result (self.new.replica ≡ self.old.replica) }
        ensures unheld { OnErr result (has report_cmp self.old.replica.log report ≡ false) }
        ensures kept { IfOk result (λ new. new ≡ true → self.new.billing.kept ≡ true) }
        ensures stays { self.old.billing.kept ≡ true → self.new.billing.kept ≡ true }
        ensures fault { IfErr result (λ e. IsRefusedFor e self.old.replica.log report) }
    {
        if self.log.contains(&report) {
            return Ok(false);
        }
        self.append(self.name, report)?;
        Ok(true)
    }

    /// Why runs are refused: the fault of the first run that has one.
    pub(crate) fn refusal(&self, runs: &[Run]) -> Option<AbsorbFault>
        requires { AreRuns runs.now }
        ensures fault { fault_view result ≡ first_fault self.now.replica.name (chain_of self.now.replica) runs.now }
        ensures refused { IfSome result IsRefusal }
    {
        let _rises = self.chains.keys();
        refusal(self.name, &self.chains, runs)
    }

    /// The least origin of which neither chain begins with the other. It takes no memory.
    pub(crate) fn fork(&self, other: &Contents) -> Option<u32>
        ensures { result ≡ clash_key (differ_at ⟦<Report as PartialEq>⟧.eq) self.now.replica.chains other.now.replica.chains }
    {
        let _rises = self.chains.keys();
        origin_of(self.chains.refusal(&other.chains))
    }

    /// The least origin at which a merge with another's contents clashes. It takes no memory.
    fn clash(&self, other: &Contents) -> Option<u32>
        ensures { result ≡ merge_clash ⟦<Report as PartialEq>⟧.eq self.now.replica other.now.replica }
    {
        let _rises = self.chains.keys();
        let ahead = self.chain(self.name).len() < other.chain(self.name).len();
        least(
            origin_of(self.chains.refusal(&other.chains)),
            ahead.then_some(self.name),
        )
    }

    /// Joins these contents with those of another: all, or nothing.
    pub(crate) fn merge(&mut self, other: &Contents) -> Result<(), JoinFault>
        ensures ok { OnOk result (self.new.replica ≡ merged_with self.old.replica other.now.replica) }
        ensures resumed { OnOk result (IsResumed self.new.billing) }
        ensures compatible { OnOk result (merge_clash ⟦<Report as PartialEq>⟧.eq self.old.replica other.now.replica ≡ None) }
        ensures within { OnOk result (merge_full self.old.replica other.now.replica ≡ false) }
        ensures err { OnErr result (self.new ≡ self.old) }
        ensures fault { IfErr result (IsJoinFault (merge_clash ⟦<Report as PartialEq>⟧.eq self.old.replica other.now.replica) (merge_full self.old.replica other.now.replica)) }
    {
        if let Some(key) = self.clash(other) {
            return Err(JoinFault::Clash { key });
        }
        if let Some(fault) = self.log.refusal(&other.log) {
            return Err(fault);
        }
        let chains = joined_copy(&self.chains, &other.chains)?;
        self.log.join_from(&other.log)?;
        self.billing.release(self.alloc);
        self.chains = chains;
        Ok(())
    }

    /// How long each chain is, without empty ones.
    pub(crate) fn summary(&self) -> Result<Summary, AllocError>
        ensures exact { IfOk result (λ s. s ≡ counts_of self.now.replica.chains) }
        ensures each { IfOk result (λ s. (o : ℕ) → summary_count s o ≡ length (chain_of self.now.replica o)) }
    {
        summary_of(self.alloc, &self.chains)
    }

    /// For each origin of which more is held than a summary counts, the run of the rest.
    pub(crate) fn delta(&self, since: &Summary) -> Result<Delta, AllocError>
        ensures { IfOk result (λ d. d ≡ delta_of (summary_count since.now) self.now.replica.chains) }
    {
        delta_for(self.alloc, &self.chains, since)
    }

    /// Makes the log's book where none is kept. Where a growth is refused there is none still, and nothing changes.
    pub(crate) fn keep_book(&mut self) -> Result<(), AllocError>
        ensures replica { self.new.replica ≡ self.old.replica }
        ensures kept { OnOk result (self.new.billing.kept ≡ true) }
        ensures none { OnErr result (self.new.billing.kept ≡ false) }
        ensures err { OnErr result (self.new ≡ self.old) }
        ensures resumed { IsResumed self.old.billing → IsResumed self.new.billing }
    {
        self.billing.keep(self.alloc, &self.log)
    }

    /// Whether a book is kept.
    pub(crate) fn keeps_book(&self) -> bool
        ensures { result ≡ self.now.billing.kept }
    {
        self.billing.is_kept()
    }

    /// Meters again what changed. It takes no memory.
    pub(crate) fn settle(&mut self)
        ensures replica { self.new.replica ≡ self.old.replica }
        ensures kept { self.new.billing.kept ≡ self.old.billing.kept }
        ensures resumed { IsResumed self.new.billing }
    {
        self.billing.settle();
    }

    /// The bill of the log.
    pub(crate) fn totals(&self) -> Result<Bill, AllocError>
        requires { IsResumed self.now.billing }
        ensures { IfOk result (λ bill. bill ≡ bill_of self.now.replica.plan self.now.replica.log) }
    {
        self.billing.totals(self.alloc, &self.log)
    }

    /// What holds of each.
    pub(crate) fn known(&self)
        ensures replica { IsReplica self.now.replica }
        ensures within { IsOwnWithin self.now.replica }
    {
        let _rises = self.chains.keys();
    }
}

// A copy of chains, joined with others where no two of one origin clash. It is refused for want of memory alone.
fn joined_copy(
    chains: &ByKey<Chain<Report>>,
    others: &ByKey<Chain<Report>>,
) -> Result<ByKey<Chain<Report>>, JoinFault>
    requires { clash_key (chain_clash ⟦<Report as PartialEq>⟧.eq) chains.now others.now ≡ None }
    ensures all { IfOk result (λ all. all ≡ merged chain_joined chains.now others.now) }
    ensures fault { IfErr result (λ e. e ≡ Memory) }
{
    let mut all = chains.copy()?;
    all.join_from(others)?;
    Ok(all)
}

// The origin that a clash names.
fn origin_of(fault: Option<JoinFault>) -> Option<u32>
    ensures { result ≡ clash_in fault }
{
    match fault {
        Some(JoinFault::Clash { key }) => Some(key),
        _ => None,
    }
}

// The lesser of two origins that may be missing.
fn least(one: Option<u32>, other: Option<u32>) -> Option<u32>
    ensures { result ≡ least_of one other }
{
    match (one, other) {
        (Some(key), Some(origin)) if origin < key => Some(origin),
        (Some(key), _) => Some(key),
        (None, origin) => origin,
    }
}
