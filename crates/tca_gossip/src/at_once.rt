//! Many reports at once.
//!
//! The chains get those that are new, or a copy of the chains does, which then takes their place; the log gets them too, and no book is kept.
//! Reports are sorted once, and metered when the bill is asked, where one by one each report is searched for, put in its place and noted
//! in its lane. They go in at once only where they are many beside all that is copied, merged or metered for them. Where there is no room
//! for that nothing has changed, so the reports can still be taken one by one, which names the first that has no room.
ghost use Rattle.std.specs.Prelude.{◌≡◌, ℕ, ◌+◌, ◌/◌, ◌≤◌, max, ◌++◌, length, true, false, IfOk, IfSome, OnErr, OnOk, None};
ghost use Rattle.std.specs.List.Sorted.{IsStrictlySortedBy};
ghost use Rattle.tca_join.specs.Sets.{in_order};
ghost use Rattle.tca_report.specs.report.Reports.{report_cmp};
ghost use Rattle.tca_gossip.specs.Replicas.{appended, chain_of, fresh_of, of, reports_in, taken, with_origin};
ghost use Rattle.tca_gossip.specs.Runs.{AreRuns, first_fault, rest_of, rests};
ghost use Rattle.tca_gossip.specs.inside.Storage.{held_of};
ghost use Rattle.tca_join.specs.Chains.{most_items};
ghost use Rattle.tca_join.specs.Maps.{Rises};

use crate::chains::{count_all, extend, held_of};
use crate::contents::Contents;
use crate::fresh::fresh_in;
use crate::run::Run;
use std::alloc::{AllocError, Global};
use tca_join::{ByKey, Chain, Items, Join};
use tca_log::rows::LIMIT;
use tca_log::{Log, LogFault, set_in};
use tca_report::Report;

/// The least list that is taken at once, whatever the log is.
const LEAST: usize = 1_024;

/// Of what is copied, merged or metered for reports, one in so many must be among them.
const PART: usize = 8;

// A `let _rises` is a call for its clause alone: that keys ascend.

// The least list that is taken at once beside a log: an eighth of it, since the whole log is merged and metered for the list. The own
// chain is copied too, and is no longer than the log, since each of its reports was new there.
fn least_beside(log: &Log) -> usize
    ensures { result ≡ max 1024 (length log.now / 8) }
{
    LEAST.max(log.len() as usize / PART)
}

impl Contents {
    /// A list of these reports, unless they are few beside the log or there is no room for it.
    pub(crate) fn list_of(&self, reports: &[Report]) -> Option<Items<Report>>
        ensures { IfSome result (λ list. list ≡ reports.now) }
    {
        if reports.len() < least_beside(&self.log) {
            return None;
        }
        let list = Vec::from_slice(self.alloc, reports).ok()?;
        Items::of(self.alloc, list).ok()
    }

    /// Takes the reports of a list at once, and answers how many were new at their turn. `None` says that it took none, where the list is
    /// short beside the log or there is no room, and then nothing has changed.
    pub(crate) fn take_at_once(&mut self, reports: &Items<Report>) -> Option<u64>
        ensures state { IfSome result (λ _. self.new.replica ≡ taken self.old.replica reports.now) }
        ensures fresh { IfSome result (λ n. n ≡ length (fresh_of self.old.replica.log reports.now)) }
        ensures same { result ≡ None → self.new ≡ self.old }
    {
        if reports.len() < least_beside(&self.log) {
            return None;
        }
        match self.take_whole(reports) {
            Ok(fresh) => Some(fresh),
            Err(_) => None,
        }
    }

    // Takes all reports, or none where there is no room, and answers how many were new at their turn.
    fn take_whole(&mut self, reports: &Items<Report>) -> Result<u64, LogFault>
        ensures state { OnOk result (self.new.replica ≡ taken self.old.replica reports.now) }
        ensures fresh { IfOk result (λ n. n ≡ length (fresh_of self.old.replica.log reports.now)) }
        ensures err { OnErr result (self.new ≡ self.old) }
    {
        if self.take_ascending(reports)? {
            return Ok(reports.len() as u64);
        }
        self.take_by_set(reports)
    }

    // The same, by the set of the reports, which the log gets.
    fn take_by_set(&mut self, reports: &Items<Report>) -> Result<u64, LogFault>
        ensures state { OnOk result (self.new.replica ≡ taken self.old.replica reports.now) }
        ensures fresh { IfOk result (λ n. n ≡ length (fresh_of self.old.replica.log reports.now)) }
        ensures err { OnErr result (self.new ≡ self.old) }
    {
        let set = set_in(self.alloc, reports)?;
        let fresh = fresh_in(self.alloc, &self.log, set.as_slice(), reports)?;
        if fresh.len() == 0 {
            return Ok(0);
        }
        self.put_fresh(fresh, set)
    }

    // Takes all reports of a list that ascends, where none is held yet, and answers whether it did. The log and the own chain share the
    // list. All chains are copied, but where the log has no report they have none either, since the log is the set of theirs.
    fn take_ascending(&mut self, reports: &Items<Report>) -> Result<bool, AllocError>
        ensures state { IfOk result (λ took. took ≡ true → self.new.replica ≡ taken self.old.replica reports.now) }
        ensures fresh { IfOk result (λ took. took ≡ true → fresh_of self.old.replica.log reports.now ≡ reports.now) }
        ensures kept { IfOk result (λ took. took ≡ false → self.new ≡ self.old) }
        ensures err { OnErr result (self.new ≡ self.old) }
    {
        if self.log.len() > 0 || reports.len() > LIMIT {
            return Ok(false);
        }
        // The log is the last that may refuse, and whether the list ascends only it tells.
        let chains = extended_copy(&self.chains, self.name, reports)?;
        if !self.log.take_shared(reports)? {
            return Ok(false);
        }
        self.billing.release(self.alloc);
        self.chains = chains;
        Ok(true)
    }

    // Puts reports that are new at the end of the own chain, and their set, which may have more that is held already, into the log; all
    // of that, or nothing. Answers how many they were. The log, which takes the most memory, comes when the chain before is gone; where it
    // is refused, the first items of the new one are those again.
    fn put_fresh(&mut self, fresh: Items<Report>, set: Items<Report>) -> Result<u64, LogFault>
        requires same { in_order report_cmp (self.old.replica.log ++ set) ≡ in_order report_cmp (self.old.replica.log ++ fresh) }
        requires new { length fresh + length self.old.replica.log ≤ length (in_order report_cmp (self.old.replica.log ++ fresh)) }
        requires rises { IsStrictlySortedBy report_cmp set }
        ensures state { OnOk result (self.new.replica ≡ appended self.old.replica (with_origin self.old.replica.name fresh)) }
        ensures count { IfOk result (λ n. n ≡ length fresh) }
        ensures err { OnErr result (self.new ≡ self.old) }
    {
        let count = fresh.len();
        if count > LIMIT - self.log.len() as usize {
            return Err(LogFault::Full);
        }
        let held = held_of(&self.chains, self.name);
        let have = held.len();
        let list = with_fresh(self.alloc, held, fresh)?;
        let both = list.share()?;
        self.chains.set(self.name, Chain::of(list))?;
        let _rises = self.chains.keys();
        if let Err(fault) = self.log.add_set(set) {
            let _ = self.chains.set(self.name, Chain::of(both.first(have)));
            return Err(fault);
        }
        self.billing.release(self.alloc);
        Ok(count as u64)
    }

    /// Appends what runs have past the chains at once, where this is how many reports that is, and answers whether it did. It doesn't
    /// where they are few beside the log or beside what all chains hold, or where there is no room, and then nothing has changed.
    ///
    /// All chains are copied for it, and they may hold far more than the log: another origin's chain may have one report any number
    /// of times.
    pub(crate) fn append_at_once(&mut self, runs: &[Run], count: u64) -> bool
        requires right { AreRuns runs.now }
        requires good { first_fault self.old.replica.name (chain_of self.old.replica) runs.now ≡ None }
        ensures state { result ≡ true → self.new.replica ≡ appended self.old.replica (rests (chain_of self.old.replica) runs.now) }
        ensures same { result ≡ false → self.new ≡ self.old }
    {
        if count < least_beside(&self.log) as u64 || count < count_all(&self.chains) / PART as u64 {
            return false;
        }
        match self.append_whole(runs) {
            Ok(()) => true,
            Err(_) => false,
        }
    }

    // Appends what runs have past the chains: all of it, or nothing.
    fn append_whole(&mut self, runs: &[Run]) -> Result<(), LogFault>
        requires right { AreRuns runs.now }
        requires good { first_fault self.old.replica.name (chain_of self.old.replica) runs.now ≡ None }
        ensures ok { OnOk result (self.new.replica ≡ appended self.old.replica (rests (chain_of self.old.replica) runs.now)) }
        ensures err { OnErr result (self.new ≡ self.old) }
    {
        let mut chains = self.chains.copy()?;
        let list = extend_all(self.alloc, &mut chains, runs)?;
        let _rises = chains.keys();
        self.log.add_list(list)?;
        self.billing.release(self.alloc);
        self.chains = chains;
        Ok(())
    }
}

// The reports of a chain and those of a list behind them, as one list: that list itself where the chain has none.
fn with_fresh(
    alloc: Global,
    held: &[Report],
    fresh: Items<Report>,
) -> Result<Items<Report>, AllocError>
    requires { length held.now + length fresh ≤ most_items }
    ensures { IfOk result (λ all. all ≡ held.now ++ fresh) }
{
    if held.len() == 0 {
        return Ok(fresh);
    }
    let mut all = Vec::with_capacity(alloc, held.len() + fresh.len())?;
    all.extend_from_slice(held)?;
    all.extend_from_slice(fresh.as_slice())?;
    Items::of(alloc, all)
}

// A copy of chains, with a list at the end of the chain of an origin, which shares the list where there was no such chain.
fn extended_copy(
    chains: &ByKey<Chain<Report>>,
    origin: u32,
    reports: &Items<Report>,
) -> Result<ByKey<Chain<Report>>, AllocError>
    requires { length (held_of chains.now origin) + length reports.now ≤ most_items }
    ensures rises { IfOk result (λ all. Rises all) }
    ensures kept { IfOk result (λ all. (q : ℕ) → held_of all q ≡ held_of chains.now q ++ of q (with_origin origin reports.now)) }
{
    let mut all = chains.copy()?;
    extend(&mut all, origin, reports.share()?)?;
    let _rises = all.keys();
    Ok(all)
}

// Appends what a run has past the chain of its origin, and answers with it. Where that is nothing no chain is made.
fn extend_one(
    alloc: Global,
    chains: &mut ByKey<Chain<Report>>,
    run: &Run,
) -> Result<Items<Report>, AllocError>
    requires { run.now.start + length run.now.reports ≤ most_items }
    ensures kept { OnOk result ((q : ℕ) → held_of chains.new q ≡ held_of chains.old q ++ of q (with_origin run.now.origin (rest_of (held_of chains.old) run.now))) }
    ensures rest { IfOk result (λ rest. rest ≡ rest_of (held_of chains.old) run.now) }
{
    let origin = run.origin();
    let rest = run.rest(alloc, held_of(chains, origin).len())?;
    if rest.len() > 0 {
        extend(chains, origin, rest.share()?)?;
    }
    Ok(rest)
}

// Appends what runs have past the chains of their origins, and answers with all of it: of one run with the list that it shares.
fn extend_all(
    alloc: Global,
    chains: &mut ByKey<Chain<Report>>,
    runs: &[Run],
) -> Result<Items<Report>, AllocError>
    requires { AreRuns runs.now }
    ensures kept { OnOk result ((q : ℕ) → held_of chains.new q ≡ held_of chains.old q ++ of q (rests (held_of chains.old) runs.now)) }
    ensures list { IfOk result (λ list. list ≡ reports_in (rests (held_of chains.old) runs.now)) }
{
    if runs.len() == 1 {
        return extend_one(alloc, chains, &runs[0]);
    }
    let mut list = Vec::new(alloc);
    for run in runs {
        let rest = extend_one(alloc, chains, run)?;
        list.extend_from_slice(rest.as_slice())?;
    }
    Items::of(alloc, list)
}
