//! The lanes of all accounts of a plan, and the counts of its bill.
ghost use Rattle.std.specs.Prelude.{◌≡◌, ℕ, ◌-◌, ◌^◌, ◌<◌, ◌≤◌, min, List, [], length, map, is_none, IfOk, OnOk, OnErr};
ghost use Rattle.std.specs.List.Sorted.{IsStrictlySortedBy};
ghost use Rattle.tca_join.specs.Sets.{put};
ghost use Rattle.tca_report.specs.report.Reports.{PacketReport, report_cmp};
ghost use Rattle.tca_log.specs.Disputes as disputes;
ghost use Rattle.tca_accounts.specs.Bills.{bill_of};
ghost use Rattle.tca_log.specs.declared.answer.Added.TheVariants.{Fresh, NewDispute};
ghost use Rattle.tca_accounts.specs.Plans.{account_of};
ghost use Rattle.tca_replay.specs.Lanes.{lane_put, lane_less, lane_ready, lane_resumed, most_rows_a_mark};
ghost use Rattle.tca_replay.specs.Books.{all_steps, fewest_steps, row_count, book_after, book_ready, book_settled, most_steps, lane_tally, lanes_at, one_if, CanEnter, CanLeave, AreEmpty, AreFilled, AreLanes, AreResumed, Fits, IsReady, Takes};

use crate::lane::{Lane, Replayed};
use std::alloc::{AllocError, Allocator, Global};
use std::marker::Model;
use tca_accounts::{Bill, Plan, Tallies, Tally};
use tca_log::{Added, Log};
use tca_meters::Termed;
use tca_report::Report;

/// A lane for each account of a plan, and the counts of the bill.
///
/// A book goes with a log. It fits the log's set where each lane has the settled reports of its account and the counts are
/// those of the set's bill. For one report: `ready`, then the log's `add`, then `apply` with its answer, and the book fits
/// the new set. After `settle` its totals are the bill of the set.
#[derive(Drop)]
pub struct Book<A: Allocator + Copy = Global> {
    plan: Plan,
    k: u32,
    lanes: Vec<Lane<Termed, A>, A>,
    reports: u32,
    disputed: u32,
    unassigned: u32,
}

impl<A: Allocator + Copy> Model for Book<A> {
    ghost use Rattle.tca_replay.specs.Books.{BookView, IsBook};

    ghost Value = { BookView };

    ghost view = { λ b. record { plan = b.plan; k = b.k; lanes = b.lanes.items; reports = b.reports; disputed = b.disputed; unassigned = b.unassigned } };

    ghost invariant = { λ b. IsBook b.plan b.k b.lanes.items };
}

impl<A: Allocator + Copy> Book<A> {
    /// A book without reports, whose lanes have a mark after each `k` rows. `AllocError` comes where a growth was refused.
    pub fn new(alloc: A, plan: Plan, k: u32) -> Result<Book<A>, AllocError>
        requires some_rows { 0 < k }
        requires few_rows { k ≤ most_rows_a_mark }
        ensures plan { IfOk result (λ b. b.plan ≡ plan) }
        ensures marks { IfOk result (λ b. b.k ≡ k) }
        ensures lanes { IfOk result (λ b. AreLanes plan k b.lanes) }
        ensures fits { IfOk result (λ b. Fits [] b) }
        ensures resumed { IfOk result (λ b. AreResumed b.lanes) }
    {
        let lanes = lanes_of(alloc, &plan, k)?;
        Ok(Book {
            plan,
            k,
            lanes,
            reports: 0,
            disputed: 0,
            unassigned: 0,
        })
    }

    /// The plan whose accounts the lanes are of.
    pub fn plan(&self) -> &Plan
        ensures { result.now ≡ self.now.plan }
    {
        &self.plan
    }

    /// Makes all room for one report, whatever the log will answer to it. `AllocError` comes where a growth was refused, and
    /// leaves the book as it was.
    pub fn ready(&mut self, report: &Report) -> Result<(), AllocError>
        ensures ok { OnOk result (self.new ≡ book_ready self.old report.now) }
        ensures room { OnOk result (IsReady self.new report.now) }
        ensures fits { (rs : List PacketReport) → Fits rs self.old → Fits rs self.new }
        ensures err { OnErr result (self.new ≡ self.old) }
    {
        make_room(&self.plan, &mut self.lanes, report)
    }

    /// Applies what a log answered to a report, where the book fits the set that the log had. A fresh report comes to the
    /// lane of its account; at a first dispute the report that was settled until now leaves the lane of its own account,
    /// whatever its time; a repeat and a further content change no lane. It takes no memory.
    pub fn apply(&mut self, report: Report, added: Added)
        requires ready { IsReady self.old report }
        requires takes { Takes self.old report added }
        ensures book { self.new ≡ book_after self.old report added }
        ensures fits { (rs : List PacketReport) → IsStrictlySortedBy report_cmp rs → Fits rs self.old → added ≡ disputes.added rs report → Fits (put report_cmp report rs) self.new }
    {
        match added {
            Added::Fresh => self.take(report),
            Added::Repeat => {}
            Added::NewDispute { withdrawn } => self.dispute(&withdrawn),
            Added::MoreDispute => self.reports += 1,
        }
    }

    // The first report of its identity.
    fn take(&mut self, report: Report)
        requires ready { IsReady self.old report }
        requires takes { Takes self.old report Fresh }
        ensures { self.new ≡ book_after self.old report Fresh }
    {
        self.unassigned += enter(&self.plan, &mut self.lanes, report);
        self.reports += 1;
    }

    // The second content of an identity: the first one leaves.
    fn dispute(&mut self, withdrawn: &Report)
        requires takes { (r : PacketReport) × Takes self.old r (NewDispute withdrawn.now) }
        ensures { (r : PacketReport) → self.new ≡ book_after self.old r (NewDispute withdrawn.now) }
    {
        self.unassigned -= leave(&self.plan, &mut self.lanes, withdrawn);
        self.disputed += 1;
        self.reports += 1;
    }

    /// Resumes each lane, and answers how many rows were metered in all. It takes no memory.
    pub fn settle(&mut self) -> Replayed
        ensures book { self.new ≡ book_settled self.old }
        ensures resumed { AreResumed self.new.lanes }
        ensures fits { (rs : List PacketReport) → Fits rs self.old → Fits rs self.new }
        ensures steps { result.steps ≤ most_steps self.old.lanes }
        ensures all { min (fewest_steps self.old.lanes) (2 ^ 64 - 1) ≤ result.steps }
    {
        Replayed {
            steps: resume_all(&mut self.lanes),
        }
    }

    /// Makes the book one that fits a log's set, settled, in one pass over the log's settled reports, and answers how many
    /// rows were metered. It serves a log that got many reports at once. `AllocError` comes where a growth was refused, and
    /// leaves the book as it was.
    pub fn refit(&mut self, alloc: A, log: &Log) -> Result<Replayed, AllocError>
        ensures plan { self.new.plan ≡ self.old.plan }
        ensures marks { self.new.k ≡ self.old.k }
        ensures fits { OnOk result (Fits log.now self.new) }
        ensures resumed { OnOk result (AreResumed self.new.lanes) }
        ensures steps { IfOk result (λ r. r.steps ≤ all_steps self.new.lanes) }
        ensures all { IfOk result (λ r. min (row_count self.new.lanes) (2 ^ 64 - 1) ≤ r.steps) }
        ensures err { OnErr result (self.new ≡ self.old) }
    {
        let (mut lanes, unassigned) = lanes_with(alloc, &self.plan, self.k, log)?;
        let steps = resume_all(&mut lanes);
        self.lanes = lanes;
        self.reports = log.len();
        self.disputed = log.disputed();
        self.unassigned = unassigned;
        Ok(Replayed { steps })
    }

    /// The bill of the set that the book fits, once it is settled. `AllocError` comes where a growth was refused.
    pub fn totals(&self, alloc: Global) -> Result<Bill, AllocError>
        requires { AreResumed self.now.lanes }
        ensures { IfOk result (λ bill. (rs : List PacketReport) → Fits rs self.now → bill ≡ bill_of self.now.plan rs) }
    {
        Ok(Bill {
            reports: self.reports,
            disputed: self.disputed,
            unassigned: self.unassigned,
            accounts: Tallies::new(tallies(alloc, &self.lanes)?),
        })
    }
}

// A lane without rows for each account.
fn lanes_of<A: Allocator + Copy>(
    alloc: A,
    plan: &Plan,
    k: u32,
) -> Result<Vec<Lane<Termed, A>, A>, AllocError>
    requires some_rows { 0 < k }
    requires few_rows { k ≤ most_rows_a_mark }
    ensures lanes { IfOk result (λ lanes. AreLanes plan.now k lanes.items) }
    ensures empty { IfOk result (λ lanes. AreEmpty lanes.items) }
{
    let mut lanes = Vec::new(alloc);
    for n in 0..plan.accounts() {
        let lane = Lane::new(alloc, plan.meter(n), plan.other(n), plan.period(), k);
        lanes.push(lane)?;
    }
    Ok(lanes)
}

// Resumes each lane. The answer is how many rows were metered.
fn resume_all<A: Allocator + Copy>(lanes: &mut Vec<Lane<Termed, A>, A>) -> u64
    ensures lanes { lanes.new.items ≡ map lane_resumed lanes.old.items }
    ensures steps { result ≤ most_steps lanes.old.items }
    ensures all { min (fewest_steps lanes.old.items) (2 ^ 64 - 1) ≤ result }
{
    let mut steps: u64 = 0;
    for n in 0..lanes.len() {
        let lane = &mut lanes[n];
        steps = steps.saturating_add(lane.resume().steps);
    }
    steps
}

// The tally of each lane.
fn tallies<A: Allocator + Copy>(
    alloc: Global,
    lanes: &[Lane<Termed, A>],
) -> Result<Vec<Tally>, AllocError>
    requires { AreResumed lanes.now }
    ensures { IfOk result (λ list. list.items ≡ map lane_tally lanes.now) }
{
    let mut list = Vec::new(alloc);
    for lane in lanes {
        list.push(lane.tally(alloc)?)?;
    }
    Ok(list)
}

// Puts a report into the lane of its account. The answer is 1 where no account owns it, else 0.
fn enter<A: Allocator + Copy>(
    plan: &Plan,
    lanes: &mut Vec<Lane<Termed, A>, A>,
    report: Report,
) -> u32
    requires lanes { length lanes.old.items ≡ length plan.now.accounts }
    requires free { CanEnter plan.now lanes.old.items report }
    ensures lanes { lanes.new.items ≡ lanes_at (λ l. lane_put l report) (account_of plan.now report) lanes.old.items }
    ensures none { result ≡ one_if (is_none (account_of plan.now report)) }
{
    let Some(n) = plan.account_of(&report) else {
        return 1;
    };
    let lane = &mut lanes[n as usize];
    lane.put(report);
    0
}

// Takes a report from the lane of its account. The answer is 1 where no account owns it, else 0.
fn leave<A: Allocator + Copy>(
    plan: &Plan,
    lanes: &mut Vec<Lane<Termed, A>, A>,
    report: &Report,
) -> u32
    requires lanes { length lanes.old.items ≡ length plan.now.accounts }
    requires there { CanLeave plan.now lanes.old.items report.now }
    ensures lanes { lanes.new.items ≡ lanes_at (λ l. lane_less l report.now) (account_of plan.now report.now) lanes.old.items }
    ensures none { result ≡ one_if (is_none (account_of plan.now report.now)) }
{
    let Some(n) = plan.account_of(report) else {
        return 1;
    };
    let lane = &mut lanes[n as usize];
    lane.withdraw(report);
    0
}

// Makes room in the lane of a report's account.
fn make_room<A: Allocator + Copy>(
    plan: &Plan,
    lanes: &mut Vec<Lane<Termed, A>, A>,
    report: &Report,
) -> Result<(), AllocError>
    requires lanes { length lanes.old.items ≡ length plan.now.accounts }
    ensures ok { OnOk result (lanes.new.items ≡ lanes_at lane_ready (account_of plan.now report.now) lanes.old.items) }
    ensures err { OnErr result (lanes.new.items ≡ lanes.old.items) }
{
    let Some(n) = plan.account_of(report) else {
        return Ok(());
    };
    let lane = &mut lanes[n as usize];
    lane.reserve_row(report)
}

// Makes room in the lane of a report's account and puts the report into it, with one look-up of the account. The answer is 1 where
// no account owns it, else 0.
fn fill<A: Allocator + Copy>(
    plan: &Plan,
    lanes: &mut Vec<Lane<Termed, A>, A>,
    report: &Report,
) -> Result<u32, AllocError>
    requires lanes { length lanes.old.items ≡ length plan.now.accounts }
    requires free { CanEnter plan.now (lanes_at lane_ready (account_of plan.now report.now) lanes.old.items) report.now }
    ensures lanes { OnOk result (lanes.new.items ≡ lanes_at (λ l. lane_put l report.now) (account_of plan.now report.now) (lanes_at lane_ready (account_of plan.now report.now) lanes.old.items)) }
    ensures none { IfOk result (λ number. number ≡ one_if (is_none (account_of plan.now report.now))) }
{
    let Some(n) = plan.account_of(report) else {
        return Ok(1);
    };
    let lane = &mut lanes[n as usize];
    lane.reserve_row(report)?;
    lane.put(*report);
    Ok(0)
}

// A lane for each account with the settled reports of a log that it owns, and how many none owns.
fn lanes_with<A: Allocator + Copy>(
    alloc: A,
    plan: &Plan,
    k: u32,
    log: &Log,
) -> Result<(Vec<Lane<Termed, A>, A>, u32), AllocError>
    requires some_rows { 0 < k }
    requires few_rows { k ≤ most_rows_a_mark }
    ensures { IfOk result (λ p. AreFilled plan.now k (disputes.undisputed log.now) [] p.1 p.0.items) }
{
    let mut lanes = lanes_of(alloc, plan, k)?;
    let mut unassigned = 0;
    for report in log.settled() {
        unassigned += fill(plan, &mut lanes, report)?;
    }
    Ok((lanes, unassigned))
}
