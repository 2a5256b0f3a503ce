//! The bill of a log under a plan.
ghost use Rattle.std.specs.Prelude.{◌≡◌, ◌↔◌, IfOk, IsTrue, OnOk, List, [], length, map};
ghost use Rattle.std.specs.List.{AllByRecursion};
ghost use Rattle.tca_report.specs.report.Reports.{PacketReport};
ghost use Rattle.tca_log.specs.Disputes.{undisputed};
ghost use Rattle.tca_accounts.specs.Spans.{Ascend};
ghost use Rattle.tca_accounts.specs.Bills.{bill_of, unassigned};
ghost use Rattle.tca_accounts.specs.Metering.{AreRunning, tally_so_far};

use crate::period::Period;
use crate::plan::Plan;
use crate::running::Running;
use crate::tally::{Tallies, Tally};
use std::alloc::{AllocError, Global};
use tca_log::Log;

/// What a plan's accounts owe for a log.
#[derive(Drop)]
pub struct Bill {
    /// How many reports the log has.
    pub reports: u32,
    /// How many of its identities are disputed.
    pub disputed: u32,
    /// How many reports that no other disputes have no account.
    pub unassigned: u32,
    /// The sums of each account, in the plan's order.
    pub accounts: Tallies,
}

impl Bill {
    /// Whether both say the same. It takes no memory.
    pub fn is_same(&self, other: &Bill) -> bool
        ensures { IsTrue result ↔ (self.now ≡ other.now) }
    {
        self.reports == other.reports
            && self.disputed == other.disputed
            && self.unassigned == other.unassigned
            && self.accounts.is_same(&other.accounts)
    }

    /// The same bill once more. `AllocError` comes where a growth was refused, which changes nothing.
    pub fn copy(&self, alloc: Global) -> Result<Bill, AllocError>
        ensures { IfOk result (λ b. b ≡ self.now) }
    {
        Ok(Bill {
            reports: self.reports,
            disputed: self.disputed,
            unassigned: self.unassigned,
            accounts: self.accounts.copy(alloc)?,
        })
    }
}

/// The bill of a log: each account's meter is fed the settled reports that it owns, in order, from time 0 on
/// (RFC 2697, RFC 2698, RFC 4115), each with the precolour of its code point (RFC 2597 section 6) or the account's
/// other colour. It goes over the log once, and takes memory for the accounts and their spans alone. `AllocError`
/// comes where a growth was refused.
pub fn bill_all(alloc: Global, plan: &Plan, log: &Log) -> Result<Bill, AllocError>
    ensures { IfOk result (λ bill. bill ≡ bill_of plan.now log.now) }
{
    let mut accounts = begin(alloc, plan)?;
    let unassigned = meter_all(plan, log, &mut accounts)?;
    Ok(Bill {
        reports: log.len(),
        disputed: log.disputed(),
        unassigned,
        accounts: finish(alloc, accounts)?,
    })
}

// Each account of a plan, before its first report.
fn begin(alloc: Global, plan: &Plan) -> Result<Vec<Running>, AllocError>
    ensures { IfOk result (λ list. (all : List PacketReport) → AreRunning plan.now all all list.items) }
{
    let mut list = Vec::new(alloc);
    for n in 0..plan.accounts() {
        list.push(Running::new(alloc, plan.meter(n), plan.other(n)))?;
    }
    Ok(list)
}

// Meters each settled report in the account that owns it. The answer is how many none owns.
fn meter_all(plan: &Plan, log: &Log, accounts: &mut Vec<Running>) -> Result<u32, AllocError>
    requires { AreRunning plan.now (undisputed log.now) (undisputed log.now) accounts.old.items }
    ensures unassigned { IfOk result (λ n. n ≡ length (unassigned plan.now log.now)) }
    ensures running { OnOk result (AreRunning plan.now (undisputed log.now) [] accounts.new.items) }
{
    let mut period = Period::new(plan.period());
    let mut unassigned = 0;
    for report in log.settled() {
        let Some(n) = plan.account_of(report) else {
            unassigned += 1;
            continue;
        };
        let account = &mut accounts[n as usize];
        account.add(&mut period, report)?;
    }
    Ok(unassigned)
}

// The tally of each account.
fn finish(alloc: Global, accounts: Vec<Running>) -> Result<Tallies, AllocError>
    requires { AllByRecursion (λ r. Ascend (tally_so_far r).spans) accounts.items }
    ensures { IfOk result (λ tallies. tallies ≡ map tally_so_far accounts.items) }
{
    let mut list = Vec::new(alloc);
    for account in accounts {
        list.push(account.finish()?)?;
    }
    Ok(Tallies::new(list))
}
