//! The bill of a list of reports under a plan.
ghost use Rattle.std.specs.Prelude.{◌≡◌, ◌≤◌, IfOk, OnOk, List, [], length, map};
ghost use Rattle.std.specs.List.{AllByRecursion};
ghost use Rattle.std.specs.List.Sorted.{IsStrictlySortedBy};
ghost use Rattle.tca_report.specs.report.Reports.{PacketReport, report_cmp, most_reports};
ghost use Rattle.tca_log.specs.Disputes.{disputed, undisputed};
ghost use Rattle.tca_accounts.specs.Bills.{bill_of, unassigned};
ghost use Rattle.tca_accounts.specs.Spans.{Ascend};
ghost use Rattle.tca_audit.specs.inside.Metering.{AreMetering, tally_so_far};

use crate::account::Account;
use crate::disputes::{disputed_identities, is_among};
use std::alloc::{AllocError, Global};
use tca_accounts::{Bill, Plan, Tallies};
use tca_report::{Identity, Report};

/// The bill of reports that strictly ascend: each account's meter is fed the reports that it owns and that no other
/// disputes, in order, from time 0 on. `AllocError` comes where a growth was refused.
pub(crate) fn bill(alloc: Global, plan: &Plan, reports: &[Report]) -> Result<Bill, AllocError>
    requires rises { IsStrictlySortedBy report_cmp reports.now }
    requires few { length reports.now ≤ most_reports }
    ensures { IfOk result (λ bill. bill ≡ bill_of plan.now reports.now) }
{
    let disputes = disputed_identities(alloc, reports)?;
    let mut accounts = begin(alloc, plan)?;
    let unassigned = meter_all(plan, reports, &disputes, &mut accounts)?;
    Ok(Bill {
        reports: reports.len() as u32,
        disputed: disputes.len() as u32,
        unassigned,
        accounts: finish(alloc, accounts)?,
    })
}

// Each account of a plan, before its first report.
fn begin(alloc: Global, plan: &Plan) -> Result<Vec<Account>, AllocError>
    ensures { IfOk result (λ list. (all : List PacketReport) → AreMetering plan.now all all list.items) }
{
    let mut list = Vec::new(alloc);
    for n in 0..plan.accounts() {
        list.push(Account::new(alloc, plan.meter(n), plan.other(n)))?;
    }
    Ok(list)
}

// Meters each report that isn't disputed in the account that owns it. The answer is how many none owns.
fn meter_all(
    plan: &Plan,
    reports: &[Report],
    disputes: &[Identity],
    accounts: &mut Vec<Account>,
) -> Result<u32, AllocError>
    requires rises { IsStrictlySortedBy report_cmp reports.now }
    requires few { length reports.now ≤ most_reports }
    requires disputes { disputes.now ≡ disputed reports.now }
    requires metering { AreMetering plan.now (undisputed reports.now) (undisputed reports.now) accounts.old.items }
    ensures unassigned { IfOk result (λ n. n ≡ length (unassigned plan.now reports.now)) }
    ensures metering { OnOk result (AreMetering plan.now (undisputed reports.now) [] accounts.new.items) }
{
    let period = plan.period();
    let mut unassigned = 0;
    for report in reports {
        if is_among(disputes, report.identity()) {
            continue;
        }
        let Some(n) = plan.account_of(report) else {
            unassigned += 1;
            continue;
        };
        let account = &mut accounts[n as usize];
        account.add(period, report)?;
    }
    Ok(unassigned)
}

// The tally of each account.
fn finish(alloc: Global, accounts: Vec<Account>) -> Result<Tallies, AllocError>
    requires { AllByRecursion (λ a. Ascend (tally_so_far a).spans) accounts.items }
    ensures { IfOk result (λ tallies. tallies ≡ map tally_so_far accounts.items) }
{
    let mut list = Vec::new(alloc);
    for account in accounts {
        list.push(account.finish()?)?;
    }
    Ok(Tallies::new(list))
}
