//! Which account of a plan counts each report of a set, and under which colour.
ghost use Rattle.std.specs.Prelude.{◌≡◌, ◌≤◌, ℕ, Some, IfOk, None, length, map, slice_get};
ghost use Rattle.std.specs.List.{AllByRecursion};
ghost use Rattle.std.specs.List.Sorted.{IsStrictlySortedBy};
ghost use Rattle.tca_report.specs.report.Reports.{report_cmp, most_reports};
ghost use Rattle.tca_meters.specs.Termed.{termed_rule};
ghost use Rattle.tca_accounts.specs.Bills.{coloured_in};
ghost use Rattle.tca_accounts.specs.Metering.{HasRoom, metered_none, owned};
ghost use Rattle.tca_accounts.specs.Plans.{PlannedAccount};
ghost use Rattle.tcatool.specs.Listed.{AreItemsUnder, counted};
ghost use Rattle.tcatool.specs.inside.Sharing.{AreGiven, next_colour, opened, settled_in, with_next};

use crate::item::{Item, Share, items_of};
use std::alloc::{AllocError, Global};
use tca_accounts::{Metered, Plan, meter_next, no_reports};
use tca_log::Log;
use tca_meters::{Colour, Meter, Termed};
use tca_report::Report;

/// An account whose reports are being metered.
#[derive(Clone, Copy)]
pub(crate) struct Running {
    meter: Termed,
    /// The colour of a code point that has none of its own.
    other: Colour,
    metered: Metered<<Termed as Meter>::State>,
}

impl Running {
    // An account that has had no report.
    fn new(meter: Termed, other: Colour) -> Running
        ensures { result ≡ record { meter = meter; other = other; metered = metered_none (termed_rule meter) } }
    {
        Running {
            meter,
            other,
            metered: no_reports(&meter),
        }
    }

    // The colour of one more report, which is not before the last one.
    fn colour_of(&mut self, report: &Report) -> Colour
        requires order { self.old.metered.time ≤ report.now.time }
        requires few { HasRoom self.old.metered.total }
        ensures colour { result ≡ next_colour self.old report.now }
        ensures after { self.new ≡ with_next self.old report.now }
    {
        meter_next(&self.meter, self.other, &mut self.metered, report)
    }
}

// Each account of a plan, before its first report.
fn begin(alloc: Global, plan: &Plan) -> Result<Vec<Running>, AllocError>
    ensures { IfOk result (λ accounts. accounts.items ≡ map opened plan.now.accounts) }
{
    let mut accounts = Vec::new(alloc);
    for n in 0..plan.accounts() {
        accounts.push(Running::new(plan.meter(n), plan.other(n)))?;
    }
    Ok(accounts)
}

// Gives each settled report that an account owns its share. It goes over the items once and takes no memory.
fn share_out(plan: &Plan, accounts: &mut [Running], items: &mut [Item])
    requires opened { accounts.old ≡ map opened plan.now.accounts }
    requires alone { AllByRecursion (λ i. i.share ≡ None) items.old }
    requires rises { IsStrictlySortedBy report_cmp (settled_in items.old) }
    requires few { length items.old ≤ most_reports }
    ensures given { AreGiven plan.now items.old items.new }
    ensures colours { (n : ℕ) (a : PlannedAccount) → slice_get plan.now.accounts n ≡ Some a
        → counted n items.new ≡ coloured_in a (owned plan.now n (settled_in items.old)) }
{
    for item in items.iter_mut() {
        if !item.is_settled {
            continue;
        }
        let Some(account) = plan.account_of(&item.report) else {
            continue;
        };
        let colour = accounts[account as usize].colour_of(&item.report);
        item.share = Some(Share { account, colour });
    }
}

/// The items of a set under a plan, one for each report, in order. It goes over the reports twice and takes memory for the items and the
/// accounts alone.
pub(crate) fn items_under(alloc: Global, plan: &Plan, log: &Log) -> Result<Vec<Item>, AllocError>
    ensures { IfOk result (λ items. AreItemsUnder plan.now log.now items.items) }
{
    let mut items = items_of(alloc, log)?;
    let mut accounts = begin(alloc, plan)?;
    share_out(plan, &mut accounts, &mut items);
    Ok(items)
}
