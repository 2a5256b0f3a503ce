//! The items of a set of reports: a report each, whether it is settled, and which account counts it.
ghost use Rattle.std.specs.Prelude.{◌≡◌, ◌≤◌, [], ◌∷◌, IfOk, length, map};
ghost use Rattle.std.specs.List.Sorted.{IsStrictlySortedBy};
ghost use Rattle.tca_report.specs.report.Reports.{report_cmp, most_reports};
ghost use Rattle.tcatool.specs.Listed.{colour_name, item_alone, share_fields, state_name};
ghost use Rattle.tcatool.specs.inside.Settling.{is_next};

use crate::cell::{Buffer, Cell, append_line};
use crate::report_line::report_cells;
use crate::row::Row;
use std::alloc::{AllocError, Global};
use tca_accounts::Plan;
use tca_log::Log;
use tca_meters::Colour;
use tca_report::Report;

/// The account, counted from 0, that counts a report, and the colour under which it does.
#[derive(Clone, Copy, Debug)]
pub(crate) struct Share {
    pub(crate) account: u32,
    pub(crate) colour: Colour,
}

/// A report of a set with its state, and its share where an account counts it.
#[derive(Clone, Copy, Debug)]
pub(crate) struct Item {
    pub(crate) report: Report,
    /// Whether no other report of the set has its identity.
    pub(crate) is_settled: bool,
    pub(crate) share: Option<Share>,
}

fn state_name(is_settled: bool) -> &'static str
    ensures { result.now ≡ state_name is_settled }
{
    if is_settled { "settled" } else { "disputed" }
}

fn colour_name(colour: Colour) -> &'static str
    ensures { result.now ≡ colour_name colour }
{
    match colour {
        Colour::Green => "green",
        Colour::Yellow => "yellow",
        Colour::Red => "red",
    }
}

// The name of the account and the colour of a share.
fn share_names<'p>(plan: &'p Option<Plan>, share: Option<Share>) -> (&'p str, &'static str)
    ensures fields { result.0.now ∷ result.1.now ∷ [] ≡ share_fields plan.now share }
    ensures short { length result.0.now ≤ 32 }
{
    match (plan, share) {
        (Some(plan), Some(share)) if share.account < plan.accounts() => {
            (plan.name(share.account), colour_name(share.colour))
        }
        _ => ("", ""),
    }
}

impl Row<Option<Plan>> for Item {
    ghost use Rattle.tcatool.specs.Listed.{item_line};

    ghost line = { item_line };

    fn append_to(&self, plan: &Option<Plan>, buffer: &mut Buffer) {
        let [time, domain, session, place, octets, dscp, interface] = report_cells(&self.report);
        let (account, colour) = share_names(plan, self.share);
        let others = [
            domain,
            session,
            place,
            octets,
            dscp,
            interface,
            Cell::Text(state_name(self.is_settled)),
            Cell::Text(account),
            Cell::Text(colour),
        ];
        append_line(time, &others, buffer);
    }
}

// Whether a report is the settled one that comes next.
fn is_next(next: Option<&Report>, report: &Report) -> bool
    ensures { result ≡ is_next next.entry report.now }
{
    match next {
        Some(settled) => *settled == *report,
        None => false,
    }
}

/// The items of a set without a plan, one for each report, in order. It takes memory for the items alone.
pub(crate) fn items_of(alloc: Global, log: &Log) -> Result<Vec<Item>, AllocError>
    ensures items { IfOk result (λ items. items.items ≡ map (item_alone log.now) log.now) }
    ensures rises { IfOk result (λ _. IsStrictlySortedBy report_cmp log.now) }
    ensures limit { IfOk result (λ _. length log.now ≤ most_reports) }
{
    let mut items = Vec::with_capacity(alloc, log.len() as usize)?;
    let mut settled = log.settled();
    let mut next = settled.next();
    for report in log.reports() {
        let is_settled = is_next(next, report);
        if is_settled {
            next = settled.next();
        }
        let (report, share) = (*report, None);
        items.push(Item {
            report,
            is_settled,
            share,
        })?;
    }
    Ok(items)
}
