//! The text of a bill.
ghost use Rattle.std.specs.Prelude.{◌≡◌, ◌<◌, ◌≤◌, ◌++◌, IfOk, IfErr, List, OnOk, [], length, take, string_bytes};
ghost use Rattle.std.specs.List.{flat_map, zip};
ghost use Rattle.std.specs.Io.KnownBytes.{Appends};
ghost use Rattle.tca_join.specs.Sets.{has, in_order};
ghost use Rattle.tca_report.specs.device.Devices.{CountsFailure};
ghost use Rattle.tca_report.specs.report.Reports.{PacketReport, report_cmp};
ghost use Rattle.tca_log.specs.Arrivals.{Arrival, after_all, all_given};
ghost use Rattle.tca_accounts.specs.Bills.{bill_of};
ghost use Rattle.tca_accounts.specs.Plans.{AccountPlan};
ghost use Rattle.tca_statements.specs.Statements.{account_lines, statement_text};

use crate::lines::{push_account, push_opening};
use std::alloc::{AllocError, Global};
use std::marker::Model;
use tca_accounts::{Bill, Plan, Tally};
use tca_report::{Write, WriteFault, put_all};

/// The octets of a statement.
#[derive(Drop)]
pub struct Statement {
    text: String,
}

impl Model for Statement {
    ghost use Rattle.std.specs.Prelude.{ℕ, List, string_bytes};

    ghost Value = { List ℕ };

    ghost view = { λ s. string_bytes s.text };
}

impl Statement {
    /// The statement of a bill under its plan. Lines end with one line feed, fields are separated by one space, and
    /// numbers are decimal: how many reports, disputed identities and unassigned reports there are, and for each account
    /// octets and packets of green, yellow and red, in all and for each period that has a packet. `AllocError` comes where a growth
    /// was refused.
    #[tactic(auto, unfolding(crate::specs::Statements::statement_text))]
    pub fn of(alloc: Global, plan: &Plan, bill: &Bill) -> Result<Statement, AllocError>
        requires { length bill.now.accounts ≡ length plan.now.accounts }
        ensures { IfOk result (λ s. s ≡ statement_text plan.now bill.now) }
    {
        let period = plan.period();
        let mut text = String::new(alloc);
        push_opening(alloc, period, bill, &mut text)?;
        push_accounts(alloc, plan, bill.accounts.as_slice(), &mut text)?;
        text.push_str("end\n")?;
        Ok(Statement { text })
    }
}

/// Writes a statement. It takes no memory. An `Err` says how many of its first octets went out.
pub fn render<W: Write>(statement: &Statement, out: &mut W) -> Result<(), WriteFault>
    ensures ok { OnOk result (Appends (W.written out.old) (W.written out.new) statement.now) }
    ensures fault { IfErr result (λ e. (e.written < length statement.now) × Appends (W.written out.old) (W.written out.new) (take e.written statement.now)) }
    ensures count { CountsFailure result (W.failures out.old) (W.failures out.new) }
{
    put_all(statement.text.as_bytes(), out)
}

// Appends the lines of the accounts of a plan.
fn push_accounts(
    alloc: Global,
    plan: &Plan,
    tallies: &[Tally],
    text: &mut String,
) -> Result<(), AllocError>
    requires { length tallies.now ≡ length plan.now.accounts }
    ensures { OnOk result (string_bytes text.new ≡ string_bytes text.old ++ flat_map (λ a. account_lines a.0.name a.1) (zip plan.now.accounts tallies.now)) }
{
    for account in 0..plan.accounts() {
        push_account(alloc, plan.name(account), &tallies[account as usize], text)?;
    }
    Ok(())
}

/// The law of the statement, of a log that reports came to by `add`, `union` and `add_all`, in any order and with any
/// repeats: its statement under a plan is that of the set of all reports that were given to it, and where two logs were
/// given the same reports their statements are the same to the octet.
pub fn same_reports_make_one_statement()
    ensures set { (plan : AccountPlan) (arrivals : List Arrival) → statement_text plan (bill_of plan (after_all arrivals []))
        ≡ statement_text plan (bill_of plan (in_order report_cmp (all_given arrivals))) }
    ensures same { (plan : AccountPlan) (a b : List Arrival)
        → ((r : PacketReport) → has report_cmp (all_given a) r ≡ has report_cmp (all_given b) r)
        → statement_text plan (bill_of plan (after_all a [])) ≡ statement_text plan (bill_of plan (after_all b [])) }
{}
