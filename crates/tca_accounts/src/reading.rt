//! A plan read from a text.
ghost use Rattle.std.specs.Prelude.{◌≡◌, ◌≢◌, ◌<◌, ◌≤◌, ◌^◌, IfOk, IfErr, IsOk, IsUtf8, length};
ghost use Rattle.toml.specs.Parse.{parse_document};
ghost use Rattle.toml.specs.View.{items_view, table_view};
ghost use Rattle.tca_join.specs.Results.{Gives};
ghost use Rattle.tca_accounts.specs.Plans.{most_accounts};
ghost use Rattle.tca_accounts.specs.Documents.{accounts_from, plan_in, plan_of};
ghost use Rattle.tca_accounts.specs.inside.Readings.{plan_from};
ghost use Rattle.tca_report.specs.report.Reports.{time_end};
ghost use Rattle.tca_accounts.specs.declared.fault.PlanFault.TheVariants.{Memory};

use crate::account::Account;
use crate::document::{at, has_only, items, whole};
use crate::draft::read_account;
use crate::fault::PlanFault;
use crate::key::Key;
use crate::plan::Plan;
use crate::together::check;
use std::alloc::Global;
use tca_report::TIME_END;
use toml::{Table, Value};

/// The most accounts of a plan.
const MOST_ACCOUNTS: usize = 256;

/// The greatest length of a period, in milliseconds.
const LONGEST_PERIOD: u64 = TIME_END - 1;

// The accounts that values are.
fn accounts(alloc: Global, values: &[Value]) -> Result<Vec<Account>, PlanFault>
    requires { length values.now ≤ most_accounts }
    ensures exact { Gives Memory (λ list. list.items) result (accounts_from 0 (items_view values.now)) }
    ensures count { IfOk result (λ list. length list.items ≡ length values.now) }
{
    let mut list = Vec::new(alloc);
    for value in values {
        match read_account(list.len() as u32, value) {
            Ok(draft) => list.push(draft.account(alloc)?)?,
            Err(fault) => return Err(fault),
        }
    }
    Ok(list)
}

// The plan of the accounts that values are.
fn plan_from(alloc: Global, period: u64, values: &[Value]) -> Result<Plan, PlanFault>
    requires some_time { 0 < period }
    requires time { period < time_end }
    requires some { 0 < length values.now }
    requires few { length values.now ≤ most_accounts }
    ensures { Gives Memory (λ p. p) result (plan_from period (items_view values.now)) }
{
    let accounts = accounts(alloc, values)?;
    Plan::new(alloc, period, accounts)
}

// The plan of the accounts that values are. That memory lacks is answered only where nothing else is wrong.
fn judged_plan(alloc: Global, period: u64, values: &[Value]) -> Result<Plan, PlanFault>
    requires some_time { 0 < period }
    requires time { period < time_end }
    requires some { 0 < length values.now }
    requires few { length values.now ≤ most_accounts }
    ensures exact { Gives Memory (λ p. p) result (plan_from period (items_view values.now)) }
    ensures last { IfErr result (λ e. e ≡ PlanFault.Memory → IsOk (plan_from period (items_view values.now))) }
{
    match plan_from(alloc, period, values) {
        Err(PlanFault::Memory) => {
            check(values)?;
            Err(PlanFault::Memory)
        }
        outcome => outcome,
    }
}

impl Plan {
    /// Reads a plan from a text: a TOML document in UTF-8 with the keys `period`, the length of a period in
    /// milliseconds, from 1 to 2^48-1, and `account`, an array of 1 to 256 tables. An account has
    ///
    /// - `meter`: `"rfc2697"`, `"rfc2698"` or `"rfc4115"`, the RFC of its meter;
    /// - `name`: 1 to 32 letters and digits of ASCII, hyphens and underscores;
    /// - `aware`: whether precolours count; false where it is left out;
    /// - `other`: `"green"`, `"yellow"` or `"red"`, the colour that a code point without a colour of its own
    ///   counts as; green where it is left out;
    /// - `exact_fit`, for RFC 4115 alone: whether a packet may take all tokens of a bucket;
    /// - `cir` and `cbs`, then `ebs` for RFC 2697, `pir` and `pbs` for RFC 2698, `ebs` and `eir` for RFC 4115:
    ///   rates in octets a second and burst sizes in octets, as integers from 0 up;
    /// - `keys`: an array of one or more pairs of an observation domain and an interface, each an array of two
    ///   integers from 0 to 4,294,967,295;
    /// - `term`: an array of at most 8 tables, none where it is left out. Each is a term: from its first millisecond on
    ///   another meter takes the account's reports, and both its buckets are full then.
    ///
    /// A term has
    ///
    /// - `from`: the millisecond from 1970 UTC at which it starts, from 1 to 2^48-1 and above that of the term before;
    /// - `meter`, `aware`, `exact_fit` and the rates and sizes, as an account with that meter has them. `aware` is false
    ///   where it is left out, whatever it is in the account.
    ///
    /// The first fault is answered: `Syntax` for a text that isn't UTF-8 or no document, and then what
    /// [`Plan::from_table`] answers for the document. `Memory` is answered besides where memory for the document
    /// was refused. No fault leaves anything behind.
    pub fn from_text(alloc: Global, text: &[u8]) -> Result<Plan, PlanFault>
        ensures utf8 { IfOk result (λ p. IsUtf8 text.now) }
        ensures ok { IfOk result (λ p. plan_in (parse_document text.now) ≡ Ok p) }
        ensures fault { IfErr result (λ e. e ≢ PlanFault.Memory → IsUtf8 text.now → plan_in (parse_document text.now) ≡ Err e) }
        ensures not_text { IfErr result (λ e. e ≢ PlanFault.Memory → ¬ IsUtf8 text.now → e ≡ PlanFault.Syntax) }
    {
        match toml::table_from_slice(alloc, text) {
            Ok(table) => Plan::from_table(alloc, &table),
            Err(error) if error.is_memory() => Err(PlanFault::Memory),
            Err(_) => Err(PlanFault::Syntax),
        }
    }

    /// The plan that a TOML document is, of the keys that [`Plan::from_text`] lists.
    ///
    /// The first fault is answered: `UnknownKey` for a further key at the top; `Missing` or `Wrong` for `period`,
    /// then for `account`; `Limits` for no account or more than 256. Then account by account: `Wrong` of `account`
    /// for one that is no table; `Missing` or `Wrong` for `meter`; `UnknownKey` for a key that its kind of meter
    /// doesn't have; `Missing` or `Wrong` for the other keys in their order, `term` last; `Meter` where there is no
    /// meter of these parameters; `Limits` for more than 8 terms. And before the next account term by term: `Wrong` of
    /// `term` for one that is no table; `Missing` or `Wrong` for `meter`; `UnknownKey` for a key that a term with its
    /// kind of meter doesn't have; `Missing` or `Wrong` for `from`, then for the other keys in their order; `Meter`.
    /// Then `Limits` for more than 4,096 pairs in all, and `KeyTwice` for a pair or a name that stands twice. `Memory`
    /// is answered only where the document is a plan.
    pub fn from_table(alloc: Global, table: &Table) -> Result<Plan, PlanFault>
        ensures exact { Gives Memory (λ p. p) result (plan_of (table_view table.now)) }
        ensures last { IfErr result (λ e. e ≡ PlanFault.Memory → IsOk (plan_of (table_view table.now))) }
    {
        if !has_only(table, &[Key::Period, Key::Account]) {
            return Err(PlanFault::UnknownKey);
        }
        let period = whole(at(table, Key::Period), Key::Period, 1, LONGEST_PERIOD)?;
        let values = items(at(table, Key::Account), Key::Account)?;
        if values.is_empty() || values.len() > MOST_ACCOUNTS {
            return Err(PlanFault::Limits);
        }
        judged_plan(alloc, period, values)
    }
}
