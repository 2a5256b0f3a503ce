//! A plan.
ghost use Rattle.std.specs.Prelude.{◌≡◌, ℕ, ◌<◌, ◌≤◌, IfOk, IfSome, Some, slice_get, length, map, true};
ghost use Rattle.std.specs.List.{AllByRecursion};
ghost use Rattle.tca_join.specs.Results.{Gives};
ghost use Rattle.tca_accounts.specs.Plans.{IsPlan, PlannedAccount, account_of, is_name, most_accounts, owns, pair_of};
ghost use Rattle.tca_accounts.specs.Documents.{plan_with};
ghost use Rattle.tca_report.specs.report.Reports.{time_end};
ghost use Rattle.tca_meters.specs.Termed.{IsTermed};
ghost use Rattle.tca_accounts.specs.declared.fault.PlanFault.TheVariants.{Memory};

use crate::account::{Account, are_few, copied, names_differ};
use crate::fault::PlanFault;
use crate::owners::{Owners, owners_of};
use crate::pair::Pair;
use std::alloc::{AllocError, Global};
use std::marker::Model;
use tca_meters::{Colour, Termed};
use tca_report::Report;

/// The length of a period, and the accounts with their meters and the pairs of an observation domain and an
/// interface whose reports each owns. No pair and no name stands twice.
#[derive(Drop)]
pub struct Plan {
    period: u64,
    accounts: Vec<Account>,
    owners: Owners,
}

impl Model for Plan {
    ghost use Rattle.tca_accounts.specs.Plans.{AccountPlan, IsPlan};
    ghost use Rattle.tca_accounts.specs.inside.Owners.{AreOwners};

    ghost Value = { AccountPlan };

    ghost view = { λ p. record { period = p.period; accounts = p.accounts.items } };

    ghost invariant = { λ p. IsPlan (record { period = p.period; accounts = p.accounts.items }) × AreOwners p.accounts.items p.owners };
}

impl Plan {
    /// A plan of these accounts. `Limits` where there are more than 4,096 pairs, else `KeyTwice` where a pair or a name
    /// stands twice.
    pub(crate) fn new(alloc: Global, period: u64, accounts: Vec<Account>) -> Result<Plan, PlanFault>
        requires some_time { 0 < period }
        requires time { period < time_end }
        requires some { 0 < length accounts.items }
        requires few { length accounts.items ≤ most_accounts }
        requires named { AllByRecursion (λ a. is_name a.name ≡ true) accounts.items }
        requires owning { AllByRecursion (λ a. 0 < length a.pairs) accounts.items }
        ensures { Gives Memory (λ p. p) result (plan_with period accounts.items) }
    {
        if !are_few(&accounts) {
            return Err(PlanFault::Limits);
        }
        if !names_differ(&accounts) {
            return Err(PlanFault::KeyTwice);
        }
        match owners_of(alloc, &accounts)? {
            Some(owners) => Ok(Plan {
                period,
                accounts,
                owners,
            }),
            None => Err(PlanFault::KeyTwice),
        }
    }

    /// The account, counted from 0, that owns a report, found in logarithmic time, and mostly at once. No other account owns it.
    pub fn account_of(&self, report: &Report) -> Option<u32>
        ensures account { result ≡ account_of self.now report.now }
        ensures below { IfSome result (λ n. n < length self.now.accounts) }
        ensures only { (n : ℕ) (a : PlannedAccount) → slice_get self.now.accounts n ≡ Some a → owns a (pair_of report.now) ≡ true → result ≡ Some n }
    {
        self.owners.get(&Pair::of(report))
    }

    /// How many accounts there are.
    pub fn accounts(&self) -> u32
        ensures value { result ≡ length self.now.accounts }
        ensures limits { IsPlan self.now }
    {
        self.accounts.len() as u32
    }

    /// The name of an account.
    pub fn name(&self, account: u32) -> &str
        requires { account < length self.now.accounts }
        ensures { slice_get (map (λ a. a.name) self.now.accounts) account ≡ Some result.now }
    {
        &self.accounts[account as usize].name
    }

    /// The meter of an account, with its terms. The terms ascend, as [`bills_by_term`](crate::bills_by_term) asks.
    pub fn meter(&self, account: u32) -> Termed
        requires { account < length self.now.accounts }
        ensures value { slice_get (map (λ a. a.meter) self.now.accounts) account ≡ Some result }
        ensures range { IsTermed result }
    {
        let meter = self.accounts[account as usize].meter;
        // For its clause alone: the range of a meter with terms.
        let _terms = meter.terms();
        meter
    }

    /// The colour that a code point without a colour of its own has in an account.
    pub fn other(&self, account: u32) -> Colour
        requires { account < length self.now.accounts }
        ensures { slice_get (map (λ a. a.other) self.now.accounts) account ≡ Some result }
    {
        self.accounts[account as usize].other
    }

    /// The length of a period, in milliseconds.
    pub fn period(&self) -> u64
        ensures value { result ≡ self.now.period }
        ensures limits { IsPlan self.now }
    {
        self.period
    }

    /// The same plan once more. `AllocError` comes where a growth was refused, which changes nothing.
    pub fn copy(&self, alloc: Global) -> Result<Plan, AllocError>
        ensures { IfOk result (λ p. p ≡ self.now) }
    {
        Ok(Plan {
            period: self.period,
            accounts: copied(alloc, &self.accounts)?,
            owners: self.owners.copy(alloc)?,
        })
    }
}
