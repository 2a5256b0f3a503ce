//! An account of a plan.
ghost use Rattle.std.specs.Prelude.{◌≡◌, IfOk, length, nat_le};
ghost use Rattle.std.specs.List.{list_any};
ghost use Rattle.std.specs.Str.{bytes_eq};
ghost use Rattle.tca_accounts.specs.Plans.{all_differ, all_pairs, most_pairs};

use std::alloc::{AllocError, Global};
use std::marker::Model;
use tca_meters::{Colour, Termed};

/// An account: its meter with its terms, and the traffic that it owns.
#[derive(Drop)]
pub(crate) struct Account {
    pub(crate) name: String,
    pub(crate) meter: Termed,
    /// The colour of a code point that has none of its own.
    pub(crate) other: Colour,
    /// The observation domains and interfaces whose reports it owns.
    pub(crate) pairs: Vec<(u32, u32)>,
}

impl Model for Account {
    ghost use Rattle.std.specs.Prelude.{string_bytes};
    ghost use Rattle.tca_accounts.specs.Plans.{PlannedAccount};

    ghost Value = { PlannedAccount };

    ghost view = { λ a. record { name = string_bytes a.name; meter = a.meter; other = a.other; pairs = a.pairs.items } };
}

impl Account {
    /// The same account once more.
    pub(crate) fn copy(&self, alloc: Global) -> Result<Account, AllocError>
        ensures { IfOk result (λ a. a ≡ self.now) }
    {
        Ok(Account {
            name: String::from_str(alloc, &self.name)?,
            meter: self.meter,
            other: self.other,
            pairs: Vec::from_slice(alloc, &self.pairs)?,
        })
    }
}

/// The most pairs of all accounts.
pub(crate) const MOST_PAIRS: usize = 4096;

/// Whether all accounts together have no more pairs than a plan may have.
pub(crate) fn are_few(accounts: &[Account]) -> bool
    ensures { result ≡ nat_le (length (all_pairs accounts.now)) most_pairs }
{
    let mut room = MOST_PAIRS;
    for account in accounts {
        if account.pairs.len() > room {
            return false;
        }
        room -= account.pairs.len();
    }
    true
}

// Whether an account of these has the name.
fn has_name(accounts: &[Account], name: &str) -> bool
    ensures { result ≡ list_any (λ a. bytes_eq name.now a.name) accounts.now }
{
    accounts.iter().any(|account| *name == *account.name)
}

/// Whether no two accounts have one name.
pub(crate) fn names_differ(accounts: &[Account]) -> bool
    ensures { result ≡ all_differ (λ a b. bytes_eq a.name b.name) accounts.now }
{
    for (n, account) in accounts.iter().enumerate() {
        if has_name(&accounts[n + 1..], &account.name) {
            return false;
        }
    }
    true
}

/// The same accounts once more.
pub(crate) fn copied(alloc: Global, accounts: &[Account]) -> Result<Vec<Account>, AllocError>
    ensures { IfOk result (λ list. list.items ≡ accounts.now) }
{
    let mut list = Vec::with_capacity(alloc, accounts.len())?;
    for account in accounts {
        list.push(account.copy(alloc)?)?;
    }
    Ok(list)
}
