//! Which account owns a pair of an observation domain and an interface.
ghost use Rattle.std.specs.Prelude.{◌≡◌, ℕ, ◌<◌, ◌≤◌, ◌^◌, [], cond, map, length, is_none, Some, IfOk, IfSome, MatchOption, OnOk, false, true};
ghost use Rattle.tca_accounts.specs.Plans.{all_differ, all_pairs, same_pair};
ghost use Rattle.tca_accounts.specs.inside.Owners.{AreOwners, Gains, GoesOn, IsTwice, owner_in};

use crate::account::Account;
use crate::pair::{Pair, SLOTS};
use std::alloc::{AllocError, Global};
use std::collections::BTreeMap;
use std::marker::Model;

/// The number of the account that owns each pair.
///
/// A map has all pairs. Before it stands a table in which the slot of a pair has that pair, or another one, or none where
/// no pair with this slot has an owner. So most pairs are found at once, and what an exporter's pairs are, whatever they
/// are, costs at most a search in the map.
#[derive(Drop)]
pub(crate) struct Owners {
    map: BTreeMap<Pair, u32>,
    slots: Vec<Option<(Pair, u32)>>,
}

impl Model for Owners {
    ghost use Rattle.std.specs.Prelude.{ℕ, List};
    ghost use Rattle.tca_accounts.specs.inside.Owners.{AreSlots};

    ghost Value = { List ((ℕ × ℕ) × ℕ) };

    ghost view = { λ o. o.map.entries };

    ghost invariant = { λ o. AreSlots o.slots.items o.map.entries };
}

impl Owners {
    // No pair has an owner.
    fn new(alloc: Global) -> Result<Owners, AllocError>
        ensures { IfOk result (λ o. o ≡ []) }
    {
        Ok(Owners {
            map: BTreeMap::new(alloc),
            slots: vec![in alloc; None; SLOTS]?,
        })
    }

    // Gives a pair to an account. The answer is whether it had none before.
    fn insert(&mut self, pair: Pair, account: u32) -> Result<bool, AllocError>
        ensures gains { OnOk result (Gains self.old pair account self.new) }
        ensures new { IfOk result (λ b. b ≡ is_none (owner_in self.old pair)) }
    {
        let before = self.map.insert(pair, account)?;
        self.slots[pair.slot()] = Some((pair, account));
        Ok(before.is_none())
    }

    /// The account that owns a pair, if there is one.
    pub(crate) fn get(&self, pair: &Pair) -> Option<u32>
        ensures { result ≡ owner_in self.now pair.now }
    {
        let (owned, account) = self.slots[pair.slot()]?;
        if owned == *pair {
            return Some(account);
        }
        self.map.get(pair).copied()
    }

    /// The same owners once more.
    pub(crate) fn copy(&self, alloc: Global) -> Result<Owners, AllocError>
        ensures { IfOk result (λ o. o ≡ self.now) }
    {
        Ok(Owners {
            map: self.map.clone()?,
            slots: Vec::from_slice(alloc, &self.slots)?,
        })
    }
}

// Enters the pairs of an account, unless one stands there already.
fn enter(owners: &mut Owners, account: u32, pairs: &[(u32, u32)]) -> Result<bool, AllocError>
    ensures entered { IfOk result (λ b. b ≡ true → GoesOn owners.old (map (λ k. (k, account)) pairs.now) owners.new []) }
    ensures twice { IfOk result (λ b. b ≡ false → IsTwice owners.old (map (λ k. (k, account)) pairs.now)) }
{
    for pair in pairs {
        if !owners.insert(Pair::new(*pair), account)? {
            return Ok(false);
        }
    }
    Ok(true)
}

/// The account of each pair, or none where a pair stands twice.
pub(crate) fn owners_of(alloc: Global, accounts: &[Account]) -> Result<Option<Owners>, AllocError>
    requires { length accounts.now < 2 ^ 32 }
    ensures { IfOk result (λ o. MatchOption o (all_differ same_pair (all_pairs accounts.now) ≡ false)
        (λ owners. (all_differ same_pair (all_pairs accounts.now) ≡ true) × AreOwners accounts.now owners)) }
{
    let mut owners = Owners::new(alloc)?;
    for (n, account) in accounts.iter().enumerate() {
        if !enter(&mut owners, n as u32, &account.pairs)? {
            return Ok(None);
        }
    }
    Ok(Some(owners))
}
