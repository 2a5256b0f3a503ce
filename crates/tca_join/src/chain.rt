//! Items in a row, of which the longer chain is kept.
ghost use Rattle.std.specs.Prelude.{◌≡◌, ◌+◌, ◌<◌, ◌≤◌, None, [], ◌∷◌, ◌++◌, true, false, length, slice_get, OnOk, OnErr, IfErr, IfOk, IsOk, MatchOption};
ghost use Rattle.tca_join.specs.Chains.{chain, IsChain, differ_at, chain_clash, chain_full, chain_joined, IsSameChain, most_items};
ghost use Rattle.tca_join.specs.laws.ChainLaws.{chain_laws};
ghost use Rattle.tca_join.specs.Joins.{Compatible};
ghost use Rattle.tca_join.specs.Faults.{IsJoinFault};
ghost use Rattle.tca_join.specs.declared.fault.JoinFault.TheVariants.{Memory};

use crate::fault::JoinFault;
use crate::items::Items;
use crate::join::Join;
use crate::store::Store;
use std::alloc::{AllocError, Allocator, Global};
use std::marker::Model;

/// Items in the order in which they came, at most 4,194,304. Of two chains, one of which begins with the other, the
/// longer is kept.
///
/// A chain may be made of a list that others hold too. It has a list of its own from its first change on.
///
/// Contracts see the items, and whether room for one more was reserved.
#[derive(Drop)]
pub struct Chain<T: Copy + Eq, A: Allocator + Clone = Global> {
    items: Store<T, A>,
    ready: bool,
}

impl<T: Copy + Eq, A: Allocator + Clone> Model for Chain<T, A> {
    ghost use Rattle.tca_join.specs.Chains.{ChainView, chain, chain_code};
    ghost use Rattle.tca_join.specs.inside.Stores.{IsKept, stored};

    ghost Value = { ChainView T };

    ghost coded = { chain_code T.code };

    ghost view = { λ c. chain (stored c.items) c.ready };

    ghost invariant = { λ c. IsKept c.items c.ready };
}

impl<T: Copy + Eq, A: Allocator + Clone> Chain<T, A> {
    /// A chain with no items. It takes no memory.
    pub fn new(alloc: A) -> Chain<T, A>
        ensures { result ≡ chain [] false }
    {
        Chain {
            items: Store::Own(Vec::new(alloc)),
            ready: false,
        }
    }

    /// A chain of these items, which stay where they are until it changes. It takes no memory.
    pub fn of(items: Items<T, A>) -> Chain<T, A>
        requires { length items ≤ most_items }
        ensures { result ≡ chain items false }
    {
        Chain {
            items: Store::Shared(items),
            ready: false,
        }
    }

    /// How many items there are.
    pub fn len(&self) -> u32
        ensures length { result ≡ length self.now.items }
        ensures limit { IsChain self.now }
    {
        self.items.as_slice().len() as u32
    }

    /// The item at an index, counted from 0; `None` at the end and past it.
    pub fn item(&self, at: u32) -> Option<T>
        ensures { result ≡ slice_get self.now.items at }
    {
        self.items.as_slice().get(at as usize).copied()
    }

    /// The items, first to last.
    pub fn items(&self) -> &[T]
        ensures { result.now ≡ self.now.items }
    {
        self.items.as_slice()
    }

    /// The items as a list that others may hold too. Where the chain has a list of its own they are copied. `AllocError`
    /// comes where memory was refused, or the list can have no owner more; the chain stays as it is.
    pub fn share(&self) -> Result<Items<T, A>, AllocError>
        ensures { IfOk result (λ items. items ≡ self.now.items) }
    {
        self.items.share()
    }

    /// Makes room for one more item. Where room was reserved before, there is nothing to do and no refusal. Where
    /// memory was refused the chain is as before.
    pub fn reserve(&mut self) -> Result<(), AllocError>
        ensures ok { OnOk result (self.new ≡ chain self.old.items true) }
        ensures err { OnErr result (self.new ≡ self.old) }
        ensures there { self.old.room ≡ true → IsOk result }
    {
        self.items.reserve(1)?;
        self.ready = true;
        Ok(())
    }

    /// Adds an item at the end, into the room that was reserved. It takes no memory.
    pub fn push(&mut self, item: T)
        requires room { self.old.room ≡ true }
        requires limit { length self.old.items < most_items }
        ensures { self.new ≡ chain (self.old.items ++ item ∷ []) false }
    {
        self.items.push(item);
        self.ready = false;
    }

    /// Adds items at the end. Where memory was refused the chain is as before.
    pub fn extend(&mut self, items: &[T]) -> Result<(), AllocError>
        requires { length self.old.items + length items.now ≤ most_items }
        ensures ok { OnOk result (self.new ≡ chain (self.old.items ++ items.now) false) }
        ensures err { OnErr result (self.new ≡ self.old) }
    {
        self.items.extend(items)?;
        self.ready = false;
        Ok(())
    }
}

// The first index where both have an item and these differ.
fn difference<T: Copy + Eq>(first: &[T], second: &[T]) -> Option<usize>
    ensures value { result ≡ differ_at T.eq first.now second.now }
    ensures within { MatchOption result (differ_at T.eq first.now second.now ≡ None) (λ at. at < length first.now) }
{
    let mut i = 0;
    while i < first.len() && i < second.len() {
        if first[i] != second[i] {
            return Some(i);
        }
        i += 1;
    }
    None
}

impl<T: Copy + Eq + Drop, A: Allocator + Clone> Join for Chain<T, A> {
    ghost proper = { IsChain };

    ghost clash = { chain_clash T.eq };

    ghost full = { chain_full };

    ghost same = { IsSameChain T.eq };

    ghost joined = { chain_joined };

    ghost laws = { chain_laws T.eq T.Eq.laws };

    fn known(&self) {
        let _items = &self.items;
    }

    fn refusal(&self, other: &Chain<T, A>) -> Option<JoinFault> {
        match difference(self.items.as_slice(), other.items.as_slice()) {
            Some(at) => Some(JoinFault::Clash { key: at as u32 }),
            None => None,
        }
    }

    fn join_from(&mut self, other: &Chain<T, A>) -> Result<(), JoinFault>
        ensures compatible { OnOk result (Compatible (chain_clash T.eq) self.old other.now) }
        ensures ok { OnOk result (self.new ≡ chain_joined self.old other.now) }
        ensures err { OnErr result (self.new ≡ self.old) }
        ensures fault { IfErr result (IsJoinFault (chain_clash T.eq self.old other.now) false) }
        ensures memory { IfErr result (λ e. e ≡ Memory → length self.old.items < length other.now.items) }
    {
        if let Some(fault) = self.refusal(other) {
            return Err(fault);
        }
        let have = self.items().len();
        let theirs = other.items.as_slice();
        if theirs.len() <= have {
            self.ready = false;
            return Ok(());
        }
        self.extend(&theirs[have..])?;
        Ok(())
    }

    fn copy(&self) -> Result<Chain<T, A>, AllocError> {
        let mut items = self.items.copy()?;
        if self.ready {
            items.reserve(1)?;
        }
        Ok(Chain {
            items,
            ready: self.ready,
        })
    }
}
