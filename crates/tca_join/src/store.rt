//! Where the items of a chain stand.
ghost use Rattle.std.specs.Prelude.{◌≡◌, ◌+◌, ◌<◌, ◌≤◌, [], ◌∷◌, ◌++◌, IfOk, IsOk, OnErr, OnOk, vec_capacity, vec_len};
ghost use Rattle.tca_join.specs.inside.Stores.{spare, stored};

use crate::items::Items;
use std::alloc::{AllocError, Allocator};

/// Items in a list of their own, or in one that others hold too. What changes those makes a list of their own first.
#[derive(Drop)]
pub(crate) enum Store<T: Copy, A: Allocator + Clone> {
    Own(Vec<T, A>),
    Shared(Items<T, A>),
}

impl<T: Copy, A: Allocator + Clone> Store<T, A> {
    /// The items.
    pub(crate) fn as_slice(&self) -> &[T]
        ensures { result.now ≡ stored self.now }
    {
        match self {
            Store::Own(list) => list.as_slice(),
            Store::Shared(items) => items.as_slice(),
        }
    }

    // What the items' memory is of.
    fn allocator(&self) -> &A {
        match self {
            Store::Own(list) => list.allocator(),
            Store::Shared(items) => items.allocator(),
        }
    }

    // A list of the items, with room for so many more.
    fn copied(&self, more: usize) -> Result<Vec<T, A>, AllocError>
        ensures items { IfOk result (λ list. list.items ≡ stored self.now) }
        ensures room { IfOk result (λ list. vec_len list + more ≤ vec_capacity list) }
    {
        let items = self.as_slice();
        let alloc = self.allocator().clone()?;
        let mut list = Vec::with_capacity(alloc, items.len().saturating_add(more))?;
        list.extend_from_slice(items)?;
        list.reserve(more)?;
        Ok(list)
    }

    /// Makes room for so many items more, in a list of its own. The items stay, and so does room that was there.
    pub(crate) fn reserve(&mut self, more: usize) -> Result<(), AllocError>
        ensures items { stored self.new ≡ stored self.old }
        ensures room { OnOk result (more ≤ spare self.new) }
        ensures stays { spare self.old ≤ spare self.new }
        ensures there { 0 < more → more ≤ spare self.old → IsOk result }
    {
        match self {
            Store::Own(list) => list.reserve(more),
            Store::Shared(_) => {
                *self = Store::Own(self.copied(more)?);
                Ok(())
            }
        }
    }

    /// Adds an item at the end, into room that is there.
    pub(crate) fn push(&mut self, item: T)
        requires { 0 < spare self.old }
        ensures { stored self.new ≡ stored self.old ++ item ∷ [] }
    {
        match self {
            Store::Own(list) => list.push_reserved(item),
            Store::Shared(_) => unreachable!(),
        }
    }

    /// Adds items at the end. On a refusal the items stay, and so does room that was there.
    pub(crate) fn extend(&mut self, more: &[T]) -> Result<(), AllocError>
        ensures ok { OnOk result (stored self.new ≡ stored self.old ++ more.now) }
        ensures err { OnErr result (stored self.new ≡ stored self.old) }
        ensures stays { OnErr result (spare self.old ≤ spare self.new) }
    {
        match self {
            Store::Own(list) => list.extend_from_slice(more),
            Store::Shared(_) => {
                let mut list = self.copied(more.len())?;
                list.extend_from_slice(more)?;
                *self = Store::Own(list);
                Ok(())
            }
        }
    }

    /// The items as a list that others may hold too. A list of their own is copied.
    pub(crate) fn share(&self) -> Result<Items<T, A>, AllocError>
        ensures { IfOk result (λ items. items ≡ stored self.now) }
    {
        match self {
            Store::Own(list) => {
                let alloc = list.allocator().clone()?;
                let copied = self.copied(0)?;
                Items::of(alloc, copied)
            }
            Store::Shared(items) => items.share(),
        }
    }

    /// The same items once more. A list that others hold too is not copied.
    pub(crate) fn copy(&self) -> Result<Store<T, A>, AllocError>
        ensures { IfOk result (λ s. stored s ≡ stored self.now) }
    {
        Ok(match self {
            Store::Own(_) => Store::Own(self.copied(0)?),
            Store::Shared(items) => Store::Shared(items.share()?),
        })
    }
}
