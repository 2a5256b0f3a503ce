//! A list that several owners share.
ghost use Rattle.std.specs.Prelude.{◌≡◌, ◌≤◌, IfOk, IfSome, length, take};
ghost use Rattle.tca_join.specs.Alike.{AreAlike};

use std::alloc::{AllocError, Allocator, Global};
use std::marker::Model;
use std::sync::Arc;

/// Items that several owners hold and nobody changes: the first of a list that stands once in memory. Beside them may stand another
/// list of the same items, as in order and each once, so that who needs those so need not make that list anew.
#[derive(Drop)]
pub struct Items<T, A: Allocator = Global> {
    all: Arc<Vec<T, A>, A>,
    held: usize,
    other: Option<Arc<Vec<T, A>, A>>,
}

impl<T, A: Allocator> Model for Items<T, A> {
    ghost use Rattle.std.specs.Prelude.{List, ◌≤◌, IfSome, length, take};
    ghost use Rattle.std.specs.Arc.{arc_value};
    ghost use Rattle.tca_join.specs.Alike.{AreAlike};

    ghost Value = { List T };

    ghost view = { λ i. take i.held (arc_value i.all).items };

    ghost invariant = { λ i. (i.held ≤ length (arc_value i.all).items) × IfSome i.other (λ o. AreAlike (take i.held (arc_value i.all).items) (arc_value o).items) };
}

impl<T, A: Allocator> Items<T, A> {
    /// The items.
    pub fn as_slice(&self) -> &[T]
        ensures { result.now ≡ self.now }
    {
        let all: &Vec<T, A> = &self.all;
        &all.as_slice()[..self.held]
    }

    /// How many they are.
    pub fn len(&self) -> usize
        ensures { result ≡ length self.now }
    {
        self.held
    }

    /// What their memory is of.
    pub(crate) fn allocator(&self) -> &A {
        let all: &Vec<T, A> = &self.all;
        all.allocator()
    }
}

impl<T: Drop, A: Allocator> Items<T, A> {
    /// The first of the items, so many. Those behind them stay in memory as long as an owner does.
    pub fn first(self, count: usize) -> Items<T, A>
        requires { count ≤ length self }
        ensures { result ≡ take count self }
    {
        if count == self.held {
            return self;
        }
        Items {
            all: self.all,
            held: count,
            other: None,
        }
    }

    /// These items. The list itself is kept, so that they aren't copied. Where memory was refused the list is gone.
    pub fn of(alloc: A, list: Vec<T, A>) -> Result<Items<T, A>, AllocError>
        ensures { IfOk result (λ i. i ≡ list.items) }
    {
        let held = list.len();
        let all = Arc::new(alloc, list)?;
        Ok(Items {
            all,
            held,
            other: None,
        })
    }

    /// The same items, with another list of them beside. Where memory is wanting there is none beside.
    pub fn beside(self, alloc: A, other: Vec<T, A>) -> Items<T, A>
        requires { AreAlike self other.items }
        ensures { result ≡ self }
    {
        let Items { all, held, .. } = self;
        Items {
            all,
            held,
            other: Arc::new(alloc, other).ok(),
        }
    }

    /// The other list of the items, where there is one. It isn't copied, and no memory is taken: `AllocError` comes only
    /// where it can have no owner more, which changes nothing.
    pub fn other(&self) -> Result<Option<Items<T, A>>, AllocError>
        ensures { IfOk result (λ found. IfSome found (λ other. AreAlike self.now other)) }
    {
        let Some(other) = &self.other else {
            return Ok(None);
        };
        Ok(Some(Items {
            all: other.clone()?,
            held: other.len(),
            other: None,
        }))
    }

    /// The same items for one owner more. They aren't copied, and no memory is taken: `AllocError` comes only where they can
    /// have no owner more, which changes nothing.
    pub fn share(&self) -> Result<Items<T, A>, AllocError>
        ensures { IfOk result (λ i. i ≡ self.now) }
    {
        let other = match &self.other {
            Some(other) => Some(other.clone()?),
            None => None,
        };
        Ok(Items {
            all: self.all.clone()?,
            held: self.held,
            other,
        })
    }
}

impl<T: Copy, A: Allocator> Items<T, A> {
    /// The items as a list. Where nobody else holds them it is the list itself, else a copy, and only then memory may be wanting.
    pub fn into_vec(self, alloc: A) -> Result<Vec<T, A>, AllocError>
        ensures { IfOk result (λ list. list.items ≡ self) }
    {
        let Items { all, held, .. } = self;
        match Arc::try_unwrap(all) {
            Ok(list) => {
                let mut list = list;
                list.truncate(held);
                Ok(list)
            }
            Err(all) => Vec::from_slice(alloc, &all.as_slice()[..held]),
        }
    }
}
