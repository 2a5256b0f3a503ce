//! The rows of a container that are left, as others are gone through beside them.
ghost use Rattle.std.specs.Prelude.{◌≡◌, List, ◌++◌, OnOk};
ghost use Rattle.std.specs.List.Sorted.{IsStrictlySortedBy};
ghost use Rattle.tca_join.specs.Sets.{has};
ghost use Rattle.tca_log.specs.Rows.Ordered.{before_key, from_key};

use crate::rows::iter::RowsIter;
use std::alloc::{AllocError, Allocator};
use std::cmp::Ordering;
use std::marker::Model;

/// Rows in order, borrowed from their container, of which the next can be seen.
#[derive(Drop)]
pub(crate) struct Left<'a, K: Ord + Copy, A: Allocator> {
    next: Option<&'a K>,
    later: RowsIter<'a, K, A>,
}

impl<'a, K: Ord + Copy, A: Allocator> Model for Left<'a, K, A> {
    ghost use Rattle.std.specs.Prelude.{List, option_copied};
    ghost use Rattle.tca_log.specs.Rows.Ordered.{seen_first};

    ghost Value = { List K };

    ghost view = { λ l. seen_first (option_copied l.next) l.later };
}

impl<'a, K: Ord + Copy, A: Allocator> Left<'a, K, A> {
    /// All of these rows.
    pub(crate) fn new(rows: RowsIter<'a, K, A>) -> Left<'a, K, A>
        ensures { result ≡ rows.entry }
    {
        let mut later = rows;
        let next = later.next();
        Left { next, later }
    }

    /// Passes the rows that come before this one, and answers whether the next ties with it.
    pub(crate) fn pass(&mut self, key: &K) -> bool
        requires { IsStrictlySortedBy K.cmp self.old }
        ensures there { result ≡ has K.cmp self.old key.now }
        ensures left { self.new ≡ from_key K.cmp key.now self.old }
    {
        while let Some(row) = self.next {
            match row.cmp(key) {
                Ordering::Less => self.next = self.later.next(),
                Ordering::Equal => return true,
                Ordering::Greater => return false,
            }
        }
        false
    }

    /// Puts the rows that come before this one at the end of a list. An error may leave some of them there.
    pub(crate) fn move_before(&mut self, key: &K, list: &mut Vec<K, A>) -> Result<(), AllocError>
        requires { IsStrictlySortedBy K.cmp self.old }
        ensures list { OnOk result (list.new.items ≡ list.old.items ++ before_key K.cmp key.now self.old) }
        ensures left { OnOk result (self.new ≡ from_key K.cmp key.now self.old) }
    {
        while let Some(row) = self.next {
            if !row.cmp(key).is_lt() {
                return Ok(());
            }
            list.push(*row)?;
            self.next = self.later.next();
        }
        Ok(())
    }

    /// Puts all rows at the end of a list. An error may leave some of them there.
    pub(crate) fn move_all(&mut self, list: &mut Vec<K, A>) -> Result<(), AllocError>
        ensures { OnOk result (list.new.items ≡ list.old.items ++ self.old) }
    {
        while let Some(row) = self.next {
            list.push(*row)?;
            self.next = self.later.next();
        }
        Ok(())
    }
}
