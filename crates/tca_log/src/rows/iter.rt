//! The rows of a container, one after another.
ghost use Rattle.std.specs.Prelude.{◌≡◌, ◌++◌};
ghost use Rattle.std.specs.Iterator.{YieldsFirstRef, item_count};
ghost use Rattle.tca_log.specs.inside.Chunks.{joined};

use crate::rows::chunk::Chunk;
use std::alloc::{Allocator, Global};
use std::marker::Model;

/// Rows in order, borrowed from their container.
#[derive(Drop)]
pub struct RowsIter<'a, K: Ord + Copy, A: Allocator = Global> {
    now: &'a [K],
    later: &'a [Chunk<K, A>],
}

impl<'a, K: Ord + Copy, A: Allocator> Model for RowsIter<'a, K, A> {
    ghost use Rattle.std.specs.Prelude.{List, ◌++◌};
    ghost use Rattle.tca_log.specs.inside.Chunks.{joined};

    ghost Value = { List K };

    ghost view = { λ r. r.now.now ++ joined r.later.now };
}

impl<'a, K: Ord + Copy, A: Allocator> RowsIter<'a, K, A> {
    pub(crate) fn new(now: &'a [K], later: &'a [Chunk<K, A>]) -> RowsIter<'a, K, A>
        ensures { result ≡ now.now ++ joined later.now }
    {
        RowsIter { now, later }
    }

    /// The members of a list.
    pub(crate) fn of(list: &'a [K]) -> RowsIter<'a, K, A>
        ensures { result ≡ list.now }
    {
        RowsIter {
            now: list,
            later: &[],
        }
    }
}

impl<'a, K: Ord + Copy, A: Allocator> Iterator for RowsIter<'a, K, A> {
    type Item = &'a K;

    ghost next_gives = { YieldsFirstRef (λ s. s) };

    ghost remaining = { item_count (λ s. s) };

    fn next(&mut self) -> Option<&'a K> {
        while self.now.is_empty() {
            let (chunk, others) = self.later.split_first()?;
            self.now = chunk.rows();
            self.later = others;
        }
        let (first, others) = self.now.split_first()?;
        self.now = others;
        Some(first)
    }
}
