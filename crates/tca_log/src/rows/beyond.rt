//! Which of some keys, in order, tie with no row of a container.
ghost use Rattle.std.specs.Prelude.{◌≡◌, ◌≤◌, IfOk, IsOk, length, map, not};
ghost use Rattle.std.specs.List.Sorted.{IsStrictlySortedBy};
ghost use Rattle.std.specs.declared.cmp.Ordering.TheVariants.{Less};
ghost use Rattle.tca_join.specs.Sets.{has};
ghost use Rattle.tca_log.specs.Rows.Ordered.{most_rows, without_each};

use crate::rows::iter::RowsIter;
use crate::rows::left::Left;
use crate::rows::{Rows, SHARE};
use std::alloc::{AllocError, Allocator};
use std::marker::Model;

/// The rows among which keys are looked for, one after another in their order. Where the keys are many it goes through
/// the rows once; else it searches for each.
#[derive(Drop)]
pub(crate) struct Finder<'a, K: Ord + Copy, A: Allocator + Copy> {
    rows: &'a Rows<K, A>,
    left: Left<'a, K, A>,
    is_walking: bool,
}

impl<'a, K: Ord + Copy, A: Allocator + Copy> Model for Finder<'a, K, A> {
    ghost use Rattle.std.specs.Prelude.{List, if◌then◌else◌};

    ghost Value = { List K };

    ghost view = { λ f. if f.is_walking then f.left else f.rows.now.rows };
}

impl<'a, K: Ord + Copy, A: Allocator + Copy> Finder<'a, K, A> {
    // For so many keys.
    fn new(rows: &'a Rows<K, A>, count: usize) -> Finder<'a, K, A>
        ensures rows { result ≡ rows.now.rows }
        ensures rises { IsStrictlySortedBy K.cmp rows.now.rows }
    {
        Finder {
            rows,
            left: Left::new(rows.iter()),
            is_walking: count >= rows.len() / SHARE,
        }
    }

    // Whether a row ties with this key. From then on only keys that come after it may be looked for.
    fn has(&mut self, key: &K) -> bool
        requires { IsStrictlySortedBy K.cmp self.old }
        ensures there { result ≡ has K.cmp self.old key.now }
        ensures later { (q : K) → K.cmp key.now q ≡ Less → has K.cmp self.new q ≡ has K.cmp self.old q }
        ensures rises { IsStrictlySortedBy K.cmp self.new }
    {
        if self.is_walking {
            return self.left.pass(key);
        }
        self.rows.contains(key)
    }
}

/// How many of so many keys tie with no row.
pub(crate) fn count_beyond<K: Ord + Copy, A: Allocator + Copy>(
    keys: RowsIter<'_, K, A>,
    number: usize,
    rows: &Rows<K, A>,
) -> usize
    requires rises { IsStrictlySortedBy K.cmp keys }
    requires number { number ≡ length keys }
    ensures { result ≡ length (without_each K.cmp rows.now.rows keys.entry) }
{
    let mut finder = Finder::new(rows, number);
    let mut count = number;
    for key in keys {
        if finder.has(key) {
            count -= 1;
        }
    }
    count
}

/// The keys that tie with no row: so many of so many.
pub(crate) fn difference<K: Ord + Copy, A: Allocator + Copy>(
    alloc: A,
    keys: RowsIter<'_, K, A>,
    number: usize,
    new: usize,
    rows: &Rows<K, A>,
) -> Result<Rows<K, A>, AllocError>
    requires rises { IsStrictlySortedBy K.cmp keys }
    requires new { new ≡ length (without_each K.cmp rows.now.rows keys) }
    requires few { new ≤ most_rows }
    ensures rest { IfOk result (λ rest. rest.rows ≡ without_each K.cmp rows.now.rows keys.entry) }
    ensures nothing { new ≡ 0 → IsOk result }
{
    let mut finder = Finder::new(rows, number);
    let mut rest = Vec::with_capacity(alloc, new)?;
    for key in keys {
        if !finder.has(key) {
            rest.push(*key)?;
        }
    }
    Rows::of_ascending(alloc, rest)
}

/// Which of some keys tie with no row, in the order of the keys.
pub(crate) fn are_beyond<K: Ord + Copy, A: Allocator + Copy>(
    alloc: A,
    keys: &[K],
    rows: &Rows<K, A>,
) -> Result<Vec<bool, A>, AllocError>
    requires { IsStrictlySortedBy K.cmp keys.now }
    ensures { IfOk result (λ beyond. beyond.items ≡ map (λ q. not (has K.cmp rows.now.rows q)) keys.now) }
{
    let mut finder = Finder::new(rows, keys.len());
    let mut beyond = Vec::with_capacity(alloc, keys.len())?;
    let left: RowsIter<'_, K, A> = RowsIter::of(keys);
    for key in left {
        beyond.push(!finder.has(key))?;
    }
    Ok(beyond)
}
