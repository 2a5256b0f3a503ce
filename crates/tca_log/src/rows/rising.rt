//! Lists of which most rows ascend.
ghost use Rattle.std.specs.Prelude.{◌≡◌, ◌≤◌, true, length, take, IsTrue};
ghost use Rattle.std.specs.List.Sorted.{IsPermutation, IsStrictlySortedBy};
ghost use Rattle.tca_join.specs.Sets.{has};

use crate::rows::iter::RowsIter;
use crate::rows::left::Left;
use std::alloc::{Allocator, Global};

// How long lists in order are at least, by and large, that are put together and not sorted anew.
const LONG: usize = 1_024;

/// Puts in front, in the order in which they stand, the rows that come after each one before them, and answers how many
/// they are. It takes no memory.
pub(crate) fn rising_first<K: Ord>(rows: &mut [K]) -> usize
    ensures bound { result ≤ length rows.new }
    ensures rises { IsStrictlySortedBy K.cmp (take result rows.new) }
    ensures permutation { IsPermutation rows.old rows.new }
{
    if rows.is_empty() {
        return 0;
    }
    let mut rising = 1;
    for at in 1..rows.len() {
        if rows[rising - 1].cmp(&rows[at]).is_lt() {
            rows.swap(rising, at);
            rising += 1;
        }
    }
    rising
}

// How many rows come before the one in front of them.
fn count_falls<K: Ord>(rows: &[K]) -> usize {
    let mut falls = 0;
    for at in 1..rows.len() {
        if rows[at].cmp(&rows[at - 1]).is_lt() {
            falls += 1;
        }
    }
    falls
}

// Sorts rows. Where they are a few lists in order, one after another, it puts these together, for which it asks for memory; else, and
// where that is refused, it sorts in place.
fn put_in_order<K: Ord, A: Allocator>(alloc: A, rows: &mut [K])
    ensures { IsPermutation rows.old rows.new }
{
    let are_few = count_falls(rows) < rows.len() / LONG;
    if are_few && rows.sort(alloc).is_ok() {
        return;
    }
    rows.sort_unstable();
}

/// Sorts the rows behind the first ones. Want of memory makes it slower at most.
pub(crate) fn sort_behind<K: Ord, A: Allocator>(alloc: A, rows: &mut [K], first: usize)
    requires { first ≤ length rows.old }
    ensures first { take first rows.new ≡ take first rows.old }
    ensures permutation { IsPermutation rows.old rows.new }
{
    let (_, behind) = rows.split_at_mut(first);
    put_in_order(alloc, behind);
}

/// Whether each of some keys in order ties with one of the rows. It goes through both once.
pub(crate) fn are_among<K: Ord + Copy>(keys: &[K], rows: &[K]) -> bool
    requires { IsStrictlySortedBy K.cmp rows.now }
    ensures { IsTrue result → (q : K) → has K.cmp keys.now q ≡ true → has K.cmp rows.now q ≡ true }
{
    let mut left: Left<K, Global> = Left::new(RowsIter::of(rows));
    for key in keys {
        if !left.pass(key) {
            return false;
        }
    }
    true
}
