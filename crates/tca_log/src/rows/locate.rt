//! Where a row is among chunks.
ghost use Rattle.std.specs.Prelude.{◌≡◌, true, false, ◌<◌, ◌≤◌, length, drop};
ghost use Rattle.tca_log.specs.inside.Chunks.{IsPosition, joined};
ghost use Rattle.tca_log.specs.Rows.Ordered.{most_rows};

use crate::rows::chunk::Chunk;
use crate::rows::iter::RowsIter;
use std::alloc::Allocator;

/// The chunk in which a row is, or would go.
pub(crate) fn position<K: Ord + Copy, A: Allocator>(chunks: &[Chunk<K, A>], key: &K) -> usize
    requires { 0 < length chunks.now }
    ensures { IsPosition K.cmp chunks.now key.now result }
{
    let last = chunks.len() - 1;
    if !chunks[last].starts_after(key) {
        return last;
    }
    let mut low = 0;
    let mut high = last;
    while low + 1 < high {
        let middle = low + (high - low) / 2;
        if chunks[middle].starts_after(key) {
            high = middle;
        } else {
            low = middle;
        }
    }
    low
}

/// How many rows these chunks have.
pub(crate) fn count_of<K: Ord + Copy, A: Allocator>(chunks: &[Chunk<K, A>]) -> usize
    requires { length (joined chunks.now) ≤ most_rows }
    ensures { result ≡ length (joined chunks.now) }
{
    let mut count = 0;
    for chunk in chunks {
        count += chunk.len();
    }
    count
}

/// The rows of these chunks from one on, counted from 0.
pub(crate) fn from_row<K: Ord + Copy, A: Allocator>(
    chunks: &[Chunk<K, A>],
    row: usize,
) -> RowsIter<'_, K, A>
    requires { row ≤ length (joined chunks.now) }
    ensures { result ≡ drop row (joined chunks.now) }
{
    let mut left = row;
    let mut at = 0;
    while at < chunks.len() {
        let chunk = &chunks[at];
        let size = chunk.len();
        if left < size {
            return RowsIter::new(&chunk.rows()[left..], &chunks[at + 1..]);
        }
        left -= size;
        at += 1;
    }
    RowsIter::new(&[], &[])
}
