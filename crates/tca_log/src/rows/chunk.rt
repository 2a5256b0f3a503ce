//! A run of a container's rows that lie side by side in memory.
ghost use Rattle.std.specs.Prelude.{◌≡◌, ℕ, true, false, ◌+◌, ◌-◌, ◌<◌, ◌≤◌, [], ◌∷◌, ◌++◌, length, IfOk, IfErr, OnOk, OnErr, IsTrue, take, drop, Some, None, MatchResult, get_or, option_copied, vec_capacity};
ghost use Rattle.std.specs.List.{insert, remove};
ghost use Rattle.std.specs.List.Sorted.{IsStrictlySortedBy, IsSearchInRange};
ghost use Rattle.tca_join.specs.Sets.{has, put};
ghost use Rattle.tca_log.specs.inside.Chunks.{IsStored, rows_of, starts_after};
ghost use Rattle.tca_log.specs.Rows.Ordered.{without, without_each, rank, tied};

use crate::rows::Rows;
use crate::rows::near::told_at;
use std::alloc::{AllocError, Allocator};
use std::marker::Model;
use tca_join::Items;

/// How many rows a chunk has room for.
pub const CHUNK: usize = 256;

/// Some rows in order, with room for 256 at least. A list of more rows may be one chunk, until a row is put. That list may be one that
/// others hold too: then the chunk has no rows of its own but room for all of them, into which they are copied where they have to change.
#[derive(Drop)]
pub struct Chunk<K: Ord + Copy, A: Allocator> {
    rows: Vec<K, A>,
    shared: Option<Items<K, A>>,
}

impl<K: Ord + Copy, A: Allocator> Model for Chunk<K, A> {
    ghost use Rattle.std.specs.Prelude.{List, vec_capacity};
    ghost use Rattle.tca_log.specs.inside.Chunks.{IsStored, rows_of};

    ghost Value = { List K };

    ghost view = { λ c. rows_of c.shared c.rows.items };

    ghost invariant = { λ c. IsStored c.shared c.rows.items (vec_capacity c.rows) };
}

impl<K: Ord + Copy, A: Allocator> Chunk<K, A> {
    /// A chunk without rows, with room for all that it may have.
    pub(crate) fn new(alloc: A) -> Result<Chunk<K, A>, AllocError>
        ensures { IfOk result (λ c. c ≡ []) }
    {
        Ok(Chunk {
            rows: Vec::with_capacity(alloc, CHUNK)?,
            shared: None,
        })
    }

    /// A chunk of these rows.
    pub(crate) fn of(alloc: A, rows: &[K]) -> Result<Chunk<K, A>, AllocError>
        requires { length rows.now ≤ 256 }
        ensures { IfOk result (λ c. c ≡ rows.now) }
    {
        let mut chunk = Vec::with_capacity(alloc, CHUNK)?;
        chunk.extend_from_slice(rows)?;
        Ok(Chunk {
            rows: chunk,
            shared: None,
        })
    }

    /// A chunk that is this list, which it copies only where the list has no room for 256.
    pub(crate) fn of_list(alloc: A, rows: Vec<K, A>) -> Result<Chunk<K, A>, AllocError>
        ensures { IfOk result (λ c. c ≡ rows.items) }
    {
        if rows.capacity() < CHUNK {
            return Chunk::of(alloc, &rows);
        }
        Ok(Chunk { rows, shared: None })
    }

    /// A chunk that is this list, which others hold too. It takes memory for a copy, and copies nothing yet.
    pub(crate) fn of_shared(alloc: A, list: Items<K, A>) -> Result<Chunk<K, A>, AllocError>
        ensures { IfOk result (λ c. c ≡ list) }
    {
        Ok(Chunk {
            rows: Vec::with_capacity(alloc, list.len().max(CHUNK))?,
            shared: Some(list),
        })
    }

    /// How many rows there are.
    pub(crate) fn len(&self) -> usize
        ensures { result ≡ length self.now }
    {
        self.rows().len()
    }

    /// The rows in order.
    pub(crate) fn rows(&self) -> &[K]
        ensures { result.now ≡ self.now }
    {
        match &self.shared {
            Some(list) => list.as_slice(),
            None => &self.rows,
        }
    }

    /// The list of its rows.
    pub(crate) fn into_list(self) -> Vec<K, A>
        ensures { result.items ≡ self }
    {
        let Chunk {
            mut rows,
            mut shared,
        } = self;
        copy_shared(&mut rows, &mut shared);
        rows
    }

    /// Whether its first row comes after this one.
    pub(crate) fn starts_after(&self, key: &K) -> bool
        ensures { result ≡ starts_after K.cmp key.now self.now }
    {
        match self.rows().first() {
            Some(first) => key.cmp(first).is_lt(),
            None => false,
        }
    }

    // Where the row is, or where it would go.
    fn search(&self, key: &K) -> Result<usize, usize>
        requires { IsStrictlySortedBy K.cmp self.now }
        ensures bound { IsSearchInRange result (length self.now) }
        ensures tie { IfOk result (λ at. tied K.cmp key.now self.now ≡ Some (get_or self.now at key.now)) }
        ensures there { OnOk result (put K.cmp key.now self.now ≡ self.now) }
        ensures gone { IfOk result (λ at. without K.cmp key.now self.now ≡ remove self.now at) }
        ensures none { OnErr result (tied K.cmp key.now self.now ≡ None) }
        ensures gap { IfErr result (λ at. put K.cmp key.now self.now ≡ insert self.now at key.now) }
        ensures same { OnErr result (without K.cmp key.now self.now ≡ self.now) }
        ensures rank { MatchResult result (λ at. at ≡ rank K.cmp key.now self.now) (λ at. at ≡ rank K.cmp key.now self.now) }
    {
        self.rows().binary_search(key)
    }

    /// How many rows come before this one.
    pub(crate) fn rank(&self, key: &K) -> usize
        requires { IsStrictlySortedBy K.cmp self.now }
        ensures rank { result ≡ rank K.cmp key.now self.now }
        ensures limit { result ≤ length self.now }
    {
        match self.search(key) {
            Ok(at) => at,
            Err(at) => at,
        }
    }

    /// Whether a row ties with this one. It is looked for at a place and the one behind it first, and the place becomes that where it is or
    /// would go.
    pub(crate) fn has_near(&self, near: &mut usize, key: &K) -> bool
        requires { IsStrictlySortedBy K.cmp self.now }
        ensures { result ≡ has K.cmp self.now key.now }
    {
        let next = near.saturating_add(1);
        if let Some(ties) = told_at(self.rows(), *near, key) {
            return ties;
        }
        if let Some(ties) = told_at(self.rows(), next, key) {
            *near = next;
            return ties;
        }
        match self.search(key) {
            Ok(at) => {
                *near = at;
                true
            }
            Err(at) => {
                *near = at;
                false
            }
        }
    }

    /// The row that ties with this one in the order, if there is one.
    pub(crate) fn get(&self, key: &K) -> Option<&K>
        requires { IsStrictlySortedBy K.cmp self.now }
        ensures { option_copied result ≡ tied K.cmp key.now self.now }
    {
        if self.ends_before(key) {
            return None;
        }
        match self.search(key) {
            Ok(at) => Some(&self.rows()[at]),
            Err(_) => None,
        }
    }

    /// Puts a row in its place, unless one that ties with it is there.
    pub(crate) fn put(&mut self, key: K)
        requires rises { IsStrictlySortedBy K.cmp self.old }
        requires room { length self.old < 256 }
        ensures { self.new ≡ put K.cmp key self.old }
    {
        if self.ends_before(&key) {
            self.push(key);
        } else if let Err(at) = self.search(&key) {
            copy_shared(&mut self.rows, &mut self.shared);
            let _ = self.rows.insert(at, key);
        }
    }

    /// Takes away the row that ties with this one, if there is one.
    pub(crate) fn withdraw(&mut self, key: &K)
        requires rises { IsStrictlySortedBy K.cmp self.old }
        ensures { self.new ≡ without K.cmp key.now self.old }
    {
        if let Ok(at) = self.search(key) {
            copy_shared(&mut self.rows, &mut self.shared);
            let _ = self.rows.remove(at);
        }
    }

    /// Adds a row at the end.
    pub(crate) fn push(&mut self, key: K)
        requires { length self.old < 256 }
        ensures { self.new ≡ self.old ++ key ∷ [] }
    {
        copy_shared(&mut self.rows, &mut self.shared);
        let _ = self.rows.push(key);
    }

    // Whether all its rows come before this one.
    fn ends_before(&self, key: &K) -> bool
        requires { IsStrictlySortedBy K.cmp self.now }
        ensures put { IsTrue result → put K.cmp key.now self.now ≡ self.now ++ key.now ∷ [] }
        ensures none { IsTrue result → tied K.cmp key.now self.now ≡ None }
    {
        match self.rows().last() {
            Some(last) => last.cmp(key).is_lt(),
            None => true,
        }
    }

    /// Puts a row in its place in a full chunk. Its upper half moves over, but at the end of the last chunk
    /// the new row alone, so that a rising run fills its chunks.
    pub(crate) fn put_splitting(&mut self, upper: &mut Chunk<K, A>, key: K, is_last: bool)
        requires rises { IsStrictlySortedBy K.cmp self.old }
        requires empty { upper.old ≡ [] }
        requires full { length self.old ≡ 256 }
        ensures all { put K.cmp key self.old ≡ self.new ++ upper.new }
        ensures some { 0 < length self.new }
        ensures more { 0 < length upper.new }
        ensures small { length self.new ≤ 256 }
        ensures small_upper { length upper.new ≤ 256 }
    {
        if is_last && self.ends_before(&key) {
            upper.push(key);
            return;
        }
        self.split(upper);
        if upper.starts_after(&key) {
            self.put(key);
        } else {
            upper.put(key);
        }
    }

    /// Moves the upper half of the rows to a chunk that has none.
    pub(crate) fn split(&mut self, upper: &mut Chunk<K, A>)
        requires empty { upper.old ≡ [] }
        requires small { length self.old ≤ 256 }
        ensures all { self.new ++ upper.new ≡ self.old }
        ensures lower { length self.old ≡ 256 → length self.new ≡ 128 }
        ensures upper { length self.old ≡ 256 → length upper.new ≡ 128 }
    {
        copy_shared(&mut self.rows, &mut self.shared);
        copy_shared(&mut upper.rows, &mut upper.shared);
        let half = self.rows.len() / 2;
        let _ = upper.rows.extend_from_slice(&self.rows[half..]);
        self.rows.truncate(half);
    }
}

impl<K: Ord + Copy, A: Allocator + Copy> Chunk<K, A> {
    /// Takes away each row that ties with one of a container. It goes through its rows once, and takes no memory.
    pub(crate) fn withdraw_all(&mut self, others: &Rows<K, A>)
        ensures { self.new ≡ without_each K.cmp others.now.rows self.old }
    {
        copy_shared(&mut self.rows, &mut self.shared);
        let mut near = 0;
        self.rows
            .retain(move |row| !others.has_near(&mut near, row));
    }
}

// Copies the rows of a shared list into a chunk's own room, if it has one. It takes no memory.
fn copy_shared<K: Copy, A: Allocator>(rows: &mut Vec<K, A>, shared: &mut Option<Items<K, A>>)
    requires { IsStored shared.old rows.old.items (vec_capacity rows.old) }
    ensures rows { rows.new.items ≡ rows_of shared.old rows.old.items }
    ensures own { shared.new ≡ None }
    ensures room { vec_capacity rows.old ≤ vec_capacity rows.new }
{
    if let Some(list) = shared.take() {
        let _ = rows.extend_from_slice(list.as_slice());
    }
}
