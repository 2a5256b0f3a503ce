//! An ordered set that makes room first, and then takes no memory. It knows nothing of reports.
//!
//! - `chunk`: rows that lie side by side in memory; `locate`: which chunk a row is in; `iter`: the rows one by one; `order`:
//!   whether a list ascends; `near`: looking for a row near a place; `rising`: lists of which most rows ascend; `left`, `merge`,
//!   `beyond`: two containers gone through at once.
ghost use Rattle.std.specs.Prelude.{◌≡◌, ℕ, true, false, ◌+◌, ◌-◌, ◌<◌, ◌≤◌, [], ◌∷◌, ◌++◌, length, drop, OnOk, OnErr, IfOk, IsOk, IsTrue, Some, is_some, IfSome, vec_len, vec_capacity, option_copied};
ghost use Rattle.std.specs.List.{All};
ghost use Rattle.std.specs.List.Sorted.{IsStrictlySortedBy};
ghost use Rattle.tca_join.specs.Sets.{has, put};
ghost use Rattle.tca_log.specs.inside.Chunks.{joined, AreChunks};
ghost use Rattle.tca_log.specs.Rows.Ordered.{without, rank, tied, put_each, without_each, AreApart, Ordered, most_rows};

mod beyond;
mod chunk;
mod iter;
mod left;
mod locate;
mod merge;
mod near;
mod order;
mod rising;

pub(crate) use beyond::{are_beyond, count_beyond, difference};
use chunk::{CHUNK, Chunk};
pub use iter::RowsIter;
use locate::{count_of, from_row, position};
pub(crate) use merge::merged;
pub(crate) use order::ascend;
pub(crate) use rising::{are_among, rising_first, sort_behind};
use std::alloc::{AllocError, Allocator, Global};
use std::marker::Model;
use tca_join::Items;

/// The most rows of a container.
pub const LIMIT: usize = 4_194_304;

// Where a list has less than this part of a container's rows, one search for each is faster than going through all.
pub(crate) const SHARE: usize = 64;

/// Rows in strictly ascending order, at most 4,194,304. A list that ascends is kept as it is. Once room is made to put a
/// row they lie in chunks of at most 256, so that putting or withdrawing one moves few others. `reserve` makes room for one
/// row, and `put` and `withdraw` take no memory.
#[derive(Drop)]
pub struct Rows<K: Ord + Copy, A: Allocator + Copy = Global> {
    chunks: Vec<Chunk<K, A>, A>,
    spare: Option<Chunk<K, A>>,
    count: usize,
}

impl<K: Ord + Copy, A: Allocator + Copy> Model for Rows<K, A> {
    ghost use Rattle.std.specs.Prelude.{is_some, vec_capacity};
    ghost use Rattle.tca_log.specs.inside.Chunks.{joined, AreRows};
    ghost use Rattle.tca_log.specs.Rows.Ordered.{Ordered};

    ghost Value = { Ordered K };

    ghost view = { λ s. record { rows = joined s.chunks.items; ready = is_some s.spare } };

    ghost invariant = { λ s. AreRows K.cmp s.chunks.items s.spare s.count (vec_capacity s.chunks) };
}

impl<K: Ord + Copy, A: Allocator + Copy> Rows<K, A> {
    /// A container without rows. It takes no memory.
    pub fn new(alloc: A) -> Rows<K, A>
        ensures { result ≡ record { rows = []; ready = false } }
    {
        Rows {
            chunks: Vec::new(alloc),
            spare: None,
            count: 0,
        }
    }

    /// A container of rows that ascend. It keeps the list as it is, and takes memory for no more than its handle.
    pub(crate) fn of_ascending(alloc: A, rows: Vec<K, A>) -> Result<Rows<K, A>, AllocError>
        requires rises { IsStrictlySortedBy K.cmp rows.items }
        requires few { vec_len rows ≤ most_rows }
        ensures rows { IfOk result (λ all. all.rows ≡ rows.items) }
        ensures none { vec_len rows ≡ 0 → IsOk result }
    {
        let count = rows.len();
        if count == 0 {
            return Ok(Rows::new(alloc));
        }
        let mut chunks = Vec::new(alloc);
        chunks.push(Chunk::of_list(alloc, rows)?)?;
        Ok(Rows {
            chunks,
            spare: None,
            count,
        })
    }

    /// A container of the rows of a list that others hold too, which ascend. It takes memory for a copy, and copies nothing before a row is
    /// put or withdrawn.
    pub(crate) fn of_shared(alloc: A, list: Items<K, A>) -> Result<Rows<K, A>, AllocError>
        requires rises { IsStrictlySortedBy K.cmp list }
        requires few { length list ≤ most_rows }
        ensures { IfOk result (λ all. all.rows ≡ list) }
    {
        let count = list.len();
        if count == 0 {
            return Ok(Rows::new(alloc));
        }
        let mut chunks = Vec::new(alloc);
        chunks.push(Chunk::of_shared(alloc, list)?)?;
        Ok(Rows {
            chunks,
            spare: None,
            count,
        })
    }

    /// Where its memory comes from.
    pub(crate) fn allocator(&self) -> A {
        *self.chunks.allocator()
    }

    /// How many rows there are.
    pub fn len(&self) -> usize
        ensures length { result ≡ length self.now.rows }
        ensures limit { length self.now.rows ≤ most_rows }
        ensures rises { IsStrictlySortedBy K.cmp self.now.rows }
    {
        self.count
    }

    /// The rows in order.
    pub fn iter(&self) -> RowsIter<'_, K, A>
        ensures rows { result ≡ self.now.rows }
        ensures limit { length self.now.rows ≤ most_rows }
        ensures rises { IsStrictlySortedBy K.cmp self.now.rows }
    {
        RowsIter::new(&[], &self.chunks)
    }

    /// The rows in order from one on, counted from 0.
    pub fn iter_from(&self, row: usize) -> RowsIter<'_, K, A>
        requires { row ≤ length self.now.rows }
        ensures { result ≡ drop row self.now.rows }
    {
        from_row(&self.chunks, row)
    }

    /// The row that ties with this one in the order, if there is one.
    pub fn get(&self, key: &K) -> Option<&K>
        ensures { option_copied result ≡ tied K.cmp key.now self.now.rows }
    {
        if self.chunks.len() == 0 {
            return None;
        }
        let at = position(&self.chunks, key);
        self.chunks[at].get(key)
    }

    /// Whether a row ties with this one.
    pub fn contains(&self, key: &K) -> bool
        ensures { result ≡ has K.cmp self.now.rows key.now }
    {
        self.get(key).is_some()
    }

    /// Whether a row ties with this one. It is looked for near a place first, and the place becomes that where it is or would go, so keys
    /// that ascend by and large cost little.
    pub(crate) fn has_near(&self, near: &mut usize, key: &K) -> bool
        ensures { result ≡ has K.cmp self.now.rows key.now }
    {
        if self.chunks.len() == 0 {
            return false;
        }
        let at = position(&self.chunks, key);
        self.chunks[at].has_near(near, key)
    }

    /// How many rows come before this one.
    pub fn rank(&self, key: &K) -> usize
        ensures { result ≡ rank K.cmp key.now self.now.rows }
    {
        if self.chunks.len() == 0 {
            return 0;
        }
        let at = position(&self.chunks, key);
        count_of(&self.chunks[..at]) + self.chunks[at].rank(key)
    }

    /// Makes room for one more row. It cuts a long list into chunks first. An error leaves all as it was, and comes only
    /// where there was no room yet.
    pub fn reserve(&mut self) -> Result<(), AllocError>
        ensures rows { self.new.rows ≡ self.old.rows }
        ensures ready { OnOk result (self.new.ready ≡ true) }
        ensures err { OnErr result (self.new ≡ self.old) }
        ensures refused { OnErr result (self.old.ready ≡ false) }
    {
        if self.spare.is_none() {
            self.spare = Some(spare_for(&mut self.chunks)?);
        }
        Ok(())
    }

    /// Puts a row in its place. It takes no memory.
    pub fn put(&mut self, key: K)
        requires ready { self.old.ready ≡ true }
        requires new { has K.cmp self.old.rows key ≡ false }
        requires few { length self.old.rows < most_rows }
        ensures { self.new.rows ≡ put K.cmp key self.old.rows }
    {
        self.count += 1;
        put_in(&mut self.chunks, &mut self.spare, key);
    }

    /// Takes away the row that ties with this one. It takes no memory. What lies after the row in its chunk moves, so
    /// before many calls on a long list make room by `reserve`, which cuts it.
    pub fn withdraw(&mut self, key: &K)
        requires there { has K.cmp self.old.rows key.now ≡ true }
        ensures rows { self.new.rows ≡ without K.cmp key.now self.old.rows }
        ensures ready { self.new.ready ≡ self.old.ready }
    {
        self.count -= 1;
        take_from(&mut self.chunks, key);
    }

    /// Puts all rows of another container, or none where memory is short. Where they are many it goes through both once, and
    /// they lie in one list from then on.
    pub(crate) fn put_all(&mut self, other: &Rows<K, A>) -> Result<(), AllocError>
        requires apart { AreApart K.cmp other.now.rows self.old.rows }
        requires few { length self.old.rows + length other.now.rows ≤ most_rows }
        ensures ok { OnOk result (self.new.rows ≡ put_each K.cmp other.now.rows self.old.rows) }
        ensures err { OnErr result (self.new.rows ≡ self.old.rows) }
    {
        if other.len() == 0 {
            return Ok(());
        }
        if other.len() >= self.len() / SHARE {
            *self = merged(self, other)?;
            return Ok(());
        }
        // Where no row has gone in, a refusal has nothing to withdraw.
        self.reserve()?;
        for key in other.iter() {
            if let Err(refused) = self.reserve() {
                self.withdraw_all(other);
                return Err(refused);
            }
            self.put(*key);
        }
        Ok(())
    }

    /// Puts all rows of another container, or none where memory is short. Where this one has no rows it becomes the
    /// other, which costs nothing.
    pub(crate) fn take_all(&mut self, other: Rows<K, A>) -> Result<(), AllocError>
        requires apart { AreApart K.cmp other.rows self.old.rows }
        requires few { length self.old.rows + length other.rows ≤ most_rows }
        ensures ok { OnOk result (self.new.rows ≡ put_each K.cmp other.rows self.old.rows) }
        ensures err { OnErr result (self.new.rows ≡ self.old.rows) }
    {
        if self.len() == 0 && other.len() > 0 {
            *self = other;
            return Ok(());
        }
        self.put_all(&other)
    }

    /// Takes away each row that ties with one of another container. It takes no memory. Where the rows lie in one list it goes
    /// through them once.
    pub(crate) fn withdraw_all(&mut self, other: &Rows<K, A>)
        ensures { self.new.rows ≡ without_each K.cmp other.now.rows self.old.rows }
    {
        if self.chunks.len() == 1 {
            take_all_from(&mut self.chunks, other);
            self.count = count_of(&self.chunks);
            return;
        }
        for key in other.iter() {
            if self.contains(key) {
                self.withdraw(key);
            }
        }
    }

    /// How many rows tie with none of another container.
    pub(crate) fn count_beyond(&self, held: &Rows<K, A>) -> usize
        ensures { result ≡ length (without_each K.cmp held.now.rows self.now.rows) }
    {
        count_beyond(self.iter(), self.len(), held)
    }

    /// The rows that tie with none of another container, of which there are so many.
    pub(crate) fn difference(
        &self,
        alloc: A,
        new: usize,
        held: &Rows<K, A>,
    ) -> Result<Rows<K, A>, AllocError>
        requires { new ≡ length (without_each K.cmp held.now.rows self.now.rows) }
        ensures { IfOk result (λ rest. rest.rows ≡ without_each K.cmp held.now.rows self.now.rows) }
    {
        difference(alloc, self.iter(), self.len(), new, held)
    }

    /// A container with the same rows, as one list.
    pub(crate) fn copy(&self) -> Result<Rows<K, A>, AllocError>
        ensures { IfOk result (λ c. c.rows ≡ self.now.rows) }
    {
        let list = self.listed()?;
        Rows::of_ascending(self.allocator(), list)
    }

    // The rows in a list of their own.
    fn listed(&self) -> Result<Vec<K, A>, AllocError>
        ensures rows { IfOk result (λ list. list.items ≡ self.now.rows) }
        ensures rises { OnOk result (IsStrictlySortedBy K.cmp self.now.rows) }
        ensures few { OnOk result (length self.now.rows ≤ most_rows) }
    {
        let mut list = Vec::with_capacity(self.allocator(), self.count)?;
        for chunk in &self.chunks {
            list.extend_from_slice(chunk.rows())?;
        }
        Ok(list)
    }

    /// The rows as a list. It takes no memory where they lie in one list already.
    pub(crate) fn into_list(self) -> Result<Vec<K, A>, AllocError>
        ensures { IfOk result (λ list. list.items ≡ self.rows) }
    {
        if self.chunks.len() > 1 {
            return self.listed();
        }
        let Rows { mut chunks, .. } = self;
        let alloc = *chunks.allocator();
        match chunks.pop() {
            Some(chunk) => Ok(chunk.into_list()),
            None => Ok(Vec::new(alloc)),
        }
    }
}

// A chunk without rows, and a place for it among the chunks, of which a long list is cut first. An error leaves the same rows.
fn spare_for<K: Ord + Copy, A: Allocator + Copy>(
    chunks: &mut Vec<Chunk<K, A>, A>,
) -> Result<Chunk<K, A>, AllocError>
    requires some { All (λ c. 0 < length c) chunks.old.items }
    requires small { 1 < vec_len chunks.old → All (λ c. length c ≤ 256) chunks.old.items }
    ensures joined { joined chunks.new.items ≡ joined chunks.old.items }
    ensures some { All (λ c. 0 < length c) chunks.new.items }
    ensures small { OnOk result (All (λ c. length c ≤ 256) chunks.new.items) }
    ensures small_if_many { 1 < vec_len chunks.new → All (λ c. length c ≤ 256) chunks.new.items }
    ensures room { OnOk result (vec_len chunks.new < vec_capacity chunks.new) }
    ensures spare { IfOk result (λ c. c ≡ []) }
{
    cut_list(chunks)?;
    chunks.reserve(1)?;
    Chunk::new(*chunks.allocator())
}

// Cuts a list that is the only chunk, where it is longer than a chunk may be. An error leaves it as it was.
fn cut_list<K: Ord + Copy, A: Allocator + Copy>(
    chunks: &mut Vec<Chunk<K, A>, A>,
) -> Result<(), AllocError>
    requires some { All (λ c. 0 < length c) chunks.old.items }
    requires small { 1 < vec_len chunks.old → All (λ c. length c ≤ 256) chunks.old.items }
    ensures joined { joined chunks.new.items ≡ joined chunks.old.items }
    ensures some { All (λ c. 0 < length c) chunks.new.items }
    ensures small { OnOk result (All (λ c. length c ≤ 256) chunks.new.items) }
    ensures err { OnErr result (chunks.new.items ≡ chunks.old.items) }
{
    if chunks.len() == 1 && chunks[0].len() > CHUNK {
        *chunks = cut(*chunks.allocator(), chunks[0].rows())?;
    }
    Ok(())
}

// Rows cut into chunks, all of them full but the last.
fn cut<K: Ord + Copy, A: Allocator + Copy>(
    alloc: A,
    rows: &[K],
) -> Result<Vec<Chunk<K, A>, A>, AllocError>
    ensures joined { IfOk result (λ chunks. joined chunks.items ≡ rows.now) }
    ensures some { IfOk result (λ chunks. All (λ c. 0 < length c) chunks.items) }
    ensures small { IfOk result (λ chunks. All (λ c. length c ≤ 256) chunks.items) }
{
    let mut chunks = Vec::new(alloc);
    for part in rows.chunks(CHUNK) {
        chunks.push(Chunk::of(alloc, part)?)?;
    }
    Ok(chunks)
}

// Puts a row in its chunk, or splits the chunk where it is full.
fn put_in<K: Ord + Copy, A: Allocator>(
    chunks: &mut Vec<Chunk<K, A>, A>,
    spare: &mut Option<Chunk<K, A>>,
    key: K,
)
    requires chunks { AreChunks K.cmp chunks.old.items }
    requires spare { spare.old ≡ Some [] }
    requires room { vec_len chunks.old < vec_capacity chunks.old }
    requires small { All (λ c. length c ≤ 256) chunks.old.items }
    ensures joined { joined chunks.new.items ≡ put K.cmp key (joined chunks.old.items) }
    ensures chunks { AreChunks K.cmp chunks.new.items }
    ensures small { All (λ c. length c ≤ 256) chunks.new.items }
    ensures spare { IfSome spare.new (λ c. c ≡ []) }
    ensures room { is_some spare.new ≡ true → vec_len chunks.new < vec_capacity chunks.new }
{
    if chunks.len() == 0 {
        if let Some(mut first) = spare.take() {
            first.push(key);
            let _ = chunks.push(first);
        }
        return;
    }
    let at = position(chunks, &key);
    if chunks[at].len() < CHUNK {
        chunks[at].put(key);
    } else if let Some(mut upper) = spare.take() {
        let is_last = at + 1 == chunks.len();
        chunks[at].put_splitting(&mut upper, key, is_last);
        let _ = chunks.insert(at + 1, upper);
    }
}

// Takes a row from its chunk, and the chunk away where it has no other.
fn take_from<K: Ord + Copy, A: Allocator>(chunks: &mut Vec<Chunk<K, A>, A>, key: &K)
    requires chunks { AreChunks K.cmp chunks.old.items }
    requires some { 0 < vec_len chunks.old }
    ensures joined { joined chunks.new.items ≡ without K.cmp key.now (joined chunks.old.items) }
    ensures chunks { AreChunks K.cmp chunks.new.items }
    ensures small { All (λ c. length c ≤ 256) chunks.old.items → All (λ c. length c ≤ 256) chunks.new.items }
    ensures fewer { vec_len chunks.new ≤ vec_len chunks.old }
    ensures capacity { vec_capacity chunks.new ≡ vec_capacity chunks.old }
{
    let at = position(chunks, key);
    let chunk = &mut chunks[at];
    chunk.withdraw(key);
    if chunk.len() == 0 {
        let _ = chunks.remove(at);
    }
}

// Takes from the only chunk each row that ties with one of a container, and the chunk away where it has no other.
fn take_all_from<K: Ord + Copy, A: Allocator + Copy>(
    chunks: &mut Vec<Chunk<K, A>, A>,
    others: &Rows<K, A>,
)
    requires chunks { AreChunks K.cmp chunks.old.items }
    requires one { vec_len chunks.old ≡ 1 }
    ensures joined { joined chunks.new.items ≡ without_each K.cmp others.now.rows (joined chunks.old.items) }
    ensures chunks { AreChunks K.cmp chunks.new.items }
    ensures small { All (λ c. length c ≤ 256) chunks.old.items → All (λ c. length c ≤ 256) chunks.new.items }
    ensures fewer { vec_len chunks.new ≤ 1 }
    ensures capacity { vec_capacity chunks.new ≡ vec_capacity chunks.old }
{
    let chunk = &mut chunks[0];
    chunk.withdraw_all(others);
    if chunk.len() == 0 {
        chunks.clear();
    }
}
