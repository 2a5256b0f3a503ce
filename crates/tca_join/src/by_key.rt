//! Values under numbers, and their join key by key.
ghost use Rattle.std.specs.Prelude.{◌++◌, ◌∷◌, ◌≡◌, None, Some, Ok, [], false, IsSome, IsOk, OnOk, OnErr, IfErr, IfOk, option_copied};
ghost use Rattle.std.specs.Option.{option_copied_mut};
ghost use Rattle.std.specs.Borrow.{sem};
ghost use Rattle.tca_join.specs.Maps.{get, with_value, keys_of, merged, Rises, MapProper, MapSame, clash_key, map_full, clash_with, full_with, first_of, IsAt, IsGap};
ghost use Rattle.tca_join.specs.laws.MapLaws.{map_laws};
ghost use Rattle.tca_join.specs.Joins.{Compatible, Joins};
ghost use Rattle.tca_join.specs.Faults.{IsJoinFault, refusal};
ghost use Rattle.tca_join.specs.declared.fault.JoinFault.TheVariants.{Memory};

use crate::fault::JoinFault;
use crate::join::Join;
use crate::keys::Keys;
use std::alloc::{AllocError, Allocator, Global};
use std::cmp::Ordering;
use std::marker::Model;

/// Values under numbers, joined key by key.
///
/// Contracts see the pairs of a key and its value, in ascending order of the keys.
#[derive(Drop)]
pub struct ByKey<V: Join, A: Allocator + Clone = Global> {
    entries: Vec<(u32, V), A>,
}

impl<V: Join, A: Allocator + Clone> Model for ByKey<V, A> {
    ghost use Rattle.std.specs.Prelude.{List, ℕ};
    ghost use Rattle.tca_join.specs.Maps.{Rises};

    ghost Value = { List (ℕ × V) };

    ghost view = { λ m. m.entries.items };

    ghost invariant = { λ m. Rises m.entries.items };
}

impl<V: Join, A: Allocator + Clone> ByKey<V, A> {
    ghost use Rattle.tca_join.specs.Lends.{lends_value};

    /// A map with no keys. It takes no memory.
    pub fn new(alloc: A) -> ByKey<V, A>
        ensures { result ≡ [] }
    {
        ByKey {
            entries: Vec::new(alloc),
        }
    }

    /// The keys with their values, in ascending order of the keys.
    pub fn entries(&self) -> &[(u32, V)]
        ensures all { result.now ≡ self.now }
        ensures rises { Rises self.now }
    {
        &self.entries
    }

    /// The keys, ascending.
    pub fn keys(&self) -> Keys<'_, V>
        ensures keys { result ≡ keys_of self.now }
        ensures rises { Rises self.now }
    {
        Keys::new(&self.entries)
    }

    /// The value at a key.
    pub fn get(&self, key: u32) -> Option<&V>
        ensures { option_copied result ≡ get self.now key }
    {
        match search(&self.entries, key) {
            Ok(at) => Some(&self.entries[at].1),
            Err(_) => None,
        }
    }

    /// The value at a key, to write to.
    pub fn get_mut(&mut self, key: u32) -> Option<&mut V>
        ensures* writes_back { sem 𝓛 (lends_value V.row A.row V.Join A.Allocator A.Clone self.entry key result) }
        ensures value { option_copied_mut result ≡ get self.old key }
    {
        match search(&self.entries, key) {
            Ok(at) => Some(&mut self.entries[at].1),
            Err(_) => None,
        }
    }

    /// Sets the value at a key, and drops the one before. Memory is wanted only for a new key. Where it was
    /// refused the map is as before, and the value is dropped.
    pub fn set(&mut self, key: u32, value: V) -> Result<(), AllocError>
        ensures ok { OnOk result (self.new ≡ with_value key value self.old) }
        ensures err { OnErr result (self.new ≡ self.old) }
        ensures there { IsSome (get self.old key) → IsOk result }
    {
        match search(&self.entries, key) {
            Ok(at) => {
                self.entries[at].1 = value;
                Ok(())
            }
            Err(at) => {
                self.entries.insert(at, (key, value))?;
                Ok(())
            }
        }
    }
}

// Where the key is, or where it would go.
fn search<V: Join>(entries: &[(u32, V)], key: u32) -> Result<usize, usize>
    requires { Rises entries.now }
    ensures found { IfOk result (IsAt entries.now key) }
    ensures absent { IfErr result (IsGap entries.now key) }
{
    entries.binary_search_by_key(&key, |entry| entry.0)
}

// Adds a copy of a pair at the end.
fn push_copy<V: Join, A: Allocator>(
    out: &mut Vec<(u32, V), A>,
    entry: &(u32, V),
) -> Result<(), AllocError>
    ensures { OnOk result (out.new.items ≡ out.old.items ++ entry.now ∷ []) }
{
    let value = entry.1.copy()?;
    out.push((entry.0, value))?;
    Ok(())
}

// Adds copies of all pairs at the end.
fn push_copies<V: Join, A: Allocator>(
    out: &mut Vec<(u32, V), A>,
    entries: &[(u32, V)],
) -> Result<(), AllocError>
    ensures { OnOk result (out.new.items ≡ out.old.items ++ entries.now) }
{
    for entry in entries {
        push_copy(out, entry)?;
    }
    Ok(())
}

// Why a value has no join with the one that the entries have at its key.
fn refusal_at<V: Join>(entries: &[(u32, V)], key: u32, value: &V) -> Option<JoinFault>
    requires { Rises entries.now }
    ensures { result ≡ refusal (first_of (clash_with V.clash (get entries.now key) (Some value.now)) key None) (full_with V.full (get entries.now key) (Some value.now)) }
{
    let Ok(at) = search(entries, key) else {
        return None;
    };
    match entries[at].1.refusal(value) {
        Some(JoinFault::Clash { .. }) => Some(JoinFault::Clash { key }),
        other => other,
    }
}

// Why two maps have no join. One that is too large at a key is answered only at the end, since a later key may clash.
fn refusal_of<V: Join>(first: &[(u32, V)], second: &[(u32, V)]) -> Option<JoinFault>
    requires { Rises first.now }
    ensures { result ≡ refusal (clash_key V.clash first.now second.now) (map_full V.full first.now second.now) }
{
    let mut over = false;
    for entry in second {
        let Some(fault) = refusal_at(first, entry.0, &entry.1) else {
            continue;
        };
        if fault != JoinFault::Full {
            return Some(fault);
        }
        over = true;
    }
    if over { Some(JoinFault::Full) } else { None }
}

// Adds the join of two values under their key.
fn push_joined<V: Join, A: Allocator>(
    out: &mut Vec<(u32, V), A>,
    key: u32,
    first: &V,
    second: &V,
) -> Result<(), JoinFault>
    requires { Joins V.clash V.full first.now second.now }
    ensures joined { OnOk result (out.new.items ≡ out.old.items ++ (key, V.joined first.now second.now) ∷ []) }
    ensures fault { IfErr result (λ e. e ≡ Memory) }
{
    let mut value = first.copy()?;
    value.join_from(second)?;
    out.push((key, value))?;
    Ok(())
}

// The join of two maps that have one.
fn merge_entries<V: Join, A: Allocator>(
    alloc: A,
    first: &[(u32, V)],
    second: &[(u32, V)],
) -> Result<Vec<(u32, V), A>, JoinFault>
    requires first { Rises first.now }
    requires second { Rises second.now }
    requires joins { Joins (clash_key V.clash) (map_full V.full) first.now second.now }
    ensures ok { IfOk result (λ v. v.items ≡ merged V.joined first.now second.now) }
    ensures fault { IfErr result (λ e. e ≡ Memory) }
{
    let mut out = Vec::new(alloc);
    let (mut i, mut j) = (0, 0);
    while i < first.len() && j < second.len() {
        let (one, other) = (&first[i], &second[j]);
        match one.0.cmp(&other.0) {
            Ordering::Less => {
                push_copy(&mut out, one)?;
                i += 1;
            }
            Ordering::Greater => {
                push_copy(&mut out, other)?;
                j += 1;
            }
            Ordering::Equal => {
                push_joined(&mut out, other.0, &one.1, &other.1)?;
                i += 1;
                j += 1;
            }
        }
    }
    push_copies(&mut out, &first[i..])?;
    push_copies(&mut out, &second[j..])?;
    Ok(out)
}

impl<V: Join, A: Allocator + Clone> Join for ByKey<V, A> {
    ghost proper = { MapProper V.proper };

    ghost clash = { clash_key V.clash };

    ghost full = { map_full V.full };

    ghost same = { MapSame V.same };

    ghost joined = { merged V.joined };

    ghost laws = { map_laws V.laws };

    fn known(&self) {
        for entry in &self.entries {
            entry.1.known();
        }
    }

    /// `Clash` names the least key at which the values aren't compatible. It searches the map once for each key of the
    /// other.
    fn refusal(&self, other: &ByKey<V, A>) -> Option<JoinFault> {
        refusal_of(&self.entries, &other.entries)
    }

    /// Copies the values of both maps, since a want of memory at a late key leaves the map as before. Where the other
    /// map has no keys there is nothing to do and no refusal.
    fn join_from(&mut self, other: &ByKey<V, A>) -> Result<(), JoinFault>
        ensures compatible { OnOk result (Compatible (clash_key V.clash) self.old other.now) }
        ensures within { OnOk result (map_full V.full self.old other.now ≡ false) }
        ensures ok { OnOk result (self.new ≡ merged V.joined self.old other.now) }
        ensures err { OnErr result (self.new ≡ self.old) }
        ensures fault { IfErr result (IsJoinFault (clash_key V.clash self.old other.now) (map_full V.full self.old other.now)) }
        ensures nothing { other.now ≡ [] → IsOk result }
    {
        if other.entries.is_empty() {
            return Ok(());
        }
        if let Some(fault) = self.refusal(other) {
            return Err(fault);
        }
        let alloc = self.entries.allocator().clone()?;
        self.entries = merge_entries(alloc, &self.entries, &other.entries)?;
        Ok(())
    }

    fn copy(&self) -> Result<ByKey<V, A>, AllocError> {
        let mut entries = Vec::new(self.entries.allocator().clone()?);
        push_copies(&mut entries, &self.entries)?;
        Ok(ByKey { entries })
    }
}
