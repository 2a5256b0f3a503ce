//! Whether each pass has its entries in the order of the jobs, as workers leave them, so that one look at each entry is enough.
ghost use Rattle.std.specs.Prelude.{◌≡◌, [], ◌∷◌, ◌++◌, IfOk, IfSome, false, true};
ghost use Rattle.std.specs.List.Sorted.{IsPermutation};
ghost use Rattle.tca_ingest.specs.EntryViews.{entry_view, entry_views};
ghost use Rattle.tca_ingest.specs.Works.{AreOwn, all_calls, calls_left, entries_in, entry_in};

use crate::entry::{Entry, Receipt};
use crate::job::{Done, JobFault};
use crate::pass::Pass;
use crate::side::Side;
use std::alloc::{AllocError, Global};
use tca_report::Notes;

/// Whether the passes have just the entries of the receipts, each as often, and each pass its own in the order of the jobs. An entry is
/// compared with one call where the passes' numbers follow one another and it comes next in its pass, else with one of each pass and one
/// more at most. False may also come for want of memory.
#[tactic(auto, unfolding(crate::specs::Works::entries_in))]
pub(crate) fn are_in_order<L: Side>(alloc: Global, done: &[Done], passes: &[Pass<L>]) -> bool
    ensures entries { result ≡ true → IsPermutation (entries_in done.now) (all_calls passes.now) }
    ensures own { result ≡ true → AreOwn passes.now }
{
    let Ok(mut left) = lists_of(alloc, passes) else {
        return false;
    };
    let first = first_number(passes);
    for job in 0..done.len() {
        if !take_next(&mut left, first, &done[job].result) {
            return false;
        }
    }
    are_empty(&left)
}

// The calls of each pass.
#[tactic(auto, unfolding(crate::specs::Works::all_calls, crate::specs::Works::calls_left))]
fn lists_of<'a, L: Side>(
    alloc: Global,
    passes: &'a [Pass<L>],
) -> Result<Vec<&'a [Entry]>, AllocError>
    ensures calls { IfOk result (λ left. calls_left left.items ≡ all_calls passes.now) }
    ensures own { IfOk result (λ _. AreOwn passes.now) }
{
    let mut left = Vec::with_capacity(alloc, passes.len())?;
    for pass in passes {
        left.push(pass.calls())?;
    }
    Ok(left)
}

// The number of the first pass, if there is one.
fn first_number<L: Side>(passes: &[Pass<L>]) -> u32 {
    match passes.first() {
        Some(pass) => pass.number(),
        None => 0,
    }
}

// Takes the entry of a result, if it has one, from the front of a list. False where no list begins with it. The list of its pass is
// looked at first, by the number of the first pass.
fn take_next(
    left: &mut Vec<&[Entry]>,
    first: u32,
    answer: &Result<(Notes, Receipt), JobFault>,
) -> bool
    ensures { result ≡ true → IsPermutation (calls_left left.old.items) (entry_in answer.now ++ calls_left left.new.items) }
{
    let Ok((_, receipt)) = answer else {
        return true;
    };
    let entry = &receipt.entry;
    let likely = entry.pass().wrapping_sub(first);
    if take_at(left, likely as usize, entry) {
        return true;
    }
    for at in 0..left.len() {
        if take_at(left, at, entry) {
            return true;
        }
    }
    false
}

// Takes an entry from the front of the list at this place. False where there is none that begins with it.
fn take_at(left: &mut Vec<&[Entry]>, at: usize, entry: &Entry) -> bool
    ensures taken { result ≡ true → IsPermutation (calls_left left.old.items) (entry_view entry.now ∷ calls_left left.new.items) }
    ensures kept { result ≡ false → left.new.items ≡ left.old.items }
{
    if at >= left.len() {
        return false;
    }
    match after(left[at], entry) {
        Some(rest) => {
            left[at] = rest;
            true
        }
        None => false,
    }
}

// What comes after an entry in a list that begins with it.
fn after<'a>(calls: &'a [Entry], entry: &Entry) -> Option<&'a [Entry]>
    ensures { IfSome result (λ rest. entry_views calls.now ≡ entry_view entry.now ∷ entry_views rest.now) }
{
    let (first, rest) = calls.split_first()?;
    if first.is_same(entry) {
        Some(rest)
    } else {
        None
    }
}

// Whether nothing is left of any list.
#[tactic(auto, unfolding(crate::specs::Works::calls_left))]
fn are_empty(left: &[&[Entry]]) -> bool
    ensures { result ≡ true → calls_left left.now ≡ [] }
{
    for calls in left {
        if !calls.is_empty() {
            return false;
        }
    }
    true
}
