//! Whether passes are all by which a journal was made.
ghost use Rattle.std.specs.Prelude.{◌≡◌, ◌≢◌, ◌≤◌, ◌↔◌, IfSome, IsNone, IsTrue, length};
ghost use Rattle.std.specs.List.{All, AllPairs};
ghost use Rattle.tca_ingest.specs.EntryViews.{entry_views};
ghost use Rattle.tca_ingest.specs.Passes.{AreClosing, IsFound, IsOwned, calls_of, count_of};
ghost use Rattle.tca_ingest.specs.CloseFaults.{IsCloseFault};

use crate::entry::Entry;
use crate::fault::CloseFault;
use crate::held::{Held, MOST_PASSES};
use crate::pass::Pass;
use crate::side::Side;

// The numbers of passes are below this.
const NUMBERS: usize = MOST_PASSES as usize;

/// Passes have no more entries than the journal: each entry was counted in its ledger when it was written down in both.
pub(crate) fn within<L: Side>(held: Held<L>, passes: Vec<Pass<L>>) -> (Held<L>, Vec<Pass<L>>)
    ensures same { (result.0 ≡ held) × (result.1 ≡ passes) }
    ensures within { count_of passes.items ≤ length held.journal }
{
    if given_by(&passes) <= held.journal().len() as u128 {
        return (held, passes);
    }
    audit(held, passes);
    unreachable!()
}

// What the ledger says of the passes: all their shares together have no more than the book. It is called only where passes have more
// entries than the journal, and its answer is that there is no such case; so it never runs.
fn audit<L: Side>(held: Held<L>, passes: Vec<Pass<L>>)
    ensures { count_of passes.items ≤ length held.journal }
{
    let (mut book, mut all) = held.into_ledger();
    let mut left = passes;
    while let Some(pass) = left.pop() {
        all.merge(pass.into_share());
    }
    book.audit(&mut all);
}

/// Why these are not the passes that made this journal.
pub(crate) fn fault_of<L: Side>(journal: &[Entry], passes: &[Pass<L>]) -> Option<CloseFault>
    requires { count_of passes.now ≤ length journal.now }
    ensures none { IsNone result → AreClosing (entry_views journal.now) passes.now }
    ensures fault { IfSome result (IsCloseFault (entry_views journal.now) passes.now) }
{
    let given = given_by(passes);
    if given != journal.len() as u128 {
        return Some(CloseFault::Missing {
            journal: journal.len() as u64,
            given: given as u64,
        });
    }
    if are_found(journal, passes) {
        return None;
    }
    first_differing(journal, passes)
}

// The fault of the first pass whose calls aren't the journal's of its number, or whose number a pass before it has. It goes over the
// journal once for each pass, where a pass doesn't find its calls or two have one number, which no use of this crate leads to.
fn first_differing<L: Side>(journal: &[Entry], passes: &[Pass<L>]) -> Option<CloseFault>
    requires { count_of passes.now ≡ length journal.now }
    ensures none { IsNone result → AreClosing (entry_views journal.now) passes.now }
    ensures fault { IfSome result (IsCloseFault (entry_views journal.now) passes.now) }
{
    for i in 0..passes.len() {
        let pass = &passes[i];
        if !owns(journal, &passes[..i], pass) {
            return Some(CloseFault::Differs {
                pass: pass.number(),
            });
        }
    }
    None
}

// Whether a pass has the journal's entries of its number, and none of those before it has the number.
fn owns<L: Side>(journal: &[Entry], before: &[Pass<L>], pass: &Pass<L>) -> bool
    ensures { IsTrue result ↔ IsOwned (entry_views journal.now) before.now pass.now }
{
    is_new(before, pass.number()) && is_calls_of(journal, pass.number(), pass.calls())
}

// Whether the numbers of passes differ, and each finds its calls in the journal, at the places that it remembers. It goes over the
// calls once, in whichever order the passes were given. Where they have as many entries as the journal, they are then all passes by
// which it was made.
fn are_found<L: Side>(journal: &[Entry], passes: &[Pass<L>]) -> bool
    ensures apart { IsTrue result → AllPairs (λ p q. p.number ≢ q.number) passes.now }
    ensures found { IsTrue result → All (IsFound (entry_views journal.now)) passes.now }
{
    let mut given = [false; NUMBERS];
    for pass in passes {
        let number = pass.number() as usize;
        if number >= NUMBERS || given[number] {
            return false;
        }
        if !is_found(journal, pass) {
            return false;
        }
        given[number] = true;
    }
    true
}

// Whether a pass finds its calls in the journal, at ascending places.
fn is_found<L: Side>(journal: &[Entry], pass: &Pass<L>) -> bool
    ensures { IsTrue result → IsFound (entry_views journal.now) pass.now }
{
    let (calls, places) = (pass.calls(), pass.places());
    let mut next: u64 = 0;
    for i in 0..calls.len() {
        let place = places[i];
        if place < next || place >= journal.len() as u64 {
            return false;
        }
        if !journal[place as usize].is_same(&calls[i]) {
            return false;
        }
        next = place + 1;
    }
    true
}

// How many entries the passes have.
fn given_by<L: Side>(passes: &[Pass<L>]) -> u128
    ensures { result ≡ count_of passes.now }
{
    let mut given = 0;
    for pass in passes {
        given += pass.calls().len() as u128;
    }
    given
}

// Whether no pass of these has the number.
fn is_new<L: Side>(passes: &[Pass<L>], number: u32) -> bool
    ensures { IsTrue result ↔ All (λ p. p.number ≢ number) passes.now }
{
    passes.iter().all(|pass| pass.number() != number)
}

// Whether the journal's entries of this number are these calls.
fn is_calls_of(journal: &[Entry], number: u32, calls: &[Entry]) -> bool
    ensures { IsTrue result ↔ (calls_of number (entry_views journal.now) ≡ entry_views calls.now) }
{
    let mut met = 0;
    for entry in journal {
        if entry.pass() == number {
            if met >= calls.len() || !entry.is_same(&calls[met]) {
                return false;
            }
            met += 1;
        }
    }
    met == calls.len()
}
