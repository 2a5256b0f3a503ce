//! Who calls a shared replica.
ghost use Rattle.std.specs.Prelude.{◌≡◌, [], length};
ghost use Rattle.std.specs.List.{AllByRecursion};
ghost use Rattle.tca_ingest.specs.Entries.{pass_of};
ghost use Rattle.tca_ingest.specs.EntryViews.{entry_views};

use crate::entry::Entry;
use crate::side::Side;
use std::alloc::Global;
use std::marker::Model;
use std::sync::ledger::Share;

/// The right of one caller to use a shared replica, with the list of its calls. Passes are given back when the replica is closed.
#[derive(Drop)]
pub struct Pass<L: Side> {
    pub(crate) number: u32,
    pub(crate) calls: Vec<Entry>,
    /// Of each call, how many entries the journal had before it.
    pub(crate) places: Vec<u64>,
    pub(crate) share: Share<L>,
}

impl<L: Side> Model for Pass<L> {
    ghost use Rattle.std.specs.Prelude.{◌≡◌, length};
    ghost use Rattle.std.specs.List.{AllByRecursion};
    ghost use Rattle.tca_ingest.specs.Entries.{pass_of};
    ghost use Rattle.tca_ingest.specs.EntryViews.{entry_views};
    ghost use Rattle.tca_ingest.specs.Passes.{PassView};

    ghost Value = { PassView };

    ghost view = { λ p. record { number = p.number; calls = entry_views p.calls.items } };

    ghost invariant = { λ p. (p.share.parts ≡ 1) × (p.share.amount ≡ length p.calls.items) × (length p.places.items ≡ length p.calls.items) × AllByRecursion (λ e. pass_of e ≡ p.number) (entry_views p.calls.items) };
}

impl<L: Side> Pass<L> {
    /// A pass of this number, with no calls, and one part of the ledger.
    pub(crate) fn new(alloc: Global, number: u32, share: Share<L>) -> Pass<L>
        requires { (share.parts ≡ 1) × (share.amount ≡ 0) }
        ensures { result ≡ record { number = number; calls = [] } }
    {
        Pass {
            number,
            calls: Vec::new(alloc),
            places: Vec::new(alloc),
            share,
        }
    }

    /// Its number. Passes are numbered from 0 in the order in which they were made.
    pub fn number(&self) -> u32
        ensures { result ≡ self.now.number }
    {
        self.number
    }

    /// The calls that were made by it, in order. Each has the number of the pass.
    pub fn calls(&self) -> &[Entry]
        ensures calls { entry_views result.now ≡ self.now.calls }
        ensures whose { AllByRecursion (λ e. pass_of e ≡ self.now.number) self.now.calls }
    {
        &self.calls
    }

    /// How many entries the journal had before each call, as the pass remembers it.
    pub(crate) fn places(&self) -> &[u64]
        ensures { length result.now ≡ length self.now.calls }
    {
        &self.places
    }

    /// Its share of the ledger, in which each call was counted.
    pub(crate) fn into_share(self) -> Share<L>
        ensures { result.amount ≡ length self.calls }
    {
        self.share
    }
}
