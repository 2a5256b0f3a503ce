//! The sums of one account.
ghost use Rattle.std.specs.Prelude.{◌≡◌, ◌↔◌, IfOk, IsTrue};

use crate::span::Spans;
use crate::sums::Sums;
use std::alloc::{AllocError, Global};
use std::marker::Model;

/// The sums of an account, in all and by period.
#[derive(Drop)]
pub struct Tally {
    pub total: Sums,
    /// The periods with a packet.
    pub spans: Spans,
}

impl Tally {
    /// Whether both have the same sums. It takes no memory.
    pub fn is_same(&self, other: &Tally) -> bool
        ensures { IsTrue result ↔ (self.now ≡ other.now) }
    {
        self.total == other.total && self.spans.is_same(&other.spans)
    }

    /// The same tally once more. `AllocError` comes where a growth was refused, which changes nothing.
    pub fn copy(&self, alloc: Global) -> Result<Tally, AllocError>
        ensures { IfOk result (λ t. t ≡ self.now) }
    {
        Ok(Tally {
            total: self.total,
            spans: self.spans.copy(alloc)?,
        })
    }
}

/// A tally for each account, in the plan's order.
#[derive(Drop)]
pub struct Tallies {
    list: Vec<Tally>,
}

impl Model for Tallies {
    ghost use Rattle.std.specs.Prelude.{List};
    ghost use Rattle.tca_accounts.specs.declared.tally.Tally.{Tally};

    ghost Value = { List Tally };

    ghost view = { λ t. t.list.items };
}

impl Tallies {
    /// These tallies. It takes no memory.
    pub fn new(list: Vec<Tally>) -> Tallies
        ensures { result ≡ list.items }
    {
        Tallies { list }
    }

    /// The tallies in order.
    pub fn as_slice(&self) -> &[Tally]
        ensures { result.now ≡ self.now }
    {
        &self.list
    }

    /// Whether both have the same tallies in the same order. It takes no memory.
    pub fn is_same(&self, other: &Tallies) -> bool
        ensures { IsTrue result ↔ (self.now ≡ other.now) }
    {
        if self.list.len() != other.list.len() {
            return false;
        }
        for i in 0..self.list.len() {
            if !self.list[i].is_same(&other.list[i]) {
                return false;
            }
        }
        true
    }

    /// The same tallies once more. `AllocError` comes where a growth was refused, which changes nothing.
    pub fn copy(&self, alloc: Global) -> Result<Tallies, AllocError>
        ensures { IfOk result (λ t. t ≡ self.now) }
    {
        let mut list = Vec::with_capacity(alloc, self.list.len())?;
        for tally in &self.list {
            list.push(tally.copy(alloc)?)?;
        }
        Ok(Tallies { list })
    }

    /// The tallies as a list. It takes no memory.
    pub fn into_vec(self) -> Vec<Tally>
        ensures { result.items ≡ self }
    {
        self.list
    }
}
