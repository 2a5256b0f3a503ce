//! The sums of one period.
ghost use Rattle.std.specs.Prelude.{◌≡◌, ◌↔◌, IfOk, IsTrue};
ghost use Rattle.tca_accounts.specs.Spans.{Ascend};

use crate::sums::Sums;
use std::alloc::{AllocError, Global};
use std::marker::Model;

/// The sums of a period.
#[derive(Clone, Copy, Debug, PartialEq, Eq)]
pub struct Span {
    /// Which period it is: its times divided by the length of a period, rounded down.
    pub index: u64,
    /// Its octets and packets.
    pub sums: Sums,
}

/// Spans whose indexes strictly ascend.
#[derive(Drop)]
pub struct Spans {
    list: Vec<Span>,
}

impl Model for Spans {
    ghost use Rattle.std.specs.Prelude.{List};
    ghost use Rattle.tca_accounts.specs.declared.span.Span.{Span};
    ghost use Rattle.tca_accounts.specs.Spans.{Ascend};

    ghost Value = { List Span };

    ghost view = { λ s. s.list.items };

    ghost invariant = { λ s. Ascend s.list.items };
}

impl Spans {
    /// Spans whose indexes are known to ascend strictly. It takes no memory.
    pub fn ascending(list: Vec<Span>) -> Spans
        requires { Ascend list.items }
        ensures { result ≡ list.items }
    {
        Spans { list }
    }

    /// The spans in order.
    pub fn as_slice(&self) -> &[Span]
        ensures list { result.now ≡ self.now }
        ensures ascend { Ascend self.now }
    {
        &self.list
    }

    /// Whether both have the same spans. It takes no memory.
    pub fn is_same(&self, other: &Spans) -> bool
        ensures { IsTrue result ↔ (self.now ≡ other.now) }
    {
        self.list.as_slice() == other.list.as_slice()
    }

    /// The same spans once more. `AllocError` comes where a growth was refused, which changes nothing.
    pub fn copy(&self, alloc: Global) -> Result<Spans, AllocError>
        ensures { IfOk result (λ s. s ≡ self.now) }
    {
        Ok(Spans {
            list: Vec::from_slice(alloc, &self.list)?,
        })
    }

    /// The spans as a list. It takes no memory.
    pub fn into_vec(self) -> Vec<Span>
        ensures { result.items ≡ self }
    {
        self.list
    }
}
