//! What a statement says, in figures.
ghost use Rattle.std.specs.Prelude.{◌≡◌, ◌++◌, ◌∷◌, [], ◌↔◌, IfOk, OnOk, IsTrue};
ghost use Rattle.std.specs.Option.{MatchOption};
ghost use Rattle.tca_figures.specs.Figures.{AllFit64, Fits64, all_of, figure_plus, named, plus};

use std::alloc::{AllocError, Global};
use std::marker::Model;

/// Octets and packets.
#[derive(Clone, Copy, Debug, PartialEq, Eq)]
pub struct Figure {
    pub octets: u64,
    pub packets: u64,
}

/// Octets and packets of each colour.
#[derive(Clone, Copy, Debug, PartialEq, Eq)]
pub struct ColourFigures {
    pub green: Figure,
    pub yellow: Figure,
    pub red: Figure,
}

impl Figure {
    // The sum of two, where it has 64 bits.
    fn plus(self, other: Figure) -> Option<Figure>
        ensures { MatchOption result (¬ Fits64 (figure_plus self other)) (λ f. (f ≡ figure_plus self other) × Fits64 f) }
    {
        let octets = self.octets.checked_add(other.octets)?;
        let packets = self.packets.checked_add(other.packets)?;
        Some(Figure { octets, packets })
    }
}

impl ColourFigures {
    /// No packets.
    pub const NONE: ColourFigures = ColourFigures {
        green: Figure {
            octets: 0,
            packets: 0,
        },
        yellow: Figure {
            octets: 0,
            packets: 0,
        },
        red: Figure {
            octets: 0,
            packets: 0,
        },
    };

    /// The sums of two, where each has 64 bits.
    pub fn plus(self, other: ColourFigures) -> Option<ColourFigures>
        ensures { MatchOption result (¬ AllFit64 (plus self other)) (λ c. (c ≡ plus self other) × AllFit64 c) }
    {
        let green = self.green.plus(other.green)?;
        let yellow = self.yellow.plus(other.yellow)?;
        let red = self.red.plus(other.red)?;
        Some(ColourFigures { green, yellow, red })
    }
}

/// The figures of a period.
#[derive(Clone, Copy, Debug, PartialEq, Eq)]
pub struct SpanFigures {
    /// Which period it is, counted from the start of 1970 (UTC).
    pub index: u64,
    pub sums: ColourFigures,
}

/// The figures of an account: in all, and by period, ascending.
#[derive(Debug, Drop)]
pub struct AccountFigures {
    name: String,
    total: ColourFigures,
    spans: Vec<SpanFigures>,
}

impl AccountFigures {
    /// An account without a name, of which no figures are known.
    pub(crate) fn new(alloc: Global) -> AccountFigures
        ensures { result ≡ named [] }
    {
        AccountFigures {
            name: String::new(alloc),
            total: ColourFigures::NONE,
            spans: Vec::new(alloc),
        }
    }

    /// An account of this name, of which no figures are known.
    pub(crate) fn named(alloc: Global, name: &str) -> Result<AccountFigures, AllocError>
        ensures { IfOk result (λ a. a ≡ named name.now) }
    {
        Ok(AccountFigures {
            name: String::from_str(alloc, name)?,
            total: ColourFigures::NONE,
            spans: Vec::new(alloc),
        })
    }

    /// The account's name.
    pub fn name(&self) -> &str
        ensures { result.now ≡ self.now.name }
    {
        self.name.as_str()
    }

    /// All of its packets.
    pub fn total(&self) -> ColourFigures
        ensures { result ≡ self.now.total }
    {
        self.total
    }

    /// Its periods with a packet, ascending.
    pub fn spans(&self) -> &[SpanFigures]
        ensures { result.now ≡ self.now.spans }
    {
        &self.spans
    }

    /// Takes the figures of all of its packets.
    pub(crate) fn set_total(&mut self, total: ColourFigures)
        ensures { self.new ≡ record self.old { total = total } }
    {
        self.total = total;
    }

    /// Takes one more period.
    pub(crate) fn push(&mut self, span: SpanFigures) -> Result<(), AllocError>
        ensures { OnOk result (self.new ≡ record self.old { spans = self.old.spans ++ span ∷ [] }) }
    {
        self.spans.push(span)?;
        Ok(())
    }

    /// Whether its total is the sum of its periods.
    pub(crate) fn is_summed(&self) -> bool
        ensures { IsTrue result ↔ (self.now.total ≡ all_of self.now.spans) }
    {
        is_sum(self.total, &self.spans)
    }
}

// Whether these are the figures of all periods together.
fn is_sum(total: ColourFigures, spans: &[SpanFigures]) -> bool
    ensures { IsTrue result ↔ (total ≡ all_of spans.now) }
{
    match sum_of(spans) {
        Some(sum) => sum == total,
        None => false,
    }
}

// All periods together, where each sum has 64 bits.
fn sum_of(spans: &[SpanFigures]) -> Option<ColourFigures>
    ensures { MatchOption result (¬ AllFit64 (all_of spans.now)) (λ c. (c ≡ all_of spans.now) × AllFit64 c) }
{
    let mut sum = ColourFigures::NONE;
    for span in spans {
        sum = sum.plus(span.sums)?;
    }
    Some(sum)
}

impl Model for AccountFigures {
    ghost use Rattle.std.specs.Prelude.{string_bytes};
    ghost use Rattle.tca_figures.specs.Figures.{StatedAccount};

    ghost Value = { StatedAccount };

    ghost view = { λ a. record { name = string_bytes a.name; total = a.total; spans = a.spans.items } };
}

/// The figures of a statement. Each count and sum may be any number of 64 bits, since a sum of several statements is a statement too.
#[derive(Debug, Drop)]
pub struct Figures {
    pub(crate) period: u64,
    pub(crate) reports: u64,
    pub(crate) disputed: u64,
    pub(crate) unassigned: u64,
    pub(crate) accounts: Vec<AccountFigures>,
}

// Figures are those of a statement in form.
impl Model for Figures {
    ghost use Rattle.tca_figures.specs.Figures.{IsStatement, Stated};

    ghost Value = { Stated };

    ghost view = { λ f. record { period = f.period; reports = f.reports; disputed = f.disputed; unassigned = f.unassigned; accounts = f.accounts.items } };

    ghost invariant = { λ f. IsStatement (record { period = f.period; reports = f.reports; disputed = f.disputed; unassigned = f.unassigned; accounts = f.accounts.items }) };
}

impl Figures {
    /// The length of a period in milliseconds.
    pub fn period(&self) -> u64
        ensures { result ≡ self.now.period }
    {
        self.period
    }

    /// How many reports there are.
    pub fn reports(&self) -> u64
        ensures { result ≡ self.now.reports }
    {
        self.reports
    }

    /// How many identities are disputed.
    pub fn disputed(&self) -> u64
        ensures { result ≡ self.now.disputed }
    {
        self.disputed
    }

    /// How many undisputed reports no account owns.
    pub fn unassigned(&self) -> u64
        ensures { result ≡ self.now.unassigned }
    {
        self.unassigned
    }

    /// The accounts in the plan's order.
    pub fn accounts(&self) -> &[AccountFigures]
        ensures { result.now ≡ self.now.accounts }
    {
        &self.accounts
    }
}
