//! A meter that changes at stated times.
ghost use Rattle.std.specs.Prelude.{◌≡◌, ◌<◌, ◌≤◌, ◌++◌, length, drop, get_or};
ghost use Rattle.tca_meters.specs.Termed.{IsTermed, TermedMeter, ascend_from, begun, most_terms, term, term_at, termed};
ghost use Rattle.tca_meters.specs.Slots.{entered, left_by};
ghost use Rattle.tca_meters.specs.TermsApart.{HaveTimes, IsPlain, TermsApart, TermsInTurn};
ghost use Rattle.tca_meters.specs.Packets.{Packet};
ghost use Rattle.tca_meters.specs.declared.any_meter.AnyMeter.{AnyMeter};
ghost use Rattle.tca_buckets.specs.Tokens.{time_end};

use crate::any_meter::AnyMeter;
use crate::colour::Colour;
use crate::levels::Levels;
use crate::meter::Meter;
use std::marker::Model;

/// The most terms that a meter has after the first meter's.
pub const MOST_TERMS: usize = 8;

/// The end of times, in milliseconds: each term starts below it.
const TIME_END: u64 = 1 << 48;

/// The state of a meter with terms. At time 0 it is in term 0, with full buckets.
#[derive(Clone, Copy, Debug, PartialEq, Eq)]
pub struct InTerm {
    /// The number of the term: 0 for the first meter's, and 1 more for each start since.
    pub term: u32,
    /// The levels of that term's meter.
    pub levels: Levels,
}

// Room for the terms of a meter.
#[derive(Clone, Copy)]
struct Slots {
    terms: [(u64, AnyMeter); MOST_TERMS],
}

/// A meter that changes at stated times. From the first millisecond of a term on the term's meter takes each packet.
/// Both its buckets are full then, whatever was left in those before, and tokens that arrive at that very millisecond
/// find no room.
#[derive(Clone, Copy)]
pub struct Termed {
    first: AnyMeter,
    /// How many terms there are after the first meter's.
    count: usize,
    /// Those terms, and the first meter in the places that are left.
    later: Slots,
}

impl Model for Termed {
    ghost use Rattle.std.specs.Prelude.{◌≡◌, ◌≤◌, ◌-◌, ◌++◌, length, take, drop, replicate};
    ghost use Rattle.std.proofs.Common.{arith};
    ghost use Rattle.tca_meters.specs.Termed.{TermedMeter};

    ghost Value = { TermedMeter };

    ghost use Rattle.tca_meters.specs.Slots.{seen, AreSlots, slots_of, slots_again};

    ghost view = { λ t. seen t.first t.count t.later.terms };

    ghost invariant = { λ t. AreSlots t.first t.count t.later.terms };

    ghost inverse = { λ m. record { first = m.first; count = length m.later; later = record { terms = slots_of m } } };

    ghost inverse_ok = { λ t h i. record { first = t.first; count = (slots_again t.first t.count t.later.terms h).0 i; later = record { terms = (slots_again t.first t.count t.later.terms h).1 i } } };
}

// Whether each term starts later than the one before it, the first above time 0, and all before times end.
fn ascend(terms: &[(u64, AnyMeter)]) -> bool
    ensures { result ≡ ascend_from 0 terms.now }
{
    let mut last = 0;
    for (start, _) in terms {
        if *start <= last || *start >= TIME_END {
            return false;
        }
        last = *start;
    }
    true
}

// Puts these terms into the first slots.
fn put_first(slots: &mut [(u64, AnyMeter)], terms: &[(u64, AnyMeter)])
    requires { length terms.now ≤ length slots.old }
    ensures { slots.new ≡ terms.now ++ drop (length terms.now) slots.old }
{
    slots[..terms.len()].copy_from_slice(terms);
}

impl Slots {
    // These terms, and the first meter in the places that are left.
    fn with(first: &AnyMeter, terms: &[(u64, AnyMeter)]) -> Slots
        requires { length terms.now ≤ most_terms }
        ensures { result.terms ≡ terms.now ++ left_by first.now terms.now }
    {
        let mut slots = [(0, *first); MOST_TERMS];
        put_first(&mut slots, terms);
        Slots { terms: slots }
    }
}

impl Termed {
    /// A meter that begins with `first` and has these terms after it, each the millisecond at which it starts and its
    /// meter. None where there are more than [`MOST_TERMS`], where a start is 0 or not below 2^48, or where the starts
    /// don't strictly ascend. It takes no memory.
    pub fn new(first: AnyMeter, terms: &[(u64, AnyMeter)]) -> Option<Termed>
        ensures { result ≡ termed first terms.now }
    {
        if terms.len() > MOST_TERMS || !ascend(terms) {
            return None;
        }
        let count = terms.len();
        let later = Slots::with(&first, terms);
        Some(Termed {
            first,
            count,
            later,
        })
    }

    /// The meter from time 0 on.
    pub fn first(&self) -> AnyMeter
        ensures { result ≡ self.now.first }
    {
        self.first
    }

    /// How many terms there are after the first meter's.
    pub fn terms(&self) -> u32
        ensures value { result ≡ length self.now.later }
        ensures range { IsTermed self.now }
    {
        self.count as u32
    }

    /// A term after the first meter's, counted from 0: the millisecond at which it starts, and its meter.
    pub fn term(&self, number: u32) -> (u64, AnyMeter)
        requires { number < length self.now.later }
        ensures value { result ≡ get_or self.now.later number result }
        ensures range { IsTermed self.now }
    {
        self.later.terms[number as usize]
    }

    // The meter of a term by its number, which is 0 for the first meter's.
    fn meter_of(&self, number: u32) -> &AnyMeter
        ensures { result.now ≡ (term self.now number).1 }
    {
        if 0 < number && number as usize <= self.count {
            &self.later.terms[number as usize - 1].1
        } else {
            &self.first
        }
    }

    // How many terms have started by a time.
    fn started(&self, time: u64) -> u32
        ensures { result ≡ term_at self.now time }
    {
        for n in 0..self.count {
            if time < self.later.terms[n].0 {
                return n as u32;
            }
        }
        self.count as u32
    }

    // The term that begins after a time and at or before another.
    fn begun(&self, from: u64, to: u64) -> Option<u32>
        ensures { result ≡ begun self.now from to }
    {
        let number = self.started(to);
        if 0 < number && from < self.later.terms[number as usize - 1].0 {
            Some(number)
        } else {
            None
        }
    }

    // Makes of a state at `from` the one into which tokens come that arrive until `to`, and answers the time after which
    // they do: where a term begins, its full buckets and its start.
    fn enter(&self, state: &mut InTerm, from: u64, to: u64) -> u64
        requires { from ≤ to }
        ensures entered { (state.new, result) ≡ entered self.now from state.old (begun self.now from to) }
        ensures order { result ≤ to }
    {
        let Some(number) = self.begun(from, to) else {
            return from;
        };
        let (start, meter) = &self.later.terms[number as usize - 1];
        let full = meter.start();
        *state = InTerm {
            term: number,
            levels: full,
        };
        *start
    }
}

impl Meter for Termed {
    type State = InTerm;

    ghost use Rattle.tca_meters.specs.Termed.{termed_rule, is_aware_in, IsWithinSizes};
    ghost use Rattle.tca_meters.specs.laws.TermedLaws as laws;

    ghost rule = { termed_rule };

    ghost within = { IsWithinSizes };

    ghost aware = { is_aware_in };

    ghost additive = { laws.additive };

    ghost sizes = { laws.sizes };

    ghost never_betters = { laws.never_betters };

    ghost blind = { laws.blind };

    ghost red_keeps = { laws.red_keeps };

    fn start(&self) -> InTerm {
        InTerm {
            term: 0,
            levels: self.first.start(),
        }
    }

    fn advance(&self, state: InTerm, from: u64, to: u64) -> InTerm {
        let mut next = state;
        let since = self.enter(&mut next, from, to);
        let levels = self.meter_of(next.term).advance(next.levels, since, to);
        InTerm {
            term: next.term,
            levels,
        }
    }

    fn offer(&self, state: InTerm, octets: u32, pre: Colour) -> (Colour, InTerm) {
        let (colour, levels) = self.meter_of(state.term).offer(state.levels, octets, pre);
        (
            colour,
            InTerm {
                term: state.term,
                levels,
            },
        )
    }

    // The term is entered once for both.
    fn step(&self, state: &mut InTerm, last: u64, time: u64, octets: u32, pre: Colour) -> Colour {
        let since = self.enter(state, last, time);
        let meter = self.meter_of(state.term);
        meter.step(&mut state.levels, since, time, octets, pre)
    }
}

/// What a meter with terms does with items of one type that come in the order of their times, as a contract. At each time one term is the
/// last that has started; the items of each term have the colours that its meter gives them by itself, with both
/// buckets full at its start; all items are those of each term, one term after the other; and a meter without terms
/// gives the colours of its first meter.
pub fn terms_apart<T>()
    ensures times { (m : TermedMeter) → HaveTimes m }
    ensures apart { (m : TermedMeter) (packet_of : T → Packet) → TermsApart m packet_of }
    ensures in_turn { (m : TermedMeter) (packet_of : T → Packet) → TermsInTurn m packet_of }
    ensures plain { (first : AnyMeter) (packet_of : T → Packet) → IsPlain first packet_of }
{}
