//! Metering one account.
ghost use Rattle.std.specs.Prelude.{◌≡◌, ℕ, ◌<◌, ◌≤◌, List, ◌∷◌, IfOk, OnOk, IfSome, Some};
ghost use Rattle.tca_report.specs.report.Reports.{PacketReport, most_octets};
ghost use Rattle.tca_meters.specs.declared.colour.Colour.{Colour};
ghost use Rattle.tca_meters.specs.Termed.{termed_rule};
ghost use Rattle.tca_accounts.specs.Bills.{coloured_by};
ghost use Rattle.tca_accounts.specs.Metering.{CanAdd, HasRoom, closed_by, sums_in, with_last};
ghost use Rattle.tca_accounts.specs.Spans.{Ascend};
ghost use Rattle.tca_accounts.specs.Sums.{with_packet};
ghost use Rattle.tca_audit.specs.inside.Metering.{IsMetering, tally_so_far};

use crate::terms::{TermBuckets, begun, metered};
use std::alloc::{AllocError, Global};
use tca_accounts::{Span, Spans, Sums, Tally};
use tca_meters::{Colour, Termed, precolour};
use tca_report::Report;

/// An account whose reports are being metered.
#[derive(Drop)]
pub(crate) struct Account {
    meter: Termed,
    /// The colour of a code point that has none of its own.
    other: Colour,
    /// The term of the last report, and its meter's buckets after it.
    state: TermBuckets,
    /// The time of the last report in milliseconds, 0 where there was none.
    time: u64,
    /// The sums of the reports so far.
    total: Sums,
    /// The spans of the periods that ended.
    ended: Vec<Span>,
    /// The span of the period of the last report.
    current: Option<Span>,
}

impl Account {
    /// An account that has had no report. It takes no memory.
    pub(crate) fn new(alloc: Global, meter: Termed, other: Colour) -> Account
        ensures time { result.time ≡ 0 }
        ensures metering { (period : ℕ) (reports : List PacketReport) → IsMetering period (coloured_by (termed_rule meter) other reports) reports result }
    {
        Account {
            meter,
            other,
            state: begun(&meter),
            time: 0,
            total: Sums::new(),
            ended: Vec::new(alloc),
            current: None,
        }
    }

    /// Meters one more report, which is not before the last one, with the colour of its code point (RFC 2597 section 6)
    /// as precolour. It takes memory only where a span ends.
    pub(crate) fn add(&mut self, period: u64, report: &Report) -> Result<(), AllocError>
        requires period { 0 < period }
        requires order { self.old.time ≤ report.now.time }
        requires few { CanAdd self.old.total self.old.current }
        ensures time { OnOk result (self.new.time ≡ report.now.time) }
        ensures metering { OnOk result ((whole : List (PacketReport × Colour)) (later : List PacketReport)
            → IsMetering period whole (report.now ∷ later) self.old → IsMetering period whole later self.new) }
    {
        let content = report.content();
        let pre = precolour(content.dscp, self.other);
        let (colour, state) = metered(
            &self.meter,
            self.state,
            self.time,
            content.time,
            content.octets,
            pre,
        );
        let index = content.time / period;
        count_in(
            &mut self.current,
            &mut self.ended,
            index,
            colour,
            content.octets,
        )?;
        self.total.count(colour, content.octets);
        self.state = state;
        self.time = content.time;
        Ok(())
    }

    /// The sums of the reports so far.
    pub(crate) fn finish(self) -> Result<Tally, AllocError>
        requires { Ascend (with_last self.ended.items self.current) }
        ensures { IfOk result (λ t. t ≡ tally_so_far self) }
    {
        let spans = all_spans(self.ended, self.current)?;
        Ok(Tally {
            total: self.total,
            spans: Spans::ascending(spans),
        })
    }
}

// Counts a packet in the span of a period. Where that of another one went on, it has ended.
fn count_in(
    current: &mut Option<Span>,
    ended: &mut Vec<Span>,
    index: u64,
    colour: Colour,
    octets: u32,
) -> Result<(), AllocError>
    requires few { IfSome current.old (λ s. HasRoom s.sums) }
    requires size { octets ≤ most_octets }
    ensures current { OnOk result (current.new ≡ Some (record { index = index; sums = with_packet colour octets (sums_in current.old index) })) }
    ensures ended { OnOk result (ended.new.items ≡ closed_by current.old index ended.old.items) }
{
    if let Some(span) = current {
        if span.index == index {
            span.sums.count(colour, octets);
            return Ok(());
        }
        ended.push(*span)?;
    }
    let mut sums = Sums::new();
    sums.count(colour, octets);
    *current = Some(Span { index, sums });
    Ok(())
}

// The spans that ended, and the one that goes on.
fn all_spans(ended: Vec<Span>, current: Option<Span>) -> Result<Vec<Span>, AllocError>
    ensures { IfOk result (λ spans. spans.items ≡ with_last ended.items current) }
{
    let mut spans = ended;
    if let Some(span) = current {
        spans.push(span)?;
    }
    Ok(spans)
}
