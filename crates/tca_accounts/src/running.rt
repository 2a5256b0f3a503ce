//! Metering one account.
ghost use Rattle.std.specs.Prelude.{◌≡◌, ℕ, ◌<◌, ◌≤◌, List, ◌∷◌, IfOk, OnOk, IfSome, Some};
ghost use Rattle.tca_report.specs.report.Reports.{PacketReport, most_octets};
ghost use Rattle.tca_meters.specs.declared.colour.Colour.{Colour};
ghost use Rattle.tca_meters.specs.Termed.{termed_rule};
ghost use Rattle.tca_accounts.specs.Bills.{coloured_by};
ghost use Rattle.tca_accounts.specs.Sums.{with_packet};
ghost use Rattle.tca_accounts.specs.Spans.{Ascend};
ghost use Rattle.tca_accounts.specs.Metering.{CanAdd, HasRoom, IsRunning, closed_by, sums_in, tally_so_far, with_last};

use crate::metered::{Metered, meter_next, no_reports};
use crate::period::Period;
use crate::span::{Span, Spans};
use crate::sums::Sums;
use crate::tally::Tally;
use std::alloc::{AllocError, Global};
use tca_meters::{Colour, Meter, Termed};
use tca_report::Report;

/// An account whose reports are being metered.
#[derive(Drop)]
pub(crate) struct Running {
    meter: Termed,
    /// The colour of a code point that has none of its own.
    other: Colour,
    /// The meter's state, the time and the sums after the last report.
    metered: Metered<<Termed as Meter>::State>,
    /// The spans of the periods that ended.
    ended: Vec<Span>,
    /// The span of the period of the last report.
    current: Option<Span>,
}

impl Running {
    /// An account that has had no report. It takes no memory.
    pub(crate) fn new(alloc: Global, meter: Termed, other: Colour) -> Running
        ensures time { result.metered.time ≡ 0 }
        ensures running { (period : ℕ) (reports : List PacketReport) → IsRunning period (coloured_by (termed_rule meter) other reports) reports result }
    {
        Running {
            meter,
            other,
            metered: no_reports(&meter),
            ended: Vec::new(alloc),
            current: None,
        }
    }

    /// Meters one more report, which is not before the last one. It takes memory only where a span ends.
    pub(crate) fn add(&mut self, period: &mut Period, report: &Report) -> Result<(), AllocError>
        requires order { self.old.metered.time ≤ report.now.time }
        requires few { CanAdd self.old.metered.total self.old.current }
        ensures time { OnOk result (self.new.metered.time ≡ report.now.time) }
        ensures period { period.new ≡ period.old }
        ensures running { OnOk result ((whole : List (PacketReport × Colour)) (later : List PacketReport)
            → IsRunning period.old whole (report.now ∷ later) self.old → IsRunning period.old whole later self.new) }
    {
        let colour = meter_next(&self.meter, self.other, &mut self.metered, report);
        let content = report.content();
        let index = period.index_of(content.time);
        count_in(
            &mut self.current,
            &mut self.ended,
            index,
            colour,
            content.octets,
        )?;
        Ok(())
    }

    /// The sums of the reports so far.
    pub(crate) fn finish(self) -> Result<Tally, AllocError>
        requires { Ascend (with_last self.ended.items self.current) }
        ensures { IfOk result (λ t. t ≡ tally_so_far self) }
    {
        let spans = all_spans(self.ended, self.current)?;
        Ok(Tally {
            total: self.metered.total,
            spans: Spans::ascending(spans),
        })
    }
}

// Counts a packet in the span of a period. Where that of another one went on, it has ended.
fn count_in(
    current: &mut Option<Span>,
    ended: &mut Vec<Span>,
    index: u64,
    colour: Colour,
    octets: u32,
) -> Result<(), AllocError>
    requires few { IfSome current.old (λ s. HasRoom s.sums) }
    requires size { octets ≤ most_octets }
    ensures current { OnOk result (current.new ≡ Some (record { index = index; sums = with_packet colour octets (sums_in current.old index) })) }
    ensures ended { OnOk result (ended.new.items ≡ closed_by current.old index ended.old.items) }
{
    if let Some(span) = current {
        if span.index == index {
            span.sums.count(colour, octets);
            return Ok(());
        }
        ended.push(*span)?;
    }
    let mut sums = Sums::new();
    sums.count(colour, octets);
    *current = Some(Span { index, sums });
    Ok(())
}

// The spans that ended, and the one that goes on.
fn all_spans(ended: Vec<Span>, current: Option<Span>) -> Result<Vec<Span>, AllocError>
    ensures { IfOk result (λ spans. spans.items ≡ with_last ended.items current) }
{
    let mut spans = ended;
    if let Some(span) = current {
        spans.push(span)?;
    }
    Ok(spans)
}
