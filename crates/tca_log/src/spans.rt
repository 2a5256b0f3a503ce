//! Spans of several domains and sessions, whose places are numbered one span after another.
ghost use Rattle.std.specs.Prelude.{◌≡◌, ◌<◌, ◌≤◌, false, true, IfOk, IfSome, length, slice_index_or, take};
ghost use Rattle.std.specs.List.{AllByRecursion};
ghost use Rattle.tca_report.specs.declared.report.Identity.{Identity};
ghost use Rattle.tca_report.specs.report.Identities.{identity_of};
ghost use Rattle.tca_log.specs.declared.span.Span.{Span};
ghost use Rattle.tca_log.specs.inside.Spans.{IsAmong, IsWithin, is_of, slot, width, widths};

use crate::rows::Rows;
use crate::span::Span;
use std::alloc::{AllocError, Allocator};
use tca_report::{Identity, Report};

// Where there are more domains and sessions than these, sorting identities takes less time.
const MOST_SPANS: usize = 16;

impl Span {
    // The place of this identity alone.
    fn of(identity: Identity) -> Span
        ensures { IsWithin result identity }
    {
        Span {
            domain: identity.domain,
            session: identity.session,
            lowest: identity.place,
            highest: identity.place,
        }
    }

    // Whether an identity is of its domain and session.
    fn is_of(&self, identity: Identity) -> bool
        ensures { result ≡ is_of self.now identity }
    {
        identity.domain == self.domain && identity.session == self.session
    }

    // How many places it has.
    fn width(&self) -> usize
        ensures width { result ≡ width self.now }
        ensures most { result ≤ 4294967296 }
    {
        (self.highest - self.lowest) as usize + 1
    }

    // The span up to this place too.
    fn widened(self, place: u32) -> Span
        ensures domain { result.domain ≡ self.domain }
        ensures session { result.session ≡ self.session }
        ensures lowest { result.lowest ≤ self.lowest }
        ensures highest { self.highest ≤ result.highest }
        ensures from { result.lowest ≤ place }
        ensures to { place ≤ result.highest }
    {
        Span {
            domain: self.domain,
            session: self.session,
            lowest: self.lowest.min(place),
            highest: self.highest.max(place),
        }
    }
}

// Where the span of an identity's domain and session stands; behind all spans where there is none.
fn place_of(spans: &[Span], identity: Identity) -> usize
    ensures bound { result ≤ length spans.now }
    ensures there { (d : Span) → result < length spans.now → is_of (slice_index_or spans.now result d) identity ≡ true }
    ensures first { AllByRecursion (λ s. is_of s identity ≡ false) (take result spans.now) }
{
    for at in 0..spans.len() {
        if spans[at].is_of(identity) {
            return at;
        }
    }
    spans.len()
}

// Widens the spans to an identity, unless it takes a span more than there may be.
fn widen<A: Allocator>(spans: &mut Vec<Span, A>, identity: Identity) -> Result<bool, AllocError>
    requires { length spans.old.items ≤ 16 }
    ensures few { length spans.new.items ≤ 16 }
    ensures old { (i : Identity) → IsAmong spans.old.items i → IsAmong spans.new.items i }
    ensures new { IfOk result (λ fits. fits ≡ true → IsAmong spans.new.items identity) }
{
    let at = place_of(spans, identity);
    if at < spans.len() {
        spans[at] = spans[at].widened(identity.place);
        return Ok(true);
    }
    if at == MOST_SPANS {
        return Ok(false);
    }
    spans.push(Span::of(identity))?;
    Ok(true)
}

/// The spans of the reports, unless they are of too many domains and sessions.
pub(crate) fn spans_of<A: Allocator + Copy>(
    reports: &Rows<Report, A>,
) -> Result<Option<Vec<Span, A>>, AllocError>
    ensures few { IfOk result (λ found. IfSome found (λ spans. length spans.items ≤ 16)) }
    ensures among { IfOk result (λ found. IfSome found (λ spans. AllByRecursion (λ r. IsAmong spans.items (identity_of r)) reports.now.rows)) }
{
    let mut spans = Vec::new(reports.allocator());
    for report in reports.iter() {
        if !widen(&mut spans, report.identity())? {
            return Ok(None);
        }
    }
    Ok(Some(spans))
}

/// How many places the spans have together.
pub(crate) fn count_places(spans: &[Span]) -> usize
    requires { length spans.now ≤ 16 }
    ensures all { result ≡ widths spans.now }
    ensures bound { result ≤ 68719476736 }
{
    let mut count = 0;
    for span in spans {
        count += span.width();
    }
    count
}

/// The number of an identity's place, where the places of the spans are numbered one span after another.
pub(crate) fn slot_of(spans: &[Span], identity: Identity) -> usize
    requires among { IsAmong spans.now identity }
    requires bound { widths spans.now ≤ 68719476736 }
    ensures { result ≡ slot spans.now identity }
{
    let mut before = 0;
    for span in spans {
        if span.is_of(identity) {
            return before + (identity.place - span.lowest) as usize;
        }
        before += span.width();
    }
    before
}
