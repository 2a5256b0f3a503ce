//! The rows of one account, metered again from marks.
ghost use Rattle.std.specs.Prelude.{◌≡◌, ℕ, true, false, ◌+◌, ◌-◌, ◌*◌, ◌^◌, ◌<◌, ◌≤◌, min, [], length, take, get_or, IfOk, OnOk, OnErr, None, Some, IfSome, vec_len, vec_capacity};
ghost use Rattle.tca_report.specs.report.Reports.{report_cmp, time_end};
ghost use Rattle.tca_join.specs.Sets.{has, put};
ghost use Rattle.tca_log.specs.Rows.Ordered.{without, rank, most_rows};
ghost use Rattle.tca_replay.specs.Lanes.{lane_put, lane_less, lane_ready, lane_resumed, lower_of, most_rows_a_mark};
ghost use Rattle.tca_replay.specs.inside.Course.{start};
ghost use Rattle.tca_accounts.specs.Bills.{coloured_by, tally_of};
ghost use Rattle.tca_accounts.specs.Metering.{with_last};
ghost use Rattle.tca_replay.specs.inside.Standings.{course_at, metering};
ghost use Rattle.tca_replay.specs.declared.run.Mark.{Mark};
ghost use Rattle.tca_replay.specs.declared.run.Terms.{Terms};

use crate::run::{Mark, Standing, Terms, begin, replay};
use std::alloc::{AllocError, Allocator, Global};
use std::marker::Model;
use tca_accounts::{Span, Spans, Tally};
use tca_log::RowsIter;
use tca_log::rows::{LIMIT, Rows};
use tca_meters::{Colour, Meter};
use tca_report::Report;

/// How many rows were metered.
#[derive(Clone, Copy, Debug, PartialEq, Eq)]
pub struct Replayed {
    pub steps: u64,
}

/// The rows of an account, metered in order as they come and go: late, disputed, or at the end.
///
/// After each `k` rows a mark keeps where the metering stood. A row that comes or goes costs a search; `resume` then meters
/// anew from the last mark at or before the first row that changed.
#[derive(Drop)]
pub struct Lane<M: Meter, A: Allocator + Copy = Global> {
    meter: M,
    terms: Terms,
    every: usize,
    rows: Rows<Report, A>,
    marks: Vec<Mark<M::State>, A>,
    closed: Vec<Span, A>,
    standing: Standing<M::State>,
    changed: Option<Report>,
    ready: bool,
}

impl<M: Meter, A: Allocator + Copy> Model for Lane<M, A> {
    ghost use Rattle.std.specs.Prelude.{vec_capacity};
    ghost use Rattle.tca_replay.specs.Lanes.{LaneView, IsLane, kept, row_of};
    ghost use Rattle.tca_replay.specs.inside.Standings.{metering};

    ghost Value = { LaneView M };

    ghost view = { λ l. record { meter = l.meter; other = l.terms.other; period = l.terms.period; k = l.every; rows = l.rows.rows; changed = row_of l.changed l.rows.rows; ready = l.ready } };

    ghost invariant = { λ l. IsLane (metering (M.rule l.meter) l.terms) l.every l.rows l.changed l.standing l.marks.items l.closed.items l.ready (vec_capacity l.closed) (vec_capacity l.marks) };
}

impl<M: Meter, A: Allocator + Copy> Lane<M, A> {
    /// A lane without rows: its meter, the colour that a code point without one of its own has, the length of a period in
    /// milliseconds, and how many rows there are from a mark to the next. It takes no memory.
    pub fn new(alloc: A, meter: M, other: Colour, period: u64, k: u32) -> Lane<M, A>
        requires some_time { 0 < period }
        requires time { period < time_end }
        requires some_rows { 0 < k }
        requires few_rows { k ≤ most_rows_a_mark }
        ensures { result ≡ record { meter = meter; other = other; period = period; k = k; rows = []; changed = None; ready = false } }
    {
        let standing = begin(&meter);
        Lane {
            meter,
            terms: Terms { other, period },
            every: k as usize,
            rows: Rows::new(alloc),
            marks: Vec::new(alloc),
            closed: Vec::new(alloc),
            standing,
            changed: None,
            ready: false,
        }
    }

    /// The rows in order.
    pub fn rows(&self) -> RowsIter<'_, Report, A>
        ensures { result ≡ self.now.rows }
    {
        self.rows.iter()
    }

    /// How many rows there are.
    pub fn len(&self) -> usize
        ensures length { result ≡ length self.now.rows }
        ensures limit { length self.now.rows ≤ most_rows }
    {
        self.rows.len()
    }

    /// Whether a report is one of the rows.
    pub fn contains(&self, report: &Report) -> bool
        ensures { result ≡ has report_cmp self.now.rows report.now }
    {
        self.rows.contains(report)
    }

    /// Makes all room for this report, or any other one, as one more row: for the row, a mark and a span. An error leaves the
    /// lane as it was.
    pub fn reserve_row(&mut self, _report: &Report) -> Result<(), AllocError>
        ensures ok { OnOk result (self.new ≡ lane_ready self.old) }
        ensures err { OnErr result (self.new ≡ self.old) }
    {
        let count = self.rows.len() + 1;
        self.rows.reserve()?;
        reserve_spans(&mut self.closed, count)?;
        reserve_marks(&mut self.marks, self.every, count)?;
        self.ready = true;
        Ok(())
    }

    /// The octets and packets of the rows by colour, in all and by period, as the meter colours them from time 0 on. It takes
    /// memory for the spans alone.
    pub fn tally(&self, alloc: Global) -> Result<Tally, AllocError>
        requires { self.now.changed ≡ None }
        ensures { IfOk result (λ t. t ≡ tally_of self.now.period (coloured_by (M.rule self.now.meter) self.now.other self.now.rows)) }
    {
        // For its clause alone: the rows ascend, and how many there may be.
        let _all = self.rows.len();
        let spans = all_spans(alloc, &self.closed, self.standing.current)?;
        Ok(Tally {
            total: self.standing.metered.total,
            spans: Spans::ascending(spans),
        })
    }

    /// Puts a row in its place. It takes no memory.
    pub fn put(&mut self, report: Report)
        requires ready { self.old.ready ≡ true }
        requires new { has report_cmp self.old.rows report ≡ false }
        requires few { length self.old.rows < most_rows }
        ensures { self.new ≡ lane_put self.old report }
    {
        // For its clause alone: the rows ascend, and how many there may be.
        let _all = self.rows.len();
        self.rows.put(report);
        lower(&mut self.changed, &report);
        self.ready = false;
    }

    /// Takes a row away. It takes no memory.
    pub fn withdraw(&mut self, report: &Report)
        requires { has report_cmp self.old.rows report.now ≡ true }
        ensures { self.new ≡ lane_less self.old report.now }
    {
        // For its clause alone: the rows ascend, and how many there may be.
        let _all = self.rows.len();
        self.rows.withdraw(report);
        lower(&mut self.changed, report);
    }

    /// Meters anew the rows from the last mark at or before the first row that changed, and answers how many those are: with
    /// `n` rows and the first change at row `p`, at least `n - p` and at most `n - p + k`. It takes no memory.
    pub fn resume(&mut self) -> Replayed
        ensures lane { self.new ≡ lane_resumed self.old }
        ensures none { self.old.changed ≡ None → result.steps ≡ 0 }
        ensures steps { IfSome self.old.changed (λ p. result.steps + p ≤ length self.old.rows + self.old.k) }
        ensures all { IfSome self.old.changed (λ p. length self.old.rows ≤ result.steps + p) }
    {
        let all = self.rows.len();
        let Some(report) = self.changed else {
            return Replayed { steps: 0 };
        };
        let kept = self.rows.rank(&report);
        let at = mark_before(kept, self.every, self.marks.len());
        let from = self.every * at;
        let standing = rewind(&self.meter, at, &mut self.marks, &mut self.closed);
        self.standing = replay(
            &self.meter,
            self.terms,
            self.every,
            &self.rows,
            from,
            standing,
            &mut self.marks,
            &mut self.closed,
        );
        self.changed = None;
        Replayed {
            steps: (all - from) as u64,
        }
    }
}

// Makes room for so many spans. Where there is too little it makes room for twice as many, so that further rows seldom copy them.
fn reserve_spans<A: Allocator + Copy>(
    closed: &mut Vec<Span, A>,
    count: usize,
) -> Result<(), AllocError>
    ensures items { closed.new.items ≡ closed.old.items }
    ensures capacity { vec_capacity closed.old ≤ vec_capacity closed.new }
    ensures room { OnOk result (count ≤ vec_capacity closed.new) }
    ensures stays { count ≤ vec_capacity closed.old → vec_capacity closed.new ≡ vec_capacity closed.old }
    ensures ample { OnOk result (vec_capacity closed.old < count → min (count + count) (2 ^ 64 - 1) ≤ vec_capacity closed.new) }
{
    if count <= closed.capacity() {
        return Ok(());
    }
    // Most of the room stays empty, and growing in place would copy it all.
    let mut roomier = Vec::with_capacity(*closed.allocator(), count.saturating_add(count))?;
    roomier.extend_from_slice(closed)?;
    *closed = roomier;
    Ok(())
}

// Makes room for a mark after each so many of the rows.
fn reserve_marks<S, A: Allocator>(
    marks: &mut Vec<Mark<S>, A>,
    every: usize,
    count: usize,
) -> Result<(), AllocError>
    requires some { 0 < every }
    requires small { every ≤ most_rows_a_mark }
    ensures items { marks.new.items ≡ marks.old.items }
    ensures capacity { vec_capacity marks.old ≤ vec_capacity marks.new }
    ensures room { OnOk result ((n : ℕ) → every * n ≤ count → n ≤ vec_capacity marks.new) }
{
    // This comes for each row, and dividing would be slow.
    let held = marks.capacity().min(LIMIT);
    if count < every * (held + 1) {
        return Ok(());
    }
    marks.reserve((count / every).saturating_sub(marks.len()))?;
    Ok(())
}

// The spans that ended, and the one that goes on.
fn all_spans(alloc: Global, closed: &[Span], current: Option<Span>) -> Result<Vec<Span>, AllocError>
    ensures { IfOk result (λ v. v.items ≡ with_last closed.now current) }
{
    let mut spans = Vec::new(alloc);
    spans.extend_from_slice(closed)?;
    if let Some(span) = current {
        spans.push(span)?;
    }
    Ok(spans)
}

// How many marks stand at or before the rows that are kept.
fn mark_before(kept: usize, every: usize, marks: usize) -> usize
    requires some { 0 < every }
    requires reach { kept ≤ every * (marks + 1) }
    ensures before { every * result ≤ kept }
    ensures near { kept ≤ every * result + every }
    ensures inside { result ≤ marks }
{
    (kept / every).min(marks)
}

// Goes back to a mark, or to the start.
fn rewind<M: Meter, A: Allocator>(
    meter: &M,
    at: usize,
    marks: &mut Vec<Mark<M::State>, A>,
    closed: &mut Vec<Span, A>,
) -> Standing<M::State>
    requires { at ≤ vec_len marks.old }
    ensures marks { marks.new.items ≡ take at marks.old.items }
    ensures len { vec_len marks.new ≡ at }
    ensures standing { (d : Mark M.State) → 0 < at → (result ≡ (get_or marks.old.items (at - 1) d).standing) × (closed.new.items ≡ take (get_or marks.old.items (at - 1) d).closed closed.old.items) }
    ensures start { at ≡ 0 → (t : Terms) → course_at result closed.new.items ≡ start (metering (M.rule meter.now) t) }
    ensures room { (vec_capacity marks.new ≡ vec_capacity marks.old) × (vec_capacity closed.new ≡ vec_capacity closed.old) }
{
    marks.truncate(at);
    if at == 0 {
        closed.clear();
        return begin(meter);
    }
    let mark = marks[at - 1];
    closed.truncate(mark.closed);
    mark.standing
}

// Keeps the lower of a report and the one before, if there is one.
fn lower(changed: &mut Option<Report>, report: &Report)
    ensures { changed.new ≡ Some (lower_of changed.old report.now) }
{
    if let Some(other) = changed {
        if *other < *report {
            return;
        }
    }
    *changed = Some(*report);
}
