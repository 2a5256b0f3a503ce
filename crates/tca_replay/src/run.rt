//! Metering row by row.
ghost use Rattle.std.specs.Prelude.{◌≡◌, ℕ, ◌+◌, ◌*◌, ◌<◌, ◌≤◌, [], length, take, vec_len, vec_capacity, IfSome, Some};
ghost use Rattle.tca_accounts.specs.Metering.{closed_by, sums_in, CanAdd, HasRoom};
ghost use Rattle.tca_accounts.specs.Sums.{with_packet};
ghost use Rattle.tca_meters.specs.declared.colour.Colour.{Colour};
ghost use Rattle.tca_report.specs.report.Reports.{most_octets};
ghost use Rattle.tca_replay.specs.declared.run.Terms.{Terms};
ghost use Rattle.tca_replay.specs.Lanes.{most_rows_a_mark};
ghost use Rattle.tca_replay.specs.inside.Course.{one, course, start};
ghost use Rattle.tca_replay.specs.inside.Marks.{AreMarks};
ghost use Rattle.tca_replay.specs.inside.Standings.{course_at, metering};

use std::alloc::Allocator;
use tca_accounts::{Metered, Period, Span, Sums, meter_next, no_reports};
use tca_log::rows::Rows;
use tca_meters::{Colour, Meter};
use tca_report::Report;

/// Where the metering of a list stands, but for the spans that ended.
#[derive(Clone, Copy)]
pub(crate) struct Standing<S> {
    pub(crate) metered: Metered<S>,
    pub(crate) current: Option<Span>,
}

/// What is kept of a place in the rows: where the metering stood, and how many spans had ended.
#[derive(Clone, Copy)]
pub(crate) struct Mark<S> {
    pub(crate) standing: Standing<S>,
    pub(crate) closed: usize,
}

/// The colour of a code point that has none of its own, and the length of a period in milliseconds.
#[derive(Clone, Copy)]
pub(crate) struct Terms {
    pub(crate) other: Colour,
    pub(crate) period: u64,
}

/// Where metering starts.
pub(crate) fn begin<M: Meter>(meter: &M) -> Standing<M::State>
    ensures { (t : Terms) → course_at result [] ≡ start (metering (M.rule meter.now) t) }
{
    Standing {
        metered: no_reports(meter),
        current: None,
    }
}

// One report more.
fn step<M: Meter, A: Allocator>(
    meter: &M,
    terms: Terms,
    standing: &mut Standing<M::State>,
    report: &Report,
    period: &mut Period,
    closed: &mut Vec<Span, A>,
)
    requires order { standing.old.metered.time ≤ report.now.time }
    requires period { period.old ≡ terms.period }
    requires room { vec_len closed.old < vec_capacity closed.old }
    requires few { CanAdd standing.old.metered.total standing.old.current }
    ensures course { course_at standing.new closed.new.items ≡ one (metering (M.rule meter.now) terms) (course_at standing.old closed.old.items) report.now }
    ensures capacity { vec_capacity closed.old ≤ vec_capacity closed.new }
    ensures period { period.new ≡ terms.period }
{
    let colour = meter_next(meter, terms.other, &mut standing.metered, report);
    let content = report.content();
    let index = period.index_of(content.time);
    count_in(&mut standing.current, closed, index, colour, content.octets);
}

// Counts a packet in the span of a period. Where that of another one went on, it has ended.
fn count_in<A: Allocator>(
    current: &mut Option<Span>,
    closed: &mut Vec<Span, A>,
    index: u64,
    colour: Colour,
    octets: u32,
)
    requires few { IfSome current.old (λ s. HasRoom s.sums) }
    requires size { octets ≤ most_octets }
    requires room { vec_len closed.old < vec_capacity closed.old }
    ensures current { current.new ≡ Some (record { index = index; sums = with_packet colour octets (sums_in current.old index) }) }
    ensures closed { closed.new.items ≡ closed_by current.old index closed.old.items }
    ensures capacity { vec_capacity closed.old ≤ vec_capacity closed.new }
{
    if let Some(span) = current {
        if span.index == index {
            span.sums.count(colour, octets);
            return;
        }
        let _ = closed.push(*span);
    }
    let mut sums = Sums::new();
    sums.count(colour, octets);
    *current = Some(Span { index, sums });
}

/// Meters the rows from one on, and sets the marks that are due.
pub(crate) fn replay<M: Meter, A: Allocator + Copy>(
    meter: &M,
    terms: Terms,
    every: usize,
    rows: &Rows<Report, A>,
    from: usize,
    standing: Standing<M::State>,
    marks: &mut Vec<Mark<M::State>, A>,
    closed: &mut Vec<Span, A>,
) -> Standing<M::State>
    requires period { 0 < terms.period }
    requires every { (0 < every) × (every ≤ most_rows_a_mark) }
    requires from { from ≡ every * vec_len marks.old }
    requires inside { from ≤ length rows.now.rows }
    requires course { course_at standing closed.old.items ≡ course (metering (M.rule meter.now) terms) (start (metering (M.rule meter.now) terms)) (take from rows.now.rows) }
    requires marks { AreMarks (metering (M.rule meter.now) terms) every rows.now.rows closed.old.items marks.old.items }
    requires spans { length rows.now.rows ≤ vec_capacity closed.old }
    requires room { (n : ℕ) → every * n ≤ length rows.now.rows → n ≤ vec_capacity marks.old }
    ensures course { course_at result closed.new.items ≡ course (metering (M.rule meter.now) terms) (start (metering (M.rule meter.now) terms)) rows.now.rows }
    ensures marks { AreMarks (metering (M.rule meter.now) terms) every rows.now.rows closed.new.items marks.new.items }
    ensures reach { length rows.now.rows < every * (vec_len marks.new + 1) }
    ensures spans { vec_capacity closed.old ≤ vec_capacity closed.new }
    ensures room { vec_capacity marks.old ≤ vec_capacity marks.new }
{
    // For its clause alone: the rows ascend, and how many there may be.
    let _all = rows.len();
    let mut standing = standing;
    let mut period = Period::new(terms.period);
    let mut count = from;
    let mut due = from + every;
    for report in rows.iter_from(from) {
        step(meter, terms, &mut standing, report, &mut period, closed);
        count += 1;
        if count == due {
            let _ = marks.push(Mark {
                standing,
                closed: closed.len(),
            });
            due += every;
        }
    }
    standing
}
