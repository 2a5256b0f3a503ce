//! One report after another through a meter.
ghost use Rattle.std.specs.Prelude.{◌≡◌, ◌≤◌};
ghost use Rattle.tca_accounts.specs.Metering.{HasRoom, answer_for, metered_none, metered_with};

use crate::sums::Sums;
use tca_meters::{Colour, Meter, precolour};
use tca_report::Report;

/// Where the metering of a list of reports stands.
#[derive(Clone, Copy, Debug, PartialEq, Eq)]
pub struct Metered<S> {
    /// The meter's state after the last report.
    pub state: S,
    /// The time of the last report in milliseconds, 0 where there was none.
    pub time: u64,
    /// The octets and packets of the reports so far, by colour.
    pub total: Sums,
}

/// Where metering starts: the meter's state at time 0, and no report. It takes no memory.
pub fn no_reports<M: Meter>(meter: &M) -> Metered<M::State>
    ensures { result ≡ metered_none (M.rule meter.now) }
{
    Metered {
        state: meter.start(),
        time: 0,
        total: Sums::new(),
    }
}

/// Meters one more report, which is not before the last one, and answers its colour. The colour that the report had is that
/// of its code point (RFC 2597 section 6), or `other` where that has none. It takes no memory.
pub fn meter_next<M: Meter>(
    meter: &M,
    other: Colour,
    metered: &mut Metered<M::State>,
    report: &Report,
) -> Colour
    requires order { metered.old.time ≤ report.now.time }
    requires few { HasRoom metered.old.total }
    ensures colour { result ≡ (answer_for (M.rule meter.now) other metered.old report.now).0 }
    ensures after { metered.new ≡ metered_with (M.rule meter.now) other metered.old report.now }
{
    let content = report.content();
    let pre = precolour(content.dscp, other);
    let colour = meter.step(
        &mut metered.state,
        metered.time,
        content.time,
        content.octets,
        pre,
    );
    metered.time = content.time;
    metered.total.count(colour, content.octets);
    colour
}
