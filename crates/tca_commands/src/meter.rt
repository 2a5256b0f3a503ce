//! The command `meter`.
ghost use Rattle.std.specs.Prelude.{◌≡◌, ◌<◌, ◌≤◌, ◌^◌, Ok, OnOk, IfOk, IfErr, length, string_bytes};
ghost use Rattle.std.specs.List.Sorted.{IsStrictlySortedBy};
ghost use Rattle.tca_report.specs.report.Reports.{report_cmp, most_reports};
ghost use Rattle.tca_meters.specs.declared.colour.Colour.TheVariants.{Green};
ghost use Rattle.tca_meters.specs.Packets.{colours};
ghost use Rattle.tca_accounts.specs.Sums.{packet_of, sums_of};
ghost use Rattle.tca_program.specs.Devices.{device};
ghost use Rattle.tca_commands.specs.Metered.{AreMeterLines, IsMeterDone, IsMeterRefused, IsMeterUnmade, metering};
ghost use Rattle.tca_program.specs.Unions.{views_of};

use crate::texts::meter_lines;
use std::alloc::Global;
use tca_accounts::{Sums, meter_next, no_reports};
use tca_log::Settled;
use tca_meters::{Colour, Meter, meter_spec};
use tca_program::{RunFault, put_text, unite};
use tca_report::{Input, Write};

// The sums of the reports, metered in their order from time 0 on, each with the precolour of its code
// point, green where that has none.
fn meter_all<M: Meter>(meter: &M, reports: Settled<'_>) -> Sums
    requires rises { IsStrictlySortedBy report_cmp reports }
    requires few { length reports ≤ most_reports }
    ensures { result ≡ sums_of (colours (M.rule meter.now) (packet_of Green) reports.entry) }
{
    let mut metered = no_reports(meter);
    for report in reports {
        let _ = meter_next(meter, Colour::Green, &mut metered, report);
    }
    metered.total
}

// The lines of the meter that a spec names over the union of the inputs.
fn lines_of(alloc: Global, spec: &str, inputs: &[Input]) -> Result<String, RunFault>
    requires { length inputs.now < 2 ^ 32 }
    ensures lines { IfOk result (λ text. AreMeterLines spec.now (views_of inputs.now) (string_bytes text)) }
    ensures due { IfOk result (λ text. metering spec.now (views_of inputs.now) ≡ Ok (string_bytes text)) }
    ensures unmade { IfErr result (IsMeterUnmade spec.now (views_of inputs.now)) }
{
    let meter = meter_spec(spec)?;
    let (log, _notes) = unite(alloc, inputs)?;
    let sums = meter_all(&meter, log.settled());
    let lines = meter_lines(alloc, &sums)?;
    Ok(lines)
}

/// Meters the inputs, and writes the octets and packets of each colour on three lines.
///
/// The spec names any of the three meters, and is judged first, then the inputs in order, each a log
/// export or a capture. The union of their reports is metered without those that are disputed, each with the
/// precolour of its code point (RFC 2597 section 6), green where that has none. A refusal but that of
/// a write leaves `out` as it was; that of a write says that only a part of the lines went out.
pub fn run_meter<W: Write>(
    alloc: Global,
    spec: &str,
    inputs: &[Input],
    out: &mut W,
) -> Result<(), RunFault>
    requires { length inputs.now < 2 ^ 32 }
    ensures done { OnOk result (IsMeterDone spec.now (views_of inputs.now)
        (device W.written W.failures out.old) (device W.written W.failures out.new)) }
    ensures refused { IfErr result (IsMeterRefused spec.now (views_of inputs.now)
        (device W.written W.failures out.old) (device W.written W.failures out.new)) }
{
    let lines = lines_of(alloc, spec, inputs)?;
    put_text(&lines, out)?;
    Ok(())
}
