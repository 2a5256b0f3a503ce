//! The command `combine`.
ghost use Rattle.std.specs.Prelude.{◌≡◌, ◌<◌, ◌≤◌, ◌^◌, Ok, OnOk, IfOk, IfErr, length, string_bytes};
ghost use Rattle.std.specs.List.Sorted.{IsStrictlySortedBy};
ghost use Rattle.tca_report.specs.report.Reports.{report_cmp, most_reports};
ghost use Rattle.tca_commands.specs.Combined.{IsCombineDone, IsCombineRefused};
ghost use Rattle.tca_program.specs.Devices.{device};
ghost use Rattle.tca_commands.specs.Texts.{combine_text};
ghost use Rattle.tca_program.specs.Unions.{IsUnion, IsUnitingRefused, views_of, united};

use crate::texts::combine_line;
use std::alloc::Global;
use tca_program::{RunFault, put_text, unite};
use tca_report::{Input, Report, Write, write_export};

// The union of the inputs, and the line of how many reports it has.
fn union_and_line(alloc: Global, inputs: &[Input]) -> Result<(Vec<Report>, String), RunFault>
    requires { length inputs.now < 2 ^ 32 }
    ensures union { IfOk result (λ x. IsUnion (views_of inputs.now) x.0.items) }
    ensures taken { IfOk result (λ x. united (views_of inputs.now) ≡ Ok x.0.items) }
    ensures line { IfOk result (λ x. string_bytes x.1 ≡ combine_text (length x.0.items)) }
    ensures rises { IfOk result (λ x. IsStrictlySortedBy report_cmp x.0.items) }
    ensures limit { IfOk result (λ x. length x.0.items ≤ most_reports) }
    ensures unmade { IfErr result (IsUnitingRefused (views_of inputs.now)) }
{
    let (log, _notes) = unite(alloc, inputs)?;
    let line = combine_line(alloc, log.len())?;
    Ok((log.into_reports()?, line))
}

/// Writes the export of the union of the inputs' reports, disputed ones too, to `export`, and then
/// how many there are to `out`.
///
/// The inputs are judged in order. A refusal but that of a write leaves both as they were; all memory
/// is taken before the first write. That of a write says that only a part of the export went out and
/// nothing of the line, or all of the export and only a part of the line.
pub fn run_combine<W: Write, V: Write>(
    alloc: Global,
    inputs: &[Input],
    export: &mut V,
    out: &mut W,
) -> Result<(), RunFault>
    requires { length inputs.now < 2 ^ 32 }
    ensures done { OnOk result (IsCombineDone (views_of inputs.now)
        (device V.written V.failures export.old) (device V.written V.failures export.new)
        (device W.written W.failures out.old) (device W.written W.failures out.new)) }
    ensures refused { IfErr result (IsCombineRefused (views_of inputs.now)
        (device V.written V.failures export.old) (device V.written V.failures export.new)
        (device W.written W.failures out.old) (device W.written W.failures out.new)) }
{
    let (reports, line) = union_and_line(alloc, inputs)?;
    write_export(&reports, export)?;
    put_text(&line, out)?;
    Ok(())
}
