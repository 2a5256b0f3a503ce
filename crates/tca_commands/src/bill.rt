//! The command `bill` by one thread, and how what a bill prepared goes out.
ghost use Rattle.std.specs.Prelude.{◌≡◌, ◌<◌, ◌≤◌, ◌^◌, IfOk, IfErr, None, Some, false, length};
ghost use Rattle.std.specs.List.Sorted.{IsStrictlySortedBy};
ghost use Rattle.tca_report.specs.report.Reports.{most_reports, report_cmp};
ghost use Rattle.tca_accounts.specs.Plans.{AccountPlan};
ghost use Rattle.tca_program.specs.Planned.{IsPlannedRefused};
ghost use Rattle.tca_commands.specs.Billed.{IsBillDone, IsBillRefused};
ghost use Rattle.tca_commands.specs.inside.Outputs.{IsPut, IsUnput};
ghost use Rattle.tca_program.specs.Devices.{after, before, device};
ghost use Rattle.tca_program.specs.Noted.{IsUniting};
ghost use Rattle.tca_program.specs.Outcomes.{outlets};
ghost use Rattle.tca_program.specs.Unions.{is_write, views_of};
ghost use Rattle.tca_statements.specs.Statements.{statement_under};
ghost use Rattle.tca_accounts.specs.Documents.{IsPlanOf};

use std::alloc::{AllocError, Global};
use tca_accounts::{Plan, bill_all};
use tca_log::Log;
use tca_program::{RunFault, unite};
use tca_report::{Input, Notes, Report, Write, write_export};
use tca_statements::{Statement, render};

/// What a bill writes, and the notes of the inputs.
#[derive(Drop)]
pub(crate) struct Prepared {
    pub(crate) statement: Statement,
    pub(crate) reports: Vec<Report>,
    pub(crate) notes: Vec<Notes>,
}

// The statement of a log under a plan.
fn statement_of(alloc: Global, plan: &Plan, log: &Log) -> Result<Statement, AllocError>
    ensures { IfOk result (λ s. s ≡ statement_under plan.now log.now) }
{
    let bill = bill_all(alloc, plan, log)?;
    Statement::of(alloc, plan, &bill)
}

// The bill of the union of the inputs.
fn bill_union(alloc: Global, plan: &[u8], inputs: &[Input]) -> Result<Prepared, RunFault>
    requires { length inputs.now < 2 ^ 32 }
    ensures stated { IfOk result (λ m. (p : AccountPlan) × IsPlanOf plan.now p × (m.statement ≡ statement_under p m.reports.items)) }
    ensures united { IfOk result (λ m. IsUniting (views_of inputs.now) m.reports.items m.notes.items) }
    ensures rises { IfOk result (λ m. IsStrictlySortedBy report_cmp m.reports.items) }
    ensures limit { IfOk result (λ m. length m.reports.items ≤ most_reports) }
    ensures unmade { IfErr result (IsPlannedRefused plan.now (views_of inputs.now)) }
{
    let plan = Plan::from_text(alloc, plan)?;
    let (log, notes) = unite(alloc, inputs)?;
    let statement = statement_of(alloc, &plan, &log)?;
    let reports = log.into_reports()?;
    Ok(Prepared {
        statement,
        reports,
        notes,
    })
}

/// Writes the export, and then the statement. A refusal before that is given on.
pub(crate) fn put_exported<W: Write, V: Write>(
    made: Result<Prepared, RunFault>,
    export: &mut V,
    out: &mut W,
) -> Result<Vec<Notes>, RunFault>
    requires rises { IfOk made (λ m. IsStrictlySortedBy report_cmp m.reports.items) }
    requires limit { IfOk made (λ m. length m.reports.items ≤ most_reports) }
    requires no_write { IfErr made (λ e. is_write e ≡ false) }
    ensures done { IfOk result (λ notes. IsPut made
        (outlets (Some (device V.written V.failures export.old)) (device W.written W.failures out.old))
        (outlets (Some (device V.written V.failures export.new)) (device W.written W.failures out.new)) notes.items) }
    ensures refused { IfErr result (IsUnput made
        (outlets (Some (device V.written V.failures export.old)) (device W.written W.failures out.old))
        (outlets (Some (device V.written V.failures export.new)) (device W.written W.failures out.new))) }
{
    let Prepared {
        statement,
        reports,
        notes,
    } = made?;
    write_export(&reports, export)?;
    render(&statement, out)?;
    Ok(notes)
}

/// Writes the statement alone. A refusal before that is given on.
pub(crate) fn put_alone<W: Write>(
    made: Result<Prepared, RunFault>,
    out: &mut W,
) -> Result<Vec<Notes>, RunFault>
    requires { IfErr made (λ e. is_write e ≡ false) }
    ensures done { IfOk result (λ notes. IsPut made
        (outlets None (device W.written W.failures out.old)) (outlets None (device W.written W.failures out.new)) notes.items) }
    ensures refused { IfErr result (IsUnput made
        (outlets None (device W.written W.failures out.old)) (outlets None (device W.written W.failures out.new))) }
{
    let Prepared {
        statement,
        notes,
        ..
    } = made?;
    render(&statement, out)?;
    Ok(notes)
}

/// Writes the statement of the union of the inputs' reports under a plan to `out`, and before it, where
/// `export` is given, the export of that union to it. Answers the notes of each input, in order.
///
/// The plan is judged first, then the inputs in order, each a log export or a capture and added before
/// the next is looked at. All memory is taken before the first write. A refusal but that of a write
/// leaves both writers as they were. That of a write says that only a part of the export went out and
/// nothing of the statement, or all of the export that was asked and only a part of the statement.
pub fn run_bill_plain<W: Write, V: Write>(
    alloc: Global,
    plan: &[u8],
    inputs: &[Input],
    export: Option<&mut V>,
    out: &mut W,
) -> Result<Vec<Notes>, RunFault>
    requires { length inputs.now < 2 ^ 32 }
    ensures done { IfOk result (λ notes. IsBillDone plan.now (views_of inputs.now)
        (before (device V.written V.failures) export.entry) (after (device V.written V.failures) export.exit)
        (device W.written W.failures out.old) (device W.written W.failures out.new) notes.items) }
    ensures refused { IfErr result (IsBillRefused plan.now (views_of inputs.now)
        (before (device V.written V.failures) export.entry) (after (device V.written V.failures) export.exit)
        (device W.written W.failures out.old) (device W.written W.failures out.new)) }
{
    let made = bill_union(alloc, plan, inputs);
    match export {
        Some(export) => put_exported(made, export, out),
        None => put_alone(made, out),
    }
}
