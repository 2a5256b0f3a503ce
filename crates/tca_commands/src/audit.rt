//! The command `audit`.
ghost use Rattle.std.specs.Prelude.{◌≡◌, IfOk, IfErr, string_bytes};
ghost use Rattle.tca_audit.specs.Audits.{IsAudited, IsAuditedUnder};
ghost use Rattle.tca_commands.specs.Audited.{IsAuditDone, IsAuditRefused, IsAuditUnmade, IsPlanUnread, IsUnmadeUnder, is_agreement};
ghost use Rattle.tca_program.specs.Devices.{device};
ghost use Rattle.tca_commands.specs.Texts.{audit_text};
ghost use Rattle.tca_accounts.specs.Documents.{IsPlanOf};

use crate::texts::audit_line;
use std::alloc::{AllocError, Global};
use tca_accounts::{Plan, PlanFault};
use tca_audit::{AuditFault, Verdict, audit_under};
use tca_program::{RunFault, put_text};
use tca_report::Write;

// The plan of a text.
fn plan_of(alloc: Global, text: &[u8]) -> Result<Plan, RunFault>
    ensures named { IfOk result (IsPlanOf text.now) }
    ensures refused { IfErr result (IsPlanUnread text.now) }
{
    match Plan::from_text(alloc, text) {
        Ok(plan) => Ok(plan),
        Err(PlanFault::Memory) => Err(RunFault::from(AllocError)),
        Err(fault) => Err(RunFault::from(AuditFault::Plan(fault))),
    }
}

// The verdict under a plan, and its line.
fn verdict_under(
    alloc: Global,
    plan: &Plan,
    export: &[u8],
    statement: &[u8],
) -> Result<(Verdict, String), RunFault>
    ensures audited { IfOk result (λ x. IsAuditedUnder plan.now export.now statement.now x.0) }
    ensures line { IfOk result (λ x. string_bytes x.1 ≡ audit_text x.0) }
    ensures refused { IfErr result (IsUnmadeUnder export.now) }
{
    let verdict = audit_under(alloc, plan, export, statement)?;
    let line = audit_line(alloc, verdict)?;
    Ok((verdict, line))
}

// The verdict, and its line.
fn verdict_of(
    alloc: Global,
    plan: &[u8],
    export: &[u8],
    statement: &[u8],
) -> Result<(Verdict, String), RunFault>
    ensures audited { IfOk result (λ x. IsAudited plan.now export.now statement.now x.0) }
    ensures line { IfOk result (λ x. string_bytes x.1 ≡ audit_text x.0) }
    ensures unmade { IfErr result (IsAuditUnmade plan.now export.now) }
{
    let plan = plan_of(alloc, plan)?;
    verdict_under(alloc, &plan, export, statement)
}

// Whether a verdict is that the statement agrees.
fn agrees(verdict: Verdict) -> bool
    ensures { result ≡ is_agreement verdict }
{
    match verdict {
        Verdict::Agrees => true,
        Verdict::Differs { .. } => false,
    }
}

/// Audits a statement: writes `agrees` to `out` where its octets are those of the statement of the export's reports under the
/// plan, else `differs at` and the first octet that differs, counted from 0, or the shorter text's length. Answers whether it
/// agrees.
///
/// The plan is judged first, then the export. Want of memory may be told while the plan is read, whatever the export is; behind the
/// plan it is told only where the export has no fault, which is proved inside and can't be said of this call. A refusal but that of a
/// write leaves `out` as it was; that of a write says that only a part of the line went out.
pub fn run_audit<W: Write>(
    alloc: Global,
    plan: &[u8],
    export: &[u8],
    statement: &[u8],
    out: &mut W,
) -> Result<bool, RunFault>
    ensures done { IfOk result (IsAuditDone plan.now export.now statement.now
        (device W.written W.failures out.old) (device W.written W.failures out.new)) }
    ensures refused { IfErr result (IsAuditRefused plan.now export.now statement.now
        (device W.written W.failures out.old) (device W.written W.failures out.new)) }
{
    let (verdict, line) = verdict_of(alloc, plan, export, statement)?;
    put_text(&line, out)?;
    Ok(agrees(verdict))
}
