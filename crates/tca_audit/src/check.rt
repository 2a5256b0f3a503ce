//! The audit of a statement.
ghost use Rattle.std.specs.Prelude.{◌≡◌, ◌⊎◌, Err, IfOk, IfErr, List, MatchResult, length};
ghost use Rattle.tca_report.specs.report.Reports.{PacketReport};
ghost use Rattle.tca_report.specs.export.Spelling.{IsExport};
ghost use Rattle.tca_report.specs.export.FirstFaults.{IsFaultyExport};
ghost use Rattle.tca_report.specs.declared.export.ExportFault.{ExportFault};
ghost use Rattle.tca_accounts.specs.Plans.{AccountPlan};
ghost use Rattle.tca_statements.specs.Statements.{statement_text, statement_under};
ghost use Rattle.tca_audit.specs.Audits.{IsAudited, IsAuditedUnder, IsRefused, IsRefusedUnder};
ghost use Rattle.tca_audit.specs.declared.fault.AuditFault.TheVariants as fault;
ghost use Rattle.tca_audit.specs.declared.verdict.Verdict.TheVariants as verdict;
ghost use Rattle.tca_accounts.specs.Documents.{IsPlanOf};

use crate::bill::bill;
use crate::fault::AuditFault;
use crate::verdict::{Verdict, compared};
use std::alloc::{AllocError, Global};
use tca_accounts::{Bill, Plan, PlanFault};
use tca_report::{ExportFault, Host, read_export};
use tca_statements::{Statement, render};

/// Audits a statement: whether its octets are those of the statement of an export's reports under a plan.
///
/// The text of the plan is judged first, as [`Plan::from_text`] does: `Plan` has its fault. Then the octets of the
/// export: `Export` has their first fault. `Memory` comes where a growth was refused, in the reading of the plan
/// perhaps before its fault was found. No fault leaves anything behind.
pub fn audit(
    alloc: Global,
    plan: &[u8],
    export: &[u8],
    statement: &[u8],
) -> Result<Verdict, AuditFault>
    ensures ok { IfOk result (IsAudited plan.now export.now statement.now) }
    ensures err { IfErr result (IsRefused plan.now export.now) }

    // An export with a fault is refused for it, and a right statement agrees.
    ensures refused { (p : AccountPlan) (f : ExportFault) → IsPlanOf plan.now p → IsFaultyExport export.now f
        → MatchResult result (λ v. ⊥) (λ e. (e ≡ fault.Export f) ⊎ (e ≡ fault.Memory)) }
    ensures agrees { (p : AccountPlan) (reports : List PacketReport) → IsPlanOf plan.now p → IsExport export.now reports
        → statement.now ≡ statement_under p reports → MatchResult result (λ v. v ≡ verdict.Agrees) (λ e. e ≡ fault.Memory) }
{
    match Plan::from_text(alloc, plan) {
        Ok(plan) => audit_under(alloc, &plan, export, statement),
        Err(PlanFault::Memory) => Err(AuditFault::Memory),
        Err(fault) => Err(AuditFault::Plan(fault)),
    }
}

/// Audits a statement under a plan that was read: whether its octets are those of the statement of an export's reports.
///
/// The octets of the export are judged first: `Export` has their first fault. `Memory` comes only where they have none
/// and a growth was refused. No fault leaves anything behind.
pub fn audit_under(
    alloc: Global,
    plan: &Plan,
    export: &[u8],
    statement: &[u8],
) -> Result<Verdict, AuditFault>
    ensures ok { IfOk result (IsAuditedUnder plan.now export.now statement.now) }
    ensures err { IfErr result (IsRefusedUnder export.now) }

    // An export with a fault is refused for it, and a right statement agrees.
    ensures refused { (f : ExportFault) → IsFaultyExport export.now f → result ≡ Err (fault.Export f) }
    ensures agrees { (reports : List PacketReport) → IsExport export.now reports
        → statement.now ≡ statement_under plan.now reports → MatchResult result (λ v. v ≡ verdict.Agrees) (λ e. e ≡ fault.Memory) }
{
    let reports = match read_export(alloc, export) {
        Ok(reports) => reports,
        Err(ExportFault::Memory) => return Err(AuditFault::Memory),
        Err(fault) => return Err(AuditFault::Export(fault)),
    };
    let bill = bill(alloc, plan, &reports)?;
    let text = text_of(alloc, plan, &bill)?;
    Ok(compared(&text, statement))
}

// The octets of the statement of a bill.
fn text_of(alloc: Global, plan: &Plan, bill: &Bill) -> Result<Vec<u8>, AllocError>
    requires { length bill.now.accounts ≡ length plan.now.accounts }
    ensures { IfOk result (λ text. text.items ≡ statement_text plan.now bill.now) }
{
    let statement = Statement::of(alloc, plan, bill)?;
    let mut out = Host::new(Vec::new(alloc));
    if render(&statement, &mut out).is_err() {
        return Err(AllocError);
    }
    Ok(out.into_inner())
}
