//! The command `bill` by replicas and workers.
ghost use Rattle.std.specs.Prelude.{◌≡◌, ◌≢◌, ◌≤◌, ◌↔◌, ◌++◌, List, IfOk, IfErr, IsTrue, None, length, true};
ghost use Rattle.std.specs.List.{flat_map};
ghost use Rattle.std.specs.List.Sorted.{IsStrictlySortedBy};
ghost use Rattle.tca_accounts.specs.Plans.{AccountPlan};
ghost use Rattle.tca_report.specs.report.Reports.{PacketReport, report_cmp, most_reports};
ghost use Rattle.tca_commands.specs.Billed.{IsBillDone};
ghost use Rattle.tca_program.specs.Devices.{after, before, device};
ghost use Rattle.tca_program.specs.Noted.{AreNotes};
ghost use Rattle.tca_commands.specs.Replicated.{IsReplicatedRefused, IsReplicatedUnmade, IsExchangeRefused, IsWithinLimits};
ghost use Rattle.tca_program.specs.Unions.{IsUnion, memory_refusal, refusal, views_of, union_of};
ghost use Rattle.tca_program.specs.declared.fault.Family.TheVariants as family;
ghost use Rattle.tca_statements.specs.Statements.{statement_under};
ghost use Rattle.tca_accounts.specs.Documents.{IsPlanOf};

use crate::answers::{chain_all, sets_of, union_of};
use crate::bill::{Prepared, put_alone, put_exported};
use crate::replicas::{BillSetting, PARTS, run_replicas};
use crate::together::are_together;
use std::alloc::Global;
use std::marker::Brand;
use std::sync::Wait;
use std::sync::ledger::Blank;
use std::thread::Threads;
use tca_accounts::Plan;
use tca_gossip::Replica;
use tca_ingest::{Closed, Gate};
use tca_join::Items;
use tca_log::Log;
use tca_log::rows::RowsIter;
use tca_program::RunFault;
use tca_report::{Input, Notes, Report, Write};
use tca_statements::Statement;

// So many lists are gone through beside the log, each report of which is sought at the front of each list; more are united, which costs
// less then.
const FEW: usize = 16;

// Reports that are those of a log, in their order.
fn check_held(reports: Vec<Report>, log: &Log) -> Result<Vec<Report>, RunFault>
    ensures held { IfOk result (λ list. (list.items ≡ reports.items) × (list.items ≡ log.now)) }
    ensures differs { IfErr result (λ e. (e ≡ refusal None family.Close 3) × (reports.items ≢ log.now)) }
    ensures limit { length log.now ≤ most_reports }
{
    if !are_all_of(&reports, log) {
        return Err(RunFault::differs());
    }
    Ok(reports)
}

// All reports in order, where they are those of the log. The log goes before the lists are taken, since it may hold one of them too.
fn compare(alloc: Global, log: Log, lists: Vec<Items<Report>>) -> Result<Vec<Report>, RunFault>
    ensures whole { IfOk result (λ list. list.items ≡ union_of lists.items) }
    ensures held { IfOk result (λ list. list.items ≡ log) }
    ensures rises { IfOk result (λ list. IsStrictlySortedBy report_cmp list.items) }
    ensures limit { IfOk result (λ list. length list.items ≤ most_reports) }
    ensures differs { IfErr result (λ e. e ≢ memory_refusal → (e ≡ refusal None family.Close 3) × (union_of lists.items ≢ log)) }
    ensures refused { IfErr result IsExchangeRefused }
{
    if are_log(&lists, &log) {
        drop(log);
        return Ok(chain_all(alloc, lists)?);
    }
    compare_sets(alloc, log, sets_of(alloc, lists)?)
}

// The same, by the lists' sets.
fn compare_sets(alloc: Global, log: Log, sets: Vec<Items<Report>>) -> Result<Vec<Report>, RunFault>
    ensures whole { IfOk result (λ list. list.items ≡ union_of sets.items) }
    ensures held { IfOk result (λ list. list.items ≡ log) }
    ensures rises { IfOk result (λ list. IsStrictlySortedBy report_cmp list.items) }
    ensures limit { IfOk result (λ list. length list.items ≤ most_reports) }
    ensures differs { IfErr result (λ e. e ≢ memory_refusal → (e ≡ refusal None family.Close 3) × (union_of sets.items ≢ log)) }
    ensures refused { IfErr result IsExchangeRefused }
{
    if are_log(&sets, &log) {
        drop(log);
        return Ok(chain_all(alloc, sets)?);
    }
    if sets.len() <= FEW && are_together(alloc, &sets, &log)? {
        drop(sets);
        return Ok(log.into_reports()?);
    }
    let reports = union_of(alloc, sets)?;
    check_held(reports, &log)
}

// Whether the lists, one after another, are the reports of a log in their order. Then no union has to be made.
fn are_log(lists: &[Items<Report>], log: &Log) -> bool
    ensures chained { result ≡ true → flat_map (λ rs. rs) lists.now ≡ log.now }
    ensures union { result ≡ true → union_of lists.now ≡ log.now }
    ensures limit { length log.now ≤ most_reports }
{
    let mut left = log.reports();
    for reports in lists {
        if !come_next(&mut left, reports.as_slice()) {
            return false;
        }
    }
    left.next().is_none()
}

// Whether these reports come next. Then only those behind them are left.
fn come_next(left: &mut RowsIter<'_, Report, Global>, reports: &[Report]) -> bool
    ensures next { result ≡ true → left.old ≡ reports.now ++ left.new }
    ensures others { (rest : List PacketReport) → left.old ≡ reports.now ++ rest → result ≡ true }
{
    for report in reports {
        let Some(held) = left.next() else {
            return false;
        };
        if *held != *report {
            return false;
        }
    }
    true
}

// Whether these are the reports of a log, in their order.
fn are_all_of(reports: &[Report], log: &Log) -> bool
    ensures same { IsTrue result ↔ (reports.now ≡ log.now) }
    ensures limit { length log.now ≤ most_reports }
{
    let mut left = log.reports();
    come_next(&mut left, reports) && left.next().is_none()
}

// The statement of what a replica holds.
fn statement_of(alloc: Global, plan: &Plan, replica: &Replica) -> Result<Statement, RunFault>
    requires { replica.now.plan ≡ plan.now }
    ensures stated { IfOk result (λ s. s ≡ statement_under plan.now replica.now.log) }
    ensures refused { IfErr result IsExchangeRefused }
    ensures memory { IfErr result (λ e. e ≡ memory_refusal) }
{
    let bill = replica.totals()?;
    Ok(Statement::of(alloc, plan, &bill)?)
}

// A closed replica without its journal. The journals go, and the other replicas.
fn without_journal(first: Closed, others: Vec<Closed>) -> Replica
    ensures { result ≡ first.replica }
{
    drop(others);
    let Closed { replica, .. } = first;
    replica
}

// What goes out, and the inputs' notes.
fn bill_replicas<R: Threads + Wait + Sync, G: Gate>(
    setting: &BillSetting<'_, R, G>,
    plan: &[u8],
) -> Result<Prepared, RunFault>
    requires { IsWithinLimits setting.now.replicas setting.now.workers (length setting.now.inputs.now) }
    ensures stated { IfOk result (λ m. (p : AccountPlan) × IsPlanOf plan.now p × (m.statement ≡ statement_under p m.reports.items)) }
    ensures union { IfOk result (λ m. IsUnion (views_of setting.now.inputs.now) m.reports.items) }
    ensures noted { IfOk result (λ m. AreNotes (views_of setting.now.inputs.now) m.notes.items) }
    ensures rises { IfOk result (λ m. IsStrictlySortedBy report_cmp m.reports.items) }
    ensures limit { IfOk result (λ m. length m.reports.items ≤ most_reports) }
    ensures unmade { IfErr result (IsReplicatedUnmade plan.now (views_of setting.now.inputs.now)) }
{
    let plan = Plan::from_text(setting.alloc, plan)?;
    let mine = plan.copy(setting.alloc)?;
    let (mut all, readings) = run_replicas::<Brand, R, G>(setting, Blank::new(PARTS), &plan, mine)?;
    let Some(first) = all.pop() else {
        unreachable!();
    };
    let replica = without_journal(first, all);
    let statement = statement_of(setting.alloc, &plan, &replica)?;
    // The chains go, so that nobody else holds the lists of the answers.
    let log = replica.into_log();
    let reports = compare(setting.alloc, log, readings.lists)?;
    Ok(Prepared {
        statement,
        reports,
        notes: readings.notes,
    })
}

/// Writes the statement of the union of the inputs' reports under a plan to `out`, and before it, where
/// `export` is given, the export of that union to it. Answers the notes of each input, in order. It writes what
/// `run_bill_plain` does, for every number of replicas and of workers.
///
/// The plan is judged first. Then input `i`, counted from 0, is read by the replica named `i` modulo `replicas`, plus 1, each replica
/// having so many workers, which call the gate. Where a replica, its workers or its close is refused that is the answer, also where an
/// input has a fault; then comes the first input in order that has a fault (with the family and the number of that
/// fault), whose reports its replica's log didn't take (`Log`), or of which the replica refused the call (`Share`); then an absorb or a
/// comparison of the replicas that is refused. Each step answers want of memory as it meets it.
///
/// The log of the first replica is compared with the reports that the workers' answers list before anything is written. All memory is
/// taken before the first write. A refusal but that of a write leaves both writers as they were. That of a write says that only
/// a part of the export went out and nothing of the statement, or all of the export that was asked and only a part of the statement.
pub fn run_bill<R: Threads + Wait + Sync, G: Gate, W: Write, V: Write>(
    rt: &R,
    alloc: Global,
    plan: &[u8],
    inputs: &[Input],
    replicas: u32,
    workers: u32,
    gate: &G,
    export: Option<&mut V>,
    out: &mut W,
) -> Result<Vec<Notes>, RunFault>
    requires { IsWithinLimits replicas workers (length inputs.now) }
    ensures done { IfOk result (λ notes. IsBillDone plan.now (views_of inputs.now)
        (before (device V.written V.failures) export.entry) (after (device V.written V.failures) export.exit)
        (device W.written W.failures out.old) (device W.written W.failures out.new) notes.items) }
    ensures refused { IfErr result (IsReplicatedRefused plan.now (views_of inputs.now)
        (before (device V.written V.failures) export.entry) (after (device V.written V.failures) export.exit)
        (device W.written W.failures out.old) (device W.written W.failures out.new)) }
{
    let setting = BillSetting {
        rt,
        alloc,
        inputs,
        replicas,
        workers,
        gate,
    };
    let made = bill_replicas(&setting, plan);
    match export {
        Some(export) => put_exported(made, export, out),
        None => put_alone(made, out),
    }
}
