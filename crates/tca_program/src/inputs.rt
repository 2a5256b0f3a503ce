//! The inputs of a command, united one by one.
ghost use Rattle.std.specs.Prelude.{◌≡◌, ◌<◌, ◌^◌, ◌++◌, List, Ok, Some, IfErr, IfOk, IsOk, OnOk, OnErr, false, true, length, MatchResult};
ghost use Rattle.std.specs.List.Sorted.{IsStrictlySortedBy};
ghost use Rattle.tca_join.specs.Sets.{in_order};
ghost use Rattle.tca_report.specs.report.Reports.{PacketReport, report_cmp};
ghost use Rattle.tca_report.specs.input.Inputs.{input_view, read_input};
ghost use Rattle.tca_program.specs.Noted.{IsNoted, IsUniting};
ghost use Rattle.tca_program.specs.Unions.{HoldsReports, IsRefusedAs, IsUnitingRefused, MayLackMemory, is_log_memory, is_memory, is_write, views_of, with_input};

use crate::fault::RunFault;
use std::alloc::Global;
use tca_log::Log;
use tca_report::{Input, InputFault, Notes, gather};

/// Adds the reports of input `n`, and gives its notes. An input with a fault is refused for it (`export`, `wire`, `decode` with the
/// fault's number, `memory` 1), and one whose reports the log doesn't take as `log` 1 where it is full and `log` 2 for want of memory. A
/// refusal names the input and leaves the log as it was.
pub fn add_input(alloc: Global, n: u32, input: &Input, log: &mut Log) -> Result<Notes, RunFault>
    ensures exact { MatchResult result (λ _. with_input n log.old (read_input (input_view input.now)) ≡ Ok log.new)
        (λ e. IsRefusedAs e (with_input n log.old (read_input (input_view input.now)))) }
    ensures found { OnOk result ((rs : List PacketReport) × HoldsReports (input_view input.now) rs
        × (log.new ≡ in_order report_cmp (log.old ++ rs))) }
    ensures rises { OnOk result (IsStrictlySortedBy report_cmp log.new) }
    ensures noted { IfOk result (λ notes. IsNoted (input_view input.now) notes) }
    ensures named { IfErr result (λ e. e.input ≡ Some n) }
    ensures kept { OnErr result (log.new ≡ log.old) }
    ensures no_write { IfErr result (λ e. is_write e ≡ false) }
    // Want of memory comes behind each fault of the input that stands before it, and behind a log that is full.
    ensures log_memory { IfErr result (λ e. is_log_memory e ≡ true → IsOk (with_input n log.old (read_input (input_view input.now)))) }
    ensures memory_last { IfErr result (λ e. is_memory e ≡ true → MayLackMemory (input_view input.now)) }
{
    let gathered = match gather(alloc, &input.octets, input.session) {
        Ok(gathered) => gathered,
        Err(fault) => return Err(RunFault::input(n, fault)),
    };
    match log.add_all(gathered.reports) {
        Ok(_) => {
            // For its clause alone: the reports ascend.
            let _reports = log.reports();
            Ok(gathered.notes)
        }
        Err(fault) => Err(RunFault::log(n, fault)),
    }
}

/// The union of the inputs' reports, and the notes of each input, in order. Each input is gathered and
/// added before the next is looked at. The first input that has a fault, or whose reports the log
/// doesn't take, refuses all as [`add_input`] does; so does want of memory for an input's notes, as `memory` 1 of that input.
pub fn unite(alloc: Global, inputs: &[Input]) -> Result<(Log, Vec<Notes>), RunFault>
    requires { length inputs.now < 2 ^ 32 }
    ensures united { IfOk result (λ x. IsUniting (views_of inputs.now) x.0 x.1.items) }
    ensures refused { IfErr result (IsUnitingRefused (views_of inputs.now)) }
{
    let mut log = Log::new(alloc);
    let mut all = Vec::new(alloc);
    for (n, input) in inputs.iter().enumerate() {
        match add_input(alloc, n as u32, input, &mut log) {
            Ok(notes) => {
                if all.push(notes).is_err() {
                    return Err(RunFault::input(n as u32, InputFault::Memory));
                }
            }
            Err(fault) => return Err(fault),
        }
    }
    Ok((log, all))
}
