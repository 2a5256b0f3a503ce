//! The command `diff`.
ghost use Rattle.std.specs.Prelude.{◌≡◌, ◌++◌, Ok, Some, OnOk, IfOk, IfErr, codes, length, filter, map};
ghost use Rattle.std.specs.List.Sorted.{IsStrictlySortedBy};
ghost use Rattle.tca_join.specs.Sets.{in_order};
ghost use Rattle.tca_report.specs.report.Reports.{report_cmp};
ghost use Rattle.tca_report.specs.input.Inputs.{input_view};
ghost use Rattle.tca_program.specs.Devices.{device};
ghost use Rattle.tcatool.specs.Diffed.{IsComparingRefused, IsDiffDone, IsDifference, IsDiffRefused, IsSetOf, both_sets, compared, diff_header, diff_line, differences_line, differences_of, lone, only_first, only_second, shared, side_name, sided};

use crate::cell::{Buffer, Cell, append_line};
use crate::report_line::report_cells;
use crate::row::{Row, put_rows};
use std::alloc::{AllocError, Global};
use std::fmt;
use tca_log::{Log, set_of};
use tca_program::{RunFault, add_input};
use tca_report::{Input, Report, Write};

const HEADER: &str = "side,time,domain,session,place,octets,dscp,interface\n";

/// Which of two sets has a report.
#[derive(Clone, Copy, Debug, PartialEq, Eq)]
pub enum Side {
    A,
    B,
}

impl Side {
    fn name(self) -> &'static str
        ensures { result.now ≡ side_name self }
    {
        match self {
            Side::A => "A",
            Side::B => "B",
        }
    }
}

/// A report that just one of two sets has.
#[derive(Clone, Copy, Debug)]
pub(crate) struct LoneReport {
    side: Side,
    report: Report,
}

impl Row<()> for LoneReport {
    ghost use Rattle.tcatool.specs.Diffed.{diff_line};

    ghost line = { λ _ x. diff_line x };

    fn append_to(&self, _common: &(), buffer: &mut Buffer) {
        let side = Cell::Text(self.side.name());
        append_line(side, &report_cells(&self.report), buffer);
    }
}

/// How many reports the first of two sets alone has, how many the second alone, and how many both have. It prints as the line that `diff`
/// writes to standard error; printing it takes no memory.
#[derive(Clone, Copy, Debug, PartialEq, Eq)]
pub struct Differences {
    pub only_a: u64,
    pub only_b: u64,
    pub both: u64,
}

impl fmt::Display for Differences {
    ghost output = { λ d. Some (differences_line d) };

    fn fmt<W: fmt::Write>(&self, f: &mut fmt::Formatter<W>) -> fmt::Result {
        let Differences {
            only_a,
            only_b,
            both,
        } = *self;
        write!(
            f,
            "tcatool: diff: only A {only_a}, only B {only_b}, both {both}\n"
        )
    }
}

// The reports of two inputs, each as a set.
fn sides(alloc: Global, a: &Input, b: &Input) -> Result<(Log, Log), RunFault>
    ensures first { IfOk result (λ x. IsSetOf (input_view a.now) x.0) }
    ensures second { IfOk result (λ x. IsSetOf (input_view b.now) x.1) }
    ensures compared { IfOk result (λ x. compared (input_view a.now) (input_view b.now) ≡ Ok (x.0, x.1)) }
    ensures refused { IfErr result (IsComparingRefused (input_view a.now) (input_view b.now)) }
{
    let mut first = Log::new(alloc);
    let _notes = add_input(alloc, 0, a, &mut first)?;
    let mut second = Log::new(alloc);
    let _notes = add_input(alloc, 1, b, &mut second)?;
    Ok((first, second))
}

// Appends the reports of a set.
fn push_all(log: &Log, all: &mut Vec<Report>) -> Result<(), AllocError>
    ensures { OnOk result (all.new.items ≡ all.old.items ++ log.now) }
{
    for report in log.reports() {
        all.push(*report)?;
    }
    Ok(())
}

// The reports of both sets, each once and in order.
fn united(alloc: Global, a: &Log, b: &Log) -> Result<Vec<Report>, AllocError>
    ensures { IfOk result (λ all. all.items ≡ both_sets a.now b.now) }
{
    let mut all = Vec::with_capacity(alloc, a.len() as usize + b.len() as usize)?;
    push_all(a, &mut all)?;
    push_all(b, &mut all)?;
    Ok(set_of(all))
}

// Which reports just one of two sets has, and how many there are of each kind.
fn told_apart(
    alloc: Global,
    all: &[Report],
    a: &Log,
    b: &Log,
) -> Result<(Vec<LoneReport>, Differences), AllocError>
    requires { all.now ≡ both_sets a.now b.now }
    ensures rows { IfOk result (λ x. x.0.items ≡ lone a.now b.now) }
    ensures counts { IfOk result (λ x. x.1 ≡ differences_of a.now b.now) }
{
    let mut rows = Vec::new(alloc);
    let mut counts = Differences {
        only_a: 0,
        only_b: 0,
        both: 0,
    };
    for report in all {
        let side = if !a.contains(report) {
            counts.only_b += 1;
            Side::B
        } else if !b.contains(report) {
            counts.only_a += 1;
            Side::A
        } else {
            counts.both += 1;
            continue;
        };
        let report = *report;
        rows.push(LoneReport { side, report })?;
    }
    Ok((rows, counts))
}

// The same of two sets alone.
fn told_of(alloc: Global, a: &Log, b: &Log) -> Result<(Vec<LoneReport>, Differences), AllocError>
    ensures rows { IfOk result (λ x. x.0.items ≡ lone a.now b.now) }
    ensures counts { IfOk result (λ x. x.1 ≡ differences_of a.now b.now) }
{
    let all = united(alloc, a, b)?;
    told_apart(alloc, &all, a, b)
}

// The reports that just one input has, and how many there are of each kind.
fn difference_of(
    alloc: Global,
    a: &Input,
    b: &Input,
) -> Result<(Vec<LoneReport>, Differences), RunFault>
    ensures told { IfOk result (λ x. IsDifference (input_view a.now) (input_view b.now) x.0.items x.1) }
    ensures refused { IfErr result (IsComparingRefused (input_view a.now) (input_view b.now)) }
{
    let (first, second) = sides(alloc, a, b)?;
    let told = told_of(alloc, &first, &second)?;
    Ok(told)
}

/// Writes the reports that just one of two inputs has, in the order of reports, and answers how many the first alone has, how many the
/// second alone, and how many both have.
///
/// Reports are compared as wholes: two contents of one identity are two reports. The first input is judged first, then the second. All
/// memory is taken before the first write. A refusal but that of a write leaves `out` as it was; that of a write says that only a part
/// of the lines went out.
pub fn run_diff<W: Write>(
    alloc: Global,
    a: &Input,
    b: &Input,
    out: &mut W,
) -> Result<Differences, RunFault>
    ensures done { IfOk result (IsDiffDone (input_view a.now) (input_view b.now)
        (device W.written W.failures out.old) (device W.written W.failures out.new)) }
    ensures refused { IfErr result (IsDiffRefused (input_view a.now) (input_view b.now)
        (device W.written W.failures out.old) (device W.written W.failures out.new)) }
{
    let (rows, differences) = difference_of(alloc, a, b)?;
    put_rows(HEADER, &(), &rows, out)?;
    Ok(differences)
}
