//! The command `pairs`.
ghost use Rattle.std.specs.Prelude.{◌≡◌, ◌+◌, ◌*◌, ◌<◌, ◌≤◌, ◌==◌, ◌^◌, [], true, IfOk, IfErr, OnOk, get_or, if◌then◌else◌, length, map};
ghost use Rattle.std.specs.List.Sorted.{IsStrictlySortedBy};
ghost use Rattle.tca_join.specs.Sets.{has};
ghost use Rattle.tca_log.specs.Disputes.{undisputed};
ghost use Rattle.tca_report.specs.report.Reports.{report_cmp};
ghost use Rattle.tca_program.specs.Devices.{device};
ghost use Rattle.tca_program.specs.Unions.{IsUnitingRefused, views_of};
ghost use Rattle.tcatool.specs.Paired.{AreUsages, IsPaired, IsPairsDone, IsPairsRefused, pair_cmp, pair_line, pair_of, pairs_of};
ghost use Rattle.tcatool.specs.inside.Pairing.{usage_so_far};

use crate::cell::{Buffer, Cell, append_line};
use crate::row::{Row, put_rows};
use std::alloc::{AllocError, Global};
use tca_log::Log;
use tca_program::{RunFault, unite};
use tca_report::{Input, Report, Write};

const HEADER: &str = "domain,interface,reports,packets,octets,first,last\n";

/// An observation domain and an interface. Pairs are ordered by domain, then interface, each ascending.
#[derive(Clone, Copy, Debug, PartialEq, Eq, PartialOrd, Ord)]
pub(crate) struct Pair {
    domain: u32,
    interface: u32,
}

impl Pair {
    fn of(report: &Report) -> Pair
        ensures { result ≡ pair_of report.now }
    {
        Pair {
            domain: report.identity().domain,
            interface: report.content().iface,
        }
    }
}

/// The usage of a pair: how many reports it has, how many of them are settled and their octets, and the least and the greatest time of
/// all.
#[derive(Clone, Copy, Debug)]
pub(crate) struct PairUsage {
    pair: Pair,
    reports: u32,
    packets: u32,
    octets: u64,
    first: u64,
    last: u64,
}

impl PairUsage {
    // A pair without reports.
    fn none(pair: Pair) -> PairUsage
        ensures { result ≡ usage_so_far [] [] pair }
    {
        PairUsage {
            pair,
            reports: 0,
            packets: 0,
            octets: 0,
            first: 0,
            last: 0,
        }
    }

    // Counts one more report, which is not before the last one.
    fn count(&mut self, time: u64)
        requires { self.old.reports < 4294967295 }
        ensures { self.new ≡ record self.old {
          reports = self.old.reports + 1;
          first = if self.old.reports == 0 then time else self.old.first;
          last = time;
        } }
    {
        if self.reports == 0 {
            self.first = time;
        }
        self.last = time;
        self.reports += 1;
    }

    // Adds the octets of one more settled report.
    fn add(&mut self, octets: u32)
        requires few { self.old.packets < 4294967295 }
        requires room { self.old.octets + octets < 2 ^ 64 }
        ensures { self.new ≡ record self.old {
          packets = self.old.packets + 1;
          octets = self.old.octets + octets;
        } }
    {
        self.packets += 1;
        self.octets += u64::from(octets);
    }
}

impl Row<()> for PairUsage {
    ghost use Rattle.tcatool.specs.Paired.{pair_line};

    ghost line = { λ _ u. pair_line u };

    fn append_to(&self, _common: &(), buffer: &mut Buffer) {
        let domain = Cell::Number(u64::from(self.pair.domain));
        let others = [
            Cell::Number(u64::from(self.pair.interface)),
            Cell::Number(u64::from(self.reports)),
            Cell::Number(u64::from(self.packets)),
            Cell::Number(self.octets),
            Cell::Number(self.first),
            Cell::Number(self.last),
        ];
        append_line(domain, &others, buffer);
    }
}

// The pair of each report.
fn pair_of_each(alloc: Global, log: &Log) -> Result<Vec<Pair>, AllocError>
    ensures { IfOk result (λ all. all.items ≡ map pair_of log.now) }
{
    let mut all = Vec::with_capacity(alloc, log.len() as usize)?;
    for report in log.reports() {
        all.push(Pair::of(report))?;
    }
    Ok(all)
}

// The pairs that reports have, each once and ascending.
fn pairs_of(alloc: Global, log: &Log) -> Result<Vec<Pair>, AllocError>
    ensures { IfOk result (λ pairs. pairs.items ≡ pairs_of log.now) }
{
    let mut pairs = pair_of_each(alloc, log)?;
    pairs.sort_unstable();
    pairs.dedup();
    Ok(pairs)
}

// The usage of each pair before the first report.
fn unused(alloc: Global, pairs: &[Pair]) -> Result<Vec<PairUsage>, AllocError>
    ensures { IfOk result (λ all. all.items ≡ map (usage_so_far [] []) pairs.now) }
{
    let mut all = Vec::with_capacity(alloc, pairs.len())?;
    for pair in pairs {
        all.push(PairUsage::none(*pair))?;
    }
    Ok(all)
}

// The place of a report's pair.
fn place_of(pairs: &[Pair], report: &Report) -> usize
    requires rises { IsStrictlySortedBy pair_cmp pairs.now }
    requires there { has pair_cmp pairs.now (pair_of report.now) ≡ true }
    ensures inside { result < length pairs.now }
    ensures pair { get_or pairs.now result (pair_of report.now) ≡ pair_of report.now }
{
    pairs.binary_search(&Pair::of(report)).unwrap()
}

// Counts all reports of each pair.
fn count_reports(log: &Log, pairs: &[Pair], usages: &mut Vec<PairUsage>)
    requires pairs { pairs.now ≡ pairs_of log.now }
    requires none { usages.old.items ≡ map (usage_so_far [] []) (pairs_of log.now) }
    ensures counted { usages.new.items ≡ map (usage_so_far log.now []) (pairs_of log.now) }
    ensures rises { IsStrictlySortedBy report_cmp log.now }
{
    for report in log.reports() {
        let usage = &mut usages[place_of(pairs, report)];
        usage.count(report.content().time);
    }
}

// Adds up the settled reports of each pair.
fn add_settled(log: &Log, pairs: &[Pair], usages: &mut Vec<PairUsage>)
    requires pairs { pairs.now ≡ pairs_of log.now }
    requires counted { usages.old.items ≡ map (usage_so_far log.now []) (pairs_of log.now) }
    ensures { usages.new.items ≡ map (usage_so_far log.now (undisputed log.now)) (pairs_of log.now) }
{
    for report in log.settled() {
        let usage = &mut usages[place_of(pairs, report)];
        usage.add(report.content().octets);
    }
}

// The usage of each pair.
fn usages_of(alloc: Global, log: &Log) -> Result<Vec<PairUsage>, AllocError>
    ensures { IfOk result (λ usages. AreUsages log.now usages.items) }
{
    let pairs = pairs_of(alloc, log)?;
    let mut usages = unused(alloc, &pairs)?;
    count_reports(log, &pairs, &mut usages);
    add_settled(log, &pairs, &mut usages);
    Ok(usages)
}

// The usages of the pairs of the inputs' union.
fn union_usages(alloc: Global, inputs: &[Input]) -> Result<Vec<PairUsage>, RunFault>
    requires { length inputs.now < 2 ^ 32 }
    ensures paired { IfOk result (λ usages. IsPaired (views_of inputs.now) usages.items) }
    ensures refused { IfErr result (IsUnitingRefused (views_of inputs.now)) }
{
    let (log, _notes) = unite(alloc, inputs)?;
    let usages = usages_of(alloc, &log)?;
    Ok(usages)
}

/// Writes a line for each pair of an observation domain and an interface that a report of the inputs' union has, ascending, with its
/// usage.
///
/// The inputs are judged in order. All memory is taken before the first write. A refusal but that of a write leaves `out` as it was;
/// that of a write says that only a part of the lines went out.
pub fn run_pairs<W: Write>(alloc: Global, inputs: &[Input], out: &mut W) -> Result<(), RunFault>
    requires { length inputs.now < 2 ^ 32 }
    ensures done { OnOk result (IsPairsDone (views_of inputs.now)
        (device W.written W.failures out.old) (device W.written W.failures out.new)) }
    ensures refused { IfErr result (IsPairsRefused (views_of inputs.now)
        (device W.written W.failures out.old) (device W.written W.failures out.new)) }
{
    let rows = union_usages(alloc, inputs)?;
    put_rows(HEADER, &(), &rows, out)?;
    Ok(())
}
