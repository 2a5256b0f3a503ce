//! Reading a log export.
ghost use Rattle.std.specs.Prelude.{◌≡◌, ◌≢◌, ◌<◌, ◌≤◌, ◌+◌, List, [], Ok, Err, None, Option, OnOk, IfOk, IfErr, IsErrOf, IsOkAnd, MatchResult, length, take, drop, vec_len, vec_capacity};
ghost use Rattle.std.specs.Int.{w32, w64, from_be_bytes};
ghost use Rattle.tca_join.specs.Results.{Gives};
ghost use Rattle.tca_report.specs.report.Reports.{PacketReport, reported, ranged, most_reports};
ghost use Rattle.tca_report.specs.export.Spelling.{IsExport, session_size, record_size, records_size};
ghost use Rattle.tca_report.specs.export.FirstFaults.{IsFaultyExport};
ghost use Rattle.tca_report.specs.export.Reading.{above, format_of, header_of, reading, session_at, record_at, records_at};
ghost use Rattle.tca_report.specs.declared.export.ExportFault.{ExportFault};
ghost use Rattle.tca_report.specs.declared.export.ExportFault.TheVariants.{Memory};

use crate::export::{ExportFault, Format};
use crate::report::{Content, Identity, MOST_REPORTS, Report};
use std::alloc::Global;

// The number of the first four octets, and the octets after them.
fn u32_at(octets: &[u8]) -> (u32, &[u8])
    requires { 4 ≤ length octets.now }
    ensures value { result.0 ≡ from_be_bytes w32 (take 4 octets.now) }
    ensures rest { result.1.now ≡ drop 4 octets.now }
{
    let (front, rest) = octets.split_at(4);
    let number = u32::from_be_bytes([front[0], front[1], front[2], front[3]]);
    (number, rest)
}

// The number of the first eight octets, and the octets after them.
fn u64_at(octets: &[u8]) -> (u64, &[u8])
    requires { 8 ≤ length octets.now }
    ensures value { result.0 ≡ from_be_bytes w64 (take 8 octets.now) }
    ensures rest { result.1.now ≡ drop 8 octets.now }
{
    let (front, rest) = octets.split_at(8);
    let number = u64::from_be_bytes([
        front[0], front[1], front[2], front[3], front[4], front[5], front[6], front[7],
    ]);
    (number, rest)
}

// The session at the front, where the version spells it, and the octets after it.
fn read_session(format: Format, octets: &[u8]) -> (u32, &[u8])
    requires { session_size format ≤ length octets.now }
    ensures value { (result.0, result.1.now) ≡ session_at format octets.now }
    ensures size { session_size format + length result.1.now ≡ length octets.now }
{
    match format {
        Format::Version1 => (0, octets),
        Format::Version2 => u32_at(octets),
    }
}

// What the octets of a report say, and the octets after them.
fn fields_at(format: Format, octets: &[u8]) -> (Identity, Content, &[u8])
    requires { record_size format ≤ length octets.now }
    ensures { (reported result.0 result.1, result.2.now) ≡ record_at format octets.now }
{
    let (time, rest) = u64_at(octets);
    let (domain, rest) = u32_at(rest);
    let (session, rest) = read_session(format, rest);
    let (place, rest) = u32_at(rest);
    let (octets, rest) = u32_at(rest);
    let dscp = rest[0];
    let (iface, rest) = u32_at(&rest[1..]);
    (
        Identity {
            domain,
            session,
            place,
        },
        Content {
            time,
            octets,
            dscp,
            iface,
        },
        rest,
    )
}

// The report at the front, where it is in range, and the octets after it.
fn report_at(format: Format, octets: &[u8]) -> (Option<Report>, &[u8])
    requires { record_size format ≤ length octets.now }
    ensures report { result.0 ≡ ranged (record_at format octets.now).0 }
    ensures rest { result.1.now ≡ (record_at format octets.now).1 }
{
    let (identity, content, rest) = fields_at(format, octets);
    (Report::new(identity, content), rest)
}

// Whether a report is above the last one before it.
fn follows(last: Option<Report>, report: &Report) -> bool
    ensures { result ≡ above last report.now }
{
    match last {
        None => true,
        Some(before) => before.cmp(report).is_lt(),
    }
}

// Reads so many reports into the room that was made for them.
fn read_records(
    format: Format,
    count: u32,
    octets: &[u8],
    into: &mut Vec<Report>,
) -> Result<(), ExportFault>
    requires whole { records_size format count ≤ length octets.now }
    requires empty { into.old.items ≡ [] }
    requires room { count ≤ vec_capacity into.old }
    ensures ok { OnOk result (records_at format count 0 None octets.now ≡ Ok into.new.items) }
    ensures fault { IfErr result (λ e. records_at format count 0 None octets.now ≡ Err e) }
    ensures no_memory { IfErr result (λ e. e ≢ Memory) }
{
    let mut last: Option<Report> = None;
    let mut rest = octets;
    for n in 0..count {
        let (found, after) = report_at(format, rest);
        let Some(report) = found else {
            return Err(ExportFault::Range { n });
        };
        let rises = follows(last, &report);
        if !rises {
            return Err(ExportFault::Order { n });
        }
        into.push_reserved(report);
        last = Some(report);
        rest = after;
    }
    Ok(())
}

// The first fault among so many records, or want of memory where they have none. It takes no
// memory, and is asked only where memory lacks.
#[cold]
fn refused(format: Format, count: u32, octets: &[u8]) -> ExportFault
    requires whole { records_size format count ≤ length octets.now }
    ensures fault { result ≢ Memory → records_at format count 0 None octets.now ≡ Err result }
    ensures memory { result ≡ Memory → IsOkAnd (records_at format count 0 None octets.now) (λ rs. length rs ≡ count) }
{
    let mut last: Option<Report> = None;
    let mut rest = octets;
    for n in 0..count {
        let (found, after) = report_at(format, rest);
        let Some(report) = found else {
            return ExportFault::Range { n };
        };
        let rises = follows(last, &report);
        if !rises {
            return ExportFault::Order { n };
        }
        last = Some(report);
        rest = after;
    }
    ExportFault::Memory
}

// The version of this number.
fn known_format(version: u16) -> Option<Format>
    ensures { result ≡ format_of version }
{
    match version {
        1 => Some(Format::Version1),
        2 => Some(Format::Version2),
        _ => None,
    }
}

// Octets of so many reports.
fn wanted_octets(format: Format, count: u32) -> usize
    requires { count ≤ most_reports }
    ensures { result ≡ records_size format count }
{
    match format {
        Format::Version1 => 25 * (count as usize),
        Format::Version2 => 29 * (count as usize),
    }
}

// The version and how many reports follow the header, or the first thing that is wrong before them.
#[tactic(auto, unfolding(crate::specs::export::Reading::header_of))]
fn read_header(octets: &[u8]) -> Result<(Format, u32), ExportFault>
    ensures exact { result ≡ header_of octets.now }
    ensures whole { IfOk result (λ x. length octets.now ≡ 10 + records_size x.0 x.1) }
    ensures no_memory { IfErr result (λ e. e ≢ Memory) }
{
    if octets.len() < 4 {
        return Err(ExportFault::Cut);
    }
    if octets[0] != b'T' || octets[1] != b'C' || octets[2] != b'A' || octets[3] != b'X' {
        return Err(ExportFault::Magic);
    }
    if octets.len() < 10 {
        return Err(ExportFault::Cut);
    }
    let version = u16::from_be_bytes([octets[4], octets[5]]);
    let Some(format) = known_format(version) else {
        return Err(ExportFault::Version(version));
    };
    let (count, records) = u32_at(&octets[6..]);
    if count > MOST_REPORTS {
        return Err(ExportFault::Count);
    }
    let wanted = wanted_octets(format, count);
    if records.len() < wanted {
        return Err(ExportFault::Cut);
    }
    if records.len() > wanted {
        return Err(ExportFault::Count);
    }
    Ok((format, count))
}

// The reports of an export, or its first fault.
fn read_whole(alloc: Global, octets: &[u8]) -> Result<Vec<Report>, ExportFault>
    ensures exact { Gives Memory (λ v. v.items) result (reading octets.now) }
    ensures memory { IsErrOf result Memory → IsOkAnd (reading octets.now) (λ rs. 0 < length rs) }
{
    let (format, count) = read_header(octets)?;
    let records = &octets[10..];
    let Ok(mut reports) = Vec::with_capacity(alloc, count as usize) else {
        return Err(refused(format, count, records));
    };
    read_records(format, count, records, &mut reports)?;
    Ok(reports)
}

/// Reads a log export of either version. The reports of version 1 are of session 0.
///
/// The first fault from the left is answered, in this order: fewer than 4 octets `Cut`; `Magic`;
/// fewer than 10 octets `Cut`; `Version`; more than 4,194,304 reports `Count`; fewer octets than
/// the count needs `Cut`; more `Count`; then report by report `Range` and `Order`; and last
/// `Memory` for the list.
pub fn read_export(alloc: Global, octets: &[u8]) -> Result<Vec<Report>, ExportFault>
    ensures found { IfOk result (λ v. IsExport octets.now v.items) }
    ensures only { (rs : List PacketReport) → IsExport octets.now rs
        → MatchResult result (λ v. v.items ≡ rs) (λ e. e ≡ Memory) }
    ensures exact { Gives Memory (λ v. v.items) result (reading octets.now) }

    // A fault is the first from the left, and octets with a fault are refused for it.
    ensures first { IfErr result (λ f. f ≢ Memory → IsFaultyExport octets.now f) }
    ensures refused { (f : ExportFault) → IsFaultyExport octets.now f → result ≡ Err f }

    // Memory is wanted for the whole list alone, where the octets spell one that isn't empty.
    ensures memory { IsErrOf result Memory → (rs : List PacketReport) × IsExport octets.now rs × (0 < length rs) }
{
    read_whole(alloc, octets)
}
