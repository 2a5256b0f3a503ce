use std::alloc::{AllocError, Global};
use std::io;
use std::test::*;
use tca_commands::{run_bill_plain, run_combine, run_meter};
use tca_program::{Family, RunFault};
use tca_report::{Host, Input, Notes};

const START: u64 = 1_700_000_000_000;

pub(super) const SPEC: &str = "rfc2697:1000:2000:1000:blind";

pub(super) const THREE_LINES: &str = "green 1500 1\nyellow 1000 1\nred 800 1\n";

// Milliseconds after the start, place, octets.
pub(super) type Row = (u64, u32, u32);

pub(super) const FIRST: Row = (0, 0, 1500);

pub(super) const SECOND: Row = (100, 1, 1000);

pub(super) const THIRD: Row = (200, 2, 800);

// The time of a row, and domain 7.
fn time_and_domain(alloc: Global, time: u64) -> Result<Vec<u8>, AllocError> {
    let mut octets = Vec::from_slice(alloc, &START.wrapping_add(time).to_be_bytes())?;
    octets.extend_from_slice(&7u32.to_be_bytes())?;
    Ok(octets)
}

// An export in version 1, which has no sessions, of these rows, all of domain 7 and interface 1, with a code point for each. It is
// spelled here by hand.
fn old_export_with(alloc: Global, rows: &[Row], code_points: &[u8]) -> Result<Vec<u8>, AllocError> {
    let mut octets = Vec::from_slice(alloc, b"TCAX\x00\x01\x00\x00\x00")?;
    octets.push(u8::try_from(rows.len()).unwrap_or(0))?;
    for (n, (time, place, size)) in rows.iter().enumerate() {
        octets.extend_from_slice(&time_and_domain(alloc, *time)?)?;
        octets.extend_from_slice(&place.to_be_bytes())?;
        octets.extend_from_slice(&size.to_be_bytes())?;
        octets.push(code_points.get(n).copied().unwrap_or(0))?;
        octets.extend_from_slice(&1u32.to_be_bytes())?;
    }
    Ok(octets)
}

pub(super) fn old_export(alloc: Global, rows: &[Row]) -> Result<Vec<u8>, AllocError> {
    old_export_with(alloc, rows, &[])
}

// The same in version 2, all of one session and without code points.
pub(super) fn export_of(alloc: Global, session: u32, rows: &[Row]) -> Result<Vec<u8>, AllocError> {
    let mut octets = Vec::from_slice(alloc, b"TCAX\x00\x02\x00\x00\x00")?;
    octets.push(u8::try_from(rows.len()).unwrap_or(0))?;
    for (time, place, size) in rows {
        octets.extend_from_slice(&time_and_domain(alloc, *time)?)?;
        octets.extend_from_slice(&session.to_be_bytes())?;
        octets.extend_from_slice(&place.to_be_bytes())?;
        octets.extend_from_slice(&size.to_be_bytes())?;
        octets.extend_from_slice(b"\x00\x00\x00\x00\x01")?;
    }
    Ok(octets)
}

// The export of these rows in session 0, as the commands write it.
pub(super) fn export(alloc: Global, rows: &[Row]) -> Result<Vec<u8>, AllocError> {
    export_of(alloc, 0, rows)
}

// An input of session 0.
pub(super) fn plain(octets: Vec<u8>) -> Input {
    Input { session: 0, octets }
}

fn exports(alloc: Global, inputs: &[&[Row]]) -> Result<Vec<Input>, AllocError> {
    let mut all = Vec::new(alloc);
    for rows in inputs {
        all.push(plain(old_export(alloc, rows)?))?;
    }
    Ok(all)
}

fn metered(alloc: Global, spec: &str, inputs: &[Input]) -> Result<Vec<u8>, RunFault> {
    if inputs.len() > 2 {
        return Err(refusal(None, Family::Memory, 1));
    }
    let mut out = Host::new(Vec::new(alloc));
    match run_meter(alloc, spec, inputs, &mut out) {
        Ok(()) => Ok(out.into_inner()),
        Err(fault) => Err(fault),
    }
}

fn refusal(input: Option<u32>, family: Family, number: u8) -> RunFault {
    RunFault {
        input,
        family,
        number,
    }
}

fn prints_by(alloc: Global, spec: &str, inputs: &[Input], lines: &str) -> bool {
    match metered(alloc, spec, inputs) {
        Ok(text) => text.as_slice() == lines.as_bytes(),
        Err(_) => false,
    }
}

fn prints(alloc: Global, inputs: &[&[Row]], lines: &str) -> bool {
    let Ok(inputs) = exports(alloc, inputs) else {
        return false;
    };
    prints_by(alloc, SPEC, &inputs, lines)
}

#[test]
fn meters_in_order_of_time(rt: HostRuntime) {
    let alloc = rt.alloc();
    let three = [FIRST, SECOND, THIRD];
    assert!(rt; prints(alloc, &[&three], THREE_LINES));
    assert!(rt; prints(alloc, &[&three, &three], THREE_LINES));
    assert!(rt; prints(alloc, &[&[FIRST, THIRD], &[SECOND]], THREE_LINES));
    let late = [FIRST, (50, 3, 600), SECOND, THIRD];
    let lines = "green 1500 1\nyellow 600 1\nred 1800 2\n";
    assert!(rt; prints(alloc, &[&late], lines));
    assert!(rt; prints(alloc, &[&[]], "green 0 0\nyellow 0 0\nred 0 0\n"));
}

#[test]
fn meters_no_disputed_content(rt: HostRuntime) {
    let alloc = rt.alloc();
    let two = [FIRST, (50, 3, 600), (60, 3, 601), SECOND, THIRD];
    assert!(rt; prints(alloc, &[&two], THREE_LINES));
    let three = [
        FIRST,
        (50, 3, 600),
        (60, 3, 601),
        (70, 3, 602),
        SECOND,
        THIRD,
    ];
    assert!(rt; prints(alloc, &[&three], THREE_LINES));
    assert!(rt;
        prints(
            alloc,
            &[&[FIRST, (60, 3, 601), SECOND, THIRD], &[(50, 3, 600)]],
            THREE_LINES
        )
    );
}

// The export of packets at one time, each of so many octets and with a code point, as the one input.
fn export_of_packets(alloc: Global, packets: &[(u32, u8)]) -> Result<Vec<Input>, AllocError> {
    let mut rows = Vec::new(alloc);
    let mut code_points = Vec::new(alloc);
    for (place, (size, code_point)) in packets.iter().enumerate() {
        rows.push((0, u32::try_from(place).unwrap_or(0), *size))?;
        code_points.push(*code_point)?;
    }
    let mut inputs = Vec::new(alloc);
    inputs.push(plain(old_export_with(alloc, &rows, &code_points)?))?;
    Ok(inputs)
}

// Whether a meter gives these lines for such packets.
fn gives(alloc: Global, spec: &str, packets: &[(u32, u8)], lines: &str) -> bool {
    let Ok(inputs) = export_of_packets(alloc, packets) else {
        return false;
    };
    prints_by(alloc, spec, &inputs, lines)
}

#[test]
fn meters_by_two_rates(rt: HostRuntime) {
    let alloc = rt.alloc();
    let Ok(inputs) = exports(alloc, &[&[(0, 0, 1500), (0, 1, 500), (1, 2, 3)]]) else {
        panic!(rt; "inputs");
    };
    let lines = "green 500 1\nyellow 1500 1\nred 3 1\n";
    assert!(rt; prints_by(alloc, "rfc2698:2000:2000:1000:1000:blind", &inputs, lines));
}

#[test]
fn meters_by_an_excess_rate(rt: HostRuntime) {
    let alloc = rt.alloc();
    let thousands = [(1000, 0), (1000, 0), (1000, 0)];
    let exact = "green 1000 1\nyellow 1000 1\nred 1000 1\n";
    let below = "green 0 0\nyellow 0 0\nred 3000 3\n";
    assert!(rt;
        gives(
            alloc,
            "rfc4115:1000:1000:1000:1000:exact:blind",
            &thousands,
            exact
        )
    );
    assert!(rt;
        gives(
            alloc,
            "rfc4115:1000:1000:1000:1000:below:blind",
            &thousands,
            below
        )
    );
}

#[test]
fn meters_with_precolours(rt: HostRuntime) {
    let alloc = rt.alloc();
    let aware = "rfc2697:1000:2000:1000:aware";
    for (packet, lines) in [
        ((100, 14), "green 0 0\nyellow 0 0\nred 100 1\n"),
        ((1000, 12), "green 0 0\nyellow 1000 1\nred 0 0\n"),
        ((2000, 46), "green 2000 1\nyellow 0 0\nred 0 0\n"),
    ] {
        assert!(rt; gives(alloc, aware, &[packet], lines));
    }
    let all = [(100, 14), (1000, 12), (2000, 46)];
    let lines = "green 2000 1\nyellow 1000 1\nred 100 1\n";
    assert!(rt; gives(alloc, aware, &all, lines));
    let blind = "green 1100 2\nyellow 0 0\nred 2000 1\n";
    assert!(rt; gives(alloc, SPEC, &all, blind));
}

fn is_refused(alloc: Global, spec: &str, number: u8) -> bool {
    let Ok(inputs) = exports(alloc, &[&[FIRST, SECOND, THIRD]]) else {
        return false;
    };
    metered(alloc, spec, &inputs).err() == Some(refusal(None, Family::Spec, number))
}

#[test]
fn refuses_specs(rt: HostRuntime) {
    for (spec, number) in [
        ("rfc2697:1000:0:0:blind", 2),
        ("rfc2697:1000000000001:1:1:blind", 2),
        ("rfc2697:1000:2000:1000", 1),
        ("rfc2698:999:2000:1000:1000:blind", 2),
        ("rfc4115:1000:0:1000:0:exact:blind", 2),
        ("rfc2697:1000:2000:1000:exact", 1),
        ("rfc4115:1000:1000:1000:1000:blind", 1),
        ("rfc2697:9999999999999:1:1:blind", 2),
        ("rfc2697:00000000001000:1:1:blind", 1),
        ("rfc2697:+1000:1:1:blind", 1),
        ("", 1),
    ] {
        assert!(rt; is_refused(rt.alloc(), spec, number), "{spec}");
    }
}

// The refusal of a second input that is cut short.
fn cut_short(alloc: Global) -> Option<RunFault> {
    let three = [FIRST, SECOND, THIRD];
    let Ok(mut inputs) = exports(alloc, &[&three, &three]) else {
        return None;
    };
    if let Some(last) = inputs.last_mut() {
        let _octet = last.octets.pop();
    }
    metered(alloc, SPEC, &inputs).err()
}

#[test]
fn refuses_an_input_that_is_cut(rt: HostRuntime) {
    assert!(rt; cut_short(rt.alloc()) == Some(refusal(Some(1), Family::Export, 4)));
}

// One message: a template, and one record of 1500 octets at the start, place 5, code point 10.
pub(super) const TEMPLATE_AND_RECORD: [u8; 65] = [
    0x00, 0x0a, 0x00, 0x41, 0x65, 0x53, 0xf1, 0x00, 0x00, 0x00, 0x00, 0x05, 0x00, 0x00, 0x00, 0x07,
    0x00, 0x02, 0x00, 0x18, 0x01, 0x00, 0x00, 0x04, 0x01, 0x43, 0x00, 0x08, 0x00, 0xe0, 0x00, 0x08,
    0x00, 0xc3, 0x00, 0x01, 0x00, 0x0a, 0x00, 0x04, 0x01, 0x00, 0x00, 0x19, 0x00, 0x00, 0x01, 0x8b,
    0xcf, 0xe5, 0x68, 0x00, 0x00, 0x00, 0x00, 0x00, 0x00, 0x00, 0x05, 0xdc, 0x0a, 0x00, 0x00, 0x00,
    0x01,
];

// These octets as the one input.
fn one_input(alloc: Global, octets: &[u8]) -> Result<Vec<Input>, AllocError> {
    let mut inputs = Vec::new(alloc);
    inputs.push(plain(Vec::from_slice(alloc, octets)?))?;
    Ok(inputs)
}

// What `meter` answers for these octets as its one input.
fn meters(alloc: Global, octets: &[u8]) -> Result<Vec<u8>, RunFault> {
    let inputs = one_input(alloc, octets)?;
    metered(alloc, SPEC, &inputs)
}

fn meters_to(alloc: Global, octets: &[u8], lines: &str) -> bool {
    match meters(alloc, octets) {
        Ok(text) => text.as_slice() == lines.as_bytes(),
        Err(_) => false,
    }
}

fn meters_with(alloc: Global, at: usize, octet: u8) -> Option<RunFault> {
    let mut octets = TEMPLATE_AND_RECORD;
    if at < octets.len() {
        octets[at] = octet;
    }
    meters(alloc, &octets).err()
}

#[test]
fn meters_captures(rt: HostRuntime) {
    let alloc = rt.alloc();
    assert!(rt;
        meters_to(
            alloc,
            &TEMPLATE_AND_RECORD,
            "green 1500 1\nyellow 0 0\nred 0 0\n"
        )
    );
    assert!(rt; meters_to(alloc, b"", "green 0 0\nyellow 0 0\nred 0 0\n"));
    let (cut, _) = TEMPLATE_AND_RECORD.split_at(64);
    assert!(rt; meters(alloc, cut).err() == Some(refusal(Some(0), Family::Wire, 1)));
    assert!(rt; meters_with(alloc, 1, 9) == Some(refusal(Some(0), Family::Wire, 2)));
    let mut octets = TEMPLATE_AND_RECORD;
    (octets[20], octets[21]) = (0x00, 0xff);
    assert!(rt; meters(alloc, &octets).err() == Some(refusal(Some(0), Family::Decode, 1)));
}

// What `combine` writes for these octets as its one input, where it prints that it has so many reports.
fn combined(alloc: Global, octets: &[u8], line: &str) -> Option<Vec<u8>> {
    let Ok(inputs) = one_input(alloc, octets) else {
        return None;
    };
    if inputs.len() > 1 {
        return None;
    }
    let (mut export, mut out) = (Host::new(Vec::new(alloc)), Host::new(Vec::new(alloc)));
    let done = run_combine(alloc, &inputs, &mut export, &mut out).is_ok();
    if done && out.into_inner().as_slice() == line.as_bytes() {
        Some(export.into_inner())
    } else {
        None
    }
}

// Whether these octets combine to that export.
fn combines_to(alloc: Global, octets: &[u8], line: &str, export: &[u8]) -> bool {
    match combined(alloc, octets, line) {
        Some(written) => written.as_slice() == export,
        None => false,
    }
}

// The export of that one report in version 1.
const OLD_EXPORT_OF_RECORD: [u8; 35] = [
    0x54, 0x43, 0x41, 0x58, 0x00, 0x01, 0x00, 0x00, 0x00, 0x01, 0x00, 0x00, 0x01, 0x8b, 0xcf, 0xe5,
    0x68, 0x00, 0x00, 0x00, 0x00, 0x07, 0x00, 0x00, 0x00, 0x05, 0x00, 0x00, 0x05, 0xdc, 0x0a, 0x00,
    0x00, 0x00, 0x01,
];

// And in version 2.
const EXPORT_OF_RECORD: [u8; 39] = [
    0x54, 0x43, 0x41, 0x58, 0x00, 0x02, 0x00, 0x00, 0x00, 0x01, 0x00, 0x00, 0x01, 0x8b, 0xcf, 0xe5,
    0x68, 0x00, 0x00, 0x00, 0x00, 0x07, 0x00, 0x00, 0x00, 0x00, 0x00, 0x00, 0x00, 0x05, 0x00, 0x00,
    0x05, 0xdc, 0x0a, 0x00, 0x00, 0x00, 0x01,
];

#[test]
fn combines_a_capture_to_its_export(rt: HostRuntime) {
    let alloc = rt.alloc();
    let line = "reports 1\n";
    assert!(rt; combines_to(alloc, &TEMPLATE_AND_RECORD, line, &EXPORT_OF_RECORD));
    assert!(rt; combines_to(alloc, &OLD_EXPORT_OF_RECORD, line, &EXPORT_OF_RECORD));
    assert!(rt; combines_to(alloc, &EXPORT_OF_RECORD, line, &EXPORT_OF_RECORD));
}

// The exports of the three reports in version 1 and in version 2.
pub(super) const OLD_EXPORT_OF_THREE: [u8; 85] = [
    0x54, 0x43, 0x41, 0x58, 0x00, 0x01, 0x00, 0x00, 0x00, 0x03, 0x00, 0x00, 0x01, 0x8b, 0xcf, 0xe5,
    0x68, 0x00, 0x00, 0x00, 0x00, 0x07, 0x00, 0x00, 0x00, 0x00, 0x00, 0x00, 0x05, 0xdc, 0x00, 0x00,
    0x00, 0x00, 0x01, 0x00, 0x00, 0x01, 0x8b, 0xcf, 0xe5, 0x68, 0x64, 0x00, 0x00, 0x00, 0x07, 0x00,
    0x00, 0x00, 0x01, 0x00, 0x00, 0x03, 0xe8, 0x00, 0x00, 0x00, 0x00, 0x01, 0x00, 0x00, 0x01, 0x8b,
    0xcf, 0xe5, 0x68, 0xc8, 0x00, 0x00, 0x00, 0x07, 0x00, 0x00, 0x00, 0x02, 0x00, 0x00, 0x03, 0x20,
    0x00, 0x00, 0x00, 0x00, 0x01,
];

pub(super) const EXPORT_OF_THREE: [u8; 97] = [
    0x54, 0x43, 0x41, 0x58, 0x00, 0x02, 0x00, 0x00, 0x00, 0x03, 0x00, 0x00, 0x01, 0x8b, 0xcf, 0xe5,
    0x68, 0x00, 0x00, 0x00, 0x00, 0x07, 0x00, 0x00, 0x00, 0x00, 0x00, 0x00, 0x00, 0x00, 0x00, 0x00,
    0x05, 0xdc, 0x00, 0x00, 0x00, 0x00, 0x01, 0x00, 0x00, 0x01, 0x8b, 0xcf, 0xe5, 0x68, 0x64, 0x00,
    0x00, 0x00, 0x07, 0x00, 0x00, 0x00, 0x00, 0x00, 0x00, 0x00, 0x01, 0x00, 0x00, 0x03, 0xe8, 0x00,
    0x00, 0x00, 0x00, 0x01, 0x00, 0x00, 0x01, 0x8b, 0xcf, 0xe5, 0x68, 0xc8, 0x00, 0x00, 0x00, 0x07,
    0x00, 0x00, 0x00, 0x00, 0x00, 0x00, 0x00, 0x02, 0x00, 0x00, 0x03, 0x20, 0x00, 0x00, 0x00, 0x00,
    0x01,
];

#[test]
fn writes_version_2_of_exports_of_both_versions(rt: HostRuntime) {
    let alloc = rt.alloc();
    let line = "reports 3\n";
    assert!(rt; combines_to(alloc, &OLD_EXPORT_OF_THREE, line, &EXPORT_OF_THREE));
    assert!(rt; combines_to(alloc, &EXPORT_OF_THREE, line, &EXPORT_OF_THREE));
}

// The refusal of the export in version 2 with these octets as the number of its version.
fn meters_version(alloc: Global, high: u8, low: u8) -> Option<RunFault> {
    let mut octets = EXPORT_OF_THREE;
    (octets[4], octets[5]) = (high, low);
    meters(alloc, &octets).err()
}

#[test]
fn meters_exports_of_both_versions(rt: HostRuntime) {
    let alloc = rt.alloc();
    assert!(rt; meters_to(alloc, &OLD_EXPORT_OF_THREE, THREE_LINES));
    assert!(rt; meters_to(alloc, &EXPORT_OF_THREE, THREE_LINES));
    assert!(rt; meters_version(alloc, 0, 2) == None);
    for (high, low, number) in [(0, 3, 2), (0, 0, 2), (1, 2, 2), (2, 0, 2), (0, 1, 3)] {
        let refused = Some(refusal(Some(0), Family::Export, number));
        assert!(rt; meters_version(alloc, high, low) == refused, "{high} {low}");
    }
}

// Whether the inputs combine to the export of these rows, with this line.
fn combine_to(alloc: Global, inputs: &[&[Row]], rows: &[Row], line: &str) -> bool {
    let Ok(inputs) = exports(alloc, inputs) else {
        return false;
    };
    let Ok(whole) = export(alloc, rows) else {
        return false;
    };
    if inputs.len() > 2 {
        return false;
    }
    let (mut written, mut out) = (Host::new(Vec::new(alloc)), Host::new(Vec::new(alloc)));
    let done = run_combine(alloc, &inputs, &mut written, &mut out).is_ok();
    let (written, out) = (written.into_inner(), out.into_inner());
    done && written.as_slice() == whole.as_slice() && out.as_slice() == line.as_bytes()
}

#[test]
fn combines(rt: HostRuntime) {
    let alloc = rt.alloc();
    let three = [FIRST, SECOND, THIRD];
    let parts: [&[Row]; 2] = [&[FIRST, SECOND], &[SECOND, THIRD]];
    assert!(rt; combine_to(alloc, &parts, &three, "reports 3\n"));
    assert!(rt; combine_to(alloc, &[&[]], &[], "reports 0\n"));
}

#[test]
fn combines_disputed_reports_too(rt: HostRuntime) {
    let alloc = rt.alloc();
    let five = [FIRST, (50, 3, 600), (60, 3, 601), SECOND, THIRD];
    assert!(rt; combine_to(alloc, &[&five], &five, "reports 5\n"));
    let six = [
        FIRST,
        (50, 3, 600),
        (60, 3, 601),
        (70, 3, 602),
        SECOND,
        THIRD,
    ];
    assert!(rt; combine_to(alloc, &[&six], &six, "reports 6\n"));
}

// Takes no octet.
#[derive(Drop)]
pub(super) struct Full;

impl io::Write for Full {
    fn write(&mut self, _octets: &[u8]) -> io::Result<usize> {
        Ok(0)
    }

    fn flush(&mut self) -> io::Result<()> {
        Ok(())
    }
}

// The refusals of all commands over writers that take nothing, and what went to the others.
fn over_full_writers(alloc: Global) -> bool {
    let Ok(inputs) = exports(alloc, &[&[FIRST]]) else {
        return false;
    };
    if inputs.len() > 2 {
        return false;
    }
    let plan = PLAN.as_bytes();
    let failed = Some(refusal(None, Family::Write, 1));
    let mut full = Host::new(Full);
    let mut out = Host::new(Vec::new(alloc));
    let mut export = Host::new(Vec::new(alloc));
    let metered = run_meter(alloc, SPEC, &inputs, &mut full).err();
    let combined = run_combine(alloc, &inputs, &mut full, &mut out).err();
    let exported = run_bill_plain(alloc, plan, &inputs, Some(&mut full), &mut out).err();
    let stated = run_bill_plain(alloc, plan, &inputs, Some(&mut export), &mut full).err();
    let refused = metered == failed && combined == failed;
    let bill_refused = exported == failed && stated == failed;
    refused && bill_refused && out.into_inner().is_empty()
}

#[test]
fn refuses_a_write_that_fails(rt: HostRuntime) {
    assert!(rt; over_full_writers(rt.alloc()));
}

// One account, RFC 2697 blind, with the traffic of one interface.
pub(super) const PLAN: &str =
    "period = 3600000\n[[account]]\nname = \"alpha\"\nmeter = \"rfc2697\"\ncir = 1000\ncbs = 2000\nebs = 1000\nkeys = [[7, 1]]\n";

pub(super) const OPENING: &str = "tcacct statement 1\nperiod 3600000\n";

// What was billed: the notes, the export if one was asked, and the statement.
#[derive(Drop)]
struct Written {
    notes: Vec<Notes>,
    export: Vec<u8>,
    statement: Vec<u8>,
}

fn billed(alloc: Global, plan: &str, inputs: &[Input], exports: bool) -> Result<Written, RunFault> {
    if inputs.len() > 9 {
        return Err(refusal(None, Family::Memory, 1));
    }
    let mut export = Host::new(Vec::new(alloc));
    let mut out = Host::new(Vec::new(alloc));
    let asked = if exports { Some(&mut export) } else { None };
    match run_bill_plain(alloc, plan.as_bytes(), inputs, asked, &mut out) {
        Ok(notes) => Ok(Written {
            notes,
            export: export.into_inner(),
            statement: out.into_inner(),
        }),
        Err(fault) => Err(fault),
    }
}

// Whether these inputs are billed with this statement behind its first two lines.
fn states(alloc: Global, inputs: &[&[Row]], lines: &str) -> bool {
    let Ok(inputs) = exports(alloc, inputs) else {
        return false;
    };
    states_inputs(alloc, &inputs, lines)
}

fn states_octets(alloc: Global, inputs: &[&[u8]], lines: &str) -> bool {
    let mut all = Vec::new(alloc);
    for octets in inputs {
        let Ok(input) = Vec::from_slice(alloc, octets) else {
            return false;
        };
        if all.push(plain(input)).is_err() {
            return false;
        }
    }
    states_inputs(alloc, &all, lines)
}

fn states_inputs(alloc: Global, inputs: &[Input], lines: &str) -> bool {
    let Ok(text) = format!(in alloc; "{OPENING}{lines}") else {
        return false;
    };
    match billed(alloc, PLAN, inputs, false) {
        Ok(billed) => billed.statement.as_slice() == text.as_bytes(),
        Err(_) => false,
    }
}

pub(super) const THREE_REPORTS: &str =
    "reports 3\ndisputed 0\nunassigned 0\naccount alpha\ntotal 1500 1 1000 1 800 1\nspan 472222 1500 1 1000 1 800 1\nend\n";

#[test]
fn bills_the_union_of_the_inputs(rt: HostRuntime) {
    let alloc = rt.alloc();
    let three = [FIRST, SECOND, THIRD];
    assert!(rt; states(alloc, &[&three], THREE_REPORTS));
    assert!(rt; states(alloc, &[&[THIRD], &[FIRST, SECOND], &three], THREE_REPORTS));
    let lines =
        "reports 5\ndisputed 1\nunassigned 0\naccount alpha\ntotal 1500 1 1000 1 800 1\nspan 472222 1500 1 1000 1 800 1\nend\n";
    assert!(rt;
        states(
            alloc,
            &[&[FIRST, (60, 3, 601), SECOND, THIRD], &[(50, 3, 600)]],
            lines
        )
    );
    let lines = "reports 0\ndisputed 0\nunassigned 0\naccount alpha\ntotal 0 0 0 0 0 0\nend\n";
    assert!(rt; states(alloc, &[&[]], lines));
    assert!(rt; states_octets(alloc, &[b""], lines));
}

#[test]
fn bills_one_set_alike_in_each_order(rt: HostRuntime) {
    let alloc = rt.alloc();
    let (a, b, c): (&[Row], &[Row], &[Row]) = (&[FIRST], &[SECOND], &[THIRD]);
    for inputs in [
        [a, b, c],
        [a, c, b],
        [b, a, c],
        [b, c, a],
        [c, a, b],
        [c, b, a],
    ] {
        assert!(rt; states(alloc, &inputs, THREE_REPORTS), "{inputs:?}");
    }
}

// Whether the export of the union goes out where it is asked for.
fn exports_when_asked(alloc: Global) -> bool {
    let Ok(inputs) = exports(alloc, &[&[THIRD], &[FIRST, SECOND]]) else {
        return false;
    };
    let Ok(whole) = export(alloc, &[FIRST, SECOND, THIRD]) else {
        return false;
    };
    let with = match billed(alloc, PLAN, &inputs, true) {
        Ok(billed) => billed.export.as_slice() == whole.as_slice() && billed.notes.len() == 2,
        Err(_) => false,
    };
    let without = match billed(alloc, PLAN, &inputs, false) {
        Ok(billed) => billed.export.is_empty() && billed.statement.len() == 144,
        Err(_) => false,
    };
    with && without
}

#[test]
fn writes_the_export_of_a_bill(rt: HostRuntime) {
    assert!(rt; exports_when_asked(rt.alloc()));
}

// The export of the first report, and these octets behind it.
fn first_and(alloc: Global, octets: &[u8]) -> Result<Vec<Input>, AllocError> {
    let mut inputs = exports(alloc, &[&[FIRST]])?;
    inputs.push(plain(Vec::from_slice(alloc, octets)?))?;
    Ok(inputs)
}

// Whether a plan and inputs are refused so.
fn bill_is_refused(alloc: Global, plan: &str, inputs: &[Input], fault: RunFault) -> bool {
    billed(alloc, plan, inputs, true).err() == Some(fault)
}

#[test]
fn judges_the_plan_before_the_inputs(rt: HostRuntime) {
    let alloc = rt.alloc();
    let Ok(inputs) = first_and(alloc, b"TCAX\x00\x01\x00\x00\x00") else {
        panic!(rt; "inputs");
    };
    let plan = refusal(None, Family::Plan, 3);
    assert!(rt; bill_is_refused(alloc, "period = 0\n", &inputs, plan));
    let input = refusal(Some(1), Family::Export, 4);
    assert!(rt; bill_is_refused(alloc, PLAN, &inputs, input));
}

// What is noted of the message with one octet changed.
fn noted(alloc: Global, at: usize, octet: u8) -> Option<Notes> {
    let mut octets = TEMPLATE_AND_RECORD;
    if at < octets.len() {
        octets[at] = octet;
    }
    let Ok(inputs) = first_and(alloc, &octets) else {
        return None;
    };
    match billed(alloc, PLAN, &inputs, false) {
        Ok(billed) => billed.notes.last().copied(),
        Err(_) => None,
    }
}

#[test]
fn answers_the_notes_of_each_input(rt: HostRuntime) {
    let alloc = rt.alloc();
    let none = Notes {
        messages: 1,
        not_reports: [0; 7],
        unplaced: 0,
        skipped: 0,
    };
    assert!(rt; noted(alloc, 1, 10) == Some(none));
    // The template set has an identifier that is skipped, so the record's template isn't known.
    let skipped = Notes {
        unplaced: 1,
        skipped: 1,
        ..none
    };
    assert!(rt; noted(alloc, 17, 4) == Some(skipped));
    // The time is read in seconds from 1900, and lies before 1970.
    let early = Notes {
        not_reports: [0, 0, 0, 1, 0, 0, 0],
        ..none
    };
    assert!(rt; noted(alloc, 25, 0x44) == Some(early));
}

// The plan of the README's example, `data/plan.toml`.
const EXAMPLE_PLAN: &str =
    "# Two accounts, each with the traffic of one interface of observation domain 7. A period is an hour.
period = 3600000

[[account]]
name = \"alpha\"
meter = \"rfc2697\"
cir = 1000
cbs = 2000
ebs = 1000
keys = [[7, 1]]

[[account]]
name = \"beta\"
meter = \"rfc2698\"
aware = true
cir = 1000
cbs = 1000
pir = 2000
pbs = 2000
keys = [[7, 2]]
";

// And its capture, `data/capture.ipfix`: a template with six records, and a record of an unknown
// template.
pub(super) const EXAMPLE_CAPTURE: [u8; 194] = [
    0x00, 0x0a, 0x00, 0xaa, 0x65, 0x53, 0xf1, 0x00, 0x00, 0x00, 0x00, 0x05, 0x00, 0x00, 0x00, 0x07,
    0x00, 0x02, 0x00, 0x18, 0x01, 0x00, 0x00, 0x04, 0x01, 0x43, 0x00, 0x08, 0x00, 0xe0, 0x00, 0x08,
    0x00, 0xc3, 0x00, 0x01, 0x00, 0x0a, 0x00, 0x04, 0x01, 0x00, 0x00, 0x82, 0x00, 0x00, 0x01, 0x8b,
    0xcf, 0xe5, 0x68, 0x00, 0x00, 0x00, 0x00, 0x00, 0x00, 0x00, 0x05, 0xdc, 0x0a, 0x00, 0x00, 0x00,
    0x01, 0x00, 0x00, 0x01, 0x8b, 0xcf, 0xe5, 0x68, 0x64, 0x00, 0x00, 0x00, 0x00, 0x00, 0x00, 0x03,
    0xe8, 0x00, 0x00, 0x00, 0x00, 0x01, 0x00, 0x00, 0x01, 0x8b, 0xcf, 0xe5, 0x68, 0xc8, 0x00, 0x00,
    0x00, 0x00, 0x00, 0x00, 0x03, 0x20, 0x00, 0x00, 0x00, 0x00, 0x01, 0x00, 0x00, 0x01, 0x8b, 0xcf,
    0xe5, 0x68, 0x00, 0x00, 0x00, 0x00, 0x00, 0x00, 0x00, 0x05, 0xdc, 0x0a, 0x00, 0x00, 0x00, 0x02,
    0x00, 0x00, 0x01, 0x8b, 0xd0, 0x1c, 0x56, 0x80, 0x00, 0x00, 0x00, 0x00, 0x00, 0x00, 0x01, 0xf4,
    0x0e, 0x00, 0x00, 0x00, 0x02, 0x00, 0x00, 0x01, 0x8b, 0xcf, 0xe5, 0x68, 0x00, 0x00, 0x00, 0x00,
    0x00, 0x00, 0x00, 0x00, 0x32, 0x00, 0x00, 0x00, 0x00, 0x03, 0x00, 0x0a, 0x00, 0x18, 0x65, 0x53,
    0xf1, 0x01, 0x00, 0x00, 0x00, 0x0b, 0x00, 0x00, 0x00, 0x07, 0x01, 0x2c, 0x00, 0x08, 0x00, 0x00,
    0x00, 0x01,
];

const EXAMPLE_STATEMENT: &str = "tcacct statement 1
period 3600000
reports 6
disputed 0
unassigned 1
account alpha
total 1500 1 1000 1 800 1
span 472222 1500 1 1000 1 800 1
account beta
total 0 0 1500 1 500 1
span 472222 0 0 1500 1 0 0
span 472223 0 0 0 0 500 1
end
";

// Whether that is its statement, and what was noted beside its reports.
fn bills_example(alloc: Global) -> bool {
    let Ok(inputs) = one_input(alloc, &EXAMPLE_CAPTURE) else {
        return false;
    };
    let notes = Notes {
        messages: 2,
        not_reports: [0; 7],
        unplaced: 1,
        skipped: 0,
    };
    match billed(alloc, EXAMPLE_PLAN, &inputs, false) {
        Ok(billed) => {
            let statement = billed.statement.as_slice() == EXAMPLE_STATEMENT.as_bytes();
            let noted = billed.notes.len() == 1 && billed.notes.last().copied() == Some(notes);
            statement && noted
        }
        Err(_) => false,
    }
}

#[test]
fn bills_the_example_of_the_readme(rt: HostRuntime) {
    assert!(rt; bills_example(rt.alloc()));
}

// The header of a message of so many octets, with a sequence number.
fn header(length: u8, sequence: u8) -> [u8; 16] {
    [
        0x00, 0x0a, 0x00, length, 0x65, 0x53, 0xf1, 0x00, 0x00, 0x00, 0x00, sequence, 0x00, 0x00,
        0x00, 0x07,
    ]
}

// A template set of 24 octets: the fields of the template above, under an identifier from 256 to 511.
fn template_set(id: u8) -> [u8; 24] {
    [
        0x00, 0x02, 0x00, 0x18, 0x01, id, 0x00, 0x04, 0x01, 0x43, 0x00, 0x08, 0x00, 0xe0, 0x00,
        0x08, 0x00, 0xc3, 0x00, 0x01, 0x00, 0x0a, 0x00, 0x04,
    ]
}

// A data set of 25 octets with one record for it.
fn data_set(id: u8) -> [u8; 25] {
    [
        0x01, id, 0x00, 0x19, 0x00, 0x00, 0x01, 0x8b, 0xcf, 0xe5, 0x68, 0x00, 0x00, 0x00, 0x00,
        0x00, 0x00, 0x00, 0x05, 0xdc, 0x0a, 0x00, 0x00, 0x00, 0x01,
    ]
}

// Twice one message with the records 20, 21 and 22, of the templates 256, 300 and 256: first where 300
// isn't known, so that record 20 alone has a place, then where it is.
fn message_before_and_after_its_template(alloc: Global) -> Result<Vec<u8>, AllocError> {
    let mut octets = Vec::new(alloc);
    for id in [0u8, 44] {
        octets.extend_from_slice(&header(40, 20))?;
        octets.extend_from_slice(&template_set(id))?;
        octets.extend_from_slice(&header(91, 20))?;
        for id in [0u8, 44, 0] {
            octets.extend_from_slice(&data_set(id))?;
        }
    }
    Ok(octets)
}

// The notes, the number of reports and the places of what that capture bills.
fn places_of_the_message_twice(alloc: Global) -> Result<(Option<Notes>, Vec<u8>), AllocError> {
    let mut inputs = Vec::new(alloc);
    inputs.push(plain(message_before_and_after_its_template(alloc)?))?;
    let mut places = Vec::new(alloc);
    match billed(alloc, PLAN, &inputs, true) {
        Ok(billed) => {
            // Behind the ten octets of its header an export has 29 for each report, with the place in
            // octets 16 to 19.
            for report in billed.export.iter().skip(10 + 19).step_by(29) {
                places.push(*report)?;
            }
            Ok((billed.notes.last().copied(), places))
        }
        Err(_) => Ok((None, places)),
    }
}

#[test]
fn counts_a_report_once_that_comes_again_behind_its_template(rt: HostRuntime) {
    let Ok((notes, places)) = places_of_the_message_twice(rt.alloc()) else {
        panic!(rt; "places");
    };
    assert!(rt;
        notes
            == Some(Notes {
                messages: 4,
                not_reports: [0; 7],
                unplaced: 1,
                skipped: 0,
            })
    );
    assert!(rt; places.as_slice() == [20, 21, 22].as_slice());
}
