//! Reports, exports and devices.
use super::samples::{
    one_report, one_without_session, part, three_reports, three_without_sessions,
};
use std::alloc::{AllocError, Global};
use std::fmt::Display;
use std::path::Path;
use std::test::Fail;
use std::{env, fs, io};
use tca_report::{
    Content, ExportFault, Host, Identity, Read, ReadFault, Report, Write, WriteFault,
    order_is_total, put_all, read_export, read_octets, spelling_is_unique, write_export,
};

const T: u64 = 1_700_000_000_000;

fn no_report() -> &'static [u8] {
    b"TCAX\x00\x02\x00\x00\x00\x00"
}

fn report_of(identity: Identity, time: u64, octets: u32, dscp: u8) -> Option<Report> {
    let content = Content {
        time,
        octets,
        dscp,
        iface: 1,
    };
    Report::new(identity, content)
}

// A report of domain 7 and session 0.
fn report(place: u32, time: u64, octets: u32, dscp: u8) -> Option<Report> {
    report_of(identity((7, 0, place)), time, octets, dscp)
}

fn identity((domain, session, place): (u32, u32, u32)) -> Identity {
    Identity {
        domain,
        session,
        place,
    }
}

fn has_parts(report: Report, identity: Identity, content: Content) -> bool {
    report.identity() == identity && report.content() == content
}

// Domain, session and place; time, octets and DSCP.
type Parts = ((u32, u32, u32), u64, u32, u8);

fn is_below(lower: Parts, upper: Parts) -> bool {
    let (whose, time, octets, dscp) = lower;
    let Some(lower) = report_of(identity(whose), time, octets, dscp) else {
        return false;
    };
    let (whose, time, octets, dscp) = upper;
    let Some(upper) = report_of(identity(whose), time, octets, dscp) else {
        return false;
    };
    lower < upper
}

// Whether the report of the greatest time, size and code point has these.
fn has_the_greatest_parts() -> bool {
    let identity = identity((7, 0, 9));
    let content = Content {
        time: 281_474_976_710_655,
        octets: 65_575,
        dscp: 63,
        iface: 1,
    };
    let Some(last) = report(9, (1 << 48) - 1, 65_575, 63) else {
        return false;
    };
    has_parts(last, identity, content)
}

#[test]
fn reports_keep_their_ranges(rt: HostRuntime) {
    for (time, octets, dscp) in [(1 << 48, 1, 0), (T, 0, 0), (T, 65_576, 0), (T, 1, 64)] {
        assert!(rt;
            report(0, time, octets, dscp).is_none(),
            "{time} {octets} {dscp}"
        );
    }
    assert!(rt; has_the_greatest_parts());
    order_is_total();
    for (lower, upper) in [
        (((7, 9, 9), T, 1, 0), ((7, 0, 0), T + 1, 1, 0)),
        (((7, 9, 9), T, 9, 9), ((8, 0, 0), T, 1, 0)),
        (((7, 0, 9), T, 9, 9), ((7, 1, 0), T, 1, 0)),
        (((7, 0, 0), T, 9, 9), ((7, 0, 1), T, 1, 0)),
        (((7, 0, 0), T, 1, 9), ((7, 0, 0), T, 2, 0)),
    ] {
        assert!(rt; is_below(lower, upper));
    }
    for (lower, upper) in [
        ((7, 9, 9), (8, 0, 0)),
        ((7, 0, 9), (7, 1, 0)),
        ((7, 1, 0), (7, 1, 1)),
    ] {
        assert!(rt; identity(lower) < identity(upper));
    }
}

// Whether an export is read as these reports, and they are written as an export.
fn is_export_of(alloc: Global, octets: &[u8], wanted: &[Report], again: &[u8]) -> bool {
    let Ok(reports) = read_export(alloc, octets) else {
        return false;
    };
    let mut out = Host::new(Vec::new(alloc));
    let done = write_export(reports.as_slice(), &mut out).is_ok();
    let written = out.into_inner();
    done && reports.as_slice() == wanted && written.as_slice() == again
}

// The reports of the export of three.
fn wanted_of_three() -> Option<[Report; 3]> {
    Some([
        report(0, T, 1500, 0)?,
        report(1, T + 100, 1000, 0)?,
        report(2, T + 200, 800, 0)?,
    ])
}

// Whether both versions are read as the three reports, which are written as version 2.
fn three_go_both_ways(alloc: Global) -> bool {
    match wanted_of_three() {
        Some(wanted) => {
            is_export_of(alloc, three_reports(), &wanted, three_reports())
                && is_export_of(alloc, three_without_sessions(), &wanted, three_reports())
        }
        None => false,
    }
}

fn one_goes_both_ways(alloc: Global) -> bool {
    match report(5, T, 1500, 10) {
        Some(wanted) => {
            is_export_of(alloc, one_report(), &[wanted], one_report())
                && is_export_of(alloc, one_without_session(), &[wanted], one_report())
        }
        None => false,
    }
}

#[test]
fn exports_both_ways(rt: HostRuntime) {
    let lengths = (three_reports().len(), three_without_sessions().len());
    assert!(rt; lengths == (97, 85));
    assert!(rt; (one_report().len(), one_without_session().len()) == (39, 35));
    assert!(rt; three_go_both_ways(rt.alloc()));
    assert!(rt; one_goes_both_ways(rt.alloc()));
    assert!(rt; is_export_of(rt.alloc(), no_report(), &[], no_report()));
    let older = b"TCAX\x00\x01\x00\x00\x00\x00";
    assert!(rt; is_export_of(rt.alloc(), older, &[], no_report()));
    spelling_is_unique();
}

// Place 9 in session 1, place 9 in the next session, and place 0 in the last one, all of one time.
fn three_sessions() -> &'static [u8] {
    b"TCAX\x00\x02\x00\x00\x00\x03\
\x00\x00\x01\x8b\xcf\xe5\x68\x00\x00\x00\x00\x07\x00\x00\x00\x01\x00\x00\x00\x09\x00\x00\x05\xdc\x00\x00\x00\x00\x01\
\x00\x00\x01\x8b\xcf\xe5\x68\x00\x00\x00\x00\x07\x00\x00\x00\x02\x00\x00\x00\x09\x00\x00\x03\xe8\x00\x00\x00\x00\x01\
\x00\x00\x01\x8b\xcf\xe5\x68\x00\x00\x00\x00\x07\xff\xff\xff\xff\x00\x00\x00\x00\x00\x00\x03\x20\x00\x00\x00\x00\x01"
}

fn wanted_of_three_sessions() -> Option<[Report; 3]> {
    Some([
        report_of(identity((7, 1, 9)), T, 1500, 0)?,
        report_of(identity((7, 2, 9)), T, 1000, 0)?,
        report_of(identity((7, 4_294_967_295, 0)), T, 800, 0)?,
    ])
}

fn keeps_sessions(alloc: Global) -> bool {
    match wanted_of_three_sessions() {
        Some(wanted) => is_export_of(alloc, three_sessions(), &wanted, three_sessions()),
        None => false,
    }
}

#[test]
fn exports_keep_sessions(rt: HostRuntime) {
    assert!(rt; keeps_sessions(rt.alloc()));
}

fn is_refused(alloc: Global, octets: &[u8], fault: ExportFault) -> bool {
    match read_export(alloc, octets) {
        Ok(_) => false,
        Err(found) => found == fault,
    }
}

#[test]
fn headers_are_refused(rt: HostRuntime) {
    for (octets, fault) in [
        (b"XXX".as_slice(), ExportFault::Cut),
        (b"TCAY".as_slice(), ExportFault::Magic),
        (b"TCAX\x00\x01\x00\x00\x00".as_slice(), ExportFault::Cut),
        (
            b"TCAX\x00\x00\x00\x00\x00\x00".as_slice(),
            ExportFault::Version(0),
        ),
        (
            b"TCAX\x00\x03\x00\x00\x00\x00".as_slice(),
            ExportFault::Version(3),
        ),
        (
            b"TCAX\x01\x02\x00\x00\x00\x00".as_slice(),
            ExportFault::Version(258),
        ),
        (b"TCAX\x00\x02\x00\x00\x00".as_slice(), ExportFault::Cut),
        (b"TCAX\x00\x02\x00\x40\x00\x00".as_slice(), ExportFault::Cut),
        (
            b"TCAX\x00\x02\x00\x40\x00\x01".as_slice(),
            ExportFault::Count,
        ),
        (b"TCAX\x00\x01\x00\x40\x00\x00".as_slice(), ExportFault::Cut),
        (
            b"TCAX\x00\x01\x00\x40\x00\x01".as_slice(),
            ExportFault::Count,
        ),
    ] {
        assert!(rt; is_refused(rt.alloc(), octets, fault));
    }
}

// An export of two records, of the version of another one.
fn pair_of(
    alloc: Global,
    other: &[u8],
    first: &[u8],
    second: &[u8],
) -> Result<Vec<u8>, AllocError> {
    let mut octets = Vec::from_slice(alloc, part(other, 0, 6))?;
    octets.extend_from_slice(b"\x00\x00\x00\x02")?;
    octets.extend_from_slice(first)?;
    octets.extend_from_slice(second)?;
    Ok(octets)
}

fn with_end(alloc: Global, octets: &[u8], end: &[u8]) -> Result<Vec<u8>, AllocError> {
    let mut all = Vec::from_slice(alloc, octets)?;
    all.extend_from_slice(end)?;
    Ok(all)
}

// Whether an export is refused where it is cut off there, and where an octet follows it.
fn keeps_its_length(alloc: Global, octets: &[u8], cut: usize) -> bool {
    let Ok(longer) = with_end(alloc, octets, b"\x00") else {
        return false;
    };
    is_refused(alloc, part(octets, 0, cut), ExportFault::Cut)
        && is_refused(alloc, longer.as_slice(), ExportFault::Count)
}

#[test]
fn lengths_are_refused(rt: HostRuntime) {
    assert!(rt; keeps_its_length(rt.alloc(), three_without_sessions(), 84));
    assert!(rt; keeps_its_length(rt.alloc(), one_without_session(), 34));
    assert!(rt; keeps_its_length(rt.alloc(), three_reports(), 96));
    assert!(rt; keeps_its_length(rt.alloc(), three_reports(), 85));
    assert!(rt; keeps_its_length(rt.alloc(), one_report(), 38));
    assert!(rt; keeps_its_length(rt.alloc(), one_report(), 35));
}

fn pair_is_refused(
    alloc: Global,
    other: &[u8],
    first: &[u8],
    second: &[u8],
    fault: ExportFault,
) -> bool {
    let Ok(octets) = pair_of(alloc, other, first, second) else {
        return false;
    };
    is_refused(alloc, octets.as_slice(), fault)
}

// A record of an export whose records have this many octets.
fn record(octets: &[u8], size: usize, number: usize) -> &[u8] {
    let start = size.saturating_mul(number).saturating_add(10);
    part(octets, start, start.saturating_add(size))
}

// The octets without the last five, which are the DSCP and the interface, and a DSCP out of range in their place.
fn with_a_high_code_point(alloc: Global, octets: &[u8]) -> Result<Vec<u8>, AllocError> {
    let end = octets.len().saturating_sub(5);
    with_end(alloc, part(octets, 0, end), b"\x40\x00\x00\x00\x01")
}

// Whether reports are refused whose DSCP is out of range, also one that is below the report before it.
fn refuses_a_code_point(alloc: Global, three: &[u8], size: usize) -> bool {
    let Ok(third) = with_a_high_code_point(alloc, three) else {
        return false;
    };
    let Ok(lower) = with_a_high_code_point(alloc, record(three, size, 0)) else {
        return false;
    };
    let range = ExportFault::Range { n: 1 };
    let both = pair_is_refused(alloc, three, record(three, size, 1), &lower, range);
    both && is_refused(alloc, third.as_slice(), ExportFault::Range { n: 2 })
}

#[test]
fn reports_are_refused(rt: HostRuntime) {
    let order = ExportFault::Order { n: 1 };
    for (three, size) in [(three_without_sessions(), 25), (three_reports(), 29)] {
        let (first, second) = (record(three, size, 0), record(three, size, 1));
        assert!(rt; pair_is_refused(rt.alloc(), three, first, first, order));
        assert!(rt; pair_is_refused(rt.alloc(), three, second, first, order));
        assert!(rt; refuses_a_code_point(rt.alloc(), three, size));
    }
    for (one, size) in [(one_without_session(), 25), (one_report(), 29)] {
        let only = record(one, size, 0);
        assert!(rt; pair_is_refused(rt.alloc(), one, only, only, order));
    }
    let three = three_sessions();
    for (first, second) in [(1, 0), (2, 1), (2, 0)] {
        let (first, second) = (record(three, 29, first), record(three, 29, second));
        assert!(rt; pair_is_refused(rt.alloc(), three, first, second, order));
    }
}

// Takes and gives a few octets at a time. As a writer it takes none once it has taken `room`, and
// as a reader it fails once it has given `room`, where `fails`, or else is at its end.
#[derive(Drop)]
struct Narrow {
    taken: Vec<u8>,
    most: usize,
    room: usize,
    fails: bool,
    calls: u64,
}

impl io::Write for Narrow {
    fn write(&mut self, buf: &[u8]) -> io::Result<usize> {
        self.calls = self.calls.saturating_add(1);
        let n = buf.len().min(self.most).min(self.room);
        self.taken.extend_from_slice(&buf[..n])?;
        self.room -= n;
        Ok(n)
    }

    fn flush(&mut self) -> io::Result<()> {
        Ok(())
    }
}

impl io::Read for Narrow {
    fn read(&mut self, buf: &mut [u8]) -> io::Result<usize> {
        self.calls = self.calls.saturating_add(1);
        let n = buf.len().min(self.most).min(self.room);
        if n == 0 && self.fails {
            return Err(io::Error::from(io::ErrorKind::Other));
        }
        buf[..n].fill(b'a');
        self.room -= n;
        Ok(n)
    }
}

fn make_narrow(alloc: Global, most: usize, room: usize, fails: bool) -> Host<Narrow> {
    Host::new(Narrow {
        taken: Vec::new(alloc),
        most,
        room,
        fails,
        calls: 0,
    })
}

// Whether a writer with too little room, which takes three octets at a time, gets just those that it has room for.
fn fills_its_room(alloc: Global) -> bool {
    let mut out = make_narrow(alloc, 3, 7, false);
    let failed = put_all(b"0123456789", &mut out) == Err(WriteFault { written: 7 });
    let failed_once = out.failures() == 1;
    let device = out.into_inner();
    failed && failed_once && device.taken.as_slice() == b"0123456".as_slice()
}

fn takes_all(alloc: Global) -> bool {
    let mut out = make_narrow(alloc, 3, 10, false);
    let done = put_all(b"0123456789", &mut out).is_ok() && put_all(b"", &mut out).is_ok();
    let never_failed = out.failures() == 0;
    let device = out.into_inner();
    done && never_failed && device.taken.as_slice() == b"0123456789".as_slice()
}

#[test]
fn a_writer_fails_in_mid_stream(rt: HostRuntime) {
    assert!(rt; fills_its_room(rt.alloc()));
    assert!(rt; takes_all(rt.alloc()));
}

// Whether a writer with room for so many octets of an export of so many reports gets just those.
fn is_cut_off(alloc: Global, octets: &[u8], count: usize, most: usize, room: usize) -> bool {
    let Ok(reports) = read_export(alloc, octets) else {
        return false;
    };
    let mut out = make_narrow(alloc, most, room, false);
    let written = room as u64;
    let failed = write_export(reports.as_slice(), &mut out) == Err(WriteFault { written });
    let failed_once = out.failures() == 1;
    let device = out.into_inner();
    let taken = device.taken.as_slice() == part(octets, 0, room);
    reports.len() == count && failed && failed_once && taken
}

#[test]
fn an_export_fails_in_mid_stream(rt: HostRuntime) {
    assert!(rt; is_cut_off(rt.alloc(), three_reports(), 3, 3, 50));
}

// An export of so many reports that one buffer doesn't hold them.
fn long_export(alloc: Global, count: u32) -> Result<Vec<u8>, AllocError> {
    let three = three_reports();
    let mut octets = Vec::from_slice(alloc, b"TCAX\x00\x02")?;
    octets.extend_from_slice(&count.to_be_bytes())?;
    for n in 0..count {
        octets.extend_from_slice(part(three, 10, 26))?;
        octets.extend_from_slice(&n.to_be_bytes())?;
        octets.extend_from_slice(part(three, 30, 39))?;
    }
    Ok(octets)
}

// Whether an export of 9,000 reports goes out in three writes.
fn goes_out_in_three(alloc: Global, octets: &[u8]) -> bool {
    let Ok(reports) = read_export(alloc, octets) else {
        return false;
    };
    let mut out = make_narrow(alloc, 300_000, 300_000, false);
    let done = write_export(reports.as_slice(), &mut out).is_ok();
    let device = out.into_inner();
    let taken = device.taken.as_slice() == octets;
    reports.len() == 9000 && done && device.calls == 3 && taken
}

#[test]
fn a_long_export_goes_out_in_few_writes(rt: HostRuntime) -> Result<(), Fail> {
    let octets = long_export(rt.alloc(), 9000)?;
    assert!(rt; goes_out_in_three(rt.alloc(), &octets));
    Ok(())
}

#[test]
fn a_long_export_is_cut_off(rt: HostRuntime) -> Result<(), Fail> {
    let octets = long_export(rt.alloc(), 3000)?;
    assert!(rt; is_cut_off(rt.alloc(), &octets, 3000, 100_000, 70_001));
    Ok(())
}

// Whether all of these octets are read.
fn reads_all(alloc: Global, octets: &[u8]) -> bool {
    let mut input = Host::new(octets);
    let Ok(read) = read_octets(alloc, &mut input) else {
        return false;
    };
    read.as_slice() == octets && input.into_inner().len() == 0
}

fn reads_to_the_end(alloc: Global) -> bool {
    let mut input = make_narrow(alloc, 3, 7, false);
    let Ok(read) = read_octets(alloc, &mut input) else {
        return false;
    };
    read.as_slice() == b"aaaaaaa".as_slice() && input.failures() == 0
}

// Whether a reader that fails once it was read so many times is refused for that, and not read again.
fn fails_after(alloc: Global, reads: usize) -> bool {
    let mut input = make_narrow(alloc, 3, reads.saturating_mul(3), true);
    let failed = read_octets(alloc, &mut input).err() == Some(ReadFault::Read);
    let failed_once = input.failures() == 1;
    let device = input.into_inner();
    failed && failed_once && device.calls == (reads as u64).saturating_add(1)
}

#[test]
fn readers_are_read_to_their_end(rt: HostRuntime) {
    assert!(rt; reads_all(rt.alloc(), three_reports()));
    assert!(rt; reads_to_the_end(rt.alloc()));
    for reads in 0..8 {
        assert!(rt; fails_after(rt.alloc(), reads), "{reads}");
    }
}

// Whether a reader that gives one octet for ever is stopped.
fn takes_too_many_reads(alloc: Global) -> bool {
    let mut input = make_narrow(alloc, 1, usize::MAX, false);
    let stopped = read_octets(alloc, &mut input).err() == Some(ReadFault::Turns);
    let never_failed = input.failures() == 0;
    let device = input.into_inner();
    let left = usize::MAX - 4_194_304;
    stopped && never_failed && (device.calls, device.room) == (4_194_304, left)
}

// Whether three times 65,536 octets are read by so many calls, and the end by one more.
fn takes_four_reads(alloc: Global) -> bool {
    let mut input = make_narrow(alloc, 1_000_000, 196_608, false);
    let Ok(read) = read_octets(alloc, &mut input) else {
        return false;
    };
    read.len() == 196_608 && input.into_inner().calls == 4
}

#[test]
fn a_reader_may_take_too_many_reads(rt: HostRuntime) {
    assert!(rt; takes_too_many_reads(rt.alloc()));
    assert!(rt; takes_four_reads(rt.alloc()));
}

fn is_written(rt: &HostRuntime, path: Path<'_>) -> bool {
    let Ok(reports) = read_export(rt.alloc(), three_reports()) else {
        return false;
    };
    let Ok(file) = fs::create(rt, path) else {
        return false;
    };
    let mut out = Host::new(file);
    let done = write_export(reports.as_slice(), &mut out).is_ok();
    done && out.failures() == 0
}

fn is_read(rt: &HostRuntime, path: Path<'_>) -> bool {
    let Ok(file) = fs::open(rt, path) else {
        return false;
    };
    let mut input = Host::new(file);
    let Ok(octets) = read_octets(rt.alloc(), &mut input) else {
        return false;
    };
    octets.as_slice() == three_reports()
}

#[test]
fn a_file_is_a_device(rt: HostRuntime) -> Result<(), Fail> {
    let path = env::temp_dir(&rt)?.join(rt.alloc(), "tca_input_tests_a_file_is_a_device")?;
    let written = is_written(&rt, path.as_path());
    let read = is_read(&rt, path.as_path());
    fs::remove_file(&rt, path.as_path())?;
    assert!(rt; written && read);
    Ok(())
}

// The faults of a reader, each with its number and its text.
const READ_FAULTS: [(ReadFault, u8, &'static str); 3] = [
    (ReadFault::Read, 1, "the reader failed"),
    (
        ReadFault::Turns,
        2,
        "the input did not end within 4194304 reads",
    ),
    (ReadFault::Memory, 3, "out of memory"),
];

// The same of an export.
const EXPORT_FAULTS: [(ExportFault, u8, &'static str); 7] = [
    (ExportFault::Magic, 1, "the export does not begin with TCAX"),
    (
        ExportFault::Version(3),
        2,
        "the export has version 3, neither 1 nor 2",
    ),
    (
        ExportFault::Count,
        3,
        "the export counts more than 4194304 reports, or octets follow its last report",
    ),
    (ExportFault::Cut, 4, "the export is cut short"),
    (
        ExportFault::Range { n: 0 },
        5,
        "report 0 has a time, a size or a DSCP out of range",
    ),
    (
        ExportFault::Order { n: 1 },
        6,
        "report 1 is not above the report before it",
    ),
    (ExportFault::Memory, 7, "out of memory"),
];

fn says<F: Display + Drop>(alloc: Global, fault: F, text: &str) -> bool {
    match format!(in alloc; "{fault}") {
        Ok(line) => line.as_str() == text,
        Err(_) => false,
    }
}

#[test]
fn faults_have_texts_and_numbers(rt: HostRuntime) {
    for (fault, number, text) in READ_FAULTS {
        assert!(rt; fault.number() == number && says(rt.alloc(), fault, text));
    }
    for (fault, number, text) in EXPORT_FAULTS {
        assert!(rt; fault.number() == number && says(rt.alloc(), fault, text));
    }
    let fault = WriteFault { written: 7 };
    let text = "the writer failed after 7 octets";
    assert!(rt; fault.number() == 1 && says(rt.alloc(), fault, text));
}

// A device that takes or gives at most 700 octets a call. Each third call is interrupted, and each fifth write takes
// nothing. It counts its own failures.
#[derive(Drop)]
struct Faulty {
    calls: u64,
    failures: u64,
}

impl Faulty {
    fn call(&mut self) -> io::Result<bool> {
        self.calls = self.calls.saturating_add(1);
        if self.calls % 3 == 0 {
            self.failures = self.failures.saturating_add(1);
            return Err(io::Error::from(io::ErrorKind::Interrupted));
        }
        Ok(self.calls % 5 == 0)
    }
}

impl io::Write for Faulty {
    fn write(&mut self, buf: &[u8]) -> io::Result<usize> {
        let takes_nothing = self.call()?;
        if takes_nothing {
            self.failures = self.failures.saturating_add(1);
            return Ok(0);
        }
        Ok(buf.len().min(700))
    }

    fn flush(&mut self) -> io::Result<()> {
        Ok(())
    }
}

impl io::Read for Faulty {
    fn read(&mut self, buf: &mut [u8]) -> io::Result<usize> {
        self.call()?;
        let n = buf.len().min(700);
        buf[..n].fill(b'a');
        Ok(n)
    }
}

#[test]
fn a_host_counts_the_writes_that_fail(rt: HostRuntime) -> Result<(), Fail> {
    let octets = vec![in rt.alloc(); b'a'; 3000]?;
    let mut out = Host::new(Faulty {
        calls: 0,
        failures: 0,
    });
    let mut failed: u64 = 0;
    for length in 0..=3000 {
        match out.write(part(octets.as_slice(), 0, length)) {
            Ok(n) => assert!(rt; n == length.min(700)),
            Err(_) => failed = failed.saturating_add(1),
        }
        assert!(rt; out.failures() == failed, "{length}");
    }
    // A write of nothing isn't given to the device: 1,000 of its 3,000 calls failed, and 400 others took nothing.
    let device = out.into_inner();
    assert!(rt; (device.calls, device.failures, failed) == (3000, 1400, 1400));
    Ok(())
}

#[test]
fn a_host_counts_the_reads_that_fail(rt: HostRuntime) -> Result<(), Fail> {
    let mut input = Host::new(Faulty {
        calls: 0,
        failures: 0,
    });
    let mut failed: u64 = 0;
    for length in 0..=3000 {
        let mut buffer = vec![in rt.alloc(); 0u8; length]?;
        match input.read(buffer.as_mut_slice()) {
            Ok(n) => assert!(rt; n == length.min(700)),
            Err(_) => failed = failed.saturating_add(1),
        }
        assert!(rt; input.failures() == failed, "{length}");
    }
    // 3,001 calls, each third of which failed.
    let device = input.into_inner();
    assert!(rt; (device.calls, device.failures, failed) == (3001, 1000, 1000));
    Ok(())
}
