//! Audits from outside, by reports whose colours were found by hand, and by statements of the bill.
use std::alloc::{AllocError, Global};
use tca_accounts::{Bill, Key, Plan, PlanFault, bill_all};
use tca_audit::{AuditFault, Verdict, audit, audit_under};
use tca_log::Log;
use tca_report::{Content, ExportFault, Host, Identity, Report};
use tca_statements::{Statement, render};

// The time of the first report.
const START: u64 = 1_700_000_000_000;

// One account, with the traffic of one interface.
const HEAD: &str = "period = 3600000\n[[account]]\nname = \"alpha\"\nkeys = [[7, 1]]\n";

const BLIND: &str = "meter = \"rfc2697\"\ncir = 1000\ncbs = 2000\nebs = 1000\n";

const AWARE: &str = "meter = \"rfc2697\"\naware = true\ncir = 1000\ncbs = 2000\nebs = 1000\n";

const PEAK: &str = "meter = \"rfc2698\"\npir = 2000\npbs = 2000\ncir = 1000\ncbs = 1000\n";

const EXACT: &str =
    "meter = \"rfc4115\"\nexact_fit = true\ncir = 1000\ncbs = 1000\neir = 1000\nebs = 1000\n";

const BELOW: &str =
    "meter = \"rfc4115\"\nexact_fit = false\ncir = 1000\ncbs = 1000\neir = 1000\nebs = 1000\n";

// A term of RFC 2697 with smaller bursts, from the time of the second of the first reports on.
const TERM: &str = "\
[[account.term]]\nfrom = 1700000000100\nmeter = \"rfc2697\"\ncir = 1000\ncbs = 1000\nebs = 1000\n";

// A place, milliseconds after the first report, octets, a code point, and an interface, in domain 7.
type Row = (u32, u64, u32, u8, u32);

const FIRST: [Row; 3] = [
    (0, 0, 1500, 0, 1),
    (1, 100, 1000, 0, 1),
    (2, 200, 800, 0, 1),
];

// The export of these as version 1, which has no sessions.
const FIRST_WITHOUT_SESSIONS: &[u8] = b"\
TCAX\x00\x01\x00\x00\x00\x03\
\x00\x00\x01\x8b\xcf\xe5\x68\x00\x00\x00\x00\x07\x00\x00\x00\x00\x00\x00\x05\xdc\x00\x00\x00\x00\x01\
\x00\x00\x01\x8b\xcf\xe5\x68\x64\x00\x00\x00\x07\x00\x00\x00\x01\x00\x00\x03\xe8\x00\x00\x00\x00\x01\
\x00\x00\x01\x8b\xcf\xe5\x68\xc8\x00\x00\x00\x07\x00\x00\x00\x02\x00\x00\x03\x20\x00\x00\x00\x00\x01";

const THREE: &str = "\
tcacct statement 1\nperiod 3600000\nreports 3\ndisputed 0\nunassigned 0\naccount alpha\ntotal 1500 1 1000 1 800 1\n\
span 472222 1500 1 1000 1 800 1\nend\n";

fn joined(alloc: Global, parts: &[&str]) -> Result<String, AllocError> {
    let mut text = String::new(alloc);
    for part in parts {
        text.push_str(part)?;
    }
    Ok(text)
}

// Appends a report to the octets of an export.
fn push_report(report: &Report, into: &mut Vec<u8>) -> Result<(), AllocError> {
    let (identity, content) = (report.identity(), report.content());
    let time = content.time.to_be_bytes();
    let domain = identity.domain.to_be_bytes();
    let session = identity.session.to_be_bytes();
    let place = identity.place.to_be_bytes();
    let octets = content.octets.to_be_bytes();
    let iface = content.iface.to_be_bytes();
    let parts = [
        time.as_slice(),
        domain.as_slice(),
        session.as_slice(),
        place.as_slice(),
        octets.as_slice(),
        &[content.dscp],
        iface.as_slice(),
    ];
    for part in parts {
        into.extend_from_slice(part)?;
    }
    Ok(())
}

// The header of an export of so many reports.
fn header(alloc: Global, count: usize) -> Result<Vec<u8>, AllocError> {
    let mut octets = Vec::from_slice(alloc, b"TCAX\x00\x02")?;
    octets.extend_from_slice(&(count.min(4_194_304) as u32).to_be_bytes())?;
    Ok(octets)
}

// The export of these rows, which are in the order of reports.
fn exported(alloc: Global, rows: &[Row]) -> Option<Vec<u8>> {
    let Ok(mut octets) = header(alloc, rows.len()) else {
        return None;
    };
    for row in rows {
        let Some(report) = report(row) else {
            return None;
        };
        if push_report(&report, &mut octets).is_err() {
            return None;
        }
    }
    Some(octets)
}

// What the audit of a statement finds.
fn audited(alloc: Global, plan: &[u8], rows: &[Row], statement: &[u8]) -> Option<Verdict> {
    let Some(export) = exported(alloc, rows) else {
        return None;
    };
    audit(alloc, plan, &export, statement).ok()
}

// What that of a statement with these lines finds, under a plan of one account with this meter.
fn found(alloc: Global, meter: &str, rows: &[Row], lines: &str) -> Option<Verdict> {
    let Ok(plan) = joined(alloc, &[HEAD, meter]) else {
        return None;
    };
    let parts = ["tcacct statement 1\nperiod 3600000\n", lines, "end\n"];
    let Ok(statement) = joined(alloc, &parts) else {
        return None;
    };
    audited(alloc, plan.as_bytes(), rows, statement.as_bytes())
}

// What that of a statement of the first rows finds, under the plan whose meter is blind.
fn found_blind(alloc: Global, statement: &[u8]) -> Option<Verdict> {
    let Ok(plan) = joined(alloc, &[HEAD, BLIND]) else {
        return None;
    };
    audited(alloc, plan.as_bytes(), &FIRST, statement)
}

#[test]
fn tells_where_a_statement_differs(rt: HostRuntime) {
    let alloc = rt.alloc();
    let right = THREE.as_bytes();
    assert!(rt; found_blind(alloc, right) == Some(Verdict::Agrees));
    let other = "\
tcacct statement 1\nperiod 3600000\nreports 3\ndisputed 0\nunassigned 0\naccount alpha\ntotal 1501 1 1000 1 800 1\n\
span 472222 1500 1 1000 1 800 1\nend\n";
    let verdict = found_blind(alloc, other.as_bytes());
    assert!(rt; verdict == Some(Verdict::Differs { at: 91 }));
    let Some(cut) = right.get(..143) else {
        panic!(rt; "144 octets");
    };
    assert!(rt; found_blind(alloc, cut) == Some(Verdict::Differs { at: 143 }));
    assert!(rt; found_blind(alloc, b"") == Some(Verdict::Differs { at: 0 }));
    let Ok(longer) = joined(alloc, &[THREE, "\n"]) else {
        panic!(rt; "a text");
    };
    let verdict = found_blind(alloc, longer.as_bytes());
    assert!(rt; verdict == Some(Verdict::Differs { at: 144 }));
}

// Why the audit of the right statement is refused where the last octet of the export is cut off.
fn refused_cut(alloc: Global, plan: &[u8], export: &[u8]) -> Option<AuditFault> {
    let cut = export.get(..export.len().saturating_sub(1)).unwrap_or(b"");
    audit(alloc, plan, cut, THREE.as_bytes()).err()
}

#[test]
fn refuses_the_plan_before_the_export(rt: HostRuntime) {
    let alloc = rt.alloc();
    let Ok(plan) = joined(alloc, &[HEAD, BLIND]) else {
        panic!(rt; "a plan");
    };
    let Some(export) = exported(alloc, &FIRST) else {
        panic!(rt; "an export");
    };
    let wrong = PlanFault::Wrong { key: Key::Period };
    for export in [export.as_slice(), FIRST_WITHOUT_SESSIONS] {
        let verdict = audit(alloc, plan.as_bytes(), export, THREE.as_bytes());
        assert!(rt; verdict == Ok(Verdict::Agrees));
        let refused = refused_cut(alloc, plan.as_bytes(), export);
        assert!(rt; refused == Some(AuditFault::Export(ExportFault::Cut)));
        let refused = refused_cut(alloc, b"period = 0\n", export);
        assert!(rt; refused == Some(AuditFault::Plan(wrong)));
    }
}

#[test]
fn agrees_with_late_and_disputed_reports(rt: HostRuntime) {
    let alloc = rt.alloc();
    let late = [FIRST[0], (3, 50, 600, 0, 1), FIRST[1], FIRST[2]];
    let lines = "\
reports 4\ndisputed 0\nunassigned 0\naccount alpha\ntotal 1500 1 600 1 1800 2\nspan 472222 1500 1 600 1 1800 2\n";
    assert!(rt; found(alloc, BLIND, &late, lines) == Some(Verdict::Agrees));
    let two = [
        FIRST[0],
        (3, 50, 600, 0, 1),
        (3, 60, 601, 0, 1),
        FIRST[1],
        FIRST[2],
    ];
    let lines = "\
reports 5\ndisputed 1\nunassigned 0\naccount alpha\ntotal 1500 1 1000 1 800 1\nspan 472222 1500 1 1000 1 800 1\n";
    assert!(rt; found(alloc, BLIND, &two, lines) == Some(Verdict::Agrees));
    let three = [
        FIRST[0],
        (3, 50, 600, 0, 1),
        (3, 60, 601, 0, 1),
        (3, 70, 602, 0, 1),
        FIRST[1],
        FIRST[2],
    ];
    let lines = "\
reports 6\ndisputed 1\nunassigned 0\naccount alpha\ntotal 1500 1 1000 1 800 1\nspan 472222 1500 1 1000 1 800 1\n";
    assert!(rt; found(alloc, BLIND, &three, lines) == Some(Verdict::Agrees));
    let hours = [
        (2, 0, 50, 0, 2),
        (0, 2_799_999, 100, 0, 1),
        (1, 2_800_000, 100, 0, 1),
    ];
    let lines = "\
reports 3\ndisputed 0\nunassigned 1\naccount alpha\ntotal 200 2 0 0 0 0\nspan 472222 100 1 0 0 0 0\n\
span 472223 100 1 0 0 0 0\n";
    assert!(rt; found(alloc, BLIND, &hours, lines) == Some(Verdict::Agrees));
}

// Whether the audit agrees with the statement that has these lines where the first reports and a late one are metered with a term,
// and the statement of their bill has just its octets.
fn agrees_in_a_term(alloc: Global, rows: &[Row], lines: &str) -> bool {
    let Ok(plan) = joined(alloc, &[HEAD, BLIND, TERM]) else {
        return false;
    };
    let parts = ["tcacct statement 1\nperiod 3600000\n", lines, "end\n"];
    let Ok(statement) = joined(alloc, &parts) else {
        return false;
    };
    let verdict = audited(alloc, plan.as_bytes(), rows, statement.as_bytes());
    verdict == Some(Verdict::Agrees) && is_stated(alloc, plan.as_bytes(), rows, &statement)
}

fn is_stated(alloc: Global, plan: &[u8], rows: &[Row], statement: &str) -> bool {
    let Ok(plan) = Plan::from_text(alloc, plan) else {
        return false;
    };
    let Some(log) = log_of(alloc, rows) else {
        return false;
    };
    match stated(alloc, &plan, &log) {
        Some(found) => found.as_slice() == statement.as_bytes(),
        None => false,
    }
}

fn log_of(alloc: Global, rows: &[Row]) -> Option<Log> {
    let mut log = Log::new(alloc);
    for row in rows {
        let Some(report) = report(row) else {
            return None;
        };
        if log.add(report).is_err() {
            return None;
        }
    }
    Some(log)
}

// The first reports, with one more at its place among them, and the lines of their statement.
const IN_A_TERM: [(&[Row], &str); 5] = [
    (
        &FIRST,
        "reports 3\ndisputed 0\nunassigned 0\naccount alpha\ntotal 2500 2 800 1 0 0\nspan 472222 2500 2 800 1 0 0\n",
    ),
    (
        &[
            (0, 0, 1500, 0, 1),
            (3, 50, 600, 0, 1),
            (1, 100, 1000, 0, 1),
            (2, 200, 800, 0, 1),
        ],
        "reports 4\ndisputed 0\nunassigned 0\naccount alpha\ntotal 2500 2 1400 2 0 0\nspan 472222 2500 2 1400 2 0 0\n",
    ),
    (
        &[
            (0, 0, 1500, 0, 1),
            (3, 99, 600, 0, 1),
            (1, 100, 1000, 0, 1),
            (2, 200, 800, 0, 1),
        ],
        "reports 4\ndisputed 0\nunassigned 0\naccount alpha\ntotal 2500 2 1400 2 0 0\nspan 472222 2500 2 1400 2 0 0\n",
    ),
    (
        &[
            (0, 0, 1500, 0, 1),
            (3, 99, 599, 0, 1),
            (1, 100, 1000, 0, 1),
            (2, 200, 800, 0, 1),
        ],
        "reports 4\ndisputed 0\nunassigned 0\naccount alpha\ntotal 3099 3 800 1 0 0\nspan 472222 3099 3 800 1 0 0\n",
    ),
    (
        &[
            (0, 0, 1500, 0, 1),
            (1, 100, 1000, 0, 1),
            (3, 100, 600, 0, 1),
            (2, 200, 800, 0, 1),
        ],
        "\
reports 4\ndisputed 0\nunassigned 0\naccount alpha\ntotal 2500 2 600 1 800 1\nspan 472222 2500 2 600 1 800 1\n",
    ),
];

#[test]
fn agrees_with_late_reports_in_a_term(rt: HostRuntime) {
    for (rows, lines) in IN_A_TERM {
        assert!(rt; agrees_in_a_term(rt.alloc(), rows, lines));
    }
}

#[test]
fn agrees_with_each_meter(rt: HostRuntime) {
    let alloc = rt.alloc();
    let same = [(0, 0, 1000, 0, 1), (1, 0, 1000, 0, 1), (2, 0, 1000, 0, 1)];
    let lines = "\
reports 3\ndisputed 0\nunassigned 0\naccount alpha\ntotal 1000 1 1000 1 1000 1\nspan 472222 1000 1 1000 1 1000 1\n";
    assert!(rt; found(alloc, EXACT, &same, lines) == Some(Verdict::Agrees));
    let lines =
        "reports 3\ndisputed 0\nunassigned 0\naccount alpha\ntotal 0 0 0 0 3000 3\nspan 472222 0 0 0 0 3000 3\n";
    assert!(rt; found(alloc, BELOW, &same, lines) == Some(Verdict::Agrees));
    let peak = [(0, 0, 1500, 0, 1), (1, 0, 500, 0, 1), (2, 1, 3, 0, 1)];
    let lines =
        "reports 3\ndisputed 0\nunassigned 0\naccount alpha\ntotal 500 1 1500 1 3 1\nspan 472222 500 1 1500 1 3 1\n";
    assert!(rt; found(alloc, PEAK, &peak, lines) == Some(Verdict::Agrees));
    let lines =
        "reports 1\ndisputed 0\nunassigned 0\naccount alpha\ntotal 0 0 0 0 100 1\nspan 472222 0 0 0 0 100 1\n";
    assert!(rt; found(alloc, AWARE, &[(0, 0, 100, 14, 1)], lines) == Some(Verdict::Agrees));
    let lines =
        "reports 1\ndisputed 0\nunassigned 0\naccount alpha\ntotal 0 0 1000 1 0 0\nspan 472222 0 0 1000 1 0 0\n";
    assert!(rt; found(alloc, AWARE, &[(0, 0, 1000, 12, 1)], lines) == Some(Verdict::Agrees));
    let lines =
        "reports 1\ndisputed 0\nunassigned 0\naccount alpha\ntotal 2000 1 0 0 0 0\nspan 472222 2000 1 0 0 0 0\n";
    assert!(rt; found(alloc, AWARE, &[(0, 0, 2000, 46, 1)], lines) == Some(Verdict::Agrees));
}

// Three accounts, one with each kind of meter. Interface 4 has none.
const SEVERAL: &str = "\
period = 700\n\
[[account]]\nname = \"a\"\nmeter = \"rfc2697\"\naware = true\nother = \"yellow\"\ncir = 1700\ncbs = 900\nebs = 700\n\
keys = [[7, 1]]\n\
[[account]]\nname = \"b\"\nmeter = \"rfc2698\"\naware = true\npir = 2900\npbs = 1500\ncir = 1300\ncbs = 1100\n\
keys = [[7, 2]]\n\
[[account]]\nname = \"c\"\nmeter = \"rfc4115\"\nexact_fit = false\ncir = 333\ncbs = 1200\neir = 1000000000000\n\
ebs = 800\nkeys = [[7, 3]]\n";

// Numbers that follow one another by a fixed rule.
#[derive(Drop)]
struct Numbers {
    state: u64,
}

impl Numbers {
    // The next one, below a bound.
    fn below(&mut self, bound: u32) -> u32 {
        self.state = self
            .state
            .wrapping_mul(6_364_136_223_846_793_005)
            .wrapping_add(1_442_695_040_888_963_407);
        let high = (self.state >> 33) as u32;
        if bound == 0 { 0 } else { high % bound }
    }

    fn code_point(&mut self) -> u8 {
        let points = [0, 10, 12, 14, 46];
        points.get(self.below(5) as usize).copied().unwrap_or(0)
    }

    fn row(&mut self) -> Row {
        let place = self.below(6);
        let late = self.below(3000) as u64;
        let octets = self.below(1200).wrapping_add(1);
        let dscp = self.code_point();
        let iface = self.below(4).wrapping_add(1);
        (place, late, octets, dscp, iface)
    }

    // One at a start of terms, or within a few milliseconds of it. Interface 5 is of no account.
    fn row_in_terms(&mut self) -> Row {
        let starts = [0, 141, 147, 284, 331];
        let start = starts.get(self.below(5) as usize).copied().unwrap_or(0);
        let place = self.below(40);
        let late = (self.below(6) as u64).wrapping_add(start);
        let octets = self.below(8).wrapping_add(1);
        let dscp = self.code_point();
        let iface = self.below(5).wrapping_add(1);
        (place, late, octets, dscp, iface)
    }
}

fn report(row: &Row) -> Option<Report> {
    report_in(0, row)
}

fn report_in(session: u32, row: &Row) -> Option<Report> {
    let (place, late, octets, dscp, iface) = *row;
    let identity = Identity {
        domain: 7,
        session,
        place,
    };
    let content = Content {
        time: START.wrapping_add(late),
        octets,
        dscp,
        iface,
    };
    Report::new(identity, content)
}

// A log of some reports of two sessions that have the same places.
fn logged(alloc: Global, numbers: &mut Numbers, in_terms: bool) -> Option<Log> {
    let mut log = Log::new(alloc);
    for _ in 0..numbers.below(if in_terms { 40 } else { 14 }) {
        let session = numbers.below(2);
        let row = if in_terms {
            numbers.row_in_terms()
        } else {
            numbers.row()
        };
        let Some(report) = report_in(session, &row) else {
            return None;
        };
        if log.add(report).is_err() {
            return None;
        }
    }
    Some(log)
}

// The export of a log.
fn exported_log(alloc: Global, log: &Log) -> Result<Vec<u8>, AllocError> {
    let mut octets = header(alloc, log.len() as usize)?;
    for report in log.reports() {
        push_report(report, &mut octets)?;
    }
    Ok(octets)
}

fn text(alloc: Global, statement: &Statement) -> Option<Vec<u8>> {
    let mut out = Host::new(Vec::new(alloc));
    if render(statement, &mut out).is_err() {
        return None;
    }
    Some(out.into_inner())
}

// The statement of a log.
fn stated(alloc: Global, plan: &Plan, log: &Log) -> Option<Vec<u8>> {
    let Ok(bill) = bill_all(alloc, plan, log) else {
        return None;
    };
    stated_of(alloc, plan, &bill)
}

fn stated_of(alloc: Global, plan: &Plan, bill: &Bill) -> Option<Vec<u8>> {
    if bill.accounts.as_slice().len() != plan.accounts() as usize {
        return None;
    }
    let Ok(statement) = Statement::of(alloc, plan, bill) else {
        return None;
    };
    text(alloc, &statement)
}

// Whether the audit of a statement agrees, and tells the place of one octet that is then changed in it.
fn tells_a_change(
    alloc: Global,
    plan: &Plan,
    export: &[u8],
    statement: &mut Vec<u8>,
    at: usize,
) -> bool {
    let Ok(right) = audit_under(alloc, plan, export, statement) else {
        return false;
    };
    if let Some(octet) = statement.get_mut(at) {
        *octet ^= 1;
    }
    let Ok(changed) = audit_under(alloc, plan, export, statement) else {
        return false;
    };
    right == Verdict::Agrees && changed == Verdict::Differs { at: at as u64 }
}

// The same of the statement of the bill of some reports.
fn agrees(alloc: Global, plan: &Plan, numbers: &mut Numbers, in_terms: bool) -> bool {
    let Some(log) = logged(alloc, numbers, in_terms) else {
        return false;
    };
    agrees_of(alloc, plan, &log, numbers)
}

fn agrees_of(alloc: Global, plan: &Plan, log: &Log, numbers: &mut Numbers) -> bool {
    let Ok(export) = exported_log(alloc, log) else {
        return false;
    };
    let Some(mut statement) = stated(alloc, plan, log) else {
        return false;
    };
    let at = numbers.below(statement.len().min(4_194_304) as u32) as usize;
    tells_a_change(alloc, plan, &export, &mut statement, at)
}

#[test]
fn agrees_with_the_bill(rt: HostRuntime) {
    let alloc = rt.alloc();
    let Ok(plan) = Plan::from_text(alloc, SEVERAL.as_bytes()) else {
        panic!(rt; "a plan");
    };
    let mut numbers = Numbers { state: 1 };
    for _ in 0..2_000 {
        assert!(rt; agrees(alloc, &plan, &mut numbers, false));
    }
}

// Four accounts, of the interfaces 1 to 4: three terms, eight of them, one before all reports and one after, and none. Few of the rates
// divide 1000, so that most tokens come between two milliseconds.
const IN_TERMS: &str = "\
period = 100\n\
[[account]]\nname = \"a\"\nmeter = \"rfc2697\"\naware = true\nother = \"yellow\"\ncir = 333\ncbs = 5\nebs = 4\n\
keys = [[7, 1]]\n\
[[account.term]]\nfrom = 1700000000150\nmeter = \"rfc2698\"\npir = 1999\npbs = 9\ncir = 999\ncbs = 6\n\
[[account.term]]\nfrom = 1700000000151\nmeter = \"rfc4115\"\naware = true\nexact_fit = false\ncir = 7\ncbs = 6\n\
eir = 333\nebs = 5\n\
[[account.term]]\nfrom = 1700000000288\nmeter = \"rfc2697\"\ncir = 999\ncbs = 3\nebs = 7\n\
[[account]]\nname = \"b\"\nmeter = \"rfc2698\"\naware = true\npir = 2001\npbs = 7\ncir = 667\ncbs = 7\n\
keys = [[7, 2]]\n\
[[account.term]]\nfrom = 1700000000002\nmeter = \"rfc2697\"\ncir = 7\ncbs = 6\nebs = 5\n\
[[account.term]]\nfrom = 1700000000003\nmeter = \"rfc2697\"\naware = true\ncir = 999\ncbs = 4\nebs = 8\n\
[[account.term]]\nfrom = 1700000000005\nmeter = \"rfc4115\"\nexact_fit = true\ncir = 333\ncbs = 5\neir = 999\n\
ebs = 5\n\
[[account.term]]\nfrom = 1700000000144\nmeter = \"rfc2697\"\ncir = 3\ncbs = 8\nebs = 6\n\
[[account.term]]\nfrom = 1700000000149\nmeter = \"rfc2698\"\npir = 333\npbs = 8\ncir = 7\ncbs = 8\n\
[[account.term]]\nfrom = 1700000000152\nmeter = \"rfc4115\"\naware = true\nexact_fit = true\ncir = 999\ncbs = 4\n\
eir = 7\nebs = 9\n\
[[account.term]]\nfrom = 1700000000286\nmeter = \"rfc2698\"\naware = true\npir = 999\npbs = 6\ncir = 333\ncbs = 6\n\
[[account.term]]\nfrom = 1700000000290\nmeter = \"rfc2697\"\ncir = 333\ncbs = 7\nebs = 7\n\
[[account]]\nname = \"c\"\nmeter = \"rfc4115\"\nexact_fit = false\nother = \"red\"\ncir = 1999\ncbs = 6\neir = 1\n\
ebs = 5\nkeys = [[7, 3]]\n\
[[account.term]]\nfrom = 1\nmeter = \"rfc2697\"\naware = true\ncir = 999\ncbs = 7\nebs = 4\n\
[[account.term]]\nfrom = 281474976710655\nmeter = \"rfc2697\"\ncir = 1\ncbs = 1\nebs = 1\n\
[[account]]\nname = \"d\"\nmeter = \"rfc2698\"\npir = 1001\npbs = 8\ncir = 7\ncbs = 5\nkeys = [[7, 4]]\n";

#[test]
fn agrees_with_the_bill_in_terms(rt: HostRuntime) {
    let alloc = rt.alloc();
    let Ok(plan) = Plan::from_text(alloc, IN_TERMS.as_bytes()) else {
        panic!(rt; "a plan");
    };
    let mut numbers = Numbers { state: 16 };
    for list in 0..1_000 {
        assert!(rt; agrees(alloc, &plan, &mut numbers, true), "list {list}");
    }
}

fn says(alloc: Global, fault: AuditFault, text: &str) -> bool {
    match format!(in alloc; "{fault}") {
        Ok(said) => said.as_str() == text,
        Err(_) => false,
    }
}

#[test]
fn faults_have_their_numbers_and_texts(rt: HostRuntime) {
    for (fault, number, text) in [
        (
            AuditFault::Plan(PlanFault::KeyTwice),
            1,
            "the plan is refused: a pair of domain and interface, or a name, stands twice",
        ),
        (
            AuditFault::Export(ExportFault::Magic),
            2,
            "the log export is refused: the export does not begin with TCAX",
        ),
        (AuditFault::Memory, 3, "out of memory"),
    ] {
        assert!(rt; fault.number() == number);
        assert!(rt; says(rt.alloc(), fault, text));
    }
}
