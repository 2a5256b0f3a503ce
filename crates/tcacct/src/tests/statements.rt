//! Statements, and amounts that are issued.
ghost use Rattle.std.specs.Prelude.{◌≡◌, length};

use std::alloc::Global;
use std::io;
use std::test::Fail;
use tca_accounts::{Bill, Plan, bill_all};
use tca_log::Log;
use tca_report::{Content, Host, Identity, Report};
use tca_statements::{Amount, IssueFault, Issuer, Statement, render};

// The time of the first report of the worked rows.
const START: u64 = 1_700_000_000_000;

// The period of all of them, of an hour.
const SPAN: u64 = 472_222;

// One account, RFC 2697 blind, with the traffic of one interface.
const PLAN: &[u8] = b"\
period = 3600000\n\
[[account]]\nname = \"alpha\"\nmeter = \"rfc2697\"\ncir = 1000\ncbs = 2000\nebs = 1000\nkeys = [[7, 1]]\n";

const THREE: &str = "\
tcacct statement 1\nperiod 3600000\nreports 3\ndisputed 0\nunassigned 0\naccount alpha\ntotal 1500 1 1000 1 800 1\n\
span 472222 1500 1 1000 1 800 1\nend\n";

const NONE: &str =
    "tcacct statement 1\nperiod 3600000\nreports 0\ndisputed 0\nunassigned 0\naccount alpha\ntotal 0 0 0 0 0 0\nend\n";

// A place, milliseconds after the first, octets, and an interface.
type Row = (u32, u64, u32, u32);

const FIRST: [Row; 3] = [(0, 0, 1500, 1), (1, 100, 1000, 1), (2, 200, 800, 1)];

const LATE: [Row; 4] = [
    (3, 50, 600, 1),
    (2, 200, 800, 1),
    (0, 0, 1500, 1),
    (1, 100, 1000, 1),
];

fn report((place, late, octets, iface): &Row) -> Option<Report> {
    let identity = Identity {
        domain: 7,
        session: 0,
        place: *place,
    };
    let content = Content {
        time: START.wrapping_add(*late),
        octets: *octets,
        dscp: 0,
        iface: *iface,
    };
    Report::new(identity, content)
}

fn adds(log: &mut Log, row: &Row) -> bool {
    match report(row) {
        Some(report) => log.add(report).is_ok(),
        None => false,
    }
}

fn logged(alloc: Global, rows: &[Row]) -> Option<Log> {
    let mut log = Log::new(alloc);
    for row in rows {
        if !adds(&mut log, row) {
            return None;
        }
    }
    Some(log)
}

fn statement(alloc: Global, plan: &Plan, bill: &Bill) -> Option<Statement> {
    if bill.accounts.as_slice().len() != plan.accounts() as usize {
        return None;
    }
    Statement::of(alloc, plan, bill).ok()
}

fn stated_under(alloc: Global, plan: &Plan, log: &Log) -> Option<Statement> {
    let bill = bill_all(alloc, plan, log).ok()?;
    statement(alloc, plan, &bill)
}

fn stated(alloc: Global, log: &Log) -> Option<Statement> {
    let plan = Plan::from_text(alloc, PLAN).ok()?;
    stated_under(alloc, &plan, log)
}

fn has_text(alloc: Global, statement: &Statement, text: &str) -> bool {
    let mut out = Host::new(Vec::new(alloc));
    let is_written = render(statement, &mut out).is_ok();
    let octets = out.into_inner();
    is_written && octets.as_slice() == text.as_bytes()
}

// Whether this is the statement of a log.
fn is_stated(alloc: Global, log: &Log, text: &str) -> Option<bool> {
    let statement = stated(alloc, log)?;
    Some(has_text(alloc, &statement, text))
}

// Whether this is the statement of these reports.
fn states(alloc: Global, rows: &[Row], text: &str) -> Option<bool> {
    let log = logged(alloc, rows)?;
    is_stated(alloc, &log, text)
}

#[test]
fn writes_the_text_of_a_bill(rt: HostRuntime) {
    assert!(rt; THREE.len() == 144);
    assert!(rt; states(rt.alloc(), &FIRST, THREE) == Some(true));
    assert!(rt; states(rt.alloc(), &[], NONE) == Some(true));
}

// Reports of which one is disputed by one other and by two, and those of two hours and of no account, each with its statement.
const LATE_TEXT: &str = "\
tcacct statement 1\nperiod 3600000\nreports 4\ndisputed 0\nunassigned 0\naccount alpha\ntotal 1500 1 600 1 1800 2\n\
span 472222 1500 1 600 1 1800 2\nend\n";

const DISPUTED: [Row; 5] = [
    (0, 0, 1500, 1),
    (3, 60, 601, 1),
    (1, 100, 1000, 1),
    (3, 50, 600, 1),
    (2, 200, 800, 1),
];

const DISPUTED_TEXT: &str = "\
tcacct statement 1\nperiod 3600000\nreports 5\ndisputed 1\nunassigned 0\naccount alpha\ntotal 1500 1 1000 1 800 1\n\
span 472222 1500 1 1000 1 800 1\nend\n";

const TWICE_DISPUTED: [Row; 6] = [
    (0, 0, 1500, 1),
    (3, 60, 601, 1),
    (1, 100, 1000, 1),
    (3, 50, 600, 1),
    (2, 200, 800, 1),
    (3, 70, 602, 1),
];

const TWICE_DISPUTED_TEXT: &str = "\
tcacct statement 1\nperiod 3600000\nreports 6\ndisputed 1\nunassigned 0\naccount alpha\ntotal 1500 1 1000 1 800 1\n\
span 472222 1500 1 1000 1 800 1\nend\n";

const HOURS: [Row; 3] = [
    (0, 2_799_999, 100, 1),
    (1, 2_800_000, 100, 1),
    (2, 0, 50, 2),
];

const HOURS_TEXT: &str = "\
tcacct statement 1\nperiod 3600000\nreports 3\ndisputed 0\nunassigned 1\naccount alpha\ntotal 200 2 0 0 0 0\n\
span 472222 100 1 0 0 0 0\nspan 472223 100 1 0 0 0 0\nend\n";

#[test]
fn states_late_and_disputed_reports(rt: HostRuntime) {
    assert!(rt; states(rt.alloc(), &LATE, LATE_TEXT) == Some(true));
    assert!(rt; states(rt.alloc(), &DISPUTED, DISPUTED_TEXT) == Some(true));
    assert!(rt; states(rt.alloc(), &TWICE_DISPUTED, TWICE_DISPUTED_TEXT) == Some(true));
    assert!(rt; states(rt.alloc(), &HOURS, HOURS_TEXT) == Some(true));
}

// Whether the union with a log that has a report alone is made.
fn unites(alloc: Global, log: &mut Log, report: Report) -> bool {
    let mut alone = Log::new(alloc);
    alone.add(report).is_ok() && log.union(&alone).is_ok()
}

// Adds a report twice, and once more by the union with a log that has it alone.
fn collects(alloc: Global, log: &mut Log, row: &Row) -> bool {
    match report(row) {
        Some(report) => {
            log.add(report).is_ok() && log.add(report).is_ok() && unites(alloc, log, report)
        }
        None => false,
    }
}

// The log that gets reports so, one after another.
fn collected(alloc: Global, rows: &[Row]) -> Option<Log> {
    let mut log = Log::new(alloc);
    for row in rows {
        if !collects(alloc, &mut log, row) {
            return None;
        }
    }
    Some(log)
}

// Whether the statement of the log that gets reports so is that of the three.
fn is_three(alloc: Global, rows: &[Row]) -> Option<bool> {
    let log = collected(alloc, rows)?;
    is_stated(alloc, &log, THREE)
}

#[test]
fn states_one_set_alike_in_each_order(rt: HostRuntime) {
    let [first, second, third] = FIRST;
    for order in [
        [first, second, third],
        [first, third, second],
        [second, first, third],
        [second, third, first],
        [third, first, second],
        [third, second, first],
    ] {
        assert!(rt; is_three(rt.alloc(), &order) == Some(true));
    }
}

// The faults, each with its number and its text.
const FAULTS: [(IssueFault, u8, &str); 3] = [
    (
        IssueFault::NoAccount,
        1,
        "the plan has no account of this number",
    ),
    (
        IssueFault::Period,
        2,
        "no time is in this period: expected one up to (2^48 - 1) divided by the length of a period",
    ),
    (IssueFault::Memory, 3, "out of memory"),
];

fn says(alloc: Global, fault: IssueFault, text: &str) -> bool {
    match format!(in alloc; "{fault}") {
        Ok(said) => said.as_str() == text,
        Err(_) => false,
    }
}

#[test]
fn faults_have_their_numbers_and_texts(rt: HostRuntime) {
    for (fault, number, text) in FAULTS {
        assert!(rt; fault.number() == number && says(rt.alloc(), fault, text));
    }
}

// A writer with room for some octets, which takes one at a time. Then it fails, or takes none.
#[derive(Drop)]
struct Narrow {
    taken: Vec<u8>,
    room: usize,
    fails: bool,
}

impl io::Write for Narrow {
    fn write(&mut self, buf: &[u8]) -> io::Result<usize> {
        if self.fails && self.room == 0 {
            return Err(io::Error::from(io::ErrorKind::Other));
        }
        let n = buf.len().min(1).min(self.room);
        self.taken.extend_from_slice(&buf[..n])?;
        self.room -= n;
        Ok(n)
    }

    fn flush(&mut self) -> io::Result<()> {
        Ok(())
    }
}

// Whether a writer with this room takes so many octets, and is told so.
fn goes_out(alloc: Global, statement: &Statement, room: usize, fails: bool) -> bool {
    let mut out = Host::new(Narrow {
        taken: Vec::new(alloc),
        room,
        fails,
    });
    let told = match render(statement, &mut out) {
        Ok(()) => false,
        Err(fault) => fault.written == room as u64,
    };
    let taken = out.into_inner().taken;
    told && Some(taken.as_slice()) == THREE.as_bytes().get(..room)
}

// Whether that of the three does, cut at each of these places.
fn goes_out_cut(alloc: Global) -> Option<bool> {
    let log = logged(alloc, &FIRST)?;
    let statement = stated(alloc, &log)?;
    let cut = goes_out(alloc, &statement, 14, true) && goes_out(alloc, &statement, 143, true);
    let full = goes_out(alloc, &statement, 14, false) && goes_out(alloc, &statement, 143, false);
    Some(cut && full && goes_out(alloc, &statement, 0, false))
}

#[test]
fn says_how_much_of_a_statement_went_out(rt: HostRuntime) {
    assert!(rt; goes_out_cut(rt.alloc()) == Some(true));
}

// What is issued for the period of the worked rows, once the late report is there, and again.
const AMOUNTS: [Amount; 3] = [
    Amount {
        green: 1500,
        yellow: 1000,
        red: 800,
    },
    Amount {
        green: 0,
        yellow: -400,
        red: 1000,
    },
    NOTHING,
];

const NOTHING: Amount = Amount {
    green: 0,
    yellow: 0,
    red: 0,
};

// Whether an amount is issued behind those before, also where a growth is refused once: then they are as they were, and the same
// call again issues it.
fn issues(issuer: &mut Issuer, bill: &Bill, span: u64, before: &[Amount], wanted: Amount) -> bool
    requires { length bill.now.accounts ≡ issuer.old.accounts }
    ensures { issuer.new.accounts ≡ issuer.old.accounts }
{
    match issuer.issue(bill, 0, span) {
        Ok(amount) => amount == wanted,
        Err(fault) => {
            fault == IssueFault::Memory
                && issuer.issued(0, span) == before
                && issuer.issue(bill, 0, span) == Ok(wanted)
        }
    }
}

fn issues_what_changed(issuer: &mut Issuer, before: &Bill, after: &Bill) -> bool
    requires before { length before.now.accounts ≡ issuer.old.accounts }
    requires after { length after.now.accounts ≡ issuer.old.accounts }
    ensures { issuer.new.accounts ≡ issuer.old.accounts }
{
    issues(issuer, before, SPAN, &[], AMOUNTS[0])
        && issues(issuer, after, SPAN, &AMOUNTS[..1], AMOUNTS[1])
        && issues(issuer, after, SPAN, &AMOUNTS[..2], AMOUNTS[2])
}

// Whether an issue is refused so.
fn refuses(issuer: &mut Issuer, bill: &Bill, account: u32, span: u64, fault: IssueFault) -> bool
    requires { length bill.now.accounts ≡ issuer.old.accounts }
    ensures { issuer.new.accounts ≡ issuer.old.accounts }
{
    issuer.issue(bill, account, span) == Err(fault)
}

// Whether there is no second account, and no period behind the last one.
fn ends_there(issuer: &mut Issuer, bill: &Bill) -> bool
    requires { length bill.now.accounts ≡ issuer.old.accounts }
{
    refuses(issuer, bill, 1, u64::MAX, IssueFault::NoAccount)
        && refuses(issuer, bill, 0, 78_187_494, IssueFault::Period)
        && issues(issuer, bill, 78_187_493, &[], NOTHING)
}

// Whether each step is as it has to be, and the amounts are listed then.
fn issues_all(issuer: &mut Issuer, before: &Bill, after: &Bill) -> bool
    requires before { length before.now.accounts ≡ issuer.old.accounts }
    requires after { length after.now.accounts ≡ issuer.old.accounts }
{
    issuer.issued(0, SPAN).len() == 0
        && issues_what_changed(issuer, before, after)
        && ends_there(issuer, after)
        && issuer.issued(0, SPAN) == AMOUNTS.as_slice()
        && issuer.issued(1, SPAN).len() == 0
}

fn issues_under(alloc: Global, plan: &Plan, before: &Bill, after: &Bill) -> Option<bool> {
    let accounts = plan.accounts() as usize;
    if before.accounts.as_slice().len() != accounts || after.accounts.as_slice().len() != accounts {
        return None;
    }
    let mut issuer = Issuer::new(alloc, plan).ok()?;
    Some(issues_all(&mut issuer, before, after))
}

// Issues one amount after the other for a period.
fn issues_many(issuer: &mut Issuer, bill: &Bill) -> bool
    requires { length bill.now.accounts ≡ issuer.old.accounts }
{
    for _n in 0..70_000 {
        if issuer.issue(bill, 0, SPAN).is_err() {
            return false;
        }
    }
    issuer.issued(0, SPAN).len() == 70_000
}

fn issues_many_under(alloc: Global, plan: &Plan, bill: &Bill) -> Option<bool> {
    if bill.accounts.as_slice().len() != plan.accounts() as usize {
        return None;
    }
    let mut issuer = Issuer::new(alloc, plan).ok()?;
    Some(issues_many(&mut issuer, bill))
}

fn billed(alloc: Global, plan: &Plan, rows: &[Row]) -> Option<Bill> {
    let log = logged(alloc, rows)?;
    bill_all(alloc, plan, &log).ok()
}

// None where what the issues need isn't there.
fn issues_by_bills(alloc: Global) -> Option<bool> {
    let plan = Plan::from_text(alloc, PLAN).ok()?;
    let before = billed(alloc, &plan, &FIRST)?;
    let after = billed(alloc, &plan, &LATE)?;
    issues_under(alloc, &plan, &before, &after)
}

// The test is run with each growth refused in turn.
#[test]
fn issues_what_has_changed(rt: HostRuntime) -> Result<(), Fail> {
    assert!(rt; issues_by_bills(rt.alloc()).ok_or("two bills")?);
    Ok(())
}

// None where what the issues need isn't there.
fn issues_many_by_a_bill(alloc: Global) -> Option<bool> {
    let plan = Plan::from_text(alloc, PLAN).ok()?;
    let bill = billed(alloc, &plan, &FIRST)?;
    issues_many_under(alloc, &plan, &bill)
}

#[test]
fn a_period_may_have_many_amounts(rt: HostRuntime) {
    assert!(rt; issues_many_by_a_bill(rt.alloc()) == Some(true));
}
