//! Each module tries what it is named as: worked rows, exchanges, jobs and gates of workers, sessions, threads, limits, and growths that are refused
//! (`memory`, `jobs_memory`). Beside them stands what several of them read: two jobs that wait for each other (`meeting`), and here rows and what is said of them.
ghost use Rattle.std.specs.Prelude.{◌≡◌};

mod exchanges;
mod gates;
mod jobs;
mod jobs_memory;
mod limits;
mod meeting;
mod memory;
mod rows;
mod sessions;
mod threads;

use std::alloc::{AllocError, Global};
use std::sync::Wait;
use tca_accounts::{Bill, Plan, PlanFault};
use tca_gossip::Replica;
use tca_ingest::{Closed, Entry, Pass, Shared, Side};
use tca_report::{Content, Host, Identity, Input, Report};
use tca_statements::{Statement, render};

// The time of the first report of the worked rows.
const START: u64 = 1_700_000_000_000;

const PLAN: &str =
    "period = 3600000\n[[account]]\nname = \"alpha\"\nmeter = \"rfc2697\"\ncir = 1000\ncbs = 2000\nebs = 1000\nkeys = [[7, 1]]\n";

// Place, milliseconds after the first, octets.
const FIRST: (u32, u32, u32) = (0, 0, 1500);

const SECOND: (u32, u32, u32) = (1, 100, 1000);

const THIRD: (u32, u32, u32) = (2, 200, 800);

// The statement of the three rows.
const STATEMENT: &str =
    "tcacct statement 1\nperiod 3600000\nreports 3\ndisputed 0\nunassigned 0\naccount alpha\ntotal 1500 1 1000 1 800 1\nspan 472222 1500 1 1000 1 800 1\nend\n";

// One message: a template, and one record of 1500 octets at the start, place 5, code point 10.
const TEMPLATE_AND_RECORD: [u8; 65] = [
    0x00, 0x0a, 0x00, 0x41, 0x65, 0x53, 0xf1, 0x00, 0x00, 0x00, 0x00, 0x05, 0x00, 0x00, 0x00, 0x07,
    0x00, 0x02, 0x00, 0x18, 0x01, 0x00, 0x00, 0x04, 0x01, 0x43, 0x00, 0x08, 0x00, 0xe0, 0x00, 0x08,
    0x00, 0xc3, 0x00, 0x01, 0x00, 0x0a, 0x00, 0x04, 0x01, 0x00, 0x00, 0x19, 0x00, 0x00, 0x01, 0x8b,
    0xcf, 0xe5, 0x68, 0x00, 0x00, 0x00, 0x00, 0x00, 0x00, 0x00, 0x05, 0xdc, 0x0a, 0x00, 0x00, 0x00,
    0x01,
];

// The parts of a ledger: one for each pass, and one that stays.
const PARTS: u64 = 65537;

// The report of a row in a session.
fn report_of(session: u32, row: (u32, u32, u32)) -> Option<Report> {
    let (place, late, octets) = row;
    Report::new(
        Identity {
            domain: 7,
            session,
            place,
        },
        Content {
            time: START.wrapping_add(late as u64),
            octets,
            dscp: 0,
            iface: 1,
        },
    )
}

// An input of session 0.
fn plain(octets: Vec<u8>) -> Input {
    Input { session: 0, octets }
}

fn reports(alloc: Global, rows: &[(u32, u32, u32)]) -> Option<Vec<Report>> {
    let mut list = Vec::new(alloc);
    for row in rows {
        let Some(report) = report_of(0, *row) else {
            return None;
        };
        if list.push(report).is_err() {
            return None;
        }
    }
    Some(list)
}

fn plan(alloc: Global) -> Result<Plan, PlanFault> {
    Plan::from_text(alloc, PLAN.as_bytes())
}

// Whether a bill has the octets and the counts of the first three rows.
fn is_of_three(bill: &Bill) -> bool {
    let octets = match bill.accounts.as_slice().first() {
        Some(tally) => tally.total.octets(),
        None => [0; 3],
    };
    (octets, bill.reports, bill.disputed) == ([1500, 1000, 800], 3, 0)
}

// Whether a bill is stated by these octets.
fn is_stated(alloc: Global, bill: &Bill, text: &str) -> bool {
    let Ok(plan) = plan(alloc) else {
        return false;
    };
    if bill.accounts.as_slice().len() != plan.accounts() as usize {
        return false;
    }
    let Ok(statement) = Statement::of(alloc, &plan, bill) else {
        return false;
    };
    let mut out = Host::new(Vec::new(alloc));
    let is_written = render(&statement, &mut out).is_ok();
    is_written && out.into_inner().as_slice() == text.as_bytes()
}

// Whether a replica's log has just these reports, in their order.
fn has_list(replica: &Replica, list: &[Report]) -> bool {
    let mut left = replica.log().reports();
    for report in list {
        if left.next() != Some(report) {
            return false;
        }
    }
    left.next().is_none()
}

// Whether a replica's log has just these rows, in their order.
fn has_rows(alloc: Global, replica: &Replica, rows: &[(u32, u32, u32)]) -> bool {
    match reports(alloc, rows) {
        Some(list) => has_list(replica, &list),
        None => false,
    }
}

// Whether a replica has just the three rows, and their statement.
fn has_three(alloc: Global, replica: &Replica) -> bool {
    let Ok(bill) = replica.totals() else {
        return false;
    };
    has_rows(alloc, replica, &[FIRST, SECOND, THIRD]) && is_stated(alloc, &bill, STATEMENT)
}

// Whether an entry is the bill of the first three rows.
fn states_three(alloc: Global, entry: &Entry) -> bool {
    match entry {
        Entry::Answered { bill, .. } => is_of_three(bill) && is_stated(alloc, bill, STATEMENT),
        _ => false,
    }
}

// How many reports the entry of a take has, where the take went to its end.
fn whole(entry: &Entry) -> Option<usize> {
    match entry {
        Entry::Took {
            reports,
            stop: None,
            ..
        } => Some(reports.len()),
        _ => None,
    }
}

// Takes reports, and answers the front, where all of them are held then.
fn take<L: Side, R: Wait>(
    rt: &R,
    alloc: Global,
    shared: &Shared<L>,
    pass: &mut Pass<L>,
    rows: &[(u32, u32, u32)],
) -> Option<u64> {
    let Some(list) = reports(alloc, rows) else {
        return None;
    };
    let Ok(receipt) = shared.take(rt, pass, &list) else {
        return None;
    };
    if whole(&receipt.entry) == Some(list.len()) {
        Some(receipt.front)
    } else {
        None
    }
}

// Whether so many passes were made: the next one has the number that follows theirs.
fn has_made<L: Side, R: Wait>(rt: &R, shared: &Shared<L>, passes: usize) -> bool {
    match shared.pass(rt) {
        Ok(pass) => pass.number() as usize == passes,
        Err(_) => false,
    }
}

// One pass, to be given back.
fn alone<L: Side>(alloc: Global, pass: Pass<L>) -> Result<Vec<Pass<L>>, AllocError> {
    let mut passes = Vec::new(alloc);
    passes.push(pass)?;
    Ok(passes)
}

// Passes, with one more.
fn with_one_more<L: Side>(passes: Vec<Pass<L>>, pass: Pass<L>) -> Result<Vec<Pass<L>>, AllocError> {
    let mut all = passes;
    all.push(pass)?;
    Ok(all)
}

// What comes of a close that isn't refused.
fn closed_with<L: Side>(shared: Shared<L>, passes: Vec<Pass<L>>) -> Option<Closed> {
    shared.close(passes).ok()
}

// The lengths of the journal and of the log, where a close isn't refused.
fn lengths<L: Side>(shared: Shared<L>, passes: Vec<Pass<L>>) -> Option<(usize, u32)> {
    let closed = shared.close(passes).ok()?;
    Some((closed.journal.len(), closed.replica.log().len()))
}
