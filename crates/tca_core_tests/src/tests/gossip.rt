//! Replicas by worked tables, at the limit of a log, and with growths refused; long lists; worlds by worked tables and beside plain
//! lists.
mod acts;
mod at_once;
mod faults;
mod full;
mod memory;
mod outcomes;
mod plain;
mod random;
mod rows;
mod terms;
mod world;

use std::alloc::Global;
use tca_accounts::Plan;
use tca_gossip::{Delta, Replica, Run};
use tca_join::Items;
use tca_report::{Content, Identity, Report};

// The time of the first report of the worked rows.
const START: u64 = 1_700_000_000_000;

const PLAN: &str =
    "period = 3600000\n[[account]]\nname = \"alpha\"\nmeter = \"rfc2697\"\ncir = 1000\ncbs = 2000\nebs = 1000\nkeys = [[7, 1]]\n";

// A report: its place, how many milliseconds after the first it is, its octets.
type Row = (u32, u32, u32);

// A run: its origin, its start, its reports.
type Part = (u32, u32, &'static [Row]);

const FIRST: Row = (0, 0, 1500);

const SECOND: Row = (1, 100, 1000);

const THIRD: Row = (2, 200, 800);

fn report(row: Row) -> Option<Report> {
    let (place, late, octets) = row;
    let identity = Identity {
        domain: 7,
        session: 0,
        place,
    };
    let content = Content {
        time: START + late as u64,
        octets,
        dscp: 0,
        iface: 1,
    };
    Report::new(identity, content)
}

fn reports(alloc: Global, rows: &[Row]) -> Option<Vec<Report>> {
    let mut list = Vec::new(alloc);
    for row in rows {
        let Some(report) = report(*row) else {
            return None;
        };
        if list.push(report).is_err() {
            return None;
        }
    }
    Some(list)
}

// Reports of these places on, each a millisecond after the one before.
fn in_row(alloc: Global, from: u32, count: u32) -> Option<Vec<Report>> {
    let mut list = Vec::new(alloc);
    for i in 0..count {
        let place = from.saturating_add(i);
        let Some(report) = report((place, place, 40)) else {
            return None;
        };
        if list.push(report).is_err() {
            return None;
        }
    }
    Some(list)
}

// The delta of these runs, if there is one, and if there is memory for it.
fn delta(alloc: Global, parts: &[Part]) -> Option<Option<Delta>> {
    let mut runs = Vec::new(alloc);
    for part in parts {
        let (origin, start, rows) = *part;
        let Some(reports) = reports(alloc, rows) else {
            return None;
        };
        let Ok(reports) = Items::of(alloc, reports) else {
            return None;
        };
        let run = Run {
            origin,
            start,
            reports,
        };
        if runs.push(run).is_err() {
            return None;
        }
    }
    Some(Delta::of(runs))
}

// What is done with two replicas that hold nothing.
trait Play {
    // Answers whether it went as it should. None, where memory for its preparation lacked, isn't success either.
    fn play(&self, alloc: Global, one: &mut Replica, two: &mut Replica) -> Option<bool>;
}

fn replica(alloc: Global, name: u32) -> Option<Replica> {
    replica_under(alloc, PLAN, name)
}

fn replica_under(alloc: Global, plan: &str, name: u32) -> Option<Replica> {
    let Ok(plan) = Plan::from_text(alloc, plan.as_bytes()) else {
        return None;
    };
    Replica::new(alloc, name, plan).ok()
}

// Plays with replicas of these names.
fn goes<P: Play>(alloc: Global, names: (u32, u32), play: &P) -> Option<bool> {
    let Some(mut one) = replica(alloc, names.0) else {
        return None;
    };
    let Some(mut two) = replica(alloc, names.1) else {
        return None;
    };
    play.play(alloc, &mut one, &mut two)
}
