//! Bills found in the plainest way: each report is compared with each other one for a dispute, and meters let in single tokens, a
//! millisecond at a time. Beside it the plan that they are for, whose meters change within the time in which their buckets fill, and
//! reports of that time.
ghost use Rattle.std.specs.Prelude.{◌<◌};

use super::meters::slow::{Kind, Slow};
use super::numbers::Numbers;
use std::alloc::{AllocError, Allocator, Global};
use tca_accounts::Bill;
use tca_log::RowsIter;
use tca_meters::{Colour, precolour};
use tca_report::{Content, Identity, Report};

// The time of the first report.
const START: u64 = 1_700_000_000_000;

// A meter: the time from which on it takes packets, its kind, rate and size of its committed and of its second bucket, and whether
// precolours count.
type Begins = (u64, Kind, (u64, u64), (u64, u64), bool);

// An account: its interface of domain 7, the colour of a code point that has none of its own, and its meters, the first from time 0 on.
#[derive(Clone, Copy)]
pub(super) struct Owner {
    iface: u32,
    other: Colour,
    meters: &'static [Begins],
}

// The plan of the owners. Few of its rates divide 1000, so that most tokens come between two milliseconds.
pub(super) const PLAN: &str = "\
period = 100\n\
[[account]]\nname = \"a\"\nmeter = \"rfc2697\"\naware = true\nother = \"yellow\"\ncir = 333\ncbs = 5\nebs = 4\n\
keys = [[7, 1]]\n\
[[account.term]]\nfrom = 1700000000150\nmeter = \"rfc2698\"\npir = 1999\npbs = 9\ncir = 999\ncbs = 6\n\
[[account.term]]\nfrom = 1700000000151\nmeter = \"rfc4115\"\naware = true\nexact_fit = false\ncir = 7\ncbs = 6\n\
eir = 333\nebs = 5\n\
[[account.term]]\nfrom = 1700000000288\nmeter = \"rfc2697\"\ncir = 999\ncbs = 3\nebs = 7\n\
[[account]]\nname = \"b\"\nmeter = \"rfc2698\"\naware = true\npir = 2001\npbs = 7\ncir = 667\ncbs = 7\n\
keys = [[7, 2]]\n\
[[account.term]]\nfrom = 1700000000002\nmeter = \"rfc2697\"\ncir = 7\ncbs = 6\nebs = 5\n\
[[account.term]]\nfrom = 1700000000003\nmeter = \"rfc2697\"\naware = true\ncir = 999\ncbs = 4\nebs = 8\n\
[[account.term]]\nfrom = 1700000000005\nmeter = \"rfc4115\"\nexact_fit = true\ncir = 333\ncbs = 5\neir = 999\n\
ebs = 5\n\
[[account.term]]\nfrom = 1700000000144\nmeter = \"rfc2697\"\ncir = 3\ncbs = 8\nebs = 6\n\
[[account.term]]\nfrom = 1700000000149\nmeter = \"rfc2698\"\npir = 333\npbs = 8\ncir = 7\ncbs = 8\n\
[[account.term]]\nfrom = 1700000000152\nmeter = \"rfc4115\"\naware = true\nexact_fit = true\ncir = 999\ncbs = 4\n\
eir = 7\nebs = 9\n\
[[account.term]]\nfrom = 1700000000286\nmeter = \"rfc2698\"\naware = true\npir = 999\npbs = 6\ncir = 333\ncbs = 6\n\
[[account.term]]\nfrom = 1700000000290\nmeter = \"rfc2697\"\ncir = 333\ncbs = 7\nebs = 7\n\
[[account]]\nname = \"c\"\nmeter = \"rfc4115\"\nexact_fit = false\nother = \"red\"\ncir = 1999\ncbs = 6\neir = 1\n\
ebs = 5\nkeys = [[7, 3]]\n\
[[account.term]]\nfrom = 1\nmeter = \"rfc2697\"\naware = true\ncir = 999\ncbs = 7\nebs = 4\n\
[[account.term]]\nfrom = 281474976710655\nmeter = \"rfc2697\"\ncir = 1\ncbs = 1\nebs = 1\n\
[[account]]\nname = \"d\"\nmeter = \"rfc2698\"\npir = 1001\npbs = 8\ncir = 7\ncbs = 5\nkeys = [[7, 4]]\n";

const ONE: Kind = Kind::Rfc2697;

const BOTH: Kind = Kind::Rfc2698;

const EXACT: Kind = Kind::Rfc4115 { exact_fit: true };

const BELOW: Kind = Kind::Rfc4115 { exact_fit: false };

// Four accounts, of the interfaces 1 to 4: three terms, eight of them, one before all reports and one after, and none.
pub(super) const OWNERS: [Owner; 4] = [
    Owner {
        iface: 1,
        other: Colour::Yellow,
        meters: &[
            (0, ONE, (333, 5), (0, 4), true),
            (START + 150, BOTH, (999, 6), (1999, 9), false),
            (START + 151, BELOW, (7, 6), (333, 5), true),
            (START + 288, ONE, (999, 3), (0, 7), false),
        ],
    },
    Owner {
        iface: 2,
        other: Colour::Green,
        meters: &[
            (0, BOTH, (667, 7), (2001, 7), true),
            (START + 2, ONE, (7, 6), (0, 5), false),
            (START + 3, ONE, (999, 4), (0, 8), true),
            (START + 5, EXACT, (333, 5), (999, 5), false),
            (START + 144, ONE, (3, 8), (0, 6), false),
            (START + 149, BOTH, (7, 8), (333, 8), false),
            (START + 152, EXACT, (999, 4), (7, 9), true),
            (START + 286, BOTH, (333, 6), (999, 6), true),
            (START + 290, ONE, (333, 7), (0, 7), false),
        ],
    },
    Owner {
        iface: 3,
        other: Colour::Red,
        meters: &[
            (0, BELOW, (1999, 6), (1, 5), false),
            (1, ONE, (999, 7), (0, 4), true),
            (281_474_976_710_655, ONE, (1, 1), (0, 1), false),
        ],
    },
    Owner {
        iface: 4,
        other: Colour::Green,
        meters: &[(0, BOTH, (7, 5), (1001, 8), false)],
    },
];

// One of many reports of two sessions with the same places, at starts of terms and within a few milliseconds of them. Interface 5 is
// of no account.
pub(super) fn some_report(numbers: &mut Numbers, places: u32) -> Option<Report> {
    let identity = Identity {
        domain: 7,
        session: numbers.below(2),
        place: numbers.below(places),
    };
    let iface = numbers.below(5).wrapping_add(1);
    Report::new(identity, some_content(numbers, iface))
}

pub(super) fn some_content(numbers: &mut Numbers, iface: u32) -> Content {
    let starts = [0, 141, 147, 284, 331];
    let start = starts.get(numbers.below(5) as usize).copied().unwrap_or(0);
    let points = [0, 10, 12, 14, 46];
    let late = (numbers.below(6) as u64).wrapping_add(start);
    Content {
        time: START.wrapping_add(late),
        octets: numbers.below(8).wrapping_add(1),
        dscp: points.get(numbers.below(5) as usize).copied().unwrap_or(0),
        iface,
    }
}

// The meter that takes packets at a time, with full buckets.
fn begun(owner: &Owner, time: u64) -> Option<Slow> {
    let mut found = None;
    for (start, kind, committed, second, aware) in owner.meters {
        if *start <= time {
            found = Some(Slow::full(*kind, *committed, *second, *aware));
        }
    }
    found
}

fn begins(owner: &Owner, time: u64) -> bool {
    owner.meters.iter().any(|meter| meter.0 == time)
}

// A meter some milliseconds later.
fn waited(owner: &Owner, slow: Slow, from: u64, to: u64) -> Option<Slow> {
    let mut now = slow;
    for time in from..to {
        now.let_in_at(time + 1);
        if begins(owner, time + 1) {
            let Some(full) = begun(owner, time + 1) else {
                return None;
            };
            now = full;
        }
    }
    Some(now)
}

// Octets and packets by colour.
type Sums = ([u64; 3], [u64; 3]);

fn index(colour: Colour) -> usize
    ensures { result < 3 }
{
    match colour {
        Colour::Green => 0,
        Colour::Yellow => 1,
        Colour::Red => 2,
    }
}

fn count((octets, packets): &mut Sums, colour: Colour, size: u32) {
    let n = index(colour);
    octets[n] = octets[n].wrapping_add(size as u64);
    packets[n] = packets[n].wrapping_add(1);
}

// Whether two reports are of the same domain, session and place.
fn are_of_one(one: &Report, other: &Report) -> bool {
    let (one, other) = (one.identity(), other.identity());
    (one.domain, one.session, one.place) == (other.domain, other.session, other.place)
}

// How many of the reports of a list are of the identity of one.
fn contents(list: &[Report], report: &Report) -> usize {
    list.iter()
        .filter(|other| are_of_one(other, report))
        .count()
}

// The reports of a log or a lane, in order.
pub(super) fn listed<A: Allocator + Copy>(
    alloc: Global,
    rows: RowsIter<'_, Report, A>,
) -> Result<Vec<Report>, AllocError> {
    let mut list = Vec::new(alloc);
    for row in rows {
        list.push(*row)?;
    }
    Ok(list)
}

// What the settled reports of an account come to, of a list in order.
pub(super) fn sums(owner: &Owner, list: &[Report]) -> Option<Sums> {
    sums_of(owner, list, false)
}

// The same where all may be known to be settled. Until its first packet both buckets are full.
fn sums_of(owner: &Owner, list: &[Report], are_settled: bool) -> Option<Sums> {
    let mut sums = ([0; 3], [0; 3]);
    let mut last = None;
    for report in list {
        let content = report.content();
        let is_own = content.iface == owner.iface;
        if is_own && (are_settled || contents(list, report) == 1) {
            let time = content.time;
            let mut slow = match last {
                None => begun(owner, time)?,
                Some((from, slow)) => waited(owner, slow, from, time)?,
            };
            let colour = slow.take(content.octets as u64, precolour(content.dscp, owner.other));
            count(&mut sums, colour, content.octets);
            last = Some((time, slow));
        }
    }
    Some(sums)
}

// How many identities have several contents, of a list in order: reports of one identity are counted at the first of them.
fn disputed(list: &[Report]) -> usize {
    let mut disputed: usize = 0;
    for report in list {
        let first = list.iter().find(|other| are_of_one(other, report));
        if first == Some(report) && contents(list, report) > 1 {
            disputed = disputed.saturating_add(1);
        }
    }
    disputed
}

fn unassigned(list: &[Report]) -> usize {
    list.iter()
        .filter(|report| report.content().iface == 5 && contents(list, report) == 1)
        .count()
}

// Whether a bill is that of a list in order.
pub(super) fn is_billed(bill: &Bill, list: &[Report]) -> bool {
    let mut owners = OWNERS.iter();
    for tally in bill.accounts.as_slice() {
        let Some(owner) = owners.next() else {
            return false;
        };
        let total = (tally.total.octets(), tally.total.packets());
        if sums(owner, list) != Some(total) {
            return false;
        }
    }
    let counts = (list.len(), disputed(list), unassigned(list));
    let (reports, disputed) = (bill.reports as usize, bill.disputed as usize);
    owners.next().is_none() && (reports, disputed, bill.unassigned as usize) == counts
}

// The same of a list of which all are of the interfaces of accounts, and none disputes another.
pub(super) fn is_billed_settled(bill: &Bill, list: &[Report]) -> bool {
    let mut owners = OWNERS.iter();
    for tally in bill.accounts.as_slice() {
        let Some(owner) = owners.next() else {
            return false;
        };
        let total = (tally.total.octets(), tally.total.packets());
        if sums_of(owner, list, true) != Some(total) {
            return false;
        }
    }
    let (reports, disputed) = (bill.reports as usize, bill.disputed as usize);
    owners.next().is_none() && (reports, disputed, bill.unassigned as usize) == (list.len(), 0, 0)
}
