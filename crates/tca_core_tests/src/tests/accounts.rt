//! Plans, each fault of a plan in its order, and bills of worked rows.
mod random;

use super::samples::{Arrivals, LATE_ARRIVALS, TERM, TERMED};
use std::alloc::{AllocError, Global};
use std::fmt::Display;
use tca_accounts::{Bill, Key, Plan, PlanFault, bill_all};
use tca_log::Log;
use tca_meters::{Colour, MeterFault, Termed, meter_spec};
use tca_report::{Content, Identity, Report};

// The time of the first report of the worked rows.
const START: u64 = 1_700_000_000_000;

// One account, RFC 2697 blind, with the traffic of one interface.
const PLAN: &str = "\
period = 3600000\n\
[[account]]\nname = \"alpha\"\nmeter = \"rfc2697\"\ncir = 1000\ncbs = 2000\nebs = 1000\nkeys = [[7, 1]]\n";

const HOUR: &str = "period = 3600000\n";

// An account of each kind of meter, without the pairs that it owns.
const SINGLE: &str =
    "[[account]]\nname = \"alpha\"\nmeter = \"rfc2697\"\ncir = 1000\ncbs = 2000\nebs = 1000\n";

const PEAK: &str =
    "[[account]]\nname = \"beta\"\nmeter = \"rfc2698\"\ncir = 1000\ncbs = 1000\npir = 2000\npbs = 2000\n";

const EXCESS: &str = "\
[[account]]\nname = \"gamma\"\nmeter = \"rfc4115\"\nexact_fit = true\ncir = 1000\ncbs = 1000\neir = 1000\nebs = 1000\n";

fn text(alloc: Global, parts: &[&str]) -> Result<String, AllocError> {
    let mut text = String::new(alloc);
    for part in parts {
        text.push_str(part)?;
    }
    Ok(text)
}

// Why these parts together are no plan.
fn refusal(alloc: Global, parts: &[&str]) -> Result<Option<PlanFault>, AllocError> {
    let text = text(alloc, parts)?;
    Ok(Plan::from_text(alloc, text.as_bytes()).err())
}

// Parts that together are no plan, and why.
type Refused = (&'static [&'static str], PlanFault);

fn is_refused(alloc: Global, parts: &[&str], fault: PlanFault) -> bool {
    let Ok(found) = refusal(alloc, parts) else {
        return false;
    };
    found == Some(fault)
}

const KEYS: &str = "keys = [[7, 1]]\n";

// An account of no meter, for it has no burst.
const NONE: &str =
    "[[account]]\nname = \"alpha\"\nmeter = \"rfc2697\"\ncir = 1000\ncbs = 0\nebs = 0\n";

// An account of no meter, for its rate is out of range.
const FAST: &str =
    "[[account]]\nname = \"alpha\"\nmeter = \"rfc2697\"\ncir = 1000000000001\ncbs = 1\nebs = 0\n";

const EACH_KIND: &[&str] = &[
    HOUR,
    SINGLE,
    "aware = true\nother = \"yellow\"\nkeys = [[7, 1], [7, 2]]\n",
    PEAK,
    "other = \"red\"\nkeys = [[8, 1]]\n",
    EXCESS,
    "keys = [[4294967295, 4294967295]]\n",
];

fn has_each_account(plan: &Plan) -> bool {
    plan.period() == 3_600_000
        && plan.accounts() == 3
        && plan.name(1) == "beta"
        && plan.other(0) == Colour::Yellow
        && plan.other(1) == Colour::Red
        && plan.other(2) == Colour::Green
}

fn has_meter(plan: &Plan, account: u32, text: &str) -> bool {
    account < plan.accounts() && meter_spec(text) == Ok(plan.meter(account).first())
}

fn has_each_meter(plan: &Plan) -> bool {
    has_meter(plan, 0, "rfc2697:1000:2000:1000:aware")
        && has_meter(plan, 1, "rfc2698:2000:2000:1000:1000:blind")
        && has_meter(plan, 2, "rfc4115:1000:1000:1000:1000:exact:blind")
}

fn copies_each_kind(alloc: Global, plan: &Plan) -> bool {
    let Ok(copy) = plan.copy(alloc) else {
        return false;
    };
    has_each_account(&copy) && has_each_meter(&copy)
}

fn reads_each_kind(alloc: Global, text: &str) -> bool {
    let Ok(table) = toml::table_from_slice(alloc, text.as_bytes()) else {
        return false;
    };
    let Ok(plan) = Plan::from_table(alloc, &table) else {
        return false;
    };
    copies_each_kind(alloc, &plan)
}

#[test]
fn reads_an_account_of_each_kind(rt: HostRuntime) {
    let Ok(text) = text(rt.alloc(), EACH_KIND) else {
        panic!(rt; "a text");
    };
    assert!(rt; reads_each_kind(rt.alloc(), text.as_str()));
}

const AT_THE_TOP: &[Refused] = &[
    (&["period = "], PlanFault::Syntax),
    (&["colour = 1\nperiod = 0\n"], PlanFault::UnknownKey),
    (&["account = 1\n"], PlanFault::Missing { key: Key::Period }),
    (
        &["period = 0\naccount = 1\n"],
        PlanFault::Wrong { key: Key::Period },
    ),
    (
        &["period = 281474976710656\n"],
        PlanFault::Wrong { key: Key::Period },
    ),
    (&["period = \"1\"\n"], PlanFault::Wrong { key: Key::Period }),
    (
        &["period = 281474976710655\n"],
        PlanFault::Missing { key: Key::Account },
    ),
    (
        &[HOUR, "account = 1\n"],
        PlanFault::Wrong { key: Key::Account },
    ),
    (&[HOUR, "account = []\n"], PlanFault::Limits),
    (
        &[HOUR, "account = [1, {}]\n"],
        PlanFault::Wrong { key: Key::Account },
    ),
];

// Whether 100,000 octets that are no document are refused as such.
fn refuses_a_long_text(alloc: Global) -> bool {
    let Ok(text) = vec![in alloc; b'='; 100_000] else {
        return false;
    };
    Plan::from_text(alloc, &text).err() == Some(PlanFault::Syntax)
}

#[test]
fn refuses_what_stands_at_the_top_in_order(rt: HostRuntime) {
    let alloc = rt.alloc();
    assert!(rt; Plan::from_text(alloc, b"\xff").err() == Some(PlanFault::Syntax));
    assert!(rt; refuses_a_long_text(alloc));
    for (parts, fault) in AT_THE_TOP {
        assert!(rt; is_refused(alloc, *parts, *fault), "{parts:?}");
    }
}

const IN_AN_ACCOUNT: &[Refused] = &[
    (
        &[HOUR, "[[account]]\ncolour = 1\n"],
        PlanFault::Missing { key: Key::Meter },
    ),
    (
        &[HOUR, "[[account]]\nmeter = \"rfc1\"\ncolour = 1\n"],
        PlanFault::Wrong { key: Key::Meter },
    ),
    (&[HOUR, SINGLE, "colour = 1\n"], PlanFault::UnknownKey),
    (
        &[HOUR, SINGLE, "exact_fit = true\n", KEYS],
        PlanFault::UnknownKey,
    ),
    (&[HOUR, PEAK, "ebs = 1\n", KEYS], PlanFault::UnknownKey),
    (
        &[HOUR, "[[account]]\nmeter = \"rfc2697\"\ncir = -1\n"],
        PlanFault::Missing { key: Key::Name },
    ),
    (
        &[HOUR, "[[account]]\nmeter = \"rfc2697\"\nname = \"a b\"\n"],
        PlanFault::Wrong { key: Key::Name },
    ),
    (
        &[HOUR, SINGLE, "aware = 1\nother = 1\n", KEYS],
        PlanFault::Wrong { key: Key::Aware },
    ),
    (
        &[HOUR, SINGLE, "other = \"blue\"\n"],
        PlanFault::Wrong { key: Key::Other },
    ),
    (
        &[
            HOUR,
            "[[account]]\nmeter = \"rfc4115\"\nname = \"a\"\ncir = -1\n",
        ],
        PlanFault::Missing { key: Key::ExactFit },
    ),
    (
        &[
            HOUR,
            "[[account]]\nmeter = \"rfc2697\"\nname = \"a\"\ncir = -1\n",
        ],
        PlanFault::Wrong { key: Key::Cir },
    ),
    (
        &[
            HOUR,
            "[[account]]\nmeter = \"rfc2697\"\nname = \"a\"\ncir = 1\n",
        ],
        PlanFault::Missing { key: Key::Cbs },
    ),
    (
        &[
            HOUR,
            "[[account]]\nmeter = \"rfc2697\"\nname = \"a\"\ncir = 1\ncbs = 1\n",
        ],
        PlanFault::Missing { key: Key::Ebs },
    ),
    (
        &[
            HOUR,
            "[[account]]\nmeter = \"rfc2698\"\nname = \"a\"\ncir = 1\ncbs = 1\n",
        ],
        PlanFault::Missing { key: Key::Pir },
    ),
    (
        &[
            HOUR,
            "[[account]]\nmeter = \"rfc2698\"\nname = \"a\"\ncir = 1\ncbs = 1\npir = 1\n",
        ],
        PlanFault::Missing { key: Key::Pbs },
    ),
    (
        &[
            HOUR,
            "[[account]]\nmeter = \"rfc4115\"\nname = \"a\"\nexact_fit = false\ncir = 1\ncbs = 1\nebs = 1\n",
        ],
        PlanFault::Missing { key: Key::Eir },
    ),
    (&[HOUR, SINGLE], PlanFault::Missing { key: Key::Keys }),
];

#[test]
fn refuses_what_an_account_has_in_order(rt: HostRuntime) {
    for (parts, fault) in IN_AN_ACCOUNT {
        assert!(rt; is_refused(rt.alloc(), *parts, *fault), "{parts:?}");
    }
}

const IN_PAIRS_AND_METERS: &[Refused] = &[
    (
        &[HOUR, NONE, "keys = []\n"],
        PlanFault::Wrong { key: Key::Keys },
    ),
    (
        &[HOUR, NONE, "keys = 7\n"],
        PlanFault::Wrong { key: Key::Keys },
    ),
    (
        &[HOUR, NONE, "keys = [7]\n"],
        PlanFault::Wrong { key: Key::Keys },
    ),
    (
        &[HOUR, NONE, "keys = [[7]]\n"],
        PlanFault::Wrong { key: Key::Keys },
    ),
    (
        &[HOUR, NONE, "keys = [[7, 1, 1]]\n"],
        PlanFault::Wrong { key: Key::Keys },
    ),
    (
        &[HOUR, NONE, "keys = [[7, -1]]\n"],
        PlanFault::Wrong { key: Key::Keys },
    ),
    (
        &[HOUR, NONE, "keys = [[4294967296, 1]]\n"],
        PlanFault::Wrong { key: Key::Keys },
    ),
    (
        &[HOUR, NONE, KEYS],
        PlanFault::Meter {
            account: 0,
            fault: MeterFault::NoBurst,
        },
    ),
    (
        &[HOUR, PEAK, KEYS, NONE, KEYS, SINGLE],
        PlanFault::Meter {
            account: 1,
            fault: MeterFault::NoBurst,
        },
    ),
    (
        &[HOUR, FAST, KEYS],
        PlanFault::Meter {
            account: 0,
            fault: MeterFault::RateRange,
        },
    ),
    (
        &[HOUR, SINGLE, "keys = [[7, 1], [7, 1]]\n"],
        PlanFault::KeyTwice,
    ),
    (&[HOUR, SINGLE, KEYS, PEAK, KEYS], PlanFault::KeyTwice),
    (
        &[HOUR, SINGLE, KEYS, SINGLE, "keys = [[7, 2]]\n"],
        PlanFault::KeyTwice,
    ),
];

fn is_plan(alloc: Global, parts: &[&str]) -> bool {
    let Ok(found) = refusal(alloc, parts) else {
        return false;
    };
    found == None
}

#[test]
fn refuses_pairs_and_meters_in_order(rt: HostRuntime) {
    for (parts, fault) in IN_PAIRS_AND_METERS {
        assert!(rt; is_refused(rt.alloc(), *parts, *fault), "{parts:?}");
    }
    assert!(rt; is_plan(rt.alloc(), &[HOUR, SINGLE, "keys = [[7, 1], [7, 2]]\n"]));
}

// The head of a term, its start, and the rates and sizes of a meter of RFC 2697.
const NEXT: &str = "[[account.term]]\n";

const FROM: &str = "from = 1700000000101\n";

const RATE: &str = "meter = \"rfc2697\"\ncir = 1000\ncbs = 1000\nebs = 1000\n";

const NINE: &str = "term = [1, 2, 3, 4, 5, 6, 7, 8, 9]\n";

// Values of `term` that are no terms, and what comes before them and after them.
const AT_TERMS: &[Refused] = &[
    (&[PLAN, "term = 3\n"], PlanFault::Wrong { key: Key::Term }),
    (&[PLAN, "term = {}\n"], PlanFault::Wrong { key: Key::Term }),
    (&[PLAN, "term = [3]\n"], PlanFault::Wrong { key: Key::Term }),
    (
        &[HOUR, SINGLE, "keys = []\nterm = 3\n"],
        PlanFault::Wrong { key: Key::Keys },
    ),
    (
        &[HOUR, NONE, KEYS, "term = 3\n"],
        PlanFault::Wrong { key: Key::Term },
    ),
    (
        &[HOUR, NONE, KEYS, "term = [3]\n"],
        PlanFault::Meter {
            account: 0,
            fault: MeterFault::NoBurst,
        },
    ),
    (
        &[HOUR, NONE, KEYS, NINE],
        PlanFault::Meter {
            account: 0,
            fault: MeterFault::NoBurst,
        },
    ),
    (&[PLAN, NINE], PlanFault::Limits),
    (
        &[PLAN, "term = [1, 2, 3, 4, 5, 6, 7, 8]\n"],
        PlanFault::Wrong { key: Key::Term },
    ),
    // A term's fault comes before those of the next account, and of all together.
    (
        &[PLAN, "term = [3]\n", NONE, KEYS],
        PlanFault::Wrong { key: Key::Term },
    ),
    (
        &[PLAN, "term = [3]\n", SINGLE, KEYS],
        PlanFault::Wrong { key: Key::Term },
    ),
    (&[PLAN, NEXT, FROM, RATE, SINGLE, KEYS], PlanFault::KeyTwice),
];

// What one term has, in the order in which it is judged.
const IN_A_TERM: &[Refused] = &[
    (
        &[PLAN, NEXT, "from = 0\ncolour = 1\n"],
        PlanFault::Missing { key: Key::Meter },
    ),
    (
        &[PLAN, NEXT, "from = 0\nmeter = \"rfc1\"\ncolour = 1\n"],
        PlanFault::Wrong { key: Key::Meter },
    ),
    (
        &[PLAN, NEXT, "meter = \"rfc2697\"\ncolour = 1\n"],
        PlanFault::UnknownKey,
    ),
    (
        &[PLAN, NEXT, FROM, RATE, "name = \"beta\"\n"],
        PlanFault::UnknownKey,
    ),
    (
        &[PLAN, NEXT, FROM, RATE, "other = \"red\"\n"],
        PlanFault::UnknownKey,
    ),
    (
        &[PLAN, NEXT, FROM, RATE, "keys = [[7, 2]]\n"],
        PlanFault::UnknownKey,
    ),
    (
        &[PLAN, NEXT, FROM, RATE, "term = []\n"],
        PlanFault::UnknownKey,
    ),
    (
        &[PLAN, NEXT, FROM, RATE, "exact_fit = true\n"],
        PlanFault::UnknownKey,
    ),
    (
        &[PLAN, NEXT, "meter = \"rfc2697\"\ncir = -1\n"],
        PlanFault::Missing { key: Key::From },
    ),
    (
        &[PLAN, NEXT, "from = 0\naware = 1\n", RATE],
        PlanFault::Wrong { key: Key::From },
    ),
    (
        &[PLAN, NEXT, "from = \"1\"\n", RATE],
        PlanFault::Wrong { key: Key::From },
    ),
    (
        &[PLAN, NEXT, "from = 281474976710656\n", RATE],
        PlanFault::Wrong { key: Key::From },
    ),
    (
        &[PLAN, NEXT, FROM, "aware = 1\nmeter = \"rfc2697\"\n"],
        PlanFault::Wrong { key: Key::Aware },
    ),
    (
        &[
            PLAN,
            NEXT,
            FROM,
            "meter = \"rfc2697\"\ncbs = -1\nebs = 1000\n",
        ],
        PlanFault::Missing { key: Key::Cir },
    ),
    (
        &[PLAN, NEXT, FROM, "meter = \"rfc2697\"\ncir = 1\ncbs = -1\n"],
        PlanFault::Wrong { key: Key::Cbs },
    ),
    (
        &[PLAN, NEXT, FROM, "meter = \"rfc4115\"\ncir = -1\n"],
        PlanFault::Missing { key: Key::ExactFit },
    ),
    (
        &[
            PLAN,
            NEXT,
            FROM,
            "meter = \"rfc2698\"\npir = 1\npbs = 1\ncir = 1\n",
        ],
        PlanFault::Missing { key: Key::Cbs },
    ),
];

// Terms of no meter, and one after another.
const IN_TERMS: &[Refused] = &[
    (
        &[
            PLAN,
            NEXT,
            FROM,
            "meter = \"rfc2697\"\ncir = 1000\ncbs = 0\nebs = 0\n",
            NEXT,
        ],
        PlanFault::Meter {
            account: 0,
            fault: MeterFault::NoBurst,
        },
    ),
    (
        &[
            PLAN,
            PEAK,
            "keys = [[7, 2]]\n",
            TERM,
            NEXT,
            FROM,
            "meter = \"rfc2698\"\npir = 1\npbs = 1\ncir = 2\ncbs = 1\n",
        ],
        PlanFault::Meter {
            account: 1,
            fault: MeterFault::PeakBelowCommitted,
        },
    ),
    (&[PLAN, TERM, TERM], PlanFault::Wrong { key: Key::From }),
    (
        &[PLAN, NEXT, FROM, RATE, TERM],
        PlanFault::Wrong { key: Key::From },
    ),
    (
        &[
            PLAN,
            TERM,
            NEXT,
            "from = 281474976710655\n",
            RATE,
            NEXT,
            FROM,
            RATE,
        ],
        PlanFault::Wrong { key: Key::From },
    ),
    (
        &[PLAN, TERM, NEXT, "from = 1\ncolour = 1\n", RATE],
        PlanFault::UnknownKey,
    ),
];

#[test]
fn refuses_terms_in_order(rt: HostRuntime) {
    for rows in [AT_TERMS, IN_A_TERM, IN_TERMS] {
        for (parts, fault) in rows {
            assert!(rt; is_refused(rt.alloc(), *parts, *fault), "{parts:?}");
        }
    }
}

// A plan with so many terms.
fn with_terms(alloc: Global, count: u32) -> Result<String, AllocError> {
    let mut plan = String::from_str(alloc, PLAN)?;
    for n in 0..count {
        let from = n.wrapping_add(1);
        let start = format!(in alloc; "[[account.term]]\nfrom = {from}\n")?;
        plan.push_str(&start)?;
        plan.push_str(RATE)?;
    }
    Ok(plan)
}

// Why there is no plan with so many terms.
fn refusal_of_terms(alloc: Global, count: u32) -> Result<Option<PlanFault>, AllocError> {
    let plan = with_terms(alloc, count)?;
    Ok(Plan::from_text(alloc, plan.as_bytes()).err())
}

// Whether the term of this number starts then, with the meter of a text.
fn has_term(meter: &Termed, number: u32, start: u64, text: &str) -> bool {
    if number >= meter.terms() {
        return false;
    }
    let (from, of_term) = meter.term(number);
    from == start && meter_spec(text) == Ok(of_term)
}

// Accounts whose terms have meters of another kind, precolours or fit.
const TERMS_OF_EACH_KIND: &[&str] = &[
    HOUR,
    SINGLE,
    KEYS,
    NEXT,
    "from = 1\nmeter = \"rfc2698\"\naware = true\npir = 4\npbs = 3\ncir = 2\ncbs = 1\n",
    NEXT,
    "from = 281474976710655\nmeter = \"rfc4115\"\nexact_fit = false\ncir = 1\ncbs = 2\neir = 3\nebs = 4\n",
    PEAK,
    "aware = true\nkeys = [[7, 2]]\n",
    NEXT,
    FROM,
    RATE,
    EXCESS,
    "keys = [[7, 3]]\nterm = []\n",
];

fn has_terms_of_each_kind(plan: &Plan) -> bool {
    if plan.accounts() != 3 {
        return false;
    }
    let (first, second) = (plan.meter(0), plan.meter(1));
    (first.terms(), second.terms(), plan.meter(2).terms()) == (2, 1, 0)
        && has_term(&first, 0, 1, "rfc2698:4:3:2:1:aware")
        && has_term(
            &first,
            1,
            281_474_976_710_655,
            "rfc4115:1:2:3:4:below:blind",
        )
        && has_term(
            &second,
            0,
            1_700_000_000_101,
            "rfc2697:1000:1000:1000:blind",
        )
        && has_meter(plan, 0, "rfc2697:1000:2000:1000:blind")
        && has_meter(plan, 1, "rfc2698:2000:2000:1000:1000:aware")
        && has_meter(plan, 2, "rfc4115:1000:1000:1000:1000:exact:blind")
}

fn copies_terms(alloc: Global, text: &str) -> bool {
    let Ok(plan) = Plan::from_text(alloc, text.as_bytes()) else {
        return false;
    };
    let Ok(copy) = plan.copy(alloc) else {
        return false;
    };
    has_terms_of_each_kind(&plan) && has_terms_of_each_kind(&copy)
}

#[test]
fn reads_terms(rt: HostRuntime) {
    let Ok(text) = text(rt.alloc(), TERMS_OF_EACH_KIND) else {
        panic!(rt; "a text");
    };
    assert!(rt; copies_terms(rt.alloc(), text.as_str()));
    for count in [0, 1, 8] {
        assert!(rt; refusal_of_terms(rt.alloc(), count) == Ok(None), "{count}");
    }
    assert!(rt; refusal_of_terms(rt.alloc(), 9) == Ok(Some(PlanFault::Limits)));
}

fn push_head(alloc: Global, text: &mut String, n: u32) -> Result<(), AllocError> {
    let head = format!(in alloc;
        "[[account]]\nname = \"a{n}\"\nmeter = \"rfc2697\"\ncir = 1\ncbs = 1\nebs = 1\nkeys = ["
    )?;
    text.push_str(&head)
}

fn push_pair(alloc: Global, text: &mut String, n: u32, k: u32) -> Result<(), AllocError> {
    let pair = format!(in alloc; "[{n}, {k}],")?;
    text.push_str(&pair)
}

// A plan of so many accounts with so many pairs each, all of them different.
fn wide(alloc: Global, accounts: u32, pairs: u32) -> Result<String, AllocError> {
    let mut text = String::from_str(alloc, HOUR)?;
    for n in 0..accounts {
        push_head(alloc, &mut text, n)?;
        for k in 0..pairs {
            push_pair(alloc, &mut text, n, k)?;
        }
        text.push_str("]\n")?;
    }
    Ok(text)
}

fn report(place: u32, time: u64, octets: u32, iface: u32) -> Option<Report> {
    let identity = Identity {
        domain: 7,
        session: 0,
        place,
    };
    let content = Content {
        time,
        octets,
        dscp: 0,
        iface,
    };
    Report::new(identity, content)
}

// Whether a plan bills a log that has no report.
fn bills_nothing(alloc: Global, plan: &Plan) -> bool {
    match bill_all(alloc, plan, &Log::new(alloc)) {
        Ok(bill) => bill.accounts.as_slice().len() == plan.accounts() as usize,
        Err(_) => false,
    }
}

fn takes_the_most(alloc: Global) -> bool {
    let Some(known) = report(0, START, 1, 15) else {
        return false;
    };
    let Some(unknown) = report(0, START, 1, 16) else {
        return false;
    };
    let Ok(text) = wide(alloc, 256, 16) else {
        return false;
    };
    let Ok(plan) = Plan::from_text(alloc, text.as_bytes()) else {
        return false;
    };
    let found = (plan.account_of(&known), plan.account_of(&unknown));
    plan.accounts() == 256 && found == (Some(7), None) && bills_nothing(alloc, &plan)
}

fn is_too_wide(alloc: Global, accounts: u32, pairs: u32) -> bool {
    let Ok(text) = wide(alloc, accounts, pairs) else {
        return false;
    };
    Plan::from_text(alloc, text.as_bytes()).err() == Some(PlanFault::Limits)
}

#[test]
fn takes_accounts_and_pairs_up_to_their_limits(rt: HostRuntime) {
    assert!(rt; takes_the_most(rt.alloc()));
    assert!(rt; is_too_wide(rt.alloc(), 257, 1));
    assert!(rt; is_too_wide(rt.alloc(), 241, 17));
}

// A place, a time, octets and an interface.
type Seen = (u32, u64, u32, u32);

fn log_of(alloc: Global, rows: &[Seen]) -> Option<Log> {
    let mut log = Log::new(alloc);
    for (place, time, octets, iface) in rows {
        let Some(report) = report(*place, *time, *octets, *iface) else {
            return None;
        };
        if log.add(report).is_err() {
            return None;
        }
    }
    Some(log)
}

fn billed(alloc: Global, rows: &[Seen]) -> Option<Bill> {
    let Some(log) = log_of(alloc, rows) else {
        return None;
    };
    billed_under(alloc, PLAN, &log)
}

fn billed_under(alloc: Global, plan: &str, log: &Log) -> Option<Bill> {
    let Ok(plan) = Plan::from_text(alloc, plan.as_bytes()) else {
        return None;
    };
    bill_all(alloc, &plan, log).ok()
}

// A period, and the octets and packets of each colour in it.
type Row = (u64, [u64; 3], [u64; 3]);

// Whether a bill has one tally, with this total and just these periods.
fn has_one_tally(bill: &Bill, octets: [u64; 3], packets: [u64; 3], rows: &[Row]) -> bool {
    let [tally] = bill.accounts.as_slice() else {
        return false;
    };
    let spans = tally.spans.as_slice();
    tally.total.octets() == octets
        && tally.total.packets() == packets
        && spans.len() == rows.len()
        && spans.iter().zip(rows).all(|(span, row)| (
            span.index,
            span.sums.octets(),
            span.sums.packets(),
        ) == *row)
}

// Whether the bill of these reports has so many reports, disputed identities and reports of no account, and one tally.
fn bills(
    alloc: Global,
    reports: &[Seen],
    counts: (u32, u32, u32),
    (octets, packets): ([u64; 3], [u64; 3]),
    rows: &[Row],
) -> bool {
    let Some(bill) = billed(alloc, reports) else {
        return false;
    };
    let counted = (bill.reports, bill.disputed, bill.unassigned) == counts;
    counted && has_one_tally(&bill, octets, packets, rows)
}

const FIRST: Seen = (0, START, 1500, 1);

const SECOND: Seen = (1, START + 100, 1000, 1);

const THIRD: Seen = (2, START + 200, 800, 1);

const LATE: Seen = (3, START + 50, 600, 1);

const OTHER: Seen = (3, START + 60, 601, 1);

const MORE: Seen = (3, START + 70, 602, 1);

#[test]
fn bills_what_no_other_report_disputes(rt: HostRuntime) {
    let alloc = rt.alloc();
    let total = ([1500, 1000, 800], [1, 1, 1]);
    let rows = [(472_222, [1500, 1000, 800], [1, 1, 1])];
    let late = ([1500, 600, 1800], [1, 1, 2]);
    let late_rows = [(472_222, [1500, 600, 1800], [1, 1, 2])];
    assert!(rt; bills(alloc, &[FIRST, SECOND, THIRD], (3, 0, 0), total, &rows));
    assert!(rt;
        bills(
            alloc,
            &[LATE, THIRD, SECOND, FIRST],
            (4, 0, 0),
            late,
            &late_rows
        )
    );
    let disputed = [FIRST, SECOND, LATE, THIRD, OTHER];
    assert!(rt; bills(alloc, &disputed, (5, 1, 0), total, &rows));
    let disputed = [FIRST, OTHER, LATE, THIRD, MORE, SECOND];
    assert!(rt; bills(alloc, &disputed, (6, 1, 0), total, &rows));
    assert!(rt; bills(alloc, &[], (0, 0, 0), ([0; 3], [0; 3]), &[]));
}

#[test]
fn bills_by_period_and_leaves_out_what_no_account_owns(rt: HostRuntime) {
    let reports = [
        (0, 1_700_002_799_999, 100, 1),
        (1, 1_700_002_800_000, 100, 1),
        (2, START, 50, 2),
    ];
    let (octets, packets) = ([100, 0, 0], [1, 0, 0]);
    let rows = [(472_222, octets, packets), (472_223, octets, packets)];
    let total = ([200, 0, 0], [2, 0, 0]);
    assert!(rt; bills(rt.alloc(), &reports, (3, 0, 1), total, &rows));
}

fn log_of_arrivals(alloc: Global, rows: &[(u32, u32, u32)]) -> Option<Log> {
    let mut log = Log::new(alloc);
    for (place, late, octets) in rows {
        let time = START.wrapping_add(*late as u64);
        let Some(report) = report(*place, time, *octets, 1) else {
            return None;
        };
        if log.add(report).is_err() {
            return None;
        }
    }
    Some(log)
}

// Whether the bill under the plan with a term is as is said.
fn bills_in_a_term(alloc: Global, (rows, octets, packets): Arrivals) -> bool {
    let Some(log) = log_of_arrivals(alloc, rows) else {
        return false;
    };
    let Some(bill) = billed_under(alloc, TERMED, &log) else {
        return false;
    };
    let counted = (bill.reports as usize, bill.disputed, bill.unassigned);
    counted == (rows.len(), 0, 0)
        && has_one_tally(&bill, octets, packets, &[(472_222, octets, packets)])
}

#[test]
fn late_reports_are_metered_in_their_terms(rt: HostRuntime) {
    for arrivals in LATE_ARRIVALS {
        assert!(rt; bills_in_a_term(rt.alloc(), arrivals));
    }
}

fn says<D: Display + Drop>(alloc: Global, value: D, text: &str) -> bool {
    match format!(in alloc; "{value}") {
        Ok(said) => said.as_str() == text,
        Err(_) => false,
    }
}

#[test]
fn faults_have_their_numbers_and_texts(rt: HostRuntime) {
    let key = Key::ExactFit;
    let (account, fault) = (2, MeterFault::NoBurst);
    for (fault, number, text) in [
        (
            PlanFault::Syntax,
            1,
            "the plan is no TOML document in UTF-8",
        ),
        (
            PlanFault::Missing { key },
            2,
            "the key `exact_fit` is missing",
        ),
        (
            PlanFault::Wrong { key },
            3,
            "the value of `exact_fit` has the wrong type or is out of range",
        ),
        (
            PlanFault::UnknownKey,
            4,
            "a key stands where no such key is known",
        ),
        (
            PlanFault::Meter { account, fault },
            5,
            "account 2, counted from 0, has no meter of these parameters: no burst size to meter by: expected one above 0, and for RFC 2698 both",
        ),
        (
            PlanFault::KeyTwice,
            6,
            "a pair of domain and interface, or a name, stands twice",
        ),
        (
            PlanFault::Limits,
            7,
            "the number of accounts, of terms or of pairs is out of range: expected 1 to 256 accounts, each with at most 8 terms, and at most 4096 pairs in all",
        ),
        (PlanFault::Memory, 8, "out of memory"),
    ] {
        assert!(rt; fault.number() == number);
        assert!(rt; says(rt.alloc(), fault, text));
    }
}

#[test]
fn keys_are_printed_as_a_document_has_them(rt: HostRuntime) {
    for (key, name) in [
        (Key::Period, "period"),
        (Key::Account, "account"),
        (Key::Meter, "meter"),
        (Key::Name, "name"),
        (Key::Aware, "aware"),
        (Key::Other, "other"),
        (Key::ExactFit, "exact_fit"),
        (Key::Cir, "cir"),
        (Key::Cbs, "cbs"),
        (Key::Ebs, "ebs"),
        (Key::Pir, "pir"),
        (Key::Pbs, "pbs"),
        (Key::Eir, "eir"),
        (Key::Keys, "keys"),
        (Key::Term, "term"),
        (Key::From, "from"),
    ] {
        assert!(rt; key.name() == name);
        assert!(rt; says(rt.alloc(), key, name));
    }
}
