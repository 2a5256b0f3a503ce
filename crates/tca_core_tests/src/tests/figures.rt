//! Statements by their octets, right and wrong ones.
use std::alloc::Global;
use tca_figures::{Figure, Figures, StatementFault, add, read_statement};

// The statement of three packets of one account.
const THREE: &str =
    "tcacct statement 1\nperiod 3600000\nreports 3\ndisputed 0\nunassigned 0\naccount alpha\ntotal 1500 1 1000 1 800 1\nspan 472222 1500 1 1000 1 800 1\nend\n";

// That of none under the same plan.
const NONE: &str =
    "tcacct statement 1\nperiod 3600000\nreports 0\ndisputed 0\nunassigned 0\naccount alpha\ntotal 0 0 0 0 0 0\nend\n";

fn is_written(alloc: Global, figures: &Figures, octets: &str) -> bool {
    match format!(in alloc; "{figures}") {
        Ok(text) => text.as_str() == octets,
        Err(_) => false,
    }
}

// Whether octets are read, and are written again as they were.
fn is_read(alloc: Global, octets: &str) -> bool {
    match read_statement(alloc, octets.as_bytes()) {
        Ok(figures) => is_written(alloc, &figures, octets),
        Err(_) => false,
    }
}

fn is_refused(alloc: Global, octets: &str, fault: StatementFault) -> bool {
    match read_statement(alloc, octets.as_bytes()) {
        Ok(_) => false,
        Err(found) => found == fault,
    }
}

fn is_sum(alloc: Global, first: &str, second: &str, sum: &str) -> bool {
    let Ok(first) = read_statement(alloc, first.as_bytes()) else {
        return false;
    };
    let Ok(second) = read_statement(alloc, second.as_bytes()) else {
        return false;
    };
    match add(alloc, &first, &second) {
        Ok(figures) => is_written(alloc, &figures, sum),
        Err(_) => false,
    }
}

fn has_no_sum(alloc: Global, first: &str, second: &str, fault: StatementFault) -> bool {
    let Ok(first) = read_statement(alloc, first.as_bytes()) else {
        return false;
    };
    let Ok(second) = read_statement(alloc, second.as_bytes()) else {
        return false;
    };
    match add(alloc, &first, &second) {
        Ok(_) => false,
        Err(found) => found == fault,
    }
}

#[test]
fn a_statement_is_read_and_written_again(rt: HostRuntime) {
    assert!(rt; is_read(rt.alloc(), THREE));
    assert!(rt; is_read(rt.alloc(), NONE));
}

#[test]
fn figures_are_those_of_the_lines(rt: HostRuntime) {
    let Ok(figures) = read_statement(rt.alloc(), THREE.as_bytes()) else {
        panic!(rt; "a statement");
    };
    assert!(rt; figures.period() == 3_600_000 && figures.reports() == 3);
    let Some(account) = figures.accounts().first() else {
        panic!(rt; "an account");
    };
    let yellow = Figure {
        octets: 1000,
        packets: 1,
    };
    assert!(rt; account.name() == "alpha" && account.total().yellow == yellow);
}

// Octets that are no statement, and why.
const WRONG: [(&str, StatementFault); 7] = [
    (
        "tcacct statement 1\nperiod 3600000\nreports 3\ndisputed 0\nunassigned 0\naccount alpha\ntotal 1501 1 1000 1 800 1\nspan 472222 1500 1 1000 1 800 1\nend\n",
        StatementFault::Sum { line: 7 },
    ),
    (
        "tcacct statement 1\nperiod 3600000\nreports 3\ndisputed 0\nunassigned 0\naccount alpha\ntotal 1501 1 1000 1 800 1\nspan 472222 1500 1 1000 1 800 1\nend",
        StatementFault::Line { line: 9 },
    ),
    (
        "tcacct statement 1\nperiod 3600000\nreports 03\ndisputed 0\nunassigned 0\n",
        StatementFault::Line { line: 3 },
    ),
    (
        "tcacct statement 1\nperiod 3600000\nreports 3\ndisputed 0\nunassigned 0\naccount alpha\ntotal 0 0 0 0 800 0\nend\n",
        StatementFault::Line { line: 7 },
    ),
    (
        "tcacct statement 1\nperiod 3600000\nreports 3\ndisputed 0\nunassigned 0\naccount alpha\ntotal 0 0 0 0 0 0\naccount alpha\ntotal 0 0 0 0 0 0\nend\n",
        StatementFault::Line { line: 8 },
    ),
    (
        "tcacct statement 1\nperiod 3600000\nreports 3\ndisputed 0\nunassigned 0\naccount alpha\ntotal 2 2 0 0 0 0\nspan 2 1 1 0 0 0 0\nspan 1 1 1 0 0 0 0\nend\n",
        StatementFault::Line { line: 9 },
    ),
    ("", StatementFault::Line { line: 1 }),
];

#[test]
fn octets_that_are_no_statement_are_refused_at_their_line(rt: HostRuntime) {
    for (octets, fault) in WRONG {
        assert!(rt; is_refused(rt.alloc(), octets, fault));
    }
}

#[test]
fn a_statement_of_nothing_adds_nothing(rt: HostRuntime) {
    assert!(rt; is_sum(rt.alloc(), THREE, NONE, THREE));
    assert!(rt; is_sum(rt.alloc(), NONE, THREE, THREE));
}

#[test]
fn periods_of_both_are_added(rt: HostRuntime) {
    let other =
        "tcacct statement 1\nperiod 3600000\nreports 2\ndisputed 1\nunassigned 0\naccount alpha\ntotal 7 2 0 0 0 0\nspan 472221 3 1 0 0 0 0\nspan 472222 4 1 0 0 0 0\nend\n";
    let sum =
        "tcacct statement 1\nperiod 3600000\nreports 5\ndisputed 1\nunassigned 0\naccount alpha\ntotal 1507 3 1000 1 800 1\nspan 472221 3 1 0 0 0 0\nspan 472222 1504 2 1000 1 800 1\nend\n";
    assert!(rt; is_sum(rt.alloc(), THREE, other, sum));
}

#[test]
fn statements_of_other_plans_have_no_sum(rt: HostRuntime) {
    let period =
        "tcacct statement 1\nperiod 3600001\nreports 0\ndisputed 0\nunassigned 0\naccount alpha\ntotal 0 0 0 0 0 0\nend\n";
    let fault = StatementFault::Other { line: 2 };
    assert!(rt; has_no_sum(rt.alloc(), THREE, period, fault));
    let name =
        "tcacct statement 1\nperiod 3600000\nreports 0\ndisputed 0\nunassigned 0\naccount beta\ntotal 0 0 0 0 0 0\nend\n";
    let fault = StatementFault::Other { line: 6 };
    assert!(rt; has_no_sum(rt.alloc(), THREE, name, fault));
    let more =
        "tcacct statement 1\nperiod 3600000\nreports 18446744073709551615\ndisputed 0\nunassigned 0\naccount alpha\ntotal 0 0 0 0 0 0\nend\n";
    assert!(rt; has_no_sum(rt.alloc(), THREE, more, StatementFault::Range));
}

fn says(alloc: Global, fault: StatementFault, text: &str) -> bool {
    match format!(in alloc; "{fault}") {
        Ok(said) => said.as_str() == text,
        Err(_) => false,
    }
}

#[test]
fn faults_have_their_numbers_and_texts(rt: HostRuntime) {
    for (fault, number, text) in [
        (
            StatementFault::Line { line: 9 },
            1,
            "line 9 isn't one that may stand there, or the statement ends too early",
        ),
        (
            StatementFault::Sum { line: 7 },
            2,
            "the total in line 7 isn't the sum of its account's periods",
        ),
        (
            StatementFault::Other { line: 2 },
            3,
            "line 2 tells of another period or account than the statements before",
        ),
        (
            StatementFault::Range,
            4,
            "a sum is above 18446744073709551615",
        ),
        (StatementFault::Memory, 5, "out of memory"),
    ] {
        assert!(rt; fault.number() == number);
        assert!(rt; says(rt.alloc(), fault, text));
    }
}
