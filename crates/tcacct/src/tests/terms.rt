//! Plan terms: an account whose meter changes at a millisecond, billed with a late report, by each number of replicas, and audited.
use crate::tests::commands::{EXPORT_OF_THREE, OPENING, PLAN, Row, THREE_REPORTS, export, plain};
use crate::tests::replicated::{Written, billed_plainly, bills_as};
use crate::tests::shell::{enter, gives, writes_three};
use std::alloc::{AllocError, Global};
use std::rt::Files;
use std::sync::Wait;
use std::test::*;
use std::thread::Threads;
use std::{fs, io};
use tca_commands::run_audit;
use tca_program::{Family, RunFault};
use tca_report::{Host, Input};

// From 100 milliseconds after the first report on: the same rate with smaller bursts.
const TERM: &str =
    "[[account.term]]\nfrom = 1700000000100\nmeter = \"rfc2697\"\ncir = 1000\ncbs = 1000\nebs = 1000\n";

// The plan with these tables of terms behind its account.
fn with_terms(alloc: Global, terms: &str) -> Result<String, AllocError> {
    format!(in alloc; "{PLAN}{terms}")
}

// The export of the three reports and, where there is one, a late report in an input of its own, which comes first or last.
fn inputs(alloc: Global, late: Option<Row>, is_first: bool) -> Result<Vec<Input>, AllocError> {
    let mut all = Vec::new(alloc);
    let three = plain(Vec::from_slice(alloc, &EXPORT_OF_THREE)?);
    let Some(row) = late else {
        all.push(three)?;
        return Ok(all);
    };
    let late = plain(export(alloc, &[row])?);
    if is_first {
        all.push(late)?;
        all.push(three)?;
    } else {
        all.push(three)?;
        all.push(late)?;
    }
    Ok(all)
}

// Whether an auditor agrees to a statement of an export, where it is this text.
fn is_agreed(alloc: Global, plan: &str, bill: &Written, text: &str) -> bool {
    let mut out = Host::new(Vec::new(alloc));
    let agrees = run_audit(
        alloc,
        plan.as_bytes(),
        &bill.export,
        &bill.statement,
        &mut out,
    );
    let is_text = bill.statement.as_slice() == text.as_bytes();
    agrees == Ok(true) && is_text && out.into_inner().as_slice() == b"agrees\n".as_slice()
}

// Whether the inputs have this statement under the plan, by one thread and by 1, 2 and 3 replicas, and an auditor agrees to it.
fn states<R: Threads + Wait + Sync>(rt: &R, alloc: Global, inputs: &[Input], lines: &str) -> bool {
    let Ok(plan) = with_terms(alloc, TERM) else {
        return false;
    };
    let Ok(text) = format!(in alloc; "{OPENING}{lines}") else {
        return false;
    };
    let Ok(plainly) = billed_plainly(alloc, plan.as_str(), inputs) else {
        return false;
    };
    let one = bills_as(rt, alloc, plan.as_str(), inputs, (1, 2), &plainly);
    let two = bills_as(rt, alloc, plan.as_str(), inputs, (2, 2), &plainly);
    let three = bills_as(rt, alloc, plan.as_str(), inputs, (3, 1), &plainly);
    one && two && three && is_agreed(alloc, plan.as_str(), &plainly, text.as_str())
}

// The same, with a late report before and behind the others.
fn bills<R: Threads + Wait + Sync>(rt: &R, alloc: Global, late: Option<Row>, lines: &str) -> bool {
    let Ok(last) = inputs(alloc, late, false) else {
        return false;
    };
    let Ok(first) = inputs(alloc, late, true) else {
        return false;
    };
    states(rt, alloc, &last, lines) && states(rt, alloc, &first, lines)
}

const WITHOUT: &str =
    "reports 3\ndisputed 0\nunassigned 0\naccount alpha\ntotal 2500 2 800 1 0 0\nspan 472222 2500 2 800 1 0 0\nend\n";

const BEFORE: &str =
    "reports 4\ndisputed 0\nunassigned 0\naccount alpha\ntotal 2500 2 1400 2 0 0\nspan 472222 2500 2 1400 2 0 0\nend\n";

const FITS: &str =
    "reports 4\ndisputed 0\nunassigned 0\naccount alpha\ntotal 3099 3 800 1 0 0\nspan 472222 3099 3 800 1 0 0\nend\n";

const AT_THE_START: &str =
    "reports 4\ndisputed 0\nunassigned 0\naccount alpha\ntotal 2500 2 600 1 800 1\nspan 472222 2500 2 600 1 800 1\nend\n";

#[test]
fn bills_a_late_report_by_the_meter_of_its_time(rt: HostRuntime) {
    for (late, lines) in [
        (None, WITHOUT),
        (Some((50, 3, 600)), BEFORE),
        (Some((99, 3, 600)), BEFORE),
        (Some((99, 3, 599)), FITS),
        (Some((100, 3, 600)), AT_THE_START),
    ] {
        assert!(rt; bills(&rt, rt.alloc(), late, lines), "{late:?}");
    }
}

// Terms of the plan's meter from these milliseconds on.
fn terms_from(alloc: Global, count: u64) -> Result<String, AllocError> {
    let mut text = String::new(alloc);
    for from in 1..count.saturating_add(1) {
        let term = format!(in alloc;
            "[[account.term]]\nfrom = {from}\nmeter = \"rfc2697\"\ncir = 1000\ncbs = 2000\nebs = 1000\n"
        )?;
        text.push_str(term.as_str())?;
    }
    Ok(text)
}

// The number of the refusal of the plan with these terms.
fn number_of(alloc: Global, terms: &str) -> Option<u8> {
    let Ok(plan) = with_terms(alloc, terms) else {
        return None;
    };
    let Ok(three) = inputs(alloc, None, false) else {
        return None;
    };
    match billed_plainly(alloc, plan.as_str(), &three) {
        Err(
            RunFault {
                input: None,
                family: Family::Plan,
                number,
            },
        ) => Some(number),
        _ => None,
    }
}

// The number of the refusal of the plan with so many terms.
fn number_of_terms(alloc: Global, count: u64) -> Option<u8> {
    match terms_from(alloc, count) {
        Ok(terms) => number_of(alloc, terms.as_str()),
        Err(_) => None,
    }
}

#[test]
fn refuses_terms(rt: HostRuntime) {
    let alloc = rt.alloc();
    for (terms, number) in [
        (
            "[[account.term]]\nmeter = \"rfc2697\"\ncir = 1\ncbs = 1\nebs = 1\n",
            2,
        ),
        ("[[account.term]]\nfrom = 5\ncir = 1\ncbs = 1\nebs = 1\n", 2),
        (
            "[[account.term]]\nfrom = 5\nmeter = \"rfc2697\"\ncbs = 1\nebs = 1\n",
            2,
        ),
        (
            "[[account.term]]\nfrom = 0\nmeter = \"rfc2697\"\ncir = 1\ncbs = 1\nebs = 1\n",
            3,
        ),
        (
            "[[account.term]]\nfrom = 281474976710656\nmeter = \"rfc2697\"\ncir = 1\ncbs = 1\nebs = 1\n",
            3,
        ),
        ("term = 3\n", 3),
        ("term = [3]\n", 3),
        (
            "[[account.term]]\nfrom = 5\nmeter = \"rfc2697\"\ncir = 1\ncbs = 1\nebs = 1\nname = \"b\"\n",
            4,
        ),
        (
            "[[account.term]]\nfrom = 5\nmeter = \"rfc2697\"\ncir = 1\ncbs = 0\nebs = 0\n",
            5,
        ),
    ] {
        assert!(rt; number_of(alloc, terms) == Some(number), "{terms}");
    }
    assert!(rt; number_of_terms(alloc, 8) == None);
    assert!(rt; number_of_terms(alloc, 9) == Some(7));
    assert!(rt; number_of(alloc, "term = []\n") == None);
}

// Makes a plan with a term, one with the same term twice, and the late report.
fn fill(rt: &HostRuntime) -> io::Result<()> {
    fs::write(rt, "terms", with_terms(rt.alloc(), TERM)?.as_str())?;
    fs::write(
        rt,
        "twice",
        format!(in rt.alloc(); "{PLAN}{TERM}{TERM}")?.as_str(),
    )?;
    fs::write(rt, "late", export(rt.alloc(), &[(99, 3, 599)])?.as_slice())
}

// Whether these words give this statement.
fn prints<R: Files + Threads + Wait + Sync + AllocGlobal>(
    rt: &R,
    words: &[&str],
    lines: &str,
) -> bool {
    let Ok(text) = format!(in rt.alloc(); "0|{OPENING}{lines}|") else {
        return false;
    };
    gives(rt, words, text.as_str())
}

// Makes the statement of the three reports and the late one under the plan with a term, and that of the three under the plan without.
fn fill_statements(rt: &HostRuntime) -> io::Result<()> {
    let right = format!(in rt.alloc(); "{OPENING}{FITS}")?;
    fs::write(rt, "right", right.as_str())?;
    let without = format!(in rt.alloc(); "{OPENING}{THREE_REPORTS}")?;
    fs::write(rt, "without", without.as_str())
}

#[test]
fn runs_commands_with_terms(rt: HostRuntime) {
    let Ok(folder) = enter(&rt, "terms") else {
        panic!(rt; "a folder");
    };
    assert!(rt; fill(&rt).is_ok() && fill_statements(&rt).is_ok() && writes_three(&rt));
    let words = ["bill", "--export", "out", "terms", "two", "late", "one"];
    assert!(rt; prints(&rt, &words, FITS));
    let words = ["bill", "--replicas", "3", "terms", "late", "three"];
    assert!(rt; prints(&rt, &words, FITS));
    let lines: [(&[&str], &str); 5] = [
        (&["audit", "terms", "out", "right"], "0|agrees\n|"),
        (&["audit", "plan", "three", "without"], "0|agrees\n|"),
        (
            &["audit", "terms", "three", "without"],
            "1|differs at 88\n|",
        ),
        (&["bill", "twice", "one"], "1||tcacct: twice: plan 3\n"),
        (
            &["audit", "twice", "three", "right"],
            "1||tcacct: twice: plan 3\n",
        ),
    ];
    for (words, ending) in lines {
        assert!(rt; gives(&rt, words, ending), "{words:?}");
    }
    assert!(rt; fs::remove_dir_all(&rt, folder.as_path()).is_ok());
}
