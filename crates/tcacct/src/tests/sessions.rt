//! Two exporters that use one observation domain, each in a session of its own: what is billed, and what the words of inputs open.
use crate::tests::commands::{
    EXPORT_OF_THREE, OPENING, PLAN, SPEC, TEMPLATE_AND_RECORD, THREE_REPORTS,
};
use crate::tests::replicated::{billed_plainly, bills_as};
use crate::tests::shell::{bills_three, enter, gives, holds, holds_three, writes_three};
use std::alloc::{AllocError, Global};
use std::rt::Files;
use std::sync::Wait;
use std::test::*;
use std::thread::Threads;
use std::{fs, io};
use tca_report::Input;

// The message of 1500 octets with 1501 in their place: the same domain, place and time.
fn other_message() -> [u8; 65] {
    let mut octets = TEMPLATE_AND_RECORD;
    octets[59] = 0xdd;
    octets
}

// The first message as an input of a session, or the other one.
fn message(alloc: Global, session: u32, is_other: bool) -> Result<Input, AllocError> {
    let octets = if is_other {
        other_message()
    } else {
        TEMPLATE_AND_RECORD
    };
    Ok(Input {
        session,
        octets: Vec::from_slice(alloc, &octets)?,
    })
}

// The messages as inputs, each with its session and whether it is the other one.
fn messages(alloc: Global, list: &[(u32, bool)]) -> Result<Vec<Input>, AllocError> {
    let mut inputs = Vec::new(alloc);
    for (session, is_other) in list {
        inputs.push(message(alloc, *session, *is_other)?)?;
    }
    Ok(inputs)
}

// Behind the first two lines of a statement.
const FIRST_THEN_OTHER: &str =
    "reports 2\ndisputed 0\nunassigned 0\naccount alpha\ntotal 1500 1 0 0 1501 1\nspan 472222 1500 1 0 0 1501 1\nend\n";

const OTHER_THEN_FIRST: &str =
    "reports 2\ndisputed 0\nunassigned 0\naccount alpha\ntotal 1501 1 0 0 1500 1\nspan 472222 1501 1 0 0 1500 1\nend\n";

const DISPUTED: &str =
    "reports 2\ndisputed 1\nunassigned 0\naccount alpha\ntotal 0 0 0 0 0 0\nend\n";

const ONE: &str =
    "reports 1\ndisputed 0\nunassigned 0\naccount alpha\ntotal 1500 1 0 0 0 0\nspan 472222 1500 1 0 0 0 0\nend\n";

const ONE_BESIDE_A_DISPUTE: &str =
    "reports 3\ndisputed 1\nunassigned 0\naccount alpha\ntotal 1500 1 0 0 0 0\nspan 472222 1500 1 0 0 0 0\nend\n";

// Whether these messages have this statement, by one thread and by 1, 2 and 3 replicas.
fn bills<R: Threads + Wait + Sync>(
    rt: &R,
    alloc: Global,
    list: &[(u32, bool)],
    lines: &str,
) -> bool {
    let Ok(inputs) = messages(alloc, list) else {
        return false;
    };
    let Ok(text) = format!(in alloc; "{OPENING}{lines}") else {
        return false;
    };
    let Ok(plainly) = billed_plainly(alloc, PLAN, &inputs) else {
        return false;
    };
    let stated = plainly.statement.as_slice() == text.as_bytes();
    let one = bills_as(rt, alloc, PLAN, &inputs, (1, 2), &plainly);
    let two = bills_as(rt, alloc, PLAN, &inputs, (2, 2), &plainly);
    let three = bills_as(rt, alloc, PLAN, &inputs, (3, 1), &plainly);
    stated && one && two && three
}

#[test]
fn bills_sessions_apart_and_disputes_within_one(rt: HostRuntime) {
    let cases: [(&[(u32, bool)], &str); 8] = [
        (&[(1, false), (2, true)], FIRST_THEN_OTHER),
        (&[(2, true), (1, false)], FIRST_THEN_OTHER),
        (&[(0, false), (4_294_967_295, true)], FIRST_THEN_OTHER),
        (&[(2, false), (1, true)], OTHER_THEN_FIRST),
        (&[(1, false), (1, true)], DISPUTED),
        (&[(0, false), (0, true)], DISPUTED),
        (&[(1, false), (1, false)], ONE),
        (&[(1, false), (2, false), (1, true)], ONE_BESIDE_A_DISPUTE),
    ];
    for (list, lines) in cases {
        assert!(rt; bills(&rt, rt.alloc(), list, lines), "{list:?}");
    }
}

// The export of the first message in session 1 and of the other one in session 2.
const EXPORT_OF_TWO: [u8; 68] = [
    0x54, 0x43, 0x41, 0x58, 0x00, 0x02, 0x00, 0x00, 0x00, 0x02, 0x00, 0x00, 0x01, 0x8b, 0xcf, 0xe5,
    0x68, 0x00, 0x00, 0x00, 0x00, 0x07, 0x00, 0x00, 0x00, 0x01, 0x00, 0x00, 0x00, 0x05, 0x00, 0x00,
    0x05, 0xdc, 0x0a, 0x00, 0x00, 0x00, 0x01, 0x00, 0x00, 0x01, 0x8b, 0xcf, 0xe5, 0x68, 0x00, 0x00,
    0x00, 0x00, 0x07, 0x00, 0x00, 0x00, 0x02, 0x00, 0x00, 0x00, 0x05, 0x00, 0x00, 0x05, 0xdd, 0x0a,
    0x00, 0x00, 0x00, 0x01,
];

// Makes files of the messages, some with an at sign in their names, in the current folder.
fn fill(rt: &HostRuntime) -> io::Result<()> {
    let first: &[u8] = &TEMPLATE_AND_RECORD;
    let other: &[u8] = &other_message();
    fs::write(rt, "m", first)?;
    fs::write(rt, "2@x", first)?;
    fs::write(rt, "00000000001@x", first)?;
    fs::write(rt, "4294967296@x", first)?;
    fs::write(rt, "a@b", first)?;
    fs::write(rt, "3@", first)?;
    fs::write(rt, "n", other)?;
    fs::write(rt, "x", other)
}

// Whether these two words of inputs give this statement, where replicas are two and where they are three.
fn bills_words<R: Files + Threads + Wait + Sync + AllocGlobal>(
    rt: &R,
    one: &str,
    two: &str,
    lines: &str,
) -> bool {
    let Ok(statement) = format!(in rt.alloc(); "0|{OPENING}{lines}|") else {
        return false;
    };
    let by_two = gives(rt, &["bill", "plan", one, two], statement.as_str());
    let words = ["bill", "--replicas", "3", "plan", one, two];
    by_two && gives(rt, &words, statement.as_str())
}

#[test]
fn opens_what_words_ask_for(rt: HostRuntime) {
    let Ok(folder) = enter(&rt, "words") else {
        panic!(rt; "a folder");
    };
    assert!(rt; fill(&rt).is_ok());
    for (one, two, lines) in [
        ("1@m", "2@n", FIRST_THEN_OTHER),
        ("2@m", "1@n", OTHER_THEN_FIRST),
        ("1@m", "1@n", DISPUTED),
        ("1@m", "1@m", ONE),
        ("m", "n", DISPUTED),
        ("m", "0@n", DISPUTED),
        ("0004@m", "4@n", DISPUTED),
        ("0004@m", "4294967295@n", FIRST_THEN_OTHER),
        // Both are named x, the first behind an at sign.
        ("1@2@x", "2@x", FIRST_THEN_OTHER),
        // Eleven digits are no session, and ten are.
        ("00000000001@x", "0000000001@x", FIRST_THEN_OTHER),
        ("4294967296@x", "4294967295@x", FIRST_THEN_OTHER),
        ("a@b", "1@n", FIRST_THEN_OTHER),
        ("3@", "3@n", FIRST_THEN_OTHER),
        ("./2@x", "2@x", FIRST_THEN_OTHER),
    ] {
        assert!(rt; bills_words(&rt, one, two, lines), "{one} {two}");
    }
    assert!(rt; fs::remove_dir_all(&rt, folder.as_path()).is_ok());
}

#[test]
fn meters_and_combines_sessions(rt: HostRuntime) {
    let Ok(folder) = enter(&rt, "sessions") else {
        panic!(rt; "a folder");
    };
    assert!(rt; fill(&rt).is_ok());
    let lines: [(&[&str], &str); 5] = [
        (
            &["meter", SPEC, "1@m", "2@n"],
            "0|green 1500 1\nyellow 0 0\nred 1501 1\n|",
        ),
        (
            &["meter", SPEC, "1@m", "1@n"],
            "0|green 0 0\nyellow 0 0\nred 0 0\n|",
        ),
        (&["combine", "out", "2@n", "1@m"], "0|reports 2\n|"),
        // An export keeps the sessions that it has, whatever its word says.
        (&["combine", "again", "9@out", "1@m"], "0|reports 2\n|"),
        (
            &["meter", SPEC, "5@again"],
            "0|green 1500 1\nyellow 0 0\nred 1501 1\n|",
        ),
    ];
    for (words, ending) in lines {
        assert!(rt; gives(&rt, words, ending), "{words:?}");
    }
    assert!(rt; holds(&rt, "out", EXPORT_OF_TWO.as_slice()));
    assert!(rt; holds(&rt, "again", EXPORT_OF_TWO.as_slice()));
    assert!(rt; fs::remove_dir_all(&rt, folder.as_path()).is_ok());
}

#[test]
fn prints_the_words_of_inputs_as_given(rt: HostRuntime) {
    let Ok(folder) = enter(&rt, "given") else {
        panic!(rt; "a folder");
    };
    let lines: [(&[&str], &str); 8] = [
        (&["meter", SPEC, "1@none"], "1||tcacct: 1@none: read 1\n"),
        (
            &["meter", SPEC, "one", "0001@cut"],
            "1||tcacct: 0001@cut: export 4\n",
        ),
        (
            &["combine", "out", "1@one", "2@cut"],
            "1||tcacct: 2@cut: export 4\n",
        ),
        (&["bill", "plan", "3@"], "1||tcacct: 3@: read 1\n"),
        (&["bill", "plan", "1@cut"], "1||tcacct: 1@cut: export 4\n"),
        (
            &["bill", "plan", "one", "00000000001@cut"],
            "1||tcacct: 00000000001@cut: read 1\n",
        ),
        (&["bill", "1@plan", "1@one"], "1||tcacct: 1@plan: read 1\n"),
        (&["bill", "other plan", "5@skipped", "one"], NOTED),
    ];
    for (words, ending) in lines {
        assert!(rt; gives(&rt, words, ending), "{words:?}");
    }
    assert!(rt; fs::remove_dir_all(&rt, folder.as_path()).is_ok());
}

const NOTED: &str =
    "0|tcacct statement 1\nperiod 3600000\nreports 1\ndisputed 0\nunassigned 1\naccount gamma\ntotal 0 0 0 0 0 0\nend\n|tcacct: 5@skipped: notes 0 1 1\n";

// Makes files of a plan and of the statement of the three reports, whose names begin as words of inputs do.
fn fill_plain(rt: &HostRuntime, statement: &str) -> io::Result<()> {
    fs::write(rt, "1@p", PLAN)?;
    fs::write(rt, "1@e", EXPORT_OF_THREE.as_slice())?;
    fs::write(rt, "1@s", statement)
}

// Whether they are made.
fn are_plain(rt: &HostRuntime) -> bool {
    match format!(in rt.alloc(); "{OPENING}{THREE_REPORTS}") {
        Ok(statement) => fill_plain(rt, statement.as_str()).is_ok() && writes_three(rt),
        Err(_) => false,
    }
}

#[test]
fn takes_all_words_but_inputs_as_paths(rt: HostRuntime) {
    let Ok(folder) = enter(&rt, "paths") else {
        panic!(rt; "a folder");
    };
    assert!(rt; are_plain(&rt));
    let lines: [(&[&str], &str); 6] = [
        (&["audit", "1@p", "1@e", "1@s"], "0|agrees\n|"),
        (
            &["audit", "1@plan", "1@e", "1@s"],
            "1||tcacct: 1@plan: read 1\n",
        ),
        (
            &["audit", "1@p", "1@three", "1@s"],
            "1||tcacct: 1@three: read 1\n",
        ),
        (
            &["audit", "1@p", "1@e", "1@plan"],
            "1||tcacct: 1@plan: read 1\n",
        ),
        (&["combine", "1@out", "one", "two"], "0|reports 3\n|"),
        // The export's own name is a path, and as the word of an input it would name another file.
        (&["combine", "9@out", "1@e"], "1||tcacct: 1@e: read 1\n"),
    ];
    for (words, ending) in lines {
        assert!(rt; gives(&rt, words, ending), "{words:?}");
    }
    assert!(rt; holds_three(&rt, "1@out"));
    assert!(rt; bills_three(&rt, &["bill", "--export", "2@out", "1@p", "one", "two"]));
    assert!(rt; holds_three(&rt, "2@out"));
    assert!(rt; fs::remove_dir_all(&rt, folder.as_path()).is_ok());
}
