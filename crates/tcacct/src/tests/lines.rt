use std::alloc::Global;
use std::test::*;
use tca_commands::{Line, read_line};
use tca_program::LineFault;

#[test]
fn reads_lines(rt: HostRuntime) {
    let words = ["tcacct", "meter", "s", "a"];
    match read_line(rt.alloc(), words.as_slice()) {
        Ok(Line::Meter { spec, inputs }) => {
            assert!(rt; spec == "s");
            assert!(rt; inputs.as_slice() == ["a"].as_slice());
        }
        _ => panic!(rt; "no meter line"),
    }
    let words = ["tcacct", "combine", "o", "a", "b"];
    match read_line(rt.alloc(), words.as_slice()) {
        Ok(Line::Combine { out, inputs }) => {
            assert!(rt; out == "o");
            assert!(rt; inputs.as_slice() == ["a", "b"].as_slice());
        }
        _ => panic!(rt; "no combine line"),
    }
    let words = [
        "tcacct",
        "bill",
        "--replicas",
        "3",
        "--export",
        "o",
        "p",
        "a",
        "b",
    ];
    match read_line(rt.alloc(), words.as_slice()) {
        Ok(
            Line::Bill {
                replicas,
                workers,
                export,
                plan,
                inputs,
            },
        ) => {
            assert!(rt; (replicas, workers) == (3, 2));
            assert!(rt; export == Some("o"));
            assert!(rt; plan == "p");
            assert!(rt; inputs.as_slice() == ["a", "b"].as_slice());
        }
        _ => panic!(rt; "no bill line"),
    }
    let words = ["tcacct", "audit", "p", "e", "s"];
    match read_line(rt.alloc(), words.as_slice()) {
        Ok(
            Line::Audit {
                plan,
                export,
                statement,
            },
        ) => {
            assert!(rt; plan == "p");
            assert!(rt; export == "e");
            assert!(rt; statement == "s");
        }
        _ => panic!(rt; "no audit line"),
    }
}

// The text of a wrong command line.
fn usage(alloc: Global, words: &[&str]) -> Option<String> {
    match read_line(alloc, words) {
        Err(LineFault::Usage { text }) => Some(text),
        _ => None,
    }
}

// The text of a command line that asks for help.
fn help(alloc: Global, words: &[&str]) -> Option<String> {
    match read_line(alloc, words) {
        Err(LineFault::Help { text }) => Some(text),
        _ => None,
    }
}

#[test]
fn refuses_wrong_lines(rt: HostRuntime) {
    let lines: [(&[&str], &str); 11] = [
        (&[], "Usage: tcacct"),
        (&["tcacct"], "Usage: tcacct"),
        (&["tcacct", "check", "p", "e", "s"], "'check'"),
        (&["tcacct", "meter", "s"], "<INPUT>"),
        (&["tcacct", "meter", "s", "a", "b", "c"], "'c'"),
        (&["tcacct", "combine", "o"], "<INPUT>"),
        (&["tcacct", "bill", "p"], "<INPUT>"),
        (
            &["tcacct", "bill", "--workers", "65", "p", "a"],
            "'--workers <N>'",
        ),
        (
            &["tcacct", "bill", "--replicas", "0", "p", "a"],
            "'--replicas <N>'",
        ),
        (
            &["tcacct", "bill", "--export", "o", "--export", "o", "p", "a"],
            "'--export <OUT>'",
        ),
        (
            &["tcacct", "bill", "p", "a", "--export"],
            "'--export <OUT>'",
        ),
    ];
    for (words, part) in lines {
        let Some(text) = usage(rt.alloc(), words) else {
            panic!(rt; "no usage");
        };
        assert!(rt; text.as_str().contains(part), "{words:?}: {text}");
    }
}

// Whether each line of a text has fewer than 100 octets.
fn has_short_lines(text: &str) -> bool {
    for line in text.lines() {
        if line.len() >= 100 {
            return false;
        }
    }
    !text.is_empty()
}

// Words that ask for help, and what its text has to contain.
const HELP: [(&[&str], &str); 16] = [
    (&["tcacct", "--help"], "Usage: tcacct <COMMAND>"),
    (&["tcacct", "-h"], "Usage: tcacct <COMMAND>"),
    (&["tcacct", "help"], "Usage: tcacct <COMMAND>"),
    (
        &["tcacct", "help", "meter"],
        "Usage: tcacct meter <SPEC> <INPUT>",
    ),
    (
        &["tcacct", "meter", "--help"],
        "Usage: tcacct meter <SPEC> <INPUT>",
    ),
    (
        &["tcacct", "bill", "--help"],
        "Usage: tcacct bill [OPTIONS] <PLAN> <INPUT>",
    ),
    (
        &["tcacct", "combine", "--help"],
        "Usage: tcacct combine <OUT> <INPUT>",
    ),
    (
        &["tcacct", "audit", "--help"],
        "Usage: tcacct audit <PLAN> <EXPORT> <STATEMENT>",
    ),
    (
        &["tcacct", "meter", "--help"],
        "one or two files of reports, each PATH or N@PATH",
    ),
    (
        &["tcacct", "meter", "--help"],
        "N@PATH for the file at PATH as a capture of session N",
    ),
    (
        &["tcacct", "combine", "--help"],
        "files of reports, each PATH or N@PATH",
    ),
    (&["tcacct", "combine", "--help"], "N@PATH one of session N"),
    (
        &["tcacct", "combine", "--help"],
        "`tcacct combine OUT OLD` writes one anew",
    ),
    (
        &["tcacct", "bill", "--help"],
        "1 to 256 files of reports, each PATH or N@PATH",
    ),
    (&["tcacct", "bill", "--help"], "N@PATH one of session N"),
    (
        &["tcacct", "bill", "--help"],
        "each [[account.term]] has its",
    ),
];

#[test]
fn gives_help(rt: HostRuntime) {
    for (words, part) in HELP {
        let Some(text) = help(rt.alloc(), words) else {
            panic!(rt; "no help");
        };
        assert!(rt; text.as_str().contains(part), "{words:?}: {text}");
        assert!(rt; has_short_lines(text.as_str()), "{words:?}: {text}");
    }
}
