use crate::tests::commands::{
    EXAMPLE_CAPTURE, EXPORT_OF_THREE, FIRST, Full, OLD_EXPORT_OF_THREE, OPENING, PLAN, SECOND,
    SPEC, TEMPLATE_AND_RECORD, THIRD, THREE_LINES, THREE_REPORTS, export, old_export,
};
use std::alloc::{AllocError, Global};
use std::env::{Env, FillError};
use std::path::PathBuf;
use std::rt::Files;
use std::sync::Wait;
use std::test::*;
use std::thread::Threads;
use std::{env, fs, io, process};
use tca_commands::{NAME, run};
use tca_program::{Ending, LineFault, end, words_of};
use tca_report::Host;

// Makes a new folder the current one, each test being a process of its own, with three reports in two
// exports, one of version 1 and one of version 2, a file that is cut short, captures with a set of an unknown template and with a set that is
// skipped too, a plan, and a text that is none.
pub(super) fn enter(rt: &HostRuntime, name: &str) -> io::Result<PathBuf> {
    let id = process::id(rt.process());
    let folder = format!(in rt.alloc(); "tcacct_{name}_{id}")?;
    let path = env::temp_dir(rt)?.join(rt.alloc(), folder.as_str())?;
    let _gone = fs::remove_dir_all(rt, path.as_path());
    fs::create_dir(rt, path.as_path())?;
    env::set_current_dir(rt, path.as_path())?;
    fill(rt)?;
    Ok(path)
}

// Makes those files in the current folder.
fn fill(rt: &HostRuntime) -> io::Result<()> {
    fs::write(rt, "one", old_export(rt.alloc(), &[FIRST])?.as_slice())?;
    fs::write(rt, "two", export(rt.alloc(), &[SECOND, THIRD])?.as_slice())?;
    fs::write(rt, "cut", b"TCAX\x00\x01\x00\x00\x00".as_slice())?;
    fs::write(rt, "unknown", EXAMPLE_CAPTURE.as_slice())?;
    let mut skipped = TEMPLATE_AND_RECORD;
    skipped[17] = 4;
    fs::write(rt, "skipped", skipped.as_slice())?;
    fs::write(rt, "empty", "")?;
    fs::write(rt, "plan", PLAN)?;
    fs::write(rt, "other plan", OTHER_PLAN)?;
    fs::write(rt, "bad", "period = 0\n")
}

// Runs these words behind the program's name. Gives the exit status, what is printed, and what goes to
// standard error, with a bar between.
fn ran<R: Files + Threads + Wait + Sync + AllocGlobal>(rt: &R, words: &[&str]) -> Option<String> {
    let mut line = Vec::new(rt.alloc());
    if line.push("tcacct").is_err() || line.extend_from_slice(words).is_err() {
        return None;
    }
    let mut out = Host::new(Vec::new(rt.alloc()));
    let mut errors = Vec::new(rt.alloc());
    let status = run(rt, &line, &mut out, &mut errors);
    let Ok(printed) = String::from_utf8(out.into_inner()) else {
        return None;
    };
    let Ok(errors) = String::from_utf8(errors) else {
        return None;
    };
    format!(in rt.alloc(); "{status}|{printed}|{errors}").ok()
}

// Whether these words give this.
pub(super) fn gives<R: Files + Threads + Wait + Sync + AllocGlobal>(
    rt: &R,
    words: &[&str],
    ending: &str,
) -> bool {
    match ran(rt, words) {
        Some(text) => text.as_str() == ending,
        None => false,
    }
}

// Whether these words give the statement of the three reports.
pub(super) fn bills_three<R: Files + Threads + Wait + Sync + AllocGlobal>(
    rt: &R,
    words: &[&str],
) -> bool {
    let Ok(statement) = format!(in rt.alloc(); "0|{OPENING}{THREE_REPORTS}|") else {
        return false;
    };
    gives(rt, words, statement.as_str())
}

// Whether these words give the lines of the three reports.
fn meters_three<R: Files + Threads + Wait + Sync + AllocGlobal>(rt: &R, words: &[&str]) -> bool {
    let Ok(metered) = format!(in rt.alloc(); "0|{THREE_LINES}|") else {
        return false;
    };
    gives(rt, words, metered.as_str())
}

// Whether a file has these octets.
pub(super) fn holds(rt: &HostRuntime, name: &str, octets: &[u8]) -> bool {
    match fs::read(rt, name) {
        Ok(found) => found.as_slice() == octets,
        Err(_) => false,
    }
}

#[test]
fn reads_all_files_before_it_judges(rt: HostRuntime) {
    let Ok(folder) = enter(&rt, "order") else {
        panic!(rt; "a folder");
    };
    let lines: [(&[&str], &str); 13] = [
        (
            &["meter", "bad spec", "one", "none"],
            "1||tcacct: none: read 1\n",
        ),
        (
            &["meter", "bad spec", "cut", "one"],
            "1||tcacct: bad spec: spec 1\n",
        ),
        (&["meter", SPEC, "one", "cut"], "1||tcacct: cut: export 4\n"),
        (&["meter", SPEC, "none", "cut"], "1||tcacct: none: read 1\n"),
        (
            &["combine", "no/out", "one"],
            "1||tcacct: combine: write 1\n",
        ),
        (
            &["combine", "no/out", "one", "none"],
            "1||tcacct: none: read 1\n",
        ),
        (
            &["bill", "none", "one", "nor this"],
            "1||tcacct: none: read 1\n",
        ),
        (&["bill", "bad", "one", "none"], "1||tcacct: none: read 1\n"),
        (&["bill", "bad", "cut"], "1||tcacct: bad: plan 3\n"),
        (
            &["bill", "plan", "one", "cut", "none"],
            "1||tcacct: none: read 1\n",
        ),
        (
            &["bill", "plan", "one", "cut", "two"],
            "1||tcacct: cut: export 4\n",
        ),
        (
            &["bill", "--export", "no/out", "plan", "one"],
            "1||tcacct: bill: write 1\n",
        ),
        (
            &["bill", "--export", "no/out", "bad", "cut"],
            "1||tcacct: bill: write 1\n",
        ),
    ];
    for (words, ending) in lines {
        assert!(rt; gives(&rt, words, ending));
    }
    assert!(rt; fs::remove_dir_all(&rt, folder.as_path()).is_ok());
}

#[test]
fn runs_commands(rt: HostRuntime) {
    let Ok(folder) = enter(&rt, "commands") else {
        panic!(rt; "a folder");
    };
    assert!(rt; meters_three(&rt, &["meter", SPEC, "two", "one"]));
    assert!(rt; gives(&rt, &["combine", "out", "two", "one"], "0|reports 3\n|"));
    assert!(rt; bills_three(&rt, &["bill", "plan", "two", "one"]));
    assert!(rt; fs::remove_dir_all(&rt, folder.as_path()).is_ok());
}

// Whether the export of the three reports is written to a file.
pub(super) fn writes_three(rt: &HostRuntime) -> bool {
    fs::write(rt, "three", EXPORT_OF_THREE.as_slice()).is_ok()
}

// Whether their statement, one that is shorter and one that is longer are.
fn writes_statements(rt: &HostRuntime) -> bool {
    let Ok(statement) = format!(in rt.alloc(); "{OPENING}{THREE_REPORTS}") else {
        return false;
    };
    let Ok(longer) = format!(in rt.alloc(); "{statement} ") else {
        return false;
    };
    let octets = statement.as_bytes();
    let Some(shorter) = octets.get(..143) else {
        return false;
    };
    fs::write(rt, "right", octets).is_ok()
        && fs::write(rt, "short", shorter).is_ok()
        && fs::write(rt, "more", longer.as_bytes()).is_ok()
}

#[test]
fn audits_statements(rt: HostRuntime) {
    let Ok(folder) = enter(&rt, "audit") else {
        panic!(rt; "a folder");
    };
    assert!(rt; writes_three(&rt) && writes_statements(&rt));
    let lines: [(&[&str], &str); 10] = [
        (&["audit", "plan", "three", "right"], "0|agrees\n|"),
        (&["audit", "plan", "three", "short"], "1|differs at 143\n|"),
        (&["audit", "plan", "three", "more"], "1|differs at 144\n|"),
        (&["audit", "plan", "three", "empty"], "1|differs at 0\n|"),
        (&["audit", "plan", "one", "right"], "1|differs at 42\n|"),
        (
            &["audit", "plan", "cut", "right"],
            "1||tcacct: cut: export 4\n",
        ),
        (
            &["audit", "bad", "cut", "right"],
            "1||tcacct: bad: plan 3\n",
        ),
        (
            &["audit", "none", "cut", "right"],
            "1||tcacct: none: read 1\n",
        ),
        (
            &["audit", "bad", "nor this", "right"],
            "1||tcacct: nor this: read 1\n",
        ),
        (
            &["audit", "plan", "cut", "none"],
            "1||tcacct: none: read 1\n",
        ),
    ];
    for (words, ending) in lines {
        assert!(rt; gives(&rt, words, ending));
    }
    assert!(rt; fs::remove_dir_all(&rt, folder.as_path()).is_ok());
}

#[test]
fn makes_out_once_all_is_read(rt: HostRuntime) {
    let Ok(folder) = enter(&rt, "out") else {
        panic!(rt; "a folder");
    };
    let lines: [(&[&str], &str, &[u8]); 6] = [
        (
            &["combine", "out", "one", "none"],
            "1||tcacct: none: read 1\n",
            b"before",
        ),
        (
            &["combine", "out", "one", "cut"],
            "1||tcacct: cut: export 4\n",
            b"",
        ),
        (
            &["combine", "out", "empty"],
            "0|reports 0\n|",
            b"TCAX\x00\x02\x00\x00\x00\x00",
        ),
        (
            &["bill", "--export", "out", "none", "one"],
            "1||tcacct: none: read 1\n",
            b"before",
        ),
        (
            &["bill", "--export", "out", "bad", "one"],
            "1||tcacct: bad: plan 3\n",
            b"",
        ),
        (
            &["bill", "plan", "one", "cut", "--export", "out"],
            "1||tcacct: cut: export 4\n",
            b"",
        ),
    ];
    for (words, ending, octets) in lines {
        assert!(rt; fs::write(&rt, "out", "before").is_ok());
        assert!(rt; gives(&rt, words, ending));
        assert!(rt; holds(&rt, "out", octets));
    }
    assert!(rt; fs::remove_dir_all(&rt, folder.as_path()).is_ok());
}

// Whether a file has the export of the three reports.
pub(super) fn holds_three(rt: &HostRuntime, name: &str) -> bool {
    holds(rt, name, EXPORT_OF_THREE.as_slice())
}

#[test]
fn writes_to_an_input(rt: HostRuntime) {
    let Ok(folder) = enter(&rt, "same") else {
        panic!(rt; "a folder");
    };
    assert!(rt; gives(&rt, &["combine", "one", "one", "two"], "0|reports 3\n|"));
    assert!(rt; holds_three(&rt, "one"));
    let words = ["bill", "plan", "two", "one", "--export", "two"];
    assert!(rt; bills_three(&rt, &words));
    assert!(rt; holds_three(&rt, "two"));
    assert!(rt; fs::remove_dir_all(&rt, folder.as_path()).is_ok());
}

// An export of 40,001 reports of session 0, in version 1 or in version 2.
fn large_export(alloc: Global, version: u8) -> Result<Vec<u8>, AllocError> {
    let mut octets = Vec::from_slice(
        alloc,
        &[b'T', b'C', b'A', b'X', 0, version, 0, 0, 0x9c, 0x41],
    )?;
    let session: &[u8] = if version == 1 {
        b""
    } else {
        b"\x00\x00\x00\x00"
    };
    for place in 0..40_001u32 {
        octets.extend_from_slice(b"\x00\x00\x01\x8b\xcf\xe5\x68\x00\x00\x00\x00\x07")?;
        octets.extend_from_slice(session)?;
        octets.extend_from_slice(&place.to_be_bytes())?;
        octets.extend_from_slice(b"\x00\x00\x05\xdc\x0a\x00\x00\x00\x01")?;
    }
    Ok(octets)
}

#[test]
fn reads_large_files(rt: HostRuntime) {
    let Ok(folder) = enter(&rt, "large") else {
        panic!(rt; "a folder");
    };
    let Ok(old) = large_export(rt.alloc(), 1) else {
        panic!(rt; "an export");
    };
    let Ok(new) = large_export(rt.alloc(), 2) else {
        panic!(rt; "an export");
    };
    assert!(rt; (old.len(), new.len()) == (1_000_035, 1_160_039));
    for octets in [old.as_slice(), new.as_slice()] {
        assert!(rt; fs::write(&rt, "large", octets).is_ok());
        assert!(rt; gives(&rt, &["combine", "out", "large"], "0|reports 40001\n|"));
        assert!(rt; holds(&rt, "out", new.as_slice()));
    }
    assert!(rt; fs::remove_dir_all(&rt, folder.as_path()).is_ok());
}

#[test]
fn migrates_an_export(rt: HostRuntime) {
    let Ok(folder) = enter(&rt, "migration") else {
        panic!(rt; "a folder");
    };
    assert!(rt; fs::write(&rt, "old", OLD_EXPORT_OF_THREE.as_slice()).is_ok());
    assert!(rt; gives(&rt, &["combine", "new", "old"], "0|reports 3\n|"));
    assert!(rt; holds_three(&rt, "new"));
    assert!(rt; holds(&rt, "old", OLD_EXPORT_OF_THREE.as_slice()));
    assert!(rt; gives(&rt, &["combine", "old", "old"], "0|reports 3\n|"));
    assert!(rt; holds_three(&rt, "old"));
    assert!(rt; fs::remove_dir_all(&rt, folder.as_path()).is_ok());
}

#[test]
fn prints_notes_in_the_inputs_order(rt: HostRuntime) {
    let Ok(folder) = enter(&rt, "notes") else {
        panic!(rt; "a folder");
    };
    let words = ["meter", SPEC, "skipped"];
    assert!(rt; gives(&rt, &words, "0|green 0 0\nyellow 0 0\nred 0 0\n|"));
    let words = ["bill", "other plan", "skipped", "one", "unknown", "skipped"];
    assert!(rt; gives(&rt, &words, NOTED));
    assert!(rt; fs::remove_dir_all(&rt, folder.as_path()).is_ok());
}

// A plan with the traffic of no report, and its statement with the notes of three inputs.
const OTHER_PLAN: &str =
    "period = 3600000\n[[account]]\nname = \"gamma\"\nmeter = \"rfc2697\"\ncir = 1000\ncbs = 2000\nebs = 1000\nkeys = [[8, 1]]\n";

const NOTED: &str =
    "0|tcacct statement 1\nperiod 3600000\nreports 7\ndisputed 0\nunassigned 7\naccount gamma\ntotal 0 0 0 0 0 0\nend\n|tcacct: skipped: notes 0 1 1\ntcacct: unknown: notes 0 1 0\ntcacct: skipped: notes 0 1 1\n";

#[test]
fn keeps_the_status_where_writes_fail(rt: HostRuntime) {
    let Ok(folder) = enter(&rt, "full") else {
        panic!(rt; "a folder");
    };
    let lines: [(&[&str], u8); 4] = [
        (&["tcacct", "bill", "plan", "skipped"], 0),
        (&["tcacct", "meter", SPEC, "none"], 1),
        (&["tcacct", "audit"], 2),
        (&["tcacct", "--help"], 0),
    ];
    for (words, status) in lines {
        let mut out = Host::new(Vec::new(rt.alloc()));
        assert!(rt; run(&rt, words, &mut out, &mut Full) == status);
    }
    let mut errors = Vec::new(rt.alloc());
    let words = ["tcacct", "meter", SPEC, "one"];
    assert!(rt; run(&rt, &words, &mut Host::new(Full), &mut errors) == 1);
    assert!(rt; errors.as_slice() == b"tcacct: meter: write 1\n".as_slice());
    assert!(rt; fs::remove_dir_all(&rt, folder.as_path()).is_ok());
}

#[test]
fn ends_by_the_command_line(rt: HostRuntime) {
    for (word, status) in [("--help", 0u8), ("help", 0), ("audit", 2), ("--quiet", 2)] {
        let mut out = Host::new(Vec::new(rt.alloc()));
        let mut errors = Vec::new(rt.alloc());
        assert!(rt; run(&rt, &["tcacct", word], &mut out, &mut errors) == status);
        assert!(rt; errors.is_empty() == (status == 0));
        assert!(rt; out.into_inner().is_empty() == (status == 2));
    }
}

// A command line of one octet, which is no text.
#[derive(Clone, Copy)]
struct NotText;

impl Env for NotText {
    fn arg(&self, i: usize, buf: &mut [u8]) -> Result<usize, FillError> {
        if i > 0 {
            return Err(FillError::NotPresent);
        }
        let Some(first) = buf.first_mut() else {
            return Err(FillError::TooLong);
        };
        *first = 0xff;
        Ok(1)
    }

    fn var(&self, _name: &str, _buf: &mut [u8]) -> Result<usize, FillError> {
        Err(FillError::NotPresent)
    }

    fn var_at(&self, _i: usize, _buf: &mut [u8]) -> Result<usize, FillError> {
        Err(FillError::NotPresent)
    }
}

#[test]
fn refuses_words_that_are_no_text(rt: HostRuntime) {
    let mut errors = Vec::new(rt.alloc());
    match words_of(&(NotText, rt.alloc())) {
        Err(fault) => assert!(rt;
            end(
                &Ending::NoCommand {
                    program: NAME,
                    fault
                },
                &mut errors
            ) == 2
        ),
        Ok(_) => panic!(rt; "words"),
    }
    let text = b"error: a word of the command line is not UTF-8\n";
    assert!(rt; errors.as_slice() == text.as_slice());
    let mut errors = Vec::new(rt.alloc());
    assert!(rt;
        end(
            &Ending::NoCommand {
                program: NAME,
                fault: LineFault::Memory
            },
            &mut errors
        ) == 1
    );
    assert!(rt; errors.as_slice() == b"tcacct: tcacct: memory 1\n".as_slice());
}
