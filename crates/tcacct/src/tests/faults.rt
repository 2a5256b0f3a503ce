use std::alloc::{AllocError, Global};
use std::fmt::Display;
use std::test::*;
use tca_commands::NotesLine;
use tca_ingest::{CloseFault, JobFault, ShareFault, WorkFault};
use tca_program::{Ending, Family, LineFault, RunFault};
use tca_report::{InputFault, Notes};

// Each family with its name, in the order of the enum.
const FAMILIES: [(Family, &str); 15] = [
    (Family::Read, "read"),
    (Family::Export, "export"),
    (Family::Wire, "wire"),
    (Family::Decode, "decode"),
    (Family::Plan, "plan"),
    (Family::Spec, "spec"),
    (Family::Log, "log"),
    (Family::Share, "share"),
    (Family::Work, "work"),
    (Family::Close, "close"),
    (Family::Absorb, "absorb"),
    (Family::Statement, "statement"),
    (Family::Limits, "limits"),
    (Family::Write, "write"),
    (Family::Memory, "memory"),
];

fn says<D: Display>(alloc: Global, value: &D, text: &str) -> bool {
    match format!(in alloc; "{value}") {
        Ok(said) => said.as_str() == text,
        Err(_) => false,
    }
}

// Whether a refusal prints its family's name and its number, alone and in a line of its own, and ends with status 1.
fn prints(alloc: Global, family: Family, name: &str, number: u8) -> bool {
    let fault = RunFault {
        input: Some(3),
        family,
        number,
    };
    let refused = Ending::Refused {
        program: "tcacct",
        word: "a file",
        fault,
    };
    let Ok(text) = format!(in alloc; "{name} {number}") else {
        return false;
    };
    let Ok(line) = format!(in alloc; "tcacct: a file: {name} {number}\n") else {
        return false;
    };
    let is_text = says(alloc, &fault, text.as_str());
    is_text && says(alloc, &refused, line.as_str()) && refused.status() == 1
}

#[test]
fn prints_faults(rt: HostRuntime) {
    let alloc = rt.alloc();
    for (family, name) in FAMILIES {
        assert!(rt; says(alloc, &family, name));
        for number in [1u8, 7, 10] {
            assert!(rt; prints(alloc, family, name, number), "{family} {number}");
        }
    }
}

fn usage(alloc: Global) -> Result<LineFault, AllocError> {
    Ok(LineFault::Usage {
        text: String::from_str(alloc, "error: no\n")?,
    })
}

fn help(alloc: Global) -> Result<LineFault, AllocError> {
    Ok(LineFault::Help {
        text: String::from_str(alloc, "Usage: so\n")?,
    })
}

#[test]
fn prints_and_numbers_line_faults(rt: HostRuntime) {
    let alloc = rt.alloc();
    let Ok(usage) = usage(alloc) else {
        panic!(rt; "a usage");
    };
    let Ok(help) = help(alloc) else {
        panic!(rt; "a help");
    };
    for (fault, number, text, line, status) in [
        (usage, 1, "error: no\n", "error: no\n", 2),
        (help, 2, "Usage: so\n", "", 0),
        (
            LineFault::Memory,
            3,
            "no memory is left",
            "tcacct: tcacct: memory 1\n",
            1,
        ),
    ] {
        assert!(rt; fault.number() == number);
        assert!(rt; says(alloc, &fault, text));
        let ending = Ending::NoCommand {
            program: "tcacct",
            fault,
        };
        assert!(rt; says(alloc, &ending, line));
        assert!(rt; ending.status() == status);
    }
}

#[test]
fn prints_notes(rt: HostRuntime) {
    let alloc = rt.alloc();
    for (not_reports, unplaced, skipped, line) in [
        ([0; 7], 0, 0, ""),
        (
            [1, 20, 0, 0, 0, 0, 300],
            5,
            7,
            "tcacct: a b: notes 321 5 7\n",
        ),
        ([0; 7], 0, 7, "tcacct: a b: notes 0 0 7\n"),
        ([0; 7], 5, 0, "tcacct: a b: notes 0 5 0\n"),
        ([0, 0, 0, 0, 0, 0, 1], 0, 0, "tcacct: a b: notes 1 0 0\n"),
        (
            [u64::MAX; 7],
            0,
            0,
            "tcacct: a b: notes 129127208515966861305 0 0\n",
        ),
    ] {
        let notes = NotesLine {
            word: "a b",
            notes: Notes {
                messages: 1,
                not_reports,
                unplaced,
                skipped,
            },
        };
        assert!(rt; says(alloc, &notes, line));
    }
}

#[test]
fn prints_faults_of_shared_replicas(rt: HostRuntime) {
    let alloc = rt.alloc();
    let shared = [
        (
            ShareFault::JournalFull,
            "the journal is full: it has at most 1048576 entries",
            1,
        ),
        (
            ShareFault::PassesOut,
            "no more passes: a replica has at most 65536",
            2,
        ),
        (ShareFault::Memory, "no memory for the call", 3),
    ];
    for (fault, text, number) in shared {
        assert!(rt;
            says(alloc, &fault, text) && fault.number() == number,
            "{number}"
        );
    }
    let missing = CloseFault::Missing {
        journal: 3,
        given: 2,
    };
    let closed = [
        (
            missing,
            "the journal has 3 entries, and the passes that were given have 2",
            1,
        ),
        (
            CloseFault::Differs { pass: 7 },
            "the entries of pass 7 are not the journal's",
            2,
        ),
        (
            CloseFault::Clash { origin: 5 },
            "two replicas hold different chains of origin 5",
            3,
        ),
    ];
    for (fault, text, number) in closed {
        assert!(rt;
            says(alloc, &fault, text) && fault.number() == number,
            "{number}"
        );
    }
}

#[test]
fn prints_faults_of_workers(rt: HostRuntime) {
    let alloc = rt.alloc();
    let of_another = "the result of job 4 is of another input, or the passes have other entries";
    let worked = [
        (WorkFault::JobMissing(4), "job 4 has no result", 1),
        (WorkFault::Stranger(4), of_another, 2),
        (WorkFault::NoThread, "a thread could not be started", 3),
        (
            WorkFault::PassesOut,
            "no more passes: a replica has at most 65536",
            4,
        ),
        (WorkFault::Memory, "no memory for the workers", 5),
    ];
    for (fault, text, number) in worked {
        assert!(rt;
            says(alloc, &fault, text) && fault.number() == number,
            "{number}"
        );
    }
    let of_jobs = [
        (JobFault::Input(InputFault::Memory), "out of memory", 1),
        (
            JobFault::Share(ShareFault::Memory),
            "no memory for the call",
            2,
        ),
    ];
    for (fault, text, number) in of_jobs {
        assert!(rt;
            says(alloc, &fault, text) && fault.number() == number,
            "{number}"
        );
    }
}
