//! The numbers and the texts of faults.
use std::alloc::Global;
use std::fmt::Display;
use std::format;
use tca_gossip::{AbsorbFault, WorldFault};
use tca_log::LogFault;

fn says<F: Display>(alloc: Global, fault: &F, text: &str) -> bool {
    match format!(in alloc; "{fault}") {
        Ok(said) => said.as_str() == text,
        Err(_) => false,
    }
}

const GAP: AbsorbFault = AbsorbFault::Gap {
    origin: 2,
    have: 0,
    from: 1,
};

const FORKED: AbsorbFault = AbsorbFault::Forked { origin: 2, at: 7 };

const AHEAD: AbsorbFault = AbsorbFault::OwnAhead { have: 1, said: 6 };

const STOPPED: AbsorbFault = AbsorbFault::Stopped {
    taken: 3,
    cause: LogFault::Full,
};

#[test]
fn faults_have_numbers(rt: HostRuntime) {
    assert!(rt; GAP.number() == 1);
    assert!(rt; FORKED.number() == 2);
    assert!(rt; AHEAD.number() == 3);
    assert!(rt; STOPPED.number() == 4);
    assert!(rt; WorldFault::NameTwice.number() == 1);
    assert!(rt; WorldFault::Memory.number() == 2);
}

fn absorb_faults_say(alloc: Global) -> bool {
    says(
        alloc,
        &GAP,
        "the run of origin 2 starts at place 1, past the 0 reports that are held",
    ) && says(
        alloc,
        &FORKED,
        "the run of origin 2 differs from the chain at place 7",
    ) && says(
        alloc,
        &AHEAD,
        "a run of this replica's own name ends at place 6, past its 1 reports",
    ) && says(
        alloc,
        &STOPPED,
        "stopped after 3 new reports: the log is full: it has at most 4194304 reports",
    )
}

#[test]
fn faults_have_texts(rt: HostRuntime) {
    let alloc = rt.alloc();
    assert!(rt; absorb_faults_say(alloc));
    assert!(rt;
        says(
            alloc,
            &WorldFault::NameTwice,
            "a name of a replica stands twice"
        )
    );
    assert!(rt;
        says(
            alloc,
            &WorldFault::Memory,
            "no memory for the replicas of the world"
        )
    );
}
