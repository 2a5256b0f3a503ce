//! What calls answer, and what replicas hold, in a form that can be compared.
use std::alloc::AllocError;
use tca_gossip::{AbsorbFault, Replica, Reply, Taken};
use tca_join::JoinFault;
use tca_log::LogFault;

#[derive(Clone, Copy, PartialEq, Eq)]
pub(super) enum Outcome {
    // How many reports of a list are held, how many of these were new, and why it stopped.
    Took(u64, u64, Option<LogFault>),
    Sent(u32),
    Absorbed(u64),
    Gap { origin: u32, have: u32, from: u32 },
    Forked { origin: u32, at: u32 },
    OwnAhead { have: u32, said: u32 },
    Stopped(u64, LogFault),
    Merged,
    Unmerged(JoinFault),
    Nothing,
    NoMemory,
    // How many reports a replica has, and how many of them are of the origins 1, 2 and 3.
    Holds(u32, [usize; 3]),
    // The octets of the account by colour, and the counts of reports and disputes.
    Bill([u64; 3], u32, u32),
}

pub(super) fn took(taken: &Taken) -> Outcome {
    Outcome::Took(taken.taken, taken.fresh, taken.stop)
}

pub(super) fn absorbed(answer: &Result<u64, AbsorbFault>) -> Outcome {
    match answer {
        Ok(count) => Outcome::Absorbed(*count),
        Err(AbsorbFault::Gap { origin, have, from }) => Outcome::Gap {
            origin: *origin,
            have: *have,
            from: *from,
        },
        Err(AbsorbFault::Forked { origin, at }) => Outcome::Forked {
            origin: *origin,
            at: *at,
        },
        Err(AbsorbFault::OwnAhead { have, said }) => Outcome::OwnAhead {
            have: *have,
            said: *said,
        },
        Err(AbsorbFault::Stopped { taken, cause }) => Outcome::Stopped(*taken, *cause),
    }
}

pub(super) fn merged(answer: Result<(), JoinFault>) -> Outcome {
    match answer {
        Ok(()) => Outcome::Merged,
        Err(fault) => Outcome::Unmerged(fault),
    }
}

pub(super) fn outcome_of(reply: &Reply) -> Outcome {
    match reply {
        Reply::Took(taken) => took(taken),
        Reply::Sent(number) => Outcome::Sent(*number),
        Reply::Absorbed(answer) => absorbed(answer),
        Reply::Merged(answer) => merged(*answer),
        Reply::Nothing => Outcome::Nothing,
        Reply::NoMemory => Outcome::NoMemory,
    }
}

pub(super) fn holds(replica: &Replica) -> Outcome {
    let chains = [
        replica.chain(1).len(),
        replica.chain(2).len(),
        replica.chain(3).len(),
    ];
    Outcome::Holds(replica.log().len(), chains)
}

pub(super) fn bill(replica: &Replica) -> Result<Outcome, AllocError> {
    let bill = replica.totals()?;
    let octets = match bill.accounts.as_slice().first() {
        Some(tally) => tally.total.octets(),
        None => [0; 3],
    };
    Ok(Outcome::Bill(octets, bill.reports, bill.disputed))
}
