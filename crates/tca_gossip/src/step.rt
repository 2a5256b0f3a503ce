//! What is done in a world of replicas, and what comes of it.
use crate::fault::{AbsorbFault, Taken};
use tca_join::JoinFault;
use tca_report::Report;

/// What is done in a world. Replicas are named by their names, messages by their numbers, from 0 in the order in which they were
/// sent.
#[derive(Drop)]
pub enum Step {
    /// The replica takes reports, as new ones of its own.
    Take { at: u32, reports: Vec<Report> },
    /// The replica sends how much it holds of each origin.
    Ask { at: u32 },
    /// The replica sends what it holds past the counts of a message that was sent by `Ask`.
    Answer { at: u32, message: u32 },
    /// A message that was sent by `Answer` comes to a replica. Any message may come to any replica, any number of times.
    Deliver { message: u32, to: u32 },
    /// The first replica joins what the second one holds. A replica may be merged with itself.
    Merge { into: u32, other: u32 },
}

/// What comes of a step.
#[derive(Drop)]
pub enum Reply {
    /// How a take went.
    Took(Taken),
    /// A message was sent, and this is its number.
    Sent(u32),
    /// How many reports were new in what was delivered, or why it was refused or stopped.
    Absorbed(Result<u64, AbsorbFault>),
    /// Whether the merge was made.
    Merged(Result<(), JoinFault>),
    /// Nothing was done: there is no such replica or message, the message is of the wrong kind, or 4,294,967,295 messages were
    /// sent before.
    Nothing,
    /// Nothing was sent, since a growth was refused.
    NoMemory,
}
