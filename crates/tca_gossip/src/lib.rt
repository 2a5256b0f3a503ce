//! Replicas of a log, and how they tell each other what they hold.
//!
//! A `Replica` keeps for each origin a chain of reports, in the order in which they were new there, and the log that is the set of
//! them all; a book beside it has the bill. What others tell it is checked as input: a delta is taken as far as it goes on from
//! the chains that are held, or refused before any change. A merge is all or nothing. Whatever is refused for want of memory, the
//! answer names what is held, and the same call with memory completes it.
//!
//! - `replica`: its calls; `contents`: log, chains and bill, which agree after each; `chains`: the chains by origin; `billing`: the bill
//!   of the log, by a book or from the log;
//! - `at_once`: many reports at once, which is faster than one by one where a list is long beside the log; `fresh`: which of them are
//!   new;
//! - `run`: what replicas send each other; `summary` and `delta`: what one sends; `absorb`: what one does with what comes;
//! - `world`: replicas that are run by a list of steps; `step`: what is done there, and what comes of it; `message`: what is sent
//!   there;
//! - `fault`: how a take went, why an absorb is refused or stops, and why a world is refused;
//! - `laws`: what the calls come to, for two or three replicas and in a world of any number of them.
#![tactic(auto)]

mod absorb;
mod at_once;
mod billing;
mod chains;
mod contents;
mod delta;
mod fault;
mod fresh;
mod laws;
mod message;
mod replica;
mod run;
mod step;
mod summary;
mod world;

pub use fault::{AbsorbFault, Taken, WorldFault};
pub use laws::{machine_laws, merge_laws, shown_laws, step_laws};
pub use replica::Replica;
pub use run::{Delta, Run, Summary, are_same_counts};
pub use step::{Reply, Step};
pub use world::World;
