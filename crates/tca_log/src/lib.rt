//! The log: a finite set of packet reports in their order, with the disputes among them.
//!
//! Logs that got the same reports are equal, in whatever order, with whatever repeats and unions they came.
//! An identity with two or more contents is disputed, and none of them is settled. Each call either does all
//! that it says or leaves the log as it was. A report is found and added by binary searches in ordered chunks,
//! so that no choice of identities or times by a stranger makes a log slow.
//!
//! - `rows`: the ordered container, with `chunk`, `locate` and `iter` beneath it;
//! - `log`, `union`: the log, one report and many reports at a time; `joins`: logs as values that join; `sets`: the set of a list;
//! - `disputes`, `ascending`, `marks`, `span`, `spans`, `numbers`: which identities of a set are disputed; `index`, `additions`,
//!   `by_identity`: the same as reports come one by one;
//! - `settled`: the reports that no other disputes; `answer`, `fault`: what a log answers; `laws`: what one more report
//!   changes.
#![tactic(auto)]

mod additions;
mod answer;
mod ascending;
mod by_identity;
mod disputes;
mod fault;
mod index;
mod joins;
mod laws;
mod log;
mod marks;
mod numbers;
pub mod rows;
mod sets;
mod settled;
mod span;
mod spans;
mod union;

pub use answer::Added;
pub use fault::LogFault;
pub use laws::one_more_report;
pub use log::{Log, same_reports_make_one_log};
pub use rows::RowsIter;
pub use sets::{set_beside, set_in, set_of, with_set};
pub use settled::Settled;
