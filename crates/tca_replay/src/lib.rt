//! Metering again from marks, as reports come late and disputes take them away.
//!
//! A `Lane` has the rows of one account in order and a mark after each `k` of them. When rows came or went, `resume` meters
//! from the last mark before the first change, so that a late report costs what follows it and not the whole history. A
//! `Book` has a lane for each account of a plan and the counts of its bill; it goes with a log: what the log answers to a
//! report is what the book applies, and once it is settled its totals are the bill of the log's reports. Room is made first
//! (`reserve_row`, `ready`), and then no change takes memory.
//!
//! - `lane`: the rows of an account; `run`: metering row by row;
//! - `book`: the lanes of all accounts; `laws`: any list of rows that come and go.
#![tactic(auto)]

mod book;
mod lane;
mod laws;
mod run;

pub use book::Book;
pub use lane::{Lane, Replayed};
pub use laws::changes_then_resume;
