//! When bills that were made apart add up to the bill of all: those of sets whose observation domains are apart, and those of windows of
//! time that are parted by terms of the meters; and their statements with them.
//!
//! These are laws of the bill's definition, as contracts of functions that do nothing.
#![tactic(auto)]

mod laws;

pub use laws::{shards_add_up, statements_add_up, sums_in_any_order, windows_add_up};
