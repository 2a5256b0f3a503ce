//! Tests of shared replicas and their workers. There is no code here beside them.
//!
//! They call `tca_ingest` from outside, as a user does. A crate that has tests is proved once more with them, so that one has none of
//! its own.
#![tactic(auto)]

#[cfg(test)]
mod tests;
