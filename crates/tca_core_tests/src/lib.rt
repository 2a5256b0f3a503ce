//! Tests of joins, logs, token buckets, meters, plans and bills, lanes and books, replicas and worlds, and of
//! statements as they are read. There is no code here beside them.
//!
//! They call the crates from outside, as a user does: `tca_join`, `tca_log`, `tca_buckets`, `tca_meters`, `tca_accounts`, `tca_replay`,
//! `tca_gossip` and `tca_figures`. A crate that has tests is proved once more with them, so those have none of their own.
#![tactic(auto)]

#[cfg(test)]
mod tests;
