//! Tests of messages, templates, reports with exports and devices, inputs, and split captures. There is no code here beside them.
//!
//! They call the crates from outside, as a user does: `tca_wire`, `tca_templates`, `tca_report` and `tca_split`. A crate that has tests
//! is proved once more with them, so those have none of their own.
#![tactic(auto)]

#[cfg(test)]
mod tests;
