//! Token buckets: which tokens of a rate arrive in an interval, and what they leave in one bucket or
//! two.
//!
//! Rates are tokens per second, times are milliseconds from 1970 UTC, and a token is one octet of an
//! IP packet. Each call takes the same few steps however long the interval is and however many tokens
//! it brings, and none takes memory.
#![tactic(auto)]

mod bucket;
mod tokens;

pub use bucket::{Bucket, fill_spilling};
pub use tokens::ticks;
