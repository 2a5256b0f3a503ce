//! The audit of a statement: whether its octets are those that the plan and the reports of an export call for.
//!
//! This crate is for those who distrust the rest. It takes the text of the plan, the octets of an export and those of
//! a statement, and meters each account in the plainest way: the tokens that come between two packets are let in one
//! at a time, each packet is judged as its RFC says, and where the plan has a term start both buckets are set full. Of the
//! other crates it takes the readers of plans and exports, the table of code points, the account that owns a report, the parameters
//! of its meters and the starts of their terms, the order of identities, the types of bills, periods and sums, to which each packet
//! is counted (`Sums::count`), and the text of a bill. A token is let in only where a bucket has room for it, so between two packets
//! no more are let in than packets took out before.
//! Where the identities of the reports don't ascend, it takes 12 octets of memory for each report and up to 24 for each disputed identity, beside
//! the list of reports itself.
//!
//! - `check`: the audit as a whole; `verdict`: the comparison, octet by octet; `fault`: why there is none;
//! - `bill`: the sums of all accounts; `account`: one account; `disputes`: the identities that more than one report has;
//! - `terms`: a packet at a meter with terms; beneath it `meters` (a meter of any kind), `srtcm` (RFC 2697), `trtcm`
//!   (RFC 2698) and `rfc4115`;
//! - `arrivals`: when the tokens of a rate come; `buckets`: what they come to.
#![tactic(auto)]

mod account;
mod arrivals;
mod bill;
mod buckets;
mod check;
mod disputes;
mod fault;
mod meters;
mod rfc4115;
mod srtcm;
mod terms;
mod trtcm;
mod verdict;

pub use check::{audit, audit_under};
pub use fault::AuditFault;
pub use verdict::Verdict;
