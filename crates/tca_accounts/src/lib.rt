//! Plans of accounts, and the bill of a log under a plan.
//!
//! A plan is a TOML document: the length of a period, and accounts, each with a meter and the pairs of an
//! observation domain and an interface whose reports it owns. A bill is a definition of a plan and a set of
//! reports: the reports that no other disputes go to the accounts that own them, each account's meter colours
//! its reports in their order from time 0 on, and octets and packets are summed by colour, in all and by
//! period. The meter changes at the starts of the account's terms, each time with full buckets. One pass over the
//! log serves all accounts, and a report's account is found in a table, or else by a search in a map.
//!
//! - `plan`, `account`, `owners`, `pair`: a plan, its accounts, and which of them owns a report;
//! - `reading`: a plan read from a text; beneath it `document` (the values of a table), `draft`, `meters`, `pairs` and
//!   `terms` (an account and its parts) and `together` (what all accounts have to be together);
//! - `key`, `kind`, `fault`: the keys of a plan, the kinds of meters, and why a text is no plan;
//! - `bill`, `tally`, `span`, `sums`: a bill and its parts; `metered`: one report after another through a meter, `period`:
//!   which period a time is in, and `running`: the metering of one account;
//! - `by_term`: a bill in the words of the terms.
#![tactic(auto)]

mod account;
mod bill;
mod by_term;
mod document;
mod draft;
mod fault;
mod key;
mod kind;
mod metered;
mod meters;
mod owners;
mod pair;
mod pairs;
mod period;
mod plan;
mod reading;
mod running;
mod span;
mod sums;
mod tally;
mod terms;
mod together;

pub use bill::{Bill, bill_all};
pub use by_term::bills_by_term;
pub use fault::PlanFault;
pub use key::Key;
pub use metered::{Metered, meter_next, no_reports};
pub use period::Period;
pub use plan::Plan;
pub use span::{Span, Spans};
pub use sums::Sums;
pub use tally::{Tallies, Tally};
