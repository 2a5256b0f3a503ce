//! Statements: the text of a bill, and the amounts issued for a period.
//!
//! A statement is the octets that a plan and a bill make, and nothing else: whoever has the plan and the reports
//! can write it again and compare. Amounts are issued one after the other for one account and period, each the
//! difference between what is due now and what was issued before, so that late reports correct what they change.
//!
//! - `statement`: the text, made at once and written without taking memory; `lines`: its lines;
//! - `issuer`: the amounts issued; `amounts`: those of one account and period; `amount`: octets by colour that may
//!   fall; `fault`: why none is issued.
#![tactic(auto)]

mod amount;
mod amounts;
mod fault;
mod issuer;
mod lines;
mod statement;

pub use amount::Amount;
pub use fault::IssueFault;
pub use issuer::Issuer;
pub use statement::{Statement, render, same_reports_make_one_statement};
