//! The figures of statements: statements as they are read, added up and written again.
//!
//! A statement is read exactly where its octets are those of a statement in form: the lines in their order, each account's total the sum of
//! its periods. Octets that aren't are refused at the first line that may not stand there. What was read is written as the same octets. The
//! sum of two statements of one period and the same accounts is a statement.
//!
//! - `statement`: reading one; beneath it `reader` (which line may follow), `lines` (each kind of line) and `fields` (numbers);
//! - `figures`: what a statement says; `text`: its octets; `sum`: the sum of two;
//! - `fault`: why octets are no statement, or statements have no sum; `laws`: what is so of any octets and texts.
#![tactic(auto)]

mod fault;
mod fields;
mod figures;
mod laws;
mod lines;
mod reader;
mod statement;
mod sum;
mod text;

pub use fault::StatementFault;
pub use figures::{AccountFigures, ColourFigures, Figure, Figures, SpanFigures};
pub use laws::a_statement_has_one_reading;
pub use statement::read_statement;
pub use sum::add;
