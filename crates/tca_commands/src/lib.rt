//! The commands of `tcacct`.
//!
//! `shell` reads the command line and the files, calls the command's function, and prints the one line
//! of a refusal. The commands are functions over octets and writers, and carry the contracts, as do the
//! word of that line, the exit status and the texts.
//!
//! - `commands`, `line`, `ending`, `notes`: the command line, what it asks for, the word of a fault line, and the lines of notes;
//! - `meter`, `combine`, `bill`, `audit`, with `texts`: the commands by one thread; `replicated`, with `replicas`, `answers`,
//!   `together` and `refusals`: the bill by replicas; `laws`: what replicas come to in statements.
#![tactic(auto)]

mod answers;
mod audit;
mod bill;
mod combine;
mod commands;
mod ending;
mod laws;
mod line;
mod meter;
mod notes;
mod refusals;
mod replicas;
mod replicated;
mod shell;
mod texts;
mod together;

pub use audit::run_audit;
pub use bill::run_bill_plain;
pub use combine::run_combine;
pub use ending::word_of;
pub use laws::equal_summaries_make_one_statement;
pub use line::{Line, read_line, written_out};
pub use meter::run_meter;
pub use notes::NotesLine;
pub use replicated::run_bill;
pub use shell::{NAME, run, run_words};
