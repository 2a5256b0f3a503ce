//! What programs over inputs and plans share.
//!
//! A command of such a program reads the files that its words name, unites the reports of its inputs one by one, and is refused with
//! the word at fault, a family and a number. What a command does with the union is its program's own.
//!
//! - `arguments`, `line_fault`: command lines by `clap`, and why they ask for nothing; `ending`: how a run ends;
//! - `word`: the words of inputs, each with a session and a path; `files`: the files that words name;
//! - `inputs`: the union of inputs; `output`: how a text goes out; `fault`: why a command is refused.
#![tactic(auto)]

mod arguments;
mod ending;
mod fault;
mod files;
mod inputs;
mod line_fault;
mod output;
mod word;

pub use arguments::{flag, is_given, many_words, named, one_word, option_word, text, texts};
pub use ending::{Ending, end, print_help, texts_of, words_of};
pub use fault::{Family, RunFault};
pub use files::{create, read_inputs, read_numbered, read_plan, standard_placeholders};
pub use inputs::{add_input, unite};
pub use line_fault::LineFault;
pub use output::put_text;
pub use word::{Asked, asked_by, split_word};
