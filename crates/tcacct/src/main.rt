//! `tcacct`: usage accounting that operator and customer can both check.
//!
//! `main` hands the words of the command line and the devices to the commands, which are a library, `tca_commands`, and are tried here.
#![tactic(auto)]

#[cfg(test)]
mod tests;

use std::io;
use std::process::ExitCode;
pub use tca_commands::{
    Line, NotesLine, equal_summaries_make_one_statement, read_line, run, run_audit, run_bill,
    run_bill_plain, run_combine, run_meter, word_of, written_out,
};
use tca_commands::{NAME, run_words};
pub use tca_program::{Asked, Family, RunFault, asked_by, split_word, unite};
use tca_program::{Ending, end, standard_placeholders, words_of};
use tca_report::Host;

fn main(rt: HostRuntime) -> ExitCode {
    let _placeholders = standard_placeholders(&rt);
    let mut errors = rt.stderr();
    let status = match words_of(&rt) {
        Ok(words) => run_words(&rt, &words, &mut Host::new(io::writer(&rt)), &mut errors),
        Err(fault) => end(
            &Ending::NoCommand {
                program: NAME,
                fault,
            },
            &mut errors,
        ),
    };
    ExitCode::from(status)
}
