//! `tcatool`: for who looks at usage, reconciles two collections, or has more than one log holds.
//!
//! `shell` reads the command line and the files, calls the command's function, and prints the one line
//! of a refusal. The commands are functions over octets and writers, each in a file of its own, and carry the contracts, as does the
//! word of that line.
//!
//! - `commands`, `line`, `ending`: the command line, what it asks for, and the word of a fault line;
//! - `pairs`, `list`, `diff`, `split`: the commands over inputs, with `item` and `sharing` (what a report is billed as) and `progress`;
//! - `table`, `json`, `page`, `add`: the commands over statements, with `told` and `moment`;
//! - `cell`, `row`, `report_line`: lines of CSV that go out in pieces; `laws`: what the lines of commands come to.
#![tactic(auto)]

mod add;
mod cell;
mod commands;
mod diff;
mod ending;
mod item;
mod json;
mod laws;
mod line;
mod list;
mod moment;
mod page;
mod pairs;
mod progress;
mod report_line;
mod row;
mod sharing;
mod shell;
mod split;
mod table;
mod told;

use shell::{NAME, run_words};
use std::io;
use std::process::ExitCode;
use tca_program::{Ending, end, standard_placeholders, words_of};
use tca_report::Host;

fn main(rt: HostRuntime) -> ExitCode {
    let _placeholders = standard_placeholders(&rt);
    let mut errors = rt.stderr();
    let status = match words_of(&rt) {
        Ok(words) => run_words(&rt, &words, &mut Host::new(io::writer(&rt)), &mut errors),
        Err(fault) => end(
            &Ending::NoCommand {
                program: NAME,
                fault,
            },
            &mut errors,
        ),
    };
    ExitCode::from(status)
}
