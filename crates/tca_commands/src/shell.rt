//! The program over a file system, standard output and standard error that are given: what `main` does,
//! so that tests can do it too.
ghost use Rattle.std.specs.Prelude.{◌≢◌, ◌≤◌, None, length, map, string_bytes};
ghost use Rattle.tca_commands.specs.Lines.{IsWithin, order_in, order_of};
ghost use Rattle.tca_commands.specs.Replicated.{IsWithinLimits};

use crate::audit::run_audit;
use crate::combine::run_combine;
use crate::ending::word_of;
use crate::line::{Line, read_line};
use crate::meter::run_meter;
use crate::notes::NotesLine;
use crate::replicated::run_bill;
use std::io;
use std::rt::Files;
use std::sync::Wait;
use std::thread::Threads;
use tca_ingest::NoGate;
use tca_program::{
    Ending, LineFault, RunFault, create, end, print_help, read_inputs, read_numbered, read_plan,
    texts_of,
};
use tca_report::{Input, Notes, Write};

/// The name of the program in its fault lines.
pub const NAME: &str = "tcacct";

/// Runs the words of a command line, as `run` does, with the same exit status.
pub fn run_words<R: Files + Threads + Wait + Sync + AllocGlobal, W: Write, V: io::Write>(
    rt: &R,
    words: &[String],
    out: &mut W,
    errors: &mut V,
) -> u8
    ensures { order_in (map (λ s. string_bytes s) words.now) ≢ None → result ≤ 1 }
{
    let Ok(texts) = texts_of(rt.alloc(), words) else {
        return end(
            &Ending::NoCommand {
                program: NAME,
                fault: LineFault::Memory,
            },
            errors,
        );
    };
    run(rt, &texts, out, errors)
}

/// Runs the words of a command line, of which the first is the program's own name, and gives the exit
/// status. All files are read first, in order of the words; then OUT is made, where there is one; then
/// the command is run. What can't be written to `errors` is left out. The exit status is 2 only where the
/// words ask for no command.
pub fn run<R: Files + Threads + Wait + Sync + AllocGlobal, W: Write, V: io::Write>(
    rt: &R,
    words: &[&str],
    out: &mut W,
    errors: &mut V,
) -> u8
    ensures { order_in (map (λ s. s.now) words.now) ≢ None → result ≤ 1 }
{
    let line = match read_line(rt.alloc(), words) {
        Ok(line) => line,
        Err(fault) => {
            print_help(&fault, out);
            return end(
                &Ending::NoCommand {
                    program: NAME,
                    fault,
                },
                errors,
            );
        }
    };
    match run_line(rt, &line, out) {
        Ok(Outcome::Noted(notes)) => {
            print_notes(line.inputs(), &notes, errors);
            end(&Ending::Done, errors)
        }
        Ok(Outcome::Done) => end(&Ending::Done, errors),
        Ok(Outcome::Differs) => end(&Ending::Differs, errors),
        Err(fault) => {
            let word = word_of(&line, fault);
            end(
                &Ending::Refused {
                    program: NAME,
                    word,
                    fault,
                },
                errors,
            )
        }
    }
}

// Prints the lines of the inputs' notes, in the inputs' order, as far as that goes.
fn print_notes<V: io::Write>(words: &[&str], all: &[Notes], errors: &mut V) {
    for (word, notes) in words.iter().zip(all) {
        let line = NotesLine {
            word: *word,
            notes: *notes,
        };
        let _unwritten = write!(errors, "{line}");
    }
}

// What came of a command that wasn't refused.
#[derive(Drop)]
enum Outcome {
    Done,
    // With what was noted of each input.
    Noted(Vec<Notes>),
    // The statement of an audit differs.
    Differs,
}

// Reads the files of a command and runs it.
fn run_line<R: Files + Threads + Wait + Sync + AllocGlobal, W: Write>(
    rt: &R,
    line: &Line<'_>,
    out: &mut W,
) -> Result<Outcome, RunFault>
    requires { IsWithin (order_of line.now) }
{
    match line {
        Line::Meter { spec, .. } => {
            let inputs = read_inputs(rt, line.inputs())?;
            run_meter(rt.alloc(), *spec, &inputs, out)?;
            Ok(Outcome::Done)
        }
        Line::Combine { out: path, .. } => {
            let inputs = read_inputs(rt, line.inputs())?;
            let mut export = create(rt, *path)?;
            run_combine(rt.alloc(), &inputs, &mut export, out)?;
            Ok(Outcome::Done)
        }
        Line::Bill {
            replicas,
            workers,
            export,
            plan,
            ..
        } => {
            let plan = read_plan(rt, *plan)?;
            let inputs = read_inputs(rt, line.inputs())?;
            let numbers = (*replicas, *workers);
            billed(rt, numbers, *export, &plan, &inputs, out)
        }
        Line::Audit {
            plan,
            export,
            statement,
        } => audited(rt, *plan, *export, *statement, out),
    }
}

// Makes the file of the export, where one is asked for, and bills the inputs by so many replicas, each of so many workers.
fn billed<R: Files + Threads + Wait + Sync + AllocGlobal, W: Write>(
    rt: &R,
    numbers: (u32, u32),
    export: Option<&str>,
    plan: &[u8],
    inputs: &[Input],
    out: &mut W,
) -> Result<Outcome, RunFault>
    requires { IsWithinLimits numbers.0 numbers.1 (length inputs.now) }
{
    let mut export = match export {
        Some(path) => Some(create(rt, path)?),
        None => None,
    };
    let (alloc, export) = (rt.alloc(), export.as_mut());
    let (replicas, workers) = numbers;
    let notes = run_bill(
        rt, alloc, plan, inputs, replicas, workers, &NoGate, export, out,
    )?;
    Ok(Outcome::Noted(notes))
}

// Reads the files of an audit and runs it.
fn audited<R: Files + AllocGlobal, W: Write>(
    rt: &R,
    plan: &str,
    export: &str,
    statement: &str,
    out: &mut W,
) -> Result<Outcome, RunFault> {
    let plan = read_plan(rt, plan)?;
    let export = read_numbered(rt, 0, export)?;
    let statement = read_numbered(rt, 1, statement)?;
    if run_audit(rt.alloc(), &plan, &export, &statement, out)? {
        Ok(Outcome::Done)
    } else {
        Ok(Outcome::Differs)
    }
}
