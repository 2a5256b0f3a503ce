//! The program over a file system, standard output and standard error that are given: what `main` does.
ghost use Rattle.std.specs.Prelude.{◌≡◌, ◌≢◌, ◌≤◌, ◌<◌, ◌^◌, IfOk, None, length, map, string_bytes};
ghost use Rattle.tca_program.specs.Endings.{status_of};
ghost use Rattle.tcatool.specs.Diffed.{difference_status};
ghost use Rattle.tcatool.specs.Lines.{order_in};

use crate::add::run_add;
use crate::diff::{Differences, run_diff};
use crate::ending::word_of;
use crate::json::run_json;
use crate::line::{Line, read_line};
use crate::list::run_list;
use crate::page::run_page;
use crate::pairs::run_pairs;
use crate::progress::{Progress, Silent, Watch, WatchedWriter};
use crate::split::split_file;
use crate::table::run_table;
use std::alloc::{AllocError, Global};
use std::io;
use std::rt::{Clock, Files};
use tca_program::{
    Ending, LineFault, RunFault, create, end, print_help, read_inputs, read_numbered, read_plan,
    texts_of,
};
use tca_report::Write;

/// The name of the program in its fault lines.
pub(crate) const NAME: &str = "tcatool";

/// Runs the words of a command line, as `run` does, with the same exit status.
pub fn run_words<R: Files + Clock + AllocGlobal, W: Write, V: io::Write>(
    rt: &R,
    words: &[String],
    out: &mut W,
    errors: &mut V,
) -> u8
    ensures { order_in (map (λ s. string_bytes s) words.now) ≢ None → result ≤ 1 }
{
    let Ok(texts) = texts_of(rt.alloc(), words) else {
        let (program, fault) = (NAME, LineFault::Memory);
        return end(&Ending::NoCommand { program, fault }, errors);
    };
    run(rt, &texts, out, errors)
}

/// Runs the words of a command line, of which the first is the program's own name, and gives the exit
/// status. All files are read first, but the capture of `split`, which is read as it goes; then the command is run. What can't be
/// written to `errors` is left out.
/// The exit status is 2 only where the words ask for no command.
pub fn run<R: Files + Clock + AllocGlobal, W: Write, V: io::Write>(
    rt: &R,
    words: &[&str],
    out: &mut W,
    errors: &mut V,
) -> u8
    ensures { order_in (map (λ s. s.now) words.now) ≢ None → result ≤ 1 }
{
    let program = NAME;
    let line = match read_line(rt.alloc(), words) {
        Ok(line) => line,
        Err(fault) => {
            print_help(&fault, out);
            return end(&Ending::NoCommand { program, fault }, errors);
        }
    };
    match run_line(rt, &line, out, errors) {
        Ok(Outcome::Done) => end(&Ending::Done, errors),
        Ok(Outcome::Compared(differences)) => end(&compared(differences, errors), errors),
        Err(fault) => {
            let word = word_of(&line, fault);
            end(
                &Ending::Refused {
                    program,
                    word,
                    fault,
                },
                errors,
            )
        }
    }
}

// Prints how many reports differ, as far as that goes, and says whether some do.
fn compared<'a, V: io::Write>(differences: Differences, errors: &mut V) -> Ending<'a>
    ensures { status_of result ≡ difference_status differences }
{
    let _unwritten = write!(errors, "{differences}");
    if differences.only_a == 0 && differences.only_b == 0 {
        Ending::Done
    } else {
        Ending::Differs
    }
}

// What came of a command that wasn't refused.
#[derive(Drop)]
enum Outcome {
    Done,
    // With how many reports differ.
    Compared(Differences),
}

// Reads the files of a command and runs it.
fn run_line<R: Files + Clock + AllocGlobal, W: Write, V: io::Write>(
    rt: &R,
    line: &Line<'_>,
    out: &mut W,
    errors: &mut V,
) -> Result<Outcome, RunFault> {
    match line {
        Line::Diff { a, b } => {
            let inputs = read_inputs(rt, &[*a, *b])?;
            let differences = run_diff(rt.alloc(), &inputs[0], &inputs[1], out)?;
            return Ok(Outcome::Compared(differences));
        }
        Line::Pairs { inputs } => {
            let inputs = read_inputs(rt, inputs)?;
            run_pairs(rt.alloc(), &inputs, out)?;
        }
        Line::List { plan, inputs } => list_files(rt, *plan, inputs, out)?,
        Line::Split {
            progress,
            folder,
            capture,
        } => split_file(rt, *folder, *capture, *progress, out, errors)?,
        Line::Add { statements } => add_files(rt, statements, out)?,
        Line::Table { statement } => {
            let text = read_numbered(rt, 0, *statement)?;
            run_table(rt.alloc(), &text, out)?;
        }
        Line::Json { statement } => {
            let text = read_numbered(rt, 0, *statement)?;
            run_json(rt.alloc(), &text, out)?;
        }
        Line::Page {
            progress,
            out: path,
            statement,
        } => page_file(rt, *path, *statement, *progress, errors)?,
    }
    Ok(Outcome::Done)
}

// Lists the reports of inputs, under a plan where one is named.
fn list_files<R: Files + AllocGlobal, W: Write>(
    rt: &R,
    plan: Option<&str>,
    inputs: &[&str],
    out: &mut W,
) -> Result<(), RunFault> {
    match plan {
        Some(path) => {
            let plan = read_plan(rt, path)?;
            let inputs = read_inputs(rt, inputs)?;
            run_list(rt.alloc(), Some(plan.as_slice()), &inputs, out)
        }
        None => {
            let inputs = read_inputs(rt, inputs)?;
            run_list(rt.alloc(), None, &inputs, out)
        }
    }
}

// Adds statements up.
fn add_files<R: Files + AllocGlobal, W: Write>(
    rt: &R,
    statements: &[&str],
    out: &mut W,
) -> Result<(), RunFault> {
    let texts = read_statements(rt, statements)?;
    match texts.split_first() {
        Some((first, others)) => run_add(rt.alloc(), first, others, out),
        None => Ok(()),
    }
}

// Writes the page of a statement to a file, and tells how far it is where that is asked for.
fn page_file<R: Files + Clock + AllocGlobal, V: io::Write>(
    rt: &R,
    path: &str,
    statement: &str,
    tells: bool,
    errors: &mut V,
) -> Result<(), RunFault> {
    let text = read_numbered(rt, 0, statement)?;
    let page = create(rt, path)?;
    if !tells {
        return write_page(rt.alloc(), &text, page, &mut Silent);
    }
    let mut progress = Progress::new(rt, errors, "page", 0);
    write_page(rt.alloc(), &text, page, &mut progress)
}

// Writes the page of a statement to a writer that is watched.
fn write_page<D: Write + Drop, T: Watch>(
    alloc: Global,
    text: &[u8],
    page: D,
    watch: &mut T,
) -> Result<(), RunFault> {
    let mut watched = WatchedWriter::new(page, watch);
    run_page(alloc, text, &mut watched)
}

// The octets of statements, in the order of their words; the first one that can't be read refuses all.
fn read_statements<R: Files + AllocGlobal>(rt: &R, words: &[&str]) -> Result<Vec<Vec<u8>>, RunFault>
    ensures few { IfOk result (λ texts. length texts.items < 2 ^ 32) }
{
    // The command line takes no more words than that.
    if words.len() > u32::MAX as usize {
        return Err(RunFault::from(AllocError));
    }
    let mut texts = Vec::new(rt.alloc());
    for (n, word) in words.iter().enumerate() {
        let text = read_numbered(rt, n as u32, *word)?;
        if texts.push(text).is_err() {
            return Err(RunFault::from(AllocError));
        }
    }
    Ok(texts)
}
