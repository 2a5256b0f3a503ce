//! The words of a command line.
ghost use Rattle.std.specs.Prelude.{◌≡◌, ◌≢◌, ◌∷◌, [], IfOk, IfErr, Some, None, true, false, codes, map, option_map, slice_get};
ghost use Rattle.clap.specs.Words.{found_of, rows_of};
ghost use Rattle.tcatool.specs.Lines.{add, add_of, command_of, diff, diff_of, files_of, json, json_of, list, list_of, order_from, order_in, order_of, order_over_inputs, page, page_of, pairs, pairs_of, split, split_of, table, table_of};

use crate::commands;
use clap::ArgMatches;
use std::alloc::{AllocError, Global};
use tca_program::{LineFault, is_given, text, texts};

/// What the words of a command line ask for. The words of inputs are those of `split_word`; PLAN, STATEMENT, OUT, DIR and CAPTURE are
/// paths.
#[derive(Debug, Drop)]
pub enum Line<'a> {
    Pairs {
        inputs: Vec<&'a str>,
    },
    List {
        plan: Option<&'a str>,
        inputs: Vec<&'a str>,
    },
    Diff {
        a: &'a str,
        b: &'a str,
    },
    Table {
        statement: &'a str,
    },
    Json {
        statement: &'a str,
    },
    Page {
        progress: bool,
        out: &'a str,
        statement: &'a str,
    },
    Split {
        progress: bool,
        folder: &'a str,
        capture: &'a str,
    },
    Add {
        statements: Vec<&'a str>,
    },
}

// The one file that a command has, number 0.
fn only(file: &str, number: u32) -> Option<&str>
    ensures { option_map (λ s. s.now) result ≡ slice_get (file.entry.now ∷ []) number }
{
    if number == 0 { Some(file) } else { None }
}

impl<'a> Line<'a> {
    /// The command's name.
    pub fn command(&self) -> &'static str
        ensures { result.now ≡ command_of (order_of self.now) }
    {
        match self {
            Line::Pairs { .. } => "pairs",
            Line::List { .. } => "list",
            Line::Diff { .. } => "diff",
            Line::Table { .. } => "table",
            Line::Json { .. } => "json",
            Line::Page { .. } => "page",
            Line::Split { .. } => "split",
            Line::Add { .. } => "add",
        }
    }

    /// The word of an input, a statement or a capture by its number.
    pub fn file(&self, number: u32) -> Option<&'a str>
        ensures { option_map (λ s. s.now) result ≡ slice_get (files_of (order_of self.now)) number }
    {
        match self {
            Line::Pairs { inputs } => inputs.get(number as usize).copied(),
            Line::List { inputs, .. } => inputs.get(number as usize).copied(),
            Line::Diff { a, b } => match number {
                0 => Some(*a),
                1 => Some(*b),
                _ => None,
            },
            Line::Table { statement } => only(*statement, number),
            Line::Json { statement } => only(*statement, number),
            Line::Page { statement, .. } => only(*statement, number),
            Line::Split { capture, .. } => only(*capture, number),
            Line::Add { statements } => statements.get(number as usize).copied(),
        }
    }
}

fn pairs_line<'a>(alloc: Global, matches: &ArgMatches<'a>) -> Result<Option<Line<'a>>, AllocError>
    ensures { IfOk result (λ o. option_map order_of o ≡ pairs_of (rows_of (found_of matches.now))) }
{
    let Some(inputs) = texts(alloc, matches, "INPUT")? else {
        return Ok(None);
    };
    Ok(Some(Line::Pairs { inputs }))
}

fn list_line<'a>(alloc: Global, matches: &ArgMatches<'a>) -> Result<Option<Line<'a>>, AllocError>
    ensures { IfOk result (λ o. option_map order_of o ≡ list_of (rows_of (found_of matches.now))) }
{
    let Some(inputs) = texts(alloc, matches, "INPUT")? else {
        return Ok(None);
    };
    let plan = text(matches, "plan");
    Ok(Some(Line::List { plan, inputs }))
}

fn diff_line<'a>(matches: &ArgMatches<'a>) -> Option<Line<'a>>
    ensures { option_map order_of result ≡ diff_of (rows_of (found_of matches.now)) }
{
    let a = text(matches, "A")?;
    let b = text(matches, "B")?;
    Some(Line::Diff { a, b })
}

fn table_line<'a>(matches: &ArgMatches<'a>) -> Option<Line<'a>>
    ensures { option_map order_of result ≡ table_of (rows_of (found_of matches.now)) }
{
    let statement = text(matches, "STATEMENT")?;
    Some(Line::Table { statement })
}

fn json_line<'a>(matches: &ArgMatches<'a>) -> Option<Line<'a>>
    ensures { option_map order_of result ≡ json_of (rows_of (found_of matches.now)) }
{
    let statement = text(matches, "STATEMENT")?;
    Some(Line::Json { statement })
}

fn page_line<'a>(matches: &ArgMatches<'a>) -> Option<Line<'a>>
    ensures { option_map order_of result ≡ page_of (rows_of (found_of matches.now)) }
{
    let out = text(matches, "OUT")?;
    let statement = text(matches, "STATEMENT")?;
    let progress = is_given(matches, "progress");
    Some(Line::Page {
        progress,
        out,
        statement,
    })
}

fn split_line<'a>(matches: &ArgMatches<'a>) -> Option<Line<'a>>
    ensures { option_map order_of result ≡ split_of (rows_of (found_of matches.now)) }
{
    let folder = text(matches, "DIR")?;
    let capture = text(matches, "CAPTURE")?;
    let progress = is_given(matches, "progress");
    Some(Line::Split {
        progress,
        folder,
        capture,
    })
}

fn add_line<'a>(alloc: Global, matches: &ArgMatches<'a>) -> Result<Option<Line<'a>>, AllocError>
    ensures { IfOk result (λ o. option_map order_of o ≡ add_of (rows_of (found_of matches.now))) }
{
    let Some(statements) = texts(alloc, matches, "STATEMENT")? else {
        return Ok(None);
    };
    Ok(Some(Line::Add { statements }))
}

// What a command over inputs asks for.
fn line_over_inputs<'a>(
    alloc: Global,
    name: &str,
    matches: &ArgMatches<'a>,
) -> Result<Option<Line<'a>>, AllocError>
    ensures { IfOk result (λ o. option_map order_of o
        ≡ order_over_inputs name.now (rows_of (found_of matches.now))) }
{
    match name {
        "pairs" => pairs_line(alloc, matches),
        "list" => list_line(alloc, matches),
        "diff" => Ok(diff_line(matches)),
        "split" => Ok(split_line(matches)),
        _ => Ok(None),
    }
}

// What a command asks for: one over statements, or over inputs.
fn line_from<'a>(
    alloc: Global,
    name: &str,
    matches: &ArgMatches<'a>,
) -> Result<Option<Line<'a>>, AllocError>
    ensures { IfOk result (λ o. option_map order_of o
        ≡ order_from name.now (rows_of (found_of matches.now))) }
{
    match name {
        "table" => Ok(table_line(matches)),
        "json" => Ok(json_line(matches)),
        "page" => Ok(page_line(matches)),
        "add" => add_line(alloc, matches),
        _ => line_over_inputs(alloc, name, matches),
    }
}

/// Reads the words of a command line, of which the first is the program's own name. Ok is what
/// they ask for by clap's meaning of the commands; words that have such a meaning are refused for
/// want of memory alone.
pub fn read_line<'a>(alloc: Global, words: &'a [&'a str]) -> Result<Line<'a>, LineFault>
    ensures ok { IfOk result (λ l. order_in (map (λ s. s.now) words.entry.now) ≡ Some (order_of l)) }
    ensures refused { IfErr result (λ e. e ≢ LineFault.Memory
        → order_in (map (λ s. s.now) words.entry.now) ≡ None) }
{
    let command = match commands::program(alloc) {
        Ok(command) => command,
        Err(_) => return Err(LineFault::Memory),
    };
    let matches = match command.try_get_matches_from(words) {
        Ok(matches) => matches,
        Err(error) => return Err(LineFault::of(alloc, &error)),
    };
    let Some((name, inner)) = matches.subcommand() else {
        return Err(LineFault::nothing_asked(alloc));
    };
    match line_from(alloc, name, inner) {
        Ok(Some(line)) => Ok(line),
        Ok(None) => Err(LineFault::nothing_asked(alloc)),
        Err(_) => Err(LineFault::Memory),
    }
}

/// What clap's meaning gives for command lines that are written out, right and wrong ones.
pub fn written_out()
    ensures pairs { order_in (codes "tcatool" ∷ codes "pairs" ∷ codes "a" ∷ codes "b" ∷ []) ≡ Some (pairs (codes "a" ∷ codes "b" ∷ [])) }
    ensures no_input { order_in (codes "tcatool" ∷ codes "pairs" ∷ []) ≡ None }
    ensures list { order_in (codes "tcatool" ∷ codes "list" ∷ codes "a" ∷ []) ≡ Some (list None (codes "a" ∷ [])) }
    ensures list_plan { order_in (codes "tcatool" ∷ codes "list" ∷ codes "--plan" ∷ codes "p" ∷ codes "a" ∷ codes "b" ∷ []) ≡ Some (list (Some (codes "p")) (codes "a" ∷ codes "b" ∷ [])) }
    ensures plan_behind { order_in (codes "tcatool" ∷ codes "list" ∷ codes "a" ∷ codes "--plan=p" ∷ []) ≡ Some (list (Some (codes "p")) (codes "a" ∷ [])) }
    ensures plan_alone { order_in (codes "tcatool" ∷ codes "list" ∷ codes "--plan" ∷ codes "p" ∷ []) ≡ None }
    ensures diff { order_in (codes "tcatool" ∷ codes "diff" ∷ codes "x" ∷ codes "y" ∷ []) ≡ Some (diff (codes "x") (codes "y")) }
    ensures one_side { order_in (codes "tcatool" ∷ codes "diff" ∷ codes "x" ∷ []) ≡ None }
    ensures three_sides { order_in (codes "tcatool" ∷ codes "diff" ∷ codes "x" ∷ codes "y" ∷ codes "z" ∷ []) ≡ None }
    ensures table { order_in (codes "tcatool" ∷ codes "table" ∷ codes "s" ∷ []) ≡ Some (table (codes "s")) }
    ensures two_tables { order_in (codes "tcatool" ∷ codes "table" ∷ codes "s" ∷ codes "t" ∷ []) ≡ None }
    ensures json { order_in (codes "tcatool" ∷ codes "json" ∷ codes "s" ∷ []) ≡ Some (json (codes "s")) }
    ensures page { order_in (codes "tcatool" ∷ codes "page" ∷ codes "o" ∷ codes "s" ∷ []) ≡ Some (page false (codes "o") (codes "s")) }
    ensures page_progress { order_in (codes "tcatool" ∷ codes "page" ∷ codes "--progress" ∷ codes "o" ∷ codes "s" ∷ []) ≡ Some (page true (codes "o") (codes "s")) }
    ensures page_alone { order_in (codes "tcatool" ∷ codes "page" ∷ codes "o" ∷ []) ≡ None }
    ensures split { order_in (codes "tcatool" ∷ codes "split" ∷ codes "d" ∷ codes "c" ∷ []) ≡ Some (split false (codes "d") (codes "c")) }
    ensures split_progress { order_in (codes "tcatool" ∷ codes "split" ∷ codes "d" ∷ codes "c" ∷ codes "--progress" ∷ []) ≡ Some (split true (codes "d") (codes "c")) }
    ensures two_captures { order_in (codes "tcatool" ∷ codes "split" ∷ codes "d" ∷ codes "c" ∷ codes "e" ∷ []) ≡ None }
    ensures add { order_in (codes "tcatool" ∷ codes "add" ∷ codes "s" ∷ codes "t" ∷ []) ≡ Some (add (codes "s" ∷ codes "t" ∷ [])) }
    ensures nothing_added { order_in (codes "tcatool" ∷ codes "add" ∷ []) ≡ None }
    ensures no_words { order_in ([]) ≡ None }
    ensures no_command { order_in (codes "tcatool" ∷ []) ≡ None }
    ensures unknown_command { order_in (codes "tcatool" ∷ codes "bill" ∷ codes "a" ∷ []) ≡ None }
    ensures unknown_option { order_in (codes "tcatool" ∷ codes "pairs" ∷ codes "--plan" ∷ codes "p" ∷ codes "a" ∷ []) ≡ None }
    ensures help { order_in (codes "tcatool" ∷ codes "--help" ∷ []) ≡ None }
{}
