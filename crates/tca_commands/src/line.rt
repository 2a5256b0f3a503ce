//! The words of a command line.
ghost use Rattle.std.specs.Prelude.{◌≡◌, ◌≢◌, ◌≤◌, ◌∷◌, [], IfOk, IfErr, IfSome, Some, None, codes, length, map, option_and_then, option_map, slice_get};
ghost use Rattle.clap.specs.Words.{all_of, first_of, found_of, rows_of};
ghost use Rattle.tca_program.specs.Words.{texts};
ghost use Rattle.tca_commands.specs.Commands.{most_billed};
ghost use Rattle.tca_commands.specs.Lines.{IsWithin, bill, bill_of, billed, number_at, combine, combine_of, command_of, inputs_of, meter, meter_of, order_from, order_in, order_of, audit, audit_of, files_of};

use crate::commands::{self, MOST_BILLED, MOST_REPLICAS, MOST_WORKERS};
use clap::ArgMatches;
use std::alloc::{AllocError, Global};
use tca_program::{LineFault, text, texts};

/// What the words of a command line ask for. The words of inputs are those of `split_word`; OUT, PLAN, EXPORT, STATEMENT and the file of
/// an export are paths.
#[derive(Debug, Drop)]
pub enum Line<'a> {
    Meter {
        spec: &'a str,
        inputs: Vec<&'a str>,
    },
    Combine {
        out: &'a str,
        inputs: Vec<&'a str>,
    },
    Bill {
        replicas: u32,
        workers: u32,
        export: Option<&'a str>,
        plan: &'a str,
        inputs: Vec<&'a str>,
    },
    Audit {
        plan: &'a str,
        export: &'a str,
        statement: &'a str,
    },
}

impl<'a> Line<'a> {
    /// The command's name.
    pub fn command(&self) -> &'static str
        ensures { result.now ≡ command_of (order_of self.now) }
    {
        match self {
            Line::Meter { .. } => "meter",
            Line::Combine { .. } => "combine",
            Line::Bill { .. } => "bill",
            Line::Audit { .. } => "audit",
        }
    }

    /// The words of the inputs.
    pub fn inputs(&self) -> &[&'a str]
        ensures { texts result.now ≡ inputs_of (order_of self.now) }
    {
        match self {
            Line::Meter { inputs, .. } => inputs.as_slice(),
            Line::Combine { inputs, .. } => inputs.as_slice(),
            Line::Bill { inputs, .. } => inputs.as_slice(),
            Line::Audit { .. } => &[],
        }
    }

    /// The word of a file by its number: an input, or of an audit the export, number 0, or the statement, number 1.
    pub fn file(&self, number: u32) -> Option<&'a str>
        ensures { option_map (λ s. s.now) result ≡ slice_get (files_of (order_of self.now)) number }
    {
        match self {
            Line::Meter { inputs, .. } => inputs.get(number as usize).copied(),
            Line::Combine { inputs, .. } => inputs.get(number as usize).copied(),
            Line::Bill { inputs, .. } => inputs.get(number as usize).copied(),
            Line::Audit {
                export,
                statement,
                ..
            } => match number {
                0 => Some(*export),
                1 => Some(*statement),
                _ => None,
            },
        }
    }
}

// What `meter` was asked for, from its matches.
fn meter_line<'a>(alloc: Global, matches: &ArgMatches<'a>) -> Result<Option<Line<'a>>, AllocError>
    ensures line { IfOk result (λ o. option_map order_of o ≡ meter_of (rows_of (found_of matches.now))) }
    ensures within { IfOk result (λ o. IfSome o (λ l. IsWithin (order_of l))) }
{
    let Some(spec) = text(matches, "SPEC") else {
        return Ok(None);
    };
    let Some(inputs) = texts(alloc, matches, "INPUT")? else {
        return Ok(None);
    };
    Ok(Some(Line::Meter { spec, inputs }))
}

// What `combine` was asked for.
fn combine_line<'a>(alloc: Global, matches: &ArgMatches<'a>) -> Result<Option<Line<'a>>, AllocError>
    ensures line { IfOk result (λ o. option_map order_of o ≡ combine_of (rows_of (found_of matches.now))) }
    ensures within { IfOk result (λ o. IfSome o (λ l. IsWithin (order_of l))) }
{
    let Some(out) = text(matches, "OUT") else {
        return Ok(None);
    };
    let Some(inputs) = texts(alloc, matches, "INPUT")? else {
        return Ok(None);
    };
    Ok(Some(Line::Combine { out, inputs }))
}

// A number from 1 to `most`.
fn number(matches: &ArgMatches<'_>, id: &str, most: u32) -> Option<u32>
    ensures number { result ≡ number_at most id.now (rows_of (found_of matches.now)) }
    ensures within { IfSome result (λ n. (1 ≤ n) × (n ≤ most)) }
{
    match matches.get_one::<u32>(id) {
        Some(n) if 1 <= n && n <= most => Some(n),
        _ => None,
    }
}

// The words of a bill's inputs, where there are neither too few nor too many.
fn billed<'a>(alloc: Global, matches: &ArgMatches<'a>) -> Result<Option<Vec<&'a str>>, AllocError>
    ensures inputs { IfOk result (λ o. option_map (λ v. texts v.items) o
        ≡ option_and_then billed (all_of (codes "INPUT") (rows_of (found_of matches.now)))) }
    ensures within { IfOk result (λ o. IfSome o (λ v. (1 ≤ length v.items) × (length v.items ≤ most_billed))) }
{
    let Some(inputs) = texts(alloc, matches, "INPUT")? else {
        return Ok(None);
    };
    if inputs.is_empty() || inputs.len() > MOST_BILLED {
        return Ok(None);
    }
    Ok(Some(inputs))
}

// What `bill` was asked for.
fn bill_line<'a>(alloc: Global, matches: &ArgMatches<'a>) -> Result<Option<Line<'a>>, AllocError>
    ensures line { IfOk result (λ o. option_map order_of o ≡ bill_of (rows_of (found_of matches.now))) }
    ensures within { IfOk result (λ o. IfSome o (λ l. IsWithin (order_of l))) }
{
    let Some(replicas) = number(matches, "replicas", MOST_REPLICAS) else {
        return Ok(None);
    };
    let Some(workers) = number(matches, "workers", MOST_WORKERS) else {
        return Ok(None);
    };
    let Some(plan) = text(matches, "PLAN") else {
        return Ok(None);
    };
    let Some(inputs) = billed(alloc, matches)? else {
        return Ok(None);
    };
    let export = text(matches, "export");
    Ok(Some(Line::Bill {
        replicas,
        workers,
        export,
        plan,
        inputs,
    }))
}

// What `audit` was asked for.
fn audit_line<'a>(matches: &ArgMatches<'a>) -> Option<Line<'a>>
    ensures line { option_map order_of result ≡ audit_of (rows_of (found_of matches.now)) }
    ensures within { IfSome result (λ l. IsWithin (order_of l)) }
{
    let plan = text(matches, "PLAN")?;
    let export = text(matches, "EXPORT")?;
    let statement = text(matches, "STATEMENT")?;
    Some(Line::Audit {
        plan,
        export,
        statement,
    })
}

// What the command of this name was asked for.
fn line_from<'a>(
    alloc: Global,
    name: &str,
    matches: &ArgMatches<'a>,
) -> Result<Option<Line<'a>>, AllocError>
    ensures line { IfOk result (λ o. option_map order_of o
        ≡ order_from name.now (rows_of (found_of matches.now))) }
    ensures within { IfOk result (λ o. IfSome o (λ l. IsWithin (order_of l))) }
{
    match name {
        "meter" => meter_line(alloc, matches),
        "combine" => combine_line(alloc, matches),
        "bill" => bill_line(alloc, matches),
        "audit" => Ok(audit_line(matches)),
        _ => Ok(None),
    }
}

/// Reads the words of a command line, of which the first is the program's own name. Ok is what
/// they ask for by clap's meaning of the commands; words that have such a meaning are refused for
/// want of memory alone. A bill that is read has 1 to 16 replicas, 1 to 64 workers of each and 1 to 256 inputs.
pub fn read_line<'a>(alloc: Global, words: &'a [&'a str]) -> Result<Line<'a>, LineFault>
    ensures ok { IfOk result (λ l. order_in (map (λ s. s.now) words.entry.now) ≡ Some (order_of l)) }
    ensures refused { IfErr result (λ e. e ≢ LineFault.Memory
        → order_in (map (λ s. s.now) words.entry.now) ≡ None) }
    ensures within { IfOk result (λ l. IsWithin (order_of l)) }
{
    let command = match commands::program(alloc) {
        Ok(command) => command,
        Err(_) => return Err(LineFault::Memory),
    };
    let matches = match command.try_get_matches_from(words) {
        Ok(matches) => matches,
        Err(error) => return Err(LineFault::of(alloc, &error)),
    };
    let Some((name, inner)) = matches.subcommand() else {
        return Err(LineFault::nothing_asked(alloc));
    };
    match line_from(alloc, name, inner) {
        Ok(Some(line)) => Ok(line),
        Ok(None) => Err(LineFault::nothing_asked(alloc)),
        Err(_) => Err(LineFault::Memory),
    }
}

/// What clap's meaning gives for command lines that are written out, right and wrong ones.
pub fn written_out()
    ensures one_input { order_in (codes "tcacct" ∷ codes "meter" ∷ codes "rfc2697:1000:2000:1000:blind" ∷ codes "a" ∷ [])
        ≡ Some (meter (codes "rfc2697:1000:2000:1000:blind") (codes "a" ∷ [])) }
    ensures two_inputs { order_in (codes "tcacct" ∷ codes "meter" ∷ codes "s" ∷ codes "a" ∷ codes "b" ∷ [])
        ≡ Some (meter (codes "s") (codes "a" ∷ codes "b" ∷ [])) }
    ensures union { order_in (codes "tcacct" ∷ codes "combine" ∷ codes "o" ∷ codes "a" ∷ codes "b" ∷ codes "c" ∷ [])
        ≡ Some (combine (codes "o") (codes "a" ∷ codes "b" ∷ codes "c" ∷ [])) }
    ensures dashes { order_in (codes "tcacct" ∷ codes "combine" ∷ codes "--" ∷ codes "-o" ∷ codes "-a" ∷ [])
        ≡ Some (combine (codes "-o") (codes "-a" ∷ [])) }
    ensures no_words { order_in ([]) ≡ None }
    ensures no_command { order_in (codes "tcacct" ∷ []) ≡ None }
    ensures bill { order_in (codes "tcacct" ∷ codes "bill" ∷ codes "plan" ∷ codes "a" ∷ codes "b" ∷ [])
        ≡ Some (bill 2 2 None (codes "plan") (codes "a" ∷ codes "b" ∷ [])) }
    ensures bill_export { order_in (codes "tcacct" ∷ codes "bill" ∷ codes "--export" ∷ codes "o" ∷ codes "plan" ∷ codes "a" ∷ [])
        ≡ Some (bill 2 2 (Some (codes "o")) (codes "plan") (codes "a" ∷ [])) }
    ensures export_behind { order_in (codes "tcacct" ∷ codes "bill" ∷ codes "plan" ∷ codes "a" ∷ codes "b" ∷ codes "--export=o" ∷ [])
        ≡ Some (bill 2 2 (Some (codes "o")) (codes "plan") (codes "a" ∷ codes "b" ∷ [])) }
    ensures plan_alone { order_in (codes "tcacct" ∷ codes "bill" ∷ codes "plan" ∷ []) ≡ None }
    ensures two_exports { order_in (codes "tcacct" ∷ codes "bill" ∷ codes "--export" ∷ codes "o" ∷ codes "--export" ∷ codes "p" ∷ codes "plan" ∷ codes "a" ∷ []) ≡ None }
    ensures replicas_and_workers { order_in (codes "tcacct" ∷ codes "bill" ∷ codes "--workers" ∷ codes "64" ∷ codes "--replicas=16" ∷ codes "plan" ∷ codes "a" ∷ [])
        ≡ Some (bill 16 64 None (codes "plan") (codes "a" ∷ [])) }
    ensures no_replica { order_in (codes "tcacct" ∷ codes "bill" ∷ codes "--replicas" ∷ codes "0" ∷ codes "plan" ∷ codes "a" ∷ []) ≡ None }
    ensures many_replicas { order_in (codes "tcacct" ∷ codes "bill" ∷ codes "--replicas" ∷ codes "17" ∷ codes "plan" ∷ codes "a" ∷ []) ≡ None }
    ensures no_worker { order_in (codes "tcacct" ∷ codes "bill" ∷ codes "--workers" ∷ codes "0" ∷ codes "plan" ∷ codes "a" ∷ []) ≡ None }
    ensures many_workers { order_in (codes "tcacct" ∷ codes "bill" ∷ codes "--workers" ∷ codes "65" ∷ codes "plan" ∷ codes "a" ∷ []) ≡ None }
    ensures audit { order_in (codes "tcacct" ∷ codes "audit" ∷ codes "plan" ∷ codes "e" ∷ codes "s" ∷ [])
        ≡ Some (audit (codes "plan") (codes "e") (codes "s")) }
    ensures no_statement { order_in (codes "tcacct" ∷ codes "audit" ∷ codes "plan" ∷ codes "e" ∷ []) ≡ None }
    ensures fourth_word { order_in (codes "tcacct" ∷ codes "audit" ∷ codes "plan" ∷ codes "e" ∷ codes "s" ∷ codes "t" ∷ []) ≡ None }
    ensures unknown_command { order_in (codes "tcacct" ∷ codes "check" ∷ codes "plan" ∷ codes "a" ∷ codes "b" ∷ []) ≡ None }
    ensures no_input { order_in (codes "tcacct" ∷ codes "meter" ∷ codes "s" ∷ []) ≡ None }
    ensures third_input { order_in (codes "tcacct" ∷ codes "meter" ∷ codes "s" ∷ codes "a" ∷ codes "b" ∷ codes "c" ∷ []) ≡ None }
    ensures no_file { order_in (codes "tcacct" ∷ codes "combine" ∷ codes "o" ∷ []) ≡ None }
    ensures unknown_option { order_in (codes "tcacct" ∷ codes "meter" ∷ codes "--quiet" ∷ codes "s" ∷ codes "a" ∷ []) ≡ None }
    ensures help { order_in (codes "tcacct" ∷ codes "--help" ∷ []) ≡ None }
{}
