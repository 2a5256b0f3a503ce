//! The lines of a statement. Each function appends to one text, so that no line is copied twice.
ghost use Rattle.std.specs.Prelude.{◌≡◌, ◌++◌, OnOk, string_bytes};
ghost use Rattle.std.specs.List.{flat_map};
ghost use Rattle.tca_statements.specs.Statements.{account_lines, number_line, opening_lines, span_line, sums_fields, total_line};

use std::alloc::{AllocError, Global};
use tca_accounts::{Bill, Span, Sums, Tally};

// Appends a line of a word and a number.
fn push_number(alloc: Global, word: &str, number: u64, text: &mut String) -> Result<(), AllocError>
    ensures { OnOk result (string_bytes text.new ≡ string_bytes text.old ++ number_line word.now number) }
{
    text.push_str(&format!(in alloc; "{word} {number}\n")?)
}

/// Appends the lines before the accounts.
#[tactic(auto, unfolding(crate::specs::Statements::opening_lines))]
pub(crate) fn push_opening(
    alloc: Global,
    period: u64,
    bill: &Bill,
    text: &mut String,
) -> Result<(), AllocError>
    ensures { OnOk result (string_bytes text.new ≡ string_bytes text.old ++ opening_lines period bill.now) }
{
    text.push_str("tcacct statement 1\n")?;
    push_number(alloc, "period", period, text)?;
    push_number(alloc, "reports", bill.reports as u64, text)?;
    push_number(alloc, "disputed", bill.disputed as u64, text)?;
    push_number(alloc, "unassigned", bill.unassigned as u64, text)
}

// Appends octets and packets of green, yellow and red, each behind a space.
fn push_sums(alloc: Global, sums: &Sums, text: &mut String) -> Result<(), AllocError>
    ensures { OnOk result (string_bytes text.new ≡ string_bytes text.old ++ sums_fields sums.now) }
{
    let [green, yellow, red] = sums.octets();
    let [greens, yellows, reds] = sums.packets();
    text.push_str(&format!(in alloc; " {green} {greens} {yellow} {yellows} {red} {reds}")?)
}

// Appends the line of all of an account's packets.
fn push_total(alloc: Global, total: &Sums, text: &mut String) -> Result<(), AllocError>
    ensures { OnOk result (string_bytes text.new ≡ string_bytes text.old ++ total_line total.now) }
{
    text.push_str("total")?;
    push_sums(alloc, total, text)?;
    text.push_str("\n")
}

// Appends the line of a period.
fn push_span(alloc: Global, span: &Span, text: &mut String) -> Result<(), AllocError>
    ensures { OnOk result (string_bytes text.new ≡ string_bytes text.old ++ span_line span.now) }
{
    let index = span.index;
    text.push_str(&format!(in alloc; "span {index}")?)?;
    push_sums(alloc, &span.sums, text)?;
    text.push_str("\n")
}

// Appends the lines of periods.
fn push_spans(alloc: Global, spans: &[Span], text: &mut String) -> Result<(), AllocError>
    ensures { OnOk result (string_bytes text.new ≡ string_bytes text.old ++ flat_map span_line spans.now) }
{
    for span in spans {
        push_span(alloc, span, text)?;
    }
    Ok(())
}

/// Appends the lines of an account: its name, its total, and its periods in order.
#[tactic(auto, unfolding(crate::specs::Statements::account_lines))]
pub(crate) fn push_account(
    alloc: Global,
    name: &str,
    tally: &Tally,
    text: &mut String,
) -> Result<(), AllocError>
    ensures { OnOk result (string_bytes text.new ≡ string_bytes text.old ++ account_lines name.now tally.now) }
{
    text.push_str("account ")?;
    text.push_str(name)?;
    text.push_str("\n")?;
    push_total(alloc, &tally.total, text)?;
    push_spans(alloc, tally.spans.as_slice(), text)
}
