//! The lines of a statement, one at a time.
ghost use Rattle.std.specs.Prelude.{◌≡◌, ◌≢◌, ◌<◌, ◌≤◌, ◌*◌, ◌^◌, ℕ, Some, IfSome, List, MatchBool, true, get_or, length};
ghost use Rattle.std.specs.List.{list_all};
ghost use Rattle.std.specs.Option.{MatchOption};
ghost use Rattle.tca_accounts.specs.Plans.{is_name, is_name_octet};
ghost use Rattle.tca_report.specs.report.Reports.{time_end};
ghost use Rattle.tca_figures.specs.Figures.{AreFigures, IsSpan, packets_of};
ghost use Rattle.tca_figures.specs.Lines.{name_line, number_line, span_line, total_line};
ghost use Rattle.tca_figures.specs.declared.figures.ColourFigures.{ColourFigures};
ghost use Rattle.tca_figures.specs.declared.figures.SpanFigures.{SpanFigures};

use crate::fields::{figures_of, next_of, number_of};
use crate::figures::{ColourFigures, SpanFigures};
use tca_report::TIME_END;

/// The number behind a word and a space.
pub(crate) fn number_behind(word: &str, line: &str) -> Option<u64>
    ensures found { IfSome result (λ n. line.now ≡ number_line word.now n) }
    ensures only { (n : ℕ) → n < 2 ^ 64 → line.now ≡ number_line word.now n → result ≡ Some n }
{
    let Some(behind) = line.strip_prefix(word) else {
        return None;
    };
    let Some(digits) = behind.strip_prefix(' ') else {
        return None;
    };
    number_of(digits)
}

// A letter or digit of ASCII, a hyphen or an underscore.
fn is_name_octet(octet: u8) -> bool
    ensures { result ≡ is_name_octet octet }
{
    matches!(octet, b'A'..=b'Z' | b'a'..=b'z' | b'0'..=b'9' | b'-' | b'_')
}

fn has_name_octets(text: &str) -> bool
    ensures { result ≡ list_all is_name_octet text.now }
{
    text.bytes().all(|octet| is_name_octet(octet))
}

// Whether a text is a name, of 1 to 32 octets.
fn is_name(text: &str) -> bool
    ensures { result ≡ is_name text.now }
{
    !text.is_empty() && text.len() <= 32 && has_name_octets(text)
}

/// The name of an account's line.
pub(crate) fn name_in(line: &str) -> Option<&str>
    ensures found { IfSome result (λ name. (line.now ≡ name_line name.now) × (is_name name.now ≡ true)) }
    ensures only { (name : List ℕ) → is_name name ≡ true → line.now ≡ name_line name → MatchOption result ⊥ (λ found. found.now ≡ name) }
{
    let Some((front, name)) = line.split_once(' ') else {
        return None;
    };
    if front == "account" && is_name(name) {
        Some(name)
    } else {
        None
    }
}

/// The figures of a total's line.
pub(crate) fn total_in(line: &str) -> Option<ColourFigures>
    ensures found { IfSome result (λ c. (line.now ≡ total_line c) × AreFigures c) }
    ensures only { (c : ColourFigures) → AreFigures c → line.now ≡ total_line c → result ≡ Some c }
{
    let Some((front, behind)) = line.split_once(' ') else {
        return None;
    };
    if front != "total" {
        return None;
    }
    figures_of(behind)
}

/// The figures of a period's line, where there is a packet.
pub(crate) fn span_in(period: u64, line: &str) -> Option<SpanFigures>
    ensures found { IfSome result (λ s. (line.now ≡ span_line s) × IsSpan period s) }
    ensures only { (s : SpanFigures) → IsSpan period s → line.now ≡ span_line s → result ≡ Some s }
{
    let Some((front, behind)) = line.split_once(' ') else {
        return None;
    };
    if front != "span" {
        return None;
    }
    let Some((index, fields)) = next_of(behind) else {
        return None;
    };
    let Some(sums) = figures_of(fields) else {
        return None;
    };
    if begins_in_time(period, index) && has_packets(&sums) {
        Some(SpanFigures { index, sums })
    } else {
        None
    }
}

// Whether a period begins before 2^48 ms.
fn begins_in_time(period: u64, index: u64) -> bool
    ensures { MatchBool result (index * period < time_end) (time_end ≤ index * period) }
{
    match index.checked_mul(period) {
        Some(start) => start < TIME_END,
        None => false,
    }
}

// Whether there is a packet of any colour.
fn has_packets(sums: &ColourFigures) -> bool
    ensures { MatchBool result (0 < packets_of sums.now) (packets_of sums.now ≡ 0) }
{
    sums.green.packets != 0 || sums.yellow.packets != 0 || sums.red.packets != 0
}
