//! Statements as they are read.
ghost use Rattle.std.specs.Prelude.{◌≡◌, ◌≢◌, ◌++◌, ◌∷◌, ◌-◌, ◌+◌, ℕ, [], MatchResult, IfErr, IfOk, IfSome, None, length};
ghost use Rattle.tca_figures.specs.Figures.{Stated};
ghost use Rattle.tca_figures.specs.Lines.{IsTextOf};
ghost use Rattle.tca_figures.specs.Reading.{IsFirstFault, line_number, parts};
ghost use Rattle.tca_figures.specs.inside.Refusals.{fault_at};
ghost use Rattle.tca_figures.specs.declared.fault.StatementFault.TheVariants as faults;

use crate::fault::StatementFault;
use crate::figures::Figures;
use crate::reader::{Reader, Refusal};
use memchr::memchr;
use std::alloc::Global;

// The octets before the first line feed, and those behind it.
fn next_line(octets: &[u8]) -> Option<(&[u8], &[u8])>
    ensures cut { IfSome result (λ p. octets.now ≡ p.0.now ++ 10 ∷ p.1.now) }
    ensures first { IfSome result (λ p. parts octets.now ≡ p.0.now ∷ parts p.1.now) }
    ensures none { result ≡ None → parts octets.now ≡ octets.now ∷ [] }
{
    let at = memchr(b'\n', octets)?;
    Some((&octets[..at], &octets[at + 1..]))
}

// The number by which the line behind so many is told.
fn line_number(before: usize) -> u32
    ensures { result ≡ line_number before }
{
    before.saturating_add(1).min(u32::MAX as usize) as u32
}

// The fault for which the line behind so many is refused, where so many periods of the account are read.
fn fault_at(refusal: Refusal, before: usize, spans: usize) -> StatementFault
    ensures { result ≡ fault_at refusal before spans }
{
    match refusal {
        Refusal::Line => StatementFault::Line {
            line: line_number(before),
        },
        Refusal::Sum => StatementFault::Sum {
            line: line_number(before.saturating_sub(spans).saturating_sub(1)),
        },
        Refusal::Memory => StatementFault::Memory,
    }
}

/// Reads a statement. A fault is that of the first line that may not stand there, or at which the statement ends too early; or of an account's total
/// that isn't the sum of its periods, which is told by the total's line once all lines of the account are read. Memory is taken line by line, and
/// want of it told where the lines before are right and so is the one that it is taken for.
pub fn read_statement(alloc: Global, octets: &[u8]) -> Result<Figures, StatementFault>
    ensures found { IfOk result (IsTextOf octets.now) }
    ensures only { (s : Stated) → IsTextOf octets.now s → MatchResult result (λ f. f ≡ s) (λ e. e ≡ faults.Memory) }
    ensures refused { IfErr result (IsFirstFault octets.now) }
{
    let mut reader = Reader::new(alloc);
    let mut before = 0;
    let mut rest = octets;
    while let Some((line, behind)) = next_line(rest) {
        if let Err(refusal) = reader.take_octets(line) {
            return Err(fault_at(refusal, before, reader.spans()));
        }
        before += 1;
        rest = behind;
    }
    if rest.is_empty() && reader.is_ended() {
        Ok(reader.into_figures())
    } else {
        Err(fault_at(Refusal::Line, before, 0))
    }
}
