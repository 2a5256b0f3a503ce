//! The command `add`.
ghost use Rattle.std.specs.Prelude.{◌≡◌, ◌<◌, ◌^◌, ◌∷◌, IfErr, IfOk, OnOk, length};
ghost use Rattle.tca_figures.specs.Sums.{AreAlike, Fits, IsSumFault, added};
ghost use Rattle.tca_figures.specs.Totals.{IsSumOf};
ghost use Rattle.tca_figures.specs.declared.fault.StatementFault.{StatementFault};
ghost use Rattle.tca_program.specs.Devices.{device};
ghost use Rattle.tcatool.specs.Added.{IsAddDone, IsAddRefused, IsFirstUnfit, texts_of};
ghost use Rattle.tcatool.specs.Told.{statement_refusal};

use crate::told::{read_figures, statement_refusal};
use std::alloc::Global;
use tca_figures::{Figures, add};
use tca_program::{RunFault, put_text};
use tca_report::Write;

// A sum with a statement by its number.
fn add_at(alloc: Global, number: u32, sum: &Figures, more: &Figures) -> Result<Figures, RunFault>
    ensures added { IfOk result (λ s. (s ≡ added sum.now more.now) × AreAlike sum.now more.now × Fits s) }
    ensures refused { IfErr result (λ e. (fault : StatementFault) × IsSumFault sum.now more.now fault
        × (e ≡ statement_refusal number fault)) }
{
    match add(alloc, sum, more) {
        Ok(figures) => Ok(figures),
        Err(fault) => Err(statement_refusal(number, fault)),
    }
}

// The sum of all statements: each is read, and added to those before it, before the next one is looked at.
fn sum_of(alloc: Global, first: &[u8], others: &[Vec<u8>]) -> Result<Figures, RunFault>
    requires few { length others.now < 2 ^ 32 }
    ensures sum { IfOk result (IsSumOf (first.now ∷ texts_of others.now)) }
    ensures refused { IfErr result (IsFirstUnfit (first.now ∷ texts_of others.now)) }
{
    let mut sum = read_figures(alloc, 0, first)?;
    for (before, text) in others.iter().enumerate() {
        let number = before as u32 + 1;
        let more = read_figures(alloc, number, text)?;
        sum = add_at(alloc, number, &sum, &more)?;
    }
    Ok(sum)
}

/// Writes the sum of statements of one period and the same accounts in the same order, of which there is one at least: the counts, and each
/// account's total and periods, are added up.
///
/// One statement after the other is read and added to those before it. The first that is no statement, tells of another period or account
/// (`statement` 3), or has a sum above 2^64 - 1 (`statement` 4), is refused by its number. All memory is taken before the first write. A
/// refusal but that of a write leaves `out` as it was; that of a write says that only a part of the sum went out.
pub fn run_add<W: Write>(
    alloc: Global,
    first: &[u8],
    others: &[Vec<u8>],
    out: &mut W,
) -> Result<(), RunFault>
    requires { length others.now < 2 ^ 32 }
    ensures done { OnOk result (IsAddDone (first.now ∷ texts_of others.now)
        (device W.written W.failures out.old) (device W.written W.failures out.new)) }
    ensures refused { IfErr result (IsAddRefused (first.now ∷ texts_of others.now)
        (device W.written W.failures out.old) (device W.written W.failures out.new)) }
{
    let sum = sum_of(alloc, first, others)?;
    let text = format!(in alloc; "{sum}")?;
    put_text(&text, out)
}
