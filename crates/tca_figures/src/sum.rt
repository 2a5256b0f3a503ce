//! Sums of statements.
ghost use Rattle.std.specs.Prelude.{◌≡◌, ◌<◌, ◌^◌, ◌+◌, ◌⊎◌, ◌++◌, ◌∷◌, [], IfErr, IfOk, OnOk, length, min};
ghost use Rattle.std.specs.List.{AllByRecursion};
ghost use Rattle.std.specs.Option.{MatchOption};
ghost use Rattle.tca_figures.specs.Figures.{AllFit64, IsStatement, plus};
ghost use Rattle.tca_figures.specs.Lines.{account_lines};
ghost use Rattle.tca_figures.specs.Sums.{AllFit, AreAlike, AreInOrder, Fits, FitsAccount, IsFirst, IsOtherAccount, IsSumFault, SumWantsMemory, SumsWantMemory, added, added_account, added_accounts, added_spans, names};
ghost use Rattle.tca_figures.specs.declared.fault.StatementFault.TheVariants as faults;

use crate::fault::StatementFault;
use crate::figures::{AccountFigures, Figures, SpanFigures};
use std::alloc::{AllocError, Global};
use std::cmp::Ordering;

// The line of the first account's name.
const FIRST_ACCOUNT: u32 = 6;

// The line behind those of an account.
fn line_behind(line: u32, account: &AccountFigures) -> u32
    ensures { result ≡ min (line + length (account_lines account.now)) 4294967295 }
{
    let lines = account.spans().len().saturating_add(2);
    line.saturating_add(lines.min(u32::MAX as usize) as u32)
}

// The line of the second accounts that tells of another account than the first ones.
fn other_account(accounts: &[AccountFigures], others: &[AccountFigures]) -> Option<u32>
    ensures { MatchOption result (names accounts.now ≡ names others.now) (IsOtherAccount accounts.now others.now) }
{
    let mut line = FIRST_ACCOUNT;
    let mut left = accounts;
    let mut right = others;
    while let Some((account, left_behind)) = left.split_first() {
        let Some((other, right_behind)) = right.split_first() else {
            return Some(line);
        };
        if account.name() != other.name() {
            return Some(line);
        }
        line = line_behind(line, other);
        left = left_behind;
        right = right_behind;
    }
    if right.is_empty() { None } else { Some(line) }
}

// The sum of two counts.
fn count_sum(count: u64, other: u64) -> Result<u64, StatementFault>
    ensures added { IfOk result (λ sum. sum ≡ count + other) }
    ensures range { IfErr result (λ e. (e ≡ faults.Range) × ¬ (count + other < 2 ^ 64)) }
{
    match count.checked_add(other) {
        Some(sum) => Ok(sum),
        None => Err(StatementFault::Range),
    }
}

// The sums of one period.
fn span_sum(span: SpanFigures, other: SpanFigures) -> Result<SpanFigures, StatementFault>
    ensures added { IfOk result (λ sum. (sum ≡ record { index = span.index; sums = plus span.sums other.sums }) × AllFit64 sum.sums) }
    ensures range { IfErr result (λ e. (e ≡ faults.Range) × ¬ AllFit64 (plus span.sums other.sums)) }
{
    match span.sums.plus(other.sums) {
        Some(sums) => Ok(SpanFigures {
            index: span.index,
            sums,
        }),
        None => Err(StatementFault::Range),
    }
}

// The first period of a sum, and the periods of each that remain.
fn first_of<'a>(
    left: &'a [SpanFigures],
    right: &'a [SpanFigures],
) -> Result<Option<(SpanFigures, &'a [SpanFigures], &'a [SpanFigures])>, StatementFault>
    requires left { AreInOrder left.now }
    requires right { AreInOrder right.now }
    ensures first { IfOk result (λ next. MatchOption next (added_spans left.now right.now ≡ []) (λ n. IsFirst left.now right.now n.0 n.1.now n.2.now)) }
    ensures range { IfErr result (λ e. (e ≡ faults.Range) × ¬ AllFit (added_spans left.now right.now)) }
{
    let Some((span, left_behind)) = left.split_first() else {
        return Ok(first_alone(left, right));
    };
    let Some((other, right_behind)) = right.split_first() else {
        return Ok(Some((*span, left_behind, right)));
    };
    match span.index.cmp(&other.index) {
        Ordering::Less => Ok(Some((*span, left_behind, right))),
        Ordering::Greater => Ok(Some((*other, left, right_behind))),
        Ordering::Equal => {
            let sum = span_sum(*span, *other)?;
            Ok(Some((sum, left_behind, right_behind)))
        }
    }
}

// The first of these periods, where the others are none.
fn first_alone<'a>(
    none: &'a [SpanFigures],
    spans: &'a [SpanFigures],
) -> Option<(SpanFigures, &'a [SpanFigures], &'a [SpanFigures])>
    requires nothing { none.now ≡ [] }
    requires order { AreInOrder spans.now }
    ensures { MatchOption result (added_spans none.now spans.now ≡ []) (λ n. IsFirst none.now spans.now n.0 n.1.now n.2.now) }
{
    let (span, behind) = spans.split_first()?;
    Some((*span, none, behind))
}

// The sum of an account's figures in two statements.
fn account_sum(
    alloc: Global,
    account: &AccountFigures,
    other: &AccountFigures,
) -> Result<AccountFigures, StatementFault>
    requires first { AreInOrder account.now.spans }
    requires second { AreInOrder other.now.spans }
    ensures added { IfOk result (λ sum. (sum ≡ added_account account.now other.now) × FitsAccount sum) }
    ensures refused { IfErr result (λ e. ((e ≡ faults.Memory) × AllFit64 (plus account.now.total other.now.total))
        ⊎ ((e ≡ faults.Range) × ¬ FitsAccount (added_account account.now other.now))) }
{
    let Some(total) = account.total().plus(other.total()) else {
        return Err(StatementFault::Range);
    };
    let mut sum = AccountFigures::named(alloc, account.name())?;
    sum.set_total(total);
    let mut left = account.spans();
    let mut right = other.spans();
    while let Some((span, left_behind, right_behind)) = first_of(left, right)? {
        sum.push(span)?;
        left = left_behind;
        right = right_behind;
    }
    Ok(sum)
}

// Takes one more account.
fn push_account(
    accounts: &mut Vec<AccountFigures>,
    account: AccountFigures,
) -> Result<(), AllocError>
    ensures { OnOk result (accounts.new.items ≡ accounts.old.items ++ account ∷ []) }
{
    accounts.push(account)?;
    Ok(())
}

// The sums of accounts.
fn account_sums(
    alloc: Global,
    accounts: &[AccountFigures],
    others: &[AccountFigures],
) -> Result<Vec<AccountFigures>, StatementFault>
    requires first { AllByRecursion (λ a. AreInOrder a.spans) accounts.now }
    requires second { AllByRecursion (λ a. AreInOrder a.spans) others.now }
    requires alike { names accounts.now ≡ names others.now }
    ensures added { IfOk result (λ sums. (sums.items ≡ added_accounts accounts.now others.now) × AllByRecursion FitsAccount sums.items) }
    ensures refused { IfErr result (λ e. ((e ≡ faults.Memory) × SumsWantMemory (added_accounts accounts.now others.now))
        ⊎ ((e ≡ faults.Range) × ¬ AllByRecursion FitsAccount (added_accounts accounts.now others.now))) }
{
    let mut sums = Vec::new(alloc);
    let mut left = accounts;
    let mut right = others;
    while let Some((account, left_behind)) = left.split_first() {
        let Some((other, right_behind)) = right.split_first() else {
            return Ok(sums);
        };
        let sum = account_sum(alloc, account, other)?;
        push_account(&mut sums, sum)?;
        left = left_behind;
        right = right_behind;
    }
    Ok(sums)
}

// The sum of two statements that are alike.
fn sum_of(alloc: Global, first: &Figures, second: &Figures) -> Result<Figures, StatementFault>
    requires alike { AreAlike first.now second.now }
    ensures added { IfOk result (λ sum. (sum ≡ added first.now second.now) × Fits sum) }
    ensures statement { IfOk result IsStatement }
    ensures refused { IfErr result (λ e. ((e ≡ faults.Memory) × SumWantsMemory first.now second.now)
        ⊎ ((e ≡ faults.Range) × ¬ Fits (added first.now second.now))) }
{
    Ok(Figures {
        period: first.period,
        reports: count_sum(first.reports, second.reports)?,
        disputed: count_sum(first.disputed, second.disputed)?,
        unassigned: count_sum(first.unassigned, second.unassigned)?,
        accounts: account_sums(alloc, &first.accounts, &second.accounts)?,
    })
}

/// The sum of two statements of one period and the same accounts: each count is the sum of both, and so is each account's total and each of its
/// periods. A period that just one has is kept. `Other` tells the first line of the second statement that is of another period or account, `Range`
/// that they are alike and a sum has more than 64 bits. Memory is taken account by account, and want of it told where the sums before have 64
/// bits.
pub fn add(alloc: Global, first: &Figures, second: &Figures) -> Result<Figures, StatementFault>
    ensures added { IfOk result (λ sum. sum ≡ added first.now second.now) }
    ensures alike { IfOk result (λ sum. AreAlike first.now second.now × Fits sum) }
    ensures statement { IfOk result IsStatement }
    ensures refused { IfErr result (IsSumFault first.now second.now) }
{
    if first.period != second.period {
        return Err(StatementFault::Other { line: 2 });
    }
    if let Some(line) = other_account(&first.accounts, &second.accounts) {
        return Err(StatementFault::Other { line });
    }
    sum_of(alloc, first, second)
}
