//! What the accounts of a document have to be together, found without memory.
ghost use Rattle.std.specs.Prelude.{◌≡◌, ◌+◌, ◌≤◌, IfOk, IsOk, length};
ghost use Rattle.std.specs.List.{list_any};
ghost use Rattle.std.specs.Str.{bytes_eq};
ghost use Rattle.toml.specs.View.{items_view, view};
ghost use Rattle.tca_accounts.specs.Plans.{most_accounts, owns, same_pair};
ghost use Rattle.tca_accounts.specs.Documents.{accounts_from, pairs_of};
ghost use Rattle.tca_accounts.specs.inside.Readings.{are_accounts, are_few, differ_from, pairs_at, mapped, names_differ, named_in, of_accounts, of_pairs, pairs_differ, pairs_read};

use crate::account::MOST_PAIRS;
use crate::draft::read_account;
use crate::fault::PlanFault;
use crate::pairs::pair;
use toml::Value;

// The name of an account.
fn name_of(account: u32, value: &Value) -> Result<&str, PlanFault>
    ensures { mapped (λ s. s.now) result ≡ named_in account (view value.now) }
{
    match read_account(account, value) {
        Ok(draft) => Ok(draft.name),
        Err(fault) => Err(fault),
    }
}

// The values of an account's pairs.
fn pair_values(account: u32, value: &Value) -> Result<&[Value], PlanFault>
    ensures exact { pairs_read result ≡ pairs_at account (view value.now) }
    ensures ok { IfOk result (λ pairs. IsOk (pairs_of (items_view pairs.now))) }
{
    match read_account(account, value) {
        Ok(draft) => Ok(draft.pairs),
        Err(fault) => Err(fault),
    }
}

// Whether all accounts together have 4,096 pairs at most.
fn has_few_pairs(values: &[Value]) -> Result<bool, PlanFault>
    requires { length values.now ≤ most_accounts }
    ensures { result ≡ of_accounts are_few 0 (items_view values.now) }
{
    let mut account = 0;
    let mut count = 0usize;
    for value in values {
        count = count.saturating_add(pair_values(account, value)?.len());
        account += 1;
    }
    Ok(count <= MOST_PAIRS)
}

// Whether one of the accounts from this one on has a name.
fn has_name(first: u32, values: &[Value], name: &str) -> Result<bool, PlanFault>
    requires { first + length values.now ≤ most_accounts }
    ensures { result ≡ of_accounts (list_any (λ a. bytes_eq name.now a.name)) first (items_view values.now) }
{
    let mut account = first;
    let mut found = false;
    for value in values {
        let other = name_of(account, value)?;
        found |= *name == *other;
        account += 1;
    }
    Ok(found)
}

// Whether no two accounts have one name.
fn names_differ(values: &[Value]) -> Result<bool, PlanFault>
    requires { length values.now ≤ most_accounts }
    ensures { result ≡ of_accounts names_differ 0 (items_view values.now) }
{
    let mut next = 0;
    let mut differ = true;
    for value in values {
        let name = name_of(next as u32, value)?;
        next += 1;
        differ &= !has_name(next as u32, &values[next..], name)?;
    }
    Ok(differ)
}

// Whether a pair is one of these values.
fn is_listed(pairs: &[Value], sought: (u32, u32)) -> Result<bool, PlanFault>
    ensures { result ≡ of_pairs (list_any (same_pair sought)) (items_view pairs.now) }
{
    let mut found = false;
    for value in pairs {
        let other = pair(value)?;
        found |= sought == other;
    }
    Ok(found)
}

// Whether one of the accounts from this one on has a pair.
fn is_owned(first: u32, values: &[Value], sought: (u32, u32)) -> Result<bool, PlanFault>
    requires { first + length values.now ≤ most_accounts }
    ensures { result ≡ of_accounts (list_any (λ a. owns a sought)) first (items_view values.now) }
{
    let mut account = first;
    let mut found = false;
    for value in values {
        found |= is_listed(pair_values(account, value)?, sought)?;
        account += 1;
    }
    Ok(found)
}

// Whether none of an account's pairs is one behind it, or one of the accounts from the next one on.
fn differ_from(pairs: &[Value], first: u32, values: &[Value]) -> Result<bool, PlanFault>
    requires few { first + length values.now ≤ most_accounts }
    requires others { IsOk (accounts_from first (items_view values.now)) }
    ensures { result ≡ differ_from first (items_view values.now) (items_view pairs.now) }
{
    let mut next = 0;
    let mut differ = true;
    for value in pairs {
        let sought = pair(value)?;
        next += 1;
        let behind = is_listed(&pairs[next..], sought)?;
        let owned = is_owned(first, values, sought)?;
        differ &= !(behind | owned);
    }
    Ok(differ)
}

// Whether no pair has two accounts, or one account twice.
fn pairs_differ(values: &[Value]) -> Result<bool, PlanFault>
    requires few { length values.now ≤ most_accounts }
    requires all { IsOk (accounts_from 0 (items_view values.now)) }
    ensures { result ≡ of_accounts pairs_differ 0 (items_view values.now) }
{
    let mut next = 0;
    let mut differ = true;
    for value in values {
        let pairs = pair_values(next as u32, value)?;
        next += 1;
        differ &= differ_from(pairs, next as u32, &values[next..])?;
    }
    Ok(differ)
}

/// Judges the accounts of a document: each of them in their order, then `Limits` for more than 4,096 pairs,
/// then `KeyTwice` for a pair or a name that stands twice. It takes no memory, but time by the square of the
/// number of pairs, so it is asked only where memory lacks.
#[cold]
pub(crate) fn check(values: &[Value]) -> Result<(), PlanFault>
    requires { length values.now ≤ most_accounts }
    ensures { result ≡ are_accounts (items_view values.now) }
{
    if !has_few_pairs(values)? {
        return Err(PlanFault::Limits);
    }
    let pairs = pairs_differ(values)?;
    let names = names_differ(values)?;
    if !(pairs && names) {
        return Err(PlanFault::KeyTwice);
    }
    Ok(())
}
