//! The pairs of an observation domain and an interface that an account owns.
ghost use Rattle.std.specs.Prelude.{◌≡◌, IfOk, IsOk};
ghost use Rattle.toml.specs.View.{items_view, table_view, view};
ghost use Rattle.tca_join.specs.Results.{Gives};
ghost use Rattle.tca_accounts.specs.Documents.{pair_in, pairs_in, pairs_of, part_of};
ghost use Rattle.tca_accounts.specs.inside.Readings.{each_is_pair, pairs_read};
ghost use Rattle.tca_accounts.specs.declared.fault.PlanFault.TheVariants.{Memory};

use crate::document::{at, items, whole};
use crate::fault::PlanFault;
use crate::key::Key;
use std::alloc::Global;
use toml::{Table, Value};

// The number of an observation domain or an interface.
fn part(value: &Value) -> Result<u32, PlanFault>
    ensures { result ≡ part_of (view value.now) }
{
    let number = whole(Some(value), Key::Keys, 0, u32::MAX as u64)?;
    Ok(number as u32)
}

/// A pair. `Wrong` of `keys` where the value isn't an array of two integers in 32 bits.
pub(crate) fn pair(value: &Value) -> Result<(u32, u32), PlanFault>
    ensures { result ≡ pair_in (view value.now) }
{
    let values = items(Some(value), Key::Keys)?;
    if values.len() != 2 {
        return Err(PlanFault::Wrong { key: Key::Keys });
    }
    let domain = part(&values[0])?;
    let iface = part(&values[1])?;
    Ok((domain, iface))
}

// Whether each of these values is a pair; the first that isn't decides.
fn judge(values: &[Value]) -> Result<(), PlanFault>
    ensures { result ≡ each_is_pair (items_view values.now) }
{
    for value in values {
        pair(value)?;
    }
    Ok(())
}

/// The values of an account's pairs, each of them a pair. `Missing` or `Wrong` of `keys` where there are none
/// or where one is no pair.
pub(crate) fn judged(table: &Table) -> Result<&[Value], PlanFault>
    ensures exact { pairs_read result ≡ pairs_in (table_view table.now) }
    ensures ok { IfOk result (λ values. IsOk (pairs_of (items_view values.now))) }
{
    let values = items(at(table, Key::Keys), Key::Keys)?;
    if values.is_empty() {
        return Err(PlanFault::Wrong { key: Key::Keys });
    }
    judge(values)?;
    Ok(values)
}

/// The pairs that values are.
pub(crate) fn pairs(alloc: Global, values: &[Value]) -> Result<Vec<(u32, u32)>, PlanFault>
    ensures { Gives Memory (λ list. list.items) result (pairs_of (items_view values.now)) }
{
    let mut list = Vec::new(alloc);
    for value in values {
        let next = pair(value)?;
        list.push(next)?;
    }
    Ok(list)
}
