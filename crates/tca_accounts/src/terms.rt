//! The terms of an account's meter.
ghost use Rattle.std.specs.Prelude.{◌≡◌, ◌<◌, ◌≤◌, IfOk, length, nat_le};
ghost use Rattle.tca_meters.specs.Termed.{most_terms};
ghost use Rattle.toml.specs.View.{items_view, table_view, view};
ghost use Rattle.tca_accounts.specs.Documents.{judged, term_in, termed_in, terms_from, terms_in, with_terms};
ghost use Rattle.tca_accounts.specs.inside.Readings.{mapped, read_into};
ghost use Rattle.tca_report.specs.report.Reports.{time_end};

use crate::document::{at, has_only, items, truth_or_false, whole};
use crate::fault::PlanFault;
use crate::key::Key;
use crate::meters::{kind, known_term_keys, meter};
use tca_meters::{AnyMeter, MOST_TERMS, MeterFault, Termed};
use tca_report::TIME_END;
use toml::{Table, Value};

/// The last millisecond at which a term may start.
const LAST_START: u64 = TIME_END - 1;

/// The values of an account's terms, none where they are left out. `Wrong` of `term` where it is no array.
pub(crate) fn listed(table: &Table) -> Result<&[Value], PlanFault>
    ensures { mapped (λ v. items_view v.now) result ≡ terms_in (table_view table.now) }
{
    let value = at(table, Key::Term);
    if value.is_none() {
        return Ok(&[]);
    }
    items(value, Key::Term)
}

// The meter of an account or of one of its terms.
fn judged(account: u32, told: Result<AnyMeter, MeterFault>) -> Result<AnyMeter, PlanFault>
    ensures { result ≡ judged account told }
{
    match told {
        Ok(meter) => Ok(meter),
        Err(fault) => Err(PlanFault::Meter { account, fault }),
    }
}

// The term that a value is: the millisecond at which it starts, which is after that of the term before, and its meter.
fn term(account: u32, last: u64, value: &Value) -> Result<(u64, AnyMeter), PlanFault>
    requires { last < time_end }
    ensures value { result ≡ term_in account last (view value.now) }
    ensures start { IfOk result (λ t. t.0 < time_end) }
{
    let Some(table) = value.as_table() else {
        return Err(PlanFault::Wrong { key: Key::Term });
    };
    let kind = kind(table)?;
    if !has_only(table, known_term_keys(kind)) {
        return Err(PlanFault::UnknownKey);
    }
    let from = whole(at(table, Key::From), Key::From, last + 1, LAST_START)?;
    let aware = truth_or_false(at(table, Key::Aware), Key::Aware)?;
    let told = meter(kind, aware, table)?;
    let meter = judged(account, told)?;
    Ok((from, meter))
}

// Reads the terms that values are into the first slots.
fn read_terms(
    account: u32,
    values: &[Value],
    slots: &mut [(u64, AnyMeter)],
) -> Result<(), PlanFault>
    requires { length values.now ≤ length slots.old }
    ensures { read_into (length values.now) slots.new result ≡ terms_from account 0 (items_view values.now) }
{
    let mut last = 0;
    for (n, value) in values.iter().enumerate() {
        let next = term(account, last, value)?;
        last = next.0;
        slots[n] = next;
    }
    Ok(())
}

// Whether these are no more terms than an account may have.
fn are_few(values: &[Value]) -> bool
    ensures { result ≡ nat_le (length values.now) most_terms }
{
    values.len() <= MOST_TERMS
}

// A first meter with the terms that values are, which are read into slots so that no memory is taken.
fn with_terms(account: u32, first: &AnyMeter, values: &[Value]) -> Result<Termed, PlanFault>
    ensures { result ≡ with_terms account first.now (items_view values.now) }
{
    if !are_few(values) {
        return Err(PlanFault::Limits);
    }
    let mut slots = [(0, *first); MOST_TERMS];
    read_terms(account, values, &mut slots)?;
    match Termed::new(*first, &slots[..values.len()]) {
        Some(meter) => Ok(meter),
        None => Err(PlanFault::Limits),
    }
}

/// An account's meter with the terms that values are. The first fault where there is none: that of its own meter; then
/// `Limits` for more than 8 terms; then term by term `Wrong` of `term` for one that is no table, `Missing` or `Wrong`
/// for `meter`, `UnknownKey`, `Missing` or `Wrong` for `from` and the other keys in their order, `Meter`.
pub(crate) fn termed(
    account: u32,
    told: Result<AnyMeter, MeterFault>,
    values: &[Value],
) -> Result<Termed, PlanFault>
    ensures { result ≡ termed_in account told (items_view values.now) }
{
    let first = judged(account, told)?;
    with_terms(account, &first, values)
}
