//! What a table of a TOML document has at a key, by its type.
ghost use Rattle.std.specs.Prelude.{◌≡◌, ◌<◌, ◌≤◌, ◌^◌, IfOk};
ghost use Rattle.std.specs.List.{list_any};
ghost use Rattle.std.specs.Str.{bytes_eq};
ghost use Rattle.toml.specs.View.{items_view, table_view};
ghost use Rattle.tca_accounts.specs.Documents.{at, has_only, items_of, key_name, text_of, truth_of, truth_or_false, whole_of};
ghost use Rattle.tca_accounts.specs.inside.Readings.{found, mapped};

use crate::fault::PlanFault;
use crate::key::Key;
use toml::{Table, Value};

// Whether a name is that of one of these keys.
fn is_known(keys: &[Key], name: &str) -> bool
    ensures { result ≡ list_any (λ k. bytes_eq (key_name k) name.now) keys.now }
{
    keys.iter().any(|key| *key.name() == *name)
}

/// Whether each key of a table is one of these.
pub(crate) fn has_only(table: &Table, keys: &[Key]) -> bool
    ensures { result ≡ has_only keys.now (table_view table.now) }
{
    for name in table.keys() {
        if !is_known(keys, name.as_str()) {
            return false;
        }
    }
    true
}

/// What a table has at a key.
pub(crate) fn at<'a>(table: &'a Table, key: Key) -> Option<&'a Value>
    ensures { found result ≡ at key (table_view table.now) }
{
    table.get(key.name())
}

/// An integer within bounds. `Missing` where there is no value, `Wrong` where it is anything else.
pub(crate) fn whole(
    value: Option<&Value>,
    key: Key,
    least: u64,
    most: u64,
) -> Result<u64, PlanFault>
    requires { most < 2 ^ 63 }
    ensures value { result ≡ whole_of key least most (found value.entry) }
    ensures range { IfOk result (λ n. n ≤ most) }
{
    let Some(value) = value else {
        return Err(PlanFault::Missing { key });
    };
    match value.as_integer() {
        Some(n) if 0 <= n && least <= n as u64 && n as u64 <= most => Ok(n as u64),
        _ => Err(PlanFault::Wrong { key }),
    }
}

/// A truth value. `Missing` where there is no value, `Wrong` where it is anything else.
pub(crate) fn truth(value: Option<&Value>, key: Key) -> Result<bool, PlanFault>
    ensures { result ≡ truth_of key (found value.entry) }
{
    let Some(value) = value else {
        return Err(PlanFault::Missing { key });
    };
    match value.as_bool() {
        Some(holds) => Ok(holds),
        None => Err(PlanFault::Wrong { key }),
    }
}

/// A truth value that is false where it is left out. `Wrong` where it is anything else.
pub(crate) fn truth_or_false(value: Option<&Value>, key: Key) -> Result<bool, PlanFault>
    ensures { result ≡ truth_or_false key (found value.entry) }
{
    if value.is_none() {
        return Ok(false);
    }
    truth(value, key)
}

/// A text. `Missing` where there is no value, `Wrong` where it is anything else.
pub(crate) fn text(value: Option<&Value>, key: Key) -> Result<&str, PlanFault>
    ensures { mapped (λ s. s.now) result ≡ text_of key (found value.entry) }
{
    let Some(value) = value else {
        return Err(PlanFault::Missing { key });
    };
    match value.as_str() {
        Some(text) => Ok(text),
        None => Err(PlanFault::Wrong { key }),
    }
}

/// The elements of an array. `Missing` where there is no value, `Wrong` where it is anything else.
pub(crate) fn items(value: Option<&Value>, key: Key) -> Result<&[Value], PlanFault>
    ensures { mapped (λ v. items_view v.now) result ≡ items_of key (found value.entry) }
{
    let Some(value) = value else {
        return Err(PlanFault::Missing { key });
    };
    match value.as_array() {
        Some(items) => Ok(items.as_slice()),
        None => Err(PlanFault::Wrong { key }),
    }
}
