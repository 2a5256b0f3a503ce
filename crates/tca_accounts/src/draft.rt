//! An account as the document has it.
ghost use Rattle.std.specs.Prelude.{◌≡◌, IfOk, IsOk};
ghost use Rattle.std.specs.List.{list_all};
ghost use Rattle.toml.specs.View.{table_view, view};
ghost use Rattle.tca_join.specs.Results.{Gives};
ghost use Rattle.tca_accounts.specs.Documents.{account_in, colour_named, name_in, other_of};
ghost use Rattle.tca_accounts.specs.Plans.{is_name, is_name_octet};
ghost use Rattle.tca_accounts.specs.inside.Readings.{account_read, drafted, found, mapped};
ghost use Rattle.tca_accounts.specs.declared.fault.PlanFault.TheVariants.{Memory};

use crate::account::Account;
use crate::document::{at, has_only, text, truth_or_false};
use crate::fault::PlanFault;
use crate::key::Key;
use crate::meters::{kind, known_keys, meter};
use crate::pairs::{judged, pairs};
use crate::terms::{listed, termed};
use std::alloc::Global;
use tca_meters::{Colour, Termed};
use toml::{Table, Value};

/// An account whose name and pairs are still those of the document, so that it takes no memory.
#[derive(Clone, Copy)]
pub(crate) struct Draft<'a> {
    pub(crate) name: &'a str,
    meter: Termed,
    other: Colour,
    /// The values of its pairs.
    pub(crate) pairs: &'a [Value],
}

// A letter or digit of ASCII, a hyphen or an underscore.
fn is_name_octet(octet: u8) -> bool
    ensures { result ≡ is_name_octet octet }
{
    matches!(octet, b'A'..=b'Z' | b'a'..=b'z' | b'0'..=b'9' | b'-' | b'_')
}

fn has_name_octets(text: &str) -> bool
    ensures { result ≡ list_all is_name_octet text.now }
{
    text.bytes().all(|octet| is_name_octet(octet))
}

// Whether a text is a name, of 1 to 32 octets.
fn is_name(text: &str) -> bool
    ensures { result ≡ is_name text.now }
{
    !text.is_empty() && text.len() <= 32 && has_name_octets(text)
}

// An account's name.
fn name(table: &Table) -> Result<&str, PlanFault>
    ensures { mapped (λ s. s.now) result ≡ name_in (table_view table.now) }
{
    let name = text(at(table, Key::Name), Key::Name)?;
    if !is_name(name) {
        return Err(PlanFault::Wrong { key: Key::Name });
    }
    Ok(name)
}

// The colour that a word names.
fn colour_named(word: &str) -> Result<Colour, PlanFault>
    ensures { result ≡ colour_named word.now }
{
    if word == "green" {
        Ok(Colour::Green)
    } else if word == "yellow" {
        Ok(Colour::Yellow)
    } else if word == "red" {
        Ok(Colour::Red)
    } else {
        Err(PlanFault::Wrong { key: Key::Other })
    }
}

// The colour of the code points that have none of their own, green where it is left out.
fn other(value: Option<&Value>) -> Result<Colour, PlanFault>
    ensures { result ≡ other_of (found value.entry) }
{
    if value.is_none() {
        return Ok(Colour::Green);
    }
    colour_named(text(value, Key::Other)?)
}

/// The account, counted from 0, that a value is: a table with the keys of an account with its kind of meter.
/// The first fault where it is none: not a table, its kind of meter, a key that isn't known, the other keys in
/// their order, the meter, and then its terms.
pub(crate) fn read_account(account: u32, value: &Value) -> Result<Draft<'_>, PlanFault>
    ensures exact { account_read result ≡ account_in account (view value.now) }
    ensures ok { IfOk result (λ d. IsOk (account_in account (view value.now))) }
{
    let Some(table) = value.as_table() else {
        return Err(PlanFault::Wrong { key: Key::Account });
    };
    let kind = kind(table)?;
    if !has_only(table, known_keys(kind)) {
        return Err(PlanFault::UnknownKey);
    }
    let name = name(table)?;
    let aware = truth_or_false(at(table, Key::Aware), Key::Aware)?;
    let other = other(at(table, Key::Other))?;
    let told = meter(kind, aware, table)?;
    let pairs = judged(table)?;
    let terms = listed(table)?;
    let meter = termed(account, told, terms)?;
    Ok(Draft {
        name,
        meter,
        other,
        pairs,
    })
}

impl Draft<'_> {
    /// The account that it becomes.
    pub(crate) fn account(&self, alloc: Global) -> Result<Account, PlanFault>
        ensures { Gives Memory (λ a. a) result (drafted self.now) }
    {
        Ok(Account {
            name: String::from_str(alloc, self.name)?,
            meter: self.meter,
            other: self.other,
            pairs: pairs(alloc, self.pairs)?,
        })
    }
}
