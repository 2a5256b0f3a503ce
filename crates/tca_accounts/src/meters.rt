//! The kind and the numbers of an account's meter.
ghost use Rattle.std.specs.Prelude.{◌≡◌};
ghost use Rattle.toml.specs.View.{table_view};
ghost use Rattle.tca_accounts.specs.Documents.{rfc4115_in, keys_of, kind_in, kind_named, meter_in, number_in, trtcm_in, srtcm_in, term_keys_of};

use crate::document::{at, text, truth, whole};
use crate::fault::PlanFault;
use crate::key::Key;
use crate::kind::Kind;
use tca_meters::{AnyMeter, MeterFault, Rfc4115, SrTcm, TrTcm};
use toml::Table;

// The kind of meter that a word names.
fn kind_named(word: &str) -> Result<Kind, PlanFault>
    ensures { result ≡ kind_named word.now }
{
    if word == "rfc2697" {
        Ok(Kind::SrTcm)
    } else if word == "rfc2698" {
        Ok(Kind::TrTcm)
    } else if word == "rfc4115" {
        Ok(Kind::Rfc4115)
    } else {
        Err(PlanFault::Wrong { key: Key::Meter })
    }
}

/// The kind of an account's meter. `Missing` or `Wrong` of `meter` where it has none.
pub(crate) fn kind(table: &Table) -> Result<Kind, PlanFault>
    ensures { result ≡ kind_in (table_view table.now) }
{
    kind_named(text(at(table, Key::Meter), Key::Meter)?)
}

/// The keys that an account with a meter of this kind may have.
pub(crate) fn known_keys(kind: Kind) -> &'static [Key]
    ensures { result.now ≡ keys_of kind }
{
    match kind {
        Kind::SrTcm => &[
            Key::Meter,
            Key::Name,
            Key::Aware,
            Key::Other,
            Key::Cir,
            Key::Cbs,
            Key::Ebs,
            Key::Keys,
            Key::Term,
        ],
        Kind::TrTcm => &[
            Key::Meter,
            Key::Name,
            Key::Aware,
            Key::Other,
            Key::Cir,
            Key::Cbs,
            Key::Pir,
            Key::Pbs,
            Key::Keys,
            Key::Term,
        ],
        Kind::Rfc4115 => &[
            Key::Meter,
            Key::Name,
            Key::Aware,
            Key::Other,
            Key::ExactFit,
            Key::Cir,
            Key::Cbs,
            Key::Ebs,
            Key::Eir,
            Key::Keys,
            Key::Term,
        ],
    }
}

/// The keys that a term with a meter of this kind may have.
pub(crate) fn known_term_keys(kind: Kind) -> &'static [Key]
    ensures { result.now ≡ term_keys_of kind }
{
    match kind {
        Kind::SrTcm => &[
            Key::Meter,
            Key::From,
            Key::Aware,
            Key::Cir,
            Key::Cbs,
            Key::Ebs,
        ],
        Kind::TrTcm => &[
            Key::Meter,
            Key::From,
            Key::Aware,
            Key::Cir,
            Key::Cbs,
            Key::Pir,
            Key::Pbs,
        ],
        Kind::Rfc4115 => &[
            Key::Meter,
            Key::From,
            Key::Aware,
            Key::ExactFit,
            Key::Cir,
            Key::Cbs,
            Key::Ebs,
            Key::Eir,
        ],
    }
}

/// The greatest integer of TOML.
const MOST: u64 = 0x7FFF_FFFF_FFFF_FFFF;

// A rate in octets a second, or a burst size in octets.
fn number(table: &Table, key: Key) -> Result<u64, PlanFault>
    ensures { result ≡ number_in key (table_view table.now) }
{
    whole(at(table, key), key, 0, MOST)
}

// The meter of RFC 2697 with a table's numbers, or why there is none of these parameters.
fn srtcm_of(table: &Table, aware: bool) -> Result<Result<AnyMeter, MeterFault>, PlanFault>
    ensures { result ≡ srtcm_in aware (table_view table.now) }
{
    let cir = number(table, Key::Cir)?;
    let cbs = number(table, Key::Cbs)?;
    let ebs = number(table, Key::Ebs)?;
    Ok(SrTcm::new(cir, cbs, ebs, aware).map(AnyMeter::SrTcm))
}

// The meter of RFC 2698 with a table's numbers, or why there is none of these parameters.
fn trtcm_of(table: &Table, aware: bool) -> Result<Result<AnyMeter, MeterFault>, PlanFault>
    ensures { result ≡ trtcm_in aware (table_view table.now) }
{
    let cir = number(table, Key::Cir)?;
    let cbs = number(table, Key::Cbs)?;
    let pir = number(table, Key::Pir)?;
    let pbs = number(table, Key::Pbs)?;
    Ok(TrTcm::new(pir, pbs, cir, cbs, aware).map(AnyMeter::TrTcm))
}

// The meter of RFC 4115 with a table's numbers, or why there is none of these parameters.
fn rfc4115_of(table: &Table, aware: bool) -> Result<Result<AnyMeter, MeterFault>, PlanFault>
    ensures { result ≡ rfc4115_in aware (table_view table.now) }
{
    let exact_fit = truth(at(table, Key::ExactFit), Key::ExactFit)?;
    let cir = number(table, Key::Cir)?;
    let cbs = number(table, Key::Cbs)?;
    let ebs = number(table, Key::Ebs)?;
    let eir = number(table, Key::Eir)?;
    Ok(Rfc4115::new(cir, cbs, eir, ebs, exact_fit, aware).map(AnyMeter::Rfc4115))
}

/// The meter of this kind with a table's numbers, or why there is none of these parameters. `Missing` or
/// `Wrong` of the first number that isn't there or is no integer from 0 up.
pub(crate) fn meter(
    kind: Kind,
    aware: bool,
    table: &Table,
) -> Result<Result<AnyMeter, MeterFault>, PlanFault>
    ensures { result ≡ meter_in kind aware (table_view table.now) }
{
    match kind {
        Kind::SrTcm => srtcm_of(table, aware),
        Kind::TrTcm => trtcm_of(table, aware),
        Kind::Rfc4115 => rfc4115_of(table, aware),
    }
}
