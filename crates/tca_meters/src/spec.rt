//! Reading a meter from a text.
ghost use Rattle.std.specs.Prelude.{◌≡◌, ◌≢◌, ◌∷◌, [], MatchOption, length};
ghost use Rattle.std.specs.List.{list_all};
ghost use Rattle.std.specs.Char.{is_ascii_digit};
ghost use Rattle.tca_meters.specs.Faults.{spec_number};
ghost use Rattle.tca_meters.specs.MeterSpecs.{parts_of, is_number, number_in, mode_in, fit_in, srtcm_in, trtcm_in, rfc4115_in, meter_in, spec_in, PartsMakeText, OnlyParts};

use crate::any_meter::AnyMeter;
use crate::fault::MeterFault;
use crate::rfc4115::Rfc4115;
use crate::srtcm::SrTcm;
use crate::trtcm::TrTcm;
use thiserror::Error;

/// Why a text names no meter.
#[derive(Clone, Copy, Debug, PartialEq, Eq, Error)]
pub enum SpecFault {
    /// The text has none of the three forms, or a part of it isn't what the form has there.
    #[error("the text names no meter: expected rfc2697:CIR:CBS:EBS:MODE, rfc2698:PIR:PBS:CIR:CBS:MODE or rfc4115:CIR:CBS:EIR:EBS:FIT:MODE, with numbers of 1 to 13 digits, MODE blind or aware, and FIT exact or below")]
    Text,
    /// It has, and there is no meter of these parameters.
    #[error("no meter of these parameters: {0}")]
    Meter(MeterFault),
}

impl SpecFault {
    /// The number of the fault, from 1, in the order in which faults are tested.
    pub fn number(&self) -> u8
        ensures { result ≡ spec_number self.now }
    {
        match self {
            SpecFault::Text => 1,
            SpecFault::Meter(_) => 2,
        }
    }
}

/// The part before the first colon, and the text after that colon.
fn split_part(text: &str) -> Option<(&str, &str)>
    ensures { MatchOption result (parts_of text.now ≡ text.now ∷ [])
        (λ x. parts_of text.now ≡ x.0.now ∷ parts_of x.1.now) }
{
    text.split_once(':')
}

fn all_digits(text: &str) -> bool
    ensures { result ≡ list_all is_ascii_digit text.now }
{
    text.bytes().all(|octet| octet.is_ascii_digit())
}

fn is_number(text: &str) -> bool
    ensures { result ≡ is_number text.now }
{
    !text.is_empty() && text.len() <= 13 && all_digits(text)
}

fn number(text: &str) -> Option<u64>
    ensures { result ≡ number_in text.now }
{
    if is_number(text) {
        text.parse::<u64>().ok()
    } else {
        None
    }
}

fn mode(text: &str) -> Option<bool>
    ensures { result ≡ mode_in text.now }
{
    if text == "blind" {
        Some(false)
    } else if text == "aware" {
        Some(true)
    } else {
        None
    }
}

fn fit(text: &str) -> Option<bool>
    ensures { result ≡ fit_in text.now }
{
    if text == "below" {
        Some(false)
    } else if text == "exact" {
        Some(true)
    } else {
        None
    }
}

/// The parts of a text that has four.
#[derive(Clone, Copy)]
struct FourParts<'a> {
    first: &'a str,
    second: &'a str,
    third: &'a str,
    last: &'a str,
}

fn four_parts(text: &str) -> Option<FourParts<'_>>
    ensures { MatchOption result (length (parts_of text.now) ≢ 4)
        (λ p. parts_of text.now ≡ p.first.now ∷ p.second.now ∷ p.third.now ∷ p.last.now ∷ []) }
{
    let (first, rest) = split_part(text)?;
    let (second, rest) = split_part(rest)?;
    let (third, last) = split_part(rest)?;
    match split_part(last) {
        Some(_) => None,
        None => Some(FourParts {
            first,
            second,
            third,
            last,
        }),
    }
}

fn srtcm_of(text: &str) -> Option<Result<AnyMeter, MeterFault>>
    ensures { result ≡ srtcm_in (parts_of text.now) }
{
    let parts = four_parts(text)?;
    let cir = number(parts.first)?;
    let cbs = number(parts.second)?;
    let ebs = number(parts.third)?;
    let aware = mode(parts.last)?;
    Some(SrTcm::new(cir, cbs, ebs, aware).map(AnyMeter::SrTcm))
}

fn trtcm_of(text: &str) -> Option<Result<AnyMeter, MeterFault>>
    ensures { result ≡ trtcm_in (parts_of text.now) }
{
    let (pir, rest) = split_part(text)?;
    let parts = four_parts(rest)?;
    let pir = number(pir)?;
    let pbs = number(parts.first)?;
    let cir = number(parts.second)?;
    let cbs = number(parts.third)?;
    let aware = mode(parts.last)?;
    Some(TrTcm::new(pir, pbs, cir, cbs, aware).map(AnyMeter::TrTcm))
}

fn rfc4115_of(text: &str) -> Option<Result<AnyMeter, MeterFault>>
    ensures { result ≡ rfc4115_in (parts_of text.now) }
{
    let (cir, rest) = split_part(text)?;
    let (cbs, rest) = split_part(rest)?;
    let parts = four_parts(rest)?;
    let cir = number(cir)?;
    let cbs = number(cbs)?;
    let eir = number(parts.first)?;
    let ebs = number(parts.second)?;
    let exact_fit = fit(parts.third)?;
    let aware = mode(parts.last)?;
    Some(Rfc4115::new(cir, cbs, eir, ebs, exact_fit, aware).map(AnyMeter::Rfc4115))
}

fn meter(text: &str) -> Option<Result<AnyMeter, MeterFault>>
    ensures { result ≡ meter_in (parts_of text.now) }
{
    let (name, rest) = split_part(text)?;
    if name == "rfc2697" {
        srtcm_of(rest)
    } else if name == "rfc2698" {
        trtcm_of(rest)
    } else if name == "rfc4115" {
        rfc4115_of(rest)
    } else {
        None
    }
}

/// The meter that a text names: `rfc2697:CIR:CBS:EBS:MODE`, `rfc2698:PIR:PBS:CIR:CBS:MODE` or
/// `rfc4115:CIR:CBS:EIR:EBS:FIT:MODE`, with rates in tokens per second and burst sizes in tokens, each
/// of 1 to 13 decimal digits. MODE is `blind`, or `aware` where precolours count; FIT is `exact` where
/// a packet may take all tokens of a bucket, and `below` where one has to be left. `Text` for any other
/// text, else `Meter` where there is no meter of these parameters.
pub fn meter_spec(text: &str) -> Result<AnyMeter, SpecFault>
    ensures { result ≡ spec_in text.now }
{
    meter(text)
        .ok_or(SpecFault::Text)?
        .map_err(SpecFault::Meter)
}

/// The law of specs: the parts of a text make it with colons between, none has a colon, and no other such parts make it.
pub fn spec_laws()
    ensures parts { PartsMakeText }
    ensures only { OnlyParts }
{}
