//! The records of a data set.
ghost use Rattle.std.specs.Prelude.{◌≡◌, ◌<◌, ◌≤◌, ◌+◌, ◌++◌, ◌∷◌, ◌^◌, List, ℕ, [], length, map, true, OnOk, OnErr, IfOk, IfErr, IfSome, Ok, Err, None};
ghost use Rattle.std.specs.Option.{is_some, option_map};
ghost use Rattle.tca_wire.specs.Walks.{walk};
ghost use Rattle.tca_templates.specs.Templates.{shortest_of};
ghost use Rattle.tca_templates.specs.Records.{FieldView, PlacedView, field_at, fields_on, data_front};
ghost use Rattle.tca_templates.specs.Chosen.{times, sizes, code_points, interfaces, sections, choice};
ghost use Rattle.tca_templates.specs.inside.Layouts.{IsLaidOut, fields_in, value_in};
ghost use Rattle.tca_templates.specs.Fields.{template_of};
ghost use Rattle.tca_templates.specs.Numbers.{AreNumbers};
ghost use Rattle.tca_templates.specs.Outcomes.{value_view};
ghost use Rattle.tca_templates.specs.Taking.{GivesAs, Took};
ghost use Rattle.tca_templates.specs.Wants.{IsWanted};
ghost use Rattle.tca_templates.specs.Refusals.{HoldsRecords};

use crate::fault::DecodeFault;
use crate::layout::{Spot, Spots, locate};
use crate::numbers::{Numbers, Usual};
use crate::outcome::FieldValue;
use crate::source::Source;
use crate::template::{FieldSpec, Template, VARIABLE};
use byteorder::{BigEndian, ByteOrder};
use std::alloc::{AllocError, Global};
use std::marker::Model;

/// A data record that is there whole, in the octets of its message (RFC 7011, section 3.4.3).
#[derive(Drop)]
pub struct Record<'r> {
    source: Source,
    place: u32,
    template: &'r Template,
    spots: &'r Spots,
    /// Where its numbers stand, if that is known.
    usual: &'r Option<Usual>,
    /// The record's octets, and what stands behind it.
    octets: &'r [u8],
}

impl<'r> Model for Record<'r> {
    ghost use Rattle.tca_templates.specs.Records.{PlacedView};
    ghost use Rattle.std.specs.Prelude.{IfSome};
    ghost use Rattle.tca_templates.specs.inside.Layouts.{IsFound, fields_in};
    ghost use Rattle.tca_templates.specs.inside.Windows.{IsUsual};

    ghost Value = { PlacedView };

    ghost view = { λ r. record { session = r.source.session; domain = r.source.domain; place = r.place; options = r.template.now.options; fields = fields_in r.template.now.specs.items r.octets.now } };

    ghost invariant = { λ r. IsFound r.template.now.specs.items r.spots.now r.octets.now
        × IfSome r.usual.now (λ u. IsUsual r.template.now.options r.spots.now u) };
}

/// What takes the data records of a message, one after the other.
pub trait TakesRecords {
    /// With these records the first of two values has become the second.
    ghost took: { Self → List PlacedView → Self → Type 0 };

    /// Takes the next record. An `Err` is want of memory, and leaves what was taken before.
    fn take(&mut self, next: &Record<'_>) -> Result<(), AllocError>
        ensures ok { (start : Self) (records : List PlacedView) → took start records self.old → OnOk result (took start (records ++ next.now ∷ []) self.new) }
        ensures err { (start : Self) (records : List PlacedView) → took start records self.old → OnErr result (took start records self.new) };
}

// How many octets stand before the value of a field of this length, and how many it has: none and the length,
// or where it is variable what stands at the front (RFC 7011, section 7). `None` where there aren't so many.
pub(crate) fn measure(size: u16, octets: &[u8]) -> Option<(usize, usize)>
    ensures { result ≡ field_at size octets.now }
{
    let (skip, size) = if size < VARIABLE {
        (0, size as usize)
    } else if octets.is_empty() {
        return None;
    } else if octets[0] < 255 {
        (1, octets[0] as usize)
    } else if octets.len() < 3 {
        return None;
    } else {
        (3, BigEndian::read_u16(&octets[1..]) as usize)
    };
    if octets.len() < skip + size {
        return None;
    }
    Some((skip, size))
}

// The element and the octets of a spot.
fn value_at<'r>(octets: &'r [u8], spot: Option<Spot>) -> Option<(u16, &'r [u8])>
    requires { IfSome spot (λ s. s.at + s.length ≤ length octets.now) }
    ensures { option_map (λ x. (x.0, x.1.now)) result ≡ value_in octets.now spot }
{
    match spot {
        None => None,
        Some(spot) => {
            let (_, rest) = octets.split_at(spot.at);
            let (value, _) = rest.split_at(spot.length);
            Some((spot.element, value))
        }
    }
}

// The same octets.
fn copied_octets(alloc: Global, octets: &[u8]) -> Result<Vec<u8>, AllocError>
    ensures { IfOk result (λ v. v.items ≡ octets.now) }
{
    let mut copy = Vec::with_capacity(alloc, octets.len())?;
    copy.extend_from_slice(octets)?;
    Ok(copy)
}

// The fields of the record at the front, which is there whole, with values of their own.
fn copied_fields(
    alloc: Global,
    specs: &[FieldSpec],
    octets: &[u8],
) -> Result<Vec<FieldValue>, AllocError>
    requires { is_some (fields_on [] 0 specs.now octets.now) ≡ true }
    ensures { IfOk result (λ v. map value_view v.items ≡ fields_in specs.now octets.now) }
{
    let mut copy = Vec::with_capacity(alloc, specs.len())?;
    let mut rest = octets;
    for spec in specs {
        let Some((skip, size)) = measure(spec.length, rest) else {
            unreachable!();
        };
        let (field, behind) = rest.split_at(skip + size);
        let (_, value) = field.split_at(skip);
        let value = copied_octets(alloc, value)?;
        copy.push(FieldValue {
            element: spec.element,
            enterprise: spec.enterprise,
            value,
        })?;
        rest = behind;
    }
    Ok(copy)
}

impl<'r> Record<'r> {
    /// The number of its transport session, as the decoder was given it.
    pub fn session(&self) -> u32
        ensures { result ≡ self.now.session }
    {
        self.source.session
    }

    /// Its observation domain.
    pub fn domain(&self) -> u32
        ensures { result ≡ self.now.domain }
    {
        self.source.domain
    }

    /// The message's sequence number and the records of the message before this one, modulo 2^32.
    pub fn place(&self) -> u32
        ensures { result ≡ self.now.place }
    {
        self.place
    }

    /// Whether it is a record of an options template.
    pub fn is_options(&self) -> bool
        ensures { result ≡ self.now.options }
    {
        self.template.options
    }

    /// The element that tells the time, and the octets of its first field: the first that is there of
    /// observationTimeMilliseconds, observationTimeMicroseconds, observationTimeNanoseconds and
    /// observationTimeSeconds (RFC 5477). Here and below an enterprise's elements are others.
    pub fn time(&self) -> Option<(u16, &[u8])>
        ensures { option_map (λ x. (x.0, x.1.now)) result ≡ choice times self.now.fields }
    {
        value_at(self.octets, self.spots.time)
    }

    /// The same of what tells how many octets the packet has: ipTotalLength, totalLengthIPv4, octetDeltaCount.
    pub fn size(&self) -> Option<(u16, &[u8])>
        ensures { option_map (λ x. (x.0, x.1.now)) result ≡ choice sizes self.now.fields }
    {
        value_at(self.octets, self.spots.size)
    }

    /// The same of what tells the code point: ipDiffServCodePoint, ipClassOfService.
    pub fn code_point(&self) -> Option<(u16, &[u8])>
        ensures { option_map (λ x. (x.0, x.1.now)) result ≡ choice code_points self.now.fields }
    {
        value_at(self.octets, self.spots.code_point)
    }

    /// The same of ingressInterface.
    pub fn interface(&self) -> Option<(u16, &[u8])>
        ensures { option_map (λ x. (x.0, x.1.now)) result ≡ choice interfaces self.now.fields }
    {
        value_at(self.octets, self.spots.interface)
    }

    /// The same of the packet's first octets, from its IP header on: ipHeaderPacketSection (RFC 5477).
    pub fn section(&self) -> Option<(u16, &[u8])>
        ensures { option_map (λ x. (x.0, x.1.now)) result ≡ choice sections self.now.fields }
    {
        value_at(self.octets, self.spots.section)
    }

    /// What a usual record tells of its packet: of time, octets, code point and interface, each in a field of its own. `None` says
    /// nothing of the record: that it isn't usual, or that it stands at the end of its set.
    #[inline(always)]
    pub fn numbers(&self) -> Option<Numbers>
        ensures { IfSome result (λ n. AreNumbers self.now n) }
    {
        let Some(usual) = self.usual else {
            return None;
        };
        if self.octets.len() < usual.reach {
            return None;
        }
        Some(usual.numbers(self.octets))
    }

    // Its fields, with values of their own.
    pub(crate) fn fields(&self, alloc: Global) -> Result<Vec<FieldValue>, AllocError>
        ensures { IfOk result (λ v. map value_view v.items ≡ self.now.fields) }
    {
        copied_fields(alloc, &self.template.specs, self.octets)
    }
}

// Hands on the records of a data set whose template has no field of variable length: all have the same length, and
// the chosen fields stand in the same places. `count` records of the message stand before them; the answer counts
// these too. Fewer octets than a record has are padding.
fn read_fixed<T: TakesRecords>(
    source: Source,
    template: &Template,
    spots: &Spots,
    count: u32,
    octets: &[u8],
    taker: &mut T,
) -> Result<u32, AllocError>
    requires laid { IsLaidOut template.now.choice template.now.specs.items spots.now }
    requires few { count + length octets.now < 2 ^ 32 }
    ensures exact { IfOk result (λ n. (start : T) (records : List PlacedView) (at : ℕ) → Took T.took start taker.old count records
        → (all : List PlacedView) × (walk (data_front source (template_of template.now)) records at octets.now ≡ Ok all) × Took T.took start taker.new n all) }
    ensures wanted { OnErr result ((start : T) (records : List PlacedView) (at : ℕ) → Took T.took start taker.old count records → IsWanted (data_front source (template_of template.now)) records at octets.now) }
    ensures held { OnErr result ((start : T) (records : List PlacedView) (at : ℕ) → Took T.took start taker.old count records
        → HoldsRecords T.took start taker.new source (template_of template.now) DecodeFault.Memory records at octets.now) }
    ensures few { IfOk result (λ n. n ≤ count + length octets.now) }
{
    let size = template.shortest as usize;
    let usual = Usual::of(template.options, spots);
    let mut count = count;
    let mut rest = octets;
    while rest.len() >= size {
        let record = Record {
            source,
            place: source.sequence.wrapping_add(count),
            template,
            spots,
            usual: &usual,
            octets: rest,
        };
        taker.take(&record)?;
        count += 1;
        let (_, behind) = rest.split_at(size);
        rest = behind;
    }
    Ok(count)
}

// The same where a field has a variable length: each record is gone over once, and is handed on when it is there
// whole. `at` is where the octets begin in the message.
fn read_variable<T: TakesRecords>(
    source: Source,
    template: &Template,
    count: u32,
    at: u16,
    octets: &[u8],
    taker: &mut T,
) -> Result<u32, DecodeFault>
    requires variable { template.now.fixed ≡ None }
    requires few { count + length octets.now < 2 ^ 32 }
    requires place { at + length octets.now < 2 ^ 16 }
    ensures exact { (start : T) (records : List PlacedView) → Took T.took start taker.old count records
        → GivesAs DecodeFault.Memory (λ n all. Took T.took start taker.new n all) result (walk (data_front source (template_of template.now)) records at octets.now) }
    ensures wanted { result ≡ Err DecodeFault.Memory → (start : T) (records : List PlacedView) → Took T.took start taker.old count records
        → IsWanted (data_front source (template_of template.now)) records at octets.now }
    ensures held { (start : T) (records : List PlacedView) → Took T.took start taker.old count records
        → IfErr result (λ f. HoldsRecords T.took start taker.new source (template_of template.now) f records at octets.now) }
    ensures few { IfOk result (λ n. n ≤ count + length octets.now) }
{
    let shortest = template.shortest as usize;
    let usual = None;
    let mut spots = Spots::none();
    let mut count = count;
    let mut at = at;
    let mut rest = octets;
    while rest.len() >= shortest {
        let Some(size) = locate(
            &template.choice,
            &template.specs,
            &template.steps,
            rest,
            &mut spots,
        ) else {
            return Err(DecodeFault::RecordCut { at });
        };
        let record = Record {
            source,
            place: source.sequence.wrapping_add(count),
            template,
            spots: &spots,
            usual: &usual,
            octets: rest,
        };
        taker.take(&record)?;
        count += 1;
        at += size as u16;
        let (_, behind) = rest.split_at(size);
        rest = behind;
    }
    Ok(count)
}

// Hands on the records of a data set, whose octets begin at `at` in the message. `count` records of the message
// stand before them; the answer counts these too.
pub(crate) fn read_records<T: TakesRecords>(
    source: Source,
    template: &Template,
    count: u32,
    at: u16,
    octets: &[u8],
    taker: &mut T,
) -> Result<u32, DecodeFault>
    requires few { count + length octets.now < 2 ^ 32 }
    requires place { at + length octets.now < 2 ^ 16 }
    ensures exact { (start : T) (records : List PlacedView) → Took T.took start taker.old count records
        → GivesAs DecodeFault.Memory (λ n all. Took T.took start taker.new n all) result (walk (data_front source (template_of template.now)) records at octets.now) }
    ensures wanted { result ≡ Err DecodeFault.Memory → (start : T) (records : List PlacedView) → Took T.took start taker.old count records
        → IsWanted (data_front source (template_of template.now)) records at octets.now }
    ensures held { (start : T) (records : List PlacedView) → Took T.took start taker.old count records
        → IfErr result (λ f. HoldsRecords T.took start taker.new source (template_of template.now) f records at octets.now) }
    ensures few { IfOk result (λ n. n ≤ count + length octets.now) }
{
    match &template.fixed {
        None => read_variable(source, template, count, at, octets, taker),
        Some(spots) => Ok(read_fixed(source, template, spots, count, octets, taker)?),
    }
}
