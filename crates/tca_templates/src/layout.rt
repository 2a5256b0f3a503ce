//! Which fields of a template's records are chosen, and where they stand.
ghost use Rattle.std.specs.Prelude.{◌≡◌, ◌<◌, ◌≤◌, ◌+◌, ◌*◌, ◌^◌, [], length, true, false, OnSome, IfOk, Some, None};
ghost use Rattle.std.specs.Option.{option_or, option_map};
ghost use Rattle.std.specs.List.{list_any};
ghost use Rattle.tca_templates.specs.Records.{fields_on};
ghost use Rattle.tca_templates.specs.Chosen.{times, sizes, code_points, interfaces, sections, is_field_of, chosen_of};
ghost use Rattle.tca_templates.specs.inside.Layouts.{spot_in, spot_if, choice_of, spots_of, spots_with, layout_of, is_of, left_of, left_by, is_step, steps_of};

use crate::elements::{CODE_POINTS, INTERFACES, SECTIONS, SIZES, TIMES};
use crate::record::measure;
use crate::template::{FieldSpec, VARIABLE};
use std::alloc::{AllocError, Global};

// Which elements are chosen of a template.
#[derive(Clone, Copy)]
pub(crate) struct Choice {
    pub time: Option<u16>,
    pub size: Option<u16>,
    pub code_point: Option<u16>,
    pub interface: Option<u16>,
    pub section: Option<u16>,
}

// Where the value of an element stands in a record.
#[derive(Clone, Copy)]
pub(crate) struct Spot {
    pub element: u16,
    /// Octets of the record before the value.
    pub at: usize,
    /// Octets of the value.
    pub length: usize,
}

// Where the values of the chosen elements stand in a record.
#[derive(Clone, Copy)]
pub(crate) struct Spots {
    pub time: Option<Spot>,
    pub size: Option<Spot>,
    pub code_point: Option<Spot>,
    pub interface: Option<Spot>,
    pub section: Option<Spot>,
}

// Whether a template has a field of this element that no enterprise has.
fn has_element(element: u16, specs: &[FieldSpec]) -> bool
    ensures { result ≡ list_any (is_field_of element) specs.now }
{
    specs
        .iter()
        .any(|s| s.enterprise.is_none() && s.element == element)
}

// The first of these elements that a template has.
fn choose_one(elements: &[u16], specs: &[FieldSpec]) -> Option<u16>
    ensures { result ≡ chosen_of elements.now specs.now }
{
    for element in elements {
        if has_element(*element, specs) {
            return Some(*element);
        }
    }
    None
}

// Takes the chosen element away where this field has it; the answer is whether it has.
fn take_element(chosen: &mut Option<u16>, spec: &FieldSpec) -> bool
    ensures has { result ≡ is_of chosen.old spec.now }
    ensures left { chosen.new ≡ left_of chosen.old spec.now }
{
    match *chosen {
        Some(element) if spec.enterprise.is_none() && spec.element == element => {
            *chosen = None;
            true
        }
        _ => false,
    }
}

impl Choice {
    // Which elements are chosen of these fields.
    pub(crate) fn of(specs: &[FieldSpec]) -> Choice
        ensures { result ≡ choice_of specs.now }
    {
        Choice {
            time: choose_one(&TIMES, specs),
            size: choose_one(&SIZES, specs),
            code_point: choose_one(&CODE_POINTS, specs),
            interface: choose_one(&INTERFACES, specs),
            section: choose_one(&SECTIONS, specs),
        }
    }

    // Takes the elements away that this field has. The answer is whether records are gone over by it: it has one, or octets.
    fn take_field(&mut self, spec: &FieldSpec) -> bool
        ensures step { result ≡ is_step self.old spec.now }
        ensures left { self.new ≡ left_by self.old spec.now }
    {
        let time = take_element(&mut self.time, spec);
        let size = take_element(&mut self.size, spec);
        let code_point = take_element(&mut self.code_point, spec);
        let interface = take_element(&mut self.interface, spec);
        let section = take_element(&mut self.section, spec);
        time || size || code_point || interface || section || spec.length != 0
    }
}

// Keeps the spot that was found, or else that of this field where it is of the chosen element.
#[inline(always)]
fn keep(spot: &mut Option<Spot>, chosen: Option<u16>, spec: &FieldSpec, at: usize, length: usize)
    ensures { spot.new ≡ option_or spot.old (spot_if chosen spec.now at length) }
{
    match chosen {
        Some(element) if spot.is_none() && spec.enterprise.is_none() && spec.element == element => {
            *spot = Some(Spot {
                element,
                at,
                length,
            });
        }
        _ => (),
    }
}

impl Spots {
    // None found.
    pub(crate) fn none() -> Spots
        ensures { result ≡ record { time = None; size = None; code_point = None; interface = None; section = None } }
    {
        Spots {
            time: None,
            size: None,
            code_point: None,
            interface: None,
            section: None,
        }
    }

    // Adds those of this field, whose value has so many octets behind so many others.
    #[inline(always)]
    fn add_field(&mut self, choice: &Choice, spec: &FieldSpec, at: usize, length: usize)
        ensures { self.new ≡ spots_with self.old (record {
          time = spot_if choice.now.time spec.now at length;
          size = spot_if choice.now.size spec.now at length;
          code_point = spot_if choice.now.code_point spec.now at length;
          interface = spot_if choice.now.interface spec.now at length;
          section = spot_if choice.now.section spec.now at length;
        }) }
    {
        keep(&mut self.time, choice.time, spec, at, length);
        keep(&mut self.size, choice.size, spec, at, length);
        keep(&mut self.code_point, choice.code_point, spec, at, length);
        keep(&mut self.interface, choice.interface, spec, at, length);
        keep(&mut self.section, choice.section, spec, at, length);
    }
}

// Where the chosen fields stand in each record, unless a field has a variable length.
pub(crate) fn lay_out(choice: Choice, specs: &[FieldSpec]) -> Option<Spots>
    requires { length specs.now < 2 ^ 16 }
    ensures { result ≡ layout_of choice specs.now }
{
    let mut spots = Spots::none();
    let mut used = 0;
    for spec in specs {
        if spec.length == VARIABLE {
            return None;
        }
        let length = spec.length as usize;
        spots.add_field(&choice, spec, used, length);
        used += length;
    }
    Some(spots)
}

// The places of the fields that each record is gone over by: of the fields without octets these are only the first of each
// chosen element, so that a record isn't gone over by more fields than it has octets, and five.
pub(crate) fn steps_of(
    alloc: Global,
    choice: Choice,
    specs: &[FieldSpec],
) -> Result<Vec<u16>, AllocError>
    requires { length specs.now < 2 ^ 16 }
    ensures { IfOk result (λ v. v.items ≡ steps_of choice 0 specs.now) }
{
    let mut left = choice;
    let mut steps = Vec::with_capacity(alloc, specs.len())?;
    for (place, spec) in specs.iter().enumerate() {
        if left.take_field(spec) {
            steps.push(place as u16)?;
        }
    }
    Ok(steps)
}

// How many octets the record at the front has; `spots` then say where its chosen fields stand. `None` where it isn't
// there whole. `steps` are the places of the fields that it is gone over by.
pub(crate) fn locate(
    choice: &Choice,
    specs: &[FieldSpec],
    steps: &[u16],
    octets: &[u8],
    spots: &mut Spots,
) -> Option<usize>
    requires { steps.now ≡ steps_of choice.now 0 specs.now }
    ensures whole { result ≡ option_map (λ x. x.1) (fields_on [] 0 specs.now octets.now) }
    ensures spots { OnSome result (spots.new ≡ spots_of choice.now (λ e. spot_in e 0 specs.now octets.now)) }
{
    *spots = Spots::none();
    let mut used = 0;
    let mut rest = octets;
    for step in steps {
        let spec = &specs[*step as usize];
        let Some((skip, size)) = measure(spec.length, rest) else {
            return None;
        };
        spots.add_field(choice, spec, used + skip, size);
        used += skip + size;
        let (_, behind) = rest.split_at(skip + size);
        rest = behind;
    }
    Some(used)
}
