//! The fields of a data record that tell about a packet.
ghost use Rattle.std.specs.Prelude.{◌≡◌, ◌==◌, ◌&&◌, map};
ghost use Rattle.std.specs.Option.{option_map, is_none};
ghost use Rattle.tca_templates.specs.Outcomes.{value_view, placed_view};
ghost use Rattle.tca_templates.specs.Records.{PlacedView};
ghost use Rattle.tca_report.specs.input.Extract.{identity_in};
ghost use Rattle.tca_templates.specs.Chosen.{times, sizes, code_points, interfaces, sections, first, choice};

use crate::report::Identity;
use tca_templates::elements::{CODE_POINTS, INTERFACES, SECTIONS, SIZES, TIMES};
use tca_templates::{FieldValue, PlacedFields, Record};

// A data record, in the octets of its message or with values of its own: of each kind of thing that is told the
// element that is chosen and the octets of its first field.
pub(crate) trait DataRecord {
    // The record without where it lies in memory.
    ghost plain: { Self → PlacedView };

    // Which record it is.
    fn identity(&self) -> Identity
        ensures { result ≡ identity_in (plain self.now) };

    // Whether it is a record of an options template.
    fn is_options(&self) -> bool
        ensures { result ≡ (plain self.now).options };

    // What tells the time.
    fn time(&self) -> Option<(u16, &[u8])>
        ensures { option_map (λ x. (x.0, x.1.now)) result ≡ choice times (plain self.now).fields };

    // What tells the octets of the packet.
    fn size(&self) -> Option<(u16, &[u8])>
        ensures { option_map (λ x. (x.0, x.1.now)) result ≡ choice sizes (plain self.now).fields };

    // What tells the code point.
    fn code_point(&self) -> Option<(u16, &[u8])>
        ensures { option_map (λ x. (x.0, x.1.now)) result ≡ choice code_points (plain self.now).fields };

    // What tells the interface.
    fn interface(&self) -> Option<(u16, &[u8])>
        ensures { option_map (λ x. (x.0, x.1.now)) result ≡ choice interfaces (plain self.now).fields };

    // The first octets of the packet.
    fn section(&self) -> Option<(u16, &[u8])>
        ensures { option_map (λ x. (x.0, x.1.now)) result ≡ choice sections (plain self.now).fields };
}

impl<'r> DataRecord for Record<'r> {
    ghost plain = { λ r. r };

    fn identity(&self) -> Identity {
        Identity {
            domain: self.domain(),
            session: self.session(),
            place: self.place(),
        }
    }

    fn is_options(&self) -> bool {
        Record::is_options(self)
    }

    fn time(&self) -> Option<(u16, &[u8])> {
        Record::time(self)
    }

    fn size(&self) -> Option<(u16, &[u8])> {
        Record::size(self)
    }

    fn code_point(&self) -> Option<(u16, &[u8])> {
        Record::code_point(self)
    }

    fn interface(&self) -> Option<(u16, &[u8])> {
        Record::interface(self)
    }

    fn section(&self) -> Option<(u16, &[u8])> {
        Record::section(self)
    }
}

impl DataRecord for PlacedFields {
    ghost plain = { placed_view };

    fn identity(&self) -> Identity {
        Identity {
            domain: self.domain,
            session: self.session,
            place: self.place,
        }
    }

    fn is_options(&self) -> bool {
        self.options
    }

    fn time(&self) -> Option<(u16, &[u8])> {
        choose(&self.fields, &TIMES)
    }

    fn size(&self) -> Option<(u16, &[u8])> {
        choose(&self.fields, &SIZES)
    }

    fn code_point(&self) -> Option<(u16, &[u8])> {
        choose(&self.fields, &CODE_POINTS)
    }

    fn interface(&self) -> Option<(u16, &[u8])> {
        choose(&self.fields, &INTERFACES)
    }

    fn section(&self) -> Option<(u16, &[u8])> {
        choose(&self.fields, &SECTIONS)
    }
}

// Whether this is a field of the element, and no enterprise has it.
fn is_element(field: &FieldValue, element: u16) -> bool
    ensures { result ≡ (is_none (value_view field.now).enterprise && ((value_view field.now).element == element)) }
{
    field.enterprise.is_none() && field.element == element
}

// The value of the first field of an element that no enterprise has.
fn find(fields: &[FieldValue], element: u16) -> Option<&[u8]>
    ensures { option_map (λ v. v.now) result ≡ first element (map value_view fields.now) }
{
    for field in fields {
        let found = is_element(field, element);
        if found {
            return Some(field.value.as_slice());
        }
    }
    None
}

// The first of these elements that is there, and its value.
fn choose<'a>(fields: &'a [FieldValue], elements: &[u16]) -> Option<(u16, &'a [u8])>
    ensures { option_map (λ x. (x.0, x.1.now)) result ≡ choice elements.now (map value_view fields.now) }
{
    for element in elements {
        if let Some(value) = find(fields, *element) {
            return Some((*element, value));
        }
    }
    None
}
