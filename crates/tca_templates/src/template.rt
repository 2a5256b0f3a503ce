//! What a template says of the records of its data sets.
ghost use Rattle.std.specs.Prelude.{◌≡◌, ◌<◌, ◌≤◌, ◌*◌, length, None};
ghost use Rattle.tca_templates.specs.Templates.{least_of, shortest_of};
ghost use Rattle.tca_templates.specs.Specifiers.{specs_in};
ghost use Rattle.tca_templates.specs.inside.Layouts.{choice_of, layout_of, steps_of};

use crate::layout::{Choice, Spots};

// The length of a field specifier that says that the length stands before each value (RFC 7011, section 7).
pub(crate) const VARIABLE: u16 = 65_535;

// A field of a template (RFC 7011, section 3.2).
#[derive(Clone, Copy)]
pub(crate) struct FieldSpec {
    /// The information element, without the enterprise bit.
    pub element: u16,
    /// Whose element it is, where it isn't IANA's.
    pub enterprise: Option<u32>,
    /// Octets of the field; 65,535 says that each value has a length of its own.
    pub length: u16,
}

// A template: the fields of its records, and whether they are options. No record is empty.
#[derive(Drop)]
pub(crate) struct Template {
    pub options: bool,
    pub specs: Vec<FieldSpec>,
    /// The octets that a record has at least.
    pub shortest: u32,
    /// Which elements are chosen of its fields.
    pub choice: Choice,
    /// Where they stand in each record, unless a field has a variable length.
    pub fixed: Option<Spots>,
    /// The places of the fields that each record is gone over by, where one has a variable length.
    pub steps: Vec<u16>,
    pub ghost right: { shortest ≡ shortest_of specs.items },
    pub ghost some: { 0 < shortest },
    pub ghost chosen: { choice ≡ choice_of specs.items },
    pub ghost laid: { fixed ≡ layout_of choice specs.items },
    pub ghost gone_over: { fixed ≡ None → steps.items ≡ steps_of choice 0 specs.items },
}

// The specifiers of a template in the octets of the record that defines it. All of them are there.
#[derive(Clone, Copy)]
pub(crate) struct Definition<'a> {
    /// How many specifiers it has.
    pub count: u16,
    /// The specifiers, and what stands behind them.
    pub octets: &'a [u8],
    /// The octets that a record of the template has at least.
    pub shortest: u32,
    pub ghost whole: { length (specs_in count octets.now) ≡ count },
    pub ghost right: { shortest ≡ shortest_of (specs_in count octets.now) },
    pub ghost some: { 0 < shortest },
}

impl FieldSpec {
    // The octets that the field takes at least.
    pub(crate) fn least(&self) -> u32
        ensures least { result ≡ least_of self.now }
        ensures small { result ≤ 65535 }
    {
        if self.length == VARIABLE {
            1
        } else {
            u32::from(self.length)
        }
    }
}
