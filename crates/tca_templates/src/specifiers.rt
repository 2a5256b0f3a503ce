//! The records of a template set (RFC 7011, sections 3.4.1, 3.4.2 and 8.1).
ghost use Rattle.std.specs.Prelude.{◌≡◌, ◌≢◌, ◌<◌, ◌≤◌, ◌+◌, ◌*◌, ◌^◌, [], length, drop, OnOk, IfOk, Err};
ghost use Rattle.byteorder.specs.Endian.{big_number};
ghost use Rattle.tca_templates.specs.Templates.{shortest_of};
ghost use Rattle.tca_templates.specs.Specifiers.{spec_at, specs_in, specs_on, head_of, change_at};
ghost use Rattle.tca_templates.specs.Fields.{change_view, viewed};

use crate::fault::DecodeFault;
use crate::layout::{Choice, lay_out, steps_of};
use crate::template::{Definition, FieldSpec, Template};
use byteorder::{BigEndian, ByteOrder};
use std::alloc::{AllocError, Global};

// The most fields of a template.
const MOST_FIELDS: u16 = 512;

// The highest bit of an element says that an enterprise number follows (RFC 7011, section 3.2).
const ENTERPRISE: u16 = 32_768;

// The field specifier at the front, and how many octets it has.
fn specifier(octets: &[u8]) -> Option<(FieldSpec, usize)>
    ensures { result ≡ spec_at octets.now }
{
    if octets.len() < 4 {
        return None;
    }
    let element = BigEndian::read_u16(octets);
    let length = BigEndian::read_u16(&octets[2..]);
    if element < ENTERPRISE {
        let spec = FieldSpec {
            element,
            enterprise: None,
            length,
        };
        return Some((spec, 4));
    }
    if octets.len() < 8 {
        return None;
    }
    let enterprise = Some(BigEndian::read_u32(&octets[4..]));
    let spec = FieldSpec {
        element: element - ENTERPRISE,
        enterprise,
        length,
    };
    Some((spec, 8))
}

// The octets that a record of so many specifiers has at least, and how many octets there are up to their end;
// `head` octets stand before them, and their template record begins at `at`. It takes no memory.
fn measure_specifiers(
    at: u16,
    head: usize,
    count: u16,
    octets: &[u8],
) -> Result<(u32, usize), DecodeFault>
    requires { head ≤ 6 }
    ensures exact { viewed (λ x. (specs_in count octets.now, x.1)) result ≡ specs_on (DecodeFault.TemplateCut at) [] head count octets.now }
    ensures shortest { IfOk result (λ x. x.0 ≡ shortest_of (specs_in count octets.now)) }
    ensures whole { OnOk result (length (specs_in count octets.now) ≡ count) }
    ensures within { IfOk result (λ x. (head ≤ x.1) × (x.1 ≤ head + length octets.now)) }
    ensures no_memory { result ≢ Err DecodeFault.Memory }
{
    let mut shortest = 0;
    let mut used = head;
    let mut rest = octets;
    for _ in 0..count {
        let Some((spec, size)) = specifier(rest) else {
            return Err(DecodeFault::TemplateCut { at });
        };
        shortest += spec.least();
        used += size;
        let (_, behind) = rest.split_at(size);
        rest = behind;
    }
    Ok((shortest, used))
}

// The octets before the specifiers of a template record: four, or six in an options template, whose last two
// count the scope fields (RFC 7011, section 3.4.2.2).
fn measure_head(options: bool, at: u16, count: u16, octets: &[u8]) -> Result<usize, DecodeFault>
    requires { 4 ≤ length octets.now }
    ensures value { result ≡ head_of options at count octets.now }
    ensures within { IfOk result (λ n. n ≤ length octets.now) }
    ensures least { IfOk result (λ n. 4 ≤ n) }
    ensures small { IfOk result (λ n. n ≤ 6) }
    ensures no_memory { result ≢ Err DecodeFault.Memory }
{
    if !options {
        return Ok(4);
    }
    if octets.len() < 6 {
        return Err(DecodeFault::TemplateCut { at });
    }
    let scope = BigEndian::read_u16(&octets[4..]);
    if scope == 0 || count < scope {
        return Err(DecodeFault::Scope { at });
    }
    Ok(6)
}

// What a template record does.
#[derive(Clone, Copy)]
pub(crate) enum Change<'a> {
    /// It withdraws all templates of the domain and the set's kind.
    AllGone,
    /// It withdraws the template of this ID.
    Gone(u16),
    /// It defines this ID.
    New(u16, Definition<'a>),
}

// The template record at the front, and how many octets it has. `options` says in which kind of set it stands, and
// `at` where in the message. It takes no memory, so that all that is wrong with a record is known before any is
// wanted.
#[tactic(auto, unfolding(crate::specs::Specifiers::change_at))]
pub(crate) fn read_change<'a>(
    options: bool,
    at: u16,
    octets: &'a [u8],
) -> Result<(Change<'a>, usize), DecodeFault>
    requires { 4 ≤ length octets.now }
    ensures exact { viewed (λ x. (change_view x.0, x.1)) result ≡ change_at options at octets.now }
    ensures within { IfOk result (λ x. (0 < x.1) × (x.1 ≤ length octets.now)) }
    ensures no_memory { result ≢ Err DecodeFault.Memory }
{
    let id = BigEndian::read_u16(octets);
    let count = BigEndian::read_u16(&octets[2..]);
    let all = if options { 3 } else { 2 };
    if id == all && count == 0 {
        return Ok((Change::AllGone, 4));
    }
    if id < 256 {
        return Err(DecodeFault::TemplateId { at });
    }
    if count == 0 {
        return Ok((Change::Gone(id), 4));
    }
    if count > MOST_FIELDS {
        return Err(DecodeFault::TooMany);
    }
    let head = measure_head(options, at, count, octets)?;
    let (_, rest) = octets.split_at(head);
    let (shortest, size) = measure_specifiers(at, head, count, rest)?;
    if shortest == 0 {
        return Err(DecodeFault::EmptyTemplate { id });
    }
    let definition = Definition {
        count,
        octets: rest,
        shortest,
    };
    Ok((Change::New(id, definition), size))
}

// The template of a definition, with specifiers of its own.
pub(crate) fn stored(
    alloc: Global,
    options: bool,
    definition: Definition<'_>,
) -> Result<Template, AllocError>
    ensures options { IfOk result (λ t. t.options ≡ options) }
    ensures specs { IfOk result (λ t. t.specs.items ≡ specs_in definition.entry.count definition.entry.octets.now) }
{
    let mut specs = Vec::with_capacity(alloc, definition.count as usize)?;
    let mut rest = definition.octets;
    for _ in 0..definition.count {
        let (spec, size) = specifier(rest).unwrap();
        specs.push(spec)?;
        let (_, behind) = rest.split_at(size);
        rest = behind;
    }
    let choice = Choice::of(&specs);
    let fixed = lay_out(choice, &specs);
    let steps = if fixed.is_some() {
        Vec::new(alloc)
    } else {
        steps_of(alloc, choice, &specs)?
    };
    Ok(Template {
        options,
        specs,
        shortest: definition.shortest,
        choice,
        fixed,
        steps,
    })
}
