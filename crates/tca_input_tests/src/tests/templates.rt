//! Templates and data records, as they are read and as they are handed on.
ghost use Rattle.std.specs.Prelude.{⊤};

use super::samples::{fixed, part, variable};
use std::alloc::{AllocError, Global};
use std::mem;
use tca_templates::{
    DecodeFault, Decoder, FieldValue, Outcome, PlacedFields, Record, TakesRecords,
};
use tca_wire::{Message, split_message};

// The transport session of each decoder.
const SESSION: u32 = 5;

// The template set and the data set of the first message.
fn template_set() -> &'static [u8] {
    part(fixed(), 16, 40)
}

fn data_set() -> &'static [u8] {
    part(fixed(), 40, 65)
}

// How many octets a message of these sets has.
fn length_of(sets: &[&[u8]]) -> u16 {
    let mut length: usize = 16;
    for set in sets {
        length = length.saturating_add(set.len());
    }
    u16::try_from(length).unwrap_or(0)
}

// The header of a message of domain 7.
fn header(length: u16, sequence: u32) -> [u8; 16] {
    let [high, low] = length.to_be_bytes();
    let [a, b, c, d] = sequence.to_be_bytes();
    [
        0, 10, high, low, 0x65, 0x53, 0xf1, 0, a, b, c, d, 0, 0, 0, 7,
    ]
}

// These octets, and behind them each of those.
fn joined(alloc: Global, first: &[u8], others: &[&[u8]]) -> Result<Vec<u8>, AllocError> {
    let mut octets = Vec::from_slice(alloc, first)?;
    for more in others {
        octets.extend_from_slice(*more)?;
    }
    Ok(octets)
}

// A message of domain 7 with these sets.
fn message(alloc: Global, sequence: u32, sets: &[&[u8]]) -> Result<Vec<u8>, AllocError> {
    joined(alloc, &header(length_of(sets), sequence), sets)
}

// What a decoder answers to the octets of a message; `None` where they aren't one.
fn answer(
    alloc: Global,
    decoder: &mut Decoder,
    octets: &[u8],
) -> Option<Result<Outcome, DecodeFault>> {
    match split_message(alloc, octets) {
        Ok(message) => Some(decoder.read(alloc, &message)),
        Err(_) => None,
    }
}

// What a decoder answers to a message of these sets.
fn read(
    alloc: Global,
    decoder: &mut Decoder,
    sequence: u32,
    sets: &[&[u8]],
) -> Result<Outcome, DecodeFault> {
    let octets = message(alloc, sequence, sets)?;
    answer(alloc, decoder, &octets).unwrap_or(Err(DecodeFault::Memory))
}

// Whether the records have these places in domain and session, and are of options or not.
fn has_places(outcome: &Outcome, places: &[(u32, bool)]) -> bool {
    let mut left = outcome.fields.iter();
    for (place, options) in places {
        match left.next() {
            Some(record) => {
                if (record.domain, record.session) != (7, SESSION)
                    || (record.place, record.options) != (*place, *options)
                {
                    return false;
                }
            }
            None => return false,
        }
    }
    left.next().is_none()
}

fn reads(
    alloc: Global,
    decoder: &mut Decoder,
    sequence: u32,
    sets: &[&[u8]],
    places: &[(u32, bool)],
    unplaced: Option<u16>,
    skipped: u32,
) -> bool {
    match read(alloc, decoder, sequence, sets) {
        Ok(outcome) => {
            has_places(&outcome, places)
                && outcome.unplaced == unplaced
                && outcome.skipped == skipped
        }
        Err(_) => false,
    }
}

// Whether a message of these sets, which have no record, is read, and leaves these templates.
fn leaves(
    alloc: Global,
    decoder: &mut Decoder,
    sets: &[&[u8]],
    templates: &[(u32, u16, bool)],
) -> bool {
    reads(alloc, decoder, 0, sets, &[], None, 0) && lists(decoder, templates)
}

// Whether a message of these sets is refused so, and leaves the templates as they were.
fn refuses(
    alloc: Global,
    decoder: &mut Decoder,
    sets: &[&[u8]],
    fault: DecodeFault,
    templates: &[(u32, u16, bool)],
) -> bool {
    match read(alloc, decoder, 0, sets) {
        Ok(_) => false,
        Err(found) => found == fault && lists(decoder, templates),
    }
}

fn lists(decoder: &Decoder, templates: &[(u32, u16, bool)]) -> bool {
    let mut left = decoder.templates();
    for template in templates {
        if left.next() != Some(*template) {
            return false;
        }
    }
    left.next().is_none()
}

fn has_field(record: &PlacedFields, n: usize, element: u16, value: &[u8]) -> bool {
    match record.fields.get(n) {
        Some(field) => {
            field.element == element && field.enterprise.is_none() && has_value(field, value)
        }
        None => false,
    }
}

fn has_value(field: &FieldValue, value: &[u8]) -> bool {
    field.value.as_slice() == value
}

fn has_fixed_fields(record: &PlacedFields) -> bool {
    record.fields.len() == 4
        && has_field(record, 0, 323, b"\x00\x00\x01\x8b\xcf\xe5\x68\x00")
        && has_field(record, 1, 224, b"\x00\x00\x00\x00\x00\x00\x05\xdc")
        && has_field(record, 2, 195, b"\x0a")
        && has_field(record, 3, 10, b"\x00\x00\x00\x01")
}

fn gives_the_fixed_record(outcome: &Outcome) -> bool {
    match outcome.fields.first() {
        Some(record) => {
            has_places(outcome, &[(5, false)])
                && has_fixed_fields(record)
                && outcome.unplaced.is_none()
                && outcome.skipped == 0
        }
        None => false,
    }
}

fn reads_the_fixed_record(alloc: Global, decoder: &mut Decoder) -> bool {
    match answer(alloc, decoder, fixed()) {
        Some(Ok(outcome)) => gives_the_fixed_record(&outcome),
        _ => false,
    }
}

#[test]
fn reads_a_record(rt: HostRuntime) {
    let mut decoder = Decoder::new(rt.alloc(), SESSION);
    assert!(rt; lists(&decoder, &[]));
    assert!(rt; reads_the_fixed_record(rt.alloc(), &mut decoder));
    assert!(rt; lists(&decoder, &[(7, 256, false)]));
}

// A data set of 63,004 octets: 3,000 records by the template of the first message.
fn long_set(alloc: Global) -> Result<Vec<u8>, AllocError> {
    let mut octets = Vec::from_slice(alloc, b"\x01\x00\xf6\x1c")?;
    for _ in 0..3000 {
        octets.extend_from_slice(part(data_set(), 4, 25))?;
    }
    Ok(octets)
}

// How many records are read of a message with the template and that data set.
fn read_of_long(alloc: Global, decoder: &mut Decoder) -> Option<usize> {
    let Ok(many) = long_set(alloc) else {
        return None;
    };
    match read(alloc, decoder, 0, &[template_set(), &many]) {
        Ok(outcome) => Some(outcome.fields.len()),
        Err(_) => None,
    }
}

#[test]
fn many_records_are_read(rt: HostRuntime) {
    let mut decoder = Decoder::new(rt.alloc(), SESSION);
    assert!(rt; read_of_long(rt.alloc(), &mut decoder) == Some(3000));
}

// How many records were handed on, whether the last of them is the one of `fixed`, and of which session it is.
#[derive(Clone, Copy)]
struct Told {
    records: u32,
    is_fixed: bool,
    session: u32,
}

// Whether this element with these octets was found.
fn is_found(found: Option<(u16, &[u8])>, element: u16, octets: &[u8]) -> bool {
    found == Some((element, octets))
}

fn is_fixed_record(record: &Record<'_>) -> bool {
    record.domain() == 7
        && record.place() == 5
        && !record.is_options()
        && is_found(record.time(), 323, b"\x00\x00\x01\x8b\xcf\xe5\x68\x00")
        && is_found(record.size(), 224, b"\0\0\0\0\0\0\x05\xdc")
        && is_found(record.code_point(), 195, b"\x0a")
        && is_found(record.interface(), 10, b"\0\0\0\x01")
        && record.section().is_none()
}

impl TakesRecords for Told {
    ghost took = { λ start records now. ⊤ };

    fn take(&mut self, next: &Record<'_>) -> Result<(), AllocError> {
        self.records = self.records.wrapping_add(1);
        self.is_fixed = is_fixed_record(next);
        self.session = next.session();
        Ok(())
    }
}

// What a decoder hands on of a message. Where that has a fault, the decoder is a new one then.
fn hand(alloc: Global, decoder: &mut Decoder, message: &Message<'_>) -> Result<Told, DecodeFault> {
    let mut told = Told {
        records: 0,
        is_fixed: false,
        session: 0,
    };
    let before = mem::replace(decoder, Decoder::new(alloc, 0));
    let handed = before.hand_records(alloc, message, &mut told)?;
    *decoder = handed.decoder;
    Ok(told)
}

// The same of the octets of a message.
fn handed(alloc: Global, decoder: &mut Decoder, octets: &[u8]) -> Result<Told, DecodeFault> {
    match split_message(alloc, octets) {
        Ok(message) => hand(alloc, decoder, &message),
        Err(_) => Err(DecodeFault::Memory),
    }
}

// Whether one record of the session is handed on, and whether it is that of `fixed` as is said.
fn hands_on_one(alloc: Global, decoder: &mut Decoder, octets: &[u8], is_fixed: bool) -> bool {
    match handed(alloc, decoder, octets) {
        Ok(told) => (told.records, told.is_fixed, told.session) == (1, is_fixed, SESSION),
        Err(_) => false,
    }
}

#[test]
fn hands_on_records(rt: HostRuntime) {
    let mut decoder = Decoder::new(rt.alloc(), SESSION);
    assert!(rt; hands_on_one(rt.alloc(), &mut decoder, fixed(), true));
    assert!(rt; hands_on_one(rt.alloc(), &mut decoder, variable(), false));
    assert!(rt; lists(&decoder, &[(7, 256, false)]));
}

#[test]
fn places_go_on_past_the_last(rt: HostRuntime) {
    let mut decoder = Decoder::new(rt.alloc(), SESSION);
    let record = part(data_set(), 4, 25);
    let sets: &[&[u8]] = &[template_set(), b"\x01\x00\x00\x2e", record, record];
    let places = &[(4_294_967_295, false), (0, false)];
    assert!(rt;
        reads(
            rt.alloc(),
            &mut decoder,
            4_294_967_295,
            sets,
            places,
            None,
            0
        )
    );
}

#[test]
fn unknown_templates_end_the_records(rt: HostRuntime) {
    let mut decoder = Decoder::new(rt.alloc(), SESSION);
    let defined: &[&[u8]] = &[template_set()];
    assert!(rt; reads(rt.alloc(), &mut decoder, 0, defined, &[], None, 0));
    let unknown: &[u8] = b"\x01\x2c\x00\x05\x09";
    let sets: &[&[u8]] = &[data_set(), unknown, data_set()];
    assert!(rt;
        reads(
            rt.alloc(),
            &mut decoder,
            20,
            sets,
            &[(20, false)],
            Some(300),
            0
        )
    );
    let defined: &[&[u8]] = &[b"\x00\x02\x00\x0c\x01\x2c\x00\x01\x00\x05\x00\x01"];
    assert!(rt; reads(rt.alloc(), &mut decoder, 0, defined, &[], None, 0));
    let places = &[(20, false), (21, false), (22, false)];
    assert!(rt; reads(rt.alloc(), &mut decoder, 20, sets, places, None, 0));
    // Template 301 is unknown; then no record is read and none is cut, but templates and skipped sets count.
    let sets: &[&[u8]] = &[
        b"\x01\x2d\x00\x04",
        b"\x01\x00\x00\x19\x00\x00\x01\x8b\xcf\xe5\x68\x00\x00\x00\x00\x00\x00\x00\x05\xdc\x0a\x00\x00\x00\x01",
        b"\x00\x02\x00\x0c\x01\x2d\x00\x01\x01\x39\xff\xff",
        b"\x01\x2d\x00\x05\x09",
        b"\x00\x04\x00\x04",
    ];
    assert!(rt; reads(rt.alloc(), &mut decoder, 20, sets, &[], Some(301), 1));
    assert!(rt;
        lists(
            &decoder,
            &[(7, 256, false), (7, 300, false), (7, 301, false)]
        )
    );
}

// Octets with others in place of those that stand at an offset.
fn changed(alloc: Global, octets: &[u8], at: usize, new: &[u8]) -> Result<Vec<u8>, AllocError> {
    let rest = part(octets, at.saturating_add(new.len()), octets.len());
    joined(alloc, part(octets, 0, at), &[new, rest])
}

// Whether a fresh decoder refuses to hand on the records of this message for this fault.
fn refuses_to_hand(alloc: Global, message: &Message<'_>, fault: DecodeFault) -> bool {
    let mut decoder = Decoder::new(alloc, SESSION);
    match hand(alloc, &mut decoder, message) {
        Ok(_) => false,
        Err(found) => found == fault,
    }
}

// Whether a fresh decoder refuses to read this message for this fault, and has no template then.
fn refuses_to_read(alloc: Global, message: &Message<'_>, fault: DecodeFault) -> bool {
    let mut decoder = Decoder::new(alloc, SESSION);
    match decoder.read(alloc, message) {
        Ok(_) => false,
        Err(found) => found == fault && lists(&decoder, &[]),
    }
}

// Whether a message with these octets in place of those that stand at an offset is refused so, by both calls.
fn is_refused(alloc: Global, octets: &[u8], at: usize, new: &[u8], fault: DecodeFault) -> bool {
    let Ok(octets) = changed(alloc, octets, at, new) else {
        return false;
    };
    let Ok(message) = split_message(alloc, &octets) else {
        return false;
    };
    refuses_to_read(alloc, &message, fault) && refuses_to_hand(alloc, &message, fault)
}

#[test]
fn refuses_what_the_messages_become(rt: HostRuntime) {
    for (octets, at, new, fault) in [
        (
            fixed(),
            20,
            b"\x00\xff".as_slice(),
            DecodeFault::TemplateId { at: 20 },
        ),
        (
            fixed(),
            22,
            b"\x00\x05".as_slice(),
            DecodeFault::TemplateCut { at: 20 },
        ),
        (
            variable(),
            40,
            b"\xff\x00\x05".as_slice(),
            DecodeFault::RecordCut { at: 36 },
        ),
    ] {
        assert!(rt; is_refused(rt.alloc(), octets, at, new, fault));
    }
}

// Whether there is a record with this field.
fn is_there(record: Option<&PlacedFields>, n: usize, element: u16, value: &[u8]) -> bool {
    match record {
        Some(record) => has_field(record, n, element, value),
        None => false,
    }
}

fn reads_the_long_form(alloc: Global, decoder: &mut Decoder) -> bool {
    match answer(alloc, decoder, variable()) {
        Some(Ok(outcome)) => {
            has_places(&outcome, &[(0, false)])
                && is_there(outcome.fields.first(), 0, 322, b"\x65\x53\xf1\x00")
                && is_there(outcome.fields.first(), 1, 313, b"\x45\xb8\x05\xdc")
        }
        _ => false,
    }
}

// The short form, an empty value, and four octets of padding that aren't 0.
fn reads_the_short_form(alloc: Global, decoder: &mut Decoder) -> bool {
    let set = b"\x01\x00\x00\x13\x65\x53\xf1\x00\x01\x2a\x65\x53\xf1\x01\x00\x65\x53\xf1\x01";
    match read(alloc, decoder, 9, &[set]) {
        Ok(outcome) => {
            has_places(&outcome, &[(9, false), (10, false)])
                && is_there(outcome.fields.first(), 1, 313, b"\x2a")
                && is_there(outcome.fields.last(), 1, 313, b"")
        }
        Err(_) => false,
    }
}

#[test]
fn reads_lengths_in_both_forms(rt: HostRuntime) {
    let mut decoder = Decoder::new(rt.alloc(), SESSION);
    assert!(rt; reads_the_long_form(rt.alloc(), &mut decoder));
    assert!(rt; reads_the_short_form(rt.alloc(), &mut decoder));
}

// Template 257 of options: scope element 149 (4 octets), and element 1 of enterprise 29305 (2 octets).
fn options_set() -> &'static [u8] {
    b"\x00\x03\x00\x16\x01\x01\x00\x02\x00\x01\x00\x95\x00\x04\x80\x01\x00\x02\x00\x00\x72\x79"
}

// Whether the last field of a record is this element of enterprise 29305, with this value.
fn ends_with(record: &PlacedFields, element: u16, value: &[u8]) -> bool {
    match record.fields.last() {
        Some(field) => {
            field.element == element && field.enterprise == Some(29_305) && has_value(field, value)
        }
        None => false,
    }
}

fn gives_the_options_record(outcome: &Outcome) -> bool {
    match outcome.fields.first() {
        Some(record) => {
            has_places(outcome, &[(9, true), (10, false)]) && ends_with(record, 1, b"\x12\x34")
        }
        None => false,
    }
}

fn reads_the_options_record(alloc: Global, decoder: &mut Decoder) -> bool {
    let options: &[u8] = b"\x01\x01\x00\x0a\x00\x00\x00\x07\x12\x34";
    let sets: &[&[u8]] = &[template_set(), options_set(), options, data_set()];
    match read(alloc, decoder, 9, sets) {
        Ok(outcome) => gives_the_options_record(&outcome),
        Err(_) => false,
    }
}

#[test]
fn options_records_have_places(rt: HostRuntime) {
    let mut decoder = Decoder::new(rt.alloc(), SESSION);
    assert!(rt; reads_the_options_record(rt.alloc(), &mut decoder));
    assert!(rt; lists(&decoder, &[(7, 256, false), (7, 257, true)]));
}

// A template set, or an options template set, that withdraws this ID.
fn withdrawal(set: u8, id: u16) -> [u8; 8] {
    let [high, low] = id.to_be_bytes();
    [0, set, 0, 8, high, low, 0, 0]
}

// Whether templates 256 and 257 (of options) without what this withdraws are these.
fn withdraws(alloc: Global, set: u8, id: u16, templates: &[(u32, u16, bool)]) -> bool {
    let mut decoder = Decoder::new(alloc, SESSION);
    let withdrawn = withdrawal(set, id);
    let sets: &[&[u8]] = &[template_set(), options_set(), &withdrawn];
    leaves(alloc, &mut decoder, sets, templates)
}

#[test]
fn withdrawals_go_by_id_or_by_kind(rt: HostRuntime) {
    let (plain, options) = ((7, 256, false), (7, 257, true));
    for set in [2, 3] {
        assert!(rt; withdraws(rt.alloc(), set, 256, &[options]));
        assert!(rt; withdraws(rt.alloc(), set, 257, &[plain]));
        assert!(rt; withdraws(rt.alloc(), set, 258, &[plain, options]));
    }
    assert!(rt; withdraws(rt.alloc(), 2, 2, &[options]));
    assert!(rt; withdraws(rt.alloc(), 3, 3, &[plain]));
}

// Whether the first message is answered in domain 8.
fn answers_in_another_domain(alloc: Global, decoder: &mut Decoder) -> bool {
    match changed(alloc, fixed(), 12, b"\x00\x00\x00\x08") {
        Ok(octets) => answer(alloc, decoder, &octets).is_some(),
        Err(_) => false,
    }
}

#[test]
fn templates_keep_their_places(rt: HostRuntime) {
    let mut decoder = Decoder::new(rt.alloc(), SESSION);
    let (plain, options) = ((7, 256, false), (7, 257, true));
    let sets: &[&[u8]] = &[template_set(), options_set(), template_set()];
    assert!(rt; leaves(rt.alloc(), &mut decoder, sets, &[plain, options]));
    // Template 256 as one of options, and as it was.
    let sets: &[&[u8]] = &[b"\x00\x03\x00\x0e\x01\x00\x00\x01\x00\x01\x00\x95\x00\x04"];
    assert!(rt; leaves(rt.alloc(), &mut decoder, sets, &[(7, 256, true), options]));
    let withdrawn = withdrawal(3, 256);
    let sets: &[&[u8]] = &[&withdrawn, template_set()];
    assert!(rt; leaves(rt.alloc(), &mut decoder, sets, &[options, plain]));
    // The same ID in another domain is another template.
    assert!(rt; answers_in_another_domain(rt.alloc(), &mut decoder));
    assert!(rt; lists(&decoder, &[options, plain, (8, 256, false)]));
}

// Whether these are the IDs of the templates, in this order.
fn knows(decoder: &Decoder, ids: &[u16]) -> bool {
    let mut left = decoder.templates();
    for id in ids {
        if left.next() != Some((7, *id, false)) {
            return false;
        }
    }
    left.next().is_none()
}

// Whether a message of 200 templates is handed on.
fn hands_on_200(alloc: Global, decoder: &mut Decoder) -> bool {
    let Ok(many) = many_templates(alloc, 256, 200) else {
        return false;
    };
    let Ok(octets) = message(alloc, 0, &[&many]) else {
        return false;
    };
    handed(alloc, decoder, &octets).is_ok()
}

// The same where an ID is withdrawn and defined again, and another one redefined.
fn exchanges(alloc: Global, decoder: &mut Decoder, id: u16, other: u16) -> bool {
    let withdrawn = withdrawal(2, id);
    let again = one_template(id);
    let redefined = one_template(other);
    let Ok(octets) = message(alloc, 0, &[&withdrawn, &again, &redefined]) else {
        return false;
    };
    handed(alloc, decoder, &octets).is_ok()
}

fn ids_of_200() -> [u16; 200] {
    let mut ids = [256; 200];
    for i in 0..200u16 {
        ids[i as usize] = 256 + i;
    }
    ids
}

// The IDs with this one behind the others.
fn put_last(ids: &mut [u16], id: u16) {
    let mut last = id;
    for known in ids.iter_mut().rev() {
        mem::swap(known, &mut last);
        if last == id {
            return;
        }
    }
}

#[test]
fn withdrawn_templates_go_last(rt: HostRuntime) {
    let mut decoder = Decoder::new(rt.alloc(), SESSION);
    assert!(rt; hands_on_200(rt.alloc(), &mut decoder));
    let mut ids = ids_of_200();
    for i in 0..1_000 {
        let (id, other) = (256 + 7 * i % 200, 256 + 3 * i % 200);
        let done = exchanges(rt.alloc(), &mut decoder, id, other);
        put_last(&mut ids, id);
        assert!(rt; done && knows(&decoder, &ids), "turn {i}");
    }
}

// Template sets that are refused, each behind one that would define template 300.
const REFUSED: [(&'static [u8], DecodeFault); 9] = [
    // ID 3 in a template set, and ID 2 there with a field.
    (
        b"\x00\x02\x00\x08\x00\x03\x00\x00",
        DecodeFault::TemplateId { at: 32 },
    ),
    (
        b"\x00\x02\x00\x0c\x00\x02\x00\x01\x00\x05\x00\x01",
        DecodeFault::TemplateId { at: 32 },
    ),
    // ID 2 in an options template set.
    (
        b"\x00\x03\x00\x08\x00\x02\x00\x00",
        DecodeFault::TemplateId { at: 32 },
    ),
    // No scope field, and two of one field.
    (
        b"\x00\x03\x00\x0e\x01\x02\x00\x01\x00\x00\x00\x05\x00\x01",
        DecodeFault::Scope { at: 32 },
    ),
    (
        b"\x00\x03\x00\x0e\x01\x02\x00\x01\x00\x02\x00\x05\x00\x01",
        DecodeFault::Scope { at: 32 },
    ),
    // Five octets of an options template, and five of an enterprise's specifier.
    (
        b"\x00\x03\x00\x09\x01\x02\x00\x01\x00",
        DecodeFault::TemplateCut { at: 32 },
    ),
    (
        b"\x00\x02\x00\x0d\x01\x02\x00\x01\x80\x05\x00\x01\x00",
        DecodeFault::TemplateCut { at: 32 },
    ),
    // One field of no octets.
    (
        b"\x00\x02\x00\x0c\x01\x02\x00\x01\x00\x05\x00\x00",
        DecodeFault::EmptyTemplate { id: 258 },
    ),
    // 513 fields, none of which is there.
    (b"\x00\x02\x00\x08\x01\x02\x02\x01", DecodeFault::TooMany),
];

#[test]
fn refused_templates_change_nothing(rt: HostRuntime) {
    let mut decoder = Decoder::new(rt.alloc(), SESSION);
    let known: &[&[u8]] = &[template_set()];
    assert!(rt; reads(rt.alloc(), &mut decoder, 0, known, &[], None, 0));
    let new: &[u8] = b"\x00\x02\x00\x0c\x01\x2c\x00\x01\x00\x05\x00\x01";
    for (set, fault) in REFUSED {
        let sets: &[&[u8]] = &[new, set];
        assert!(rt;
            refuses(rt.alloc(), &mut decoder, sets, fault, &[(7, 256, false)]),
            "{fault}"
        );
    }
}

// The templates that a decoder knows.
fn listed(alloc: Global, decoder: &Decoder) -> Result<Vec<(u32, u16, bool)>, AllocError> {
    let mut templates = Vec::new(alloc);
    for template in decoder.templates() {
        templates.push(template)?;
    }
    Ok(templates)
}

// What a decoder answers to sets that redefine, withdraw and define, withdraw all and define once more, and to another
// behind them.
fn turned_over(
    alloc: Global,
    decoder: &mut Decoder,
    last: &'static [u8],
) -> Result<Outcome, DecodeFault> {
    let redefined = many_templates(alloc, 257, 9)?;
    let new = many_templates(alloc, 400, 50)?;
    let (one, again) = (withdrawal(2, 300), one_template(300));
    let (all, options) = (withdrawal(2, 2), withdrawal(3, 3));
    let sets: &[&[u8]] = &[
        &redefined,
        &one,
        &again,
        &new,
        &one,
        options_set(),
        &all,
        template_set(),
        &options,
        last,
    ];
    read(alloc, decoder, 0, sets)
}

// Whether templates 256 to 355 are read, and 257 as one of options.
fn reads_100_templates(alloc: Global, decoder: &mut Decoder) -> bool {
    let Ok(many) = many_templates(alloc, 256, 100) else {
        return false;
    };
    reads(alloc, decoder, 0, &[&many, options_set()], &[], None, 0)
}

// Whether a fault behind all that puts back the templates, which have the fields that they had.
fn puts_all_back(alloc: Global, decoder: &mut Decoder, before: &[(u32, u16, bool)]) -> bool {
    let last = b"\x00\x02\x00\x08\x00\x03\x00\x00";
    let sets: &[&[u8]] = &[
        b"\x01\x00\x00\x06\xaa\xbb",
        b"\x01\x01\x00\x0a\x00\x00\x00\x07\x12\x34",
    ];
    let places: &[(u32, bool)] = &[(5, false), (6, false), (7, true)];
    turned_over(alloc, decoder, last).is_err()
        && lists(decoder, before)
        && reads(alloc, decoder, 5, sets, places, None, 0)
}

fn puts_100_back(alloc: Global, decoder: &mut Decoder) -> bool {
    let Ok(before) = listed(alloc, decoder) else {
        return false;
    };
    for _ in 0..3 {
        if !puts_all_back(alloc, decoder, &before) {
            return false;
        }
    }
    before.len() == 100
}

fn keeps_the_last(alloc: Global, decoder: &mut Decoder) -> bool {
    match turned_over(alloc, decoder, data_set()) {
        Ok(kept) => has_places(&kept, &[(0, false)]) && lists(decoder, &[(7, 256, false)]),
        Err(_) => false,
    }
}

#[test]
fn refusals_put_all_back(rt: HostRuntime) {
    let mut decoder = Decoder::new(rt.alloc(), SESSION);
    assert!(rt; reads_100_templates(rt.alloc(), &mut decoder));
    assert!(rt; puts_100_back(rt.alloc(), &mut decoder));
    assert!(rt; keeps_the_last(rt.alloc(), &mut decoder));
}

// A template of one octet.
fn template(id: u16) -> [u8; 8] {
    let [high, low] = id.to_be_bytes();
    [high, low, 0, 1, 0, 5, 0, 1]
}

// A template set of templates of one octet, from one ID on.
fn many_templates(alloc: Global, first: u16, count: u16) -> Result<Vec<u8>, AllocError> {
    let [high, low] = u16::try_from(8 * u32::from(count) + 4)
        .unwrap_or(0)
        .to_be_bytes();
    let mut octets = Vec::from_slice(alloc, &[0, 2, high, low])?;
    for i in 0..count {
        octets.extend_from_slice(&template(first.wrapping_add(i)))?;
    }
    Ok(octets)
}

// The same of one template.
fn one_template(id: u16) -> [u8; 12] {
    let [high, low] = id.to_be_bytes();
    [0, 2, 0, 12, high, low, 0, 1, 0, 5, 0, 1]
}

fn refuses_4097_templates(alloc: Global) -> bool {
    let mut decoder = Decoder::new(alloc, SESSION);
    let Ok(most) = many_templates(alloc, 256, 4_097) else {
        return false;
    };
    let sets: &[&[u8]] = &[&most];
    refuses(alloc, &mut decoder, sets, DecodeFault::TooMany, &[])
}

// Reads as many templates as a session can have.
fn reads_4096_templates(alloc: Global, decoder: &mut Decoder) -> bool {
    let Ok(most) = many_templates(alloc, 256, 4_096) else {
        return false;
    };
    reads(alloc, decoder, 0, &[&most], &[], None, 0)
}

fn is_one_too_many(alloc: Global, decoder: &mut Decoder, sets: &[&[u8]]) -> bool {
    match read(alloc, decoder, 0, sets) {
        Ok(_) => false,
        Err(found) => found == DecodeFault::TooMany,
    }
}

// Whether a known ID is taken, and a new one only where another is withdrawn first.
fn takes_one_for_another(alloc: Global, decoder: &mut Decoder) -> bool {
    let (more, withdrawn) = (one_template(4_352), withdrawal(2, 256));
    let known: &[&[u8]] = &[template_set()];
    let new: &[&[u8]] = &[&more];
    let exchanged: &[&[u8]] = &[&withdrawn, &more];
    is_one_too_many(alloc, decoder, new)
        && reads(alloc, decoder, 0, known, &[], None, 0)
        && reads(alloc, decoder, 0, exchanged, &[], None, 0)
}

// The first ID is gone, and another went last.
fn has_4096_templates(decoder: &Decoder) -> bool {
    decoder.templates().count() == 4_096 && decoder.templates().next() == Some((7, 257, false))
}

fn keeps_to_4096_templates(alloc: Global) -> bool {
    let mut decoder = Decoder::new(alloc, SESSION);
    reads_4096_templates(alloc, &mut decoder)
        && takes_one_for_another(alloc, &mut decoder)
        && has_4096_templates(&decoder)
}

#[test]
fn templates_are_at_most_4096(rt: HostRuntime) {
    assert!(rt; refuses_4097_templates(rt.alloc()));
    assert!(rt; keeps_to_4096_templates(rt.alloc()));
}

// The front of a template set of this length, up to the fields of its one template.
fn wide_header(length: u16, fields: u16) -> [u8; 8] {
    let [high, low] = length.to_be_bytes();
    let [upper, lower] = fields.to_be_bytes();
    [0, 2, high, low, 1, 0, upper, lower]
}

// A template set of one template of so many fields, one octet each.
fn wide_template(alloc: Global, fields: u16) -> Result<Vec<u8>, AllocError> {
    let length = u16::try_from(4 * u32::from(fields) + 8).unwrap_or(0);
    let mut octets = Vec::from_slice(alloc, &wide_header(length, fields))?;
    for _ in 0..fields {
        octets.extend_from_slice(b"\x00\x05\x00\x01")?;
    }
    Ok(octets)
}

fn refuses_513_fields(alloc: Global, decoder: &mut Decoder) -> bool {
    let Ok(wide) = wide_template(alloc, 513) else {
        return false;
    };
    refuses(alloc, decoder, &[&wide], DecodeFault::TooMany, &[])
}

fn reads_512_fields(alloc: Global, decoder: &mut Decoder) -> bool {
    let Ok(wide) = wide_template(alloc, 512) else {
        return false;
    };
    reads(alloc, decoder, 0, &[&wide], &[], None, 0)
}

#[test]
fn fields_are_at_most_512(rt: HostRuntime) {
    let mut decoder = Decoder::new(rt.alloc(), SESSION);
    assert!(rt; refuses_513_fields(rt.alloc(), &mut decoder));
    assert!(rt; reads_512_fields(rt.alloc(), &mut decoder));
    assert!(rt; lists(&decoder, &[(7, 256, false)]));
}

#[test]
fn skips_sets_and_padding(rt: HostRuntime) {
    let mut decoder = Decoder::new(rt.alloc(), SESSION);
    // Three octets of padding behind the template, and twenty behind the record of 21.
    let sets: &[&[u8]] = &[
        b"\x00\x00\x00\x04",
        b"\x00\x02\x00\x1b",
        part(template_set(), 4, 24),
        b"\x01\x02\x03",
        b"\x00\x01\x00\x05\xff",
        b"\x00\x04\x00\x04",
        b"\x01\x00\x00\x2d",
        part(data_set(), 4, 25),
        b"\x09\x09\x09\x09\x09\x09\x09\x09\x09\x09\x09\x09\x09\x09\x09\x09\x09\x09\x09\x09",
        b"\x00\xff\x00\x04",
        b"\x01\x00\x00\x04",
        b"\x00\x02\x00\x04",
    ];
    assert!(rt; reads(rt.alloc(), &mut decoder, 3, sets, &[(3, false)], None, 4));
    assert!(rt; lists(&decoder, &[(7, 256, false)]));
}

// The templates that sessions know before they get something damaged: none; that of the first message, and an options
// template of another domain.
const KNOWN: [&[(u32, u16, bool)]; 2] = [&[], &[(8, 300, true), (7, 256, false)]];

// Whether these octets are read, or refused with the templates as they were.
fn is_harmless(
    alloc: Global,
    decoder: &mut Decoder,
    octets: &[u8],
    known: &[(u32, u16, bool)],
) -> bool {
    match answer(alloc, decoder, octets) {
        Some(Ok(_)) => true,
        Some(Err(fault)) => fault != DecodeFault::Memory && lists(decoder, known),
        None => lists(decoder, known),
    }
}

// Reads a message that has no fault.
fn learn(alloc: Global, decoder: &mut Decoder, octets: &[u8]) -> Result<(), DecodeFault> {
    match answer(alloc, decoder, octets) {
        Some(Ok(_)) => Ok(()),
        Some(Err(fault)) => Err(fault),
        None => Err(DecodeFault::Memory),
    }
}

// A message of domain 8 with an options template.
fn other_domain() -> &'static [u8] {
    b"\x00\x0a\x00\x1e\x65\x53\xf1\x00\x00\x00\x00\x00\x00\x00\x00\x08\
\x00\x03\x00\x0e\x01\x2c\x00\x01\x00\x01\x00\x95\x00\x04"
}

// Reads the two messages that define them.
fn learn_both(alloc: Global, decoder: &mut Decoder) -> Result<(), DecodeFault> {
    let octets = message(alloc, 0, &[template_set()])?;
    learn(alloc, decoder, other_domain())?;
    learn(alloc, decoder, &octets)
}

// A session that knows these templates.
fn session(alloc: Global, known: &[(u32, u16, bool)]) -> Result<Decoder, DecodeFault> {
    let mut decoder = Decoder::new(alloc, SESSION);
    if !known.is_empty() {
        learn_both(alloc, &mut decoder)?;
    }
    Ok(decoder)
}

// Whether these octets, which are no message, are harmless.
fn is_harmless_cut(
    alloc: Global,
    decoder: &mut Decoder,
    octets: &[u8],
    known: &[(u32, u16, bool)],
) -> bool {
    split_message(alloc, octets).is_err() && is_harmless(alloc, decoder, octets, known)
}

fn survives_cuts(alloc: Global, octets: &[u8], known: &[(u32, u16, bool)]) -> bool {
    let Ok(mut decoder) = session(alloc, known) else {
        return false;
    };
    for length in 0..octets.len() {
        if !is_harmless_cut(alloc, &mut decoder, part(octets, 0, length), known) {
            return false;
        }
    }
    true
}

fn survives_octet(
    alloc: Global,
    octets: &[u8],
    at: usize,
    octet: u8,
    known: &[(u32, u16, bool)],
) -> bool {
    let Ok(octets) = changed(alloc, octets, at, &[octet]) else {
        return false;
    };
    let Ok(mut decoder) = session(alloc, known) else {
        return false;
    };
    is_harmless(alloc, &mut decoder, &octets, known)
}

fn survives_at(alloc: Global, octets: &[u8], at: usize, known: &[(u32, u16, bool)]) -> bool {
    for octet in 0..=255 {
        if !survives_octet(alloc, octets, at, octet, known) {
            return false;
        }
    }
    true
}

// Whether a new session knows these templates.
fn knows_at_first(alloc: Global, known: &[(u32, u16, bool)]) -> bool {
    let Ok(decoder) = session(alloc, known) else {
        return false;
    };
    lists(&decoder, known)
}

// Whether each cut and each change of an octet is harmless to a session that knows these templates.
fn survives(alloc: Global, octets: &[u8], known: &[(u32, u16, bool)]) -> bool {
    for at in 0..octets.len() {
        if !survives_at(alloc, octets, at, known) {
            return false;
        }
    }
    survives_cuts(alloc, octets, known) && knows_at_first(alloc, known)
}

#[test]
fn no_damage_is_kept(rt: HostRuntime) {
    for known in KNOWN {
        assert!(rt; survives(rt.alloc(), fixed(), known));
        assert!(rt; survives(rt.alloc(), variable(), known));
    }
}

// The faults, each with its number and its text.
const FAULTS: [(DecodeFault, &'static str); 7] = [
    (
        DecodeFault::TemplateId { at: 20 },
        "1 the template record at offset 20 has an ID below 256",
    ),
    (
        DecodeFault::TemplateCut { at: 21 },
        "2 the template record at offset 21 goes on past the end of its set",
    ),
    (
        DecodeFault::Scope { at: 22 },
        "3 the options template at offset 22 has no scope field, or more of them than fields",
    ),
    (
        DecodeFault::EmptyTemplate { id: 256 },
        "4 template 256 gives its records no octet",
    ),
    (
        DecodeFault::TooMany,
        "5 a template has more than 512 fields, or there are more than 4096 templates",
    ),
    (
        DecodeFault::RecordCut { at: 36 },
        "6 the data record at offset 36 goes on past the end of its set",
    ),
    (DecodeFault::Memory, "7 out of memory"),
];

fn says(alloc: Global, fault: DecodeFault, text: &str) -> bool {
    let Ok(line) = format!(in alloc; "{} {fault}", fault.number()) else {
        return false;
    };
    line.as_str() == text
}

#[test]
fn faults_have_numbers_and_texts(rt: HostRuntime) {
    for (fault, text) in FAULTS {
        assert!(rt; says(rt.alloc(), fault, text), "{text}");
    }
}
