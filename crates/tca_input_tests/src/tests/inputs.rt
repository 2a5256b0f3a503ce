//! Inputs: log exports, and captures of hand-made messages.
use super::samples::{fixed, one_report, one_without_session, part, variable};
use std::alloc::{AllocError, Global};
use std::fmt::Display;
use tca_report::{
    Content, ExportFault, Identity, InputFault, NotReport, Notes, Report, extract, gather,
};
use tca_templates::{DecodeFault, Decoder, Outcome, PlacedFields};
use tca_wire::{WireFault, split_message};

const T: u64 = 1_700_000_000_000;

// A report of session 0.
fn report(place: u32, time: u64, dscp: u8, iface: u32) -> Option<Report> {
    report_in(0, place, time, dscp, iface)
}

fn report_in(session: u32, place: u32, time: u64, dscp: u8, iface: u32) -> Option<Report> {
    let identity = Identity {
        domain: 7,
        session,
        place,
    };
    let content = Content {
        time,
        octets: 1500,
        dscp,
        iface,
    };
    Report::new(identity, content)
}

fn joined(rt: &HostRuntime, parts: &[&[u8]]) -> Result<Vec<u8>, AllocError> {
    let mut all = Vec::new(rt.alloc());
    for part in parts {
        all.extend_from_slice(*part)?;
    }
    Ok(all)
}

// A message of domain 7 with these sets.
fn message(rt: &HostRuntime, sequence: u32, sets: &[&[u8]]) -> Result<Vec<u8>, AllocError> {
    let body = joined(rt, sets)?;
    let length = u16::try_from(16 + body.len()).unwrap_or(0);
    joined(
        rt,
        &[
            b"\x00\x0a".as_slice(),
            &length.to_be_bytes(),
            b"\x65\x53\xf1\x00",
            &sequence.to_be_bytes(),
            b"\x00\x00\x00\x07",
            &body,
        ],
    )
}

fn set(rt: &HostRuntime, id: u16, body: &[u8]) -> Result<Vec<u8>, AllocError> {
    let length = u16::try_from(4 + body.len()).unwrap_or(0);
    joined(
        rt,
        &[id.to_be_bytes().as_slice(), &length.to_be_bytes(), body],
    )
}

// A template set of one template of these field specifiers, four octets each.
fn one_template(rt: &HostRuntime, specifiers: &[u8]) -> Result<Vec<u8>, AllocError> {
    let count = u16::try_from(specifiers.len() / 4).unwrap_or(0);
    let template = joined(
        rt,
        &[b"\x01\x00".as_slice(), &count.to_be_bytes(), specifiers],
    )?;
    set(rt, 2, &template)
}

// A message of sequence 5 with a template of these field specifiers, four octets each, and a record of it.
fn one_record(rt: &HostRuntime, specifiers: &[u8], record: &[u8]) -> Result<Vec<u8>, AllocError> {
    let templates = one_template(rt, specifiers)?;
    let data = set(rt, 256, record)?;
    message(rt, 5, &[templates.as_slice(), data.as_slice()])
}

// What the one record of an input is: its report, or else the reason's number.
fn found(rt: &HostRuntime, octets: &[u8]) -> Option<Result<Report, usize>> {
    let Ok(gathered) = gather(rt.alloc(), octets, 0) else {
        return None;
    };
    if let Some(report) = gathered.reports.first() {
        return Some(Ok(*report));
    }
    match gathered.notes.not_reports.iter().position(|n| *n == 1) {
        Some(place) if place < 7 => Some(Err(place + 1)),
        _ => None,
    }
}

// The same of one record with these field specifiers and these values.
fn found_of(
    rt: &HostRuntime,
    specifiers: &[&[u8]],
    values: &[&[u8]],
) -> Option<Result<Report, usize>> {
    let Ok(specifiers) = joined(rt, specifiers) else {
        return None;
    };
    let Ok(record) = joined(rt, values) else {
        return None;
    };
    let Ok(octets) = one_record(rt, &specifiers, &record) else {
        return None;
    };
    found(rt, &octets)
}

fn is_refused(rt: &HostRuntime, octets: &[u8], fault: InputFault) -> bool {
    match gather(rt.alloc(), octets, 0) {
        Ok(_) => false,
        Err(found) => found == fault,
    }
}

// Whether an input of session 0 holds these reports and has these notes.
fn holds(alloc: Global, octets: &[u8], reports: &[Report], notes: Notes) -> bool {
    holds_in(alloc, 0, octets, reports, notes)
}

fn holds_in(alloc: Global, session: u32, octets: &[u8], reports: &[Report], notes: Notes) -> bool {
    let Ok(gathered) = gather(alloc, octets, session) else {
        return false;
    };
    gathered.reports.as_slice() == reports && gathered.notes == notes
}

// The same of one report, which has to be there.
fn holds_one(alloc: Global, octets: &[u8], report: Option<Report>, notes: Notes) -> bool {
    match report {
        Some(report) => holds(alloc, octets, &[report], notes),
        None => false,
    }
}

fn notes(messages: u64) -> Notes {
    Notes {
        messages,
        not_reports: [0; 7],
        unplaced: 0,
        skipped: 0,
    }
}

// Whether a capture of both messages holds their reports.
fn holds_both(rt: &HostRuntime) -> bool {
    let (Some(first), Some(second)) = (report(5, T, 10, 1), report(0, T, 46, 0)) else {
        return false;
    };
    let Ok(both) = joined(rt, &[fixed(), variable()]) else {
        return false;
    };
    holds(rt.alloc(), &both, &[first, second], notes(2))
}

#[test]
fn captures_are_read(rt: HostRuntime) {
    let alloc = rt.alloc();
    assert!(rt; holds_one(alloc, fixed(), report(5, T, 10, 1), notes(1)));
    assert!(rt; holds_one(alloc, variable(), report(0, T, 46, 0), notes(1)));
    assert!(rt; holds_both(&rt));
    assert!(rt; holds(alloc, b"", &[], notes(0)));
    assert!(rt; holds_one(alloc, one_report(), report(5, T, 10, 1), notes(0)));
    assert!(rt; holds_one(alloc, one_without_session(), report(5, T, 10, 1), notes(0)));
}

// Whether the reports of both messages, and of the first again, are of the session by which they came.
fn are_of_session(rt: &HostRuntime, session: u32) -> bool {
    let first = report_in(session, 5, T, 10, 1);
    let (Some(first), Some(second)) = (first, report_in(session, 0, T, 46, 0)) else {
        return false;
    };
    let Ok(all) = joined(rt, &[fixed(), variable(), fixed()]) else {
        return false;
    };
    holds_in(rt.alloc(), session, &all, &[first, second, first], notes(3))
}

// Whether the session has no effect for a log export.
fn exports_keep_theirs(alloc: Global, session: u32) -> bool {
    match report(5, T, 10, 1) {
        Some(report) => {
            holds_in(alloc, session, one_report(), &[report], notes(0))
                && holds_in(alloc, session, one_without_session(), &[report], notes(0))
        }
        None => false,
    }
}

#[test]
fn captures_are_of_their_session(rt: HostRuntime) {
    for session in [5, 4_294_967_295] {
        assert!(rt; are_of_session(&rt, session));
        assert!(rt; exports_keep_theirs(rt.alloc(), session));
    }
}

// The first message 3,000 times.
fn many_messages(alloc: Global) -> Result<Vec<u8>, AllocError> {
    let mut octets = Vec::new(alloc);
    for _ in 0..3000 {
        octets.extend_from_slice(fixed())?;
    }
    Ok(octets)
}

fn holds_many(alloc: Global, octets: &[u8]) -> bool {
    let Ok(gathered) = gather(alloc, octets, 0) else {
        return false;
    };
    gathered.reports.len() == 3000 && gathered.notes == notes(3000)
}

// The header of a message of another version.
fn of_another_version() -> &'static [u8] {
    b"\x00\x09\x00\x10\x00\x00\x00\x00\x00\x00\x00\x00\x00\x00\x00\x00"
}

fn many_are_read(rt: &HostRuntime) -> bool {
    let Ok(octets) = many_messages(rt.alloc()) else {
        return false;
    };
    holds_many(rt.alloc(), &octets)
}

// Whether such a message is refused behind many others.
fn ends_at_another_version(rt: &HostRuntime) -> bool {
    let Ok(mut octets) = many_messages(rt.alloc()) else {
        return false;
    };
    let fault = WireFault::BadVersion(9);
    octets.extend_from_slice(of_another_version()).is_ok()
        && is_refused(rt, &octets, wire(195_000, fault))
}

#[test]
fn a_capture_of_several_pieces_is_read(rt: HostRuntime) {
    assert!(rt; many_are_read(&rt) && ends_at_another_version(&rt));
}

fn wire(at: u64, fault: WireFault) -> InputFault {
    InputFault::Wire { at, fault }
}

fn decode(at: u64, fault: DecodeFault) -> InputFault {
    InputFault::Decode { at, fault }
}

// The first message with a template ID below 256.
fn with_a_low_id(rt: &HostRuntime) -> Result<Vec<u8>, AllocError> {
    let message = fixed();
    joined(
        rt,
        &[part(message, 0, 20), b"\x00\xff", part(message, 22, 65)],
    )
}

// The first message with a set whose length is below that of its header.
fn with_a_short_set(rt: &HostRuntime) -> Result<Vec<u8>, AllocError> {
    let message = fixed();
    joined(
        rt,
        &[part(message, 0, 18), b"\x00\x03", part(message, 20, 65)],
    )
}

// Whether two messages are refused where the second is cut.
fn is_refused_within_a_message(rt: &HostRuntime) -> bool {
    let Ok(both) = joined(rt, &[fixed(), variable()]) else {
        return false;
    };
    is_refused(rt, part(&both, 0, 111), wire(65, WireFault::Short))
}

#[test]
fn inputs_are_cut(rt: HostRuntime) {
    assert!(rt; is_refused_within_a_message(&rt));
    assert!(rt; is_refused(&rt, b"TCA", wire(0, WireFault::Short)));
    let export = InputFault::Export(ExportFault::Cut);
    assert!(rt; is_refused(&rt, b"TCAX", export));
}

fn refuses_a_low_id(rt: &HostRuntime, fault: InputFault) -> bool {
    let Ok(low) = with_a_low_id(rt) else {
        return false;
    };
    is_refused(rt, &low, fault)
}

// The same of that message behind another one, and before one with a short set.
fn refuses_a_low_id_behind(rt: &HostRuntime, fault: InputFault) -> bool {
    let Ok(low) = with_a_low_id(rt) else {
        return false;
    };
    let Ok(short) = with_a_short_set(rt) else {
        return false;
    };
    let Ok(after) = joined(rt, &[variable(), low.as_slice(), short.as_slice()]) else {
        return false;
    };
    is_refused(rt, &after, fault)
}

fn refuses_a_short_set(rt: &HostRuntime, fault: InputFault) -> bool {
    let Ok(short) = with_a_short_set(rt) else {
        return false;
    };
    is_refused(rt, &short, fault)
}

#[test]
fn inputs_are_refused(rt: HostRuntime) {
    let at_20 = DecodeFault::TemplateId { at: 20 };
    let set_length = WireFault::SetLength { at: 16 };
    assert!(rt; refuses_a_low_id(&rt, decode(0, at_20)));
    assert!(rt; refuses_a_low_id_behind(&rt, decode(47, at_20)));
    assert!(rt; refuses_a_short_set(&rt, wire(0, set_length)));
}

// A message with data of the first template, then of template 300, then of the first again.
fn data_of_both(rt: &HostRuntime) -> Result<Vec<u8>, AllocError> {
    let known = part(fixed(), 40, 65);
    let unknown = set(rt, 300, part(known, 4, 25))?;
    message(rt, 20, &[known, unknown.as_slice(), known])
}

// A message that defines template 300.
fn with_template_300(rt: &HostRuntime) -> Result<Vec<u8>, AllocError> {
    let template =
        b"\x01\x2c\x00\x04\x01\x43\x00\x08\x00\xe0\x00\x08\x00\xc3\x00\x01\x00\x0a\x00\x04";
    let template = set(rt, 2, template)?;
    message(rt, 21, &[template.as_slice()])
}

// Data of the first template, then of template 300, which is defined behind it, then of the first again; and the same
// message once more.
fn with_an_unknown_template(rt: &HostRuntime) -> Option<Vec<u8>> {
    let Ok(define) = message(rt, 20, &[part(fixed(), 16, 40)]) else {
        return None;
    };
    let Ok(data) = data_of_both(rt) else {
        return None;
    };
    let Ok(define_other) = with_template_300(rt) else {
        return None;
    };
    joined(rt, &[&define, &data, &define_other, &data]).ok()
}

// The reports of the records that have a template.
fn reports_with_a_template() -> Option<[Report; 4]> {
    let first = report(20, T, 10, 1)?;
    Some([first, first, report(21, T, 10, 1)?, report(22, T, 10, 1)?])
}

// Whether those have places, and the other record has none.
fn leaves_one_unplaced(rt: &HostRuntime, noted: Notes) -> bool {
    let Some(octets) = with_an_unknown_template(rt) else {
        return false;
    };
    let Some(wanted) = reports_with_a_template() else {
        return false;
    };
    holds(rt.alloc(), &octets, &wanted, noted)
}

#[test]
fn records_without_a_template_have_no_place(rt: HostRuntime) {
    let noted = Notes {
        unplaced: 1,
        ..notes(4)
    };
    assert!(rt; leaves_one_unplaced(&rt, noted));
}

// A message with an options template and the first template, a record of the former, a set that is skipped, the first
// record, and that set again.
fn with_options(rt: &HostRuntime) -> Option<Vec<u8>> {
    let Ok(options) = set(rt, 3, b"\x01\x01\x00\x01\x00\x01\x00\x8f\x00\x04") else {
        return None;
    };
    let Ok(option) = set(rt, 257, b"\x00\x00\x00\x01") else {
        return None;
    };
    let Ok(skipped) = set(rt, 4, b"\x00") else {
        return None;
    };
    let templates = part(fixed(), 16, 40);
    let data = part(fixed(), 40, 65);
    let sets: &[&[u8]] = &[&options, templates, &option, &skipped, data, &skipped];
    message(rt, 9, sets).ok()
}

fn counts_the_options(rt: &HostRuntime, wanted: Notes) -> bool {
    let Some(octets) = with_options(rt) else {
        return false;
    };
    holds_one(rt.alloc(), &octets, report(10, T, 10, 1), wanted)
}

#[test]
fn records_of_options_have_a_place(rt: HostRuntime) {
    let wanted = Notes {
        not_reports: [1, 0, 0, 0, 0, 0, 0],
        skipped: 2,
        ..notes(1)
    };
    assert!(rt; counts_the_options(&rt, wanted));
}

// The time of a record that has its octets and this field, or else the reason's number.
fn time_told(rt: &HostRuntime, specifier: &[u8], time: &[u8]) -> Option<Result<u64, usize>> {
    let specifiers: &[&[u8]] = &[specifier, b"\x00\xe0\x00\x02"];
    let found = found_of(rt, specifiers, &[time, b"\x05\xdc"])?;
    Some(found.map(|report| report.content().time))
}

#[test]
fn times_are_taken(rt: HostRuntime) {
    for (specifiers, time, wanted) in [
        (b"\x01\x42\x00\x04", b"\x65\x53\xf1\x00".as_slice(), Ok(T)),
        (
            b"\x01\x43\x00\x08",
            b"\x00\x00\x01\x8b\xcf\xe5\x68\x01",
            Ok(T + 1),
        ),
        (
            b"\x01\x44\x00\x08",
            b"\xe8\xfe\x6f\x80\x80\x00\x00\x00",
            Ok(T + 500),
        ),
        (
            b"\x01\x44\x00\x08",
            b"\xe8\xfe\x6f\x80\x00\x41\x89\x38",
            Ok(T),
        ),
        (
            b"\x01\x45\x00\x08",
            b"\xe8\xfe\x6f\x80\x00\x41\x89\x38",
            Ok(T + 1),
        ),
        (
            b"\x01\x44\x00\x08",
            b"\x83\xaa\x7e\x7f\x00\x00\x00\x00",
            Err(4),
        ),
        (
            b"\x01\x43\x00\x08",
            b"\x00\x01\x00\x00\x00\x00\x00\x00",
            Err(4),
        ),
        (b"\x01\x43\x00\x04", b"\x65\x53\xf1\x00", Err(7)),
        (
            b"\x01\x42\x00\x08",
            b"\x00\x00\x01\x8b\xcf\xe5\x68\x01",
            Err(7),
        ),
    ] {
        assert!(rt; time_told(&rt, specifiers, time) == Some(wanted));
    }
}

// The octets and the DSCP of a record that has a time and these fields, or else the reason's number.
fn told(rt: &HostRuntime, specifiers: &[u8], values: &[u8]) -> Option<Result<(u32, u8), usize>> {
    let specifiers: &[&[u8]] = &[b"\x01\x43\x00\x08", specifiers];
    let values: &[&[u8]] = &[b"\x00\x00\x01\x8b\xcf\xe5\x68\x00", values];
    let found = found_of(rt, specifiers, values)?;
    Some(found.map(|report| (report.content().octets, report.content().dscp)))
}

#[test]
fn octets_are_taken(rt: HostRuntime) {
    for (specifiers, values, wanted) in [
        (
            b"\x00\xe0\x00\x08".as_slice(),
            b"\0\0\0\0\0\0\x05\xdc".as_slice(),
            Ok((1500, 0)),
        ),
        (b"\x00\xbe\x00\x02", b"\x05\xdc", Ok((1500, 0))),
        (b"\x00\x01\x00\x04", b"\0\0\x05\xdc", Ok((1500, 0))),
        (b"\x01\x39\x00\x04", b"\x45\xb8\x05\xdc", Ok((1500, 46))),
        (b"\x01\x39\x00\x06", b"\x6b\x80\0\0\x05\xb4", Ok((1500, 46))),
        // Sections with too little of a header, or of another version.
        (b"\x01\x39\x00\x03", b"\x45\xb8\x05", Err(3)),
        (b"\x01\x39\x00\x05", b"\x6b\x80\0\0\x05", Err(3)),
        (b"\x01\x39\x00\x04", b"\x55\xb8\x05\xdc", Err(3)),
        // The first source that is there is taken, good or bad.
        (
            b"\x00\x01\x00\x01\x00\xbe\x00\x01\x00\xe0\x00\x01",
            b"\x01\x02\x03",
            Ok((3, 0)),
        ),
        (b"\x00\x01\x00\x01\x00\xbe\x00\x01", b"\x01\x02", Ok((2, 0))),
        (b"\x00\xe0\x00\x01\x00\xe0\x00\x01", b"\x01\x02", Ok((1, 0))),
        (
            b"\x00\x01\x00\x01\x00\xe0\x00\x09",
            b"\x01\0\0\0\0\0\0\0\0\x03",
            Err(7),
        ),
        (b"\x00\x01\x00\x01\x00\xe0\x00\x01", b"\x01\x00", Err(5)),
        // The largest packet, and one that is larger.
        (b"\x00\xe0\x00\x03", b"\x01\x00\x27", Ok((65_575, 0))),
        (b"\x00\xe0\x00\x03", b"\x01\x00\x28", Err(5)),
    ] {
        assert!(rt; told(&rt, specifiers, values) == Some(wanted));
    }
}

// The same of these fields and a section of 1,500 octets with DSCP 46.
fn told_by_section(
    rt: &HostRuntime,
    specifiers: &[u8],
    values: &[u8],
) -> Option<Result<(u32, u8), usize>> {
    let Ok(specifiers) = joined(rt, &[specifiers, b"\x01\x39\x00\x04"]) else {
        return None;
    };
    let Ok(values) = joined(rt, &[values, b"\x45\xb8\x05\xdc"]) else {
        return None;
    };
    told(rt, &specifiers, &values)
}

#[test]
fn code_points_are_taken(rt: HostRuntime) {
    for (specifiers, values, wanted) in [
        (
            b"\x00\x05\x00\x01\x00\xc3\x00\x01".as_slice(),
            b"\x38\x0a".as_slice(),
            Ok((1500, 10)),
        ),
        (b"\x00\x05\x00\x01", b"\x3b", Ok((1500, 14))),
        (b"\x00\x0a\x00\x01", b"\x01", Ok((1500, 46))),
        (b"\x00\xc3\x00\x01", b"\x3f", Ok((1500, 63))),
        (b"\x00\xc3\x00\x01", b"\x40", Err(6)),
        (b"\x00\x05\x00\x01\x00\xc3\x00\x00", b"\x38", Err(7)),
    ] {
        assert!(rt; told_by_section(&rt, specifiers, values) == Some(wanted));
    }
}

// What a new decoder reads of the first message.
fn read_message(rt: &HostRuntime, octets: &[u8]) -> Option<Outcome> {
    let Ok(message) = split_message(rt.alloc(), octets) else {
        return None;
    };
    let mut decoder = Decoder::new(rt.alloc(), 0);
    decoder.read(rt.alloc(), &message).ok()
}

fn is_extracted(placed: &PlacedFields, wanted: Report) -> bool {
    extract(placed) == Ok(wanted)
}

// Why no report is extracted as one of options, without its octets, and with an element of an enterprise for its time,
// which is another element.
fn lacks(placed: &mut PlacedFields) -> [Option<NotReport>; 3] {
    placed.options = true;
    let options = extract(placed).err();
    placed.options = false;
    placed.fields.truncate(1);
    let sizeless = extract(placed).err();
    if let Some(time) = placed.fields.first_mut() {
        time.enterprise = Some(29305);
    }
    [options, sizeless, extract(placed).err()]
}

// Whether the report of the first message is extracted.
fn extracts_the_first(rt: &HostRuntime) -> bool {
    let Some(outcome) = read_message(rt, fixed()) else {
        return false;
    };
    match (outcome.fields.first(), report(5, T, 10, 1)) {
        (Some(placed), Some(wanted)) => is_extracted(placed, wanted),
        _ => false,
    }
}

// Whether its record without those has these reasons.
fn gives_reasons(rt: &HostRuntime, reasons: [Option<NotReport>; 3]) -> bool {
    let Some(mut outcome) = read_message(rt, fixed()) else {
        return false;
    };
    match outcome.fields.first_mut() {
        Some(placed) => lacks(placed) == reasons,
        None => false,
    }
}

#[test]
fn reports_are_extracted(rt: HostRuntime) {
    assert!(rt; extracts_the_first(&rt));
    let reasons = [
        Some(NotReport::Options),
        Some(NotReport::NoSize),
        Some(NotReport::NoTime),
    ];
    assert!(rt; gives_reasons(&rt, reasons));
}

// The first template with five records, of which one is good.
fn one_good_record(rt: &HostRuntime) -> Result<Vec<u8>, AllocError> {
    let good = part(fixed(), 44, 65);
    let late = b"\x00\x01\x00\x00\x00\x00\x00\x00\0\0\0\0\0\0\x05\xdc\x0a\0\0\0\x01";
    let empty = b"\x00\x00\x01\x8b\xcf\xe5\x68\x00\0\0\0\0\0\0\0\0\x0a\0\0\0\x01";
    let coarse = b"\x00\x00\x01\x8b\xcf\xe5\x68\x00\0\0\0\0\0\0\x05\xdc\x40\0\0\0\x01";
    let records = joined(rt, &[late, good, coarse, empty, coarse])?;
    let data = set(rt, 256, &records)?;
    message(rt, 5, &[part(fixed(), 16, 40), data.as_slice()])
}

// Messages of one record each: without a time, without a size, the same again, and with a time that is too short.
fn four_bad_records(rt: &HostRuntime) -> Option<Vec<u8>> {
    let Ok(timeless) = one_record(rt, b"\x00\xe0\x00\x01", b"\x01") else {
        return None;
    };
    let Ok(sizeless) = one_record(rt, b"\x01\x42\x00\x04", b"\x65\x53\xf1\x00") else {
        return None;
    };
    let specifiers = b"\x01\x42\x00\x03\x00\xe0\x00\x01";
    let Ok(short) = one_record(rt, specifiers, b"\x65\x53\xf1\x01") else {
        return None;
    };
    joined(rt, &[&timeless, &sizeless, &sizeless, &short]).ok()
}

// Whether these, behind the five records, have these notes.
fn counts_reasons(rt: &HostRuntime, wanted: Notes) -> bool {
    let Ok(first) = one_good_record(rt) else {
        return false;
    };
    let Some(others) = four_bad_records(rt) else {
        return false;
    };
    let Ok(octets) = joined(rt, &[&first, &others]) else {
        return false;
    };
    holds_one(rt.alloc(), &octets, report(6, T, 10, 1), wanted)
}

#[test]
fn reasons_are_counted_by_number(rt: HostRuntime) {
    let wanted = Notes {
        not_reports: [0, 1, 2, 1, 1, 2, 1],
        ..notes(5)
    };
    assert!(rt; counts_reasons(&rt, wanted));
}

fn says<F: Display + Drop>(alloc: Global, fault: F, text: &str) -> bool {
    match format!(in alloc; "{fault}") {
        Ok(line) => line.as_str() == text,
        Err(_) => false,
    }
}

#[test]
fn input_faults_have_texts_and_numbers(rt: HostRuntime) {
    for (fault, number, text) in [
        (
            InputFault::Export(ExportFault::Cut),
            1,
            "the log export is refused: the export is cut short",
        ),
        (
            InputFault::Wire {
                at: 65,
                fault: WireFault::Short,
            },
            2,
            "the message at offset 65 is refused: the octets end before the message does",
        ),
        (
            InputFault::Decode {
                at: 65,
                fault: DecodeFault::TemplateId { at: 20 },
            },
            3,
            "the message at offset 65 is refused: the template record at offset 20 has an ID below 256",
        ),
        (InputFault::Memory, 4, "out of memory"),
    ] {
        assert!(rt; fault.number() == number && says(rt.alloc(), fault, text));
    }
}

#[test]
fn reasons_have_texts_and_numbers(rt: HostRuntime) {
    for (reason, number, text) in [
        (
            NotReport::Options,
            1,
            "the record is of an options template",
        ),
        (NotReport::NoTime, 2, "the record has no observation time"),
        (
            NotReport::NoSize,
            3,
            "the record has no length of its packet",
        ),
        (
            NotReport::FieldLength,
            7,
            "a field of the record has a length that its element can't have",
        ),
        (
            NotReport::BadTime,
            4,
            "the observation time is before 1970, or not below 2^48 milliseconds from it",
        ),
        (
            NotReport::BadSize,
            5,
            "the packet doesn't have 1 to 65575 octets",
        ),
        (NotReport::BadDscp, 6, "the DSCP is above 63"),
    ] {
        assert!(rt; reason.number() == number && says(rt.alloc(), reason, text));
    }
}
