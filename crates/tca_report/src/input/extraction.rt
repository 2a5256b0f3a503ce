//! Which fields of a data record make a report.
ghost use Rattle.std.specs.Prelude.{◌≡◌, ◌==◌, ◌&&◌, ◌<◌, ◌≤◌, ◌^◌, IfOk, IfSome, length, map, Ok, Err, Result};
ghost use Rattle.std.specs.Option.{option_map, is_none};
ghost use Rattle.byteorder.specs.Endian.{big_number};
ghost use Rattle.tca_templates.specs.Outcomes.{placed_view};
ghost use Rattle.tca_report.specs.input.Extract.{unsigned, date_time_milliseconds, date_time_microseconds, date_time_nanoseconds, date_time_seconds, since_1970, time_value, size_value, code_point_value, time_in, header_in, section_in, octets_in, code_point_in, interface_in, judged, extract_of};
ghost use Rattle.tca_report.specs.Faults.{reason_number};

use crate::input::fields::DataRecord;
use crate::report::{Content, Identity, MOST_DSCP, MOST_OCTETS, Report, TIME_END};
use byteorder::{BigEndian, ByteOrder};
use tca_templates::elements::{
    IP_CLASS_OF_SERVICE, OBSERVATION_TIME_MICROSECONDS, OBSERVATION_TIME_MILLISECONDS,
    OBSERVATION_TIME_NANOSECONDS, TOTAL_LENGTH_IPV4,
};
use tca_templates::{PlacedFields, Record};
use thiserror::Error;

/// Why a data record is no report.
#[derive(Clone, Copy, Debug, PartialEq, Eq, Error)]
pub enum NotReport {
    /// It is a record of an options template.
    #[error("the record is of an options template")]
    Options,
    /// It has no time.
    #[error("the record has no observation time")]
    NoTime,
    /// It has no octets.
    #[error("the record has no length of its packet")]
    NoSize,
    /// A field that is taken has another length than its element may have.
    #[error("a field of the record has a length that its element can't have")]
    FieldLength,
    /// The time is before 1970, or 2^48 milliseconds or more after it.
    #[error("the observation time is before 1970, or not below 2^48 milliseconds from it")]
    BadTime,
    /// The packet has no octet, or more than 65,575.
    #[error("the packet doesn't have 1 to 65575 octets")]
    BadSize,
    /// The DSCP has more than six bits.
    #[error("the DSCP is above 63")]
    BadDscp,
}

impl NotReport {
    /// The number that stands for the reason in notes and in a program's messages.
    pub fn number(&self) -> u8
        ensures { result ≡ reason_number self.now }
    {
        match self {
            NotReport::Options => 1,
            NotReport::NoTime => 2,
            NotReport::NoSize => 3,
            NotReport::FieldLength => 7,
            NotReport::BadTime => 4,
            NotReport::BadSize => 5,
            NotReport::BadDscp => 6,
        }
    }
}

// The number of one to eight octets. The usual lengths are read at once.
fn read_number(value: &[u8]) -> u64
    requires { (1 ≤ length value.now) × (length value.now ≤ 8) }
    ensures { result ≡ big_number (length value.now) value.now }
{
    match value.len() {
        1 => u64::from(value[0]),
        2 => u64::from(BigEndian::read_u16(value)),
        4 => u64::from(BigEndian::read_u32(value)),
        8 => BigEndian::read_u64(value),
        _ => BigEndian::read_uint(value, value.len()),
    }
}

// A number of one octet to so many.
fn read_unsigned(most: usize, value: &[u8]) -> Result<u64, NotReport>
    requires { most ≤ 8 }
    ensures value { result ≡ unsigned most value.now }
    ensures small { most ≤ 4 → IfOk result (λ n. n < 2 ^ 32) }
{
    if value.is_empty() || value.len() > most {
        return Err(NotReport::FieldLength);
    }
    Ok(read_number(value))
}

// Milliseconds from 1970 of seconds from 1900 and a fraction of one, None before 1970.
fn after_1970(seconds: u32, fraction: u32) -> Option<u64>
    ensures { result ≡ since_1970 seconds fraction }
{
    if seconds < 2_208_988_800 {
        return None;
    }
    let seconds = u64::from(seconds - 2_208_988_800);
    Some(seconds * 1000 + u64::from(fraction) * 1000 / 4_294_967_296)
}

// The milliseconds of a dateTimeMilliseconds (RFC 7011, section 6.1.8).
fn read_milliseconds(value: &[u8]) -> Result<Option<u64>, NotReport>
    ensures { result ≡ date_time_milliseconds value.now }
{
    if value.len() != 8 {
        return Err(NotReport::FieldLength);
    }
    Ok(Some(BigEndian::read_u64(value)))
}

// The milliseconds of a dateTimeMicroseconds (section 6.1.9), None before 1970.
fn read_microseconds(value: &[u8]) -> Result<Option<u64>, NotReport>
    ensures { result ≡ date_time_microseconds value.now }
{
    if value.len() != 8 {
        return Err(NotReport::FieldLength);
    }
    let fraction = BigEndian::read_u32(&value[4..]) / 2048 * 2048;
    Ok(after_1970(BigEndian::read_u32(value), fraction))
}

// The milliseconds of a dateTimeNanoseconds (section 6.1.10), None before 1970.
fn read_nanoseconds(value: &[u8]) -> Result<Option<u64>, NotReport>
    ensures { result ≡ date_time_nanoseconds value.now }
{
    if value.len() != 8 {
        return Err(NotReport::FieldLength);
    }
    let fraction = BigEndian::read_u32(&value[4..]);
    Ok(after_1970(BigEndian::read_u32(value), fraction))
}

// The milliseconds of a dateTimeSeconds (section 6.1.7).
fn read_seconds(value: &[u8]) -> Result<Option<u64>, NotReport>
    ensures { result ≡ date_time_seconds value.now }
{
    if value.len() != 4 {
        return Err(NotReport::FieldLength);
    }
    Ok(Some(u64::from(BigEndian::read_u32(value)) * 1000))
}

// The time of an element: its milliseconds, or none before 1970.
fn read_time(element: u16, value: &[u8]) -> Result<Option<u64>, NotReport>
    ensures { result ≡ time_value element value.now }
{
    match element {
        OBSERVATION_TIME_MILLISECONDS => read_milliseconds(value),
        OBSERVATION_TIME_MICROSECONDS => read_microseconds(value),
        OBSERVATION_TIME_NANOSECONDS => read_nanoseconds(value),
        _ => read_seconds(value),
    }
}

// The time of a record, where an element tells it: its milliseconds, or none before 1970.
fn pick_time<R: DataRecord>(placed: &R) -> Option<Result<Option<u64>, NotReport>>
    ensures { result ≡ time_in (R.plain placed.now).fields }
{
    match placed.time() {
        None => None,
        Some((element, value)) => Some(read_time(element, value)),
    }
}

// The octets and the code point that the header of an IP packet gives.
fn read_section(value: &[u8]) -> Option<(u32, u8)>
    ensures { result ≡ header_in value.now }
{
    if value.len() < 4 {
        return None;
    }
    if value[0] / 16 == 4 {
        return Some((u32::from(BigEndian::read_u16(&value[2..])), value[1] / 4));
    }
    if value[0] / 16 == 6 && value.len() >= 6 {
        let octets = 40 + u32::from(BigEndian::read_u16(&value[4..]));
        let class = BigEndian::read_u16(value) / 16 % 256;
        return Some((octets, (class / 4) as u8));
    }
    None
}

// The octets and the code point of the packet's section, where it gives them.
fn pick_section<R: DataRecord>(placed: &R) -> Option<(u32, u8)>
    ensures { result ≡ section_in (R.plain placed.now).fields }
{
    match placed.section() {
        None => None,
        Some((_, value)) => read_section(value),
    }
}

// The octets of the packet that an element tells.
fn read_size(element: u16, value: &[u8]) -> Result<u64, NotReport>
    ensures { result ≡ size_value element value.now }
{
    if element == TOTAL_LENGTH_IPV4 {
        return read_unsigned(2, value);
    }
    read_unsigned(8, value)
}

// The octets of the packet: of an element, or else of the section.
fn pick_octets<R: DataRecord>(
    placed: &R,
    section: Option<(u32, u8)>,
) -> Option<Result<u64, NotReport>>
    ensures { result ≡ octets_in (R.plain placed.now).fields section }
{
    if let Some((element, value)) = placed.size() {
        return Some(read_size(element, value));
    }
    match section {
        None => None,
        Some((octets, _)) => Some(Ok(u64::from(octets))),
    }
}

// The code point that an element tells.
fn read_code_point(element: u16, value: &[u8]) -> Result<u64, NotReport>
    ensures { result ≡ code_point_value element value.now }
{
    if element == IP_CLASS_OF_SERVICE {
        return Ok(read_unsigned(1, value)? / 4);
    }
    read_unsigned(1, value)
}

// The code point: of an element, or else of the section, or else 0.
fn pick_code_point<R: DataRecord>(placed: &R, section: Option<(u32, u8)>) -> Result<u64, NotReport>
    ensures { result ≡ code_point_in (R.plain placed.now).fields section }
{
    if let Some((element, value)) = placed.code_point() {
        return read_code_point(element, value);
    }
    match section {
        None => Ok(0),
        Some((_, point)) => Ok(u64::from(point)),
    }
}

// The interface, or else 0.
fn pick_interface<R: DataRecord>(placed: &R) -> Result<u64, NotReport>
    ensures value { result ≡ interface_in (R.plain placed.now).fields }
    ensures small { IfOk result (λ n. n < 2 ^ 32) }
{
    match placed.interface() {
        None => Ok(0),
        Some((_, value)) => read_unsigned(4, value),
    }
}

// Judges the values of what was taken, all of which have a length that they may have.
fn judge(
    time: Option<u64>,
    octets: u64,
    point: u64,
    interface: u64,
    identity: Identity,
) -> Result<Report, NotReport>
    requires { interface < 2 ^ 32 }
    ensures { result ≡ judged (Ok time) (Ok octets) (Ok point) (Ok interface) identity }
{
    let Some(time) = time else {
        return Err(NotReport::BadTime);
    };
    if time >= TIME_END {
        return Err(NotReport::BadTime);
    }
    if octets < 1 || octets > u64::from(MOST_OCTETS) {
        return Err(NotReport::BadSize);
    }
    if point > u64::from(MOST_DSCP) {
        return Err(NotReport::BadDscp);
    }
    let content = Content {
        time,
        octets: octets as u32,
        dscp: point as u8,
        iface: interface as u32,
    };
    match Report::new(identity, content) {
        Some(report) => Ok(report),
        None => unreachable!(),
    }
}

// The report that a record makes, or why it makes none.
#[tactic(auto, unfolding(crate::specs::input::Extract::extract_of))]
pub(crate) fn extract_from<R: DataRecord>(placed: &R) -> Result<Report, NotReport>
    ensures { result ≡ extract_of (R.plain placed.now) }
{
    if placed.is_options() {
        return Err(NotReport::Options);
    }
    let Some(time) = pick_time(placed) else {
        return Err(NotReport::NoTime);
    };
    let section = pick_section(placed);
    let Some(octets) = pick_octets(placed, section) else {
        return Err(NotReport::NoSize);
    };
    let time = time?;
    let octets = octets?;
    let point = pick_code_point(placed, section)?;
    let interface = pick_interface(placed)?;
    judge(time, octets, point, interface, placed.identity())
}

// The report of a usual record. Where there is none the record is still to be judged field by field.
#[inline(always)]
pub(crate) fn extract_usual(next: &Record<'_>) -> Option<Report>
    ensures { IfSome result (λ report. extract_of next.now ≡ Ok report) }
{
    let numbers = next.numbers()?;
    if numbers.size > u64::from(MOST_OCTETS) || numbers.interface > u64::from(u32::MAX) {
        return None;
    }
    let content = Content {
        time: numbers.time,
        octets: numbers.size as u32,
        dscp: numbers.code_point,
        iface: numbers.interface as u32,
    };
    Report::new(DataRecord::identity(next), content)
}

/// The report that a data record makes, or why it makes none. It takes no memory.
///
/// Of each element the first field counts that no enterprise has, and of these are taken
/// - as time the first that is there of observationTimeMilliseconds, observationTimeMicroseconds,
///   observationTimeNanoseconds and observationTimeSeconds (RFC 5477), cut to milliseconds. The low 11
///   bits of a fraction of microseconds count as zero (RFC 7011, section 6.1.9), and no time is in a later NTP era
///   than the first;
/// - as octets the first of ipTotalLength, totalLengthIPv4, octetDeltaCount and what ipHeaderPacketSection gives;
/// - as DSCP the first of ipDiffServCodePoint, ipClassOfService without its low 2 bits, and what
///   ipHeaderPacketSection gives, or else 0;
/// - as interface ingressInterface, or else 0.
///
/// Where one that is taken is of no use, none behind it is. A section gives octets and DSCP where it begins with at
/// least 4 octets of an IPv4 header or 6 of an IPv6 header, and else counts as if it weren't there.
///
/// The first reason is answered, in this order: `Options`, `NoTime`, `NoSize`, `FieldLength` where a time hasn't
/// exactly the octets of its type, or another number has none or more of them, `BadTime`, `BadSize`, `BadDscp`.
pub fn extract(placed: &PlacedFields) -> Result<Report, NotReport>
    ensures { result ≡ extract_of (placed_view placed.now) }
{
    extract_from(placed)
}
