//! The numbers that usual records tell of their packets, and where they stand.
//!
//! Most exporters send a time in milliseconds, a number of octets, a code point and perhaps an interface, each in a field of
//! its own. Where no field has a variable length these stand in the same places of every record of a data set. They are
//! worked out once for the set, so that of a record only its numbers are read.
ghost use Rattle.std.specs.Prelude.{◌≡◌, ◌<◌, ◌≤◌, ◌+◌, ℕ, slice_index, Bool, None, Some, length, drop, IfSome};
ghost use Rattle.byteorder.specs.Endian.{big_number};
ghost use Rattle.tca_templates.specs.Chosen.{observation_time_milliseconds};
ghost use Rattle.tca_templates.specs.declared.layout.Spots.{Spots};
ghost use Rattle.tca_templates.specs.inside.Windows.{IsWindow, IsSizeWindow, IsPointSpot, IsInterfaceWindow, IsUsual, point_in, number_in};

use crate::elements::{IP_DIFF_SERV_CODE_POINT, OBSERVATION_TIME_MILLISECONDS, TOTAL_LENGTH_IPV4};
use crate::layout::{Spot, Spots};
use byteorder::{BigEndian, ByteOrder};

/// What a usual record tells of its packet.
#[derive(Clone, Copy, Debug, PartialEq, Eq)]
pub struct Numbers {
    /// The milliseconds of observationTimeMilliseconds.
    pub time: u64,
    /// The octets of ipTotalLength, totalLengthIPv4 or octetDeltaCount.
    pub size: u64,
    /// ipDiffServCodePoint, or 0 where nothing tells a code point.
    pub code_point: u8,
    /// ingressInterface, or 0 where there is none.
    pub interface: u64,
}

// Eight octets of a record, of which the first ones are a number.
#[derive(Clone, Copy)]
pub(crate) struct Window {
    /// Octets of the record before the number.
    pub at: usize,
    /// Bits of the eight octets behind the number.
    pub shift: u32,
}

// Where the numbers of the records of a data set stand.
#[derive(Clone, Copy)]
pub(crate) struct Usual {
    /// Octets of the record before the time, which has eight.
    pub time: usize,
    pub size: Window,
    /// Octets of the record before the code point, which has one.
    pub code_point: Option<usize>,
    pub interface: Option<Window>,
    /// Octets up to the end of the last window.
    pub reach: usize,
}

// The window of a number of one octet to so many.
fn window_of(spot: Spot, most: usize) -> Option<Window>
    requires { most ≤ 8 }
    ensures { IfSome result (λ w. IsWindow most spot w) }
{
    if spot.length < 1 || spot.length > most {
        return None;
    }
    Some(Window {
        at: spot.at,
        shift: 64 - 8 * spot.length as u32,
    })
}

// Where the time stands, if it is one of milliseconds.
fn usual_time(spot: Option<Spot>) -> Option<usize>
    ensures { IfSome result (λ at. spot ≡ Some (record { element = observation_time_milliseconds; at = at; length = 8 })) }
{
    let spot = spot?;
    if spot.element != OBSERVATION_TIME_MILLISECONDS || spot.length != 8 {
        return None;
    }
    Some(spot.at)
}

// Where the number of octets stands.
fn usual_size(spot: Option<Spot>) -> Option<Window>
    ensures { IfSome result (λ w. IsSizeWindow spot w) }
{
    let spot = spot?;
    if spot.element == TOTAL_LENGTH_IPV4 {
        return window_of(spot, 2);
    }
    window_of(spot, 8)
}

// Where the code point stands, if there is one. A section may tell one too, and it isn't usual.
fn usual_point(spot: Option<Spot>, section: Option<Spot>) -> Option<Option<usize>>
    ensures { IfSome result (λ at. IsPointSpot spot section at) }
{
    let Some(spot) = spot else {
        return if section.is_some() { None } else { Some(None) };
    };
    if spot.element != IP_DIFF_SERV_CODE_POINT || spot.length != 1 {
        return None;
    }
    Some(Some(spot.at))
}

// Where the interface stands, if there is one.
fn usual_interface(spot: Option<Spot>) -> Option<Option<Window>>
    ensures { IfSome result (λ w. IsInterfaceWindow spot w) }
{
    let Some(spot) = spot else {
        return Some(None);
    };
    let window = window_of(spot, 4)?;
    Some(Some(window))
}

// How many octets a record needs, with what stands behind it, so that all windows are there.
fn reach_of(
    time: usize,
    size: Window,
    code_point: Option<usize>,
    interface: Option<Window>,
) -> Option<usize>
    ensures time { IfSome result (λ r. time + 8 ≤ r) }
    ensures size { IfSome result (λ r. size.at + 8 ≤ r) }
    ensures code_point { IfSome result (λ r. IfSome code_point (λ at. at + 8 ≤ r)) }
    ensures interface { IfSome result (λ r. IfSome interface (λ w. w.at + 8 ≤ r)) }
{
    let point = code_point.unwrap_or(time);
    let last = match interface {
        Some(window) => window.at.max(point),
        None => point,
    };
    last.max(time).max(size.at).checked_add(8)
}

impl Usual {
    // Where the numbers stand, if the records are usual.
    pub(crate) fn of(options: bool, spots: &Spots) -> Option<Usual>
        ensures { IfSome result (λ u. IsUsual options spots.now u) }
    {
        if options {
            return None;
        }
        let time = usual_time(spots.time)?;
        let size = usual_size(spots.size)?;
        let code_point = usual_point(spots.code_point, spots.section)?;
        let interface = usual_interface(spots.interface)?;
        let reach = reach_of(time, size, code_point, interface)?;
        Some(Usual {
            time,
            size,
            code_point,
            interface,
            reach,
        })
    }
}

// The number in the first of eight octets.
fn number_at(octets: &[u8], window: Window) -> u64
    requires there { window.at + 8 ≤ length octets.now }
    requires some { window.shift < 64 }
    ensures { result ≡ number_in window octets.now }
{
    let (_, rest) = octets.split_at(window.at);
    BigEndian::read_u64(rest) >> window.shift
}

// The interface, or else 0.
fn interface_at(octets: &[u8], window: Option<Window>) -> u64
    requires there { IfSome window (λ w. w.at + 8 ≤ length octets.now) }
    requires some { IfSome window (λ w. w.shift < 64) }
    ensures none { window ≡ None → result ≡ 0 }
    ensures some { IfSome window (λ w. result ≡ number_in w octets.now) }
{
    match window {
        Some(window) => number_at(octets, window),
        None => 0,
    }
}

// The code point, or else 0.
fn point_at(octets: &[u8], at: Option<usize>) -> u8
    requires { IfSome at (λ i. i < length octets.now) }
    ensures { result ≡ point_in at octets.now }
{
    match at {
        Some(at) => octets[at],
        None => 0,
    }
}

impl Usual {
    // The numbers of a record, which is there with all that its windows reach.
    pub(crate) fn numbers(&self, octets: &[u8]) -> Numbers
        requires usual { (options : Bool) × (spots : Spots) × IsUsual options spots self.now }
        requires there { self.now.reach ≤ length octets.now }
        ensures time { result.time ≡ big_number 8 (drop self.now.time octets.now) }
        ensures size { result.size ≡ number_in self.now.size octets.now }
        ensures code_point { result.code_point ≡ point_in self.now.code_point octets.now }
        ensures interface_none { self.now.interface ≡ None → result.interface ≡ 0 }
        ensures interface_some { IfSome self.now.interface (λ w. result.interface ≡ number_in w octets.now) }
        ensures octets { (i : ℕ) → slice_index octets.now i < 256 }
    {
        let (_, rest) = octets.split_at(self.time);
        Numbers {
            time: BigEndian::read_u64(rest),
            size: number_at(octets, self.size),
            code_point: point_at(octets, self.code_point),
            interface: interface_at(octets, self.interface),
        }
    }
}
