//! Meters: the colour of each packet of a list, by its octets, its time and its precolour.
//!
//! A meter is its parameters and a rule: which state it has at time 0, what the tokens of an interval
//! do to a state, and what one packet does. `Meter` is the trait, with the laws that each meter keeps;
//! `SrTcm`, `TrTcm` and `Rfc4115` are the meters of RFC 2697, RFC 2698 and RFC 4115, `AnyMeter` is one of
//! them, and `Termed` changes from one to another at stated times, with full buckets. A meter has no state
//! of its own: the caller keeps it, so that a run can be taken up again at any packet. `Meter::step` is one
//! packet: the tokens that are due, and then the packet; `meter_packet` is the same, and leaves the state as
//! it was. `precolour` is the colour that a packet's code point gives it, and `meter_spec` reads a meter from
//! a text. Octets are those of IP packets, a token is one octet, rates are tokens per second, and times are
//! milliseconds from 1970 UTC, below 2^48. No call takes memory.
#![tactic(auto)]

mod any_meter;
mod code_point;
mod colour;
mod fault;
mod levels;
mod meter;
mod rfc4115;
mod spec;
mod srtcm;
mod step;
mod termed;
mod trtcm;

pub use any_meter::AnyMeter;
pub use code_point::precolour;
pub use colour::{Colour, colours_worsen};
pub use fault::MeterFault;
pub use levels::Levels;
pub use meter::Meter;
pub use rfc4115::Rfc4115;
pub use spec::{SpecFault, meter_spec, spec_laws};
pub use srtcm::SrTcm;
pub use step::meter_packet;
pub use termed::{InTerm, MOST_TERMS, Termed, terms_apart};
pub use trtcm::TrTcm;
