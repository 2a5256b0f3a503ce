//! One step of metering.
ghost use Rattle.std.specs.Prelude.{◌≡◌, ◌<◌, ◌≤◌};
ghost use Rattle.tca_meters.specs.Packets.{answer};
ghost use Rattle.tca_buckets.specs.Tokens.{time_end};

use crate::colour::Colour;
use crate::meter::Meter;

/// The colour of a packet that comes after one of time `last`, and the state after it. First the tokens come in that
/// arrive after `last` and at or before `time`, in milliseconds, and then the packet is judged by its octets and its
/// precolour. The first packet comes after time 0, in the meter's `start`.
pub fn meter_packet<M: Meter>(
    meter: &M,
    state: M::State,
    last: u64,
    time: u64,
    octets: u32,
    pre: Colour,
) -> (Colour, M::State)
    requires order { last ≤ time }
    requires limit { time < time_end }
    ensures { result ≡ answer (M.rule meter.now) state last (record { time = time; octets = octets; pre = pre }) }
{
    let mut next = state;
    let colour = meter.step(&mut next, last, time, octets, pre);
    (colour, next)
}
