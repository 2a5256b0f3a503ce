//! What a meter is: the trait and its laws.
ghost use Rattle.std.specs.Prelude.{◌≡◌, ◌<◌, ◌≤◌, Bool};
ghost use Rattle.tca_meters.specs.Packets.{Rule, answer};
ghost use Rattle.tca_meters.specs.MeterLaws.{IsAdditive, KeepsSizes, NeverBetters, IgnoresPrecolours, RedKeeps};
ghost use Rattle.tca_buckets.specs.Tokens.{time_end};

use crate::colour::Colour;

/// A meter with its parameters. What it does with a list of packets is its rule, run from time 0.
pub trait Meter {
    type State: Copy + Eq;

    /// What the meter does, as a definition.
    ghost rule: { Self → Rule Self.State };

    /// Whether the levels of a state are within this meter's sizes.
    ghost within: { Self → Self.State → Type 0 };

    /// Whether precolours count in a state.
    ghost aware: { Self → Self.State → Bool };

    /// The state at time 0.
    fn start(&self) -> Self::State
        ensures { result ≡ (rule self.now).opening };

    /// The state after the tokens that arrive after `from` and at or before `to`, in milliseconds.
    fn advance(&self, state: Self::State, from: u64, to: u64) -> Self::State
        requires order { from ≤ to }
        requires time { to < time_end }
        ensures { result ≡ (rule self.now).filled from to state };

    /// The colour of a packet of so many octets with this precolour, and the state after it.
    fn offer(&self, state: Self::State, octets: u32, pre: Colour) -> (Colour, Self::State)
        ensures { result ≡ (rule self.now).judged state octets pre };

    /// The colour of a packet that comes at `time` after one of time `last`: first the tokens come in that arrive in
    /// between, and then the packet is judged. The state becomes the one after it.
    fn step(
        &self,
        state: &mut Self::State,
        last: u64,
        time: u64,
        octets: u32,
        pre: Colour,
    ) -> Colour
        requires order { last ≤ time }
        requires limit { time < time_end }
        ensures colour { result ≡ (answer (rule self.now) state.old last (record { time = time; octets = octets; pre = pre })).0 }
        ensures after { state.new ≡ (answer (rule self.now) state.old last (record { time = time; octets = octets; pre = pre })).1 }
    {
        let filled = self.advance(*state, last, time);
        let (colour, next) = self.offer(filled, octets, pre);
        *state = next;
        colour
    }

    /// Going on to a time in two steps is going on in one.
    ghost additive: { (m : Self) → IsAdditive (rule m) };

    /// Levels stay within the sizes.
    ghost sizes: { (m : Self) → KeepsSizes (rule m) (within m) };

    /// Where precolours count, no packet gets a better colour than it had.
    ghost never_betters: { (m : Self) → NeverBetters (rule m) (aware m) };

    /// Where precolours don't count, each packet is treated as a green one.
    ghost blind: { (m : Self) → IgnoresPrecolours (rule m) (aware m) };

    /// A packet that gets red changes nothing.
    ghost red_keeps: { (m : Self) → RedKeeps (rule m) };
}
