//! The colour that a code point gives a packet before it is metered (RFC 2597).
ghost use Rattle.std.specs.Prelude.{◌≡◌};
ghost use Rattle.tca_meters.specs.CodePoints.{precolour};
ghost use Rattle.tca_meters.specs.inside.Assured.{colour_of, is_assured};

use crate::colour::Colour;

// The colour of a drop precedence, doubled as it stands in a code point.
fn colour_of(doubled: u8) -> Colour
    ensures { result ≡ colour_of doubled }
{
    if doubled == 2 {
        Colour::Green
    } else if doubled == 4 {
        Colour::Yellow
    } else {
        Colour::Red
    }
}

// Whether a code point is one of assured forwarding: class x and drop precedence y have 8 * x + 2 * y.
fn is_assured(dscp: u8) -> bool
    ensures { result ≡ is_assured dscp }
{
    dscp >= 8 && dscp < 40 && dscp % 8 != 0 && dscp % 2 == 0
}

/// The colour of a packet before it is metered, by its differentiated services code point. Those of
/// assured forwarding (RFC 2597 section 6) have the colour of their drop precedence: 1 is green, 2
/// yellow and 3 red. Any other code point has `other`.
pub fn precolour(dscp: u8, other: Colour) -> Colour
    ensures { result ≡ precolour dscp other }
{
    // Worked out for any code point, so that no branch depends on it: code points come in any order.
    let colour = colour_of(dscp % 8);
    if is_assured(dscp) { colour } else { other }
}
