//! Sums by colour.
ghost use Rattle.std.specs.Prelude.{◌≡◌, ◌<◌, ◌≤◌, ◌∷◌, [], slice_index};
ghost use Rattle.tca_meters.specs.declared.colour.Colour.{Colour};
ghost use Rattle.tca_meters.specs.Colours.{colour_number};
ghost use Rattle.tca_accounts.specs.Sums.{AreInRange, with_packet};
ghost use Rattle.tca_report.specs.report.Reports.{most_octets, most_reports};

use std::marker::Model;
use tca_meters::Colour;

/// Octets and packets of each colour, by green, yellow, red. A colour has at most 4,194,304 packets and at most
/// 65,575 octets for each of them, so at most 275,041,484,800 octets.
#[derive(Clone, Copy, Debug, PartialEq, Eq)]
pub struct Sums {
    octets: [u64; 3],
    packets: [u64; 3],
}

impl Model for Sums {
    ghost use Rattle.tca_accounts.specs.Sums.{ColourSums, AreInRange};

    ghost Value = { ColourSums };

    ghost view = { λ s. record { octets = s.octets; packets = s.packets } };

    ghost invariant = { λ s. AreInRange (record { octets = s.octets; packets = s.packets }) };

    ghost inverse = { λ s. record { octets = s.octets; packets = s.packets } };
}

impl Sums {
    /// The sums of no packets.
    pub fn new() -> Sums
        ensures { result ≡ record { octets = 0 ∷ 0 ∷ 0 ∷ []; packets = 0 ∷ 0 ∷ 0 ∷ [] } }
    {
        Sums {
            octets: [0; 3],
            packets: [0; 3],
        }
    }

    /// The octets by green, yellow, red.
    pub fn octets(&self) -> [u64; 3]
        ensures value { result ≡ self.now.octets }
        ensures range { AreInRange self.now }
    {
        self.octets
    }

    /// The packets by green, yellow, red.
    pub fn packets(&self) -> [u64; 3]
        ensures value { result ≡ self.now.packets }
        ensures range { AreInRange self.now }
    {
        self.packets
    }

    /// Counts a packet of a colour.
    pub fn count(&mut self, colour: Colour, octets: u32)
        requires few { slice_index self.old.packets (colour_number colour) < most_reports }
        requires size { octets ≤ most_octets }
        ensures { self.new ≡ with_packet colour octets self.old }
    {
        let at = colour.number();
        self.octets[at] += octets as u64;
        self.packets[at] += 1;
    }
}
