//! The three colours and their order.
ghost use Rattle.std.specs.Prelude.{◌≡◌, ◌<◌};
ghost use Rattle.std.specs.Ordering.{nat_cmp};
ghost use Rattle.tca_meters.specs.Colours.{colour_number};
ghost use Rattle.tca_meters.specs.declared.colour.Colour.{Colour};

/// The colour of a packet, from better to worse.
#[derive(Clone, Copy, Debug, PartialEq, Eq, PartialOrd, Ord)]
pub enum Colour {
    /// Within the committed tokens.
    Green,
    /// Above them, but within the excess or the peak tokens.
    Yellow,
    /// Above both.
    Red,
}

impl Colour {
    /// 0, 1 and 2 for green, yellow and red: the place of a colour's sums in an array.
    pub fn number(self) -> usize
        ensures number { result ≡ colour_number self }
        ensures below { result < 3 }
    {
        match self {
            Colour::Green => 0,
            Colour::Yellow => 1,
            Colour::Red => 2,
        }
    }
}

/// The law of the order of colours: green before yellow before red, from better to worse.
pub fn colours_worsen()
    ensures { (a b : Colour) → ⟦<Colour as Ord>⟧.cmp a b ≡ nat_cmp (colour_number a) (colour_number b) }
{}
