//! The axis of octets.
use tca_figures::ColourFigures;

/// How many steps an axis has at most.
pub(crate) const STEPS: u32 = 4;

// Octets by unit, and how many of a unit a step may be.
const UNITS: [(&str, u64); 7] = [
    ("octets", 1),
    ("KiB", 1 << 10),
    ("MiB", 1 << 20),
    ("GiB", 1 << 30),
    ("TiB", 1 << 40),
    ("PiB", 1 << 50),
    ("EiB", 1 << 60),
];

const AMOUNTS: [u32; 16] = [
    1, 2, 3, 4, 5, 10, 20, 25, 50, 75, 100, 150, 200, 250, 400, 500,
];

/// An axis from 0 in equal steps, each so many of a unit.
#[derive(Clone, Copy)]
pub(crate) struct Scale {
    pub(crate) amount: u32,
    pub(crate) unit: &'static str,
    step: u128,
}

// The least amount of a unit of which the steps reach so many octets.
fn amount_within(unit: u64, most: u128) -> Option<u32> {
    for amount in AMOUNTS {
        let step = u128::from(amount).saturating_mul(u128::from(unit));
        if step.saturating_mul(u128::from(STEPS)) >= most {
            return Some(amount);
        }
    }
    None
}

impl Scale {
    /// The axis with the least steps that reaches so many octets.
    pub(crate) fn of(most: u128) -> Scale {
        for (unit, octets) in UNITS {
            if let Some(amount) = amount_within(octets, most) {
                let step = u128::from(amount).saturating_mul(u128::from(octets));
                return Scale { amount, unit, step };
            }
        }
        Scale {
            amount: 500,
            unit: "EiB",
            step: 500 << 60,
        }
    }

    /// How many of so many units of length octets take, where all steps take `length`.
    pub(crate) fn length_of(self, octets: u128, length: u64) -> u64 {
        let top = self.step.saturating_mul(u128::from(STEPS));
        let units = octets.saturating_mul(u128::from(length)).checked_div(top);
        match units {
            Some(units) => u64::try_from(units).unwrap_or(length).min(length),
            None => 0,
        }
    }
}

/// The octets of green, of green and yellow, and of all three.
pub(crate) fn stacked(sums: ColourFigures) -> [u128; 3] {
    let green = u128::from(sums.green.octets);
    let yellow = green.saturating_add(u128::from(sums.yellow.octets));
    let red = yellow.saturating_add(u128::from(sums.red.octets));
    [green, yellow, red]
}
