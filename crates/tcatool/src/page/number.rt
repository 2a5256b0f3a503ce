//! Numbers as people read them.
use crate::moment::moment_text;
use std::fmt;

// The worth of each group of three digits, the greatest first.
const GROUPS: [u128; 8] = [
    1_000_000_000_000_000_000_000,
    1_000_000_000_000_000_000,
    1_000_000_000_000_000,
    1_000_000_000_000,
    1_000_000_000,
    1_000_000,
    1_000,
    1,
];

/// A number below 10^24, with a narrow space between groups of three digits.
#[derive(Clone, Copy)]
pub(crate) struct Grouped(pub(crate) u128);

impl fmt::Display for Grouped {
    fn fmt<W: fmt::Write>(&self, f: &mut fmt::Formatter<W>) -> fmt::Result {
        let number = self.0;
        let mut begun = false;
        for worth in GROUPS {
            let group = number.checked_div(worth).unwrap_or(0) % 1000;
            if begun {
                write!(f, "\u{202f}{group:03}")?;
            } else if group > 0 || worth == 1 {
                write!(f, "{group}")?;
                begun = true;
            }
        }
        Ok(())
    }
}

// Units of octets, the greatest first.
const UNITS: [(u64, &str); 6] = [
    (1 << 60, "EiB"),
    (1 << 50, "PiB"),
    (1 << 40, "TiB"),
    (1 << 30, "GiB"),
    (1 << 20, "MiB"),
    (1 << 10, "KiB"),
];

/// Octets in the greatest unit of which there is one, with two places, cut off.
#[derive(Clone, Copy)]
pub(crate) struct Size(pub(crate) u128);

impl fmt::Display for Size {
    fn fmt<W: fmt::Write>(&self, f: &mut fmt::Formatter<W>) -> fmt::Result {
        let octets = self.0;
        for (unit, name) in UNITS {
            let hundredths = octets
                .saturating_mul(100)
                .checked_div(u128::from(unit))
                .unwrap_or(0);
            if hundredths >= 100 {
                let (whole, rest) = (hundredths / 100, hundredths % 100);
                return write!(f, "{whole}.{rest:02}\u{a0}{name}");
            }
        }
        write!(f, "{octets}\u{a0}octets")
    }
}

/// The date and the time of a period's first moment, or the period's index past the last second that is shown.
#[derive(Clone, Copy)]
pub(crate) struct Start {
    pub(crate) period: u64,
    pub(crate) index: u64,
}

impl Start {
    fn moment(self) -> u128 {
        self.index as u128 * self.period as u128
    }

    /// Its date alone.
    pub(crate) fn date(self) -> StartDate {
        StartDate(self)
    }

    /// Its time alone.
    pub(crate) fn time(self) -> StartTime {
        StartTime(self)
    }
}

impl fmt::Display for Start {
    fn fmt<W: fmt::Write>(&self, f: &mut fmt::Formatter<W>) -> fmt::Result {
        let index = self.index;
        match moment_text(self.moment()) {
            Some(text) => f.write_str(text.as_str()),
            None => write!(f, "period {index}"),
        }
    }
}

/// The date of a period's first moment.
#[derive(Clone, Copy)]
pub(crate) struct StartDate(Start);

impl fmt::Display for StartDate {
    fn fmt<W: fmt::Write>(&self, f: &mut fmt::Formatter<W>) -> fmt::Result {
        let Some(text) = moment_text(self.0.moment()) else {
            return f.write_str("period");
        };
        match text.as_str().split_once('T') {
            Some((date, _)) => f.write_str(date),
            None => Ok(()),
        }
    }
}

/// The time of day of a period's first moment.
#[derive(Clone, Copy)]
pub(crate) struct StartTime(Start);

impl fmt::Display for StartTime {
    fn fmt<W: fmt::Write>(&self, f: &mut fmt::Formatter<W>) -> fmt::Result {
        let index = self.0.index;
        let Some(text) = moment_text(self.0.moment()) else {
            return write!(f, "{index}");
        };
        match text.as_str().split_once('T') {
            Some((_, time)) => f.write_str(time),
            None => Ok(()),
        }
    }
}
