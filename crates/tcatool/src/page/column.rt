//! Where bars stand from left to right.
use std::fmt;

/// Where the room of the first bar begins, in units of which a picture is 3600 wide.
pub(crate) const LEFT: u64 = 640;

/// The room of all bars, in units.
pub(crate) const WIDTH: u64 = 2900;

// Millionths of a unit: each of up to 2,900 million bars has a room of its own.
const UNIT: u64 = 1_000_000;

// The widest bar.
const WIDEST: u64 = 400 * UNIT;

// The room on either side of the middle of a time, and the last middle that has it.
const LABEL: u64 = 340 * UNIT;

const LAST_LABEL: u64 = 3600 * UNIT - LABEL;

/// A place or a width in millionths of a unit, which is shown in units.
#[derive(Clone, Copy)]
pub(crate) struct Millionths(u64);

impl fmt::Display for Millionths {
    fn fmt<W: fmt::Write>(&self, f: &mut fmt::Formatter<W>) -> fmt::Result {
        let (units, rest) = (self.0 / UNIT, self.0 % UNIT);
        if rest == 0 {
            return write!(f, "{units}");
        }
        write!(f, "{units}.{rest:06}")
    }
}

/// Where a bar stands, and the room that it has.
#[derive(Clone, Copy)]
pub(crate) struct Column {
    pub(crate) left: Millionths,
    pub(crate) width: Millionths,
    pub(crate) room: Millionths,
    pub(crate) start: Millionths,
}

impl Column {
    /// The column at a place, of so many.
    pub(crate) fn of(place: usize, count: usize) -> Column {
        let start = edge(place, count);
        let room = edge(place.saturating_add(1), count)
            .saturating_sub(start)
            .max(1);
        let width = room.saturating_sub(room / 6).min(WIDEST).max(1);
        let left = start.saturating_add(room.saturating_sub(width) / 2);
        Column {
            left: Millionths(left),
            width: Millionths(width),
            room: Millionths(room),
            start: Millionths(start),
        }
    }

    /// The middle of the bar.
    pub(crate) fn middle(self) -> Millionths {
        Millionths(self.left.0.saturating_add(self.width.0 / 2))
    }

    /// The middle of the time below the bar, where the picture has room for it.
    pub(crate) fn label(self) -> Millionths {
        Millionths(self.middle().0.clamp(LABEL, LAST_LABEL))
    }
}

// Where the room of the column at a place begins, of so many.
fn edge(place: usize, count: usize) -> u64 {
    let all = WIDTH * UNIT;
    let before = (place as u128).saturating_mul(u128::from(all));
    let offset = before.checked_div(count as u128).unwrap_or(0);
    let offset = u64::try_from(offset).unwrap_or(all).min(all);
    offset.saturating_add(LEFT * UNIT)
}
