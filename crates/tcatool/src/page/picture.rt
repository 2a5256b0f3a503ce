//! A picture of an account's periods: a bar for each, with the three colours one above the other.
use crate::page::column::{Column, LEFT, WIDTH};
use crate::page::escape::Escaped;
use crate::page::number::{Grouped, Start};
use crate::page::scale::{STEPS, Scale, stacked};
use std::fmt;
use tca_figures::SpanFigures;

// Where the bars stand from above, in units of which a picture is 2150 high.
const TOP: u64 = 120;

const HEIGHT: u64 = 1680;

const FLOOR: u64 = TOP + HEIGHT;

/// The picture of an account of this name, under the length of a period.
#[derive(Clone, Copy)]
pub(crate) struct Picture<'a> {
    pub(crate) name: &'a str,
    pub(crate) period: u64,
    pub(crate) spans: &'a [SpanFigures],
}

// The octets of the period that has most.
fn most_octets(spans: &[SpanFigures]) -> u128 {
    let mut most = 0;
    for span in spans {
        let [_, _, all] = stacked(span.sums);
        most = all.max(most);
    }
    most
}

impl fmt::Display for Picture<'_> {
    fn fmt<W: fmt::Write>(&self, f: &mut fmt::Formatter<W>) -> fmt::Result {
        let name = Escaped(self.name);
        let scale = Scale::of(most_octets(self.spans));
        let axis = Axis(scale);
        let times = Times {
            period: self.period,
            spans: self.spans,
        };
        write!(
            f,
            "<figure>\n<svg class=\"picture\" viewBox=\"0 0 3600 2150\" role=\"img\" aria-label=\"Octets of {name} in each period\">\n{axis}"
        )?;
        for (place, span) in self.spans.iter().enumerate() {
            let bar = Bar {
                column: Column::of(place, self.spans.len()),
                scale,
                period: self.period,
                span: *span,
            };
            write!(f, "{bar}")?;
        }
        write!(
            f,
            "{times}</svg>\n<figcaption>Octets in each period that has a packet, by its start (UTC); from below green, yellow, red.</figcaption>\n</figure>\n"
        )
    }
}

// The axis of octets.
#[derive(Clone, Copy)]
struct Axis(Scale);

impl fmt::Display for Axis {
    fn fmt<W: fmt::Write>(&self, f: &mut fmt::Formatter<W>) -> fmt::Result {
        let unit = self.0.unit;
        let end = LEFT + WIDTH;
        let label = LEFT - 40;
        for step in 0..STEPS + 1 {
            let octets = self.0.amount.saturating_mul(step);
            let height = u64::from(step).saturating_mul(HEIGHT) / u64::from(STEPS);
            let level = FLOOR.saturating_sub(height);
            let middle = level.saturating_add(35);
            let class = if step == 0 { "base" } else { "line" };
            write!(
                f,
                "<path class=\"{class}\" d=\"M{LEFT} {level}H{end}\"/><text class=\"end\" x=\"{label}\" y=\"{middle}\">{octets} {unit}</text>\n"
            )?;
        }
        Ok(())
    }
}

// The bar of a period, with its numbers as a title.
#[derive(Clone, Copy)]
struct Bar {
    column: Column,
    scale: Scale,
    period: u64,
    span: SpanFigures,
}

impl fmt::Display for Bar {
    fn fmt<W: fmt::Write>(&self, f: &mut fmt::Formatter<W>) -> fmt::Result {
        let Column { room, start, .. } = self.column;
        let title = Title {
            period: self.period,
            span: self.span,
        };
        let [green, yellow, red] = stacked(self.span.sums);
        let green = self.scale.length_of(green, HEIGHT);
        let yellow = self.scale.length_of(yellow, HEIGHT);
        let red = self.scale.length_of(red, HEIGHT);
        let green_piece = self.piece("green", 0, green);
        let yellow_piece = self.piece("yellow", green, yellow);
        let red_piece = self.piece("red", yellow, red);
        write!(
            f,
            "<g><title>{title}</title><rect class=\"column\" x=\"{start}\" y=\"{TOP}\" width=\"{room}\" height=\"{HEIGHT}\"/>{green_piece}{yellow_piece}{red_piece}</g>\n"
        )
    }
}

impl Bar {
    // The piece of a colour between two heights.
    fn piece(&self, class: &'static str, low: u64, high: u64) -> Piece {
        Piece {
            class,
            column: self.column,
            level: FLOOR.saturating_sub(high),
            height: high.saturating_sub(low),
        }
    }
}

// The piece of a bar.
#[derive(Clone, Copy)]
struct Piece {
    class: &'static str,
    column: Column,
    level: u64,
    height: u64,
}

impl fmt::Display for Piece {
    fn fmt<W: fmt::Write>(&self, f: &mut fmt::Formatter<W>) -> fmt::Result {
        let Piece {
            class,
            level,
            height,
            ..
        } = *self;
        let Column { left, width, .. } = self.column;
        if height == 0 {
            return Ok(());
        }
        write!(
            f,
            "<rect class=\"{class}\" x=\"{left}\" y=\"{level}\" width=\"{width}\" height=\"{height}\"/>"
        )
    }
}

// The numbers of a period.
#[derive(Clone, Copy)]
struct Title {
    period: u64,
    span: SpanFigures,
}

impl fmt::Display for Title {
    fn fmt<W: fmt::Write>(&self, f: &mut fmt::Formatter<W>) -> fmt::Result {
        let start = Start {
            period: self.period,
            index: self.span.index,
        };
        let sums = self.span.sums;
        let (green, green_packets) = (
            Grouped(u128::from(sums.green.octets)),
            Grouped(u128::from(sums.green.packets)),
        );
        let (yellow, yellow_packets) = (
            Grouped(u128::from(sums.yellow.octets)),
            Grouped(u128::from(sums.yellow.packets)),
        );
        let (red, red_packets) = (
            Grouped(u128::from(sums.red.octets)),
            Grouped(u128::from(sums.red.packets)),
        );
        write!(
            f,
            "{start}\ngreen {green} octets, {green_packets} packets\nyellow {yellow} octets, {yellow_packets} packets\nred {red} octets, {red_packets} packets"
        )
    }
}

// The axis of times: the starts of the first period, of the last, and of one in the middle.
#[derive(Clone, Copy)]
struct Times<'a> {
    period: u64,
    spans: &'a [SpanFigures],
}

// The first place, the middle one and the last one of so many.
fn labelled_places(count: usize) -> [usize; 3] {
    [0, count / 2, count.saturating_sub(1)]
}

impl fmt::Display for Times<'_> {
    fn fmt<W: fmt::Write>(&self, f: &mut fmt::Formatter<W>) -> fmt::Result {
        let count = self.spans.len();
        let mut next = 0;
        for place in labelled_places(count) {
            if let Some(span) = self.spans.get(place) {
                if place >= next {
                    let time = Time {
                        column: Column::of(place, count),
                        period: self.period,
                        index: span.index,
                    };
                    write!(f, "{time}")?;
                    next = place.saturating_add(1);
                }
            }
        }
        Ok(())
    }
}

// The start of a period below its bar.
#[derive(Clone, Copy)]
struct Time {
    column: Column,
    period: u64,
    index: u64,
}

impl fmt::Display for Time {
    fn fmt<W: fmt::Write>(&self, f: &mut fmt::Formatter<W>) -> fmt::Result {
        let (middle, text) = (self.column.middle(), self.column.label());
        let (end, first, second) = (FLOOR + 40, FLOOR + 160, FLOOR + 280);
        let start = Start {
            period: self.period,
            index: self.index,
        };
        let (date, time) = (start.date(), start.time());
        write!(
            f,
            "<path class=\"base\" d=\"M{middle} {FLOOR}V{end}\"/><text class=\"middle\" x=\"{text}\" y=\"{first}\">{date}</text><text class=\"middle\" x=\"{text}\" y=\"{second}\">{time}</text>\n"
        )
    }
}
