//! An account: its sums, and a picture of its periods.
use crate::page::escape::Escaped;
use crate::page::number::{Grouped, Size};
use crate::page::picture::Picture;
use std::fmt;
use tca_figures::{AccountFigures, ColourFigures, Figure};

// The key of a colour in the pictures.
#[derive(Clone, Copy)]
struct Key {
    class: &'static str,
}

impl fmt::Display for Key {
    fn fmt<W: fmt::Write>(&self, f: &mut fmt::Formatter<W>) -> fmt::Result {
        let class = self.class;
        write!(
            f,
            "<svg class=\"key\" viewBox=\"0 0 160 160\" aria-hidden=\"true\"><rect class=\"{class}\" width=\"160\" height=\"160\"/></svg>"
        )
    }
}

// A colour's row of the sums.
#[derive(Clone, Copy)]
struct SumRow {
    name: &'static str,
    class: &'static str,
    figure: Figure,
}

impl fmt::Display for SumRow {
    fn fmt<W: fmt::Write>(&self, f: &mut fmt::Formatter<W>) -> fmt::Result {
        let name = self.name;
        let key = Key { class: self.class };
        let sum = SumCells {
            octets: u128::from(self.figure.octets),
            packets: u128::from(self.figure.packets),
        };
        write!(f, "<tr><th>{key}{name}</th>{sum}</tr>\n")
    }
}

// Octets and packets of a row.
#[derive(Clone, Copy)]
struct SumCells {
    octets: u128,
    packets: u128,
}

impl fmt::Display for SumCells {
    fn fmt<W: fmt::Write>(&self, f: &mut fmt::Formatter<W>) -> fmt::Result {
        let octets = Grouped(self.octets);
        let size = Size(self.octets);
        let packets = Grouped(self.packets);
        if self.octets < 1024 {
            return write!(f, "<td>{octets}</td><td>{packets}</td>");
        }
        write!(
            f,
            "<td>{octets}<small>{size}</small></td><td>{packets}</td>"
        )
    }
}

// Octets and packets of all colours.
fn all_cells(sums: ColourFigures) -> SumCells {
    let octets = u128::from(sums.green.octets)
        .saturating_add(u128::from(sums.yellow.octets))
        .saturating_add(u128::from(sums.red.octets));
    let packets = u128::from(sums.green.packets)
        .saturating_add(u128::from(sums.yellow.packets))
        .saturating_add(u128::from(sums.red.packets));
    SumCells { octets, packets }
}

// The table of an account's sums.
#[derive(Clone, Copy)]
struct SumTable(ColourFigures);

impl fmt::Display for SumTable {
    fn fmt<W: fmt::Write>(&self, f: &mut fmt::Formatter<W>) -> fmt::Result {
        let green = SumRow {
            name: "Green",
            class: "green",
            figure: self.0.green,
        };
        let yellow = SumRow {
            name: "Yellow",
            class: "yellow",
            figure: self.0.yellow,
        };
        let red = SumRow {
            name: "Red",
            class: "red",
            figure: self.0.red,
        };
        let all = all_cells(self.0);
        f.write_str(
            "<div class=\"wide\"><table>\n<thead><tr><th>Colour</th><th>Octets</th><th>Packets</th></tr></thead>\n<tbody>\n",
        )?;
        write!(f, "{green}{yellow}{red}<tr><th>All</th>{all}</tr>\n")?;
        f.write_str("</tbody>\n</table></div>\n")
    }
}

/// The section of an account, under the length of a period.
#[derive(Clone, Copy)]
pub(crate) struct Account<'a> {
    pub(crate) period: u64,
    pub(crate) account: &'a AccountFigures,
}

impl fmt::Display for Account<'_> {
    fn fmt<W: fmt::Write>(&self, f: &mut fmt::Formatter<W>) -> fmt::Result {
        let name = Escaped(self.account.name());
        let sums = SumTable(self.account.total());
        write!(f, "<section>\n<h2>{name}</h2>\n{sums}")?;
        let spans = self.account.spans();
        if spans.is_empty() {
            return f.write_str("<p>No period has a packet.</p>\n</section>\n");
        }
        let picture = Picture {
            name: self.account.name(),
            period: self.period,
            spans,
        };
        write!(f, "{picture}</section>\n")
    }
}
