//! Statements as they are written.
use crate::figures::{AccountFigures, ColourFigures, Figure, Figures, SpanFigures};
use std::fmt;

/// Octets and packets, with a space between.
impl fmt::Display for Figure {
    ghost use Rattle.std.specs.Prelude.{Some};
    ghost use Rattle.tca_figures.specs.Lines.{figure_fields};

    ghost output = { λ f. Some (figure_fields f) };

    fn fmt<W: fmt::Write>(&self, f: &mut fmt::Formatter<W>) -> fmt::Result {
        let octets = self.octets;
        let packets = self.packets;
        write!(f, "{octets} {packets}")
    }
}

/// The numbers of green, of yellow and of red.
impl fmt::Display for ColourFigures {
    ghost use Rattle.std.specs.Prelude.{Some};
    ghost use Rattle.tca_figures.specs.Lines.{colour_fields};

    ghost output = { λ c. Some (colour_fields c) };

    fn fmt<W: fmt::Write>(&self, f: &mut fmt::Formatter<W>) -> fmt::Result {
        let green = self.green;
        let yellow = self.yellow;
        let red = self.red;
        write!(f, "{green} {yellow} {red}")
    }
}

/// The line of a period, without its line feed.
impl fmt::Display for SpanFigures {
    ghost use Rattle.std.specs.Prelude.{Some};
    ghost use Rattle.tca_figures.specs.Lines.{span_line};

    ghost output = { λ s. Some (span_line s) };

    fn fmt<W: fmt::Write>(&self, f: &mut fmt::Formatter<W>) -> fmt::Result {
        let index = self.index;
        let sums = self.sums;
        write!(f, "span {index} {sums}")
    }
}

/// The lines of an account, each with its line feed.
impl fmt::Display for AccountFigures {
    ghost use Rattle.std.specs.Prelude.{Some};
    ghost use Rattle.tca_figures.specs.Lines.{account_lines, octets_of};

    ghost output = { λ a. Some (octets_of (account_lines a)) };

    fn fmt<W: fmt::Write>(&self, f: &mut fmt::Formatter<W>) -> fmt::Result {
        let name = self.name();
        let total = self.total();
        let spans = self.spans();
        write!(f, "account {name}\ntotal {total}\n")?;
        for span in spans {
            write!(f, "{span}\n")?;
        }
        Ok(())
    }
}

// The lines of a statement before those of its accounts.
#[derive(Clone, Copy)]
struct Opening<'a>(&'a Figures);

impl fmt::Display for Opening<'_> {
    ghost use Rattle.std.specs.Prelude.{Some};
    ghost use Rattle.tca_figures.specs.Lines.{octets_of, opening_lines};

    ghost output = { λ o. Some (octets_of (opening_lines o.0.now)) };

    fn fmt<W: fmt::Write>(&self, f: &mut fmt::Formatter<W>) -> fmt::Result {
        let period = self.0.period();
        let reports = self.0.reports();
        let disputed = self.0.disputed();
        let unassigned = self.0.unassigned();
        write!(
            f,
            "tcacct statement 1\nperiod {period}\nreports {reports}\ndisputed {disputed}\nunassigned {unassigned}\n"
        )
    }
}

/// The statement's lines, each with its line feed.
impl fmt::Display for Figures {
    ghost use Rattle.std.specs.Prelude.{Some};
    ghost use Rattle.tca_figures.specs.Lines.{statement_octets};

    ghost output = { λ s. Some (statement_octets s) };

    fn fmt<W: fmt::Write>(&self, f: &mut fmt::Formatter<W>) -> fmt::Result {
        let opening = Opening(self);
        let accounts = self.accounts();
        write!(f, "{opening}")?;
        for account in accounts {
            write!(f, "{account}")?;
        }
        write!(f, "end\n")
    }
}
