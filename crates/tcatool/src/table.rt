//! The command `table`: a statement as CSV.
ghost use Rattle.std.specs.Prelude.{IfErr, OnOk};
ghost use Rattle.tca_program.specs.Devices.{device};
ghost use Rattle.tcatool.specs.Table.{IsTable};
ghost use Rattle.tcatool.specs.Told.{IsTold, IsUntold};

use crate::moment::moment_text;
use crate::told::read_figures;
use std::alloc::Global;
use std::fmt;
use tca_figures::{AccountFigures, ColourFigures, Figure, Figures, SpanFigures};
use tca_program::{RunFault, put_text};
use tca_report::Write;

// Octets and packets, with a comma between.
#[derive(Clone, Copy)]
struct FigureCells(Figure);

impl fmt::Display for FigureCells {
    ghost use Rattle.std.specs.Prelude.{Some};
    ghost use Rattle.tcatool.specs.Table.{figure_cells};

    ghost output = { λ c. Some (figure_cells c.0) };

    fn fmt<W: fmt::Write>(&self, f: &mut fmt::Formatter<W>) -> fmt::Result {
        let octets = self.0.octets;
        let packets = self.0.packets;
        write!(f, "{octets},{packets}")
    }
}

// Those of green, of yellow and of red.
#[derive(Clone, Copy)]
struct ColourCells(ColourFigures);

impl fmt::Display for ColourCells {
    ghost use Rattle.std.specs.Prelude.{Some};
    ghost use Rattle.tcatool.specs.Table.{colour_cells};

    ghost output = { λ c. Some (colour_cells c.0) };

    fn fmt<W: fmt::Write>(&self, f: &mut fmt::Formatter<W>) -> fmt::Result {
        let green = FigureCells(self.0.green);
        let yellow = FigureCells(self.0.yellow);
        let red = FigureCells(self.0.red);
        write!(f, "{green},{yellow},{red}")
    }
}

// The first moment of a period in a row, in milliseconds from the start of 1970.
#[derive(Clone, Copy)]
struct StartCell(u128);

impl fmt::Display for StartCell {
    ghost use Rattle.std.specs.Prelude.{Some};
    ghost use Rattle.tcatool.specs.Table.{start_cell};

    ghost output = { λ c. Some (start_cell c.0) };

    fn fmt<W: fmt::Write>(&self, f: &mut fmt::Formatter<W>) -> fmt::Result {
        match moment_text(self.0) {
            Some(text) => write!(f, "{text}"),
            None => Ok(()),
        }
    }
}

// The row of a period.
#[derive(Clone, Copy)]
struct SpanRow<'a> {
    period: u64,
    name: &'a str,
    span: SpanFigures,
}

impl fmt::Display for SpanRow<'_> {
    ghost use Rattle.std.specs.Prelude.{Some};
    ghost use Rattle.tcatool.specs.Table.{span_row};

    ghost output = { λ r. Some (span_row r.period r.name.now r.span) };

    fn fmt<W: fmt::Write>(&self, f: &mut fmt::Formatter<W>) -> fmt::Result {
        let name = self.name;
        let index = self.span.index;
        let start = StartCell(index as u128 * self.period as u128);
        let cells = ColourCells(self.span.sums);
        write!(f, "{name},{index},{start},{cells}")
    }
}

// The rows of an account, each with its line feed.
#[derive(Clone, Copy)]
struct AccountRows<'a> {
    period: u64,
    account: &'a AccountFigures,
}

impl fmt::Display for AccountRows<'_> {
    ghost use Rattle.std.specs.Prelude.{Some};
    ghost use Rattle.tca_figures.specs.Lines.{octets_of};
    ghost use Rattle.tcatool.specs.Table.{account_rows};

    ghost output = { λ r. Some (octets_of (account_rows r.period r.account.now)) };

    fn fmt<W: fmt::Write>(&self, f: &mut fmt::Formatter<W>) -> fmt::Result {
        let period = self.period;
        let name = self.account.name();
        let total = ColourCells(self.account.total());
        let spans = self.account.spans();
        write!(f, "{name},,,{total}\n")?;
        for span in spans {
            let row = SpanRow {
                period,
                name,
                span: *span,
            };
            write!(f, "{row}\n")?;
        }
        Ok(())
    }
}

// A statement as CSV.
#[derive(Clone, Copy)]
struct Table<'a>(&'a Figures);

impl fmt::Display for Table<'_> {
    ghost use Rattle.std.specs.Prelude.{Some};
    ghost use Rattle.tcatool.specs.Table.{table_octets};

    ghost output = { λ t. Some (table_octets t.0.now) };

    fn fmt<W: fmt::Write>(&self, f: &mut fmt::Formatter<W>) -> fmt::Result {
        let period = self.0.period();
        let accounts = self.0.accounts();
        write!(
            f,
            "account,span,start,green_octets,green_packets,yellow_octets,yellow_packets,red_octets,red_packets\n"
        )?;
        for account in accounts {
            let rows = AccountRows { period, account };
            write!(f, "{rows}")?;
        }
        Ok(())
    }
}

/// Writes a statement as CSV (RFC 4180, but with line feeds alone): a header; for each account its total, without a period and a start, and then
/// its periods, each with its first moment in UTC (RFC 3339), which is left out past the last second of `jiff` in the year 9999.
///
/// The statement is judged first, then memory is taken for the text, then it is written. A refusal but that of a write leaves `out` as it
/// was; that of a write says that only a part of the text went out.
pub fn run_table<W: Write>(alloc: Global, statement: &[u8], out: &mut W) -> Result<(), RunFault>
    ensures done { OnOk result (IsTold IsTable statement.now
        (device W.written W.failures out.old) (device W.written W.failures out.new)) }
    ensures refused { IfErr result (IsUntold IsTable statement.now
        (device W.written W.failures out.old) (device W.written W.failures out.new)) }
{
    let figures = read_figures(alloc, 0, statement)?;
    let table = Table(&figures);
    let text = format!(in alloc; "{table}")?;
    put_text(&text, out)
}
