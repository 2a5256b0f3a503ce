//! The command `json`: a statement as JSON.
ghost use Rattle.std.specs.Prelude.{IfErr, OnOk};
ghost use Rattle.tca_program.specs.Devices.{device};
ghost use Rattle.tcatool.specs.Json.{IsJson};
ghost use Rattle.tcatool.specs.Told.{IsTold, IsUntold};

use crate::moment::moment_text;
use crate::told::read_figures;
use std::alloc::Global;
use std::fmt;
use tca_figures::{AccountFigures, ColourFigures, Figure, Figures, SpanFigures};
use tca_program::{RunFault, put_text};
use tca_report::Write;

// Octets and packets.
#[derive(Clone, Copy)]
struct FigureJson(Figure);

impl fmt::Display for FigureJson {
    ghost use Rattle.std.specs.Prelude.{Some};
    ghost use Rattle.tcatool.specs.Json.{figure_json};

    ghost output = { λ j. Some (figure_json j.0) };

    fn fmt<W: fmt::Write>(&self, f: &mut fmt::Formatter<W>) -> fmt::Result {
        let octets = self.0.octets;
        let packets = self.0.packets;
        write!(f, "{{\"octets\":{octets},\"packets\":{packets}}}")
    }
}

// Those of each colour.
#[derive(Clone, Copy)]
struct ColoursJson(ColourFigures);

impl fmt::Display for ColoursJson {
    ghost use Rattle.std.specs.Prelude.{Some};
    ghost use Rattle.tcatool.specs.Json.{colours_json};

    ghost output = { λ j. Some (colours_json j.0) };

    fn fmt<W: fmt::Write>(&self, f: &mut fmt::Formatter<W>) -> fmt::Result {
        let green = FigureJson(self.0.green);
        let yellow = FigureJson(self.0.yellow);
        let red = FigureJson(self.0.red);
        write!(f, "{{\"green\":{green},\"red\":{red},\"yellow\":{yellow}}}")
    }
}

// The first moment of a period, in milliseconds from the start of 1970.
#[derive(Clone, Copy)]
struct StartJson(u128);

impl fmt::Display for StartJson {
    ghost use Rattle.std.specs.Prelude.{Some};
    ghost use Rattle.tcatool.specs.Json.{start_json};

    ghost output = { λ j. Some (start_json j.0) };

    fn fmt<W: fmt::Write>(&self, f: &mut fmt::Formatter<W>) -> fmt::Result {
        match moment_text(self.0) {
            Some(text) => write!(f, "\"{text}\""),
            None => write!(f, "null"),
        }
    }
}

// A period, under the length of a period.
#[derive(Clone, Copy)]
struct SpanJson {
    period: u64,
    span: SpanFigures,
}

impl fmt::Display for SpanJson {
    ghost use Rattle.std.specs.Prelude.{Some};
    ghost use Rattle.tcatool.specs.Json.{span_json};

    ghost output = { λ j. Some (span_json j.period j.span) };

    fn fmt<W: fmt::Write>(&self, f: &mut fmt::Formatter<W>) -> fmt::Result {
        let index = self.span.index;
        let start = StartJson(index as u128 * self.period as u128);
        let green = FigureJson(self.span.sums.green);
        let yellow = FigureJson(self.span.sums.yellow);
        let red = FigureJson(self.span.sums.red);
        write!(
            f,
            "{{\"green\":{green},\"index\":{index},\"red\":{red},\"start\":{start},\"yellow\":{yellow}}}"
        )
    }
}

// Periods of a list behind the first one, each behind a comma.
#[derive(Clone, Copy)]
struct FurtherSpans<'a> {
    period: u64,
    spans: &'a [SpanFigures],
}

impl fmt::Display for FurtherSpans<'_> {
    ghost use Rattle.std.specs.Prelude.{Some, map};
    ghost use Rattle.tcatool.specs.Json.{further_json, span_json};

    ghost output = { λ l. Some (further_json (map (span_json l.period) l.spans.now)) };

    fn fmt<W: fmt::Write>(&self, f: &mut fmt::Formatter<W>) -> fmt::Result {
        let period = self.period;
        let spans = self.spans;
        for span in spans {
            let item = SpanJson {
                period,
                span: *span,
            };
            write!(f, ",{item}")?;
        }
        Ok(())
    }
}

// The list of an account's periods.
#[derive(Clone, Copy)]
struct SpanList<'a> {
    period: u64,
    spans: &'a [SpanFigures],
}

impl fmt::Display for SpanList<'_> {
    ghost use Rattle.std.specs.Prelude.{Some, map};
    ghost use Rattle.tcatool.specs.Json.{list_json, span_json};

    ghost output = { λ l. Some (list_json (map (span_json l.period) l.spans.now)) };

    fn fmt<W: fmt::Write>(&self, f: &mut fmt::Formatter<W>) -> fmt::Result {
        let period = self.period;
        let Some((first, spans)) = self.spans.split_first() else {
            return write!(f, "[]");
        };
        let span = *first;
        let item = SpanJson { period, span };
        let further = FurtherSpans { period, spans };
        write!(f, "[{item}{further}]")
    }
}

// An account.
#[derive(Clone, Copy)]
struct AccountJson<'a> {
    period: u64,
    account: &'a AccountFigures,
}

impl fmt::Display for AccountJson<'_> {
    ghost use Rattle.std.specs.Prelude.{Some};
    ghost use Rattle.tcatool.specs.Json.{account_json};

    ghost output = { λ j. Some (account_json j.period j.account.now) };

    fn fmt<W: fmt::Write>(&self, f: &mut fmt::Formatter<W>) -> fmt::Result {
        let name = self.account.name();
        let total = ColoursJson(self.account.total());
        let spans = SpanList {
            period: self.period,
            spans: self.account.spans(),
        };
        write!(
            f,
            "{{\"name\":\"{name}\",\"spans\":{spans},\"total\":{total}}}"
        )
    }
}

// Accounts behind the first one, each behind a comma.
#[derive(Clone, Copy)]
struct FurtherAccounts<'a> {
    period: u64,
    accounts: &'a [AccountFigures],
}

impl fmt::Display for FurtherAccounts<'_> {
    ghost use Rattle.std.specs.Prelude.{Some, map};
    ghost use Rattle.tcatool.specs.Json.{account_json, further_json};

    ghost output = { λ l. Some (further_json (map (account_json l.period) l.accounts.now)) };

    fn fmt<W: fmt::Write>(&self, f: &mut fmt::Formatter<W>) -> fmt::Result {
        let period = self.period;
        let accounts = self.accounts;
        for account in accounts {
            let item = AccountJson { period, account };
            write!(f, ",{item}")?;
        }
        Ok(())
    }
}

// The list of the accounts.
#[derive(Clone, Copy)]
struct AccountList<'a> {
    period: u64,
    accounts: &'a [AccountFigures],
}

impl fmt::Display for AccountList<'_> {
    ghost use Rattle.std.specs.Prelude.{Some, map};
    ghost use Rattle.tcatool.specs.Json.{account_json, list_json};

    ghost output = { λ l. Some (list_json (map (account_json l.period) l.accounts.now)) };

    fn fmt<W: fmt::Write>(&self, f: &mut fmt::Formatter<W>) -> fmt::Result {
        let period = self.period;
        let Some((account, accounts)) = self.accounts.split_first() else {
            return write!(f, "[]");
        };
        let item = AccountJson { period, account };
        let further = FurtherAccounts { period, accounts };
        write!(f, "[{item}{further}]")
    }
}

// A statement as JSON.
#[derive(Clone, Copy)]
struct Json<'a>(&'a Figures);

impl fmt::Display for Json<'_> {
    ghost use Rattle.std.specs.Prelude.{Some};
    ghost use Rattle.tcatool.specs.Json.{json_octets};

    ghost output = { λ j. Some (json_octets j.0.now) };

    fn fmt<W: fmt::Write>(&self, f: &mut fmt::Formatter<W>) -> fmt::Result {
        let period = self.0.period();
        let reports = self.0.reports();
        let disputed = self.0.disputed();
        let unassigned = self.0.unassigned();
        let accounts = AccountList {
            period,
            accounts: self.0.accounts(),
        };
        write!(
            f,
            "{{\"accounts\":{accounts},\"disputed\":{disputed},\"format\":1,\"period\":{period},\"reports\":{reports},\"unassigned\":{unassigned}}}\n"
        )
    }
}

/// Writes a statement as JSON: one compact object and a line feed, its members in alphabetical order. A period's sums stand beside its index and
/// its first moment in UTC (RFC 3339), which is `null` past the last second of `jiff` in the year 9999.
///
/// The statement is judged first, then memory is taken for the text, then it is written. A refusal but that of a write leaves `out` as it
/// was; that of a write says that only a part of the text went out.
pub fn run_json<W: Write>(alloc: Global, statement: &[u8], out: &mut W) -> Result<(), RunFault>
    ensures done { OnOk result (IsTold IsJson statement.now
        (device W.written W.failures out.old) (device W.written W.failures out.new)) }
    ensures refused { IfErr result (IsUntold IsJson statement.now
        (device W.written W.failures out.old) (device W.written W.failures out.new)) }
{
    let figures = read_figures(alloc, 0, statement)?;
    let json = Json(&figures);
    let text = format!(in alloc; "{json}")?;
    put_text(&text, out)
}
