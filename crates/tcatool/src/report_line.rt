//! The fields of a report.
ghost use Rattle.std.specs.Prelude.{◌≡◌, map};
ghost use Rattle.std.specs.List.{All};
ghost use Rattle.tcatool.specs.Csv.{IsShort, cell_text};
ghost use Rattle.tcatool.specs.ReportLines.{report_fields};

use crate::cell::Cell;
use tca_report::Report;

/// Time, domain, session, place, octets, code point and interface of a report.
pub(crate) fn report_cells<'a>(report: &Report) -> [Cell<'a>; 7]
    ensures fields { map cell_text result ≡ report_fields report.now }
    ensures short { All IsShort result }
{
    let identity = report.identity();
    let content = report.content();
    [
        Cell::Number(content.time),
        Cell::Number(u64::from(identity.domain)),
        Cell::Number(u64::from(identity.session)),
        Cell::Number(u64::from(identity.place)),
        Cell::Number(u64::from(content.octets)),
        Cell::Number(u64::from(content.dscp)),
        Cell::Number(u64::from(content.iface)),
    ]
}
