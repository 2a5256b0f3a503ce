//! What stands before the accounts: the style, the patterns of the colours, and the counts.
use crate::page::number::Grouped;
use std::fmt;
use tca_figures::Figures;

/// The head of the page, and the patterns by which the colours are told apart.
pub(crate) const HEAD: &str = r##"<!DOCTYPE html>
<html lang="en">
<head>
<meta charset="utf-8"/>
<meta name="viewport" content="width=device-width, initial-scale=1"/>
<title>Usage by account</title>
<style>
:root { color-scheme: light; }
* { box-sizing: border-box; }
body { margin: 0 auto; max-width: 76rem; padding: 0.75rem; background: #fff; color: #1a1a1a; font: 16px/1.4 system-ui, sans-serif; }
h1 { font-size: 1.4rem; margin: 0.25rem 0 0.75rem; }
h2 { font-size: 1.1rem; margin: 0 0 0.5rem; overflow-wrap: anywhere; }
main { display: grid; gap: 1rem; grid-template-columns: repeat(auto-fill, minmax(min(100%, 30rem), 1fr)); }
section, .counts { border: 1px solid #bbb; border-radius: 6px; padding: 0.75rem; min-width: 0; }
.counts { margin: 0 0 1rem; max-width: 30rem; }
.wide { overflow-x: auto; }
table { border-collapse: collapse; width: 100%; font-size: 0.9rem; }
th, td { padding: 0.2rem 0.4rem; text-align: right; vertical-align: top; white-space: nowrap; font-variant-numeric: tabular-nums; }
th:first-child { text-align: left; font-weight: 600; }
thead th { border-bottom: 1px solid #888; }
tbody tr:last-child > * { border-top: 1px solid #888; }
.counts tbody tr:last-child > * { border-top: 0; }
small { display: block; color: #555; }
figure { margin: 0.75rem 0 0; }
figcaption { color: #555; font-size: 0.8rem; }
.picture { display: block; width: 100%; max-width: 40rem; height: auto; overflow: visible; }
.picture text { font-family: inherit; font-size: 100px; fill: #333; }
.end { text-anchor: end; }
.middle { text-anchor: middle; }
.line { stroke: #ddd; stroke-width: 6; }
.base { stroke: #555; stroke-width: 10; }
.green { fill: url(#green); }
.yellow { fill: url(#yellow); }
.red { fill: url(#red); }
.column { fill: none; pointer-events: all; }
.key { width: 1rem; height: 1rem; margin-right: 0.4rem; vertical-align: -0.15rem; border: 1px solid #555; }
.patterns { position: absolute; width: 0; height: 0; }
@media (max-width: 30rem) {
body { padding: 0.5rem; }
section, .counts { padding: 0.5rem; }
table { font-size: 0.8rem; }
th, td { padding: 0.2rem 0.25rem; }
}
@media print {
body { max-width: none; padding: 0; font-size: 11pt; -webkit-print-color-adjust: exact; print-color-adjust: exact; }
main { display: block; }
section, .counts { break-inside: avoid; margin-bottom: 8mm; }
.picture { max-width: 15cm; }
}
</style>
</head>
<body>
<svg class="patterns" aria-hidden="true"><defs>
<pattern id="green" patternUnits="userSpaceOnUse" width="40" height="40"><rect width="40" height="40" fill="#1b7f3b"/></pattern>
<pattern id="yellow" patternUnits="userSpaceOnUse" width="60" height="60" patternTransform="rotate(45)"><rect width="60" height="60" fill="#f5c518"/><rect width="18" height="60" fill="#4a3b00"/></pattern>
<pattern id="red" patternUnits="userSpaceOnUse" width="60" height="60"><rect width="60" height="60" fill="#c62828"/><circle cx="30" cy="30" r="15" fill="#fff"/></pattern>
</defs></svg>
<h1>Usage by account</h1>
"##;

/// The counts of a statement.
#[derive(Clone, Copy)]
pub(crate) struct Counts<'a>(pub(crate) &'a Figures);

impl fmt::Display for Counts<'_> {
    fn fmt<W: fmt::Write>(&self, f: &mut fmt::Formatter<W>) -> fmt::Result {
        let period = Grouped(u128::from(self.0.period()));
        let reports = Grouped(u128::from(self.0.reports()));
        let disputed = Grouped(u128::from(self.0.disputed()));
        let unassigned = Grouped(u128::from(self.0.unassigned()));
        write!(
            f,
            "<div class=\"counts wide\"><table><tbody>\n<tr><th>Length of a period</th><td>{period}\u{a0}ms</td></tr>\n<tr><th>Reports</th><td>{reports}</td></tr>\n"
        )?;
        write!(
            f,
            "<tr><th>Disputed identities</th><td>{disputed}</td></tr>\n<tr><th>Reports of no account</th><td>{unassigned}</td></tr>\n</tbody></table></div>\n"
        )
    }
}
