//! The texts that the commands print.
ghost use Rattle.std.specs.Prelude.{◌≡◌, ◌++◌, IfOk, OnOk, string_bytes};
ghost use Rattle.tca_commands.specs.Texts.{audit_text, colour_line, meter_text, combine_text};

use std::alloc::{AllocError, Global};
use tca_accounts::Sums;
use tca_audit::Verdict;

// A line of a colour: its name, its octets, its packets.
fn colour_line(alloc: Global, name: &str, octets: u64, packets: u64) -> Result<String, AllocError>
    ensures { IfOk result (λ text. string_bytes text ≡ colour_line name.now octets packets) }
{
    format!(in alloc; "{name} {octets} {packets}\n")
}

/// A line for each colour: its name, its octets, its packets.
pub(crate) fn meter_lines(alloc: Global, sums: &Sums) -> Result<String, AllocError>
    ensures { IfOk result (λ text. string_bytes text ≡ meter_text sums.now) }
{
    let octets = sums.octets();
    let packets = sums.packets();
    let mut text = colour_line(alloc, "green", octets[0], packets[0])?;
    text.push_str(colour_line(alloc, "yellow", octets[1], packets[1])?.as_str())?;
    text.push_str(colour_line(alloc, "red", octets[2], packets[2])?.as_str())?;
    Ok(text)
}

/// How many reports a log has.
pub(crate) fn combine_line(alloc: Global, reports: u32) -> Result<String, AllocError>
    ensures { IfOk result (λ text. string_bytes text ≡ combine_text reports) }
{
    format!(in alloc; "reports {reports}\n")
}

/// Whether a statement agrees, or where it differs.
pub(crate) fn audit_line(alloc: Global, verdict: Verdict) -> Result<String, AllocError>
    ensures { IfOk result (λ text. string_bytes text ≡ audit_text verdict) }
{
    match verdict {
        Verdict::Agrees => format!(in alloc; "agrees\n"),
        Verdict::Differs { at } => format!(in alloc; "differs at {at}\n"),
    }
}
