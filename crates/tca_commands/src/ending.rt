//! The word of a fault line.
ghost use Rattle.std.specs.Prelude.{◌≡◌};
ghost use Rattle.tca_commands.specs.Endings.{word_of};
ghost use Rattle.tca_commands.specs.Lines.{order_of};

use crate::line::Line;
use tca_program::{Family, RunFault};

/// The word that a fault line names: the input that was refused; where none was, the spec, the plan or an audit's
/// export if that was refused, or a plan that couldn't be read; else the command's name.
pub fn word_of<'a>(line: &Line<'a>, fault: RunFault) -> &'a str
    ensures { result.now ≡ word_of (order_of line.now) fault }
{
    if let Some(n) = fault.input {
        return line.file(n).unwrap_or(line.command());
    }
    match (line, fault.family) {
        (Line::Meter { spec, .. }, Family::Spec) => *spec,
        (Line::Bill { plan, .. }, Family::Plan | Family::Read) => *plan,
        (Line::Audit { plan, .. }, Family::Plan | Family::Read) => *plan,
        (Line::Audit { export, .. }, Family::Export) => *export,
        _ => line.command(),
    }
}
