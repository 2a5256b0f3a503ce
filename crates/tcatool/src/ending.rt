//! The word of a fault line.
ghost use Rattle.std.specs.Prelude.{◌≡◌};
ghost use Rattle.tcatool.specs.Endings.{word_of};
ghost use Rattle.tcatool.specs.Lines.{order_of};

use crate::line::Line;
use tca_program::{Family, RunFault};

/// The word that a fault line names: the input, statement or capture that was refused; where none was, the plan, if that was refused or
/// couldn't be read; else the command's name.
pub fn word_of<'a>(line: &Line<'a>, fault: RunFault) -> &'a str
    ensures { result.now ≡ word_of (order_of line.now) fault }
{
    if let Some(n) = fault.input {
        return line.file(n).unwrap_or(line.command());
    }
    match (line, fault.family) {
        (
            Line::List {
                plan: Some(plan),
                ..
            },
            Family::Plan | Family::Read,
        ) => *plan,
        _ => line.command(),
    }
}
