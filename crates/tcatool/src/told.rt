//! Reading a statement that is told of.
ghost use Rattle.std.specs.Prelude.{◌≡◌, IfErr, IfOk};
ghost use Rattle.tca_figures.specs.Lines.{IsTextOf};
ghost use Rattle.tcatool.specs.Told.{IsUnread, statement_refusal};

use std::alloc::Global;
use tca_figures::{Figures, StatementFault, read_statement};
use tca_program::{Family, RunFault};

/// The refusal of a statement, which is the word of this number behind the command's, counted from 0.
pub(crate) fn statement_refusal(number: u32, fault: StatementFault) -> RunFault
    ensures { result ≡ statement_refusal number fault }
{
    RunFault {
        input: Some(number),
        family: Family::Statement,
        number: fault.number(),
    }
}

/// The figures of the statement of this number.
pub(crate) fn read_figures(
    alloc: Global,
    number: u32,
    statement: &[u8],
) -> Result<Figures, RunFault>
    ensures read { IfOk result (IsTextOf statement.now) }
    ensures unread { IfErr result (IsUnread number statement.now) }
{
    match read_statement(alloc, statement) {
        Ok(figures) => Ok(figures),
        Err(fault) => Err(statement_refusal(number, fault)),
    }
}
