//! How a text goes out that a command made.
ghost use Rattle.std.specs.Prelude.{◌≡◌, IfErr, OnOk};
ghost use Rattle.tca_program.specs.Devices.{IsCutOff, Receives, device};
ghost use Rattle.tca_program.specs.Unions.{write_refusal};

use crate::fault::RunFault;
use tca_report::{Write, put_all};

/// Writes a text. It takes no memory. A refusal says that a write failed, and that only a part of the text went out.
pub fn put_text<W: Write>(text: &str, out: &mut W) -> Result<(), RunFault>
    ensures done { OnOk result (Receives text.now
        (device W.written W.failures out.old) (device W.written W.failures out.new)) }
    ensures cut_off { IfErr result (λ e. (e ≡ write_refusal) × IsCutOff text.now
        (device W.written W.failures out.old) (device W.written W.failures out.new)) }
{
    put_all(text.as_bytes(), out)?;
    Ok(())
}
