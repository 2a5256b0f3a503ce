//! Rows that go out as lines, in pieces and without taking memory.
ghost use Rattle.std.specs.Prelude.{◌≡◌, ◌≤◌, ◌+◌, ◌++◌, ℕ, List, OnOk, IfErr, length};
ghost use Rattle.arrayvec.specs.ArrayVec.{array_vec_len};
ghost use Rattle.tca_program.specs.Devices.{IsCutOff, Receives, device};
ghost use Rattle.tca_program.specs.Unions.{write_refusal};
ghost use Rattle.tcatool.specs.Csv.{csv_text};

use crate::cell::{Buffer, append};
use tca_program::RunFault;
use tca_report::{Write, put_all};

/// What is written as one line, where all rows of a table have something in common.
pub(crate) trait Row<C> {
    // The octets of the line.
    ghost line: { C → Self → List ℕ };

    /// Appends the line to a buffer with room for 512 octets.
    fn append_to(&self, common: &C, buffer: &mut Buffer)
        requires { array_vec_len buffer.old + 512 ≤ 32768 }
        ensures { buffer.new.items ≡ buffer.old.items ++ line common.now self.now };
}

// The octets that a line may take.
const MOST_LINE: usize = 512;

// Writes a piece of the octets.
fn put_piece<W: Write>(octets: &[u8], out: &mut W) -> Result<(), RunFault>
    ensures done { OnOk result (Receives octets.now
        (device W.written W.failures out.old) (device W.written W.failures out.new)) }
    ensures fault { IfErr result (λ e. e ≡ write_refusal) }
    ensures cut_off { IfErr result (λ _. IsCutOff octets.now
        (device W.written W.failures out.old) (device W.written W.failures out.new)) }
{
    put_all(octets, out)?;
    Ok(())
}

// Where the buffer has no room for one more line, writes what it has and empties it.
fn make_room<W: Write>(buffer: &mut Buffer, out: &mut W) -> Result<(), RunFault>
    ensures room { OnOk result (array_vec_len buffer.new + 512 ≤ 32768) }
    ensures sent { OnOk result ((sent : List ℕ) × (buffer.old.items ≡ sent ++ buffer.new.items)
        × Receives sent (device W.written W.failures out.old) (device W.written W.failures out.new)) }
    ensures fault { IfErr result (λ e. e ≡ write_refusal) }
    ensures cut_off { IfErr result (λ _. IsCutOff buffer.old.items
        (device W.written W.failures out.old) (device W.written W.failures out.new)) }
{
    if buffer.remaining_capacity() >= MOST_LINE {
        return Ok(());
    }
    put_piece(buffer.as_slice(), out)?;
    buffer.clear();
    Ok(())
}

/// Writes a header, and the line of each row, in few and large writes. It takes no memory. A refusal says that a write failed, and that
/// only a part of these octets went out.
pub(crate) fn put_rows<C, T: Row<C>, W: Write>(
    header: &str,
    common: &C,
    rows: &[T],
    out: &mut W,
) -> Result<(), RunFault>
    requires { length header.now ≤ 512 }
    ensures done { OnOk result (Receives (csv_text header.now (T.line common.now) rows.now)
        (device W.written W.failures out.old) (device W.written W.failures out.new)) }
    ensures fault { IfErr result (λ e. e ≡ write_refusal) }
    ensures cut_off { IfErr result (λ _. IsCutOff (csv_text header.now (T.line common.now) rows.now)
        (device W.written W.failures out.old) (device W.written W.failures out.new)) }
{
    let mut buffer = Buffer::new();
    append(header.as_bytes(), &mut buffer);
    for row in rows {
        make_room(&mut buffer, out)?;
        row.append_to(common, &mut buffer);
    }
    put_piece(buffer.as_slice(), out)
}
