//! Lines of CSV (RFC 4180) in a buffer, made without taking memory.
ghost use Rattle.std.specs.Prelude.{◌≡◌, ◌≤◌, ◌+◌, ◌*◌, ◌∷◌, ◌++◌, length, map};
ghost use Rattle.std.specs.List.{All};
ghost use Rattle.arrayvec.specs.ArrayVec.{array_vec_len};
ghost use Rattle.tcatool.specs.Csv.{IsShort, cell_text, csv_line};

use arrayvec::ArrayVec;

/// Octets that wait on the stack until they go out.
pub(crate) type Buffer = ArrayVec<u8, 32_768>;

/// A field of a line. A text has at most 32 octets, none of which asks for quotes.
#[derive(Clone, Copy, Debug)]
pub(crate) enum Cell<'a> {
    Number(u64),
    Text(&'a str),
}

/// Appends to a buffer with room.
pub(crate) fn append(octets: &[u8], buffer: &mut Buffer)
    requires { array_vec_len buffer.old + length octets.now ≤ 32768 }
    ensures { buffer.new.items ≡ buffer.old.items ++ octets.now }
{
    buffer.try_extend_from_slice(octets).unwrap();
}

// Appends a field.
fn append_cell(cell: Cell<'_>, buffer: &mut Buffer)
    requires short { IsShort cell }
    requires room { array_vec_len buffer.old + 32 ≤ 32768 }
    ensures items { buffer.new.items ≡ buffer.old.items ++ cell_text cell.entry }
    ensures growth { array_vec_len buffer.new ≤ array_vec_len buffer.old + 32 }
{
    match cell {
        Cell::Number(number) => {
            let mut digits = itoa::Buffer::new();
            append(digits.format(number).as_bytes(), buffer);
        }
        Cell::Text(text) => append(text.as_bytes(), buffer),
    }
}

/// Appends a line of a first field and others, with a comma between.
pub(crate) fn append_line(first: Cell<'_>, others: &[Cell<'_>], buffer: &mut Buffer)
    requires first { IsShort first }
    requires short { All IsShort others.now }
    requires room { array_vec_len buffer.old + 33 * (length others.now + 1) ≤ 32768 }
    ensures { buffer.new.items ≡ buffer.old.items ++ csv_line (cell_text first.entry ∷ map cell_text others.now) }
{
    append_cell(first, buffer);
    for other in others {
        append(b",", buffer);
        append_cell(*other, buffer);
    }
    append(b"\n", buffer);
}
