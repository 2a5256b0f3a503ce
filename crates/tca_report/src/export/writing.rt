//! Writing a log export, without taking memory.
ghost use Rattle.std.specs.Prelude.{◌≡◌, ◌<◌, ◌≤◌, ◌+◌, ◌-◌, ◌*◌, ◌^◌, [], ◌++◌, IfOk, IfErr, OnOk, length, take, drop};
ghost use Rattle.std.specs.Io.KnownBytes.{Appends};
ghost use Rattle.std.specs.List.Sorted.{IsStrictlySortedBy};
ghost use Rattle.arrayvec.specs.ArrayVec.{array_vec_len};
ghost use Rattle.tca_report.specs.device.Devices.{CountsFailure};
ghost use Rattle.tca_report.specs.export.Spelling.{export, header_octets, record_octets};
ghost use Rattle.tca_report.specs.report.Reports.{report_cmp, most_reports};
ghost use Rattle.tca_report.specs.declared.export.Format.TheVariants.{Version2};

use crate::device::{Write, WriteFault, put_all};
use crate::report::Report;
use arrayvec::ArrayVec;

// Octets that wait on the stack until they go out: the header and 4,096 reports, which fill 29 pages of 4,096 octets.
const BUFFER: usize = 118_794;

// Octets of one report.
const RECORD_SIZE: usize = 29;

type Buffer = ArrayVec<u8, BUFFER>;

// Appends to a buffer with room.
fn append(octets: &[u8], buffer: &mut Buffer)
    requires { array_vec_len buffer.old + length octets.now ≤ BUFFER }
    ensures { buffer.new.items ≡ buffer.old.items ++ octets.now }
{
    buffer.try_extend_from_slice(octets).unwrap();
}

// A buffer with the header of an export of so many reports.
fn with_header(count: u32) -> Buffer
    ensures { result.items ≡ header_octets Version2 count }
{
    let [a, b, c, d] = count.to_be_bytes();
    let mut buffer = Buffer::new();
    append(&[b'T', b'C', b'A', b'X', 0, 2, a, b, c, d], &mut buffer);
    buffer
}

// Appends the octets of a report.
fn append_record(report: &Report, buffer: &mut Buffer)
    requires { array_vec_len buffer.old + RECORD_SIZE ≤ BUFFER }
    ensures { buffer.new.items ≡ buffer.old.items ++ record_octets Version2 report.now }
{
    let identity = report.identity();
    let content = report.content();
    append(&content.time.to_be_bytes(), buffer);
    append(&identity.domain.to_be_bytes(), buffer);
    append(&identity.session.to_be_bytes(), buffer);
    append(&identity.place.to_be_bytes(), buffer);
    append(&content.octets.to_be_bytes(), buffer);
    append(&[content.dscp], buffer);
    append(&content.iface.to_be_bytes(), buffer);
}

// Writes the octets after so many others, and gives the number of all.
fn put_after<W: Write>(written: u64, octets: &[u8], out: &mut W) -> Result<u64, WriteFault>
    requires { written + length octets.now < 2 ^ 64 }
    ensures ok { OnOk result (Appends (W.written out.old) (W.written out.new) octets.now) }
    ensures total { IfOk result (λ n. n ≡ written + length octets.now) }
    ensures after { IfErr result (λ e. written ≤ e.written) }
    ensures part { IfErr result (λ e. e.written < written + length octets.now) }
    ensures went { IfErr result (λ e. Appends (W.written out.old) (W.written out.new)
        (take (e.written - written) octets.now)) }
    ensures count { CountsFailure result (W.failures out.old) (W.failures out.new) }
{
    match put_all(octets, out) {
        Ok(()) => Ok(written + octets.len() as u64),
        Err(fault) => Err(WriteFault {
            written: written + fault.written,
        }),
    }
}

// Where the buffer has no room for one more record, writes what it has and empties it.
fn make_room<W: Write>(written: u64, buffer: &mut Buffer, out: &mut W) -> Result<u64, WriteFault>
    requires { written + array_vec_len buffer.old < 2 ^ 64 }
    ensures room { OnOk result (array_vec_len buffer.new + RECORD_SIZE ≤ BUFFER) }
    ensures more { IfOk result (λ n. written ≤ n) }
    ensures total { IfOk result (λ n. n ≤ written + length buffer.old.items) }
    ensures sent { IfOk result (λ n. Appends (W.written out.old) (W.written out.new)
        (take (n - written) buffer.old.items)) }
    ensures kept { IfOk result (λ n. buffer.new.items ≡ drop (n - written) buffer.old.items) }
    ensures after { IfErr result (λ e. written ≤ e.written) }
    ensures part { IfErr result (λ e. e.written < written + length buffer.old.items) }
    ensures went { IfErr result (λ e. Appends (W.written out.old) (W.written out.new)
        (take (e.written - written) buffer.old.items)) }
    ensures count { CountsFailure result (W.failures out.old) (W.failures out.new) }
{
    if buffer.remaining_capacity() >= RECORD_SIZE {
        return Ok(written);
    }
    let total = put_after(written, buffer.as_slice(), out)?;
    buffer.clear();
    Ok(total)
}

/// Writes the log export, version 2, of the reports, in few and large writes. It takes no memory.
/// On an `Err` exactly the first `written` octets of the export went out.
pub fn write_export<W: Write>(reports: &[Report], out: &mut W) -> Result<(), WriteFault>
    requires rises { IsStrictlySortedBy report_cmp reports.now }
    requires few { length reports.now ≤ most_reports }
    ensures ok { OnOk result (Appends (W.written out.old) (W.written out.new)
        (export reports.now)) }
    ensures part { IfErr result (λ e. e.written < length (export reports.now)) }
    ensures went { IfErr result (λ e. Appends (W.written out.old) (W.written out.new)
        (take e.written (export reports.now))) }
    ensures count { CountsFailure result (W.failures out.old) (W.failures out.new) }
{
    let mut buffer = with_header(reports.len() as u32);
    let mut written = 0;
    for report in reports {
        written = make_room(written, &mut buffer, out)?;
        append_record(report, &mut buffer);
    }
    put_after(written, buffer.as_slice(), out)?;
    Ok(())
}
