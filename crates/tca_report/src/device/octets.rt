//! Reading all that a reader has left, and writing all of a slice.
ghost use Rattle.std.specs.Prelude.{◌≡◌, ◌≢◌, ◌<◌, ◌≤◌, ◌+◌, ◌-◌, ◌*◌, ℕ, Err, IfOk, IfErr, OnOk, IsErrOf, length, take};
ghost use Rattle.std.specs.Io.KnownBytes.{Appends, Consumes, IsAtEnd};
ghost use Rattle.tca_report.specs.device.Devices.{CountsFailure, ConsumesWithin, Rises, most_reads, read_size};
ghost use Rattle.tca_report.specs.Faults.{read_number};

use crate::device::limited::Limited;
use crate::device::{Read, Write};
use std::alloc::{AllocError, Global};
use thiserror::Error;

/// Why the octets of a reader were not all read.
#[derive(Clone, Copy, Debug, PartialEq, Eq, Error)]
pub enum ReadFault {
    /// A read failed.
    #[error("the reader failed")]
    Read,
    /// All the reads that one input may take were made, and its end was not seen.
    #[error("the input did not end within 4194304 reads")]
    Turns,
    /// No memory for the octets.
    #[error("out of memory")]
    Memory,
}

impl ReadFault {
    /// The number that stands for the fault in a program's messages.
    pub fn number(&self) -> u8
        ensures { result ≡ read_number self.now }
    {
        match self {
            ReadFault::Read => 1,
            ReadFault::Turns => 2,
            ReadFault::Memory => 3,
        }
    }
}

/// A write failed, and exactly the first `written` octets went out before it.
#[derive(Clone, Copy, Debug, PartialEq, Eq, Error)]
#[error("the writer failed after {written} octets")]
pub struct WriteFault {
    pub written: u64,
}

impl WriteFault {
    /// The number that stands for the fault in a program's messages.
    pub fn number(&self) -> u8
        ensures { result ≡ 1 }
    {
        1
    }
}

/// Writes all the octets, in as many writes as the writer needs, and stops at the first that
/// fails. It takes no memory.
pub fn put_all<W: Write>(octets: &[u8], out: &mut W) -> Result<(), WriteFault>
    ensures ok { OnOk result (Appends (W.written out.old) (W.written out.new) octets.now) }
    ensures part { IfErr result (λ e. e.written < length octets.now) }
    ensures went { IfErr result (λ e. Appends (W.written out.old) (W.written out.new)
        (take e.written octets.now)) }
    ensures count { CountsFailure result (W.failures out.old) (W.failures out.new) }
{
    let mut done = 0;
    while done < octets.len() {
        match out.write(&octets[done..]) {
            Ok(n) => done += n,
            Err(_) => {
                return Err(WriteFault {
                    written: done as u64,
                });
            }
        }
    }
    Ok(())
}

// Octets of one read.
const READ_SIZE: usize = 65_536;

// Reads of one input.
const MOST_READS: u32 = 4_194_304;

// The length is a parameter, since a proof would write out a list of a known length.
fn new_buffer(alloc: Global, size: usize) -> Result<Vec<u8>, AllocError>
    ensures { IfOk result (λ v. length v.items ≡ size) }
{
    vec![in alloc; 0u8; size]
}

// Reads to the end, or until no read is left.
fn read_all<R: Read>(
    alloc: Global,
    buffer: &mut [u8],
    from: &mut Limited<'_, R>,
) -> Result<Vec<u8>, ReadFault>
    requires room { 0 < length buffer.old }
    ensures same_reader { from.new.reader.ghost_name ≡ from.old.reader.ghost_name }
    ensures octets { IfOk result (λ v. Consumes (R.left from.old.reader.now)
        (R.left from.new.reader.now) v.items) }
    ensures all { OnOk result (IsAtEnd (R.left from.new.reader.now)) }

    ensures reads { from.new.reads_left ≤ from.old.reads_left }
    ensures counted { R.reads from.new.reader.now ≤ R.reads from.old.reader.now + (from.old.reads_left - from.new.reads_left) }

    // Each read takes a buffer at most, and each but the last at least one octet.
    ensures most { ConsumesWithin 0
        (length buffer.old * (from.old.reads_left - from.new.reads_left))
        (R.left from.old.reader.now) (R.left from.new.reader.now) }
    ensures turns { IsErrOf result ReadFault.Turns → (from.new.reads_left ≡ 0)
        × (R.reads from.new.reader.now ≡ R.reads from.old.reader.now + from.old.reads_left)
        × ConsumesWithin from.old.reads_left (length buffer.old * from.old.reads_left)
        (R.left from.old.reader.now) (R.left from.new.reader.now) }
    ensures memory { IsErrOf result ReadFault.Memory
        → R.reads from.new.reader.now < R.reads from.old.reader.now + from.old.reads_left }
    ensures failed { IsErrOf result ReadFault.Read
        → Rises (R.failures from.old.reader.now) (R.failures from.new.reader.now) }
    ensures quiet { result ≢ Err ReadFault.Read
        → R.failures from.new.reader.now ≡ R.failures from.old.reader.now }
{
    let mut octets = Vec::new(alloc);
    while from.reads_left() > 0 {
        match from.read(buffer) {
            Ok(0) => return Ok(octets),
            Ok(_) if from.reads_left() == 0 => return Err(ReadFault::Turns),
            Ok(n) => {
                if octets.extend_from_slice(&buffer[..n]).is_err() {
                    return Err(ReadFault::Memory);
                }
            }
            Err(_) => return Err(ReadFault::Read),
        }
    }
    Err(ReadFault::Turns)
}

/// Reads all the octets that are left, by at most 4,194,304 reads of at most 65,536 octets.
///
/// `Read` where a read failed, at once; `Turns` where the last of those reads took octets too, so
/// that the end was not seen; `Memory` for the buffer, before the first read, or for the octets of
/// a read, but never for those of the last of these reads. What was read before a fault is
/// consumed and not given back.
pub fn read_octets<R: Read>(alloc: Global, reader: &mut R) -> Result<Vec<u8>, ReadFault>
    ensures octets { IfOk result (λ v. Consumes (R.left reader.old) (R.left reader.new) v.items) }
    ensures all { OnOk result (IsAtEnd (R.left reader.new)) }

    ensures reads { R.reads reader.new ≤ R.reads reader.old + most_reads }

    // Also on an `Err` no more is consumed than the reads may take.
    ensures most { ConsumesWithin 0 (read_size * most_reads) (R.left reader.old) (R.left reader.new) }
    ensures turns { IsErrOf result ReadFault.Turns → (R.reads reader.new ≡ R.reads reader.old + most_reads)
        × ConsumesWithin most_reads (read_size * most_reads) (R.left reader.old) (R.left reader.new) }
    // Memory is wanted only while reads are left.
    ensures memory { IsErrOf result ReadFault.Memory → R.reads reader.new < R.reads reader.old + most_reads }
    ensures failed { IsErrOf result ReadFault.Read
        → Rises (R.failures reader.old) (R.failures reader.new) }
    ensures quiet { result ≢ Err ReadFault.Read
        → R.failures reader.new ≡ R.failures reader.old }
{
    let Ok(mut buffer) = new_buffer(alloc, READ_SIZE) else {
        return Err(ReadFault::Memory);
    };
    let mut from = Limited::new(reader, MOST_READS);
    read_all(alloc, buffer.as_mut_slice(), &mut from)
}
