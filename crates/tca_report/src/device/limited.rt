//! A reader that is read a limited number of times. Its fields are seen here alone, so whoever is
//! lent a `Limited` makes no more reads than are left.
ghost use Rattle.std.specs.Prelude.{◌≡◌, ◌<◌, ◌≤◌, ◌+◌, IfOk, OnOk, length};
ghost use Rattle.std.specs.Io.KnownBytes.{ReadConsumes};
ghost use Rattle.tca_report.specs.device.Devices.{CountsFailure, Rises};

use crate::device::Read;
use std::io;

// The only way to a reader, with the reads that are left.
#[derive(Drop)]
pub(crate) struct Limited<'r, R> {
    reader: &'r mut R,
    reads_left: u32,
}

impl<'r, R: Read> Limited<'r, R> {
    // The reader, to be read at most so many times.
    pub(crate) fn new(reader: &'r mut R, reads: u32) -> Limited<'r, R>
        ensures same_reader { result.reader.ghost_name ≡ reader.entry.ghost_name }
        ensures reader { result.reader.now ≡ reader.old }
        ensures reads { result.reads_left ≡ reads }
    {
        Limited {
            reader,
            reads_left: reads,
        }
    }

    // How many reads are left.
    pub(crate) fn reads_left(&self) -> u32
        ensures { result ≡ self.now.reads_left }
    {
        self.reads_left
    }

    // One read, of those that are left.
    pub(crate) fn read(&mut self, into: &mut [u8]) -> io::Result<usize>
        requires { 0 < self.old.reads_left }
        ensures spent { self.new.reads_left + 1 ≡ self.old.reads_left }
        ensures same_reader { self.new.reader.ghost_name ≡ self.old.reader.ghost_name }
        ensures bound { IfOk result (λ n. n ≤ length into.new) }
        ensures octets { ReadConsumes (R.left self.old.reader.now) (R.left self.new.reader.now)
            result into.new }
        ensures count { CountsFailure result (R.failures self.old.reader.now)
            (R.failures self.new.reader.now) }
        ensures reads { Rises (R.reads self.old.reader.now) (R.reads self.new.reader.now) }
        ensures one { OnOk result (R.reads self.new.reader.now ≡ R.reads self.old.reader.now + 1) }
    {
        self.reads_left -= 1;
        self.reader.read(into)
    }
}
