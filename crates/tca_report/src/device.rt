//! What octets come from and go to, with a count of the calls that failed.
ghost use Rattle.std.specs.Prelude.{◌≡◌, ◌<◌, ◌≤◌, ◌+◌, ℕ, List, Option, IfOk, IsOk, OnOk, length};
ghost use Rattle.std.specs.Io.KnownBytes.{ReadConsumes, WriteAppends};
ghost use Rattle.tca_report.specs.device.Devices.{CountsFailure, Hosted, Rises, most_failures};

mod limited;
mod octets;

pub use octets::{ReadFault, WriteFault, put_all, read_octets};
use std::io;
use std::marker::Model;

/// What octets come from: std's `read`, with a count of the calls that failed.
pub trait Read {
    // The octets that are left, where they are known.
    ghost left: { Self → Option (List ℕ) };

    // How many calls have failed. At 2^64 - 1 each call fails, and the count stays.
    ghost failures: { Self → ℕ };

    // How many calls were made. At 2^64 - 1 each call fails, and the count stays.
    ghost reads: { Self → ℕ };

    /// Fills the front of `into` with the next octets and gives their number, which is 0 at the
    /// end or where `into` is empty. An `Err` takes no octet.
    fn read(&mut self, into: &mut [u8]) -> io::Result<usize>
        ensures bound { IfOk result (λ n. n ≤ length into.new) }
        ensures octets { ReadConsumes (left self.old) (left self.new) result into.new }
        ensures count { CountsFailure result (failures self.old) (failures self.new) }
        ensures alive { OnOk result (failures self.old < most_failures) }
        ensures reads { Rises (reads self.old) (reads self.new) }
        ensures one { OnOk result (reads self.new ≡ reads self.old + 1) };
}

/// What octets go to: std's `write`, with a count of the calls that failed.
pub trait Write {
    // The octets that went out, where they are known.
    ghost written: { Self → Option (List ℕ) };

    // How many calls have failed. At 2^64 - 1 each call fails, and the count stays.
    ghost failures: { Self → ℕ };

    /// Takes some of the first octets and gives their number. A call that takes none of them fails.
    /// An `Err` takes no octet. A call without octets does nothing, and doesn't fail.
    fn write(&mut self, octets: &[u8]) -> io::Result<usize>
        ensures some { 0 < length octets.now → IfOk result (λ n. 0 < n) }
        ensures bound { IfOk result (λ n. n ≤ length octets.now) }
        ensures octets { WriteAppends (written self.old) (written self.new) result octets.now }
        ensures count { CountsFailure result (failures self.old) (failures self.new) }
        ensures alive { 0 < length octets.now → OnOk result (failures self.old < most_failures) }
        // So no failure is made up by a write of nothing.
        ensures nothing { length octets.now ≡ 0 → IsOk result };
}

/// A reader or a writer of std, with the counts of its reads and of its failures. A call of the device that fails is
/// not tried again here, also where it was interrupted.
#[derive(Drop)]
pub struct Host<D> {
    device: D,
    failures: u64,
    reads: u64,
}

impl<D> Model for Host<D> {
    ghost use Rattle.tca_report.specs.device.Devices.{Hosted};

    ghost Value = { Hosted D };

    ghost view = { λ h. record { device = h.device; failures = h.failures; reads = h.reads } };
}

impl<D> Host<D> {
    /// The device, none of whose calls has failed yet.
    pub fn new(device: D) -> Host<D>
        ensures { result ≡ record { device = device; failures = 0; reads = 0 } }
    {
        Host {
            device,
            failures: 0,
            reads: 0,
        }
    }

    /// How many calls have failed.
    pub fn failures(&self) -> u64
        ensures { result ≡ self.now.failures }
    {
        self.failures
    }

    /// The device as it is now.
    pub fn into_inner(self) -> D
        ensures { result ≡ self.device }
    {
        self.device
    }
}

impl<D: io::Read> Read for Host<D> {
    ghost left = { λ h. D.remaining h.device };

    ghost failures = { λ h. h.failures };

    ghost reads = { λ h. h.reads };

    fn read(&mut self, into: &mut [u8]) -> io::Result<usize> {
        if self.failures == u64::MAX || self.reads == u64::MAX {
            self.failures = self.failures.saturating_add(1);
            self.reads = self.reads.saturating_add(1);
            return Err(io::Error::from(io::ErrorKind::Other));
        }
        self.reads += 1;
        match self.device.read(into) {
            Ok(n) => Ok(n),
            Err(error) => {
                self.failures += 1;
                Err(error)
            }
        }
    }
}

impl<D: io::Write> Write for Host<D> {
    ghost written = { λ h. D.contents h.device };

    ghost failures = { λ h. h.failures };

    fn write(&mut self, octets: &[u8]) -> io::Result<usize> {
        if octets.is_empty() {
            return Ok(0);
        }
        if self.failures == u64::MAX {
            return Err(io::Error::from(io::ErrorKind::Other));
        }
        match self.device.write(octets) {
            Ok(0) => {
                self.failures += 1;
                Err(io::Error::from(io::ErrorKind::WriteZero))
            }
            Ok(n) => Ok(n),
            Err(error) => {
                self.failures += 1;
                Err(error)
            }
        }
    }
}
