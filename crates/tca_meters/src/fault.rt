//! Why parameters make no meter, and the range of rates and sizes.
ghost use Rattle.std.specs.Prelude.{◌≡◌};
ghost use Rattle.tca_meters.specs.Faults.{fault_number, in_range};

use thiserror::Error;

/// Why there is no meter of some parameters. Where several hold, it is the first in this order.
#[derive(Clone, Copy, Debug, PartialEq, Eq, Error)]
pub enum MeterFault {
    /// Both burst sizes are 0, or for RFC 2698 one of them is.
    #[error("no burst size to meter by: expected one above 0, and for RFC 2698 both")]
    NoBurst,
    /// The peak rate is below the committed rate (RFC 2698 section 2).
    #[error("the peak rate is below the committed rate: expected it to be at least that")]
    PeakBelowCommitted,
    /// A rate or a burst size is above 1,000,000,000,000.
    #[error("a rate or a burst size is out of range: expected each to be at most 1000000000000")]
    RateRange,
}

impl MeterFault {
    /// The number of the fault, from 1, in the order in which faults are tested.
    pub fn number(&self) -> u8
        ensures { result ≡ fault_number self.now }
    {
        match self {
            MeterFault::NoBurst => 1,
            MeterFault::PeakBelowCommitted => 2,
            MeterFault::RateRange => 3,
        }
    }
}

// The most tokens per second of a rate, and the most tokens of a burst.
const MOST_RATE: u64 = 1_000_000_000_000;

/// Whether a rate or a burst size is in its range.
pub(crate) fn in_range(value: u64) -> bool
    ensures { result ≡ in_range value }
{
    value <= MOST_RATE
}
