//! Moments as texts for people.
ghost use Rattle.std.specs.Prelude.{◌≡◌};
ghost use Rattle.std.specs.Option.{option_map};
ghost use Rattle.tcatool.specs.Moments.{moment_text};

use arrayvec::ArrayString;
use jiff::Timestamp;
use jiff::fmt::temporal::DateTimePrinter;

/// The text of a moment.
pub(crate) type MomentText = ArrayString<33>;

/// The date and the time in UTC (RFC 3339), as `2023-11-14T22:00:00.25Z`, of a moment in milliseconds from the start of 1970. There is none
/// past the last second of `jiff`, which is in the year 9999.
pub(crate) fn moment_text(milliseconds: u128) -> Option<MomentText>
    ensures { option_map (λ text. text.bytes) result ≡ moment_text milliseconds }
{
    let signed = i64::try_from(milliseconds).ok()?;
    let moment = Timestamp::from_millisecond(signed).ok()?;
    Some(DateTimePrinter::new().timestamp_text(moment.to_plain()))
}
