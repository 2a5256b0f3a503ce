//! Octets by colour that may fall.

/// Octets of each colour. What is issued later may be below 0, where late reports took octets from a colour.
#[derive(Clone, Copy, Debug, PartialEq, Eq)]
pub struct Amount {
    pub green: i64,
    pub yellow: i64,
    pub red: i64,
}
