//! The kinds of meters that a plan names.
/// The kind of an account's meter.
#[derive(Clone, Copy, Debug, PartialEq, Eq)]
pub enum Kind {
    /// RFC 2697.
    SrTcm,
    /// RFC 2698.
    TrTcm,
    /// RFC 4115.
    Rfc4115,
}
