//! The places of one domain and session, from one to another.
ghost use Rattle.std.specs.Prelude.{◌≤◌};

/// The places of one domain and session from the lowest to the highest.
#[derive(Clone, Copy)]
pub(crate) struct Span {
    pub domain: u32,
    pub session: u32,
    pub lowest: u32,
    pub highest: u32,
    pub ghost ordered: { lowest ≤ highest },
}
