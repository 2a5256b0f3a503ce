//! The IDs of a domain and kind, as a withdrawal of all of them finds them.
ghost use Rattle.std.specs.Prelude.{◌≤◌, length};

// The IDs that were defined in a domain with a kind.
#[derive(Drop)]
pub(crate) struct Ids {
    /// In the order of their definitions.
    pub all: Vec<u16>,
    /// From which of these on a withdrawal of all goes over them.
    pub from: usize,
    pub ghost within: { from ≤ length all.items },
}
