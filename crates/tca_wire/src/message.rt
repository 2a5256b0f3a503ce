//! A message of RFC 7011: its header, and where its sets lie.
ghost use Rattle.std.specs.Prelude.{◌≡◌, ◌≤◌, ◌<◌, ◌^◌, length, drop, true};
ghost use Rattle.tca_wire.specs.Messages.{tile};

/// The header of a message, without its version, which is 10 (RFC 7011, section 3.1).
#[derive(Clone, Copy, Debug, PartialEq, Eq)]
pub struct Header {
    /// Octets of the whole message, the 16 of its header with them.
    pub length: u16,
    /// When the message left the exporter, in seconds from 1970 UTC.
    pub export_time: u32,
    /// Data records of the session and domain before this message, modulo 2^32.
    pub sequence: u32,
    /// The observation domain.
    pub domain: u32,
}

/// Where a set lies in its message (RFC 7011, section 3.3).
#[derive(Clone, Copy, Debug, PartialEq, Eq)]
pub struct SetSpan {
    /// 2 is a template set, 3 an options template set, 256 and above a data set.
    pub id: u16,
    /// The offset of the set's header from the message's first octet.
    pub at: u16,
    /// Octets of the set, the four of its header with them.
    pub length: u16,
}

/// A message: its header, its sets, which fill the octets behind the header, and all its octets.
#[derive(Drop)]
pub struct Message<'a> {
    /// Its header.
    pub header: Header,
    /// Where its sets lie, in their order.
    pub sets: Vec<SetSpan>,
    /// Its octets, the 16 of its header with them.
    pub octets: &'a [u8],
    pub ghost whole: { header.length ≡ length octets.now },
    pub ghost room: { 16 ≤ header.length },
    pub ghost short: { header.length < 2 ^ 16 },
    pub ghost tiled: { tile 16 sets.items (drop 16 octets.now) ≡ true },
}
