//! Whose records a message has: its session, its observation domain, and the count of the records before it.
ghost use Rattle.std.specs.Prelude.{◌≡◌};
ghost use Rattle.tca_templates.specs.Records.{source_of};

use tca_wire::Header;

/// Whose records a message has, and how they are counted.
#[derive(Clone, Copy)]
pub(crate) struct Source {
    /// The number of the transport session.
    pub session: u32,
    /// The observation domain.
    pub domain: u32,
    /// The message's sequence number (RFC 7011, section 3.1).
    pub sequence: u32,
}

impl Source {
    // That of a message of this header in the session of this number.
    pub(crate) fn of(session: u32, header: Header) -> Source
        ensures { result ≡ source_of session header }
    {
        Source {
            session,
            domain: header.domain,
            sequence: header.sequence,
        }
    }
}
