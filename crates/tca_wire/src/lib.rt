//! Messages of IPFIX (RFC 7011) as they stand in octets: the header, where the sets lie, and the messages of a stream.
//!
//! `split_message` finds a message exactly where RFC 7011, section 3, has one, and else names the first fault from the
//! left. It makes one list, of the sets; the octets stay where they are. Its time goes with the number of sets.
//!
//! `Framer` cuts a stream of messages, one after the other, as a file of RFC 5655 has them, into its messages. It makes
//! no difference how the stream was cut into pieces. Between pieces less than one message is held; behind a fault
//! nothing is held. A length that a header only claims makes no room.
//!
//! `feed` copies each message: an octet goes into a buffer, which grows to the longest piece and what was held before
//! it, and out of it. `lend` gives slices of the piece, and copies only a message that lies across two pieces, so a
//! piece takes the time of its headers. Either takes no more than the time of the octets, also where they come one by
//! one.
//!
//! - `message`: what a message is; `split`: reading one;
//! - `framer`: the messages of a stream;
//! - `fault`: what can be wrong with either.
#![tactic(auto)]

mod fault;
mod framer;
mod message;
mod split;

pub use fault::WireFault;
pub use framer::{Framed, Framer, Lent, Messages, framing_is_unique, pieces_join};
pub use message::{Header, Message, SetSpan};
pub use split::{message_laws, split_message};
