//! The templates of a transport session, and the data records that they describe (RFC 7011).
//!
//! A message is refused as a whole or read as a whole. Its records are handed on one after the other in the octets of
//! the message, without memory of their own. Which fields of a template's records tell about a packet, and where they
//! stand, is worked out when the template is defined; a record with a field of variable length is gone over once.
//! Only `read` copies fields; and it notes what template sets change, and puts that back where the message is refused.
//! Templates are found in a map ordered by their domain and ID, and withdrawn without moving the others. All that a stranger's
//! messages can make a decoder keep is 4,096 templates of 512 fields each, in at most twice as many slots, with no more
//! keys than slots and lists of twice as many IDs, and what the last message added. There may be more of these for as long as
//! memory is refused for taking the needless ones away.
//! Memory is the last that a record can want: one that is refused for itself is refused so whether or not there is memory
//! for it.
//!
//! - `decoder`: a session; `reading`: the sets of one message;
//! - `template`, `specifiers`, `store`: what a template says, the records that define and withdraw templates, and
//!   the sets of these; `slots`: the templates that are known; `ids`: those of a domain and kind; `iter`: all of them in
//!   order;
//! - `elements`: the elements that tell about a packet, and which are chosen; `layout`: which fields of a template are chosen, and where
//!   they stand in a record; `numbers`: the same of usual records, whose numbers are read at once;
//! - `source`: whose records a message has;
//! - `record`, `outcome`: the records of data sets, in the message's octets and as values of their own;
//! - `fault`: what can be wrong.
#![tactic(auto)]

mod decoder;
pub mod elements;
mod fault;
mod ids;
mod iter;
mod layout;
mod numbers;
mod outcome;
mod reading;
mod record;
mod slots;
mod source;
mod specifiers;
mod store;
mod template;

pub use decoder::{Decoder, Handed};
pub use fault::DecodeFault;
pub use iter::TemplatesIter;
pub use numbers::Numbers;
pub use outcome::{FieldValue, Outcome, PlacedFields};
pub use reading::{reading_laws, session_laws};
pub use record::{Record, TakesRecords};
