//! Cuts a capture of IPFIX messages (RFC 7011) into one for each observation domain.
#![tactic(auto)]

mod buffers;
mod fault;
mod folder;
mod laws;
mod splitting;
mod survey;

pub use fault::SplitFault;
pub use folder::Folder;
pub use laws::splitting_loses_nothing;
pub use splitting::{Parts, split};
