//! What replicas of a world send.
use crate::run::{Delta, Summary};

/// A message, as a world keeps it.
#[derive(Drop)]
pub(crate) enum Message {
    /// How much the sender held of each origin.
    Counts(Summary),
    /// Runs of what the sender held.
    Parts(Delta),
}
