//! What a log answers to a report.
use tca_report::Report;

/// What a report was to the log that it was added to.
#[derive(Clone, Copy, Debug, PartialEq, Eq)]
pub enum Added {
    /// The first report of its identity.
    Fresh,
    /// The log had it already.
    Repeat,
    /// The second content of its identity: from now on neither is settled.
    NewDispute {
        /// The report that was settled until now.
        withdrawn: Report,
    },
    /// A further content of an identity that is disputed.
    MoreDispute,
}
