//! One call on a shared replica, with its answer.
ghost use Rattle.std.specs.Prelude.{◌≡◌, ◌↔◌, IfOk, IsTrue};
ghost use Rattle.tca_ingest.specs.Entries.{Absorbed, Answered, Asked, Sent, Took, pass_of};
ghost use Rattle.tca_ingest.specs.EntryViews.{entry_view};

use std::alloc::{AllocError, Global};
use tca_accounts::Bill;
use tca_gossip::{AbsorbFault, Delta, Run, Summary, are_same_counts};
use tca_join::{Items, Join};
use tca_log::LogFault;
use tca_report::Report;

/// One call, with the number of the pass that made it.
#[derive(Drop)]
pub enum Entry {
    /// Reports that are held since, how many of them were new, and why the take stopped where it did.
    Took {
        pass: u32,
        reports: Items<Report>,
        fresh: u64,
        stop: Option<LogFault>,
    },
    /// Runs that were absorbed, and the replica's answer.
    Absorbed {
        pass: u32,
        runs: Vec<Run>,
        result: Result<u64, AbsorbFault>,
    },
    /// The bill.
    Answered {
        pass: u32,
        bill: Bill,
    },
    /// How long each chain is.
    Asked {
        pass: u32,
        summary: Summary,
    },
    /// What is held past a summary.
    Sent {
        pass: u32,
        since: Summary,
        delta: Delta,
    },
}

/// What a caller gets of a call.
#[derive(Drop)]
pub struct Receipt {
    /// How many entries the journal has with this one.
    pub front: u64,
    /// The call, as the journal has it.
    pub entry: Entry,
}

impl Entry {
    /// The number of the pass that made the call.
    pub fn pass(&self) -> u32
        ensures { result ≡ pass_of (entry_view self.now) }
    {
        match self {
            Entry::Took { pass, .. } => *pass,
            Entry::Absorbed { pass, .. } => *pass,
            Entry::Answered { pass, .. } => *pass,
            Entry::Asked { pass, .. } => *pass,
            Entry::Sent { pass, .. } => *pass,
        }
    }

    /// Whether both say the same. It takes no memory.
    pub fn is_same(&self, other: &Entry) -> bool
        ensures { IsTrue result ↔ (entry_view self.now ≡ entry_view other.now) }
    {
        match self {
            Entry::Took {
                pass,
                reports,
                fresh,
                stop,
            } => other.is_take(*pass, reports.as_slice(), *fresh, *stop),
            Entry::Absorbed { pass, runs, result } => other.is_absorb(*pass, runs, *result),
            Entry::Answered { pass, bill } => other.is_statement(*pass, bill),
            Entry::Asked { pass, summary } => other.is_summary(*pass, summary),
            Entry::Sent { pass, since, delta } => other.is_delta(*pass, since, delta),
        }
    }

    // Whether it is a take that says this.
    fn is_take(&self, number: u32, taken: &[Report], new: u64, cause: Option<LogFault>) -> bool
        ensures { IsTrue result ↔ (Took number taken.now new cause ≡ entry_view self.now) }
    {
        match self {
            Entry::Took {
                pass,
                reports,
                fresh,
                stop,
            } => {
                number == *pass
                    && new == *fresh
                    && cause == *stop
                    && are_same(taken, reports.as_slice())
            }
            _ => false,
        }
    }

    // Whether it is an absorb that says this.
    fn is_absorb(&self, number: u32, given: &[Run], answer: Result<u64, AbsorbFault>) -> bool
        ensures { IsTrue result ↔ (Absorbed number given.now answer ≡ entry_view self.now) }
    {
        match self {
            Entry::Absorbed { pass, runs, result } => {
                number == *pass && answer == *result && Run::are_same(given, runs)
            }
            _ => false,
        }
    }

    // Whether it is a statement that says this.
    fn is_statement(&self, number: u32, answer: &Bill) -> bool
        ensures { IsTrue result ↔ (Answered number answer.now ≡ entry_view self.now) }
    {
        match self {
            Entry::Answered { pass, bill } => number == *pass && answer.is_same(bill),
            _ => false,
        }
    }

    // Whether it is a summary that says this.
    fn is_summary(&self, number: u32, answer: &Summary) -> bool
        ensures { IsTrue result ↔ (Asked number answer.now ≡ entry_view self.now) }
    {
        match self {
            Entry::Asked { pass, summary } => number == *pass && are_same_counts(answer, summary),
            _ => false,
        }
    }

    // Whether it is a delta that says this.
    fn is_delta(&self, number: u32, asked: &Summary, answer: &Delta) -> bool
        ensures { IsTrue result ↔ (Sent number asked.now answer.now ≡ entry_view self.now) }
    {
        match self {
            Entry::Sent { pass, since, delta } => {
                number == *pass && are_same_counts(asked, since) && answer.is_same(delta)
            }
            _ => false,
        }
    }

    /// The same entry once more. Its reports are shared, not copied. `AllocError` comes where a growth was refused or its reports can have
    /// no owner more, and this entry stays as it is.
    pub fn copy(&self, alloc: Global) -> Result<Entry, AllocError>
        ensures { IfOk result (λ e. entry_view e ≡ entry_view self.now) }
    {
        Ok(match self {
            Entry::Took {
                pass,
                reports,
                fresh,
                stop,
            } => Entry::Took {
                pass: *pass,
                reports: reports.share()?,
                fresh: *fresh,
                stop: *stop,
            },
            Entry::Absorbed { pass, runs, result } => Entry::Absorbed {
                pass: *pass,
                runs: Run::copies(alloc, runs)?,
                result: *result,
            },
            Entry::Answered { pass, bill } => Entry::Answered {
                pass: *pass,
                bill: bill.copy(alloc)?,
            },
            Entry::Asked { pass, summary } => Entry::Asked {
                pass: *pass,
                summary: summary.copy()?,
            },
            Entry::Sent { pass, since, delta } => Entry::Sent {
                pass: *pass,
                since: since.copy()?,
                delta: delta.copy(alloc)?,
            },
        })
    }
}

// Whether two lists have the same reports in the same order.
fn are_same(first: &[Report], second: &[Report]) -> bool
    ensures { IsTrue result ↔ (first.now ≡ second.now) }
{
    *first == *second
}
