//! What comes of a replica whose passes are given back.
ghost use Rattle.std.specs.Prelude.{◌≡◌, List, IfOk, IfErr, OnErr};
ghost use Rattle.tca_gossip.specs.Replicas.{ReplicaView};
ghost use Rattle.tca_ingest.specs.Entries.{EntryView};
ghost use Rattle.tca_ingest.specs.Journals.{IsHistory};
ghost use Rattle.tca_ingest.specs.Passes.{AreClosing};
ghost use Rattle.tca_ingest.specs.CloseFaults.{IsCloseFault};
ghost use Rattle.tca_ingest.specs.Shares.{IsReplayed};

use crate::entry::Entry;
use crate::fault::CloseFault;
use crate::fitting::{fault_of, within};
use crate::held::Held;
use crate::pass::Pass;
use crate::shared::Shared;
use crate::side::Side;
use std::marker::Model;
use std::sync::Mutex;
use tca_gossip::Replica;

/// A replica that nobody shares any more, with the journal of what was called on it.
#[derive(Drop)]
pub struct Closed {
    pub replica: Replica,
    pub journal: Vec<Entry>,
}

impl Model for Closed {
    ghost use Rattle.tca_ingest.specs.Closed.{ClosedView};
    ghost use Rattle.tca_ingest.specs.EntryViews.{entry_views};

    ghost Value = { ClosedView };

    ghost view = { λ c. record { replica = c.replica; journal = entry_views c.journal.items } };
}

/// What a refused close of a `Held` hands back.
#[derive(Drop)]
pub struct Unheld<L: Side> {
    pub fault: CloseFault,
    pub held: Held<L>,
    pub passes: Vec<Pass<L>>,
}

/// What a refused close of a `Shared` hands back.
#[derive(Drop)]
pub struct Unclosed<L: Side> {
    pub fault: CloseFault,
    pub shared: Shared<L>,
    pub passes: Vec<Pass<L>>,
}

impl<L: Side> Held<L> {
    /// Gives the replica and its journal, where these are all passes by which it was called: the journal's entries of each pass's
    /// number are the calls of the pass, in its order, the numbers differ, and there are no other entries. It takes no memory.
    ///
    /// `Missing` comes where the passes have fewer entries than the journal. Else `Differs` names the first pass given whose calls
    /// aren't the journal's of its number, or whose number a pass before it has; no use of this crate leads there. Both hand all back.
    pub fn close(self, passes: Vec<Pass<L>>) -> Result<Closed, Unheld<L>>
        ensures closing { IfOk result (λ c. AreClosing c.journal passes.items) }
        ensures history { IfOk result (λ c. IsHistory L.plan L.called c.replica c.journal) }
        ensures replayed { IfOk result (λ c. IsReplayed L.plan L.called c.replica c.journal) }
        ensures same { IfOk result (λ c. (c.replica ≡ self.replica) × (c.journal ≡ self.journal)) }
        ensures fault { IfErr result (λ u. IsCloseFault self.journal passes.items u.fault) }
        ensures past { OnErr result (IsHistory L.plan L.called self.replica self.journal) }
        ensures back { IfErr result (λ u. (u.held ≡ self) × (u.passes ≡ passes)) }
    {
        let (held, passes) = within(self, passes);
        match fault_of(held.journal(), &passes) {
            Some(fault) => Err(Unheld {
                fault,
                held,
                passes,
            }),
            None => {
                let (replica, journal) = held.into_parts();
                Ok(Closed { replica, journal })
            }
        }
    }
}

impl<L: Side> Shared<L> {
    /// Gives the replica and its journal, where these are all passes by which it was called, as `Held::close` does. Nobody else has
    /// the replica, so it takes no lock, and no memory. No caller sees the journal before, so on a refusal the fault is that of a history
    /// of this replica.
    pub fn close(self, passes: Vec<Pass<L>>) -> Result<Closed, Unclosed<L>>
        ensures closing { IfOk result (λ c. AreClosing c.journal passes.items) }
        ensures history { IfOk result (λ c. IsHistory L.plan L.called c.replica c.journal) }
        ensures replayed { IfOk result (λ c. IsReplayed L.plan L.called c.replica c.journal) }
        ensures fault { IfErr result (λ u. (replica : ReplicaView) × (journal : List EntryView) × IsHistory L.plan L.called replica journal × IsCloseFault journal passes.items u.fault) }
        ensures back { IfErr result (λ u. u.passes ≡ passes) }
    {
        match self.held.into_inner().close(passes) {
            Ok(closed) => Ok(closed),
            Err(
                Unheld {
                    fault,
                    held,
                    passes,
                },
            ) => Err(Unclosed {
                fault,
                shared: Shared {
                    held: Mutex::new(held),
                },
                passes,
            }),
        }
    }
}
