//! A replica that threads share.
ghost use Rattle.std.specs.Prelude.{◌≡◌, ◌≢◌, [], IfOk, IfErr, OnErr};
ghost use Rattle.tca_ingest.specs.EntryViews.{entry_view};
ghost use Rattle.tca_ingest.specs.Shares.{IsAbsorb, IsDelta, IsExchange, IsNoted, IsPartOfExchange, IsStatement, IsSummaryEntry, IsTake, ledger_parts};

use crate::entry::{Entry, Receipt};
use crate::fault::ShareFault;
use crate::gate::Gate;
use crate::held::Held;
use crate::pass::Pass;
use crate::side::Side;
use std::alloc::{AllocError, Global};
use std::sync::ledger::Blank;
use std::sync::{Mutex, Wait};
use tca_accounts::Plan;
use tca_gossip::{Delta, Summary};
use tca_join::Items;
use tca_report::Report;

/// A replica behind a lock, with its journal. Each call takes the lock, which may wait, makes the `Held`'s call of its name, and
/// lets go. It is refused as that call is: one that makes an entry with `JournalFull` where the journal has 1,048,576 entries, and with
/// `Memory` where a growth was refused for the entry or for the bill, summary or delta in it. On a refusal no entry was made and nothing
/// changed.
#[derive(Drop)]
pub struct Shared<L: Side> {
    pub(crate) held: Mutex<Held<L>>,
}

impl<L: Side> Shared<L> {
    /// A new replica of this name and plan. `AllocError` comes where a growth was refused: then there is no replica, and plan and blank
    /// are gone.
    pub fn new(alloc: Global, blank: Blank, name: u32, plan: Plan) -> Result<Shared<L>, AllocError>
        requires name { blank.name ≡ L.name }
        requires parts { (blank.parts ≡ L.parts) × (L.parts ≡ ledger_parts) }
        requires called { name ≡ L.called }
        requires plan { plan ≡ L.plan }
    {
        let held = Held::new(alloc, blank, name, plan)?;
        Ok(Shared {
            held: Mutex::new(held),
        })
    }

    /// A new pass. `PassesOut` comes where 65,536 passes were made, and no other fault.
    pub fn pass<R: Wait>(&self, rt: &R) -> Result<Pass<L>, ShareFault>
        ensures ok { IfOk result (λ p. p.calls ≡ []) }
        ensures fault { IfErr result (λ f. f ≡ ShareFault.PassesOut) }
    {
        self.held.lock(rt).pass()
    }

    /// Takes reports. The entry lists the first of them, all exactly where it did not stop. `Memory` comes where a growth was refused for
    /// the entry. One that the replica was refused stands in the entry.
    pub fn take<R: Wait>(
        &self,
        rt: &R,
        mine: &mut Pass<L>,
        reports: &[Report],
    ) -> Result<Receipt, ShareFault>
        ensures noted { IfOk result (λ r. IsNoted mine.old mine.new (entry_view r.entry) r.front) }
        ensures took { IfOk result (λ r. IsTake reports.now mine.old.number (entry_view r.entry)) }
        ensures fault { IfErr result (λ f. f ≢ ShareFault.PassesOut) }
        ensures err { OnErr result (mine.new ≡ mine.old) }
    {
        self.held.lock(rt).take(mine, reports)
    }

    // As `take`, with a word to the gate once the lock is held. The entry shares the list, so that the reports aren't copied.
    pub(crate) fn take_inside<R: Wait, G: Gate>(
        &self,
        rt: &R,
        mine: &mut Pass<L>,
        reports: Items<Report>,
        gate: &G,
        job: u32,
    ) -> Result<Receipt, ShareFault>
        ensures noted { IfOk result (λ r. IsNoted mine.old mine.new (entry_view r.entry) r.front) }
        ensures took { IfOk result (λ r. IsTake reports mine.old.number (entry_view r.entry)) }
        ensures fault { IfErr result (λ f. f ≢ ShareFault.PassesOut) }
        ensures err { OnErr result (mine.new ≡ mine.old) }
    {
        let mut held = self.held.lock(rt);
        gate.inside(job);
        held.take_list(mine, reports)
    }

    /// The bill. `Memory` comes where a growth was refused for it or for the entry.
    pub fn statement<R: Wait>(&self, rt: &R, mine: &mut Pass<L>) -> Result<Receipt, ShareFault>
        ensures noted { IfOk result (λ r. IsNoted mine.old mine.new (entry_view r.entry) r.front) }
        ensures exact { IfOk result (λ r. IsStatement mine.old.number (entry_view r.entry)) }
        ensures fault { IfErr result (λ f. f ≢ ShareFault.PassesOut) }
        ensures err { OnErr result (mine.new ≡ mine.old) }
    {
        self.held.lock(rt).statement(mine)
    }

    /// Absorbs a delta. The entry has its runs and the replica's answer, and so a growth that the replica was refused. `Memory` comes where
    /// one was refused for the entry.
    pub fn absorb<R: Wait>(
        &self,
        rt: &R,
        mine: &mut Pass<L>,
        delta: &Delta,
    ) -> Result<Receipt, ShareFault>
        ensures noted { IfOk result (λ r. IsNoted mine.old mine.new (entry_view r.entry) r.front) }
        ensures absorbed { IfOk result (λ r. IsAbsorb delta.now mine.old.number (entry_view r.entry)) }
        ensures fault { IfErr result (λ f. f ≢ ShareFault.PassesOut) }
        ensures err { OnErr result (mine.new ≡ mine.old) }
    {
        self.held.lock(rt).absorb(mine, delta)
    }

    /// How long each chain is. `Memory` comes where a growth was refused for the summary or for the entry.
    pub fn summary<R: Wait>(&self, rt: &R, mine: &mut Pass<L>) -> Result<Receipt, ShareFault>
        ensures noted { IfOk result (λ r. IsNoted mine.old mine.new (entry_view r.entry) r.front) }
        ensures exact { IfOk result (λ r. IsSummaryEntry mine.old.number (entry_view r.entry)) }
        ensures fault { IfErr result (λ f. f ≢ ShareFault.PassesOut) }
        ensures err { OnErr result (mine.new ≡ mine.old) }
    {
        self.held.lock(rt).summary(mine)
    }

    /// What is held past a summary. The entry has the summary too. `Memory` comes where a growth was refused for the delta or for the entry.
    pub fn delta<R: Wait>(
        &self,
        rt: &R,
        mine: &mut Pass<L>,
        since: &Summary,
    ) -> Result<Receipt, ShareFault>
        ensures noted { IfOk result (λ r. IsNoted mine.old mine.new (entry_view r.entry) r.front) }
        ensures exact { IfOk result (λ r. IsDelta since.now mine.old.number (entry_view r.entry)) }
        ensures fault { IfErr result (λ f. f ≢ ShareFault.PassesOut) }
        ensures err { OnErr result (mine.new ≡ mine.old) }
    {
        self.held.lock(rt).delta(mine, since)
    }
}

/// Brings a replica what it lacks of another: its summary, the other's delta for that, and an absorb of the delta. These are three
/// calls, with one lock held at a time, so others may call in between. The receipt is that of the absorb. It is refused as one of the
/// three is, and then the entries of the calls before that one stand.
pub fn exchange<I: Side, F: Side, R: Wait>(
    rt: &R,
    into: &Shared<I>,
    mine: &mut Pass<I>,
    from: &Shared<F>,
    theirs: &mut Pass<F>,
) -> Result<Receipt, ShareFault>
    ensures ok { IfOk result (λ r. IsExchange mine.old mine.new theirs.old theirs.new (entry_view r.entry) r.front) }
    ensures fault { IfErr result (λ f. f ≢ ShareFault.PassesOut) }
    ensures err { OnErr result (IsPartOfExchange mine.old mine.new theirs.old theirs.new) }
{
    let asked = into.summary(rt, mine)?;
    let Entry::Asked { summary, .. } = asked.entry else {
        unreachable!();
    };
    let sent = from.delta(rt, theirs, &summary)?;
    let Entry::Sent { delta, .. } = sent.entry else {
        unreachable!();
    };
    into.absorb(rt, mine, &delta)
}
