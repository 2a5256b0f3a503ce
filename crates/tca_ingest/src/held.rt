//! What lies under the lock of a shared replica, and the calls on it.
ghost use Rattle.std.specs.Prelude.{◌≡◌, ◌≢◌, ◌+◌, ◌≤◌, ◌↔◌, [], ◌∷◌, ◌++◌, IfOk, IfErr, IsTrue, OnErr, length};
ghost use Rattle.tca_ingest.specs.Entries.{pass_of};
ghost use Rattle.tca_ingest.specs.EntryViews.{entry_view, entry_views};
ghost use Rattle.tca_ingest.specs.Journals.{IsHistory, after_entry};
ghost use Rattle.tca_ingest.specs.Shares.{Appends, IsAbsorbInto, IsTakeInto, IsReplayed, delta_since, ledger_parts, most_entries, most_passes, new_held, statement_of, summary_of};

use crate::copies::{EntryCopies, ReportCopies, RunCopies};
use crate::entry::{Entry, Receipt};
use crate::fault::ShareFault;
use crate::note::{note, reserve};
use crate::pass::Pass;
use crate::side::Side;
use std::alloc::{AllocError, Global};
use std::marker::Model;
use std::sync::ledger::{Blank, Book, Share};
use tca_accounts::Plan;
use tca_gossip::{Delta, Replica, Summary};
use tca_join::{Items, Join};
use tca_report::Report;

/// At most as many entries of a journal.
pub(crate) const MOST_ENTRIES: usize = 1 << 20;

/// At most as many passes of a replica, whose numbers are below this.
pub(crate) const MOST_PASSES: u32 = 65_536;

/// A replica with its journal, the count of its passes, and the book of a ledger in which each pass has a share: the book's total is
/// how many entries the journal has, and the share's amount how many the list of the pass has.
///
/// Whenever nobody calls, the journal is the history of one thread that made its calls, one after another, on a new replica, and
/// each answer in it is right.
#[derive(Drop)]
pub struct Held<L: Side> {
    alloc: Global,
    replica: Replica,
    journal: Vec<Entry>,
    passes: u32,
    book: Book<L>,
    // the parts of the ledger that no pass has
    rest: Share<L>,
}

impl<L: Side> Model for Held<L> {
    ghost use Rattle.std.specs.Prelude.{◌≡◌, ◌+◌, length};
    ghost use Rattle.tca_ingest.specs.EntryViews.{entry_views};
    ghost use Rattle.tca_ingest.specs.Journals.{IsHistory};
    ghost use Rattle.tca_ingest.specs.Shares.{HeldView, ledger_parts};

    ghost Value = { HeldView };

    ghost view = { λ h. record { replica = h.replica; journal = entry_views h.journal.items; passes = h.passes } };

    ghost invariant = { λ h. IsHistory L.plan L.called h.replica (entry_views h.journal.items) × (h.book.total ≡ length h.journal.items) × (h.rest.parts + h.passes ≡ ledger_parts) × (h.rest.amount ≡ 0) };
}

impl<L: Side> Held<L> {
    /// A new replica of this name and plan, with an empty journal and no passes. `AllocError` comes where a growth was refused: then there
    /// is no replica, and plan and blank are gone.
    pub fn new(alloc: Global, blank: Blank, name: u32, plan: Plan) -> Result<Held<L>, AllocError>
        requires name { blank.name ≡ L.name }
        requires parts { (blank.parts ≡ L.parts) × (L.parts ≡ ledger_parts) }
        requires called { name ≡ L.called }
        requires plan { plan ≡ L.plan }
        ensures { IfOk result (λ h. h ≡ new_held plan name) }
    {
        let replica = Replica::new(alloc, name, plan)?;
        let (book, rest) = blank.open::<L>();
        Ok(Held {
            alloc,
            replica,
            journal: Vec::new(alloc),
            passes: 0,
            book,
            rest,
        })
    }

    /// A new pass. `PassesOut` comes where 65,536 passes were made, and changes nothing. It takes no memory.
    pub fn pass(&mut self) -> Result<Pass<L>, ShareFault>
        ensures made { IfOk result (λ p. p ≡ record { number = self.old.passes; calls = [] }) }
        ensures ok { IfOk result (λ p. self.new ≡ record { replica = self.old.replica; journal = self.old.journal; passes = self.old.passes + 1 }) }
        ensures out { (result ≡ Err ShareFault.PassesOut) ↔ (most_passes ≤ self.old.passes) }
        ensures fault { IfErr result (λ f. f ≡ ShareFault.PassesOut) }
        ensures err { OnErr result (self.new ≡ self.old) }
    {
        if self.passes >= MOST_PASSES {
            return Err(ShareFault::PassesOut);
        }
        let share = self.rest.split_off(1, 0);
        let number = self.passes;
        self.passes += 1;
        Ok(Pass::new(self.alloc, number, share))
    }

    /// The calls so far, in order.
    pub fn journal(&self) -> &[Entry]
        ensures calls { entry_views result.now ≡ self.now.journal }
        ensures history { IsHistory L.plan L.called self.now.replica self.now.journal }
        ensures replayed { IsReplayed L.plan L.called self.now.replica self.now.journal }
    {
        &self.journal
    }

    /// The replica.
    pub fn replica(&self) -> &Replica
        ensures replica { result.now ≡ self.now.replica }
        ensures history { IsHistory L.plan L.called self.now.replica self.now.journal }
        ensures replayed { IsReplayed L.plan L.called self.now.replica self.now.journal }
    {
        &self.replica
    }

    /// How many passes were made.
    pub fn passes(&self) -> u32
        ensures { result ≡ self.now.passes }
    {
        self.passes
    }

    // Whether the journal has no room for an entry more.
    fn is_full(&self) -> bool
        ensures { IsTrue result ↔ (most_entries ≤ length self.now.journal) }
    {
        self.journal.len() >= MOST_ENTRIES
    }

    /// Takes reports by the replica's `take`, and writes down those that are held since. `JournalFull` comes where the journal has
    /// 1,048,576 entries, `Memory` where a growth was refused for what is written down. Both change nothing. A growth that the
    /// replica was refused stands in the entry.
    pub fn take(&mut self, mine: &mut Pass<L>, reports: &[Report]) -> Result<Receipt, ShareFault>
        ensures appends { IfOk result (λ r. Appends self.old self.new mine.old mine.new (entry_view r.entry) r.front) }
        ensures took { IfOk result (λ r. IsTakeInto self.new.replica.log reports.now mine.old.number (entry_view r.entry)) }
        ensures full { (result ≡ Err ShareFault.JournalFull) ↔ (most_entries ≤ length self.old.journal) }
        ensures fault { IfErr result (λ f. f ≢ ShareFault.PassesOut) }
        ensures err { OnErr result ((self.new ≡ self.old) × (mine.new ≡ mine.old)) }
    {
        if self.is_full() {
            return Err(ShareFault::JournalFull);
        }
        let list = Vec::from_slice(self.alloc, reports)?;
        let list = Items::of(self.alloc, list)?;
        self.take_list(mine, list)
    }

    /// Takes the reports of a list as `take` does. The entry shares the list, and so does the replica where it can, so that the
    /// reports aren't copied; nor are they sorted where their set stands beside the list.
    pub fn take_list(
        &mut self,
        mine: &mut Pass<L>,
        reports: Items<Report>,
    ) -> Result<Receipt, ShareFault>
        ensures appends { IfOk result (λ r. Appends self.old self.new mine.old mine.new (entry_view r.entry) r.front) }
        ensures took { IfOk result (λ r. IsTakeInto self.new.replica.log reports mine.old.number (entry_view r.entry)) }
        ensures full { (result ≡ Err ShareFault.JournalFull) ↔ (most_entries ≤ length self.old.journal) }
        ensures fault { IfErr result (λ f. f ≢ ShareFault.PassesOut) }
        ensures err { OnErr result ((self.new ≡ self.old) × (mine.new ≡ mine.old)) }
    {
        if self.is_full() {
            return Err(ShareFault::JournalFull);
        }
        let copies = ReportCopies::of(reports)?;
        let list = copies.share()?;
        reserve(&mut self.journal, &mut mine.calls, &mut mine.places)?;
        let taken = self.replica.take_shared(list);
        let entry = copies.into_entries(mine.number, taken);
        Ok(note(
            &mut self.journal,
            &mut self.book,
            &mut mine.calls,
            &mut mine.places,
            &mut mine.share,
            entry,
        ))
    }

    // Writes down what the replica answered, which stays as it is.
    fn append(&mut self, mine: &mut Pass<L>, entry: Entry) -> Result<Receipt, ShareFault>
        requires right { IsHistory L.plan L.called self.old.replica (self.old.journal ++ entry_view entry ∷ []) }
        requires stays { after_entry self.old.replica (entry_view entry) ≡ self.old.replica }
        requires whose { pass_of (entry_view entry) ≡ mine.old.number }
        ensures appends { IfOk result (λ r. Appends self.old self.new mine.old mine.new (entry_view r.entry) r.front) }
        ensures exact { IfOk result (λ r. entry_view r.entry ≡ entry_view entry) }
        ensures fault { IfErr result (λ f. f ≡ ShareFault.Memory) }
        ensures err { OnErr result ((self.new ≡ self.old) × (mine.new ≡ mine.old)) }
    {
        let entry = EntryCopies::of(self.alloc, entry)?;
        reserve(&mut self.journal, &mut mine.calls, &mut mine.places)?;
        Ok(note(
            &mut self.journal,
            &mut self.book,
            &mut mine.calls,
            &mut mine.places,
            &mut mine.share,
            entry,
        ))
    }

    /// The bill of what the replica holds. The replica stays as it is. It is refused as `take` is, and `Memory` comes also where a
    /// growth was refused for the bill.
    pub fn statement(&mut self, mine: &mut Pass<L>) -> Result<Receipt, ShareFault>
        ensures appends { IfOk result (λ r. Appends self.old self.new mine.old mine.new (entry_view r.entry) r.front) }
        ensures exact { IfOk result (λ r. entry_view r.entry ≡ statement_of self.old.replica mine.old.number) }
        ensures full { (result ≡ Err ShareFault.JournalFull) ↔ (most_entries ≤ length self.old.journal) }
        ensures fault { IfErr result (λ f. f ≢ ShareFault.PassesOut) }
        ensures err { OnErr result ((self.new ≡ self.old) × (mine.new ≡ mine.old)) }
    {
        if self.is_full() {
            return Err(ShareFault::JournalFull);
        }
        // Later statements then cost what changed. Where there is no memory for the book the bill is made without it.
        let _without = self.replica.keep_book();
        let bill = self.replica.totals()?;
        self.append(
            mine,
            Entry::Answered {
                pass: mine.number,
                bill,
            },
        )
    }

    /// How long each chain of the replica is. The replica stays as it is. It is refused as `take` is, and `Memory` comes also where
    /// a growth was refused for the summary.
    pub fn summary(&mut self, mine: &mut Pass<L>) -> Result<Receipt, ShareFault>
        ensures appends { IfOk result (λ r. Appends self.old self.new mine.old mine.new (entry_view r.entry) r.front) }
        ensures exact { IfOk result (λ r. entry_view r.entry ≡ summary_of self.old.replica mine.old.number) }
        ensures full { (result ≡ Err ShareFault.JournalFull) ↔ (most_entries ≤ length self.old.journal) }
        ensures fault { IfErr result (λ f. f ≢ ShareFault.PassesOut) }
        ensures err { OnErr result ((self.new ≡ self.old) × (mine.new ≡ mine.old)) }
    {
        if self.is_full() {
            return Err(ShareFault::JournalFull);
        }
        let summary = self.replica.summary()?;
        self.append(
            mine,
            Entry::Asked {
                pass: mine.number,
                summary,
            },
        )
    }

    /// What the replica holds past a summary. The replica stays as it is. It is refused as `take` is, and `Memory` comes also where
    /// a growth was refused for the delta.
    pub fn delta(&mut self, mine: &mut Pass<L>, since: &Summary) -> Result<Receipt, ShareFault>
        ensures appends { IfOk result (λ r. Appends self.old self.new mine.old mine.new (entry_view r.entry) r.front) }
        ensures exact { IfOk result (λ r. entry_view r.entry ≡ delta_since self.old.replica since.now mine.old.number) }
        ensures full { (result ≡ Err ShareFault.JournalFull) ↔ (most_entries ≤ length self.old.journal) }
        ensures fault { IfErr result (λ f. f ≢ ShareFault.PassesOut) }
        ensures err { OnErr result ((self.new ≡ self.old) × (mine.new ≡ mine.old)) }
    {
        if self.is_full() {
            return Err(ShareFault::JournalFull);
        }
        let delta = self.replica.delta(since)?;
        let since = since.copy()?;
        self.append(
            mine,
            Entry::Sent {
                pass: mine.number,
                since,
                delta,
            },
        )
    }

    /// Absorbs a delta by the replica's `absorb`, and writes down its runs and the replica's answer. It is refused as `take` is. A
    /// fault of the replica's own stands in the entry.
    pub fn absorb(&mut self, mine: &mut Pass<L>, delta: &Delta) -> Result<Receipt, ShareFault>
        ensures appends { IfOk result (λ r. Appends self.old self.new mine.old mine.new (entry_view r.entry) r.front) }
        ensures absorbed { IfOk result (λ r. IsAbsorbInto self.old.replica self.new.replica delta.now mine.old.number (entry_view r.entry)) }
        ensures full { (result ≡ Err ShareFault.JournalFull) ↔ (most_entries ≤ length self.old.journal) }
        ensures fault { IfErr result (λ f. f ≢ ShareFault.PassesOut) }
        ensures err { OnErr result ((self.new ≡ self.old) × (mine.new ≡ mine.old)) }
    {
        if self.is_full() {
            return Err(ShareFault::JournalFull);
        }
        let copies = RunCopies::of(self.alloc, delta.runs())?;
        reserve(&mut self.journal, &mut mine.calls, &mut mine.places)?;
        let answer = self.replica.absorb(delta);
        let entry = copies.into_entries(mine.number, answer);
        Ok(note(
            &mut self.journal,
            &mut self.book,
            &mut mine.calls,
            &mut mine.places,
            &mut mine.share,
            entry,
        ))
    }

    /// The ledger: the book, and the share that no pass has.
    pub(crate) fn into_ledger(self) -> (Book<L>, Share<L>)
        ensures book { result.0.total ≡ length self.journal }
        ensures share { result.1.amount ≡ 0 }
    {
        let Held { book, rest, .. } = self;
        (book, rest)
    }

    /// The replica and its journal. It takes no memory.
    pub(crate) fn into_parts(self) -> (Replica, Vec<Entry>)
        ensures replica { result.0 ≡ self.replica }
        ensures journal { entry_views result.1.items ≡ self.journal }
        ensures history { IsHistory L.plan L.called self.replica self.journal }
        ensures replayed { IsReplayed L.plan L.called self.replica self.journal }
    {
        let Held {
            replica,
            journal,
            ..
        } = self;
        (replica, journal)
    }
}
