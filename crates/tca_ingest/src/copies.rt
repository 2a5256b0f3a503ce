//! Room for the three places where an entry stands: the journal, the list of its pass, and its receipt. It is made before the
//! replica changes.
ghost use Rattle.std.specs.Prelude.{◌≡◌, IfOk, length, take, ◌≤◌};
ghost use Rattle.tca_ingest.specs.Entries.{Absorbed, Took};
ghost use Rattle.tca_ingest.specs.EntryViews.{entry_view};

use crate::entry::Entry;
use std::alloc::{AllocError, Global};
use std::marker::Model;
use tca_gossip::{AbsorbFault, Run, Taken};
use tca_join::Items;
use tca_report::Report;

/// An entry, three times.
#[derive(Drop)]
pub(crate) struct EntryCopies {
    pub(crate) journal: Entry,
    pub(crate) pass: Entry,
    pub(crate) receipt: Entry,
}

impl Model for EntryCopies {
    ghost use Rattle.std.specs.Prelude.{◌≡◌};
    ghost use Rattle.tca_ingest.specs.Entries.{EntryView};
    ghost use Rattle.tca_ingest.specs.EntryViews.{entry_view};

    ghost Value = { EntryView };

    ghost view = { λ c. entry_view c.journal };

    ghost invariant = { λ c. (entry_view c.pass ≡ entry_view c.journal) × (entry_view c.receipt ≡ entry_view c.journal) };
}

impl EntryCopies {
    /// This entry, three times.
    pub(crate) fn of(alloc: Global, entry: Entry) -> Result<EntryCopies, AllocError>
        ensures { IfOk result (λ c. c ≡ entry_view entry) }
    {
        let pass = entry.copy(alloc)?;
        let receipt = entry.copy(alloc)?;
        Ok(EntryCopies {
            journal: entry,
            pass,
            receipt,
        })
    }
}

/// Reports for an entry that stands three times. The list itself stands once.
#[derive(Drop)]
pub(crate) struct ReportCopies {
    journal: Items<Report>,
    pass: Items<Report>,
    receipt: Items<Report>,
}

impl Model for ReportCopies {
    ghost use Rattle.std.specs.Prelude.{◌≡◌, List};
    ghost use Rattle.tca_report.specs.report.Reports.{PacketReport};

    ghost Value = { List PacketReport };

    ghost view = { λ c. c.journal };

    ghost invariant = { λ c. (c.pass ≡ c.journal) × (c.receipt ≡ c.journal) };
}

impl ReportCopies {
    /// The reports of this list, which all three share.
    pub(crate) fn of(journal: Items<Report>) -> Result<ReportCopies, AllocError>
        ensures { IfOk result (λ c. c ≡ journal) }
    {
        let pass = journal.share()?;
        let receipt = journal.share()?;
        Ok(ReportCopies {
            journal,
            pass,
            receipt,
        })
    }

    /// The reports for one owner more.
    pub(crate) fn share(&self) -> Result<Items<Report>, AllocError>
        ensures { IfOk result (λ reports. reports ≡ self.now) }
    {
        self.journal.share()
    }

    /// The entry of a take that went so far.
    pub(crate) fn into_entries(self, pass: u32, taken: Taken) -> EntryCopies
        requires { taken.taken ≤ length self }
        ensures { result ≡ Took pass (take taken.taken self) taken.fresh taken.stop }
    {
        EntryCopies {
            journal: took(pass, self.journal, &taken),
            pass: took(pass, self.pass, &taken),
            receipt: took(pass, self.receipt, &taken),
        }
    }
}

// The entry of a take of these reports that went so far.
fn took(pass: u32, reports: Items<Report>, taken: &Taken) -> Entry
    requires { taken.now.taken ≤ length reports }
    ensures { entry_view result ≡ Took pass (take taken.now.taken reports) taken.now.fresh taken.now.stop }
{
    Entry::Took {
        pass,
        reports: reports.first(taken.taken as usize),
        fresh: taken.fresh,
        stop: taken.stop,
    }
}

/// Runs, three times.
#[derive(Drop)]
pub(crate) struct RunCopies {
    journal: Vec<Run>,
    pass: Vec<Run>,
    receipt: Vec<Run>,
}

impl Model for RunCopies {
    ghost use Rattle.std.specs.Prelude.{◌≡◌, List};
    ghost use Rattle.tca_gossip.specs.Runs.{RunView};

    ghost Value = { List RunView };

    ghost view = { λ c. c.journal.items };

    ghost invariant = { λ c. (c.pass.items ≡ c.journal.items) × (c.receipt.items ≡ c.journal.items) };
}

impl RunCopies {
    /// These runs, three times.
    pub(crate) fn of(alloc: Global, runs: &[Run]) -> Result<RunCopies, AllocError>
        ensures { IfOk result (λ c. c ≡ runs.now) }
    {
        Ok(RunCopies {
            journal: Run::copies(alloc, runs)?,
            pass: Run::copies(alloc, runs)?,
            receipt: Run::copies(alloc, runs)?,
        })
    }

    /// The entry of an absorb that was answered so.
    pub(crate) fn into_entries(self, pass: u32, answer: Result<u64, AbsorbFault>) -> EntryCopies
        ensures { result ≡ Absorbed pass self answer }
    {
        EntryCopies {
            journal: absorbed(pass, self.journal, answer),
            pass: absorbed(pass, self.pass, answer),
            receipt: absorbed(pass, self.receipt, answer),
        }
    }
}

// The entry of an absorb of these runs that was answered so.
fn absorbed(pass: u32, runs: Vec<Run>, answer: Result<u64, AbsorbFault>) -> Entry
    ensures { entry_view result ≡ Absorbed pass runs.items answer }
{
    Entry::Absorbed {
        pass,
        runs,
        result: answer,
    }
}
