//! The bill of a log: kept by a book, or made from the log when it is asked.
ghost use Rattle.std.specs.Prelude.{◌≡◌, List, IfOk, OnErr, OnOk, false, true};
ghost use Rattle.std.specs.List.Sorted.{IsStrictlySortedBy};
ghost use Rattle.tca_join.specs.Sets.{put};
ghost use Rattle.tca_report.specs.report.Reports.{PacketReport, report_cmp};
ghost use Rattle.tca_log.specs.Disputes as disputes;
ghost use Rattle.tca_accounts.specs.Bills.{bill_of};
ghost use Rattle.tca_replay.specs.Books.{IsReady, Takes};
ghost use Rattle.tca_gossip.specs.inside.Storage.{Bills, IsResumed};

use std::alloc::{AllocError, Global};
use std::marker::Model;
use tca_accounts::{Bill, Plan, bill_all};
use tca_log::{Added, Log};
use tca_replay::Book;
use tca_report::Report;

/// After how many rows a book's lanes have a mark.
const ROWS_A_MARK: u32 = 256;

/// The bill of a log. A book keeps it, so that a late report costs what follows it. After many reports at once no book is kept
/// until a single report comes that is new, to the log in a take and to its chain in an absorb, or a book is asked for: whoever
/// takes a few long lists meters the log once, when the bill is asked, and not once a list.
#[derive(Drop)]
pub(crate) struct Billing {
    book: Book,
    is_kept: bool,
}

impl Model for Billing {
    ghost use Rattle.tca_gossip.specs.inside.Storage.{BillingView};

    ghost Value = { BillingView };

    ghost view = { λ b. record { plan = b.book.plan; kept = b.is_kept; book = b.book } };
}

impl Billing {
    ghost use Rattle.std.specs.Prelude.{[]};

    /// The bill of no reports.
    pub(crate) fn new(alloc: Global, plan: Plan) -> Result<Billing, AllocError>
        ensures plan { IfOk result (λ b. b.plan ≡ plan) }
        ensures kept { IfOk result (λ b. b.kept ≡ true) }
        ensures bills { IfOk result (Bills []) }
        ensures resumed { IfOk result IsResumed }
    {
        Ok(Billing {
            book: Book::new(alloc, plan, ROWS_A_MARK)?,
            is_kept: true,
        })
    }

    /// Whether a book is kept. Else each bill is made from the whole log.
    pub(crate) fn is_kept(&self) -> bool
        ensures { result ≡ self.now.kept }
    {
        self.is_kept
    }

    /// Makes the log's book where none is kept, and meters it. Where a growth is refused there is none still, and nothing changes.
    pub(crate) fn keep(&mut self, alloc: Global, log: &Log) -> Result<(), AllocError>
        requires { Bills log.now self.old }
        ensures plan { self.new.plan ≡ self.old.plan }
        ensures kept { OnOk result (self.new.kept ≡ true) }
        ensures none { OnErr result (self.new.kept ≡ false) }
        ensures same { self.old.kept ≡ true → self.new ≡ self.old }
        ensures err { OnErr result (self.new ≡ self.old) }
        ensures resumed { IsResumed self.old → IsResumed self.new }
        ensures bills { Bills log.now self.new }
    {
        if !self.is_kept {
            self.book.refit(alloc, log)?;
            self.is_kept = true;
        }
        Ok(())
    }

    /// Makes all room for one report, and the log's book where none is kept.
    pub(crate) fn ready(
        &mut self,
        alloc: Global,
        log: &Log,
        report: &Report,
    ) -> Result<(), AllocError>
        requires { Bills log.now self.old }
        ensures plan { self.new.plan ≡ self.old.plan }
        ensures kept { OnOk result (self.new.kept ≡ true) }
        ensures stays { self.old.kept ≡ true → self.new.kept ≡ true }
        ensures room { OnOk result (IsReady self.new.book report.now) }
        ensures bills { Bills log.now self.new }
    {
        self.keep(alloc, log)?;
        self.book.ready(report)
    }

    /// Applies what a log answered to a report, where there is room for it. It takes no memory.
    pub(crate) fn apply(&mut self, report: Report, added: Added)
        requires kept { self.old.kept ≡ true }
        requires ready { IsReady self.old.book report }
        requires takes { Takes self.old.book report added }
        ensures plan { self.new.plan ≡ self.old.plan }
        ensures kept { self.new.kept ≡ self.old.kept }
        ensures bills { (rs : List PacketReport) → IsStrictlySortedBy report_cmp rs → Bills rs self.old → added ≡ disputes.added rs report → Bills (put report_cmp report rs) self.new }
    {
        self.book.apply(report, added);
    }

    /// Meters again what changed. It takes no memory.
    pub(crate) fn settle(&mut self)
        ensures plan { self.new.plan ≡ self.old.plan }
        ensures kept { self.new.kept ≡ self.old.kept }
        ensures resumed { IsResumed self.new }
        ensures bills { (rs : List PacketReport) → Bills rs self.old → Bills rs self.new }
    {
        if self.is_kept {
            self.book.settle();
        }
    }

    /// Keeps no book any more, so that this is the bill of any log. The book's rows are given back once there are lanes without rows in
    /// their place; where there is no memory for those lanes, the rows are held until a book is made again.
    pub(crate) fn release(&mut self, alloc: Global)
        ensures plan { self.new.plan ≡ self.old.plan }
        ensures kept { self.new.kept ≡ false }
    {
        if self.is_kept {
            let _held = self.book.refit(alloc, &Log::new(alloc));
            self.is_kept = false;
        }
    }

    /// The bill of the log.
    pub(crate) fn totals(&self, alloc: Global, log: &Log) -> Result<Bill, AllocError>
        requires bills { Bills log.now self.now }
        requires resumed { IsResumed self.now }
        ensures { IfOk result (λ bill. bill ≡ bill_of self.now.plan log.now) }
    {
        if self.is_kept {
            self.book.totals(alloc)
        } else {
            bill_all(alloc, self.book.plan(), log)
        }
    }
}
